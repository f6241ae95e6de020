//! Output order of a sequence with two layers, and what is put out of one layer.

ghost use Rattle.std.specs.Prelude.{◌≤◌, IfOk};
ghost use Rattle.mv_vps.specs.Vps.{ValidVps};
ghost use Rattle.mv_walk_order.specs.OrderSteps.{reorder_in};

use mv_dpb::Shown;
use mv_rules::{ReadFault, Rule};
use mv_sps::{Sps, read_sps};
use mv_vps::{Vps, read_vps};
use mv_walk_order::{OutputOrder, OutputQueue};
use std::alloc::{AllocError, Global};
use std::rc::Rc;
use std::test::Fail;

// Two layers: set 0 has layer 0, and set 1 has both and the reorder number 1.
const TWO_SETS: &[u8] = &[
    0x0C, 0x11, 0xFF, 0xFF, 0x01, 0x60, 0x00, 0x00, 0x00, 0x90, 0x00, 0x00, 0x00, 0x00, 0x00, 0x5D,
    0x97, 0x05, 0x6F, 0x5D, 0x20, 0x00, 0x12, 0x10, 0xA7, 0x00, 0x40, 0x00, 0x40, 0xA0, 0x00, 0x52,
    0xAF, 0x48,
];

// A sequence parameter set with the reorder number 0.
const NONE_WAITS: &[u8] = &[
    0x01, 0x01, 0x60, 0x00, 0x00, 0x00, 0x90, 0x00, 0x00, 0x00, 0x00, 0x00, 0x5D, 0xA0, 0x20, 0x81,
    0x05, 0xE5, 0xEA, 0xF0, 0x82,
];

// A set, a layer, and whether the set puts it out.
static PUT_OUT: [(u32, u8, bool); 6] = [
    (0, 0, true),
    (0, 1, false),
    (1, 0, true),
    (1, 1, true),
    (1, 2, false),
    (2, 0, false),
];

// A set, its reorder number, and how many layers it puts out.
static NUMBERS: [(u32, u8, u8); 3] = [(0, 0, 1), (1, 1, 2), (2, 0, 0)];

// Pictures of a sequence: the layer, the access unit, the count, and the set that refuses it.
static PICTURES: [(u8, u64, i32, Option<u16>); 10] = [
    (0, 0, 8, None),
    (1, 0, 8, None),
    // Set 0 has no picture wait.
    (0, 1, 7, Some(0)),
    (1, 1, 7, None),
    // In set 1 one may: two access units have a greater count, of which one has two pictures.
    (1, 2, 6, Some(1)),
    (1, 2, 8, None),
    (1, 3, 7, Some(1)),
    (0, 4, 8, None),
    (0, 4, 8, None),
    // No set puts out layer 2.
    (2, 5, 0, None),
];

fn sps_of(alloc: Global) -> Result<Sps, ReadFault>
    ensures { IfOk result (λ sps. reorder_in sps.0 ≤ 15) }
{
    read_sps(alloc, 0, 0, NONE_WAITS)
}

// The parameter sets are owned apart from what is asked of the order, since the check of a function costs what it owns.
fn begin_with(alloc: Global, order: &mut OutputOrder, vps: &Vps) -> bool
    requires { ValidVps vps.now }
{
    match sps_of(alloc) {
        Ok(sps) => {
            order.begin(vps, &sps);
            true
        }
        Err(_) => false,
    }
}

fn begin(alloc: Global, order: &mut OutputOrder) -> bool {
    match read_vps(alloc, TWO_SETS) {
        Ok(vps) => begin_with(alloc, order, &vps),
        Err(_) => false,
    }
}

// The first place where a set puts out a layer, or doesn't, as it shouldn't.
fn first_wrongly_put_out(order: &OutputOrder) -> Option<usize> {
    for i in 0..PUT_OUT.len() {
        let (set, layer, put_out) = PUT_OUT[i];
        if order.puts_out(set, layer) != put_out {
            return Some(i);
        }
    }
    None
}

fn first_wrong_number(order: &OutputOrder) -> Option<usize> {
    for i in 0..NUMBERS.len() {
        let (set, reorder, outputs) = NUMBERS[i];
        if (order.reorder(set), order.outputs(set)) != (reorder, outputs) {
            return Some(i);
        }
    }
    None
}

fn answer(set: Option<u16>) -> Result<(), Rule> {
    match set {
        Some(set) => Err(Rule::Reorder(set)),
        None => Ok(()),
    }
}

// The first picture that isn't answered as it should be.
fn first_wrongly_counted(order: &mut OutputOrder) -> Option<usize> {
    for i in 0..PICTURES.len() {
        let (layer, au, count, set) = PICTURES[i];
        if order.step(layer, au, count) != answer(set) {
            return Some(i);
        }
    }
    None
}

#[test]
fn a_sequence_has_the_sets_of_its_parameter_sets(rt: HostRuntime) -> Result<(), Fail> {
    let mut order = OutputOrder::new();
    assert!(rt; !order.puts_out(0, 0));
    assert!(rt; begin(rt.alloc(), &mut order));
    assert_eq!(rt; first_wrongly_put_out(&order), None);
    assert_eq!(rt; first_wrong_number(&order), None);
    Ok(())
}

#[test]
fn late_pictures_are_refused_for_the_least_set(rt: HostRuntime) -> Result<(), Fail> {
    let mut order = OutputOrder::new();
    assert!(rt; begin(rt.alloc(), &mut order));
    assert_eq!(rt; first_wrongly_counted(&mut order), None);
    assert!(rt; begin(rt.alloc(), &mut order));
    assert!(rt; order.step(0, 6, 0).is_ok());
    Ok(())
}

// The counts of the pictures that are put out, each of an access unit of its own.
static COUNTS: [i32; 4] = [0, 8, 4, 2];

fn add(alloc: Global, queue: &mut OutputQueue<i32>, au: u64, count: i32) -> Result<(), AllocError> {
    let shown = Shown {
        sequence: 0,
        count,
        layer: 0,
        view: 0,
    };
    let picture = match Rc::new(alloc, count) {
        Ok(picture) => picture,
        Err(_) => return Err(AllocError),
    };
    if queue.has_room() {
        queue.push(shown, au, picture);
    }
    Ok(())
}

fn add_all(alloc: Global, queue: &mut OutputQueue<i32>) -> Result<(), AllocError> {
    queue.begin(alloc, 3, 1)?;
    for i in 0..COUNTS.len() {
        add(alloc, queue, i as u64, COUNTS[i])?;
    }
    Ok(())
}

// What leaves: the count that is told of it, and the picture.
fn bumped(queue: &mut OutputQueue<i32>) -> Option<(i32, i32)> {
    match queue.bump() {
        Some((shown, picture)) => Some((shown.count, *picture)),
        None => None,
    }
}

fn flushed(queue: &mut OutputQueue<i32>) -> Option<(i32, i32)> {
    match queue.flush() {
        Some((shown, picture)) => Some((shown.count, *picture)),
        None => None,
    }
}

#[test]
fn pictures_leave_in_output_order(rt: HostRuntime) -> Result<(), Fail> {
    let mut queue = OutputQueue::new();
    assert_eq!(rt; flushed(&mut queue), None);
    add_all(rt.alloc(), &mut queue)?;
    assert_eq!(rt; bumped(&mut queue), Some((0, 0)));
    assert_eq!(rt; bumped(&mut queue), None);
    for count in [2, 4, 8] {
        assert_eq!(rt; flushed(&mut queue), Some((count, count)));
    }
    assert_eq!(rt; flushed(&mut queue), None);
    Ok(())
}
