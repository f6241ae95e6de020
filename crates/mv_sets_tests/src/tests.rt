//! Sets of two layers, the second of which refers to the first.

ghost use Rattle.std.specs.Prelude.{◌≡◌, ◌≤◌, ◌+◌, ◌*◌, length, true};
ghost use Rattle.mv_sets.specs.Formats.{FormatFits, SpsFormatFits};
ghost use Rattle.mv_vps.specs.Vps.{ValidVps};

use mv_pps::{Pps, read_pps};
use mv_rules::{ReadFault, Rule};
use mv_sets::SetStore;
use mv_sps::{Sps, SpsPictureFormat, read_sps};
use mv_vps::{Vps, read_vps};
use std::alloc::{AllocError, Global};
use std::test::Fail;

// A video parameter set of layers 0 and 1, of which 1 refers to 0, and with one format.
const TWO_VIEW: &[u8] = &[
    0x0C, 0x11, 0xFF, 0xFF, 0x01, 0x60, 0x00, 0x00, 0x00, 0x90, 0x00, 0x00, 0x00, 0x00, 0x00, 0x5D,
    0xAC, 0x15, 0xBF, 0x5D, 0x20, 0x00, 0x04, 0x59, 0x70, 0x60, 0x20, 0x00, 0x00, 0x09, 0x00, 0x00,
    0x00, 0x00, 0x00, 0x05, 0xD8, 0xD0, 0x04, 0x00, 0x04, 0x0A, 0x00, 0x89, 0x7D, 0x20,
];

// A sequence parameter set of id 0 that codes its format.
const SPS_0: &[u8] = &[
    0x01, 0x01, 0x60, 0x00, 0x00, 0x00, 0x90, 0x00, 0x00, 0x00, 0x00, 0x00, 0x5D, 0xA0, 0x20, 0x81,
    0x05, 0xEB, 0xAB, 0xC2, 0x08,
];

// One of id 1 with the format of its layer, and one with format 255.
const SPS_1: &[u8] = &[0x0E, 0x9A, 0xBC, 0x21, 0x40, 0x40];

const SPS_1_OF_255: &[u8] = &[0x0E, 0xBF, 0xFA, 0xBC, 0x21, 0x40, 0x40];

// Picture parameter sets: of id 0 that name the sequence parameter sets 0 and 1, and of id 1 that names 1.
const PPS_0_OF_0: &[u8] = &[0xC0, 0x71, 0x80, 0x12];

const PPS_0_OF_1: &[u8] = &[0xA0, 0x1C, 0x60, 0x04, 0x80];

const PPS_1_OF_1: &[u8] = &[0x48, 0x07, 0x18, 0x01, 0x20];

// What comes to a store, and what is asked of it.
#[derive(Clone, Copy)]
enum Step {
    // A set of a layer.
    Sps(u8, &'static [u8]),
    Pps(u8, &'static [u8]),
    Forget,
    // A layer and an id, and the layers and payloads of the picture and the sequence parameter set that serve.
    Serves(u8, u8, u8, &'static [u8], u8, &'static [u8]),
    Lacks(u8, u8, Rule),
}

static STEPS: [Step; 28] = [
    Step::Lacks(0, 0, Rule::MissingPps),
    Step::Pps(0, PPS_0_OF_0),
    // The picture parameter set is there, and the sequence parameter set that it names isn't.
    Step::Lacks(0, 0, Rule::MissingSps),
    Step::Sps(0, SPS_0),
    Step::Serves(0, 0, 0, PPS_0_OF_0, 0, SPS_0),
    // Layer 1 has the sets of layer 0 in reach.
    Step::Serves(1, 0, 0, PPS_0_OF_0, 0, SPS_0),
    Step::Lacks(1, 1, Rule::MissingPps),
    // A set of its own that is later comes before them, and layer 0 keeps its own.
    Step::Pps(1, PPS_0_OF_1),
    Step::Lacks(1, 0, Rule::MissingSps),
    Step::Sps(1, SPS_1),
    Step::Serves(1, 0, 1, PPS_0_OF_1, 1, SPS_1),
    Step::Serves(0, 0, 0, PPS_0_OF_0, 0, SPS_0),
    Step::Pps(1, PPS_1_OF_1),
    Step::Serves(1, 1, 1, PPS_1_OF_1, 1, SPS_1),
    Step::Lacks(0, 1, Rule::MissingPps),
    // So does a later one of layer 0.
    Step::Pps(0, PPS_0_OF_0),
    Step::Serves(1, 0, 0, PPS_0_OF_0, 0, SPS_0),
    // A set replaces the one of its layer and id: it has a format that the video parameter set hasn't.
    Step::Sps(1, SPS_1_OF_255),
    Step::Lacks(1, 1, Rule::MissingSps),
    Step::Sps(1, SPS_1),
    Step::Serves(1, 1, 1, PPS_1_OF_1, 1, SPS_1),
    Step::Pps(0, PPS_0_OF_1),
    Step::Lacks(0, 0, Rule::MissingSps),
    Step::Serves(1, 0, 0, PPS_0_OF_1, 1, SPS_1),
    // A layer that the video parameter set hasn't reaches none.
    Step::Lacks(2, 0, Rule::MissingPps),
    Step::Forget,
    Step::Lacks(0, 0, Rule::MissingPps),
    Step::Lacks(1, 1, Rule::MissingPps),
];

fn serves(
    store: &SetStore,
    vps: &Vps,
    layer: u8,
    id: u8,
    pps: (u8, &[u8]),
    sps: (u8, &[u8]),
) -> bool
    requires { ValidVps vps.now }
{
    match store.resolve(vps, layer, id) {
        Ok(active) => {
            active.pps.layer == pps.0
                && active.pps.payload.as_slice() == pps.1
                && active.sps.layer == sps.0
                && active.sps.payload.as_slice() == sps.1
                && active.format.width == 64
        }
        Err(_) => false,
    }
}

fn lacks(store: &SetStore, vps: &Vps, layer: u8, id: u8, rule: Rule) -> bool
    requires { ValidVps vps.now }
{
    match store.resolve(vps, layer, id) {
        Ok(_) => false,
        Err(fault) => fault == ReadFault::Refused(rule),
    }
}

fn is_small(format: &SpsPictureFormat) -> bool
    ensures { result ≡ true → FormatFits format.now }
{
    format.chroma_format_idc <= 3
        && format.bit_depth_luma_minus8 <= 8
        && format.bit_depth_chroma_minus8 <= 8
}

fn fits(sps: &Sps) -> bool
    ensures { result ≡ true → SpsFormatFits sps.now.0 }
{
    match &sps.pictures.picture_format {
        Some(format) => is_small(format),
        None => true,
    }
}

// Puts a set whose limits were tested.
fn put_sps(store: &mut SetStore, layer: u8, payload: &[u8], sps: Sps) -> bool
    requires count { store.old.sps.count ≤ 1000 }
    ensures sps { store.new.sps.count ≤ store.old.sps.count + 1 }
    ensures pps { store.new.pps.count ≤ store.old.pps.count }
{
    if layer >= 64 || sps.opening.sps_seq_parameter_set_id >= 16 || !fits(&sps) {
        return false;
    }
    match store.put_sps(layer, payload, sps) {
        Ok(()) => true,
        Err(_) => false,
    }
}

fn put_pps(store: &mut SetStore, layer: u8, payload: &[u8], pps: Pps) -> bool
    requires count { store.old.pps.count ≤ 1000 }
    ensures sps { store.new.sps.count ≤ store.old.sps.count }
    ensures pps { store.new.pps.count ≤ store.old.pps.count + 1 }
{
    if layer >= 64 || pps.opening.pps_pic_parameter_set_id >= 64 {
        return false;
    }
    match store.put_pps(layer, payload, pps) {
        Ok(()) => true,
        Err(_) => false,
    }
}

fn receive_sps(alloc: Global, store: &mut SetStore, layer: u8, payload: &[u8]) -> bool
    requires count { store.old.sps.count ≤ 1000 }
    ensures sps { store.new.sps.count ≤ store.old.sps.count + 1 }
    ensures pps { store.new.pps.count ≤ store.old.pps.count }
{
    match read_sps(alloc, layer, 0, payload) {
        Ok(sps) => put_sps(store, layer, payload, sps),
        Err(_) => false,
    }
}

fn receive_pps(alloc: Global, store: &mut SetStore, layer: u8, payload: &[u8]) -> bool
    requires count { store.old.pps.count ≤ 1000 }
    ensures sps { store.new.sps.count ≤ store.old.sps.count }
    ensures pps { store.new.pps.count ≤ store.old.pps.count + 1 }
{
    match read_pps(alloc, payload) {
        Ok(pps) => put_pps(store, layer, payload, pps),
        Err(_) => false,
    }
}

fn holds(alloc: Global, store: &mut SetStore, vps: &Vps, step: &Step) -> bool
    requires valid { ValidVps vps.now }
    requires sps { store.old.sps.count ≤ 1000 }
    requires pps { store.old.pps.count ≤ 1000 }
    ensures sps { store.new.sps.count ≤ store.old.sps.count + 1 }
    ensures pps { store.new.pps.count ≤ store.old.pps.count + 1 }
{
    match step {
        Step::Sps(layer, payload) => receive_sps(alloc, store, *layer, payload),
        Step::Pps(layer, payload) => receive_pps(alloc, store, *layer, payload),
        Step::Forget => {
            store.forget();
            true
        }
        Step::Serves(layer, id, pps_layer, pps, sps_layer, sps) => {
            serves(
                store,
                vps,
                *layer,
                *id,
                (*pps_layer, pps),
                (*sps_layer, sps),
            )
        }
        Step::Lacks(layer, id, rule) => lacks(store, vps, *layer, *id, *rule),
    }
}

// The first step that doesn't hold.
fn first_wrong(alloc: Global, store: &mut SetStore, vps: &Vps, steps: &[Step]) -> Option<usize>
    requires valid { ValidVps vps.now }
    requires empty { (store.old.sps.count ≡ 0) × (store.old.pps.count ≡ 0) }
    requires few { length steps.now ≤ 1000 }
{
    for i in 0..steps.len() {
        if !holds(alloc, store, vps, &steps[i]) {
            return Some(i);
        }
    }
    None
}

// The first step that doesn't hold, of a store that begins without sets. The store and the video parameter set are owned here,
// since the check of a function costs what it owns.
fn first_wrong_of_new(alloc: Global, vps: &Vps) -> Result<Option<usize>, AllocError>
    requires { ValidVps vps.now }
{
    let mut store = SetStore::new(alloc)?;
    Ok(first_wrong(alloc, &mut store, vps, &STEPS))
}

fn first_wrong_of_two_views(alloc: Global) -> Result<Option<usize>, AllocError> {
    match read_vps(alloc, TWO_VIEW) {
        Ok(vps) => first_wrong_of_new(alloc, &vps),
        Err(_) => Err(AllocError),
    }
}

#[test]
fn the_latest_sets_in_reach_serve(rt: HostRuntime) -> Result<(), Fail> {
    assert_eq!(rt; first_wrong_of_two_views(rt.alloc())?, None);
    Ok(())
}

// The latest set of a layer and an id is found by them.
#[test]
fn sets_are_found_by_layer_and_id(rt: HostRuntime) -> Result<(), Fail> {
    let mut store = SetStore::new(rt.alloc())?;
    assert!(rt; receive_sps(rt.alloc(), &mut store, 1, SPS_1));
    assert!(rt; receive_pps(rt.alloc(), &mut store, 0, PPS_0_OF_1));
    assert!(rt; store.sps(1, 1).is_some());
    assert!(rt; store.sps(0, 1).is_none());
    assert!(rt; store.pps(0, 0).is_some());
    assert!(rt; store.pps(0, 64).is_none());
    Ok(())
}
