use super::*;
use mv_rules::Rule;
use std::alloc::{AllocError, Global};
use std::rc::Rc;
use std::test::Fail;

// Pictures of these counts, one in each access unit, each with its count as the picture.
fn buffer_of(alloc: Global, counts: &[i32]) -> Result<Buffer<i32>, AllocError> {
    let mut buffer = Buffer::new(alloc)?;
    for (i, count) in counts.iter().enumerate() {
        if buffer.held().len() < 16 {
            buffer.insert(*count, i as u64, Rc::new(alloc, *count)?);
        }
    }
    Ok(buffer)
}

fn is_held(buffer: &Buffer<i32>, place: u8, held: Held) -> bool {
    buffer.held().get(place as usize) == Some(&held)
        && buffer.lookup(place).map(|pic| **pic) == Some(held.count)
}

#[test]
fn a_buffer_holds_sixteen(rt: HostRuntime) -> Result<(), Fail> {
    let counts = [9, 0, 8, 4, 2, 1, 3, 6, 5, 7, 16, 12, 10, 11, 14, i32::MIN];
    let mut buffer = buffer_of(rt.alloc(), &counts)?;
    assert_eq!(rt; buffer.held().len(), 16);
    for (i, count) in counts.iter().enumerate() {
        let held = Held {
            count: *count,
            au: i as u64,
            long: false,
        };
        assert!(rt; is_held(&buffer, i as u8, held));
    }
    assert!(rt; buffer.lookup(16).is_none());
    assert!(rt; buffer.lookup(255).is_none());
    buffer.clear();
    assert!(rt; buffer.held().is_empty());
    assert!(rt; buffer.lookup(0).is_none());
    Ok(())
}

const SHORT: bool = false;

const LONG: bool = true;

#[test]
fn a_buffer_keeps_what_is_named(rt: HostRuntime) -> Result<(), Fail> {
    let mut buffer = buffer_of(rt.alloc(), &[4, 2, 3])?;
    assert_eq!(rt; buffer.held().len(), 3);
    buffer.apply(&[
        Keep {
            place: 0,
            long: SHORT,
        },
        Keep {
            place: 1,
            long: LONG,
        },
    ]);
    assert_eq!(rt; buffer.held().len(), 2);
    assert!(rt;
        is_held(
            &buffer,
            0,
            Held {
                count: 4,
                au: 0,
                long: SHORT
            }
        )
    );
    assert!(rt;
        is_held(
            &buffer,
            1,
            Held {
                count: 2,
                au: 1,
                long: LONG
            }
        )
    );
    buffer.insert(7, 9, Rc::new(rt.alloc(), 7)?);
    assert_eq!(rt; buffer.held().len(), 3);
    buffer.apply(&[
        Keep {
            place: 1,
            long: LONG,
        },
        Keep {
            place: 2,
            long: SHORT,
        },
    ]);
    assert_eq!(rt; buffer.held().len(), 2);
    assert!(rt;
        is_held(
            &buffer,
            0,
            Held {
                count: 2,
                au: 1,
                long: LONG
            }
        )
    );
    assert!(rt;
        is_held(
            &buffer,
            1,
            Held {
                count: 7,
                au: 9,
                long: SHORT
            }
        )
    );
    buffer.apply(&[]);
    assert!(rt; buffer.held().is_empty());
    Ok(())
}

// A reorder number, and steps by access unit and count, each with whether it is taken.
type OrderRow = (u8, &'static [(u64, i32, bool)]);

static ORDERS: &[OrderRow] = &[
    (1, &[(0, 8, true), (1, 4, true), (2, 2, false)]),
    (1, &[(0, 8, true), (1, 2, true)]),
    // Access units are counted, and not pictures.
    (
        1,
        &[
            (0, 8, true),
            (0, 8, true),
            (0, 8, true),
            (1, 4, true),
            (1, 4, true),
            (2, 2, false),
        ],
    ),
    // What was refused isn't counted.
    (
        1,
        &[
            (0, 8, true),
            (1, 6, true),
            (2, 2, false),
            (3, 4, false),
            (4, 6, true),
            (5, 7, true),
        ],
    ),
    // A count that is equal is none that is greater.
    (
        0,
        &[
            (0, 8, true),
            (1, 8, true),
            (2, 8, true),
            (3, 7, false),
            (4, 9, true),
        ],
    ),
    (
        0,
        &[
            (0, i32::MIN, true),
            (1, i32::MAX, true),
            (2, i32::MAX - 1, false),
        ],
    ),
    // Greatest counts stay, whatever came behind them.
    (
        2,
        &[
            (0, 9, true),
            (1, 8, true),
            (2, 1, true),
            (3, 0, false),
            (4, 2, true),
            (5, 3, true),
            (6, 1, false),
        ],
    ),
];

#[test]
fn late_pictures_are_refused(rt: HostRuntime) {
    for (reorder, steps) in ORDERS {
        let mut check = OrderCheck::new();
        if *reorder <= 15 {
            check.begin(63, *reorder);
        }
        for (au, count, taken) in *steps {
            let wanted = if *taken {
                Ok(())
            } else {
                Err(Rule::Reorder(63))
            };
            assert!(rt;
                check.step(63, *au, *count) == wanted,
                "access unit {au}, count {count}"
            );
        }
    }
}

#[test]
fn sets_are_checked_apart(rt: HostRuntime) {
    let mut check = OrderCheck::new();
    check.begin(0, 0);
    check.begin(5, 15);
    assert!(rt; check.step(0, 0, 3).is_ok());
    for i in 0..16u8 {
        assert!(rt; check.step(5, i as u64, 100 - i as i32).is_ok());
    }
    assert!(rt; check.step(5, 16, 84) == Err(Rule::Reorder(5)));
    assert!(rt; check.step(0, 1, 2) == Err(Rule::Reorder(0)));
    check.begin(0, 0);
    assert!(rt; check.step(0, 2, 2).is_ok());
    assert!(rt; check.step(5, 17, 84) == Err(Rule::Reorder(5)));
}

// A picture is named by its count and its layer.
fn name(count: i32, layer: u8) -> i64 {
    count as i64 * 100 + layer as i64
}

fn add(
    alloc: Global,
    waiting: &mut Waiting<i64>,
    au: u64,
    count: i32,
    layer: u8,
) -> Result<bool, AllocError> {
    if !waiting.has_room() {
        return Ok(false);
    }
    let shown = Shown {
        sequence: 1,
        count,
        layer,
        view: layer as u32 + 7,
    };
    waiting.push(shown, au, Rc::new(alloc, name(count, layer))?);
    Ok(true)
}

// What was given, if a picture was given as what is told of it.
fn named(given: Option<(Shown, Rc<i64>)>) -> Option<i64> {
    let (shown, pic) = given?;
    if *pic == name(shown.count, shown.layer)
        && shown.view == shown.layer as u32 + 7
        && shown.sequence == 1
    {
        Some(*pic)
    } else {
        None
    }
}

// An access unit: its count, its layers as they are added, and the pictures that then leave.
type UnitRow = (i32, &'static [u8], &'static [i64]);

// A reorder number, the number of output layers, access units, and the pictures that leave at the end.
type WaitRow = (u8, u8, &'static [UnitRow], &'static [i64]);

static WAITS: &[WaitRow] = &[
    (1, 1, &[(8, &[0], &[]), (2, &[0], &[200])], &[800]),
    (
        0,
        2,
        &[
            (3, &[0, 1], &[300, 301]),
            (4, &[1], &[401]),
            (-5, &[0], &[-500]),
        ],
        &[],
    ),
    // Layers rise, in whichever order they came.
    (
        1,
        2,
        &[
            (0, &[2, 1], &[]),
            (8, &[1, 2], &[1, 2]),
            (4, &[2, 1], &[401, 402]),
        ],
        &[801, 802],
    ),
    // Access units wait, and not pictures.
    (
        2,
        2,
        &[
            (0, &[0, 1], &[]),
            (8, &[0, 1], &[]),
            (4, &[0, 1], &[0, 1]),
            (2, &[0], &[200]),
        ],
        &[400, 401, 800, 801],
    ),
    // Of equal counts the access unit that came first leaves first.
    (
        1,
        1,
        &[(5, &[1], &[]), (5, &[0], &[501]), (5, &[3], &[500])],
        &[503],
    ),
    (0, 0, &[], &[]),
];

fn leave_as(rt: &impl std::process::Abort, waiting: &mut Waiting<i64>, wanted: &[i64]) {
    for pic in wanted {
        assert!(rt; named(waiting.bump()) == Some(*pic), "{pic} leaves");
    }
    assert!(rt; waiting.bump().is_none());
}

#[test]
fn pictures_leave_in_order(rt: HostRuntime) -> Result<(), Fail> {
    for (reorder, outputs, units, end) in WAITS {
        let mut waiting = Waiting::new(rt.alloc(), *reorder, *outputs)?;
        for (au, unit) in units.iter().enumerate() {
            for layer in unit.1 {
                assert!(rt; add(rt.alloc(), &mut waiting, au as u64, unit.0, *layer)?);
            }
            leave_as(&rt, &mut waiting, unit.2);
        }
        for pic in *end {
            assert!(rt; named(waiting.flush()) == Some(*pic), "{pic} is flushed");
        }
        assert!(rt; waiting.flush().is_none());
    }
    Ok(())
}

#[test]
fn an_access_unit_that_has_begun_leaves_whole(rt: HostRuntime) -> Result<(), Fail> {
    let mut waiting = Waiting::new(rt.alloc(), 3, 3)?;
    for layer in [4, 1, 2] {
        assert!(rt; add(rt.alloc(), &mut waiting, 6, 10, layer)?);
    }
    assert!(rt; waiting.bump().is_none());
    assert!(rt; named(waiting.flush()) == Some(1001));
    assert!(rt; add(rt.alloc(), &mut waiting, 7, -1, 1)?);
    leave_as(&rt, &mut waiting, &[-99, 1002, 1004]);
    assert!(rt; waiting.flush().is_none());
    Ok(())
}
