use super::*;
use mv_rules::Rule;
use mv_units::UnitHead;
use std::test::Fail;

// A unit by its type, layer and TemporalId, and of a slice segment whether it is the first one of its picture.
type Unit = (u8, u8, u8, Option<bool>);

const FIRST: Option<bool> = Some(true);

const LATER: Option<bool> = Some(false);

fn step(tracker: &mut AuTracker, unit: &Unit) -> Result<AuStep, Rule> {
    let head = UnitHead {
        kind: unit.0,
        layer: unit.1,
        tid: unit.2,
    };
    tracker.step(head, unit.3)
}

// Units of a stream, each with the number of its access unit and whether it begins it.
const STREAM: [(Unit, u64, bool); 27] = [
    ((35, 0, 0, None), 0, false),
    ((32, 0, 0, None), 0, false),
    ((33, 1, 0, None), 0, false),
    ((19, 0, 0, FIRST), 0, false),
    ((19, 0, 0, LATER), 0, false),
    ((40, 0, 0, None), 0, false),
    ((33, 1, 0, None), 0, false),
    ((1, 1, 0, FIRST), 0, false),
    ((1, 1, 0, LATER), 0, false),
    ((1, 2, 0, FIRST), 0, false),
    ((36, 0, 0, None), 0, false),
    ((38, 0, 0, None), 0, false),
    ((39, 0, 0, None), 1, true),
    ((34, 0, 0, None), 1, false),
    ((1, 0, 2, FIRST), 1, false),
    ((39, 1, 2, None), 1, false),
    ((0, 0, 2, FIRST), 2, true),
    ((0, 3, 2, FIRST), 2, false),
    ((45, 0, 0, None), 2, false),
    ((47, 0, 0, None), 2, false),
    ((56, 0, 0, None), 2, false),
    ((48, 0, 0, None), 3, true),
    ((55, 0, 0, None), 3, false),
    ((8, 0, 1, FIRST), 3, false),
    ((44, 0, 0, None), 4, true),
    ((41, 0, 0, None), 4, false),
    ((9, 0, 0, FIRST), 4, false),
];

#[test]
fn access_units_are_counted(rt: HostRuntime) {
    let mut tracker = AuTracker::new();
    for (unit, au, begins) in STREAM {
        assert!(rt;
            step(&mut tracker, &unit) == Ok(AuStep { au, begins }),
            "type {} of layer {} behind access unit {au}",
            unit.0,
            unit.1
        );
    }
}

// Each type of unit of layer 0 behind a picture, with those that begin an access unit.
#[test]
fn types_begin_access_units(rt: HostRuntime) {
    for kind in 0..64u8 {
        let mut tracker = AuTracker::new();
        assert!(rt; step(&mut tracker, &(1, 0, 0, FIRST)).is_ok());
        let begins = (32..36).contains(&kind)
            || kind == 39
            || (41..45).contains(&kind)
            || (48..56).contains(&kind);
        let au = u64::from(begins);
        let slice = kind < 10 || (16..22).contains(&kind);
        let first = if slice { LATER } else { None };
        assert!(rt;
            step(&mut tracker, &(kind, 0, 0, first)) == Ok(AuStep { au, begins }),
            "type {kind}"
        );
    }
}

// Units of which only the last is refused.
const REFUSED: [(&[Unit], Rule); 12] = [
    (&[(1, 1, 0, FIRST)], Rule::NoBase),
    (&[(1, 1, 0, LATER)], Rule::NoBase),
    (
        &[(1, 0, 0, FIRST), (35, 0, 0, None), (1, 1, 0, FIRST)],
        Rule::NoBase,
    ),
    (
        &[(1, 0, 0, FIRST), (1, 1, 0, FIRST), (1, 1, 0, FIRST)],
        Rule::LayerOrder,
    ),
    (
        &[(1, 0, 0, FIRST), (1, 2, 0, FIRST), (1, 1, 0, FIRST)],
        Rule::LayerOrder,
    ),
    (
        &[(1, 0, 0, FIRST), (1, 2, 0, FIRST), (1, 1, 5, FIRST)],
        Rule::LayerOrder,
    ),
    (&[(1, 0, 0, LATER)], Rule::OrphanSlice),
    (
        &[(1, 0, 0, FIRST), (1, 1, 0, FIRST), (1, 0, 0, LATER)],
        Rule::OrphanSlice,
    ),
    (&[(1, 0, 0, FIRST), (1, 1, 0, LATER)], Rule::OrphanSlice),
    (
        &[(1, 0, 0, FIRST), (35, 0, 0, None), (1, 0, 0, LATER)],
        Rule::OrphanSlice,
    ),
    (&[(1, 0, 0, FIRST), (1, 1, 1, FIRST)], Rule::TidDiffers),
    (
        &[(1, 0, 2, FIRST), (1, 1, 2, FIRST), (1, 2, 1, FIRST)],
        Rule::TidDiffers,
    ),
];

#[test]
fn rules_of_access_units(rt: HostRuntime) {
    for (units, rule) in REFUSED {
        let mut tracker = AuTracker::new();
        for (i, unit) in units.iter().enumerate() {
            let answer = step(&mut tracker, unit);
            assert!(rt;
                answer.is_ok() == (i + 1 < units.len()),
                "unit {i} before {rule:?}"
            );
            if let Err(broken) = answer {
                assert!(rt; broken == rule, "{rule:?}");
            }
        }
    }
}

// A refusal changes nothing.
#[test]
fn a_refused_unit_is_passed_over(rt: HostRuntime) {
    let mut tracker = AuTracker::new();
    assert!(rt; step(&mut tracker, &(1, 0, 3, FIRST)).is_ok());
    assert!(rt; step(&mut tracker, &(1, 1, 2, FIRST)) == Err(Rule::TidDiffers));
    assert!(rt; step(&mut tracker, &(1, 1, 3, LATER)) == Err(Rule::OrphanSlice));
    assert!(rt; step(&mut tracker, &(1, 1, 3, FIRST)).is_ok());
    let step = step(&mut tracker, &(1, 1, 3, LATER));
    assert!(rt;
        step == Ok(AuStep {
            au: 0,
            begins: false
        })
    );
}
