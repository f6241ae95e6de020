ghost use Rattle.std.specs.Prelude.{◌≡◌};
ghost use Rattle.mv_slice.specs.Context.{Fits};

use crate::tests::plain;
use crate::{RefFault, RefSet, Resolved};
use mv_dpb::{Held, Keep};
use mv_rules::Rule;
use mv_slice::{SliceContext, read_slice};
use mv_units::UnitHead;
use std::alloc::{AllocError, Global};
use std::test::Fail;

// A picture of layer 0 with 4 low bits of its count, that may have long-term reference pictures.
fn with_long_terms() -> SliceContext<'static>
    ensures fits { Fits result }
    ensures layer { result.layer ≡ 0 }
{
    SliceContext {
        long_term_ref_pics_present_flag: 1,
        ..plain()
    }
}

// Pictures with these counts, which are marked for long-term reference or not.
fn held_of(alloc: Global, pictures: &[(i32, bool)]) -> Result<Vec<Held>, AllocError> {
    let mut held = Vec::new(alloc);
    for (count, long) in pictures {
        held.push(Held {
            count: *count,
            au: 0,
            long: *long,
        })?;
    }
    Ok(held)
}

// What the set of a header, of a picture with a count, resolves to among those that are held.
fn resolve(
    alloc: Global,
    payload: &[u8],
    count: i32,
    pictures: &[(i32, bool)],
) -> Result<Resolved, RefFault> {
    let ctx = with_long_terms();
    let head = UnitHead {
        kind: 1,
        layer: 0,
        tid: 0,
    };
    let held = held_of(alloc, pictures)?;
    match read_slice(alloc, &ctx, head, payload) {
        Ok(read) if held.len() <= 256 => {
            RefSet::of(alloc, &read.head, &ctx, 1, count)?.resolve(alloc, &held)
        }
        _ => Err(RefFault::Refused(Rule::SliceSyntax)),
    }
}

// What a set resolves to: the places that are kept, with their marks, and the indexes into them.
#[derive(Clone, Copy)]
struct Parts {
    keep: &'static [(u8, bool)],
    before: &'static [u8],
    after: &'static [u8],
    long: &'static [u8],
}

fn is_kept(keep: &[Keep], wanted: &[(u8, bool)]) -> bool {
    keep.len() == wanted.len()
        && keep.iter().zip(wanted).all(|(one, (place, long))| one.place == *place
            && one.long == *long)
}

fn is_resolved(resolved: &Resolved, wanted: &Parts) -> bool {
    is_kept(&resolved.keep, wanted.keep)
        && resolved.before.as_slice() == wanted.before
        && resolved.after.as_slice() == wanted.after
        && resolved.long.as_slice() == wanted.long
}

// A header, the count of its picture, the pictures that are held, and what they resolve to, if they do.
type Row = (&'static [u8], i32, &'static [(i32, bool)], Option<Parts>);

fn is_answered(alloc: Global, row: Row) -> bool {
    let (payload, count, pictures, wanted) = row;
    match (resolve(alloc, payload, count, pictures), wanted) {
        (Ok(resolved), Some(parts)) => is_resolved(&resolved, &parts),
        (Err(fault), None) => fault == RefFault::Refused(Rule::MissingRef),
        _ => false,
    }
}

const TWO_BEFORE: &'static [u8] = &[0xD9, 0x9F, 0xF8];

const ONE_UNUSED: &'static [u8] = &[0xD9, 0x9E, 0xF8];

const ONE_BEFORE_TWO_AFTER: &'static [u8] = &[0xD9, 0x93, 0xFF, 0x80];

const NONE: &'static [u8] = &[0xD9, 0xBE];

#[test]
fn short_term_entries_match_by_distance(rt: HostRuntime) -> Result<(), Fail> {
    let rows: [Row; 7] = [
        (
            TWO_BEFORE,
            3,
            &[(1, false), (2, false)],
            Some(Parts {
                keep: &[(0, false), (1, false)],
                before: &[1, 0],
                after: &[],
                long: &[],
            }),
        ),
        // No entry names the first and the last.
        (
            TWO_BEFORE,
            3,
            &[(0, false), (1, false), (2, false), (4, true)],
            Some(Parts {
                keep: &[(1, false), (2, false)],
                before: &[1, 0],
                after: &[],
                long: &[],
            }),
        ),
        // One that is marked for long-term reference is no match, and a missing one is refused.
        (TWO_BEFORE, 3, &[(1, false), (2, true)], None),
        (TWO_BEFORE, 3, &[(2, false)], None),
        // An entry that the picture doesn't use keeps its match, and needs none.
        (
            ONE_UNUSED,
            3,
            &[(2, false), (1, false)],
            Some(Parts {
                keep: &[(0, false), (1, false)],
                before: &[1],
                after: &[],
                long: &[],
            }),
        ),
        (
            ONE_UNUSED,
            3,
            &[(1, false)],
            Some(Parts {
                keep: &[(0, false)],
                before: &[0],
                after: &[],
                long: &[],
            }),
        ),
        (
            ONE_BEFORE_TWO_AFTER,
            -1,
            &[(1, false), (-2, false), (0, false), (5, false)],
            Some(Parts {
                keep: &[(0, false), (1, false), (2, false)],
                before: &[1],
                after: &[2, 0],
                long: &[],
            }),
        ),
    ];
    for row in rows {
        assert!(rt; is_answered(rt.alloc(), row));
    }
    let parts = Parts {
        keep: &[],
        before: &[],
        after: &[],
        long: &[],
    };
    assert!(rt; is_answered(rt.alloc(), (NONE, 3, &[(2, false)], Some(parts))));
    Ok(())
}

const LOW_BITS_5: &'static [u8] = &[0xD9, 0xB4, 0xB6];

const LOW_BITS_5_UNUSED: &'static [u8] = &[0xD9, 0xB4, 0xA6];

const TWO_CYCLES: &'static [u8] = &[0xDB, 0xB6, 0xBD, 0x75, 0x80];

const SHORT_AND_LONG: &'static [u8] = &[0xD9, 0x97, 0x45, 0x60];

const UNUSED_AND_LONG: &'static [u8] = &[0xD9, 0x96, 0x45, 0x60];

#[test]
fn long_term_entries_match_first(rt: HostRuntime) -> Result<(), Fail> {
    let rows: [Row; 8] = [
        (LOW_BITS_5, 3, &[(4, false), (22, false)], None),
        // The last decoded of two with these low bits.
        (
            LOW_BITS_5,
            3,
            &[(4, false), (22, false), (5, false), (21, false)],
            Some(Parts {
                keep: &[(3, true)],
                before: &[],
                after: &[],
                long: &[0],
            }),
        ),
        (
            LOW_BITS_5,
            3,
            &[(-11, true)],
            Some(Parts {
                keep: &[(0, true)],
                before: &[],
                after: &[],
                long: &[0],
            }),
        ),
        (
            LOW_BITS_5_UNUSED,
            3,
            &[(5, false)],
            Some(Parts {
                keep: &[(0, true)],
                before: &[],
                after: &[],
                long: &[],
            }),
        ),
        // Counts 21 and 5 in full.
        (
            TWO_CYCLES,
            23,
            &[(5, false), (21, false), (37, false)],
            Some(Parts {
                keep: &[(0, true), (1, true)],
                before: &[],
                after: &[],
                long: &[1, 0],
            }),
        ),
        // The short-term entry takes the one that is left.
        (SHORT_AND_LONG, 3, &[(2, false)], None),
        (
            SHORT_AND_LONG,
            3,
            &[(2, false), (18, false)],
            Some(Parts {
                keep: &[(0, false), (1, true)],
                before: &[0],
                after: &[],
                long: &[1],
            }),
        ),
        (
            UNUSED_AND_LONG,
            3,
            &[(2, false)],
            Some(Parts {
                keep: &[(0, true)],
                before: &[],
                after: &[],
                long: &[0],
            }),
        ),
    ];
    for row in rows {
        assert!(rt; is_answered(rt.alloc(), row));
    }
    Ok(())
}
