//! What becomes of a buffer behind a reference picture set, and the parts of the set.
#![tactic(auto)]

ghost use Rattle.std.specs.Prelude.{◌≡◌, ◌≤◌, ◌<◌, false, All, AllPairs, length, IfOk, IfErr};
ghost use Rattle.std.specs.List.{filter_map};
ghost use Rattle.mv_rps.specs.declared.resolving.Part.TheVariants.{Before, After, Long};
ghost use Rattle.mv_rps.specs.Matched.{set_with, index_in, keep_of};
ghost use Rattle.mv_rps.specs.Refused.{IsTold};
ghost use Rattle.mv_rps.specs.Resolving.{is_after, is_before, is_long, is_missing, kept_of, missing, part};

use crate::entries::CodedEntry;
use crate::fault::RefFault;
use crate::resolving::{
    Match, Origin, Part, Places, has_lost, kept, long_places, matched_places, matches_of, part_of,
};
use mv_dpb::{Held, Keep};
use mv_rules::Rule;
use std::alloc::{AllocError, Global};

/// What becomes of a layer's buffer, and the parts of a reference picture set: of the pictures that are used, the indexes into
/// those that are kept.
#[derive(Debug, Drop)]
pub struct Resolved {
    /// The pictures that stay in the buffer; all others are unused for reference.
    pub keep: Vec<Keep>,
    /// RefPicSetStCurrBefore, in the order of the entries.
    pub before: Places,
    /// RefPicSetStCurrAfter.
    pub after: Places,
    /// RefPicSetLtCurr.
    pub long: Places,
}

// What is kept of a buffer, and the parts of a set, by the matches of its entries.
fn resolve_by(
    alloc: Global,
    longs: &[u8],
    matches: &[Match],
    held: &[Held],
) -> Result<Resolved, AllocError>
    requires { length held.now ≤ 256 }
    ensures keep { IfOk result (λ v. v.keep.items ≡ keep_of longs.now matches.now held.now) }
    ensures before { IfOk result (λ v. v.before.items ≡ filter_map (index_in Before (keep_of longs.now matches.now held.now)) matches.now) }
    ensures after { IfOk result (λ v. v.after.items ≡ filter_map (index_in After (keep_of longs.now matches.now held.now)) matches.now) }
    ensures long { IfOk result (λ v. v.long.items ≡ filter_map (index_in Long (keep_of longs.now matches.now held.now)) matches.now) }
{
    let places = matched_places(alloc, matches)?;
    let keep = kept(alloc, places.as_slice(), longs, held)?;
    let before = part_of(alloc, Part::Before, &keep, matches)?;
    let after = part_of(alloc, Part::After, &keep, matches)?;
    let long = part_of(alloc, Part::Long, &keep, matches)?;
    Ok(Resolved {
        keep,
        before,
        after,
        long,
    })
}

/// The same by the entries; `MissingRef` where one that is used has no match.
pub fn resolve_entries(
    alloc: Global,
    origin: Origin,
    entries: &[CodedEntry],
    held: &[Held],
) -> Result<Resolved, RefFault>
    requires some { 1 ≤ origin.max_lsb }
    requires few { origin.max_lsb ≤ 65536 }
    requires places { length held.now ≤ 256 }
    ensures keep { IfOk result (λ v. v.keep.items ≡ kept_of (set_with origin entries.now) held.now) }
    ensures rising { IfOk result (λ v. AllPairs (λ k l. k.place < l.place) v.keep.items) }
    ensures within { IfOk result (λ v. All (λ k. k.place < length held.now) v.keep.items) }
    ensures few { IfOk result (λ v. length v.keep.items ≤ length entries.now) }
    ensures before { IfOk result (λ v. v.before.items ≡ part is_before (set_with origin entries.now) held.now) }
    ensures after { IfOk result (λ v. v.after.items ≡ part is_after (set_with origin entries.now) held.now) }
    ensures long { IfOk result (λ v. v.long.items ≡ part is_long (set_with origin entries.now) held.now) }
    ensures found { IfOk result (λ _. is_missing (set_with origin entries.now) held.now ≡ false) }
    ensures refused { IfErr result (λ fault. IsTold fault (missing (set_with origin entries.now) held.now)) }
{
    let longs = long_places(alloc, origin, entries, held)?;
    let matches = matches_of(alloc, origin, longs.as_slice(), entries, held)?;
    if has_lost(matches.as_slice()) {
        return Err(RefFault::Refused(Rule::MissingRef));
    }
    Ok(resolve_by(alloc, longs.as_slice(), matches.as_slice(), held)?)
}
