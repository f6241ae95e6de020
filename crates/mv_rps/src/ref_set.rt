//! Reference picture sets.
#![tactic(auto)]

ghost use Rattle.std.specs.Prelude.{◌≡◌, ◌≤◌, ◌<◌, ◌^◌, All, AllPairs, ◌&&◌, false, [], None, map, length, option_map, IfOk, IfErr};
ghost use Rattle.std.specs.List.{list_any};
ghost use Rattle.mv_syntax.specs.Table.{Valid};
ghost use Rattle.mv_syntax.specs.Words.{◌otherwise◌};
ghost use Rattle.mv_slice.specs.Context.{Fits};
ghost use Rattle.mv_slice.specs.Numbers.{is_irap};
ghost use Rattle.mv_slice.specs.Picture.{picture};
ghost use Rattle.mv_slice.specs.Slice.{slice_header};
ghost use Rattle.mv_pictures.specs.SliceFields.{coded_entries};
ghost use Rattle.mv_rps.specs.RefSet.{entries_of, entry_of, refusal, refused_by};
ghost use Rattle.mv_rps.specs.Refused.{IsTold};
ghost use Rattle.mv_rps.specs.Resolving.{is_after, is_before, is_long, is_missing, kept_of, missing, part};

use crate::entries::{CodedEntry, Entries, entries_of};
use crate::fault::RefFault;
use crate::resolved::{Resolved, resolve_entries};
use crate::resolving::Origin;
use mv_dpb::Held;
use mv_rules::Rule;
use mv_slice::{SliceContext, SliceHead, SlicePicture};
use smallvec::SmallVec;
use std::alloc::{AllocError, Global};
use std::marker::Model;

/// The reference picture set of a picture (8.3.2): its entries, with MaxPicOrderCntLsb and the picture's count.
#[derive(Debug, Drop)]
pub struct RefSet {
    entries: Entries,
    max_lsb: u32,
    count: i32,
}

impl Model for RefSet {
    ghost use Rattle.std.specs.Prelude.{◌≤◌, map};
    ghost use Rattle.mv_rps.specs.RefSet.{RefSetValue, entry_of};

    ghost Value = { RefSetValue };

    ghost view = { λ s. record { entries = map entry_of s.entries.items; max_lsb = s.max_lsb; current = s.count } };

    ghost invariant = { λ s. (1 ≤ s.max_lsb) × (s.max_lsb ≤ 65536) };
}

fn entries_of_picture(
    alloc: Global,
    fields: &SlicePicture,
    ctx: &SliceContext,
    kind: u8,
) -> Result<Entries, AllocError>
    requires fits { Fits ctx.now }
    requires valid { Valid (picture ctx.now kind) fields.now }
    ensures { IfOk result (λ v. map entry_of v.items ≡ (option_map (coded_entries ctx.now) fields.now.references otherwise [])) }
{
    match &fields.references {
        Some(coded) => entries_of(alloc, ctx, coded),
        None => Ok(SmallVec::new(alloc)),
    }
}

// The entries of a header: none of a dependent segment, or of an IDR picture.
fn entries_if(
    alloc: Global,
    head: &SliceHead,
    ctx: &SliceContext,
    kind: u8,
) -> Result<Entries, AllocError>
    requires fits { Fits ctx.now }
    requires valid { Valid (slice_header ctx.now kind) head.now }
    ensures { IfOk result (λ v. map entry_of v.items ≡ entries_of ctx.now head.now) }
{
    match &head.full {
        Some(full) => entries_of_picture(alloc, &full.picture, ctx, kind),
        None => Ok(SmallVec::new(alloc)),
    }
}

/// How many entries the reference picture set of a picture has, of its first segment's header and unit type (8.3.2).
///
/// `AllocError` where memory runs out.
pub fn num_entries(
    alloc: Global,
    head: &SliceHead,
    ctx: &SliceContext,
    kind: u8,
) -> Result<u8, AllocError>
    requires fits { Fits ctx.now }
    requires valid { Valid (slice_header ctx.now kind) head.now }
    ensures { IfOk result (λ n. n ≡ length (entries_of ctx.now head.now)) }
{
    let entries = entries_if(alloc, head, ctx, kind)?;
    Ok(entries.len() as u8)
}

fn is_irap(kind: u8) -> bool
    ensures { result ≡ is_irap kind }
{
    16 <= kind && kind <= 21
}

// The picture uses an entry.
fn has_used(entries: &[CodedEntry]) -> bool
    ensures { result ≡ list_any (λ e. e.used) entries.now }
{
    entries.iter().any(|entry| entry.used)
}

fn irap_refers(kind: u8, entries: &[CodedEntry]) -> bool
    ensures { result ≡ (is_irap kind && list_any (λ e. e.used) entries.now) }
{
    is_irap(kind) && has_used(entries)
}

// The rule that refuses a set, by whether an IRAP picture uses an entry, and whether there are too many.
fn refused_by(irap_refers: bool, too_many: bool) -> Option<Rule>
    ensures { result ≡ refused_by irap_refers too_many }
{
    if irap_refers {
        return Some(Rule::IrapRefers);
    }
    if too_many {
        return Some(Rule::TooManyRefs);
    }
    None
}

// The rule that refuses entries of a picture of a type, if one does.
fn refusal(kind: u8, entries: &[CodedEntry]) -> Option<Rule>
    ensures { result ≡ refusal kind (map entry_of entries.now) }
{
    refused_by(irap_refers(kind, entries), entries.len() > 15)
}

fn max_lsb(lsb_bits: u8) -> u32
    requires { lsb_bits ≤ 16 }
    ensures is { result ≡ 2 ^ lsb_bits }
    ensures some { 1 ≤ result }
    ensures few { result ≤ 65536 }
{
    1 << lsb_bits
}

impl RefSet {
    /// The reference picture set of a picture with a count, of its first segment's header and unit type.
    ///
    /// `IrapRefers` where an IRAP picture uses an entry, and else `TooManyRefs` where there are over 15.
    pub fn of(
        alloc: Global,
        head: &SliceHead,
        ctx: &SliceContext,
        kind: u8,
        count: i32,
    ) -> Result<RefSet, RefFault>
        requires fits { Fits ctx.now }
        requires valid { Valid (slice_header ctx.now kind) head.now }
        ensures set { IfOk result (λ set. set ≡ record { entries = entries_of ctx.now head.now; max_lsb = 2 ^ ctx.now.lsb_bits; current = count }) }
        ensures allowed { IfOk result (λ _. refusal kind (entries_of ctx.now head.now) ≡ None) }
        ensures refused { IfErr result (λ fault. IsTold fault (refusal kind (entries_of ctx.now head.now))) }
    {
        let entries = entries_if(alloc, head, ctx, kind)?;
        if let Some(rule) = refusal(kind, entries.as_slice()) {
            return Err(RefFault::Refused(rule));
        }
        Ok(RefSet {
            entries,
            max_lsb: max_lsb(ctx.lsb_bits),
            count,
        })
    }
    /// The pictures of its layer's buffer that a picture's entries match (8.3.2): each entry the last decoded picture that it
    /// fits, and a short-term entry none that is marked for long-term reference or that a long-term entry matches. A picture
    /// that an entry matches is kept, and marked for long-term reference from then on where a long-term entry does.
    ///
    /// `MissingRef` where an entry that the picture uses has no match.
    pub fn resolve(&self, alloc: Global, held: &[Held]) -> Result<Resolved, RefFault>
        requires { length held.now ≤ 256 }
        ensures keep { IfOk result (λ v. v.keep.items ≡ kept_of self.now held.now) }
        ensures rising { IfOk result (λ v. AllPairs (λ k l. k.place < l.place) v.keep.items) }
        ensures within { IfOk result (λ v. All (λ k. k.place < length held.now) v.keep.items) }
        ensures few { IfOk result (λ v. length v.keep.items ≤ length self.now.entries) }
        ensures before { IfOk result (λ v. v.before.items ≡ part is_before self.now held.now) }
        ensures after { IfOk result (λ v. v.after.items ≡ part is_after self.now held.now) }
        ensures long { IfOk result (λ v. v.long.items ≡ part is_long self.now held.now) }
        ensures found { IfOk result (λ _. is_missing self.now held.now ≡ false) }
        ensures refused { IfErr result (λ fault. IsTold fault (missing self.now held.now)) }
    {
        let origin = Origin {
            max_lsb: self.max_lsb,
            current: self.count,
        };
        resolve_entries(alloc, origin, self.entries.as_slice(), held)
    }
}
