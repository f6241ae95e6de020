//! The reference picture lists of a slice segment.

ghost use Rattle.std.specs.Prelude.{◌≡◌, ◌≤◌, length, IsSome, option_and_then};
ghost use Rattle.std.specs.Option.{IfSome};
ghost use Rattle.mv_reflists.specs.Answers.{answer};
ghost use Rattle.mv_reflists.specs.Lists.{lists};
ghost use Rattle.mv_reflists.specs.Rules.{list_rule};
ghost use Rattle.mv_reflists.specs.Segment.{active_l0, active_l1, list_entry_l0, list_entry_l1};
ghost use Rattle.mv_reflists.specs.Sizes.{total};

use crate::fault::ListFault;
use crate::initial::InitialList;
use crate::lists::{Lists, list_of};
use crate::rules::list_rule;
use crate::segment::{active_l0, active_l1, list_entry_l0, list_entry_l1};
use crate::sizes::{Sizes, total};
use mv_slice::{SliceContext, SliceFull, SliceHead};
use smallvec::SmallVec;
use std::alloc::Global;

// Both lists of a full header that breaks no rule.
#[tactic(auto, unfolding(crate::specs::Lists::lists))]
fn lists(alloc: Global, sizes: &Sizes, ctx: &SliceContext, full: &SliceFull) -> Lists
    requires few { total sizes.now ≤ 255 }
    requires active_l0 { active_l0 ctx.now full.now ≤ 15 }
    requires active_l1 { active_l1 ctx.now full.now ≤ 15 }
    requires entries_l0 { IfSome (list_entry_l0 full.now) (λ entries. length entries ≡ active_l0 ctx.now full.now) }
    requires entries_l1 { IfSome (list_entry_l1 full.now) (λ entries. length entries ≡ active_l1 ctx.now full.now) }
    ensures { result ≡ lists sizes.now ctx.now full.now }
{
    let active0 = active_l0(ctx, full);
    let active1 = active_l1(ctx, full);
    let places0 = InitialList::zero(sizes);
    let places1 = InitialList::one(sizes);
    Lists {
        list0: list_of(alloc, &places0, active0, list_entry_l0(full)),
        list1: list_of(alloc, &places1, active1, list_entry_l1(full)),
    }
}

// The lists of a full header, or the rule that it breaks.
fn lists_of(
    alloc: Global,
    sizes: &Sizes,
    ctx: &SliceContext,
    full: &SliceFull,
) -> Result<Lists, ListFault>
    requires few { total sizes.now ≤ 255 }
    requires active_l0 { active_l0 ctx.now full.now ≤ 15 }
    requires active_l1 { active_l1 ctx.now full.now ≤ 15 }
    requires entries_l0 { IfSome (list_entry_l0 full.now) (λ entries. length entries ≡ active_l0 ctx.now full.now) }
    requires entries_l1 { IfSome (list_entry_l1 full.now) (λ entries. length entries ≡ active_l1 ctx.now full.now) }
    ensures { result ≡ answer (list_rule (total sizes.now) ctx.now full.now) (lists sizes.now ctx.now full.now) }
{
    match list_rule(total(sizes), ctx, full) {
        Some(rule) => Err(ListFault::Refused(rule)),
        None => Ok(lists(alloc, sizes, ctx, full)),
    }
}

/// The reference picture lists of a slice segment with a full header (8.3.4, F.8.3.4), from how many references its picture has
/// of each part. NumPicTotalCurr is the sum of the sizes. It takes no memory: a list of up to 16 entries lies in the value.
///
/// The sum is at most 255, each list has at most 15 active entries, and as many list entries where its modification is coded. A
/// header that reads under a context that fits meets this.
///
/// `Refused` exactly where a rule is broken, by the least one: `ListEntry` where a list_entry isn't below NumPicTotalCurr,
/// `NoRefs` where a P or B segment has no reference, `Collocated` where a coded collocated_ref_idx isn't below the active
/// entries of its list.
pub fn build_lists(
    alloc: Global,
    sizes: &Sizes,
    ctx: &SliceContext,
    head: &SliceHead,
) -> Result<Lists, ListFault>
    requires full { IsSome head.now.full }
    requires few { total sizes.now ≤ 255 }
    requires active_l0 { IfSome head.now.full (λ full. active_l0 ctx.now full ≤ 15) }
    requires active_l1 { IfSome head.now.full (λ full. active_l1 ctx.now full ≤ 15) }
    requires entries_l0 { IfSome head.now.full (λ full. IfSome (list_entry_l0 full) (λ entries. length entries ≡ active_l0 ctx.now full)) }
    requires entries_l1 { IfSome head.now.full (λ full. IfSome (list_entry_l1 full) (λ entries. length entries ≡ active_l1 ctx.now full)) }
    ensures { IfSome head.now.full (λ full. result ≡ answer (list_rule (total sizes.now) ctx.now full) (lists sizes.now ctx.now full)) }
{
    match &head.full {
        Some(full) => lists_of(alloc, sizes, ctx, full),
        None => Ok(Lists {
            list0: SmallVec::new(alloc),
            list1: SmallVec::new(alloc),
        }),
    }
}
