//! The rules on the lists of a segment.

ghost use Rattle.std.specs.Prelude.{◌≡◌, ◌≤◌, [], nat_le, option_map};
ghost use Rattle.std.specs.List.{list_any};
ghost use Rattle.mv_syntax.specs.Words.{◌otherwise◌};
ghost use Rattle.mv_reflists.specs.Segment.{active_l0, active_l1};
ghost use Rattle.mv_reflists.specs.Rules.{list_entry, no_refs, collocated, collocated_entries, list_rule};

use crate::segment::{active_l0, active_l1, list_entry_l0, list_entry_l1, predicts};
use mv_rules::Rule;
use mv_slice::{SliceContext, SliceFull, SliceLists};

// Whether one of these entries, where they are coded, names no reference.
fn names_none(num_pic_total_curr: usize, list_entry: Option<&[u8]>) -> bool
    ensures { result ≡ list_any (nat_le num_pic_total_curr) (option_map (λ s. s.now) list_entry.entry otherwise []) }
{
    match list_entry {
        Some(list_entry) => list_entry
            .iter()
            .any(|entry| num_pic_total_curr <= usize::from(*entry)),
        None => false,
    }
}

#[tactic(auto, unfolding(crate::specs::Rules::list_entry))]
fn list_entry(num_pic_total_curr: usize, full: &SliceFull) -> bool
    ensures { result ≡ list_entry num_pic_total_curr full.now }
{
    names_none(num_pic_total_curr, list_entry_l0(full))
        || names_none(num_pic_total_curr, list_entry_l1(full))
}

#[tactic(auto, unfolding(crate::specs::Rules::no_refs))]
fn no_refs(num_pic_total_curr: usize, full: &SliceFull) -> bool
    ensures { result ≡ no_refs num_pic_total_curr full.now }
{
    predicts(full) && num_pic_total_curr == 0
}

// How many entries are active in the list that collocated_ref_idx points into.
fn collocated_entries(ctx: &SliceContext, full: &SliceFull, lists: &SliceLists) -> usize
    requires l0 { active_l0 ctx.now full.now ≤ 15 }
    requires l1 { active_l1 ctx.now full.now ≤ 15 }
    ensures { result ≡ collocated_entries ctx.now full.now lists.now }
{
    if lists.collocated_from_l0_flag.unwrap_or(1) == 1 {
        active_l0(ctx, full)
    } else {
        active_l1(ctx, full)
    }
}

#[tactic(auto, unfolding(crate::specs::Rules::collocated))]
fn collocated(ctx: &SliceContext, full: &SliceFull) -> bool
    requires l0 { active_l0 ctx.now full.now ≤ 15 }
    requires l1 { active_l1 ctx.now full.now ≤ 15 }
    ensures { result ≡ collocated ctx.now full.now }
{
    let Some(lists) = &full.prediction.lists else {
        return false;
    };
    match lists.collocated_ref_idx {
        Some(idx) => collocated_entries(ctx, full, lists) <= idx as usize,
        None => false,
    }
}

/// The least rule on its lists that a segment breaks, where it breaks one.
#[tactic(auto, unfolding(crate::specs::Rules::list_rule))]
pub(crate) fn list_rule(
    num_pic_total_curr: usize,
    ctx: &SliceContext,
    full: &SliceFull,
) -> Option<Rule>
    requires l0 { active_l0 ctx.now full.now ≤ 15 }
    requires l1 { active_l1 ctx.now full.now ≤ 15 }
    ensures { result ≡ list_rule num_pic_total_curr ctx.now full.now }
{
    if list_entry(num_pic_total_curr, full) {
        return Some(Rule::ListEntry);
    }
    if no_refs(num_pic_total_curr, full) {
        return Some(Rule::NoRefs);
    }
    if collocated(ctx, full) {
        return Some(Rule::Collocated);
    }
    None
}
