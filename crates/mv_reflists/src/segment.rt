//! What lists take from a full slice segment header.

ghost use Rattle.std.specs.Prelude.{◌≡◌, ◌≤◌, option_map};
ghost use Rattle.mv_slice.specs.Prediction.{num_entries};
ghost use Rattle.mv_reflists.specs.Segment.{predicts, active_l0, active_l1, where_modified, list_entry_l0, list_entry_l1};

use mv_slice::{SliceContext, SliceFull};

/// Whether it is a P or B segment.
pub(crate) fn predicts(full: &SliceFull) -> bool
    ensures { result ≡ predicts full.now }
{
    full.picture.slice_type <= 1
}

fn num_entries(coded_minus1: Option<u32>, default_minus1: u32) -> usize
    requires { num_entries coded_minus1 default_minus1 ≤ 15 }
    ensures { result ≡ num_entries coded_minus1 default_minus1 }
{
    coded_minus1.unwrap_or(default_minus1) as usize + 1
}

/// How many entries of list 0 are active.
#[tactic(auto, unfolding(crate::specs::Segment::active_l0))]
pub(crate) fn active_l0(ctx: &SliceContext, full: &SliceFull) -> usize
    requires { active_l0 ctx.now full.now ≤ 15 }
    ensures { result ≡ active_l0 ctx.now full.now }
{
    if !predicts(full) {
        return 0;
    }
    match &full.prediction.lists {
        Some(lists) => num_entries(
            lists.num_ref_idx_l0_active_minus1,
            ctx.num_ref_idx_l0_default_active_minus1,
        ),
        None => 0,
    }
}

/// How many entries of list 1 are active.
#[tactic(auto, unfolding(crate::specs::Segment::active_l1))]
pub(crate) fn active_l1(ctx: &SliceContext, full: &SliceFull) -> usize
    requires { active_l1 ctx.now full.now ≤ 15 }
    ensures { result ≡ active_l1 ctx.now full.now }
{
    if full.picture.slice_type != 0 {
        return 0;
    }
    match &full.prediction.lists {
        Some(lists) => num_entries(
            lists.num_ref_idx_l1_active_minus1,
            ctx.num_ref_idx_l1_default_active_minus1,
        ),
        None => 0,
    }
}

fn where_modified<'a>(flag: Option<u8>, list_entry: &'a Option<Vec<u8>>) -> Option<&'a [u8]>
    ensures { option_map (λ s. s.now) result ≡ where_modified flag (option_map (λ v. v.items) list_entry.now) }
{
    if flag != Some(1) {
        return None;
    }
    match list_entry {
        Some(list_entry) => Some(list_entry.as_slice()),
        None => None,
    }
}

/// list_entry_l0, where the modification of list 0 is coded.
#[tactic(auto, unfolding(crate::specs::Segment::list_entry_l0))]
pub(crate) fn list_entry_l0(full: &SliceFull) -> Option<&[u8]>
    ensures { option_map (λ s. s.now) result ≡ list_entry_l0 full.now }
{
    match &full.prediction.lists {
        Some(lists) => {
            let modification = &lists.modification;
            where_modified(
                modification.ref_pic_list_modification_flag_l0,
                &modification.list_entry_l0,
            )
        }
        None => None,
    }
}

/// list_entry_l1, where the modification of list 1 is coded.
#[tactic(auto, unfolding(crate::specs::Segment::list_entry_l1))]
pub(crate) fn list_entry_l1(full: &SliceFull) -> Option<&[u8]>
    ensures { option_map (λ s. s.now) result ≡ list_entry_l1 full.now }
{
    match &full.prediction.lists {
        Some(lists) => {
            let modification = &lists.modification;
            where_modified(
                modification.ref_pic_list_modification_flag_l1,
                &modification.list_entry_l1,
            )
        }
        None => None,
    }
}
