//! The fields of the header of a P or B slice.

ghost use Rattle.std.specs.Prelude.{◌≡◌, ◌≤◌, ◌&&◌, nat_lt, OnOk, if◌then◌else◌};
ghost use Rattle.mv_syntax.specs.Table.{when, Valid};
ghost use Rattle.mv_syntax.specs.Words.{is_set, ◌otherwise◌};
ghost use Rattle.mv_syntax.specs.Printed.{printed};
ghost use Rattle.mv_fields.specs.Reading.{ReadsBy};
ghost use Rattle.mv_slice.specs.Context.{Fits};
ghost use Rattle.mv_slice.specs.Prediction.{has_weights, lists};

use crate::active_entries::{ActiveEntries, active_entries, active_entries_of};
use crate::context::SliceContext;
use crate::list_modification::{ListModification, list_modification_of, print_list_modification};
use crate::weights::{PredWeightTable, pred_weight_table_if, print_pred_weight_table_if};
use mv_bits::BitReader;
use mv_fields::{Fault, Printer, u8_if, u8_of, ue_if, ue_within_if};
use mv_rules::Rule;
use std::alloc::{AllocError, Global};

/// What the header of a P or B slice says of its reference picture lists.
#[derive(Debug, Drop)]
pub struct SliceLists {
    pub num_ref_idx_active_override_flag: u8,
    pub num_ref_idx_l0_active_minus1: Option<u32>,
    pub num_ref_idx_l1_active_minus1: Option<u32>,
    pub modification: ListModification,
    pub mvd_l1_zero_flag: Option<u8>,
    pub cabac_init_flag: Option<u8>,
    pub collocated_from_l0_flag: Option<u8>,
    pub collocated_ref_idx: Option<u32>,
    pub pred_weight_table: Option<PredWeightTable>,
    pub five_minus_max_num_merge_cand: u32,
}

fn has_weights(ctx: &SliceContext, slice_type: u32) -> bool
    ensures { result ≡ has_weights ctx.now slice_type }
{
    (slice_type == 1 && ctx.weighted_pred_flag == 1)
        || (slice_type == 0 && ctx.weighted_bipred_flag == 1)
}

/// Whether the flags of the modification of the lists are coded.
fn is_modified(ctx: &SliceContext, num_pic_total_curr: u32) -> bool
    ensures { result ≡ is_set ctx.now.lists_modification_present_flag && nat_lt 1 num_pic_total_curr }
{
    ctx.lists_modification_present_flag == 1 && num_pic_total_curr > 1
}

/// The number of active entries of the list that collocated_ref_idx points into.
fn num_collocated(collocated_from_l0_flag: Option<u8>, active: ActiveEntries) -> u32
    ensures { result ≡ if is_set (collocated_from_l0_flag otherwise 1) then active.l0 else active.l1 }
{
    if collocated_from_l0_flag.unwrap_or(1) == 1 {
        active.l0
    } else {
        active.l1
    }
}

#[tactic(auto, unfolding(crate::specs::Prediction::lists))]
fn lists_of(
    alloc: Global,
    bits: &mut BitReader,
    ctx: &SliceContext,
    slice_type: u32,
    num_pic_total_curr: u32,
    temporal_mvp: bool,
) -> Result<SliceLists, Fault<Rule>>
    requires fits { Fits ctx.now }
    requires few { num_pic_total_curr ≤ 256 }
    ensures { ReadsBy (lists ctx.now slice_type num_pic_total_curr temporal_mvp) bits.old bits.new result }
{
    let b = slice_type == 0;
    let num_ref_idx_active_override_flag = u8_of(bits, 1)?;
    let overrides = num_ref_idx_active_override_flag == 1;
    let minus1_l0 = ue_within_if(bits, overrides, Rule::SliceSyntax, 14)?;
    let minus1_l1 = ue_within_if(bits, overrides && b, Rule::SliceSyntax, 14)?;
    let active = active_entries(ctx, minus1_l0, minus1_l1);
    let modified = is_modified(ctx, num_pic_total_curr);
    let modification = list_modification_of(alloc, bits, modified, b, num_pic_total_curr, active)?;
    let mvd_l1_zero_flag = u8_if(bits, b, 1)?;
    let cabac_init_flag = u8_if(bits, ctx.cabac_init_present_flag == 1, 1)?;
    let from_l0 = u8_if(bits, temporal_mvp && b, 1)?;
    let several = num_collocated(from_l0, active) > 1;
    let collocated_ref_idx = ue_if(bits, temporal_mvp && several)?;
    let weighted = has_weights(ctx, slice_type);
    let pred_weight_table = pred_weight_table_if(alloc, bits, weighted, ctx.chroma, b, active)?;
    Ok(SliceLists {
        num_ref_idx_active_override_flag,
        num_ref_idx_l0_active_minus1: minus1_l0,
        num_ref_idx_l1_active_minus1: minus1_l1,
        modification,
        mvd_l1_zero_flag,
        cabac_init_flag,
        collocated_from_l0_flag: from_l0,
        collocated_ref_idx,
        pred_weight_table,
        five_minus_max_num_merge_cand: bits.ue()?,
    })
}

pub(crate) fn lists_if(
    alloc: Global,
    bits: &mut BitReader,
    present: bool,
    ctx: &SliceContext,
    slice_type: u32,
    num_pic_total_curr: u32,
    temporal_mvp: bool,
) -> Result<Option<SliceLists>, Fault<Rule>>
    requires fits { Fits ctx.now }
    requires few { num_pic_total_curr ≤ 256 }
    ensures { ReadsBy (when present (lists ctx.now slice_type num_pic_total_curr temporal_mvp)) bits.old bits.new result }
{
    if !present {
        return Ok(None);
    }
    Ok(Some(lists_of(
        alloc,
        bits,
        ctx,
        slice_type,
        num_pic_total_curr,
        temporal_mvp,
    )?))
}

#[tactic(auto, unfolding(crate::specs::Prediction::lists))]
fn print_lists(
    out: &mut Printer,
    v: &SliceLists,
    ctx: &SliceContext,
    slice_type: u32,
    num_pic_total_curr: u32,
    temporal_mvp: bool,
) -> Result<(), AllocError>
    requires fits { Fits ctx.now }
    requires few { num_pic_total_curr ≤ 256 }
    requires valid { Valid (lists ctx.now slice_type num_pic_total_curr temporal_mvp) v.now }
    ensures { OnOk result (out.new ≡ printed (lists ctx.now slice_type num_pic_total_curr temporal_mvp) v.now out.old) }
{
    let b = slice_type == 0;
    let overrides = v.num_ref_idx_active_override_flag == 1;
    let minus1_l0 = v.num_ref_idx_l0_active_minus1;
    let minus1_l1 = v.num_ref_idx_l1_active_minus1;
    let active = active_entries_of(ctx, overrides, b, minus1_l0, minus1_l1);
    let modified = is_modified(ctx, num_pic_total_curr);
    let several = num_collocated(v.collocated_from_l0_flag, active) > 1;
    let weighted = has_weights(ctx, slice_type);
    out.flag(
        "num_ref_idx_active_override_flag",
        v.num_ref_idx_active_override_flag,
    )?;
    out.ue_within_if(
        overrides,
        "num_ref_idx_l0_active_minus1",
        Rule::SliceSyntax,
        14,
        minus1_l0,
    )?;
    out.ue_within_if(
        overrides && b,
        "num_ref_idx_l1_active_minus1",
        Rule::SliceSyntax,
        14,
        minus1_l1,
    )?;
    print_list_modification(
        out,
        &v.modification,
        modified,
        b,
        num_pic_total_curr,
        active,
    )?;
    out.flag_if(b, "mvd_l1_zero_flag", v.mvd_l1_zero_flag)?;
    out.flag_if(
        ctx.cabac_init_present_flag == 1,
        "cabac_init_flag",
        v.cabac_init_flag,
    )?;
    out.flag_if(
        temporal_mvp && b,
        "collocated_from_l0_flag",
        v.collocated_from_l0_flag,
    )?;
    out.ue_if(
        temporal_mvp && several,
        "collocated_ref_idx",
        v.collocated_ref_idx,
    )?;
    print_pred_weight_table_if(out, weighted, &v.pred_weight_table, ctx.chroma, b, active)?;
    out.ue(
        "five_minus_max_num_merge_cand",
        v.five_minus_max_num_merge_cand,
    )
}

pub(crate) fn print_lists_if(
    out: &mut Printer,
    present: bool,
    v: &Option<SliceLists>,
    ctx: &SliceContext,
    slice_type: u32,
    num_pic_total_curr: u32,
    temporal_mvp: bool,
) -> Result<(), AllocError>
    requires fits { Fits ctx.now }
    requires few { num_pic_total_curr ≤ 256 }
    requires valid { Valid (when present (lists ctx.now slice_type num_pic_total_curr temporal_mvp)) v.now }
    ensures { OnOk result (out.new ≡ printed (when present (lists ctx.now slice_type num_pic_total_curr temporal_mvp)) v.now out.old) }
{
    match v {
        Some(v) => print_lists(out, v, ctx, slice_type, num_pic_total_curr, temporal_mvp),
        None => Ok(()),
    }
}
