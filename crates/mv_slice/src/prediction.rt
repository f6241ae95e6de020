//! The flags of sample adaptive offset and the reference picture lists of a slice.

ghost use Rattle.std.specs.Prelude.{◌≡◌, ◌≤◌, OnOk};
ghost use Rattle.mv_syntax.specs.Table.{Valid};
ghost use Rattle.mv_syntax.specs.Printed.{printed};
ghost use Rattle.mv_fields.specs.Reading.{ReadsBy};
ghost use Rattle.mv_slice.specs.Context.{Fits};
ghost use Rattle.mv_slice.specs.Prediction.{prediction};

use crate::context::SliceContext;
use crate::lists::{SliceLists, lists_if, print_lists_if};
use mv_bits::BitReader;
use mv_fields::{Fault, Printer, u8_if};
use mv_rules::Rule;
use std::alloc::{AllocError, Global};

/// The sample adaptive offset and the reference picture lists of a slice.
#[derive(Debug, Drop)]
pub struct SlicePrediction {
    pub slice_sao_luma_flag: Option<u8>,
    pub slice_sao_chroma_flag: Option<u8>,
    /// Coded for P and B slices.
    pub lists: Option<SliceLists>,
}

#[tactic(auto, unfolding(crate::specs::Prediction::prediction))]
pub(crate) fn prediction_of(
    alloc: Global,
    bits: &mut BitReader,
    ctx: &SliceContext,
    slice_type: u32,
    num_pic_total_curr: u32,
    temporal_mvp: bool,
) -> Result<SlicePrediction, Fault<Rule>>
    requires fits { Fits ctx.now }
    requires few { num_pic_total_curr ≤ 256 }
    ensures { ReadsBy (prediction ctx.now slice_type num_pic_total_curr temporal_mvp) bits.old bits.new result }
{
    let filtered = ctx.sample_adaptive_offset_enabled_flag == 1;
    let slice_sao_luma_flag = u8_if(bits, filtered, 1)?;
    let slice_sao_chroma_flag = u8_if(bits, filtered && ctx.chroma, 1)?;
    let listed = slice_type == 1 || slice_type == 0;
    let lists = lists_if(
        alloc,
        bits,
        listed,
        ctx,
        slice_type,
        num_pic_total_curr,
        temporal_mvp,
    )?;
    Ok(SlicePrediction {
        slice_sao_luma_flag,
        slice_sao_chroma_flag,
        lists,
    })
}

#[tactic(auto, unfolding(crate::specs::Prediction::prediction))]
pub(crate) fn print_prediction(
    out: &mut Printer,
    v: &SlicePrediction,
    ctx: &SliceContext,
    slice_type: u32,
    num_pic_total_curr: u32,
    temporal_mvp: bool,
) -> Result<(), AllocError>
    requires fits { Fits ctx.now }
    requires few { num_pic_total_curr ≤ 256 }
    requires valid { Valid (prediction ctx.now slice_type num_pic_total_curr temporal_mvp) v.now }
    ensures { OnOk result (out.new ≡ printed (prediction ctx.now slice_type num_pic_total_curr temporal_mvp) v.now out.old) }
{
    let filtered = ctx.sample_adaptive_offset_enabled_flag == 1;
    let listed = slice_type == 1 || slice_type == 0;
    out.flag_if(filtered, "slice_sao_luma_flag", v.slice_sao_luma_flag)?;
    out.flag_if(
        filtered && ctx.chroma,
        "slice_sao_chroma_flag",
        v.slice_sao_chroma_flag,
    )?;
    print_lists_if(
        out,
        listed,
        &v.lists,
        ctx,
        slice_type,
        num_pic_total_curr,
        temporal_mvp,
    )
}
