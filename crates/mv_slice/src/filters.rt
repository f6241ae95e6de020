//! The quantization and the in-loop filters of a slice: read, and printed.

ghost use Rattle.std.specs.Prelude.{◌≡◌, OnOk};
ghost use Rattle.mv_syntax.specs.Table.{Valid};
ghost use Rattle.mv_syntax.specs.Words.{is_set, ◌otherwise◌};
ghost use Rattle.mv_syntax.specs.Printed.{printed};
ghost use Rattle.mv_fields.specs.Reading.{ReadsBy};
ghost use Rattle.mv_slice.specs.Filters.{deblocking, filters};

use crate::context::SliceContext;
use mv_bits::BitReader;
use mv_fields::{Fault, Printer, coded_set, se_if, u8_if};
use mv_rules::Rule;
use std::alloc::AllocError;

/// What a slice segment header says of the deblocking filter.
#[derive(Clone, Copy, Debug, PartialEq, Eq)]
pub struct SliceDeblocking {
    pub deblocking_filter_override_flag: Option<u8>,
    pub slice_deblocking_filter_disabled_flag: Option<u8>,
    pub slice_beta_offset_div2: Option<i32>,
    pub slice_tc_offset_div2: Option<i32>,
}

/// The quantization and the in-loop filters of a slice.
#[derive(Clone, Copy, Debug, PartialEq, Eq)]
pub struct SliceFilters {
    pub slice_qp_delta: i32,
    pub slice_cb_qp_offset: Option<i32>,
    pub slice_cr_qp_offset: Option<i32>,
    pub deblocking: SliceDeblocking,
    pub slice_loop_filter_across_slices_enabled_flag: Option<u8>,
}

/// Whether the deblocking filter is off: by the flag of the slice, or else by that of the picture parameter set.
fn is_disabled(ctx: &SliceContext, coded: Option<u8>) -> bool
    ensures { result ≡ is_set (coded otherwise ctx.now.pps_deblocking_filter_disabled_flag) }
{
    match coded {
        Some(flag) => flag == 1,
        None => ctx.pps_deblocking_filter_disabled_flag == 1,
    }
}

#[tactic(auto, unfolding(crate::specs::Filters::deblocking))]
fn deblocking_of(bits: &mut BitReader, ctx: &SliceContext) -> Result<SliceDeblocking, Fault<Rule>>
    ensures { ReadsBy (deblocking ctx.now) bits.old bits.new result }
{
    let deblocking_filter_override_flag = u8_if(
        bits,
        ctx.deblocking_filter_override_enabled_flag == 1,
        1,
    )?;
    let overridden = coded_set(deblocking_filter_override_flag);
    let slice_deblocking_filter_disabled_flag = u8_if(bits, overridden, 1)?;
    let disabled = is_disabled(ctx, slice_deblocking_filter_disabled_flag);
    let slice_beta_offset_div2 = se_if(bits, overridden && !disabled)?;
    let slice_tc_offset_div2 = se_if(bits, overridden && !disabled)?;
    Ok(SliceDeblocking {
        deblocking_filter_override_flag,
        slice_deblocking_filter_disabled_flag,
        slice_beta_offset_div2,
        slice_tc_offset_div2,
    })
}

#[tactic(auto, unfolding(crate::specs::Filters::filters))]
pub(crate) fn filters_of(
    bits: &mut BitReader,
    ctx: &SliceContext,
    sao: bool,
) -> Result<SliceFilters, Fault<Rule>>
    ensures { ReadsBy (filters ctx.now sao) bits.old bits.new result }
{
    let offsets = ctx.pps_slice_chroma_qp_offsets_present_flag == 1;
    let slice_qp_delta = bits.se()?;
    let slice_cb_qp_offset = se_if(bits, offsets)?;
    let slice_cr_qp_offset = se_if(bits, offsets)?;
    let deblocking = deblocking_of(bits, ctx)?;
    let disabled = is_disabled(ctx, deblocking.slice_deblocking_filter_disabled_flag);
    let across = ctx.pps_loop_filter_across_slices_enabled_flag == 1;
    let slice_loop_filter_across_slices_enabled_flag = u8_if(
        bits,
        across && (sao || !disabled),
        1,
    )?;
    Ok(SliceFilters {
        slice_qp_delta,
        slice_cb_qp_offset,
        slice_cr_qp_offset,
        deblocking,
        slice_loop_filter_across_slices_enabled_flag,
    })
}

#[tactic(auto, unfolding(crate::specs::Filters::deblocking))]
fn print_deblocking(
    out: &mut Printer,
    ctx: &SliceContext,
    v: SliceDeblocking,
) -> Result<(), AllocError>
    requires { Valid (deblocking ctx.now) v }
    ensures { OnOk result (out.new ≡ printed (deblocking ctx.now) v out.old) }
{
    let overridden = coded_set(v.deblocking_filter_override_flag);
    let disabled = is_disabled(ctx, v.slice_deblocking_filter_disabled_flag);
    out.flag_if(
        ctx.deblocking_filter_override_enabled_flag == 1,
        "deblocking_filter_override_flag",
        v.deblocking_filter_override_flag,
    )?;
    out.flag_if(
        overridden,
        "slice_deblocking_filter_disabled_flag",
        v.slice_deblocking_filter_disabled_flag,
    )?;
    out.se_if(
        overridden && !disabled,
        "slice_beta_offset_div2",
        v.slice_beta_offset_div2,
    )?;
    out.se_if(
        overridden && !disabled,
        "slice_tc_offset_div2",
        v.slice_tc_offset_div2,
    )
}

#[tactic(auto, unfolding(crate::specs::Filters::filters))]
pub(crate) fn print_filters(
    out: &mut Printer,
    ctx: &SliceContext,
    sao: bool,
    v: SliceFilters,
) -> Result<(), AllocError>
    requires { Valid (filters ctx.now sao) v }
    ensures { OnOk result (out.new ≡ printed (filters ctx.now sao) v out.old) }
{
    let offsets = ctx.pps_slice_chroma_qp_offsets_present_flag == 1;
    let disabled = is_disabled(ctx, v.deblocking.slice_deblocking_filter_disabled_flag);
    let across = ctx.pps_loop_filter_across_slices_enabled_flag == 1;
    out.se("slice_qp_delta", v.slice_qp_delta)?;
    out.se_if(offsets, "slice_cb_qp_offset", v.slice_cb_qp_offset)?;
    out.se_if(offsets, "slice_cr_qp_offset", v.slice_cr_qp_offset)?;
    print_deblocking(out, ctx, v.deblocking)?;
    out.flag_if(
        across && (sao || !disabled),
        "slice_loop_filter_across_slices_enabled_flag",
        v.slice_loop_filter_across_slices_enabled_flag,
    )
}
