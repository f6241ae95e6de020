//! The first fields of a slice segment header, and its address.

ghost use Rattle.std.specs.Prelude.{◌≡◌, ◌≢◌, ◌≤◌, OnOk, IfOk, IfErr};
ghost use Rattle.mv_syntax.specs.Table.{Valid};
ghost use Rattle.mv_syntax.specs.Printed.{printed};
ghost use Rattle.mv_fields.specs.Reading.{ReadsBy};
ghost use Rattle.mv_slice.specs.Context.{Fits};
ghost use Rattle.mv_fields.specs.declared.fault.Fault.TheVariants.{Memory};
ghost use Rattle.mv_slice.specs.Opening.{opening, address};

use crate::context::SliceContext;
use mv_bits::BitReader;
use mv_fields::{Fault, Printer, clog2, u8_if, u8_of, u32_if, ue_within};
use mv_rules::Rule;
use std::alloc::AllocError;

/// The first fields of a slice segment header, up to the id of the picture parameter set.
#[derive(Clone, Copy, Debug, PartialEq, Eq)]
pub struct SliceOpening {
    pub first_slice_segment_in_pic_flag: u8,
    pub no_output_of_prior_pics_flag: Option<u8>,
    pub slice_pic_parameter_set_id: u32,
}

/// Where a slice segment begins that isn't the first of its picture, in coding tree blocks.
#[derive(Clone, Copy, Debug, PartialEq, Eq)]
pub struct SliceAddress {
    pub dependent_slice_segment_flag: Option<u8>,
    pub slice_segment_address: Option<u32>,
}

#[tactic(auto, unfolding(crate::specs::Opening::opening))]
pub(crate) fn opening_of(
    bits: &mut BitReader,
    nal_unit_type: u8,
) -> Result<SliceOpening, Fault<Rule>>
    ensures fills { ReadsBy (opening nal_unit_type) bits.old bits.new result }
    ensures id { IfOk result (λ v. v.slice_pic_parameter_set_id ≤ 63) }
    ensures no_memory { IfErr result (λ fault. fault ≢ Memory) }
{
    let first_slice_segment_in_pic_flag = u8_of(bits, 1)?;
    let no_output_of_prior_pics_flag = u8_if(bits, 16 <= nal_unit_type && nal_unit_type <= 21, 1)?;
    let slice_pic_parameter_set_id = ue_within(bits, Rule::SliceSyntax, 63)?;
    Ok(SliceOpening {
        first_slice_segment_in_pic_flag,
        no_output_of_prior_pics_flag,
        slice_pic_parameter_set_id,
    })
}

#[tactic(auto, unfolding(crate::specs::Opening::opening))]
pub(crate) fn print_opening(
    out: &mut Printer,
    nal_unit_type: u8,
    v: SliceOpening,
) -> Result<(), AllocError>
    requires { Valid (opening nal_unit_type) v }
    ensures { OnOk result (out.new ≡ printed (opening nal_unit_type) v out.old) }
{
    out.flag(
        "first_slice_segment_in_pic_flag",
        v.first_slice_segment_in_pic_flag,
    )?;
    out.flag_if(
        16 <= nal_unit_type && nal_unit_type <= 21,
        "no_output_of_prior_pics_flag",
        v.no_output_of_prior_pics_flag,
    )?;
    out.ue("slice_pic_parameter_set_id", v.slice_pic_parameter_set_id)
}

#[tactic(auto, unfolding(crate::specs::Opening::address))]
pub(crate) fn address_of(
    bits: &mut BitReader,
    ctx: &SliceContext,
    first: bool,
) -> Result<SliceAddress, Fault<Rule>>
    requires { Fits ctx.now }
    ensures { ReadsBy (address ctx.now first) bits.old bits.new result }
{
    let dependent_slice_segment_flag = u8_if(
        bits,
        !first && ctx.dependent_slice_segments_enabled_flag == 1,
        1,
    )?;
    let slice_segment_address = u32_if(bits, !first, clog2(ctx.ctbs, 22))?;
    Ok(SliceAddress {
        dependent_slice_segment_flag,
        slice_segment_address,
    })
}

#[tactic(auto, unfolding(crate::specs::Opening::address))]
pub(crate) fn print_address(
    out: &mut Printer,
    ctx: &SliceContext,
    first: bool,
    v: SliceAddress,
) -> Result<(), AllocError>
    requires fits { Fits ctx.now }
    requires valid { Valid (address ctx.now first) v }
    ensures { OnOk result (out.new ≡ printed (address ctx.now first) v out.old) }
{
    out.flag_if(
        !first && ctx.dependent_slice_segments_enabled_flag == 1,
        "dependent_slice_segment_flag",
        v.dependent_slice_segment_flag,
    )?;
    out.u32_if(
        !first,
        "slice_segment_address",
        clog2(ctx.ctbs, 22),
        v.slice_segment_address,
    )
}
