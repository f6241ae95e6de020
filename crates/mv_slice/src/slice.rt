//! A slice segment header in parts: read, and printed.

ghost use Rattle.std.specs.Prelude.{◌≡◌, OnOk};
ghost use Rattle.mv_syntax.specs.Table.{when, Valid};
ghost use Rattle.mv_syntax.specs.Printed.{printed};
ghost use Rattle.mv_fields.specs.Reading.{ReadsBy};
ghost use Rattle.mv_slice.specs.Context.{Fits};
ghost use Rattle.mv_slice.specs.Slice.{full, slice_fields};

use crate::context::SliceContext;
use crate::derived::{has_sao, has_temporal_mvp, num_pic_total_curr_of};
use crate::ending::{SliceEnding, ending_of, print_ending};
use crate::filters::{SliceFilters, filters_of, print_filters};
use crate::inter_layer::{SliceInterLayer, inter_layer_of, print_inter_layer};
use crate::opening::{
    SliceAddress, SliceOpening, address_of, opening_of, print_address, print_opening,
};
use crate::picture::{SlicePicture, picture_of, print_picture};
use crate::prediction::{SlicePrediction, prediction_of, print_prediction};
use mv_bits::BitReader;
use mv_fields::{Fault, Printer, coded_set};
use mv_rules::Rule;
use std::alloc::{AllocError, Global};

/// The fields that a dependent slice segment takes from the segment before it.
#[derive(Debug, Drop)]
pub struct SliceFull {
    pub picture: SlicePicture,
    pub inter_layer: SliceInterLayer,
    pub prediction: SlicePrediction,
    pub filters: SliceFilters,
}

/// The header of a slice segment (7.3.6.1, F.7.3.6.1): its fields in coded order, in parts.
#[derive(Debug, Drop)]
pub struct SliceHead {
    pub opening: SliceOpening,
    pub address: SliceAddress,
    /// A dependent segment has none.
    pub full: Option<SliceFull>,
    pub ending: SliceEnding,
}

#[tactic(auto, unfolding(crate::specs::Slice::full))]
fn full_of(
    alloc: Global,
    bits: &mut BitReader,
    ctx: &SliceContext,
    nal_unit_type: u8,
) -> Result<SliceFull, Fault<Rule>>
    requires { Fits ctx.now }
    ensures { ReadsBy (full ctx.now nal_unit_type) bits.old bits.new result }
{
    let picture = picture_of(alloc, bits, ctx, nal_unit_type)?;
    let inter_layer = inter_layer_of(alloc, bits, ctx)?;
    let total = num_pic_total_curr_of(alloc, ctx, nal_unit_type, &picture, &inter_layer)?;
    let temporal_mvp = has_temporal_mvp(&picture.references);
    let prediction = prediction_of(alloc, bits, ctx, picture.slice_type, total, temporal_mvp)?;
    let filters = filters_of(bits, ctx, has_sao(&prediction))?;
    Ok(SliceFull {
        picture,
        inter_layer,
        prediction,
        filters,
    })
}

fn full_if(
    alloc: Global,
    bits: &mut BitReader,
    ctx: &SliceContext,
    nal_unit_type: u8,
    present: bool,
) -> Result<Option<SliceFull>, Fault<Rule>>
    requires { Fits ctx.now }
    ensures { ReadsBy (when present (full ctx.now nal_unit_type)) bits.old bits.new result }
{
    if !present {
        return Ok(None);
    }
    Ok(Some(full_of(alloc, bits, ctx, nal_unit_type)?))
}

/// The fields of a header, up to its alignment.
#[tactic(auto, unfolding(crate::specs::Slice::slice_fields))]
pub(crate) fn fields_of(
    alloc: Global,
    bits: &mut BitReader,
    ctx: &SliceContext,
    nal_unit_type: u8,
) -> Result<SliceHead, Fault<Rule>>
    requires { Fits ctx.now }
    ensures { ReadsBy (slice_fields ctx.now nal_unit_type) bits.old bits.new result }
{
    let opening = opening_of(bits, nal_unit_type)?;
    let address = address_of(bits, ctx, opening.first_slice_segment_in_pic_flag == 1)?;
    let whole = !coded_set(address.dependent_slice_segment_flag);
    let full = full_if(alloc, bits, ctx, nal_unit_type, whole)?;
    let ending = ending_of(alloc, bits, ctx)?;
    Ok(SliceHead {
        opening,
        address,
        full,
        ending,
    })
}

#[tactic(auto, unfolding(crate::specs::Slice::full))]
fn print_full(
    alloc: Global,
    out: &mut Printer,
    ctx: &SliceContext,
    nal_unit_type: u8,
    v: &SliceFull,
) -> Result<(), AllocError>
    requires fits { Fits ctx.now }
    requires valid { Valid (full ctx.now nal_unit_type) v.now }
    ensures { OnOk result (out.new ≡ printed (full ctx.now nal_unit_type) v.now out.old) }
{
    let total = num_pic_total_curr_of(alloc, ctx, nal_unit_type, &v.picture, &v.inter_layer)?;
    let temporal_mvp = has_temporal_mvp(&v.picture.references);
    print_picture(out, ctx, nal_unit_type, &v.picture)?;
    print_inter_layer(out, ctx, &v.inter_layer)?;
    print_prediction(
        out,
        &v.prediction,
        ctx,
        v.picture.slice_type,
        total,
        temporal_mvp,
    )?;
    print_filters(out, ctx, has_sao(&v.prediction), v.filters)
}

fn print_full_if(
    alloc: Global,
    out: &mut Printer,
    ctx: &SliceContext,
    nal_unit_type: u8,
    present: bool,
    v: &Option<SliceFull>,
) -> Result<(), AllocError>
    requires fits { Fits ctx.now }
    requires valid { Valid (when present (full ctx.now nal_unit_type)) v.now }
    ensures { OnOk result (out.new ≡ printed (when present (full ctx.now nal_unit_type)) v.now out.old) }
{
    match v {
        Some(v) => print_full(alloc, out, ctx, nal_unit_type, v),
        None => Ok(()),
    }
}

/// Prints the fields of a header, up to its alignment.
#[tactic(auto, unfolding(crate::specs::Slice::slice_fields))]
pub(crate) fn print_fields(
    alloc: Global,
    out: &mut Printer,
    ctx: &SliceContext,
    nal_unit_type: u8,
    v: &SliceHead,
) -> Result<(), AllocError>
    requires fits { Fits ctx.now }
    requires valid { Valid (slice_fields ctx.now nal_unit_type) v.now }
    ensures { OnOk result (out.new ≡ printed (slice_fields ctx.now nal_unit_type) v.now out.old) }
{
    print_opening(out, nal_unit_type, v.opening)?;
    let first = v.opening.first_slice_segment_in_pic_flag == 1;
    print_address(out, ctx, first, v.address)?;
    let whole = !coded_set(v.address.dependent_slice_segment_flag);
    print_full_if(alloc, out, ctx, nal_unit_type, whole, &v.full)?;
    print_ending(out, ctx, &v.ending)
}
