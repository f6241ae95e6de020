//! What a slice segment header says of its picture and of the reference pictures in its layer.

ghost use Rattle.std.specs.Prelude.{◌≡◌, ◌≤◌, OnOk, ◌&&◌, nat_eq};
ghost use Rattle.mv_syntax.specs.Table.{u, when, Valid};
ghost use Rattle.mv_syntax.specs.Words.{◌!◌∶◌, ◌under◌, is_set};
ghost use Rattle.mv_syntax.specs.Loops.{us};
ghost use Rattle.mv_syntax.specs.Printed.{printed};
ghost use Rattle.mv_rules.specs.declared.rule.Rule.TheVariants.{SliceSyntax};
ghost use Rattle.mv_fields.specs.Reading.{ReadsBy, ReadsAs};
ghost use Rattle.mv_short_sets.specs.Deltas.{deltas_of_each};
ghost use Rattle.mv_short_sets.specs.ShortSet.{st_ref_pic_set, AreShortArgs};
ghost use Rattle.mv_slice.specs.Context.{Fits};
ghost use Rattle.mv_slice.specs.Numbers.{is_idr};
ghost use Rattle.mv_slice.specs.Picture.{has_lsb, own_set, references, picture};

use crate::context::SliceContext;
use crate::long_terms::{LongTerms, long_terms_if, print_long_terms_if};
use mv_bits::BitReader;
use mv_fields::{
    Fault, Printer, clog2, u8_below_if, u8_if, u8_of, u8s_of, u16_if, ue_within, under,
    unset_flag_if,
};
use mv_rules::Rule;
use mv_short_sets::{ShortArgs, ShortSet};
use std::alloc::{AllocError, Global};
use std::marker::Model;

/// The reference pictures in its own layer of a picture that is no IDR picture.
#[derive(Debug, Drop)]
pub struct SliceReferences {
    pub short_term_ref_pic_set_sps_flag: u8,
    pub st_ref_pic_set: Option<ShortSet>,
    pub short_term_ref_pic_set_idx: Option<u8>,
    pub long_terms: Option<LongTerms>,
    pub slice_temporal_mvp_enabled_flag: Option<u8>,
}

/// What a full slice segment header says of its picture and of its reference pictures in its own layer.
#[derive(Debug, Drop)]
pub struct SlicePicture {
    pub discardable_flag: Option<u8>,
    pub cross_layer_bla_flag: Option<u8>,
    pub slice_reserved_flag: Vec<u8>,
    /// 0 is B, 1 is P, 2 is I.
    pub slice_type: u32,
    pub pic_output_flag: Option<u8>,
    pub slice_pic_order_cnt_lsb: Option<u16>,
    /// Coded unless the picture is an IDR picture.
    pub references: Option<SliceReferences>,
}

impl Model for SlicePicture {
    ghost use Rattle.mv_slice.specs.Picture.{SlicePictureValue};

    ghost Value = { SlicePictureValue };

    ghost view = { λ s. record {
      discardable_flag = s.discardable_flag;
      cross_layer_bla_flag = s.cross_layer_bla_flag;
      slice_reserved_flag = s.slice_reserved_flag.items;
      slice_type = s.slice_type;
      pic_output_flag = s.pic_output_flag;
      slice_pic_order_cnt_lsb = s.slice_pic_order_cnt_lsb;
      references = s.references;
    } };
}

/// The set behind all sets of the sequence parameter set.
#[tactic(auto, using(mv_fields::proofs::Shared::shared_steps))]
fn own_set_of(
    alloc: Global,
    bits: &mut BitReader,
    num: u8,
    sets: &[ShortSet],
) -> Result<ShortSet, Fault<Rule>>
    requires { AreShortArgs num num sets.now }
    ensures { ReadsBy (st_ref_pic_set num num (deltas_of_each sets.now) under SliceSyntax) bits.old bits.new result }
{
    let args = ShortArgs {
        idx: num,
        num,
        earlier: sets,
    };
    under(Rule::SliceSyntax, ShortSet::read(alloc, bits, &args))
}

fn own_set_if(
    alloc: Global,
    bits: &mut BitReader,
    ctx: &SliceContext,
    present: bool,
) -> Result<Option<ShortSet>, Fault<Rule>>
    requires { Fits ctx.now }
    ensures { ReadsBy (when present (own_set ctx.now)) bits.old bits.new result }
{
    if !present {
        return Ok(None);
    }
    let num = ctx.num_short_term_ref_pic_sets as u8;
    Ok(Some(own_set_of(alloc, bits, num, ctx.short_sets)?))
}

/// short_term_ref_pic_set_sps_flag, which can't be 1 where the sequence parameter set has no set.
fn sps_flag_of(bits: &mut BitReader, num: u32) -> Result<u8, Fault<Rule>>
    ensures { ReadsBy (u 1 ! SliceSyntax ∶ (λ flag. is_set flag && nat_eq num 0)) bits.old bits.new result }
{
    let flag = u8_of(bits, 1)?;
    if flag == 1 && num == 0 {
        return Err(Fault::Breaks(Rule::SliceSyntax));
    }
    Ok(flag)
}

#[tactic(auto, unfolding(crate::specs::Picture::references))]
fn references_of(
    alloc: Global,
    bits: &mut BitReader,
    ctx: &SliceContext,
) -> Result<SliceReferences, Fault<Rule>>
    requires { Fits ctx.now }
    ensures { ReadsBy (references ctx.now) bits.old bits.new result }
{
    let num = ctx.num_short_term_ref_pic_sets;
    let short_term_ref_pic_set_sps_flag = sps_flag_of(bits, num)?;
    let of_sps = short_term_ref_pic_set_sps_flag == 1;
    let st_ref_pic_set = own_set_if(alloc, bits, ctx, !of_sps)?;
    let short_term_ref_pic_set_idx = u8_below_if(
        bits,
        of_sps && num > 1,
        clog2(num, 6),
        Rule::SliceSyntax,
        num,
    )?;
    let long_terms = long_terms_if(alloc, bits, ctx, ctx.long_term_ref_pics_present_flag == 1)?;
    let slice_temporal_mvp_enabled_flag = u8_if(bits, ctx.sps_temporal_mvp_enabled_flag == 1, 1)?;
    Ok(SliceReferences {
        short_term_ref_pic_set_sps_flag,
        st_ref_pic_set,
        short_term_ref_pic_set_idx,
        long_terms,
        slice_temporal_mvp_enabled_flag,
    })
}

fn references_if(
    alloc: Global,
    bits: &mut BitReader,
    ctx: &SliceContext,
    present: bool,
) -> Result<Option<SliceReferences>, Fault<Rule>>
    requires { Fits ctx.now }
    ensures { ReadsBy (when present (references ctx.now)) bits.old bits.new result }
{
    if !present {
        return Ok(None);
    }
    Ok(Some(references_of(alloc, bits, ctx)?))
}

/// The reserved flags, which are numbered from 2 on.
#[tactic(auto, unfolding(mv_syntax::specs::Loops::items, mv_syntax::specs::Loops::each))]
fn reserved_flags_of(alloc: Global, bits: &mut BitReader, n: u32) -> Result<Vec<u8>, Fault<Rule>>
    ensures { ReadsAs (λ v. v.items) (us 2 n 1) bits.old bits.new result }
{
    u8s_of(alloc, bits, n, 1)
}

fn is_idr(nal_unit_type: u8) -> bool
    ensures { result ≡ is_idr nal_unit_type }
{
    nal_unit_type == 19 || nal_unit_type == 20
}

/// Whether the low bits of the picture order count are coded.
fn has_lsb(ctx: &SliceContext, nal_unit_type: u8) -> bool
    ensures { result ≡ has_lsb ctx.now nal_unit_type }
{
    !is_idr(nal_unit_type) || (ctx.layer > 0 && ctx.poc_lsb_not_present_flag != 1)
}

#[tactic(auto, unfolding(crate::specs::Picture::picture))]
pub(crate) fn picture_of(
    alloc: Global,
    bits: &mut BitReader,
    ctx: &SliceContext,
    nal_unit_type: u8,
) -> Result<SlicePicture, Fault<Rule>>
    requires { Fits ctx.now }
    ensures { ReadsBy (picture ctx.now nal_unit_type) bits.old bits.new result }
{
    let extra = ctx.num_extra_slice_header_bits;
    let discardable_flag = u8_if(bits, extra > 0, 1)?;
    let cross_layer_bla_flag = unset_flag_if(bits, extra > 1, Rule::CrossLayerBla)?;
    let slice_reserved_flag = reserved_flags_of(alloc, bits, u32::from(extra.saturating_sub(2)))?;
    let slice_type = ue_within(bits, Rule::SliceSyntax, 2)?;
    let pic_output_flag = u8_if(bits, ctx.output_flag_present_flag == 1, 1)?;
    let slice_pic_order_cnt_lsb = u16_if(bits, has_lsb(ctx, nal_unit_type), ctx.lsb_bits)?;
    let references = references_if(alloc, bits, ctx, !is_idr(nal_unit_type))?;
    Ok(SlicePicture {
        discardable_flag,
        cross_layer_bla_flag,
        slice_reserved_flag,
        slice_type,
        pic_output_flag,
        slice_pic_order_cnt_lsb,
        references,
    })
}

fn print_own_set_if(
    out: &mut Printer,
    ctx: &SliceContext,
    present: bool,
    v: &Option<ShortSet>,
) -> Result<(), AllocError>
    requires fits { Fits ctx.now }
    requires valid { Valid (when present (own_set ctx.now)) v.now }
    ensures { OnOk result (out.new ≡ printed (when present (own_set ctx.now)) v.now out.old) }
{
    let num = ctx.num_short_term_ref_pic_sets as u8;
    let args = ShortArgs {
        idx: num,
        num,
        earlier: ctx.short_sets,
    };
    match v {
        Some(v) => v.print(out, &args),
        None => Ok(()),
    }
}

#[tactic(auto, unfolding(crate::specs::Picture::references))]
fn print_references(
    out: &mut Printer,
    ctx: &SliceContext,
    v: &SliceReferences,
) -> Result<(), AllocError>
    requires fits { Fits ctx.now }
    requires valid { Valid (references ctx.now) v.now }
    ensures { OnOk result (out.new ≡ printed (references ctx.now) v.now out.old) }
{
    let num = ctx.num_short_term_ref_pic_sets;
    let of_sps = v.short_term_ref_pic_set_sps_flag == 1;
    out.flag(
        "short_term_ref_pic_set_sps_flag",
        v.short_term_ref_pic_set_sps_flag,
    )?;
    print_own_set_if(out, ctx, !of_sps, &v.st_ref_pic_set)?;
    out.u8_below_if(
        of_sps && num > 1,
        "short_term_ref_pic_set_idx",
        clog2(num, 6),
        Rule::SliceSyntax,
        num,
        v.short_term_ref_pic_set_idx,
    )?;
    print_long_terms_if(
        out,
        ctx,
        ctx.long_term_ref_pics_present_flag == 1,
        &v.long_terms,
    )?;
    out.flag_if(
        ctx.sps_temporal_mvp_enabled_flag == 1,
        "slice_temporal_mvp_enabled_flag",
        v.slice_temporal_mvp_enabled_flag,
    )
}

fn print_references_if(
    out: &mut Printer,
    ctx: &SliceContext,
    present: bool,
    v: &Option<SliceReferences>,
) -> Result<(), AllocError>
    requires fits { Fits ctx.now }
    requires valid { Valid (when present (references ctx.now)) v.now }
    ensures { OnOk result (out.new ≡ printed (when present (references ctx.now)) v.now out.old) }
{
    match v {
        Some(v) => print_references(out, ctx, v),
        None => Ok(()),
    }
}

#[tactic(auto, unfolding(crate::specs::Picture::picture))]
pub(crate) fn print_picture(
    out: &mut Printer,
    ctx: &SliceContext,
    nal_unit_type: u8,
    v: &SlicePicture,
) -> Result<(), AllocError>
    requires fits { Fits ctx.now }
    requires valid { Valid (picture ctx.now nal_unit_type) v.now }
    ensures { OnOk result (out.new ≡ printed (picture ctx.now nal_unit_type) v.now out.old) }
{
    let extra = ctx.num_extra_slice_header_bits;
    out.flag_if(extra > 0, "discardable_flag", v.discardable_flag)?;
    out.unset_flag_if(
        extra > 1,
        "cross_layer_bla_flag",
        Rule::CrossLayerBla,
        v.cross_layer_bla_flag,
    )?;
    let reserved = u32::from(extra.saturating_sub(2));
    out.u8s(
        "slice_reserved_flag",
        2,
        reserved,
        1,
        &v.slice_reserved_flag,
    )?;
    out.ue("slice_type", v.slice_type)?;
    out.flag_if(
        ctx.output_flag_present_flag == 1,
        "pic_output_flag",
        v.pic_output_flag,
    )?;
    out.u16_if(
        has_lsb(ctx, nal_unit_type),
        "slice_pic_order_cnt_lsb",
        ctx.lsb_bits,
        v.slice_pic_order_cnt_lsb,
    )?;
    print_references_if(out, ctx, !is_idr(nal_unit_type), &v.references)?;
    Ok(())
}
