//! The inter-layer fields of a slice segment header, and the layers that its picture refers to.

ghost use Rattle.std.specs.Prelude.{◌≡◌, ◌≤◌, nat_le, OnOk, option_map};
ghost use Rattle.mv_syntax.specs.Table.{u, named, when, Valid};
ghost use Rattle.mv_syntax.specs.Words.{◌!◌∶◌, or_zero};
ghost use Rattle.mv_syntax.specs.Printed.{printed};
ghost use Rattle.mv_rules.specs.declared.rule.Rule.TheVariants.{SliceSyntax};
ghost use Rattle.mv_fields.specs.Reading.{ReadsBy, ReadsAs};
ghost use Rattle.mv_slice.specs.Context.{Fits};
ghost use Rattle.std.specs.List.{list_any};
ghost use Rattle.mv_fields.specs.Widths.{clog2};
ghost use Rattle.mv_slice.specs.Layers.{num_active_ref_layer_pics, lacks_layers};
ghost use Rattle.mv_slice.specs.InterLayer.{is_bad_number, is_bad_layer, active_layer, active_layer_numbers, inter_layer};

use crate::context::SliceContext;
use mv_bits::BitReader;
use mv_fields::{Fault, Printer, clog2, coded_set, u8_if, u8_of};
use mv_rules::Rule;
use std::alloc::{AllocError, Global};
use std::marker::Model;

/// The inter-layer fields of a slice segment header (F.7.3.6.1).
#[derive(Debug, Drop)]
pub struct SliceInterLayer {
    pub inter_layer_pred_enabled_flag: Option<u8>,
    pub num_inter_layer_ref_pics_minus1: Option<u8>,
    pub inter_layer_pred_layer_idc: Option<Vec<u8>>,
}

impl Model for SliceInterLayer {
    ghost use Rattle.std.specs.Prelude.{option_map};
    ghost use Rattle.mv_slice.specs.InterLayer.{SliceInterLayerValue};

    ghost Value = { SliceInterLayerValue };

    ghost view = { λ s. record {
      inter_layer_pred_enabled_flag = s.inter_layer_pred_enabled_flag;
      num_inter_layer_ref_pics_minus1 = s.num_inter_layer_ref_pics_minus1;
      inter_layer_pred_layer_idc = option_map (λ v. v.items) s.inter_layer_pred_layer_idc;
    } };
}

fn or_zero_of(field: Option<u8>) -> usize
    ensures { result ≡ or_zero field }
{
    match field {
        Some(field) => usize::from(field),
        None => 0,
    }
}

/// NumActiveRefLayerPics.
#[tactic(auto, unfolding(crate::specs::Layers::num_active_ref_layer_pics))]
pub(crate) fn num_active(ctx: &SliceContext, enabled: Option<u8>, coded: Option<u8>) -> usize
    ensures { result ≡ num_active_ref_layer_pics ctx.now enabled coded }
{
    let eligible = ctx.eligible.len();
    if ctx.layer == 0 || eligible == 0 {
        return 0;
    }
    if ctx.default_ref_layers_active_flag == 1 {
        return eligible;
    }
    if !coded_set(enabled) {
        return 0;
    }
    if ctx.max_one_active_ref_layer_flag == 1 || ctx.directs == 1 {
        return 1;
    }
    or_zero_of(coded) + 1
}

#[tactic(auto, unfolding(crate::specs::Layers::lacks_layers))]
fn lacks_layers(ctx: &SliceContext, num_active: usize) -> bool
    ensures { result ≡ lacks_layers ctx.now num_active }
{
    num_active == usize::from(ctx.directs) && num_active > ctx.eligible.len()
}

fn is_bad_number(ctx: &SliceContext, n: u8) -> bool
    ensures { result ≡ is_bad_number ctx.now n }
{
    n >= ctx.directs || lacks_layers(ctx, num_active(ctx, Some(1), Some(n)))
}

fn any_at_least(before: &[u8], n: u8) -> bool
    ensures { result ≡ list_any (λ m. nat_le n m) before.now }
{
    before.iter().any(|m| n <= *m)
}

fn number_if(
    bits: &mut BitReader,
    ctx: &SliceContext,
    present: bool,
) -> Result<Option<u8>, Fault<Rule>>
    requires { Fits ctx.now }
    ensures { ReadsBy (when present (u (clog2 ctx.now.directs) ! SliceSyntax ∶ is_bad_number ctx.now)) bits.old bits.new result }
{
    if !present {
        return Ok(None);
    }
    let n = u8_of(bits, clog2(u32::from(ctx.directs), 6))?;
    if is_bad_number(ctx, n) {
        return Err(Fault::Breaks(Rule::SliceSyntax));
    }
    Ok(Some(n))
}

#[tactic(auto, unfolding(crate::specs::InterLayer::active_layer))]
fn active_layer_of(
    bits: &mut BitReader,
    ctx: &SliceContext,
    i: usize,
    before: &[u8],
) -> Result<u8, Fault<Rule>>
    requires { Fits ctx.now }
    ensures { ReadsBy (active_layer ctx.now i before.now) bits.old bits.new result }
{
    let n = u8_of(bits, clog2(u32::from(ctx.directs), 6))?;
    if n >= ctx.directs || any_at_least(before, n) {
        return Err(Fault::Breaks(Rule::SliceSyntax));
    }
    Ok(n)
}

#[tactic(auto, using(mv_syntax::proofs::LoopLaws::item_steps), unfolding(crate::specs::InterLayer::active_layer_numbers))]
fn active_layers_of(
    alloc: Global,
    bits: &mut BitReader,
    ctx: &SliceContext,
    n: usize,
) -> Result<Vec<u8>, Fault<Rule>>
    requires { Fits ctx.now }
    ensures { ReadsAs (λ v. v.items) (active_layer_numbers ctx.now n) bits.old bits.new result }
{
    let mut all = Vec::new(alloc);
    for i in 0..n {
        let layer = active_layer_of(bits, ctx, i, &all)?;
        all.push(layer)?;
    }
    Ok(all)
}

fn active_layers_if(
    alloc: Global,
    bits: &mut BitReader,
    ctx: &SliceContext,
    present: bool,
    n: usize,
) -> Result<Option<Vec<u8>>, Fault<Rule>>
    requires { Fits ctx.now }
    ensures { ReadsAs (λ o. option_map (λ v. v.items) o) (when present (active_layer_numbers ctx.now n)) bits.old bits.new result }
{
    if !present {
        return Ok(None);
    }
    Ok(Some(active_layers_of(alloc, bits, ctx, n)?))
}

#[tactic(auto, unfolding(crate::specs::InterLayer::inter_layer))]
pub(crate) fn inter_layer_of(
    alloc: Global,
    bits: &mut BitReader,
    ctx: &SliceContext,
) -> Result<SliceInterLayer, Fault<Rule>>
    requires { Fits ctx.now }
    ensures { ReadsBy (inter_layer ctx.now) bits.old bits.new result }
{
    let chosen = ctx.layer > 0 && ctx.default_ref_layers_active_flag != 1 && ctx.directs > 0;
    let inter_layer_pred_enabled_flag = u8_if(bits, chosen, 1)?;
    let several = coded_set(inter_layer_pred_enabled_flag) && ctx.directs > 1;
    let num_inter_layer_ref_pics_minus1 = number_if(
        bits,
        ctx,
        several && ctx.max_one_active_ref_layer_flag != 1,
    )?;
    let active = num_active(
        ctx,
        inter_layer_pred_enabled_flag,
        num_inter_layer_ref_pics_minus1,
    );
    let named = several && active != usize::from(ctx.directs);
    let inter_layer_pred_layer_idc = active_layers_if(alloc, bits, ctx, named, active)?;
    Ok(SliceInterLayer {
        inter_layer_pred_enabled_flag,
        num_inter_layer_ref_pics_minus1,
        inter_layer_pred_layer_idc,
    })
}

fn print_number_if(
    out: &mut Printer,
    ctx: &SliceContext,
    present: bool,
    field: Option<u8>,
) -> Result<(), AllocError>
    requires fits { Fits ctx.now }
    requires valid { Valid (when present (u (clog2 ctx.now.directs) ! SliceSyntax ∶ is_bad_number ctx.now)) field }
    ensures { OnOk result (out.new ≡ printed (named "num_inter_layer_ref_pics_minus1" (when present (u (clog2 ctx.now.directs) ! SliceSyntax ∶ is_bad_number ctx.now))) field out.old) }
{
    match field {
        Some(field) => out.u8(
            "num_inter_layer_ref_pics_minus1",
            clog2(u32::from(ctx.directs), 6),
            field,
        ),
        None => Ok(()),
    }
}

/// Prints the number of an active layer, behind those before it.
#[tactic(auto, unfolding(crate::specs::InterLayer::active_layer))]
fn print_active_layer(
    out: &mut Printer,
    ctx: &SliceContext,
    i: usize,
    before: &[u8],
    field: u8,
) -> Result<(), AllocError>
    requires fits { Fits ctx.now }
    requires valid { Valid (active_layer ctx.now i before.now) field }
    ensures { OnOk result (out.new ≡ printed (active_layer ctx.now i before.now) field out.old) }
{
    out.u8(
        "inter_layer_pred_layer_idc",
        clog2(u32::from(ctx.directs), 6),
        field,
    )
}

#[tactic(auto, using(mv_syntax::proofs::PrintingLoops::print_item_steps), unfolding(crate::specs::InterLayer::active_layer_numbers))]
fn print_active_layers(
    out: &mut Printer,
    ctx: &SliceContext,
    n: usize,
    all: &[u8],
) -> Result<(), AllocError>
    requires fits { Fits ctx.now }
    requires valid { Valid (active_layer_numbers ctx.now n) all.now }
    ensures { OnOk result (out.new ≡ printed (active_layer_numbers ctx.now n) all.now out.old) }
{
    for i in 0..all.len() {
        let outer = out.open(i as u64)?;
        print_active_layer(out, ctx, i, &all[..i], all[i])?;
        out.close(outer);
    }
    Ok(())
}

fn print_active_layers_if(
    out: &mut Printer,
    ctx: &SliceContext,
    present: bool,
    n: usize,
    all: &Option<Vec<u8>>,
) -> Result<(), AllocError>
    requires fits { Fits ctx.now }
    requires valid { Valid (when present (active_layer_numbers ctx.now n)) (option_map (λ v. v.items) all.now) }
    ensures { OnOk result (out.new ≡ printed (when present (active_layer_numbers ctx.now n)) (option_map (λ v. v.items) all.now) out.old) }
{
    match all {
        Some(all) => print_active_layers(out, ctx, n, all),
        None => Ok(()),
    }
}

#[tactic(auto, unfolding(crate::specs::InterLayer::inter_layer))]
pub(crate) fn print_inter_layer(
    out: &mut Printer,
    ctx: &SliceContext,
    v: &SliceInterLayer,
) -> Result<(), AllocError>
    requires fits { Fits ctx.now }
    requires valid { Valid (inter_layer ctx.now) v.now }
    ensures { OnOk result (out.new ≡ printed (inter_layer ctx.now) v.now out.old) }
{
    let chosen = ctx.layer > 0 && ctx.default_ref_layers_active_flag != 1 && ctx.directs > 0;
    let several = coded_set(v.inter_layer_pred_enabled_flag) && ctx.directs > 1;
    let active = num_active(
        ctx,
        v.inter_layer_pred_enabled_flag,
        v.num_inter_layer_ref_pics_minus1,
    );
    let named = several && active != usize::from(ctx.directs);
    out.flag_if(
        chosen,
        "inter_layer_pred_enabled_flag",
        v.inter_layer_pred_enabled_flag,
    )?;
    print_number_if(
        out,
        ctx,
        several && ctx.max_one_active_ref_layer_flag != 1,
        v.num_inter_layer_ref_pics_minus1,
    )?;
    print_active_layers_if(out, ctx, named, active, &v.inter_layer_pred_layer_idc)
}
