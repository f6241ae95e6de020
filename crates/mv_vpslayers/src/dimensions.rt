ghost use Rattle.std.specs.Prelude.{◌≡◌, ◌≤◌, ◌+◌, get_or, length, nat_eq, OnOk, IfOk, option_map};
ghost use Rattle.std.specs.List.{list_any};
ghost use Rattle.mv_vpslayers.specs.declared.dimensions.VpsLayer.{VpsLayer as Layer};
ghost use Rattle.mv_syntax.specs.Table.{u, named, when, Valid};
ghost use Rattle.mv_syntax.specs.Printed.{printed};
ghost use Rattle.mv_syntax.specs.Words.{◌!◌∶◌, over, is_set, or_zero};
ghost use Rattle.mv_fields.specs.Reading.{ReadsBy, ReadsAs};
ghost use Rattle.mv_vpslayers.specs.Layers.{nuh_layer_id};
ghost use Rattle.mv_vpslayers.specs.Dimensions.{mask_rule, mask_breaks, mask_flag, mask_flags, no_layer_id, same_view, vps_layer, vps_layers, view_id_vals, lacks_view_id, dimensions};
ghost use Rattle.mv_rules.specs.declared.rule.Rule.TheVariants.{SameView, VpsLimit};

use crate::layers::nuh_layer_id;
use crate::shared::{print_profile_tier_if, profile_tier_if};
use mv_bits::BitReader;
use mv_common::ProfileTier;
use mv_fields::{Fault, Printer, u8_of, u16_of, unset_flag};
use mv_rules::Rule;
use std::alloc::{AllocError, Global};
use std::marker::Model;

/// A layer from index 1 on: its nuh_layer_id, where that is coded, and its view order index.
#[derive(Clone, Copy, Debug, PartialEq, Eq)]
pub struct VpsLayer {
    pub layer_id_in_nuh: Option<u8>,
    pub dimension_id: u8,
}

/// The profile of layer 0, the scalability dimensions, the layers and the view identifiers.
#[derive(Debug, Drop)]
pub struct VpsDimensions {
    pub profile_tier_level: Option<ProfileTier>,
    pub splitting_flag: u8,
    pub scalability_mask_flag: Vec<u8>,
    pub dimension_id_len_minus1: Option<u8>,
    pub vps_nuh_layer_id_present_flag: u8,
    /// The layers from index 1 on.
    pub layers: Vec<VpsLayer>,
    pub view_id_len: u8,
    /// By view order index.
    pub view_id_val: Option<Vec<u16>>,
}

impl Model for VpsDimensions {
    ghost use Rattle.std.specs.Prelude.{option_map};
    ghost use Rattle.mv_vpslayers.specs.Dimensions.{VpsDimensionsValue};

    ghost Value = { VpsDimensionsValue };

    ghost view = { λ d. record {
      profile_tier_level = d.profile_tier_level;
      splitting_flag = d.splitting_flag;
      scalability_mask_flag = d.scalability_mask_flag.items;
      dimension_id_len_minus1 = d.dimension_id_len_minus1;
      vps_nuh_layer_id_present_flag = d.vps_nuh_layer_id_present_flag;
      layers = d.layers.items;
      view_id_len = d.view_id_len;
      view_id_val = option_map (λ v. v.items) d.view_id_val;
    } };
}

// The rule that the scalability mask flag of this index can break.
fn mask_rule(i: u8) -> Rule
    ensures { result ≡ mask_rule i }
{
    match i {
        0 => Rule::Depth,
        1 => Rule::NoViewDimension,
        2 => Rule::Spatial,
        3 => Rule::Auxiliary,
        _ => Rule::ReservedDimension,
    }
}

fn mask_breaks(vps_max_layers_minus1: u8, i: u8, flag: u8) -> bool
    ensures { result ≡ mask_breaks vps_max_layers_minus1 i flag }
{
    if i == 1 {
        return vps_max_layers_minus1 > 0 && flag != 1;
    }
    flag == 1
}

#[tactic(auto, unfolding(crate::specs::Dimensions::mask_flag))]
fn mask_flag_of(bits: &mut BitReader, vps_max_layers_minus1: u8, i: u8) -> Result<u8, Fault<Rule>>
    ensures { ReadsBy (mask_flag vps_max_layers_minus1 i) bits.old bits.new result }
{
    let flag = u8_of(bits, 1)?;
    if mask_breaks(vps_max_layers_minus1, i, flag) {
        return Err(Fault::Breaks(mask_rule(i)));
    }
    Ok(flag)
}

#[tactic(auto, using(mv_syntax::proofs::LoopLaws::item_steps), unfolding(crate::specs::Dimensions::mask_flags))]
fn mask_flags_of(
    alloc: Global,
    bits: &mut BitReader,
    vps_max_layers_minus1: u8,
) -> Result<Vec<u8>, Fault<Rule>>
    ensures { ReadsAs (λ v. v.items) (mask_flags vps_max_layers_minus1) bits.old bits.new result }
{
    let mut all = Vec::new(alloc);
    for i in 0..16 {
        all.push(mask_flag_of(bits, vps_max_layers_minus1, i)?)?;
    }
    Ok(all)
}

// Whether the flags say that the layers are views.
fn has_views(flags: &[u8]) -> bool
    ensures { result ≡ is_set (get_or flags.now 1 0) }
{
    match flags.get(1) {
        Some(flag) => *flag == 1,
        None => false,
    }
}

// The next field u(3), where it is present.
#[tactic(auto, using(crate::proofs::Sharing::small))]
fn id_len_if(bits: &mut BitReader, present: bool) -> Result<Option<u8>, Fault<Rule>>
    ensures reads { ReadsBy (when present (u 3)) bits.old bits.new result }
    ensures small { IfOk result (λ len. or_zero len ≤ 7) }
{
    if !present {
        return Ok(None);
    }
    Ok(Some(u8_of(bits, 3)?))
}

// The width of dimension_id, where its length less 1 is coded so; 1 where it isn't coded.
fn id_width(dimension_id_len_minus1: Option<u8>) -> u8
    requires { or_zero dimension_id_len_minus1 ≤ 7 }
    ensures { result ≡ or_zero dimension_id_len_minus1 + 1 }
{
    match dimension_id_len_minus1 {
        Some(len) => len + 1,
        None => 1,
    }
}

// The next field layer_id_in_nuh, behind a layer of the nuh_layer_id `before`, where it is present.
fn layer_id_if(bits: &mut BitReader, present: bool, before: u8) -> Result<Option<u8>, Fault<Rule>>
    ensures { ReadsBy (when present (u 6 ! VpsLimit ∶ no_layer_id before)) bits.old bits.new result }
{
    if !present {
        return Ok(None);
    }
    let id = u8_of(bits, 6)?;
    if id == 63 || id <= before {
        return Err(Fault::Breaks(Rule::VpsLimit));
    }
    Ok(Some(id))
}

// Whether a layer has this view order index.
fn any_has_view(layers: &[VpsLayer], id: u8) -> bool
    ensures { result ≡ list_any (λ (layer : Layer). nat_eq layer.dimension_id id) layers.now }
{
    layers.iter().any(|layer| layer.dimension_id == id)
}

// Whether a view order index is that of an earlier layer.
fn same_view(before: &[VpsLayer], id: u8) -> bool
    ensures { result ≡ same_view before.now id }
{
    if id == 0 {
        return true;
    }
    any_has_view(before, id)
}

// The next field dimension_id, of this width, behind these layers.
fn dimension_id_of(bits: &mut BitReader, width: u8, before: &[VpsLayer]) -> Result<u8, Fault<Rule>>
    requires { width ≤ 8 }
    ensures { ReadsBy (u width ! SameView ∶ same_view before.now) bits.old bits.new result }
{
    let id = u8_of(bits, width)?;
    if same_view(before, id) {
        return Err(Fault::Breaks(Rule::SameView));
    }
    Ok(id)
}

#[tactic(auto, unfolding(crate::specs::Dimensions::vps_layer))]
fn vps_layer_of(
    bits: &mut BitReader,
    present: bool,
    width: u8,
    i: u8,
    before: &[VpsLayer],
) -> Result<VpsLayer, Fault<Rule>>
    requires width { width ≤ 8 }
    requires few { length before.now ≤ 62 }
    ensures { ReadsBy (vps_layer present width i before.now) bits.old bits.new result }
{
    let layer_id_in_nuh = layer_id_if(bits, present, nuh_layer_id(before, before.len()))?;
    let dimension_id = dimension_id_of(bits, width, before)?;
    Ok(VpsLayer {
        layer_id_in_nuh,
        dimension_id,
    })
}

#[tactic(auto, using(mv_syntax::proofs::LoopLaws::item_steps), unfolding(crate::specs::Dimensions::vps_layers))]
fn vps_layers_of(
    alloc: Global,
    bits: &mut BitReader,
    vps_max_layers_minus1: u8,
    present: bool,
    width: u8,
) -> Result<Vec<VpsLayer>, Fault<Rule>>
    requires layers { vps_max_layers_minus1 ≤ 62 }
    requires width { width ≤ 8 }
    ensures { ReadsAs (λ v. v.items) (vps_layers vps_max_layers_minus1 present width) bits.old bits.new result }
{
    let end = vps_max_layers_minus1 + 1;
    let mut all = Vec::new(alloc);
    for i in 1..end {
        let layer = vps_layer_of(bits, present, width, i, &all)?;
        all.push(layer)?;
    }
    Ok(all)
}

// Whether a layer has a view order index above the greatest layer index.
fn any_beyond_views(layers: &[VpsLayer], vps_max_layers_minus1: u8) -> bool
    ensures { result ≡ list_any (λ (layer : Layer). over vps_max_layers_minus1 layer.dimension_id) layers.now }
{
    layers
        .iter()
        .any(|layer| layer.dimension_id > vps_max_layers_minus1)
}

// Whether view identifiers are coded and a view order index has none.
fn lacks_view_id(vps_max_layers_minus1: u8, layers: &[VpsLayer], view_id_len: u8) -> bool
    ensures { result ≡ lacks_view_id vps_max_layers_minus1 layers.now view_id_len }
{
    if view_id_len == 0 {
        return false;
    }
    any_beyond_views(layers, vps_max_layers_minus1)
}

#[tactic(auto, using(crate::proofs::Sharing::small))]
fn view_id_len_of(
    bits: &mut BitReader,
    vps_max_layers_minus1: u8,
    layers: &[VpsLayer],
) -> Result<u8, Fault<Rule>>
    ensures small { IfOk result (λ len. len ≤ 15) }
    ensures reads { ReadsBy (u 4 ! VpsLimit ∶ lacks_view_id vps_max_layers_minus1 layers.now) bits.old bits.new result }
{
    let view_id_len = u8_of(bits, 4)?;
    if lacks_view_id(vps_max_layers_minus1, layers, view_id_len) {
        return Err(Fault::Breaks(Rule::VpsLimit));
    }
    Ok(view_id_len)
}

#[tactic(auto, using(mv_syntax::proofs::LoopLaws::item_steps), unfolding(crate::specs::Dimensions::view_id_vals, mv_syntax::specs::Loops::each))]
fn view_id_vals_of(
    alloc: Global,
    bits: &mut BitReader,
    vps_max_layers_minus1: u8,
    view_id_len: u8,
) -> Result<Vec<u16>, Fault<Rule>>
    requires layers { vps_max_layers_minus1 ≤ 62 }
    requires width { view_id_len ≤ 15 }
    ensures { ReadsAs (λ v. v.items) (view_id_vals vps_max_layers_minus1 view_id_len) bits.old bits.new result }
{
    let end = vps_max_layers_minus1 + 1;
    let mut all = Vec::new(alloc);
    for i in 0..end {
        all.push(u16_of(bits, view_id_len)?)?;
    }
    Ok(all)
}

fn view_id_vals_if(
    alloc: Global,
    bits: &mut BitReader,
    present: bool,
    vps_max_layers_minus1: u8,
    view_id_len: u8,
) -> Result<Option<Vec<u16>>, Fault<Rule>>
    requires layers { vps_max_layers_minus1 ≤ 62 }
    requires width { view_id_len ≤ 15 }
    ensures { ReadsAs (λ o. option_map (λ v. v.items) o) (when present (view_id_vals vps_max_layers_minus1 view_id_len)) bits.old bits.new result }
{
    if !present {
        return Ok(None);
    }
    Ok(Some(view_id_vals_of(alloc, bits, vps_max_layers_minus1, view_id_len)?))
}

/// The first part of the extension: the profile of all layers, the scalability mask, and of each layer its id and dimension, with
/// the ids of the views (F.7.3.2.1.1).
///
/// `Breaks` with the first rule that a field breaks, all fields before it being read. `NoBits` where the bits end before. `Memory`
/// where memory runs out.
#[tactic(auto, unfolding(crate::specs::Dimensions::dimensions))]
pub fn dimensions_of(
    alloc: Global,
    bits: &mut BitReader,
    vps_max_layers_minus1: u8,
    vps_max_sub_layers_minus1: u8,
) -> Result<VpsDimensions, Fault<Rule>>
    requires layers { vps_max_layers_minus1 ≤ 62 }
    requires subs { vps_max_sub_layers_minus1 ≤ 6 }
    ensures { ReadsBy (dimensions vps_max_layers_minus1 vps_max_sub_layers_minus1) bits.old bits.new result }
{
    let several = vps_max_layers_minus1 > 0;
    let profile_tier_level = profile_tier_if(alloc, bits, several, vps_max_sub_layers_minus1)?;
    let splitting_flag = unset_flag(bits, Rule::Splitting)?;
    let scalability_mask_flag = mask_flags_of(alloc, bits, vps_max_layers_minus1)?;
    let views = has_views(&scalability_mask_flag);
    let dimension_id_len_minus1 = id_len_if(bits, views)?;
    let vps_nuh_layer_id_present_flag = u8_of(bits, 1)?;
    let layers = vps_layers_of(
        alloc,
        bits,
        vps_max_layers_minus1,
        vps_nuh_layer_id_present_flag == 1,
        dimension_id_len_minus1.unwrap_or(0) + 1,
    )?;
    let view_id_len = view_id_len_of(bits, vps_max_layers_minus1, &layers)?;
    let view_id_val = view_id_vals_if(
        alloc,
        bits,
        view_id_len > 0,
        vps_max_layers_minus1,
        view_id_len,
    )?;
    Ok(VpsDimensions {
        profile_tier_level,
        splitting_flag,
        scalability_mask_flag,
        dimension_id_len_minus1,
        vps_nuh_layer_id_present_flag,
        layers,
        view_id_len,
        view_id_val,
    })
}

#[tactic(auto, unfolding(crate::specs::Dimensions::mask_flag))]
fn print_mask_flag(
    out: &mut Printer,
    vps_max_layers_minus1: u8,
    i: usize,
    flag: u8,
) -> Result<(), AllocError>
    requires { Valid (mask_flag vps_max_layers_minus1 i) flag }
    ensures { OnOk result (out.new ≡ printed (mask_flag vps_max_layers_minus1 i) flag out.old) }
{
    out.flag("scalability_mask_flag", flag)
}

#[tactic(auto, using(mv_syntax::proofs::PrintingLoops::print_item_steps), unfolding(crate::specs::Dimensions::mask_flags))]
fn print_mask_flags(
    out: &mut Printer,
    all: &[u8],
    vps_max_layers_minus1: u8,
) -> Result<(), AllocError>
    requires { Valid (mask_flags vps_max_layers_minus1) all.now }
    ensures { OnOk result (out.new ≡ printed (mask_flags vps_max_layers_minus1) all.now out.old) }
{
    for i in 0..all.len() {
        let outer = out.open(i as u64)?;
        print_mask_flag(out, vps_max_layers_minus1, i, all[i])?;
        out.close(outer);
    }
    Ok(())
}

#[tactic(auto, using(mv_syntax::proofs::PrintingLoops::print_item_steps), unfolding(crate::specs::Dimensions::view_id_vals, mv_syntax::specs::Loops::each))]
fn print_view_id_vals(
    out: &mut Printer,
    all: &[u16],
    vps_max_layers_minus1: u8,
    view_id_len: u8,
) -> Result<(), AllocError>
    requires width { view_id_len ≤ 15 }
    requires valid { Valid (view_id_vals vps_max_layers_minus1 view_id_len) all.now }
    ensures { OnOk result (out.new ≡ printed (view_id_vals vps_max_layers_minus1 view_id_len) all.now out.old) }
{
    for i in 0..all.len() {
        let outer = out.open(i as u64)?;
        out.u16("view_id_val", view_id_len, all[i])?;
        out.close(outer);
    }
    Ok(())
}

fn print_view_id_vals_if(
    out: &mut Printer,
    present: bool,
    all: &Option<Vec<u16>>,
    vps_max_layers_minus1: u8,
    view_id_len: u8,
) -> Result<(), AllocError>
    requires width { view_id_len ≤ 15 }
    requires valid { Valid (when present (view_id_vals vps_max_layers_minus1 view_id_len)) (option_map (λ v. v.items) all.now) }
    ensures { OnOk result (out.new ≡ printed (when present (view_id_vals vps_max_layers_minus1 view_id_len)) (option_map (λ v. v.items) all.now) out.old) }
{
    match all {
        Some(all) => print_view_id_vals(out, all, vps_max_layers_minus1, view_id_len),
        None => Ok(()),
    }
}

fn print_layer_id_if(
    out: &mut Printer,
    present: bool,
    field: Option<u8>,
    before: &[VpsLayer],
) -> Result<(), AllocError>
    requires { Valid (named "layer_id_in_nuh" (when present (u 6 ! VpsLimit ∶ no_layer_id (nuh_layer_id before.now (length before.now))))) field }
    ensures { OnOk result (out.new ≡ printed (named "layer_id_in_nuh" (when present (u 6 ! VpsLimit ∶ no_layer_id (nuh_layer_id before.now (length before.now))))) field out.old) }
{
    match field {
        Some(id) => out.u8("layer_id_in_nuh", 6, id),
        None => Ok(()),
    }
}

#[tactic(auto, unfolding(crate::specs::Dimensions::vps_layer))]
fn print_vps_layer(
    out: &mut Printer,
    v: &VpsLayer,
    present: bool,
    width: u8,
    i: usize,
    before: &[VpsLayer],
) -> Result<(), AllocError>
    requires width { width ≤ 8 }
    requires valid { Valid (vps_layer present width i before.now) v.now }
    ensures { OnOk result (out.new ≡ printed (vps_layer present width i before.now) v.now out.old) }
{
    print_layer_id_if(out, present, v.layer_id_in_nuh, before)?;
    out.u8("dimension_id", width, v.dimension_id)?;
    Ok(())
}

#[tactic(auto, using(mv_syntax::proofs::PrintingLoops::print_item_steps), unfolding(crate::specs::Dimensions::vps_layers))]
fn print_vps_layers(
    out: &mut Printer,
    all: &[VpsLayer],
    vps_max_layers_minus1: u8,
    present: bool,
    width: u8,
) -> Result<(), AllocError>
    requires width { width ≤ 8 }
    requires few { vps_max_layers_minus1 ≤ 62 }
    requires valid { Valid (vps_layers vps_max_layers_minus1 present width) all.now }
    ensures { OnOk result (out.new ≡ printed (vps_layers vps_max_layers_minus1 present width) all.now out.old) }
{
    for k in 0..all.len() {
        let outer = out.open(k as u64 + 1)?;
        print_vps_layer(out, &all[k], present, width, k + 1, &all[..k])?;
        out.close(outer);
    }
    Ok(())
}

/// Prints the first part.
///
/// `AllocError` where memory runs out.
#[tactic(auto, using(crate::proofs::DimensionLaws::dimension_steps), unfolding(crate::specs::Dimensions::dimensions))]
pub fn print_dimensions(
    out: &mut Printer,
    v: &VpsDimensions,
    vps_max_layers_minus1: u8,
    vps_max_sub_layers_minus1: u8,
) -> Result<(), AllocError>
    requires layers { vps_max_layers_minus1 ≤ 62 }
    requires subs { vps_max_sub_layers_minus1 ≤ 6 }
    requires valid { Valid (dimensions vps_max_layers_minus1 vps_max_sub_layers_minus1) v.now }
    ensures { OnOk result (out.new ≡ printed (dimensions vps_max_layers_minus1 vps_max_sub_layers_minus1) v.now out.old) }
{
    let several = vps_max_layers_minus1 > 0;
    let views = has_views(&v.scalability_mask_flag);
    let coded = v.vps_nuh_layer_id_present_flag == 1;
    let width = id_width(v.dimension_id_len_minus1);
    print_profile_tier_if(
        out,
        several,
        &v.profile_tier_level,
        vps_max_sub_layers_minus1,
    )?;
    out.flag("splitting_flag", v.splitting_flag)?;
    print_mask_flags(out, &v.scalability_mask_flag, vps_max_layers_minus1)?;
    out.u8_if(
        views,
        "dimension_id_len_minus1",
        3,
        v.dimension_id_len_minus1,
    )?;
    out.flag(
        "vps_nuh_layer_id_present_flag",
        v.vps_nuh_layer_id_present_flag,
    )?;
    print_vps_layers(out, &v.layers, vps_max_layers_minus1, coded, width)?;
    out.u8("view_id_len", 4, v.view_id_len)?;
    print_view_id_vals_if(
        out,
        v.view_id_len > 0,
        &v.view_id_val,
        vps_max_layers_minus1,
        v.view_id_len,
    )?;
    Ok(())
}
