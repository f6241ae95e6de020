//! The fourth part of vps_extension (F.7.3.2.1.1): the output layer sets.

ghost use Rattle.std.specs.Prelude.{◌≡◌, ℕ, ◌+◌, ◌-◌, ◌≤◌, [], ◌∷◌, get_or, length, IfOk, OnOk, option_map};
ghost use Rattle.mv_syntax.specs.Table.{u, ue, named, when, Valid};
ghost use Rattle.mv_syntax.specs.Printed.{printed};
ghost use Rattle.mv_syntax.specs.Words.{◌!◌∶◌, over, is, or_zero};
ghost use Rattle.mv_fields.specs.Reading.{ReadsBy, ReadsAs};
ghost use Rattle.mv_fields.specs.Widths.{clog2};
ghost use Rattle.mv_layers.specs.OutputLayers.{ols_layers};
ghost use Rattle.mv_vpssets.specs.Sets.{base_set, coded_set, coded_sets, all_sets};
ghost use Rattle.mv_vpssets.specs.OutputSets.{profile_tier_level_idx, profile_tier_level_idxs, set_profiles, output_layer_set, output_layer_sets, past_output_sets, output_sets};
ghost use Rattle.mv_rules.specs.declared.rule.Rule.TheVariants.{ReservedOutput, VpsLimit};

use crate::sets::{has_one_output, is_necessary_at, number_of_layers, one_set};
use mv_bits::BitReader;
use mv_fields::{Fault, Printer, clog2, u8_if, u8_of, u8_within, u8s_if, unset_flag_if};
use mv_layers::{LayerInfo, LayerSet, OlsLayers, ols_layers, ols_of, ols_outputs};
use mv_rules::Rule;
use std::alloc::{AllocError, Global};
use std::marker::Model;

/// An output layer set from 1 on.
#[derive(Debug, Drop)]
pub struct OutputLayerSet {
    pub layer_set_idx_for_ols_minus1: Option<u8>,
    /// Of each layer of the set.
    pub output_layer_flag: Option<Vec<u8>>,
    /// Of each layer of the set, where it is necessary.
    pub profile_tier_level_idx: Vec<Option<u8>>,
    pub alt_output_layer_flag: Option<u8>,
}

impl Model for OutputLayerSet {
    ghost use Rattle.std.specs.Prelude.{option_map};
    ghost use Rattle.mv_vpssets.specs.OutputSets.{OutputLayerSetValue};

    ghost Value = { OutputLayerSetValue };

    ghost view = { λ s. record {
      layer_set_idx_for_ols_minus1 = s.layer_set_idx_for_ols_minus1;
      output_layer_flag = option_map (λ v. v.items) s.output_layer_flag;
      profile_tier_level_idx = s.profile_tier_level_idx.items;
      alt_output_layer_flag = s.alt_output_layer_flag;
    } };
}

/// The output layer sets.
#[derive(Debug, Drop)]
pub struct VpsOutputSets {
    pub num_add_olss: Option<u32>,
    pub default_output_layer_idc: Option<u8>,
    /// Those from 1 on.
    pub output_layer_sets: Vec<OutputLayerSet>,
}

impl Model for VpsOutputSets {
    ghost use Rattle.mv_vpssets.specs.OutputSets.{VpsOutputSetsValue};

    ghost Value = { VpsOutputSetsValue };

    ghost view = { λ s. record {
      num_add_olss = s.num_add_olss;
      default_output_layer_idc = s.default_output_layer_idc;
      output_layer_sets = s.output_layer_sets.items;
    } };
}

// The next field layer_set_idx_for_ols_minus1, with so many layer sets, where it is present.
fn layer_set_idx_if(
    bits: &mut BitReader,
    present: bool,
    num_layer_sets: usize,
) -> Result<Option<u8>, Fault<Rule>>
    requires few { num_layer_sets ≤ 64 }
    requires some { 1 ≤ num_layer_sets }
    ensures { ReadsBy (when present (u (clog2 (num_layer_sets - 1)) ! VpsLimit ∶ over (num_layer_sets - 2))) bits.old bits.new result }
{
    if !present {
        return Ok(None);
    }
    let width = clog2((num_layer_sets - 1) as u32, 8);
    let last = num_layer_sets.saturating_sub(2) as u8;
    Ok(Some(u8_within(bits, width, Rule::VpsLimit, last)?))
}

// The layers of output layer set i, at most 63.
fn layers_of(
    alloc: Global,
    sets: &[LayerSet],
    i: usize,
    layer_set_idx_for_ols_minus1: Option<u8>,
) -> Result<Vec<u8>, AllocError>
    requires { (k : ℕ) → length (get_or sets.now k []) ≤ 63 }
    ensures exact { IfOk result (λ v. v.items ≡ ols_layers sets.now i layer_set_idx_for_ols_minus1) }
    ensures few { IfOk result (λ v. length v.items ≤ 63) }
{
    let layers = ols_layers(alloc, sets, i, layer_set_idx_for_ols_minus1)?;
    Ok(layers)
}

#[tactic(auto, unfolding(crate::specs::OutputSets::profile_tier_level_idx))]
fn profile_tier_level_idx_of(
    bits: &mut BitReader,
    vps_num_profile_tier_level_minus1: u32,
    set: &OlsLayers,
    j: usize,
) -> Result<Option<u8>, Fault<Rule>>
    requires { vps_num_profile_tier_level_minus1 ≤ 63 }
    ensures { ReadsBy (profile_tier_level_idx vps_num_profile_tier_level_minus1 set.now j) bits.old bits.new result }
{
    let necessary = is_necessary_at(set, j);
    let width = clog2(vps_num_profile_tier_level_minus1 + 1, 8);
    Ok(u8_if(
        bits,
        necessary && vps_num_profile_tier_level_minus1 > 0,
        width,
    )?)
}

#[tactic(auto, using(mv_syntax::proofs::LoopLaws::item_steps), unfolding(crate::specs::OutputSets::profile_tier_level_idxs))]
fn profile_tier_level_idxs_of(
    alloc: Global,
    bits: &mut BitReader,
    vps_num_profile_tier_level_minus1: u32,
    set: &OlsLayers,
) -> Result<Vec<Option<u8>>, Fault<Rule>>
    requires { vps_num_profile_tier_level_minus1 ≤ 63 }
    ensures { ReadsAs (λ v. v.items) (profile_tier_level_idxs vps_num_profile_tier_level_minus1 set.now) bits.old bits.new result }
{
    let profiles = vps_num_profile_tier_level_minus1;
    let end = number_of_layers(set);
    let mut all = Vec::new(alloc);
    for j in 0..end {
        all.push(profile_tier_level_idx_of(bits, profiles, set, j)?)?;
    }
    Ok(all)
}

// profile_tier_level_idx of the layers of a set, and alt_output_layer_flag.
#[tactic(auto, unfolding(crate::specs::OutputSets::set_profiles))]
fn set_profiles_of(
    alloc: Global,
    bits: &mut BitReader,
    infos: &[LayerInfo],
    vps_num_profile_tier_level_minus1: u32,
    set: &OlsLayers,
) -> Result<(Vec<Option<u8>>, Option<u8>), Fault<Rule>>
    requires { vps_num_profile_tier_level_minus1 ≤ 63 }
    ensures { ReadsAs (λ v. (v.0.items, v.1)) (set_profiles infos.now vps_num_profile_tier_level_minus1 set.now) bits.old bits.new result }
{
    let alternative = has_one_output(infos, set);
    let idxs = profile_tier_level_idxs_of(alloc, bits, vps_num_profile_tier_level_minus1, set)?;
    let alt_output_layer_flag = unset_flag_if(bits, alternative, Rule::AltOutput)?;
    Ok((idxs, alt_output_layer_flag))
}

// Output layer set i, the layer sets being those from 1 on, and its layers.
#[tactic(auto, unfolding(crate::specs::OutputSets::output_layer_set))]
fn output_layer_set_of(
    alloc: Global,
    bits: &mut BitReader,
    infos: &[LayerInfo],
    sets: &[LayerSet],
    vps_num_profile_tier_level_minus1: u32,
    idc: u8,
    i: usize,
) -> Result<(OutputLayerSet, OlsLayers), Fault<Rule>>
    requires few { length sets.now ≤ 63 }
    requires ids { (k : ℕ) → length (get_or sets.now k []) ≤ 63 }
    requires profiles { vps_num_profile_tier_level_minus1 ≤ 63 }
    ensures reads { ReadsAs (λ v. v.0) (output_layer_set infos.now sets.now vps_num_profile_tier_level_minus1 idc i) bits.old bits.new result }
    ensures layers { IfOk result (λ v. v.1 ≡ coded_set infos.now sets.now idc i v.0) }
{
    let num_layer_sets = sets.len() + 1;
    let own = num_layer_sets > 2 && num_layer_sets <= i;
    let layer_set_idx_for_ols_minus1 = layer_set_idx_if(bits, own, num_layer_sets)?;
    let layers = layers_of(alloc, sets, i, layer_set_idx_for_ols_minus1)?;
    let flagged = num_layer_sets <= i || idc == 2;
    let output_layer_flag = u8s_if(alloc, bits, flagged, layers.len() as u32, 1)?;
    let outputs = ols_outputs(alloc, &layers, &output_layer_flag, idc)?;
    let set = ols_of(alloc, infos, layers, outputs)?;
    let (profile_tier_level_idx, alt_output_layer_flag) = set_profiles_of(
        alloc,
        bits,
        infos,
        vps_num_profile_tier_level_minus1,
        &set,
    )?;
    let coded = OutputLayerSet {
        layer_set_idx_for_ols_minus1,
        output_layer_flag,
        profile_tier_level_idx,
        alt_output_layer_flag,
    };
    Ok((coded, set))
}

// The output layer sets from 1 on, as they are coded, and the layers of those from 0 on.
#[tactic(auto, using(mv_syntax::proofs::LoopLaws::item_steps), unfolding(crate::specs::OutputSets::output_layer_sets))]
fn output_layer_sets_of(
    alloc: Global,
    bits: &mut BitReader,
    infos: &[LayerInfo],
    sets: &[LayerSet],
    vps_num_profile_tier_level_minus1: u32,
    num_add_olss: u32,
    idc: u8,
) -> Result<(Vec<OutputLayerSet>, Vec<OlsLayers>), Fault<Rule>>
    requires few { length sets.now + num_add_olss ≤ 63 }
    requires ids { (k : ℕ) → length (get_or sets.now k []) ≤ 63 }
    requires profiles { vps_num_profile_tier_level_minus1 ≤ 63 }
    ensures reads { ReadsAs (λ v. v.0.items) (output_layer_sets infos.now sets.now vps_num_profile_tier_level_minus1 num_add_olss idc) bits.old bits.new result }
    ensures layers { IfOk result (λ v. v.1.items ≡ base_set infos.now ∷ coded_sets infos.now sets.now idc v.0.items) }
{
    let profiles = vps_num_profile_tier_level_minus1;
    let end = sets.len() + num_add_olss as usize + 1;
    let mut layers = one_set(alloc, infos)?;
    let mut all = Vec::new(alloc);
    for i in 1..end {
        let (coded, set) = output_layer_set_of(alloc, bits, infos, sets, profiles, idc, i)?;
        all.push(coded)?;
        layers.push(set)?;
    }
    Ok((all, layers))
}

// Whether there would be over 64 output layer sets with so many more than the layer sets.
fn past_output_sets(num_layer_sets: usize, num_add_olss: u32) -> bool
    ensures { result ≡ past_output_sets num_layer_sets num_add_olss }
{
    num_layer_sets > 64 || u64::from(num_add_olss) > 64 - num_layer_sets as u64
}

// The next field num_add_olss, with so many layer sets; it isn't coded with one.
fn num_add_olss_of(bits: &mut BitReader, num_layer_sets: usize) -> Result<Option<u32>, Fault<Rule>>
    ensures reads { ReadsBy (when (over 1 num_layer_sets) (ue ! VpsLimit ∶ past_output_sets num_layer_sets)) bits.old bits.new result }
    ensures within { IfOk result (λ v. num_layer_sets + or_zero v ≤ 64) }
{
    if num_layer_sets <= 1 {
        return Ok(None);
    }
    let num_add_olss = bits.ue()?;
    if past_output_sets(num_layer_sets, num_add_olss) {
        return Err(Fault::Breaks(Rule::VpsLimit));
    }
    Ok(Some(num_add_olss))
}

// The next field default_output_layer_idc, where it is present.
fn default_output_layer_idc_if(
    bits: &mut BitReader,
    present: bool,
) -> Result<Option<u8>, Fault<Rule>>
    ensures { ReadsBy (when present (u 2 ! ReservedOutput ∶ is 3)) bits.old bits.new result }
{
    if !present {
        return Ok(None);
    }
    let idc = u8_of(bits, 2)?;
    if idc == 3 {
        return Err(Fault::Breaks(Rule::ReservedOutput));
    }
    Ok(Some(idc))
}

/// The output layer sets (F.7.3.2.1.1), the layer sets being those from 1 on, and the layers of each from 0 on.
///
/// `Breaks` with the first rule that a field breaks, all fields before it being read. `NoBits` where the bits end before. `Memory`
/// where memory runs out.
#[tactic(auto, unfolding(crate::specs::OutputSets::output_sets))]
pub fn output_sets_of(
    alloc: Global,
    bits: &mut BitReader,
    infos: &[LayerInfo],
    sets: &[LayerSet],
    vps_num_profile_tier_level_minus1: u32,
) -> Result<(VpsOutputSets, Vec<OlsLayers>), Fault<Rule>>
    requires ids { (k : ℕ) → length (get_or sets.now k []) ≤ 63 }
    requires profiles { vps_num_profile_tier_level_minus1 ≤ 63 }
    ensures reads { ReadsAs (λ v. v.0) (output_sets infos.now sets.now vps_num_profile_tier_level_minus1) bits.old bits.new result }
    ensures layers { IfOk result (λ v. v.1.items ≡ all_sets infos.now sets.now v.0) }
{
    let several = sets.len() > 0;
    let num_add_olss = num_add_olss_of(bits, sets.len() + 1)?;
    let default_output_layer_idc = default_output_layer_idc_if(bits, several)?;
    let (output_layer_sets, layers) = output_layer_sets_of(
        alloc,
        bits,
        infos,
        sets,
        vps_num_profile_tier_level_minus1,
        num_add_olss.unwrap_or(0),
        default_output_layer_idc.unwrap_or(0),
    )?;
    let coded = VpsOutputSets {
        num_add_olss,
        default_output_layer_idc,
        output_layer_sets,
    };
    Ok((coded, layers))
}

fn print_layer_set_idx_if(
    out: &mut Printer,
    present: bool,
    field: Option<u8>,
    num_layer_sets: usize,
) -> Result<(), AllocError>
    requires few { num_layer_sets ≤ 64 }
    requires some { 1 ≤ num_layer_sets }
    requires valid { Valid (named "layer_set_idx_for_ols_minus1" (when present (u (clog2 (num_layer_sets - 1)) ! VpsLimit ∶ over (num_layer_sets - 2)))) field }
    ensures { OnOk result (out.new ≡ printed (named "layer_set_idx_for_ols_minus1" (when present (u (clog2 (num_layer_sets - 1)) ! VpsLimit ∶ over (num_layer_sets - 2)))) field out.old) }
{
    let width = clog2((num_layer_sets - 1) as u32, 8);
    match field {
        Some(field) => out.u8("layer_set_idx_for_ols_minus1", width, field),
        None => Ok(()),
    }
}

fn print_num_add_olss(
    out: &mut Printer,
    field: Option<u32>,
    num_layer_sets: usize,
) -> Result<(), AllocError>
    requires { Valid (named "num_add_olss" (when (over 1 num_layer_sets) (ue ! VpsLimit ∶ past_output_sets num_layer_sets))) field }
    ensures { OnOk result (out.new ≡ printed (named "num_add_olss" (when (over 1 num_layer_sets) (ue ! VpsLimit ∶ past_output_sets num_layer_sets))) field out.old) }
{
    match field {
        Some(field) => out.ue("num_add_olss", field),
        None => Ok(()),
    }
}

fn print_default_output_layer_idc_if(
    out: &mut Printer,
    present: bool,
    field: Option<u8>,
) -> Result<(), AllocError>
    requires { Valid (named "default_output_layer_idc" (when present (u 2 ! ReservedOutput ∶ is 3))) field }
    ensures { OnOk result (out.new ≡ printed (named "default_output_layer_idc" (when present (u 2 ! ReservedOutput ∶ is 3))) field out.old) }
{
    match field {
        Some(field) => out.u8("default_output_layer_idc", 2, field),
        None => Ok(()),
    }
}

#[tactic(auto, unfolding(crate::specs::OutputSets::profile_tier_level_idx))]
fn print_profile_tier_level_idx(
    out: &mut Printer,
    field: Option<u8>,
    vps_num_profile_tier_level_minus1: u32,
    set: &OlsLayers,
    j: usize,
) -> Result<(), AllocError>
    requires profiles { vps_num_profile_tier_level_minus1 ≤ 63 }
    requires valid { Valid (profile_tier_level_idx vps_num_profile_tier_level_minus1 set.now j) field }
    ensures { OnOk result (out.new ≡ printed (profile_tier_level_idx vps_num_profile_tier_level_minus1 set.now j) field out.old) }
{
    let necessary = is_necessary_at(set, j);
    let width = clog2(vps_num_profile_tier_level_minus1 + 1, 8);
    out.u8_if(
        necessary && vps_num_profile_tier_level_minus1 > 0,
        "profile_tier_level_idx",
        width,
        field,
    )
}

#[tactic(auto, using(mv_syntax::proofs::PrintingLoops::print_item_steps), unfolding(crate::specs::OutputSets::profile_tier_level_idxs))]
fn print_profile_tier_level_idxs(
    out: &mut Printer,
    all: &[Option<u8>],
    vps_num_profile_tier_level_minus1: u32,
    set: &OlsLayers,
) -> Result<(), AllocError>
    requires profiles { vps_num_profile_tier_level_minus1 ≤ 63 }
    requires valid { Valid (profile_tier_level_idxs vps_num_profile_tier_level_minus1 set.now) all.now }
    ensures { OnOk result (out.new ≡ printed (profile_tier_level_idxs vps_num_profile_tier_level_minus1 set.now) all.now out.old) }
{
    let profiles = vps_num_profile_tier_level_minus1;
    for j in 0..all.len() {
        let outer = out.open(j as u64)?;
        print_profile_tier_level_idx(out, all[j], profiles, set, j)?;
        out.close(outer);
    }
    Ok(())
}

// profile_tier_level_idx of the layers of a set, and alt_output_layer_flag.
#[tactic(auto, unfolding(crate::specs::OutputSets::set_profiles))]
fn print_set_profiles(
    out: &mut Printer,
    idxs: &[Option<u8>],
    alt_output_layer_flag: Option<u8>,
    infos: &[LayerInfo],
    vps_num_profile_tier_level_minus1: u32,
    set: &OlsLayers,
) -> Result<(), AllocError>
    requires profiles { vps_num_profile_tier_level_minus1 ≤ 63 }
    requires valid { Valid (set_profiles infos.now vps_num_profile_tier_level_minus1 set.now) (idxs.now, alt_output_layer_flag) }
    ensures { OnOk result (out.new ≡ printed (set_profiles infos.now vps_num_profile_tier_level_minus1 set.now) (idxs.now, alt_output_layer_flag) out.old) }
{
    let alternative = has_one_output(infos, set);
    print_profile_tier_level_idxs(out, idxs, vps_num_profile_tier_level_minus1, set)?;
    out.unset_flag_if(
        alternative,
        "alt_output_layer_flag",
        Rule::AltOutput,
        alt_output_layer_flag,
    )?;
    Ok(())
}

// Output layer set i, the layer sets being those from 1 on.
#[tactic(auto, unfolding(crate::specs::OutputSets::output_layer_set))]
fn print_output_layer_set(
    alloc: Global,
    out: &mut Printer,
    v: &OutputLayerSet,
    infos: &[LayerInfo],
    sets: &[LayerSet],
    vps_num_profile_tier_level_minus1: u32,
    idc: u8,
    i: usize,
) -> Result<(), AllocError>
    requires few { length sets.now ≤ 63 }
    requires ids { (k : ℕ) → length (get_or sets.now k []) ≤ 63 }
    requires profiles { vps_num_profile_tier_level_minus1 ≤ 63 }
    requires valid { Valid (output_layer_set infos.now sets.now vps_num_profile_tier_level_minus1 idc i) v.now }
    ensures { OnOk result (out.new ≡ printed (output_layer_set infos.now sets.now vps_num_profile_tier_level_minus1 idc i) v.now out.old) }
{
    let num_layer_sets = sets.len() + 1;
    let own = num_layer_sets > 2 && num_layer_sets <= i;
    let flagged = num_layer_sets <= i || idc == 2;
    let layers = layers_of(alloc, sets, i, v.layer_set_idx_for_ols_minus1)?;
    let outputs = ols_outputs(alloc, &layers, &v.output_layer_flag, idc)?;
    print_layer_set_idx_if(out, own, v.layer_set_idx_for_ols_minus1, num_layer_sets)?;
    out.u8s_if(
        flagged,
        "output_layer_flag",
        0,
        layers.len() as u32,
        1,
        &v.output_layer_flag,
    )?;
    let set = ols_of(alloc, infos, layers, outputs)?;
    print_set_profiles(
        out,
        &v.profile_tier_level_idx,
        v.alt_output_layer_flag,
        infos,
        vps_num_profile_tier_level_minus1,
        &set,
    )?;
    Ok(())
}

#[tactic(auto, using(mv_syntax::proofs::PrintingLoops::print_item_steps), unfolding(crate::specs::OutputSets::output_layer_sets))]
fn print_output_layer_sets(
    alloc: Global,
    out: &mut Printer,
    all: &[OutputLayerSet],
    infos: &[LayerInfo],
    sets: &[LayerSet],
    vps_num_profile_tier_level_minus1: u32,
    num_add_olss: u32,
    idc: u8,
) -> Result<(), AllocError>
    requires few { length sets.now + num_add_olss ≤ 63 }
    requires ids { (k : ℕ) → length (get_or sets.now k []) ≤ 63 }
    requires profiles { vps_num_profile_tier_level_minus1 ≤ 63 }
    requires valid { Valid (output_layer_sets infos.now sets.now vps_num_profile_tier_level_minus1 num_add_olss idc) all.now }
    ensures { OnOk result (out.new ≡ printed (output_layer_sets infos.now sets.now vps_num_profile_tier_level_minus1 num_add_olss idc) all.now out.old) }
{
    let profiles = vps_num_profile_tier_level_minus1;
    for k in 0..all.len() {
        let outer = out.open(k as u64 + 1)?;
        print_output_layer_set(alloc, out, &all[k], infos, sets, profiles, idc, k + 1)?;
        out.close(outer);
    }
    Ok(())
}

/// Prints the output layer sets, the layer sets being those from 1 on.
///
/// `AllocError` where memory runs out.
#[tactic(auto, unfolding(crate::specs::OutputSets::output_sets))]
pub fn print_output_sets(
    out: &mut Printer,
    v: &VpsOutputSets,
    infos: &[LayerInfo],
    sets: &[LayerSet],
    vps_num_profile_tier_level_minus1: u32,
) -> Result<(), AllocError>
    requires ids { (k : ℕ) → length (get_or sets.now k []) ≤ 63 }
    requires profiles { vps_num_profile_tier_level_minus1 ≤ 63 }
    requires valid { Valid (output_sets infos.now sets.now vps_num_profile_tier_level_minus1) v.now }
    ensures { OnOk result (out.new ≡ printed (output_sets infos.now sets.now vps_num_profile_tier_level_minus1) v.now out.old) }
{
    let alloc = *v.output_layer_sets.allocator();
    let several = sets.len() > 0;
    print_num_add_olss(out, v.num_add_olss, sets.len() + 1)?;
    print_default_output_layer_idc_if(out, several, v.default_output_layer_idc)?;
    print_output_layer_sets(
        alloc,
        out,
        &v.output_layer_sets,
        infos,
        sets,
        vps_num_profile_tier_level_minus1,
        v.num_add_olss.unwrap_or(0),
        v.default_output_layer_idc.unwrap_or(0),
    )?;
    Ok(())
}
