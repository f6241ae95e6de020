ghost use Rattle.std.specs.Prelude.{◌≡◌, ◌≤◌, OnOk, IfOk, option_map};
ghost use Rattle.mv_syntax.specs.Table.{u, when, Valid};
ghost use Rattle.mv_syntax.specs.Words.{◌!◌∶◌, is};
ghost use Rattle.mv_syntax.specs.Printed.{printed};
ghost use Rattle.mv_fields.specs.Reading.{ReadsBy, ReadsAs};
ghost use Rattle.mv_rules.specs.declared.rule.Rule.TheVariants.{VpsLimit};
ghost use Rattle.mv_vpslayers.specs.Layers.{layers_described};
ghost use Rattle.mv_vpslayers.specs.Dependencies.{layer_dependencies, dependency_flags, all_sub_layers_max, max_tid, layer_max_tids, max_tids, dependencies};

use crate::added_layer_sets::{added_layer_sets_of, print_added_layer_sets};
use crate::dimensions::VpsDimensions;
use crate::layers::layers_described;
use mv_bits::BitReader;
use mv_fields::{Fault, Printer, u8_if, u8_of, u8s_of};
use mv_layers::{LayerDependencies, LayerInfo, LayerSet, depends};
use mv_rules::Rule;
use std::alloc::{AllocError, Global};
use std::marker::Model;

/// Up to which temporal identifier one layer serves as reference for those behind it.
#[derive(Debug, Drop)]
pub struct LayerMaxTids {
    pub max_tid_il_ref_pics_plus1: Vec<Option<u8>>,
}

impl Model for LayerMaxTids {
    ghost use Rattle.std.specs.Prelude.{ℕ, List, Option};

    ghost Value = { List (Option ℕ) };

    ghost view = { λ t. t.max_tid_il_ref_pics_plus1.items };
}

/// The references between layers, the sub-layers of each layer, up to which of them it serves as reference, and whether all direct
/// references are active where a slice doesn't say.
#[derive(Debug, Drop)]
pub struct VpsDependencies {
    /// Of the layers from index 1 on.
    pub direct_dependency_flag: Vec<LayerDependencies>,
    pub num_add_layer_sets: Option<u32>,
    pub vps_sub_layers_max_minus1_present_flag: u8,
    pub sub_layers_vps_max_minus1: Option<Vec<u8>>,
    pub max_tid_ref_present_flag: u8,
    pub max_tid_il_ref_pics_plus1: Option<Vec<LayerMaxTids>>,
    pub default_ref_layers_active_flag: u8,
}

impl Model for VpsDependencies {
    ghost use Rattle.std.specs.Prelude.{option_map};
    ghost use Rattle.mv_vpslayers.specs.Dependencies.{VpsDependenciesValue};

    ghost Value = { VpsDependenciesValue };

    ghost view = { λ d. record {
      direct_dependency_flag = d.direct_dependency_flag.items;
      num_add_layer_sets = d.num_add_layer_sets;
      vps_sub_layers_max_minus1_present_flag = d.vps_sub_layers_max_minus1_present_flag;
      sub_layers_vps_max_minus1 = option_map (λ v. v.items) d.sub_layers_vps_max_minus1;
      max_tid_ref_present_flag = d.max_tid_ref_present_flag;
      max_tid_il_ref_pics_plus1 = option_map (λ v. v.items) d.max_tid_il_ref_pics_plus1;
      default_ref_layers_active_flag = d.default_ref_layers_active_flag;
    } };
}

#[tactic(auto, unfolding(crate::specs::Dependencies::layer_dependencies))]
fn layer_dependencies_of(
    alloc: Global,
    bits: &mut BitReader,
    i: u8,
) -> Result<LayerDependencies, Fault<Rule>>
    ensures { ReadsBy (layer_dependencies i) bits.old bits.new result }
{
    Ok(LayerDependencies {
        direct_dependency_flag: u8s_of(alloc, bits, u32::from(i), 1)?,
    })
}

#[tactic(auto, using(mv_syntax::proofs::LoopLaws::item_steps), unfolding(crate::specs::Dependencies::dependency_flags))]
fn dependency_flags_of(
    alloc: Global,
    bits: &mut BitReader,
    vps_max_layers_minus1: u8,
) -> Result<Vec<LayerDependencies>, Fault<Rule>>
    requires { vps_max_layers_minus1 ≤ 62 }
    ensures { ReadsAs (λ v. v.items) (dependency_flags vps_max_layers_minus1) bits.old bits.new result }
{
    let end = vps_max_layers_minus1 + 1;
    let mut all = Vec::new(alloc);
    for i in 1..end {
        all.push(layer_dependencies_of(alloc, bits, i)?)?;
    }
    Ok(all)
}

// The next field u(3), a number of sub-layers, at most 6.
fn sub_layers_max_of(bits: &mut BitReader) -> Result<u8, Fault<Rule>>
    ensures { ReadsBy (u 3 ! VpsLimit ∶ is 7) bits.old bits.new result }
{
    let sub_layers = u8_of(bits, 3)?;
    if sub_layers == 7 {
        return Err(Fault::Breaks(Rule::VpsLimit));
    }
    Ok(sub_layers)
}

#[tactic(auto, using(mv_syntax::proofs::LoopLaws::item_steps), unfolding(crate::specs::Dependencies::all_sub_layers_max, mv_syntax::specs::Loops::each))]
fn all_sub_layers_max_of(
    alloc: Global,
    bits: &mut BitReader,
    vps_max_layers_minus1: u8,
) -> Result<Vec<u8>, Fault<Rule>>
    requires { vps_max_layers_minus1 ≤ 62 }
    ensures { ReadsAs (λ v. v.items) (all_sub_layers_max vps_max_layers_minus1) bits.old bits.new result }
{
    let end = vps_max_layers_minus1 + 1;
    let mut all = Vec::new(alloc);
    for i in 0..end {
        all.push(sub_layers_max_of(bits)?)?;
    }
    Ok(all)
}

fn all_sub_layers_max_if(
    alloc: Global,
    bits: &mut BitReader,
    present: bool,
    vps_max_layers_minus1: u8,
) -> Result<Option<Vec<u8>>, Fault<Rule>>
    requires { vps_max_layers_minus1 ≤ 62 }
    ensures { ReadsAs (λ o. option_map (λ v. v.items) o) (when present (all_sub_layers_max vps_max_layers_minus1)) bits.old bits.new result }
{
    if !present {
        return Ok(None);
    }
    Ok(Some(all_sub_layers_max_of(alloc, bits, vps_max_layers_minus1)?))
}

#[tactic(auto, unfolding(crate::specs::Dependencies::max_tid))]
fn max_tid_of(
    bits: &mut BitReader,
    flags: &[LayerDependencies],
    i: u8,
    j: u8,
) -> Result<Option<u8>, Fault<Rule>>
    ensures { ReadsBy (max_tid flags.now i j) bits.old bits.new result }
{
    Ok(u8_if(bits, depends(flags, usize::from(j), usize::from(i)), 3)?)
}

#[tactic(auto, using(mv_syntax::proofs::LoopLaws::item_steps), unfolding(crate::specs::Dependencies::layer_max_tids))]
fn layer_max_tids_of(
    alloc: Global,
    bits: &mut BitReader,
    vps_max_layers_minus1: u8,
    flags: &[LayerDependencies],
    i: u8,
) -> Result<LayerMaxTids, Fault<Rule>>
    requires layers { vps_max_layers_minus1 ≤ 62 }
    requires within { i ≤ vps_max_layers_minus1 }
    ensures { ReadsBy (layer_max_tids vps_max_layers_minus1 flags.now i) bits.old bits.new result }
{
    let first = i + 1;
    let end = vps_max_layers_minus1 + 1;
    let mut all = Vec::new(alloc);
    for j in first..end {
        all.push(max_tid_of(bits, flags, i, j)?)?;
    }
    Ok(LayerMaxTids {
        max_tid_il_ref_pics_plus1: all,
    })
}

#[tactic(auto, using(mv_syntax::proofs::LoopLaws::item_steps), unfolding(crate::specs::Dependencies::max_tids))]
fn max_tids_of(
    alloc: Global,
    bits: &mut BitReader,
    vps_max_layers_minus1: u8,
    flags: &[LayerDependencies],
) -> Result<Vec<LayerMaxTids>, Fault<Rule>>
    requires layers { vps_max_layers_minus1 ≤ 62 }
    ensures { ReadsAs (λ v. v.items) (max_tids vps_max_layers_minus1 flags.now) bits.old bits.new result }
{
    let mut all = Vec::new(alloc);
    for i in 0..vps_max_layers_minus1 {
        all.push(layer_max_tids_of(alloc, bits, vps_max_layers_minus1, flags, i)?)?;
    }
    Ok(all)
}

fn max_tids_if(
    alloc: Global,
    bits: &mut BitReader,
    present: bool,
    vps_max_layers_minus1: u8,
    flags: &[LayerDependencies],
) -> Result<Option<Vec<LayerMaxTids>>, Fault<Rule>>
    requires layers { vps_max_layers_minus1 ≤ 62 }
    ensures { ReadsAs (λ o. option_map (λ v. v.items) o) (when present (max_tids vps_max_layers_minus1 flags.now)) bits.old bits.new result }
{
    if !present {
        return Ok(None);
    }
    Ok(Some(max_tids_of(alloc, bits, vps_max_layers_minus1, flags)?))
}

/// The second part of the extension: which layers each layer refers to directly, its sub-layers and their greatest TemporalIds, and
/// the rules on layer sets, which are tried before num_add_layer_sets (F.7.3.2.1.1); and the layers that it describes together with
/// the first part. The layer sets are those from 1 on.
///
/// `Breaks` with the first rule that a field breaks, all fields before it being read. `NoBits` where the bits end before. `Memory`
/// where memory runs out.
#[tactic(auto, unfolding(crate::specs::Dependencies::dependencies))]
pub fn dependencies_of(
    alloc: Global,
    bits: &mut BitReader,
    vps_max_layers_minus1: u8,
    scalability: &VpsDimensions,
    sets: &[LayerSet],
) -> Result<(VpsDependencies, Vec<LayerInfo>), Fault<Rule>>
    requires few { vps_max_layers_minus1 ≤ 62 }
    ensures reads { ReadsAs (λ v. v.0) (dependencies vps_max_layers_minus1 scalability.now sets.now) bits.old bits.new result }
    ensures layers { IfOk result (λ v. v.1.items ≡ layers_described vps_max_layers_minus1 scalability.now.layers scalability.now.view_id_val v.0.direct_dependency_flag) }
{
    let flags = dependency_flags_of(alloc, bits, vps_max_layers_minus1)?;
    let infos = layers_described(
        alloc,
        vps_max_layers_minus1,
        &scalability.layers,
        &scalability.view_id_val,
        &flags,
    )?;
    let num_add_layer_sets = added_layer_sets_of(alloc, bits, &infos, sets)?;
    let vps_sub_layers_max_minus1_present_flag = u8_of(bits, 1)?;
    let sub_layers_vps_max_minus1 = all_sub_layers_max_if(
        alloc,
        bits,
        vps_sub_layers_max_minus1_present_flag == 1,
        vps_max_layers_minus1,
    )?;
    let max_tid_ref_present_flag = u8_of(bits, 1)?;
    let max_tid_il_ref_pics_plus1 = max_tids_if(
        alloc,
        bits,
        max_tid_ref_present_flag == 1,
        vps_max_layers_minus1,
        &flags,
    )?;
    let default_ref_layers_active_flag = u8_of(bits, 1)?;
    let dependencies = VpsDependencies {
        direct_dependency_flag: flags,
        num_add_layer_sets,
        vps_sub_layers_max_minus1_present_flag,
        sub_layers_vps_max_minus1,
        max_tid_ref_present_flag,
        max_tid_il_ref_pics_plus1,
        default_ref_layers_active_flag,
    };
    Ok((dependencies, infos))
}

#[tactic(auto, unfolding(crate::specs::Dependencies::layer_dependencies))]
fn print_layer_dependencies(
    out: &mut Printer,
    v: &LayerDependencies,
    i: u32,
) -> Result<(), AllocError>
    requires { Valid (layer_dependencies i) v.now }
    ensures { OnOk result (out.new ≡ printed (layer_dependencies i) v.now out.old) }
{
    out.u8s("direct_dependency_flag", 0, i, 1, &v.direct_dependency_flag)
}

#[tactic(auto, using(mv_syntax::proofs::PrintingLoops::print_item_steps), unfolding(crate::specs::Dependencies::dependency_flags))]
fn print_dependency_flags(
    out: &mut Printer,
    all: &[LayerDependencies],
    vps_max_layers_minus1: u8,
) -> Result<(), AllocError>
    requires few { vps_max_layers_minus1 ≤ 62 }
    requires valid { Valid (dependency_flags vps_max_layers_minus1) all.now }
    ensures { OnOk result (out.new ≡ printed (dependency_flags vps_max_layers_minus1) all.now out.old) }
{
    for k in 0..all.len() {
        let outer = out.open(k as u64 + 1)?;
        print_layer_dependencies(out, &all[k], k as u32 + 1)?;
        out.close(outer);
    }
    Ok(())
}

#[tactic(auto, using(mv_syntax::proofs::PrintingLoops::print_item_steps), unfolding(crate::specs::Dependencies::all_sub_layers_max, mv_syntax::specs::Loops::each))]
fn print_all_sub_layers_max(
    out: &mut Printer,
    all: &[u8],
    vps_max_layers_minus1: u8,
) -> Result<(), AllocError>
    requires { Valid (all_sub_layers_max vps_max_layers_minus1) all.now }
    ensures { OnOk result (out.new ≡ printed (all_sub_layers_max vps_max_layers_minus1) all.now out.old) }
{
    for i in 0..all.len() {
        let outer = out.open(i as u64)?;
        out.u8("sub_layers_vps_max_minus1", 3, all[i])?;
        out.close(outer);
    }
    Ok(())
}

fn print_all_sub_layers_max_if(
    out: &mut Printer,
    present: bool,
    all: &Option<Vec<u8>>,
    vps_max_layers_minus1: u8,
) -> Result<(), AllocError>
    requires { Valid (when present (all_sub_layers_max vps_max_layers_minus1)) (option_map (λ v. v.items) all.now) }
    ensures { OnOk result (out.new ≡ printed (when present (all_sub_layers_max vps_max_layers_minus1)) (option_map (λ v. v.items) all.now) out.old) }
{
    match all {
        Some(all) => print_all_sub_layers_max(out, all, vps_max_layers_minus1),
        None => Ok(()),
    }
}

#[tactic(auto, unfolding(crate::specs::Dependencies::max_tid))]
fn print_max_tid(
    out: &mut Printer,
    flags: &[LayerDependencies],
    i: usize,
    j: usize,
    field: Option<u8>,
) -> Result<(), AllocError>
    requires { Valid (max_tid flags.now i j) field }
    ensures { OnOk result (out.new ≡ printed (max_tid flags.now i j) field out.old) }
{
    out.u8_if(depends(flags, j, i), "max_tid_il_ref_pics_plus1", 3, field)
}

#[tactic(auto, using(mv_syntax::proofs::PrintingLoops::print_item_steps), unfolding(crate::specs::Dependencies::layer_max_tids))]
fn print_tids_of_layer(
    out: &mut Printer,
    all: &[Option<u8>],
    vps_max_layers_minus1: u8,
    flags: &[LayerDependencies],
    i: usize,
) -> Result<(), AllocError>
    requires few { i ≤ 62 }
    requires layers { vps_max_layers_minus1 ≤ 62 }
    requires valid { Valid (layer_max_tids vps_max_layers_minus1 flags.now i) all.now }
    ensures { OnOk result (out.new ≡ printed (layer_max_tids vps_max_layers_minus1 flags.now i) all.now out.old) }
{
    for k in 0..all.len() {
        let outer = out.open(i as u64 + 1 + k as u64)?;
        print_max_tid(out, flags, i, i + 1 + k, all[k])?;
        out.close(outer);
    }
    Ok(())
}

fn print_layer_max_tids(
    out: &mut Printer,
    v: &LayerMaxTids,
    vps_max_layers_minus1: u8,
    flags: &[LayerDependencies],
    i: usize,
) -> Result<(), AllocError>
    requires few { i ≤ 62 }
    requires layers { vps_max_layers_minus1 ≤ 62 }
    requires valid { Valid (layer_max_tids vps_max_layers_minus1 flags.now i) v.now }
    ensures { OnOk result (out.new ≡ printed (layer_max_tids vps_max_layers_minus1 flags.now i) v.now out.old) }
{
    print_tids_of_layer(
        out,
        &v.max_tid_il_ref_pics_plus1,
        vps_max_layers_minus1,
        flags,
        i,
    )
}

#[tactic(auto, using(mv_syntax::proofs::PrintingLoops::print_item_steps), unfolding(crate::specs::Dependencies::max_tids))]
fn print_max_tids(
    out: &mut Printer,
    all: &[LayerMaxTids],
    vps_max_layers_minus1: u8,
    flags: &[LayerDependencies],
) -> Result<(), AllocError>
    requires layers { vps_max_layers_minus1 ≤ 62 }
    requires valid { Valid (max_tids vps_max_layers_minus1 flags.now) all.now }
    ensures { OnOk result (out.new ≡ printed (max_tids vps_max_layers_minus1 flags.now) all.now out.old) }
{
    for i in 0..all.len() {
        let outer = out.open(i as u64)?;
        print_layer_max_tids(out, &all[i], vps_max_layers_minus1, flags, i)?;
        out.close(outer);
    }
    Ok(())
}

fn print_max_tids_if(
    out: &mut Printer,
    present: bool,
    all: &Option<Vec<LayerMaxTids>>,
    vps_max_layers_minus1: u8,
    flags: &[LayerDependencies],
) -> Result<(), AllocError>
    requires layers { vps_max_layers_minus1 ≤ 62 }
    requires valid { Valid (when present (max_tids vps_max_layers_minus1 flags.now)) (option_map (λ v. v.items) all.now) }
    ensures { OnOk result (out.new ≡ printed (when present (max_tids vps_max_layers_minus1 flags.now)) (option_map (λ v. v.items) all.now) out.old) }
{
    match all {
        Some(all) => print_max_tids(out, all, vps_max_layers_minus1, flags),
        None => Ok(()),
    }
}

/// Prints the second part, given the layers that it describes.
///
/// `AllocError` where memory runs out.
#[tactic(auto, unfolding(crate::specs::Dependencies::dependencies))]
pub fn print_dependencies(
    out: &mut Printer,
    v: &VpsDependencies,
    vps_max_layers_minus1: u8,
    scalability: &VpsDimensions,
    infos: &[LayerInfo],
    sets: &[LayerSet],
) -> Result<(), AllocError>
    requires few { vps_max_layers_minus1 ≤ 62 }
    requires layers { infos.now ≡ layers_described vps_max_layers_minus1 scalability.now.layers scalability.now.view_id_val v.now.direct_dependency_flag }
    requires valid { Valid (dependencies vps_max_layers_minus1 scalability.now sets.now) v.now }
    ensures { OnOk result (out.new ≡ printed (dependencies vps_max_layers_minus1 scalability.now sets.now) v.now out.old) }
{
    let flags = &v.direct_dependency_flag;
    let sub_layers_coded = v.vps_sub_layers_max_minus1_present_flag == 1;
    let tids_coded = v.max_tid_ref_present_flag == 1;
    print_dependency_flags(out, flags, vps_max_layers_minus1)?;
    print_added_layer_sets(out, v.num_add_layer_sets, infos, sets)?;
    out.flag(
        "vps_sub_layers_max_minus1_present_flag",
        v.vps_sub_layers_max_minus1_present_flag,
    )?;
    print_all_sub_layers_max_if(
        out,
        sub_layers_coded,
        &v.sub_layers_vps_max_minus1,
        vps_max_layers_minus1,
    )?;
    out.flag("max_tid_ref_present_flag", v.max_tid_ref_present_flag)?;
    print_max_tids_if(
        out,
        tids_coded,
        &v.max_tid_il_ref_pics_plus1,
        vps_max_layers_minus1,
        flags,
    )?;
    out.flag(
        "default_ref_layers_active_flag",
        v.default_ref_layers_active_flag,
    )?;
    Ok(())
}
