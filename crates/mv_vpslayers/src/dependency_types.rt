ghost use Rattle.std.specs.Prelude.{◌≡◌, ◌≤◌, OnOk, option_map};
ghost use Rattle.mv_syntax.specs.Table.{when, Valid};
ghost use Rattle.mv_syntax.specs.Printed.{printed};
ghost use Rattle.mv_fields.specs.Reading.{ReadsBy, ReadsAs};
ghost use Rattle.mv_vpslayers.specs.DependencyTypes.{dependency_type, layer_dependency_types, dependency_types, types};

use mv_bits::BitReader;
use mv_fields::{Fault, Printer, u8_of, u32_within_if, ue_within};
use mv_layers::{LayerDependencies, depends};
use mv_rules::Rule;
use std::alloc::{AllocError, Global};
use std::marker::Model;

/// The types of the direct references of one layer to those before it.
#[derive(Debug, Drop)]
pub struct LayerDependencyTypes {
    pub direct_dependency_type: Vec<Option<u32>>,
}

impl Model for LayerDependencyTypes {
    ghost use Rattle.std.specs.Prelude.{ℕ, List, Option};

    ghost Value = { List (Option ℕ) };

    ghost view = { λ d. d.direct_dependency_type.items };
}

/// The types of all references between layers.
#[derive(Debug, Drop)]
pub struct VpsDependencyTypes {
    pub direct_dep_type_len_minus2: u32,
    pub direct_dependency_all_layers_flag: u8,
    pub direct_dependency_all_layers_type: Option<u32>,
    /// Of the layers from index 1 on.
    pub direct_dependency_type: Option<Vec<LayerDependencyTypes>>,
}

impl Model for VpsDependencyTypes {
    ghost use Rattle.std.specs.Prelude.{option_map};
    ghost use Rattle.mv_vpslayers.specs.DependencyTypes.{VpsDependencyTypesValue};

    ghost Value = { VpsDependencyTypesValue };

    ghost view = { λ t. record {
      direct_dep_type_len_minus2 = t.direct_dep_type_len_minus2;
      direct_dependency_all_layers_flag = t.direct_dependency_all_layers_flag;
      direct_dependency_all_layers_type = t.direct_dependency_all_layers_type;
      direct_dependency_type = option_map (λ v. v.items) t.direct_dependency_type;
    } };
}

#[tactic(auto, unfolding(crate::specs::DependencyTypes::dependency_type))]
fn dependency_type_of(
    bits: &mut BitReader,
    width: u8,
    flags: &[LayerDependencies],
    i: u8,
    j: u8,
) -> Result<Option<u32>, Fault<Rule>>
    requires { width ≤ 32 }
    ensures { ReadsBy (dependency_type width flags.now i j) bits.old bits.new result }
{
    let present = depends(flags, usize::from(i), usize::from(j));
    u32_within_if(bits, present, width, Rule::DependencyType, 2)
}

#[tactic(auto, using(mv_syntax::proofs::LoopLaws::item_steps), unfolding(crate::specs::DependencyTypes::layer_dependency_types))]
fn layer_dependency_types_of(
    alloc: Global,
    bits: &mut BitReader,
    width: u8,
    flags: &[LayerDependencies],
    i: u8,
) -> Result<LayerDependencyTypes, Fault<Rule>>
    requires { width ≤ 32 }
    ensures { ReadsBy (layer_dependency_types width flags.now i) bits.old bits.new result }
{
    let mut all = Vec::new(alloc);
    for j in 0..i {
        all.push(dependency_type_of(bits, width, flags, i, j)?)?;
    }
    Ok(LayerDependencyTypes {
        direct_dependency_type: all,
    })
}

#[tactic(auto, using(mv_syntax::proofs::LoopLaws::item_steps), unfolding(crate::specs::DependencyTypes::dependency_types))]
fn dependency_types_of(
    alloc: Global,
    bits: &mut BitReader,
    vps_max_layers_minus1: u8,
    width: u8,
    flags: &[LayerDependencies],
) -> Result<Vec<LayerDependencyTypes>, Fault<Rule>>
    requires width { width ≤ 32 }
    requires layers { vps_max_layers_minus1 ≤ 62 }
    ensures { ReadsAs (λ v. v.items) (dependency_types vps_max_layers_minus1 width flags.now) bits.old bits.new result }
{
    let end = vps_max_layers_minus1 + 1;
    let mut all = Vec::new(alloc);
    for i in 1..end {
        all.push(layer_dependency_types_of(alloc, bits, width, flags, i)?)?;
    }
    Ok(all)
}

fn dependency_types_if(
    alloc: Global,
    bits: &mut BitReader,
    present: bool,
    vps_max_layers_minus1: u8,
    width: u8,
    flags: &[LayerDependencies],
) -> Result<Option<Vec<LayerDependencyTypes>>, Fault<Rule>>
    requires width { width ≤ 32 }
    requires layers { vps_max_layers_minus1 ≤ 62 }
    ensures { ReadsAs (λ o. option_map (λ v. v.items) o) (when present (dependency_types vps_max_layers_minus1 width flags.now)) bits.old bits.new result }
{
    if !present {
        return Ok(None);
    }
    Ok(Some(dependency_types_of(alloc, bits, vps_max_layers_minus1, width, flags)?))
}

/// The types of the dependencies (F.7.3.2.1.1).
///
/// `Breaks` with the first rule that a field breaks, all fields before it being read. `NoBits` where the bits end before. `Memory`
/// where memory runs out.
#[tactic(auto, unfolding(crate::specs::DependencyTypes::types))]
pub fn types_of(
    alloc: Global,
    bits: &mut BitReader,
    vps_max_layers_minus1: u8,
    flags: &[LayerDependencies],
) -> Result<VpsDependencyTypes, Fault<Rule>>
    requires { vps_max_layers_minus1 ≤ 62 }
    ensures { ReadsBy (types vps_max_layers_minus1 flags.now) bits.old bits.new result }
{
    let direct_dep_type_len_minus2 = ue_within(bits, Rule::VpsLimit, 30)?;
    let width = direct_dep_type_len_minus2 as u8 + 2;
    let direct_dependency_all_layers_flag = u8_of(bits, 1)?;
    let all = direct_dependency_all_layers_flag == 1;
    let direct_dependency_all_layers_type = u32_within_if(
        bits,
        all,
        width,
        Rule::DependencyType,
        2,
    )?;
    let direct_dependency_type = dependency_types_if(
        alloc,
        bits,
        !all,
        vps_max_layers_minus1,
        width,
        flags,
    )?;
    Ok(VpsDependencyTypes {
        direct_dep_type_len_minus2,
        direct_dependency_all_layers_flag,
        direct_dependency_all_layers_type,
        direct_dependency_type,
    })
}

#[tactic(auto, unfolding(crate::specs::DependencyTypes::dependency_type))]
fn print_dependency_type(
    out: &mut Printer,
    width: u8,
    flags: &[LayerDependencies],
    i: usize,
    j: usize,
    field: Option<u32>,
) -> Result<(), AllocError>
    requires width { width ≤ 32 }
    requires valid { Valid (dependency_type width flags.now i j) field }
    ensures { OnOk result (out.new ≡ printed (dependency_type width flags.now i j) field out.old) }
{
    out.u32_within_if(
        depends(flags, i, j),
        "direct_dependency_type",
        width,
        Rule::DependencyType,
        2,
        field,
    )
}

#[tactic(auto, using(mv_syntax::proofs::PrintingLoops::print_item_steps), unfolding(crate::specs::DependencyTypes::layer_dependency_types))]
fn print_layer_dependency_types(
    out: &mut Printer,
    all: &[Option<u32>],
    width: u8,
    flags: &[LayerDependencies],
    i: usize,
) -> Result<(), AllocError>
    requires width { width ≤ 32 }
    requires valid { Valid (layer_dependency_types width flags.now i) all.now }
    ensures { OnOk result (out.new ≡ printed (layer_dependency_types width flags.now i) all.now out.old) }
{
    for j in 0..all.len() {
        let outer = out.open(j as u64)?;
        print_dependency_type(out, width, flags, i, j, all[j])?;
        out.close(outer);
    }
    Ok(())
}

fn print_types_of_layer(
    out: &mut Printer,
    v: &LayerDependencyTypes,
    width: u8,
    flags: &[LayerDependencies],
    i: usize,
) -> Result<(), AllocError>
    requires width { width ≤ 32 }
    requires valid { Valid (layer_dependency_types width flags.now i) v.now }
    ensures { OnOk result (out.new ≡ printed (layer_dependency_types width flags.now i) v.now out.old) }
{
    print_layer_dependency_types(out, &v.direct_dependency_type, width, flags, i)
}

#[tactic(auto, using(mv_syntax::proofs::PrintingLoops::print_item_steps), unfolding(crate::specs::DependencyTypes::dependency_types))]
fn print_dependency_types(
    out: &mut Printer,
    all: &[LayerDependencyTypes],
    vps_max_layers_minus1: u8,
    width: u8,
    flags: &[LayerDependencies],
) -> Result<(), AllocError>
    requires width { width ≤ 32 }
    requires layers { vps_max_layers_minus1 ≤ 62 }
    requires valid { Valid (dependency_types vps_max_layers_minus1 width flags.now) all.now }
    ensures { OnOk result (out.new ≡ printed (dependency_types vps_max_layers_minus1 width flags.now) all.now out.old) }
{
    for k in 0..all.len() {
        let outer = out.open(k as u64 + 1)?;
        print_types_of_layer(out, &all[k], width, flags, k + 1)?;
        out.close(outer);
    }
    Ok(())
}

fn print_dependency_types_if(
    out: &mut Printer,
    present: bool,
    all: &Option<Vec<LayerDependencyTypes>>,
    vps_max_layers_minus1: u8,
    width: u8,
    flags: &[LayerDependencies],
) -> Result<(), AllocError>
    requires width { width ≤ 32 }
    requires layers { vps_max_layers_minus1 ≤ 62 }
    requires valid { Valid (when present (dependency_types vps_max_layers_minus1 width flags.now)) (option_map (λ v. v.items) all.now) }
    ensures { OnOk result (out.new ≡ printed (when present (dependency_types vps_max_layers_minus1 width flags.now)) (option_map (λ v. v.items) all.now) out.old) }
{
    match all {
        Some(all) => print_dependency_types(out, all, vps_max_layers_minus1, width, flags),
        None => Ok(()),
    }
}

/// Prints the types of the dependencies.
///
/// `AllocError` where memory runs out.
#[tactic(auto, unfolding(crate::specs::DependencyTypes::types))]
pub fn print_types(
    out: &mut Printer,
    v: &VpsDependencyTypes,
    vps_max_layers_minus1: u8,
    flags: &[LayerDependencies],
) -> Result<(), AllocError>
    requires layers { vps_max_layers_minus1 ≤ 62 }
    requires valid { Valid (types vps_max_layers_minus1 flags.now) v.now }
    ensures { OnOk result (out.new ≡ printed (types vps_max_layers_minus1 flags.now) v.now out.old) }
{
    let width = v.direct_dep_type_len_minus2 as u8 + 2;
    let all = v.direct_dependency_all_layers_flag == 1;
    out.ue("direct_dep_type_len_minus2", v.direct_dep_type_len_minus2)?;
    out.flag(
        "direct_dependency_all_layers_flag",
        v.direct_dependency_all_layers_flag,
    )?;
    out.u32_within_if(
        all,
        "direct_dependency_all_layers_type",
        width,
        Rule::DependencyType,
        2,
        v.direct_dependency_all_layers_type,
    )?;
    print_dependency_types_if(
        out,
        !all,
        &v.direct_dependency_type,
        vps_max_layers_minus1,
        width,
        flags,
    )?;
    Ok(())
}
