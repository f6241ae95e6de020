ghost use Rattle.std.specs.Prelude.{◌≡◌, ◌≤◌, OnOk};
ghost use Rattle.mv_syntax.specs.Table.{Valid};
ghost use Rattle.mv_syntax.specs.Printed.{printed};
ghost use Rattle.mv_fields.specs.Reading.{ReadsBy, ReadsAs};
ghost use Rattle.mv_vpsext.specs.Args.{layer_set, layer_sets};
ghost use Rattle.mv_vps.specs.LayerSets.{all_layer_sets};

use crate::fields::u8_except;
use mv_bits::BitReader;
use mv_fields::{Fault, Printer, u8s_of, ue_within};
use mv_layers::LayerSet;
use mv_rules::Rule;
use std::alloc::{AllocError, Global};
use std::marker::Model;

/// The layer sets, and the greatest nuh_layer_id that they speak of.
#[derive(Debug, Drop)]
pub struct VpsLayerSets {
    pub vps_max_layer_id: u8,
    pub vps_num_layer_sets_minus1: u32,
    /// The layer sets from 1 on.
    pub layer_id_included_flag: Vec<LayerSet>,
}

impl Model for VpsLayerSets {
    ghost use Rattle.mv_vps.specs.LayerSets.{VpsLayerSetsValue};

    ghost Value = { VpsLayerSetsValue };

    ghost view = { λ s. record {
      vps_max_layer_id = s.vps_max_layer_id;
      vps_num_layer_sets_minus1 = s.vps_num_layer_sets_minus1;
      layer_id_included_flag = s.layer_id_included_flag.items;
    } };
}

#[tactic(auto, unfolding(mv_vpsext::specs::Args::layer_set))]
fn layer_set_of(
    alloc: Global,
    bits: &mut BitReader,
    vps_max_layer_id: u8,
) -> Result<LayerSet, Fault<Rule>>
    requires { vps_max_layer_id ≤ 62 }
    ensures { ReadsBy (layer_set vps_max_layer_id) bits.old bits.new result }
{
    Ok(LayerSet {
        layer_id_included_flag: u8s_of(alloc, bits, u32::from(vps_max_layer_id) + 1, 1)?,
    })
}

#[tactic(auto, using(mv_syntax::proofs::LoopLaws::item_steps), unfolding(mv_vpsext::specs::Args::layer_sets, mv_syntax::specs::Loops::each))]
fn layer_sets_of(
    alloc: Global,
    bits: &mut BitReader,
    vps_num_layer_sets_minus1: u32,
    vps_max_layer_id: u8,
) -> Result<Vec<LayerSet>, Fault<Rule>>
    requires sets { vps_num_layer_sets_minus1 ≤ 1023 }
    requires layers { vps_max_layer_id ≤ 62 }
    ensures { ReadsAs (λ v. v.items) (layer_sets vps_num_layer_sets_minus1 vps_max_layer_id) bits.old bits.new result }
{
    let end = vps_num_layer_sets_minus1 + 1;
    let mut all = Vec::new(alloc);
    for i in 1..end {
        all.push(layer_set_of(alloc, bits, vps_max_layer_id)?)?;
    }
    Ok(all)
}

#[tactic(auto, unfolding(crate::specs::LayerSets::all_layer_sets))]
pub(crate) fn all_layer_sets_of(
    alloc: Global,
    bits: &mut BitReader,
) -> Result<VpsLayerSets, Fault<Rule>>
    ensures { ReadsBy all_layer_sets bits.old bits.new result }
{
    let vps_max_layer_id = u8_except(bits, 6, 63)?;
    let vps_num_layer_sets_minus1 = ue_within(bits, Rule::VpsLimit, 1023)?;
    let sets = layer_sets_of(alloc, bits, vps_num_layer_sets_minus1, vps_max_layer_id)?;
    Ok(VpsLayerSets {
        vps_max_layer_id,
        vps_num_layer_sets_minus1,
        layer_id_included_flag: sets,
    })
}

#[tactic(auto, unfolding(mv_vpsext::specs::Args::layer_set))]
fn print_layer_set(
    out: &mut Printer,
    set: &LayerSet,
    vps_max_layer_id: u8,
) -> Result<(), AllocError>
    requires { Valid (layer_set vps_max_layer_id) set.now }
    ensures { OnOk result (out.new ≡ printed (layer_set vps_max_layer_id) set.now out.old) }
{
    let n = u32::from(vps_max_layer_id) + 1;
    out.u8s(
        "layer_id_included_flag",
        0,
        n,
        1,
        &set.layer_id_included_flag,
    )
}

#[tactic(auto, using(mv_syntax::proofs::PrintingLoops::print_item_steps), unfolding(mv_vpsext::specs::Args::layer_sets, mv_syntax::specs::Loops::each))]
fn print_layer_sets(
    out: &mut Printer,
    all: &[LayerSet],
    vps_num_layer_sets_minus1: u32,
    vps_max_layer_id: u8,
) -> Result<(), AllocError>
    requires sets { vps_num_layer_sets_minus1 ≤ 1023 }
    requires valid { Valid (layer_sets vps_num_layer_sets_minus1 vps_max_layer_id) all.now }
    ensures { OnOk result (out.new ≡ printed (layer_sets vps_num_layer_sets_minus1 vps_max_layer_id) all.now out.old) }
{
    for k in 0..all.len() {
        let outer = out.open(k as u64 + 1)?;
        print_layer_set(out, &all[k], vps_max_layer_id)?;
        out.close(outer);
    }
    Ok(())
}

#[tactic(auto, unfolding(crate::specs::LayerSets::all_layer_sets))]
pub(crate) fn print_all_layer_sets(out: &mut Printer, v: &VpsLayerSets) -> Result<(), AllocError>
    requires { Valid all_layer_sets v.now }
    ensures { OnOk result (out.new ≡ printed all_layer_sets v.now out.old) }
{
    out.u8("vps_max_layer_id", 6, v.vps_max_layer_id)?;
    out.ue("vps_num_layer_sets_minus1", v.vps_num_layer_sets_minus1)?;
    print_layer_sets(
        out,
        &v.layer_id_included_flag,
        v.vps_num_layer_sets_minus1,
        v.vps_max_layer_id,
    )?;
    Ok(())
}
