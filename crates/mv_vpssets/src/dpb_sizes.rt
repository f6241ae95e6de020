//! dpb_size (F.7.3.2.1.3): what a decoder has to hold for each output layer set.

ghost use Rattle.std.specs.Prelude.{◌≡◌, ℕ, ◌-◌, ◌≤◌, ◌<◌, length, get_or, OnOk};
ghost use Rattle.mv_syntax.specs.Table.{when, Valid};
ghost use Rattle.mv_syntax.specs.Printed.{printed};
ghost use Rattle.mv_fields.specs.Reading.{ReadsBy, ReadsAs};
ghost use Rattle.mv_vpssets.specs.DpbSizes.{no_layers, dpb_sub_layer, dpb_sub_layers, dpb_set, dpb_of_set, dpb_size};

use crate::dpb_numbers::{DpbNumbers, dpb_numbers_if, print_dpb_numbers_if};
use mv_bits::BitReader;
use mv_fields::{Fault, Printer, coded_set, u8_if, u8_of};
use mv_rules::Rule;
use std::alloc::{AllocError, Global};
use std::marker::Model;

/// What dpb_size takes of an output layer set: whether each of its layers is necessary, and the greatest
/// sub_layers_vps_max_minus1 of its layers.
#[derive(Debug, Drop)]
pub struct SetLayers {
    pub necessary: Vec<bool>,
    pub greatest: u8,
}

impl Model for SetLayers {
    ghost use Rattle.mv_vpssets.specs.DpbSizes.{DpbLayers};

    ghost Value = { DpbLayers };

    ghost view = { λ s. record { necessary = s.necessary.items; greatest = s.greatest } };
}

/// One sub-layer of an output layer set in dpb_size.
#[derive(Debug, Drop)]
pub struct DpbSubLayer {
    pub sub_layer_dpb_info_present_flag: Option<u8>,
    /// Those of the sub-layer below serve where these aren't coded.
    pub numbers: Option<DpbNumbers>,
}

impl Model for DpbSubLayer {
    ghost use Rattle.mv_vpssets.specs.DpbSizes.{DpbSubLayerValue};

    ghost Value = { DpbSubLayerValue };

    ghost view = { λ s. record {
      sub_layer_dpb_info_present_flag = s.sub_layer_dpb_info_present_flag;
      numbers = s.numbers;
    } };
}

/// One output layer set in dpb_size.
#[derive(Debug, Drop)]
pub struct DpbSizes {
    pub sub_layer_flag_info_present_flag: u8,
    pub sub_layers: Vec<DpbSubLayer>,
}

impl Model for DpbSizes {
    ghost use Rattle.mv_vpssets.specs.DpbSizes.{DpbSetValue};

    ghost Value = { DpbSetValue };

    ghost view = { λ s. record {
      sub_layer_flag_info_present_flag = s.sub_layer_flag_info_present_flag;
      sub_layers = s.sub_layers.items;
    } };
}

#[tactic(auto, unfolding(crate::specs::DpbSizes::dpb_sub_layer))]
fn dpb_sub_layer_of(
    alloc: Global,
    bits: &mut BitReader,
    necessary: &[bool],
    sub_layer_flag_info_present_flag: u8,
    j: u8,
) -> Result<DpbSubLayer, Fault<Rule>>
    ensures { ReadsBy (dpb_sub_layer necessary.now sub_layer_flag_info_present_flag j) bits.old bits.new result }
{
    let asked = j > 0 && sub_layer_flag_info_present_flag == 1;
    let sub_layer_dpb_info_present_flag = u8_if(bits, asked, 1)?;
    let present = j == 0 || coded_set(sub_layer_dpb_info_present_flag);
    let numbers = dpb_numbers_if(alloc, bits, present, necessary)?;
    Ok(DpbSubLayer {
        sub_layer_dpb_info_present_flag,
        numbers,
    })
}

#[tactic(auto, using(mv_syntax::proofs::LoopLaws::item_steps), unfolding(crate::specs::DpbSizes::dpb_sub_layers))]
fn dpb_sub_layers_of(
    alloc: Global,
    bits: &mut BitReader,
    set: &SetLayers,
    sub_layer_flag_info_present_flag: u8,
) -> Result<Vec<DpbSubLayer>, Fault<Rule>>
    requires { set.now.greatest ≤ 6 }
    ensures { ReadsAs (λ v. v.items) (dpb_sub_layers set.now sub_layer_flag_info_present_flag) bits.old bits.new result }
{
    let end = set.greatest + 1;
    let flag = sub_layer_flag_info_present_flag;
    let mut all = Vec::new(alloc);
    for j in 0..end {
        all.push(dpb_sub_layer_of(alloc, bits, &set.necessary, flag, j)?)?;
    }
    Ok(all)
}

#[tactic(auto, unfolding(crate::specs::DpbSizes::dpb_set))]
fn dpb_set_of(alloc: Global, bits: &mut BitReader, set: &SetLayers) -> Result<DpbSizes, Fault<Rule>>
    requires { set.now.greatest ≤ 6 }
    ensures { ReadsBy (dpb_set set.now) bits.old bits.new result }
{
    let sub_layer_flag_info_present_flag = u8_of(bits, 1)?;
    let sub_layers = dpb_sub_layers_of(alloc, bits, set, sub_layer_flag_info_present_flag)?;
    Ok(DpbSizes {
        sub_layer_flag_info_present_flag,
        sub_layers,
    })
}

#[tactic(auto, unfolding(crate::specs::DpbSizes::dpb_sub_layer))]
fn print_dpb_sub_layer(
    out: &mut Printer,
    v: &DpbSubLayer,
    necessary: &[bool],
    sub_layer_flag_info_present_flag: u8,
    j: usize,
) -> Result<(), AllocError>
    requires { Valid (dpb_sub_layer necessary.now sub_layer_flag_info_present_flag j) v.now }
    ensures { OnOk result (out.new ≡ printed (dpb_sub_layer necessary.now sub_layer_flag_info_present_flag j) v.now out.old) }
{
    let asked = j > 0 && sub_layer_flag_info_present_flag == 1;
    let present = j == 0 || coded_set(v.sub_layer_dpb_info_present_flag);
    out.flag_if(
        asked,
        "sub_layer_dpb_info_present_flag",
        v.sub_layer_dpb_info_present_flag,
    )?;
    print_dpb_numbers_if(out, present, &v.numbers, necessary)?;
    Ok(())
}

#[tactic(auto, using(mv_syntax::proofs::PrintingLoops::print_item_steps), unfolding(crate::specs::DpbSizes::dpb_sub_layers))]
fn print_dpb_sub_layers(
    out: &mut Printer,
    all: &[DpbSubLayer],
    set: &SetLayers,
    sub_layer_flag_info_present_flag: u8,
) -> Result<(), AllocError>
    requires { Valid (dpb_sub_layers set.now sub_layer_flag_info_present_flag) all.now }
    ensures { OnOk result (out.new ≡ printed (dpb_sub_layers set.now sub_layer_flag_info_present_flag) all.now out.old) }
{
    let flag = sub_layer_flag_info_present_flag;
    for j in 0..all.len() {
        let outer = out.open(j as u64)?;
        print_dpb_sub_layer(out, &all[j], &set.necessary, flag, j)?;
        out.close(outer);
    }
    Ok(())
}

#[tactic(auto, unfolding(crate::specs::DpbSizes::dpb_set))]
fn print_dpb_set(out: &mut Printer, v: &DpbSizes, set: &SetLayers) -> Result<(), AllocError>
    requires { Valid (dpb_set set.now) v.now }
    ensures { OnOk result (out.new ≡ printed (dpb_set set.now) v.now out.old) }
{
    out.flag(
        "sub_layer_flag_info_present_flag",
        v.sub_layer_flag_info_present_flag,
    )?;
    print_dpb_sub_layers(out, &v.sub_layers, set, v.sub_layer_flag_info_present_flag)?;
    Ok(())
}

#[tactic(auto, unfolding(crate::specs::DpbSizes::dpb_of_set))]
fn dpb_of_set_at(
    alloc: Global,
    bits: &mut BitReader,
    sets: &[SetLayers],
    i: usize,
) -> Result<DpbSizes, Fault<Rule>>
    requires within { i < length sets.now }
    requires few { (k : ℕ) → (get_or sets.now k no_layers).greatest ≤ 6 }
    ensures { ReadsBy (dpb_of_set sets.now i) bits.old bits.new result }
{
    dpb_set_of(alloc, bits, &sets[i])
}

/// dpb_size (F.7.3.2.1.3): the sizes of the buffers of each output layer set from 1 on, given what is asked of the layers of each.
///
/// `Breaks` with the first rule that a field breaks, all fields before it being read. `NoBits` where the bits end before. `Memory`
/// where memory runs out.
#[tactic(auto, using(mv_syntax::proofs::LoopLaws::item_steps), unfolding(crate::specs::DpbSizes::dpb_size))]
pub fn dpb_size_of(
    alloc: Global,
    bits: &mut BitReader,
    sets: &[SetLayers],
) -> Result<Vec<DpbSizes>, Fault<Rule>>
    requires some { 1 ≤ length sets.now }
    requires few { (k : ℕ) → (get_or sets.now k no_layers).greatest ≤ 6 }
    ensures { ReadsAs (λ v. v.items) (dpb_size sets.now) bits.old bits.new result }
{
    let end = sets.len();
    let mut all = Vec::new(alloc);
    for i in 1..end {
        all.push(dpb_of_set_at(alloc, bits, sets, i)?)?;
    }
    Ok(all)
}

#[tactic(auto, unfolding(crate::specs::DpbSizes::dpb_of_set))]
fn print_dpb_of_set(
    out: &mut Printer,
    v: &DpbSizes,
    sets: &[SetLayers],
    i: usize,
) -> Result<(), AllocError>
    requires within { i < length sets.now }
    requires valid { Valid (dpb_of_set sets.now i) v.now }
    ensures { OnOk result (out.new ≡ printed (dpb_of_set sets.now i) v.now out.old) }
{
    print_dpb_set(out, v, &sets[i])
}

/// Prints dpb_size.
///
/// `AllocError` where memory runs out.
#[tactic(auto, using(mv_syntax::proofs::PrintingLoops::print_item_steps), unfolding(crate::specs::DpbSizes::dpb_size))]
pub fn print_dpb_size(
    out: &mut Printer,
    all: &[DpbSizes],
    sets: &[SetLayers],
) -> Result<(), AllocError>
    requires some { 1 ≤ length sets.now }
    requires valid { Valid (dpb_size sets.now) all.now }
    ensures { OnOk result (out.new ≡ printed (dpb_size sets.now) all.now out.old) }
{
    for k in 0..all.len() {
        let outer = out.open(k as u64 + 1)?;
        print_dpb_of_set(out, &all[k], sets, k + 1)?;
        out.close(outer);
    }
    Ok(())
}
