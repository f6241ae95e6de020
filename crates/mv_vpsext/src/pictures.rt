//! The sixth part of vps_extension (F.7.3.2.1.1): what holds of the pictures of a layer.

ghost use Rattle.std.specs.Prelude.{◌≡◌, ◌≤◌, OnOk};
ghost use Rattle.mv_syntax.specs.Table.{Valid};
ghost use Rattle.mv_syntax.specs.Printed.{printed};
ghost use Rattle.mv_fields.specs.Reading.{ReadsBy, ReadsAs};
ghost use Rattle.mv_vpsext.specs.Pictures.{poc_lsb_not_present, poc_lsbs_not_present, pictures};

use mv_bits::BitReader;
use mv_fields::{Fault, Printer, u8_if, u8_of};
use mv_layers::{LayerDependencies, independent};
use mv_rules::Rule;
use std::alloc::{AllocError, Global};
use std::marker::Model;

/// What holds of the pictures of a layer: whether each refers to one other layer at most, and how their order counts are coded.
#[derive(Debug, Drop)]
pub struct VpsPictures {
    pub max_one_active_ref_layer_flag: u8,
    pub vps_poc_lsb_aligned_flag: u8,
    /// Of the layers from index 1 on.
    pub poc_lsb_not_present_flag: Vec<Option<u8>>,
}

impl Model for VpsPictures {
    ghost use Rattle.mv_vpsext.specs.Pictures.{VpsPicturesValue};

    ghost Value = { VpsPicturesValue };

    ghost view = { λ p. record {
      max_one_active_ref_layer_flag = p.max_one_active_ref_layer_flag;
      vps_poc_lsb_aligned_flag = p.vps_poc_lsb_aligned_flag;
      poc_lsb_not_present_flag = p.poc_lsb_not_present_flag.items;
    } };
}

#[tactic(auto, unfolding(crate::specs::Pictures::poc_lsb_not_present))]
fn poc_lsb_not_present_of(
    bits: &mut BitReader,
    flags: &[LayerDependencies],
    i: u8,
) -> Result<Option<u8>, Fault<Rule>>
    ensures { ReadsBy (poc_lsb_not_present flags.now i) bits.old bits.new result }
{
    Ok(u8_if(bits, independent(flags, usize::from(i)), 1)?)
}

#[tactic(auto, using(mv_syntax::proofs::LoopLaws::item_steps), unfolding(crate::specs::Pictures::poc_lsbs_not_present))]
fn poc_lsbs_not_present_of(
    alloc: Global,
    bits: &mut BitReader,
    vps_max_layers_minus1: u8,
    flags: &[LayerDependencies],
) -> Result<Vec<Option<u8>>, Fault<Rule>>
    requires layers { vps_max_layers_minus1 ≤ 62 }
    ensures { ReadsAs (λ v. v.items) (poc_lsbs_not_present vps_max_layers_minus1 flags.now) bits.old bits.new result }
{
    let end = vps_max_layers_minus1 + 1;
    let mut all = Vec::new(alloc);
    for i in 1..end {
        all.push(poc_lsb_not_present_of(bits, flags, i)?)?;
    }
    Ok(all)
}

#[tactic(auto, unfolding(crate::specs::Pictures::pictures))]
pub(crate) fn pictures_of(
    alloc: Global,
    bits: &mut BitReader,
    vps_max_layers_minus1: u8,
    flags: &[LayerDependencies],
) -> Result<VpsPictures, Fault<Rule>>
    requires layers { vps_max_layers_minus1 ≤ 62 }
    ensures { ReadsBy (pictures vps_max_layers_minus1 flags.now) bits.old bits.new result }
{
    let max_one_active_ref_layer_flag = u8_of(bits, 1)?;
    let vps_poc_lsb_aligned_flag = u8_of(bits, 1)?;
    let poc_lsb_not_present_flag = poc_lsbs_not_present_of(
        alloc,
        bits,
        vps_max_layers_minus1,
        flags,
    )?;
    Ok(VpsPictures {
        max_one_active_ref_layer_flag,
        vps_poc_lsb_aligned_flag,
        poc_lsb_not_present_flag,
    })
}

#[tactic(auto, unfolding(crate::specs::Pictures::poc_lsb_not_present))]
fn print_poc_lsb_not_present(
    out: &mut Printer,
    flags: &[LayerDependencies],
    i: usize,
    field: Option<u8>,
) -> Result<(), AllocError>
    requires { Valid (poc_lsb_not_present flags.now i) field }
    ensures { OnOk result (out.new ≡ printed (poc_lsb_not_present flags.now i) field out.old) }
{
    out.flag_if(independent(flags, i), "poc_lsb_not_present_flag", field)
}

#[tactic(auto, using(mv_syntax::proofs::PrintingLoops::print_item_steps), unfolding(crate::specs::Pictures::poc_lsbs_not_present))]
fn print_poc_lsbs_not_present(
    out: &mut Printer,
    all: &[Option<u8>],
    vps_max_layers_minus1: u8,
    flags: &[LayerDependencies],
) -> Result<(), AllocError>
    requires layers { vps_max_layers_minus1 ≤ 62 }
    requires valid { Valid (poc_lsbs_not_present vps_max_layers_minus1 flags.now) all.now }
    ensures { OnOk result (out.new ≡ printed (poc_lsbs_not_present vps_max_layers_minus1 flags.now) all.now out.old) }
{
    for k in 0..all.len() {
        let outer = out.open(k as u64 + 1)?;
        print_poc_lsb_not_present(out, flags, k + 1, all[k])?;
        out.close(outer);
    }
    Ok(())
}

#[tactic(auto, unfolding(crate::specs::Pictures::pictures))]
pub(crate) fn print_pictures(
    out: &mut Printer,
    v: &VpsPictures,
    vps_max_layers_minus1: u8,
    flags: &[LayerDependencies],
) -> Result<(), AllocError>
    requires layers { vps_max_layers_minus1 ≤ 62 }
    requires valid { Valid (pictures vps_max_layers_minus1 flags.now) v.now }
    ensures { OnOk result (out.new ≡ printed (pictures vps_max_layers_minus1 flags.now) v.now out.old) }
{
    out.flag(
        "max_one_active_ref_layer_flag",
        v.max_one_active_ref_layer_flag,
    )?;
    out.flag("vps_poc_lsb_aligned_flag", v.vps_poc_lsb_aligned_flag)?;
    print_poc_lsbs_not_present(
        out,
        &v.poc_lsb_not_present_flag,
        vps_max_layers_minus1,
        flags,
    )?;
    Ok(())
}
