ghost use Rattle.std.specs.Prelude.{◌≡◌, ◌≤◌, OnOk};
ghost use Rattle.mv_syntax.specs.Table.{Valid};
ghost use Rattle.mv_syntax.specs.Words.{or_zero};
ghost use Rattle.mv_syntax.specs.Printed.{printed};
ghost use Rattle.mv_fields.specs.Reading.{ReadsShared, ReadsSharedAs};
ghost use Rattle.mv_common.specs.Hrd.{hrd_sub_layer, hrd_sub_layers};

use crate::cpb::{Cpb, print_sub_layer_hrd_if, sub_layer_hrd_if};
use crate::hrd_common::HrdFlags;
use mv_bits::BitReader;
use mv_fields::{Fault, Limit, Printer, coded_set, u8_if, u8_of, ue_if, ue_limited_if};
use std::alloc::{AllocError, Global};
use std::marker::Model;

/// The fields of hrd_parameters (E.2.2) for one sub-layer.
#[derive(Debug, Drop)]
pub struct HrdSubLayer {
    pub fixed_pic_rate_general_flag: u8,
    pub fixed_pic_rate_within_cvs_flag: Option<u8>,
    pub elemental_duration_in_tc_minus1: Option<u32>,
    pub low_delay_hrd_flag: Option<u8>,
    pub cpb_cnt_minus1: Option<u32>,
    pub nal_sub_layer_hrd: Option<Vec<Cpb>>,
    pub vcl_sub_layer_hrd: Option<Vec<Cpb>>,
}

impl Model for HrdSubLayer {
    ghost use Rattle.std.specs.Prelude.{option_map};
    ghost use Rattle.mv_common.specs.Hrd.{HrdSubLayerValue};

    ghost Value = { HrdSubLayerValue };

    ghost view = { λ s. record {
      fixed_pic_rate_general_flag = s.fixed_pic_rate_general_flag;
      fixed_pic_rate_within_cvs_flag = s.fixed_pic_rate_within_cvs_flag;
      elemental_duration_in_tc_minus1 = s.elemental_duration_in_tc_minus1;
      low_delay_hrd_flag = s.low_delay_hrd_flag;
      cpb_cnt_minus1 = s.cpb_cnt_minus1;
      nal_sub_layer_hrd = option_map (λ v. v.items) s.nal_sub_layer_hrd;
      vcl_sub_layer_hrd = option_map (λ v. v.items) s.vcl_sub_layer_hrd;
    } };
}

// The value of a field, 0 where it is left out.
fn or_zero(field: Option<u32>) -> u32
    ensures { result ≡ or_zero field }
{
    field.unwrap_or(0)
}

#[tactic(auto, unfolding(crate::specs::Hrd::hrd_sub_layer))]
fn hrd_sub_layer_of(
    alloc: Global,
    bits: &mut BitReader,
    flags: HrdFlags,
    i: u8,
) -> Result<HrdSubLayer, Fault<Limit>>
    ensures { ReadsShared (hrd_sub_layer flags i) bits.old bits.new result }
{
    let fixed_pic_rate_general_flag = u8_of(bits, 1)?;
    let fixed_pic_rate_within_cvs_flag = u8_if(bits, fixed_pic_rate_general_flag != 1, 1)?;
    let within_cvs = fixed_pic_rate_within_cvs_flag.unwrap_or(1) == 1;
    let elemental_duration_in_tc_minus1 = ue_if(bits, within_cvs)?;
    let low_delay_hrd_flag = u8_if(bits, !within_cvs, 1)?;
    let cpb_cnt_minus1 = ue_limited_if(bits, !coded_set(low_delay_hrd_flag), 31)?;
    let count = or_zero(cpb_cnt_minus1);
    let nal_sub_layer_hrd = sub_layer_hrd_if(alloc, bits, flags.nal, flags.sub_pic, count)?;
    let vcl_sub_layer_hrd = sub_layer_hrd_if(alloc, bits, flags.vcl, flags.sub_pic, count)?;
    Ok(HrdSubLayer {
        fixed_pic_rate_general_flag,
        fixed_pic_rate_within_cvs_flag,
        elemental_duration_in_tc_minus1,
        low_delay_hrd_flag,
        cpb_cnt_minus1,
        nal_sub_layer_hrd,
        vcl_sub_layer_hrd,
    })
}

#[tactic(auto, unfolding(crate::specs::Hrd::hrd_sub_layer))]
fn print_hrd_sub_layer(
    out: &mut Printer,
    v: &HrdSubLayer,
    flags: HrdFlags,
    i: usize,
) -> Result<(), AllocError>
    requires { Valid (hrd_sub_layer flags i) v.now }
    ensures { OnOk result (out.new ≡ printed (hrd_sub_layer flags i) v.now out.old) }
{
    let within_cvs = v.fixed_pic_rate_within_cvs_flag.unwrap_or(1) == 1;
    let count = or_zero(v.cpb_cnt_minus1);
    out.flag("fixed_pic_rate_general_flag", v.fixed_pic_rate_general_flag)?;
    out.flag_if(
        v.fixed_pic_rate_general_flag != 1,
        "fixed_pic_rate_within_cvs_flag",
        v.fixed_pic_rate_within_cvs_flag,
    )?;
    out.ue_if(
        within_cvs,
        "elemental_duration_in_tc_minus1",
        v.elemental_duration_in_tc_minus1,
    )?;
    out.flag_if(!within_cvs, "low_delay_hrd_flag", v.low_delay_hrd_flag)?;
    out.ue_limited_if(
        !coded_set(v.low_delay_hrd_flag),
        "cpb_cnt_minus1",
        31,
        v.cpb_cnt_minus1,
    )?;
    print_sub_layer_hrd_if(out, flags.nal, &v.nal_sub_layer_hrd, flags.sub_pic, count)?;
    print_sub_layer_hrd_if(out, flags.vcl, &v.vcl_sub_layer_hrd, flags.sub_pic, count)?;
    Ok(())
}

#[tactic(auto, using(mv_syntax::proofs::LoopLaws::item_steps), unfolding(crate::specs::Hrd::hrd_sub_layers))]
pub(crate) fn hrd_sub_layers_of(
    alloc: Global,
    bits: &mut BitReader,
    subs: u8,
    flags: HrdFlags,
) -> Result<Vec<HrdSubLayer>, Fault<Limit>>
    requires { subs ≤ 6 }
    ensures { ReadsSharedAs (λ v. v.items) (hrd_sub_layers subs flags) bits.old bits.new result }
{
    let turns = subs + 1;
    let mut sub_layers = Vec::new(alloc);
    for i in 0..turns {
        sub_layers.push(hrd_sub_layer_of(alloc, bits, flags, i)?)?;
    }
    Ok(sub_layers)
}

#[tactic(auto, using(mv_syntax::proofs::PrintingLoops::print_item_steps), unfolding(crate::specs::Hrd::hrd_sub_layers))]
pub(crate) fn print_hrd_sub_layers(
    out: &mut Printer,
    sub_layers: &[HrdSubLayer],
    subs: u8,
    flags: HrdFlags,
) -> Result<(), AllocError>
    requires { Valid (hrd_sub_layers subs flags) sub_layers.now }
    ensures { OnOk result (out.new ≡ printed (hrd_sub_layers subs flags) sub_layers.now out.old) }
{
    for i in 0..sub_layers.len() {
        let outer = out.open(i as u64)?;
        print_hrd_sub_layer(out, &sub_layers[i], flags, i)?;
        out.close(outer);
    }
    Ok(())
}
