ghost use Rattle.std.specs.Prelude.{◌≡◌, ◌≤◌, OnOk, option_map};
ghost use Rattle.mv_syntax.specs.Table.{when, Valid};
ghost use Rattle.mv_syntax.specs.Printed.{printed};
ghost use Rattle.mv_fields.specs.Reading.{ReadsBy, ReadsAs};
ghost use Rattle.mv_vpsext.specs.Formats.{rep_formats, rep_format_idx, rep_format_idxs, formats};

use crate::rep_format::{RepFormat, print_rep_format, rep_format_of};
use mv_bits::BitReader;
use mv_fields::{Fault, Printer, clog2, coded_set, u8_if, u8_within, ue_within};
use mv_rules::Rule;
use std::alloc::{AllocError, Global};
use std::marker::Model;

/// The formats of pictures, and which of them each layer has.
#[derive(Debug, Drop)]
pub struct VpsFormats {
    pub vps_num_rep_formats_minus1: u32,
    pub rep_formats: Vec<RepFormat>,
    pub rep_format_idx_present_flag: Option<u8>,
    /// Of the layers from index 1 on.
    pub vps_rep_format_idx: Option<Vec<u8>>,
}

impl Model for VpsFormats {
    ghost use Rattle.std.specs.Prelude.{option_map};
    ghost use Rattle.mv_vpsext.specs.Formats.{VpsFormatsValue};

    ghost Value = { VpsFormatsValue };

    ghost view = { λ f. record {
      vps_num_rep_formats_minus1 = f.vps_num_rep_formats_minus1;
      rep_formats = f.rep_formats.items;
      rep_format_idx_present_flag = f.rep_format_idx_present_flag;
      vps_rep_format_idx = option_map (λ v. v.items) f.vps_rep_format_idx;
    } };
}

#[tactic(auto, using(mv_syntax::proofs::LoopLaws::item_steps), unfolding(crate::specs::Formats::rep_formats))]
fn rep_formats_of(
    alloc: Global,
    bits: &mut BitReader,
    vps_num_rep_formats_minus1: u32,
) -> Result<Vec<RepFormat>, Fault<Rule>>
    requires { vps_num_rep_formats_minus1 ≤ 255 }
    ensures { ReadsAs (λ v. v.items) (rep_formats vps_num_rep_formats_minus1) bits.old bits.new result }
{
    let turns = vps_num_rep_formats_minus1 + 1;
    let mut all = Vec::new(alloc);
    for i in 0..turns {
        all.push(rep_format_of(bits, i)?)?;
    }
    Ok(all)
}

#[tactic(auto, unfolding(crate::specs::Formats::rep_format_idx))]
fn rep_format_idx_of(
    bits: &mut BitReader,
    vps_num_rep_formats_minus1: u32,
    i: u8,
) -> Result<u8, Fault<Rule>>
    requires { vps_num_rep_formats_minus1 ≤ 255 }
    ensures { ReadsBy (rep_format_idx vps_num_rep_formats_minus1 i) bits.old bits.new result }
{
    let width = clog2(vps_num_rep_formats_minus1 + 1, 8);
    u8_within(
        bits,
        width,
        Rule::VpsLimit,
        vps_num_rep_formats_minus1 as u8,
    )
}

#[tactic(auto, using(mv_syntax::proofs::LoopLaws::item_steps), unfolding(crate::specs::Formats::rep_format_idxs))]
fn rep_format_idxs_of(
    alloc: Global,
    bits: &mut BitReader,
    vps_max_layers_minus1: u8,
    vps_num_rep_formats_minus1: u32,
) -> Result<Vec<u8>, Fault<Rule>>
    requires layers { vps_max_layers_minus1 ≤ 62 }
    requires formats { vps_num_rep_formats_minus1 ≤ 255 }
    ensures { ReadsAs (λ v. v.items) (rep_format_idxs vps_max_layers_minus1 vps_num_rep_formats_minus1) bits.old bits.new result }
{
    let end = vps_max_layers_minus1 + 1;
    let mut all = Vec::new(alloc);
    for i in 1..end {
        all.push(rep_format_idx_of(bits, vps_num_rep_formats_minus1, i)?)?;
    }
    Ok(all)
}

fn rep_format_idxs_if(
    alloc: Global,
    bits: &mut BitReader,
    present: bool,
    vps_max_layers_minus1: u8,
    vps_num_rep_formats_minus1: u32,
) -> Result<Option<Vec<u8>>, Fault<Rule>>
    requires layers { vps_max_layers_minus1 ≤ 62 }
    requires formats { vps_num_rep_formats_minus1 ≤ 255 }
    ensures { ReadsAs (λ o. option_map (λ v. v.items) o) (when present (rep_format_idxs vps_max_layers_minus1 vps_num_rep_formats_minus1)) bits.old bits.new result }
{
    if !present {
        return Ok(None);
    }
    Ok(Some(rep_format_idxs_of(
        alloc,
        bits,
        vps_max_layers_minus1,
        vps_num_rep_formats_minus1,
    )?))
}

#[tactic(auto, unfolding(crate::specs::Formats::formats))]
pub(crate) fn formats_of(
    alloc: Global,
    bits: &mut BitReader,
    vps_max_layers_minus1: u8,
) -> Result<VpsFormats, Fault<Rule>>
    requires layers { vps_max_layers_minus1 ≤ 62 }
    ensures { ReadsBy (formats vps_max_layers_minus1) bits.old bits.new result }
{
    let vps_num_rep_formats_minus1 = ue_within(bits, Rule::VpsLimit, 255)?;
    let rep_formats = rep_formats_of(alloc, bits, vps_num_rep_formats_minus1)?;
    let rep_format_idx_present_flag = u8_if(bits, vps_num_rep_formats_minus1 > 0, 1)?;
    let vps_rep_format_idx = rep_format_idxs_if(
        alloc,
        bits,
        coded_set(rep_format_idx_present_flag),
        vps_max_layers_minus1,
        vps_num_rep_formats_minus1,
    )?;
    Ok(VpsFormats {
        vps_num_rep_formats_minus1,
        rep_formats,
        rep_format_idx_present_flag,
        vps_rep_format_idx,
    })
}

#[tactic(auto, using(mv_syntax::proofs::PrintingLoops::print_item_steps), unfolding(crate::specs::Formats::rep_formats))]
fn print_rep_formats(
    out: &mut Printer,
    all: &[RepFormat],
    vps_num_rep_formats_minus1: u32,
) -> Result<(), AllocError>
    requires { Valid (rep_formats vps_num_rep_formats_minus1) all.now }
    ensures { OnOk result (out.new ≡ printed (rep_formats vps_num_rep_formats_minus1) all.now out.old) }
{
    for i in 0..all.len() {
        let outer = out.open(i as u64)?;
        print_rep_format(out, &all[i], i)?;
        out.close(outer);
    }
    Ok(())
}

#[tactic(auto, unfolding(crate::specs::Formats::rep_format_idx))]
fn print_rep_format_idx(
    out: &mut Printer,
    vps_num_rep_formats_minus1: u32,
    i: usize,
    field: u8,
) -> Result<(), AllocError>
    requires formats { vps_num_rep_formats_minus1 ≤ 255 }
    requires valid { Valid (rep_format_idx vps_num_rep_formats_minus1 i) field }
    ensures { OnOk result (out.new ≡ printed (rep_format_idx vps_num_rep_formats_minus1 i) field out.old) }
{
    out.u8(
        "vps_rep_format_idx",
        clog2(vps_num_rep_formats_minus1 + 1, 8),
        field,
    )
}

#[tactic(auto, using(mv_syntax::proofs::PrintingLoops::print_item_steps), unfolding(crate::specs::Formats::rep_format_idxs))]
fn print_rep_format_idxs(
    out: &mut Printer,
    all: &[u8],
    vps_max_layers_minus1: u8,
    vps_num_rep_formats_minus1: u32,
) -> Result<(), AllocError>
    requires formats { vps_num_rep_formats_minus1 ≤ 255 }
    requires valid { Valid (rep_format_idxs vps_max_layers_minus1 vps_num_rep_formats_minus1) all.now }
    ensures { OnOk result (out.new ≡ printed (rep_format_idxs vps_max_layers_minus1 vps_num_rep_formats_minus1) all.now out.old) }
{
    for k in 0..all.len() {
        let outer = out.open(k as u64 + 1)?;
        print_rep_format_idx(out, vps_num_rep_formats_minus1, k + 1, all[k])?;
        out.close(outer);
    }
    Ok(())
}

fn print_rep_format_idxs_if(
    out: &mut Printer,
    present: bool,
    all: &Option<Vec<u8>>,
    vps_max_layers_minus1: u8,
    vps_num_rep_formats_minus1: u32,
) -> Result<(), AllocError>
    requires formats { vps_num_rep_formats_minus1 ≤ 255 }
    requires valid { Valid (when present (rep_format_idxs vps_max_layers_minus1 vps_num_rep_formats_minus1)) (option_map (λ v. v.items) all.now) }
    ensures { OnOk result (out.new ≡ printed (when present (rep_format_idxs vps_max_layers_minus1 vps_num_rep_formats_minus1)) (option_map (λ v. v.items) all.now) out.old) }
{
    match all {
        Some(all) => print_rep_format_idxs(
            out,
            all,
            vps_max_layers_minus1,
            vps_num_rep_formats_minus1,
        ),
        None => Ok(()),
    }
}

#[tactic(auto, unfolding(crate::specs::Formats::formats))]
pub(crate) fn print_formats(
    out: &mut Printer,
    v: &VpsFormats,
    vps_max_layers_minus1: u8,
) -> Result<(), AllocError>
    requires layers { vps_max_layers_minus1 ≤ 62 }
    requires valid { Valid (formats vps_max_layers_minus1) v.now }
    ensures { OnOk result (out.new ≡ printed (formats vps_max_layers_minus1) v.now out.old) }
{
    let minus1 = v.vps_num_rep_formats_minus1;
    let coded = coded_set(v.rep_format_idx_present_flag);
    out.ue("vps_num_rep_formats_minus1", minus1)?;
    print_rep_formats(out, &v.rep_formats, minus1)?;
    out.flag_if(
        minus1 > 0,
        "rep_format_idx_present_flag",
        v.rep_format_idx_present_flag,
    )?;
    print_rep_format_idxs_if(
        out,
        coded,
        &v.vps_rep_format_idx,
        vps_max_layers_minus1,
        minus1,
    )?;
    Ok(())
}
