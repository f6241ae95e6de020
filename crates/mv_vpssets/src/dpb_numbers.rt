//! The numbers of dpb_size for one sub-layer of an output layer set (F.7.3.2.1.3).

ghost use Rattle.std.specs.Prelude.{◌≡◌, false, get_or, length, OnOk};
ghost use Rattle.mv_syntax.specs.Table.{when, Valid};
ghost use Rattle.mv_syntax.specs.Printed.{printed};
ghost use Rattle.mv_fields.specs.Reading.{ReadsBy, ReadsAs};
ghost use Rattle.mv_vpssets.specs.DpbSizes.{buffering, bufferings, dpb_numbers};

use mv_bits::BitReader;
use mv_fields::{Fault, Printer, ue_if, ue_within};
use mv_rules::Rule;
use std::alloc::{AllocError, Global};
use std::marker::Model;

/// What a decoder has to hold for one sub-layer of an output layer set.
#[derive(Debug, Drop)]
pub struct DpbNumbers {
    /// Of each layer of the set, where it is necessary.
    pub max_vps_dec_pic_buffering_minus1: Vec<Option<u32>>,
    pub max_vps_num_reorder_pics: u32,
    pub max_vps_latency_increase_plus1: u32,
}

impl Model for DpbNumbers {
    ghost use Rattle.mv_vpssets.specs.DpbSizes.{DpbNumbersValue};

    ghost Value = { DpbNumbersValue };

    ghost view = { λ n. record {
      max_vps_dec_pic_buffering_minus1 = n.max_vps_dec_pic_buffering_minus1.items;
      max_vps_num_reorder_pics = n.max_vps_num_reorder_pics;
      max_vps_latency_increase_plus1 = n.max_vps_latency_increase_plus1;
    } };
}

// The condition at a place; beyond the last it doesn't hold.
fn holds_at(conditions: &[bool], k: usize) -> bool
    ensures { result ≡ get_or conditions.now k false }
{
    match conditions.get(k) {
        Some(condition) => *condition,
        None => false,
    }
}

#[tactic(auto, unfolding(crate::specs::DpbSizes::buffering))]
fn buffering_of(
    bits: &mut BitReader,
    necessary: &[bool],
    k: usize,
) -> Result<Option<u32>, Fault<Rule>>
    ensures { ReadsBy (buffering necessary.now k) bits.old bits.new result }
{
    Ok(ue_if(bits, holds_at(necessary, k))?)
}

#[tactic(auto, using(mv_syntax::proofs::LoopLaws::item_steps), unfolding(crate::specs::DpbSizes::bufferings))]
fn bufferings_of(
    alloc: Global,
    bits: &mut BitReader,
    necessary: &[bool],
) -> Result<Vec<Option<u32>>, Fault<Rule>>
    ensures { ReadsAs (λ v. v.items) (bufferings necessary.now) bits.old bits.new result }
{
    let end = necessary.len();
    let mut all = Vec::new(alloc);
    for k in 0..end {
        all.push(buffering_of(bits, necessary, k)?)?;
    }
    Ok(all)
}

#[tactic(auto, unfolding(crate::specs::DpbSizes::dpb_numbers))]
fn dpb_numbers_of(
    alloc: Global,
    bits: &mut BitReader,
    necessary: &[bool],
) -> Result<DpbNumbers, Fault<Rule>>
    ensures { ReadsBy (dpb_numbers necessary.now) bits.old bits.new result }
{
    let max_vps_dec_pic_buffering_minus1 = bufferings_of(alloc, bits, necessary)?;
    let max_vps_num_reorder_pics = ue_within(bits, Rule::VpsLimit, 15)?;
    let max_vps_latency_increase_plus1 = bits.ue()?;
    Ok(DpbNumbers {
        max_vps_dec_pic_buffering_minus1,
        max_vps_num_reorder_pics,
        max_vps_latency_increase_plus1,
    })
}

pub(crate) fn dpb_numbers_if(
    alloc: Global,
    bits: &mut BitReader,
    present: bool,
    necessary: &[bool],
) -> Result<Option<DpbNumbers>, Fault<Rule>>
    ensures { ReadsBy (when present (dpb_numbers necessary.now)) bits.old bits.new result }
{
    if !present {
        return Ok(None);
    }
    Ok(Some(dpb_numbers_of(alloc, bits, necessary)?))
}

#[tactic(auto, unfolding(crate::specs::DpbSizes::buffering))]
fn print_buffering(
    out: &mut Printer,
    necessary: &[bool],
    k: usize,
    field: Option<u32>,
) -> Result<(), AllocError>
    requires { Valid (buffering necessary.now k) field }
    ensures { OnOk result (out.new ≡ printed (buffering necessary.now k) field out.old) }
{
    out.ue_if(
        holds_at(necessary, k),
        "max_vps_dec_pic_buffering_minus1",
        field,
    )
}

#[tactic(auto, using(mv_syntax::proofs::PrintingLoops::print_item_steps), unfolding(crate::specs::DpbSizes::bufferings))]
fn print_bufferings(
    out: &mut Printer,
    all: &[Option<u32>],
    necessary: &[bool],
) -> Result<(), AllocError>
    requires { Valid (bufferings necessary.now) all.now }
    ensures { OnOk result (out.new ≡ printed (bufferings necessary.now) all.now out.old) }
{
    for k in 0..all.len() {
        let outer = out.open(k as u64)?;
        print_buffering(out, necessary, k, all[k])?;
        out.close(outer);
    }
    Ok(())
}

#[tactic(auto, unfolding(crate::specs::DpbSizes::dpb_numbers))]
fn print_dpb_numbers(
    out: &mut Printer,
    v: &DpbNumbers,
    necessary: &[bool],
) -> Result<(), AllocError>
    requires { Valid (dpb_numbers necessary.now) v.now }
    ensures { OnOk result (out.new ≡ printed (dpb_numbers necessary.now) v.now out.old) }
{
    print_bufferings(out, &v.max_vps_dec_pic_buffering_minus1, necessary)?;
    out.ue("max_vps_num_reorder_pics", v.max_vps_num_reorder_pics)?;
    out.ue(
        "max_vps_latency_increase_plus1",
        v.max_vps_latency_increase_plus1,
    )?;
    Ok(())
}

pub(crate) fn print_dpb_numbers_if(
    out: &mut Printer,
    present: bool,
    v: &Option<DpbNumbers>,
    necessary: &[bool],
) -> Result<(), AllocError>
    requires { Valid (when present (dpb_numbers necessary.now)) v.now }
    ensures { OnOk result (out.new ≡ printed (when present (dpb_numbers necessary.now)) v.now out.old) }
{
    match v {
        Some(v) => print_dpb_numbers(out, v, necessary),
        None => Ok(()),
    }
}
