ghost use Rattle.std.specs.Prelude.{◌≡◌, OnOk, option_map};
ghost use Rattle.mv_syntax.specs.Table.{when, Valid};
ghost use Rattle.mv_syntax.specs.Printed.{printed};
ghost use Rattle.mv_fields.specs.Reading.{ReadsShared, ReadsSharedAs};
ghost use Rattle.mv_common.specs.Hrd.{cpb, sub_layer_hrd};

use mv_bits::BitReader;
use mv_fields::{Fault, Limit, Printer, u8_of, ue_if};
use std::alloc::{AllocError, Global};

/// One turn of sub_layer_hrd_parameters (E.2.3): a delivery schedule of a coded picture buffer.
#[derive(Clone, Copy, Debug, PartialEq, Eq)]
pub struct Cpb {
    pub bit_rate_value_minus1: u32,
    pub cpb_size_value_minus1: u32,
    pub cpb_size_du_value_minus1: Option<u32>,
    pub bit_rate_du_value_minus1: Option<u32>,
    pub cbr_flag: u8,
}

#[tactic(auto, unfolding(crate::specs::Hrd::cpb))]
fn cpb_of(bits: &mut BitReader, sub_pic: bool, k: u64) -> Result<Cpb, Fault<Limit>>
    ensures { ReadsShared (cpb sub_pic k) bits.old bits.new result }
{
    Ok(Cpb {
        bit_rate_value_minus1: bits.ue()?,
        cpb_size_value_minus1: bits.ue()?,
        cpb_size_du_value_minus1: ue_if(bits, sub_pic)?,
        bit_rate_du_value_minus1: ue_if(bits, sub_pic)?,
        cbr_flag: u8_of(bits, 1)?,
    })
}

#[tactic(auto, unfolding(crate::specs::Hrd::cpb))]
fn print_cpb(out: &mut Printer, v: &Cpb, sub_pic: bool, k: usize) -> Result<(), AllocError>
    requires { Valid (cpb sub_pic k) v.now }
    ensures { OnOk result (out.new ≡ printed (cpb sub_pic k) v.now out.old) }
{
    out.ue("bit_rate_value_minus1", v.bit_rate_value_minus1)?;
    out.ue("cpb_size_value_minus1", v.cpb_size_value_minus1)?;
    out.ue_if(
        sub_pic,
        "cpb_size_du_value_minus1",
        v.cpb_size_du_value_minus1,
    )?;
    out.ue_if(
        sub_pic,
        "bit_rate_du_value_minus1",
        v.bit_rate_du_value_minus1,
    )?;
    out.flag("cbr_flag", v.cbr_flag)
}

#[tactic(auto, using(mv_syntax::proofs::LoopLaws::item_steps), unfolding(crate::specs::Hrd::sub_layer_hrd))]
fn sub_layer_hrd_of(
    alloc: Global,
    bits: &mut BitReader,
    sub_pic: bool,
    cpb_cnt_minus1: u32,
) -> Result<Vec<Cpb>, Fault<Limit>>
    ensures { ReadsSharedAs (λ v. v.items) (sub_layer_hrd sub_pic cpb_cnt_minus1) bits.old bits.new result }
{
    let turns = u64::from(cpb_cnt_minus1) + 1;
    let mut cpbs = Vec::new(alloc);
    for k in 0..turns {
        cpbs.push(cpb_of(bits, sub_pic, k)?)?;
    }
    Ok(cpbs)
}

pub(crate) fn sub_layer_hrd_if(
    alloc: Global,
    bits: &mut BitReader,
    present: bool,
    sub_pic: bool,
    cpb_cnt_minus1: u32,
) -> Result<Option<Vec<Cpb>>, Fault<Limit>>
    ensures { ReadsSharedAs (λ o. option_map (λ v. v.items) o) (when present (sub_layer_hrd sub_pic cpb_cnt_minus1)) bits.old bits.new result }
{
    if !present {
        return Ok(None);
    }
    Ok(Some(sub_layer_hrd_of(alloc, bits, sub_pic, cpb_cnt_minus1)?))
}

#[tactic(auto, using(mv_syntax::proofs::PrintingLoops::print_item_steps), unfolding(crate::specs::Hrd::sub_layer_hrd))]
fn print_sub_layer_hrd(
    out: &mut Printer,
    cpbs: &[Cpb],
    sub_pic: bool,
    cpb_cnt_minus1: u32,
) -> Result<(), AllocError>
    requires { Valid (sub_layer_hrd sub_pic cpb_cnt_minus1) cpbs.now }
    ensures { OnOk result (out.new ≡ printed (sub_layer_hrd sub_pic cpb_cnt_minus1) cpbs.now out.old) }
{
    for k in 0..cpbs.len() {
        let outer = out.open(k as u64)?;
        print_cpb(out, &cpbs[k], sub_pic, k)?;
        out.close(outer);
    }
    Ok(())
}

pub(crate) fn print_sub_layer_hrd_if(
    out: &mut Printer,
    present: bool,
    cpbs: &Option<Vec<Cpb>>,
    sub_pic: bool,
    cpb_cnt_minus1: u32,
) -> Result<(), AllocError>
    requires { Valid (when present (sub_layer_hrd sub_pic cpb_cnt_minus1)) (option_map (λ v. v.items) cpbs.now) }
    ensures { OnOk result (out.new ≡ printed (when present (sub_layer_hrd sub_pic cpb_cnt_minus1)) (option_map (λ v. v.items) cpbs.now) out.old) }
{
    match cpbs {
        Some(cpbs) => print_sub_layer_hrd(out, cpbs, sub_pic, cpb_cnt_minus1),
        None => Ok(()),
    }
}
