//! The long-term reference pictures of a slice segment header.

ghost use Rattle.std.specs.Prelude.{◌≡◌, OnOk};
ghost use Rattle.mv_syntax.specs.Table.{when, Valid};
ghost use Rattle.mv_syntax.specs.Printed.{printed};
ghost use Rattle.mv_fields.specs.Reading.{ReadsBy, ReadsAs};
ghost use Rattle.mv_slice.specs.Context.{Fits};
ghost use Rattle.mv_slice.specs.LongTerms.{long_term, entries, long_terms};

use crate::context::SliceContext;
use mv_bits::BitReader;
use mv_fields::{
    Fault, Printer, clog2, or_zero, u8_below_if, u8_if, u8_of, u16_if, ue_if, ue_within,
    ue_within_if,
};
use mv_rules::Rule;
use std::alloc::{AllocError, Global};
use std::marker::Model;

/// A long-term reference picture: a candidate of the sequence parameter set, or coded here.
#[derive(Clone, Copy, Debug, PartialEq, Eq)]
pub struct LongTerm {
    pub lt_idx_sps: Option<u8>,
    pub poc_lsb_lt: Option<u16>,
    pub used_by_curr_pic_lt_flag: Option<u8>,
    pub delta_poc_msb_present_flag: u8,
    pub delta_poc_msb_cycle_lt: Option<u32>,
}

/// The long-term reference pictures of a slice segment header.
#[derive(Debug, Drop)]
pub struct LongTerms {
    pub num_long_term_sps: Option<u32>,
    pub num_long_term_pics: u32,
    /// First those from the sequence parameter set, then those that are coded here.
    pub entries: Vec<LongTerm>,
}

impl Model for LongTerms {
    ghost use Rattle.mv_slice.specs.LongTerms.{LongTermsValue};

    ghost Value = { LongTermsValue };

    ghost view = { λ s. record {
      num_long_term_sps = s.num_long_term_sps;
      num_long_term_pics = s.num_long_term_pics;
      entries = s.entries.items;
    } };
}

#[tactic(auto, unfolding(crate::specs::LongTerms::long_term))]
fn long_term_of(
    bits: &mut BitReader,
    ctx: &SliceContext,
    num_long_term_sps: u32,
    i: u32,
) -> Result<LongTerm, Fault<Rule>>
    requires { Fits ctx.now }
    ensures { ReadsBy (long_term ctx.now num_long_term_sps i) bits.old bits.new result }
{
    let listed = i < num_long_term_sps;
    let candidates = ctx.num_long_term_ref_pics_sps;
    let lt_idx_sps = u8_below_if(
        bits,
        listed && candidates > 1,
        clog2(candidates, 5),
        Rule::SliceSyntax,
        candidates,
    )?;
    let poc_lsb_lt = u16_if(bits, !listed, ctx.lsb_bits)?;
    let used_by_curr_pic_lt_flag = u8_if(bits, !listed, 1)?;
    let delta_poc_msb_present_flag = u8_of(bits, 1)?;
    let delta_poc_msb_cycle_lt = ue_if(bits, delta_poc_msb_present_flag == 1)?;
    Ok(LongTerm {
        lt_idx_sps,
        poc_lsb_lt,
        used_by_curr_pic_lt_flag,
        delta_poc_msb_present_flag,
        delta_poc_msb_cycle_lt,
    })
}

#[tactic(auto, using(mv_syntax::proofs::LoopLaws::item_steps), unfolding(crate::specs::LongTerms::entries))]
fn entries_of(
    alloc: Global,
    bits: &mut BitReader,
    ctx: &SliceContext,
    num_long_term_sps: u32,
    n: u32,
) -> Result<Vec<LongTerm>, Fault<Rule>>
    requires { Fits ctx.now }
    ensures { ReadsAs (λ v. v.items) (entries ctx.now num_long_term_sps n) bits.old bits.new result }
{
    let mut all = Vec::new(alloc);
    for i in 0..n {
        all.push(long_term_of(bits, ctx, num_long_term_sps, i)?)?;
    }
    Ok(all)
}

#[tactic(auto, unfolding(crate::specs::LongTerms::long_terms))]
fn long_terms_of(
    alloc: Global,
    bits: &mut BitReader,
    ctx: &SliceContext,
) -> Result<LongTerms, Fault<Rule>>
    requires { Fits ctx.now }
    ensures { ReadsBy (long_terms ctx.now) bits.old bits.new result }
{
    let num_long_term_sps = ue_within_if(
        bits,
        ctx.num_long_term_ref_pics_sps > 0,
        Rule::SliceSyntax,
        16,
    )?;
    let num_long_term_pics = ue_within(bits, Rule::SliceSyntax, 16)?;
    let listed = or_zero(num_long_term_sps);
    let entries = entries_of(alloc, bits, ctx, listed, listed + num_long_term_pics)?;
    Ok(LongTerms {
        num_long_term_sps,
        num_long_term_pics,
        entries,
    })
}

pub(crate) fn long_terms_if(
    alloc: Global,
    bits: &mut BitReader,
    ctx: &SliceContext,
    present: bool,
) -> Result<Option<LongTerms>, Fault<Rule>>
    requires { Fits ctx.now }
    ensures { ReadsBy (when present (long_terms ctx.now)) bits.old bits.new result }
{
    if !present {
        return Ok(None);
    }
    Ok(Some(long_terms_of(alloc, bits, ctx)?))
}

#[tactic(auto, unfolding(crate::specs::LongTerms::long_term))]
fn print_long_term(
    out: &mut Printer,
    ctx: &SliceContext,
    num_long_term_sps: u32,
    i: usize,
    v: LongTerm,
) -> Result<(), AllocError>
    requires fits { Fits ctx.now }
    requires valid { Valid (long_term ctx.now num_long_term_sps i) v }
    ensures { OnOk result (out.new ≡ printed (long_term ctx.now num_long_term_sps i) v out.old) }
{
    let listed = (i as u64) < u64::from(num_long_term_sps);
    let candidates = ctx.num_long_term_ref_pics_sps;
    out.u8_below_if(
        listed && candidates > 1,
        "lt_idx_sps",
        clog2(candidates, 5),
        Rule::SliceSyntax,
        candidates,
        v.lt_idx_sps,
    )?;
    out.u16_if(!listed, "poc_lsb_lt", ctx.lsb_bits, v.poc_lsb_lt)?;
    out.flag_if(
        !listed,
        "used_by_curr_pic_lt_flag",
        v.used_by_curr_pic_lt_flag,
    )?;
    out.flag("delta_poc_msb_present_flag", v.delta_poc_msb_present_flag)?;
    out.ue_if(
        v.delta_poc_msb_present_flag == 1,
        "delta_poc_msb_cycle_lt",
        v.delta_poc_msb_cycle_lt,
    )
}

#[tactic(auto, using(mv_syntax::proofs::PrintingLoops::print_item_steps), unfolding(crate::specs::LongTerms::entries))]
fn print_entries(
    out: &mut Printer,
    ctx: &SliceContext,
    num_long_term_sps: u32,
    n: u32,
    all: &[LongTerm],
) -> Result<(), AllocError>
    requires fits { Fits ctx.now }
    requires valid { Valid (entries ctx.now num_long_term_sps n) all.now }
    ensures { OnOk result (out.new ≡ printed (entries ctx.now num_long_term_sps n) all.now out.old) }
{
    for i in 0..all.len() {
        let outer = out.open(i as u64)?;
        print_long_term(out, ctx, num_long_term_sps, i, all[i])?;
        out.close(outer);
    }
    Ok(())
}

#[tactic(auto, unfolding(crate::specs::LongTerms::long_terms))]
fn print_long_terms(out: &mut Printer, ctx: &SliceContext, v: &LongTerms) -> Result<(), AllocError>
    requires fits { Fits ctx.now }
    requires valid { Valid (long_terms ctx.now) v.now }
    ensures { OnOk result (out.new ≡ printed (long_terms ctx.now) v.now out.old) }
{
    let listed = or_zero(v.num_long_term_sps);
    out.ue_within_if(
        ctx.num_long_term_ref_pics_sps > 0,
        "num_long_term_sps",
        Rule::SliceSyntax,
        16,
        v.num_long_term_sps,
    )?;
    out.ue("num_long_term_pics", v.num_long_term_pics)?;
    print_entries(out, ctx, listed, listed + v.num_long_term_pics, &v.entries)
}

pub(crate) fn print_long_terms_if(
    out: &mut Printer,
    ctx: &SliceContext,
    present: bool,
    v: &Option<LongTerms>,
) -> Result<(), AllocError>
    requires fits { Fits ctx.now }
    requires valid { Valid (when present (long_terms ctx.now)) v.now }
    ensures { OnOk result (out.new ≡ printed (when present (long_terms ctx.now)) v.now out.old) }
{
    match v {
        Some(v) => print_long_terms(out, ctx, v),
        None => Ok(()),
    }
}
