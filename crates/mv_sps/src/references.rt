ghost use Rattle.std.specs.Prelude.{◌≡◌, ◌≤◌, OnOk};
ghost use Rattle.mv_syntax.specs.Table.{Valid};
ghost use Rattle.mv_syntax.specs.Printed.{printed};
ghost use Rattle.mv_fields.specs.Reading.{ReadsBy, ReadsAs};
ghost use Rattle.mv_short_sets.specs.ShortSet.{AreShortArgs};
ghost use Rattle.mv_sps.specs.References.{short_set, short_sets, candidate, candidates, references};

use mv_bits::BitReader;
use mv_fields::{Fault, Printer, u8_of, u16_of, ue_within, ue_within_if, under};
use mv_rules::Rule;
use mv_short_sets::{ShortArgs, ShortSet};
use std::alloc::{AllocError, Global};
use std::marker::Model;

/// The sets of short-term reference pictures, and the candidates for long-term ones: the low bits of their picture order
/// counts, and whether they are used. The lists of candidates are empty where none are coded.
#[derive(Debug, Drop)]
pub struct SpsReferences {
    pub num_short_term_ref_pic_sets: u32,
    pub st_ref_pic_set: Vec<ShortSet>,
    pub long_term_ref_pics_present_flag: u8,
    pub num_long_term_ref_pics_sps: Option<u32>,
    pub lt_ref_pic_poc_lsb_sps: Vec<u16>,
    pub used_by_curr_pic_lt_sps_flag: Vec<u8>,
}

impl Model for SpsReferences {
    ghost use Rattle.mv_sps.specs.References.{SpsReferencesValue};

    ghost Value = { SpsReferencesValue };

    ghost view = { λ r. record {
      num_short_term_ref_pic_sets = r.num_short_term_ref_pic_sets;
      st_ref_pic_set = r.st_ref_pic_set.items;
      long_term_ref_pics_present_flag = r.long_term_ref_pics_present_flag;
      num_long_term_ref_pics_sps = r.num_long_term_ref_pics_sps;
      lt_ref_pic_poc_lsb_sps = r.lt_ref_pic_poc_lsb_sps.items;
      used_by_curr_pic_lt_sps_flag = r.used_by_curr_pic_lt_sps_flag.items;
    } };
}

/// The next set, behind the sets before it.
#[tactic(auto, using(mv_fields::proofs::Shared::shared_steps), unfolding(crate::specs::References::short_set))]
fn short_set_of(
    alloc: Global,
    bits: &mut BitReader,
    num: u8,
    i: u8,
    earlier: &[ShortSet],
) -> Result<ShortSet, Fault<Rule>>
    requires { AreShortArgs i num earlier.now }
    ensures { ReadsBy (short_set num i earlier.now) bits.old bits.new result }
{
    let args = ShortArgs {
        idx: i,
        num,
        earlier,
    };
    under(Rule::SpsLimit, ShortSet::read(alloc, bits, &args))
}

#[tactic(auto, using(mv_syntax::proofs::LoopLaws::item_steps, crate::proofs::Sets::set_pushed), unfolding(crate::specs::References::short_sets))]
fn short_sets_of(alloc: Global, bits: &mut BitReader, num: u8) -> Result<Vec<ShortSet>, Fault<Rule>>
    requires { num ≤ 64 }
    ensures { ReadsAs (λ v. v.items) (short_sets num) bits.old bits.new result }
{
    let mut sets = Vec::new(alloc);
    for i in 0..num {
        sets.push(short_set_of(alloc, bits, num, i, &sets)?)?;
    }
    Ok(sets)
}

#[tactic(auto, unfolding(crate::specs::References::candidate))]
fn candidate_of(bits: &mut BitReader, lsb_bits: u8) -> Result<(u16, u8), Fault<Rule>>
    requires { lsb_bits ≤ 16 }
    ensures { ReadsBy (candidate lsb_bits) bits.old bits.new result }
{
    let lsb = u16_of(bits, lsb_bits)?;
    let used = u8_of(bits, 1)?;
    Ok((lsb, used))
}

#[tactic(auto, using(mv_syntax::proofs::LoopLaws::column_steps), unfolding(crate::specs::References::candidates, mv_syntax::specs::Loops::each))]
fn candidates_of(
    alloc: Global,
    bits: &mut BitReader,
    lsb_bits: u8,
    n: u32,
) -> Result<(Vec<u16>, Vec<u8>), Fault<Rule>>
    requires { lsb_bits ≤ 16 }
    ensures { ReadsAs (λ v. (v.0.items, v.1.items)) (candidates lsb_bits n) bits.old bits.new result }
{
    let mut lsbs = Vec::new(alloc);
    let mut used = Vec::new(alloc);
    for i in 0..n {
        let fields = candidate_of(bits, lsb_bits)?;
        lsbs.push(fields.0)?;
        used.push(fields.1)?;
    }
    Ok((lsbs, used))
}

#[tactic(auto, unfolding(crate::specs::References::references))]
pub(crate) fn references_of(
    alloc: Global,
    bits: &mut BitReader,
    lsb_bits: u8,
) -> Result<SpsReferences, Fault<Rule>>
    requires { lsb_bits ≤ 16 }
    ensures { ReadsBy (references lsb_bits) bits.old bits.new result }
{
    let num_short_term_ref_pic_sets = ue_within(bits, Rule::SpsLimit, 64)?;
    let st_ref_pic_set = short_sets_of(alloc, bits, num_short_term_ref_pic_sets as u8)?;
    let long_term_ref_pics_present_flag = u8_of(bits, 1)?;
    let num_long_term_ref_pics_sps = ue_within_if(
        bits,
        long_term_ref_pics_present_flag == 1,
        Rule::SpsLimit,
        32,
    )?;
    let n = num_long_term_ref_pics_sps.unwrap_or(0);
    let long = candidates_of(alloc, bits, lsb_bits, n)?;
    Ok(SpsReferences {
        num_short_term_ref_pic_sets,
        st_ref_pic_set,
        long_term_ref_pics_present_flag,
        num_long_term_ref_pics_sps,
        lt_ref_pic_poc_lsb_sps: long.0,
        used_by_curr_pic_lt_sps_flag: long.1,
    })
}

#[tactic(auto, unfolding(crate::specs::References::short_set))]
fn print_short_set(
    out: &mut Printer,
    v: &ShortSet,
    num: u8,
    i: u8,
    earlier: &[ShortSet],
) -> Result<(), AllocError>
    requires { Valid (short_set num i earlier.now) v.now }
    ensures { OnOk result (out.new ≡ printed (short_set num i earlier.now) v.now out.old) }
{
    let args = ShortArgs {
        idx: i,
        num,
        earlier,
    };
    v.print(out, &args)
}

#[tactic(auto, using(mv_syntax::proofs::PrintingLoops::print_item_steps), unfolding(crate::specs::References::short_sets))]
fn print_short_sets(out: &mut Printer, sets: &[ShortSet], num: u8) -> Result<(), AllocError>
    requires few { num ≤ 64 }
    requires valid { Valid (short_sets num) sets.now }
    ensures { OnOk result (out.new ≡ printed (short_sets num) sets.now out.old) }
{
    for i in 0..num {
        let k = usize::from(i);
        let outer = out.open(u64::from(i))?;
        print_short_set(out, &sets[k], num, i, &sets[..k])?;
        out.close(outer);
    }
    Ok(())
}

#[tactic(auto, unfolding(crate::specs::References::candidate))]
fn print_candidate(out: &mut Printer, lsb: u16, used: u8, lsb_bits: u8) -> Result<(), AllocError>
    requires width { lsb_bits ≤ 16 }
    requires valid { Valid (candidate lsb_bits) (lsb, used) }
    ensures { OnOk result (out.new ≡ printed (candidate lsb_bits) (lsb, used) out.old) }
{
    out.u16("lt_ref_pic_poc_lsb_sps", lsb_bits, lsb)?;
    out.flag("used_by_curr_pic_lt_sps_flag", used)
}

#[tactic(auto, using(mv_syntax::proofs::PrintingLoops::print_column_steps), unfolding(crate::specs::References::candidates, mv_syntax::specs::Loops::each))]
fn print_candidates(
    out: &mut Printer,
    lsbs: &[u16],
    used: &[u8],
    lsb_bits: u8,
    n: u32,
) -> Result<(), AllocError>
    requires width { lsb_bits ≤ 16 }
    requires valid { Valid (candidates lsb_bits n) (lsbs.now, used.now) }
    ensures { OnOk result (out.new ≡ printed (candidates lsb_bits n) (lsbs.now, used.now) out.old) }
{
    for i in 0..lsbs.len() {
        let outer = out.open(i as u64)?;
        print_candidate(out, lsbs[i], used[i], lsb_bits)?;
        out.close(outer);
    }
    Ok(())
}

#[tactic(auto, unfolding(crate::specs::References::references))]
pub(crate) fn print_references(
    out: &mut Printer,
    v: &SpsReferences,
    lsb_bits: u8,
) -> Result<(), AllocError>
    requires width { lsb_bits ≤ 16 }
    requires valid { Valid (references lsb_bits) v.now }
    ensures { OnOk result (out.new ≡ printed (references lsb_bits) v.now out.old) }
{
    let n = v.num_long_term_ref_pics_sps.unwrap_or(0);
    let present = v.long_term_ref_pics_present_flag == 1;
    out.ue("num_short_term_ref_pic_sets", v.num_short_term_ref_pic_sets)?;
    print_short_sets(out, &v.st_ref_pic_set, v.num_short_term_ref_pic_sets as u8)?;
    out.flag(
        "long_term_ref_pics_present_flag",
        v.long_term_ref_pics_present_flag,
    )?;
    out.ue_if(
        present,
        "num_long_term_ref_pics_sps",
        v.num_long_term_ref_pics_sps,
    )?;
    print_candidates(
        out,
        &v.lt_ref_pic_poc_lsb_sps,
        &v.used_by_curr_pic_lt_sps_flag,
        lsb_bits,
        n,
    )?;
    Ok(())
}
