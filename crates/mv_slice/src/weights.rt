//! pred_weight_table (7.3.6.3): read, and printed.

ghost use Rattle.std.specs.Prelude.{◌≡◌, OnOk, option_map, [], nat_eq, if◌then◌else◌};
ghost use Rattle.mv_syntax.specs.Table.{when, Valid};
ghost use Rattle.mv_syntax.specs.Words.{◌otherwise◌};
ghost use Rattle.mv_syntax.specs.Printed.{printed};
ghost use Rattle.mv_fields.specs.Reading.{ReadsBy, ReadsAs};
ghost use Rattle.mv_slice.specs.Weights.{chroma_weight, chroma_weights, flag_at, entry_weights, entry_weights_of_all, list_weights, numbered_list, lists_weights, pred_weight_table};

use crate::active_entries::ActiveEntries;
use mv_bits::BitReader;
use mv_fields::{Fault, Printer, se_if, u8s_if, u8s_of};
use mv_rules::Rule;
use std::alloc::{AllocError, Global};
use std::marker::Model;

/// The weight of a chroma component.
#[derive(Clone, Copy, Debug, PartialEq, Eq)]
pub struct ChromaWeight {
    pub delta_chroma_weight: i32,
    pub delta_chroma_offset: i32,
}

/// The weights of one entry of a reference picture list.
#[derive(Debug, Drop)]
pub struct EntryWeights {
    pub delta_luma_weight: Option<i32>,
    pub luma_offset: Option<i32>,
    /// That of Cb and that of Cr.
    pub chroma: Option<Vec<ChromaWeight>>,
}

impl Model for EntryWeights {
    ghost use Rattle.std.specs.Prelude.{option_map};
    ghost use Rattle.mv_slice.specs.Weights.{EntryWeightsValue};

    ghost Value = { EntryWeightsValue };

    ghost view = { λ s. record {
      delta_luma_weight = s.delta_luma_weight;
      luma_offset = s.luma_offset;
      chroma = option_map (λ v. v.items) s.chroma;
    } };
}

/// The weights of a reference picture list.
#[derive(Debug, Drop)]
pub struct ListWeights {
    pub luma_weight_flag: Vec<u8>,
    pub chroma_weight_flag: Option<Vec<u8>>,
    pub entries: Vec<EntryWeights>,
}

impl Model for ListWeights {
    ghost use Rattle.std.specs.Prelude.{option_map};
    ghost use Rattle.mv_slice.specs.Weights.{ListWeightsValue};

    ghost Value = { ListWeightsValue };

    ghost view = { λ s. record {
      luma_weight_flag = s.luma_weight_flag.items;
      chroma_weight_flag = option_map (λ v. v.items) s.chroma_weight_flag;
      entries = s.entries.items;
    } };
}

/// pred_weight_table (7.3.6.3).
#[derive(Debug, Drop)]
pub struct PredWeightTable {
    pub luma_log2_weight_denom: u32,
    pub delta_chroma_log2_weight_denom: Option<i32>,
    /// List 0, and for a B slice list 1.
    pub lists: Vec<ListWeights>,
}

impl Model for PredWeightTable {
    ghost use Rattle.mv_slice.specs.Weights.{PredWeightTableValue};

    ghost Value = { PredWeightTableValue };

    ghost view = { λ s. record {
      luma_log2_weight_denom = s.luma_log2_weight_denom;
      delta_chroma_log2_weight_denom = s.delta_chroma_log2_weight_denom;
      lists = s.lists.items;
    } };
}

#[tactic(auto, unfolding(crate::specs::Weights::chroma_weight))]
fn chroma_weight_of(bits: &mut BitReader) -> Result<ChromaWeight, Fault<Rule>>
    ensures { ReadsBy chroma_weight bits.old bits.new result }
{
    let delta_chroma_weight = bits.se()?;
    let delta_chroma_offset = bits.se()?;
    Ok(ChromaWeight {
        delta_chroma_weight,
        delta_chroma_offset,
    })
}

#[tactic(auto, using(mv_syntax::proofs::LoopLaws::item_steps), unfolding(crate::specs::Weights::chroma_weights, mv_syntax::specs::Loops::each))]
fn chroma_weights_of(alloc: Global, bits: &mut BitReader) -> Result<Vec<ChromaWeight>, Fault<Rule>>
    ensures { ReadsAs (λ v. v.items) chroma_weights bits.old bits.new result }
{
    let mut all = Vec::new(alloc);
    for i in 0u32..2 {
        all.push(chroma_weight_of(bits)?)?;
    }
    Ok(all)
}

fn chroma_weights_if(
    alloc: Global,
    bits: &mut BitReader,
    present: bool,
) -> Result<Option<Vec<ChromaWeight>>, Fault<Rule>>
    ensures { ReadsAs (λ o. option_map (λ v. v.items) o) (when present chroma_weights) bits.old bits.new result }
{
    if !present {
        return Ok(None);
    }
    Ok(Some(chroma_weights_of(alloc, bits)?))
}

/// Whether flag i is coded and is 1.
fn flag_at(flags: &[u8], i: usize) -> bool
    ensures { result ≡ flag_at flags.now i }
{
    i < flags.len() && flags[i] == 1
}

#[tactic(auto, unfolding(crate::specs::Weights::entry_weights))]
fn entry_weights_of(
    alloc: Global,
    bits: &mut BitReader,
    luma: &[u8],
    chroma: &[u8],
    i: u32,
) -> Result<EntryWeights, Fault<Rule>>
    ensures { ReadsBy (entry_weights luma.now chroma.now i) bits.old bits.new result }
{
    let of_luma = flag_at(luma, i as usize);
    let delta_luma_weight = se_if(bits, of_luma)?;
    let luma_offset = se_if(bits, of_luma)?;
    let chroma = chroma_weights_if(alloc, bits, flag_at(chroma, i as usize))?;
    Ok(EntryWeights {
        delta_luma_weight,
        luma_offset,
        chroma,
    })
}

#[tactic(auto, using(mv_syntax::proofs::LoopLaws::item_steps), unfolding(crate::specs::Weights::entry_weights_of_all))]
fn entries_of(
    alloc: Global,
    bits: &mut BitReader,
    luma: &[u8],
    chroma: &[u8],
    n: u32,
) -> Result<Vec<EntryWeights>, Fault<Rule>>
    ensures { ReadsAs (λ v. v.items) (entry_weights_of_all luma.now chroma.now n) bits.old bits.new result }
{
    let mut all = Vec::new(alloc);
    for i in 0..n {
        all.push(entry_weights_of(alloc, bits, luma, chroma, i)?)?;
    }
    Ok(all)
}

/// The flags of a list, none where they are not coded.
fn flags_or_none(flags: &Option<Vec<u8>>) -> &[u8]
    ensures { result.now ≡ (option_map (λ v. v.items) flags.now otherwise []) }
{
    match flags {
        Some(flags) => flags,
        None => &[],
    }
}

#[tactic(auto, unfolding(crate::specs::Weights::list_weights))]
fn list_weights_of(
    alloc: Global,
    bits: &mut BitReader,
    chroma: bool,
    active: u32,
) -> Result<ListWeights, Fault<Rule>>
    ensures { ReadsBy (list_weights chroma active) bits.old bits.new result }
{
    let luma_weight_flag = u8s_of(alloc, bits, active, 1)?;
    let chroma_weight_flag = u8s_if(alloc, bits, chroma, active, 1)?;
    let entries = entries_of(
        alloc,
        bits,
        &luma_weight_flag,
        flags_or_none(&chroma_weight_flag),
        active,
    )?;
    Ok(ListWeights {
        luma_weight_flag,
        chroma_weight_flag,
        entries,
    })
}

#[tactic(auto, unfolding(crate::specs::Weights::numbered_list))]
fn numbered_list_of(
    alloc: Global,
    bits: &mut BitReader,
    chroma: bool,
    active: ActiveEntries,
    list: u32,
) -> Result<ListWeights, Fault<Rule>>
    ensures { ReadsBy (numbered_list chroma active.l0 active.l1 list) bits.old bits.new result }
{
    if list == 0 {
        list_weights_of(alloc, bits, chroma, active.l0)
    } else {
        list_weights_of(alloc, bits, chroma, active.l1)
    }
}

#[tactic(auto, using(mv_syntax::proofs::LoopLaws::item_steps), unfolding(crate::specs::Weights::lists_weights))]
fn lists_weights_of(
    alloc: Global,
    bits: &mut BitReader,
    chroma: bool,
    active: ActiveEntries,
    n: u32,
) -> Result<Vec<ListWeights>, Fault<Rule>>
    ensures { ReadsAs (λ v. v.items) (lists_weights chroma active.l0 active.l1 n) bits.old bits.new result }
{
    let mut all = Vec::new(alloc);
    for i in 0..n {
        all.push(numbered_list_of(alloc, bits, chroma, active, i)?)?;
    }
    Ok(all)
}

/// List 0, and for a B slice list 1.
fn num_lists(b: bool) -> u32
    ensures { result ≡ if b then 2 else 1 }
{
    if b { 2 } else { 1 }
}

#[tactic(auto, unfolding(crate::specs::Weights::pred_weight_table))]
fn pred_weight_table_of(
    alloc: Global,
    bits: &mut BitReader,
    chroma: bool,
    b: bool,
    active: ActiveEntries,
) -> Result<PredWeightTable, Fault<Rule>>
    ensures { ReadsBy (pred_weight_table chroma b active.l0 active.l1) bits.old bits.new result }
{
    let luma_log2_weight_denom = bits.ue()?;
    let delta_chroma_log2_weight_denom = se_if(bits, chroma)?;
    let lists = lists_weights_of(alloc, bits, chroma, active, num_lists(b))?;
    Ok(PredWeightTable {
        luma_log2_weight_denom,
        delta_chroma_log2_weight_denom,
        lists,
    })
}

pub(crate) fn pred_weight_table_if(
    alloc: Global,
    bits: &mut BitReader,
    present: bool,
    chroma: bool,
    b: bool,
    active: ActiveEntries,
) -> Result<Option<PredWeightTable>, Fault<Rule>>
    ensures { ReadsBy (when present (pred_weight_table chroma b active.l0 active.l1)) bits.old bits.new result }
{
    if !present {
        return Ok(None);
    }
    Ok(Some(pred_weight_table_of(alloc, bits, chroma, b, active)?))
}

#[tactic(auto, unfolding(crate::specs::Weights::chroma_weight))]
fn print_chroma_weight(out: &mut Printer, v: ChromaWeight) -> Result<(), AllocError>
    requires { Valid chroma_weight v }
    ensures { OnOk result (out.new ≡ printed chroma_weight v out.old) }
{
    out.se("delta_chroma_weight", v.delta_chroma_weight)?;
    out.se("delta_chroma_offset", v.delta_chroma_offset)
}

#[tactic(auto, using(mv_syntax::proofs::PrintingLoops::print_item_steps), unfolding(crate::specs::Weights::chroma_weights, mv_syntax::specs::Loops::each))]
fn print_chroma_weights(out: &mut Printer, all: &[ChromaWeight]) -> Result<(), AllocError>
    requires { Valid chroma_weights all.now }
    ensures { OnOk result (out.new ≡ printed chroma_weights all.now out.old) }
{
    for j in 0..all.len() {
        let outer = out.open(j as u64)?;
        print_chroma_weight(out, all[j])?;
        out.close(outer);
    }
    Ok(())
}

fn print_chroma_weights_if(
    out: &mut Printer,
    present: bool,
    all: &Option<Vec<ChromaWeight>>,
) -> Result<(), AllocError>
    requires { Valid (when present chroma_weights) (option_map (λ v. v.items) all.now) }
    ensures { OnOk result (out.new ≡ printed (when present chroma_weights) (option_map (λ v. v.items) all.now) out.old) }
{
    match all {
        Some(all) => print_chroma_weights(out, all),
        None => Ok(()),
    }
}

#[tactic(auto, unfolding(crate::specs::Weights::entry_weights))]
fn print_entry_weights(
    out: &mut Printer,
    luma: &[u8],
    chroma: &[u8],
    i: usize,
    v: &EntryWeights,
) -> Result<(), AllocError>
    requires { Valid (entry_weights luma.now chroma.now i) v.now }
    ensures { OnOk result (out.new ≡ printed (entry_weights luma.now chroma.now i) v.now out.old) }
{
    let of_luma = flag_at(luma, i);
    out.se_if(of_luma, "delta_luma_weight", v.delta_luma_weight)?;
    out.se_if(of_luma, "luma_offset", v.luma_offset)?;
    print_chroma_weights_if(out, flag_at(chroma, i), &v.chroma)
}

#[tactic(auto, using(mv_syntax::proofs::PrintingLoops::print_item_steps), unfolding(crate::specs::Weights::entry_weights_of_all))]
fn print_entries(
    out: &mut Printer,
    luma: &[u8],
    chroma: &[u8],
    n: u32,
    all: &[EntryWeights],
) -> Result<(), AllocError>
    requires { Valid (entry_weights_of_all luma.now chroma.now n) all.now }
    ensures { OnOk result (out.new ≡ printed (entry_weights_of_all luma.now chroma.now n) all.now out.old) }
{
    for i in 0..all.len() {
        let outer = out.open(i as u64)?;
        print_entry_weights(out, luma, chroma, i, &all[i])?;
        out.close(outer);
    }
    Ok(())
}

#[tactic(auto, unfolding(crate::specs::Weights::list_weights))]
fn print_list_weights(
    out: &mut Printer,
    chroma: bool,
    active: u32,
    v: &ListWeights,
) -> Result<(), AllocError>
    requires { Valid (list_weights chroma active) v.now }
    ensures { OnOk result (out.new ≡ printed (list_weights chroma active) v.now out.old) }
{
    let of_chroma = flags_or_none(&v.chroma_weight_flag);
    out.u8s("luma_weight_flag", 0, active, 1, &v.luma_weight_flag)?;
    out.u8s_if(
        chroma,
        "chroma_weight_flag",
        0,
        active,
        1,
        &v.chroma_weight_flag,
    )?;
    print_entries(out, &v.luma_weight_flag, of_chroma, active, &v.entries)
}

#[tactic(auto, unfolding(crate::specs::Weights::numbered_list))]
fn print_numbered_list(
    out: &mut Printer,
    chroma: bool,
    active: ActiveEntries,
    list: usize,
    v: &ListWeights,
) -> Result<(), AllocError>
    requires { Valid (numbered_list chroma active.l0 active.l1 list) v.now }
    ensures { OnOk result (out.new ≡ printed (numbered_list chroma active.l0 active.l1 list) v.now out.old) }
{
    if list == 0 {
        print_list_weights(out, chroma, active.l0, v)
    } else {
        print_list_weights(out, chroma, active.l1, v)
    }
}

#[tactic(auto, using(mv_syntax::proofs::PrintingLoops::print_item_steps), unfolding(crate::specs::Weights::lists_weights))]
fn print_lists_weights(
    out: &mut Printer,
    chroma: bool,
    active: ActiveEntries,
    n: u32,
    all: &[ListWeights],
) -> Result<(), AllocError>
    requires { Valid (lists_weights chroma active.l0 active.l1 n) all.now }
    ensures { OnOk result (out.new ≡ printed (lists_weights chroma active.l0 active.l1 n) all.now out.old) }
{
    for i in 0..all.len() {
        let outer = out.open(i as u64)?;
        print_numbered_list(out, chroma, active, i, &all[i])?;
        out.close(outer);
    }
    Ok(())
}

#[tactic(auto, unfolding(crate::specs::Weights::pred_weight_table))]
fn print_pred_weight_table(
    out: &mut Printer,
    v: &PredWeightTable,
    chroma: bool,
    b: bool,
    active: ActiveEntries,
) -> Result<(), AllocError>
    requires { Valid (pred_weight_table chroma b active.l0 active.l1) v.now }
    ensures { OnOk result (out.new ≡ printed (pred_weight_table chroma b active.l0 active.l1) v.now out.old) }
{
    out.ue("luma_log2_weight_denom", v.luma_log2_weight_denom)?;
    out.se_if(
        chroma,
        "delta_chroma_log2_weight_denom",
        v.delta_chroma_log2_weight_denom,
    )?;
    print_lists_weights(out, chroma, active, num_lists(b), &v.lists)
}

pub(crate) fn print_pred_weight_table_if(
    out: &mut Printer,
    present: bool,
    v: &Option<PredWeightTable>,
    chroma: bool,
    b: bool,
    active: ActiveEntries,
) -> Result<(), AllocError>
    requires { Valid (when present (pred_weight_table chroma b active.l0 active.l1)) v.now }
    ensures { OnOk result (out.new ≡ printed (when present (pred_weight_table chroma b active.l0 active.l1)) v.now out.old) }
{
    match v {
        Some(v) => print_pred_weight_table(out, v, chroma, b, active),
        None => Ok(()),
    }
}
