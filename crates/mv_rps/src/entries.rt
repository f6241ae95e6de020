//! The entries of a reference picture set.
#![tactic(auto)]

ghost use Rattle.std.specs.Prelude.{◌≡◌, ◌≤◌, ◌<◌, ◌+◌, ◌*◌, ◌^◌, ◌++◌, [], map, length, get_or, OnOk, IfOk, IfSome};
ghost use Rattle.std.specs.List.{enumerate_from, list_any};
ghost use Rattle.mv_syntax.specs.Table.{Valid};
ghost use Rattle.mv_short_sets.specs.Deltas.{deltas_of_each};
ghost use Rattle.mv_slice.specs.Context.{Fits};
ghost use Rattle.mv_slice.specs.Picture.{own_set, references};
ghost use Rattle.mv_slice.specs.LongTerms.{long_terms};
ghost use Rattle.mv_slice.specs.Derived.{short_deltas, is_long_used, long_lsb, cycle};
ghost use Rattle.mv_pictures.specs.SliceFields.{Entry, short_entry, long_entry, long_entries, coded_entries};
ghost use Rattle.mv_rps.specs.RefSet.{aim_of, aimed, entry_of, with_cycle, cycle_before};

use mv_fields::or_zero;
use mv_short_sets::{Delta, ShortArgs, ShortSet};
use mv_slice::{LongTerm, LongTerms, SliceContext, SliceReferences};
use smallvec::SmallVec;
use std::alloc::{AllocError, Global};

/// Which pictures an entry stands for (7.4.8, 7.4.7.1).
#[derive(Clone, Copy, Debug, PartialEq, Eq)]
pub enum CodedAim {
    /// The one at this distance of the picture's count.
    Delta(i32),
    /// Those with these low bits of their count.
    Lsb(u16),
    /// The one with these low bits, so many cycles of MaxPicOrderCntLsb behind the picture.
    Cycle(u16, u64),
}

/// An entry, and whether the picture uses it.
#[derive(Clone, Copy, Debug, PartialEq, Eq)]
pub struct CodedEntry {
    pub aim: CodedAim,
    pub used: bool,
}

impl Default for CodedEntry {
    fn default() -> Self {
        CodedEntry {
            aim: CodedAim::Delta(0),
            used: false,
        }
    }
}

/// Entries: most pictures have at most 15.
pub type Entries = SmallVec<CodedEntry, 16>;

// The deltas of a set of the sequence parameter set; of one that it hasn't, none.
fn deltas_of_sps(alloc: Global, ctx: &SliceContext, idx: u8) -> Result<Vec<Delta>, AllocError>
    requires { Fits ctx.now }
    ensures { IfOk result (λ v. v.items ≡ get_or (deltas_of_each ctx.now.short_sets) idx []) }
{
    let at = usize::from(idx);
    let Some(set) = ctx.short_sets.get(at) else {
        return Ok(Vec::new(alloc));
    };
    let args = ShortArgs {
        idx,
        num: ctx.num_short_term_ref_pic_sets as u8,
        earlier: &ctx.short_sets[..at],
    };
    set.deltas(alloc, &args)
}

// The deltas of the set that is coded, or else of the one of the sequence parameter set that is named.
#[tactic(auto, unfolding(mv_slice::specs::Derived::short_deltas))]
fn short_deltas_of(
    alloc: Global,
    ctx: &SliceContext,
    coded: &Option<ShortSet>,
    idx: Option<u8>,
) -> Result<Vec<Delta>, AllocError>
    requires fits { Fits ctx.now }
    requires valid { IfSome coded.now (λ set. Valid (own_set ctx.now) set) }
    ensures { IfOk result (λ v. v.items ≡ short_deltas ctx.now coded.now idx) }
{
    let num = ctx.num_short_term_ref_pic_sets as u8;
    match coded {
        Some(set) => set.deltas(
            alloc,
            &ShortArgs {
                idx: num,
                num,
                earlier: ctx.short_sets,
            },
        ),
        None => deltas_of_sps(alloc, ctx, idx.unwrap_or(0)),
    }
}

fn short_entry(delta: Delta) -> CodedEntry
    ensures { entry_of result ≡ short_entry delta }
{
    CodedEntry {
        aim: CodedAim::Delta(delta.delta),
        used: delta.used,
    }
}

fn add_short(out: &mut Entries, deltas: &[Delta]) -> Result<(), AllocError>
    ensures { OnOk result (map entry_of out.new.items ≡ map entry_of out.old.items ++ map short_entry deltas.now) }
{
    for i in 0..deltas.len() {
        out.push(short_entry(deltas[i]))?;
    }
    Ok(())
}

// Whether a long-term entry is used: by its own flag, or else by that of its candidate.
#[tactic(auto, unfolding(mv_slice::specs::Derived::is_long_used))]
fn is_used(ctx: &SliceContext, entry: LongTerm) -> bool
    ensures { result ≡ is_long_used ctx.now entry }
{
    if let Some(flag) = entry.used_by_curr_pic_lt_flag {
        return flag == 1;
    }
    let candidate = usize::from(entry.lt_idx_sps.unwrap_or(0));
    match ctx.used_by_curr_pic_lt_sps_flag.get(candidate) {
        Some(flag) => *flag == 1,
        None => false,
    }
}

// The low bits of a long-term entry: its own, or else those of its candidate.
fn long_lsb(ctx: &SliceContext, entry: LongTerm) -> u16
    ensures { result ≡ long_lsb ctx.now entry }
{
    if let Some(lsb) = entry.poc_lsb_lt {
        return lsb;
    }
    let candidate = usize::from(entry.lt_idx_sps.unwrap_or(0));
    match ctx.lt_ref_pic_poc_lsb_sps.get(candidate) {
        Some(lsb) => *lsb,
        None => 0,
    }
}

fn long_aim(lsb: u16, present: u8, cycle: u64) -> CodedAim
    ensures { aim_of result ≡ aimed present lsb cycle }
{
    if present == 1 {
        CodedAim::Cycle(lsb, cycle)
    } else {
        CodedAim::Lsb(lsb)
    }
}

fn long_entry(ctx: &SliceContext, entry: LongTerm, cycle: u64) -> CodedEntry
    ensures { entry_of result ≡ with_cycle ctx.now entry cycle }
{
    CodedEntry {
        aim: long_aim(
            long_lsb(ctx, entry),
            entry.delta_poc_msb_present_flag,
            cycle,
        ),
        used: is_used(ctx, entry),
    }
}

// DeltaPocMsbCycleLt of an entry (7-52), behind that of the entry before.
fn cycle_of(long_terms: &LongTerms, i: usize, before: u64) -> u64
    requires within { i < length long_terms.now.entries }
    requires few { i < 64 }
    requires before { before ≡ cycle_before long_terms.now i }
    requires low { before ≤ i * 2 ^ 32 }
    ensures is { result ≡ cycle long_terms.now i }
    ensures low { result ≤ (i + 1) * 2 ^ 32 }
{
    let coded = u64::from(or_zero(long_terms.entries[i].delta_poc_msb_cycle_lt));
    if i == or_zero(long_terms.num_long_term_sps) as usize {
        coded
    } else {
        coded + before
    }
}

fn add_long(out: &mut Entries, ctx: &SliceContext, long_terms: &LongTerms) -> Result<(), AllocError>
    requires { length long_terms.now.entries ≤ 32 }
    ensures { OnOk result (map entry_of out.new.items ≡ map entry_of out.old.items ++ map (long_entry ctx.now long_terms.now) (enumerate_from 0 long_terms.now.entries)) }
{
    let mut cycle = 0;
    for i in 0..long_terms.entries.len() {
        cycle = cycle_of(long_terms, i, cycle);
        out.push(long_entry(ctx, long_terms.entries[i], cycle))?;
    }
    Ok(())
}

fn add_long_if(
    out: &mut Entries,
    ctx: &SliceContext,
    coded: &Option<LongTerms>,
) -> Result<(), AllocError>
    requires { IfSome coded.now (λ some. Valid (long_terms ctx.now) some) }
    ensures { OnOk result (map entry_of out.new.items ≡ map entry_of out.old.items ++ long_entries ctx.now coded.now) }
{
    match coded {
        Some(some) => add_long(out, ctx, some),
        None => Ok(()),
    }
}

/// The entries of a header's reference picture set.
pub fn entries_of(
    alloc: Global,
    ctx: &SliceContext,
    coded: &SliceReferences,
) -> Result<Entries, AllocError>
    requires fits { Fits ctx.now }
    requires valid { Valid (references ctx.now) coded.now }
    ensures { IfOk result (λ v. map entry_of v.items ≡ coded_entries ctx.now coded.now) }
{
    let mut out = SmallVec::new(alloc);
    let deltas = short_deltas_of(
        alloc,
        ctx,
        &coded.st_ref_pic_set,
        coded.short_term_ref_pic_set_idx,
    )?;
    add_short(&mut out, &deltas)?;
    add_long_if(&mut out, ctx, &coded.long_terms)?;
    Ok(out)
}
