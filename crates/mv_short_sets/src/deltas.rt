//! The deltas of a short-term reference picture set (7.4.8).

ghost use Rattle.std.specs.Prelude.{◌≡◌, ◌+◌, ◌-◌, ◌^◌, ◌<◌, ◌≤◌, ◌&&◌, ◌++◌, [], ◌∷◌, length, get_or, reverse, pos, neg_ℤ, ◌≤ℤ◌, ◌+ℤ◌, OnOk, IfOk, IsTrue};
ghost use Rattle.std.specs.List.{All};
ghost use Rattle.mv_syntax.specs.Table.{Valid};
ghost use Rattle.mv_syntax.specs.Words.{is_set, ◌otherwise◌, or_zero};
ghost use Rattle.mv_short_sets.specs.Deltas.{is_on, at_distance, steps, direct, delta_rps, moved, taken, on_side, predicted, reference, deltas, deltas_of_each, IsSided, IsNear};
ghost use Rattle.mv_short_sets.specs.ShortSet.{set_fields, st_ref_pic_set, AreShortArgs};
ghost use Rattle.mv_short_sets.specs.declared.delta.Side.TheVariants.{Before, After};

use crate::delta::{Delta, Side};
use crate::short_set::{ShortArgs, ShortSet};
use mv_fields::{coded_set, or_zero};
use std::alloc::{AllocError, Global};

fn lies_on(side: Side, delta: i32) -> bool
    ensures { result ≡ is_on side delta }
{
    match side {
        Side::Before => delta < 0,
        Side::After => delta > 0,
    }
}

fn delta_at(side: Side, distance: u32) -> i32
    requires { distance < 2 ^ 31 }
    ensures { result ≡ at_distance side distance }
{
    match side {
        Side::Before => -(distance as i32),
        Side::After => distance as i32,
    }
}

/// Adds the pictures of one side of a set that is coded directly.
fn add_steps(
    out: &mut Vec<Delta>,
    side: Side,
    minus1: &[u32],
    flags: &[u8],
) -> Result<(), AllocError>
    requires flags { length flags.now ≡ length minus1.now }
    requires few { length minus1.now ≤ 16 }
    requires low { All (λ m. m ≤ 32767) minus1.now }
    ensures { OnOk result (out.new.items ≡ out.old.items ++ steps side 0 minus1.now flags.now) }
{
    let mut far = 0;
    for j in 0..minus1.len() {
        far = far + minus1[j] + 1;
        out.push(Delta {
            delta: delta_at(side, far),
            used: flags[j] == 1,
        })?;
    }
    Ok(())
}

/// The deltas of a set that is coded directly.
#[tactic(auto, unfolding(crate::specs::Deltas::direct))]
fn direct_deltas(alloc: Global, set: &ShortSet) -> Result<Vec<Delta>, AllocError>
    requires flags0 { length set.now.used_by_curr_pic_s0_flag ≡ length set.now.delta_poc_s0_minus1 }
    requires few0 { length set.now.delta_poc_s0_minus1 ≤ 16 }
    requires low0 { All (λ m. m ≤ 32767) set.now.delta_poc_s0_minus1 }
    requires flags1 { length set.now.used_by_curr_pic_s1_flag ≡ length set.now.delta_poc_s1_minus1 }
    requires few1 { length set.now.delta_poc_s1_minus1 ≤ 16 }
    requires low1 { All (λ m. m ≤ 32767) set.now.delta_poc_s1_minus1 }
    ensures { IfOk result (λ v. v.items ≡ direct set.now) }
{
    let mut out = Vec::new(alloc);
    add_steps(
        &mut out,
        Side::Before,
        &set.delta_poc_s0_minus1,
        &set.used_by_curr_pic_s0_flag,
    )?;
    add_steps(
        &mut out,
        Side::After,
        &set.delta_poc_s1_minus1,
        &set.used_by_curr_pic_s1_flag,
    )?;
    Ok(out)
}

/// The difference between a predicted set and its reference set.
fn difference(set: &ShortSet) -> i32
    requires { or_zero set.now.abs_delta_rps_minus1 ≤ 32767 }
    ensures is { result ≡ delta_rps set.now }
    ensures not_below { neg_ℤ (pos 32768) ≤ℤ result }
    ensures not_above { result ≤ℤ pos 32768 }
{
    let distance = or_zero(set.abs_delta_rps_minus1) + 1;
    if coded_set(set.delta_rps_sign) {
        -(distance as i32)
    } else {
        distance as i32
    }
}

/// Whether the candidate with these flags is in the set: use_delta_flag is 1 where it is not coded.
fn uses_delta(set: &ShortSet, flags: usize) -> bool
    requires { flags < length set.now.use_delta_flag }
    ensures { result ≡ is_set (get_or set.now.use_delta_flag flags None otherwise 1) }
{
    match set.use_delta_flag[flags] {
        Some(flag) => flag == 1,
        None => true,
    }
}

/// Adds one candidate of a predicted set, where it is taken.
fn add_taken(
    out: &mut Vec<Delta>,
    side: Side,
    set: &ShortSet,
    delta: i32,
    flags: usize,
) -> Result<(), AllocError>
    requires used { flags < length set.now.used_by_curr_pic_flag }
    requires use_delta { flags < length set.now.use_delta_flag }
    ensures { OnOk result (out.new.items ≡ out.old.items ++ taken side set.now (record { delta = delta; flags = flags } ∷ [])) }
{
    if lies_on(side, delta) && uses_delta(set, flags) {
        let used = set.used_by_curr_pic_flag[flags] == 1;
        out.push(Delta { delta, used })?;
    }
    Ok(())
}

/// A delta of the reference set plus d.
fn moved_by(one: &Delta, d: i32) -> i32
    requires near { IsNear (2 ^ 22) one.now }
    requires not_below { neg_ℤ (pos 32768) ≤ℤ d }
    requires not_above { d ≤ℤ pos 32768 }
    ensures { result ≡ one.now.delta +ℤ d }
{
    one.delta + d
}

/// Adds candidates from the last to the first: some deltas of the reference set plus d, whose flags begin at `first`.
fn add_backward(
    out: &mut Vec<Delta>,
    side: Side,
    set: &ShortSet,
    some: &[Delta],
    first: usize,
    d: i32,
) -> Result<(), AllocError>
    requires near { All (IsNear (2 ^ 22)) some.now }
    requires not_below { neg_ℤ (pos 32768) ≤ℤ d }
    requires not_above { d ≤ℤ pos 32768 }
    requires few { first + length some.now ≤ 16 }
    requires used { first + length some.now ≤ length set.now.used_by_curr_pic_flag }
    requires use_delta { first + length some.now ≤ length set.now.use_delta_flag }
    ensures { OnOk result (out.new.items ≡ out.old.items ++ taken side set.now (reverse (moved d first some.now))) }
{
    let mut left = some.len();
    while left > 0 {
        left -= 1;
        add_taken(out, side, set, moved_by(&some[left], d), first + left)?;
    }
    Ok(())
}

/// Adds candidates from the first to the last: some deltas of the reference set plus d, whose flags begin at `first`.
fn add_forward(
    out: &mut Vec<Delta>,
    side: Side,
    set: &ShortSet,
    some: &[Delta],
    first: usize,
    d: i32,
) -> Result<(), AllocError>
    requires near { All (IsNear (2 ^ 22)) some.now }
    requires not_below { neg_ℤ (pos 32768) ≤ℤ d }
    requires not_above { d ≤ℤ pos 32768 }
    requires few { first + length some.now ≤ 16 }
    requires used { first + length some.now ≤ length set.now.used_by_curr_pic_flag }
    requires use_delta { first + length some.now ≤ length set.now.use_delta_flag }
    ensures { OnOk result (out.new.items ≡ out.old.items ++ taken side set.now (moved d first some.now)) }
{
    for j in 0..some.len() {
        add_taken(out, side, set, moved_by(&some[j], d), first + j)?;
    }
    Ok(())
}

/// How many of some deltas stand before the current picture.
fn count_before(some: &[Delta]) -> usize
    ensures { result ≡ length (on_side Before some.now) }
{
    some.iter().filter(|one| one.delta < 0).count()
}

/// Adds the pictures before the current one of a predicted set: the candidates are those after it in the reference set from
/// the last to the first, its picture, and those before it from the first to the last.
fn add_before(
    out: &mut Vec<Delta>,
    set: &ShortSet,
    before: &[Delta],
    after: &[Delta],
    d: i32,
) -> Result<(), AllocError>
    requires near0 { All (IsNear (2 ^ 22)) before.now }
    requires near1 { All (IsNear (2 ^ 22)) after.now }
    requires not_below { neg_ℤ (pos 32768) ≤ℤ d }
    requires not_above { d ≤ℤ pos 32768 }
    requires few { length before.now + length after.now ≤ 16 }
    requires used { length before.now + length after.now < length set.now.used_by_curr_pic_flag }
    requires use_delta { length before.now + length after.now < length set.now.use_delta_flag }
    ensures { OnOk result (out.new.items ≡ out.old.items ++ taken Before set.now (reverse (moved d (length before.now) after.now) ++ record { delta = d; flags = length before.now + length after.now } ∷ moved d 0 before.now)) }
{
    add_backward(out, Side::Before, set, after, before.len(), d)?;
    add_taken(out, Side::Before, set, d, before.len() + after.len())?;
    add_forward(out, Side::Before, set, before, 0, d)
}

/// Adds the pictures after the current one of a predicted set: the candidates are those before it in the reference set from
/// the last to the first, its picture, and those after it from the first to the last.
fn add_after(
    out: &mut Vec<Delta>,
    set: &ShortSet,
    before: &[Delta],
    after: &[Delta],
    d: i32,
) -> Result<(), AllocError>
    requires near0 { All (IsNear (2 ^ 22)) before.now }
    requires near1 { All (IsNear (2 ^ 22)) after.now }
    requires not_below { neg_ℤ (pos 32768) ≤ℤ d }
    requires not_above { d ≤ℤ pos 32768 }
    requires few { length before.now + length after.now ≤ 16 }
    requires used { length before.now + length after.now < length set.now.used_by_curr_pic_flag }
    requires use_delta { length before.now + length after.now < length set.now.use_delta_flag }
    ensures { OnOk result (out.new.items ≡ out.old.items ++ taken After set.now (reverse (moved d 0 before.now) ++ record { delta = d; flags = length before.now + length after.now } ∷ moved d (length before.now) after.now)) }
{
    add_backward(out, Side::After, set, before, 0, d)?;
    add_taken(out, Side::After, set, d, before.len() + after.len())?;
    add_forward(out, Side::After, set, after, before.len(), d)
}

/// The deltas of a set that is predicted from a reference set with these deltas.
#[tactic(auto, unfolding(crate::specs::Deltas::predicted))]
fn predicted_deltas(
    alloc: Global,
    set: &ShortSet,
    reference: &[Delta],
) -> Result<Vec<Delta>, AllocError>
    requires sides { IsSided reference.now }
    requires near { All (IsNear (2 ^ 22)) reference.now }
    requires few { length reference.now ≤ 16 }
    requires within { or_zero set.now.abs_delta_rps_minus1 ≤ 32767 }
    requires used { length set.now.used_by_curr_pic_flag ≡ length reference.now + 1 }
    requires use_delta { length set.now.use_delta_flag ≡ length reference.now + 1 }
    ensures { IfOk result (λ v. v.items ≡ predicted reference.now set.now) }
{
    let d = difference(set);
    let n = count_before(reference);
    let (before, after) = reference.split_at(n);
    let mut out = Vec::new(alloc);
    add_before(&mut out, set, before, after, d)?;
    add_after(&mut out, set, before, after, d)?;
    Ok(out)
}

/// The deltas of the reference set of set `args.idx`.
#[cycle(deltas)]
pub(crate) fn reference_deltas(
    alloc: Global,
    args: &ShortArgs<'_>,
    delta_idx_minus1: Option<u32>,
) -> Result<Vec<Delta>, AllocError>
    requires args { AreShortArgs args.now.idx args.now.num args.now.earlier.now }
    requires index { or_zero delta_idx_minus1 < args.now.idx }
    ensures { IfOk result (λ v. v.items ≡ reference args.now.idx (deltas_of_each args.now.earlier.now) delta_idx_minus1) }
{
    let index = args.idx - or_zero(delta_idx_minus1) as u8 - 1;
    let before = ShortArgs {
        idx: index,
        num: args.num,
        earlier: &args.earlier[..index as usize],
    };
    deltas_of(alloc, &args.earlier[index as usize], &before)
}

/// The deltas of a set whose fields are valid.
#[cycle(deltas)]
#[tactic(auto, unfolding(crate::specs::Deltas::deltas))]
pub(crate) fn deltas_of(
    alloc: Global,
    set: &ShortSet,
    args: &ShortArgs<'_>,
) -> Result<Vec<Delta>, AllocError>
    requires args { AreShortArgs args.now.idx args.now.num args.now.earlier.now }
    requires valid { Valid (set_fields args.now.idx args.now.num (deltas_of_each args.now.earlier.now)) set.now }
    ensures { IfOk result (λ v. v.items ≡ deltas args.now.idx (deltas_of_each args.now.earlier.now) set.now) }
{
    if coded_set(set.inter_ref_pic_set_prediction_flag) {
        let reference = reference_deltas(alloc, args, set.delta_idx_minus1)?;
        predicted_deltas(alloc, set, &reference)
    } else {
        direct_deltas(alloc, set)
    }
}

impl ShortSet {
    /// The deltas of the set (7.4.8): those below 0 first, then those above 0, at most 16, each from -2^22 to 2^22.
    ///
    /// `AllocError` where memory runs out.
    #[tactic(auto, using(crate::proofs::SetLaws::fields_valid))]
    pub fn deltas(&self, alloc: Global, args: &ShortArgs<'_>) -> Result<Vec<Delta>, AllocError>
        requires args { AreShortArgs args.now.idx args.now.num args.now.earlier.now }
        requires valid { Valid (st_ref_pic_set args.now.idx args.now.num (deltas_of_each args.now.earlier.now)) self.now }
        ensures { IfOk result (λ v. v.items ≡ deltas args.now.idx (deltas_of_each args.now.earlier.now) self.now) }
    {
        deltas_of(alloc, self, args)
    }
}
