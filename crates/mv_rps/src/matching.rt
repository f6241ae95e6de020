//! Which pictures of a buffer an entry fits.
#![tactic(auto)]

ghost use Rattle.std.specs.Prelude.{◌≡◌, ◌≤◌, ◌*◌, ◌^◌, Some, pos, neg_ℤ, ◌≤ℤ◌, ◌+ℤ◌, ◌-ℤ◌};
ghost use Rattle.mv_pictures.specs.Counts.{residue};
ghost use Rattle.mv_pictures.specs.Held.{fits_long, fits_short, full_count};
ghost use Rattle.mv_rps.specs.RefSet.{aim_of};

use crate::entries::CodedAim;

// The low bits of a count.
fn residue(max_lsb: u32, count: i32) -> i64
    requires some { 1 ≤ max_lsb }
    requires few { max_lsb ≤ 65536 }
    ensures is { result ≡ residue max_lsb count }
    ensures not_below { pos 0 ≤ℤ result }
    ensures not_above { result ≤ℤ pos 65536 }
{
    i64::from(count).rem_euclid(i64::from(max_lsb))
}

// How far so many cycles reach.
fn reach(max_lsb: u32, cycle: u64) -> i128
    requires few { max_lsb ≤ 65536 }
    ensures is { result ≡ pos (cycle * max_lsb) }
    ensures not_below { pos 0 ≤ℤ result }
    ensures not_above { result ≤ℤ pos (2 ^ 80) }
{
    i128::from(cycle) * i128::from(max_lsb)
}

fn ahead(bits: u16, current: i32) -> i64
    ensures is { result ≡ pos bits +ℤ current }
    ensures not_below { neg_ℤ (pos (2 ^ 33)) ≤ℤ result }
    ensures not_above { result ≤ℤ pos (2 ^ 33) }
{
    i64::from(bits) + i64::from(current)
}

fn ahead_of_cycles(max_lsb: u32, current: i32, bits: u16, cycle: u64) -> i128
    requires few { max_lsb ≤ 65536 }
    ensures is { result ≡ pos bits +ℤ current -ℤ pos (cycle * max_lsb) }
    ensures not_below { neg_ℤ (pos (2 ^ 81)) ≤ℤ result }
    ensures not_above { result ≤ℤ pos (2 ^ 33) }
{
    i128::from(ahead(bits, current)) - reach(max_lsb, cycle)
}

// PocLt of a long-term entry with its cycle.
#[tactic(auto, unfolding(mv_pictures::specs::Held::full_count))]
fn full_count(max_lsb: u32, current: i32, bits: u16, cycle: u64) -> i128
    requires some { 1 ≤ max_lsb }
    requires few { max_lsb ≤ 65536 }
    ensures { result ≡ full_count max_lsb current bits cycle }
{
    ahead_of_cycles(max_lsb, current, bits, cycle) - i128::from(residue(max_lsb, current))
}

/// A picture with a count fits a long-term entry of a picture with the count `current`.
#[tactic(auto, unfolding(mv_pictures::specs::Held::fits_long))]
pub fn fits_long(max_lsb: u32, current: i32, aim: CodedAim, count: i32) -> bool
    requires some { 1 ≤ max_lsb }
    requires few { max_lsb ≤ 65536 }
    ensures { result ≡ fits_long max_lsb current (aim_of aim) (Some count) }
{
    match aim {
        CodedAim::Delta(_) => false,
        CodedAim::Lsb(bits) => residue(max_lsb, count) == i64::from(bits),
        CodedAim::Cycle(bits, cycle) => {
            full_count(max_lsb, current, bits, cycle) == i128::from(count)
        }
    }
}

fn at_distance(current: i32, delta: i32) -> i64
    ensures { result ≡ current +ℤ delta }
{
    i64::from(current) + i64::from(delta)
}

/// The same of a short-term entry.
#[tactic(auto, unfolding(mv_pictures::specs::Held::fits_short))]
pub fn fits_short(current: i32, aim: CodedAim, count: i32) -> bool
    ensures { result ≡ fits_short current (aim_of aim) (Some count) }
{
    match aim {
        CodedAim::Delta(delta) => at_distance(current, delta) == i64::from(count),
        CodedAim::Lsb(_) => false,
        CodedAim::Cycle(..) => false,
    }
}
