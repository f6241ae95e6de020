//! What is told of pictures that wait for their output, in output order.
#![tactic(auto)]

ghost use Rattle.std.specs.Prelude.{◌≡◌, ◌<◌, ◌^◌, suc, length, map, vec_capacity, if◌then◌else◌};
ghost use Rattle.std.specs.List.{list_any, position_or_len};
ghost use Rattle.mv_dpb.specs.Waits.{access_units, begun_with, comes_first, is_begun, is_begun_of, is_of};

use crate::shown::Shown;

/// What is told of a picture that waits.
#[derive(Clone, Copy, Debug, PartialEq, Eq)]
pub struct Waits {
    pub shown: Shown,
    /// The number of its access unit.
    pub au: u64,
    /// Another picture of its access unit has left.
    pub begun: bool,
}

/// Whether a picture stands before another in output order.
pub fn comes_first(waits: &Waits, other: &Waits) -> bool
    ensures { result ≡ comes_first waits.now other.now }
{
    waits.shown.count < other.shown.count
        || (waits.shown.count == other.shown.count
            && (waits.au < other.au
                || (waits.au == other.au && waits.shown.layer < other.shown.layer)))
}

/// The place among pictures behind all that a picture doesn't stand before.
pub fn place_of(waits: &Waits, others: &[Waits]) -> usize
    ensures { result ≡ position_or_len (comes_first waits.now) others.now }
{
    for (i, other) in others.iter().enumerate() {
        if comes_first(waits, other) {
            return i;
        }
    }
    others.len()
}

// Whether a picture of an access unit waits.
fn any_of(waits: &[Waits], au: u64) -> bool
    ensures { result ≡ list_any (is_of au) waits.now }
{
    waits.iter().any(|one| one.au == au)
}

/// How many access units wait once a picture of one was added.
pub fn units_with(units: usize, waits: &[Waits], au: u64) -> usize
    requires units { units ≡ access_units waits.now }
    requires room { length waits.now < 2 ^ 63 }
    ensures { result ≡ (if list_any (is_of au) waits.now then units else suc units) }
{
    if any_of(waits, au) { units } else { units + 1 }
}

/// How many access units wait once a picture of one has left.
pub fn units_without(units: usize, rest: &[Waits], au: u64) -> usize
    requires { units ≡ (if list_any (is_of au) rest.now then access_units rest.now else suc (access_units rest.now)) }
    ensures { result ≡ access_units rest.now }
{
    if any_of(rest, au) { units } else { units - 1 }
}

/// Whether an access unit has begun to leave, and another picture of it waits.
pub fn any_begun_of(waits: &[Waits], au: u64) -> bool
    ensures { result ≡ list_any (is_begun_of au) waits.now }
{
    waits.iter().any(|one| one.au == au && one.begun)
}

/// Whether any access unit has begun to leave, and another picture of it waits.
pub fn any_begun(waits: &[Waits]) -> bool
    ensures { result ≡ list_any is_begun waits.now }
{
    waits.iter().any(|one| one.begun)
}

/// Notes at each picture of an access unit that it has begun to leave.
pub fn begin(waits: &mut Vec<Waits>, au: u64)
    ensures items { waits.new.items ≡ map (begun_with au) waits.old.items }
    ensures capacity { vec_capacity waits.new ≡ vec_capacity waits.old }
{
    for i in 0..waits.len() {
        waits[i] = begun_with(&waits[i], au);
    }
}

// What is told of a picture once an access unit has begun to leave.
fn begun_with(waits: &Waits, au: u64) -> Waits
    ensures { result ≡ begun_with au waits.now }
{
    Waits {
        shown: waits.shown,
        au: waits.au,
        begun: waits.au == au || waits.begun,
    }
}
