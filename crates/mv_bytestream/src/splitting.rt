//! A byte string split into its units.
#![tactic(auto)]

ghost use Rattle.std.specs.Prelude.{◌≡◌, ◌<◌, ◌≤◌, None, All, false, not, map, length, drop, slice_range, IfOk, OnOk, IfErr, IfSome};
ghost use Rattle.std.specs.List.{position_from};
ghost use Rattle.mv_units.specs.Units.{has_code, is_zero, leading, trimmed, units, units_at};
ghost use Rattle.mv_bytestream.specs.Spans.{CodeOrEnd, LiesIn, RefusesLeading, unit_at};

use memchr::memmem;
use mv_rules::{Refusal, Rule};
use std::alloc::Global;

/// The start code prefix (Annex B).
const START_CODE: [u8; 3] = [0, 0, 1];

/// Where a unit stands in a byte string: from the first byte after its start code prefix up to, and
/// without, the byte at `to`.
#[derive(Clone, Copy, PartialEq, Eq, Debug)]
pub struct Span {
    /// The offset of the unit's first byte, which is the unit's place.
    pub from: usize,
    /// The offset behind the unit's last byte.
    pub to: usize,
}

/// Why a byte string has no units.
#[derive(Clone, Copy, PartialEq, Eq, Debug)]
pub enum ScanFault {
    /// A rule refuses the bytes.
    Refused(Refusal),
    /// The allocator refused memory.
    Memory,
}

/// The units of a byte string, in order (Annex B): what stands behind each start code prefix, less all
/// zero bytes at the end.
///
/// # Errors
///
/// `Refused` exactly where a byte other than zero stands before the first start code and isn't the end of
/// one, by the rule `Leading` (this project's profile). Its unit is 0 and its byte the offset of the first
/// such byte. `Memory` where the allocator refused memory.
pub fn split(alloc: Global, bytes: &[u8]) -> Result<Vec<Span>, ScanFault>
    ensures units { IfOk result (λ spans. map (unit_at bytes.now) spans.items ≡ units bytes.now) }
    ensures inside { IfOk result (λ spans. All (LiesIn bytes.now) spans.items) }
    ensures accepted { OnOk result (leading bytes.now ≡ None) }
    ensures refused { IfErr result (RefusesLeading bytes.now) }
{
    let front = next_code(bytes, 0);
    match first_nonzero(&bytes[..front]) {
        Some(at) => Err(ScanFault::Refused(Refusal {
            unit: 0,
            byte: at as u64,
            rule: Rule::Leading,
        })),
        None => spans_from(alloc, bytes, front),
    }
}

// The offset of the first byte other than zero.
fn first_nonzero(bytes: &[u8]) -> Option<usize>
    ensures value { result ≡ position_from (λ b. not (is_zero b)) 0 bytes.now }
    ensures inside { IfSome result (λ at. at < length bytes.now) }
{
    bytes.iter().position(|byte| *byte != 0)
}

// The spans of the units that follow `front`, where a start code prefix or the end stands.
fn spans_from(alloc: Global, bytes: &[u8], front: usize) -> Result<Vec<Span>, ScanFault>
    requires { CodeOrEnd bytes.now front }
    ensures units { IfOk result (λ spans. map (unit_at bytes.now) spans.items ≡ units_at front (drop front bytes.now)) }
    ensures inside { IfOk result (λ spans. All (LiesIn bytes.now) spans.items) }
    ensures memory { IfErr result (λ fault. fault ≡ ScanFault.Memory) }
{
    let mut spans = Vec::new(alloc);
    let mut at = front;
    while at < bytes.len() {
        let from = at + 3;
        let next = next_code(bytes, from);
        let to = trimmed_end(bytes, from, next);
        match spans.push(Span { from, to }) {
            Ok(()) => at = next,
            Err(_) => return Err(ScanFault::Memory),
        }
    }
    Ok(spans)
}

// The offset of the first start code prefix from `from` on, or the string's length where there is none.
fn next_code(bytes: &[u8], from: usize) -> usize
    requires { from ≤ length bytes.now }
    ensures low { from ≤ result }
    ensures clean { has_code (slice_range bytes.now from result) ≡ false }
    ensures stands { CodeOrEnd bytes.now result }
{
    match memmem::find(&bytes[from..], &START_CODE) {
        Some(at) => from + at,
        None => bytes.len(),
    }
}

// The offset behind the last byte other than zero from `from` up to `end`, or `from` where there is none.
fn trimmed_end(bytes: &[u8], from: usize, end: usize) -> usize
    requires low { from ≤ end }
    requires high { end ≤ length bytes.now }
    ensures low { from ≤ result }
    ensures high { result ≤ end }
    ensures value { slice_range bytes.now from result ≡ trimmed (slice_range bytes.now from end) }
{
    let mut to = end;
    while to > from && bytes[to - 1] == 0 {
        to -= 1;
    }
    to
}
