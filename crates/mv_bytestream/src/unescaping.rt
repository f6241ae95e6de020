//! The payload of a unit.
#![tactic(auto)]

ghost use Rattle.std.specs.Prelude.{◌≡◌, ◌-◌, ◌<◌, ◌≤◌, ◌++◌, drop, length, slice_range, IfOk};
ghost use Rattle.mv_units.specs.Escapes.{payload};

use memchr::memmem;
use std::alloc::{AllocError, Global};

/// An emulation_prevention_three_byte behind the two zero bytes that it stands behind (7.3.1.1).
const PREVENTED: [u8; 3] = [0, 0, 3];

/// The payload of a unit (7.3.1.1, rbsp_byte): the bytes after its head, less each `03` whose two preceding
/// bytes in the unit are both zero. A unit with fewer than two bytes has none.
///
/// # Errors
///
/// `AllocError` where the allocator refused memory.
pub fn unescape(alloc: Global, unit: &[u8]) -> Result<Vec<u8>, AllocError>
    ensures { IfOk result (λ bytes. bytes.items ≡ payload unit.now) }
{
    let mut bytes = Vec::with_capacity(alloc, unit.len())?;
    let mut from = 2;
    while from < unit.len() {
        let to = next_three(unit, from);
        bytes.extend_from_slice(&unit[from..to])?;
        from = to + 1;
    }
    Ok(bytes)
}

// The place of the first emulation_prevention_three_byte from `from` on, or the unit's length where there is
// none. What the unit gives from `from` on is its bytes up to that place, and then what it gives from behind it
// on. `payload` passes over two bytes, so each rest of the unit is taken from two bytes before.
fn next_three(unit: &[u8], from: usize) -> usize
    requires low { 2 ≤ from }
    requires high { from < length unit.now }
    ensures low { from ≤ result }
    ensures high { result ≤ length unit.now }
    ensures run { payload (drop (from - 2) unit.now) ≡ slice_range unit.now from result ++ payload (drop (result - 1) unit.now) }
{
    match memmem::find(&unit[from - 2..], &PREVENTED) {
        Some(zeros) => from + zeros,
        None => unit.len(),
    }
}
