//! A unit of a head and a payload.
#![tactic(auto)]

ghost use Rattle.std.specs.Prelude.{◌≡◌, ◌+◌, ◌*◌, ◌<◌, ◌≤◌, ◌++◌, false, drop, length, slice_range, IfOk, OnOk, IfSome, IfNone};
ghost use Rattle.mv_units.specs.Escapes.{escape as unit_of, escaped};
ghost use Rattle.mv_units.specs.Rules.{has_emulation};
ghost use Rattle.mv_units.specs.Units.{has_code};

use memchr::memmem;
use mv_units::UnitHead;
use std::alloc::{AllocError, Global};

/// Two zero bytes: behind them a byte up to 03, and the end, want an emulation_prevention_three_byte (7.4.2).
const ZEROS: [u8; 2] = [0, 0];

/// The emulation_prevention_three_byte (7.3.1.1).
const THREE: u8 = 3;

/// The greatest byte that may not stand behind two zero bytes (7.4.2).
const GREATEST: u8 = 3;

/// The unit of a head and a payload (7.3.1.1, 7.3.1.2): the head's two bytes, and then the payload's bytes with a
/// `03` put in before each byte from 0 to 3 where the two bytes written last are both zero, and once more at the
/// end where they are (7.4.2).
///
/// # Errors
///
/// `AllocError` where the allocator refused memory.
pub fn escape(alloc: Global, head: UnitHead, payload: &[u8]) -> Result<Vec<u8>, AllocError>
    requires kind { head.kind < 64 }
    requires layer { head.layer < 64 }
    requires tid { head.tid < 7 }
    ensures unit { IfOk result (λ unit. unit.items ≡ unit_of head payload.now) }
    ensures no_code { IfOk result (λ unit. has_code unit.items ≡ false) }
    ensures no_emulation { IfOk result (λ unit. has_emulation unit.items ≡ false) }
    ensures length { IfOk result (λ unit. length unit.items ≤ 3 + 2 * length payload.now) }
{
    let mut unit = Vec::with_capacity(alloc, 2 + payload.len() + payload.len() / 2)?;
    unit.push(head.kind * 2 + head.layer / 32)?;
    unit.push(head.layer % 32 * 8 + (head.tid + 1))?;
    let mut from = 0;
    while let Some(to) = next_zeros(payload, from) {
        unit.extend_from_slice(&payload[from..to])?;
        prevent(&mut unit, &payload[to..])?;
        from = to;
    }
    unit.extend_from_slice(&payload[from..])?;
    Ok(unit)
}

// The place behind the first two zero bytes from `from` on, where no zero stands before `from`.
fn next_zeros(payload: &[u8], from: usize) -> Option<usize>
    requires { from ≤ length payload.now }
    ensures low { IfSome result (λ to. from < to) }
    ensures high { IfSome result (λ to. to ≤ length payload.now) }
    ensures run { IfSome result (λ to. escaped 3 3 (drop from payload.now) ≡ slice_range payload.now from to ++ escaped 0 0 (drop to payload.now)) }
    ensures last { IfNone result (escaped 3 3 (drop from payload.now) ≡ drop from payload.now) }
{
    match memmem::find(&payload[from..], &ZEROS) {
        Some(at) => Some(from + at + 2),
        None => None,
    }
}

// Puts a 03 behind two zero bytes where the rest of the payload wants one. What follows then stands behind no zero.
fn prevent(unit: &mut Vec<u8>, rest: &[u8]) -> Result<(), AllocError>
    ensures { OnOk result (unit.new.items ++ escaped 3 3 rest.now ≡ unit.old.items ++ escaped 0 0 rest.now) }
{
    match rest {
        [above, ..] if *above > GREATEST => Ok(()),
        _ => {
            unit.push(THREE)?;
            Ok(())
        }
    }
}
