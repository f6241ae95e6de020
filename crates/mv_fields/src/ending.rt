//! The end of a header's payload.

ghost use Rattle.std.specs.Prelude.{◌≡◌, OnOk, option_map};
ghost use Rattle.mv_syntax.specs.Cursor.{place};
ghost use Rattle.mv_syntax.specs.inner.Ending.{read_end};
ghost use Rattle.mv_syntax.specs.inner.Filling.{FillsPayload};
ghost use Rattle.mv_fields.specs.Faults.{means};

use crate::fault::Fault;
use mv_bits::{BitReader, EndFault};
use mv_rules::Rule;
use std::alloc::Global;

/// The greatest payload of a parameter set, in bytes.
pub const MAX_BYTES: usize = 65_536;

/// Reads the end of a payload: its tail, where it has one, and the trailing bits (7.3.2.11), which end it.
///
/// `NoBits` where what is left is not that. `Memory` where memory runs out.
pub fn payload_end_of(
    alloc: Global,
    bits: &mut BitReader,
    has_tail: bool,
) -> Result<Option<Vec<bool>>, Fault<Rule>>
    ensures { FillsPayload (λ o. option_map (λ v. v.items) o) means result (read_end has_tail (place bits.old) bits.old.left) }
{
    match mv_bits::payload_end_of(alloc, bits, has_tail) {
        Ok(tail) => Ok(tail),
        Err(EndFault::NoBits) => Err(Fault::NoBits),
        Err(EndFault::Memory) => Err(Fault::Memory),
    }
}
