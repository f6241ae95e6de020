//! The first fields of a slice segment header.

ghost use Rattle.std.specs.Prelude.{Some};
ghost use Rattle.mv_syntax.specs.Bits.{byte_bits};
ghost use Rattle.mv_slice.specs.Opening.{opening};
ghost use Rattle.mv_slice.specs.Peek.{Peeks};

use crate::opening::opening_of;
use mv_bits::BitReader;
use mv_rules::Rule;
use mv_units::UnitHead;

/// What tells the picture of a slice segment, and the picture parameter set that its header is read with.
#[derive(Clone, Copy, Debug, PartialEq, Eq)]
pub struct SlicePeek {
    /// Whether it is the first segment of its picture: first_slice_segment_in_pic_flag.
    pub first: bool,
    /// slice_pic_parameter_set_id.
    pub pps_id: u8,
}

/// The first fields of the header of a slice segment (7.3.6.1), up to the id of its picture parameter set. Takes no memory.
///
/// `SliceSyntax` where these fields can't be read, or the id is above 63.
pub fn peek_slice(head: UnitHead, payload: &[u8]) -> Result<SlicePeek, Rule>
    ensures { Peeks (opening head.kind) (byte_bits payload.now) result }
{
    match opening_of(&mut BitReader::new(payload), head.kind) {
        Ok(opening) => Ok(SlicePeek {
            first: opening.first_slice_segment_in_pic_flag == 1,
            pps_id: opening.slice_pic_parameter_set_id as u8,
        }),
        Err(_) => Err(Rule::SliceSyntax),
    }
}
