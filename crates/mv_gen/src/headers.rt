//! The heads and the slice segment headers of the pictures.

ghost use Rattle.std.specs.Prelude.{◌≡◌, ◌++◌, ◌<◌, OnOk, if◌then◌else◌};
ghost use Rattle.mv_gen.specs.HeaderBytes.{base_header, second_header};
ghost use Rattle.mv_gen.specs.Headers.{head_of, header_of, is_first};

use mv_units::UnitHead;
use std::alloc::AllocError;

/// nal_unit_type of an IDR picture that may have leading pictures, IDR_W_RADL.
const IDR_W_RADL: u8 = 19;

/// nal_unit_type of a trailing picture that others may refer to, TRAIL_R.
const TRAIL_R: u8 = 1;

// The head of the slice segment of a view, from the low bits of its picture order count.
#[tactic(auto, unfolding(crate::specs::Headers::head_of))]
pub(crate) fn head_of(layer: u8, lsb: u8) -> UnitHead
    requires { layer < 2 }
    ensures head { result ≡ head_of layer lsb }
    ensures kind { result.kind < 64 }
    ensures layer { result.layer < 64 }
    ensures tid { result.tid < 7 }
{
    UnitHead {
        kind: kind_of(lsb),
        layer,
        tid: 0,
    }
}

fn kind_of(lsb: u8) -> u8
    ensures { result ≡ if is_first lsb then 19 else 1 }
{
    if lsb == 0 { IDR_W_RADL } else { TRAIL_R }
}

// Appends the header of the slice segment of a view, from the low bits of its picture order count.
pub(crate) fn push_header(bytes: &mut Vec<u8>, layer: u8, lsb: u8) -> Result<(), AllocError>
    requires layer { layer < 2 }
    requires lsb { lsb < 8 }
    ensures { OnOk result (bytes.new.items ≡ bytes.old.items ++ header_of layer lsb) }
{
    if layer == 0 {
        return push_base_header(bytes, lsb);
    }
    push_second_header(bytes, lsb)
}

fn push_base_header(bytes: &mut Vec<u8>, lsb: u8) -> Result<(), AllocError>
    requires { lsb < 8 }
    ensures { OnOk result (bytes.new.items ≡ bytes.old.items ++ base_header lsb) }
{
    if lsb == 0 {
        return bytes.extend_from_slice(&[0xAF]);
    }
    bytes.extend_from_slice(&[0xD0 + lsb / 2, lsb % 2 * 128 + 0x17, 0x70])
}

fn push_second_header(bytes: &mut Vec<u8>, lsb: u8) -> Result<(), AllocError>
    requires { lsb < 8 }
    ensures { OnOk result (bytes.new.items ≡ bytes.old.items ++ second_header lsb) }
{
    if lsb == 0 {
        return bytes.extend_from_slice(&[0x92, 0x07]);
    }
    bytes.extend_from_slice(&[0xA4, lsb * 32 + 5, 0xEB, 0x80])
}
