//! Text in bytes.

ghost use Rattle.std.specs.Prelude.{◌≡◌, ◌++◌, OnOk};

use itoa::{Buffer, Integer};
use std::alloc::AllocError;

// Appends a text.
pub(crate) fn push(out: &mut Vec<u8>, text: &str) -> Result<(), AllocError>
    ensures { OnOk result (out.new.items ≡ out.old.items ++ text.now) }
{
    out.extend_from_slice(text.as_bytes())
}

// Appends a number in decimal.
pub(crate) fn push_number<I: Integer>(out: &mut Vec<u8>, number: I) -> Result<(), AllocError>
    ensures { OnOk result (out.new.items ≡ out.old.items ++ I.text number) }
{
    let mut digits = Buffer::new();
    out.extend_from_slice(digits.format(number).as_bytes())
}
