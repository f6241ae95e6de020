//! The line of an output picture.

ghost use Rattle.std.specs.Prelude.{◌≡◌, ◌+◌, ◌≤◌, ◌++◌, length};
ghost use Rattle.arrayvec.specs.ArrayVec.{array_vec_len};
ghost use Rattle.hex.specs.Hex.{encode_lower};
ghost use Rattle.mv_provenance.specs.Lines.{line};

use arrayvec::ArrayVec;
use itoa::{Buffer, Integer};
use mv_dpb::Shown;

/// The room for the longest line, in bytes: the numbers have 20, 11 and 3, the digest 64, and the words and spaces 8.
const ROOM: usize = 106;

pub(crate) type Line = ArrayVec<u8, ROOM>;

/// The line of a picture: `pic SEQUENCE COUNT LAYER DIGEST` and a newline.
pub(crate) fn line_of(shown: &Shown, digest: &[u8; 32]) -> Line
    ensures { result.items ≡ line shown.now digest.now }
{
    let mut line = Line::new();
    push(&mut line, b"pic ");
    push_number(&mut line, shown.sequence);
    push(&mut line, b" ");
    push_number(&mut line, shown.count);
    push(&mut line, b" ");
    push_number(&mut line, shown.layer);
    push(&mut line, b" ");
    push(&mut line, &hex_of(digest));
    push(&mut line, b"\n");
    line
}

// Appends bytes.
fn push(line: &mut Line, bytes: &[u8])
    requires { array_vec_len line.old + length bytes.now ≤ 106 }
    ensures items { line.new.items ≡ line.old.items ++ bytes.now }
    ensures len { array_vec_len line.new ≡ array_vec_len line.old + length bytes.now }
{
    let _ = line.try_extend_from_slice(bytes);
}

// Appends a number in decimal.
fn push_number<I: Integer>(line: &mut Line, number: I)
    requires { array_vec_len line.old + I.MAX_STR_LEN ≤ 106 }
    ensures items { line.new.items ≡ line.old.items ++ I.text number }
    ensures len { array_vec_len line.new ≤ array_vec_len line.old + I.MAX_STR_LEN }
{
    let mut digits = Buffer::new();
    push(line, digits.format(number).as_bytes());
}

// A digest in 64 digits, the letters in lower case.
fn hex_of(digest: &[u8; 32]) -> [u8; 64]
    ensures { result ≡ encode_lower digest.now }
{
    let mut digits = [0; 64];
    let _ = hex::encode_to_slice(digest, &mut digits);
    digits
}
