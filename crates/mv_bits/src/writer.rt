ghost use Rattle.std.specs.Prelude.{◌≡◌, ◌≤◌, ◌<◌, ◌^◌, ◌%◌, ◌+◌, ◌-◌, ◌++◌, [], take, length, vec_len, IfOk, OnOk, OnErr, negsuc, ◌<ℤ◌};
ghost use Rattle.mv_syntax.specs.Bits.{u_bits, ue_bits, se_bits, se_code, align_bits, trailing_bits, byte_bits};
ghost use Rattle.mv_bits.specs.inner.Written.{written_bits, Extends};

use std::alloc::{AllocError, Global};
use std::marker::Model;

/// Writes the bit codes of H.265 (7.2, 9.2) one behind the other, the most significant bit of each byte first.
///
/// A contract sees the bits written so far. A call that answers `AllocError`, for want of memory, changes nothing.
#[derive(Drop)]
pub struct BitWriter {
    bytes: Vec<u8>,
    // The bits behind the bytes, as the number `word` of `count` bits, which are no whole byte.
    word: u8,
    count: u8,
}

impl Model for BitWriter {
    ghost use Rattle.std.specs.Prelude.{List, Bool, ◌<◌, ◌^◌};
    ghost use Rattle.mv_bits.specs.inner.Written.{written_bits};

    ghost Value = { List Bool };

    ghost view = { λ w. written_bits w.bytes.items w.count w.word };

    ghost invariant = { λ w. (w.count < 8) × (w.word < 2 ^ w.count) };
}

impl BitWriter {
    /// A writer with no bits.
    pub fn new(alloc: Global) -> BitWriter
        ensures { result ≡ [] }
    {
        BitWriter {
            bytes: Vec::new(alloc),
            word: 0,
            count: 0,
        }
    }

    /// Another writer with no bits, on the same allocator.
    pub fn empty(&self) -> BitWriter
        ensures { result ≡ [] }
    {
        BitWriter::new(*self.bytes.allocator())
    }

    /// Appends the `n` bits of `value`, u(n) (7.2), at most 64.
    pub fn u(&mut self, n: u8, value: u64) -> Result<(), AllocError>
        requires width { n ≤ 64 }
        requires in_range { value < 2 ^ n }
        ensures ok { OnOk result (self.new ≡ self.old ++ u_bits n value) }
        ensures err { OnErr result (self.new ≡ self.old) }
    {
        if self.count + n < 8 {
            self.word = self.word << n | value as u8;
            self.count += n;
            return Ok(());
        }
        let before = self.bytes.len();
        let last = put(&mut self.bytes, before, (self.word, self.count), n, value)?;
        self.word = last.0;
        self.count = last.1;
        Ok(())
    }

    /// Appends the ue(v) code of `value` (9.2), at most 2^32 - 2.
    pub fn ue(&mut self, value: u32) -> Result<(), AllocError>
        requires { value < 2 ^ 32 - 1 }
        ensures ok { OnOk result (self.new ≡ self.old ++ ue_bits value) }
        ensures err { OnErr result (self.new ≡ self.old) }
    {
        let number = value + 1;
        let zeros = number.ilog2() as u8;
        self.u(2 * zeros + 1, u64::from(number))
    }

    /// Appends the se(v) code of `value` (9.2.2), above -2^31.
    pub fn se(&mut self, value: i32) -> Result<(), AllocError>
        requires { negsuc (2 ^ 31 - 1) <ℤ value }
        ensures ok { OnOk result (self.new ≡ self.old ++ se_bits value) }
        ensures err { OnErr result (self.new ≡ self.old) }
    {
        self.ue(unsigned(value))
    }

    /// Appends `bit` up to the end of the byte, and nothing where a byte ends.
    pub fn align(&mut self, bit: bool) -> Result<(), AllocError>
        ensures ok { OnOk result (self.new ≡ self.old ++ align_bits bit (length self.old)) }
        ensures whole { OnOk result (length self.new % 8 ≡ 0) }
        ensures err { OnErr result (self.new ≡ self.old) }
    {
        let n = (8 - self.count) % 8;
        let value = if bit { (1 << n) - 1 } else { 0 };
        self.u(n, value)
    }

    /// Appends the trailing bits, rbsp_trailing_bits() (7.3.2.11): a one, and zeros up to the end of the byte.
    pub fn trailing(&mut self) -> Result<(), AllocError>
        ensures ok { OnOk result (self.new ≡ self.old ++ trailing_bits (length self.old)) }
        ensures whole { OnOk result (length self.new % 8 ≡ 0) }
        ensures err { OnErr result (self.new ≡ self.old) }
    {
        let zeros = 7 - self.count;
        self.u(zeros + 1, 1 << zeros)
    }

    /// Appends the bits of another writer.
    pub fn append(&mut self, other: &BitWriter) -> Result<(), AllocError>
        ensures ok { OnOk result (self.new ≡ self.old ++ other.now) }
        ensures err { OnErr result (self.new ≡ self.old) }
    {
        let before = self.bytes.len();
        let mut last = (self.word, self.count);
        for byte in &other.bytes {
            last = put(&mut self.bytes, before, last, 8, u64::from(*byte))?;
        }
        last = put(
            &mut self.bytes,
            before,
            last,
            other.count,
            u64::from(other.word),
        )?;
        self.word = last.0;
        self.count = last.1;
        Ok(())
    }

    /// The bytes written, where the last is whole.
    pub fn into_bytes(self) -> Vec<u8>
        requires { length self % 8 ≡ 0 }
        ensures { byte_bits result.items ≡ self }
    {
        self.bytes
    }
}

// Appends the `n` bits of `value` behind the bytes and `last`, which is a number and its count of bits. Answers what
// stands behind the bytes then. Where a byte finds no memory, only the first `before` bytes stay.
fn put(
    bytes: &mut Vec<u8>,
    before: usize,
    last: (u8, u8),
    n: u8,
    value: u64,
) -> Result<(u8, u8), AllocError>
    requires begun { (last.1 < 8) × (last.0 < 2 ^ last.1) }
    requires in_range { (n ≤ 64) × (value < 2 ^ n) }
    requires long { before ≤ vec_len bytes.old }
    ensures ok { IfOk result (Extends before bytes.old.items bytes.new.items (written_bits bytes.old.items last.1 last.0 ++ u_bits n value)) }
    ensures err { OnErr result (bytes.new.items ≡ take before bytes.old.items) }
{
    if n <= 56 {
        return put_short(bytes, before, last, n, value);
    }
    let high = put_short(bytes, before, last, n - 32, value >> 32)?;
    put_short(bytes, before, high, 32, value % (1 << 32))
}

// The same where all the bits in hand fit in a word.
fn put_short(
    bytes: &mut Vec<u8>,
    before: usize,
    last: (u8, u8),
    n: u8,
    value: u64,
) -> Result<(u8, u8), AllocError>
    requires begun { (last.1 < 8) × (last.0 < 2 ^ last.1) }
    requires in_range { (n ≤ 56) × (value < 2 ^ n) }
    requires long { before ≤ vec_len bytes.old }
    ensures ok { IfOk result (Extends before bytes.old.items bytes.new.items (written_bits bytes.old.items last.1 last.0 ++ u_bits n value)) }
    ensures err { OnErr result (bytes.new.items ≡ take before bytes.old.items) }
{
    let mut left = last.1 + n;
    let mut word = u64::from(last.0) << n | value;
    'bytes: while left >= 8 {
        left -= 8;
        if bytes.push((word >> left) as u8).is_err() {
            bytes.truncate(before);
            return Err(AllocError);
        }
        word &= (1 << left) - 1;
    }
    Ok((word as u8, left))
}

// The ue(v) value that stands for a number in se(v) (9.2.2).
fn unsigned(value: i32) -> u32
    requires { negsuc (2 ^ 31 - 1) <ℤ value }
    ensures { result ≡ se_code value }
{
    let size = value.unsigned_abs();
    if value > 0 { 2 * size - 1 } else { 2 * size }
}
