ghost use Rattle.std.specs.Prelude.{◌≡◌, ◌≢◌, ◌≤◌, ◌<◌, ◌^◌, ◌%◌, ◌+◌, ◌-◌, ◌*◌, ◌↔◌, IsTrue, IsErr, IfOk, OnOk, OnErr, length, [], Err, negsuc, ◌<ℤ◌, drop, nat_lt, ℕ, MatchOption, MatchResult};
ghost use Rattle.mv_syntax.specs.Bits.{short, kept, u_bits, ue_bits, se_bits, HasNoUe, take_bits, take_ue, take_se, trailing_bits, se_value, has_one, more_data, byte_bits};
ghost use Rattle.mv_bits.specs.Cursor.{Cursor, place, TakesPrinted, Takes};
ghost use Rattle.mv_bits.specs.inner.Window.{window_bits, IsWindow};

use crate::no_bits::NoBits;
use std::marker::Model;

/// Reads the bit codes of a byte string from its front, the most significant bit of each byte first (7.2).
///
/// A call that answers `NoBits` changes nothing.
#[derive(Drop)]
pub struct BitReader<'a> {
    // The bits in hand, as the number `word` of `count` bits, and the bytes behind them.
    word: u64,
    count: u8,
    bytes: &'a [u8],
    // The number of bytes in all, and of those up to the last that is not 0.
    whole: usize,
    set: usize,
}

impl<'a> Model for BitReader<'a> {
    ghost use Rattle.std.specs.Prelude.{◌+◌, ◌*◌, ◌≤◌, ◌<◌, ◌^◌, length};
    ghost use Rattle.mv_bits.specs.Cursor.{Cursor};
    ghost use Rattle.mv_bits.specs.inner.Window.{window_bits, SetKnown};

    ghost Value = { Cursor };

    ghost view = { λ r. record { total = 8 * r.whole; left = window_bits r.count r.word r.bytes.now } };

    ghost invariant = { λ r. (r.count < 64) × (r.word < 2 ^ r.count) × (r.count + 8 * length r.bytes.now ≤ 8 * r.whole) × SetKnown r.set r.whole r.bytes.now };
}

impl<'a> BitReader<'a> {
    /// A reader at the first bit of the bytes.
    pub fn new(bytes: &'a [u8]) -> BitReader<'a>
        ensures whole { result.total ≡ 8 * length bytes.now }
        ensures all { result.left ≡ byte_bits bytes.now }
    {
        BitReader {
            word: 0,
            count: 0,
            bytes,
            whole: bytes.len(),
            set: set_bytes(bytes),
        }
    }

    /// A second reader at the same place. It reads on by itself.
    pub fn fork(&self) -> BitReader<'a>
        ensures { result ≡ self.now }
    {
        BitReader {
            word: self.word,
            count: self.count,
            bytes: self.bytes,
            whole: self.whole,
            set: self.set,
        }
    }

    /// The next `n` bits as a number, u(n) (7.2), at most 64 bits.
    ///
    /// `NoBits` exactly where fewer than `n` bits are left.
    pub fn u(&mut self, n: u8) -> Result<u64, NoBits>
        requires { n ≤ 64 }
        ensures printed { TakesPrinted (u_bits n) self.old self.new result }
        ensures in_range { IfOk result (λ value. value < 2 ^ n) }
        ensures missing { IsErr result ↔ (length self.old.left < n) }
        ensures takes { Takes self.old self.new result (take_bits n 0 self.old.left) }
    {
        self.next_u(n)
    }

    /// The next ue(v) code (9.2), a value of 0 to 2^32 - 2.
    ///
    /// `NoBits` exactly where the code runs past the end or has more than 31 leading zeros.
    pub fn ue(&mut self) -> Result<u32, NoBits>
        ensures printed { TakesPrinted ue_bits self.old self.new result }
        ensures in_range { IfOk result (λ value. value < 2 ^ 32 - 1) }
        ensures missing { IsErr result ↔ HasNoUe self.old.left }
        ensures takes { Takes self.old self.new result (take_ue self.old.left) }
    {
        self.next_ue()
    }

    /// The next se(v) code (9.2.2), a value of -(2^31 - 1) to 2^31 - 1.
    ///
    /// `NoBits` exactly where `ue` answers it.
    pub fn se(&mut self) -> Result<i32, NoBits>
        ensures printed { TakesPrinted se_bits self.old self.new result }
        ensures in_range { IfOk result (λ value. negsuc (2 ^ 31 - 1) <ℤ value) }
        ensures missing { IsErr result ↔ HasNoUe self.old.left }
        ensures takes { Takes self.old self.new result (take_se self.old.left) }
    {
        self.next_se()
    }

    /// Whether the place is at the start of a byte, byte_aligned() (7.2).
    pub fn aligned(&self) -> bool
        ensures { IsTrue result ↔ (place self.now % 8 ≡ 0) }
    {
        self.count % 8 == 0
    }

    /// Whether something comes before the trailing bits, more_rbsp_data() (7.2): whether a set bit stands behind the
    /// next bit.
    pub fn more_data(&self) -> bool
        ensures { result ≡ more_data self.now.left }
    {
        if self.count > 0 {
            let low = self.word & ((1 << (self.count - 1)) - 1);
            return low != 0 || self.set > self.whole - self.bytes.len();
        }
        let Some((first, rest)) = self.bytes.split_first() else {
            return false;
        };
        first & 0x7F != 0 || self.set > self.whole - rest.len()
    }

    /// Takes the trailing bits, rbsp_trailing_bits() (7.3.2.11): a one and zeros to the end of the byte, which is
    /// the last. Nothing is left then.
    ///
    /// `NoBits` where what is left is not that.
    pub fn trailing(&mut self) -> Result<(), NoBits>
        ensures found { OnOk result (self.old.left ≡ trailing_bits (place self.old)) }
        ensures taken { OnOk result (self.new ≡ record { total = self.old.total; left = [] }) }
        ensures other { OnErr result (self.old.left ≢ trailing_bits (place self.old)) }
        ensures refused { OnErr result (self.new ≡ self.old) }
    {
        let Some((word, count, rest)) = self.next_bits() else {
            return Err(NoBits);
        };
        if count > 8 || word != 1 << (count - 1) || !rest.is_empty() {
            return Err(NoBits);
        }
        self.take_all();
        Ok(())
    }

    /// The number of bits taken.
    pub fn place(&self) -> u64
        requires { place self.now < 2 ^ 64 }
        ensures { result ≡ place self.now }
    {
        let begun = usize::from(self.count.div_ceil(8));
        let whole = self.whole - self.bytes.len() - begun;
        whole as u64 * 8 + (begun as u64 * 8 - u64::from(self.count))
    }

    // The bits in hand as a number, how many they are, and the bytes behind them: at least one bit, if any is left.
    pub(crate) fn next_bits(&self) -> Option<(u64, u8, &'a [u8])>
        ensures { MatchOption result (self.now.left ≡ []) (IsWindow self.now) }
    {
        if self.count > 0 {
            return Some((self.word, self.count, self.bytes));
        }
        let (first, rest) = self.bytes.split_first()?;
        Some((u64::from(*first), 8, rest))
    }

    // Takes all bits that are left.
    pub(crate) fn take_all(&mut self)
        ensures { self.new ≡ record { total = self.old.total; left = [] } }
    {
        self.word = 0;
        self.count = 0;
        self.bytes = &[];
    }

    // u(n) of at most 64 bits.
    fn next_u(&mut self, n: u8) -> Result<u64, NoBits>
        requires { n ≤ 64 }
        ensures { Takes self.old self.new result (take_bits n 0 self.old.left) }
    {
        if n <= 56 { self.short(n) } else { self.long(n) }
    }

    // u(n) of at most 56 bits, which fit the word beside what is in hand.
    fn short(&mut self, n: u8) -> Result<u64, NoBits>
        requires { n ≤ 56 }
        ensures { Takes self.old self.new result (take_bits n 0 self.old.left) }
    {
        'pull: while self.count < n {
            let Some((first, rest)) = self.bytes.split_first() else {
                return Err(NoBits);
            };
            self.word = self.word << 8 | u64::from(*first);
            self.count += 8;
            self.bytes = rest;
        }
        self.count -= n;
        let value = self.word >> self.count;
        self.word &= (1 << self.count) - 1;
        Ok(value)
    }

    // u(n) of 57 to 64 bits, in two parts.
    fn long(&mut self, n: u8) -> Result<u64, NoBits>
        requires { (56 < n) × (n ≤ 64) }
        ensures { Takes self.old self.new result (take_bits n 0 self.old.left) }
    {
        let mut ahead = self.fork();
        let high = ahead.short(n - 32)?;
        let low = ahead.short(32)?;
        *self = ahead;
        Ok(high << 32 | low)
    }

    fn next_ue(&mut self) -> Result<u32, NoBits>
        ensures { Takes self.old self.new result (take_ue self.old.left) }
    {
        if let Some(value) = self.ue_in_hand() {
            return Ok(value);
        }
        self.fill();
        if let Some(value) = self.ue_in_hand() {
            return Ok(value);
        }
        self.long_ue()
    }

    fn next_se(&mut self) -> Result<i32, NoBits>
        ensures { Takes self.old self.new result (take_se self.old.left) }
    {
        let code = self.ue()?;
        Ok(signed(code))
    }

    // Takes bytes in hand while there is room for one.
    fn fill(&mut self)
        ensures { self.new ≡ self.old }
    {
        'pull: while self.count < 56 {
            let Some((first, rest)) = self.bytes.split_first() else {
                return;
            };
            self.word = self.word << 8 | u64::from(*first);
            self.count += 8;
            self.bytes = rest;
        }
    }

    // The next ue(v) code, if it is whole in hand.
    fn ue_in_hand(&mut self) -> Option<u32>
        ensures { MatchOption result (self.new ≡ self.old) (λ value. (take_ue self.old.left ≡ Ok (value, self.new.left)) × (self.new.total ≡ self.old.total)) }
    {
        if self.word == 0 {
            return None;
        }
        // The bits behind the first one, and the zeros before it.
        let behind = self.word.ilog2() as u8;
        let zeros = self.count - 1 - behind;
        if behind < zeros {
            return None;
        }
        self.count = behind - zeros;
        let code = self.word >> self.count;
        self.word &= (1 << self.count) - 1;
        Some((code - 1) as u32)
    }

    // The next ue(v) code, bit by bit: for the few that are longer than what can be in hand, and at the end.
    fn long_ue(&mut self) -> Result<u32, NoBits>
        ensures { Takes self.old self.new result (take_ue self.old.left) }
    {
        let mut ahead = self.fork();
        let zeros = ahead.zeros()?;
        let low = ahead.short(zeros)?;
        *self = ahead;
        Ok((1 << zeros) - 1 + low as u32)
    }

    // The leading zeros of a ue(v) code, at most 31, and the one behind them.
    fn zeros(&mut self) -> Result<u8, NoBits>
        ensures code { MatchResult result (λ zeros. take_ue self.old.left ≡ kept (λ low. 2 ^ zeros - 1 + low) (take_bits zeros 0 self.new.left)) (λ _. take_ue self.old.left ≡ Err short) }
        ensures most { IfOk result (λ zeros. zeros ≤ 31) }
        ensures total { self.new.total ≡ self.old.total }
    {
        let mut zeros = 0;
        'count: while self.short(1)? == 0 {
            if zeros == 31 {
                return Err(NoBits);
            }
            zeros += 1;
        }
        Ok(zeros)
    }
}

// The number that a ue(v) value stands for in se(v) (9.2.2).
fn signed(code: u32) -> i32
    requires { code < 2 ^ 32 - 1 }
    ensures { result ≡ se_value code }
{
    let size = code.div_ceil(2) as i32;
    if code % 2 == 1 { size } else { -size }
}

// The number of bytes up to the last that is not 0.
fn set_bytes(bytes: &[u8]) -> usize
    ensures within { result ≤ length bytes.now }
    ensures known { (n : ℕ) → has_one (byte_bits (drop n bytes.now)) ≡ nat_lt n result }
{
    let mut set = bytes.len();
    'byte: while set > 0 {
        if bytes[set - 1] != 0 {
            return set;
        }
        set -= 1;
    }
    0
}
