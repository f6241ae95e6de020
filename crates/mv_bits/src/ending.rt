//! The end of a payload: a tail, whose bits this version of the standard gives no meaning, and the trailing bits.

ghost use Rattle.std.specs.Prelude.{◌≡◌, ◌≢◌, ◌≤◌, ◌<◌, ◌^◌, ◌++◌, [], List, Bool, Option, Some, MatchOption, IfOk, IfErr, OnOk, OnErr, is_some, option_map, length, ◌%◌};
ghost use Rattle.mv_syntax.specs.Bits.{u_bits, byte_bits, trailing_bits};
ghost use Rattle.mv_syntax.specs.Cursor.{place};
ghost use Rattle.mv_syntax.specs.Ending.{tail_bits, end_bits};
ghost use Rattle.mv_syntax.specs.inner.Ending.{read_end};
ghost use Rattle.mv_syntax.specs.inner.Filling.{FillsPayload};
ghost use Rattle.mv_bits.specs.Ending.{Misses, means};
ghost use Rattle.mv_bits.specs.inner.Tail.{tail_of, Before, IsTail, LacksOne};

use crate::end_fault::EndFault;
use crate::reader::BitReader;
use crate::writer::BitWriter;
use std::alloc::{AllocError, Global};

// The bits of a tail where they stand: those in hand, whole bytes, and those before the last set bit.
#[derive(Drop)]
struct Tail<'a> {
    first: (u64, u8),
    bytes: &'a [u8],
    last: (u64, u8),
}

impl<'a> BitReader<'a> {
    /// Takes a tail and the trailing bits, rbsp_trailing_bits() (7.3.2.11), which end what is left: the tail is all bits before
    /// the last set bit. Nothing is left then. It takes time in proportion to the tail.
    ///
    /// `NoBits` exactly where no tail and trailing bits stand there, which is where no bit of the last byte is left and set;
    /// `Memory` where memory runs out. Nothing moves then.
    pub fn tail(&mut self, alloc: Global) -> Result<Vec<bool>, EndFault>
        ensures found { IfOk result (λ tail. self.old.left ≡ end_bits (place self.old) (Some tail.items)) }
        ensures taken { OnOk result (self.new ≡ record { total = self.old.total; left = [] }) }
        ensures missing { IfErr result (Misses ((tail : List Bool) → self.old.left ≢ end_bits (place self.old) (Some tail))) }
        ensures refused { OnErr result (self.new ≡ self.old) }
    {
        let Some(tail) = tail_left(self) else {
            return Err(EndFault::NoBits);
        };
        let Ok(bits) = tail_bits_of(alloc, &tail) else {
            return Err(EndFault::Memory);
        };
        self.take_all();
        Ok(bits)
    }
}

// Of a number of `count` bits, those before its last set bit, if that is one of the last eight.
fn before_last_one(word: u64, count: u8) -> Option<(u64, u8)>
    requires { (count ≤ 64) × (word < 2 ^ count) }
    ensures { MatchOption result (LacksOne (u_bits count word)) (Before (u_bits count word)) }
{
    let zeros = word.trailing_zeros() as u8;
    if zeros > 7 {
        return None;
    }
    Some((word >> (zeros + 1), count - 1 - zeros))
}

// The tail of what is left, if that ends with trailing bits.
fn tail_left<'a>(bits: &BitReader<'a>) -> Option<Tail<'a>>
    ensures { MatchOption result (LacksOne bits.now.left) (IsTail bits.now) }
{
    let (word, count, rest) = bits.next_bits()?;
    let Some((last, bytes)) = rest.split_last() else {
        let last = before_last_one(word, count)?;
        return Some(Tail {
            first: (0, 0),
            bytes: rest,
            last,
        });
    };
    let last = before_last_one(u64::from(*last), 8)?;
    Some(Tail {
        first: (word, count),
        bytes,
        last,
    })
}

// Appends the `n` bits of a number.
fn push_bits(tail: &mut Vec<bool>, value: u64, n: u8) -> Result<(), AllocError>
    requires { n ≤ 64 }
    ensures { OnOk result (tail.new.items ≡ tail.old.items ++ u_bits n value) }
{
    let mut left = n;
    'bit: while left > 0 {
        left -= 1;
        tail.push(value >> left & 1 == 1)?;
    }
    Ok(())
}

fn push_bytes(tail: &mut Vec<bool>, bytes: &[u8]) -> Result<(), AllocError>
    ensures { OnOk result (tail.new.items ≡ tail.old.items ++ byte_bits bytes.now) }
{
    for byte in bytes {
        push_bits(tail, u64::from(*byte), 8)?;
    }
    Ok(())
}

fn tail_bits_of(alloc: Global, tail: &Tail) -> Result<Vec<bool>, AllocError>
    requires { (tail.now.first.1 ≤ 64) × (tail.now.last.1 ≤ 64) }
    ensures { IfOk result (λ bits. bits.items ≡ tail_of tail.now) }
{
    let mut bits = Vec::new(alloc);
    push_bits(&mut bits, tail.first.0, tail.first.1)?;
    push_bytes(&mut bits, tail.bytes)?;
    push_bits(&mut bits, tail.last.0, tail.last.1)?;
    Ok(bits)
}

/// Takes what stands behind the fields of a payload: a tail where `has_tail`, and the trailing bits, rbsp_trailing_bits()
/// (7.3.2.11), which end the payload. Nothing is left then.
///
/// `NoBits` exactly where what is left is not that; `Memory` where memory runs out. Nothing moves then.
#[tactic(auto, using(mv_syntax::proofs::PayloadLaws::end_there, mv_syntax::proofs::PayloadLaws::end_missing))]
pub fn payload_end_of(
    alloc: Global,
    bits: &mut BitReader,
    has_tail: bool,
) -> Result<Option<Vec<bool>>, EndFault>
    ensures found { IfOk result (λ tail. (is_some tail ≡ has_tail) × (bits.old.left ≡ end_bits (place bits.old) (option_map (λ v. v.items) tail))) }
    ensures missing { IfErr result (Misses ((tail : Option (List Bool)) → is_some tail ≡ has_tail → bits.old.left ≢ end_bits (place bits.old) tail)) }
    ensures taken { OnOk result (bits.new ≡ record { total = bits.old.total; left = [] }) }
    ensures refused { OnErr result (bits.new ≡ bits.old) }
    ensures fills { FillsPayload (λ o. option_map (λ v. v.items) o) means result (read_end has_tail (place bits.old) bits.old.left) }
{
    if has_tail {
        return match bits.tail(alloc) {
            Ok(tail) => Ok(Some(tail)),
            Err(fault) => Err(fault),
        };
    }
    match bits.trailing() {
        Ok(()) => Ok(None),
        Err(_) => Err(EndFault::NoBits),
    }
}

// The number of at most 64 bits, the first of which is the highest.
fn number_of(bits: &[bool]) -> u64
    requires { length bits.now ≤ 64 }
    ensures bits { u_bits (length bits.now) result ≡ bits.now }
    ensures in_range { result < 2 ^ length bits.now }
{
    let mut number = 0;
    for bit in bits {
        number = number << 1 | u64::from(*bit);
    }
    number
}

fn put_piece(out: &mut BitWriter, piece: &[bool]) -> Result<(), AllocError>
    requires { length piece.now ≤ 64 }
    ensures { OnOk result (out.new ≡ out.old ++ piece.now) }
{
    out.u(piece.len() as u8, number_of(piece))
}

fn put_tail(out: &mut BitWriter, tail: &[bool]) -> Result<(), AllocError>
    ensures { OnOk result (out.new ≡ out.old ++ tail.now) }
{
    let mut rest = tail;
    'piece: while rest.len() > 64 {
        let (piece, behind) = rest.split_at(64);
        put_piece(out, piece)?;
        rest = behind;
    }
    put_piece(out, rest)
}

fn put_tail_if(out: &mut BitWriter, tail: &Option<Vec<bool>>) -> Result<(), AllocError>
    ensures { OnOk result (out.new ≡ out.old ++ tail_bits (option_map (λ v. v.items) tail.now)) }
{
    match tail {
        Some(tail) => put_tail(out, tail),
        None => Ok(()),
    }
}

/// Writes the end of a payload: the bits of its tail, if it has one, and the trailing bits, rbsp_trailing_bits() (7.3.2.11).
/// The bits are whole bytes then.
///
/// `AllocError` where memory runs out; some of the bits may stand there then.
pub fn put_payload_end(out: &mut BitWriter, tail: &Option<Vec<bool>>) -> Result<(), AllocError>
    ensures ok { OnOk result (out.new ≡ out.old ++ end_bits (length out.old) (option_map (λ v. v.items) tail.now)) }
    ensures whole { OnOk result (length out.new % 8 ≡ 0) }
{
    put_tail_if(out, tail)?;
    out.trailing()
}
