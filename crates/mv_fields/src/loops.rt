//! Loops of single fields.

ghost use Rattle.std.specs.Prelude.{◌≤◌, option_map};
ghost use Rattle.mv_syntax.specs.Table.{when};
ghost use Rattle.mv_syntax.specs.Loops.{us, ues, ses};
ghost use Rattle.mv_fields.specs.Reading.{ReadsAs};

use crate::fault::Fault;
use crate::fields::{u8_of, u32_of};
use mv_bits::BitReader;
use mv_rules::Rule;
use std::alloc::Global;

/// The next `n` fields u(width) of at most 8 bits each.
///
/// `NoBits` where the bits end before. `Memory` where memory runs out.
#[tactic(auto, using(mv_syntax::proofs::LoopLaws::item_steps), unfolding(mv_syntax::specs::Loops::each))]
pub fn u8s_of(
    alloc: Global,
    bits: &mut BitReader,
    n: u32,
    width: u8,
) -> Result<Vec<u8>, Fault<Rule>>
    requires { width ≤ 8 }
    ensures { ReadsAs (λ v. v.items) (us 0 n width) bits.old bits.new result }
{
    let mut all = Vec::new(alloc);
    for i in 0..n {
        all.push(u8_of(bits, width)?)?;
    }
    Ok(all)
}

/// The same, where they are present.
///
/// `NoBits` where they are and the bits end before. `Memory` where memory runs out.
pub fn u8s_if(
    alloc: Global,
    bits: &mut BitReader,
    present: bool,
    n: u32,
    width: u8,
) -> Result<Option<Vec<u8>>, Fault<Rule>>
    requires { width ≤ 8 }
    ensures { ReadsAs (λ o. option_map (λ v. v.items) o) (when present (us 0 n width)) bits.old bits.new result }
{
    if !present {
        return Ok(None);
    }
    Ok(Some(u8s_of(alloc, bits, n, width)?))
}

/// The next `n` fields u(width) of at most 32 bits each.
///
/// `NoBits` where the bits end before. `Memory` where memory runs out.
#[tactic(auto, using(mv_syntax::proofs::LoopLaws::item_steps), unfolding(mv_syntax::specs::Loops::each))]
pub fn u32s_of(
    alloc: Global,
    bits: &mut BitReader,
    n: u32,
    width: u8,
) -> Result<Vec<u32>, Fault<Rule>>
    requires { width ≤ 32 }
    ensures { ReadsAs (λ v. v.items) (us 0 n width) bits.old bits.new result }
{
    let mut all = Vec::new(alloc);
    for i in 0..n {
        all.push(u32_of(bits, width)?)?;
    }
    Ok(all)
}

/// The next `n` fields ue(v).
///
/// `NoBits` where no code stands where one has to. `Memory` where memory runs out.
#[tactic(auto, using(mv_syntax::proofs::LoopLaws::item_steps), unfolding(mv_syntax::specs::Loops::each))]
pub fn ues_of(alloc: Global, bits: &mut BitReader, n: u32) -> Result<Vec<u32>, Fault<Rule>>
    ensures { ReadsAs (λ v. v.items) (ues 0 n) bits.old bits.new result }
{
    let mut all = Vec::new(alloc);
    for i in 0..n {
        all.push(bits.ue()?)?;
    }
    Ok(all)
}

/// The same, where they are present.
///
/// `NoBits` where they are and no code stands where one has to. `Memory` where memory runs out.
pub fn ues_if(
    alloc: Global,
    bits: &mut BitReader,
    present: bool,
    n: u32,
) -> Result<Option<Vec<u32>>, Fault<Rule>>
    ensures { ReadsAs (λ o. option_map (λ v. v.items) o) (when present (ues 0 n)) bits.old bits.new result }
{
    if !present {
        return Ok(None);
    }
    Ok(Some(ues_of(alloc, bits, n)?))
}
