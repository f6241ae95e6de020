//! Numbers that break a rule where they are over a limit, and numbers of shared structures that have one.

ghost use Rattle.std.specs.Prelude.{◌≡◌, ◌≤◌, ◌+◌, ◌≢◌, IfOk, IfErr};
ghost use Rattle.mv_syntax.specs.Table.{u, ue, when};
ghost use Rattle.mv_syntax.specs.Words.{◌!◌∶◌, ◌unless◌, over, at_least, or_zero};
ghost use Rattle.mv_fields.specs.Reading.{ReadsBy, ReadsShared};
ghost use Rattle.mv_fields.specs.declared.fault.Fault.TheVariants.{Memory};

use crate::fault::{Fault, Limit};
use crate::fields::{u8_of, u32_of};
use mv_bits::BitReader;
use mv_rules::Rule;

/// The next field ue(v), which breaks the rule where it is over `limit`.
///
/// `NoBits` where no code stands there.
pub fn ue_within(bits: &mut BitReader, rule: Rule, limit: u32) -> Result<u32, Fault<Rule>>
    ensures fills { ReadsBy (ue ! rule ∶ over limit) bits.old bits.new result }
    ensures within { IfOk result (λ v. v ≤ limit) }
    ensures no_memory { IfErr result (λ fault. fault ≢ Memory) }
{
    let value = bits.ue()?;
    if value > limit {
        return Err(Fault::Breaks(rule));
    }
    Ok(value)
}

/// The next field ue(v), where it is present, which breaks the rule where it is over `limit`.
///
/// `NoBits` where it is present and no code stands there.
pub fn ue_within_if(
    bits: &mut BitReader,
    present: bool,
    rule: Rule,
    limit: u32,
) -> Result<Option<u32>, Fault<Rule>>
    ensures fills { ReadsBy (when present (ue ! rule ∶ over limit)) bits.old bits.new result }
    ensures within { IfOk result (λ field. or_zero field ≤ limit) }
{
    if !present {
        return Ok(None);
    }
    Ok(Some(ue_within(bits, rule, limit)?))
}

/// The next field ue(v), which breaks the rule where the sum of it and `first` is over `limit`.
///
/// `NoBits` where no code stands there.
pub fn ue_sum_within(
    bits: &mut BitReader,
    first: u32,
    rule: Rule,
    limit: u32,
) -> Result<u32, Fault<Rule>>
    ensures { ReadsBy (ue ! rule ∶ (λ n. over limit (first + n))) bits.old bits.new result }
{
    let value = bits.ue()?;
    if u64::from(first) + u64::from(value) > u64::from(limit) {
        return Err(Fault::Breaks(rule));
    }
    Ok(value)
}

/// The next field u(n) of at most 8 bits, which breaks the rule where it is over `limit`.
///
/// `NoBits` where fewer bits are left.
pub fn u8_within(bits: &mut BitReader, n: u8, rule: Rule, limit: u8) -> Result<u8, Fault<Rule>>
    requires { n ≤ 8 }
    ensures { ReadsBy (u n ! rule ∶ over limit) bits.old bits.new result }
{
    let value = u8_of(bits, n)?;
    if value > limit {
        return Err(Fault::Breaks(rule));
    }
    Ok(value)
}

/// The next field u(n) of at most 32 bits, where it is present, which breaks the rule where it is over `limit`.
///
/// `NoBits` where it is present and fewer bits are left.
pub fn u32_within_if(
    bits: &mut BitReader,
    present: bool,
    n: u8,
    rule: Rule,
    limit: u32,
) -> Result<Option<u32>, Fault<Rule>>
    requires { n ≤ 32 }
    ensures { ReadsBy (when present (u n ! rule ∶ over limit)) bits.old bits.new result }
{
    if !present {
        return Ok(None);
    }
    let value = u32_of(bits, n)?;
    if value > limit {
        return Err(Fault::Breaks(rule));
    }
    Ok(Some(value))
}

/// The next field u(n) of at most 8 bits, where it is present, which breaks the rule where it is not below `bound`.
///
/// `NoBits` where it is present and fewer bits are left.
pub fn u8_below_if(
    bits: &mut BitReader,
    present: bool,
    n: u8,
    rule: Rule,
    bound: u32,
) -> Result<Option<u8>, Fault<Rule>>
    requires { n ≤ 8 }
    ensures { ReadsBy (when present (u n ! rule ∶ at_least bound)) bits.old bits.new result }
{
    if !present {
        return Ok(None);
    }
    let value = u8_of(bits, n)?;
    if u32::from(value) >= bound {
        return Err(Fault::Breaks(rule));
    }
    Ok(Some(value))
}

/// The next field ue(v) of a shared structure, which is past its limit where it is over `limit`.
///
/// `NoBits` where no code stands there.
pub fn ue_limited(bits: &mut BitReader, limit: u32) -> Result<u32, Fault<Limit>>
    ensures fills { ReadsShared (ue unless over limit) bits.old bits.new result }
    ensures within { IfOk result (λ v. v ≤ limit) }
{
    let value = bits.ue()?;
    if value > limit {
        return Err(Fault::Breaks(Limit));
    }
    Ok(value)
}

/// The same, where it is present.
///
/// `NoBits` where it is present and no code stands there.
pub fn ue_limited_if(
    bits: &mut BitReader,
    present: bool,
    limit: u32,
) -> Result<Option<u32>, Fault<Limit>>
    ensures fills { ReadsShared (when present (ue unless over limit)) bits.old bits.new result }
    ensures within { IfOk result (λ field. or_zero field ≤ limit) }
{
    if !present {
        return Ok(None);
    }
    Ok(Some(ue_limited(bits, limit)?))
}
