//! Single fields, at the type that holds them.

ghost use Rattle.std.specs.Prelude.{◌≡◌, ◌≤◌};
ghost use Rattle.mv_syntax.specs.Table.{u, ue, se, when};
ghost use Rattle.mv_syntax.specs.Words.{coded_set, or_zero};
ghost use Rattle.mv_fields.specs.Reading.{TakesBy};

use mv_bits::{BitReader, NoBits};

/// Whether a flag is coded and is 1.
pub fn coded_set(flag: Option<u8>) -> bool
    ensures { result ≡ coded_set flag }
{
    match flag {
        Some(flag) => flag == 1,
        None => false,
    }
}

/// The value of a field, or 0 where it is not coded.
pub fn or_zero(field: Option<u32>) -> u32
    ensures { result ≡ or_zero field }
{
    match field {
        Some(field) => field,
        None => 0,
    }
}

/// The next field u(n) of at most 8 bits.
///
/// `NoBits` where fewer bits are left.
pub fn u8_of(bits: &mut BitReader, n: u8) -> Result<u8, NoBits>
    requires { n ≤ 8 }
    ensures { TakesBy (u n) bits.old bits.new result }
{
    let value = bits.u(n)?;
    Ok(value as u8)
}

/// The next field u(n) of at most 16 bits.
///
/// `NoBits` where fewer bits are left.
pub fn u16_of(bits: &mut BitReader, n: u8) -> Result<u16, NoBits>
    requires { n ≤ 16 }
    ensures { TakesBy (u n) bits.old bits.new result }
{
    let value = bits.u(n)?;
    Ok(value as u16)
}

/// The next field u(n) of at most 32 bits.
///
/// `NoBits` where fewer bits are left.
pub fn u32_of(bits: &mut BitReader, n: u8) -> Result<u32, NoBits>
    requires { n ≤ 32 }
    ensures { TakesBy (u n) bits.old bits.new result }
{
    let value = bits.u(n)?;
    Ok(value as u32)
}

/// The next field u(n) of at most 64 bits.
///
/// `NoBits` where fewer bits are left.
pub fn u64_of(bits: &mut BitReader, n: u8) -> Result<u64, NoBits>
    requires { n ≤ 64 }
    ensures { TakesBy (u n) bits.old bits.new result }
{
    bits.u(n)
}

/// The next field u(n) of at most 8 bits, where it is present.
///
/// `NoBits` where it is and fewer bits are left.
pub fn u8_if(bits: &mut BitReader, present: bool, n: u8) -> Result<Option<u8>, NoBits>
    requires { n ≤ 8 }
    ensures { TakesBy (when present (u n)) bits.old bits.new result }
{
    if !present {
        return Ok(None);
    }
    Ok(Some(u8_of(bits, n)?))
}

/// The next field u(n) of at most 16 bits, where it is present.
///
/// `NoBits` where it is and fewer bits are left.
pub fn u16_if(bits: &mut BitReader, present: bool, n: u8) -> Result<Option<u16>, NoBits>
    requires { n ≤ 16 }
    ensures { TakesBy (when present (u n)) bits.old bits.new result }
{
    if !present {
        return Ok(None);
    }
    Ok(Some(u16_of(bits, n)?))
}

/// The next field u(n) of at most 32 bits, where it is present.
///
/// `NoBits` where it is and fewer bits are left.
pub fn u32_if(bits: &mut BitReader, present: bool, n: u8) -> Result<Option<u32>, NoBits>
    requires { n ≤ 32 }
    ensures { TakesBy (when present (u n)) bits.old bits.new result }
{
    if !present {
        return Ok(None);
    }
    Ok(Some(u32_of(bits, n)?))
}

/// The next field ue(v), where it is present.
///
/// `NoBits` where it is and no code stands there.
pub fn ue_if(bits: &mut BitReader, present: bool) -> Result<Option<u32>, NoBits>
    ensures { TakesBy (when present ue) bits.old bits.new result }
{
    if !present {
        return Ok(None);
    }
    Ok(Some(bits.ue()?))
}

/// The next field se(v), where it is present.
///
/// `NoBits` where it is and no code stands there.
pub fn se_if(bits: &mut BitReader, present: bool) -> Result<Option<i32>, NoBits>
    ensures { TakesBy (when present se) bits.old bits.new result }
{
    if !present {
        return Ok(None);
    }
    Ok(Some(bits.se()?))
}
