//! Flags that break a rule where they are 1.

ghost use Rattle.mv_syntax.specs.Table.{u, when};
ghost use Rattle.mv_syntax.specs.Words.{◌!◌∶◌, is_set};
ghost use Rattle.mv_fields.specs.Reading.{ReadsBy};

use crate::fault::Fault;
use crate::fields::u8_of;
use mv_bits::BitReader;
use mv_rules::Rule;

/// The next flag, u(1), which breaks the rule where it is 1.
///
/// `NoBits` where no bit is left.
pub fn unset_flag(bits: &mut BitReader, rule: Rule) -> Result<u8, Fault<Rule>>
    ensures { ReadsBy (u 1 ! rule ∶ is_set) bits.old bits.new result }
{
    let flag = u8_of(bits, 1)?;
    if flag == 1 {
        return Err(Fault::Breaks(rule));
    }
    Ok(flag)
}

/// The next flag, u(1), where it is present, which breaks the rule where it is 1.
///
/// `NoBits` where it is present and no bit is left.
pub fn unset_flag_if(
    bits: &mut BitReader,
    present: bool,
    rule: Rule,
) -> Result<Option<u8>, Fault<Rule>>
    ensures { ReadsBy (when present (u 1 ! rule ∶ is_set)) bits.old bits.new result }
{
    if !present {
        return Ok(None);
    }
    Ok(Some(unset_flag(bits, rule)?))
}
