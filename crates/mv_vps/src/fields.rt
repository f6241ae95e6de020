//! Single fields of which one value breaks a rule.

ghost use Rattle.std.specs.Prelude.{◌≢◌, ◌≤◌, ◌<◌, ◌^◌, IfOk};
ghost use Rattle.mv_syntax.specs.Table.{u};
ghost use Rattle.mv_syntax.specs.Words.{◌!◌∶◌, is};
ghost use Rattle.mv_fields.specs.Reading.{ReadsBy};
ghost use Rattle.mv_rules.specs.declared.rule.Rule.TheVariants.{ExternalBase, VpsLimit};

use mv_bits::BitReader;
use mv_fields::{Fault, u8_of};
use mv_rules::Rule;

/// The next flag, which has to be 1: the base layer is in the stream and available.
pub(crate) fn base_flag(bits: &mut BitReader) -> Result<u8, Fault<Rule>>
    ensures { ReadsBy (u 1 ! ExternalBase ∶ is 0) bits.old bits.new result }
{
    let flag = u8_of(bits, 1)?;
    if flag == 0 {
        return Err(Fault::Breaks(Rule::ExternalBase));
    }
    Ok(flag)
}

/// The next field u(n), which breaks the limit rule where it is `reserved`.
pub(crate) fn u8_except(bits: &mut BitReader, n: u8, reserved: u8) -> Result<u8, Fault<Rule>>
    requires { n ≤ 8 }
    ensures fills { ReadsBy (u n ! VpsLimit ∶ is reserved) bits.old bits.new result }
    ensures within { IfOk result (λ value. value < 2 ^ n) }
    ensures other { IfOk result (λ value. value ≢ reserved) }
{
    let value = bits.u(n)? as u8;
    if value == reserved {
        return Err(Fault::Breaks(Rule::VpsLimit));
    }
    Ok(value)
}
