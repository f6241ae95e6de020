//! The tests of a length and of a unit's bytes.
#![tactic(auto)]

ghost use Rattle.std.specs.Prelude.{◌≡◌, ◌||◌, length, cond, None, Some};
ghost use Rattle.mv_units.specs.Rules.{begins_emulation, has_emulation};
ghost use Rattle.mv_units.specs.Units.{has_code};
ghost use Rattle.mv_prefixed.specs.Reading.{bytes_rule as least_bytes_rule, length_rule as least_length_rule, spelled};
ghost use Rattle.mv_lenform.specs.Tests.{begins_code};

use memchr::memchr;
use mv_rules::Rule;

/// The greatest number of bytes of a unit, 2^24.
pub const LONGEST_UNIT: u32 = 16_777_216;

// The length that four bytes spell, the most significant first.
pub fn number(length: &[u8; 4]) -> u32
    ensures number { result ≡ spelled length.now }
{
    let [a, b, c, d] = *length;
    u32::from_be_bytes([a, b, c, d])
}

// The rule that a length breaks.
pub fn length_rule(length: u32) -> Option<Rule>
    ensures { result ≡ least_length_rule length }
{
    if length < 2 {
        Some(Rule::Short)
    } else if length > LONGEST_UNIT {
        Some(Rule::Long)
    } else {
        None
    }
}

// The least of the rules that the bytes of a unit break, whose length breaks none.
pub fn bytes_rule(unit: &[u8]) -> Option<Rule>
    ensures { result ≡ least_bytes_rule unit.now }
{
    match inner_code(unit) {
        None => Some(Rule::Emulation),
        Some(true) => Some(Rule::InnerCode),
        Some(false) if unit.len() == 0 || unit[unit.len() - 1] == 0 => Some(Rule::LastZero),
        Some(false) => None,
    }
}

// Whether a start code stands in the bytes, or None where bytes stand there that may stand nowhere in a unit.
fn inner_code(unit: &[u8]) -> Option<bool>
    ensures { result ≡ cond (has_emulation unit.now) None (Some (has_code unit.now)) }
{
    let mut at = 0;
    let mut code = false;
    while let Some(zero) = memchr(0, &unit[at..]) {
        at += zero;
        if emulates(&unit[at..]) {
            return None;
        }
        code = code | starts(&unit[at..]);
        at += 1;
    }
    Some(code)
}

// Whether the bytes begin with 00 00 00, 00 00 02, or 00 00 03 and a byte above 03.
fn emulates(bytes: &[u8]) -> bool
    ensures { result ≡ begins_emulation bytes.now }
{
    match bytes {
        [0, 0, 0 | 2, ..] => true,
        [0, 0, 3, next, ..] => *next > 3,
        _ => false,
    }
}

// Whether the bytes begin with 00 00 01.
fn starts(bytes: &[u8]) -> bool
    ensures { result ≡ begins_code bytes.now }
{
    match bytes {
        [0, 0, 1, ..] => true,
        _ => false,
    }
}
