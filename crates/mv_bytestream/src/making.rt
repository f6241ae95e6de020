//! The bytes of a unit in the making: what more of them show, and how they are kept.
#![tactic(auto)]

ghost use Rattle.std.specs.Prelude.{◌≡◌, ◌≢◌, ◌+◌, ◌<◌, ◌≤◌, ◌++◌, ◌∷◌, [], true, false, length, replicate, take, vec_len, vec_capacity, IfNone};
ghost use Rattle.mv_units.specs.Rules.{early_rule, has_emulation, longest_unit};
ghost use Rattle.mv_units.specs.Units.{has_code, trimmed};
ghost use Rattle.mv_bytestream.specs.Bytes.{IsQuiet, ends_three};

use memchr::memmem;
use mv_rules::Rule;

/// The greatest number of bytes of a unit, 2^24.
pub const LONGEST_UNIT: usize = 16_777_216;

// Two zero bytes, as each sequence that may not stand in a unit has them.
const TWO_ZEROS: [u8; 2] = [0, 0];

// The rule Emulation or Long, where a byte other than zero, behind `zeros` zero bytes, makes the unit break it.
pub fn rule_shown(unit: &[u8], zeros: u64, byte: u8) -> Option<Rule>
    requires most { length unit.now ≤ longest_unit }
    requires nonzero { byte ≢ 0 }
    ensures rule { IsQuiet unit.now → result ≡ early_rule (unit.now ++ (replicate zeros 0 ++ byte ∷ [])) }
    ensures few { IfNone result (zeros ≤ 2) }
    ensures fits { IfNone result (length unit.now + zeros + 1 ≤ longest_unit) }
{
    let room = (LONGEST_UNIT - unit.len()) as u64;
    let within = zeros.min(2) < room;
    if emulates(unit, zeros, byte) & within {
        Some(Rule::Emulation)
    } else if room <= zeros {
        Some(Rule::Long)
    } else {
        None
    }
}

// Whether a byte other than zero, behind `zeros` zero bytes, ends bytes that may not stand in a unit.
fn emulates(unit: &[u8], zeros: u64, byte: u8) -> bool
    requires nonzero { byte ≢ 0 }
    ensures value { IsQuiet unit.now → result ≡ has_emulation (unit.now ++ (replicate zeros 0 ++ byte ∷ [])) }
    ensures many { result ≡ false → zeros ≤ 2 }
{
    match zeros {
        0 => ends_in_three(unit) && byte > 3,
        1 => false,
        2 => byte == 2,
        _ => true,
    }
}

// Whether the unit ends in 00 00 03.
pub fn ends_in_three(unit: &[u8]) -> bool
    ensures { result ≡ ends_three unit.now }
{
    let len = unit.len();
    len >= 3 && unit[len - 3] == 0 && unit[len - 2] == 0 && unit[len - 1] == 3
}

// Puts zero bytes and one other behind the unit.
pub fn append(unit: &mut Vec<u8>, zeros: u64, byte: u8)
    requires few { zeros ≤ 2 }
    requires room { vec_len unit.old + zeros + 1 ≤ vec_capacity unit.old }
    ensures items { unit.new.items ≡ unit.old.items ++ (replicate zeros 0 ++ byte ∷ []) }
    ensures len { vec_len unit.new ≡ vec_len unit.old + zeros + 1 }
    ensures capacity { vec_capacity unit.old ≤ vec_capacity unit.new }
{
    unit.extend_from_slice(&TWO_ZEROS[..zeros as usize])
        .unwrap();
    unit.push_reserved(byte);
}

// How many bytes stand before the first two zero bytes in a row, less a zero byte at the end.
pub fn run_length(bytes: &[u8]) -> usize
    ensures within { result ≤ length bytes.now }
    ensures clean { has_code (take result bytes.now) ≡ false }
    ensures quiet { has_emulation (take result bytes.now) ≡ false }
    ensures ends { trimmed (take result bytes.now) ≡ take result bytes.now }
{
    match memmem::find(bytes, &TWO_ZEROS) {
        Some(at) => at,
        None if bytes.len() > 0 && bytes[bytes.len() - 1] == 0 => bytes.len() - 1,
        None => bytes.len(),
    }
}
