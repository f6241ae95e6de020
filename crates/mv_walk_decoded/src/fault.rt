//! Why a picture isn't decoded.
#![tactic(auto)]

ghost use Rattle.std.specs.Prelude.{◌≡◌};

use mv_rules::Rule;

/// Why a picture isn't decoded.
#[derive(Clone, Copy, Debug, PartialEq, Eq)]
pub enum DecideFault {
    /// It breaks this rule.
    Refused(Rule),
    /// The allocator refused memory.
    Memory,
}
