//! Why a video parameter set isn't taken.
#![tactic(auto)]

use mv_rules::Rule;

/// Why a unit that is a video parameter set isn't taken.
#[derive(Clone, Copy, Debug, PartialEq, Eq)]
pub enum VpsFault {
    /// It breaks this rule.
    Refused(Rule),
    /// It hasn't the output layer set that is asked for: it has `count` of them.
    NoSuchSet { asked: u32, count: u32 },
    /// The allocator refused memory.
    Memory,
}
