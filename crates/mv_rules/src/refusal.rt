use crate::rule::Rule;

/// Why a stream is refused, and where: the first unit for which a rule holds, and the least rule that
/// holds there.
#[derive(Clone, Copy, Debug, PartialEq, Eq, Hash)]
pub struct Refusal {
    /// The unit's number, from 0. Where the input ended with no picture, the number of all units.
    pub unit: u64,
    /// The place in the input, in bytes: of the first byte after the unit's start code, of the offending
    /// byte for `Leading`, and for `NoPicture` the number of bytes read.
    pub byte: u64,
    /// The rule that holds.
    pub rule: Rule,
}

/// Why a header wasn't read: a rule refuses it, or memory ran out.
#[derive(Clone, Copy, Debug, PartialEq, Eq, Hash)]
pub enum ReadFault {
    /// This rule refuses the header.
    Refused(Rule),
    /// The allocator refused memory.
    Memory,
}
