use mv_rules::Rule;

/// Why a picture's inter-layer references, or a segment's lists, weren't made.
#[derive(Clone, Copy, Debug, PartialEq, Eq, Hash)]
pub enum ListFault {
    /// This rule is broken.
    Refused(Rule),
    /// The allocator refused memory.
    Memory,
}
