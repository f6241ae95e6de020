//! Why a slice segment isn't taken.

ghost use Rattle.std.specs.Prelude.{◌≡◌};
ghost use Rattle.mv_walk_segment.specs.Fault.{of_lists};

use mv_reflists::ListFault;
use mv_rules::Rule;

/// Why a later segment of a picture isn't taken.
#[derive(Clone, Copy, Debug, PartialEq, Eq)]
pub enum SegmentFault {
    /// It breaks this rule.
    Refused(Rule),
    /// The allocator refused memory.
    Memory,
}

impl SegmentFault {
    /// The same of reference picture lists.
    pub(crate) fn of_lists(fault: ListFault) -> SegmentFault
        ensures { result ≡ of_lists fault }
    {
        match fault {
            ListFault::Refused(rule) => SegmentFault::Refused(rule),
            ListFault::Memory => SegmentFault::Memory,
        }
    }
}
