//! Why a walk ends.
#![tactic(auto)]

ghost use Rattle.std.specs.Prelude.{◌≡◌};
ghost use Rattle.mv_walk.specs.Ending.{error_of, of_decided, of_read, of_segment, of_vps};

use mv_rules::{ReadFault, Refusal, Rule};
use mv_walk_decoded::DecideFault;
use mv_walk_segment::SegmentFault;
use mv_walk_sets::VpsFault;

/// Why a walker can't go on. After that each of its calls answers the same.
#[derive(Clone, Copy, Debug, PartialEq, Eq)]
pub enum WalkError {
    /// A rule refuses the stream.
    Refused(Refusal),
    /// A video parameter set was accepted that hasn't the output layer set that is asked for, but `count` of them.
    NoSuchSet { asked: u32, count: u32 },
    /// The viewer failed.
    View,
    /// The allocator refused memory.
    Memory,
}

/// Why a unit, or the end, isn't taken.
#[derive(Clone, Copy, Debug, PartialEq, Eq)]
pub(crate) enum Stop {
    /// It breaks this rule.
    Breaks(Rule),
    /// It is a video parameter set that hasn't the output layer set that is asked for.
    Lacks { asked: u32, count: u32 },
    /// The viewer failed.
    View,
    /// The allocator refused memory.
    Memory,
}

impl Stop {
    /// The same of what a unit carries.
    pub(crate) fn of_read(fault: ReadFault) -> Stop
        ensures { result ≡ of_read fault }
    {
        match fault {
            ReadFault::Refused(rule) => Stop::Breaks(rule),
            ReadFault::Memory => Stop::Memory,
        }
    }

    /// The same of a video parameter set.
    pub(crate) fn of_vps(fault: VpsFault) -> Stop
        ensures { result ≡ of_vps fault }
    {
        match fault {
            VpsFault::Refused(rule) => Stop::Breaks(rule),
            VpsFault::NoSuchSet { asked, count } => Stop::Lacks { asked, count },
            VpsFault::Memory => Stop::Memory,
        }
    }

    /// The same of a decoded picture.
    pub(crate) fn of_decided(fault: DecideFault) -> Stop
        ensures { result ≡ of_decided fault }
    {
        match fault {
            DecideFault::Refused(rule) => Stop::Breaks(rule),
            DecideFault::Memory => Stop::Memory,
        }
    }

    /// The same of a later segment.
    pub(crate) fn of_segment(fault: SegmentFault) -> Stop
        ensures { result ≡ of_segment fault }
    {
        match fault {
            SegmentFault::Refused(rule) => Stop::Breaks(rule),
            SegmentFault::Memory => Stop::Memory,
        }
    }
}

/// What is answered where the unit with this number and place isn't taken.
pub(crate) fn error_of(stop: Stop, unit: u64, byte: u64) -> WalkError
    ensures { result ≡ error_of stop unit byte }
{
    match stop {
        Stop::Breaks(rule) => WalkError::Refused(Refusal { unit, byte, rule }),
        Stop::Lacks { asked, count } => WalkError::NoSuchSet { asked, count },
        Stop::View => WalkError::View,
        Stop::Memory => WalkError::Memory,
    }
}
