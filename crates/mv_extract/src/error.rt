//! Why a call that does a task of the units of a stream ends before its end.
#![tactic(auto)]

ghost use Rattle.std.specs.Prelude.{◌≡◌};
ghost use Rattle.mv_extract.specs.Errors.{stopped, told};

use mv_engine::DriveError;
use mv_judging::{Objection, Stop};
use mv_rules::Refusal;
use thiserror::Error;

/// Why a visitor that writes on a sink couldn't go on.
#[derive(Clone, Copy, Debug, PartialEq, Eq)]
pub enum WorkFault {
    /// A write to the sink failed.
    Write,
    /// The allocator refused memory.
    Memory,
}

/// Why an extraction didn't come to its end.
#[derive(Clone, Copy, Debug, PartialEq, Eq, Error)]
pub enum ExtractError {
    /// A rule refuses the stream.
    #[error("refused")]
    Refused(Refusal),
    /// A video parameter set, the first or a changed one, was accepted that hasn't the output layer set `asked`, but
    /// `count` of them.
    #[error("no such set")]
    NoSuchSet {
        /// The number of the set that was asked for.
        asked: u32,
        /// How many sets the video parameter set has.
        count: u32,
    },
    /// A read of the source failed.
    #[error("read fault")]
    Read,
    /// A write to the sink failed.
    #[error("write fault")]
    Write,
    /// The source has more bytes than the limit.
    #[error("too long")]
    TooLong,
    /// The allocator refused memory.
    #[error("no memory")]
    Memory,
}

impl ExtractError {
    /// The error of a run whose visitor writes on a sink.
    pub fn of(error: DriveError<WorkFault>) -> ExtractError
        ensures { result ≡ told error }
    {
        match error {
            DriveError::Stopped(stop) => ExtractError::at(stop),
            DriveError::Read => ExtractError::Read,
            DriveError::TooLong => ExtractError::TooLong,
            DriveError::Memory => ExtractError::Memory,
            DriveError::Fault(WorkFault::Write) => ExtractError::Write,
            DriveError::Fault(WorkFault::Memory) => ExtractError::Memory,
        }
    }

    // The error of a run that stopped there.
    fn at(stop: Stop) -> ExtractError
        ensures { result ≡ stopped stop }
    {
        match stop.why {
            Objection::Breaks(rule) => ExtractError::Refused(Refusal {
                unit: stop.unit,
                byte: stop.byte,
                rule,
            }),
            Objection::NoSuchSet { asked, count } => ExtractError::NoSuchSet { asked, count },
        }
    }
}
