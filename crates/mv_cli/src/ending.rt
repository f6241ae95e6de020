ghost use Rattle.std.specs.Prelude.{◌≡◌};

use mv_extract::ExtractError;
use mv_rules::Refusal;

/// How a run of the program ends.
#[derive(Clone, Copy, Debug, PartialEq, Eq)]
pub enum Ending {
    /// The job is done, and the input was read to its end.
    Done,
    /// The stream is refused.
    Refused(Refusal),
    /// The words are no form.
    Usage,
    /// A read of the input failed.
    ReadFault,
    /// A write to the output failed.
    WriteFault,
    /// The allocator refused memory.
    NoMemory,
    /// A video parameter set hasn't the output layer set that was asked for, but `count` of them.
    NoSuchSet {
        /// The number of the set that was asked for.
        asked: u32,
        /// How many sets the video parameter set has.
        count: u32,
    },
    /// The input has more bytes than the limit.
    TooLong,
}

impl Ending {
    ghost use Rattle.mv_cli.specs.Ending.{ending_of, status_of};

    /// The ending of a command that answered so.
    pub fn of<T: Drop>(answer: Result<T, ExtractError>) -> Ending
        ensures { result ≡ ending_of answer }
    {
        match answer {
            Ok(_) => Ending::Done,
            Err(ExtractError::Refused(refusal)) => Ending::Refused(refusal),
            Err(ExtractError::NoSuchSet { asked, count }) => Ending::NoSuchSet { asked, count },
            Err(ExtractError::Read) => Ending::ReadFault,
            Err(ExtractError::Write) => Ending::WriteFault,
            Err(ExtractError::TooLong) => Ending::TooLong,
            Err(ExtractError::Memory) => Ending::NoMemory,
        }
    }

    /// The exit status: 0 where the job is done, and else a number from 1 to 7.
    pub fn status(&self) -> u8
        ensures { result ≡ status_of self.now }
    {
        match self {
            Ending::Done => 0,
            Ending::Refused(_) => 1,
            Ending::Usage => 2,
            Ending::ReadFault => 3,
            Ending::WriteFault => 4,
            Ending::NoMemory => 5,
            Ending::NoSuchSet { asked: _, count: _ } => 6,
            Ending::TooLong => 7,
        }
    }
}
