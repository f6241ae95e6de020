use mv_judging::{Objection, Stop};

/// Why a visitor ends a run.
#[derive(Clone, Copy, Debug, PartialEq, Eq)]
pub enum Ending<F> {
    /// It objects to the unit, or to the end of the input.
    Objects(Objection),
    /// It can't go on.
    Fault(F),
}

/// Why a run didn't come to its end.
#[derive(Clone, Copy, Debug, PartialEq, Eq)]
pub enum DriveError<F> {
    /// The bytes are refused by their form, or the visitor objected to a unit or to the end.
    Stopped(Stop),
    /// A read of the source failed.
    Read,
    /// The source has more bytes than the limit.
    TooLong,
    /// The allocator refused memory.
    Memory,
    /// The visitor couldn't go on.
    Fault(F),
}
