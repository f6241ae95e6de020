use std::error::Error;
use std::fmt;

/// Why the end of a payload is not read.
#[derive(Clone, Copy, Debug, Drop, PartialEq, Eq)]
pub enum EndFault {
    /// The bits that are left do not end a payload: no bit of the last byte is set, or other bits than the trailing bits
    /// stand where no tail may.
    NoBits,
    /// Memory ran out.
    Memory,
}

impl fmt::Display for EndFault {
    fn fmt<W: fmt::Write>(&self, f: &mut fmt::Formatter<W>) -> fmt::Result {
        match self {
            EndFault::NoBits => write!(f, "no trailing bits end the payload"),
            EndFault::Memory => write!(f, "not enough memory"),
        }
    }
}

impl Error for EndFault {}
