use std::error::Error;
use std::fmt;

/// The bits end before the field does, or no code stands there: the code of a ue(v) or se(v) runs past the end or
/// has more than 31 leading zeros, or what is left is no trailing bits.
#[derive(Clone, Copy, Debug, Drop, PartialEq, Eq)]
pub struct NoBits;

impl fmt::Display for NoBits {
    fn fmt<W: fmt::Write>(&self, f: &mut fmt::Formatter<W>) -> fmt::Result {
        write!(f, "the bits end before the field does")
    }
}

impl Error for NoBits {}
