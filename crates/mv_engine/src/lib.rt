//! The one loop over a source that every engine is made of: it reads a byte string in pieces, finds its units, and
//! hands them to a visitor, one by one, up to the end of the input or the first unit that is objected to.
#![tactic(auto)]

mod driving;
mod error;
pub mod laws;
mod reader;
mod reading;
mod units;
mod visitor;

pub use driving::drive;
pub use error::{DriveError, Ending};
pub use reader::UnitReader;
pub use visitor::Visitor;
