//! Definitions of what is said of a stream as a whole: the verdict of a judge of its units, what bytes that were
//! taken show of it, when that is decided, and the extract. Each is stated for any judge and any form in which the
//! units are carried.
#![tactic(auto)]

pub mod laws;
pub mod stop;

pub use stop::{Objection, Stop};
