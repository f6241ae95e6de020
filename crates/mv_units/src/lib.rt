//! Definitions of byte streams and their units, in the terms of ITU-T H.265, and the laws about them. Programs
//! of other crates meet these definitions by their contracts.
#![tactic(auto)]

pub mod escape_laws;
pub mod head;
pub mod laws;

pub use head::UnitHead;
