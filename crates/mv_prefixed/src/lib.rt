//! Definitions of the length-prefixed form of units, each behind its length in four bytes, and the laws about them.
//! Programs of other crates meet these definitions by their contracts.
#![tactic(auto)]

pub mod laws;
