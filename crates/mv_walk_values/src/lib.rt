//! The pictures that are kept, made and shown of a stream are the values of their terms: laws of definitions and no code, for a
//! program that goes from unit to unit.
#![tactic(auto)]

pub mod in_time;
pub mod laws;
pub mod sequence_laws;
pub mod steps;
