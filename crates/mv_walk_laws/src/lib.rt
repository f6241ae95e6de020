//! What one unit more changes of a stream, as laws of definitions and no code: for a program that goes from unit to unit.
#![tactic(auto)]

pub mod judging_laws;
pub mod picture_laws;
pub mod stream_laws;
pub mod total_laws;
