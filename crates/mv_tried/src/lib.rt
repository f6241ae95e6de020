//! Which rules are tried on each kind of unit, as laws of the definitions of pictures, and no code: for programs that go from
//! unit to unit and try only what can hold.
#![tactic(auto)]

pub mod laws;
