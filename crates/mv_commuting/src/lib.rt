//! Laws of the definitions of pictures: decoding commutes with extraction, and what programs that go from unit to unit
//! rest on.
#![tactic(auto)]

pub mod history_laws;
pub mod laws;
pub mod so_far_laws;
pub mod state_laws;
