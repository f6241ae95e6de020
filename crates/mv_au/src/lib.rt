//! Access units, starts of layers, and segments of a picture that agree (H.265 7.4.2.4.4, 7.4.7.1, 8.1.3, F.8.1.3).
#![tactic(auto)]

mod access_units;
mod agreement;
pub mod laws;
mod states;

pub use access_units::{AuStep, AuTracker};
pub use agreement::agree;
pub use states::{LayerStates, PicFacts, PicState};

#[cfg(test)]
mod access_unit_tests;
#[cfg(test)]
mod agreement_tests;
#[cfg(test)]
mod state_tests;
