//! Parameter sets in force: those that were received, and those that serve a slice segment (H.265 7.4.1.4.1, F.7.4.1.4.1).
#![tactic(auto)]

mod format;
pub mod laws;
mod sets;
mod store;
mod table;

pub use sets::{Active, PpsSet, SpsSet};
pub use store::SetStore;
