//! What the header of a slice segment takes from its parameter sets, and headers read from slice units (H.265 7.3.6.1, 7.4.7.1,
//! F.7.3.6.1, F.7.4.7.1).
#![tactic(auto)]

mod blocks;
mod context;
mod eligible;
pub mod laws;
mod units;

pub use context::slice_context;
pub use eligible::{Eligible, eligible_layers};
pub use units::{peek_unit, read_unit};
