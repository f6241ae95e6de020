//! A decoded picture by its first segment: its count, its references, its lists, and the rules on them (H.265 8.3, C.5.2, Annexes F
//! and G).
#![tactic(auto)]

mod actives;
mod asked;
mod decided;
mod fault;
mod references;

pub use asked::{First, count_asked};
pub use decided::{Decided, decide};
pub use fault::DecideFault;
