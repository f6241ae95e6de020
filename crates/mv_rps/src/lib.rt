//! Picture order counts and reference picture sets (H.265 8.3.1, 8.3.2, F.8.3.1).
#![tactic(auto)]

mod counts;
mod entries;
mod fault;
pub mod laws;
mod matching;
mod ref_set;
mod resolved;
mod resolving;

pub use counts::{PocAsk, PocState};
pub use fault::RefFault;
pub use ref_set::{RefSet, num_entries};
pub use resolved::Resolved;

#[cfg(test)]
mod resolve_tests;
#[cfg(test)]
mod tests;
