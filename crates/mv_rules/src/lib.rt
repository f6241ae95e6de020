//! The rules of refusal, and the refusal of a stream or of a header by one.
#![tactic(auto)]

mod refusal;
mod rule;

pub use refusal::{ReadFault, Refusal};
pub use rule::Rule;

#[cfg(test)]
mod tests;
