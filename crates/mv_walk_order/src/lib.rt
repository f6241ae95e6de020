//! Output order of all output layer sets of a stream, and what is put out of one of them (H.265 C.5.2).
#![tactic(auto)]

pub mod laws;
mod orders;
mod queue;
mod sets;

pub use orders::OutputOrder;
pub use queue::OutputQueue;
