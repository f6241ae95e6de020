//! The pictures of a layer that are kept for reference, the pictures that wait for their output, and the check of output order
//! (H.265 8.3.2 and C.5.2). Each object takes its memory when it is made, and never more.
#![tactic(auto)]

mod buffer;
mod held;
pub mod laws;
mod order;
mod picked;
mod set_order;
mod shown;
mod waiting;
mod waits;

pub use buffer::Buffer;
pub use held::{Held, Keep};
pub use order::OrderCheck;
pub use set_order::Counted;
pub use shown::Shown;
pub use waiting::Waiting;

#[cfg(test)]
mod tests;
