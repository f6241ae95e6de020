//! Short-term reference picture sets (H.265 7.3.7, 7.4.8): each read and printed exactly, with the pictures that it names.
#![tactic(auto)]

mod delta;
mod deltas;
mod laws;
mod short_set;

pub use delta::{Delta, Side};
pub use laws::{delta_laws, short_set_laws};
pub use short_set::{ShortArgs, ShortSet};
