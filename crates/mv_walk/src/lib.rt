//! Walking a stream of several layers unit by unit: the rules on each unit, what is decoded, and the pictures that are put out of
//! it (H.265 clauses 7, 8 and C.5.2, Annexes F and G).
#![tactic(auto)]

mod calls;
mod course;
mod decoder;
mod decoding;
mod ending;
mod finishing;
mod first;
mod first_segments;
mod last;
mod later_segments;
pub mod laws;
mod making;
mod started;
mod step;
mod taking;
mod taking_sets;
mod taking_slices;
mod walker;

pub use ending::WalkError;
pub use step::{Last, Step, Totals};
pub use walker::Walker;
