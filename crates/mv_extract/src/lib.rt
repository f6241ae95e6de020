//! Extraction of a sub-bitstream: the units of the layers that are kept for an output layer set, each put behind a start code,
//! bytes unchanged, while the whole stream is checked.
#![tactic(auto)]

mod accepting;
mod error;
mod extracting;
mod extractor;
mod keeping;
pub mod laws;
mod no_sink;

pub use error::{ExtractError, WorkFault};
pub use extracting::{check, extract};
pub use keeping::keeps;
