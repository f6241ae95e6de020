//! Streams of two views that are made from a number: the same number and count always give the same units.
#![tactic(auto)]

mod draws;
mod generating;
mod generator;
mod headers;
mod laws;
mod parameter_sets;
#[cfg(test)]
mod tests;
mod unit_laws;

pub use generating::{GenerateError, generate};
pub use generator::Gen;
pub use laws::{header_laws, stream_laws};
pub use unit_laws::{a_stream_is_split_again, units_are_clean};
