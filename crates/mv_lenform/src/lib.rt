//! Units in the length-prefixed form: each behind its length in four bytes, the most significant first.
#![tactic(auto)]

mod bytes;
mod carrier;
pub mod laws;
mod len_reader;
mod machine;
mod packing;
#[cfg(test)]
mod tests;
mod unit_reader;

pub use carrier::Target;
pub use len_reader::LenReader;
pub use packing::{pack, unpack};
