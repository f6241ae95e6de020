// Readers and writers of the bit codes of H.265 (7.2, 9.2): u(n), ue(v), se(v), trailing bits.
#![tactic(auto)]

mod end_fault;
mod ending;
mod no_bits;
mod reader;
#[cfg(test)]
mod tests;
mod writer;

pub use end_fault::EndFault;
pub use ending::{payload_end_of, put_payload_end};
pub use no_bits::NoBits;
pub use reader::BitReader;
pub use writer::BitWriter;
