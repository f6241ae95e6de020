//! Provenance digests: each picture is the SHA-256 of all that it is decoded from, and the output pictures are written as
//! lines of text. No call takes memory.
#![tactic(auto)]

mod bound;
mod digest;
mod digest2;
mod digest_viewer;
mod line;
mod message;
mod parts;
mod sum_viewer;
#[cfg(test)]
mod tests;

pub use bound::{Bound2, Digest2};
pub use digest::{Digest32, DigestRebuild};
pub use digest_viewer::DigestViewer;
pub use digest2::DigestRebuild2;
pub use message::Message;
pub use sum_viewer::SumViewer;
