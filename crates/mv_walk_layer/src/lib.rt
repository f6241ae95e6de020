//! What is kept of one layer's pictures while a stream is walked: the anchor of counts, the pictures held for reference, and the
//! latest decoded picture (H.265 8.3.1, 8.3.2).
#![tactic(auto)]

pub mod laws;
mod layer;

pub use layer::{Latest, LayerPictures};

#[cfg(test)]
mod tests;
