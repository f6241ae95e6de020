//! What is made of a stream's pictures by whoever decodes it: how a picture is rebuilt from its parts, and to whom output
//! pictures are shown.
#![tactic(auto)]

pub mod laws;
mod rebuild;
mod viewer;

pub use rebuild::{NoPictures, PicStart, Rebuild, RefKind};
pub use viewer::{NoViewer, ViewFailed, Viewer};
