//! Sequence parameter sets (H.265 7.3.2.2.1, F.7.3.2.2.1): a payload is read, written and shown exactly.
#![tactic(auto)]

mod blocks;
mod coding;
mod extension;
mod laws;
mod opening;
mod payload;
mod picture_format;
mod pictures;
mod references;
mod rep_format;
mod scaling;
mod shared;
mod sps;
mod tools;
mod vui;

pub use blocks::SpsBlocks;
pub use coding::SpsCoding;
pub use extension::SpsExtension;
pub use laws::sps_laws;
pub use opening::SpsOpening;
pub use payload::{read_sps, show_sps, write_sps};
pub use picture_format::SpsPictureFormat;
pub use pictures::SpsPictures;
pub use references::SpsReferences;
pub use rep_format::SpsRepFormat;
pub use scaling::SpsScaling;
pub use sps::Sps;
pub use tools::SpsTools;
pub use vui::SpsVui;
