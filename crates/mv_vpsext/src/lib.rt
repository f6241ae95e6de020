//! The extension of a video parameter set (H.265 F.7.3.2.1.1): it is read, written and printed exactly, and what it describes.
#![tactic(auto)]

mod args;
mod derived;
mod ending;
mod formats;
mod laws;
mod parts;
mod pictures;
mod profiles;
mod rep_format;
mod vps_ext;

pub use args::VpsArgs;
pub use ending::VpsExtEnding;
pub use formats::VpsFormats;
pub use laws::vps_extension_laws;
pub use pictures::VpsPictures;
pub use profiles::{VpsProfile, VpsProfiles};
pub use rep_format::{ChromaAndDepth, ConformanceWindow, RepFormat};
pub use vps_ext::VpsExt;
