//! Picture parameter sets (H.265 7.3.2.3.1, F.7.3.2.3.1): a payload is read, written and shown exactly.
#![tactic(auto)]

mod deblocking;
mod extension;
mod laws;
mod multilayer;
mod opening;
mod payload;
mod pps;
mod quantization;
mod tiles;
mod tools;

pub use deblocking::PpsDeblocking;
pub use extension::PpsExtension;
pub use laws::pps_laws;
pub use multilayer::PpsMultilayer;
pub use opening::PpsOpening;
pub use payload::{read_pps, show_pps, write_pps};
pub use pps::Pps;
pub use quantization::PpsQuantization;
pub use tiles::PpsTiles;
pub use tools::PpsTools;
