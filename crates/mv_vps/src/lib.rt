//! Video parameter sets (H.265 7.3.2.1, F.7.3.2.1): a payload is read, written and shown exactly, and its layers, output layer
//! sets and formats are told.
#![tactic(auto)]

mod base;
mod extension;
mod fields;
mod formats;
mod getters;
mod hrds;
mod laws;
mod layer_sets;
mod opening;
mod payload;
mod shared;
mod timing;
mod vps;

pub use base::VpsBase;
pub use hrds::VpsHrd;
pub use laws::vps_laws;
pub use layer_sets::VpsLayerSets;
pub use opening::VpsOpening;
pub use payload::{read_vps, show_vps, write_vps};
pub use timing::VpsTiming;
pub use vps::Vps;
