//! What is done with a unit by its head, and the parameter sets that units carry (H.265 7.4.1.4.1, F.7.4.1.4.1).
#![tactic(auto)]

mod fault;
mod in_force;
pub mod laws;
mod pps;
mod roles;
mod sps;
mod vps;

pub use fault::VpsFault;
pub use in_force::{VpsInForce, directs, keeps, view};
pub use pps::{CarriedPps, pps_of};
pub use roles::{Role, is_end, role_of};
pub use sps::{CarriedSps, sps_of};
pub use vps::{NewVps, vps_of};
