//! The slice segments of a picture: the sets that serve each, its header, and how later segments agree with the first (H.265
//! 7.4.7.1, F.7.4.7.1; this project's profile).
#![tactic(auto)]

mod fault;
pub mod laws;
mod opened;
mod served;

pub use fault::SegmentFault;
pub use opened::{DecodedLists, OpenPicture, read_later};
pub use served::Served;
