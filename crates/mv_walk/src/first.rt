//! The first segment of a picture.
#![tactic(auto)]

use mv_slice::SliceHead;
use mv_units::UnitHead;
use mv_walk_segment::Served;

/// A picture's first segment, whose header was read.
#[derive(Drop)]
pub(crate) struct FirstSegment {
    pub(crate) head: UnitHead,
    /// The number of its access unit.
    pub(crate) au: u64,
    /// A changed video parameter set stands before it in its access unit.
    pub(crate) behind_change: bool,
    pub(crate) served: Served,
    pub(crate) header: SliceHead,
}
