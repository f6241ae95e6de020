//! What the latest unit carries, as it is kept.

use mv_slice::SliceHead;

/// What the latest unit carries.
#[derive(Drop)]
pub(crate) enum Carried {
    /// Nothing that was read.
    Nothing,
    /// The video parameter set in force.
    Vps,
    /// The latest sequence parameter set of this layer and id.
    Sps { layer: u8, id: u32 },
    /// The latest picture parameter set of this layer and id.
    Pps { layer: u8, id: u32 },
    /// The first segment of the latest picture.
    First,
    /// A later one.
    Later(SliceHead),
}
