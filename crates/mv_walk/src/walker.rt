//! The walker.
#![tactic(auto)]

use crate::course::Course;
use crate::ending::WalkError;
use mv_rebuild::Rebuild;

/// Walks a stream unit by unit: tries all rules on each, decodes the pictures of every layer by a way to rebuild them, and shows the
/// output pictures of one output layer set in output order.
#[derive(Drop)]
pub struct Walker<R: Rebuild> {
    /// The output layer set that is asked for.
    pub(crate) asked: u32,
    /// Why it can't go on, from the first error on.
    pub(crate) failed: Option<WalkError>,
    /// How many units came, and how many of them are kept.
    pub(crate) number: u64,
    pub(crate) kept: u64,
    pub(crate) course: Course<R>,
}
