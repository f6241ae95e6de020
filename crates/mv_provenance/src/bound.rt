//! What a digest of format 2 binds beside the bytes.

use crate::message::Message;

/// A picture's digest of format 2, and what a reference to it binds.
#[derive(Clone, Copy, Debug, PartialEq, Eq)]
pub struct Digest2 {
    /// The SHA-256 of the picture's bytes.
    pub bytes: [u8; 32],
    /// ViewId of its layer.
    pub view: u32,
    /// PicOrderCntVal.
    pub count: i32,
}

/// A picture's bytes so far, and its view and count.
#[derive(Drop)]
pub struct Bound2 {
    pub(crate) message: Message,
    pub(crate) view: u32,
    pub(crate) count: i32,
}
