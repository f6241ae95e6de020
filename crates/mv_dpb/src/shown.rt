//! What is told of a picture that is put out.
#![tactic(auto)]

/// A picture that is put out.
#[derive(Clone, Copy, Debug, PartialEq, Eq)]
pub struct Shown {
    /// The number of its coded video sequence.
    pub sequence: u64,
    /// PicOrderCntVal.
    pub count: i32,
    /// nuh_layer_id.
    pub layer: u8,
    /// The view identifier of its layer.
    pub view: u32,
}
