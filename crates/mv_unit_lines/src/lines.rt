//! What the lines of a picture tell.

/// What became of a picture.
#[derive(Clone, Copy, PartialEq, Eq, Debug)]
pub enum PictureState {
    /// Its layer starts with it.
    Start,
    /// It is decoded, and its layer doesn't start with it.
    Decoded,
    /// It isn't decoded.
    Skipped,
}

/// An entry of a reference picture list.
#[derive(Clone, Copy, PartialEq, Eq, Debug)]
pub struct Reference {
    /// The picture's layer, nuh_layer_id.
    pub layer: u8,
    /// Its PicOrderCntVal.
    pub count: i32,
}
