/// The format of pictures: their size in luma samples, the chroma format (0 none, 1 4:2:0, 2 4:2:2, 3 4:4:4), and the
/// bits of a luma and of a chroma sample.
#[derive(Clone, Copy, Debug, PartialEq, Eq)]
pub struct Format {
    pub width: u32,
    pub height: u32,
    pub chroma: u8,
    pub luma_depth: u8,
    pub chroma_depth: u8,
}
