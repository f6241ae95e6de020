//! The references of a picture, counted.

ghost use Rattle.std.specs.Prelude.{◌≡◌};
ghost use Rattle.mv_reflists.specs.Sizes.{total};

/// How many references a picture has in each part of its reference picture set and of its inter-layer set (8.3.2, F.8.1.6).
/// References are counted in this order, from 0 on.
#[derive(Clone, Copy, Debug, PartialEq, Eq)]
pub struct Sizes {
    /// RefPicSetStCurrBefore.
    pub before: u8,
    /// RefPicSetStCurrAfter.
    pub after: u8,
    /// RefPicSetLtCurr.
    pub long: u8,
    /// RefPicSetInterLayer0.
    pub zero: u8,
    /// RefPicSetInterLayer1.
    pub one: u8,
}

/// NumPicTotalCurr: how many references the picture has.
pub(crate) fn total(sizes: &Sizes) -> usize
    ensures { result ≡ total sizes.now }
{
    usize::from(sizes.before)
        + usize::from(sizes.after)
        + usize::from(sizes.long)
        + usize::from(sizes.zero)
        + usize::from(sizes.one)
}
