//! The parts of the references of a picture.

ghost use Rattle.std.specs.Prelude.{◌+◌, ◌≤◌};

/// A part of the references of a picture: so many places, from the first on.
#[derive(Clone, Copy)]
pub(crate) struct Part {
    pub(crate) first: u8,
    pub(crate) count: u8,
    ghost within: { first + count ≤ 255 },
}

/// The five parts.
#[derive(Clone, Copy)]
pub(crate) struct Parts {
    pub(crate) before: Part,
    pub(crate) after: Part,
    pub(crate) long: Part,
    pub(crate) zero: Part,
    pub(crate) one: Part,
}
