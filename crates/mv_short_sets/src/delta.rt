/// How far a picture of a short-term reference picture set stands from the current one (7.4.8).
#[derive(Clone, Copy, Debug, PartialEq, Eq)]
pub struct Delta {
    /// Its picture order count less that of the current picture: below 0 for a picture before it in output order.
    pub delta: i32,
    /// Whether the current picture may refer to it. Other pictures are kept for later ones.
    pub used: bool,
}

/// A side of the current picture in output order.
#[derive(Clone, Copy)]
pub enum Side {
    Before,
    After,
}
