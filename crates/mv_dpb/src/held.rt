//! What is told of a picture in a buffer, and of one that stays there.
#![tactic(auto)]

/// A picture in a layer's buffer.
#[derive(Clone, Copy, Debug, PartialEq, Eq)]
pub struct Held {
    /// PicOrderCntVal.
    pub count: i32,
    /// The number of its access unit.
    pub au: u64,
    /// It is marked "used for long-term reference", and else "used for short-term reference".
    pub long: bool,
}

/// A picture that stays in a layer's buffer.
#[derive(Clone, Copy, Debug, PartialEq, Eq)]
pub struct Keep {
    /// Its place in the buffer, from 0, in decoding order.
    pub place: u8,
    /// It is marked "used for long-term reference" from now on, and else "used for short-term reference".
    pub long: bool,
}
