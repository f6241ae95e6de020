//! What a walker tells.

use mv_au::PicState;
use mv_pps::Pps;
use mv_slice::SliceHead;
use mv_sps::Sps;
use mv_units::UnitHead;
use mv_vps::Vps;

/// What is told of a unit that was accepted.
#[derive(Clone, Copy, Debug, PartialEq, Eq)]
pub struct Step {
    /// Its head.
    pub head: UnitHead,
    /// It is kept for the output layer set that is asked for.
    pub kept: bool,
    /// Of the first segment of a picture what becomes of the picture, and its PicOrderCntVal, if it has one.
    pub picture: Option<(PicState, Option<i32>)>,
}

/// How many units a stream has and how many of them are kept, and how many decoded pictures, coded video sequences, layers and
/// output layer sets it has, the last two by its last video parameter set.
#[derive(Clone, Copy, Debug, PartialEq, Eq)]
pub struct Totals {
    pub units: u64,
    pub kept: u64,
    pub pictures: u64,
    pub sequences: u64,
    pub layers: u8,
    pub sets: u32,
}

/// What the latest unit carries.
#[derive(Debug)]
pub enum Last<'a> {
    /// Nothing that was read: there is no unit yet, or it was passed over.
    Nothing,
    Vps(&'a Vps),
    Sps(&'a Sps),
    Pps(&'a Pps),
    Slice(&'a SliceHead),
}
