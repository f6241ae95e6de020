//! The head of a unit as a value.
#![tactic(auto)]

/// The NAL unit header of a unit (7.3.1.2).
#[derive(Clone, Copy, PartialEq, Eq, Debug)]
pub struct UnitHead {
    /// nal_unit_type, 0 to 63.
    pub kind: u8,
    /// nuh_layer_id, 0 to 63.
    pub layer: u8,
    /// TemporalId, which is nuh_temporal_id_plus1 less 1: 0 to 6.
    pub tid: u8,
}
