//! Parameter sets as they are kept.

use mv_common::Format;
use mv_pps::Pps;
use mv_sps::Sps;
use std::marker::Model;
use std::rc::Rc;

/// A sequence parameter set that was received.
#[derive(Debug, Drop)]
pub struct SpsSet {
    /// nuh_layer_id of its unit.
    pub layer: u8,
    /// Its unit's payload.
    pub payload: Vec<u8>,
    /// What was read there.
    pub value: Sps,
}

impl Model for SpsSet {
    ghost use Rattle.mv_sets.specs.Sets.{SpsSetValue};

    ghost Value = { SpsSetValue };

    ghost view = { λ s. record { layer = s.layer; payload = s.payload.items; value = s.value } };
}

/// A picture parameter set that was received.
#[derive(Debug, Drop)]
pub struct PpsSet {
    /// nuh_layer_id of its unit.
    pub layer: u8,
    /// Its unit's payload.
    pub payload: Vec<u8>,
    /// What was read there.
    pub value: Pps,
}

impl Model for PpsSet {
    ghost use Rattle.mv_sets.specs.Sets.{PpsSetValue};

    ghost Value = { PpsSetValue };

    ghost view = { λ s. record { layer = s.layer; payload = s.payload.items; value = s.value } };
}

/// The parameter sets that serve a slice segment, and the format of its pictures that they give. The sets are shared with the
/// store that they are of.
#[derive(Debug, Drop)]
pub struct Active {
    pub sps: Rc<SpsSet>,
    pub pps: Rc<PpsSet>,
    pub format: Format,
}

impl Model for Active {
    ghost use Rattle.mv_sets.specs.Sets.{ActiveValue};

    ghost Value = { ActiveValue };

    ghost view = { λ a. record { sps = a.sps.value; pps = a.pps.value; format = a.format } };
}
