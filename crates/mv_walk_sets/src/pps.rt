//! Units that are picture parameter sets.
#![tactic(auto)]

ghost use Rattle.std.specs.Prelude.{◌≡◌, true, List};
ghost use Rattle.mv_rules.specs.declared.rule.Rule.TheVariants.{PpsSyntax};
ghost use Rattle.mv_pictures.specs.Kinds.{is_pps_kind};
ghost use Rattle.mv_pictures.specs.Items.{Item, is_known, item};
ghost use Rattle.mv_pictures.specs.Facts.{Fact};
ghost use Rattle.mv_walk_sets.specs.Readings.{Reads, pps_reading};
ghost use Rattle.mv_walk_sets.specs.Roles.{IsFactOf};
ghost use Rattle.mv_walk_sets.specs.Taken.{TakesPps};

use mv_bytestream::unescape;
use mv_pps::{Pps, read_pps};
use mv_rules::ReadFault;
use std::alloc::Global;
use std::marker::Model;

/// A picture parameter set that a unit carries.
#[derive(Debug, Drop)]
pub struct CarriedPps {
    /// The unit's payload.
    pub payload: Vec<u8>,
    /// What was read there.
    pub value: Pps,
}

impl Model for CarriedPps {
    ghost use Rattle.mv_walk_sets.specs.InForce.{CarriedPpsValue};

    ghost Value = { CarriedPpsValue };

    ghost view = { λ s. record { payload = s.payload.items; value = s.value } };
}

fn read(alloc: Global, payload: &[u8]) -> Result<Pps, ReadFault>
    ensures { Reads PpsSyntax (pps_reading payload.now) result }
{
    read_pps(alloc, payload)
}

/// Reads the picture parameter set that a known unit carries.
///
/// `Refused` with the rule that `read_pps` answers. `Memory` where memory runs out.
pub fn pps_of(alloc: Global, unit: &[u8]) -> Result<CarriedPps, ReadFault>
    ensures { (past : List Item) (f : Fact) → is_pps_kind (item past unit.now).head.kind ≡ true → is_known (item past unit.now) ≡ true →
        IsFactOf (item past unit.now) f → TakesPps (item past unit.now) f result }
{
    let payload = match unescape(alloc, unit) {
        Ok(payload) => payload,
        Err(_) => return Err(ReadFault::Memory),
    };
    match read(alloc, &payload) {
        Ok(value) => Ok(CarriedPps { payload, value }),
        Err(fault) => Err(fault),
    }
}
