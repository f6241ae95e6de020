//! Units that are sequence parameter sets.
#![tactic(auto)]

ghost use Rattle.std.specs.Prelude.{◌≡◌, true, false, List, Some};
ghost use Rattle.mv_units.specs.Rules.{bad_head};
ghost use Rattle.mv_rules.specs.declared.rule.Rule.TheVariants.{SpsSyntax};
ghost use Rattle.mv_vps.specs.Vps.{ValidVps};
ghost use Rattle.mv_pictures.specs.Kinds.{is_sps_kind};
ghost use Rattle.mv_pictures.specs.Items.{Item, is_known, item};
ghost use Rattle.mv_pictures.specs.Facts.{Fact};
ghost use Rattle.mv_pictures.specs.UnitRules.{names_other_vps};
ghost use Rattle.mv_walk_sets.specs.InForce.{IsRead, carried_of};
ghost use Rattle.mv_walk_sets.specs.Readings.{Reads, ReadsSps, sps_reading, with_tid};
ghost use Rattle.mv_walk_sets.specs.Roles.{IsFactOf, StandsBehind};
ghost use Rattle.mv_walk_sets.specs.Taken.{TakesSps};

use crate::in_force::VpsInForce;
use mv_bytestream::unescape;
use mv_rules::{ReadFault, Rule};
use mv_sps::{Sps, read_sps};
use mv_units::UnitHead;
use mv_vps::Vps;
use std::alloc::Global;
use std::marker::Model;

/// A sequence parameter set that a unit carries.
#[derive(Debug, Drop)]
pub struct CarriedSps {
    /// The unit's payload.
    pub payload: Vec<u8>,
    /// What was read there.
    pub value: Sps,
}

impl Model for CarriedSps {
    ghost use Rattle.mv_walk_sets.specs.InForce.{CarriedSpsValue};

    ghost Value = { CarriedSpsValue };

    ghost view = { λ s. record { payload = s.payload.items; value = s.value } };
}

// The first four bits of a sequence parameter set, where it has any, name another video parameter set.
fn names_other_vps(payload: &[u8], vps: &Vps) -> bool
    ensures { result ≡ names_other_vps payload.now vps.now }
{
    payload.len() > 0 && payload[0] / 16 != vps.base.opening.vps_video_parameter_set_id
}

// TemporalId above 0 comes before a limit, and behind every other rule.
fn with_tid(tid: u8, rule: Rule) -> Rule
    ensures { result ≡ with_tid tid rule }
{
    if tid > 0 && rule.number() == Rule::SpsLimit.number() {
        return Rule::SpsTid;
    }
    rule
}

fn read(alloc: Global, layer: u8, vps: &Vps, payload: &[u8]) -> Result<Sps, ReadFault>
    requires { ValidVps vps.now }
    ensures { Reads SpsSyntax (sps_reading layer vps.now.coded.0.base.opening.vps_max_sub_layers_minus1 payload.now) result }
{
    read_sps(alloc, layer, subs_of(vps), payload)
}

fn subs_of(vps: &Vps) -> u8
    ensures { result ≡ vps.now.coded.0.base.opening.vps_max_sub_layers_minus1 }
{
    vps.base.opening.vps_max_sub_layers_minus1
}

fn value_of(alloc: Global, vps: &Vps, head: UnitHead, payload: &[u8]) -> Result<Sps, ReadFault>
    requires { ValidVps vps.now }
    ensures { ReadsSps head.tid (sps_reading head.layer vps.now.coded.0.base.opening.vps_max_sub_layers_minus1 payload.now) result }
{
    match read(alloc, head.layer, vps, payload) {
        Ok(value) => {
            if head.tid > 0 {
                return Err(ReadFault::Refused(Rule::SpsTid));
            }
            Ok(value)
        }
        Err(ReadFault::Refused(rule)) => Err(ReadFault::Refused(with_tid(head.tid, rule))),
        Err(ReadFault::Memory) => Err(ReadFault::Memory),
    }
}

/// Reads the sequence parameter set that a known unit carries, where this video parameter set is in force.
///
/// `Refused` with the least rule that the unit breaks: `NoVps` where its first four bits name another video parameter set, what
/// `read_sps` answers, and `SpsTid` where TemporalId is above 0, which comes before `SpsLimit` and behind every other. `Memory`
/// where memory runs out.
pub fn sps_of(
    alloc: Global,
    vps: &VpsInForce,
    head: UnitHead,
    unit: &[u8],
) -> Result<CarriedSps, ReadFault>
    requires { IsRead vps.now }
    ensures { (past : List Item) (f : Fact) → StandsBehind (Some (carried_of vps.now)) head past unit.now → is_sps_kind head.kind ≡ true → bad_head unit.now ≡ false →
        is_known (item past unit.now) ≡ true → IsFactOf (item past unit.now) f → TakesSps (item past unit.now) f result }
{
    let payload = match unescape(alloc, unit) {
        Ok(payload) => payload,
        Err(_) => return Err(ReadFault::Memory),
    };
    if names_other_vps(&payload, &vps.value) {
        return Err(ReadFault::Refused(Rule::NoVps));
    }
    match value_of(alloc, &vps.value, head, &payload) {
        Ok(value) => Ok(CarriedSps { payload, value }),
        Err(fault) => Err(fault),
    }
}
