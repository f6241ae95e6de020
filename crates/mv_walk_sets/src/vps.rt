//! Units that are video parameter sets.
#![tactic(auto)]

ghost use Rattle.std.specs.Prelude.{◌≡◌, Some, true, false, List, length, IfOk};
ghost use Rattle.std.specs.Option.{option_copied};
ghost use Rattle.mv_units.specs.Rules.{bad_head};
ghost use Rattle.mv_rules.specs.declared.rule.Rule.TheVariants.{VpsSyntax};
ghost use Rattle.mv_vps.specs.Vps.{ValidVps};
ghost use Rattle.mv_pictures.specs.Items.{Item, is_vps_head, item};
ghost use Rattle.mv_walk_sets.specs.InForce.{AreRead, IsRead, in_force};
ghost use Rattle.mv_walk_sets.specs.Readings.{Reads, ReadsNew, ReadsVps, checked, fault_of, vps_reading};
ghost use Rattle.mv_walk_sets.specs.Roles.{StandsBehind};
ghost use Rattle.mv_walk_sets.specs.Taken.{IsNewRead, IsVpsOf, TakesVps, again};

use crate::fault::VpsFault;
use crate::in_force::VpsInForce;
use mv_bytestream::unescape;
use mv_rules::{ReadFault, Rule};
use mv_units::UnitHead;
use mv_vps::{Vps, read_vps};
use std::alloc::Global;

/// What a video parameter set is to the one in force before it.
#[derive(Debug, Drop)]
pub enum NewVps {
    /// It has the payload of that one, which stays in force.
    Repeated,
    /// There was none: this is in force from now on.
    First(VpsInForce),
    /// It has another payload: this is in force from now on.
    Changed(VpsInForce),
}

fn fault_of(fault: ReadFault) -> VpsFault
    ensures { result ≡ fault_of fault }
{
    match fault {
        ReadFault::Refused(rule) => VpsFault::Refused(rule),
        ReadFault::Memory => VpsFault::Memory,
    }
}

// TemporalId is 0, and of the output layer sets there is the one that is asked for.
fn check(value: &Vps, tid: u8, asked: u32) -> Result<(), VpsFault>
    requires { ValidVps value.now }
    ensures { result ≡ checked asked tid (length value.now.derived.sets) }
{
    if tid > 0 {
        return Err(VpsFault::Refused(Rule::VpsTid));
    }
    let count = value.ols_count();
    if asked < count {
        return Ok(());
    }
    Err(VpsFault::NoSuchSet { asked, count })
}

fn read(alloc: Global, payload: &[u8]) -> Result<Vps, ReadFault>
    ensures reads { Reads VpsSyntax (vps_reading payload.now) result }
    ensures valid { IfOk result (λ v. ValidVps v) }
{
    read_vps(alloc, payload)
}

fn value_of(alloc: Global, tid: u8, payload: &[u8], asked: u32) -> Result<Vps, VpsFault>
    ensures reads { ReadsVps asked tid (vps_reading payload.now) result }
    ensures valid { IfOk result (λ v. ValidVps v) }
{
    let value = match read(alloc, payload) {
        Ok(value) => value,
        Err(fault) => return Err(fault_of(fault)),
    };
    match check(&value, tid, asked) {
        Ok(()) => Ok(value),
        Err(fault) => Err(fault),
    }
}

fn read_new(alloc: Global, tid: u8, payload: Vec<u8>, asked: u32) -> Result<VpsInForce, VpsFault>
    ensures reads { ReadsNew asked tid payload.items result }
    ensures read { IfOk result (λ v. IsRead v) }
{
    match value_of(alloc, tid, &payload, asked) {
        Ok(value) => Ok(VpsInForce { payload, value }),
        Err(fault) => Err(fault),
    }
}

/// Takes a unit that is a video parameter set of layer 0, behind units of which this video parameter set is in force, where output
/// layer set `asked` is asked for.
///
/// `Refused` with the least rule on video parameter sets that the unit breaks: the first and each changed one has to read (by
/// `read_vps`), and each has to have TemporalId 0, or else `VpsTid`. `NoSuchSet` where it breaks none, is the first or a changed
/// one and hasn't output layer set `asked` (this project's profile). `Memory` where memory runs out.
pub fn vps_of(
    alloc: Global,
    before: Option<&VpsInForce>,
    head: UnitHead,
    unit: &[u8],
    asked: u32,
) -> Result<NewVps, VpsFault>
    ensures takes { (past : List Item) → StandsBehind (in_force (option_copied before.entry)) head past unit.now → AreRead (option_copied before.entry) → is_vps_head head ≡ true →
        bad_head unit.now ≡ false → TakesVps asked (item past unit.now) result }
    ensures read { IsNewRead result }
{
    let payload = match unescape(alloc, unit) {
        Ok(payload) => payload,
        Err(_) => return Err(VpsFault::Memory),
    };
    match before {
        None => match read_new(alloc, head.tid, payload, asked) {
            Ok(new) => Ok(NewVps::First(new)),
            Err(fault) => Err(fault),
        },
        Some(old) => behind(alloc, old, head.tid, payload, asked),
    }
}

fn behind(
    alloc: Global,
    old: &VpsInForce,
    tid: u8,
    payload: Vec<u8>,
    asked: u32,
) -> Result<NewVps, VpsFault>
    ensures takes { (i : Item) → IsVpsOf i (Some old.now) tid payload.items → IsRead old.now → TakesVps asked i result }
    ensures read { IsNewRead result }
{
    if old.payload == payload {
        return again(tid);
    }
    match read_new(alloc, tid, payload, asked) {
        Ok(new) => Ok(NewVps::Changed(new)),
        Err(fault) => Err(fault),
    }
}

// One that is repeated is asked for its TemporalId alone.
fn again(tid: u8) -> Result<NewVps, VpsFault>
    ensures { result ≡ again tid }
{
    if tid > 0 {
        return Err(VpsFault::Refused(Rule::VpsTid));
    }
    Ok(NewVps::Repeated)
}
