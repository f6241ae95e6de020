//! How a parameter set is taken.
#![tactic(auto)]

ghost use Rattle.std.specs.Prelude.{ℕ, ◌≡◌, ◌<◌, ◌+◌, ◌^◌, ◌∷◌, ◌++◌, [], List, Some, None, Ok, Err, IfOk, IfErr, OnOk, length};
ghost use Rattle.mv_walk_sets.specs.declared.roles.Role.{Role as RoleValue};
ghost use Rattle.mv_walk.specs.Courses.{Stood};
ghost use Rattle.mv_walk.specs.Decoders.{HasViewCause};
ghost use Rattle.mv_walk.specs.Taking.{CanKeepPps, CanKeepSps, IsNewPps, IsNewSps, IsRole, Joined, MayTake, PutsVps, Takes};
ghost use Rattle.mv_walk.specs.declared.ending.Stop.{Stop as StopValue};

use crate::course::Course;
use crate::ending::Stop;
use crate::last::Carried;
use crate::taking::Picture;
use mv_au::AuStep;
use mv_rebuild::{Rebuild, Viewer};
use mv_rules::Rule;
use mv_units::UnitHead;
use mv_walk_sets::{CarriedPps, CarriedSps, NewVps, VpsInForce, pps_of, sps_of, vps_of};

impl<R: Rebuild> Course<R> {
    pub(crate) fn take_vps<V: Viewer<R::Pic>>(
        &mut self,
        rebuild: &R,
        viewer: &mut V,
        head: UnitHead,
        unit: &[u8],
    ) -> Result<Picture, Stop>
        requires may { MayTake self.old unit.now head RoleValue.Vps }
        ensures takes { (us : List (List ℕ)) → Stood self.old us → length us + 1 < 2 ^ 64 → IsRole us unit.now head RoleValue.Vps → Takes self.old.decoder.asked us unit.now self.new result }
        ensures asked { self.new.decoder.asked ≡ self.old.decoder.asked }
        ensures cause { HasViewCause (V.viewing.faults viewer.old) (V.viewing.faults viewer.new) result }
    {
        let new = match vps_of(
            self.alloc,
            self.vps.as_ref(),
            head,
            unit,
            self.decoder.asked,
        ) {
            Ok(new) => new,
            Err(fault) => return Err(Stop::of_vps(fault)),
        };
        match self.join(rebuild, viewer, head) {
            Ok(step) => Ok(self.put_vps(new, step)),
            Err(stop) => Err(stop),
        }
    }

    pub(crate) fn put_vps(&mut self, new: NewVps, step: AuStep) -> Picture
        ensures none { result ≡ None }
        ensures put { PutsVps new step.au self.old self.new }
    {
        match new {
            NewVps::Repeated => self.last = Carried::Nothing,
            NewVps::First(vps) => self.put_new(vps),
            NewVps::Changed(vps) => {
                self.sets.forget();
                self.changed = Some(step.au);
                self.put_new(vps);
            }
        }
        None
    }

    pub(crate) fn put_new(&mut self, vps: VpsInForce)
        ensures { self.new ≡ record self.old { vps = Some vps; last = self.new.last } }
    {
        self.vps = Some(vps);
        self.last = Carried::Vps;
    }

    pub(crate) fn take_sps<V: Viewer<R::Pic>>(
        &mut self,
        rebuild: &R,
        viewer: &mut V,
        head: UnitHead,
        unit: &[u8],
    ) -> Result<Picture, Stop>
        requires may { MayTake self.old unit.now head RoleValue.Sps }
        ensures takes { (us : List (List ℕ)) → Stood self.old us → length us + 1 < 2 ^ 64 → IsRole us unit.now head RoleValue.Sps → Takes self.old.decoder.asked us unit.now self.new result }
        ensures asked { self.new.decoder.asked ≡ self.old.decoder.asked }
        ensures cause { HasViewCause (V.viewing.faults viewer.old) (V.viewing.faults viewer.new) result }
    {
        let Some(vps) = &self.vps else {
            return Err(Stop::Breaks(Rule::NoVps));
        };
        let carried = match sps_of(self.alloc, vps, head, unit) {
            Ok(carried) => carried,
            Err(fault) => return Err(Stop::of_read(fault)),
        };
        match self.join(rebuild, viewer, head) {
            Ok(_) => self.put_sps(head.layer, carried),
            Err(stop) => Err(stop),
        }
    }

    pub(crate) fn put_sps(&mut self, layer: u8, carried: CarriedSps) -> Result<Picture, Stop>
        requires can { CanKeepSps self.old.sets layer carried }
        ensures puts { (us : List (List ℕ)) (u : List ℕ) (old : _) → Joined us u old self.old → Stood old us → IsNewSps old.decoder.asked us u layer carried → OnOk result (Stood self.new (us ++ u ∷ [])) }
        ensures none { IfOk result (λ told. told ≡ None) }
        ensures memory { IfErr result (λ stop. stop ≡ StopValue.Memory) }
        ensures asked { self.new.decoder.asked ≡ self.old.decoder.asked }
    {
        let (payload, value) = (carried.payload, carried.value);
        let id = value.opening.sps_seq_parameter_set_id;
        if self.sets.put_sps(layer, &payload, value).is_err() {
            return Err(Stop::Memory);
        }
        self.last = Carried::Sps { layer, id };
        Ok(None)
    }

    pub(crate) fn take_pps<V: Viewer<R::Pic>>(
        &mut self,
        rebuild: &R,
        viewer: &mut V,
        head: UnitHead,
        unit: &[u8],
    ) -> Result<Picture, Stop>
        requires may { MayTake self.old unit.now head RoleValue.Pps }
        ensures takes { (us : List (List ℕ)) → Stood self.old us → length us + 1 < 2 ^ 64 → IsRole us unit.now head RoleValue.Pps → Takes self.old.decoder.asked us unit.now self.new result }
        ensures asked { self.new.decoder.asked ≡ self.old.decoder.asked }
        ensures cause { HasViewCause (V.viewing.faults viewer.old) (V.viewing.faults viewer.new) result }
    {
        let carried = match pps_of(self.alloc, unit) {
            Ok(carried) => carried,
            Err(fault) => return Err(Stop::of_read(fault)),
        };
        match self.join(rebuild, viewer, head) {
            Ok(_) => self.put_pps(head.layer, carried),
            Err(stop) => Err(stop),
        }
    }

    pub(crate) fn put_pps(&mut self, layer: u8, carried: CarriedPps) -> Result<Picture, Stop>
        requires can { CanKeepPps self.old.sets layer carried }
        ensures puts { (us : List (List ℕ)) (u : List ℕ) (old : _) → Joined us u old self.old → Stood old us → IsNewPps old.decoder.asked us u layer carried → OnOk result (Stood self.new (us ++ u ∷ [])) }
        ensures none { IfOk result (λ told. told ≡ None) }
        ensures memory { IfErr result (λ stop. stop ≡ StopValue.Memory) }
        ensures asked { self.new.decoder.asked ≡ self.old.decoder.asked }
    {
        let (payload, value) = (carried.payload, carried.value);
        let id = value.opening.pps_pic_parameter_set_id;
        if self.sets.put_pps(layer, &payload, value).is_err() {
            return Err(Stop::Memory);
        }
        self.last = Carried::Pps { layer, id };
        Ok(None)
    }
}
