//! How a slice segment is taken.
#![tactic(auto)]

ghost use Rattle.std.specs.Prelude.{ℕ, ◌≡◌, ◌<◌, ◌+◌, ◌^◌, true, false, List, Some, None, Ok, Err, length};
ghost use Rattle.mv_walk_sets.specs.declared.roles.Role.{Role as RoleValue};
ghost use Rattle.mv_walk.specs.Courses.{Stood};
ghost use Rattle.mv_walk.specs.Decoders.{HasViewCause};
ghost use Rattle.mv_walk.specs.Taking.{IsRole, MayTake, Peeks, Takes};
ghost use Rattle.mv_walk.specs.declared.ending.Stop.{Stop as StopValue};

use crate::course::Course;
use crate::ending::Stop;
use crate::first::FirstSegment;
use crate::last::Carried;
use crate::taking::Picture;
use mv_contexts::peek_unit;
use mv_rebuild::{Rebuild, Viewer};
use mv_rules::Rule;
use mv_units::UnitHead;
use mv_walk_segment::{Served, read_later};

impl<R: Rebuild> Course<R> {
    pub(crate) fn take_slice<V: Viewer<R::Pic>>(
        &mut self,
        rebuild: &R,
        viewer: &mut V,
        head: UnitHead,
        unit: &[u8],
    ) -> Result<Picture, Stop>
        requires may { MayTake self.old unit.now head RoleValue.Slice }
        ensures takes { (us : List (List ℕ)) → Stood self.old us → length us + 1 < 2 ^ 64 → IsRole us unit.now head RoleValue.Slice → Takes self.old.decoder.asked us unit.now self.new result }
        ensures asked { self.new.decoder.asked ≡ self.old.decoder.asked }
        ensures cause { HasViewCause (V.viewing.faults viewer.old) (V.viewing.faults viewer.new) result }
    {
        let peek = match peek_unit(self.alloc, head, unit) {
            Ok(peek) => peek,
            Err(fault) => return Err(Stop::of_read(fault)),
        };
        if peek.first {
            self.take_first(rebuild, viewer, head, unit, peek.pps_id)
        } else {
            self.take_later(rebuild, head, unit, peek.pps_id)
        }
    }

    pub(crate) fn take_first<V: Viewer<R::Pic>>(
        &mut self,
        rebuild: &R,
        viewer: &mut V,
        head: UnitHead,
        unit: &[u8],
        pps_id: u8,
    ) -> Result<Picture, Stop>
        requires may { MayTake self.old unit.now head RoleValue.Slice }
        requires peek { Peeks unit.now head true pps_id }
        ensures takes { (us : List (List ℕ)) → Stood self.old us → length us + 1 < 2 ^ 64 → IsRole us unit.now head RoleValue.Slice → Takes self.old.decoder.asked us unit.now self.new result }
        ensures asked { self.new.decoder.asked ≡ self.old.decoder.asked }
        ensures cause { HasViewCause (V.viewing.faults viewer.old) (V.viewing.faults viewer.new) result }
    {
        let Some(vps) = &self.vps else {
            return Err(Stop::Breaks(Rule::NoVps));
        };
        let served = match Served::named(self.alloc, &self.sets, &vps.value, head, pps_id) {
            Ok(served) => served,
            Err(fault) => return Err(Stop::of_read(fault)),
        };
        let header = match served.read(self.alloc, &vps.value, head, unit) {
            Ok(header) => header,
            Err(fault) => return Err(Stop::of_read(fault)),
        };
        let step = match self.units.step(head, Some(true)) {
            Ok(step) => step,
            Err(rule) => return Err(Stop::Breaks(rule)),
        };
        let segment = FirstSegment {
            head,
            au: step.au,
            behind_change: self.changed == Some(step.au),
            served,
            header,
        };
        self.last = Carried::First;
        match self
            .decoder
            .first(rebuild, viewer, vps, step.begins, segment, unit)
        {
            Ok(told) => Ok(Some(told)),
            Err(stop) => Err(stop),
        }
    }

    pub(crate) fn take_later(
        &mut self,
        rebuild: &R,
        head: UnitHead,
        unit: &[u8],
        pps_id: u8,
    ) -> Result<Picture, Stop>
        requires may { MayTake self.old unit.now head RoleValue.Slice }
        requires peek { Peeks unit.now head false pps_id }
        ensures takes { (us : List (List ℕ)) → Stood self.old us → length us + 1 < 2 ^ 64 → IsRole us unit.now head RoleValue.Slice → Takes self.old.decoder.asked us unit.now self.new result }
        ensures asked { self.new.decoder.asked ≡ self.old.decoder.asked }
        ensures view { result ≡ Err StopValue.View → ⊥ }
    {
        let Some(vps) = &self.vps else {
            return Err(Stop::Breaks(Rule::NoVps));
        };
        let picture = self.decoder.picture();
        let header = match read_later(
            self.alloc, picture, &self.sets, &vps.value, head, pps_id, unit,
        ) {
            Ok(header) => header,
            Err(fault) => return Err(Stop::of_read(fault)),
        };
        if let Err(rule) = self.units.step(head, Some(false)) {
            return Err(Stop::Breaks(rule));
        }
        match self.decoder.later(rebuild, vps, head, unit, &header) {
            Ok(()) => {
                self.last = Carried::Later(header);
                Ok(None)
            }
            Err(stop) => Err(stop),
        }
    }
}
