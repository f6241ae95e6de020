//! How each kind of unit is taken.
#![tactic(auto)]

ghost use Rattle.std.specs.Prelude.{ℕ, ◌≡◌, ◌<◌, ◌+◌, ◌^◌, ◌∷◌, ◌++◌, [], List, None, Ok, Err, length};
ghost use Rattle.mv_au.specs.Tracker.{IsTold};
ghost use Rattle.mv_walk_sets.specs.declared.roles.Role.{Role as RoleValue};
ghost use Rattle.mv_walk_laws.specs.Streams.{item_behind};
ghost use Rattle.mv_walk.specs.Courses.{HasUnits, Stood};
ghost use Rattle.mv_walk.specs.Decoders.{HasViewCause};
ghost use Rattle.mv_walk.specs.Taking.{IsRole, Joined, Joins, MayTake, Takes};

use crate::course::Course;
use crate::ending::Stop;
use crate::last::Carried;
use mv_au::{AuStep, PicState};
use mv_rebuild::{Rebuild, Viewer};
use mv_units::UnitHead;
use mv_walk_sets::{Role, is_end};

/// What is told of a picture: what becomes of it, and its count, if it has one.
pub(crate) type Picture = Option<(PicState, Option<i32>)>;

impl<R: Rebuild> Course<R> {
    /// Takes a unit by what it is.
    pub(crate) fn take<V: Viewer<R::Pic>>(
        &mut self,
        rebuild: &R,
        viewer: &mut V,
        role: Role,
        head: UnitHead,
        unit: &[u8],
    ) -> Result<Picture, Stop>
        requires may { MayTake self.old unit.now head role }
        ensures takes { (us : List (List ℕ)) → Stood self.old us → length us + 1 < 2 ^ 64 → IsRole us unit.now head role → Takes self.old.decoder.asked us unit.now self.new result }
        ensures asked { self.new.decoder.asked ≡ self.old.decoder.asked }
        ensures cause { HasViewCause (V.viewing.faults viewer.old) (V.viewing.faults viewer.new) result }
    {
        match role {
            Role::Stray => self.pass_over(),
            Role::Passed => self.take_passed(rebuild, viewer, head),
            Role::Vps => self.take_vps(rebuild, viewer, head, unit),
            Role::Sps => self.take_sps(rebuild, viewer, head, unit),
            Role::Pps => self.take_pps(rebuild, viewer, head, unit),
            Role::Slice => self.take_slice(rebuild, viewer, head, unit),
        }
    }

    // Nothing is asked of a stray.
    pub(crate) fn pass_over(&mut self) -> Result<Picture, Stop>
        ensures none { result ≡ Ok None }
        ensures rest { self.new ≡ record self.old { last = self.new.last } }
    {
        self.last = Carried::Nothing;
        Ok(None)
    }

    // A unit that is no slice segment joins its access unit; where it begins one, the one before is complete.
    pub(crate) fn join<V: Viewer<R::Pic>>(
        &mut self,
        rebuild: &R,
        viewer: &mut V,
        head: UnitHead,
    ) -> Result<AuStep, Stop>
        requires has { HasUnits self.old }
        ensures joins { (us : List (List ℕ)) (u : List ℕ) → Stood self.old us → length us + 1 < 2 ^ 64 → IsTold (item_behind us u) head None → Joins us u self.old self.new result }
        ensures rest { self.new ≡ record self.old { units = self.new.units; decoder = self.new.decoder } }
        ensures asked { self.new.decoder.asked ≡ self.old.decoder.asked }
        ensures cause { HasViewCause (V.viewing.faults viewer.old) (V.viewing.faults viewer.new) result }
    {
        let step = match self.units.step(head, None) {
            Ok(step) => step,
            Err(rule) => return Err(Stop::Breaks(rule)),
        };
        match self.decoder.between(rebuild, viewer, step.begins) {
            Ok(()) => Ok(step),
            Err(stop) => Err(stop),
        }
    }

    pub(crate) fn take_passed<V: Viewer<R::Pic>>(
        &mut self,
        rebuild: &R,
        viewer: &mut V,
        head: UnitHead,
    ) -> Result<Picture, Stop>
        requires may { (u : List ℕ) × MayTake self.old u head RoleValue.Passed }
        ensures takes { (us : List (List ℕ)) (u : List ℕ) → Stood self.old us → length us + 1 < 2 ^ 64 → IsRole us u head RoleValue.Passed → Takes self.old.decoder.asked us u self.new result }
        ensures asked { self.new.decoder.asked ≡ self.old.decoder.asked }
        ensures cause { HasViewCause (V.viewing.faults viewer.old) (V.viewing.faults viewer.new) result }
    {
        if let Err(stop) = self.join(rebuild, viewer, head) {
            return Err(stop);
        }
        self.pass(head);
        Ok(None)
    }

    // What is kept of a unit that is read no further than its head: an end of a sequence or of the bitstream.
    pub(crate) fn pass(&mut self, head: UnitHead)
        requires { head.layer < 64 }
        ensures passed { (us : List (List ℕ)) (u : List ℕ) (old : _) → Joined us u old self.old → Stood old us → IsRole us u head RoleValue.Passed → Stood self.new (us ++ u ∷ []) }
        ensures asked { self.new.decoder.asked ≡ self.old.decoder.asked }
    {
        self.last = Carried::Nothing;
        if is_end(head) {
            self.decoder.eos(head.layer);
        }
    }
}
