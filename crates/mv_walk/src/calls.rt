//! What a walker is asked.
#![tactic(auto)]

ghost use Rattle.std.specs.Prelude.{ℕ, ◌≡◌, ◌+◌, ◌<◌, ◌^◌, [], Err, Some, None, List, length, IfErr, IfOk, if◌then◌else◌};
ghost use Rattle.mv_io.specs.Faults.{Rose};
ghost use Rattle.mv_units.specs.Rules.{unit_rule};
ghost use Rattle.mv_walk.specs.Standing.{MayGo, Stands};
ghost use Rattle.mv_walk.specs.Walking.{Closes, Walks};
ghost use Rattle.mv_walk.specs.declared.ending.WalkError.{WalkError};

use crate::course::Course;
use crate::ending::{WalkError, error_of};
use crate::last::Carried;
use crate::step::{Last, Step, Totals};
use crate::walker::Walker;
use mv_rebuild::{Rebuild, Viewer};
use mv_vps::Vps;
use std::alloc::{AllocError, Global};

impl<R: Rebuild> Walker<R> {
    /// A walker of a stream without units, for an output layer set.
    ///
    /// `AllocError` where memory runs out.
    pub fn new(alloc: Global, ols: u32) -> Result<Walker<R>, AllocError>
        ensures stands { IfOk result (λ w. Stands w []) }
        ensures asked { IfOk result (λ w. w.asked ≡ ols) }
    {
        let course = Course::new(alloc, ols)?;
        Ok(Walker {
            asked: ols,
            failed: None,
            number: 0,
            kept: 0,
            course,
        })
    }

    /// Takes the next unit, which stands at this byte. Rules of its form, by which bytes are refused before, don't hold for it.
    ///
    /// `Refused` with the least rule that the unit breaks, its number and this byte. `NoSuchSet` where it breaks none, is a video
    /// parameter set and hasn't the output layer set that is asked for. `View` where the viewer failed, and `Memory` where memory runs
    /// out. After an error each call answers the same one.
    pub fn unit<V: Viewer<R::Pic>>(
        &mut self,
        rebuild: &R,
        viewer: &mut V,
        byte: u64,
        unit: &[u8],
    ) -> Result<Step, WalkError>
        requires clean { unit_rule unit.now ≡ None }
        requires goes_on { MayGo self.old }
        ensures walks { (us : List (List ℕ)) → Stands self.old us → length us + 1 < 2 ^ 64 → Walks self.old.asked us byte unit.now (Stands self.new) result }
        ensures asked { self.new.asked ≡ self.old.asked }
        ensures view { result ≡ Err WalkError.View → self.old.failed ≡ None → Rose (V.viewing.faults viewer.old) (V.viewing.faults viewer.new) }
        ensures fails { IfErr result (λ error. self.new.failed ≡ Some error) }
        ensures again { (error : WalkError) → self.old.failed ≡ Some error → result ≡ Err error }
    {
        if let Some(error) = self.failed {
            return Err(error);
        }
        let Some(number) = self.number.checked_add(1) else {
            self.failed = Some(WalkError::Memory);
            return Err(WalkError::Memory);
        };
        match self.course.step(rebuild, viewer, unit) {
            Ok(step) => {
                self.kept = kept_with(self.kept, step.kept);
                self.number = number;
                Ok(step)
            }
            Err(stop) => {
                let error = error_of(stop, self.number, byte);
                self.failed = Some(error);
                Err(error)
            }
        }
    }

    /// Takes the end of the stream, at this byte.
    ///
    /// `Refused` with `NoPicture` where no base picture was decoded, the number of units and this byte. `View` where the viewer failed,
    /// and `Memory` where memory runs out. After an error each call answers the same one, and behind the end each answers `Memory`.
    pub fn end<V: Viewer<R::Pic>>(
        &mut self,
        rebuild: &R,
        viewer: &mut V,
        byte: u64,
    ) -> Result<Totals, WalkError>
        requires goes_on { MayGo self.old }
        ensures closes { (us : List (List ℕ)) → Stands self.old us → Closes self.old.asked us byte result }
        ensures asked { self.new.asked ≡ self.old.asked }
        ensures view { result ≡ Err WalkError.View → self.old.failed ≡ None → Rose (V.viewing.faults viewer.old) (V.viewing.faults viewer.new) }
        ensures fails { IfErr result (λ error. self.new.failed ≡ Some error) }
        ensures again { (error : WalkError) → self.old.failed ≡ Some error → result ≡ Err error }
        ensures ended { IfOk result (λ totals. self.new.failed ≡ Some WalkError.Memory) }
    {
        if let Some(error) = self.failed {
            return Err(error);
        }
        match self.course.end(rebuild, viewer, self.number, self.kept) {
            Ok(totals) => {
                self.failed = Some(WalkError::Memory);
                Ok(totals)
            }
            Err(stop) => {
                let error = error_of(stop, self.number, byte);
                self.failed = Some(error);
                Err(error)
            }
        }
    }

    /// The video parameter set in force, if there is one.
    pub fn vps(&self) -> Option<&Vps> {
        match &self.course.vps {
            Some(vps) => Some(&vps.value),
            None => None,
        }
    }

    /// What the latest unit carries.
    pub fn last(&self) -> Last<'_> {
        match &self.course.last {
            Carried::Nothing => Last::Nothing,
            Carried::Vps => match &self.course.vps {
                Some(vps) => Last::Vps(&vps.value),
                None => Last::Nothing,
            },
            Carried::Sps { layer, id } => match self.course.sets.sps(*layer, *id) {
                Some(set) => Last::Sps(&set.value),
                None => Last::Nothing,
            },
            Carried::Pps { layer, id } => match self.course.sets.pps(*layer, *id) {
                Some(set) => Last::Pps(&set.value),
                None => Last::Nothing,
            },
            Carried::First => match self.course.decoder.picture() {
                Some(picture) => Last::Slice(&picture.first),
                None => Last::Nothing,
            },
            Carried::Later(header) => Last::Slice(header),
        }
    }

    /// Of the latest unit, where it is a slice segment of a decoded picture, the picture's references, each by its layer and its
    /// count, and the segment's reference picture lists.
    pub fn lists(&self) -> (&[(u8, i32)], &[u8], &[u8]) {
        match &self.course.last {
            Carried::First => self.course.decoder.lists(),
            Carried::Later(_) => self.course.decoder.lists(),
            _ => (&[], &[], &[]),
        }
    }
}

// How many units are kept, with one more.
fn kept_with(count: u64, kept: bool) -> u64
    ensures { count + 1 < 2 ^ 64 → result ≡ count + (if kept then 1 else 0) }
{
    if kept { count.wrapping_add(1) } else { count }
}
