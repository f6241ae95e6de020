//! How a picture is completed, and what leaves with its access unit.
#![tactic(auto)]

ghost use Rattle.std.specs.Prelude.{◌≡◌, ◌<◌, List, All, Some, None, Err, IfErr, OnOk};
ghost use Rattle.mv_io.specs.Faults.{HasCause};
ghost use Rattle.mv_pictures.specs.Judged.{Judged};
ghost use Rattle.mv_walk.specs.Decoders.{Between, BreaksNothing, Closes, HasHistory, HasViewCause, IsButQueue, Keeps};
ghost use Rattle.mv_walk.specs.declared.ending.Stop.{Stop as StopValue};

use crate::decoder::Decoder;
use crate::ending::Stop;
use crate::making::Making;
use mv_dpb::Shown;
use mv_rebuild::{Rebuild, Viewer};
use std::rc::Rc;

impl<R: Rebuild> Decoder<R> {
    // The latest picture is whole.
    pub(crate) fn close(&mut self, rebuild: &R) -> Result<(), Stop>
        requires kept { HasHistory self.old self.old.making }
        ensures closes { OnOk result (Closes self.old self.new) }
        ensures asked { self.new.asked ≡ self.old.asked }
        ensures memory { IfErr result (λ stop. stop ≡ StopValue.Memory) }
    {
        self.picture = None;
        match self.making.take() {
            Some(making) => self.finish(rebuild, making),
            None => Ok(()),
        }
    }

    pub(crate) fn finish(&mut self, rebuild: &R, making: Making<R>) -> Result<(), Stop>
        requires kept { HasHistory self.old (Some making) }
        ensures whole { OnOk result ((past : List Judged) → Keeps self.old past (Some making) → Keeps self.new past None) }
        ensures picture { self.new.picture ≡ self.old.picture }
        ensures making { self.new.making ≡ self.old.making }
        ensures asked { self.new.asked ≡ self.old.asked }
        ensures memory { IfErr result (λ stop. stop ≡ StopValue.Memory) }
    {
        let (shown, au, output) = (making.shown, making.au, making.output);
        let pic = match rebuild.finish(self.alloc, making.work) {
            Ok(pic) => pic,
            Err(_) => return Err(Stop::Memory),
        };
        let pic = match Rc::new(self.alloc, pic) {
            Ok(pic) => pic,
            Err(_) => return Err(Stop::Memory),
        };
        if output {
            if let Err(stop) = self.wait(shown, au, &pic) {
                return Err(stop);
            }
        }
        self.layers[shown.layer as usize].finish(shown.count, au, pic);
        Ok(())
    }

    // A picture waits for its output.
    pub(crate) fn wait(&mut self, shown: Shown, au: u64, pic: &Rc<R::Pic>) -> Result<(), Stop>
        ensures rest { IsButQueue self.old self.new }
        ensures memory { IfErr result (λ stop. stop ≡ StopValue.Memory) }
    {
        if !self.queue.has_room() {
            return Err(Stop::Memory);
        }
        let shared: Result<_, _> = pic.clone();
        match shared {
            Ok(pic) => {
                self.queue.push(shown, au, pic);
                Ok(())
            }
            Err(_) => Err(Stop::Memory),
        }
    }

    // The access unit is complete: what leaves is shown.
    pub(crate) fn complete<V: Viewer<R::Pic>>(&mut self, viewer: &mut V) -> Result<(), Stop>
        ensures rest { IsButQueue self.old self.new }
        ensures view { IfErr result (λ stop. stop ≡ StopValue.View) }
        ensures cause { HasCause (V.viewing.faults viewer.old) (V.viewing.faults viewer.new) result }
    {
        while let Some((shown, pic)) = self.queue.bump() {
            if viewer.show(&shown, &pic).is_err() {
                return Err(Stop::View);
            }
        }
        Ok(())
    }

    // All that waits is shown.
    pub(crate) fn flush<V: Viewer<R::Pic>>(&mut self, viewer: &mut V) -> Result<(), Stop>
        ensures rest { IsButQueue self.old self.new }
        ensures view { IfErr result (λ stop. stop ≡ StopValue.View) }
        ensures cause { HasCause (V.viewing.faults viewer.old) (V.viewing.faults viewer.new) result }
    {
        while let Some((shown, pic)) = self.queue.flush() {
            if viewer.show(&shown, &pic).is_err() {
                return Err(Stop::View);
            }
        }
        Ok(())
    }

    /// Before a unit that is no slice segment: where it begins an access unit, the one before is complete.
    pub(crate) fn between<V: Viewer<R::Pic>>(
        &mut self,
        rebuild: &R,
        viewer: &mut V,
        begins: bool,
    ) -> Result<(), Stop>
        requires kept { HasHistory self.old self.old.making }
        ensures between { OnOk result (Between begins self.old self.new) }
        ensures asked { self.new.asked ≡ self.old.asked }
        ensures cause { HasViewCause (V.viewing.faults viewer.old) (V.viewing.faults viewer.new) result }
        ensures breaks { BreaksNothing result }
    {
        if !begins {
            return Ok(());
        }
        match self.close(rebuild) {
            Ok(()) => self.complete(viewer),
            Err(stop) => Err(stop),
        }
    }

    /// The stream ends.
    pub(crate) fn end<V: Viewer<R::Pic>>(&mut self, rebuild: &R, viewer: &mut V) -> Result<(), Stop>
        requires kept { HasHistory self.old self.old.making }
        ensures closes { OnOk result (Closes self.old self.new) }
        ensures asked { self.new.asked ≡ self.old.asked }
        ensures cause { HasViewCause (V.viewing.faults viewer.old) (V.viewing.faults viewer.new) result }
        ensures breaks { BreaksNothing result }
    {
        match self.close(rebuild) {
            Ok(()) => self.flush(viewer),
            Err(stop) => Err(stop),
        }
    }

    // Before the first segment of a picture: the picture before is whole, and where a new access unit begins, the one before is complete.
    pub(crate) fn before_picture<V: Viewer<R::Pic>>(
        &mut self,
        rebuild: &R,
        viewer: &mut V,
        begins: bool,
    ) -> Result<(), Stop>
        requires kept { HasHistory self.old self.old.making }
        ensures closes { OnOk result (Closes self.old self.new) }
        ensures asked { self.new.asked ≡ self.old.asked }
        ensures cause { HasViewCause (V.viewing.faults viewer.old) (V.viewing.faults viewer.new) result }
        ensures breaks { BreaksNothing result }
    {
        match self.close(rebuild) {
            Ok(()) => self.complete_if(viewer, begins),
            Err(stop) => Err(stop),
        }
    }

    pub(crate) fn complete_if<V: Viewer<R::Pic>>(
        &mut self,
        viewer: &mut V,
        begins: bool,
    ) -> Result<(), Stop>
        ensures rest { IsButQueue self.old self.new }
        ensures view { IfErr result (λ stop. stop ≡ StopValue.View) }
        ensures cause { HasCause (V.viewing.faults viewer.old) (V.viewing.faults viewer.new) result }
    {
        if begins {
            self.complete(viewer)
        } else {
            Ok(())
        }
    }
}
