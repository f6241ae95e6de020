//! How the first segment of a picture is taken.
#![tactic(auto)]

ghost use Rattle.std.specs.Prelude.{◌≡◌, ◌≤◌, ◌<◌, ◌^◌, true, false, List, Some, None, Err, OnOk, length};
ghost use Rattle.mv_pictures.specs.Facts.{Fact};
ghost use Rattle.mv_pictures.specs.Judged.{Judged};
ghost use Rattle.mv_pictures.specs.Look.{look};
ghost use Rattle.mv_pictures.specs.Starts.{is_sequence_start, is_start};
ghost use Rattle.mv_au.specs.States.{state_of};
ghost use Rattle.mv_au.specs.declared.states.PicState.{PicState as PicStateValue};
ghost use Rattle.mv_walk_sets.specs.InForce.{IsRead};
ghost use Rattle.mv_walk.specs.Decoders.{BreaksNothing, HasViewCause, Keeps, KeepsPictures};
ghost use Rattle.mv_walk.specs.Firsts.{CanBegin, MayBegin, MayTake, IsFirst, IsReady, TakesFirst, TakesPicture, TakesState, unchanged};

use crate::decoder::{Decoder, forget_all};
use crate::ending::Stop;
use crate::first::FirstSegment;
use mv_au::{PicFacts, PicState};
use mv_rebuild::{Rebuild, Viewer};
use mv_rps::num_entries;
use mv_rules::Rule;
use mv_walk_segment::{DecodedLists, OpenPicture};
use mv_walk_sets::VpsInForce;

impl<R: Rebuild> Decoder<R> {
    /// Takes the first segment of a picture, whose header was read and whose access unit is known.
    pub(crate) fn first<V: Viewer<R::Pic>>(
        &mut self,
        rebuild: &R,
        viewer: &mut V,
        vps: &VpsInForce,
        begins: bool,
        segment: FirstSegment,
        unit: &[u8],
    ) -> Result<(PicState, Option<i32>), Stop>
        requires may { MayBegin self.old vps.now segment }
        requires can { CanBegin vps.now segment }
        requires read { IsRead vps.now }
        requires unit { length unit.now ≤ 2 ^ 24 }
        ensures takes { (past : List Judged) (p : Fact) → Keeps self.old past self.old.making → IsFirst vps.now segment past p → TakesFirst vps.now past p self.new result }
        ensures asked { self.new.asked ≡ self.old.asked }
        ensures cause { HasViewCause (V.viewing.faults viewer.old) (V.viewing.faults viewer.new) result }
    {
        if let Err(stop) = self.before_picture(rebuild, viewer, begins) {
            return Err(stop);
        }
        let state = match self.state(vps, &segment) {
            Ok(state) => state,
            Err(stop) => return Err(stop),
        };
        match self.taken(rebuild, viewer, vps, state, &segment, unit) {
            Ok((count, decoded)) => {
                self.picture = Some(OpenPicture::new(
                    segment.head,
                    segment.served,
                    segment.header,
                    decoded,
                ));
                Ok((state, count))
            }
            Err(stop) => Err(stop),
        }
    }

    // What becomes of it. Tries the rule NoIrap.
    pub(crate) fn state(
        &mut self,
        vps: &VpsInForce,
        segment: &FirstSegment,
    ) -> Result<PicState, Stop>
        requires can { CanBegin vps.now segment.now }
        requires read { IsRead vps.now }
        ensures takes { (past : List Judged) (p : Fact) → Keeps self.old past None → IsFirst vps.now segment.now past p → TakesState past p self.new result }
        ensures rest { self.new ≡ record self.old { states = self.new.states } }
    {
        let ctx = segment.served.context(&vps.value, segment.head);
        let entries = match num_entries(self.alloc, &segment.header, &ctx, segment.head.kind) {
            Ok(entries) => entries,
            Err(_) => return Err(Stop::Memory),
        };
        let facts = PicFacts {
            layer: segment.head.layer,
            kind: segment.head.kind,
            entries,
        };
        match self.states.picture(&vps.value, &facts) {
            Ok(state) => Ok(state),
            Err(rule) => Err(Stop::Breaks(rule)),
        }
    }

    // Takes a picture of which it is known what becomes of it. Tries the rules from SpsChanged on.
    pub(crate) fn taken<V: Viewer<R::Pic>>(
        &mut self,
        rebuild: &R,
        viewer: &mut V,
        vps: &VpsInForce,
        state: PicState,
        segment: &FirstSegment,
        unit: &[u8],
    ) -> Result<(Option<i32>, Option<DecodedLists>), Stop>
        requires may { MayTake self.old vps.now segment.now state }
        requires can { CanBegin vps.now segment.now }
        requires read { IsRead vps.now }
        requires unit { length unit.now ≤ 2 ^ 24 }
        ensures takes { (past : List Judged) (p : Fact) → KeepsPictures self.old past None → IsFirst vps.now segment.now past p → state ≡ state_of (look past p) p → self.old.making ≡ None →
            TakesPicture past p self.new result }
        ensures states { self.new.states ≡ self.old.states }
        ensures asked { self.new.asked ≡ self.old.asked }
        ensures cause { HasViewCause (V.viewing.faults viewer.old) (V.viewing.faults viewer.new) result }
    {
        match state {
            PicState::Skipped => self.skip(vps, segment),
            PicState::Decoded => match self.decode(rebuild, vps, segment, unit, false) {
                Ok(taken) => self.unchanged(segment, taken),
                Err(stop) => Err(stop),
            },
            PicState::Start => self.start(rebuild, viewer, vps, segment, unit),
        }
    }

    // A layer starts with the picture, and where that is layer 0, a coded video sequence.
    pub(crate) fn start<V: Viewer<R::Pic>>(
        &mut self,
        rebuild: &R,
        viewer: &mut V,
        vps: &VpsInForce,
        segment: &FirstSegment,
        unit: &[u8],
    ) -> Result<(Option<i32>, Option<DecodedLists>), Stop>
        requires may { MayTake self.old vps.now segment.now PicStateValue.Start }
        requires can { CanBegin vps.now segment.now }
        requires read { IsRead vps.now }
        requires unit { length unit.now ≤ 2 ^ 24 }
        ensures takes { (past : List Judged) (p : Fact) → KeepsPictures self.old past None → IsFirst vps.now segment.now past p → is_start (look past p) p ≡ true → TakesPicture past p self.new result }
        ensures states { self.new.states ≡ self.old.states }
        ensures asked { self.new.asked ≡ self.old.asked }
        ensures cause { HasViewCause (V.viewing.faults viewer.old) (V.viewing.faults viewer.new) result }
    {
        if segment.head.layer != 0 {
            return self.decode(rebuild, vps, segment, unit, true);
        }
        match self.start_sequence(viewer, vps, segment) {
            Ok(()) => self.decode(rebuild, vps, segment, unit, true),
            Err(stop) => Err(stop),
        }
    }

    // A coded video sequence starts with a base picture: all that waits is shown, and nothing is left of the pictures before.
    pub(crate) fn start_sequence<V: Viewer<R::Pic>>(
        &mut self,
        viewer: &mut V,
        vps: &VpsInForce,
        segment: &FirstSegment,
    ) -> Result<(), Stop>
        requires can { CanBegin vps.now segment.now }
        requires read { IsRead vps.now }
        ensures ready { (past : List Judged) (p : Fact) → KeepsPictures self.old past None → IsFirst vps.now segment.now past p → is_sequence_start (look past p) p ≡ true →
            OnOk result (IsReady self.new past p) }
        ensures states { self.new.states ≡ self.old.states }
        ensures picture { self.new.picture ≡ self.old.picture }
        ensures making { self.new.making ≡ self.old.making }
        ensures asked { self.new.asked ≡ self.old.asked }
        ensures cause { HasViewCause (V.viewing.faults viewer.old) (V.viewing.faults viewer.new) result }
        ensures breaks { BreaksNothing result }
    {
        if let Err(stop) = self.flush(viewer) {
            return Err(stop);
        }
        forget_all(&mut self.layers);
        self.order
            .begin(&vps.value, &segment.served.active.sps.value);
        let (reorder, outputs) = (
            self.order.reorder(self.asked),
            self.order.outputs(self.asked),
        );
        if self.queue.begin(self.alloc, reorder, outputs).is_err() {
            return Err(Stop::Memory);
        }
        self.sequences = self.sequences.wrapping_add(1);
        Ok(())
    }

    // A base picture that starts no sequence. Tries the rule VpsMidCvs.
    pub(crate) fn unchanged<T: Drop>(&self, segment: &FirstSegment, taken: T) -> Result<T, Stop>
        ensures { result ≡ unchanged segment.now taken }
    {
        if segment.head.layer == 0 && segment.behind_change {
            return Err(Stop::Breaks(Rule::VpsMidCvs));
        }
        Ok(taken)
    }
}
