//! How a picture is decoded or skipped.
#![tactic(auto)]

ghost use Rattle.std.specs.Prelude.{◌≡◌, ◌≤◌, ◌<◌, ◌^◌, false, List, Some, None, Err, length, nat_eq, if◌then◌else◌};
ghost use Rattle.mv_pictures.specs.Facts.{Fact};
ghost use Rattle.mv_pictures.specs.Judged.{Judged};
ghost use Rattle.mv_pictures.specs.Look.{look};
ghost use Rattle.mv_pictures.specs.Starts.{is_decoded};
ghost use Rattle.mv_walk_sets.specs.InForce.{IsRead};
ghost use Rattle.mv_walk.specs.Decoders.{KeepsPictures};
ghost use Rattle.mv_walk.specs.Firsts.{CanBegin, Decodes, MayDecode, IsDecoded, IsFirst, IsReady, TakesPicture, base_in, place};
ghost use Rattle.mv_walk.specs.declared.ending.Stop.{Stop as StopValue};

use crate::decoder::Decoder;
use crate::ending::Stop;
use crate::first::FirstSegment;
use mv_rebuild::Rebuild;
use mv_walk_decoded::{First, count_asked, decide};
use mv_walk_segment::DecodedLists;
use mv_walk_sets::VpsInForce;

impl<R: Rebuild> Decoder<R> {
    // The count of the base picture of the access unit, for a picture of another layer.
    pub(crate) fn base_for(&self, layer: u8) -> Option<i32>
        ensures { result ≡ base_in self.now.base_count layer }
    {
        if layer == 0 { None } else { self.base_count }
    }

    pub(crate) fn place(&self, segment: &FirstSegment, start: bool) -> First
        ensures { result ≡ place self.now.base_count segment.now start }
    {
        First {
            head: segment.head,
            au: segment.au,
            start,
            base: self.base_for(segment.head.layer),
        }
    }

    // A picture that isn't decoded. One of layer 0 has a count, where it is in range.
    pub(crate) fn skip(
        &mut self,
        vps: &VpsInForce,
        segment: &FirstSegment,
    ) -> Result<(Option<i32>, Option<DecodedLists>), Stop>
        requires kept { length self.old.layers.items ≡ 64 }
        requires can { CanBegin vps.now segment.now }
        requires read { IsRead vps.now }
        ensures takes { (past : List Judged) (p : Fact) → KeepsPictures self.old past None → IsFirst vps.now segment.now past p → is_decoded (look past p) p ≡ false → self.old.making ≡ None →
            TakesPicture past p self.new result }
        ensures states { self.new.states ≡ self.old.states }
        ensures asked { self.new.asked ≡ self.old.asked }
        ensures breaks { result ≡ Err StopValue.View → ⊥ }
    {
        if segment.head.layer != 0 {
            return Ok((None, None));
        }
        let ctx = segment.served.context(&vps.value, segment.head);
        let asked = count_asked(self.place(segment, false), &ctx, &segment.header);
        let count = self.layers[0].count(&asked).ok();
        self.base_count = count;
        self.unchanged(segment, (count, None))
    }

    // Decodes a picture by its first segment.
    pub(crate) fn decode(
        &mut self,
        rebuild: &R,
        vps: &VpsInForce,
        segment: &FirstSegment,
        unit: &[u8],
        start: bool,
    ) -> Result<(Option<i32>, Option<DecodedLists>), Stop>
        requires may { MayDecode self.old vps.now segment.now start }
        requires can { CanBegin vps.now segment.now }
        requires read { IsRead vps.now }
        requires unit { length unit.now ≤ 2 ^ 24 }
        ensures decodes { (past : List Judged) (p : Fact) → IsReady self.old past p → IsFirst vps.now segment.now past p → IsDecoded start past p → Decodes past p self.new result }
        ensures states { self.new.states ≡ self.old.states }
        ensures asked { self.new.asked ≡ self.old.asked }
        ensures breaks { result ≡ Err StopValue.View → ⊥ }
    {
        let place = self.place(segment, start);
        let ctx = segment.served.context(&vps.value, segment.head);
        let decided = match decide(
            self.alloc,
            self.layers.as_mut_slice(),
            &mut self.order,
            &vps.value,
            &segment.served.active,
            &ctx,
            &segment.header,
            place,
        ) {
            Ok(decided) => decided,
            Err(fault) => return Err(Stop::of_decided(fault)),
        };
        self.keep_count(segment.head.layer, decided.count);
        self.begin(rebuild, vps, segment, unit, start, decided)
    }

    // The count of a base picture.
    pub(crate) fn keep_count(&mut self, layer: u8, count: i32)
        ensures { self.new ≡ record self.old { base_count = if nat_eq layer 0 then Some count else self.old.base_count } }
    {
        if layer == 0 {
            self.base_count = Some(count);
        }
    }
}
