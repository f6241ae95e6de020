//! How a decoded picture is put in the making.
#![tactic(auto)]

ghost use Rattle.std.specs.Prelude.{◌≡◌, ◌≤◌, ◌<◌, ◌+◌, ◌^◌, true, All, AllPairs, Some, Err, IfOk, IfErr, OnOk, is_some, length, slice_set};
ghost use Rattle.std.specs.Option.{IfSome};
ghost use Rattle.mv_walk_layer.specs.LayerValue.{with_decoded};
ghost use Rattle.mv_walk_sets.specs.InForce.{IsRead};
ghost use Rattle.mv_walk.specs.Decoders.{layer_at, made_in};
ghost use Rattle.mv_walk.specs.Firsts.{CanBegin, latest_by};
ghost use Rattle.mv_walk.specs.declared.ending.Stop.{Stop as StopValue};

use crate::decoder::Decoder;
use crate::ending::Stop;
use crate::first::FirstSegment;
use crate::making::begin;
use mv_rebuild::Rebuild;
use mv_walk_decoded::Decided;
use mv_walk_layer::Latest;
use mv_walk_segment::DecodedLists;
use mv_walk_sets::VpsInForce;

impl<R: Rebuild> Decoder<R> {
    // It is in the making.
    pub(crate) fn begin(
        &mut self,
        rebuild: &R,
        vps: &VpsInForce,
        segment: &FirstSegment,
        unit: &[u8],
        start: bool,
        decided: Decided,
    ) -> Result<(Option<i32>, Option<DecodedLists>), Stop>
        requires all { length self.old.layers.items ≡ 64 }
        requires can { CanBegin vps.now segment.now }
        requires read { IsRead vps.now }
        requires unit { length unit.now ≤ 2 ^ 24 }
        requires rising { AllPairs (λ k l. k.place < l.place) decided.resolved.keep.items }
        requires within { All (λ k. k.place < length (layer_at self.old.layers.items segment.now.head.layer).buffer) decided.resolved.keep.items }
        requires few { (length decided.lists.list0 ≤ 15) × (length decided.lists.list1 ≤ 15) }
        ensures told { IfOk result (λ told. told ≡ (Some decided.count, Some (record { sizes = decided.sizes; lists = decided.lists }))) }
        ensures making { OnOk result (IfSome self.new.making (λ m. made_in segment.now.head.layer m ≡ Some (decided.count, segment.now.au))) }
        ensures made { OnOk result (is_some self.new.making ≡ true) }
        ensures pictures { OnOk result (self.old.pictures + 1 < 2 ^ 64 → self.new.pictures ≡ self.old.pictures + 1) }
        ensures layers { OnOk result (self.new.layers.items
            ≡ slice_set self.old.layers.items segment.now.head.layer (with_decoded start decided.resolved.keep.items (latest_by segment.now) (layer_at self.old.layers.items segment.now.head.layer))) }
        ensures rest { self.new ≡ record self.old { layers = self.new.layers; making = self.new.making; pictures = self.new.pictures } }
        ensures memory { IfErr result (λ stop. stop ≡ StopValue.Memory) }
    {
        let active = &segment.served.active;
        let sequence = self.sequences.saturating_sub(1);
        let output = decided.put_out && self.order.puts_out(self.asked, segment.head.layer);
        let making = match begin(
            rebuild,
            self.alloc,
            &self.layers,
            vps,
            segment,
            unit,
            &decided,
            sequence,
            output,
        ) {
            Ok(making) => making,
            Err(_) => return Err(Stop::Memory),
        };
        let sps: Result<_, _> = active.sps.clone();
        let sps = match sps {
            Ok(sps) => sps,
            Err(_) => return Err(Stop::Memory),
        };
        let latest = Latest {
            au: segment.au,
            sps,
            format: active.format,
        };
        self.layers[segment.head.layer as usize].decode(start, &decided.resolved.keep, latest);
        self.making = Some(making);
        self.pictures = self.pictures.wrapping_add(1);
        Ok((
            Some(decided.count),
            Some(DecodedLists {
                sizes: decided.sizes,
                lists: decided.lists,
            }),
        ))
    }
}
