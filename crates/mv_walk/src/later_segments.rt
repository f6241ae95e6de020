//! How a later segment of a picture is taken.
#![tactic(auto)]

ghost use Rattle.std.specs.Prelude.{◌≡◌, ◌≤◌, ◌<◌, ◌^◌, List, Some, Err, length};
ghost use Rattle.mv_pictures.specs.AccessUnits.{Placed};
ghost use Rattle.mv_pictures.specs.Judged.{Judged};
ghost use Rattle.mv_walk_sets.specs.InForce.{IsRead};
ghost use Rattle.mv_walk.specs.Decoders.{DecoderStands};
ghost use Rattle.mv_walk.specs.Laters.{CanAdd, IsNextOf, TakesLater};

use crate::decoder::Decoder;
use crate::ending::Stop;
use mv_rebuild::Rebuild;
use mv_rules::Rule;
use mv_slice::SliceHead;
use mv_units::UnitHead;
use mv_walk_sets::VpsInForce;

impl<R: Rebuild> Decoder<R> {
    /// Takes a segment that isn't the first one of the latest picture, whose header was read.
    pub(crate) fn later(
        &mut self,
        rebuild: &R,
        vps: &VpsInForce,
        head: UnitHead,
        unit: &[u8],
        header: &SliceHead,
    ) -> Result<(), Stop>
        requires can { CanAdd vps.now.value self.old.picture head header.now }
        requires read { IsRead vps.now }
        requires unit { length unit.now ≤ 2 ^ 24 }
        ensures takes { (past : List Judged) (q : Placed) → DecoderStands self.old (Some vps.now) past q.au → IsNextOf vps.now.value self.old.picture head header.now past q → TakesLater vps.now past q self.new result }
        ensures asked { self.new.asked ≡ self.old.asked }
    {
        let Some(picture) = &mut self.picture else {
            return Err(Stop::Breaks(Rule::OrphanSlice));
        };
        if let Err(fault) = picture.add(self.alloc, &vps.value, head, header) {
            return Err(Stop::of_segment(fault));
        }
        match (&mut self.making, &picture.decoded) {
            (Some(making), Some(decoded)) => {
                match making.slice(rebuild, self.alloc, unit, &decoded.lists) {
                    Ok(()) => Ok(()),
                    Err(_) => Err(Stop::Memory),
                }
            }
            _ => Ok(()),
        }
    }
}
