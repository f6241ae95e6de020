//! The course of a stream: what is kept of it from unit to unit.
#![tactic(auto)]

ghost use Rattle.std.specs.Prelude.{ℕ, ◌≡◌, ◌+◌, ◌<◌, ◌^◌, [], None, List, length, IfOk};
ghost use Rattle.mv_units.specs.Rules.{unit_rule};
ghost use Rattle.mv_vps.specs.Vps.{ValidVps};
ghost use Rattle.mv_walk.specs.Courses.{HasUnits, Stood};
ghost use Rattle.mv_walk.specs.Decoders.{HasViewCause};
ghost use Rattle.mv_walk.specs.Stepping.{Ends, Steps};

use crate::decoder::Decoder;
use crate::ending::Stop;
use crate::last::Carried;
use crate::step::{Step, Totals};
use mv_au::AuTracker;
use mv_bytestream::read_head;
use mv_rebuild::{Rebuild, Viewer};
use mv_rules::Rule;
use mv_sets::SetStore;
use mv_vps::Vps;
use mv_walk_sets::{VpsInForce, keeps, role_of};
use std::alloc::{AllocError, Global};

/// What is kept of a stream from unit to unit.
#[derive(Drop)]
pub(crate) struct Course<R: Rebuild> {
    pub(crate) alloc: Global,
    /// The video parameter set in force.
    pub(crate) vps: Option<VpsInForce>,
    /// The number of the latest access unit that has a changed video parameter set.
    pub(crate) changed: Option<u64>,
    pub(crate) sets: SetStore,
    pub(crate) units: AuTracker,
    pub(crate) decoder: Decoder<R>,
    pub(crate) last: Carried,
}

impl<R: Rebuild> Course<R> {
    /// The course of a stream without units, where an output layer set is asked for.
    pub(crate) fn new(alloc: Global, asked: u32) -> Result<Course<R>, AllocError>
        ensures stood { IfOk result (λ c. Stood c []) }
        ensures asked { IfOk result (λ c. c.decoder.asked ≡ asked) }
    {
        let sets = SetStore::new(alloc)?;
        let decoder = Decoder::new(alloc, asked)?;
        Ok(Course {
            alloc,
            vps: None,
            changed: None,
            sets,
            units: AuTracker::new(),
            decoder,
            last: Carried::Nothing,
        })
    }

    /// Takes the next unit.
    pub(crate) fn step<V: Viewer<R::Pic>>(
        &mut self,
        rebuild: &R,
        viewer: &mut V,
        unit: &[u8],
    ) -> Result<Step, Stop>
        requires clean { unit_rule unit.now ≡ None }
        requires has { HasUnits self.old }
        ensures steps { (us : List (List ℕ)) → Stood self.old us → length us + 1 < 2 ^ 64 → Steps self.old.decoder.asked us unit.now self.new result }
        ensures asked { self.new.decoder.asked ≡ self.old.decoder.asked }
        ensures cause { HasViewCause (V.viewing.faults viewer.old) (V.viewing.faults viewer.new) result }
    {
        let head = match read_head(unit) {
            Ok(head) => head,
            Err(rule) => return Err(Stop::Breaks(rule)),
        };
        let role = match role_of(self.vps.as_ref(), head) {
            Ok(role) => role,
            Err(rule) => return Err(Stop::Breaks(rule)),
        };
        match self.take(rebuild, viewer, role, head, unit) {
            Ok(picture) => Ok(Step {
                head,
                kept: keeps(self.vps.as_ref(), self.decoder.asked, head.layer),
                picture,
            }),
            Err(stop) => Err(stop),
        }
    }

    /// Takes the end of the stream, of which so many units came and are kept.
    pub(crate) fn end<V: Viewer<R::Pic>>(
        &mut self,
        rebuild: &R,
        viewer: &mut V,
        units: u64,
        kept: u64,
    ) -> Result<Totals, Stop>
        requires stood { (us : List (List ℕ)) × Stood self.old us }
        ensures ends { (us : List (List ℕ)) → Stood self.old us → Ends us units kept result }
        ensures cause { HasViewCause (V.viewing.faults viewer.old) (V.viewing.faults viewer.new) result }
    {
        let Some(vps) = &self.vps else {
            return Err(Stop::Breaks(Rule::NoPicture));
        };
        if self.decoder.pictures() == 0 {
            return Err(Stop::Breaks(Rule::NoPicture));
        }
        if let Err(stop) = self.decoder.end(rebuild, viewer) {
            return Err(stop);
        }
        Ok(Totals {
            units,
            kept,
            pictures: self.decoder.pictures(),
            sequences: self.decoder.sequences(),
            layers: layers_of(&vps.value),
            sets: vps.value.ols_count(),
        })
    }
}

// How many layers a video parameter set has.
fn layers_of(vps: &Vps) -> u8
    requires { ValidVps vps.now }
    ensures { result ≡ length vps.now.derived.layers }
{
    vps.derived.layers.len() as u8
}
