//! What serves a slice segment.

ghost use Rattle.std.specs.Prelude.{◌≡◌, ℕ, true, List, IfErr, IfOk};
ghost use Rattle.mv_rules.specs.declared.refusal.ReadFault.TheVariants.{Memory as out_of_memory};
ghost use Rattle.mv_layers.specs.LayerInfos.{is_known};
ghost use Rattle.mv_pictures.specs.AccessUnits.{Placed};
ghost use Rattle.mv_pictures.specs.Facts.{Fact, fact, named_sets, sets_of};
ghost use Rattle.mv_sets.specs.Store.{Stands as StandsFor};
ghost use Rattle.mv_slice.specs.Context.{Fits};
ghost use Rattle.mv_slice.specs.Slice.{slice_header};
ghost use Rattle.mv_syntax.specs.Table.{Valid};
ghost use Rattle.mv_vps.specs.Vps.{ValidVps};
ghost use Rattle.mv_contexts.specs.Sets.{AreSets};
ghost use Rattle.mv_walk_segment.specs.Serving.{IsInStream, IsSegment, IsServing, Names, Reads, context_by, eligible_at, sets_by};

use mv_contexts::{Eligible, eligible_layers, read_unit, slice_context};
use mv_rules::ReadFault;
use mv_sets::{Active, SetStore};
use mv_slice::{SliceContext, SliceHead};
use mv_units::UnitHead;
use mv_vps::Vps;
use std::alloc::Global;
use std::marker::Model;

/// What serves a slice segment: its parameter sets, and the layers that it may refer to.
#[derive(Debug, Drop)]
pub struct Served {
    pub active: Active,
    /// By their numbers among the direct reference layers, from 0 on.
    pub eligible: Eligible,
}

impl Model for Served {
    ghost use Rattle.mv_walk_segment.specs.OpenValue.{ServedValue};

    ghost Value = { ServedValue };

    ghost view = { λ s. record { active = s.active; eligible = s.eligible.items } };
}

impl Served {
    /// What serves a segment that names a picture parameter set by itself (7.4.1.4.1, F.7.4.1.4.1; this project's profile).
    ///
    /// `Refused` by `MissingPps` where no set with that id is in reach of its layer, and else by `MissingSps` where none with the
    /// id that this names is, or its format isn't there. `Memory` where memory runs out.
    pub fn named(
        alloc: Global,
        sets: &SetStore,
        vps: &Vps,
        head: UnitHead,
        pps_id: u8,
    ) -> Result<Served, ReadFault>
        requires vps { ValidVps vps.now }
        requires segment { IsInStream sets.now vps.now head pps_id }
        ensures answer { (past : List Fact) (q : Placed) → StandsFor sets.now past → IsSegment vps.now head pps_id q → Names result (named_sets past q) }
        ensures serving { IfOk result (λ served. IsServing vps.now head served) }
    {
        match sets.resolve(vps, head.layer, pps_id) {
            Ok(active) => Served::with(alloc, vps, head, active),
            Err(fault) => Err(fault),
        }
    }

    // These sets, with the layers that a segment may refer to.
    fn with(alloc: Global, vps: &Vps, head: UnitHead, active: Active) -> Result<Served, ReadFault>
        requires vps { ValidVps vps.now }
        ensures sets { IfOk result (λ served. served.active ≡ active) }
        ensures layers { IfOk result (λ served. served.eligible ≡ eligible_at vps.now head) }
        ensures memory { IfErr result (λ fault. fault ≡ out_of_memory) }
    {
        match eligible_layers(alloc, vps, head) {
            Ok(eligible) => Ok(Served { active, eligible }),
            Err(_) => Err(ReadFault::Memory),
        }
    }

    /// What the header of a segment with this head takes from it (7.4.7.1, F.7.4.7.1).
    pub fn context<'a>(&'a self, vps: &'a Vps, head: UnitHead) -> SliceContext<'a>
        requires vps { ValidVps vps.now }
        requires serving { IsServing vps.now head self.now }
        ensures value { result ≡ context_by vps.now self.now.active head }
        ensures fits { Fits result }
    {
        slice_context(vps, &self.active, head, self.eligible.as_slice())
    }

    /// The header of a segment that it serves (7.3.6.1, F.7.3.6.1).
    ///
    /// `Refused` by `SliceSyntax` and `CrossLayerBla`, as `read_unit` is. `Memory` where memory runs out.
    pub fn read(
        &self,
        alloc: Global,
        vps: &Vps,
        head: UnitHead,
        unit: &[u8],
    ) -> Result<SliceHead, ReadFault>
        requires vps { ValidVps vps.now }
        requires serving { IsServing vps.now head self.now }
        ensures answer { (past : List Fact) (q : Placed) (id : ℕ) → IsSegment vps.now head id q → q.item.bytes ≡ unit.now → sets_of past q ≡ sets_by self.now.active → Reads result (fact past q) }
        ensures valid { IfOk result (λ header. Valid (slice_header (context_by vps.now self.now.active head) head.kind) header) }
    {
        read_by(
            alloc,
            vps,
            &self.active,
            self.eligible.as_slice(),
            head,
            unit,
        )
    }
}

/// The header of a segment that sets serve, which may refer to these layers.
///
/// `Refused` by `SliceSyntax` and `CrossLayerBla`, as `read_unit` is. `Memory` where memory runs out.
pub(crate) fn read_by(
    alloc: Global,
    vps: &Vps,
    active: &Active,
    eligible: &[u8],
    head: UnitHead,
    unit: &[u8],
) -> Result<SliceHead, ReadFault>
    requires vps { ValidVps vps.now }
    requires layer { is_known vps.now.derived.layers head.layer ≡ true }
    requires sets { AreSets active.now }
    requires eligible { eligible.now ≡ eligible_at vps.now head }
    ensures answer { (past : List Fact) (q : Placed) (id : ℕ) → IsSegment vps.now head id q → q.item.bytes ≡ unit.now → sets_of past q ≡ sets_by active.now → Reads result (fact past q) }
    ensures valid { IfOk result (λ header. Valid (slice_header (context_by vps.now active.now head) head.kind) header) }
{
    let ctx = slice_context(vps, active, head, eligible);
    read_unit(alloc, &ctx, head, unit)
}
