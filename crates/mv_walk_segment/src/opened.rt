//! The latest picture of the access unit, to which later segments belong.

ghost use Rattle.std.specs.Prelude.{◌≡◌, ◌≤◌, ◌∷◌, ℕ, false, List, Some, IsSome, OnErr, OnOk, option_map};
ghost use Rattle.std.specs.Option.{IfSome};
ghost use Rattle.mv_pictures.specs.AccessUnits.{Placed};
ghost use Rattle.mv_pictures.specs.Facts.{Fact, fact, named_sets, sets_of};
ghost use Rattle.mv_pictures.specs.History.{judged};
ghost use Rattle.mv_pictures.specs.Items.{is_picture};
ghost use Rattle.mv_pictures.specs.Judged.{Judged};
ghost use Rattle.mv_reflists.specs.Sizes.{total};
ghost use Rattle.mv_sets.specs.Store.{Stands as StandsFor};
ghost use Rattle.mv_syntax.specs.Words.{or_zero};
ghost use Rattle.mv_tried.specs.Finer.{facts_in};
ghost use Rattle.mv_vps.specs.Vps.{ValidVps};
ghost use Rattle.mv_walk_segment.specs.OpenValue.{OpenValue};
ghost use Rattle.mv_walk_segment.specs.Open.{HasNext, IsNext, IsOpen, Keeps, Stands, Takes, later_rule, serves};
ghost use Rattle.mv_walk_segment.specs.Serving.{IsInStream, IsSegment, IsServing, Reads, sets_by};
ghost use Rattle.mv_walk_segment.specs.Taken.{AreListed, AreShort, broken_by, taken, with_lists};

use crate::fault::SegmentFault;
use crate::served::{Served, read_by};
use mv_au::agree;
use mv_contexts::eligible_layers;
use mv_reflists::{Lists, Sizes, build_lists};
use mv_rules::ReadFault;
use mv_sets::SetStore;
use mv_slice::{SliceContext, SliceHead};
use mv_units::UnitHead;
use mv_vps::Vps;
use std::alloc::Global;
use std::marker::Model;

/// Of a decoded picture how many references it has of each part, and the lists of its latest segment.
#[derive(Debug, Drop)]
pub struct DecodedLists {
    pub sizes: Sizes,
    pub lists: Lists,
}

impl Model for DecodedLists {
    ghost use Rattle.mv_walk_segment.specs.OpenValue.{DecodedValue};

    ghost Value = { DecodedValue };

    ghost view = { λ d. record { sizes = d.sizes; lists = d.lists } };
}

/// A picture, with what its later segments have to agree with.
#[derive(Debug, Drop)]
pub struct OpenPicture {
    /// The head of its first segment's unit.
    pub head: UnitHead,
    pub served: Served,
    /// The header of its first segment.
    pub first: SliceHead,
    /// slice_segment_address of its latest segment.
    pub address: u32,
    /// Where it is decoded.
    pub decoded: Option<DecodedLists>,
}

impl Model for OpenPicture {
    ghost use Rattle.mv_walk_segment.specs.OpenValue.{OpenValue};

    ghost Value = { OpenValue };

    ghost view = { λ p. record { head = p.head; served = p.served; first = p.first; address = p.address; decoded = p.decoded } };
}

// slice_segment_address: 0 where it isn't coded.
fn address_of(header: &SliceHead) -> u32
    ensures { result ≡ or_zero header.now.address.slice_segment_address }
{
    header.address.slice_segment_address.unwrap_or(0)
}

impl OpenPicture {
    /// The picture of a first segment with this header, and where it is decoded with its references and lists.
    pub fn new(
        head: UnitHead,
        served: Served,
        first: SliceHead,
        decoded: Option<DecodedLists>,
    ) -> OpenPicture
        ensures { result ≡ record { head = head; served = served; first = first; address = or_zero first.address.slice_segment_address; decoded = decoded } }
    {
        let address = address_of(&first);
        OpenPicture {
            head,
            served,
            first,
            address,
            decoded,
        }
    }

    // Whether its sets serve a later segment of a layer that names this picture parameter set.
    fn serves(&self, head: UnitHead, pps_id: u8) -> bool
        ensures { result ≡ serves self.now head pps_id }
    {
        self.head.layer == head.layer
            && u32::from(pps_id) == self.first.opening.slice_pic_parameter_set_id
    }

    // The header of a later segment of its layer that its sets serve.
    fn read(
        &self,
        alloc: Global,
        vps: &Vps,
        head: UnitHead,
        unit: &[u8],
    ) -> Result<SliceHead, ReadFault>
        requires vps { ValidVps vps.now }
        requires serving { IsServing vps.now self.now.head self.now.served }
        requires layer { self.now.head.layer ≡ head.layer }
        ensures { (past : List Fact) (q : Placed) (id : ℕ) → IsSegment vps.now head id q → q.item.bytes ≡ unit.now → sets_of past q ≡ sets_by self.now.served.active → Reads result (fact past q) }
    {
        if head.tid == self.head.tid {
            return self.served.read(alloc, vps, head, unit);
        }
        self.read_anew(alloc, vps, head, unit)
    }

    // The same of one with another TemporalId, by which go the layers that it may refer to.
    fn read_anew(
        &self,
        alloc: Global,
        vps: &Vps,
        head: UnitHead,
        unit: &[u8],
    ) -> Result<SliceHead, ReadFault>
        requires vps { ValidVps vps.now }
        requires serving { IsServing vps.now self.now.head self.now.served }
        requires layer { self.now.head.layer ≡ head.layer }
        ensures { (past : List Fact) (q : Placed) (id : ℕ) → IsSegment vps.now head id q → q.item.bytes ≡ unit.now → sets_of past q ≡ sets_by self.now.served.active → Reads result (fact past q) }
    {
        match eligible_layers(alloc, vps, head) {
            Ok(eligible) => read_by(
                alloc,
                vps,
                &self.served.active,
                eligible.as_slice(),
                head,
                unit,
            ),
            Err(_) => Err(ReadFault::Memory),
        }
    }

    /// Takes a later segment of it, whose header was read (7.4.7.1, 8.3.4, F.8.3.4; this project's profile). It takes no memory. An
    /// error leaves the picture as it is.
    ///
    /// `Refused` with the least rule that it breaks of `SliceDiffers`, `AddressOrder`, and where the picture is decoded and the
    /// header is full `ListEntry`, `NoRefs` and `Collocated`.
    pub fn add(
        &mut self,
        alloc: Global,
        vps: &Vps,
        head: UnitHead,
        header: &SliceHead,
    ) -> Result<(), SegmentFault>
        requires vps { ValidVps vps.now }
        requires serving { IsServing vps.now self.old.head self.old.served }
        requires few { IfSome self.old.decoded (λ d. total d.sizes ≤ 255) }
        requires next { HasNext vps.now self.old head header.now }
        ensures answer { (past : List Judged) (q : Placed) → IsNext vps.now self.old head header.now past q → Takes result (later_rule past (fact (facts_in past) q)) }
        ensures stands { (past : List Judged) (q : Placed) → IsNext vps.now self.old head header.now past q → OnOk result (IsOpen vps.now self.new (judged past (fact (facts_in past) q) ∷ past) q.au) }
        ensures keeps { Keeps self.old self.new }
        ensures short { IfSome self.old.decoded (λ d. AreShort d.lists) → IfSome self.new.decoded (λ d. AreShort d.lists) }
        ensures error { OnErr result (self.new ≡ self.old) }
    {
        let ctx = self.served.context(vps, self.head);
        if let Err(rule) = agree(&self.first, self.address, (self.head, head), header, &ctx) {
            return Err(SegmentFault::Refused(rule));
        }
        match with_segment(alloc, &ctx, header, &mut self.decoded) {
            Ok(()) => {
                self.address = address_of(header);
                Ok(())
            }
            Err(fault) => Err(fault),
        }
    }
}

// The lists of a decoded picture's next segment: a dependent one has those of the segment before it.
fn with_segment(
    alloc: Global,
    ctx: &SliceContext,
    header: &SliceHead,
    decoded: &mut Option<DecodedLists>,
) -> Result<(), SegmentFault>
    requires few { IfSome decoded.old (λ d. total d.sizes ≤ 255) }
    requires listed { IfSome header.now.full (λ full. AreListed ctx.now full) }
    ensures answer { result ≡ taken (broken_by decoded.old ctx.now header.now.full) }
    ensures lists { OnOk result (decoded.new ≡ with_lists decoded.old ctx.now header.now.full) }
    ensures keeps { option_map (λ d. d.sizes) decoded.new ≡ option_map (λ d. d.sizes) decoded.old }
    ensures error { OnErr result (decoded.new ≡ decoded.old) }
{
    match decoded {
        Some(decoded) if header.full.is_some() => with_full(alloc, ctx, header, decoded),
        _ => Ok(()),
    }
}

fn with_full(
    alloc: Global,
    ctx: &SliceContext,
    header: &SliceHead,
    decoded: &mut DecodedLists,
) -> Result<(), SegmentFault>
    requires full { IsSome header.now.full }
    requires few { total decoded.old.sizes ≤ 255 }
    requires listed { IfSome header.now.full (λ full. AreListed ctx.now full) }
    ensures answer { result ≡ taken (broken_by (Some decoded.old) ctx.now header.now.full) }
    ensures lists { OnOk result (Some decoded.new ≡ with_lists (Some decoded.old) ctx.now header.now.full) }
    ensures keeps { decoded.new.sizes ≡ decoded.old.sizes }
    ensures error { OnErr result (decoded.new ≡ decoded.old) }
{
    match build_lists(alloc, &decoded.sizes, ctx, header) {
        Ok(lists) => {
            decoded.lists = lists;
            Ok(())
        }
        Err(fault) => Err(SegmentFault::of_lists(fault)),
    }
}

/// The header of a segment that isn't the first one of its picture. The sets of the access unit's latest picture serve it where it
/// is of that picture's layer and names the same picture parameter set, and else those that it names (7.4.7.1; this project's
/// profile).
///
/// `Refused` by `MissingPps` and `MissingSps` where it is served by what it names and that isn't there, and else by `SliceSyntax`
/// and `CrossLayerBla`. `Memory` where memory runs out.
pub fn read_later(
    alloc: Global,
    picture: &Option<OpenPicture>,
    sets: &SetStore,
    vps: &Vps,
    head: UnitHead,
    pps_id: u8,
    unit: &[u8],
) -> Result<SliceHead, ReadFault>
    requires vps { ValidVps vps.now }
    requires serving { IfSome picture.now (λ opened. IsServing vps.now opened.head opened.served) }
    requires segment { IsInStream sets.now vps.now head pps_id }
    ensures { (past : List Judged) (q : Placed) → Stands vps.now picture.now past q.au → StandsFor sets.now (facts_in past) → IsSegment vps.now head pps_id q → q.item.bytes ≡ unit.now → is_picture q.item ≡ false
        → Reads result (fact (facts_in past) q) }
{
    match picture {
        Some(picture) if picture.serves(head, pps_id) => picture.read(alloc, vps, head, unit),
        _ => read_named(alloc, sets, vps, head, pps_id, unit),
    }
}

fn read_named(
    alloc: Global,
    sets: &SetStore,
    vps: &Vps,
    head: UnitHead,
    pps_id: u8,
    unit: &[u8],
) -> Result<SliceHead, ReadFault>
    requires vps { ValidVps vps.now }
    requires segment { IsInStream sets.now vps.now head pps_id }
    ensures { (past : List Fact) (q : Placed) → StandsFor sets.now past → IsSegment vps.now head pps_id q → q.item.bytes ≡ unit.now → sets_of past q ≡ named_sets past q → Reads result (fact past q) }
{
    match Served::named(alloc, sets, vps, head, pps_id) {
        Ok(served) => served.read(alloc, vps, head, unit),
        Err(fault) => Err(fault),
    }
}
