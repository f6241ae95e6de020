//! The count and the references of a decoded picture.
#![tactic(auto)]

ghost use Rattle.std.specs.Prelude.{◌≡◌, ◌<◌, ◌≤◌, List, length, slice_set};
ghost use Rattle.mv_syntax.specs.Table.{Valid};
ghost use Rattle.mv_slice.specs.Context.{Fits};
ghost use Rattle.mv_slice.specs.Slice.{header_layers, slice_header};
ghost use Rattle.mv_vps.specs.Vps.{ValidVps};
ghost use Rattle.mv_reflists.specs.declared.inter_layer_sets.Active2.{Active2};
ghost use Rattle.mv_walk_layer.specs.LayerValue.{found, with_count};
ghost use Rattle.mv_walk_decoded.specs.Actives.{actives_at, in_place, layer_of, sets_refuse};
ghost use Rattle.mv_walk_decoded.specs.Asked.{Tried, asked_by};
ghost use Rattle.mv_walk_decoded.specs.Making.{layers_refuse, references_refuse, set_by, set_refuses, sets_between};
ghost use Rattle.mv_walk_decoded.specs.Made.{IsCounted, IsResolved, sizes_in};

use crate::actives::{Actives, actives_of, format_differs, sps_changes};
use crate::asked::{First, count_asked};
use crate::fault::DecideFault;
use mv_reflists::{InterLayer, ListFault, Sizes, inter_layer};
use mv_rps::{RefFault, RefSet, Resolved};
use mv_rules::Rule;
use mv_sets::Active;
use mv_slice::{SliceContext, SliceHead, active_layers};
use mv_vps::Vps;
use mv_walk_layer::LayerPictures;
use mv_walk_sets::view;
use std::alloc::Global;

// What is kept of a layer.
fn own_of<P: Drop>(layers: &[LayerPictures<P>], layer: u8) -> &LayerPictures<P>
    requires { layer < length layers.now }
    ensures { result.now ≡ layer_of layers.now layer }
{
    &layers[layer as usize]
}

/// The active reference layers of a picture. Tries the rules SpsChanged and FormatDiffers.
pub fn checked_actives<P: Drop>(
    alloc: Global,
    layers: &[LayerPictures<P>],
    vps: &Vps,
    active: &Active,
    ctx: &SliceContext,
    header: &SliceHead,
    first: First,
) -> Result<Actives, DecideFault>
    requires layer { first.head.layer < length layers.now }
    requires vps { ValidVps vps.now }
    ensures { let actives : List Active2 = actives_at layers.now (in_place vps.now) first.head.layer first.au (header_layers ctx.now header.now.full) in
        Tried (sets_refuse layers.now first.head.layer active.now.sps.payload first.start first.au active.now.format actives) (λ v. v.items ≡ actives) result }
{
    let layer = first.head.layer;
    if sps_changes(own_of(layers, layer), &active.sps, first.start) {
        return Err(DecideFault::Refused(Rule::SpsChanged));
    }
    let actives = match actives_of(
        alloc,
        layers,
        vps,
        layer,
        first.au,
        active_layers(ctx, header),
    ) {
        Ok(actives) => actives,
        Err(_) => return Err(DecideFault::Memory),
    };
    if format_differs(layers, actives.as_slice(), first.au, &active.format) {
        return Err(DecideFault::Refused(Rule::FormatDiffers));
    }
    Ok(actives)
}

/// A picture's count, and what its reference picture set makes of its layer's buffer.
#[derive(Debug, Drop)]
pub struct Counted {
    pub count: i32,
    pub resolved: Resolved,
}

// Of one layer. Tries the rules PocRange, PocMismatch, IrapRefers, TooManyRefs and MissingRef.
fn count_in<P: Drop>(
    alloc: Global,
    own: &mut LayerPictures<P>,
    ctx: &SliceContext,
    header: &SliceHead,
    first: First,
) -> Result<Counted, DecideFault>
    requires fits { Fits ctx.now }
    requires valid { Valid (slice_header ctx.now first.head.kind) header.now }
    ensures made { Tried (references_refuse own.old (asked_by first ctx.now header.now) ctx.now header.now) (IsCounted own.old first ctx.now header.now) result }
    ensures own { own.new ≡ with_count (asked_by first ctx.now header.now) own.old }
{
    let count = match own.count(&count_asked(first, ctx, header)) {
        Ok(count) => count,
        Err(rule) => return Err(DecideFault::Refused(rule)),
    };
    match resolved(alloc, own, ctx, header, first, count) {
        Ok(resolved) => Ok(Counted { count, resolved }),
        Err(fault) => Err(fault),
    }
}

/// Them, of the picture's layer. Tries the rules PocRange, PocMismatch, IrapRefers, TooManyRefs and MissingRef.
pub fn count_of<P: Drop>(
    alloc: Global,
    layers: &mut [LayerPictures<P>],
    ctx: &SliceContext,
    header: &SliceHead,
    first: First,
) -> Result<Counted, DecideFault>
    requires layer { first.head.layer < length layers.old }
    requires fits { Fits ctx.now }
    requires valid { Valid (slice_header ctx.now first.head.kind) header.now }
    ensures made { Tried (references_refuse (layer_of layers.old first.head.layer) (asked_by first ctx.now header.now) ctx.now header.now)
        (IsCounted (layer_of layers.old first.head.layer) first ctx.now header.now) result }
    ensures layers { layers.new ≡ slice_set layers.old first.head.layer (with_count (asked_by first ctx.now header.now) (layer_of layers.old first.head.layer)) }
{
    let own = &mut layers[first.head.layer as usize];
    count_in(alloc, own, ctx, header, first)
}

// Tries the rules IrapRefers, TooManyRefs and MissingRef.
fn resolved<P: Drop>(
    alloc: Global,
    own: &LayerPictures<P>,
    ctx: &SliceContext,
    header: &SliceHead,
    first: First,
    count: i32,
) -> Result<Resolved, DecideFault>
    requires fits { Fits ctx.now }
    requires valid { Valid (slice_header ctx.now first.head.kind) header.now }
    ensures { Tried (set_refuses first.head.kind (set_by ctx.now header.now count) (found first.start own.now))
        (IsResolved (set_by ctx.now header.now count) (found first.start own.now) (length own.now.buffer)) result }
{
    let set = match RefSet::of(alloc, header, ctx, first.head.kind, count) {
        Ok(set) => set,
        Err(RefFault::Refused(rule)) => return Err(DecideFault::Refused(rule)),
        Err(RefFault::Memory) => return Err(DecideFault::Memory),
    };
    match own.resolve(alloc, &set, first.start) {
        Ok(resolved) => Ok(resolved),
        Err(RefFault::Refused(rule)) => Err(DecideFault::Refused(rule)),
        Err(RefFault::Memory) => Err(DecideFault::Memory),
    }
}

/// The inter-layer reference pictures. Tries the rule MissingInterLayer.
pub fn inter_layer_of(
    alloc: Global,
    vps: &Vps,
    layer: u8,
    actives: &Actives,
) -> Result<InterLayer, DecideFault>
    requires { ValidVps vps.now }
    ensures { Tried (layers_refuse actives.now.items) (λ v. v ≡ sets_between (in_place vps.now) layer actives.now.items) result }
{
    match inter_layer(alloc, view(vps, layer), view(vps, 0), actives.as_slice()) {
        Ok(sets) => Ok(sets),
        Err(ListFault::Refused(rule)) => Err(DecideFault::Refused(rule)),
        Err(ListFault::Memory) => Err(DecideFault::Memory),
    }
}

/// How many references a picture has of each part.
pub fn sizes_of(resolved: &Resolved, sets: &InterLayer) -> Sizes
    requires before { length resolved.now.before.items ≤ 15 }
    requires after { length resolved.now.after.items ≤ 15 }
    requires long { length resolved.now.long.items ≤ 15 }
    requires zero { length sets.now.zero ≤ 62 }
    requires one { length sets.now.one ≤ 62 }
    ensures { result ≡ sizes_in resolved.now sets.now }
{
    Sizes {
        before: resolved.before.len() as u8,
        after: resolved.after.len() as u8,
        long: resolved.long.len() as u8,
        zero: sets.zero.len() as u8,
        one: sets.one.len() as u8,
    }
}
