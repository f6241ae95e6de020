//! A decoded picture in the making.
#![tactic(auto)]

ghost use Rattle.std.specs.Prelude.{◌≡◌, ◌≤◌, ◌^◌, Some, IfOk, length, option_map};
ghost use Rattle.mv_walk_layer.specs.LayerValue.{last_picture};
ghost use Rattle.mv_walk_sets.specs.InForce.{IsRead};
ghost use Rattle.mv_walk.specs.Decoders.{layer_at, made_in};
ghost use Rattle.mv_walk.specs.Firsts.{CanBegin};

use crate::first::FirstSegment;
use mv_dpb::Shown;
use mv_rebuild::{PicStart, Rebuild, RefKind};
use mv_reflists::Lists;
use mv_rps::Resolved;
use mv_walk_decoded::Decided;
use mv_walk_layer::LayerPictures;
use mv_walk_sets::{VpsInForce, view};
use smallvec::SmallVec;
use std::alloc::{AllocError, Global};
use std::rc::Rc;

/// The references of a picture, each by its layer and its count.
pub(crate) type References = SmallVec<(u8, i32), 16>;

/// A decoded picture whose segments come one by one.
#[derive(Drop)]
pub(crate) struct Making<R: Rebuild> {
    pub(crate) work: R::Work,
    /// What is shown of it where it is put out.
    pub(crate) shown: Shown,
    /// The number of its access unit.
    pub(crate) au: u64,
    /// Whether the output layer set that is asked for puts it out.
    pub(crate) output: bool,
    pub(crate) references: References,
}

impl<R: Rebuild> Making<R> {
    // Adds a reference.
    fn refer(
        &mut self,
        rebuild: &R,
        alloc: Global,
        kind: RefKind,
        layer: u8,
        count: i32,
        pic: &R::Pic,
    ) -> Result<(), AllocError>
        ensures { self.new ≡ record self.old { work = self.new.work; references = self.new.references } }
    {
        rebuild.refer(alloc, &mut self.work, kind, pic)?;
        match self.references.push((layer, count)) {
            Ok(()) => Ok(()),
            Err(_) => Err(AllocError),
        }
    }

    /// Adds a slice segment.
    pub(crate) fn slice(
        &mut self,
        rebuild: &R,
        alloc: Global,
        unit: &[u8],
        lists: &Lists,
    ) -> Result<(), AllocError>
        requires unit { length unit.now ≤ 2 ^ 24 }
        requires few { (length lists.now.list0 ≤ 15) × (length lists.now.list1 ≤ 15) }
        ensures { self.new ≡ record self.old { work = self.new.work } }
    {
        rebuild.slice(
            alloc,
            &mut self.work,
            unit,
            lists.list0.as_slice(),
            lists.list1.as_slice(),
        )
    }
}

/// Begins a decoded picture: its start, its references, and its first segment.
pub(crate) fn begin<R: Rebuild>(
    rebuild: &R,
    alloc: Global,
    layers: &[LayerPictures<R::Pic>],
    vps: &VpsInForce,
    segment: &FirstSegment,
    unit: &[u8],
    decided: &Decided,
    sequence: u64,
    output: bool,
) -> Result<Making<R>, AllocError>
    requires all { length layers.now ≡ 64 }
    requires can { CanBegin vps.now segment.now }
    requires read { IsRead vps.now }
    requires unit { length unit.now ≤ 2 ^ 24 }
    requires few { (length decided.now.lists.list0 ≤ 15) × (length decided.now.lists.list1 ≤ 15) }
    ensures { IfOk result (λ m. made_in segment.now.head.layer m ≡ Some (decided.now.count, segment.now.au)) }
{
    let layer = segment.head.layer;
    let mut making = started(rebuild, alloc, vps, segment, decided, sequence, output)?;
    refer_own(
        rebuild,
        alloc,
        &mut making,
        &layers[layer as usize],
        layer,
        &decided.resolved,
    )?;
    refer_layers(
        rebuild,
        alloc,
        &mut making,
        RefKind::InterZero,
        layers,
        &decided.inter_layer.zero,
    )?;
    refer_layers(
        rebuild,
        alloc,
        &mut making,
        RefKind::InterOne,
        layers,
        &decided.inter_layer.one,
    )?;
    making.slice(rebuild, alloc, unit, &decided.lists)?;
    Ok(making)
}

fn started<R: Rebuild>(
    rebuild: &R,
    alloc: Global,
    vps: &VpsInForce,
    segment: &FirstSegment,
    decided: &Decided,
    sequence: u64,
    output: bool,
) -> Result<Making<R>, AllocError>
    requires can { CanBegin vps.now segment.now }
    requires read { IsRead vps.now }
    ensures { IfOk result (λ m. made_in segment.now.head.layer m ≡ Some (decided.now.count, segment.now.au)) }
{
    let layer = segment.head.layer;
    let view = view(&vps.value, layer);
    let at = PicStart {
        layer,
        view,
        count: decided.count,
        vps: &vps.payload,
        sps: &segment.served.active.sps.payload,
        pps: &segment.served.active.pps.payload,
    };
    let work = rebuild.start(alloc, &at)?;
    Ok(Making {
        work,
        shown: Shown {
            sequence,
            count: decided.count,
            layer,
            view,
        },
        au: segment.au,
        output,
        references: References::new(alloc),
    })
}

// Adds the references to pictures of its own layer.
fn refer_own<R: Rebuild>(
    rebuild: &R,
    alloc: Global,
    making: &mut Making<R>,
    own: &LayerPictures<R::Pic>,
    layer: u8,
    resolved: &Resolved,
) -> Result<(), AllocError>
    ensures { making.new ≡ record making.old { work = making.new.work; references = making.new.references } }
{
    refer_part(
        rebuild,
        alloc,
        making,
        RefKind::Before,
        own,
        layer,
        resolved,
        resolved.before.as_slice(),
    )?;
    refer_part(
        rebuild,
        alloc,
        making,
        RefKind::After,
        own,
        layer,
        resolved,
        resolved.after.as_slice(),
    )?;
    refer_part(
        rebuild,
        alloc,
        making,
        RefKind::Long,
        own,
        layer,
        resolved,
        resolved.long.as_slice(),
    )
}

// Adds those of one part of its reference picture set.
fn refer_part<R: Rebuild>(
    rebuild: &R,
    alloc: Global,
    making: &mut Making<R>,
    kind: RefKind,
    own: &LayerPictures<R::Pic>,
    layer: u8,
    resolved: &Resolved,
    part: &[u8],
) -> Result<(), AllocError>
    ensures { making.new ≡ record making.old { work = making.new.work; references = making.new.references } }
{
    for index in part {
        if let Some((count, pic)) = own.referred(&resolved.keep, *index) {
            making.refer(rebuild, alloc, kind, layer, count, pic)?;
        }
    }
    Ok(())
}

// Adds those of one part of its inter-layer set.
fn refer_layers<R: Rebuild>(
    rebuild: &R,
    alloc: Global,
    making: &mut Making<R>,
    kind: RefKind,
    layers: &[LayerPictures<R::Pic>],
    part: &[u8],
) -> Result<(), AllocError>
    ensures { making.new ≡ record making.old { work = making.new.work; references = making.new.references } }
{
    for layer in part {
        if let Some((count, pic)) = picture_of(layers, *layer) {
            making.refer(rebuild, alloc, kind, *layer, count, pic)?;
        }
    }
    Ok(())
}

// The latest picture of a layer that is held.
fn picture_of<P: Drop>(layers: &[LayerPictures<P>], layer: u8) -> Option<(i32, &Rc<P>)>
    ensures { option_map (λ p. (p.0, p.1.now.value)) result ≡ last_picture (layer_at layers.now layer) }
{
    match layers.get(layer as usize) {
        Some(pictures) => pictures.picture(),
        None => None,
    }
}
