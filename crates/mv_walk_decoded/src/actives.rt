//! The active reference layers of a picture.
#![tactic(auto)]

ghost use Rattle.std.specs.Prelude.{◌≡◌, IfErr, IfOk, false, get_or, is_some, map, option_map};
ghost use Rattle.mv_vps.specs.Vps.{ValidVps};
ghost use Rattle.mv_syntax.specs.Words.{◌otherwise◌};
ghost use Rattle.mv_pictures.specs.PictureRules.{same_format};
ghost use Rattle.mv_walk_decoded.specs.Actives.{active_at, active_named, actives_at, format_differs, has_other_format, here, in_place, is_of_other_format, sps_changes};
ghost use Rattle.mv_walk_layer.specs.LayerValue.{latest_here};

use crate::fault::DecideFault;
use mv_common::Format;
use mv_reflists::Active2;
use mv_rules::Rule;
use mv_sets::SpsSet;
use mv_vps::Vps;
use mv_walk_layer::LayerPictures;
use mv_walk_sets::{directs, view};
use smallvec::SmallVec;
use std::alloc::Global;

/// The active reference layers of a picture, in their order.
pub type Actives = SmallVec<Active2, 8>;

// The layer with this number among the direct reference layers.
fn direct_at(directs: &[u8], number: u8) -> u8
    ensures { result ≡ get_or directs.now number 0 }
{
    match directs.get(number as usize) {
        Some(layer) => *layer,
        None => 0,
    }
}

// Whether a layer has a decoded picture in an access unit.
fn is_here<P: Drop>(layers: &[LayerPictures<P>], layer: u8, au: u64) -> bool
    ensures { result ≡ is_some (here layers.now au layer) }
{
    match layers.get(layer as usize) {
        Some(pictures) => pictures.here(au).is_some(),
        None => false,
    }
}

fn active<P: Drop>(layers: &[LayerPictures<P>], vps: &Vps, layer: u8, au: u64) -> Active2
    requires { ValidVps vps.now }
    ensures { result ≡ active_at layers.now (in_place vps.now) au layer }
{
    Active2 {
        layer,
        view: view(vps, layer),
        here: is_here(layers, layer, au),
    }
}

// The same by its number among the direct reference layers.
fn active_named<P: Drop>(
    layers: &[LayerPictures<P>],
    vps: &Vps,
    au: u64,
    directs: &[u8],
    number: u8,
) -> Active2
    requires { ValidVps vps.now }
    ensures { result ≡ active_named layers.now (in_place vps.now) au directs.now number }
{
    active(layers, vps, direct_at(directs, number), au)
}

// The active reference layers by their numbers among direct ones.
fn actives_among<P: Drop>(
    alloc: Global,
    layers: &[LayerPictures<P>],
    vps: &Vps,
    au: u64,
    directs: &[u8],
    numbers: &[u8],
) -> Result<Actives, DecideFault>
    requires { ValidVps vps.now }
    ensures is { IfOk result (λ v. v.items ≡ map (active_named layers.now (in_place vps.now) au directs.now) numbers.now) }
    ensures memory { IfErr result (λ fault. fault ≡ DecideFault.Memory) }
{
    let mut actives = SmallVec::new(alloc);
    for number in numbers {
        match actives.push(active_named(layers, vps, au, directs, *number)) {
            Ok(()) => {}
            Err(_) => return Err(DecideFault::Memory),
        }
    }
    Ok(actives)
}

/// The active reference layers of a picture of a layer by their numbers among the direct ones, each with its view, and with whether
/// the access unit has a decoded picture of it. `Memory` where memory runs out, and nothing else.
pub fn actives_of<P: Drop>(
    alloc: Global,
    layers: &[LayerPictures<P>],
    vps: &Vps,
    layer: u8,
    au: u64,
    numbers: &[u8],
) -> Result<Actives, DecideFault>
    requires { ValidVps vps.now }
    ensures is { IfOk result (λ v. v.items ≡ actives_at layers.now (in_place vps.now) layer au numbers.now) }
    ensures memory { IfErr result (λ fault. fault ≡ DecideFault.Memory) }
{
    actives_among(alloc, layers, vps, au, directs(vps, layer), numbers)
}

fn same_format(a: &Format, b: &Format) -> bool
    ensures { result ≡ same_format a.now b.now }
{
    a.width == b.width
        && a.height == b.height
        && a.chroma == b.chroma
        && a.luma_depth == b.luma_depth
        && a.chroma_depth == b.chroma_depth
}

// Of a layer's pictures, its decoded picture of the access unit has another format.
fn is_of_other_format<P: Drop>(pictures: &LayerPictures<P>, au: u64, format: &Format) -> bool
    ensures { result ≡ (option_map (is_of_other_format format.now) (latest_here au pictures.now) otherwise false) }
{
    match pictures.here(au) {
        Some(latest) => !same_format(format, &latest.format),
        None => false,
    }
}

// An active layer's decoded picture of the access unit has another format.
fn has_other_format<P: Drop>(
    layers: &[LayerPictures<P>],
    layer: u8,
    au: u64,
    format: &Format,
) -> bool
    ensures { result ≡ has_other_format layers.now au format.now layer }
{
    match layers.get(layer as usize) {
        Some(pictures) => is_of_other_format(pictures, au, format),
        None => false,
    }
}

/// The rule FormatDiffers: a picture of the access unit that is actively referred to has another format.
pub fn format_differs<P: Drop>(
    layers: &[LayerPictures<P>],
    actives: &[Active2],
    au: u64,
    format: &Format,
) -> bool
    ensures { result ≡ format_differs layers.now au format.now actives.now }
{
    actives.iter().any(|reference| has_other_format(layers, reference.layer, au, format))
}

/// The rule SpsChanged: a picture is no start, and its layer's latest decoded picture has another sequence parameter set.
pub fn sps_changes<P: Drop>(own: &LayerPictures<P>, sps: &SpsSet, start: bool) -> bool
    ensures { result ≡ sps_changes own.now sps.now.payload start }
{
    !start && own.has_other_sps(sps)
}
