//! The direct reference layers that a picture may refer to.

ghost use Rattle.std.specs.Prelude.{◌≡◌, ◌++◌, ◌∷◌, ◌≤◌, ◌<◌, [], length, map, cond, IfOk, OnOk};
ghost use Rattle.mv_layers.specs.LayerInfos.{directs_of};
ghost use Rattle.mv_pictures.specs.Contexts.{direct_layer};
ghost use Rattle.mv_slice.specs.Layers.{layer_at, may_refer, eligible};
ghost use Rattle.mv_syntax.specs.Words.{◌otherwise◌};
ghost use Rattle.mv_vps.specs.Getters.{sub_layers_of};
ghost use Rattle.mv_vps.specs.Vps.{ValidVps};

use mv_units::UnitHead;
use mv_vps::Vps;
use smallvec::SmallVec;
use std::alloc::{AllocError, Global};

/// Numbers of direct reference layers, rising: those of a layer are numbered from 0 on in rising order of their layers.
pub type Eligible = SmallVec<u8, 8>;

// The direct reference layers of a layer, by nuh_layer_id. One that the video parameter set hasn't has none.
fn directs_in(vps: &Vps, layer: u8) -> &[u8]
    requires { ValidVps vps.now }
    ensures { result.now ≡ directs_of vps.now.derived.layers layer }
{
    match vps.layer(layer) {
        Some(info) => &info.directs,
        None => &[],
    }
}

/// The same; there are at most 62.
pub(crate) fn directs_of(vps: &Vps, layer: u8) -> &[u8]
    requires { ValidVps vps.now }
    ensures is { result.now ≡ directs_of vps.now.derived.layers layer }
    ensures few { length result.now ≤ 62 }
{
    directs_in(vps, layer)
}

// sub_layers_vps_max_minus1 of a layer.
fn sub_layers_of(vps: &Vps, layer: u8) -> u8
    requires { ValidVps vps.now }
    ensures { result ≡ sub_layers_of vps.now layer otherwise 0 }
{
    vps.sub_layers_vps_max_minus1(layer).unwrap_or(0)
}

// Whether a picture with this head may refer to a direct reference layer of its layer.
fn may_refer(vps: &Vps, head: UnitHead, reference: u8) -> bool
    requires { ValidVps vps.now }
    ensures { result ≡ may_refer head.tid (direct_layer vps.now head.layer reference) }
{
    let sub_layers = sub_layers_of(vps, reference);
    let max_tid = vps.max_tid_il_ref_pics_plus1(reference, head.layer);
    head.tid <= sub_layers && (head.tid == 0 || head.tid < max_tid)
}

// Adds a number where the condition holds.
fn push_if(numbers: &mut Eligible, holds: bool, number: u8) -> Result<(), AllocError>
    ensures { OnOk result (numbers.new.items ≡ numbers.old.items ++ cond holds (number ∷ []) []) }
{
    if holds {
        numbers.push(number)?;
    }
    Ok(())
}

// The same of the direct reference layer with a number.
fn refers(vps: &Vps, head: UnitHead, directs: &[u8], number: usize) -> bool
    requires vps { ValidVps vps.now }
    requires number { number < length directs.now }
    ensures { result ≡ may_refer head.tid (layer_at (map (direct_layer vps.now head.layer) directs.now) number) }
{
    may_refer(vps, head, directs[number])
}

// The numbers of those of some direct reference layers to which a picture may refer.
#[tactic(auto, using(crate::proofs::EligibleLaws::eligible_steps))]
fn eligible_of(
    alloc: Global,
    vps: &Vps,
    head: UnitHead,
    directs: &[u8],
) -> Result<Eligible, AllocError>
    requires vps { ValidVps vps.now }
    requires few { length directs.now ≤ 62 }
    ensures { IfOk result (λ numbers. numbers.items ≡ eligible head.tid (map (direct_layer vps.now head.layer) directs.now)) }
{
    let mut numbers = SmallVec::new(alloc);
    for i in 0..directs.len() {
        push_if(&mut numbers, refers(vps, head, directs, i), i as u8)?;
    }
    Ok(numbers)
}

/// The direct reference layers that a picture of a layer may refer to (F.7.4.7.1), by their numbers. A layer r is one of them
/// where its sub_layers_vps_max_minus1 isn't below the picture's TemporalId, and max_tid_il_ref_pics_plus1 from r to the layer is
/// above it or it is 0. Up to eight take no memory.
///
/// `AllocError` where memory runs out.
pub fn eligible_layers(alloc: Global, vps: &Vps, head: UnitHead) -> Result<Eligible, AllocError>
    requires { ValidVps vps.now }
    ensures { IfOk result (λ numbers. numbers.items ≡ eligible head.tid (map (direct_layer vps.now head.layer) (directs_of vps.now.derived.layers head.layer))) }
{
    eligible_of(alloc, vps, head, directs_of(vps, head.layer))
}
