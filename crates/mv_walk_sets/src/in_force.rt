//! The video parameter set in force, and what it says of a layer.
#![tactic(auto)]

ghost use Rattle.std.specs.Prelude.{◌≡◌, Some};
ghost use Rattle.std.specs.Option.{option_copied};
ghost use Rattle.mv_vps.specs.Vps.{ValidVps};
ghost use Rattle.mv_pictures.specs.Layers.{InForce, directs, keeps, knows, view, whole};
ghost use Rattle.mv_walk_sets.specs.InForce.{AreRead, in_force};
ghost use Rattle.mv_walk_sets.specs.Steps.{directs_in, has_layer, kept_in, view_in};

use mv_vps::Vps;
use std::marker::Model;

/// A video parameter set that was accepted.
#[derive(Debug, Drop)]
pub struct VpsInForce {
    /// Its unit's payload.
    pub payload: Vec<u8>,
    /// What was read there.
    pub value: Vps,
}

impl Model for VpsInForce {
    ghost use Rattle.mv_walk_sets.specs.InForce.{VpsInForceValue};

    ghost Value = { VpsInForceValue };

    ghost view = { λ v. record { payload = v.payload.items; value = v.value } };
}

fn has_layer(vps: &Vps, layer: u8) -> bool
    requires { ValidVps vps.now }
    ensures { result ≡ has_layer vps.now layer }
{
    vps.layer(layer).is_some()
}

/// Whether a unit of this nuh_layer_id is known: it is where no video parameter set is in force, and where the one in force has
/// the layer (this project's profile).
pub(crate) fn knows(vps: Option<&VpsInForce>, layer: u8) -> bool
    requires { AreRead (option_copied vps) }
    ensures { result ≡ knows (in_force (option_copied vps.entry)) layer }
{
    match vps {
        None => true,
        Some(vps) => has_layer(&vps.value, layer),
    }
}

/// Whether a unit of this nuh_layer_id is kept for output layer set `ols`: layer 0 and the necessary layers of the set are, and
/// all are where no video parameter set is in force (this project's profile).
pub fn keeps(vps: Option<&VpsInForce>, ols: u32, layer: u8) -> bool
    requires { AreRead (option_copied vps) }
    ensures { result ≡ keeps ols (in_force (option_copied vps.entry)) layer }
{
    match vps {
        None => true,
        Some(vps) => keeps_in(&vps.value, ols, layer),
    }
}

fn keeps_in(vps: &Vps, ols: u32, layer: u8) -> bool
    requires { ValidVps vps.now }
    ensures { result ≡ kept_in vps.now ols layer }
{
    match vps.ols(ols) {
        Some(set) => set.keeps(layer),
        None => layer == 0,
    }
}

/// ViewId of the layer of this nuh_layer_id (F.7.4.3.1.1): 0 where the video parameter set has no such layer.
pub fn view(vps: &Vps, layer: u8) -> u32
    requires { ValidVps vps.now }
    ensures { (at : InForce) → whole at ≡ Some vps.now → result ≡ view at layer }
{
    view_in(vps, layer)
}

fn view_in(vps: &Vps, layer: u8) -> u32
    requires { ValidVps vps.now }
    ensures { result ≡ view_in vps.now layer }
{
    match vps.layer(layer) {
        Some(info) => info.view_id,
        None => 0,
    }
}

/// The direct reference layers of the layer of this nuh_layer_id, IdDirectRefLayer (F.7.4.3.1.1), rising: none where the video
/// parameter set has no such layer.
pub fn directs(vps: &Vps, layer: u8) -> &[u8]
    requires { ValidVps vps.now }
    ensures { (at : InForce) → whole at ≡ Some vps.now → result.now ≡ directs at layer }
{
    directs_in(vps, layer)
}

fn directs_in(vps: &Vps, layer: u8) -> &[u8]
    requires { ValidVps vps.now }
    ensures { result.now ≡ directs_in vps.now layer }
{
    match vps.layer(layer) {
        Some(info) => &info.directs,
        None => &[],
    }
}
