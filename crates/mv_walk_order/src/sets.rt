//! What is kept of the output layer sets of a sequence.
#![tactic(auto)]

ghost use Rattle.std.specs.Prelude.{◌≡◌, ◌≤◌, ℕ, length, map, get_or};
ghost use Rattle.mv_walk_order.specs.OrderSteps.{FitsSet, last_reorder, no_ols, puts_out, reorder_in, set_value};
ghost use Rattle.mv_layers.specs.OutputLayers.{is_among};

use arrayvec::ArrayVec;
use mv_common::SubLayer;
use mv_layers::Ols;
use mv_sps::Sps;
use mv_vps::Vps;
use std::marker::Model;

/// The greatest number of output layer sets.
pub(crate) const SETS: usize = 64;

/// What is kept of an output layer set: the layers that it puts out, and its reorder number.
#[derive(Default, Drop)]
pub(crate) struct SetOutputs {
    layers: ArrayVec<u8, 64>,
    reorder: u8,
}

impl Model for SetOutputs {
    ghost use Rattle.std.specs.Prelude.{◌≤◌, length};
    ghost use Rattle.mv_walk_order.specs.OrderValues.{SetValue};

    ghost Value = { SetValue };

    ghost view = { λ s. record { outputs = s.layers.items; reorder = s.reorder } };

    ghost invariant = { λ s. (s.reorder ≤ 15) × (length s.layers.items ≤ 64) };
}

impl SetOutputs {
    /// An output layer set of a video parameter set; where it has no reorder number, with that of a sequence parameter set.
    pub(crate) fn of(set: &Ols, number: u8) -> Self
        requires { FitsSet number set.now }
        ensures { result ≡ set_value number set.now }
    {
        SetOutputs {
            layers: layers_of(&set.outputs),
            reorder: set.reorder.unwrap_or(number),
        }
    }

    /// Whether it puts out a layer.
    pub(crate) fn has(&self, layer: u8) -> bool
        ensures { result ≡ is_among self.now.outputs layer }
    {
        self.layers.as_slice().iter().any(|one| *one == layer)
    }

    /// How many layers it puts out.
    pub(crate) fn count(&self) -> u8
        ensures { result ≡ length self.now.outputs }
    {
        self.layers.len() as u8
    }

    /// Its reorder number.
    pub(crate) fn reorder(&self) -> u8
        ensures value { result ≡ self.now.reorder }
        ensures few { result ≤ 15 }
    {
        self.reorder
    }
}

// Layers in a list of their own.
fn layers_of(layers: &[u8]) -> ArrayVec<u8, 64>
    requires { length layers.now ≤ 64 }
    ensures { result.items ≡ layers.now }
{
    let mut all = ArrayVec::new();
    match all.try_extend_from_slice(layers) {
        Ok(()) => all,
        Err(_) => all,
    }
}

/// The output layer sets of a video parameter set.
pub(crate) fn sets_in(vps: &Vps) -> &[Ols]
    ensures { result.now ≡ vps.now.derived.sets }
{
    &vps.derived.sets
}

/// Output layer sets, of which there are at most 64.
pub(crate) fn sets_of(sets: &[Ols], number: u8) -> ArrayVec<SetOutputs, SETS>
    requires few { length sets.now ≤ 64 }
    requires each { (k : ℕ) → FitsSet number (get_or sets.now k no_ols) }
    ensures { result.items ≡ map (set_value number) sets.now }
{
    let mut all = ArrayVec::new();
    for set in sets {
        all.push(SetOutputs::of(set, number));
    }
    all
}

// sps_max_num_reorder_pics of the last of some sub-layers.
fn last_reorder(sub_layers: &[SubLayer]) -> u32
    ensures { result ≡ last_reorder sub_layers.now }
{
    match sub_layers.last() {
        Some(sub_layer) => sub_layer.max_num_reorder_pics,
        None => 0,
    }
}

/// sps_max_num_reorder_pics of the greatest sub-layer.
pub(crate) fn reorder_in(sps: &Sps) -> u32
    ensures { result ≡ reorder_in sps.now.0 }
{
    match &sps.pictures.ordering {
        Some(ordering) => last_reorder(&ordering.sub_layers),
        None => 0,
    }
}

/// sps_max_num_reorder_pics of the greatest sub-layer, at most 15.
pub(crate) fn sps_reorder(sps: &Sps) -> u8
    requires { reorder_in sps.now.0 ≤ 15 }
    ensures { result ≡ reorder_in sps.now.0 }
{
    reorder_in(sps) as u8
}

/// Whether a set puts out a layer.
pub(crate) fn puts_out(sets: &[SetOutputs], set: usize, layer: u8) -> bool
    ensures { result ≡ puts_out sets.now set layer }
{
    match sets.get(set) {
        Some(one) => one.has(layer),
        None => false,
    }
}
