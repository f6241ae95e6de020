//! The layers that the first part of the extension and the dependency flags describe.

ghost use Rattle.std.specs.Prelude.{◌≡◌, ◌+◌, ◌≤◌, map, IfOk, option_map};
ghost use Rattle.std.specs.List.{range_with_len};
ghost use Rattle.mv_vpslayers.specs.Layers.{nuh_layer_id, view_order_index, layers_described};

use crate::dimensions::VpsLayer;
use mv_layers::{CodedLayers, LayerDependencies, LayerInfo, layer_infos};
use std::alloc::{AllocError, Global};

/// layer_id_in_nuh of the layer of index i: of layer 0 it is 0, and where it isn't coded it is i.
pub(crate) fn nuh_layer_id(layers: &[VpsLayer], i: usize) -> u8
    requires { i ≤ 62 }
    ensures { result ≡ nuh_layer_id layers.now i }
{
    if i == 0 {
        return 0;
    }
    match layers.get(i - 1) {
        Some(layer) => layer.layer_id_in_nuh.unwrap_or(i as u8),
        None => i as u8,
    }
}

// The view order index of the layer of index i: of layer 0 it is 0.
fn view_order_index(layers: &[VpsLayer], i: usize) -> u8
    ensures { result ≡ view_order_index layers.now i }
{
    if i == 0 {
        return 0;
    }
    match layers.get(i - 1) {
        Some(layer) => layer.dimension_id,
        None => 0,
    }
}

// The nuh_layer_id of the first layers, so many of them.
#[tactic(auto, using(mv_layers::proofs::Collecting::collect_steps))]
fn layer_ids(alloc: Global, layers: &[VpsLayer], count: usize) -> Result<Vec<u8>, AllocError>
    requires { count ≤ 63 }
    ensures { IfOk result (λ v. v.items ≡ map (nuh_layer_id layers.now) (range_with_len 0 count)) }
{
    let mut all = Vec::new(alloc);
    for i in 0..count {
        all.push(nuh_layer_id(layers, i))?;
    }
    Ok(all)
}

// The view order indexes of the first layers, so many of them.
#[tactic(auto, using(mv_layers::proofs::Collecting::collect_steps))]
fn view_orders(alloc: Global, layers: &[VpsLayer], count: usize) -> Result<Vec<u8>, AllocError>
    ensures { IfOk result (λ v. v.items ≡ map (view_order_index layers.now) (range_with_len 0 count)) }
{
    let mut all = Vec::new(alloc);
    for i in 0..count {
        all.push(view_order_index(layers, i))?;
    }
    Ok(all)
}

/// The layers, by their indexes, as the first part and the dependency flags describe them (F.7.4.3.1.1).
///
/// `AllocError` where memory runs out.
#[tactic(auto, unfolding(crate::specs::Layers::layers_described))]
pub fn layers_described(
    alloc: Global,
    vps_max_layers_minus1: u8,
    layers: &[VpsLayer],
    view_id_val: &Option<Vec<u16>>,
    flags: &[LayerDependencies],
) -> Result<Vec<LayerInfo>, AllocError>
    requires { vps_max_layers_minus1 ≤ 62 }
    ensures { IfOk result (λ v. v.items ≡ layers_described vps_max_layers_minus1 layers.now (option_map (λ v. v.items) view_id_val.now) flags.now) }
{
    let count = usize::from(vps_max_layers_minus1) + 1;
    let layer_id_in_nuh = layer_ids(alloc, layers, count)?;
    let view_order_index = view_orders(alloc, layers, count)?;
    let coded = CodedLayers {
        layer_id_in_nuh: &layer_id_in_nuh,
        view_order_index: &view_order_index,
        view_id_val,
        direct_dependency_flag: flags,
    };
    layer_infos(alloc, &coded)
}
