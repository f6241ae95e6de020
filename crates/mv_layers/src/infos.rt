//! What is derived of each layer of a video parameter set (F.7.4.3.1.1).

ghost use Rattle.std.specs.Prelude.{◌≡◌, ℕ, ◌+◌, ◌≤◌, ◌<◌, ◌++◌, false, [], ◌∷◌, get_or, length, map, IfOk, OnOk, option_map, cond};
ghost use Rattle.std.specs.List.{filter, find, range_with_len};
ghost use Rattle.std.specs.Option.{option_copied};
ghost use Rattle.mv_layers.specs.References.{depends, reaches, direct_indexes, closure_indexes};
ghost use Rattle.mv_layers.specs.LayerInfos.{nuh_layer_id, view_identifier, layer_info, layer_infos, is_layer, layer_index, independent_layers};

use crate::coded::CodedLayers;
use crate::reached::{Reached, all_reached, is_reached};
use crate::references::depends;
use std::alloc::{AllocError, Global};
use std::marker::Model;

/// A layer of a video parameter set.
#[derive(Debug, Drop)]
pub struct LayerInfo {
    /// Its nuh_layer_id.
    pub layer: u8,
    pub view_order: u8,
    pub view_id: u32,
    /// Its direct reference layers, by nuh_layer_id, rising.
    pub directs: Vec<u8>,
    /// It with its direct and indirect reference layers, by nuh_layer_id, rising.
    pub closure: Vec<u8>,
}

impl Model for LayerInfo {
    ghost use Rattle.mv_layers.specs.LayerInfos.{LayerInfoValue};

    ghost Value = { LayerInfoValue };

    ghost view = { λ i. record {
      layer = i.layer;
      view_order = i.view_order;
      view_id = i.view_id;
      directs = i.directs.items;
      closure = i.closure.items;
    } };
}

/// Adds a layer where the condition holds.
pub(crate) fn push_if(all: &mut Vec<u8>, holds: bool, id: u8) -> Result<(), AllocError>
    ensures { OnOk result (all.new.items ≡ all.old.items ++ cond holds (id ∷ []) []) }
{
    if holds {
        all.push(id)?;
    }
    Ok(())
}

/// The number at a place; beyond the last, 0.
pub(crate) fn number_at(numbers: &[u8], i: usize) -> u8
    ensures { result ≡ get_or numbers.now i 0 }
{
    match numbers.get(i) {
        Some(number) => *number,
        None => 0,
    }
}

fn view_id_at(view_id_val: &[u16], view_order: u8) -> u32
    ensures { result ≡ get_or view_id_val.now view_order 0 }
{
    match view_id_val.get(usize::from(view_order)) {
        Some(value) => u32::from(*value),
        None => 0,
    }
}

// The view identifier of a view order index.
fn view_identifier(coded: &CodedLayers, view_order: u8) -> u32
    ensures { result ≡ view_identifier coded.now.view_id_val view_order }
{
    match coded.view_id_val {
        Some(values) => view_id_at(values, view_order),
        None => u32::from(view_order),
    }
}

// The view order index of the layer of index i.
fn view_order_index(coded: &CodedLayers, i: usize) -> u8
    ensures { result ≡ get_or coded.now.view_order_index i 0 }
{
    number_at(coded.view_order_index, i)
}

// The nuh_layer_id of the layer of index i.
fn nuh_layer_id(coded: &CodedLayers, i: usize) -> u8
    ensures { result ≡ nuh_layer_id coded.now i }
{
    number_at(coded.layer_id_in_nuh, i)
}

// Whether the layer of index i refers directly to that of index j.
fn refers(coded: &CodedLayers, i: usize, j: usize) -> bool
    ensures { result ≡ depends coded.now.direct_dependency_flag i j }
{
    depends(coded.direct_dependency_flag, i, j)
}

// The direct reference layers of the layer of index i.
#[tactic(auto, using(crate::proofs::Collecting::collect_steps))]
fn directs_at(alloc: Global, coded: &CodedLayers, i: usize) -> Result<Vec<u8>, AllocError>
    ensures { IfOk result (λ v. v.items ≡ map (nuh_layer_id coded.now) (direct_indexes coded.now.direct_dependency_flag i)) }
{
    let mut all = Vec::new(alloc);
    for j in 0..i {
        push_if(&mut all, refers(coded, i, j), nuh_layer_id(coded, j))?;
    }
    Ok(all)
}

// The layer of index i with its direct and indirect reference layers.
#[tactic(auto, using(crate::proofs::Collecting::collect_steps))]
fn closure_at(
    alloc: Global,
    coded: &CodedLayers,
    reached: &[Reached],
    i: usize,
) -> Result<Vec<u8>, AllocError>
    requires { i ≤ 62 }
    ensures { IfOk result (λ v. v.items ≡ map (nuh_layer_id coded.now) (filter (λ k. get_or (get_or reached.now i []) k false) (range_with_len 0 (i + 1)))) }
{
    let end = i + 1;
    let mut all = Vec::new(alloc);
    for k in 0..end {
        push_if(&mut all, is_reached(reached, i, k), nuh_layer_id(coded, k))?;
    }
    Ok(all)
}

// The layer of index i.
fn layer_info_at(
    alloc: Global,
    coded: &CodedLayers,
    reached: &[Reached],
    i: usize,
) -> Result<LayerInfo, AllocError>
    requires few { i ≤ 62 }
    requires reached { (k : ℕ) → k ≤ i → get_or (get_or reached.now i []) k false ≡ reaches coded.now.direct_dependency_flag i k }
    ensures { IfOk result (λ info. info ≡ layer_info coded.now i) }
{
    let view_order = view_order_index(coded, i);
    let directs = directs_at(alloc, coded, i)?;
    let closure = closure_at(alloc, coded, reached, i)?;
    Ok(LayerInfo {
        layer: nuh_layer_id(coded, i),
        view_order,
        view_id: view_identifier(coded, view_order),
        directs,
        closure,
    })
}

// The first layers, so many of them.
#[tactic(auto, using(crate::proofs::Collecting::collect_steps))]
fn first_infos(
    alloc: Global,
    coded: &CodedLayers,
    reached: &[Reached],
    count: usize,
) -> Result<Vec<LayerInfo>, AllocError>
    requires few { count ≤ 63 }
    requires reached { (i k : ℕ) → i < count → k ≤ i → get_or (get_or reached.now i []) k false ≡ reaches coded.now.direct_dependency_flag i k }
    ensures { IfOk result (λ v. v.items ≡ map (layer_info coded.now) (range_with_len 0 count)) }
{
    let mut all = Vec::new(alloc);
    for i in 0..count {
        let info = layer_info_at(alloc, coded, reached, i)?;
        all.push(info)?;
    }
    Ok(all)
}

/// The layers of a video parameter set, by their indexes (F.7.4.3.1.1): as many as there are of nuh_layer_id, at most 63.
///
/// `AllocError` where memory runs out.
#[tactic(auto, unfolding(crate::specs::LayerInfos::layer_infos))]
pub fn layer_infos(alloc: Global, coded: &CodedLayers) -> Result<Vec<LayerInfo>, AllocError>
    requires { length coded.now.layer_id_in_nuh ≤ 63 }
    ensures { IfOk result (λ v. v.items ≡ layer_infos coded.now) }
{
    let count = coded.layer_id_in_nuh.len();
    let reached = all_reached(alloc, coded.direct_dependency_flag, count)?;
    first_infos(alloc, coded, &reached, count)
}

/// The layer with this nuh_layer_id. `None` where there is none.
pub fn layer_named(infos: &[LayerInfo], id: u8) -> Option<&LayerInfo>
    ensures { option_copied result ≡ find (is_layer id) infos.now }
{
    infos.iter().find(|info| info.layer == id)
}

/// The index of the layer with this nuh_layer_id. `None` where there is none.
pub fn layer_index(infos: &[LayerInfo], id: u8) -> Option<usize>
    ensures { result ≡ layer_index infos.now id }
{
    infos.iter().position(|info| info.layer == id)
}

/// The number of layers that have no direct reference layer.
pub fn independent_layers(infos: &[LayerInfo]) -> usize
    ensures { result ≡ independent_layers infos.now }
{
    infos.iter().filter(|info| info.directs.is_empty()).count()
}
