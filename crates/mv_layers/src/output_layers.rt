//! The layers, outputs and necessary layers of an output layer set (F.7.4.3.1.1).

ghost use Rattle.std.specs.Prelude.{◌≡◌, ℕ, ◌+◌, ◌-◌, ◌<◌, ◌≤◌, [], drop, get_or, length, map, nat_lt, IfOk, option_map};
ghost use Rattle.std.specs.List.{filter, range_with_len};
ghost use Rattle.mv_syntax.specs.Words.{is_set};
ghost use Rattle.mv_layers.specs.LayerInfos.{directs_of};
ghost use Rattle.mv_layers.specs.OutputLayers.{layer_set_of, ols_layers, highest, ols_outputs, is_necessary, one_output_refers, with_necessary};

use crate::coded::LayerSet;
use crate::infos::{LayerInfo, layer_named, number_at, push_if};
use crate::layer_sets::layers_in;
use crate::marks::Marks;
use crate::references::set_at;
use std::alloc::{AllocError, Global};
use std::marker::Model;

/// The layers of an output layer set, by nuh_layer_id, rising.
#[derive(Debug, Drop)]
pub struct OlsLayers {
    pub layers: Vec<u8>,
    /// Those that are put out.
    pub outputs: Vec<u8>,
    /// The outputs and all that they refer to, directly or indirectly.
    pub necessary: Vec<u8>,
}

impl Model for OlsLayers {
    ghost use Rattle.mv_layers.specs.OutputLayers.{OlsLayers as Sets};

    ghost Value = { Sets };

    ghost view = { λ s. record {
      layers = s.layers.items;
      outputs = s.outputs.items;
      necessary = s.necessary.items;
    } };
}

// Whether a layer has direct reference layers.
fn has_directs(infos: &[LayerInfo], id: u8) -> bool
    ensures { result ≡ nat_lt 0 (length (directs_of infos.now id)) }
{
    match layer_named(infos, id) {
        Some(info) => info.directs.len() > 0,
        None => false,
    }
}

/// Whether there is one output, and it has direct reference layers.
pub fn one_output_refers(infos: &[LayerInfo], outputs: &[u8]) -> bool
    ensures { result ≡ one_output_refers infos.now outputs.now }
{
    match outputs {
        [output] => has_directs(infos, *output),
        _ => false,
    }
}

// The layer set of output layer set i: below the number of layer sets, layer set i; a later one names its own.
fn layer_set_of(num_layer_sets: usize, i: usize, layer_set_idx_for_ols_minus1: Option<u8>) -> usize
    ensures { result ≡ layer_set_of num_layer_sets i layer_set_idx_for_ols_minus1 }
{
    if num_layer_sets > i {
        return i;
    }
    match layer_set_idx_for_ols_minus1 {
        Some(index) => usize::from(index) + 1,
        None => 1,
    }
}

/// The layers of output layer set i, by nuh_layer_id, rising. The layer sets are those from 1 on, with at most 63 flags each.
///
/// `AllocError` where memory runs out.
pub fn ols_layers(
    alloc: Global,
    sets: &[LayerSet],
    i: usize,
    layer_set_idx_for_ols_minus1: Option<u8>,
) -> Result<Vec<u8>, AllocError>
    requires { (k : ℕ) → length (get_or sets.now k []) ≤ 63 }
    ensures { IfOk result (λ v. v.items ≡ ols_layers sets.now i layer_set_idx_for_ols_minus1) }
{
    let set = layer_set_of(sets.len() + 1, i, layer_set_idx_for_ols_minus1);
    if set == 0 {
        return layers_in(alloc, &[1]);
    }
    match sets.get(set - 1) {
        Some(set) => layers_in(alloc, &set.layer_id_included_flag),
        None => Ok(Vec::new(alloc)),
    }
}

// The layers whose flag is 1.
#[tactic(auto, using(crate::proofs::Collecting::collect_steps))]
fn flagged(alloc: Global, layers: &[u8], output_layer_flag: &[u8]) -> Result<Vec<u8>, AllocError>
    ensures { IfOk result (λ v. v.items ≡ map (λ j. get_or layers.now j 0) (filter (λ j. is_set (get_or output_layer_flag.now j 0)) (range_with_len 0 (length layers.now)))) }
{
    let mut all = Vec::new(alloc);
    for j in 0..layers.len() {
        push_if(&mut all, set_at(output_layer_flag, j), number_at(layers, j))?;
    }
    Ok(all)
}

/// Of the layers of an output layer set, its outputs: those whose flag is 1, or without flags all (default_output_layer_idc 0)
/// or the highest.
///
/// `AllocError` where memory runs out.
pub fn ols_outputs(
    alloc: Global,
    layers: &[u8],
    output_layer_flag: &Option<Vec<u8>>,
    default_output_layer_idc: u8,
) -> Result<Vec<u8>, AllocError>
    ensures { IfOk result (λ v. v.items ≡ ols_outputs layers.now (option_map (λ v. v.items) output_layer_flag.now) default_output_layer_idc) }
{
    match output_layer_flag {
        Some(flags) => flagged(alloc, layers, flags),
        None => {
            if default_output_layer_idc == 0 {
                return Vec::from_slice(alloc, layers);
            }
            let highest = layers.len().saturating_sub(1);
            Vec::from_slice(alloc, &layers[highest..])
        }
    }
}

// Of these layers, those that are necessary.
#[tactic(auto, using(crate::proofs::Collecting::collect_steps))]
fn necessary_layers(
    alloc: Global,
    infos: &[LayerInfo],
    outputs: &[u8],
    layers: &[u8],
) -> Result<Vec<u8>, AllocError>
    ensures { IfOk result (λ v. v.items ≡ filter (is_necessary infos.now outputs.now) layers.now) }
{
    let marks = Marks::necessary(alloc, infos, outputs)?;
    let mut all = Vec::new(alloc);
    for layer in layers {
        push_if(&mut all, marks.has(usize::from(*layer)), *layer)?;
    }
    Ok(all)
}

/// The output layer set with these layers and outputs: of its layers those are necessary that are outputs or that an output
/// refers to, directly or indirectly (F.7.4.3.1.1).
///
/// `AllocError` where memory runs out.
pub fn ols_of(
    alloc: Global,
    infos: &[LayerInfo],
    layers: Vec<u8>,
    outputs: Vec<u8>,
) -> Result<OlsLayers, AllocError>
    ensures { IfOk result (λ s. s ≡ with_necessary infos.now layers.items outputs.items) }
{
    let necessary = necessary_layers(alloc, infos, &outputs, &layers)?;
    Ok(OlsLayers {
        layers,
        outputs,
        necessary,
    })
}
