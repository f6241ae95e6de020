//! The output layer sets (F.7.4.3.1.1), and what dpb_size takes of each.

ghost use Rattle.std.specs.Prelude.{◌≡◌, ℕ, ◌+◌, ◌≤◌, [], ◌∷◌, get_or, length, map, max, IfOk, option_map};
ghost use Rattle.std.specs.List.{fold};
ghost use Rattle.mv_syntax.specs.Words.{◌otherwise◌};
ghost use Rattle.mv_layers.specs.LayerInfos.{layer_index};
ghost use Rattle.mv_layers.specs.OutputLayers.{is_among, one_output_refers};
ghost use Rattle.mv_vpssets.specs.DpbSizes.{no_layers};
ghost use Rattle.mv_vpssets.specs.Sets.{base_set, coded_set, coded_sets, all_sets, sub_layers_of, dpb_layers, all_dpb_layers};

use crate::dpb_sizes::SetLayers;
use crate::output_sets::{OutputLayerSet, VpsOutputSets};
use mv_fields::coded_set;
use mv_layers::{
    LayerInfo, LayerSet, OlsLayers, layer_index, ols_layers, ols_of, ols_outputs,
    one_output_refers, sub_layers_at,
};
use std::alloc::{AllocError, Global};

/// The number of layers of an output layer set.
pub(crate) fn number_of_layers(set: &OlsLayers) -> usize
    ensures { result ≡ length set.now.layers }
{
    set.layers.len()
}

fn layer_at(layers: &[u8], j: usize) -> u8
    ensures { result ≡ get_or layers.now j 0 }
{
    match layers.get(j) {
        Some(layer) => *layer,
        None => 0,
    }
}

/// Whether the layer at a place in an output layer set is necessary.
pub(crate) fn is_necessary_at(set: &OlsLayers, j: usize) -> bool
    ensures { result ≡ is_among set.now.necessary (get_or set.now.layers j 0) }
{
    set.necessary.contains(&layer_at(&set.layers, j))
}

/// Whether there is one output, and it has direct reference layers.
pub(crate) fn has_one_output(infos: &[LayerInfo], set: &OlsLayers) -> bool
    ensures { result ≡ one_output_refers infos.now set.now.outputs }
{
    one_output_refers(infos, &set.outputs)
}

// Output layer set 0: it has layer 0 alone, as its output.
fn base_set(alloc: Global, infos: &[LayerInfo]) -> Result<OlsLayers, AllocError>
    ensures { IfOk result (λ s. s ≡ base_set infos.now) }
{
    let layers = Vec::from_slice(alloc, &[0])?;
    let outputs = Vec::from_slice(alloc, &[0])?;
    ols_of(alloc, infos, layers, outputs)
}

/// Output layer set 0, as a list of one.
pub(crate) fn one_set(alloc: Global, infos: &[LayerInfo]) -> Result<Vec<OlsLayers>, AllocError>
    ensures { IfOk result (λ v. v.items ≡ base_set infos.now ∷ []) }
{
    let mut all = Vec::new(alloc);
    all.push(base_set(alloc, infos)?)?;
    Ok(all)
}

// Output layer set i, from 1 on, as it is coded.
fn coded_set_of(
    alloc: Global,
    infos: &[LayerInfo],
    sets: &[LayerSet],
    idc: u8,
    i: usize,
    coded: &OutputLayerSet,
) -> Result<OlsLayers, AllocError>
    requires { (k : ℕ) → length (get_or sets.now k []) ≤ 63 }
    ensures { IfOk result (λ s. s ≡ coded_set infos.now sets.now idc i coded.now) }
{
    let layers = ols_layers(alloc, sets, i, coded.layer_set_idx_for_ols_minus1)?;
    let outputs = ols_outputs(alloc, &layers, &coded.output_layer_flag, idc)?;
    ols_of(alloc, infos, layers, outputs)
}

// The output layer sets from 0 on, those from 1 on being coded so.
#[tactic(auto, using(crate::proofs::SetSteps::set_steps))]
fn sets_of(
    alloc: Global,
    infos: &[LayerInfo],
    sets: &[LayerSet],
    idc: u8,
    coded: &[OutputLayerSet],
) -> Result<Vec<OlsLayers>, AllocError>
    requires { (k : ℕ) → length (get_or sets.now k []) ≤ 63 }
    ensures { IfOk result (λ v. v.items ≡ base_set infos.now ∷ coded_sets infos.now sets.now idc coded.now) }
{
    let mut all = one_set(alloc, infos)?;
    for k in 0..coded.len() {
        let set = coded_set_of(alloc, infos, sets, idc, k + 1, &coded[k])?;
        all.push(set)?;
    }
    Ok(all)
}

/// The output layer sets, from 0 on. The layer sets are those from 1 on.
///
/// `AllocError` where memory runs out.
pub fn all_sets_of(
    alloc: Global,
    infos: &[LayerInfo],
    sets: &[LayerSet],
    coded: &VpsOutputSets,
) -> Result<Vec<OlsLayers>, AllocError>
    requires { (k : ℕ) → length (get_or sets.now k []) ≤ 63 }
    ensures { IfOk result (λ v. v.items ≡ all_sets infos.now sets.now coded.now) }
{
    let idc = coded.default_output_layer_idc.unwrap_or(0);
    sets_of(alloc, infos, sets, idc, &coded.output_layer_sets)
}

// sub_layers_vps_max_minus1 of the layer of this nuh_layer_id.
fn sub_layers_of(
    infos: &[LayerInfo],
    vps_max_sub_layers_minus1: u8,
    sub_layers_vps_max_minus1: &Option<Vec<u8>>,
    id: u8,
) -> u8
    ensures { result ≡ sub_layers_of infos.now vps_max_sub_layers_minus1 (option_map (λ v. v.items) sub_layers_vps_max_minus1.now) id }
{
    match layer_index(infos, id) {
        Some(i) => sub_layers_at(vps_max_sub_layers_minus1, sub_layers_vps_max_minus1, i),
        None => 0,
    }
}

// The greatest of these layers.
fn greatest_sub_layers(
    infos: &[LayerInfo],
    vps_max_sub_layers_minus1: u8,
    sub_layers_vps_max_minus1: &Option<Vec<u8>>,
    layers: &[u8],
) -> u8
    ensures { result ≡ fold (λ so_far id. max so_far (sub_layers_of infos.now vps_max_sub_layers_minus1 (option_map (λ v. v.items) sub_layers_vps_max_minus1.now) id)) 0 layers.now }
{
    let mut greatest: u8 = 0;
    for layer in layers {
        let sub_layers = sub_layers_of(
            infos,
            vps_max_sub_layers_minus1,
            sub_layers_vps_max_minus1,
            *layer,
        );
        greatest = greatest.max(sub_layers);
    }
    greatest
}

// Whether each of these layers is among the necessary ones.
fn necessity(alloc: Global, necessary: &[u8], layers: &[u8]) -> Result<Vec<bool>, AllocError>
    ensures { IfOk result (λ v. v.items ≡ map (is_among necessary.now) layers.now) }
{
    let mut all = Vec::new(alloc);
    for layer in layers {
        all.push(necessary.contains(layer))?;
    }
    Ok(all)
}

// What dpb_size takes of an output layer set.
fn dpb_layers_of(
    alloc: Global,
    infos: &[LayerInfo],
    vps_max_sub_layers_minus1: u8,
    sub_layers_vps_max_minus1: &Option<Vec<u8>>,
    set: &OlsLayers,
) -> Result<SetLayers, AllocError>
    ensures { IfOk result (λ s. s ≡ dpb_layers infos.now vps_max_sub_layers_minus1 (option_map (λ v. v.items) sub_layers_vps_max_minus1.now) set.now) }
{
    let necessary = necessity(alloc, &set.necessary, &set.layers)?;
    let greatest = greatest_sub_layers(
        infos,
        vps_max_sub_layers_minus1,
        sub_layers_vps_max_minus1,
        &set.layers,
    );
    Ok(SetLayers {
        necessary,
        greatest,
    })
}

/// What dpb_size takes of each of these output layer sets.
///
/// `AllocError` where memory runs out.
#[tactic(auto, unfolding(crate::specs::Sets::all_dpb_layers))]
pub fn all_dpb_layers_of(
    alloc: Global,
    infos: &[LayerInfo],
    vps_max_sub_layers_minus1: u8,
    sub_layers_vps_max_minus1: &Option<Vec<u8>>,
    sets: &[OlsLayers],
) -> Result<Vec<SetLayers>, AllocError>
    requires sub_layers { vps_max_sub_layers_minus1 ≤ 6 }
    requires coded { (k : ℕ) → get_or (option_map (λ v. v.items) sub_layers_vps_max_minus1.now otherwise []) k 0 ≤ 6 }
    ensures exact { IfOk result (λ v. v.items ≡ all_dpb_layers infos.now vps_max_sub_layers_minus1 (option_map (λ v. v.items) sub_layers_vps_max_minus1.now) sets.now) }
    ensures count { IfOk result (λ v. length v.items ≡ length sets.now) }
    ensures few { IfOk result (λ v. (k : ℕ) → (get_or v.items k no_layers).greatest ≤ 6) }
{
    let mut all = Vec::new(alloc);
    for set in sets {
        let layers = dpb_layers_of(
            alloc,
            infos,
            vps_max_sub_layers_minus1,
            sub_layers_vps_max_minus1,
            set,
        )?;
        all.push(layers)?;
    }
    Ok(all)
}
