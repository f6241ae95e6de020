//! The rules on layer sets.

ghost use Rattle.std.specs.Prelude.{◌≡◌, ℕ, ◌&&◌, false, not, get_or, length, IfOk};
ghost use Rattle.std.specs.List.{list_any};
ghost use Rattle.mv_layers.specs.LayerInfos.{is_known};
ghost use Rattle.mv_layers.specs.LayerSets.{has_layer, layers_in, lacks_base, lacks_reference, not_closed, has_unknown};

use crate::coded::LayerSet;
use crate::infos::LayerInfo;
use crate::layer_sets::has_layer;
use crate::marks::Marks;
use crate::references::set_at;
use std::alloc::{AllocError, Global};

/// Whether one of these layer sets lacks layer 0.
pub fn any_lacks_base(sets: &[LayerSet]) -> bool
    ensures { result ≡ list_any lacks_base sets.now }
{
    sets.iter().any(|set| !has_layer(set, 0))
}

// Whether a layer set lacks a direct reference layer of this layer.
fn lacks_reference(set: &LayerSet, info: &LayerInfo) -> bool
    ensures { result ≡ lacks_reference set.now info.now }
{
    info.directs.iter().any(|id| !has_layer(set, *id))
}

// Whether a layer set has a layer and lacks one of its direct reference layers.
fn not_closed(infos: &[LayerInfo], set: &LayerSet) -> bool
    ensures { result ≡ not_closed infos.now set.now }
{
    infos.iter().any(|info| has_layer(set, info.layer) && lacks_reference(set, info))
}

/// Whether one of these layer sets has a layer and lacks one of its direct reference layers.
pub fn any_not_closed(infos: &[LayerInfo], sets: &[LayerSet]) -> bool
    ensures { result ≡ list_any (not_closed infos.now) sets.now }
{
    sets.iter().any(|set| not_closed(infos, set))
}

// Whether a layer set has the layer of this nuh_layer_id, which has no mark.
fn has_unmarked(known: &Marks, flags: &[u8], id: usize) -> bool
    ensures { result ≡ (has_layer flags.now id && not (get_or known.now id false)) }
{
    set_at(flags, id) && !known.has(id)
}

// Whether a layer set with these flags has a layer without a mark.
fn flags_have_unknown(known: &Marks, flags: &[u8]) -> bool
    ensures { result ≡ list_any (λ id. not (get_or known.now id false)) (layers_in flags.now) }
{
    for id in 0..flags.len() {
        if has_unmarked(known, flags, id) {
            return true;
        }
    }
    false
}

// Whether a layer set has a layer without a mark.
fn has_unknown(known: &Marks, set: &LayerSet) -> bool
    ensures { result ≡ list_any (λ id. not (get_or known.now id false)) (layers_in set.now) }
{
    flags_have_unknown(known, &set.layer_id_included_flag)
}

/// Whether one of these layer sets has a layer that the video parameter set hasn't.
///
/// `AllocError` where memory runs out.
pub fn any_has_unknown(
    alloc: Global,
    infos: &[LayerInfo],
    sets: &[LayerSet],
) -> Result<bool, AllocError>
    ensures { IfOk result (λ found. found ≡ list_any (has_unknown infos.now) sets.now) }
{
    let known = Marks::known(alloc, infos)?;
    Ok(sets.iter().any(|set| has_unknown(&known, set)))
}
