//! Laws of layers, as contracts of functions with nothing to do.

ghost use Rattle.std.specs.Prelude.{◌≡◌, ℕ, ◌<◌, Bool, true, false, List, map, Option};
ghost use Rattle.std.specs.List.{All, list_any};
ghost use Rattle.std.specs.List.Sorted.{IsStrictlyIncreasing};
ghost use Rattle.mv_layers.specs.References.{depends, Reaches, reaches};
ghost use Rattle.mv_layers.specs.LayerInfos.{LayerInfoValue as Layer, CodedLayers as Coded, layer_infos};
ghost use Rattle.mv_layers.specs.LayerSets.{layers_in, set_flags, not_closed, has_unknown};
ghost use Rattle.mv_layers.specs.OutputLayers.{ols_outputs, with_necessary};
ghost use Rattle.mv_layers.specs.Derived.{ols_value, IsOrderlyLayer, IsOrderlySet};

/// A layer with its direct and indirect reference layers (F.7.4.3.1.1): it is those that direct references reach, one behind the
/// other, and the least set with the layer itself and with the direct reference layers of each of its members.
pub fn reference_laws()
    ensures found { (flags : List (List ℕ)) (i k : ℕ) → reaches flags i k ≡ true → Reaches flags i k }
    ensures all { (flags : List (List ℕ)) (i k : ℕ) → Reaches flags i k → reaches flags i k ≡ true }
    ensures itself { (flags : List (List ℕ)) (i : ℕ) → reaches flags i i ≡ true }
    ensures closed { (flags : List (List ℕ)) (i j k : ℕ) → reaches flags i j ≡ true → k < j → depends flags j k ≡ true → reaches flags i k ≡ true }
    ensures least { (flags : List (List ℕ)) (members : ℕ → Bool) → ((j k : ℕ) → members j ≡ true → k < j → depends flags j k ≡ true → members k ≡ true) → (i k : ℕ) → members i ≡ true → reaches flags i k ≡ true → members k ≡ true }
{}

/// Where nuh_layer_id rises, the layers are orderly: their lists rise, direct references go to lower layers, and closures are
/// closed. Where besides no layer set has a layer without one of its direct reference layers, nor a layer that the video
/// parameter set hasn't, each output layer set is orderly: its lists rise, its outputs are kept, and what is kept for it is
/// closed under direct references.
pub fn derived_laws()
    ensures rise { (coded : Coded) → IsStrictlyIncreasing coded.layer_id_in_nuh → IsStrictlyIncreasing (map (λ (info : Layer). info.layer) (layer_infos coded)) }
    ensures layers { (coded : Coded) → IsStrictlyIncreasing coded.layer_id_in_nuh → All (IsOrderlyLayer (layer_infos coded)) (layer_infos coded) }
    ensures sets { (coded : Coded) → IsStrictlyIncreasing coded.layer_id_in_nuh → (sets : List (List ℕ)) → list_any (not_closed (layer_infos coded)) sets ≡ false → list_any (has_unknown (layer_infos coded)) sets ≡ false → (n : ℕ) (flags : Option (List ℕ)) (idc : ℕ) (reorder : Option ℕ) → let layers = layers_in (set_flags sets n) in IsOrderlySet (layer_infos coded) (ols_value (with_necessary (layer_infos coded) layers (ols_outputs layers flags idc)) reorder) }
{}
