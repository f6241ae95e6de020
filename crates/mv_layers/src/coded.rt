//! What a video parameter set codes of its layers and layer sets.

use std::marker::Model;

/// Of the layer of index i, whether it refers directly to each layer of a lower index, from 0 on.
#[derive(Debug, Drop)]
pub struct LayerDependencies {
    pub direct_dependency_flag: Vec<u8>,
}

impl Model for LayerDependencies {
    ghost use Rattle.std.specs.Prelude.{ℕ, List};

    ghost Value = { List ℕ };

    ghost view = { λ d. d.direct_dependency_flag.items };
}

/// The flags of a layer set: whether it has each layer, by nuh_layer_id from 0 on.
#[derive(Debug, Drop)]
pub struct LayerSet {
    pub layer_id_included_flag: Vec<u8>,
}

impl Model for LayerSet {
    ghost use Rattle.std.specs.Prelude.{ℕ, List};

    ghost Value = { List ℕ };

    ghost view = { λ s. s.layer_id_included_flag.items };
}

/// What a video parameter set codes of its layers, by their indexes.
#[derive(Debug, Drop)]
pub struct CodedLayers<'a> {
    /// The nuh_layer_id of each layer from index 0 on.
    pub layer_id_in_nuh: &'a [u8],
    /// The view order index of each layer from index 0 on.
    pub view_order_index: &'a [u8],
    /// The view identifier of each view order index.
    pub view_id_val: &'a Option<Vec<u16>>,
    /// The dependencies of the layers from index 1 on.
    pub direct_dependency_flag: &'a [LayerDependencies],
}

impl<'a> Model for CodedLayers<'a> {
    ghost use Rattle.std.specs.Prelude.{option_map};
    ghost use Rattle.mv_layers.specs.LayerInfos.{CodedLayers as Coded};

    ghost Value = { Coded };

    ghost view = { λ c. record {
      layer_id_in_nuh = c.layer_id_in_nuh.now;
      view_order_index = c.view_order_index.now;
      view_id_val = option_map (λ v. v.items) c.view_id_val.now;
      direct_dependency_flag = c.direct_dependency_flag.now;
    } };
}
