//! What is derived from a video parameter set: its layers and its output layer sets (F.7.4.3.1.1).

ghost use Rattle.std.specs.Prelude.{◌≡◌};
ghost use Rattle.mv_layers.specs.Derived.{ols_value, is_kept};

use crate::infos::LayerInfo;
use crate::output_layers::OlsLayers;
use std::marker::Model;

/// An output layer set: its layers, by nuh_layer_id, rising.
#[derive(Debug, Drop)]
pub struct Ols {
    pub layers: Vec<u8>,
    /// Those that are put out.
    pub outputs: Vec<u8>,
    /// The outputs and all that they refer to, directly or indirectly.
    pub necessary: Vec<u8>,
    /// The greatest number of pictures that precede one in decoding order and follow it in output order, at most 15; None for
    /// set 0, which has that of its sequence parameter set.
    pub reorder: Option<u8>,
}

impl Model for Ols {
    ghost use Rattle.mv_layers.specs.Derived.{OlsValue};

    ghost Value = { OlsValue };

    ghost view = { λ o. record {
      layers = o.layers.items;
      outputs = o.outputs.items;
      necessary = o.necessary.items;
      reorder = o.reorder;
    } };
}

impl Ols {
    /// The output layer set of these layers, with its greatest number of pictures that precede one in decoding order and follow
    /// it in output order.
    pub fn new(set: OlsLayers, reorder: Option<u8>) -> Ols
        ensures { result ≡ ols_value set reorder }
    {
        Ols {
            layers: set.layers,
            outputs: set.outputs,
            necessary: set.necessary,
            reorder,
        }
    }

    /// Whether the layer of this nuh_layer_id is kept for the set: it is layer 0 or a necessary layer.
    pub fn keeps(&self, layer: u8) -> bool
        ensures { result ≡ is_kept self.now layer }
    {
        layer == 0 || self.necessary.contains(&layer)
    }
}

/// What is derived from a video parameter set.
#[derive(Debug, Drop)]
pub struct Derived {
    /// By their indexes, and so by nuh_layer_id, rising.
    pub layers: Vec<LayerInfo>,
    /// From output layer set 0 on.
    pub sets: Vec<Ols>,
}

impl Model for Derived {
    ghost use Rattle.mv_layers.specs.Derived.{DerivedValue};

    ghost Value = { DerivedValue };

    ghost view = { λ d. record { layers = d.layers.items; sets = d.sets.items } };
}
