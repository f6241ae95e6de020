use mv_layers::LayerSet;
use std::marker::Model;

/// What the extension of a video parameter set takes from the fields before it.
#[derive(Debug, Drop)]
pub struct VpsArgs<'a> {
    pub vps_max_layers_minus1: u8,
    pub vps_max_sub_layers_minus1: u8,
    pub vps_max_layer_id: u8,
    pub vps_num_layer_sets_minus1: u32,
    /// The layer sets from 1 on.
    pub layer_id_included_flag: &'a [LayerSet],
}

impl<'a> Model for VpsArgs<'a> {
    ghost use Rattle.mv_vpsext.specs.Args.{VpsArgsValue};

    ghost Value = { VpsArgsValue };

    ghost view = { λ a. record {
      vps_max_layers_minus1 = a.vps_max_layers_minus1;
      vps_max_sub_layers_minus1 = a.vps_max_sub_layers_minus1;
      vps_max_layer_id = a.vps_max_layer_id;
      vps_num_layer_sets_minus1 = a.vps_num_layer_sets_minus1;
      layer_id_included_flag = a.layer_id_included_flag.now;
    } };
}
