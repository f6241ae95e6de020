//! What a video parameter set describes: its layers, output layer sets and formats, and what holds of each.

ghost use Rattle.std.specs.Prelude.{◌≡◌, ◌≤◌, Option, List, ℕ, [], length, get_or, option_map};
ghost use Rattle.std.specs.Option.{option_copied};
ghost use Rattle.std.specs.List.{slice_get, find};
ghost use Rattle.mv_syntax.specs.Words.{◌otherwise◌};
ghost use Rattle.mv_layers.specs.LayerInfos.{is_layer, layer_index};
ghost use Rattle.mv_layers.specs.PerLayer.{sub_layers_at, rep_format_at, poc_lsb_not_present_at};
ghost use Rattle.mv_vps.specs.Vps.{ValidVps};
ghost use Rattle.mv_vps.specs.Formats.{rep_formats_of, format_at};
ghost use Rattle.mv_vps.specs.Getters.{sub_layers_of, rep_format_index, poc_lsb_not_present, default_ref_layers_active, max_one_active_ref_layer, max_tid_at, max_tid};

use crate::formats::format_at;
use crate::vps::Vps;
use mv_common::Format;
use mv_layers::{
    LayerInfo, Ols, layer_index, layer_named, poc_lsb_not_present_at, rep_format_at, sub_layers_at,
};
use mv_vpsext::{RepFormat, VpsExt};
use mv_vpslayers::LayerMaxTids;

fn count_of(sets: &[Ols]) -> u32
    requires { length sets.now ≤ 1024 }
    ensures { result ≡ length sets.now }
{
    sets.len() as u32
}

// The formats that an extension lists; without one there are none.
fn rep_formats_of(extension: &Option<VpsExt>) -> &[RepFormat]
    ensures { result.now ≡ rep_formats_of extension.now }
{
    match extension {
        Some(ext) => &ext.formats.rep_formats,
        None => &[],
    }
}

// The index of the last format that an extension lists.
fn last_format(ext: &VpsExt) -> u8
    requires { ext.now.formats.vps_num_rep_formats_minus1 ≤ 255 }
    ensures { result ≡ ext.now.formats.vps_num_rep_formats_minus1 }
{
    ext.formats.vps_num_rep_formats_minus1 as u8
}

// max_tid_il_ref_pics_plus1 of the layer of index j for the reference of index i: 7 where it isn't coded.
fn max_tid_at(coded: &[LayerMaxTids], i: usize, j: usize) -> u8
    ensures { result ≡ max_tid_at coded.now i j }
{
    if i >= j {
        return 7;
    }
    match coded.get(i) {
        Some(row) => match row.max_tid_il_ref_pics_plus1.get(j - (i + 1)) {
            Some(field) => field.unwrap_or(7),
            None => 7,
        },
        None => 7,
    }
}

impl Vps {
    /// The number of output layer sets, NumOutputLayerSets (F.7.4.3.1.1), at most 64.
    pub fn ols_count(&self) -> u32
        requires { ValidVps self.now }
        ensures { result ≡ length self.now.derived.sets }
    {
        count_of(&self.derived.sets)
    }

    /// Output layer set n. `None` where there is none of this number.
    pub fn ols(&self, n: u32) -> Option<&Ols>
        requires { ValidVps self.now }
        ensures { option_copied result ≡ slice_get self.now.derived.sets n }
    {
        self.derived.sets.get(n as usize)
    }

    /// The layer of this nuh_layer_id. `None` where the video parameter set has none.
    pub fn layer(&self, layer: u8) -> Option<&LayerInfo>
        requires { ValidVps self.now }
        ensures { option_copied result ≡ find (is_layer layer) self.now.derived.layers }
    {
        layer_named(&self.derived.layers, layer)
    }

    /// The place of the layer of this nuh_layer_id among the layers, from 0 on. `None` where the video parameter set has none.
    pub fn layer_index(&self, layer: u8) -> Option<u8>
        requires { ValidVps self.now }
        ensures { result ≡ layer_index self.now.derived.layers layer }
    {
        let i = layer_index(&self.derived.layers, layer)?;
        Some(i as u8)
    }

    /// sub_layers_vps_max_minus1 of the layer of this nuh_layer_id (F.7.4.3.1.1): vps_max_sub_layers_minus1 where it isn't coded.
    /// `None` where the video parameter set has no such layer.
    pub fn sub_layers_vps_max_minus1(&self, layer: u8) -> Option<u8>
        requires { ValidVps self.now }
        ensures { result ≡ sub_layers_of self.now layer }
    {
        let all = self.base.opening.vps_max_sub_layers_minus1;
        let i = self.layer_index(layer)?;
        match &self.extension {
            Some(ext) => {
                let coded = &ext.dependencies.sub_layers_vps_max_minus1;
                Some(sub_layers_at(all, coded, usize::from(i)))
            }
            None => Some(all),
        }
    }

    /// vps_rep_format_idx of the layer of this nuh_layer_id (F.7.4.3.1.1): the index of the format of its pictures. Where it isn't
    /// coded it is 0 for layer 0, and else the index of the layer or of the last format. `None` where the video parameter set has
    /// no such layer.
    pub fn rep_format_index(&self, layer: u8) -> Option<u8>
        requires { ValidVps self.now }
        ensures { result ≡ rep_format_index self.now layer }
    {
        let i = self.layer_index(layer)?;
        match &self.extension {
            Some(ext) => {
                let coded = &ext.formats.vps_rep_format_idx;
                Some(rep_format_at(last_format(ext), coded, i))
            }
            None => Some(0),
        }
    }

    /// poc_lsb_not_present_flag of the layer of this nuh_layer_id (F.7.4.3.1.1): 0 where it isn't coded. `None` where the video
    /// parameter set has no such layer.
    pub fn poc_lsb_not_present_flag(&self, layer: u8) -> Option<u8>
        requires { ValidVps self.now }
        ensures { result ≡ poc_lsb_not_present self.now layer }
    {
        let i = self.layer_index(layer)?;
        match &self.extension {
            Some(ext) => {
                let coded = &ext.pictures.poc_lsb_not_present_flag;
                Some(poc_lsb_not_present_at(coded, usize::from(i)))
            }
            None => Some(0),
        }
    }

    /// default_ref_layers_active_flag (F.7.4.3.1.1): 0 without an extension.
    pub fn default_ref_layers_active_flag(&self) -> u8
        ensures { result ≡ default_ref_layers_active self.now }
    {
        match &self.extension {
            Some(ext) => ext.dependencies.default_ref_layers_active_flag,
            None => 0,
        }
    }

    /// max_one_active_ref_layer_flag (F.7.4.3.1.1): 0 without an extension.
    pub fn max_one_active_ref_layer_flag(&self) -> u8
        ensures { result ≡ max_one_active_ref_layer self.now }
    {
        match &self.extension {
            Some(ext) => ext.pictures.max_one_active_ref_layer_flag,
            None => 0,
        }
    }

    /// max_tid_il_ref_pics_plus1 of the layer with nuh_layer_id `layer` for its direct reference layer `reference`
    /// (F.7.4.3.1.1): 7 where it isn't coded.
    pub fn max_tid_il_ref_pics_plus1(&self, reference: u8, layer: u8) -> u8
        requires { ValidVps self.now }
        ensures { result ≡ max_tid self.now reference layer }
    {
        let (Some(i), Some(j)) = (self.layer_index(reference), self.layer_index(layer)) else {
            return 7;
        };
        match &self.extension {
            Some(ext) => match &ext.dependencies.max_tid_il_ref_pics_plus1 {
                Some(coded) => max_tid_at(coded, usize::from(i), usize::from(j)),
                None => 7,
            },
            None => 7,
        }
    }

    /// The format of pictures of this index, among those of the extension. `None` where there is none of this index, and where
    /// there is no extension.
    pub fn format(&self, index: u8) -> Option<Format>
        requires { ValidVps self.now }
        ensures { result ≡ format_at (rep_formats_of self.now.coded.0.extension) index }
    {
        format_at(rep_formats_of(&self.extension), usize::from(index))
    }
}
