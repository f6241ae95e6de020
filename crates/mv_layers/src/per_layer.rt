//! What holds of a layer, by its index, of fields that are coded for some layers: the coded value, or the one stated for where it
//! is absent (F.7.4.3.1.1).

ghost use Rattle.std.specs.Prelude.{◌≡◌, ◌≤◌, option_map};
ghost use Rattle.mv_layers.specs.PerLayer.{sub_layers_at, rep_format_at, poc_lsb_not_present_at};

use crate::infos::number_at;

/// sub_layers_vps_max_minus1 of the layer of index i: where it isn't coded, vps_max_sub_layers_minus1.
pub fn sub_layers_at(vps_max_sub_layers_minus1: u8, coded: &Option<Vec<u8>>, i: usize) -> u8
    ensures { result ≡ sub_layers_at vps_max_sub_layers_minus1 (option_map (λ v. v.items) coded.now) i }
{
    match coded {
        Some(coded) => number_at(coded, i),
        None => vps_max_sub_layers_minus1,
    }
}

/// vps_rep_format_idx of the layer of index i, the coded ones being those from index 1 on: of layer 0 it is 0, and where it isn't
/// coded the index of the layer or the last format.
pub fn rep_format_at(vps_num_rep_formats_minus1: u8, coded: &Option<Vec<u8>>, i: u8) -> u8
    ensures { result ≡ rep_format_at vps_num_rep_formats_minus1 (option_map (λ v. v.items) coded.now) i }
{
    if i == 0 {
        return 0;
    }
    match coded {
        Some(coded) => number_at(coded, usize::from(i - 1)),
        None => i.min(vps_num_rep_formats_minus1),
    }
}

/// poc_lsb_not_present_flag of the layer of index i, the coded ones being those from index 1 on: 0 where it isn't coded.
pub fn poc_lsb_not_present_at(coded: &[Option<u8>], i: usize) -> u8
    ensures { result ≡ poc_lsb_not_present_at coded.now i }
{
    if i == 0 {
        return 0;
    }
    match coded.get(i - 1) {
        Some(flag) => flag.unwrap_or(0),
        None => 0,
    }
}
