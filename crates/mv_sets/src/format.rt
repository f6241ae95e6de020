//! The format of the pictures that a sequence parameter set describes.

ghost use Rattle.std.specs.Prelude.{◌≡◌, option_map};
ghost use Rattle.std.specs.Option.{option_and_then};
ghost use Rattle.mv_pictures.specs.Contexts.{format_index, format_of, own_format};
ghost use Rattle.mv_sps.specs.declared.rep_format.SpsRepFormat.{SpsRepFormat};
ghost use Rattle.mv_vps.specs.Vps.{ValidVps};
ghost use Rattle.mv_sets.specs.Formats.{FormatFits, SpsFormatFits, coded_index};

use mv_common::Format;
use mv_sps::{Sps, SpsPictureFormat, SpsRepFormat};
use mv_vps::Vps;

// The format that it codes itself.
fn own_format(coded: &SpsPictureFormat) -> Format
    requires { FormatFits coded.now }
    ensures { result ≡ own_format coded.now }
{
    Format {
        width: coded.pic_width_in_luma_samples,
        height: coded.pic_height_in_luma_samples,
        chroma: coded.chroma_format_idc as u8,
        luma_depth: 8 + coded.bit_depth_luma_minus8 as u8,
        chroma_depth: 8 + coded.bit_depth_chroma_minus8 as u8,
    }
}

fn coded_index(field: &Option<SpsRepFormat>) -> Option<u8>
    ensures { result ≡ coded_index field.now }
{
    match field {
        Some(field) => field.sps_rep_format_idx,
        None => None,
    }
}

// The index of a format of the video parameter set: the one that is coded, or that of the layer.
fn format_index(vps: &Vps, layer: u8, sps: &Sps) -> Option<u8>
    requires { ValidVps vps.now }
    ensures { result ≡ format_index vps.now layer sps.now.0 }
{
    match coded_index(&sps.pictures.rep_format) {
        Some(index) => Some(index),
        None => vps.rep_format_index(layer),
    }
}

/// The format of the pictures of a layer, by its sequence parameter set.
#[tactic(auto, unfolding(mv_pictures::specs::Contexts::format_of))]
pub fn format_of(vps: &Vps, layer: u8, sps: &Sps) -> Option<Format>
    requires valid { ValidVps vps.now }
    requires fits { SpsFormatFits sps.now.0 }
    ensures { result ≡ format_of vps.now layer sps.now.0 }
{
    match &sps.pictures.picture_format {
        Some(coded) => Some(own_format(coded)),
        None => {
            let index = format_index(vps, layer, sps)?;
            vps.format(index)
        }
    }
}
