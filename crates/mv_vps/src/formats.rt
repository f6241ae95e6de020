//! The formats of pictures, from those that the extension of a video parameter set lists.

ghost use Rattle.std.specs.Prelude.{◌≡◌, ◌≤◌, ◌+◌, ℕ, take};
ghost use Rattle.mv_vps.specs.Formats.{chroma_behind, format_at};

use mv_common::Format;
use mv_vpsext::{ChromaAndDepth, RepFormat};

/// Stands before the first format, which has a chroma format and bit depths of its own.
const NO_CHROMA: ChromaAndDepth = ChromaAndDepth {
    chroma_format_vps_idc: 0,
    separate_colour_plane_vps_flag: None,
    bit_depth_vps_luma_minus8: 0,
    bit_depth_vps_chroma_minus8: 0,
};

// The chroma format and bit depths behind these formats: those that were coded last.
#[tactic(auto, using(crate::proofs::FormatSteps::chroma_steps))]
fn chroma_behind(formats: &[RepFormat]) -> ChromaAndDepth
    ensures { result ≡ chroma_behind formats.now }
{
    let mut last = NO_CHROMA;
    for format in formats {
        last = format.chroma_and_depth.unwrap_or(last);
    }
    last
}

/// The format of index k, if there is one. One that codes no chroma format and bit depths has those of the format before.
pub(crate) fn format_at(formats: &[RepFormat], k: usize) -> Option<Format>
    requires luma { (n : ℕ) → (chroma_behind (take n formats.now)).bit_depth_vps_luma_minus8 ≤ 8 }
    requires chroma { (n : ℕ) → (chroma_behind (take n formats.now)).bit_depth_vps_chroma_minus8 ≤ 8 }
    ensures { result ≡ format_at formats.now k }
{
    let Some(format) = formats.get(k) else {
        return None;
    };
    let chroma = chroma_behind(&formats[..k + 1]);
    Some(Format {
        width: u32::from(format.pic_width_vps_in_luma_samples),
        height: u32::from(format.pic_height_vps_in_luma_samples),
        chroma: chroma.chroma_format_vps_idc,
        luma_depth: 8 + chroma.bit_depth_vps_luma_minus8,
        chroma_depth: 8 + chroma.bit_depth_vps_chroma_minus8,
    })
}
