ghost use Rattle.std.specs.Prelude.{◌≡◌, OnOk};
ghost use Rattle.mv_syntax.specs.Table.{ue, when, Valid};
ghost use Rattle.mv_syntax.specs.Words.{◌!◌∶◌};
ghost use Rattle.mv_syntax.specs.Printed.{printed};
ghost use Rattle.mv_fields.specs.Reading.{ReadsBy};
ghost use Rattle.mv_rules.specs.declared.rule.Rule.TheVariants.{SpsLimit};
ghost use Rattle.mv_sps.specs.Format.{no_side, picture_format};

use mv_bits::BitReader;
use mv_fields::{Fault, Printer, u8_of, ue_if, ue_within, unset_flag_if};
use mv_rules::Rule;
use std::alloc::AllocError;

/// The format of the pictures: their chroma format, size in luma samples, conformance window and bit depths.
#[derive(Clone, Copy, Debug, PartialEq, Eq)]
pub struct SpsPictureFormat {
    pub chroma_format_idc: u32,
    pub separate_colour_plane_flag: Option<u8>,
    pub pic_width_in_luma_samples: u32,
    pub pic_height_in_luma_samples: u32,
    pub conformance_window_flag: u8,
    pub conf_win_left_offset: Option<u32>,
    pub conf_win_right_offset: Option<u32>,
    pub conf_win_top_offset: Option<u32>,
    pub conf_win_bottom_offset: Option<u32>,
    pub bit_depth_luma_minus8: u32,
    pub bit_depth_chroma_minus8: u32,
}

// The next width or height, which breaks the limit rule where it is 0 or over 16,384.
fn side_of(bits: &mut BitReader) -> Result<u32, Fault<Rule>>
    ensures { ReadsBy (ue ! SpsLimit ∶ no_side) bits.old bits.new result }
{
    let value = bits.ue()?;
    if value == 0 || value > 16384 {
        return Err(Fault::Breaks(Rule::SpsLimit));
    }
    Ok(value)
}

#[tactic(auto, unfolding(crate::specs::Format::picture_format))]
fn picture_format_of(bits: &mut BitReader) -> Result<SpsPictureFormat, Fault<Rule>>
    ensures { ReadsBy picture_format bits.old bits.new result }
{
    let chroma_format_idc = ue_within(bits, Rule::SpsLimit, 3)?;
    let separate_colour_plane_flag = unset_flag_if(
        bits,
        chroma_format_idc == 3,
        Rule::ColourPlanes,
    )?;
    let pic_width_in_luma_samples = side_of(bits)?;
    let pic_height_in_luma_samples = side_of(bits)?;
    let conformance_window_flag = u8_of(bits, 1)?;
    let window = conformance_window_flag == 1;
    let conf_win_left_offset = ue_if(bits, window)?;
    let conf_win_right_offset = ue_if(bits, window)?;
    let conf_win_top_offset = ue_if(bits, window)?;
    let conf_win_bottom_offset = ue_if(bits, window)?;
    let bit_depth_luma_minus8 = ue_within(bits, Rule::SpsLimit, 8)?;
    let bit_depth_chroma_minus8 = ue_within(bits, Rule::SpsLimit, 8)?;
    Ok(SpsPictureFormat {
        chroma_format_idc,
        separate_colour_plane_flag,
        pic_width_in_luma_samples,
        pic_height_in_luma_samples,
        conformance_window_flag,
        conf_win_left_offset,
        conf_win_right_offset,
        conf_win_top_offset,
        conf_win_bottom_offset,
        bit_depth_luma_minus8,
        bit_depth_chroma_minus8,
    })
}

#[tactic(auto, unfolding(crate::specs::Format::picture_format))]
fn print_picture_format(out: &mut Printer, v: &SpsPictureFormat) -> Result<(), AllocError>
    requires { Valid picture_format v.now }
    ensures { OnOk result (out.new ≡ printed picture_format v.now out.old) }
{
    let window = v.conformance_window_flag == 1;
    out.ue("chroma_format_idc", v.chroma_format_idc)?;
    out.flag_if(
        v.chroma_format_idc == 3,
        "separate_colour_plane_flag",
        v.separate_colour_plane_flag,
    )?;
    out.ue("pic_width_in_luma_samples", v.pic_width_in_luma_samples)?;
    out.ue("pic_height_in_luma_samples", v.pic_height_in_luma_samples)?;
    out.flag("conformance_window_flag", v.conformance_window_flag)?;
    out.ue_if(window, "conf_win_left_offset", v.conf_win_left_offset)?;
    out.ue_if(window, "conf_win_right_offset", v.conf_win_right_offset)?;
    out.ue_if(window, "conf_win_top_offset", v.conf_win_top_offset)?;
    out.ue_if(window, "conf_win_bottom_offset", v.conf_win_bottom_offset)?;
    out.ue("bit_depth_luma_minus8", v.bit_depth_luma_minus8)?;
    out.ue("bit_depth_chroma_minus8", v.bit_depth_chroma_minus8)
}

pub(crate) fn picture_format_if(
    bits: &mut BitReader,
    present: bool,
) -> Result<Option<SpsPictureFormat>, Fault<Rule>>
    ensures { ReadsBy (when present picture_format) bits.old bits.new result }
{
    if !present {
        return Ok(None);
    }
    Ok(Some(picture_format_of(bits)?))
}

pub(crate) fn print_picture_format_if(
    out: &mut Printer,
    present: bool,
    v: &Option<SpsPictureFormat>,
) -> Result<(), AllocError>
    requires { Valid (when present picture_format) v.now }
    ensures { OnOk result (out.new ≡ printed (when present picture_format) v.now out.old) }
{
    match v {
        Some(v) => print_picture_format(out, v),
        None => Ok(()),
    }
}
