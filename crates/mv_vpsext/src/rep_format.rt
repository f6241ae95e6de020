ghost use Rattle.std.specs.Prelude.{◌≡◌, OnOk};
ghost use Rattle.mv_syntax.specs.Table.{u, when, Valid};
ghost use Rattle.mv_syntax.specs.Printed.{printed};
ghost use Rattle.mv_syntax.specs.Words.{◌!◌∶◌};
ghost use Rattle.mv_fields.specs.Reading.{ReadsBy};
ghost use Rattle.mv_vpsext.specs.Formats.{no_side, lacks_chroma, chroma_and_depth, conformance_window, rep_format};
ghost use Rattle.mv_rules.specs.declared.rule.Rule.TheVariants.{VpsLimit};

use mv_bits::BitReader;
use mv_fields::{Fault, Printer, u8_of, u8_within, u16_of, unset_flag_if};
use mv_rules::Rule;
use std::alloc::AllocError;

/// The chroma format and the bit depths of a rep_format (F.7.3.2.1.2).
#[derive(Clone, Copy, Debug, PartialEq, Eq)]
pub struct ChromaAndDepth {
    pub chroma_format_vps_idc: u8,
    pub separate_colour_plane_vps_flag: Option<u8>,
    pub bit_depth_vps_luma_minus8: u8,
    pub bit_depth_vps_chroma_minus8: u8,
}

/// The conformance window of a rep_format (F.7.3.2.1.2), in units of chroma samples.
#[derive(Clone, Copy, Debug, PartialEq, Eq)]
pub struct ConformanceWindow {
    pub conf_win_vps_left_offset: u32,
    pub conf_win_vps_right_offset: u32,
    pub conf_win_vps_top_offset: u32,
    pub conf_win_vps_bottom_offset: u32,
}

/// A format of pictures, rep_format (F.7.3.2.1.2).
#[derive(Clone, Copy, Debug, PartialEq, Eq)]
pub struct RepFormat {
    pub pic_width_vps_in_luma_samples: u16,
    pub pic_height_vps_in_luma_samples: u16,
    pub chroma_and_bit_depth_vps_present_flag: u8,
    /// Coded where chroma_and_bit_depth_vps_present_flag is 1; else those of the format before.
    pub chroma_and_depth: Option<ChromaAndDepth>,
    pub conformance_window_vps_flag: u8,
    /// Coded where conformance_window_vps_flag is 1.
    pub conformance_window: Option<ConformanceWindow>,
}

#[tactic(auto, unfolding(crate::specs::Formats::chroma_and_depth))]
fn chroma_and_depth_of(bits: &mut BitReader) -> Result<ChromaAndDepth, Fault<Rule>>
    ensures { ReadsBy chroma_and_depth bits.old bits.new result }
{
    let chroma_format_vps_idc = u8_of(bits, 2)?;
    Ok(ChromaAndDepth {
        chroma_format_vps_idc,
        separate_colour_plane_vps_flag: unset_flag_if(
            bits,
            chroma_format_vps_idc == 3,
            Rule::VpsLimit,
        )?,
        bit_depth_vps_luma_minus8: u8_within(bits, 4, Rule::VpsLimit, 8)?,
        bit_depth_vps_chroma_minus8: u8_within(bits, 4, Rule::VpsLimit, 8)?,
    })
}

fn chroma_and_depth_if(
    bits: &mut BitReader,
    present: bool,
) -> Result<Option<ChromaAndDepth>, Fault<Rule>>
    ensures { ReadsBy (when present chroma_and_depth) bits.old bits.new result }
{
    if !present {
        return Ok(None);
    }
    Ok(Some(chroma_and_depth_of(bits)?))
}

#[tactic(auto, unfolding(crate::specs::Formats::conformance_window))]
fn conformance_window_of(bits: &mut BitReader) -> Result<ConformanceWindow, Fault<Rule>>
    ensures { ReadsBy conformance_window bits.old bits.new result }
{
    Ok(ConformanceWindow {
        conf_win_vps_left_offset: bits.ue()?,
        conf_win_vps_right_offset: bits.ue()?,
        conf_win_vps_top_offset: bits.ue()?,
        conf_win_vps_bottom_offset: bits.ue()?,
    })
}

fn conformance_window_if(
    bits: &mut BitReader,
    present: bool,
) -> Result<Option<ConformanceWindow>, Fault<Rule>>
    ensures { ReadsBy (when present conformance_window) bits.old bits.new result }
{
    if !present {
        return Ok(None);
    }
    Ok(Some(conformance_window_of(bits)?))
}

// The next field u(16), a width or height in luma samples.
fn side_of(bits: &mut BitReader) -> Result<u16, Fault<Rule>>
    ensures { ReadsBy (u 16 ! VpsLimit ∶ no_side) bits.old bits.new result }
{
    let samples = u16_of(bits, 16)?;
    if samples == 0 || samples > 16_384 {
        return Err(Fault::Breaks(Rule::VpsLimit));
    }
    Ok(samples)
}

// The flag of the format of index i that says whether the format has its own chroma format and bit depths.
fn chroma_flag_of(bits: &mut BitReader, i: u32) -> Result<u8, Fault<Rule>>
    ensures { ReadsBy (u 1 ! VpsLimit ∶ lacks_chroma i) bits.old bits.new result }
{
    let flag = u8_of(bits, 1)?;
    if i == 0 && flag != 1 {
        return Err(Fault::Breaks(Rule::VpsLimit));
    }
    Ok(flag)
}

#[tactic(auto, unfolding(crate::specs::Formats::rep_format))]
pub(crate) fn rep_format_of(bits: &mut BitReader, i: u32) -> Result<RepFormat, Fault<Rule>>
    ensures { ReadsBy (rep_format i) bits.old bits.new result }
{
    let pic_width_vps_in_luma_samples = side_of(bits)?;
    let pic_height_vps_in_luma_samples = side_of(bits)?;
    let chroma_and_bit_depth_vps_present_flag = chroma_flag_of(bits, i)?;
    let chroma_and_depth = chroma_and_depth_if(bits, chroma_and_bit_depth_vps_present_flag == 1)?;
    let conformance_window_vps_flag = u8_of(bits, 1)?;
    let conformance_window = conformance_window_if(bits, conformance_window_vps_flag == 1)?;
    Ok(RepFormat {
        pic_width_vps_in_luma_samples,
        pic_height_vps_in_luma_samples,
        chroma_and_bit_depth_vps_present_flag,
        chroma_and_depth,
        conformance_window_vps_flag,
        conformance_window,
    })
}

#[tactic(auto, unfolding(crate::specs::Formats::chroma_and_depth))]
fn print_chroma_and_depth(out: &mut Printer, v: &ChromaAndDepth) -> Result<(), AllocError>
    requires { Valid chroma_and_depth v.now }
    ensures { OnOk result (out.new ≡ printed chroma_and_depth v.now out.old) }
{
    out.u8("chroma_format_vps_idc", 2, v.chroma_format_vps_idc)?;
    out.unset_flag_if(
        v.chroma_format_vps_idc == 3,
        "separate_colour_plane_vps_flag",
        Rule::VpsLimit,
        v.separate_colour_plane_vps_flag,
    )?;
    out.u8("bit_depth_vps_luma_minus8", 4, v.bit_depth_vps_luma_minus8)?;
    out.u8(
        "bit_depth_vps_chroma_minus8",
        4,
        v.bit_depth_vps_chroma_minus8,
    )?;
    Ok(())
}

fn print_chroma_and_depth_if(
    out: &mut Printer,
    present: bool,
    v: &Option<ChromaAndDepth>,
) -> Result<(), AllocError>
    requires { Valid (when present chroma_and_depth) v.now }
    ensures { OnOk result (out.new ≡ printed (when present chroma_and_depth) v.now out.old) }
{
    match v {
        Some(v) => print_chroma_and_depth(out, v),
        None => Ok(()),
    }
}

#[tactic(auto, unfolding(crate::specs::Formats::conformance_window))]
fn print_conformance_window(out: &mut Printer, v: &ConformanceWindow) -> Result<(), AllocError>
    requires { Valid conformance_window v.now }
    ensures { OnOk result (out.new ≡ printed conformance_window v.now out.old) }
{
    out.ue("conf_win_vps_left_offset", v.conf_win_vps_left_offset)?;
    out.ue("conf_win_vps_right_offset", v.conf_win_vps_right_offset)?;
    out.ue("conf_win_vps_top_offset", v.conf_win_vps_top_offset)?;
    out.ue("conf_win_vps_bottom_offset", v.conf_win_vps_bottom_offset)?;
    Ok(())
}

fn print_conformance_window_if(
    out: &mut Printer,
    present: bool,
    v: &Option<ConformanceWindow>,
) -> Result<(), AllocError>
    requires { Valid (when present conformance_window) v.now }
    ensures { OnOk result (out.new ≡ printed (when present conformance_window) v.now out.old) }
{
    match v {
        Some(v) => print_conformance_window(out, v),
        None => Ok(()),
    }
}

#[tactic(auto, unfolding(crate::specs::Formats::rep_format))]
pub(crate) fn print_rep_format(out: &mut Printer, v: &RepFormat, i: usize) -> Result<(), AllocError>
    requires { Valid (rep_format i) v.now }
    ensures { OnOk result (out.new ≡ printed (rep_format i) v.now out.old) }
{
    out.u16(
        "pic_width_vps_in_luma_samples",
        16,
        v.pic_width_vps_in_luma_samples,
    )?;
    out.u16(
        "pic_height_vps_in_luma_samples",
        16,
        v.pic_height_vps_in_luma_samples,
    )?;
    out.flag(
        "chroma_and_bit_depth_vps_present_flag",
        v.chroma_and_bit_depth_vps_present_flag,
    )?;
    print_chroma_and_depth_if(
        out,
        v.chroma_and_bit_depth_vps_present_flag == 1,
        &v.chroma_and_depth,
    )?;
    out.flag("conformance_window_vps_flag", v.conformance_window_vps_flag)?;
    print_conformance_window_if(
        out,
        v.conformance_window_vps_flag == 1,
        &v.conformance_window,
    )?;
    Ok(())
}
