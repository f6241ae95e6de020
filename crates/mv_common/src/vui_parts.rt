ghost use Rattle.std.specs.Prelude.{◌≡◌, OnOk};
ghost use Rattle.mv_syntax.specs.Table.{Valid};
ghost use Rattle.mv_syntax.specs.Printed.{printed};
ghost use Rattle.mv_fields.specs.Reading.{ReadsShared};
ghost use Rattle.mv_common.specs.Vui.{aspect_ratio, overscan, video_signal_type, chroma_location, display_window, bitstream_restriction};

use mv_bits::BitReader;
use mv_fields::{Fault, Limit, Printer, coded_set, u8_if, u8_of, u16_if, ue_if};
use std::alloc::AllocError;

/// The aspect ratio of the samples.
#[derive(Clone, Copy, Debug, PartialEq, Eq)]
pub struct AspectRatio {
    pub aspect_ratio_info_present_flag: u8,
    pub aspect_ratio_idc: Option<u8>,
    pub sar_width: Option<u16>,
    pub sar_height: Option<u16>,
}

/// Whether the pictures are suited for display with overscan.
#[derive(Clone, Copy, Debug, PartialEq, Eq)]
pub struct Overscan {
    pub overscan_info_present_flag: u8,
    pub overscan_appropriate_flag: Option<u8>,
}

/// The video signal and its colours.
#[derive(Clone, Copy, Debug, PartialEq, Eq)]
pub struct VideoSignalType {
    pub video_signal_type_present_flag: u8,
    pub video_format: Option<u8>,
    pub video_full_range_flag: Option<u8>,
    pub colour_description_present_flag: Option<u8>,
    pub colour_primaries: Option<u8>,
    pub transfer_characteristics: Option<u8>,
    pub matrix_coeffs: Option<u8>,
}

/// Where the chroma samples lie.
#[derive(Clone, Copy, Debug, PartialEq, Eq)]
pub struct ChromaLocation {
    pub chroma_loc_info_present_flag: u8,
    pub chroma_sample_loc_type_top_field: Option<u32>,
    pub chroma_sample_loc_type_bottom_field: Option<u32>,
}

/// The default display window.
#[derive(Clone, Copy, Debug, PartialEq, Eq)]
pub struct DisplayWindow {
    pub default_display_window_flag: u8,
    pub def_disp_win_left_offset: Option<u32>,
    pub def_disp_win_right_offset: Option<u32>,
    pub def_disp_win_top_offset: Option<u32>,
    pub def_disp_win_bottom_offset: Option<u32>,
}

/// What the bitstream keeps to.
#[derive(Clone, Copy, Debug, PartialEq, Eq)]
pub struct BitstreamRestriction {
    pub bitstream_restriction_flag: u8,
    pub tiles_fixed_structure_flag: Option<u8>,
    pub motion_vectors_over_pic_boundaries_flag: Option<u8>,
    pub restricted_ref_pic_lists_flag: Option<u8>,
    pub min_spatial_segmentation_idc: Option<u32>,
    pub max_bytes_per_pic_denom: Option<u32>,
    pub max_bits_per_min_cu_denom: Option<u32>,
    pub log2_max_mv_length_horizontal: Option<u32>,
    pub log2_max_mv_length_vertical: Option<u32>,
}

#[tactic(auto, unfolding(crate::specs::Vui::aspect_ratio))]
pub(crate) fn aspect_ratio_of(bits: &mut BitReader) -> Result<AspectRatio, Fault<Limit>>
    ensures { ReadsShared aspect_ratio bits.old bits.new result }
{
    let aspect_ratio_info_present_flag = u8_of(bits, 1)?;
    let aspect_ratio_idc = u8_if(bits, aspect_ratio_info_present_flag == 1, 8)?;
    let extended = aspect_ratio_idc.unwrap_or(0) == 255;
    Ok(AspectRatio {
        aspect_ratio_info_present_flag,
        aspect_ratio_idc,
        sar_width: u16_if(bits, extended, 16)?,
        sar_height: u16_if(bits, extended, 16)?,
    })
}

#[tactic(auto, unfolding(crate::specs::Vui::aspect_ratio))]
pub(crate) fn print_aspect_ratio(out: &mut Printer, v: &AspectRatio) -> Result<(), AllocError>
    requires { Valid aspect_ratio v.now }
    ensures { OnOk result (out.new ≡ printed aspect_ratio v.now out.old) }
{
    let extended = v.aspect_ratio_idc.unwrap_or(0) == 255;
    out.flag(
        "aspect_ratio_info_present_flag",
        v.aspect_ratio_info_present_flag,
    )?;
    out.u8_if(
        v.aspect_ratio_info_present_flag == 1,
        "aspect_ratio_idc",
        8,
        v.aspect_ratio_idc,
    )?;
    out.u16_if(extended, "sar_width", 16, v.sar_width)?;
    out.u16_if(extended, "sar_height", 16, v.sar_height)
}

#[tactic(auto, unfolding(crate::specs::Vui::overscan))]
pub(crate) fn overscan_of(bits: &mut BitReader) -> Result<Overscan, Fault<Limit>>
    ensures { ReadsShared overscan bits.old bits.new result }
{
    let overscan_info_present_flag = u8_of(bits, 1)?;
    let overscan_appropriate_flag = u8_if(bits, overscan_info_present_flag == 1, 1)?;
    Ok(Overscan {
        overscan_info_present_flag,
        overscan_appropriate_flag,
    })
}

#[tactic(auto, unfolding(crate::specs::Vui::overscan))]
pub(crate) fn print_overscan(out: &mut Printer, v: &Overscan) -> Result<(), AllocError>
    requires { Valid overscan v.now }
    ensures { OnOk result (out.new ≡ printed overscan v.now out.old) }
{
    out.flag("overscan_info_present_flag", v.overscan_info_present_flag)?;
    out.flag_if(
        v.overscan_info_present_flag == 1,
        "overscan_appropriate_flag",
        v.overscan_appropriate_flag,
    )
}

#[tactic(auto, unfolding(crate::specs::Vui::video_signal_type))]
pub(crate) fn video_signal_type_of(bits: &mut BitReader) -> Result<VideoSignalType, Fault<Limit>>
    ensures { ReadsShared video_signal_type bits.old bits.new result }
{
    let video_signal_type_present_flag = u8_of(bits, 1)?;
    let present = video_signal_type_present_flag == 1;
    let video_format = u8_if(bits, present, 3)?;
    let video_full_range_flag = u8_if(bits, present, 1)?;
    let colour_description_present_flag = u8_if(bits, present, 1)?;
    let described = coded_set(colour_description_present_flag);
    Ok(VideoSignalType {
        video_signal_type_present_flag,
        video_format,
        video_full_range_flag,
        colour_description_present_flag,
        colour_primaries: u8_if(bits, described, 8)?,
        transfer_characteristics: u8_if(bits, described, 8)?,
        matrix_coeffs: u8_if(bits, described, 8)?,
    })
}

#[tactic(auto, unfolding(crate::specs::Vui::video_signal_type))]
pub(crate) fn print_video_signal_type(
    out: &mut Printer,
    v: &VideoSignalType,
) -> Result<(), AllocError>
    requires { Valid video_signal_type v.now }
    ensures { OnOk result (out.new ≡ printed video_signal_type v.now out.old) }
{
    let present = v.video_signal_type_present_flag == 1;
    let described = coded_set(v.colour_description_present_flag);
    out.flag(
        "video_signal_type_present_flag",
        v.video_signal_type_present_flag,
    )?;
    out.u8_if(present, "video_format", 3, v.video_format)?;
    out.flag_if(present, "video_full_range_flag", v.video_full_range_flag)?;
    out.flag_if(
        present,
        "colour_description_present_flag",
        v.colour_description_present_flag,
    )?;
    out.u8_if(described, "colour_primaries", 8, v.colour_primaries)?;
    out.u8_if(
        described,
        "transfer_characteristics",
        8,
        v.transfer_characteristics,
    )?;
    out.u8_if(described, "matrix_coeffs", 8, v.matrix_coeffs)
}

#[tactic(auto, unfolding(crate::specs::Vui::chroma_location))]
pub(crate) fn chroma_location_of(bits: &mut BitReader) -> Result<ChromaLocation, Fault<Limit>>
    ensures { ReadsShared chroma_location bits.old bits.new result }
{
    let chroma_loc_info_present_flag = u8_of(bits, 1)?;
    let present = chroma_loc_info_present_flag == 1;
    Ok(ChromaLocation {
        chroma_loc_info_present_flag,
        chroma_sample_loc_type_top_field: ue_if(bits, present)?,
        chroma_sample_loc_type_bottom_field: ue_if(bits, present)?,
    })
}

#[tactic(auto, unfolding(crate::specs::Vui::chroma_location))]
pub(crate) fn print_chroma_location(out: &mut Printer, v: &ChromaLocation) -> Result<(), AllocError>
    requires { Valid chroma_location v.now }
    ensures { OnOk result (out.new ≡ printed chroma_location v.now out.old) }
{
    let present = v.chroma_loc_info_present_flag == 1;
    out.flag(
        "chroma_loc_info_present_flag",
        v.chroma_loc_info_present_flag,
    )?;
    out.ue_if(
        present,
        "chroma_sample_loc_type_top_field",
        v.chroma_sample_loc_type_top_field,
    )?;
    out.ue_if(
        present,
        "chroma_sample_loc_type_bottom_field",
        v.chroma_sample_loc_type_bottom_field,
    )
}

#[tactic(auto, unfolding(crate::specs::Vui::display_window))]
pub(crate) fn display_window_of(bits: &mut BitReader) -> Result<DisplayWindow, Fault<Limit>>
    ensures { ReadsShared display_window bits.old bits.new result }
{
    let default_display_window_flag = u8_of(bits, 1)?;
    let present = default_display_window_flag == 1;
    Ok(DisplayWindow {
        default_display_window_flag,
        def_disp_win_left_offset: ue_if(bits, present)?,
        def_disp_win_right_offset: ue_if(bits, present)?,
        def_disp_win_top_offset: ue_if(bits, present)?,
        def_disp_win_bottom_offset: ue_if(bits, present)?,
    })
}

#[tactic(auto, unfolding(crate::specs::Vui::display_window))]
pub(crate) fn print_display_window(out: &mut Printer, v: &DisplayWindow) -> Result<(), AllocError>
    requires { Valid display_window v.now }
    ensures { OnOk result (out.new ≡ printed display_window v.now out.old) }
{
    let present = v.default_display_window_flag == 1;
    out.flag("default_display_window_flag", v.default_display_window_flag)?;
    out.ue_if(
        present,
        "def_disp_win_left_offset",
        v.def_disp_win_left_offset,
    )?;
    out.ue_if(
        present,
        "def_disp_win_right_offset",
        v.def_disp_win_right_offset,
    )?;
    out.ue_if(
        present,
        "def_disp_win_top_offset",
        v.def_disp_win_top_offset,
    )?;
    out.ue_if(
        present,
        "def_disp_win_bottom_offset",
        v.def_disp_win_bottom_offset,
    )
}

#[tactic(auto, unfolding(crate::specs::Vui::bitstream_restriction))]
pub(crate) fn bitstream_restriction_of(
    bits: &mut BitReader,
) -> Result<BitstreamRestriction, Fault<Limit>>
    ensures { ReadsShared bitstream_restriction bits.old bits.new result }
{
    let bitstream_restriction_flag = u8_of(bits, 1)?;
    let present = bitstream_restriction_flag == 1;
    Ok(BitstreamRestriction {
        bitstream_restriction_flag,
        tiles_fixed_structure_flag: u8_if(bits, present, 1)?,
        motion_vectors_over_pic_boundaries_flag: u8_if(bits, present, 1)?,
        restricted_ref_pic_lists_flag: u8_if(bits, present, 1)?,
        min_spatial_segmentation_idc: ue_if(bits, present)?,
        max_bytes_per_pic_denom: ue_if(bits, present)?,
        max_bits_per_min_cu_denom: ue_if(bits, present)?,
        log2_max_mv_length_horizontal: ue_if(bits, present)?,
        log2_max_mv_length_vertical: ue_if(bits, present)?,
    })
}

#[tactic(auto, unfolding(crate::specs::Vui::bitstream_restriction))]
pub(crate) fn print_bitstream_restriction(
    out: &mut Printer,
    v: &BitstreamRestriction,
) -> Result<(), AllocError>
    requires { Valid bitstream_restriction v.now }
    ensures { OnOk result (out.new ≡ printed bitstream_restriction v.now out.old) }
{
    let present = v.bitstream_restriction_flag == 1;
    out.flag("bitstream_restriction_flag", v.bitstream_restriction_flag)?;
    out.flag_if(
        present,
        "tiles_fixed_structure_flag",
        v.tiles_fixed_structure_flag,
    )?;
    out.flag_if(
        present,
        "motion_vectors_over_pic_boundaries_flag",
        v.motion_vectors_over_pic_boundaries_flag,
    )?;
    out.flag_if(
        present,
        "restricted_ref_pic_lists_flag",
        v.restricted_ref_pic_lists_flag,
    )?;
    out.ue_if(
        present,
        "min_spatial_segmentation_idc",
        v.min_spatial_segmentation_idc,
    )?;
    out.ue_if(
        present,
        "max_bytes_per_pic_denom",
        v.max_bytes_per_pic_denom,
    )?;
    out.ue_if(
        present,
        "max_bits_per_min_cu_denom",
        v.max_bits_per_min_cu_denom,
    )?;
    out.ue_if(
        present,
        "log2_max_mv_length_horizontal",
        v.log2_max_mv_length_horizontal,
    )?;
    out.ue_if(
        present,
        "log2_max_mv_length_vertical",
        v.log2_max_mv_length_vertical,
    )
}
