ghost use Rattle.std.specs.Prelude.{◌≡◌, ◌≤◌, ◌++◌, true, OnOk, OnErr, option_map};
ghost use Rattle.mv_syntax.specs.Table.{when, Valid, bits_of};
ghost use Rattle.mv_syntax.specs.Printed.{printed};
ghost use Rattle.mv_fields.specs.Reading.{AnswersShared, ReadsShared};
ghost use Rattle.mv_common.specs.Hrd.{hrd_parameters};
ghost use Rattle.mv_common.specs.Vui.{no_flags, vui_timing, vui_parameters};

use crate::hrd::{Hrd, hrd_of, print_hrd};
use crate::hrd_common::HrdFlags;
use crate::vui_parts::{
    AspectRatio, BitstreamRestriction, ChromaLocation, DisplayWindow, Overscan, VideoSignalType,
    aspect_ratio_of, bitstream_restriction_of, chroma_location_of, display_window_of, overscan_of,
    print_aspect_ratio, print_bitstream_restriction, print_chroma_location, print_display_window,
    print_overscan, print_video_signal_type, video_signal_type_of,
};
use mv_bits::{BitReader, BitWriter};
use mv_fields::{Fault, Limit, Printer, coded_set, u8_if, u8_of, u32_if, ue_if};
use std::alloc::{AllocError, Global};
use std::marker::Model;

/// The arguments of vui_parameters (E.2.1): how many sub-layers stand below the highest, at most 6.
#[derive(Clone, Copy, Debug, PartialEq, Eq)]
pub struct VuiArgs {
    pub subs: u8,
}

/// The timing of the pictures, and the hypothetical reference decoder.
#[derive(Debug, Drop)]
pub struct VuiTiming {
    pub vui_timing_info_present_flag: u8,
    pub vui_num_units_in_tick: Option<u32>,
    pub vui_time_scale: Option<u32>,
    pub vui_poc_proportional_to_timing_flag: Option<u8>,
    pub vui_num_ticks_poc_diff_one_minus1: Option<u32>,
    pub vui_hrd_parameters_present_flag: Option<u8>,
    pub hrd_parameters: Option<Hrd>,
}

impl Model for VuiTiming {
    ghost use Rattle.mv_common.specs.Vui.{VuiTimingValue};

    ghost Value = { VuiTimingValue };

    ghost view = { λ t. record {
      vui_timing_info_present_flag = t.vui_timing_info_present_flag;
      vui_num_units_in_tick = t.vui_num_units_in_tick;
      vui_time_scale = t.vui_time_scale;
      vui_poc_proportional_to_timing_flag = t.vui_poc_proportional_to_timing_flag;
      vui_num_ticks_poc_diff_one_minus1 = t.vui_num_ticks_poc_diff_one_minus1;
      vui_hrd_parameters_present_flag = t.vui_hrd_parameters_present_flag;
      hrd_parameters = t.hrd_parameters;
    } };
}

/// vui_parameters (E.2.1), in parts: each part is a run of its fields.
#[derive(Debug, Drop)]
pub struct Vui {
    pub aspect_ratio: AspectRatio,
    pub overscan: Overscan,
    pub video_signal_type: VideoSignalType,
    pub chroma_location: ChromaLocation,
    pub neutral_chroma_indication_flag: u8,
    pub field_seq_flag: u8,
    pub frame_field_info_present_flag: u8,
    pub display_window: DisplayWindow,
    pub timing: VuiTiming,
    pub bitstream_restriction: BitstreamRestriction,
}

impl Model for Vui {
    ghost use Rattle.mv_common.specs.Vui.{VuiValue};

    ghost Value = { VuiValue };

    ghost view = { λ v. record {
      aspect_ratio = v.aspect_ratio;
      overscan = v.overscan;
      video_signal_type = v.video_signal_type;
      chroma_location = v.chroma_location;
      neutral_chroma_indication_flag = v.neutral_chroma_indication_flag;
      field_seq_flag = v.field_seq_flag;
      frame_field_info_present_flag = v.frame_field_info_present_flag;
      display_window = v.display_window;
      timing = v.timing;
      bitstream_restriction = v.bitstream_restriction;
    } };
}

const NO_FLAGS: HrdFlags = HrdFlags {
    nal: false,
    vcl: false,
    sub_pic: false,
};

fn hrd_if(
    alloc: Global,
    bits: &mut BitReader,
    present: bool,
    subs: u8,
) -> Result<Option<Hrd>, Fault<Limit>>
    requires { subs ≤ 6 }
    ensures { ReadsShared (when present (hrd_parameters true subs no_flags)) bits.old bits.new result }
{
    if !present {
        return Ok(None);
    }
    Ok(Some(hrd_of(alloc, bits, true, subs, NO_FLAGS)?))
}

fn print_hrd_if(
    out: &mut Printer,
    present: bool,
    v: &Option<Hrd>,
    subs: u8,
) -> Result<(), AllocError>
    requires { Valid (when present (hrd_parameters true subs no_flags)) v.now }
    ensures { OnOk result (out.new ≡ printed (when present (hrd_parameters true subs no_flags)) v.now out.old) }
{
    match v {
        Some(v) => print_hrd(out, v, true, subs, NO_FLAGS),
        None => Ok(()),
    }
}

#[tactic(auto, unfolding(crate::specs::Vui::vui_timing))]
fn vui_timing_of(alloc: Global, bits: &mut BitReader, subs: u8) -> Result<VuiTiming, Fault<Limit>>
    requires { subs ≤ 6 }
    ensures { ReadsShared (vui_timing subs) bits.old bits.new result }
{
    let vui_timing_info_present_flag = u8_of(bits, 1)?;
    let present = vui_timing_info_present_flag == 1;
    let vui_num_units_in_tick = u32_if(bits, present, 32)?;
    let vui_time_scale = u32_if(bits, present, 32)?;
    let vui_poc_proportional_to_timing_flag = u8_if(bits, present, 1)?;
    let vui_num_ticks_poc_diff_one_minus1 = ue_if(
        bits,
        coded_set(vui_poc_proportional_to_timing_flag),
    )?;
    let vui_hrd_parameters_present_flag = u8_if(bits, present, 1)?;
    let hrd_parameters = hrd_if(
        alloc,
        bits,
        coded_set(vui_hrd_parameters_present_flag),
        subs,
    )?;
    Ok(VuiTiming {
        vui_timing_info_present_flag,
        vui_num_units_in_tick,
        vui_time_scale,
        vui_poc_proportional_to_timing_flag,
        vui_num_ticks_poc_diff_one_minus1,
        vui_hrd_parameters_present_flag,
        hrd_parameters,
    })
}

#[tactic(auto, unfolding(crate::specs::Vui::vui_timing))]
fn print_vui_timing(out: &mut Printer, v: &VuiTiming, subs: u8) -> Result<(), AllocError>
    requires { Valid (vui_timing subs) v.now }
    ensures { OnOk result (out.new ≡ printed (vui_timing subs) v.now out.old) }
{
    let present = v.vui_timing_info_present_flag == 1;
    out.flag(
        "vui_timing_info_present_flag",
        v.vui_timing_info_present_flag,
    )?;
    out.u32_if(
        present,
        "vui_num_units_in_tick",
        32,
        v.vui_num_units_in_tick,
    )?;
    out.u32_if(present, "vui_time_scale", 32, v.vui_time_scale)?;
    out.flag_if(
        present,
        "vui_poc_proportional_to_timing_flag",
        v.vui_poc_proportional_to_timing_flag,
    )?;
    out.ue_if(
        coded_set(v.vui_poc_proportional_to_timing_flag),
        "vui_num_ticks_poc_diff_one_minus1",
        v.vui_num_ticks_poc_diff_one_minus1,
    )?;
    out.flag_if(
        present,
        "vui_hrd_parameters_present_flag",
        v.vui_hrd_parameters_present_flag,
    )?;
    print_hrd_if(
        out,
        coded_set(v.vui_hrd_parameters_present_flag),
        &v.hrd_parameters,
        subs,
    )?;
    Ok(())
}

#[tactic(auto, unfolding(crate::specs::Vui::vui_parameters))]
fn vui_of(alloc: Global, bits: &mut BitReader, subs: u8) -> Result<Vui, Fault<Limit>>
    requires { subs ≤ 6 }
    ensures { ReadsShared (vui_parameters subs) bits.old bits.new result }
{
    Ok(Vui {
        aspect_ratio: aspect_ratio_of(bits)?,
        overscan: overscan_of(bits)?,
        video_signal_type: video_signal_type_of(bits)?,
        chroma_location: chroma_location_of(bits)?,
        neutral_chroma_indication_flag: u8_of(bits, 1)?,
        field_seq_flag: u8_of(bits, 1)?,
        frame_field_info_present_flag: u8_of(bits, 1)?,
        display_window: display_window_of(bits)?,
        timing: vui_timing_of(alloc, bits, subs)?,
        bitstream_restriction: bitstream_restriction_of(bits)?,
    })
}

#[tactic(auto, unfolding(crate::specs::Vui::vui_parameters))]
fn print_vui(out: &mut Printer, v: &Vui, subs: u8) -> Result<(), AllocError>
    requires { Valid (vui_parameters subs) v.now }
    ensures { OnOk result (out.new ≡ printed (vui_parameters subs) v.now out.old) }
{
    print_aspect_ratio(out, &v.aspect_ratio)?;
    print_overscan(out, &v.overscan)?;
    print_video_signal_type(out, &v.video_signal_type)?;
    print_chroma_location(out, &v.chroma_location)?;
    out.flag(
        "neutral_chroma_indication_flag",
        v.neutral_chroma_indication_flag,
    )?;
    out.flag("field_seq_flag", v.field_seq_flag)?;
    out.flag(
        "frame_field_info_present_flag",
        v.frame_field_info_present_flag,
    )?;
    print_display_window(out, &v.display_window)?;
    print_vui_timing(out, &v.timing, subs)?;
    print_bitstream_restriction(out, &v.bitstream_restriction)?;
    Ok(())
}

impl Vui {
    /// Reads vui_parameters (E.2.1).
    ///
    /// `NoBits` where the bits end before or in a field or hold no code there, and no earlier field is past its limit;
    /// `Breaks(Limit)` where cpb_cnt_minus1 of a sub-layer is over 31 and all before it could be read; `Memory` where memory
    /// runs out. After a fault the reader stands where it stood.
    pub fn read(alloc: Global, bits: &mut BitReader, args: &VuiArgs) -> Result<Vui, Fault<Limit>>
        requires { args.now.subs ≤ 6 }
        ensures { AnswersShared (vui_parameters args.now.subs) bits.old bits.new result }
    {
        let mut ahead = bits.fork();
        match vui_of(alloc, &mut ahead, args.subs) {
            Ok(value) => {
                *bits = ahead;
                Ok(value)
            }
            Err(fault) => Err(fault),
        }
    }

    /// Prints vui_parameters (E.2.1).
    ///
    /// `AllocError` where memory runs out.
    pub fn print(&self, out: &mut Printer, args: &VuiArgs) -> Result<(), AllocError>
        requires subs { args.now.subs ≤ 6 }
        requires valid { Valid (vui_parameters args.now.subs) self.now }
        ensures { OnOk result (out.new ≡ printed (vui_parameters args.now.subs) self.now out.old) }
    {
        print_vui(out, self, args.subs)
    }

    /// Writes vui_parameters (E.2.1).
    ///
    /// `AllocError` where memory runs out: the writer is then unchanged.
    pub fn write(&self, out: &mut BitWriter, args: &VuiArgs) -> Result<(), AllocError>
        requires subs { args.now.subs ≤ 6 }
        requires valid { Valid (vui_parameters args.now.subs) self.now }
        ensures ok { OnOk result (out.new ≡ out.old ++ bits_of (vui_parameters args.now.subs) self.now) }
        ensures err { OnErr result (out.new ≡ out.old) }
    {
        let mut own = Printer::beside(out);
        self.print(&mut own, args)?;
        own.append_to(out)
    }
}
