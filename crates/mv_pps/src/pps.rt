ghost use Rattle.std.specs.Prelude.{◌≡◌, OnOk};
ghost use Rattle.mv_syntax.specs.Table.{Valid};
ghost use Rattle.mv_syntax.specs.Printed.{printed};
ghost use Rattle.mv_fields.specs.Reading.{ReadsAs};
ghost use Rattle.mv_pps.specs.Pps.{pps_fields};

use crate::deblocking::{PpsDeblocking, deblocking_of, print_deblocking};
use crate::extension::{PpsExtension, extension_if, print_extension_if};
use crate::opening::{PpsOpening, opening_of, print_opening};
use crate::quantization::{PpsQuantization, print_quantization, quantization_of};
use crate::tiles::{PpsTiles, print_tiles_if, tiles_if};
use crate::tools::{PpsTools, print_tools, tools_of};
use mv_bits::BitReader;
use mv_common::{ScalingLists, print_scaling_lists_if, scaling_lists_if};
use mv_fields::{Fault, Printer, u8_of};
use mv_rules::Rule;
use std::alloc::{AllocError, Global};
use std::marker::Model;

/// A picture parameter set (7.3.2.3.1, F.7.3.2.3.1): its fields in coded order, in parts, and a tail.
#[derive(Debug, Drop)]
pub struct Pps {
    pub opening: PpsOpening,
    pub quantization: PpsQuantization,
    pub tools: PpsTools,
    /// Coded where tiles_enabled_flag is 1.
    pub tiles: Option<PpsTiles>,
    pub pps_loop_filter_across_slices_enabled_flag: u8,
    pub deblocking: PpsDeblocking,
    pub pps_scaling_list_data_present_flag: u8,
    pub scaling_list_data: Option<ScalingLists>,
    pub lists_modification_present_flag: u8,
    pub log2_parallel_merge_level_minus2: u32,
    pub slice_segment_header_extension_present_flag: u8,
    pub pps_extension_present_flag: u8,
    /// Coded where pps_extension_present_flag is 1.
    pub extension: Option<PpsExtension>,
    /// The bits of pps_extension_data_flag, where pps_extension_4bits is above 0.
    pub tail: Option<Vec<bool>>,
}

impl Model for Pps {
    ghost use Rattle.std.specs.Prelude.{Bool, List, Option, option_map};
    ghost use Rattle.mv_pps.specs.Pps.{PpsValue};

    ghost Value = { PpsValue × Option (List Bool) };

    ghost view = { λ p. (
      record {
        opening = p.opening;
        quantization = p.quantization;
        tools = p.tools;
        tiles = p.tiles;
        pps_loop_filter_across_slices_enabled_flag = p.pps_loop_filter_across_slices_enabled_flag;
        deblocking = p.deblocking;
        pps_scaling_list_data_present_flag = p.pps_scaling_list_data_present_flag;
        scaling_list_data = p.scaling_list_data;
        lists_modification_present_flag = p.lists_modification_present_flag;
        log2_parallel_merge_level_minus2 = p.log2_parallel_merge_level_minus2;
        slice_segment_header_extension_present_flag = p.slice_segment_header_extension_present_flag;
        pps_extension_present_flag = p.pps_extension_present_flag;
        extension = p.extension;
      },
      option_map (λ v. v.items) p.tail,
    ) };
}

/// The fields of a picture parameter set, up to the tail, which is None here.
#[tactic(auto, unfolding(crate::specs::Pps::pps_fields, crate::specs::Pps::behind_opening))]
pub(crate) fn fields_of(alloc: Global, bits: &mut BitReader) -> Result<Pps, Fault<Rule>>
    ensures { ReadsAs (λ v. v.0) pps_fields bits.old bits.new result }
{
    let opening = opening_of(bits)?;
    let quantization = quantization_of(bits)?;
    let tools = tools_of(bits)?;
    let tiles = tiles_if(alloc, bits, tools.tiles_enabled_flag == 1)?;
    let pps_loop_filter_across_slices_enabled_flag = u8_of(bits, 1)?;
    let deblocking = deblocking_of(bits)?;
    let pps_scaling_list_data_present_flag = u8_of(bits, 1)?;
    let scaling_list_data = scaling_lists_if(
        alloc,
        bits,
        pps_scaling_list_data_present_flag == 1,
        Rule::PpsLimit,
    )?;
    let lists_modification_present_flag = u8_of(bits, 1)?;
    let log2_parallel_merge_level_minus2 = bits.ue()?;
    let slice_segment_header_extension_present_flag = u8_of(bits, 1)?;
    let pps_extension_present_flag = u8_of(bits, 1)?;
    let extension = extension_if(bits, pps_extension_present_flag == 1)?;
    Ok(Pps {
        opening,
        quantization,
        tools,
        tiles,
        pps_loop_filter_across_slices_enabled_flag,
        deblocking,
        pps_scaling_list_data_present_flag,
        scaling_list_data,
        lists_modification_present_flag,
        log2_parallel_merge_level_minus2,
        slice_segment_header_extension_present_flag,
        pps_extension_present_flag,
        extension,
        tail: None,
    })
}

/// Prints the fields of a picture parameter set, up to the tail.
#[tactic(auto, unfolding(crate::specs::Pps::pps_fields, crate::specs::Pps::behind_opening))]
pub(crate) fn print_fields(out: &mut Printer, v: &Pps) -> Result<(), AllocError>
    requires { Valid pps_fields v.now.0 }
    ensures { OnOk result (out.new ≡ printed pps_fields v.now.0 out.old) }
{
    print_opening(out, &v.opening)?;
    print_quantization(out, &v.quantization)?;
    print_tools(out, &v.tools)?;
    print_tiles_if(out, v.tools.tiles_enabled_flag == 1, &v.tiles)?;
    out.flag(
        "pps_loop_filter_across_slices_enabled_flag",
        v.pps_loop_filter_across_slices_enabled_flag,
    )?;
    print_deblocking(out, &v.deblocking)?;
    out.flag(
        "pps_scaling_list_data_present_flag",
        v.pps_scaling_list_data_present_flag,
    )?;
    let listed = v.pps_scaling_list_data_present_flag == 1;
    print_scaling_lists_if(out, listed, &v.scaling_list_data, Rule::PpsLimit)?;
    out.flag(
        "lists_modification_present_flag",
        v.lists_modification_present_flag,
    )?;
    out.ue(
        "log2_parallel_merge_level_minus2",
        v.log2_parallel_merge_level_minus2,
    )?;
    out.flag(
        "slice_segment_header_extension_present_flag",
        v.slice_segment_header_extension_present_flag,
    )?;
    out.flag("pps_extension_present_flag", v.pps_extension_present_flag)?;
    print_extension_if(out, v.pps_extension_present_flag == 1, v.extension)?;
    Ok(())
}
