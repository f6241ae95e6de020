//! The end of a slice segment header: its entry points and its extension.

ghost use Rattle.std.specs.Prelude.{◌≡◌, ◌≤◌, OnOk};
ghost use Rattle.mv_syntax.specs.Table.{ue, when, Valid};
ghost use Rattle.mv_syntax.specs.Words.{◌!◌∶◌, over, or_zero};
ghost use Rattle.mv_syntax.specs.Printed.{printed};
ghost use Rattle.mv_fields.specs.Reading.{ReadsBy};
ghost use Rattle.mv_rules.specs.declared.rule.Rule.TheVariants.{SliceSyntax};
ghost use Rattle.mv_slice.specs.Ending.{ending};

use crate::context::SliceContext;
use mv_bits::BitReader;
use mv_fields::{Fault, Printer, or_zero, u8s_of, u32s_of, ue_within_if};
use mv_rules::Rule;
use std::alloc::{AllocError, Global};
use std::marker::Model;

/// The entry points of a slice segment and the extension of its header.
#[derive(Debug, Drop)]
pub struct SliceEnding {
    pub num_entry_point_offsets: Option<u32>,
    pub offset_len_minus1: Option<u32>,
    pub entry_point_offset_minus1: Vec<u32>,
    pub slice_segment_header_extension_length: Option<u32>,
    pub slice_segment_header_extension_data_byte: Vec<u8>,
}

impl Model for SliceEnding {
    ghost use Rattle.mv_rules.specs.declared.rule.Rule.TheVariants.{SliceSyntax};
    ghost use Rattle.mv_slice.specs.Ending.{SliceEndingValue};

    ghost Value = { SliceEndingValue };

    ghost view = { λ s. record {
      num_entry_point_offsets = s.num_entry_point_offsets;
      offset_len_minus1 = s.offset_len_minus1;
      entry_point_offset_minus1 = s.entry_point_offset_minus1.items;
      slice_segment_header_extension_length = s.slice_segment_header_extension_length;
      slice_segment_header_extension_data_byte = s.slice_segment_header_extension_data_byte.items;
    } };
}

#[tactic(auto, unfolding(crate::specs::Ending::ending))]
pub(crate) fn ending_of(
    alloc: Global,
    bits: &mut BitReader,
    ctx: &SliceContext,
) -> Result<SliceEnding, Fault<Rule>>
    ensures { ReadsBy (ending ctx.now) bits.old bits.new result }
{
    let entered = ctx.tiles_enabled_flag == 1 || ctx.entropy_coding_sync_enabled_flag == 1;
    let num_entry_point_offsets = ue_within_if(bits, entered, Rule::SliceSyntax, 65535)?;
    let points = or_zero(num_entry_point_offsets);
    let offset_len_minus1 = ue_within_if(bits, points > 0, Rule::SliceSyntax, 31)?;
    let width = or_zero(offset_len_minus1) as u8 + 1;
    let entry_point_offset_minus1 = u32s_of(alloc, bits, points, width)?;
    let extended = ctx.slice_segment_header_extension_present_flag == 1;
    let slice_segment_header_extension_length = ue_within_if(
        bits,
        extended,
        Rule::SliceSyntax,
        256,
    )?;
    let length = or_zero(slice_segment_header_extension_length);
    let slice_segment_header_extension_data_byte = u8s_of(alloc, bits, length, 8)?;
    Ok(SliceEnding {
        num_entry_point_offsets,
        offset_len_minus1,
        entry_point_offset_minus1,
        slice_segment_header_extension_length,
        slice_segment_header_extension_data_byte,
    })
}

/// The number of bits of an entry point's offset, less 1.
fn width_minus1(field: Option<u32>, present: bool) -> u8
    requires { Valid (when present (ue ! SliceSyntax ∶ over 31)) field }
    ensures is { result ≡ or_zero field }
    ensures within { result ≤ 31 }
{
    or_zero(field) as u8
}

#[tactic(auto, unfolding(crate::specs::Ending::ending))]
pub(crate) fn print_ending(
    out: &mut Printer,
    ctx: &SliceContext,
    v: &SliceEnding,
) -> Result<(), AllocError>
    requires { Valid (ending ctx.now) v.now }
    ensures { OnOk result (out.new ≡ printed (ending ctx.now) v.now out.old) }
{
    let entered = ctx.tiles_enabled_flag == 1 || ctx.entropy_coding_sync_enabled_flag == 1;
    let points = or_zero(v.num_entry_point_offsets);
    let width = width_minus1(v.offset_len_minus1, points > 0) + 1;
    let extended = ctx.slice_segment_header_extension_present_flag == 1;
    let length = or_zero(v.slice_segment_header_extension_length);
    out.ue_within_if(
        entered,
        "num_entry_point_offsets",
        Rule::SliceSyntax,
        65535,
        v.num_entry_point_offsets,
    )?;
    out.ue_within_if(
        points > 0,
        "offset_len_minus1",
        Rule::SliceSyntax,
        31,
        v.offset_len_minus1,
    )?;
    out.u32s(
        "entry_point_offset_minus1",
        0,
        points,
        width,
        &v.entry_point_offset_minus1,
    )?;
    out.ue_within_if(
        extended,
        "slice_segment_header_extension_length",
        Rule::SliceSyntax,
        256,
        v.slice_segment_header_extension_length,
    )?;
    out.u8s(
        "slice_segment_header_extension_data_byte",
        0,
        length,
        8,
        &v.slice_segment_header_extension_data_byte,
    )
}
