ghost use Rattle.std.specs.Prelude.{◌≡◌, OnOk};
ghost use Rattle.mv_syntax.specs.Table.{when, Valid};
ghost use Rattle.mv_syntax.specs.Printed.{printed};
ghost use Rattle.mv_fields.specs.Reading.{ReadsBy};
ghost use Rattle.mv_pps.specs.Tiles.{tiles};

use mv_bits::BitReader;
use mv_fields::{Fault, Printer, u8_of, ue_within, ues_if};
use mv_rules::Rule;
use std::alloc::{AllocError, Global};
use std::marker::Model;

/// The tiles of a picture: their columns and rows, and the sizes of all but the last column and row, in coding tree
/// blocks, where these aren't uniform.
#[derive(Debug, Drop)]
pub struct PpsTiles {
    pub num_tile_columns_minus1: u32,
    pub num_tile_rows_minus1: u32,
    pub uniform_spacing_flag: u8,
    pub column_width_minus1: Option<Vec<u32>>,
    pub row_height_minus1: Option<Vec<u32>>,
    pub loop_filter_across_tiles_enabled_flag: u8,
}

impl Model for PpsTiles {
    ghost use Rattle.std.specs.Prelude.{option_map};
    ghost use Rattle.mv_pps.specs.Tiles.{PpsTilesValue};

    ghost Value = { PpsTilesValue };

    ghost view = { λ t. record {
      num_tile_columns_minus1 = t.num_tile_columns_minus1;
      num_tile_rows_minus1 = t.num_tile_rows_minus1;
      uniform_spacing_flag = t.uniform_spacing_flag;
      column_width_minus1 = option_map (λ v. v.items) t.column_width_minus1;
      row_height_minus1 = option_map (λ v. v.items) t.row_height_minus1;
      loop_filter_across_tiles_enabled_flag = t.loop_filter_across_tiles_enabled_flag;
    } };
}

#[tactic(auto, unfolding(crate::specs::Tiles::tiles))]
fn tiles_of(alloc: Global, bits: &mut BitReader) -> Result<PpsTiles, Fault<Rule>>
    ensures { ReadsBy tiles bits.old bits.new result }
{
    let num_tile_columns_minus1 = ue_within(bits, Rule::PpsLimit, 255)?;
    let num_tile_rows_minus1 = ue_within(bits, Rule::PpsLimit, 255)?;
    let uniform_spacing_flag = u8_of(bits, 1)?;
    let coded = uniform_spacing_flag != 1;
    let column_width_minus1 = ues_if(alloc, bits, coded, num_tile_columns_minus1)?;
    let row_height_minus1 = ues_if(alloc, bits, coded, num_tile_rows_minus1)?;
    let loop_filter_across_tiles_enabled_flag = u8_of(bits, 1)?;
    Ok(PpsTiles {
        num_tile_columns_minus1,
        num_tile_rows_minus1,
        uniform_spacing_flag,
        column_width_minus1,
        row_height_minus1,
        loop_filter_across_tiles_enabled_flag,
    })
}

pub(crate) fn tiles_if(
    alloc: Global,
    bits: &mut BitReader,
    present: bool,
) -> Result<Option<PpsTiles>, Fault<Rule>>
    ensures { ReadsBy (when present tiles) bits.old bits.new result }
{
    if !present {
        return Ok(None);
    }
    Ok(Some(tiles_of(alloc, bits)?))
}

#[tactic(auto, unfolding(crate::specs::Tiles::tiles))]
fn print_tiles(out: &mut Printer, v: &PpsTiles) -> Result<(), AllocError>
    requires { Valid tiles v.now }
    ensures { OnOk result (out.new ≡ printed tiles v.now out.old) }
{
    let coded = v.uniform_spacing_flag != 1;
    out.ue("num_tile_columns_minus1", v.num_tile_columns_minus1)?;
    out.ue("num_tile_rows_minus1", v.num_tile_rows_minus1)?;
    out.flag("uniform_spacing_flag", v.uniform_spacing_flag)?;
    out.ues_if(
        coded,
        "column_width_minus1",
        0,
        v.num_tile_columns_minus1,
        &v.column_width_minus1,
    )?;
    out.ues_if(
        coded,
        "row_height_minus1",
        0,
        v.num_tile_rows_minus1,
        &v.row_height_minus1,
    )?;
    out.flag(
        "loop_filter_across_tiles_enabled_flag",
        v.loop_filter_across_tiles_enabled_flag,
    )?;
    Ok(())
}

pub(crate) fn print_tiles_if(
    out: &mut Printer,
    present: bool,
    v: &Option<PpsTiles>,
) -> Result<(), AllocError>
    requires { Valid (when present tiles) v.now }
    ensures { OnOk result (out.new ≡ printed (when present tiles) v.now out.old) }
{
    match v {
        Some(v) => print_tiles(out, v),
        None => Ok(()),
    }
}
