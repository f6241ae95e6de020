ghost use Rattle.std.specs.Prelude.{◌≡◌, ◌≤◌, OnOk};
ghost use Rattle.mv_syntax.specs.Table.{Valid};
ghost use Rattle.mv_syntax.specs.Printed.{printed};
ghost use Rattle.mv_fields.specs.Reading.{ReadsBy};
ghost use Rattle.mv_sps.specs.Coding.{coding};

use crate::blocks::{SpsBlocks, blocks_of, print_blocks};
use crate::references::{SpsReferences, print_references, references_of};
use crate::scaling::{SpsScaling, print_scaling, scaling_of};
use crate::tools::{SpsTools, print_tools, tools_of};
use mv_bits::BitReader;
use mv_fields::{Fault, Printer, u8_of};
use mv_rules::Rule;
use std::alloc::{AllocError, Global};
use std::marker::Model;

/// How the pictures are coded: their blocks, scaling lists, tools and references.
#[derive(Debug, Drop)]
pub struct SpsCoding {
    pub blocks: SpsBlocks,
    pub scaling: SpsScaling,
    pub tools: SpsTools,
    pub references: SpsReferences,
    pub sps_temporal_mvp_enabled_flag: u8,
    pub strong_intra_smoothing_enabled_flag: u8,
}

impl Model for SpsCoding {
    ghost use Rattle.mv_sps.specs.Coding.{SpsCodingValue};

    ghost Value = { SpsCodingValue };

    ghost view = { λ c. record {
      blocks = c.blocks;
      scaling = c.scaling;
      tools = c.tools;
      references = c.references;
      sps_temporal_mvp_enabled_flag = c.sps_temporal_mvp_enabled_flag;
      strong_intra_smoothing_enabled_flag = c.strong_intra_smoothing_enabled_flag;
    } };
}

#[tactic(auto, unfolding(crate::specs::Coding::coding))]
pub(crate) fn coding_of(
    alloc: Global,
    bits: &mut BitReader,
    ext: bool,
    lsb_bits: u8,
) -> Result<SpsCoding, Fault<Rule>>
    requires { lsb_bits ≤ 16 }
    ensures { ReadsBy (coding ext lsb_bits) bits.old bits.new result }
{
    Ok(SpsCoding {
        blocks: blocks_of(bits)?,
        scaling: scaling_of(alloc, bits, ext)?,
        tools: tools_of(bits)?,
        references: references_of(alloc, bits, lsb_bits)?,
        sps_temporal_mvp_enabled_flag: u8_of(bits, 1)?,
        strong_intra_smoothing_enabled_flag: u8_of(bits, 1)?,
    })
}

#[tactic(auto, unfolding(crate::specs::Coding::coding))]
pub(crate) fn print_coding(
    out: &mut Printer,
    v: &SpsCoding,
    ext: bool,
    lsb_bits: u8,
) -> Result<(), AllocError>
    requires width { lsb_bits ≤ 16 }
    requires valid { Valid (coding ext lsb_bits) v.now }
    ensures { OnOk result (out.new ≡ printed (coding ext lsb_bits) v.now out.old) }
{
    print_blocks(out, &v.blocks)?;
    print_scaling(out, &v.scaling, ext)?;
    print_tools(out, &v.tools)?;
    print_references(out, &v.references, lsb_bits)?;
    out.flag(
        "sps_temporal_mvp_enabled_flag",
        v.sps_temporal_mvp_enabled_flag,
    )?;
    out.flag(
        "strong_intra_smoothing_enabled_flag",
        v.strong_intra_smoothing_enabled_flag,
    )?;
    Ok(())
}
