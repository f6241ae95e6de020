ghost use Rattle.std.specs.Prelude.{◌≡◌, OnOk};
ghost use Rattle.mv_syntax.specs.Table.{Valid};
ghost use Rattle.mv_syntax.specs.Printed.{printed};
ghost use Rattle.mv_fields.specs.Reading.{ReadsBy};
ghost use Rattle.mv_sps.specs.Blocks.{blocks};

use mv_bits::BitReader;
use mv_fields::{Fault, Printer, ue_sum_within, ue_within};
use mv_rules::Rule;
use std::alloc::AllocError;

/// The sizes of the coding and the transform blocks, as powers of two, and how often a coding block's residual is split.
#[derive(Clone, Copy, Debug, PartialEq, Eq)]
pub struct SpsBlocks {
    pub log2_min_luma_coding_block_size_minus3: u32,
    pub log2_diff_max_min_luma_coding_block_size: u32,
    pub log2_min_luma_transform_block_size_minus2: u32,
    pub log2_diff_max_min_luma_transform_block_size: u32,
    pub max_transform_hierarchy_depth_inter: u32,
    pub max_transform_hierarchy_depth_intra: u32,
}

#[tactic(auto, unfolding(crate::specs::Blocks::blocks))]
pub(crate) fn blocks_of(bits: &mut BitReader) -> Result<SpsBlocks, Fault<Rule>>
    ensures { ReadsBy blocks bits.old bits.new result }
{
    let log2_min_luma_coding_block_size_minus3 = ue_within(bits, Rule::SpsLimit, 3)?;
    let log2_diff_max_min_luma_coding_block_size = ue_sum_within(
        bits,
        log2_min_luma_coding_block_size_minus3,
        Rule::SpsLimit,
        3,
    )?;
    let log2_min_luma_transform_block_size_minus2 = bits.ue()?;
    let log2_diff_max_min_luma_transform_block_size = bits.ue()?;
    let max_transform_hierarchy_depth_inter = bits.ue()?;
    let max_transform_hierarchy_depth_intra = bits.ue()?;
    Ok(SpsBlocks {
        log2_min_luma_coding_block_size_minus3,
        log2_diff_max_min_luma_coding_block_size,
        log2_min_luma_transform_block_size_minus2,
        log2_diff_max_min_luma_transform_block_size,
        max_transform_hierarchy_depth_inter,
        max_transform_hierarchy_depth_intra,
    })
}

#[tactic(auto, unfolding(crate::specs::Blocks::blocks))]
pub(crate) fn print_blocks(out: &mut Printer, v: &SpsBlocks) -> Result<(), AllocError>
    requires { Valid blocks v.now }
    ensures { OnOk result (out.new ≡ printed blocks v.now out.old) }
{
    out.ue(
        "log2_min_luma_coding_block_size_minus3",
        v.log2_min_luma_coding_block_size_minus3,
    )?;
    out.ue(
        "log2_diff_max_min_luma_coding_block_size",
        v.log2_diff_max_min_luma_coding_block_size,
    )?;
    out.ue(
        "log2_min_luma_transform_block_size_minus2",
        v.log2_min_luma_transform_block_size_minus2,
    )?;
    out.ue(
        "log2_diff_max_min_luma_transform_block_size",
        v.log2_diff_max_min_luma_transform_block_size,
    )?;
    out.ue(
        "max_transform_hierarchy_depth_inter",
        v.max_transform_hierarchy_depth_inter,
    )?;
    out.ue(
        "max_transform_hierarchy_depth_intra",
        v.max_transform_hierarchy_depth_intra,
    )
}
