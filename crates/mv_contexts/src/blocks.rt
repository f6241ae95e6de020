//! How many coding tree blocks a picture has.

ghost use Rattle.std.specs.Prelude.{◌≡◌, ◌≤◌, ◌+◌, ◌^◌};
ghost use Rattle.mv_pictures.specs.Contexts.{ctb_side, ctbs_in, ctbs};

use mv_common::Format;
use mv_sps::SpsBlocks;

// CtbSizeY.
fn ctb_side(blocks: &SpsBlocks) -> u32
    requires { blocks.now.log2_min_luma_coding_block_size_minus3 + blocks.now.log2_diff_max_min_luma_coding_block_size ≤ 3 }
    ensures is { result ≡ ctb_side blocks.now }
    ensures least { 8 ≤ result }
    ensures most { result ≤ 64 }
{
    1 << (blocks.log2_min_luma_coding_block_size_minus3
        + 3
        + blocks.log2_diff_max_min_luma_coding_block_size)
}

// How many blocks of this side stand side by side in so many samples.
fn ctbs_in(samples: u32, side: u32) -> u32
    requires some { 1 ≤ samples }
    requires few { samples ≤ 16384 }
    requires least { 8 ≤ side }
    requires most { side ≤ 64 }
    ensures is { result ≡ ctbs_in samples side }
    ensures some { 1 ≤ result }
    ensures few { result ≤ 2048 }
{
    (samples + side - 1) / side
}

/// PicSizeInCtbsY: how many coding tree blocks a picture of this format has.
pub(crate) fn ctbs(format: Format, blocks: &SpsBlocks) -> u32
    requires small_blocks { blocks.now.log2_min_luma_coding_block_size_minus3 + blocks.now.log2_diff_max_min_luma_coding_block_size ≤ 3 }
    requires some_width { 1 ≤ format.width }
    requires few_width { format.width ≤ 16384 }
    requires some_height { 1 ≤ format.height }
    requires few_height { format.height ≤ 16384 }
    ensures is { result ≡ ctbs format blocks.now }
    ensures some { 1 ≤ result }
    ensures few { result ≤ 4194304 }
{
    let side = ctb_side(blocks);
    ctbs_in(format.width, side) * ctbs_in(format.height, side)
}
