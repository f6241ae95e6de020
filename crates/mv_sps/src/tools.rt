ghost use Rattle.std.specs.Prelude.{◌≡◌, OnOk};
ghost use Rattle.mv_syntax.specs.Table.{Valid};
ghost use Rattle.mv_syntax.specs.Printed.{printed};
ghost use Rattle.mv_fields.specs.Reading.{ReadsBy};
ghost use Rattle.mv_sps.specs.Tools.{tools};

use mv_bits::BitReader;
use mv_fields::{Fault, Printer, u8_if, u8_of, ue_if};
use mv_rules::Rule;
use std::alloc::AllocError;

/// Which coding tools are on: asymmetric partitions, sample adaptive offset, and samples coded as they are (PCM).
#[derive(Clone, Copy, Debug, PartialEq, Eq)]
pub struct SpsTools {
    pub amp_enabled_flag: u8,
    pub sample_adaptive_offset_enabled_flag: u8,
    pub pcm_enabled_flag: u8,
    pub pcm_sample_bit_depth_luma_minus1: Option<u8>,
    pub pcm_sample_bit_depth_chroma_minus1: Option<u8>,
    pub log2_min_pcm_luma_coding_block_size_minus3: Option<u32>,
    pub log2_diff_max_min_pcm_luma_coding_block_size: Option<u32>,
    pub pcm_loop_filter_disabled_flag: Option<u8>,
}

#[tactic(auto, unfolding(crate::specs::Tools::tools))]
pub(crate) fn tools_of(bits: &mut BitReader) -> Result<SpsTools, Fault<Rule>>
    ensures { ReadsBy tools bits.old bits.new result }
{
    let amp_enabled_flag = u8_of(bits, 1)?;
    let sample_adaptive_offset_enabled_flag = u8_of(bits, 1)?;
    let pcm_enabled_flag = u8_of(bits, 1)?;
    let pcm = pcm_enabled_flag == 1;
    let pcm_sample_bit_depth_luma_minus1 = u8_if(bits, pcm, 4)?;
    let pcm_sample_bit_depth_chroma_minus1 = u8_if(bits, pcm, 4)?;
    let log2_min_pcm_luma_coding_block_size_minus3 = ue_if(bits, pcm)?;
    let log2_diff_max_min_pcm_luma_coding_block_size = ue_if(bits, pcm)?;
    let pcm_loop_filter_disabled_flag = u8_if(bits, pcm, 1)?;
    Ok(SpsTools {
        amp_enabled_flag,
        sample_adaptive_offset_enabled_flag,
        pcm_enabled_flag,
        pcm_sample_bit_depth_luma_minus1,
        pcm_sample_bit_depth_chroma_minus1,
        log2_min_pcm_luma_coding_block_size_minus3,
        log2_diff_max_min_pcm_luma_coding_block_size,
        pcm_loop_filter_disabled_flag,
    })
}

#[tactic(auto, unfolding(crate::specs::Tools::tools))]
pub(crate) fn print_tools(out: &mut Printer, v: &SpsTools) -> Result<(), AllocError>
    requires { Valid tools v.now }
    ensures { OnOk result (out.new ≡ printed tools v.now out.old) }
{
    let pcm = v.pcm_enabled_flag == 1;
    out.flag("amp_enabled_flag", v.amp_enabled_flag)?;
    out.flag(
        "sample_adaptive_offset_enabled_flag",
        v.sample_adaptive_offset_enabled_flag,
    )?;
    out.flag("pcm_enabled_flag", v.pcm_enabled_flag)?;
    out.u8_if(
        pcm,
        "pcm_sample_bit_depth_luma_minus1",
        4,
        v.pcm_sample_bit_depth_luma_minus1,
    )?;
    out.u8_if(
        pcm,
        "pcm_sample_bit_depth_chroma_minus1",
        4,
        v.pcm_sample_bit_depth_chroma_minus1,
    )?;
    out.ue_if(
        pcm,
        "log2_min_pcm_luma_coding_block_size_minus3",
        v.log2_min_pcm_luma_coding_block_size_minus3,
    )?;
    out.ue_if(
        pcm,
        "log2_diff_max_min_pcm_luma_coding_block_size",
        v.log2_diff_max_min_pcm_luma_coding_block_size,
    )?;
    out.flag_if(
        pcm,
        "pcm_loop_filter_disabled_flag",
        v.pcm_loop_filter_disabled_flag,
    )
}
