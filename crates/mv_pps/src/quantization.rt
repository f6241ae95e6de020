ghost use Rattle.std.specs.Prelude.{◌≡◌, OnOk};
ghost use Rattle.mv_syntax.specs.Table.{Valid};
ghost use Rattle.mv_syntax.specs.Printed.{printed};
ghost use Rattle.mv_fields.specs.Reading.{ReadsBy};
ghost use Rattle.mv_pps.specs.Quantization.{quantization};

use mv_bits::BitReader;
use mv_fields::{Fault, Printer, u8_of, ue_if};
use mv_rules::Rule;
use std::alloc::AllocError;

/// The fields of a picture parameter set on residuals and their quantization.
#[derive(Clone, Copy, Debug, PartialEq, Eq)]
pub struct PpsQuantization {
    pub init_qp_minus26: i32,
    pub constrained_intra_pred_flag: u8,
    pub transform_skip_enabled_flag: u8,
    pub cu_qp_delta_enabled_flag: u8,
    pub diff_cu_qp_delta_depth: Option<u32>,
    pub pps_cb_qp_offset: i32,
    pub pps_cr_qp_offset: i32,
    pub pps_slice_chroma_qp_offsets_present_flag: u8,
}

#[tactic(auto, unfolding(crate::specs::Quantization::quantization))]
pub(crate) fn quantization_of(bits: &mut BitReader) -> Result<PpsQuantization, Fault<Rule>>
    ensures { ReadsBy quantization bits.old bits.new result }
{
    let init_qp_minus26 = bits.se()?;
    let constrained_intra_pred_flag = u8_of(bits, 1)?;
    let transform_skip_enabled_flag = u8_of(bits, 1)?;
    let cu_qp_delta_enabled_flag = u8_of(bits, 1)?;
    Ok(PpsQuantization {
        init_qp_minus26,
        constrained_intra_pred_flag,
        transform_skip_enabled_flag,
        cu_qp_delta_enabled_flag,
        diff_cu_qp_delta_depth: ue_if(bits, cu_qp_delta_enabled_flag == 1)?,
        pps_cb_qp_offset: bits.se()?,
        pps_cr_qp_offset: bits.se()?,
        pps_slice_chroma_qp_offsets_present_flag: u8_of(bits, 1)?,
    })
}

#[tactic(auto, unfolding(crate::specs::Quantization::quantization))]
pub(crate) fn print_quantization(out: &mut Printer, v: &PpsQuantization) -> Result<(), AllocError>
    requires { Valid quantization v.now }
    ensures { OnOk result (out.new ≡ printed quantization v.now out.old) }
{
    out.se("init_qp_minus26", v.init_qp_minus26)?;
    out.flag("constrained_intra_pred_flag", v.constrained_intra_pred_flag)?;
    out.flag("transform_skip_enabled_flag", v.transform_skip_enabled_flag)?;
    out.flag("cu_qp_delta_enabled_flag", v.cu_qp_delta_enabled_flag)?;
    out.ue_if(
        v.cu_qp_delta_enabled_flag == 1,
        "diff_cu_qp_delta_depth",
        v.diff_cu_qp_delta_depth,
    )?;
    out.se("pps_cb_qp_offset", v.pps_cb_qp_offset)?;
    out.se("pps_cr_qp_offset", v.pps_cr_qp_offset)?;
    out.flag(
        "pps_slice_chroma_qp_offsets_present_flag",
        v.pps_slice_chroma_qp_offsets_present_flag,
    )?;
    Ok(())
}
