ghost use Rattle.std.specs.Prelude.{◌≡◌, OnOk};
ghost use Rattle.mv_syntax.specs.Table.{Valid};
ghost use Rattle.mv_syntax.specs.Printed.{printed};
ghost use Rattle.mv_fields.specs.Reading.{ReadsBy};
ghost use Rattle.mv_pps.specs.Opening.{opening};

use mv_bits::BitReader;
use mv_fields::{Fault, Printer, u8_of, ue_within};
use mv_rules::Rule;
use std::alloc::AllocError;

/// The first fields of a picture parameter set: its ids, and what slice segment headers hold.
#[derive(Clone, Copy, Debug, PartialEq, Eq)]
pub struct PpsOpening {
    pub pps_pic_parameter_set_id: u32,
    pub pps_seq_parameter_set_id: u32,
    pub dependent_slice_segments_enabled_flag: u8,
    pub output_flag_present_flag: u8,
    pub num_extra_slice_header_bits: u8,
    pub sign_data_hiding_enabled_flag: u8,
    pub cabac_init_present_flag: u8,
    pub num_ref_idx_l0_default_active_minus1: u32,
    pub num_ref_idx_l1_default_active_minus1: u32,
}

#[tactic(auto, unfolding(crate::specs::Opening::opening))]
pub(crate) fn opening_of(bits: &mut BitReader) -> Result<PpsOpening, Fault<Rule>>
    ensures { ReadsBy opening bits.old bits.new result }
{
    Ok(PpsOpening {
        pps_pic_parameter_set_id: ue_within(bits, Rule::PpsLimit, 63)?,
        pps_seq_parameter_set_id: ue_within(bits, Rule::PpsLimit, 15)?,
        dependent_slice_segments_enabled_flag: u8_of(bits, 1)?,
        output_flag_present_flag: u8_of(bits, 1)?,
        num_extra_slice_header_bits: u8_of(bits, 3)?,
        sign_data_hiding_enabled_flag: u8_of(bits, 1)?,
        cabac_init_present_flag: u8_of(bits, 1)?,
        num_ref_idx_l0_default_active_minus1: ue_within(bits, Rule::PpsLimit, 14)?,
        num_ref_idx_l1_default_active_minus1: ue_within(bits, Rule::PpsLimit, 14)?,
    })
}

#[tactic(auto, unfolding(crate::specs::Opening::opening))]
pub(crate) fn print_opening(out: &mut Printer, v: &PpsOpening) -> Result<(), AllocError>
    requires { Valid opening v.now }
    ensures { OnOk result (out.new ≡ printed opening v.now out.old) }
{
    out.ue("pps_pic_parameter_set_id", v.pps_pic_parameter_set_id)?;
    out.ue("pps_seq_parameter_set_id", v.pps_seq_parameter_set_id)?;
    out.flag(
        "dependent_slice_segments_enabled_flag",
        v.dependent_slice_segments_enabled_flag,
    )?;
    out.flag("output_flag_present_flag", v.output_flag_present_flag)?;
    out.u8(
        "num_extra_slice_header_bits",
        3,
        v.num_extra_slice_header_bits,
    )?;
    out.flag(
        "sign_data_hiding_enabled_flag",
        v.sign_data_hiding_enabled_flag,
    )?;
    out.flag("cabac_init_present_flag", v.cabac_init_present_flag)?;
    out.ue(
        "num_ref_idx_l0_default_active_minus1",
        v.num_ref_idx_l0_default_active_minus1,
    )?;
    out.ue(
        "num_ref_idx_l1_default_active_minus1",
        v.num_ref_idx_l1_default_active_minus1,
    )
}
