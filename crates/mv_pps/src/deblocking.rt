ghost use Rattle.std.specs.Prelude.{◌≡◌, OnOk};
ghost use Rattle.mv_syntax.specs.Table.{Valid};
ghost use Rattle.mv_syntax.specs.Printed.{printed};
ghost use Rattle.mv_fields.specs.Reading.{ReadsBy};
ghost use Rattle.mv_pps.specs.Deblocking.{deblocking};

use mv_bits::BitReader;
use mv_fields::{Fault, Printer, coded_set, se_if, u8_if, u8_of};
use mv_rules::Rule;
use std::alloc::AllocError;

/// The deblocking filter in a picture parameter set.
#[derive(Clone, Copy, Debug, PartialEq, Eq)]
pub struct PpsDeblocking {
    pub deblocking_filter_control_present_flag: u8,
    pub deblocking_filter_override_enabled_flag: Option<u8>,
    pub pps_deblocking_filter_disabled_flag: Option<u8>,
    pub pps_beta_offset_div2: Option<i32>,
    pub pps_tc_offset_div2: Option<i32>,
}

#[tactic(auto, unfolding(crate::specs::Deblocking::deblocking))]
pub(crate) fn deblocking_of(bits: &mut BitReader) -> Result<PpsDeblocking, Fault<Rule>>
    ensures { ReadsBy deblocking bits.old bits.new result }
{
    let deblocking_filter_control_present_flag = u8_of(bits, 1)?;
    let control = deblocking_filter_control_present_flag == 1;
    let deblocking_filter_override_enabled_flag = u8_if(bits, control, 1)?;
    let pps_deblocking_filter_disabled_flag = u8_if(bits, control, 1)?;
    let offsets = control && !coded_set(pps_deblocking_filter_disabled_flag);
    Ok(PpsDeblocking {
        deblocking_filter_control_present_flag,
        deblocking_filter_override_enabled_flag,
        pps_deblocking_filter_disabled_flag,
        pps_beta_offset_div2: se_if(bits, offsets)?,
        pps_tc_offset_div2: se_if(bits, offsets)?,
    })
}

#[tactic(auto, unfolding(crate::specs::Deblocking::deblocking))]
pub(crate) fn print_deblocking(out: &mut Printer, v: &PpsDeblocking) -> Result<(), AllocError>
    requires { Valid deblocking v.now }
    ensures { OnOk result (out.new ≡ printed deblocking v.now out.old) }
{
    let control = v.deblocking_filter_control_present_flag == 1;
    let offsets = control && !coded_set(v.pps_deblocking_filter_disabled_flag);
    out.flag(
        "deblocking_filter_control_present_flag",
        v.deblocking_filter_control_present_flag,
    )?;
    out.flag_if(
        control,
        "deblocking_filter_override_enabled_flag",
        v.deblocking_filter_override_enabled_flag,
    )?;
    out.flag_if(
        control,
        "pps_deblocking_filter_disabled_flag",
        v.pps_deblocking_filter_disabled_flag,
    )?;
    out.se_if(offsets, "pps_beta_offset_div2", v.pps_beta_offset_div2)?;
    out.se_if(offsets, "pps_tc_offset_div2", v.pps_tc_offset_div2)
}
