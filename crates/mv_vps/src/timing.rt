ghost use Rattle.std.specs.Prelude.{◌≡◌, ◌≤◌, OnOk};
ghost use Rattle.mv_syntax.specs.Table.{when, Valid};
ghost use Rattle.mv_syntax.specs.Printed.{printed};
ghost use Rattle.mv_fields.specs.Reading.{ReadsBy};
ghost use Rattle.mv_vps.specs.Timing.{timing};

use crate::hrds::{VpsHrd, print_vps_hrds, vps_hrds_of};
use mv_bits::BitReader;
use mv_fields::{Fault, Printer, u8_of, u32_of, ue_if, ue_within};
use mv_rules::Rule;
use std::alloc::{AllocError, Global};
use std::marker::Model;

/// The units of time, and the hrd_parameters of layer sets.
#[derive(Debug, Drop)]
pub struct VpsTiming {
    pub vps_num_units_in_tick: u32,
    pub vps_time_scale: u32,
    pub vps_poc_proportional_to_timing_flag: u8,
    pub vps_num_ticks_poc_diff_one_minus1: Option<u32>,
    pub vps_num_hrd_parameters: u32,
    pub hrds: Vec<VpsHrd>,
}

impl Model for VpsTiming {
    ghost use Rattle.mv_vps.specs.Timing.{VpsTimingValue};

    ghost Value = { VpsTimingValue };

    ghost view = { λ t. record {
      vps_num_units_in_tick = t.vps_num_units_in_tick;
      vps_time_scale = t.vps_time_scale;
      vps_poc_proportional_to_timing_flag = t.vps_poc_proportional_to_timing_flag;
      vps_num_ticks_poc_diff_one_minus1 = t.vps_num_ticks_poc_diff_one_minus1;
      vps_num_hrd_parameters = t.vps_num_hrd_parameters;
      hrds = t.hrds.items;
    } };
}

#[tactic(auto, unfolding(crate::specs::Timing::timing))]
fn timing_of(alloc: Global, bits: &mut BitReader, subs: u8) -> Result<VpsTiming, Fault<Rule>>
    requires { subs ≤ 6 }
    ensures { ReadsBy (timing subs) bits.old bits.new result }
{
    let vps_num_units_in_tick = u32_of(bits, 32)?;
    let vps_time_scale = u32_of(bits, 32)?;
    let vps_poc_proportional_to_timing_flag = u8_of(bits, 1)?;
    let proportional = vps_poc_proportional_to_timing_flag == 1;
    let vps_num_ticks_poc_diff_one_minus1 = ue_if(bits, proportional)?;
    let vps_num_hrd_parameters = ue_within(bits, Rule::VpsLimit, 1024)?;
    let hrds = vps_hrds_of(alloc, bits, subs, vps_num_hrd_parameters)?;
    Ok(VpsTiming {
        vps_num_units_in_tick,
        vps_time_scale,
        vps_poc_proportional_to_timing_flag,
        vps_num_ticks_poc_diff_one_minus1,
        vps_num_hrd_parameters,
        hrds,
    })
}

pub(crate) fn timing_if(
    alloc: Global,
    bits: &mut BitReader,
    present: bool,
    subs: u8,
) -> Result<Option<VpsTiming>, Fault<Rule>>
    requires { subs ≤ 6 }
    ensures { ReadsBy (when present (timing subs)) bits.old bits.new result }
{
    if !present {
        return Ok(None);
    }
    Ok(Some(timing_of(alloc, bits, subs)?))
}

#[tactic(auto, unfolding(crate::specs::Timing::timing))]
fn print_timing(out: &mut Printer, v: &VpsTiming, subs: u8) -> Result<(), AllocError>
    requires subs { subs ≤ 6 }
    requires valid { Valid (timing subs) v.now }
    ensures { OnOk result (out.new ≡ printed (timing subs) v.now out.old) }
{
    out.u32("vps_num_units_in_tick", 32, v.vps_num_units_in_tick)?;
    out.u32("vps_time_scale", 32, v.vps_time_scale)?;
    out.flag(
        "vps_poc_proportional_to_timing_flag",
        v.vps_poc_proportional_to_timing_flag,
    )?;
    let proportional = v.vps_poc_proportional_to_timing_flag == 1;
    out.ue_if(
        proportional,
        "vps_num_ticks_poc_diff_one_minus1",
        v.vps_num_ticks_poc_diff_one_minus1,
    )?;
    out.ue("vps_num_hrd_parameters", v.vps_num_hrd_parameters)?;
    print_vps_hrds(out, &v.hrds, subs, v.vps_num_hrd_parameters)?;
    Ok(())
}

pub(crate) fn print_timing_if(
    out: &mut Printer,
    present: bool,
    v: &Option<VpsTiming>,
    subs: u8,
) -> Result<(), AllocError>
    requires subs { subs ≤ 6 }
    requires valid { Valid (when present (timing subs)) v.now }
    ensures { OnOk result (out.new ≡ printed (when present (timing subs)) v.now out.old) }
{
    match v {
        Some(v) => print_timing(out, v, subs),
        None => Ok(()),
    }
}
