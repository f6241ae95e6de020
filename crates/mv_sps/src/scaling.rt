ghost use Rattle.std.specs.Prelude.{◌≡◌, OnOk};
ghost use Rattle.mv_syntax.specs.Table.{Valid};
ghost use Rattle.mv_syntax.specs.Printed.{printed};
ghost use Rattle.mv_fields.specs.Reading.{ReadsBy};
ghost use Rattle.mv_sps.specs.Scaling.{scaling};

use mv_bits::BitReader;
use mv_common::{ScalingLists, print_scaling_lists_if, scaling_lists_if};
use mv_fields::{Fault, Printer, coded_set, u8_if, u8_of};
use mv_rules::Rule;
use std::alloc::{AllocError, Global};
use std::marker::Model;

/// The scaling lists: those of another layer, own ones, or the default ones.
#[derive(Debug, Drop)]
pub struct SpsScaling {
    pub scaling_list_enabled_flag: u8,
    pub sps_infer_scaling_list_flag: Option<u8>,
    pub sps_scaling_list_ref_layer_id: Option<u8>,
    pub sps_scaling_list_data_present_flag: Option<u8>,
    pub scaling_list_data: Option<ScalingLists>,
}

impl Model for SpsScaling {
    ghost use Rattle.mv_sps.specs.Scaling.{SpsScalingValue};

    ghost Value = { SpsScalingValue };

    ghost view = { λ s. record {
      scaling_list_enabled_flag = s.scaling_list_enabled_flag;
      sps_infer_scaling_list_flag = s.sps_infer_scaling_list_flag;
      sps_scaling_list_ref_layer_id = s.sps_scaling_list_ref_layer_id;
      sps_scaling_list_data_present_flag = s.sps_scaling_list_data_present_flag;
      scaling_list_data = s.scaling_list_data;
    } };
}

#[tactic(auto, unfolding(crate::specs::Scaling::scaling))]
pub(crate) fn scaling_of(
    alloc: Global,
    bits: &mut BitReader,
    ext: bool,
) -> Result<SpsScaling, Fault<Rule>>
    ensures { ReadsBy (scaling ext) bits.old bits.new result }
{
    let scaling_list_enabled_flag = u8_of(bits, 1)?;
    let enabled = scaling_list_enabled_flag == 1;
    let sps_infer_scaling_list_flag = u8_if(bits, enabled && ext, 1)?;
    let infer = coded_set(sps_infer_scaling_list_flag);
    let sps_scaling_list_ref_layer_id = u8_if(bits, infer, 6)?;
    let sps_scaling_list_data_present_flag = u8_if(bits, enabled && !infer, 1)?;
    let scaling_list_data = scaling_lists_if(
        alloc,
        bits,
        coded_set(sps_scaling_list_data_present_flag),
        Rule::SpsLimit,
    )?;
    Ok(SpsScaling {
        scaling_list_enabled_flag,
        sps_infer_scaling_list_flag,
        sps_scaling_list_ref_layer_id,
        sps_scaling_list_data_present_flag,
        scaling_list_data,
    })
}

#[tactic(auto, unfolding(crate::specs::Scaling::scaling))]
pub(crate) fn print_scaling(out: &mut Printer, v: &SpsScaling, ext: bool) -> Result<(), AllocError>
    requires { Valid (scaling ext) v.now }
    ensures { OnOk result (out.new ≡ printed (scaling ext) v.now out.old) }
{
    let enabled = v.scaling_list_enabled_flag == 1;
    let infer = coded_set(v.sps_infer_scaling_list_flag);
    let present = coded_set(v.sps_scaling_list_data_present_flag);
    out.flag("scaling_list_enabled_flag", v.scaling_list_enabled_flag)?;
    out.flag_if(
        enabled && ext,
        "sps_infer_scaling_list_flag",
        v.sps_infer_scaling_list_flag,
    )?;
    out.u8_if(
        infer,
        "sps_scaling_list_ref_layer_id",
        6,
        v.sps_scaling_list_ref_layer_id,
    )?;
    out.flag_if(
        enabled && !infer,
        "sps_scaling_list_data_present_flag",
        v.sps_scaling_list_data_present_flag,
    )?;
    print_scaling_lists_if(out, present, &v.scaling_list_data, Rule::SpsLimit)?;
    Ok(())
}
