ghost use Rattle.std.specs.Prelude.{◌≡◌, ◌≤◌, OnOk, IfOk};
ghost use Rattle.mv_syntax.specs.Table.{Valid};
ghost use Rattle.mv_syntax.specs.Printed.{printed};
ghost use Rattle.mv_fields.specs.Reading.{ReadsBy};
ghost use Rattle.mv_vps.specs.Opening.{opening};

use crate::fields::{base_flag, u8_except};
use mv_bits::BitReader;
use mv_common::ProfileTier;
use mv_fields::{Fault, Printer, u8_of, u16_of};
use mv_rules::Rule;
use mv_vpslayers::{print_profile_tier, profile_tier_of};
use std::alloc::{AllocError, Global};
use std::marker::Model;

/// The first fields of a video parameter set: its id, how many layers and sub-layers there are, and the profile of layer 0.
#[derive(Debug, Drop)]
pub struct VpsOpening {
    pub vps_video_parameter_set_id: u8,
    pub vps_base_layer_internal_flag: u8,
    pub vps_base_layer_available_flag: u8,
    pub vps_max_layers_minus1: u8,
    pub vps_max_sub_layers_minus1: u8,
    pub vps_temporal_id_nesting_flag: u8,
    pub vps_reserved_0xffff_16bits: u16,
    pub profile_tier_level: ProfileTier,
}

impl Model for VpsOpening {
    ghost use Rattle.mv_vps.specs.Opening.{VpsOpeningValue};

    ghost Value = { VpsOpeningValue };

    ghost view = { λ h. record {
      vps_video_parameter_set_id = h.vps_video_parameter_set_id;
      vps_base_layer_internal_flag = h.vps_base_layer_internal_flag;
      vps_base_layer_available_flag = h.vps_base_layer_available_flag;
      vps_max_layers_minus1 = h.vps_max_layers_minus1;
      vps_max_sub_layers_minus1 = h.vps_max_sub_layers_minus1;
      vps_temporal_id_nesting_flag = h.vps_temporal_id_nesting_flag;
      vps_reserved_0xffff_16bits = h.vps_reserved_0xffff_16bits;
      profile_tier_level = h.profile_tier_level;
    } };
}

#[tactic(auto, unfolding(crate::specs::Opening::opening))]
pub(crate) fn opening_of(alloc: Global, bits: &mut BitReader) -> Result<VpsOpening, Fault<Rule>>
    ensures fills { ReadsBy opening bits.old bits.new result }
    ensures few { IfOk result (λ v. v.vps_max_sub_layers_minus1 ≤ 6) }
{
    let vps_video_parameter_set_id = u8_of(bits, 4)?;
    let vps_base_layer_internal_flag = base_flag(bits)?;
    let vps_base_layer_available_flag = base_flag(bits)?;
    let vps_max_layers_minus1 = u8_except(bits, 6, 63)?;
    let vps_max_sub_layers_minus1 = u8_except(bits, 3, 7)?;
    let vps_temporal_id_nesting_flag = u8_of(bits, 1)?;
    let vps_reserved_0xffff_16bits = u16_of(bits, 16)?;
    let profile_tier_level = profile_tier_of(alloc, bits, true, vps_max_sub_layers_minus1)?;
    Ok(VpsOpening {
        vps_video_parameter_set_id,
        vps_base_layer_internal_flag,
        vps_base_layer_available_flag,
        vps_max_layers_minus1,
        vps_max_sub_layers_minus1,
        vps_temporal_id_nesting_flag,
        vps_reserved_0xffff_16bits,
        profile_tier_level,
    })
}

#[tactic(auto, unfolding(crate::specs::Opening::opening))]
pub(crate) fn print_opening(out: &mut Printer, v: &VpsOpening) -> Result<(), AllocError>
    requires few { v.now.vps_max_sub_layers_minus1 ≤ 6 }
    requires valid { Valid opening v.now }
    ensures { OnOk result (out.new ≡ printed opening v.now out.old) }
{
    out.u8(
        "vps_video_parameter_set_id",
        4,
        v.vps_video_parameter_set_id,
    )?;
    out.flag(
        "vps_base_layer_internal_flag",
        v.vps_base_layer_internal_flag,
    )?;
    out.flag(
        "vps_base_layer_available_flag",
        v.vps_base_layer_available_flag,
    )?;
    out.u8("vps_max_layers_minus1", 6, v.vps_max_layers_minus1)?;
    out.u8("vps_max_sub_layers_minus1", 3, v.vps_max_sub_layers_minus1)?;
    out.flag(
        "vps_temporal_id_nesting_flag",
        v.vps_temporal_id_nesting_flag,
    )?;
    out.u16(
        "vps_reserved_0xffff_16bits",
        16,
        v.vps_reserved_0xffff_16bits,
    )?;
    print_profile_tier(
        out,
        &v.profile_tier_level,
        true,
        v.vps_max_sub_layers_minus1,
    )?;
    Ok(())
}
