ghost use Rattle.std.specs.Prelude.{◌≡◌, ◌≤◌, OnOk, IfOk};
ghost use Rattle.mv_syntax.specs.Table.{Valid};
ghost use Rattle.mv_syntax.specs.Printed.{printed};
ghost use Rattle.mv_fields.specs.Reading.{ReadsBy};
ghost use Rattle.mv_sps.specs.Opening.{is_ext, subs_of, max_sub_layers_minus1, opening};

use crate::shared::{print_profile_tier_if, profile_tier_if};
use mv_bits::BitReader;
use mv_common::ProfileTier;
use mv_fields::{Fault, Printer, u8_if, u8_of, ue_within};
use mv_rules::Rule;
use std::alloc::{AllocError, Global};
use std::marker::Model;

/// The ids of a sequence parameter set, how many sub-layers stand below the highest, and its profile and level.
#[derive(Debug, Drop)]
pub struct SpsOpening {
    pub sps_video_parameter_set_id: u8,
    pub sps_max_sub_layers_minus1: u8,
    pub sps_temporal_id_nesting_flag: Option<u8>,
    pub profile_tier_level: Option<ProfileTier>,
    pub sps_seq_parameter_set_id: u32,
}

impl Model for SpsOpening {
    ghost use Rattle.mv_sps.specs.Opening.{SpsOpeningValue};

    ghost Value = { SpsOpeningValue };

    ghost view = { λ h. record {
      sps_video_parameter_set_id = h.sps_video_parameter_set_id;
      sps_max_sub_layers_minus1 = h.sps_max_sub_layers_minus1;
      sps_temporal_id_nesting_flag = h.sps_temporal_id_nesting_flag;
      profile_tier_level = h.profile_tier_level;
      sps_seq_parameter_set_id = h.sps_seq_parameter_set_id;
    } };
}

/// Whether the fields that the VPS has too are left out.
pub(crate) fn is_ext(layer: u8, sps_max_sub_layers_minus1: u8) -> bool
    ensures { result ≡ is_ext layer sps_max_sub_layers_minus1 }
{
    layer > 0 && sps_max_sub_layers_minus1 == 7
}

/// How many sub-layers stand below the highest.
pub(crate) fn subs_of(layer: u8, vps_sub_layers: u8, sps_max_sub_layers_minus1: u8) -> u8
    ensures { result ≡ subs_of layer vps_sub_layers sps_max_sub_layers_minus1 }
{
    if is_ext(layer, sps_max_sub_layers_minus1) {
        vps_sub_layers
    } else {
        sps_max_sub_layers_minus1
    }
}

/// sps_max_sub_layers_minus1, which breaks the limit rule where it is 7 in layer 0.
fn max_sub_layers_minus1_of(bits: &mut BitReader, layer: u8) -> Result<u8, Fault<Rule>>
    ensures { ReadsBy (max_sub_layers_minus1 layer) bits.old bits.new result }
{
    let value = u8_of(bits, 3)?;
    if layer == 0 && value == 7 {
        return Err(Fault::Breaks(Rule::SpsLimit));
    }
    Ok(value)
}

/// The same, by which at most 6 sub-layers stand below the highest.
fn few_sub_layers_of(bits: &mut BitReader, layer: u8, vps_sub_layers: u8) -> Result<u8, Fault<Rule>>
    requires { vps_sub_layers ≤ 6 }
    ensures fills { ReadsBy (max_sub_layers_minus1 layer) bits.old bits.new result }
    ensures few { IfOk result (λ n. subs_of layer vps_sub_layers n ≤ 6) }
{
    max_sub_layers_minus1_of(bits, layer)
}

#[tactic(auto, unfolding(crate::specs::Opening::opening))]
pub(crate) fn opening_of(
    alloc: Global,
    bits: &mut BitReader,
    layer: u8,
    vps_sub_layers: u8,
) -> Result<SpsOpening, Fault<Rule>>
    requires { vps_sub_layers ≤ 6 }
    ensures fills { ReadsBy (opening layer vps_sub_layers) bits.old bits.new result }
    ensures few { IfOk result (λ v. subs_of layer vps_sub_layers v.sps_max_sub_layers_minus1 ≤ 6) }
{
    let sps_video_parameter_set_id = u8_of(bits, 4)?;
    let sps_max_sub_layers_minus1 = few_sub_layers_of(bits, layer, vps_sub_layers)?;
    let ext = is_ext(layer, sps_max_sub_layers_minus1);
    let subs = subs_of(layer, vps_sub_layers, sps_max_sub_layers_minus1);
    let sps_temporal_id_nesting_flag = u8_if(bits, !ext, 1)?;
    let profile_tier_level = profile_tier_if(alloc, bits, !ext, subs)?;
    let sps_seq_parameter_set_id = ue_within(bits, Rule::SpsLimit, 15)?;
    Ok(SpsOpening {
        sps_video_parameter_set_id,
        sps_max_sub_layers_minus1,
        sps_temporal_id_nesting_flag,
        profile_tier_level,
        sps_seq_parameter_set_id,
    })
}

#[tactic(auto, unfolding(crate::specs::Opening::opening))]
pub(crate) fn print_opening(
    out: &mut Printer,
    v: &SpsOpening,
    layer: u8,
    vps_sub_layers: u8,
) -> Result<(), AllocError>
    requires few { subs_of layer vps_sub_layers v.now.sps_max_sub_layers_minus1 ≤ 6 }
    requires valid { Valid (opening layer vps_sub_layers) v.now }
    ensures { OnOk result (out.new ≡ printed (opening layer vps_sub_layers) v.now out.old) }
{
    let ext = is_ext(layer, v.sps_max_sub_layers_minus1);
    let subs = subs_of(layer, vps_sub_layers, v.sps_max_sub_layers_minus1);
    out.u8(
        "sps_video_parameter_set_id",
        4,
        v.sps_video_parameter_set_id,
    )?;
    out.u8("sps_max_sub_layers_minus1", 3, v.sps_max_sub_layers_minus1)?;
    out.flag_if(
        !ext,
        "sps_temporal_id_nesting_flag",
        v.sps_temporal_id_nesting_flag,
    )?;
    print_profile_tier_if(out, !ext, &v.profile_tier_level, subs)?;
    out.ue("sps_seq_parameter_set_id", v.sps_seq_parameter_set_id)?;
    Ok(())
}
