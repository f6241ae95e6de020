ghost use Rattle.std.specs.Prelude.{◌≡◌, ◌≤◌, OnOk};
ghost use Rattle.mv_syntax.specs.Table.{Valid};
ghost use Rattle.mv_syntax.specs.Printed.{printed};
ghost use Rattle.mv_fields.specs.Reading.{ReadsBy, ReadsAs};
ghost use Rattle.mv_common.specs.ProfileTier.{profile_tier_level};
ghost use Rattle.mv_vpsext.specs.Profiles.{vps_profile, vps_profiles, profiles};

use mv_bits::BitReader;
use mv_common::ProfileTier;
use mv_fields::{Fault, Printer, u8_of, ue_within};
use mv_rules::Rule;
use mv_vpslayers::{print_profile_tier, profile_tier_of};
use std::alloc::{AllocError, Global};
use std::marker::Model;

/// A profile, tier and level for layers of output layer sets.
#[derive(Debug, Drop)]
pub struct VpsProfile {
    pub vps_profile_present_flag: u8,
    pub profile_tier_level: ProfileTier,
}

impl Model for VpsProfile {
    ghost use Rattle.mv_vpsext.specs.Profiles.{VpsProfileValue};

    ghost Value = { VpsProfileValue };

    ghost view = { λ p. record {
      vps_profile_present_flag = p.vps_profile_present_flag;
      profile_tier_level = p.profile_tier_level;
    } };
}

/// The profiles, tiers and levels for layers of output layer sets.
#[derive(Debug, Drop)]
pub struct VpsProfiles {
    pub vps_num_profile_tier_level_minus1: u32,
    /// Those of index 2 on: the first is the video parameter set's, the second that at the head of the extension.
    pub profiles: Vec<VpsProfile>,
}

impl Model for VpsProfiles {
    ghost use Rattle.mv_vpsext.specs.Profiles.{VpsProfilesValue};

    ghost Value = { VpsProfilesValue };

    ghost view = { λ p. record {
      vps_num_profile_tier_level_minus1 = p.vps_num_profile_tier_level_minus1;
      profiles = p.profiles.items;
    } };
}

#[tactic(auto, unfolding(crate::specs::Profiles::vps_profile))]
fn vps_profile_of(
    alloc: Global,
    bits: &mut BitReader,
    vps_max_sub_layers_minus1: u8,
    i: u32,
) -> Result<VpsProfile, Fault<Rule>>
    requires { vps_max_sub_layers_minus1 ≤ 6 }
    ensures { ReadsBy (vps_profile vps_max_sub_layers_minus1 i) bits.old bits.new result }
{
    let vps_profile_present_flag = u8_of(bits, 1)?;
    let present = vps_profile_present_flag == 1;
    let profile_tier_level = profile_tier_of(alloc, bits, present, vps_max_sub_layers_minus1)?;
    Ok(VpsProfile {
        vps_profile_present_flag,
        profile_tier_level,
    })
}

#[tactic(auto, using(mv_syntax::proofs::LoopLaws::item_steps), unfolding(crate::specs::Profiles::vps_profiles))]
fn vps_profiles_of(
    alloc: Global,
    bits: &mut BitReader,
    vps_max_sub_layers_minus1: u8,
    vps_num_profile_tier_level_minus1: u32,
) -> Result<Vec<VpsProfile>, Fault<Rule>>
    requires subs { vps_max_sub_layers_minus1 ≤ 6 }
    requires profiles { vps_num_profile_tier_level_minus1 ≤ 63 }
    ensures { ReadsAs (λ v. v.items) (vps_profiles vps_max_sub_layers_minus1 vps_num_profile_tier_level_minus1) bits.old bits.new result }
{
    let end = vps_num_profile_tier_level_minus1 + 1;
    let mut all = Vec::new(alloc);
    for i in 2..end {
        all.push(vps_profile_of(alloc, bits, vps_max_sub_layers_minus1, i)?)?;
    }
    Ok(all)
}

#[tactic(auto, unfolding(crate::specs::Profiles::profiles))]
pub(crate) fn profiles_of(
    alloc: Global,
    bits: &mut BitReader,
    vps_max_sub_layers_minus1: u8,
) -> Result<VpsProfiles, Fault<Rule>>
    requires { vps_max_sub_layers_minus1 ≤ 6 }
    ensures { ReadsBy (profiles vps_max_sub_layers_minus1) bits.old bits.new result }
{
    let vps_num_profile_tier_level_minus1 = ue_within(bits, Rule::VpsLimit, 63)?;
    let profiles = vps_profiles_of(
        alloc,
        bits,
        vps_max_sub_layers_minus1,
        vps_num_profile_tier_level_minus1,
    )?;
    Ok(VpsProfiles {
        vps_num_profile_tier_level_minus1,
        profiles,
    })
}

#[tactic(auto, unfolding(crate::specs::Profiles::vps_profile))]
fn print_vps_profile(
    out: &mut Printer,
    v: &VpsProfile,
    vps_max_sub_layers_minus1: u8,
    i: usize,
) -> Result<(), AllocError>
    requires subs { vps_max_sub_layers_minus1 ≤ 6 }
    requires valid { Valid (vps_profile vps_max_sub_layers_minus1 i) v.now }
    ensures { OnOk result (out.new ≡ printed (vps_profile vps_max_sub_layers_minus1 i) v.now out.old) }
{
    let present = v.vps_profile_present_flag == 1;
    out.flag("vps_profile_present_flag", v.vps_profile_present_flag)?;
    print_profile_tier(
        out,
        &v.profile_tier_level,
        present,
        vps_max_sub_layers_minus1,
    )?;
    Ok(())
}

#[tactic(auto, using(mv_syntax::proofs::PrintingLoops::print_item_steps), unfolding(crate::specs::Profiles::vps_profiles))]
fn print_vps_profiles(
    out: &mut Printer,
    all: &[VpsProfile],
    vps_max_sub_layers_minus1: u8,
    vps_num_profile_tier_level_minus1: u32,
) -> Result<(), AllocError>
    requires subs { vps_max_sub_layers_minus1 ≤ 6 }
    requires valid { Valid (vps_profiles vps_max_sub_layers_minus1 vps_num_profile_tier_level_minus1) all.now }
    requires profiles { vps_num_profile_tier_level_minus1 ≤ 63 }
    ensures { OnOk result (out.new ≡ printed (vps_profiles vps_max_sub_layers_minus1 vps_num_profile_tier_level_minus1) all.now out.old) }
{
    for k in 0..all.len() {
        let outer = out.open(k as u64 + 2)?;
        print_vps_profile(out, &all[k], vps_max_sub_layers_minus1, k + 2)?;
        out.close(outer);
    }
    Ok(())
}

#[tactic(auto, unfolding(crate::specs::Profiles::profiles))]
pub(crate) fn print_profiles(
    out: &mut Printer,
    v: &VpsProfiles,
    vps_max_sub_layers_minus1: u8,
) -> Result<(), AllocError>
    requires subs { vps_max_sub_layers_minus1 ≤ 6 }
    requires valid { Valid (profiles vps_max_sub_layers_minus1) v.now }
    ensures { OnOk result (out.new ≡ printed (profiles vps_max_sub_layers_minus1) v.now out.old) }
{
    out.ue(
        "vps_num_profile_tier_level_minus1",
        v.vps_num_profile_tier_level_minus1,
    )?;
    print_vps_profiles(
        out,
        &v.profiles,
        vps_max_sub_layers_minus1,
        v.vps_num_profile_tier_level_minus1,
    )?;
    Ok(())
}
