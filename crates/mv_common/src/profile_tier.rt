ghost use Rattle.std.specs.Prelude.{◌≡◌, ◌<◌, ◌≤◌, ◌++◌, length, slice_index, OnOk, OnErr, option_map};
ghost use Rattle.mv_syntax.specs.Table.{when, Valid, bits_of};
ghost use Rattle.mv_syntax.specs.Words.{over};
ghost use Rattle.mv_syntax.specs.Printed.{printed};
ghost use Rattle.mv_fields.specs.Reading.{AnswersShared, ReadsShared, ReadsSharedAs};
ghost use Rattle.mv_common.specs.Profile.{profile};
ghost use Rattle.mv_common.specs.ProfileTier.{sub_layer_flags, all_sub_layer_flags, reserved_pair, reserved_bits, sub_layer, sub_layers, profile_tier_level};

use crate::profile::{Profile, print_profile, profile_of};
use mv_bits::{BitReader, BitWriter};
use mv_fields::{Fault, Limit, Printer, u8_if, u8_of};
use std::alloc::{AllocError, Global};
use std::marker::Model;

/// The arguments of profile_tier_level (7.3.3): whether the profile is present, and how many sub-layers stand below the
/// highest, at most 6.
#[derive(Clone, Copy, Debug, PartialEq, Eq)]
pub struct ProfileArgs {
    pub present: bool,
    pub subs: u8,
}

/// profile_tier_level (7.3.3): profile, tier and level of the whole and of its sub-layers.
#[derive(Debug, Drop)]
pub struct ProfileTier {
    pub profile: Option<Profile>,
    pub level_idc: u8,
    pub sub_layer_profile_present_flag: Vec<u8>,
    pub sub_layer_level_present_flag: Vec<u8>,
    pub reserved_zero_2bits: Option<Vec<u8>>,
    pub sub_layer_profile: Vec<Option<Profile>>,
    pub sub_layer_level_idc: Vec<Option<u8>>,
}

impl Model for ProfileTier {
    ghost use Rattle.std.specs.Prelude.{option_map};
    ghost use Rattle.mv_common.specs.ProfileTier.{ProfileTierValue};

    ghost Value = { ProfileTierValue };

    ghost view = { λ p. record {
      profile = p.profile;
      level_idc = p.level_idc;
      sub_layer_profile_present_flag = p.sub_layer_profile_present_flag.items;
      sub_layer_level_present_flag = p.sub_layer_level_present_flag.items;
      reserved_zero_2bits = option_map (λ v. v.items) p.reserved_zero_2bits;
      sub_layer_profile = p.sub_layer_profile.items;
      sub_layer_level_idc = p.sub_layer_level_idc.items;
    } };
}

fn profile_if(bits: &mut BitReader, present: bool) -> Result<Option<Profile>, Fault<Limit>>
    ensures { ReadsShared (when present profile) bits.old bits.new result }
{
    if !present {
        return Ok(None);
    }
    Ok(Some(profile_of(bits)?))
}

#[tactic(auto, unfolding(crate::specs::ProfileTier::sub_layer_flags))]
fn sub_layer_flags_of(bits: &mut BitReader, i: u8) -> Result<(u8, u8), Fault<Limit>>
    ensures { ReadsShared (sub_layer_flags i) bits.old bits.new result }
{
    Ok((u8_of(bits, 1)?, u8_of(bits, 1)?))
}

#[tactic(auto, using(mv_syntax::proofs::LoopLaws::column_steps), unfolding(crate::specs::ProfileTier::all_sub_layer_flags))]
fn all_sub_layer_flags_of(
    alloc: Global,
    bits: &mut BitReader,
    subs: u8,
) -> Result<(Vec<u8>, Vec<u8>), Fault<Limit>>
    ensures { ReadsSharedAs (λ v. (v.0.items, v.1.items)) (all_sub_layer_flags subs) bits.old bits.new result }
{
    let mut profile_flags = Vec::new(alloc);
    let mut level_flags = Vec::new(alloc);
    for i in 0..subs {
        let (profile_flag, level_flag) = sub_layer_flags_of(bits, i)?;
        profile_flags.push(profile_flag)?;
        level_flags.push(level_flag)?;
    }
    Ok((profile_flags, level_flags))
}

#[tactic(auto, unfolding(crate::specs::ProfileTier::reserved_pair))]
fn reserved_pair_of(bits: &mut BitReader, i: u8) -> Result<u8, Fault<Limit>>
    ensures { ReadsShared (reserved_pair i) bits.old bits.new result }
{
    Ok(u8_of(bits, 2)?)
}

#[tactic(auto, using(mv_syntax::proofs::LoopLaws::item_steps), unfolding(crate::specs::ProfileTier::reserved_bits))]
fn reserved_bits_of(alloc: Global, bits: &mut BitReader, subs: u8) -> Result<Vec<u8>, Fault<Limit>>
    requires { subs ≤ 8 }
    ensures { ReadsSharedAs (λ v. v.items) (reserved_bits subs) bits.old bits.new result }
{
    let mut reserved = Vec::new(alloc);
    for i in subs..8 {
        reserved.push(reserved_pair_of(bits, i)?)?;
    }
    Ok(reserved)
}

fn reserved_bits_if(
    alloc: Global,
    bits: &mut BitReader,
    subs: u8,
) -> Result<Option<Vec<u8>>, Fault<Limit>>
    requires { subs ≤ 8 }
    ensures { ReadsSharedAs (λ v. option_map (λ w. w.items) v) (when (over 0 subs) (reserved_bits subs)) bits.old bits.new result }
{
    if subs == 0 {
        return Ok(None);
    }
    Ok(Some(reserved_bits_of(alloc, bits, subs)?))
}

#[tactic(auto, unfolding(crate::specs::ProfileTier::sub_layer))]
fn sub_layer_of(
    bits: &mut BitReader,
    profile_flags: &[u8],
    level_flags: &[u8],
    i: usize,
) -> Result<(Option<Profile>, Option<u8>), Fault<Limit>>
    requires profiles { i < length profile_flags.now }
    requires levels { i < length level_flags.now }
    ensures { ReadsShared (sub_layer profile_flags.now level_flags.now i) bits.old bits.new result }
{
    let profile = profile_if(bits, flag_at(profile_flags, i) == 1)?;
    let level_idc = u8_if(bits, flag_at(level_flags, i) == 1, 8)?;
    Ok((profile, level_idc))
}

// The flag at a place.
fn flag_at(flags: &[u8], i: usize) -> u8
    requires { i < length flags.now }
    ensures { result ≡ slice_index flags.now i }
{
    flags[i]
}

#[tactic(auto, using(mv_syntax::proofs::LoopLaws::column_steps), unfolding(crate::specs::ProfileTier::sub_layers))]
fn sub_layers_of(
    alloc: Global,
    bits: &mut BitReader,
    subs: u8,
    profile_flags: &[u8],
    level_flags: &[u8],
) -> Result<(Vec<Option<Profile>>, Vec<Option<u8>>), Fault<Limit>>
    requires profiles { length profile_flags.now ≡ subs }
    requires levels { length level_flags.now ≡ subs }
    ensures { ReadsSharedAs (λ v. (v.0.items, v.1.items)) (sub_layers subs profile_flags.now level_flags.now) bits.old bits.new result }
{
    let mut profiles = Vec::new(alloc);
    let mut levels = Vec::new(alloc);
    for i in 0..usize::from(subs) {
        let (profile, level) = sub_layer_of(bits, profile_flags, level_flags, i)?;
        profiles.push(profile)?;
        levels.push(level)?;
    }
    Ok((profiles, levels))
}

fn print_profile_if(out: &mut Printer, present: bool, v: &Option<Profile>) -> Result<(), AllocError>
    requires { Valid (when present profile) v.now }
    ensures { OnOk result (out.new ≡ printed (when present profile) v.now out.old) }
{
    match v {
        Some(v) => print_profile(out, v),
        None => Ok(()),
    }
}

#[tactic(auto, unfolding(crate::specs::ProfileTier::sub_layer_flags))]
fn print_sub_layer_flags(
    out: &mut Printer,
    profile_flag: u8,
    level_flag: u8,
    i: usize,
) -> Result<(), AllocError>
    requires { Valid (sub_layer_flags i) (profile_flag, level_flag) }
    ensures { OnOk result (out.new ≡ printed (sub_layer_flags i) (profile_flag, level_flag) out.old) }
{
    out.flag("sub_layer_profile_present_flag", profile_flag)?;
    out.flag("sub_layer_level_present_flag", level_flag)
}

#[tactic(auto, using(mv_syntax::proofs::PrintingLoops::print_column_steps), unfolding(crate::specs::ProfileTier::all_sub_layer_flags))]
fn print_all_sub_layer_flags(
    out: &mut Printer,
    profile_flags: &[u8],
    level_flags: &[u8],
    subs: u8,
) -> Result<(), AllocError>
    requires { Valid (all_sub_layer_flags subs) (profile_flags.now, level_flags.now) }
    ensures { OnOk result (out.new ≡ printed (all_sub_layer_flags subs) (profile_flags.now, level_flags.now) out.old) }
{
    for i in 0..profile_flags.len() {
        let outer = out.open(i as u64)?;
        print_sub_layer_flags(out, profile_flags[i], level_flags[i], i)?;
        out.close(outer);
    }
    Ok(())
}

#[tactic(auto, unfolding(crate::specs::ProfileTier::reserved_pair))]
fn print_reserved_pair(out: &mut Printer, i: usize, field: u8) -> Result<(), AllocError>
    requires { Valid (reserved_pair i) field }
    ensures { OnOk result (out.new ≡ printed (reserved_pair i) field out.old) }
{
    out.u8("reserved_zero_2bits", 2, field)
}

#[tactic(auto, using(mv_syntax::proofs::PrintingLoops::print_item_steps), unfolding(crate::specs::ProfileTier::reserved_bits))]
fn print_reserved_bits(out: &mut Printer, reserved: &[u8], subs: u8) -> Result<(), AllocError>
    requires { Valid (reserved_bits subs) reserved.now }
    ensures { OnOk result (out.new ≡ printed (reserved_bits subs) reserved.now out.old) }
{
    for i in 0..reserved.len() {
        let outer = out.open(u64::from(subs) + i as u64)?;
        print_reserved_pair(out, usize::from(subs) + i, reserved[i])?;
        out.close(outer);
    }
    Ok(())
}

fn print_reserved_bits_if(
    out: &mut Printer,
    reserved: &Option<Vec<u8>>,
    subs: u8,
) -> Result<(), AllocError>
    requires { Valid (when (over 0 subs) (reserved_bits subs)) (option_map (λ v. v.items) reserved.now) }
    ensures { OnOk result (out.new ≡ printed (when (over 0 subs) (reserved_bits subs)) (option_map (λ v. v.items) reserved.now) out.old) }
{
    match reserved {
        Some(reserved) => print_reserved_bits(out, reserved, subs),
        None => Ok(()),
    }
}

#[tactic(auto, unfolding(crate::specs::ProfileTier::sub_layer))]
fn print_sub_layer(
    out: &mut Printer,
    v: &Option<Profile>,
    level_idc: Option<u8>,
    profile_flags: &[u8],
    level_flags: &[u8],
    i: usize,
) -> Result<(), AllocError>
    requires profiles { i < length profile_flags.now }
    requires levels { i < length level_flags.now }
    requires valid { Valid (sub_layer profile_flags.now level_flags.now i) (v.now, level_idc) }
    ensures { OnOk result (out.new ≡ printed (sub_layer profile_flags.now level_flags.now i) (v.now, level_idc) out.old) }
{
    print_profile_if(out, flag_at(profile_flags, i) == 1, v)?;
    out.u8_if(
        flag_at(level_flags, i) == 1,
        "sub_layer_level_idc",
        8,
        level_idc,
    )
}

#[tactic(auto, using(mv_syntax::proofs::PrintingLoops::print_column_steps), unfolding(crate::specs::ProfileTier::sub_layers))]
fn print_sub_layers(
    out: &mut Printer,
    profiles: &[Option<Profile>],
    levels: &[Option<u8>],
    subs: u8,
    profile_flags: &[u8],
    level_flags: &[u8],
) -> Result<(), AllocError>
    requires profiles { length profile_flags.now ≡ subs }
    requires levels { length level_flags.now ≡ subs }
    requires valid { Valid (sub_layers subs profile_flags.now level_flags.now) (profiles.now, levels.now) }
    ensures { OnOk result (out.new ≡ printed (sub_layers subs profile_flags.now level_flags.now) (profiles.now, levels.now) out.old) }
{
    for i in 0..profiles.len() {
        let outer = out.open(i as u64)?;
        print_sub_layer(out, &profiles[i], levels[i], profile_flags, level_flags, i)?;
        out.close(outer);
    }
    Ok(())
}

#[tactic(auto, unfolding(crate::specs::ProfileTier::profile_tier_level))]
fn profile_tier_of(
    alloc: Global,
    bits: &mut BitReader,
    present: bool,
    subs: u8,
) -> Result<ProfileTier, Fault<Limit>>
    requires { subs ≤ 6 }
    ensures { ReadsShared (profile_tier_level present subs) bits.old bits.new result }
{
    let profile = profile_if(bits, present)?;
    let level_idc = u8_of(bits, 8)?;
    let (profile_flags, level_flags) = all_sub_layer_flags_of(alloc, bits, subs)?;
    let reserved_zero_2bits = reserved_bits_if(alloc, bits, subs)?;
    let (sub_layer_profile, sub_layer_level_idc) = sub_layers_of(
        alloc,
        bits,
        subs,
        &profile_flags,
        &level_flags,
    )?;
    Ok(ProfileTier {
        profile,
        level_idc,
        sub_layer_profile_present_flag: profile_flags,
        sub_layer_level_present_flag: level_flags,
        reserved_zero_2bits,
        sub_layer_profile,
        sub_layer_level_idc,
    })
}

#[tactic(auto, unfolding(crate::specs::ProfileTier::profile_tier_level))]
fn print_profile_tier(
    out: &mut Printer,
    v: &ProfileTier,
    present: bool,
    subs: u8,
) -> Result<(), AllocError>
    requires { Valid (profile_tier_level present subs) v.now }
    ensures { OnOk result (out.new ≡ printed (profile_tier_level present subs) v.now out.old) }
{
    let profile_flags = &v.sub_layer_profile_present_flag;
    let level_flags = &v.sub_layer_level_present_flag;
    print_profile_if(out, present, &v.profile)?;
    out.u8("level_idc", 8, v.level_idc)?;
    print_all_sub_layer_flags(out, profile_flags, level_flags, subs)?;
    print_reserved_bits_if(out, &v.reserved_zero_2bits, subs)?;
    print_sub_layers(
        out,
        &v.sub_layer_profile,
        &v.sub_layer_level_idc,
        subs,
        profile_flags,
        level_flags,
    )?;
    Ok(())
}

impl ProfileTier {
    /// Reads profile_tier_level (7.3.3).
    ///
    /// `NoBits` where the bits end before or in a field; `Memory` where memory runs out. No field has a limit. After a
    /// fault the reader stands where it stood.
    pub fn read(
        alloc: Global,
        bits: &mut BitReader,
        args: &ProfileArgs,
    ) -> Result<ProfileTier, Fault<Limit>>
        requires { args.now.subs ≤ 6 }
        ensures { AnswersShared (profile_tier_level args.now.present args.now.subs) bits.old bits.new result }
    {
        let mut ahead = bits.fork();
        match profile_tier_of(alloc, &mut ahead, args.present, args.subs) {
            Ok(value) => {
                *bits = ahead;
                Ok(value)
            }
            Err(fault) => Err(fault),
        }
    }

    /// Prints profile_tier_level (7.3.3).
    ///
    /// `AllocError` where memory runs out.
    pub fn print(&self, out: &mut Printer, args: &ProfileArgs) -> Result<(), AllocError>
        requires subs { args.now.subs ≤ 6 }
        requires valid { Valid (profile_tier_level args.now.present args.now.subs) self.now }
        ensures { OnOk result (out.new ≡ printed (profile_tier_level args.now.present args.now.subs) self.now out.old) }
    {
        print_profile_tier(out, self, args.present, args.subs)
    }

    /// Writes profile_tier_level (7.3.3).
    ///
    /// `AllocError` where memory runs out: the writer is then unchanged.
    pub fn write(&self, out: &mut BitWriter, args: &ProfileArgs) -> Result<(), AllocError>
        requires subs { args.now.subs ≤ 6 }
        requires valid { Valid (profile_tier_level args.now.present args.now.subs) self.now }
        ensures ok { OnOk result (out.new ≡ out.old ++ bits_of (profile_tier_level args.now.present args.now.subs) self.now) }
        ensures err { OnErr result (out.new ≡ out.old) }
    {
        let mut own = Printer::beside(out);
        self.print(&mut own, args)?;
        own.append_to(out)
    }
}
