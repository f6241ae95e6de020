//! profile_tier_level (7.3.3) in the extension of a video parameter set, whose limits break its limit rule.

ghost use Rattle.std.specs.Prelude.{◌≡◌, ◌≤◌, false, OnOk};
ghost use Rattle.mv_syntax.specs.Table.{when, Valid};
ghost use Rattle.mv_syntax.specs.Words.{◌under◌};
ghost use Rattle.mv_syntax.specs.Printed.{printed};
ghost use Rattle.mv_fields.specs.Reading.{ReadsBy};
ghost use Rattle.mv_rules.specs.declared.rule.Rule.TheVariants.{VpsLimit};
ghost use Rattle.mv_common.specs.ProfileTier.{profile_tier_level};

use mv_bits::BitReader;
use mv_common::{ProfileArgs, ProfileTier};
use mv_fields::{Fault, Printer, under};
use mv_rules::Rule;
use std::alloc::{AllocError, Global};

/// profile_tier_level (7.3.3), whose general profile is coded where `present`, for `subs` + 1 sub-layers.
///
/// `Breaks` with the limit rule of video parameter sets where a field is past its limit. `NoBits` where the bits end before.
/// `Memory` where memory runs out.
#[tactic(auto, using(mv_fields::proofs::Shared::shared_steps))]
pub fn profile_tier_of(
    alloc: Global,
    bits: &mut BitReader,
    present: bool,
    subs: u8,
) -> Result<ProfileTier, Fault<Rule>>
    requires { subs ≤ 6 }
    ensures { ReadsBy (profile_tier_level present subs under VpsLimit) bits.old bits.new result }
{
    let args = ProfileArgs { present, subs };
    under(Rule::VpsLimit, ProfileTier::read(alloc, bits, &args))
}

pub(crate) fn profile_tier_if(
    alloc: Global,
    bits: &mut BitReader,
    coded: bool,
    subs: u8,
) -> Result<Option<ProfileTier>, Fault<Rule>>
    requires { subs ≤ 6 }
    ensures { ReadsBy (when coded (profile_tier_level false subs under VpsLimit)) bits.old bits.new result }
{
    if !coded {
        return Ok(None);
    }
    Ok(Some(profile_tier_of(alloc, bits, false, subs)?))
}

/// Prints profile_tier_level.
///
/// `AllocError` where memory runs out.
pub fn print_profile_tier(
    out: &mut Printer,
    v: &ProfileTier,
    present: bool,
    subs: u8,
) -> Result<(), AllocError>
    requires subs { subs ≤ 6 }
    requires valid { Valid (profile_tier_level present subs under VpsLimit) v.now }
    ensures { OnOk result (out.new ≡ printed (profile_tier_level present subs under VpsLimit) v.now out.old) }
{
    v.print(out, &ProfileArgs { present, subs })
}

pub(crate) fn print_profile_tier_if(
    out: &mut Printer,
    coded: bool,
    v: &Option<ProfileTier>,
    subs: u8,
) -> Result<(), AllocError>
    requires subs { subs ≤ 6 }
    requires valid { Valid (when coded (profile_tier_level false subs under VpsLimit)) v.now }
    ensures { OnOk result (out.new ≡ printed (when coded (profile_tier_level false subs under VpsLimit)) v.now out.old) }
{
    match v {
        Some(v) => print_profile_tier(out, v, false, subs),
        None => Ok(()),
    }
}
