ghost use Rattle.std.specs.Prelude.{◌≡◌, OnOk};
ghost use Rattle.mv_syntax.specs.Table.{Valid};
ghost use Rattle.mv_syntax.specs.Printed.{printed};
ghost use Rattle.mv_fields.specs.Reading.{ReadsShared};
ghost use Rattle.mv_common.specs.Profile.{profile};

use mv_bits::BitReader;
use mv_fields::{Fault, Limit, Printer, u8_of, u32_of, u64_of};
use std::alloc::AllocError;

/// The 88 bits that describe a profile (7.3.3). Its names have no `general_` or `sub_layer_` prefix.
#[derive(Clone, Copy, Debug, PartialEq, Eq)]
pub struct Profile {
    pub profile_space: u8,
    pub tier_flag: u8,
    pub profile_idc: u8,
    pub compatibility_flags: u32,
    pub progressive_source_flag: u8,
    pub interlaced_source_flag: u8,
    pub non_packed_constraint_flag: u8,
    pub frame_only_constraint_flag: u8,
    pub constraint_43bits: u64,
    pub constraint_last_bit: u8,
}

#[tactic(auto, unfolding(crate::specs::Profile::profile))]
pub(crate) fn profile_of(bits: &mut BitReader) -> Result<Profile, Fault<Limit>>
    ensures { ReadsShared profile bits.old bits.new result }
{
    Ok(Profile {
        profile_space: u8_of(bits, 2)?,
        tier_flag: u8_of(bits, 1)?,
        profile_idc: u8_of(bits, 5)?,
        compatibility_flags: u32_of(bits, 32)?,
        progressive_source_flag: u8_of(bits, 1)?,
        interlaced_source_flag: u8_of(bits, 1)?,
        non_packed_constraint_flag: u8_of(bits, 1)?,
        frame_only_constraint_flag: u8_of(bits, 1)?,
        constraint_43bits: u64_of(bits, 43)?,
        constraint_last_bit: u8_of(bits, 1)?,
    })
}

#[tactic(auto, unfolding(crate::specs::Profile::profile))]
pub(crate) fn print_profile(out: &mut Printer, v: &Profile) -> Result<(), AllocError>
    requires { Valid profile v.now }
    ensures { OnOk result (out.new ≡ printed profile v.now out.old) }
{
    out.u8("profile_space", 2, v.profile_space)?;
    out.flag("tier_flag", v.tier_flag)?;
    out.u8("profile_idc", 5, v.profile_idc)?;
    out.u32("compatibility_flags", 32, v.compatibility_flags)?;
    out.flag("progressive_source_flag", v.progressive_source_flag)?;
    out.flag("interlaced_source_flag", v.interlaced_source_flag)?;
    out.flag("non_packed_constraint_flag", v.non_packed_constraint_flag)?;
    out.flag("frame_only_constraint_flag", v.frame_only_constraint_flag)?;
    out.u64("constraint_43bits", 43, v.constraint_43bits)?;
    out.flag("constraint_last_bit", v.constraint_last_bit)
}
