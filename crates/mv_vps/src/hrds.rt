//! The hrd_parameters of layer sets (7.3.2.1, E.2.2). One without a first group of its own has that of the one before.

ghost use Rattle.std.specs.Prelude.{◌≡◌, ◌≤◌, OnOk};
ghost use Rattle.mv_syntax.specs.Table.{Valid};
ghost use Rattle.mv_syntax.specs.Words.{is_set, ◌otherwise◌};
ghost use Rattle.mv_syntax.specs.Printed.{printed};
ghost use Rattle.mv_fields.specs.Reading.{ReadsBy, ReadsAs};
ghost use Rattle.mv_common.specs.Hrd.{in_force};
ghost use Rattle.mv_vps.specs.Timing.{vps_hrd, vps_hrds};

use crate::shared::{hrd_of, print_hrd};
use mv_bits::BitReader;
use mv_common::{Hrd, HrdFlags, flags_in_force};
use mv_fields::{Fault, Printer, u8_if};
use mv_rules::Rule;
use std::alloc::{AllocError, Global};
use std::marker::Model;

/// The hrd_parameters of a layer set.
#[derive(Debug, Drop)]
pub struct VpsHrd {
    pub hrd_layer_set_idx: u32,
    /// Not coded for the first, which has a first group.
    pub cprms_present_flag: Option<u8>,
    pub hrd_parameters: Hrd,
}

impl Model for VpsHrd {
    ghost use Rattle.mv_vps.specs.Timing.{VpsHrdValue};

    ghost Value = { VpsHrdValue };

    ghost view = { λ h. record {
      hrd_layer_set_idx = h.hrd_layer_set_idx;
      cprms_present_flag = h.cprms_present_flag;
      hrd_parameters = h.hrd_parameters;
    } };
}

/// No first group was coded yet.
const NO_FLAGS: HrdFlags = HrdFlags {
    nal: false,
    vcl: false,
    sub_pic: false,
};

// Whether the first group is coded: where the flag is left out it is 1.
fn has_common(cprms_present_flag: Option<u8>) -> bool
    ensures { result ≡ is_set (cprms_present_flag otherwise 1) }
{
    cprms_present_flag.unwrap_or(1) == 1
}

#[tactic(auto, unfolding(crate::specs::Timing::vps_hrd))]
fn vps_hrd_of(
    alloc: Global,
    bits: &mut BitReader,
    subs: u8,
    before: HrdFlags,
    i: u32,
) -> Result<VpsHrd, Fault<Rule>>
    requires { subs ≤ 6 }
    ensures { ReadsBy (vps_hrd subs before i) bits.old bits.new result }
{
    let hrd_layer_set_idx = bits.ue()?;
    let cprms_present_flag = u8_if(bits, i > 0, 1)?;
    let hrd_parameters = hrd_of(alloc, bits, has_common(cprms_present_flag), subs, before)?;
    Ok(VpsHrd {
        hrd_layer_set_idx,
        cprms_present_flag,
        hrd_parameters,
    })
}

// The flags of the first group in force behind these hrd_parameters.
fn flags_after(hrd: &VpsHrd, before: HrdFlags) -> HrdFlags
    ensures { result ≡ in_force hrd.now.hrd_parameters.common before }
{
    flags_in_force(&hrd.hrd_parameters.common, before)
}

#[tactic(auto, using(crate::proofs::HrdSteps::hrd_steps))]
pub(crate) fn vps_hrds_of(
    alloc: Global,
    bits: &mut BitReader,
    subs: u8,
    n: u32,
) -> Result<Vec<VpsHrd>, Fault<Rule>>
    requires { subs ≤ 6 }
    ensures { ReadsAs (λ v. v.items) (vps_hrds subs n) bits.old bits.new result }
{
    let mut flags = NO_FLAGS;
    let mut all = Vec::new(alloc);
    for i in 0..n {
        let hrd = vps_hrd_of(alloc, bits, subs, flags, i)?;
        flags = flags_after(&hrd, flags);
        all.push(hrd)?;
    }
    Ok(all)
}

#[tactic(auto, unfolding(crate::specs::Timing::vps_hrd))]
fn print_vps_hrd(
    out: &mut Printer,
    v: &VpsHrd,
    subs: u8,
    before: HrdFlags,
    i: usize,
) -> Result<(), AllocError>
    requires subs { subs ≤ 6 }
    requires valid { Valid (vps_hrd subs before i) v.now }
    ensures { OnOk result (out.new ≡ printed (vps_hrd subs before i) v.now out.old) }
{
    out.ue("hrd_layer_set_idx", v.hrd_layer_set_idx)?;
    out.flag_if(i > 0, "cprms_present_flag", v.cprms_present_flag)?;
    let common = has_common(v.cprms_present_flag);
    print_hrd(out, &v.hrd_parameters, common, subs, before)?;
    Ok(())
}

#[tactic(auto, using(crate::proofs::HrdSteps::print_hrd_steps))]
pub(crate) fn print_vps_hrds(
    out: &mut Printer,
    all: &[VpsHrd],
    subs: u8,
    n: u32,
) -> Result<(), AllocError>
    requires subs { subs ≤ 6 }
    requires valid { Valid (vps_hrds subs n) all.now }
    ensures { OnOk result (out.new ≡ printed (vps_hrds subs n) all.now out.old) }
{
    let mut flags = NO_FLAGS;
    for i in 0..all.len() {
        let outer = out.open(i as u64)?;
        print_vps_hrd(out, &all[i], subs, flags, i)?;
        flags = flags_after(&all[i], flags);
        out.close(outer);
    }
    Ok(())
}
