ghost use Rattle.std.specs.Prelude.{◌≡◌, ◌≤◌, ◌<◌, ◌^◌, [], true, length, Ok, Err, OnOk, MatchResult, ◌⊎◌};
ghost use Rattle.mv_syntax.specs.Bits.{align_bits, short};
ghost use Rattle.mv_syntax.specs.Cursor.{place};
ghost use Rattle.mv_syntax.specs.Table.{Valid};
ghost use Rattle.mv_syntax.specs.inner.Reader.{behind};
ghost use Rattle.mv_syntax.specs.Printed.{bits, printed};
ghost use Rattle.mv_fields.specs.Output.{IsText};
ghost use Rattle.mv_fields.specs.Reading.{ReadsBy};
ghost use Rattle.mv_vps.specs.Base.{base, aligned_base};

use crate::layer_sets::{VpsLayerSets, all_layer_sets_of, print_all_layer_sets};
use crate::opening::{VpsOpening, opening_of, print_opening};
use crate::shared::{ordering_of, print_ordering};
use crate::timing::{VpsTiming, print_timing_if, timing_if};
use mv_bits::{BitReader, NoBits};
use mv_common::SubLayerOrdering;
use mv_fields::{Fault, Printer, u8_of};
use mv_rules::Rule;
use std::alloc::{AllocError, Global};
use std::marker::Model;

/// The fields that every video parameter set has, up to vps_extension_flag.
#[derive(Debug, Drop)]
pub struct VpsBase {
    pub opening: VpsOpening,
    pub ordering: SubLayerOrdering,
    pub layer_sets: VpsLayerSets,
    pub vps_timing_info_present_flag: u8,
    /// Coded where vps_timing_info_present_flag is 1.
    pub timing: Option<VpsTiming>,
    pub vps_extension_flag: u8,
}

impl Model for VpsBase {
    ghost use Rattle.mv_vps.specs.Base.{VpsBaseValue};

    ghost Value = { VpsBaseValue };

    ghost view = { λ b. record {
      opening = b.opening;
      ordering = b.ordering;
      layer_sets = b.layer_sets;
      vps_timing_info_present_flag = b.vps_timing_info_present_flag;
      timing = b.timing;
      vps_extension_flag = b.vps_extension_flag;
    } };
}

#[tactic(auto, unfolding(crate::specs::Base::base))]
fn base_of(alloc: Global, bits: &mut BitReader) -> Result<VpsBase, Fault<Rule>>
    ensures { ReadsBy base bits.old bits.new result }
{
    let opening = opening_of(alloc, bits)?;
    let subs = opening.vps_max_sub_layers_minus1;
    let ordering = ordering_of(alloc, bits, subs)?;
    let layer_sets = all_layer_sets_of(alloc, bits)?;
    let vps_timing_info_present_flag = u8_of(bits, 1)?;
    let timing = timing_if(alloc, bits, vps_timing_info_present_flag == 1, subs)?;
    let vps_extension_flag = u8_of(bits, 1)?;
    Ok(VpsBase {
        opening,
        ordering,
        layer_sets,
        vps_timing_info_present_flag,
        timing,
        vps_extension_flag,
    })
}

#[tactic(auto, unfolding(crate::specs::Base::base))]
fn print_base(out: &mut Printer, v: &VpsBase) -> Result<(), AllocError>
    requires few { v.now.opening.vps_max_sub_layers_minus1 ≤ 6 }
    requires valid { Valid base v.now }
    ensures { OnOk result (out.new ≡ printed base v.now out.old) }
{
    let subs = v.opening.vps_max_sub_layers_minus1;
    print_opening(out, &v.opening)?;
    print_ordering(out, &v.ordering, subs)?;
    print_all_layer_sets(out, &v.layer_sets)?;
    out.flag(
        "vps_timing_info_present_flag",
        v.vps_timing_info_present_flag,
    )?;
    print_timing_if(out, v.vps_timing_info_present_flag == 1, &v.timing, subs)?;
    out.flag("vps_extension_flag", v.vps_extension_flag)?;
    Ok(())
}

// Takes one bits up to the end of the byte.
fn take_ones(bits: &mut BitReader) -> Result<(), NoBits>
    requires { place bits.old < 2 ^ 64 }
    ensures { MatchResult result
        (λ _. (behind (align_bits true (place bits.old)) bits.old.left ≡ Ok bits.new.left) × (bits.new.total ≡ bits.old.total))
        (λ _. behind (align_bits true (place bits.old)) bits.old.left ≡ Err short) }
{
    let n = ((8 - bits.place() % 8) % 8) as u8;
    let all = (1 << n) - 1;
    match bits.u(n) {
        Ok(ones) if ones == all => Ok(()),
        Ok(_) => Err(NoBits),
        Err(e) => Err(e),
    }
}

/// The fields up to vps_extension_flag from the head of a payload, and before an extension the one bits up to the byte's end.
pub(crate) fn aligned_base_of(alloc: Global, bits: &mut BitReader) -> Result<VpsBase, Fault<Rule>>
    requires at_head { bits.old.total ≡ length bits.old.left }
    requires few { bits.old.total < 2 ^ 64 }
    ensures { ReadsBy aligned_base bits.old bits.new result }
{
    let base = match base_of(alloc, bits) {
        Ok(base) => base,
        Err(fault) => return Err(fault),
    };
    if base.vps_extension_flag != 1 {
        return Ok(base);
    }
    match take_ones(bits) {
        Ok(()) => Ok(base),
        Err(e) => Err(Fault::from(e)),
    }
}

/// Prints the same at the head of a payload.
pub(crate) fn print_aligned_base(out: &mut Printer, v: &VpsBase) -> Result<(), AllocError>
    requires at_head { (out.old ≡ bits []) ⊎ IsText out.old }
    requires few { v.now.opening.vps_max_sub_layers_minus1 ≤ 6 }
    requires valid { Valid aligned_base v.now }
    ensures { OnOk result (out.new ≡ printed aligned_base v.now out.old) }
{
    print_base(out, v)?;
    if v.vps_extension_flag != 1 {
        return Ok(());
    }
    out.align(true)
}
