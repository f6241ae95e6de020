//! The last part of vps_extension (F.7.3.2.1.1): the bytes of other extensions, and whether a VUI follows.

ghost use Rattle.std.specs.Prelude.{◌≡◌, ◌≤◌, OnOk};
ghost use Rattle.mv_syntax.specs.Table.{Valid};
ghost use Rattle.mv_syntax.specs.Loops.{us};
ghost use Rattle.mv_syntax.specs.Printed.{printed};
ghost use Rattle.mv_fields.specs.Reading.{ReadsBy, ReadsAs};
ghost use Rattle.mv_vpsext.specs.ExtEnding.{ext_ending};

use mv_bits::BitReader;
use mv_fields::{Fault, Printer, u8_of, ue_within};
use mv_rules::Rule;
use std::alloc::{AllocError, Global};
use std::marker::Model;

/// The bytes of extensions that this version of the syntax doesn't know, and whether a VUI stands behind the extension.
#[derive(Debug, Drop)]
pub struct VpsExtEnding {
    pub vps_non_vui_extension_length: u32,
    /// Those from index 1 on.
    pub vps_non_vui_extension_data_byte: Vec<u8>,
    pub vps_vui_present_flag: u8,
}

impl Model for VpsExtEnding {
    ghost use Rattle.mv_vpsext.specs.ExtEnding.{VpsExtEndingValue};

    ghost Value = { VpsExtEndingValue };

    ghost view = { λ e. record {
      vps_non_vui_extension_length = e.vps_non_vui_extension_length;
      vps_non_vui_extension_data_byte = e.vps_non_vui_extension_data_byte.items;
      vps_vui_present_flag = e.vps_vui_present_flag;
    } };
}

#[tactic(auto, using(mv_syntax::proofs::LoopLaws::item_steps), unfolding(mv_syntax::specs::Loops::each))]
fn extension_bytes_of(
    alloc: Global,
    bits: &mut BitReader,
    length: u32,
) -> Result<Vec<u8>, Fault<Rule>>
    requires { length ≤ 4096 }
    ensures { ReadsAs (λ v. v.items) (us 1 length 8) bits.old bits.new result }
{
    let end = length + 1;
    let mut all = Vec::new(alloc);
    for i in 1..end {
        all.push(u8_of(bits, 8)?)?;
    }
    Ok(all)
}

#[tactic(auto, unfolding(crate::specs::ExtEnding::ext_ending))]
pub(crate) fn ending_of(alloc: Global, bits: &mut BitReader) -> Result<VpsExtEnding, Fault<Rule>>
    ensures { ReadsBy ext_ending bits.old bits.new result }
{
    let vps_non_vui_extension_length = ue_within(bits, Rule::VpsLimit, 4096)?;
    let vps_non_vui_extension_data_byte = extension_bytes_of(
        alloc,
        bits,
        vps_non_vui_extension_length,
    )?;
    Ok(VpsExtEnding {
        vps_non_vui_extension_length,
        vps_non_vui_extension_data_byte,
        vps_vui_present_flag: u8_of(bits, 1)?,
    })
}

#[tactic(auto, unfolding(crate::specs::ExtEnding::ext_ending))]
pub(crate) fn print_ending(out: &mut Printer, v: &VpsExtEnding) -> Result<(), AllocError>
    requires { Valid ext_ending v.now }
    ensures { OnOk result (out.new ≡ printed ext_ending v.now out.old) }
{
    let length = v.vps_non_vui_extension_length;
    out.ue("vps_non_vui_extension_length", length)?;
    out.u8s(
        "vps_non_vui_extension_data_byte",
        1,
        length,
        8,
        &v.vps_non_vui_extension_data_byte,
    )?;
    out.flag("vps_vui_present_flag", v.vps_vui_present_flag)?;
    Ok(())
}
