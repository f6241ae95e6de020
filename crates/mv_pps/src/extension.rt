ghost use Rattle.std.specs.Prelude.{◌≡◌, OnOk};
ghost use Rattle.mv_syntax.specs.Table.{when, Valid};
ghost use Rattle.mv_syntax.specs.Printed.{printed};
ghost use Rattle.mv_fields.specs.Reading.{ReadsBy};
ghost use Rattle.mv_pps.specs.Extension.{extension};

use crate::multilayer::{PpsMultilayer, multilayer_if, print_multilayer_if};
use mv_bits::BitReader;
use mv_fields::{Fault, Printer, u8_of, unset_flag};
use mv_rules::Rule;
use std::alloc::AllocError;

/// The extension flags of a picture parameter set, and its multilayer extension.
#[derive(Clone, Copy, Debug, PartialEq, Eq)]
pub struct PpsExtension {
    pub pps_range_extension_flag: u8,
    pub pps_multilayer_extension_flag: u8,
    pub pps_3d_extension_flag: u8,
    pub pps_scc_extension_flag: u8,
    pub pps_extension_4bits: u8,
    pub multilayer: Option<PpsMultilayer>,
}

#[tactic(auto, unfolding(crate::specs::Extension::extension))]
fn extension_of(bits: &mut BitReader) -> Result<PpsExtension, Fault<Rule>>
    ensures { ReadsBy extension bits.old bits.new result }
{
    let pps_range_extension_flag = unset_flag(bits, Rule::PpsRange)?;
    let pps_multilayer_extension_flag = u8_of(bits, 1)?;
    Ok(PpsExtension {
        pps_range_extension_flag,
        pps_multilayer_extension_flag,
        pps_3d_extension_flag: unset_flag(bits, Rule::Pps3d)?,
        pps_scc_extension_flag: unset_flag(bits, Rule::PpsScc)?,
        pps_extension_4bits: u8_of(bits, 4)?,
        multilayer: multilayer_if(bits, pps_multilayer_extension_flag == 1)?,
    })
}

#[tactic(auto, unfolding(crate::specs::Extension::extension))]
fn print_extension(out: &mut Printer, v: &PpsExtension) -> Result<(), AllocError>
    requires { Valid extension v.now }
    ensures { OnOk result (out.new ≡ printed extension v.now out.old) }
{
    out.flag("pps_range_extension_flag", v.pps_range_extension_flag)?;
    out.flag(
        "pps_multilayer_extension_flag",
        v.pps_multilayer_extension_flag,
    )?;
    out.flag("pps_3d_extension_flag", v.pps_3d_extension_flag)?;
    out.flag("pps_scc_extension_flag", v.pps_scc_extension_flag)?;
    out.u8("pps_extension_4bits", 4, v.pps_extension_4bits)?;
    print_multilayer_if(out, v.pps_multilayer_extension_flag == 1, v.multilayer)
}

pub(crate) fn extension_if(
    bits: &mut BitReader,
    present: bool,
) -> Result<Option<PpsExtension>, Fault<Rule>>
    ensures { ReadsBy (when present extension) bits.old bits.new result }
{
    if !present {
        return Ok(None);
    }
    Ok(Some(extension_of(bits)?))
}

pub(crate) fn print_extension_if(
    out: &mut Printer,
    present: bool,
    v: Option<PpsExtension>,
) -> Result<(), AllocError>
    requires { Valid (when present extension) v }
    ensures { OnOk result (out.new ≡ printed (when present extension) v out.old) }
{
    match v {
        Some(v) => print_extension(out, &v),
        None => Ok(()),
    }
}
