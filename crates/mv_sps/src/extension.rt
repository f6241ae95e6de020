ghost use Rattle.std.specs.Prelude.{◌≡◌, OnOk};
ghost use Rattle.mv_syntax.specs.Table.{Valid};
ghost use Rattle.mv_syntax.specs.Printed.{printed};
ghost use Rattle.mv_fields.specs.Reading.{ReadsBy};
ghost use Rattle.mv_sps.specs.Extension.{extension};

use mv_bits::BitReader;
use mv_fields::{Fault, Printer, coded_set, u8_if, u8_of, unset_flag_if};
use mv_rules::Rule;
use std::alloc::AllocError;

/// The extension flags, and the multilayer extension.
#[derive(Clone, Copy, Debug, PartialEq, Eq)]
pub struct SpsExtension {
    pub sps_extension_present_flag: u8,
    pub sps_range_extension_flag: Option<u8>,
    pub sps_multilayer_extension_flag: Option<u8>,
    pub sps_3d_extension_flag: Option<u8>,
    pub sps_scc_extension_flag: Option<u8>,
    pub sps_extension_4bits: Option<u8>,
    pub inter_view_mv_vert_constraint_flag: Option<u8>,
}

#[tactic(auto, unfolding(crate::specs::Extension::extension))]
pub(crate) fn extension_of(bits: &mut BitReader) -> Result<SpsExtension, Fault<Rule>>
    ensures { ReadsBy extension bits.old bits.new result }
{
    let sps_extension_present_flag = u8_of(bits, 1)?;
    let present = sps_extension_present_flag == 1;
    let sps_range_extension_flag = unset_flag_if(bits, present, Rule::SpsRange)?;
    let sps_multilayer_extension_flag = u8_if(bits, present, 1)?;
    let sps_3d_extension_flag = unset_flag_if(bits, present, Rule::Sps3d)?;
    let sps_scc_extension_flag = unset_flag_if(bits, present, Rule::SpsScc)?;
    let sps_extension_4bits = u8_if(bits, present, 4)?;
    let inter_view_mv_vert_constraint_flag = u8_if(
        bits,
        coded_set(sps_multilayer_extension_flag),
        1,
    )?;
    Ok(SpsExtension {
        sps_extension_present_flag,
        sps_range_extension_flag,
        sps_multilayer_extension_flag,
        sps_3d_extension_flag,
        sps_scc_extension_flag,
        sps_extension_4bits,
        inter_view_mv_vert_constraint_flag,
    })
}

#[tactic(auto, unfolding(crate::specs::Extension::extension))]
pub(crate) fn print_extension(out: &mut Printer, v: &SpsExtension) -> Result<(), AllocError>
    requires { Valid extension v.now }
    ensures { OnOk result (out.new ≡ printed extension v.now out.old) }
{
    let present = v.sps_extension_present_flag == 1;
    out.flag("sps_extension_present_flag", v.sps_extension_present_flag)?;
    out.flag_if(
        present,
        "sps_range_extension_flag",
        v.sps_range_extension_flag,
    )?;
    out.flag_if(
        present,
        "sps_multilayer_extension_flag",
        v.sps_multilayer_extension_flag,
    )?;
    out.flag_if(present, "sps_3d_extension_flag", v.sps_3d_extension_flag)?;
    out.flag_if(present, "sps_scc_extension_flag", v.sps_scc_extension_flag)?;
    out.u8_if(present, "sps_extension_4bits", 4, v.sps_extension_4bits)?;
    out.flag_if(
        coded_set(v.sps_multilayer_extension_flag),
        "inter_view_mv_vert_constraint_flag",
        v.inter_view_mv_vert_constraint_flag,
    )
}
