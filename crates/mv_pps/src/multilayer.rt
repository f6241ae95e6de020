ghost use Rattle.std.specs.Prelude.{◌≡◌, OnOk};
ghost use Rattle.mv_syntax.specs.Table.{when, Valid};
ghost use Rattle.mv_syntax.specs.Printed.{printed};
ghost use Rattle.mv_fields.specs.Reading.{ReadsBy};
ghost use Rattle.mv_pps.specs.Extension.{multilayer_extension};

use mv_bits::BitReader;
use mv_fields::{Fault, Printer, u8_if, u8_of, ue_within, unset_flag};
use mv_rules::Rule;
use std::alloc::AllocError;

/// pps_multilayer_extension (F.7.3.2.3.4), with no resetting of picture order counts, no location offsets and no colour mapping.
#[derive(Clone, Copy, Debug, PartialEq, Eq)]
pub struct PpsMultilayer {
    pub poc_reset_info_present_flag: u8,
    pub pps_infer_scaling_list_flag: u8,
    pub pps_scaling_list_ref_layer_id: Option<u8>,
    pub num_ref_loc_offsets: u32,
    pub colour_mapping_enabled_flag: u8,
}

#[tactic(auto, unfolding(crate::specs::Extension::multilayer_extension))]
fn multilayer_of(bits: &mut BitReader) -> Result<PpsMultilayer, Fault<Rule>>
    ensures { ReadsBy multilayer_extension bits.old bits.new result }
{
    let poc_reset_info_present_flag = unset_flag(bits, Rule::PocReset)?;
    let pps_infer_scaling_list_flag = u8_of(bits, 1)?;
    Ok(PpsMultilayer {
        poc_reset_info_present_flag,
        pps_infer_scaling_list_flag,
        pps_scaling_list_ref_layer_id: u8_if(bits, pps_infer_scaling_list_flag == 1, 6)?,
        num_ref_loc_offsets: ue_within(bits, Rule::LocationOffsets, 0)?,
        colour_mapping_enabled_flag: unset_flag(bits, Rule::ColourMapping)?,
    })
}

#[tactic(auto, unfolding(crate::specs::Extension::multilayer_extension))]
fn print_multilayer(out: &mut Printer, v: &PpsMultilayer) -> Result<(), AllocError>
    requires { Valid multilayer_extension v.now }
    ensures { OnOk result (out.new ≡ printed multilayer_extension v.now out.old) }
{
    out.flag("poc_reset_info_present_flag", v.poc_reset_info_present_flag)?;
    out.flag("pps_infer_scaling_list_flag", v.pps_infer_scaling_list_flag)?;
    out.u8_if(
        v.pps_infer_scaling_list_flag == 1,
        "pps_scaling_list_ref_layer_id",
        6,
        v.pps_scaling_list_ref_layer_id,
    )?;
    out.ue("num_ref_loc_offsets", v.num_ref_loc_offsets)?;
    out.flag("colour_mapping_enabled_flag", v.colour_mapping_enabled_flag)
}

pub(crate) fn multilayer_if(
    bits: &mut BitReader,
    present: bool,
) -> Result<Option<PpsMultilayer>, Fault<Rule>>
    ensures { ReadsBy (when present multilayer_extension) bits.old bits.new result }
{
    if !present {
        return Ok(None);
    }
    Ok(Some(multilayer_of(bits)?))
}

pub(crate) fn print_multilayer_if(
    out: &mut Printer,
    present: bool,
    v: Option<PpsMultilayer>,
) -> Result<(), AllocError>
    requires { Valid (when present multilayer_extension) v }
    ensures { OnOk result (out.new ≡ printed (when present multilayer_extension) v out.old) }
{
    match v {
        Some(v) => print_multilayer(out, &v),
        None => Ok(()),
    }
}
