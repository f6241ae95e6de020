ghost use Rattle.std.specs.Prelude.{◌≡◌, OnOk};
ghost use Rattle.mv_syntax.specs.Table.{when, Valid};
ghost use Rattle.mv_syntax.specs.Printed.{printed};
ghost use Rattle.mv_fields.specs.Reading.{ReadsShared};
ghost use Rattle.mv_common.specs.Hrd.{hrd_common, in_force};

use mv_bits::BitReader;
use mv_fields::{Fault, Limit, Printer, coded_set, u8_if, u8_of};
use std::alloc::AllocError;

/// The flags of the first group of hrd_parameters (E.2.2) that tell which schedules are coded for a sub-layer.
#[derive(Clone, Copy, Debug, PartialEq, Eq)]
pub struct HrdFlags {
    pub nal: bool,
    pub vcl: bool,
    pub sub_pic: bool,
}

/// The first group of hrd_parameters (E.2.2), which holds for all sub-layers.
#[derive(Clone, Copy, Debug, PartialEq, Eq)]
pub struct HrdCommon {
    pub nal_hrd_parameters_present_flag: u8,
    pub vcl_hrd_parameters_present_flag: u8,
    pub sub_pic_hrd_params_present_flag: Option<u8>,
    pub tick_divisor_minus2: Option<u8>,
    pub du_cpb_removal_delay_increment_length_minus1: Option<u8>,
    pub sub_pic_cpb_params_in_pic_timing_sei_flag: Option<u8>,
    pub dpb_output_delay_du_length_minus1: Option<u8>,
    pub bit_rate_scale: Option<u8>,
    pub cpb_size_scale: Option<u8>,
    pub cpb_size_du_scale: Option<u8>,
    pub initial_cpb_removal_delay_length_minus1: Option<u8>,
    pub au_cpb_removal_delay_length_minus1: Option<u8>,
    pub dpb_output_delay_length_minus1: Option<u8>,
}

/// The flags that are in force: those of the first group where it is coded, and else those in force before.
pub fn flags_in_force(common: &Option<HrdCommon>, before: HrdFlags) -> HrdFlags
    ensures { result ≡ in_force common.now before }
{
    match common {
        Some(common) => HrdFlags {
            nal: common.nal_hrd_parameters_present_flag == 1,
            vcl: common.vcl_hrd_parameters_present_flag == 1,
            sub_pic: coded_set(common.sub_pic_hrd_params_present_flag),
        },
        None => before,
    }
}

#[tactic(auto, unfolding(crate::specs::Hrd::hrd_common))]
fn hrd_common_of(bits: &mut BitReader) -> Result<HrdCommon, Fault<Limit>>
    ensures { ReadsShared hrd_common bits.old bits.new result }
{
    let nal = u8_of(bits, 1)?;
    let vcl = u8_of(bits, 1)?;
    let any = nal == 1 || vcl == 1;
    let sub_pic_hrd_params_present_flag = u8_if(bits, any, 1)?;
    let sub_pic = coded_set(sub_pic_hrd_params_present_flag);
    Ok(HrdCommon {
        nal_hrd_parameters_present_flag: nal,
        vcl_hrd_parameters_present_flag: vcl,
        sub_pic_hrd_params_present_flag,
        tick_divisor_minus2: u8_if(bits, sub_pic, 8)?,
        du_cpb_removal_delay_increment_length_minus1: u8_if(bits, sub_pic, 5)?,
        sub_pic_cpb_params_in_pic_timing_sei_flag: u8_if(bits, sub_pic, 1)?,
        dpb_output_delay_du_length_minus1: u8_if(bits, sub_pic, 5)?,
        bit_rate_scale: u8_if(bits, any, 4)?,
        cpb_size_scale: u8_if(bits, any, 4)?,
        cpb_size_du_scale: u8_if(bits, sub_pic, 4)?,
        initial_cpb_removal_delay_length_minus1: u8_if(bits, any, 5)?,
        au_cpb_removal_delay_length_minus1: u8_if(bits, any, 5)?,
        dpb_output_delay_length_minus1: u8_if(bits, any, 5)?,
    })
}

#[tactic(auto, unfolding(crate::specs::Hrd::hrd_common))]
fn print_hrd_common(out: &mut Printer, v: &HrdCommon) -> Result<(), AllocError>
    requires { Valid hrd_common v.now }
    ensures { OnOk result (out.new ≡ printed hrd_common v.now out.old) }
{
    let any = v.nal_hrd_parameters_present_flag == 1 || v.vcl_hrd_parameters_present_flag == 1;
    let sub_pic = coded_set(v.sub_pic_hrd_params_present_flag);
    out.flag(
        "nal_hrd_parameters_present_flag",
        v.nal_hrd_parameters_present_flag,
    )?;
    out.flag(
        "vcl_hrd_parameters_present_flag",
        v.vcl_hrd_parameters_present_flag,
    )?;
    out.flag_if(
        any,
        "sub_pic_hrd_params_present_flag",
        v.sub_pic_hrd_params_present_flag,
    )?;
    out.u8_if(sub_pic, "tick_divisor_minus2", 8, v.tick_divisor_minus2)?;
    out.u8_if(
        sub_pic,
        "du_cpb_removal_delay_increment_length_minus1",
        5,
        v.du_cpb_removal_delay_increment_length_minus1,
    )?;
    out.flag_if(
        sub_pic,
        "sub_pic_cpb_params_in_pic_timing_sei_flag",
        v.sub_pic_cpb_params_in_pic_timing_sei_flag,
    )?;
    out.u8_if(
        sub_pic,
        "dpb_output_delay_du_length_minus1",
        5,
        v.dpb_output_delay_du_length_minus1,
    )?;
    out.u8_if(any, "bit_rate_scale", 4, v.bit_rate_scale)?;
    out.u8_if(any, "cpb_size_scale", 4, v.cpb_size_scale)?;
    out.u8_if(sub_pic, "cpb_size_du_scale", 4, v.cpb_size_du_scale)?;
    out.u8_if(
        any,
        "initial_cpb_removal_delay_length_minus1",
        5,
        v.initial_cpb_removal_delay_length_minus1,
    )?;
    out.u8_if(
        any,
        "au_cpb_removal_delay_length_minus1",
        5,
        v.au_cpb_removal_delay_length_minus1,
    )?;
    out.u8_if(
        any,
        "dpb_output_delay_length_minus1",
        5,
        v.dpb_output_delay_length_minus1,
    )
}

pub(crate) fn hrd_common_if(
    bits: &mut BitReader,
    present: bool,
) -> Result<Option<HrdCommon>, Fault<Limit>>
    ensures { ReadsShared (when present hrd_common) bits.old bits.new result }
{
    if !present {
        return Ok(None);
    }
    Ok(Some(hrd_common_of(bits)?))
}

pub(crate) fn print_hrd_common_if(
    out: &mut Printer,
    present: bool,
    v: &Option<HrdCommon>,
) -> Result<(), AllocError>
    requires { Valid (when present hrd_common) v.now }
    ensures { OnOk result (out.new ≡ printed (when present hrd_common) v.now out.old) }
{
    match v {
        Some(v) => print_hrd_common(out, v),
        None => Ok(()),
    }
}
