ghost use Rattle.std.specs.Prelude.{◌≡◌, ◌≤◌, OnOk};
ghost use Rattle.mv_syntax.specs.Table.{Valid};
ghost use Rattle.mv_syntax.specs.Printed.{printed};
ghost use Rattle.mv_fields.specs.Reading.{ReadsBy};
ghost use Rattle.mv_sps.specs.Usability.{usability};

use crate::shared::{print_vui_if, vui_if};
use mv_bits::BitReader;
use mv_common::Vui;
use mv_fields::{Fault, Printer, u8_of};
use mv_rules::Rule;
use std::alloc::{AllocError, Global};
use std::marker::Model;

/// The usability information, where it is present.
#[derive(Debug, Drop)]
pub struct SpsVui {
    pub vui_parameters_present_flag: u8,
    pub vui_parameters: Option<Vui>,
}

impl Model for SpsVui {
    ghost use Rattle.mv_sps.specs.Usability.{SpsVuiValue};

    ghost Value = { SpsVuiValue };

    ghost view = { λ v. record {
      vui_parameters_present_flag = v.vui_parameters_present_flag;
      vui_parameters = v.vui_parameters;
    } };
}

#[tactic(auto, unfolding(crate::specs::Usability::usability))]
pub(crate) fn usability_of(
    alloc: Global,
    bits: &mut BitReader,
    subs: u8,
) -> Result<SpsVui, Fault<Rule>>
    requires { subs ≤ 6 }
    ensures { ReadsBy (usability subs) bits.old bits.new result }
{
    let vui_parameters_present_flag = u8_of(bits, 1)?;
    let vui_parameters = vui_if(alloc, bits, vui_parameters_present_flag == 1, subs)?;
    Ok(SpsVui {
        vui_parameters_present_flag,
        vui_parameters,
    })
}

#[tactic(auto, unfolding(crate::specs::Usability::usability))]
pub(crate) fn print_usability(out: &mut Printer, v: &SpsVui, subs: u8) -> Result<(), AllocError>
    requires subs { subs ≤ 6 }
    requires valid { Valid (usability subs) v.now }
    ensures { OnOk result (out.new ≡ printed (usability subs) v.now out.old) }
{
    out.flag("vui_parameters_present_flag", v.vui_parameters_present_flag)?;
    print_vui_if(
        out,
        v.vui_parameters_present_flag == 1,
        &v.vui_parameters,
        subs,
    )?;
    Ok(())
}
