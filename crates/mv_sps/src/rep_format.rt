ghost use Rattle.std.specs.Prelude.{◌≡◌, OnOk};
ghost use Rattle.mv_syntax.specs.Table.{when, Valid};
ghost use Rattle.mv_syntax.specs.Printed.{printed};
ghost use Rattle.mv_fields.specs.Reading.{ReadsBy};
ghost use Rattle.mv_sps.specs.Format.{rep_format};

use mv_bits::BitReader;
use mv_fields::{Fault, Printer, u8_if, u8_of};
use mv_rules::Rule;
use std::alloc::AllocError;

/// The index of the pictures' format among those of the VPS, where it isn't the layer's own there.
#[derive(Clone, Copy, Debug, PartialEq, Eq)]
pub struct SpsRepFormat {
    pub update_rep_format_flag: u8,
    pub sps_rep_format_idx: Option<u8>,
}

#[tactic(auto, unfolding(crate::specs::Format::rep_format))]
fn rep_format_of(bits: &mut BitReader) -> Result<SpsRepFormat, Fault<Rule>>
    ensures { ReadsBy rep_format bits.old bits.new result }
{
    let update_rep_format_flag = u8_of(bits, 1)?;
    let sps_rep_format_idx = u8_if(bits, update_rep_format_flag == 1, 8)?;
    Ok(SpsRepFormat {
        update_rep_format_flag,
        sps_rep_format_idx,
    })
}

#[tactic(auto, unfolding(crate::specs::Format::rep_format))]
fn print_rep_format(out: &mut Printer, v: &SpsRepFormat) -> Result<(), AllocError>
    requires { Valid rep_format v.now }
    ensures { OnOk result (out.new ≡ printed rep_format v.now out.old) }
{
    out.flag("update_rep_format_flag", v.update_rep_format_flag)?;
    out.u8_if(
        v.update_rep_format_flag == 1,
        "sps_rep_format_idx",
        8,
        v.sps_rep_format_idx,
    )
}

pub(crate) fn rep_format_if(
    bits: &mut BitReader,
    present: bool,
) -> Result<Option<SpsRepFormat>, Fault<Rule>>
    ensures { ReadsBy (when present rep_format) bits.old bits.new result }
{
    if !present {
        return Ok(None);
    }
    Ok(Some(rep_format_of(bits)?))
}

pub(crate) fn print_rep_format_if(
    out: &mut Printer,
    present: bool,
    v: &Option<SpsRepFormat>,
) -> Result<(), AllocError>
    requires { Valid (when present rep_format) v.now }
    ensures { OnOk result (out.new ≡ printed (when present rep_format) v.now out.old) }
{
    match v {
        Some(v) => print_rep_format(out, v),
        None => Ok(()),
    }
}
