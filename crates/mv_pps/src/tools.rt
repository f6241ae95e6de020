ghost use Rattle.std.specs.Prelude.{◌≡◌, OnOk};
ghost use Rattle.mv_syntax.specs.Table.{Valid};
ghost use Rattle.mv_syntax.specs.Printed.{printed};
ghost use Rattle.mv_fields.specs.Reading.{ReadsBy};
ghost use Rattle.mv_pps.specs.Tools.{tools};

use mv_bits::BitReader;
use mv_fields::{Fault, Printer, u8_of};
use mv_rules::Rule;
use std::alloc::AllocError;

/// The flags of a picture parameter set that switch coding tools on.
#[derive(Clone, Copy, Debug, PartialEq, Eq)]
pub struct PpsTools {
    pub weighted_pred_flag: u8,
    pub weighted_bipred_flag: u8,
    pub transquant_bypass_enabled_flag: u8,
    pub tiles_enabled_flag: u8,
    pub entropy_coding_sync_enabled_flag: u8,
}

#[tactic(auto, unfolding(crate::specs::Tools::tools))]
pub(crate) fn tools_of(bits: &mut BitReader) -> Result<PpsTools, Fault<Rule>>
    ensures { ReadsBy tools bits.old bits.new result }
{
    Ok(PpsTools {
        weighted_pred_flag: u8_of(bits, 1)?,
        weighted_bipred_flag: u8_of(bits, 1)?,
        transquant_bypass_enabled_flag: u8_of(bits, 1)?,
        tiles_enabled_flag: u8_of(bits, 1)?,
        entropy_coding_sync_enabled_flag: u8_of(bits, 1)?,
    })
}

#[tactic(auto, unfolding(crate::specs::Tools::tools))]
pub(crate) fn print_tools(out: &mut Printer, v: &PpsTools) -> Result<(), AllocError>
    requires { Valid tools v.now }
    ensures { OnOk result (out.new ≡ printed tools v.now out.old) }
{
    out.flag("weighted_pred_flag", v.weighted_pred_flag)?;
    out.flag("weighted_bipred_flag", v.weighted_bipred_flag)?;
    out.flag(
        "transquant_bypass_enabled_flag",
        v.transquant_bypass_enabled_flag,
    )?;
    out.flag("tiles_enabled_flag", v.tiles_enabled_flag)?;
    out.flag(
        "entropy_coding_sync_enabled_flag",
        v.entropy_coding_sync_enabled_flag,
    )
}
