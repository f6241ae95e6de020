//! scaling_list_data (7.3.4) in a header that codes it under a condition.

ghost use Rattle.std.specs.Prelude.{◌≡◌, OnOk};
ghost use Rattle.mv_syntax.specs.Table.{when, Valid};
ghost use Rattle.mv_syntax.specs.Words.{◌under◌};
ghost use Rattle.mv_syntax.specs.Printed.{printed};
ghost use Rattle.mv_fields.specs.Reading.{ReadsBy};
ghost use Rattle.mv_common.specs.ScalingLists.{scaling_list_data};

use crate::scaling_lists::{ScalingArgs, ScalingLists};
use mv_bits::BitReader;
use mv_fields::{Fault, Printer, under};
use mv_rules::Rule;
use std::alloc::{AllocError, Global};

#[tactic(auto, using(mv_fields::proofs::Shared::shared_steps))]
fn scaling_lists_in(
    alloc: Global,
    bits: &mut BitReader,
    rule: Rule,
) -> Result<ScalingLists, Fault<Rule>>
    ensures { ReadsBy (scaling_list_data under rule) bits.old bits.new result }
{
    under(rule, ScalingLists::read(alloc, bits, &ScalingArgs {}))
}

/// scaling_list_data (7.3.4), where it is present, in a header whose limit rule is `rule`.
///
/// `NoBits` where it is present and the bits end before or in a field or hold no code there. `Memory` where memory runs out.
pub fn scaling_lists_if(
    alloc: Global,
    bits: &mut BitReader,
    present: bool,
    rule: Rule,
) -> Result<Option<ScalingLists>, Fault<Rule>>
    ensures { ReadsBy (when present (scaling_list_data under rule)) bits.old bits.new result }
{
    if !present {
        return Ok(None);
    }
    Ok(Some(scaling_lists_in(alloc, bits, rule)?))
}

/// Prints scaling_list_data (7.3.4), where it is present, in a header whose limit rule is `rule`.
///
/// `AllocError` where memory runs out.
pub fn print_scaling_lists_if(
    out: &mut Printer,
    present: bool,
    v: &Option<ScalingLists>,
    rule: Rule,
) -> Result<(), AllocError>
    requires { Valid (when present (scaling_list_data under rule)) v.now }
    ensures { OnOk result (out.new ≡ printed (when present (scaling_list_data under rule)) v.now out.old) }
{
    match v {
        Some(v) => v.print(out, &ScalingArgs {}),
        None => Ok(()),
    }
}
