//! The structures that a video parameter set shares with other headers, whose limits break its limit rule.

ghost use Rattle.std.specs.Prelude.{◌≡◌, ◌≤◌, OnOk};
ghost use Rattle.mv_syntax.specs.Table.{Valid};
ghost use Rattle.mv_syntax.specs.Words.{◌under◌};
ghost use Rattle.mv_syntax.specs.Printed.{printed};
ghost use Rattle.mv_fields.specs.Reading.{ReadsBy};
ghost use Rattle.mv_rules.specs.declared.rule.Rule.TheVariants.{VpsLimit};
ghost use Rattle.mv_common.specs.declared.sub_layer_ordering.ParameterSet.TheVariants.{Video};
ghost use Rattle.mv_common.specs.SubLayerOrdering.{sub_layer_ordering};
ghost use Rattle.mv_common.specs.Hrd.{hrd_parameters};

use mv_bits::BitReader;
use mv_common::{Hrd, HrdArgs, HrdFlags, ParameterSet, SubLayerOrdering};
use mv_fields::{Fault, Printer, under};
use mv_rules::Rule;
use std::alloc::{AllocError, Global};

#[tactic(auto, using(mv_fields::proofs::Shared::shared_steps))]
pub(crate) fn ordering_of(
    alloc: Global,
    bits: &mut BitReader,
    subs: u8,
) -> Result<SubLayerOrdering, Fault<Rule>>
    requires { subs ≤ 6 }
    ensures { ReadsBy (sub_layer_ordering Video subs under VpsLimit) bits.old bits.new result }
{
    under(
        Rule::VpsLimit,
        SubLayerOrdering::read(alloc, bits, ParameterSet::Video, subs),
    )
}

pub(crate) fn print_ordering(
    out: &mut Printer,
    v: &SubLayerOrdering,
    subs: u8,
) -> Result<(), AllocError>
    requires { Valid (sub_layer_ordering Video subs under VpsLimit) v.now }
    ensures { OnOk result (out.new ≡ printed (sub_layer_ordering Video subs under VpsLimit) v.now out.old) }
{
    v.print(out, ParameterSet::Video, subs)
}

/// hrd_parameters, where these flags of the first group are in force before it.
#[tactic(auto, using(mv_fields::proofs::Shared::shared_steps))]
pub(crate) fn hrd_of(
    alloc: Global,
    bits: &mut BitReader,
    common: bool,
    subs: u8,
    before: HrdFlags,
) -> Result<Hrd, Fault<Rule>>
    requires { subs ≤ 6 }
    ensures { ReadsBy (hrd_parameters common subs before under VpsLimit) bits.old bits.new result }
{
    let args = HrdArgs {
        common,
        subs,
        nal: before.nal,
        vcl: before.vcl,
        sub_pic: before.sub_pic,
    };
    under(Rule::VpsLimit, Hrd::read(alloc, bits, &args))
}

pub(crate) fn print_hrd(
    out: &mut Printer,
    v: &Hrd,
    common: bool,
    subs: u8,
    before: HrdFlags,
) -> Result<(), AllocError>
    requires subs { subs ≤ 6 }
    requires valid { Valid (hrd_parameters common subs before under VpsLimit) v.now }
    ensures { OnOk result (out.new ≡ printed (hrd_parameters common subs before under VpsLimit) v.now out.old) }
{
    let args = HrdArgs {
        common,
        subs,
        nal: before.nal,
        vcl: before.vcl,
        sub_pic: before.sub_pic,
    };
    v.print(out, &args)
}
