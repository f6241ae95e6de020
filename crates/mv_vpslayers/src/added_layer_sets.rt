//! num_add_layer_sets, and the rules on layer sets, which are tried before it.

ghost use Rattle.std.specs.Prelude.{◌≡◌, OnOk};
ghost use Rattle.mv_syntax.specs.Table.{Valid};
ghost use Rattle.mv_syntax.specs.Printed.{printed};
ghost use Rattle.mv_fields.specs.Reading.{ReadsBy};
ghost use Rattle.mv_vpslayers.specs.Dependencies.{added_layer_sets};

use mv_bits::BitReader;
use mv_fields::{Fault, Printer, ue_within_if};
use mv_layers::{
    LayerInfo, LayerSet, any_has_unknown, any_lacks_base, any_not_closed, independent_layers,
};
use mv_rules::Rule;
use std::alloc::{AllocError, Global};

#[tactic(auto, unfolding(crate::specs::Dependencies::added_layer_sets))]
pub(crate) fn added_layer_sets_of(
    alloc: Global,
    bits: &mut BitReader,
    infos: &[LayerInfo],
    sets: &[LayerSet],
) -> Result<Option<u32>, Fault<Rule>>
    ensures { ReadsBy (added_layer_sets infos.now sets.now) bits.old bits.new result }
{
    if any_lacks_base(sets) {
        return Err(Fault::Breaks(Rule::LayerSetBase));
    }
    if any_not_closed(infos, sets) {
        return Err(Fault::Breaks(Rule::LayerSetClosure));
    }
    if any_has_unknown(alloc, infos, sets)? {
        return Err(Fault::Breaks(Rule::LayerSetUnknown));
    }
    let present = independent_layers(infos) > 1;
    ue_within_if(bits, present, Rule::AddedLayerSets, 0)
}

#[tactic(auto, unfolding(crate::specs::Dependencies::added_layer_sets))]
pub(crate) fn print_added_layer_sets(
    out: &mut Printer,
    v: Option<u32>,
    infos: &[LayerInfo],
    sets: &[LayerSet],
) -> Result<(), AllocError>
    requires { Valid (added_layer_sets infos.now sets.now) v }
    ensures { OnOk result (out.new ≡ printed (added_layer_sets infos.now sets.now) v out.old) }
{
    out.ue_within_if(
        independent_layers(infos) > 1,
        "num_add_layer_sets",
        Rule::AddedLayerSets,
        0,
        v,
    )
}
