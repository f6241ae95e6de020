//! Laws of the table, as contracts of functions with nothing to do.

ghost use Rattle.std.specs.Prelude.{◌≡◌, ◌<◌, ℕ, Bool, true, List};
ghost use Rattle.mv_syntax.specs.Laws.{ExactlyOne, RoundTrips};
ghost use Rattle.mv_vpsext.specs.Args.{VpsArgsValue as Args};
ghost use Rattle.mv_syntax.specs.Table.{Valid};
ghost use Rattle.mv_layers.specs.Derived.{IsOrderly};
ghost use Rattle.mv_vpsext.specs.VpsExt.{VpsExtValue as Ext, vps_extension};
ghost use Rattle.mv_vpsext.specs.Derived.{derived};

/// Of any bits exactly one holds: one extension of a video parameter set (F.7.3.2.1.1) reads, one rule cuts them, or neither.
/// What was written reads back, and what reads writes back the same bits. What a valid extension describes is orderly: each list
/// rises, closures are closed, the outputs of an output layer set are kept, and what is kept is closed under direct references.
pub fn vps_extension_laws()
    ensures exactly_one { (args : Args) (b : List Bool) → ExactlyOne (vps_extension args) b }
    ensures round_trips { (args : Args) → RoundTrips (vps_extension args) }
    ensures orderly { (args : Args) (ext : Ext) → Valid (vps_extension args) ext → IsOrderly (derived args ext) }
{}
