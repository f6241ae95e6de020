//! Laws of short-term reference picture sets, as contracts of functions with nothing to do.

ghost use Rattle.std.specs.Prelude.{◌+◌, ◌*◌, ◌≤◌, ℕ, Bool, List, length};
ghost use Rattle.std.specs.List.{All};
ghost use Rattle.mv_syntax.specs.Table.{Valid};
ghost use Rattle.mv_syntax.specs.Laws.{ExactlyOne, RoundTrips};
ghost use Rattle.mv_short_sets.specs.ShortSetValue.{ShortSetValue};
ghost use Rattle.mv_short_sets.specs.declared.delta.Delta.{Delta};
ghost use Rattle.mv_short_sets.specs.Deltas.{deltas, deltas_of_each, IsSided, IsNear};
ghost use Rattle.mv_short_sets.specs.ShortSet.{st_ref_pic_set, AreShortArgs};

/// Of any bits exactly one holds of st_ref_pic_set (7.3.7): one value reads, a field is past its limit, or neither. What
/// was written reads back, and what reads writes back the same bits.
pub fn short_set_laws()
    ensures exactly_one { (idx num : ℕ) (earlier : List (List Delta)) (b : List Bool) → ExactlyOne (st_ref_pic_set idx num earlier) b }
    ensures round_trips { (idx num : ℕ) (earlier : List (List Delta)) → RoundTrips (st_ref_pic_set idx num earlier) }
{}

/// A valid set has at most 16 deltas, those before the current picture first, then those after it, and none is 0. Those of
/// set idx are from -32768 * (idx + 16) to 32768 * (idx + 16).
pub fn delta_laws()
    ensures few { (idx num : ℕ) (earlier : List (List Delta)) (s : ShortSetValue) → Valid (st_ref_pic_set idx num earlier) s → length (deltas idx earlier s) ≤ 16 }
    ensures sided { (idx : ℕ) (earlier : List (List Delta)) (s : ShortSetValue) → IsSided (deltas idx earlier s) }
    ensures near { (idx num : ℕ) (sets : List ShortSetValue) (s : ShortSetValue) → AreShortArgs idx num sets → Valid (st_ref_pic_set idx num (deltas_of_each sets)) s → All (IsNear (32768 * (idx + 16))) (deltas idx (deltas_of_each sets) s) }
{}
