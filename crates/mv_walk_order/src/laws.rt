//! Laws of output order. Each function has no effect, and its contract is the law.
#![tactic(auto)]

ghost use Rattle.std.specs.Prelude.{◌≡◌, ◌≤◌, ◌<◌, ◌∷◌, ◌&&◌, Bool, ℕ, List, Option, true, false, length};
ghost use Rattle.mv_syntax.specs.Payload.{ValidPayload};
ghost use Rattle.mv_sps.specs.Sps.{SpsValue, sps_payload};
ghost use Rattle.mv_pictures.specs.Facts.{Fact};
ghost use Rattle.mv_pictures.specs.History.{judged};
ghost use Rattle.mv_pictures.specs.Judged.{Judged, is_picture, is_slice};
ghost use Rattle.mv_pictures.specs.Output.{outputs, reorder};
ghost use Rattle.mv_pictures.specs.SliceFields.{is_put_out};
ghost use Rattle.mv_walk_order.specs.OrderSteps.{reorder_in, set_of};
ghost use Rattle.mv_walk_order.specs.OrderValues.{OrdersValue};
ghost use Rattle.mv_walk_order.specs.Orders.{Stands, StandsBefore};

/// What is kept goes on where nothing is counted. A slice segment that starts no sequence goes by the sequence that goes on; a
/// slice segment that isn't put out, and what is no picture, count for nothing.
pub fn what_is_not_put_out_counts_for_nothing()
    ensures goes_on { (s : OrdersValue) (past : List Judged) (p : Fact) → is_slice p ≡ true → (judged past p).seq ≡ false →
        Stands s past → StandsBefore s past (judged past p) }
    ensures not_shown { (s : OrdersValue) (past : List Judged) (p : Fact) → is_slice p ≡ true → ((judged past p).decoded && is_put_out p) ≡ false →
        StandsBefore s past (judged past p) → Stands s (judged past p ∷ past) }
    ensures no_picture { (s : OrdersValue) (past : List Judged) (p : Fact) → is_picture p ≡ false → Stands s past → Stands s (judged past p ∷ past) }
{}

/// What is kept of a set are the layers that it puts out in a picture's sequence, and its reorder number there (F.7.4.3.1.1).
pub fn the_sets_are_those_of_the_sequence()
    ensures outputs { (s : OrdersValue) (past : List Judged) (d : Judged) → StandsBefore s past d → (o : ℕ) → (set_of s.sets o).outputs ≡ outputs d.seq_vps o }
    ensures reorder { (s : OrdersValue) (past : List Judged) (d : Judged) → StandsBefore s past d → (o : ℕ) → o < length s.sets → (set_of s.sets o).reorder ≡ reorder o d }
{}

/// The reorder number of a valid sequence parameter set is at most 15 (this project's profile), so that a sequence may begin with
/// it.
pub fn a_valid_sequence_parameter_set_lets_few_wait()
    ensures { (layer vps_sub_layers : ℕ) (v : SpsValue × Option (List Bool)) → ValidPayload (sps_payload layer vps_sub_layers) v → reorder_in v.0 ≤ 15 }
{}
