//! Laws of the pictures of the latest sequence. Each function has an empty body, and its contract is the law.
#![tactic(auto)]

ghost use Rattle.std.specs.Prelude.{◌≡◌, ◌≤◌, ℕ, true, All, List};
ghost use Rattle.mv_pictures.specs.Held.{Held};
ghost use Rattle.mv_pictures.specs.Judged.{Judged, au, begins, layer};
ghost use Rattle.mv_pictures.specs.Look.{in_sequence, sequence};
ghost use Rattle.mv_pictures.specs.References.{term_in};
ghost use Rattle.mv_commuting.specs.HeldOneMore.{held_of};
ghost use Rattle.mv_walk_values.specs.Orderly.{IsOrderly};
ghost use Rattle.mv_walk_values.specs.Values.{term_of};

/// The base picture that starts the latest sequence is of no later access unit than the units behind it. So the term of a picture
/// of the sequence, and of one that is held, is the same among the units of the sequence, by which references go, and among all.
pub fn a_sequence_has_its_terms()
    ensures near { (past : List Judged) → IsOrderly past → All (λ (d : Judged). All (λ (r : Judged). begins r ≡ true → au r.fact ≤ au d.fact) (sequence past)) (sequence past) }
    ensures terms { (past : List Judged) → IsOrderly past → All (λ (d : Judged). term_in (in_sequence past (layer d.fact)) d ≡ term_of past d) (sequence past) }
    ensures held { (past : List Judged) (n : ℕ) → IsOrderly past → All (λ (h : Held). term_in (in_sequence past n) h.it ≡ term_of past h.it) (held_of past n) }
{}
