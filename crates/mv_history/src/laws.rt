//! Laws of histories. Each function has an empty body, and its contract is the law.
#![tactic(auto)]

ghost use Rattle.std.specs.Prelude.{◌≡◌, Bool, List, filter, map};
ghost use Rattle.std.specs.List.{find, list_any};
ghost use Rattle.mv_history.specs.History.{IsAlone, Keeps, Tells, Throughout, from, run, since};

/// Judged and then kept is kept and then judged, where what is judged of a kept element doesn't depend on those that
/// aren't kept. Then keeping twice is keeping once.
pub fn judged_then_kept<A, B>()
    ensures same { (judge : List B → A → B) (source : B → A) (kept : B → Bool) → Tells judge source → (xs : List A) →
        Throughout (IsAlone judge kept) xs → run judge (map source (filter kept (run judge xs))) ≡ filter kept (run judge xs) }
    ensures told { (judge : List B → A → B) (source : B → A) (keeps : A → Bool) → Tells judge source → (xs : List A) →
        Throughout (IsAlone judge (λ b. keeps (source b))) xs → run judge (filter keeps xs) ≡ filter (λ b. keeps (source b)) (run judge xs) }
    ensures twice { (judge : List B → A → B) (source : B → A) (kept : B → Bool) → Tells judge source → (xs : List A) →
        Throughout (IsAlone judge kept) xs → map source (filter kept (run judge (map source (filter kept (run judge xs))))) ≡ map source (filter kept (run judge xs)) }
    ensures source { (judge : List B → A → B) (source : B → A) → Tells judge source → (xs : List A) → map source (run judge xs) ≡ xs }
{}

/// A question that concerns kept elements alone has the same answer where the others are gone.
pub fn kept_elements_answer<A>()
    ensures latest { (test kept : A → Bool) (xs : List A) → Keeps test kept xs → find test (filter kept xs) ≡ find test xs }
    ensures all { (test kept : A → Bool) (xs : List A) → Keeps test kept xs → filter test (filter kept xs) ≡ filter test xs }
    ensures some { (test kept : A → Bool) (xs : List A) → Keeps test kept xs → list_any test (filter kept xs) ≡ list_any test xs }
    ensures since { (test kept : A → Bool) (xs : List A) → Keeps test kept xs → since test (filter kept xs) ≡ filter kept (since test xs) }
    ensures from { (test kept : A → Bool) (xs : List A) → Keeps test kept xs → from test (filter kept xs) ≡ filter kept (from test xs) }
    ensures either { (test kept : A → Bool) (xs : List A) → filter test (filter kept xs) ≡ filter kept (filter test xs) }
{}
