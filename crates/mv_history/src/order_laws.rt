//! Laws of output order. Each function has an empty body, and its contract is the law.
#![tactic(auto)]

ghost use Rattle.std.specs.Prelude.{◌≡◌, ◌≤◌, ◌+◌, ◌++◌, ◌∷◌, [], ℕ, suc, ℤ, int_lt, Bool, false, List, All, length, map};
ghost use Rattle.std.specs.List.{list_any};
ghost use Rattle.mv_history.specs.History.{Throughout};
ghost use Rattle.mv_history.specs.Order.{Agree, IsNeverAbove, IsOrder, by, by_both, gone, is_above, sorted, staying, tops, waits};

/// Numbers give an order. Where places rise it is the order by number and place.
pub fn numbers_give_an_order<A>()
    ensures order { (count : A → ℤ) → IsOrder (by count) }
    ensures places { (count : A → ℤ) (place : A → ℕ) (past : List A) → Throughout (λ past a. All (λ x. place x ≤ place a) past) past →
        Throughout (Agree (by_both count place) (by count)) past }
{}

/// Bumping is the sort (C.5.2): where no element came late, what has left and what waits behind it are the history in
/// output order.
pub fn bumping_is_the_sort<A>()
    ensures { (reorder : ℕ) (lt : A → A → Bool) → IsOrder lt → (past : List A) → IsNeverAbove reorder lt past →
        gone reorder lt past ++ waits reorder lt past ≡ sorted lt past }
{}

/// One greatest number more than may wait shows whether an element comes late, whatever came late before it. What
/// waits are the last in output order.
pub fn the_greatest_numbers_show_what_is_late<A>()
    ensures late { (count : A → ℤ) (reorder : ℕ) (past : List A) (a : A) →
        is_above reorder int_lt (tops count reorder past) (count a) ≡ is_above reorder (by count) past a }
    ensures few { (count : A → ℤ) (reorder : ℕ) (past : List A) → length (tops count reorder past) ≤ suc reorder }
    ensures last { (reorder : ℕ) (lt : A → A → Bool) → IsOrder lt → (past : List A) → waits reorder lt past ≡ staying reorder (sorted lt past) }
{}

/// What has left stays the first part of all that leaves, and of every later history in output order where no element
/// of it came late. No more than `reorder` elements wait, and none is lost.
pub fn what_left_stays<A>()
    ensures more { (reorder : ℕ) (lt : A → A → Bool) (later past : List A) → (rest : List A) × (gone reorder lt (later ++ past) ≡ gone reorder lt past ++ rest) }
    ensures sorted { (reorder : ℕ) (lt : A → A → Bool) → IsOrder lt → (later past : List A) → IsNeverAbove reorder lt (later ++ past) →
        (rest : List A) × (sorted lt (later ++ past) ≡ gone reorder lt past ++ rest) }
    ensures few { (reorder : ℕ) (lt : A → A → Bool) (past : List A) → length (waits reorder lt past) ≤ reorder }
    ensures all { (reorder : ℕ) (lt : A → A → Bool) (past : List A) → length (gone reorder lt past) + length (waits reorder lt past) ≡ length past }
{}

/// Where no element came late before, one comes late exactly where it stands before one that has left, and so before
/// the last that left.
pub fn the_last_that_left_shows_what_is_late<A>()
    ensures any { (reorder : ℕ) (lt : A → A → Bool) → IsOrder lt → (past : List A) → IsNeverAbove reorder lt past → (a : A) →
        is_above reorder lt past a ≡ list_any (lt a) (gone reorder lt past) }
    ensures last { (reorder : ℕ) (lt : A → A → Bool) → IsOrder lt → (past : List A) → IsNeverAbove reorder lt past → (a g : A) (gs : List A) →
        gone reorder lt past ≡ gs ++ g ∷ [] → is_above reorder lt past a ≡ lt a g }
    ensures none { (reorder : ℕ) (lt : A → A → Bool) → IsOrder lt → (past : List A) → IsNeverAbove reorder lt past → (a : A) →
        gone reorder lt past ≡ [] → is_above reorder lt past a ≡ false }
{}

/// Orders that agree on each element and those before it put a history into the same order, and let the same elements
/// wait and leave.
pub fn orders_that_agree<A>()
    ensures sorted { (lt other : A → A → Bool) (past : List A) → Throughout (Agree lt other) past → sorted lt past ≡ sorted other past }
    ensures waits { (reorder : ℕ) (lt other : A → A → Bool) (past : List A) → Throughout (Agree lt other) past → waits reorder lt past ≡ waits reorder other past }
    ensures gone { (reorder : ℕ) (lt other : A → A → Bool) (past : List A) → Throughout (Agree lt other) past → gone reorder lt past ≡ gone reorder other past }
{}

/// Elements told in other terms, with the same order, are put into order, wait and leave alike.
pub fn order_in_other_terms<A, B>()
    ensures sorted { (f : A → B) (lt : A → A → Bool) (other : B → B → Bool) → ((x y : A) → other (f x) (f y) ≡ lt x y) → (past : List A) →
        map f (sorted lt past) ≡ sorted other (map f past) }
    ensures waits { (f : A → B) (reorder : ℕ) (lt : A → A → Bool) (other : B → B → Bool) → ((x y : A) → other (f x) (f y) ≡ lt x y) → (past : List A) →
        map f (waits reorder lt past) ≡ waits reorder other (map f past) }
    ensures gone { (f : A → B) (reorder : ℕ) (lt : A → A → Bool) (other : B → B → Bool) → ((x y : A) → other (f x) (f y) ≡ lt x y) → (past : List A) →
        map f (gone reorder lt past) ≡ gone reorder other (map f past) }
{}
