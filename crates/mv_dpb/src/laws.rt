//! Laws of output order. Each function has no effect, and its contract is the law.
#![tactic(auto)]

ghost use Rattle.std.specs.Prelude.{◌≡◌, ◌≤◌, ℕ, ℤ, List, [], ◌∷◌, false, length, map, drop};
ghost use Rattle.std.specs.List.{list_any};
ghost use Rattle.mv_history.specs.Order.{by, is_above, leaving, put, staying};
ghost use Rattle.mv_dpb.specs.declared.set_order.Counted.{Counted};
ghost use Rattle.mv_dpb.specs.declared.waits.Waits.{Waits};
ghost use Rattle.mv_dpb.specs.Leaving.{AreOf, AreWhole, NoneOf, WaitingUnit, bumps, pictures_of, unit_first, with_other};
ghost use Rattle.mv_dpb.specs.SetOrder.{begun, comes_late, is_last, latest, order_after, with_unit};
ghost use Rattle.mv_dpb.specs.Stored.{Stored};
ghost use Rattle.mv_dpb.specs.Waiting.{behind_first, given};
ghost use Rattle.mv_dpb.specs.Waits.{comes_first, is_begun_of};

use crate::set_order::Counted;
use mv_history::order_laws::the_greatest_numbers_show_what_is_late;

/// What is kept of a set shows which picture comes late (C.5.2): one before which more access units than may wait came with a
/// greater count. It is what the access units leave, each counted once, however many of its pictures are stepped over.
pub fn the_order_kept_shows_what_is_late()
    ensures begins { (reorder : ℕ) → begun reorder ≡ order_after reorder [] }
    ensures late { (reorder : ℕ) (past : List Counted) (unit : Counted) →
        comes_late (order_after reorder past) unit.count ≡ is_above reorder (by (λ u. u.count)) past unit }
    ensures again { (reorder : ℕ) (past : List Counted) (unit : Counted) →
        with_unit (order_after reorder (unit ∷ past)) unit.au unit.count ≡ order_after reorder (unit ∷ past) }
    ensures more { (reorder : ℕ) (past : List Counted) (unit : Counted) → is_last (latest past) unit.au unit.count ≡ false →
        with_unit (order_after reorder past) unit.au unit.count ≡ order_after reorder (unit ∷ past) }
{
    the_greatest_numbers_show_what_is_late::<Counted>();
}

/// An access unit leaves whole, once more of them wait than may (C.5.2.4): where each access unit's pictures stand together, and
/// none has left, one bump after another gives the pictures of the first access units, so that as many stay as may wait. What is
/// given of the pictures doesn't depend on what has left.
pub fn an_access_unit_leaves_whole<P>()
    ensures whole { (reorder room : ℕ) (units : List (WaitingUnit P)) → AreWhole units → (n : ℕ) → length (pictures_of units) ≤ n →
        bumps n (record { reorder = reorder; room = room; pictures = pictures_of units })
        ≡ (map given (pictures_of (leaving reorder units)), record { reorder = reorder; room = room; pictures = pictures_of (staying reorder units) }) }
    ensures given { (pictures : List (Stored Waits P)) → map given (behind_first pictures) ≡ map given (drop 1 pictures) }
{}

/// Pictures that are added join those of their access unit, which stands in output order among the access units that wait: the
/// first picture of an access unit, and another picture of one. No access unit that waits whole has begun to leave.
pub fn pictures_join_their_access_unit<P>()
    ensures first { (s : Stored Waits P) (units : List (WaitingUnit P)) → AreWhole units → NoneOf s.told.au (pictures_of units) →
        put (λ a b. comes_first a.told b.told) s (pictures_of units)
        ≡ pictures_of (put unit_first (record { first = s; others = [] }) units) }
    ensures another { (s : Stored Waits P) (unit : WaitingUnit P) → unit.first.told.shown.count ≡ s.told.shown.count → unit.first.told.au ≡ s.told.au →
        (units : List (WaitingUnit P)) → AreWhole units → NoneOf s.told.au (pictures_of units) →
        put (λ a b. comes_first a.told b.told) s (pictures_of (put unit_first unit units))
        ≡ pictures_of (put unit_first (with_other s unit) units) }
    ensures whole { (au : ℕ) (units : List (WaitingUnit P)) → AreWhole units → list_any (is_begun_of au) (map (λ s. s.told) (pictures_of units)) ≡ false }
{}

/// Access units stay whole: one that is put among others, one that another picture joins, and those that stay. What is of no
/// access unit that waits is of none that stays.
pub fn access_units_stay_whole<P>()
    ensures put { (au : ℕ) (count : ℤ) (unit : WaitingUnit P) (units : List (WaitingUnit P)) →
        AreOf au count (unit.first ∷ unit.others) → NoneOf au (pictures_of units) → AreWhole units → AreWhole (put unit_first unit units) }
    ensures joined { (au : ℕ) (count : ℤ) (s : Stored Waits P) (unit : WaitingUnit P) → AreOf au count (s ∷ []) → AreOf au count (unit.first ∷ unit.others) →
        AreOf au count ((with_other s unit).first ∷ (with_other s unit).others) }
    ensures staying { (reorder : ℕ) (units : List (WaitingUnit P)) → AreWhole units → AreWhole (staying reorder units) }
    ensures none_put { (au : ℕ) (unit : WaitingUnit P) (units : List (WaitingUnit P)) → NoneOf au (unit.first ∷ unit.others) → NoneOf au (pictures_of units) →
        NoneOf au (pictures_of (put unit_first unit units)) }
    ensures none_staying { (au reorder : ℕ) (units : List (WaitingUnit P)) → NoneOf au (pictures_of units) → NoneOf au (pictures_of (staying reorder units)) }
{}
