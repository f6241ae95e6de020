//! Laws of the pictures that are kept, made and shown, with one unit or one picture more. Each function has an empty body, and its
//! contract is the law.
#![tactic(auto)]

ghost use Rattle.std.specs.Prelude.{◌≡◌, ◌∷◌, ◌++◌, ◌≤◌, [], ℕ, ℤ, Bool, true, false, All, List, None, Option, Some, filter, map, reverse};
ghost use Rattle.std.specs.List.{enumerate_from, filter_map, list_any};
ghost use Rattle.std.specs.Prelude.{option_map, slice_get, take};
ghost use Rattle.mv_dpb.specs.declared.held.Keep.{Keep};
ghost use Rattle.mv_dpb.specs.declared.shown.Shown.{Shown};
ghost use Rattle.mv_dpb.specs.declared.waits.Waits.{Waits};
ghost use Rattle.mv_dpb.specs.Stored.{Stored};
ghost use Rattle.mv_dpb.specs.Waiting.{WaitingValue, given, with_picture as with_waiting, without_first};
ghost use Rattle.mv_pictures.specs.Decoding.{decoded_of, out_history};
ghost use Rattle.mv_pictures.specs.Facts.{Fact};
ghost use Rattle.mv_pictures.specs.Held.{Held};
ghost use Rattle.mv_pictures.specs.History.{history_of, judged};
ghost use Rattle.mv_pictures.specs.Judged.{Judged, au, begins, is_picture, is_slice, layer};
ghost use Rattle.mv_pictures.specs.Look.{in_sequence, sequence};
ghost use Rattle.mv_pictures.specs.Output.{is_before, is_output};
ghost use Rattle.mv_pictures.specs.References.{segment, start_of, term_in};
ghost use Rattle.mv_pictures.specs.Terms.{Tag, Term, references_of};
ghost use Rattle.mv_pictures.specs.Verdict.{breaks_none};
ghost use Rattle.mv_commuting.specs.HeldOneMore.{held_of, marked_by, names_held, unmarked};
ghost use Rattle.mv_rebuild.specs.Parts.{Part, has};
ghost use Rattle.mv_rebuild.specs.Value.{reference_of, shown_of, showings};
ghost use Rattle.mv_rps.specs.Standing.{AreApart, au_kept, kept_by_name, told};
ghost use Rattle.mv_walk_layer.specs.LayerValue.{LatestValue, LayerValue, last_picture, no_pictures, referred, with_decoded, with_picture};
ghost use Rattle.mv_walk_order.specs.Queue.{pictures_in};
ghost use Rattle.mv_walk_values.specs.Holding.{HoldsValues, whole_held};
ghost use Rattle.mv_walk_values.specs.InMaking.{MadeValue};
ghost use Rattle.mv_walk_values.specs.Orderly.{IsOrderly};
ghost use Rattle.mv_walk_values.specs.Showing.{ShowsValues, in_order, latest_sequence};
ghost use Rattle.mv_walk_values.specs.Standing.{ValuesStand};
ghost use Rattle.mv_walk_values.specs.Values.{is_segment_of, parts_of, term_of, value_of};

use mv_rebuild::Rebuild;

/// While no unit breaks a rule, a history is orderly: a new picture's first segment is no segment of a decoded picture before it,
/// and the term of a picture among the units of its sequence, by which references go, is its term (7.4.2.4.4, F.7.4.2.4.4).
pub fn histories_are_orderly()
    ensures orderly { (us : List (List ℕ)) → breaks_none (history_of us) ≡ true → IsOrderly (history_of us) }
    ensures none { (e : Judged) (past : List Judged) → IsOrderly (e ∷ past) → is_picture e.fact ≡ true → All (λ (d : Judged). d.decoded ≡ true → is_segment_of d e ≡ false) past }
    ensures in_sequence { (past : List Judged) (d : Judged) → IsOrderly past → All (λ (r : Judged). begins r ≡ true → au r.fact ≤ au d.fact) (sequence past) → term_in (in_sequence past (layer d.fact)) d ≡ term_of past d }
{}

/// A picture is the value of its parts. A slice segment of it adds itself to them, and no other unit changes them.
pub fn a_picture_gains_its_segments<P>()
    ensures value { (rebuild : List (Part P) → P) (all : List Judged) (d : Judged) → value_of rebuild all d ≡ rebuild (parts_of rebuild (term_of all d)) }
    ensures more { (rebuild : List (Part P) → P) (e d : Judged) (past : List Judged) → is_segment_of d e ≡ true → parts_of rebuild (term_of (e ∷ past) d) ≡ parts_of rebuild (term_of past d) ++ has (segment e) ∷ [] }
    ensures first { (rebuild : List (Part P) → P) (e : Judged) (past : List Judged) (refs : List (Tag × Term)) → is_slice e.fact ≡ true → All (λ x. is_segment_of e x ≡ false) past → e.references ≡ references_of refs →
        parts_of rebuild (term_of (e ∷ past) e) ≡ Part.begins (start_of e) ∷ (map (reference_of rebuild) refs ++ has (segment e) ∷ []) }
    ensures kept { (rebuild : List (Part P) → P) (e d : Judged) (past : List Judged) → is_segment_of d e ≡ false → value_of rebuild (e ∷ past) d ≡ value_of rebuild past d }
{}

/// The buffer of a layer holds the values of the pictures that are held: behind a unit that changes nothing of what is held; behind
/// a start; behind another decoded picture, which keeps those that it names; and once the picture in the making is whole (8.3.2).
pub fn buffers_hold_values<P>()
    ensures kept { (rebuild : List (Part P) → P) (l : LayerValue P) (e : Judged) (past : List Judged) (n : ℕ) (making : Option (ℤ × ℕ)) → held_of (e ∷ past) n ≡ held_of past n →
        All (λ (h : Held). is_segment_of h.it e ≡ false) (reverse (whole_held past n making)) → HoldsValues rebuild l past n making → HoldsValues rebuild l (e ∷ past) n making }
    ensures none { (rebuild : List (Part P) → P) (past : List Judged) (n : ℕ) → held_of past n ≡ [] → HoldsValues {P = P} rebuild no_pictures past n None }
    ensures start { (rebuild : List (Part P) → P) (l : LayerValue P) (keep : List Keep) (latest : LatestValue) (e : Judged) (past : List Judged) (n : ℕ) (m : ℤ × ℕ) → held_of (e ∷ past) n ≡ unmarked e ∷ [] →
        HoldsValues rebuild (with_decoded true keep latest l) (e ∷ past) n (Some m) }
    ensures decoded { (rebuild : List (Part P) → P) (l : LayerValue P) (keep : List Keep) (latest : LatestValue) (e : Judged) (past : List Judged) (n : ℕ) (m : ℤ × ℕ) →
        held_of (e ∷ past) n ≡ unmarked e ∷ map (marked_by e) (filter (names_held e) (held_of past n)) → keep ≡ filter_map (kept_by_name e.names e.longs) (enumerate_from 0 (told (held_of past n))) →
        All (λ (h : Held). is_segment_of h.it e ≡ false) (reverse (held_of past n)) → HoldsValues rebuild l past n None → HoldsValues rebuild (with_decoded false keep latest l) (e ∷ past) n (Some m) }
    ensures whole { (rebuild : List (Part P) → P) (l : LayerValue P) (past : List Judged) (n : ℕ) (m : ℤ × ℕ) (count : ℤ) (unit : ℕ) (pic : P) (it : Held) (rest : List Held) → held_of past n ≡ it ∷ rest → pic ≡ value_of rebuild past it.it →
        HoldsValues rebuild l past n (Some m) → HoldsValues rebuild (with_picture count unit pic l) past n None }
{}

/// What was shown and what waits are the values of the output pictures that are whole, in output order: as a picture is given, as
/// one comes that stands before none that was shown, and as a sequence starts where none waits. What was shown is the first part of
/// all, and all of it where none waits (C.5.2).
pub fn output_goes_in_order<P>()
    ensures given { (rebuild : List (Part P) → P) (o : ℕ) (past : List Judged) (made : Bool) (w : WaitingValue P) (shown : List (Shown × P)) (s : Stored Waits P) (rest : List (Stored Waits P)) → w.pictures ≡ s ∷ rest →
        ShowsValues rebuild o past made (Some w) shown → ShowsValues rebuild o past made (Some (without_first w)) (shown ++ given s ∷ []) }
    ensures comes { (rebuild : List (Part P) → P) (o : ℕ) (past : List Judged) (w : WaitingValue P) (shown : List (Shown × P)) (x : Judged) (rest : List Judged) (told_x : Shown) (unit : ℕ) (pic : P) →
        filter (is_output o) past ≡ x ∷ rest → x.sequence ≡ latest_sequence past → told_x ≡ shown_of (decoded_of past x) → unit ≡ au x.fact → pic ≡ value_of rebuild past x →
        (shows : ShowsValues rebuild o past true (Some w) shown) → list_any (is_before x) (take shows.left (in_order o past true)) ≡ false → ShowsValues rebuild o past false (Some (with_waiting told_x unit pic w)) shown }
    ensures begun { (rebuild : List (Part P) → P) (o : ℕ) (e : Judged) (past : List Judged) (made making : Bool) (q new : Option (WaitingValue P)) (shown : List (Shown × P)) →
        in_order o (e ∷ past) making ≡ in_order o past made → All (λ d. is_segment_of d e ≡ false) (in_order o past made) → pictures_in q ≡ [] → pictures_in new ≡ [] →
        ShowsValues rebuild o past made q shown → ShowsValues rebuild o (e ∷ past) making new shown }
    ensures first { (rebuild : List (Part P) → P) (o : ℕ) (past : List Judged) (q : Option (WaitingValue P)) (shown : List (Shown × P)) → ShowsValues rebuild o past false q shown →
        (rest : List (Shown × P)) × (showings rebuild (out_history past o) ≡ shown ++ rest) }
    ensures all { (rebuild : List (Part P) → P) (o : ℕ) (past : List Judged) (q : Option (WaitingValue P)) (shown : List (Shown × P)) → pictures_in q ≡ [] → ShowsValues rebuild o past false q shown →
        shown ≡ showings rebuild (out_history past o) }
{}

/// The references of a picture are values: those of a part of its reference picture set, by their places among the pictures of its
/// layer that are kept, and of another layer the latest picture, which stands last in its buffer (8.3.2, F.8.1.6).
pub fn references_are_values<P>()
    ensures part { (l : LayerValue P) (hs : List Held) (val : Held → P) → map (λ s. s.told) l.buffer ≡ told hs → map (λ s. s.picture) l.buffer ≡ map val (reverse hs) → AreApart (told hs) →
        (tag : Tag) (keep : List Keep) (indexes : List ℕ) (ms : List Held) → map (au_kept (told hs) keep) indexes ≡ map (λ (h : Held). Some (au h.it.fact)) ms → All (λ (h : Held). (i : ℕ) × (slice_get (reverse hs) i ≡ Some h)) ms →
        filter_map (λ i. option_map (λ (q : ℤ × P). Part.refers tag q.1) (referred keep i l)) indexes ≡ map (λ (h : Held). Part.refers tag (val h)) ms }
    ensures last { (l : LayerValue P) (val : Held → P) (h : Held) (rest : List Held) → map (λ s. s.picture) l.buffer ≡ map val (reverse (h ∷ rest)) → option_map (λ (q : ℤ × P). q.1) (last_picture l) ≡ Some (val h) }
{}

/// A unit that is no slice segment, a parameter set, an end or a stray among them, changes nothing: what is kept, made and shown
/// stands for the history with it too.
pub fn what_is_no_segment_changes_nothing<R: Rebuild>(_rebuild: &R)
    ensures stands { (o : ℕ) (past : List Judged) (p : Fact) (layers : List (LayerValue R.Pic)) (making : Option (MadeValue R.Work)) (q : Option (WaitingValue R.Pic)) (shown : List (Shown × R.Pic)) →
        is_picture p ≡ false → is_slice p ≡ false → ValuesStand (R.meaning _rebuild.now) o past layers making q shown → ValuesStand (R.meaning _rebuild.now) o (judged past p ∷ past) layers making q shown }
{}
