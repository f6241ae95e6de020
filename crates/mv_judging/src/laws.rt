//! Laws of the definitions. Each function has an empty body, and its contract is the law.
#![tactic(auto)]

ghost use Rattle.std.specs.Prelude.{◌≡◌, ◌≢◌, ◌≤◌, ◌++◌, ◌∷◌, [], ℕ, List, Bool, true, false, None, Some, Option, map, length, take, if◌then◌else◌};
ghost use Rattle.std.specs.Option.{option_map, option_or};
ghost use Rattle.mv_units.specs.Units.{NalUnit};
ghost use Rattle.mv_judging.specs.declared.stop.Stop.{Stop};
ghost use Rattle.mv_judging.specs.Event.{IsLate, ShowNothing, ShowsBy, Due, due, due_by, event, seen};
ghost use Rattle.mv_judging.specs.Extract.{extract};
ghost use Rattle.mv_judging.specs.Facts.{Fact, fact, facts, facts_behind};
ghost use Rattle.mv_judging.specs.Format.{Format, IsFormat, byte_stream};
ghost use Rattle.mv_judging.specs.Judge.{Judge, judged, stop_at};

/// What units more add to the verdict of a judge, and that an objection stays whatever follows (this project's
/// profile).
pub fn units_more_are_judged()
    ensures push { (j : Judge) (us : List NalUnit) (u : NalUnit) →
        judged j (us ++ u ∷ []) ≡ option_or (judged j us) (option_map (stop_at (length us) u.place) (j.late us u)) }
    ensures stays { (j : Judge) (us vs : List NalUnit) (e : Stop) → judged j us ≡ Some e → judged j (us ++ vs) ≡ Some e }
{}

/// The facts of a stream are of its units in order, and each is made from its unit and those before it; what
/// units more add to the extract (this project's profile).
pub fn units_more_are_kept()
    ensures bytes { (us : List NalUnit) → map (λ (f : Fact). f.bytes) (facts us) ≡ map (λ (u : NalUnit). u.bytes) us }
    ensures facts { (us : List NalUnit) (u : NalUnit) → facts (us ++ u ∷ []) ≡ facts us ++ fact us u ∷ [] }
    ensures push { (kept : Fact → Bool) (us : List NalUnit) (u : NalUnit) →
        extract kept (us ++ u ∷ []) ≡ extract kept us ++ (if kept (fact us u) then u.bytes ∷ [] else []) }
    ensures begins { (kept : Fact → Bool) (us vs : List NalUnit) → (more : List (List ℕ)) × (extract kept (us ++ vs) ≡ extract kept us ++ more) }
{}

/// The byte stream of Annex B is a form in which units come: what its bytes show stays.
pub fn the_byte_stream_is_a_format()
    ensures { IsFormat byte_stream }
{}

/// What the bytes taken show of every byte string that begins with them (this project's profile), for any judge
/// and any form: exactly the stop that is seen. Where none is seen and the judge never objects by a rule of the
/// form itself, they show no event at all.
pub fn bytes_taken_show()
    ensures stays { (f : Format) (j : Judge) (t s : List ℕ) (e : Stop) → IsFormat f → seen f j false t ≡ Some e → seen f j false (t ++ s) ≡ Some e }
    ensures shows { (f : Format) (j : Judge) (t : List ℕ) (e : Stop) → IsFormat f → seen f j false t ≡ Some e → ShowsBy f j t (Some e) }
    ensures only { (f : Format) (j : Judge) (t : List ℕ) (e : Stop) → IsFormat f → IsLate f j → ShowsBy f j t (Some e) → seen f j false t ≡ Some e }
    ensures nothing { (f : Format) (j : Judge) (t : List ℕ) → IsFormat f → IsLate f j → seen f j false t ≡ None → ShowNothing f j t }
{}

/// What the bytes that a source holds decide (this project's profile): their event where there are no more than
/// the limit, what the first bytes show, and else that there are too many.
pub fn bytes_held_decide()
    ensures whole { (f : Format) (j : Judge) (limit : ℕ) (held : List ℕ) → IsFormat f → length held ≤ limit → due f j limit held ≡ due_by (event f j held) }
    ensures shown { (f : Format) (j : Judge) (limit : ℕ) (taken left : List ℕ) (e : Stop) → IsFormat f → length taken ≤ limit →
        seen f j false taken ≡ Some e → due f j limit (taken ++ left) ≡ Due.Stops e }
    ensures over { (f : Format) (j : Judge) (limit : ℕ) (taken left : List ℕ) (extra : ℕ) → length taken ≡ limit →
        seen f j false taken ≡ None → due f j limit ((taken ++ extra ∷ []) ++ left) ≡ Due.Exceeds }
{}
