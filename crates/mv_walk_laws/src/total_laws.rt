//! Laws of what is counted of a stream. Each function has an empty body, and its contract is the law.
#![tactic(auto)]

ghost use Rattle.std.specs.Prelude.{◌≡◌, ◌+◌, ◌++◌, ◌∷◌, [], ℕ, false, true, List, length, nat_eq, reverse, if◌then◌else◌};
ghost use Rattle.std.specs.List.{filter};
ghost use Rattle.mv_units.specs.Head.{head};
ghost use Rattle.mv_commuting.specs.OneMore.{fact_behind};
ghost use Rattle.mv_pictures.specs.Decoding.{decode};
ghost use Rattle.mv_pictures.specs.Extract.{extract, last_vps, totals};
ghost use Rattle.mv_pictures.specs.Facts.{Fact};
ghost use Rattle.mv_pictures.specs.History.{history_of, judged};
ghost use Rattle.mv_pictures.specs.Items.{items, stays};
ghost use Rattle.mv_pictures.specs.Judged.{Judged, begins, is_picture};
ghost use Rattle.mv_pictures.specs.Layers.{keeps};
ghost use Rattle.mv_pictures.specs.Verdict.{breaks_none, no_picture};
ghost use Rattle.mv_walk_laws.specs.Streams.{item_behind};

/// How many units are kept for an output layer set, with one unit more (F.10.1).
pub fn kept_units_are_counted()
    ensures extract { (us : List (List ℕ)) (o : ℕ) → length (extract us o) ≡ length (filter (stays o) (items (reverse us))) }
    ensures more { (us : List (List ℕ)) (u : List ℕ) (o : ℕ) →
        length (filter (stays o) (items (reverse (us ++ u ∷ [])))) ≡ length (filter (stays o) (items (reverse us))) + (if stays o (item_behind us u) then 1 else 0) }
    ensures extract_more { (us : List (List ℕ)) (u : List ℕ) (o : ℕ) → length (extract (us ++ u ∷ []) o) ≡ length (extract us o) + (if stays o (item_behind us u) then 1 else 0) }
    ensures by_the_set { (us : List (List ℕ)) (u : List ℕ) (o : ℕ) → stays o (item_behind us u) ≡ keeps o (last_vps (us ++ u ∷ [])) (head u).layer }
{}

/// How many pictures are decoded and how many sequences there are, with one unit more; and whether a base picture was decoded,
/// while no unit breaks a rule.
pub fn pictures_and_sequences_are_counted()
    ensures pictures { (us : List (List ℕ)) → length (decode us) ≡ length (filter (λ (d : Judged). d.decoded) (history_of us)) }
    ensures pictures_more { (us : List (List ℕ)) (u : List ℕ) →
        length (decode (us ++ u ∷ [])) ≡ length (decode us) + (if (judged (history_of us) (fact_behind us u)).decoded then 1 else 0) }
    ensures sequences_more { (us : List (List ℕ)) (u : List ℕ) →
        length (filter begins (history_of (us ++ u ∷ []))) ≡ length (filter begins (history_of us)) + (if begins (judged (history_of us) (fact_behind us u)) then 1 else 0) }
    ensures none { (us : List (List ℕ)) → breaks_none (history_of us) ≡ true → no_picture (history_of us) ≡ nat_eq (length (decode us)) 0 }
{}

/// What is no picture adds no decoded picture and no sequence.
pub fn what_is_no_picture_counts_for_none()
    ensures decoded { (past : List Judged) (p : Fact) → is_picture p ≡ false → (judged past p).decoded ≡ false }
    ensures begins { (past : List Judged) (p : Fact) → is_picture p ≡ false → begins (judged past p) ≡ false }
    ensures pictures { (past : List Judged) (p : Fact) → is_picture p ≡ false → length (filter (λ (d : Judged). d.decoded) (judged past p ∷ past)) ≡ length (filter (λ (d : Judged). d.decoded) past) }
    ensures sequences { (past : List Judged) (p : Fact) → is_picture p ≡ false → length (filter begins (judged past p ∷ past)) ≡ length (filter begins past) }
{}

/// The totals of a stream by what is counted from unit to unit.
pub fn totals_are_counted()
    ensures units { (us : List (List ℕ)) (o : ℕ) → (totals us o).units ≡ length us }
    ensures kept { (us : List (List ℕ)) (o : ℕ) → (totals us o).kept ≡ length (filter (stays o) (items (reverse us))) }
{}
