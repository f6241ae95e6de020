//! Laws of what a program keeps of each layer: the count of the anchor, and what is held. Each function has an empty body, and
//! its contract is the law.
#![tactic(auto)]

ghost use Rattle.std.specs.Prelude.{◌≡◌, ◌∷◌, ◌&&◌, ◌||◌, ◌<◌, ◌≤◌, [], ℕ, Bool, true, false, List, All, None, Some, filter, is_some, length, map, option_map, if◌then◌else◌};
ghost use Rattle.std.specs.List.{find};
ghost use Rattle.mv_history.specs.History.{Throughout};
ghost use Rattle.mv_syntax.specs.Words.{◌otherwise◌};
ghost use Rattle.mv_slice.specs.Numbers.{is_irap};
ghost use Rattle.mv_commuting.specs.HeldOneMore.{held_of, marked_by, names_held, unmarked};
ghost use Rattle.mv_pictures.specs.Counts.{anchor, may_anchor};
ghost use Rattle.mv_pictures.specs.Facts.{Fact};
ghost use Rattle.mv_pictures.specs.Held.{Held, held, held_behind, longs, names};
ghost use Rattle.mv_pictures.specs.History.{history_of, judged};
ghost use Rattle.mv_pictures.specs.Judged.{Judged, au, begins, is_end, is_layer_end, is_picture, kind, layer, of_layer};
ghost use Rattle.mv_pictures.specs.Look.{Look, in_sequence, initialised, look};
ghost use Rattle.mv_pictures.specs.PictureRules.{decoded_before, is_in_range};
ghost use Rattle.mv_pictures.specs.Starts.{follows_start, is_anew, is_decoded, is_start};
ghost use Rattle.mv_pictures.specs.Verdict.{is_accepted};

/// The latest unit of a layer in the sequence that passes a test, with one unit more; so the anchor of counts (8.3.1), whether
/// the latest IRAP picture or start is a start (8.1.3), the latest decoded picture, and whether a sequence begins anew.
pub fn the_latest_with_one_unit_more()
    ensures latest { (test : Judged → Bool) (d : Judged) (past : List Judged) (n : ℕ) →
        find test (in_sequence (d ∷ past) n) ≡ (if of_layer n d && test d then Some d else (if begins d then None else find test (in_sequence past n))) }
    ensures anchor { (d : Judged) (past : List Judged) (p : Fact) →
        anchor (look (d ∷ past) p) ≡ (if of_layer (layer p) d && (is_some d.count && (d.start || may_anchor d.fact)) then d.count else (if begins d then None else anchor (look past p))) }
    ensures led { (d : Judged) (past : List Judged) (p : Fact) →
        follows_start (look (d ∷ past) p)
        ≡ (if of_layer (layer p) d && (is_picture d.fact && (is_irap (kind d.fact) || d.start)) then d.start else (if begins d then false else follows_start (look past p))) }
    ensures decoded { (d : Judged) (past : List Judged) (p : Fact) →
        decoded_before (look (d ∷ past) p) ≡ (if of_layer (layer p) d && d.decoded then Some d else (if begins d then None else decoded_before (look past p))) }
    ensures anew { (d : Judged) (past : List Judged) (p : Fact) →
        is_anew (look (d ∷ past) p) ≡ (if of_layer 0 d && (is_picture d.fact || is_end d.fact) then is_end d.fact else is_anew (look past p)) }
{}

/// What is held with one unit more (8.3.2): behind a start it alone; behind any other decoded picture it, unmarked, and those
/// of before that it names, with their marks and its own; what isn't decoded changes nothing. Of another layer all that is held
/// goes where a sequence starts, and else stays.
pub fn held_with_one_unit_more()
    ensures start { (d : Judged) (own : List Judged) → d.decoded ≡ true → d.start ≡ true → held_behind [] (d ∷ own) ≡ unmarked d ∷ [] }
    ensures decoded { (d : Judged) (own : List Judged) → d.decoded ≡ true → d.start ≡ false →
        held_behind [] (d ∷ own) ≡ unmarked d ∷ map (marked_by d) (filter (names_held d) (held_behind [] own)) }
    ensures other { (past own : List Judged) (p : Fact) → (judged past p).decoded ≡ false → held_behind [] (judged past p ∷ own) ≡ held_behind [] own }
    ensures its_layer { (past : List Judged) (p : Fact) (n : ℕ) → of_layer n (judged past p) ≡ true →
        held_of (judged past p ∷ past) n
        ≡ (if (judged past p).decoded
        then unmarked (judged past p) ∷ (if (judged past p).start then [] else map (marked_by (judged past p)) (filter (names_held (judged past p)) (held_of past n)))
        else held_of past n) }
    ensures other_layers { (past : List Judged) (p : Fact) (n : ℕ) → of_layer n (judged past p) ≡ false →
        held_of (judged past p ∷ past) n ≡ (if begins (judged past p) then [] else held_of past n) }
{}

/// A start finds nothing held and names nothing; what isn't decoded names nothing (8.3.2).
pub fn what_names_nothing()
    ensures start_finds { (l : Look) (p : Fact) → is_start l p ≡ true → held l p ≡ [] }
    ensures start_names { (l : Look) (p : Fact) → is_start l p ≡ true → names l p ≡ [] }
    ensures start_marks { (l : Look) (p : Fact) → is_start l p ≡ true → longs l p ≡ [] }
    ensures other_names { (l : Look) (p : Fact) → is_decoded l p ≡ false → names l p ≡ [] }
    ensures other_marks { (l : Look) (p : Fact) → is_decoded l p ≡ false → longs l p ≡ [] }
    ensures start_decoded { (l : Look) (p : Fact) → is_start l p ≡ true → is_decoded l p ≡ true }
{}

/// A picture that later ones may take as their anchor is decoded: a base picture that is skipped is RASL. In an accepted stream
/// each decoded picture's count is of 32 bits, and so is the count of each anchor (8.3.1).
pub fn anchors_are_in_range()
    ensures decoded { (us : List (List ℕ)) → All (λ (d : Judged). is_some d.count ≡ true → (d.start || may_anchor d.fact) ≡ true → d.decoded ≡ true) (history_of us) }
    ensures counts { (us : List (List ℕ)) → is_accepted us ≡ true → All (λ (d : Judged). d.decoded ≡ true → (option_map is_in_range d.count otherwise false) ≡ true) (history_of us) }
    ensures anchor { (us : List (List ℕ)) (p : Fact) → is_accepted us ≡ true → (option_map is_in_range (anchor (look (history_of us) p)) otherwise true) ≡ true }
{}

/// What is held of a layer are decoded pictures of it; in an accepted stream their access units fall from the latest on, and
/// there are at most 16 (8.3.2).
pub fn at_most_16_are_held()
    ensures of_the_layer { (past : List Judged) (n : ℕ) → All (λ (h : Held). of_layer n h.it ≡ true) (held_of past n) }
    ensures decoded { (past : List Judged) (n : ℕ) → All (λ (h : Held). h.it.decoded ≡ true) (held_of past n) }
    ensures falls { (us : List (List ℕ)) (n : ℕ) → is_accepted us ≡ true →
        Throughout (λ past (h : Held). All (λ (g : Held). au g.it.fact < au h.it.fact) past) (held_of (history_of us) n) }
    ensures at_most { (us : List (List ℕ)) (n : ℕ) → is_accepted us ≡ true → length (held_of (history_of us) n) ≤ 16 }
{}

/// What isn't the first segment of a picture changes no layer but by ends: an end in a layer resets the layer, and an end of
/// layer 0 lets the next base picture start a sequence.
pub fn what_is_no_picture_changes_no_layer()
    ensures held { (past : List Judged) (p : Fact) (n : ℕ) → is_picture p ≡ false → held_of (judged past p ∷ past) n ≡ held_of past n }
    ensures anchor { (past : List Judged) (p q : Fact) → is_picture p ≡ false → anchor (look (judged past p ∷ past) q) ≡ anchor (look past q) }
    ensures led { (past : List Judged) (p q : Fact) → is_picture p ≡ false → follows_start (look (judged past p ∷ past) q) ≡ follows_start (look past q) }
    ensures decoded { (past : List Judged) (p q : Fact) → is_picture p ≡ false → decoded_before (look (judged past p ∷ past) q) ≡ decoded_before (look past q) }
    ensures base { (past : List Judged) (p q : Fact) → is_picture p ≡ false → (look (judged past p ∷ past) q).base ≡ (look past q).base }
    ensures root { (past : List Judged) (p q : Fact) → is_picture p ≡ false → (look (judged past p ∷ past) q).root ≡ (look past q).root }
    ensures seqs { (past : List Judged) (p q : Fact) → is_picture p ≡ false → (look (judged past p ∷ past) q).seqs ≡ (look past q).seqs }
    ensures initialised { (past : List Judged) (p : Fact) (n : ℕ) → is_picture p ≡ false →
        initialised (judged past p ∷ past) n ≡ (if of_layer n (judged past p) && is_layer_end p then false else initialised past n) }
    ensures anew { (past : List Judged) (p q : Fact) → is_picture p ≡ false → is_anew (look (judged past p ∷ past) q) ≡ (if is_end p then true else is_anew (look past q)) }
{}
