//! Laws of the definitions. Each function has an empty body, and its contract is the law.
#![tactic(auto)]

ghost use Rattle.std.specs.Prelude.{◌≡◌, ◌≤◌, ◌++◌, ◌∷◌, [], ℕ, List, Bool, true, false, None, Some, All, map, length, take};
ghost use Rattle.mv_rules.specs.declared.refusal.Refusal.{Refusal};
ghost use Rattle.mv_units.specs.Framing.{IsFramable, frame};
ghost use Rattle.mv_units.specs.Rules.{unit_rule};
ghost use Rattle.mv_units.specs.Shown.{IsOneOf, StartsWith, early_rules, refusal_shown, whole_units};
ghost use Rattle.mv_units.specs.Units.{IsSplit, NalUnit, has_code, leading, pieces, trimmed, units};

/// The pieces of a string are its one split at start code prefixes (Annex B).
pub fn pieces_are_the_one_split()
    ensures split { (s : List ℕ) → IsSplit s (pieces s) }
    ensures only { (s : List ℕ) (ps : List (List ℕ)) → IsSplit s ps → ps ≡ pieces s }
{}

/// Units that were framed are split again into the same units, and no byte before them is refused (Annex B).
pub fn framed_units_are_split_again()
    ensures units { (us : List (List ℕ)) → All IsFramable us → map (λ (u : NalUnit). u.bytes) (units (frame us)) ≡ us }
    ensures leading { (us : List (List ℕ)) → leading (frame us) ≡ None }
    ensures append { (us vs : List (List ℕ)) → frame (us ++ vs) ≡ frame us ++ frame vs }
{}

/// Each unit of a byte string holds no start code prefix, and no zero byte at its end (Annex B). So the units of a
/// string that the rules on a unit's own bytes accept are carried unchanged when they are framed, and what is framed
/// of units that break none of them is accepted (this project's profile).
pub fn units_are_framed_unchanged()
    ensures clean { (s : List ℕ) → All (λ (u : NalUnit). has_code u.bytes ≡ false) (units s) }
    ensures ends { (s : List ℕ) → All (λ (u : NalUnit). trimmed u.bytes ≡ u.bytes) (units s) }
    ensures framable { (s : List ℕ) → refusal_shown true s ≡ None → All IsFramable (map (λ (u : NalUnit). u.bytes) (units s)) }
    ensures accepted { (s : List ℕ) → leading s ≡ None → All (λ (u : NalUnit). unit_rule u.bytes ≡ None) (units s) → refusal_shown true s ≡ None }
{}

/// A list that begins with another begins as that one does (this project's profile).
pub fn lists_begin_alike()
    ensures first { (xs ys : List NalUnit) (n : ℕ) → StartsWith xs ys → n ≤ length ys → take n xs ≡ take n ys }
    ensures length { (xs ys : List NalUnit) → StartsWith xs ys → length ys ≤ length xs }
{}

/// However a string goes on, its units but the last stay, at the last one's place a unit stands (Annex B),
/// and the leading byte that is refused stays the same (this project's profile). It has no more units than bytes.
pub fn a_longer_string_keeps()
    ensures closed { (s t : List ℕ) (done : List NalUnit) (last : NalUnit) → units s ≡ done ++ last ∷ [] →
        (next : NalUnit) × (more : List NalUnit) × (units (s ++ t) ≡ done ++ next ∷ more) × (next.place ≡ last.place) }
    ensures leading { (s t : List ℕ) (at : ℕ) → leading s ≡ Some at → leading (s ++ t) ≡ Some at }
    ensures count { (ended : Bool) (s : List ℕ) → length (whole_units ended s) ≤ length s }
{}

/// What more bytes, or the end, change of the units taken whole and of the refusal that is shown (this project's
/// profile): the units and a refusal stay, and a refusal that comes is of a unit behind those taken whole.
pub fn more_bytes_show_more()
    ensures stays { (t s : List ℕ) (r : Refusal) → refusal_shown false t ≡ Some r → refusal_shown false (t ++ s) ≡ Some r }
    ensures ends { (t : List ℕ) (r : Refusal) → refusal_shown false t ≡ Some r → refusal_shown true t ≡ Some r }
    ensures whole { (t s : List ℕ) → StartsWith (whole_units false (t ++ s)) (whole_units false t) }
    ensures all { (t : List ℕ) → StartsWith (units t) (whole_units false t) }
    ensures within { (ended : Bool) (t : List ℕ) (r : Refusal) → refusal_shown ended t ≡ Some r → r.unit ≤ length (whole_units ended t) }
    ensures later { (t s : List ℕ) (r : Refusal) → refusal_shown false t ≡ None → refusal_shown false (t ++ s) ≡ Some r →
        length (whole_units false t) ≤ r.unit }
    ensures last { (t : List ℕ) (r : Refusal) → refusal_shown false t ≡ None → refusal_shown true t ≡ Some r →
        r.unit ≡ length (whole_units false t) }
{}

/// Bytes that show no refusal decide nothing (this project's profile): with `00 00 02` behind them they show the
/// refusal of the first unit that wasn't taken whole, or of a leading byte, by a rule by which they aren't refused
/// where they end there.
pub fn bytes_that_show_nothing()
    ensures more { (t : List ℕ) → refusal_shown false t ≡ None → (r : Refusal) ×
        (refusal_shown false (t ++ 0 ∷ 0 ∷ 2 ∷ []) ≡ Some r) × (r.unit ≡ length (whole_units false t)) × IsOneOf early_rules r.rule }
    ensures end { (t : List ℕ) (r : Refusal) → refusal_shown false t ≡ None → refusal_shown true t ≡ Some r → ¬ IsOneOf early_rules r.rule }
{}
