//! Laws of the definitions. Each function has an empty body, and its contract is the law.
#![tactic(auto)]

ghost use Rattle.std.specs.Prelude.{◌≡◌, ◌++◌, [], ℕ, List, All, map, None, true};
ghost use Rattle.mv_units.specs.Framing.{frame};
ghost use Rattle.mv_units.specs.Shown.{refusal_shown};
ghost use Rattle.mv_units.specs.Units.{NalUnit, units};
ghost use Rattle.mv_judging.specs.Format.{IsFormat};
ghost use Rattle.mv_prefixed.specs.Form.{length_form};
ghost use Rattle.mv_prefixed.specs.LenForm.{IsPlain, lenform};
ghost use Rattle.mv_prefixed.specs.Reading.{len_refusal, len_units, read};

/// A string is read as its longest front that is the form of plain units: the units that are read are plain, the
/// string is their form and the rest, and each other such front is the form of the first of them.
pub fn the_longest_front_is_read()
    ensures parts { (s : List ℕ) → s ≡ lenform (read s).units ++ (read s).rest }
    ensures plain { (s : List ℕ) → All IsPlain (read s).units }
    ensures longest { (s rest : List ℕ) (us : List (List ℕ)) → All IsPlain us → s ≡ lenform us ++ rest →
        (read s).units ≡ us ++ (read rest).units }
{}

/// Plain units are spelled in one way, and read back from it.
pub fn the_spelling_is_one()
    ensures back { (us : List (List ℕ)) → All IsPlain us → ((read (lenform us)).units ≡ us) × ((read (lenform us)).rest ≡ []) }
    ensures one { (us vs : List (List ℕ)) → All IsPlain us → All IsPlain vs → lenform us ≡ lenform vs → us ≡ vs }
{}

/// What is unpacked is packed to what it was: the framed byte stream of plain units has these units.
pub fn unpacked_units_are_packed_again()
    ensures units { (us : List (List ℕ)) → All IsPlain us → map (λ (u : NalUnit). u.bytes) (units (frame us)) ≡ us }
    ensures form { (us : List (List ℕ)) → All IsPlain us → lenform (map (λ (u : NalUnit). u.bytes) (units (frame us))) ≡ lenform us }
{}

/// What is packed is unpacked to the same units: those of a byte stream that the rules on a unit's own bytes accept
/// are plain. And what is framed of plain units is accepted.
pub fn packed_units_are_unpacked_again()
    ensures plain { (s : List ℕ) → refusal_shown true s ≡ None → All IsPlain (map (λ (u : NalUnit). u.bytes) (units s)) }
    ensures units { (us : List (List ℕ)) → All IsPlain us → map (λ (u : NalUnit). u.bytes) (len_units (lenform us)) ≡ us }
    ensures accepted { (us : List (List ℕ)) → All IsPlain us → refusal_shown true (frame us) ≡ None }
{}

/// A string is accepted exactly where it is the form of plain units.
pub fn a_form_is_accepted()
    ensures form { (us : List (List ℕ)) → All IsPlain us → len_refusal true (lenform us) ≡ None }
    ensures only { (s : List ℕ) → len_refusal true s ≡ None →
        All IsPlain (map (λ (u : NalUnit). u.bytes) (len_units s)) × (s ≡ lenform (map (λ (u : NalUnit). u.bytes) (len_units s))) }
{}

/// The length-prefixed form is a form in which a byte string carries units.
pub fn length_prefixed_units_are_a_form()
    ensures form { IsFormat length_form }
{}
