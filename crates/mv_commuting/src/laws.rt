//! Laws of extraction. Each function has an empty body, and its contract is the law.
#![tactic(auto)]

ghost use Rattle.std.specs.Prelude.{◌≡◌, ℕ, true, List, None, filter};
ghost use Rattle.mv_judging.specs.Event.{IsLate};
ghost use Rattle.mv_judging.specs.Format.{byte_stream};
ghost use Rattle.mv_units.specs.Framing.{frame};
ghost use Rattle.mv_units.specs.Units.{units};
ghost use Rattle.mv_commuting.specs.Kept.{KeepsOutputsOf, decode_kept, is_kept};
ghost use Rattle.mv_pictures.specs.Decoding.{decode, out};
ghost use Rattle.mv_pictures.specs.Extract.{extract};
ghost use Rattle.mv_pictures.specs.History.{history_of};
ghost use Rattle.mv_pictures.specs.Verdict.{bytes_of, event, is_accepted, pictures};

/// Extracting twice for an output layer set is extracting once, of any units (this project's profile).
pub fn extracting_twice_is_extracting_once()
    ensures { (us : List (List ℕ)) (o : ℕ) → extract (extract us o) o ≡ extract us o }
{}

/// Of an accepted stream the extract is accepted, and is judged, decoded and put out as the whole is (this project's profile).
/// What is decided of its units is what is decided of those in the whole; its decoded pictures are the kept ones of the whole,
/// with their sequences, access units, counts and terms; and each set whose outputs are kept, the set itself among
/// them, has the same output pictures in the same order.
pub fn decoding_commutes_with_extraction()
    ensures accepted { (us : List (List ℕ)) (o : ℕ) → is_accepted us ≡ true → is_accepted (extract us o) ≡ true }
    ensures history { (us : List (List ℕ)) (o : ℕ) → is_accepted us ≡ true → history_of (extract us o) ≡ filter (is_kept o) (history_of us) }
    ensures decode { (us : List (List ℕ)) (o : ℕ) → is_accepted us ≡ true → decode (extract us o) ≡ decode_kept us o }
    ensures out { (us : List (List ℕ)) (o p : ℕ) → is_accepted us ≡ true → KeepsOutputsOf us o p → out (extract us o) p ≡ out us p }
    ensures own { (us : List (List ℕ)) (o : ℕ) → is_accepted us ≡ true → out (extract us o) o ≡ out us o }
{}

/// The same of byte strings (Annex B; this project's profile). The units of an accepted byte string are accepted; its extract,
/// framed, is accepted, whichever set n was asked for, and is split into the units of the extract again.
pub fn extracts_are_accepted_as_bytes()
    ensures whole { (n : ℕ) (s : List ℕ) → event n s ≡ None → is_accepted (bytes_of (units s)) ≡ true }
    ensures accepted { (n : ℕ) (s : List ℕ) (o : ℕ) → event n s ≡ None → event n (frame (extract (bytes_of (units s)) o)) ≡ None }
    ensures units { (n : ℕ) (s : List ℕ) (o : ℕ) → event n s ≡ None →
        bytes_of (units (frame (extract (bytes_of (units s)) o))) ≡ extract (bytes_of (units s)) o }
{}

/// The judge of pictures never objects by a rule by which bytes are refused before their unit's end is known (this project's
/// profile). So the first bytes of a string show exactly what every string has that begins with them.
pub fn pictures_are_judged_late()
    ensures { (n : ℕ) → IsLate byte_stream (pictures n) }
{}
