//! Laws of the pictures that terms are rebuilt to, and of what is put out of them. Each function has no effect, and its contract
//! is the law.
#![tactic(auto)]

ghost use Rattle.std.specs.Prelude.{◌≡◌, ◌+◌, [], ◌∷◌, ◌++◌, ℕ, List, length, map, take};
ghost use Rattle.mv_pictures.specs.Terms.{References, Segment, Start, Tag, Term, picture, references_of};
ghost use Rattle.mv_dpb.specs.declared.shown.Shown.{Shown};
ghost use Rattle.mv_rebuild.specs.Parts.{Part, begins, has};
ghost use Rattle.mv_rebuild.specs.Value.{reference_of, value, values};
ghost use Rattle.mv_rebuild.specs.Viewing.{text_of};

/// What a term is rebuilt to is the picture of its parts: its start, its references, and its segments. The references given by a
/// list are those of its members, in its order.
pub fn a_term_is_rebuilt_from_its_parts<P>()
    ensures parts { (rebuild : List (Part P) → P) (start : Start) (references : References) (segments : List Segment) →
        value rebuild (picture start references segments) ≡ rebuild (begins start ∷ (values rebuild references ++ map has segments)) }
    ensures references { (rebuild : List (Part P) → P) (references : List (Tag × Term)) →
        values rebuild (references_of references) ≡ map (reference_of rebuild) references }
{}

/// What is put out of pictures is what was put out of those before and then of the next one; where the next one isn't put out
/// whole, it is the first of all that is put out of them and it.
pub fn pictures_are_put_out_one_after_another<P>()
    ensures none { (text : Shown → P → List ℕ) (before : List ℕ) → before ++ text_of text [] ≡ before }
    ensures next { (text : Shown → P → List ℕ) (before : List ℕ) (pictures : List (Shown × P)) (s : Shown × P) →
        before ++ text_of text pictures ++ text s.0 s.1 ≡ before ++ text_of text (pictures ++ s ∷ []) }
    ensures first_of_next { (text : Shown → P → List ℕ) (before : List ℕ) (pictures : List (Shown × P)) (s : Shown × P) (n : ℕ) →
        before ++ text_of text pictures ++ take n (text s.0 s.1)
        ≡ before ++ take (length (text_of text pictures) + n) (text_of text (pictures ++ s ∷ [])) }
{}
