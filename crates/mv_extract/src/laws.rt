//! Laws of what extraction writes. Each function has an empty body, and its contract is the law.
#![tactic(auto)]

ghost use Rattle.std.specs.Prelude.{◌≡◌, ℕ, List, map};
ghost use Rattle.mv_pictures.specs.Decoding.{Decoded, out};
ghost use Rattle.mv_rebuild.specs.Parts.{Part};
ghost use Rattle.mv_rebuild.specs.Value.{value};
ghost use Rattle.mv_extract.specs.Commutes.{Commutes, units_in};

/// By whatever way pictures are rebuilt from their parts, an extract that was written has the output pictures of the whole for the
/// set, in the same order.
pub fn an_extract_has_the_same_pictures<P>()
    ensures { (rebuild : List (Part P) → P) (o : ℕ) (taken written : List ℕ) → Commutes o taken written →
        map (λ (d : Decoded). value rebuild d.term) (out (units_in written) o) ≡ map (λ (d : Decoded). value rebuild d.term) (out (units_in taken) o) }
{}
