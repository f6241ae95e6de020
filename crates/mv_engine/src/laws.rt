//! Laws of what visitors write. Each function has an empty body, and its contract is the law.
#![tactic(auto)]

ghost use Rattle.std.specs.Prelude.{◌≡◌, ◌≤◌, ◌++◌, [], ℕ, List};
ghost use Rattle.mv_io.specs.Faults.{Rose};
ghost use Rattle.mv_io.specs.Sink.{Appends, AppendsPrefix, SinkState};
ghost use Rattle.mv_engine.specs.Writing.{Gained, GainedPart};

/// What a sink gains adds up: nothing where it stays as it is, and a text and then more of it. Where the write of that
/// failed, it gained the first bytes of both, and not all, and its count of faults rose.
pub fn gained_texts_add_up()
    ensures nothing { (sink : SinkState) → Gained sink sink [] }
    ensures more { (first old new : SinkState) (xs ys whole : List ℕ) → Gained first old xs → Appends old.taken new.taken ys →
        old.faults ≤ new.faults → whole ≡ xs ++ ys → Gained first new whole }
    ensures part { (first old new : SinkState) (xs ys whole : List ℕ) → Gained first old xs → AppendsPrefix old.taken new.taken ys →
        old.faults ≤ new.faults → Rose old.faults new.faults → whole ≡ xs ++ ys → GainedPart first new whole }
{}
