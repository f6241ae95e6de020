//! Laws of what ends take and give in calls in a row. Each function has an empty body, and its contract is
//! the law.
#![tactic(auto)]

ghost use Rattle.std.specs.Prelude.{◌++◌, [], ℕ, List, Bool, Option, false};
ghost use Rattle.mv_io.specs.Call.{Took, input_of};
ghost use Rattle.mv_io.specs.Sink.{Appends, AppendsPrefix};
ghost use Rattle.mv_io.specs.Source.{SourceState};

/// What a sink takes adds up: nothing in a call that leaves it as it is, and the bytes of two calls one after
/// the other. Where the second failed, or the first, the sink took the first few of both, and not all.
pub fn appended_bytes_add_up()
    ensures nothing { (old : Option (List ℕ)) → Appends old old [] }
    ensures both { (old mid new : Option (List ℕ)) (xs ys : List ℕ) →
        Appends old mid xs → Appends mid new ys → Appends old new (xs ++ ys) }
    ensures first_failed { (old new : Option (List ℕ)) (xs ys : List ℕ) →
        AppendsPrefix old new xs → AppendsPrefix old new (xs ++ ys) }
    ensures second_failed { (old mid new : Option (List ℕ)) (xs ys : List ℕ) →
        Appends old mid xs → AppendsPrefix mid new ys → AppendsPrefix old new (xs ++ ys) }
{}

/// What a source gives adds up: nothing in a call that leaves it as it is, and the bytes of two calls one after
/// the other, where the first didn't read the end; those of the first alone where the second gave none.
pub fn taken_bytes_add_up()
    ensures nothing { (old : SourceState) → Took (input_of old old) [] false }
    ensures both { (old mid new : SourceState) (xs ys : List ℕ) (ended : Bool) →
        Took (input_of old mid) xs false → Took (input_of mid new) ys ended → Took (input_of old new) (xs ++ ys) ended }
    ensures end { (old mid new : SourceState) (xs : List ℕ) (ended : Bool) →
        Took (input_of old mid) xs false → Took (input_of mid new) [] ended → Took (input_of old new) xs ended }
{}
