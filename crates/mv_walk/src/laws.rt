//! Laws of walkers, for those who ask them. Each function has an empty body, and its contract is the law.
#![tactic(auto)]

ghost use Rattle.std.specs.Prelude.{ℕ, ◌≡◌, [], ◌∷◌, ◌++◌, List, Ok, Some};
ghost use Rattle.mv_walk.specs.Standing.{MayGo, Stands};
ghost use Rattle.mv_walk.specs.Walking.{Walks};
ghost use Rattle.mv_walk.specs.declared.ending.WalkError.{WalkError};
ghost use Rattle.mv_walk.specs.declared.step.Step.{Step};
ghost use Rattle.mv_walk.specs.declared.walker.Walker.{Walker};

/// A walker may be asked where it stands for units, so behind each unit that it accepted, and where it failed.
pub fn walkers_may_be_asked<R, W, P>()
    ensures stands { (w : Walker R W P) (us : List (List ℕ)) → Stands w us → MayGo w }
    ensures walked { (w : Walker R W P) (o : ℕ) (us : List (List ℕ)) (byte : ℕ) (u : List ℕ) (step : Step) → Walks o us byte u (Stands w) (Ok step) → MayGo w }
    ensures failed { (w : Walker R W P) (error : WalkError) → w.failed ≡ Some error → MayGo w }
{}
