//! What a walker makes of one unit more, and of the end, where no picture is rebuilt and none is shown.
#![tactic(auto)]

ghost use Rattle.std.specs.Prelude.{◌≡◌, ◌≢◌, ◌<◌, ◌+◌, ◌^◌, None, ℕ, List, length};
ghost use Rattle.mv_units.specs.Rules.{unit_rule};
ghost use Rattle.mv_walk.specs.Standing.{MayGo, Stands};
ghost use Rattle.mv_walk.specs.declared.ending.WalkError as WalkError;
ghost use Rattle.mv_extract.specs.Accepting.{Accepts, Ends, ending_of};

use crate::error::WorkFault;
use mv_bytestream::Found;
use mv_engine::Ending;
use mv_judging::Objection;
use mv_rebuild::{NoPictures, NoViewer};
use mv_walk::{Totals, WalkError, Walker};

// Walks one unit more. Says whether it is kept.
pub fn accept(walker: &mut Walker<NoPictures>, found: &Found<'_>) -> Result<bool, Ending<WorkFault>>
    requires clean { unit_rule found.now.unit.now ≡ None }
    requires goes_on { walker.old.failed ≡ None }
    requires counted { MayGo walker.old }
    ensures accepts { (us : List (List ℕ)) → Stands walker.old us → length us + 1 < 2 ^ 64 →
        Accepts walker.old.asked us found.now.unit.now (Stands walker.new) result }
    ensures asked { walker.new.asked ≡ walker.old.asked }
{
    match walker.unit(&NoPictures, &mut NoViewer, found.byte, found.unit) {
        Ok(step) => Ok(step.kept),
        Err(error) => Err(ending_of(error)),
    }
}

// Walks the end, which the run itself places.
pub fn close(walker: &mut Walker<NoPictures>) -> Result<Totals, Ending<WorkFault>>
    requires goes_on { walker.old.failed ≡ None }
    requires counted { MayGo walker.old }
    ensures ends { (us : List (List ℕ)) → Stands walker.old us → Ends walker.old.asked us result }
{
    match walker.end(&NoPictures, &mut NoViewer, 0) {
        Ok(totals) => Ok(totals),
        Err(error) => Err(ending_of(error)),
    }
}

// What the error of a walker is to a run.
fn ending_of(error: WalkError) -> Ending<WorkFault>
    requires shown { error ≢ WalkError.View }
    ensures { result ≡ ending_of error }
{
    match error {
        WalkError::Refused(refusal) => Ending::Objects(Objection::Breaks(refusal.rule)),
        WalkError::NoSuchSet { asked, count } => {
            Ending::Objects(Objection::NoSuchSet { asked, count })
        }
        WalkError::View => unreachable!(),
        WalkError::Memory => Ending::Fault(WorkFault::Memory),
    }
}
