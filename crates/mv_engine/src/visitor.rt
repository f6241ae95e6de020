//! Visitors: what is done with the units of a stream.
#![tactic(auto)]

ghost use Rattle.std.specs.Prelude.{◌≡◌, ℕ, List, length};
ghost use Rattle.mv_units.specs.Units.{NalUnit};
ghost use Rattle.mv_bytestream.specs.Found.{found_unit};
ghost use Rattle.mv_engine.specs.Meaning.{Begins, Ends, Meaning, Ready, ReadyToEnd, Visits};

use crate::error::Ending;
use mv_bytestream::Found;

/// Is handed the units of a stream, one by one, each once it was taken whole and is in order by the rules of the
/// form in which it came, and then the end of the input. It judges each, and writes what is written of it.
pub trait Visitor {
    /// What is written on.
    type Out;
    /// Why it can't go on.
    type Fault;

    // What a visitor objects to, and what was written once it was handed a list of units.
    ghost meaning: { Meaning Self Self.Out Self.Fault };

    /// Takes a unit, and its number. It is the next behind those taken so far.
    ///
    /// # Errors
    ///
    /// `Objects` exactly where the visitor's judge objects to the unit: then nothing was written of it. `Fault`
    /// where the visitor can't go on.
    fn unit(
        &mut self,
        number: u64,
        found: &Found<'_>,
        out: &mut Self::Out,
    ) -> Result<(), Ending<Self::Fault>>
        requires ready { Ready meaning self.old out.old number (found_unit found.now) }
        ensures visits { (start : Self) (first : Self.Out) (us : List NalUnit) → meaning.stands start self.old us →
            meaning.wrote start first out.old us → number ≡ length us →
            Visits meaning start first self.new out.new us (found_unit found.now) result };

    /// Takes the end of the input, behind the units taken so far.
    ///
    /// # Errors
    ///
    /// `Objects` exactly where the visitor's judge objects to the end. `Fault` where the visitor can't go on.
    fn end(&mut self, out: &mut Self::Out) -> Result<(), Ending<Self::Fault>>
        requires ready { ReadyToEnd meaning self.old out.old }
        ensures ends { (start : Self) (first : Self.Out) (us : List NalUnit) → meaning.stands start self.old us →
            meaning.wrote start first out.old us →
            Ends meaning start first self.new out.new us result };

    // A visitor that may begin was handed no unit, and nothing was written.
    ghost begins: { (start : Self) (first : Self.Out) → meaning.opens start → Begins meaning start first };
}
