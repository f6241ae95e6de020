//! The visitor that keeps the units of an output layer set.
#![tactic(auto)]

use crate::accepting::{accept, close};
use crate::error::WorkFault;
use mv_bytestream::{Found, frame};
use mv_engine::{Ending, Visitor};
use mv_io::Sink;
use mv_rebuild::NoPictures;
use mv_walk::{Totals, Walker};
use std::marker::PhantomData;

// Tries all rules on each unit, and writes the kept ones on a sink, framed, each once it was accepted. Holds the totals once the
// end was taken.
#[derive(Drop)]
pub struct Extractor<K> {
    pub walker: Walker<NoPictures>,
    pub totals: Totals,
    pub sink: PhantomData<K>,
}

impl<K: Sink> Visitor for Extractor<K> {
    ghost use Rattle.mv_walk.specs.Standing.{Stands};
    ghost use Rattle.mv_extract.specs.Extractor.{extractor, extractor-begins};
    ghost use Rattle.mv_extract.specs.Task.{working};

    type Out = K;

    type Fault = WorkFault;

    ghost meaning = { working K.state (extractor (λ v. v.walker.asked) (λ v us. Stands v.walker us) (λ v. v.totals)) };

    fn unit(
        &mut self,
        number: u64,
        found: &Found<'_>,
        out: &mut K,
    ) -> Result<(), Ending<WorkFault>> {
        let _ = number;
        let kept = match accept(&mut self.walker, found) {
            Ok(kept) => kept,
            Err(ending) => return Err(ending),
        };
        if !kept {
            return Ok(());
        }
        match frame(out, found.unit) {
            Ok(()) => Ok(()),
            Err(_) => Err(Ending::Fault(WorkFault::Write)),
        }
    }

    fn end(&mut self, out: &mut K) -> Result<(), Ending<WorkFault>> {
        let _ = out;
        match close(&mut self.walker) {
            Ok(totals) => {
                self.totals = totals;
                Ok(())
            }
            Err(ending) => Err(ending),
        }
    }

    ghost begins = { λ start first opens. extractor-begins K.state (λ v. v.walker.asked) (λ v us. Stands v.walker us) (λ v. v.totals) start first opens };
}
