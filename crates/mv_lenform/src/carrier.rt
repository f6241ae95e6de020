//! The visitor that carries units into another form.
#![tactic(auto)]

ghost use Rattle.std.specs.Prelude.{◌≡◌, ◌≤◌, ◌∷◌, [], length, OnOk, OnErr};
ghost use Rattle.mv_io.specs.Faults.{HasCause};
ghost use Rattle.mv_io.specs.Sink.{Appends, AppendsPrefix};
ghost use Rattle.mv_prefixed.specs.LenForm.{lenform};
ghost use Rattle.mv_units.specs.Rules.{longest_unit};
ghost use Rattle.mv_lenform.specs.Carrying.{text_of};

use mv_bytestream::{Found, frame};
use mv_engine::{Ending, Visitor};
use mv_extract::WorkFault;
use mv_io::{Sink, SinkFailed, write_both};
use std::marker::PhantomData;

// The form into which units are carried.
#[derive(Clone, Copy, PartialEq, Eq, Debug)]
pub enum Target {
    // Each unit behind its length.
    Prefixed,
    // Each unit behind a start code.
    Framed,
}

// Writes each unit on a sink, in one form, and counts them.
#[derive(Drop)]
pub struct Carrier<K> {
    pub to: Target,
    pub count: u64,
    pub sink: PhantomData<K>,
}

impl<K: Sink> Visitor for Carrier<K> {
    ghost use Rattle.mv_extract.specs.Task.{working};
    ghost use Rattle.mv_lenform.specs.Carrying.{carrier};
    ghost use Rattle.mv_lenform.specs.Begun.{carrier-begins};

    type Out = K;

    type Fault = WorkFault;

    ghost meaning = { working K.state (carrier (λ c. c.to) (λ c. c.count)) };

    fn unit(
        &mut self,
        number: u64,
        found: &Found<'_>,
        out: &mut K,
    ) -> Result<(), Ending<WorkFault>> {
        match put(out, self.to, found.unit) {
            Ok(()) => {
                self.count = number + 1;
                Ok(())
            }
            Err(_) => Err(Ending::Fault(WorkFault::Write)),
        }
    }

    fn end(&mut self, out: &mut K) -> Result<(), Ending<WorkFault>> {
        let _ = out;
        Ok(())
    }

    ghost begins = { λ start first opens. carrier-begins K.state (λ c. c.to) (λ c. c.count) start first opens };
}

// Writes one unit in a form.
fn put<K: Sink>(sink: &mut K, to: Target, unit: &[u8]) -> Result<(), SinkFailed>
    requires { length unit.now ≤ longest_unit }
    ensures all { OnOk result (Appends (K.state sink.old).taken (K.state sink.new).taken (text_of to (unit.now ∷ []))) }
    ensures failed { OnErr result (AppendsPrefix (K.state sink.old).taken (K.state sink.new).taken (text_of to (unit.now ∷ []))) }
    ensures cause { HasCause (K.state sink.old).faults (K.state sink.new).faults result }
{
    match to {
        Target::Prefixed => prefix(sink, unit),
        Target::Framed => frame(sink, unit),
    }
}

// Writes a unit behind its length in four bytes, the most significant first.
fn prefix<K: Sink>(sink: &mut K, unit: &[u8]) -> Result<(), SinkFailed>
    requires { length unit.now ≤ longest_unit }
    ensures all { OnOk result (Appends (K.state sink.old).taken (K.state sink.new).taken (lenform (unit.now ∷ []))) }
    ensures failed { OnErr result (AppendsPrefix (K.state sink.old).taken (K.state sink.new).taken (lenform (unit.now ∷ []))) }
    ensures cause { HasCause (K.state sink.old).faults (K.state sink.new).faults result }
{
    let length = (unit.len() as u32).to_be_bytes();
    write_both(sink, &length, unit)
}
