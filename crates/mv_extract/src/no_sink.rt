//! Where nothing is written.
#![tactic(auto)]

ghost use Rattle.std.specs.Prelude.{None};

use mv_io::{Sink, SinkFailed};

// Takes all bytes, keeps none, and never fails.
#[derive(Clone, Copy, Debug)]
pub struct NoSink;

impl Sink for NoSink {
    ghost state = { λ _. record { taken = None; faults = 0 } };

    fn write(&mut self, piece: &[u8]) -> Result<usize, SinkFailed> {
        Ok(piece.len())
    }
}
