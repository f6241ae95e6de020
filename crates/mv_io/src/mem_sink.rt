ghost use Rattle.std.specs.Prelude.{ℕ, ◌≡◌, ◌+◌, ◌<◌, ◌↔◌, [], ◌++◌, List, Option, length, IsErr, IfOk, OnOk, OnErr};
ghost use Rattle.mv_io.specs.Faults.{HasCause, raised};
ghost use Rattle.mv_io.specs.MemSink.{Refuses, store_state};
ghost use Rattle.mv_io.specs.Sink.{WritesSome, WriteAppends};

use crate::sink::{Sink, SinkFailed};
use std::alloc::{AllocError, Global};
use std::marker::Model;

/// A sink that keeps what it takes in memory, up to a capacity, and fails at chosen writes.
#[derive(Debug, Drop)]
pub struct MemSink {
    bytes: Vec<u8>,
    capacity: usize,
    failing: Vec<u64>,
    number: u64,
    faults: u64,
}

impl Model for MemSink {
    ghost use Rattle.std.specs.Prelude.{◌≤◌, vec_len, vec_capacity};
    ghost use Rattle.mv_io.specs.MemSink.{Store};

    ghost Value = { Store };

    ghost view = { λ s. record {
      bytes = s.bytes.items;
      capacity = s.capacity;
      failing = s.failing.items;
      number = s.number;
      faults = s.faults;
    } };

    // The room for all that it takes is there from the start.
    ghost invariant = { λ s. (vec_len s.bytes ≤ s.capacity) × (s.capacity ≤ vec_capacity s.bytes) };
}

impl MemSink {
    /// A sink that has taken nothing, and takes at most `capacity` bytes in all. A write whose number, from
    /// 0, is in `failing` fails, and so does one for whose whole piece there is no room.
    ///
    /// # Errors
    ///
    /// `AllocError` where the allocator refuses memory for the capacity or the copy of the list.
    pub fn new(alloc: Global, capacity: usize, failing: &[u64]) -> Result<MemSink, AllocError>
        ensures made { IfOk result (λ sink. sink ≡ record {
          bytes = [];
          capacity = capacity;
          failing = failing.now;
          number = 0;
          faults = 0;
        }) }
    {
        let bytes = Vec::with_capacity(alloc, capacity)?;
        let failing = failing.to_vec(alloc)?;
        Ok(MemSink {
            bytes,
            capacity,
            failing,
            number: 0,
            faults: 0,
        })
    }

    /// The bytes that it has taken.
    pub fn bytes(&self) -> &[u8]
        ensures bytes { result.now ≡ self.now.bytes }
    {
        self.bytes.as_slice()
    }
}

impl Sink for MemSink {
    ghost state = { store_state };

    fn write(&mut self, piece: &[u8]) -> Result<usize, SinkFailed>
        requires { 0 < length piece.now }
        ensures bound { WritesSome result piece.now }
        ensures appends { WriteAppends (Some self.old.bytes) (Some self.new.bytes) result piece.now }
        ensures cause { HasCause self.old.faults self.new.faults result }

        // Which write fails, and what it leaves.
        ensures fails { IsErr result ↔ Refuses self.old (length piece.now) }
        ensures failed { OnErr result (self.new ≡ record self.old {
          number = raised self.old.number;
          faults = raised self.old.faults;
        }) }

        // The others take the whole piece.
        ensures whole { IfOk result (λ n. n ≡ length piece.now) }
        ensures stored { OnOk result (self.new ≡ record self.old {
          bytes = self.old.bytes ++ piece.now;
          number = raised self.old.number;
        }) }
    {
        let number = self.number;
        self.number = number.saturating_add(1);
        if self.failing.contains(&number) || piece.len() > self.capacity - self.bytes.len() {
            self.faults = self.faults.saturating_add(1);
            return Err(SinkFailed);
        }
        self.bytes.extend_from_slice(piece).unwrap();
        Ok(piece.len())
    }
}
