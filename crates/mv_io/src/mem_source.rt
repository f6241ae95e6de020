ghost use Rattle.std.specs.Prelude.{ℕ, ◌≡◌, ◌+◌, ◌<◌, ◌↔◌, ◌||◌, ◌==◌, List, Option, false, ◌++◌, take, drop, length, Contains, IsErr, IfOk, OnErr};
ghost use Rattle.mv_io.specs.Faults.{HasCause, raised};
ghost use Rattle.mv_io.specs.MemSource.{piece_size, supply_gives, supply_state, told_of};
ghost use Rattle.mv_io.specs.Source.{ReadsAtMost, ReadTells};

use crate::source::{Source, SourceFailed};
use std::alloc::{AllocError, Global};
use std::marker::Model;

/// A source over bytes in memory, which gives them in pieces of chosen sizes and fails at chosen reads.
#[derive(Debug, Drop)]
pub struct MemSource {
    bytes: Vec<u8>,
    at: usize,
    ended: bool,
    pieces: Vec<u32>,
    failing: Vec<u64>,
    number: u64,
    faults: u64,
}

impl Model for MemSource {
    ghost use Rattle.std.specs.Prelude.{◌≤◌, drop, vec_len};
    ghost use Rattle.mv_io.specs.MemSource.{Supply};

    ghost Value = { Supply };

    ghost view = { λ s. record {
      left = drop s.at s.bytes.items;
      ended = s.ended;
      pieces = s.pieces.items;
      failing = s.failing.items;
      number = s.number;
      faults = s.faults;
    } };

    ghost invariant = { λ s. s.at ≤ vec_len s.bytes };
}

impl MemSource {
    /// A source that gives `bytes`. Read number k, from 0, gives at most `pieces[k]` bytes, or as many as
    /// fit where k is past the list or `pieces[k]` is 0. A read whose number is in `failing` fails.
    ///
    /// # Errors
    ///
    /// `AllocError` where the allocator refuses memory for the copies of the three lists.
    pub fn new(
        alloc: Global,
        bytes: &[u8],
        pieces: &[u32],
        failing: &[u64],
    ) -> Result<MemSource, AllocError>
        ensures made { IfOk result (λ source. source ≡ record {
          left = bytes.now;
          ended = false;
          pieces = pieces.now;
          failing = failing.now;
          number = 0;
          faults = 0;
        }) }
    {
        let bytes = bytes.to_vec(alloc)?;
        let pieces = pieces.to_vec(alloc)?;
        let failing = failing.to_vec(alloc)?;
        Ok(MemSource {
            bytes,
            at: 0,
            ended: false,
            pieces,
            failing,
            number: 0,
            faults: 0,
        })
    }
}

impl Source for MemSource {
    ghost state = { supply_state };

    fn read(&mut self, into: &mut [u8]) -> Result<usize, SourceFailed>
        requires { 0 < length into.old }
        ensures bound { ReadsAtMost result into.new }
        ensures tells { ReadTells (told_of self.old) (told_of self.new) result into.new }
        ensures cause { HasCause self.old.faults self.new.faults result }

        // Which read fails, and what it leaves.
        ensures fails { IsErr result ↔ Contains self.old.failing self.old.number }
        ensures failed { OnErr result (self.new ≡ record self.old {
          number = raised self.old.number;
          faults = raised self.old.faults;
        }) }
        ensures untouched { OnErr result (into.new ≡ into.old) }

        // How much the others give, and what they leave.
        ensures gives { IfOk result (λ n. n ≡ supply_gives self.old (length into.old)) }
        ensures filled { IfOk result (λ n. into.new ≡ take n self.old.left ++ drop n into.old) }
        ensures given { IfOk result (λ n. self.new ≡ record self.old {
          left = drop n self.old.left;
          ended = self.old.ended || (n == 0);
          number = raised self.old.number;
        }) }
    {
        let number = self.number;
        self.number = number.saturating_add(1);
        if self.failing.contains(&number) {
            self.faults = self.faults.saturating_add(1);
            return Err(SourceFailed);
        }
        let most = piece_size(&self.pieces, number, into.len());
        let count = most.min(self.bytes.len() - self.at);
        into[..count].copy_from_slice(&self.bytes[self.at..self.at + count]);
        self.at += count;
        self.ended = self.ended | (count == 0);
        Ok(count)
    }
}

// The most bytes that read `number` gives into a buffer with that room.
fn piece_size(pieces: &[u32], number: u64, room: usize) -> usize
    ensures size { result ≡ piece_size pieces.now number room }
{
    match pieces.get(number as usize) {
        Some(&size) if size > 0 => room.min(size as usize),
        _ => room,
    }
}
