//! A byte stream that comes in pieces, scanned for its units.
#![tactic(auto)]

ghost use Rattle.std.specs.Prelude.{◌≡◌, ◌<◌, ◌≤◌, ◌+◌, ◌^◌, ◌++◌, ℕ, List, [], None, Some, Err, false, true, take, length, IfOk, OnOk, IfErr};
ghost use Rattle.std.specs.Option.{option_map};
ghost use Rattle.mv_rules.specs.declared.refusal.Refusal.{Refusal};
ghost use Rattle.mv_bytestream.specs.Scan.{RefusesEnd, RefusesPiece, StandsFor, TakesToUnit, nothing_fed};

use crate::machine::{Machine, Stage};
use crate::splitting::ScanFault;
use std::alloc::{AllocError, Global};
use std::marker::Model;

/// A unit that was found in a byte stream.
#[derive(Clone, Copy, PartialEq, Eq, Debug)]
pub struct Found<'a> {
    /// The unit's place: the offset in the stream of the first byte after its start code prefix.
    pub byte: u64,
    /// The unit's bytes.
    pub unit: &'a [u8],
}

/// Finds the units of a byte stream (Annex B) that is fed to it in pieces, however it was cut. It keeps at
/// most one unit, of at most 16,777,216 bytes.
#[derive(Debug, Drop)]
pub struct Scanner {
    machine: Machine,
}

impl Model for Scanner {
    ghost use Rattle.mv_bytestream.specs.Scan.{Scan};

    ghost Value = { Scan };

    ghost use Rattle.mv_bytestream.specs.Stages.{IsHeld, scan_of};

    ghost view = { λ s. scan_of s.machine };

    ghost invariant = { λ s. IsHeld s.machine };
}

impl Scanner {
    ghost use Rattle.std.specs.Borrow.{sem};
    ghost use Rattle.mv_bytestream.specs.Found.{GivesOut, found_unit};

    /// A scanner to which nothing was fed.
    ///
    /// # Errors
    ///
    /// `AllocError` where the allocator refuses memory.
    pub fn new(alloc: Global) -> Result<Scanner, AllocError>
        ensures made { IfOk result (λ scanner. scanner ≡ nothing_fed) }
        ensures stands { IfOk result (λ scanner. StandsFor scanner []) }
    {
        Ok(Scanner {
            machine: Machine {
                stage: Stage::Leading,
                fed: 0,
                given: 0,
                place: 0,
                unit: Vec::new(alloc),
                zeros: 0,
            },
        })
    }

    /// Takes the piece's bytes up to and including the first that ends a unit, which is the last byte of
    /// the start code behind it, or all where none does, and says how many.
    ///
    /// No finished unit may wait, `finish` may not have answered Ok, and the number of bytes fed must stay
    /// below 2^64.
    ///
    /// # Errors
    ///
    /// `Refused` where the bytes fed show that a rule refuses the stream, at the first byte that shows it.
    /// `Leading`: it is other than zero, stands before the first start code, and isn't the end of one.
    /// `Emulation`: with it the first 16,777,216 bytes of the unit hold `00 00 00`, `00 00 02`, or
    /// `00 00 03` and a byte above 03. `Long`: it is other than zero, and with it the unit has more than
    /// 16,777,216 bytes. `Short`: it ends a unit of fewer than two bytes. From then on `feed` and `finish`
    /// answer the same. `Memory` where the allocator refused memory: then the scanner is unchanged.
    pub fn feed(&mut self, piece: &[u8]) -> Result<usize, ScanFault>
        requires nothing_waits { self.old.waiting ≡ None }
        requires goes_on { self.old.ended ≡ false }
        requires countable { self.old.fed + length piece.now < 2 ^ 64 }
        ensures within { IfOk result (λ n. n ≤ length piece.now) }
        ensures some { IfOk result (λ n. 0 < length piece.now → 0 < n) }
        ensures stands { IfOk result (λ n. (s : List ℕ) → StandsFor self.old s → StandsFor self.new (s ++ take n piece.now)) }
        ensures takes { IfOk result (λ n. (s : List ℕ) → StandsFor self.old s → TakesToUnit s piece.now n) }
        ensures refused { IfErr result (RefusesPiece self.old self.new piece.now) }
        ensures again { (r : Refusal) → self.old.refusal ≡ Some r → (result ≡ Err (ScanFault.Refused r)) × (self.new ≡ self.old) }
        ensures took { IfOk result (λ n. self.new.fed ≡ self.old.fed + n) }
        ensures counted { self.new.fed ≤ self.old.fed + length piece.now }
        ensures given { self.new.given ≡ self.old.given }
        ensures ended { self.new.ended ≡ self.old.ended }
    {
        if let Stage::Refused(refusal) = self.machine.stage {
            return Err(ScanFault::Refused(refusal));
        }
        self.machine.resume();
        if self.machine.make_room(piece.len()).is_err() {
            return Err(ScanFault::Memory);
        }
        match self.machine.take_piece(piece) {
            Ok(count) => Ok(count),
            Err(refusal) => {
                self.machine.stage = Stage::Refused(refusal);
                Err(ScanFault::Refused(refusal))
            }
        }
    }

    /// Hands out the finished unit that waits, once.
    pub fn next_unit(&mut self) -> Option<Found<'_>>
        ensures found { option_map found_unit result ≡ self.entry.now.waiting }
        ensures* after_borrow { sem 𝓛 (GivesOut self.entry) }
    {
        if !self.machine.hand_out() {
            return None;
        }
        Some(Found {
            byte: self.machine.place,
            unit: &self.machine.unit,
        })
    }

    /// Says that the input ended. The last unit, if there is one, then waits.
    ///
    /// No finished unit may wait, and `finish` may not have answered Ok.
    ///
    /// # Errors
    ///
    /// `Refused` by `Short` where the last unit has fewer than two bytes, and where a rule refused the
    /// stream before. From then on `feed` and `finish` answer the same. It takes no memory.
    pub fn finish(&mut self) -> Result<(), ScanFault>
        requires nothing_waits { self.old.waiting ≡ None }
        requires goes_on { self.old.ended ≡ false }
        ensures stands { OnOk result ((s : List ℕ) → StandsFor self.old s → StandsFor self.new s) }
        ensures ended { OnOk result (self.new.ended ≡ true) }
        ensures refused { IfErr result (RefusesEnd self.old self.new) }
        ensures again { (r : Refusal) → self.old.refusal ≡ Some r → (result ≡ Err (ScanFault.Refused r)) × (self.new ≡ self.old) }
        ensures given { self.new.given ≡ self.old.given }
        ensures fed { self.new.fed ≡ self.old.fed }
    {
        if let Stage::Refused(refusal) = self.machine.stage {
            return Err(ScanFault::Refused(refusal));
        }
        self.machine.resume();
        match self.machine.finish() {
            None => Ok(()),
            Some(refusal) => {
                self.machine.stage = Stage::Refused(refusal);
                Err(ScanFault::Refused(refusal))
            }
        }
    }
}
