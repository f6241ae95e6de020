//! A byte string in the length-prefixed form that comes in pieces, read for its units.
#![tactic(auto)]

ghost use Rattle.std.specs.Prelude.{◌≡◌, ◌<◌, ◌≤◌, ◌+◌, ◌^◌, ◌++◌, ℕ, List, [], None, Some, Err, false, true, take, length, IfOk, OnOk, IfErr};
ghost use Rattle.std.specs.Option.{option_map};
ghost use Rattle.mv_rules.specs.declared.refusal.Refusal.{Refusal};
ghost use Rattle.mv_lenform.specs.LenScan.{RefusesEnd, RefusesPiece, StandsFor, TakesToUnit, nothing_fed};

use crate::machine::{Machine, Stage};
use mv_bytestream::{Found, ScanFault};
use std::alloc::{AllocError, Global};
use std::marker::Model;

/// Finds the units of a byte string in the length-prefixed form (this project's profile) that is fed to it in
/// pieces, however it was cut. It keeps at most a length and one unit, of at most 16,777,216 bytes. No memory is
/// taken for a unit before its length is known to be within that.
#[derive(Debug, Drop)]
pub struct LenReader {
    machine: Machine,
}

impl Model for LenReader {
    ghost use Rattle.mv_lenform.specs.LenScan.{LenScan};

    ghost Value = { LenScan };

    ghost use Rattle.mv_lenform.specs.Stages.{IsHeld, scan_of};

    ghost view = { λ s. scan_of s.machine };

    ghost invariant = { λ s. IsHeld s.machine };
}

impl LenReader {
    ghost use Rattle.std.specs.Borrow.{sem};
    ghost use Rattle.mv_bytestream.specs.Found.{found_unit};
    ghost use Rattle.mv_lenform.specs.Found.{GivesOut};

    /// A reader to which nothing was fed.
    ///
    /// # Errors
    ///
    /// `AllocError` where the allocator refuses memory.
    pub fn new(alloc: Global) -> Result<LenReader, AllocError>
        ensures made { IfOk result (λ reader. reader ≡ nothing_fed) }
        ensures stands { IfOk result (λ reader. StandsFor reader []) }
    {
        Ok(LenReader {
            machine: Machine {
                stage: Stage::Reading,
                fed: 0,
                given: 0,
                length: [0; 4],
                have: 0,
                unit: Vec::new(alloc),
            },
        })
    }

    /// Takes the piece's bytes up to and including the first that ends a unit, or all where none does, and says
    /// how many.
    ///
    /// No finished unit may wait, `finish` may not have answered Ok, and the number of bytes fed must stay
    /// below 2^64.
    ///
    /// # Errors
    ///
    /// `Refused` where the bytes fed show that a rule refuses the string, at the first byte that shows it. `Short`,
    /// `Long`: it is the last of a length below 2, or above 16,777,216. `Emulation`, `InnerCode`, `LastZero`, the
    /// first of them that holds: it is the last of a unit that holds `00 00 00`, `00 00 02`, or `00 00 03` and a
    /// byte above 03; that holds `00 00 01`; that ends in 0. From then on `feed` and `finish` answer the same.
    /// `Memory` where the allocator refused memory: then the reader is unchanged.
    pub fn feed(&mut self, piece: &[u8]) -> Result<usize, ScanFault>
        requires nothing_waits { self.old.waiting ≡ None }
        requires goes_on { self.old.ended ≡ false }
        requires countable { self.old.fed + length piece.now < 2 ^ 64 }
        ensures within { IfOk result (λ n. n ≤ length piece.now) }
        ensures some { IfOk result (λ n. 0 < length piece.now → 0 < n) }
        ensures stands { IfOk result (λ n. (s : List ℕ) → StandsFor self.old s → StandsFor self.new (s ++ take n piece.now)) }
        ensures takes { IfOk result (λ n. (s : List ℕ) → StandsFor self.old s → TakesToUnit s piece.now n) }
        ensures refused { IfErr result (RefusesPiece self.old self.new piece.now) }
        ensures again { (r : Refusal) → self.old.refusal ≡ Some r → (result ≡ Err (ScanFault.Refused r)) × (self.new ≡ self.old) }
        ensures took { IfOk result (λ n. self.new.fed ≡ self.old.fed + n) }
        ensures counted { self.new.fed ≤ self.old.fed + length piece.now }
        ensures given { self.new.given ≡ self.old.given }
        ensures ended { self.new.ended ≡ self.old.ended }
    {
        if let Stage::Refused(refusal) = self.machine.stage {
            return Err(ScanFault::Refused(refusal));
        }
        self.machine.resume();
        self.machine.take_piece(piece)
    }

    /// Hands out the finished unit that waits, once. Its place is the offset of its first byte, behind its length.
    pub fn next_unit(&mut self) -> Option<Found<'_>>
        ensures found { option_map found_unit result ≡ self.entry.now.waiting }
        ensures* after_borrow { sem 𝓛 (GivesOut self.entry) }
    {
        if !self.machine.hand_out() {
            return None;
        }
        Some(Found {
            byte: self
                .machine
                .fed
                .saturating_sub(self.machine.unit.len() as u64),
            unit: &self.machine.unit,
        })
    }

    /// Says that the input ended.
    ///
    /// No finished unit may wait, and `finish` may not have answered Ok.
    ///
    /// # Errors
    ///
    /// `Refused` by `Truncated` where the input ended in a length or in the bytes of its unit: its byte is the
    /// number of bytes fed; and where a rule refused the string before. From then on `feed` and `finish` answer
    /// the same. It takes no memory.
    pub fn finish(&mut self) -> Result<(), ScanFault>
        requires nothing_waits { self.old.waiting ≡ None }
        requires goes_on { self.old.ended ≡ false }
        ensures stands { OnOk result ((s : List ℕ) → StandsFor self.old s → StandsFor self.new s) }
        ensures ended { OnOk result (self.new.ended ≡ true) }
        ensures refused { IfErr result (RefusesEnd self.old self.new) }
        ensures again { (r : Refusal) → self.old.refusal ≡ Some r → (result ≡ Err (ScanFault.Refused r)) × (self.new ≡ self.old) }
        ensures given { self.new.given ≡ self.old.given }
        ensures fed { self.new.fed ≡ self.old.fed }
    {
        if let Stage::Refused(refusal) = self.machine.stage {
            return Err(ScanFault::Refused(refusal));
        }
        self.machine.resume();
        self.machine.finish()
    }
}
