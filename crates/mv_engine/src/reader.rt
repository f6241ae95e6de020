//! Readers of units: what finds the units of a byte string that is fed in pieces.
#![tactic(auto)]

ghost use Rattle.std.specs.Prelude.{◌≡◌, ◌<◌, ◌≤◌, ◌+◌, ◌^◌, ◌++◌, ℕ, List, Bool, None, false, true, take, length, IfOk, OnOk, IfErr};
ghost use Rattle.std.specs.Option.{option_map};
ghost use Rattle.std.specs.Borrow.{sem};
ghost use Rattle.std.specs.Io.BufRead.{Rests};
ghost use Rattle.mv_bytestream.specs.Found.{found_unit};
ghost use Rattle.mv_judging.specs.Format.{Format, IsFormat, byte_stream};
ghost use Rattle.mv_engine.specs.Reader.{Reading, HandsOut, RefusesIn, RefusesEndOf, StandsIn, reading_of, scanner-means, scanner_stands};
ghost use Rattle.mv_judging.proofs.Streams.{stream-format};

use mv_bytestream::{Found, ScanFault, Scanner};

/// Finds the units of a byte string that is fed to it in pieces, in one of the forms in which units come. It keeps
/// at most one unit.
pub trait UnitReader {
    // The form in which the units come.
    ghost format: { Format };

    // What is known of a reader: how many bytes were fed, how many units were handed out, whether the input has
    // ended, and the unit that waits.
    ghost reading: { Self → Reading };

    // The reader stands for the bytes that were fed to it.
    ghost stands: { Self → List ℕ → Type 0 };

    /// Takes the piece's bytes up to and including the first that ends a unit, or all where none does, and says
    /// how many. No finished unit may wait, and `finish` may not have answered Ok.
    ///
    /// # Errors
    ///
    /// `Refused` where the bytes fed show that the form refuses them, at the unit behind those taken whole.
    /// `Memory` where the allocator refused memory.
    fn feed(&mut self, piece: &[u8]) -> Result<usize, ScanFault>
        requires nothing_waits { (reading self.old).waiting ≡ None }
        requires goes_on { (reading self.old).ended ≡ false }
        requires countable { (reading self.old).fed + length piece.now < 2 ^ 64 }
        ensures within { IfOk result (λ n. n ≤ length piece.now) }
        ensures some { IfOk result (λ n. 0 < length piece.now → 0 < n) }
        ensures stands { IfOk result (λ n. (s : List ℕ) → stands self.old s → stands self.new (s ++ take n piece.now)) }
        ensures refused { IfErr result (λ fault. (s : List ℕ) → stands self.old s → RefusesIn format s piece.now fault) }
        ensures given { (reading self.new).given ≡ (reading self.old).given }
        ensures ended { (reading self.new).ended ≡ (reading self.old).ended };

    /// Hands out the finished unit that waits, once.
    fn next_unit(&mut self) -> Option<Found<'_>>
        ensures found { option_map found_unit result ≡ (reading self.old).waiting }
        ensures* after_borrow { sem 𝓛 (Rests Self.row self.entry (λ new.
            HandsOut (reading self.old) (reading new) × ((s : List ℕ) → stands self.old s → stands new s))) };

    /// Says that the input ended. The last unit, if there is one, then waits. No finished unit may wait, and
    /// `finish` may not have answered Ok.
    ///
    /// # Errors
    ///
    /// `Refused` where the form refuses the bytes at their end, at the unit behind those taken whole. `Memory`
    /// where the allocator refused memory.
    fn finish(&mut self) -> Result<(), ScanFault>
        requires nothing_waits { (reading self.old).waiting ≡ None }
        requires goes_on { (reading self.old).ended ≡ false }
        ensures stands { OnOk result ((s : List ℕ) → stands self.old s → stands self.new s) }
        ensures ended { OnOk result ((reading self.new).ended ≡ true) }
        ensures refused { IfErr result (λ fault. (s : List ℕ) → stands self.old s → RefusesEndOf format s fault) }
        ensures given { (reading self.new).given ≡ (reading self.old).given };

    // What a reader that stands for bytes knows of them.
    ghost means: { (x : Self) (s : List ℕ) → stands x s → StandsIn format (reading x) s };

    ghost is_format: { IsFormat format };
}

impl UnitReader for Scanner {
    ghost format = { byte_stream };

    ghost reading = { reading_of };

    ghost stands = { scanner_stands };

    fn feed(&mut self, piece: &[u8]) -> Result<usize, ScanFault> {
        Scanner::feed(self, piece)
    }

    fn next_unit(&mut self) -> Option<Found<'_>> {
        Scanner::next_unit(self)
    }

    fn finish(&mut self) -> Result<(), ScanFault> {
        Scanner::finish(self)
    }

    ghost means = { scanner-means };

    ghost is_format = { stream-format };
}
