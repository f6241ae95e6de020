//! The parts of a reader, and what bytes change in them.
#![tactic(auto)]

use crate::bytes::{bytes_rule, length_rule, number};
use mv_bytestream::ScanFault;
use mv_rules::{Refusal, Rule};
use std::alloc::AllocError;

// Where in the form a reader is.
#[derive(Clone, Copy, PartialEq, Eq, Debug)]
pub enum Stage {
    // In a length, or in the bytes of its unit.
    Reading,
    // A unit is finished and waits.
    Found,
    // That unit was handed out.
    Given,
    // The input has ended, and no unit waits.
    Ended,
    // A rule refused the bytes.
    Refused(Refusal),
}

// What a reader keeps: of the bytes no more than a length and those of one unit.
#[derive(Debug, Drop)]
pub struct Machine {
    pub stage: Stage,
    // How many bytes were fed, and how many units were handed out.
    pub fed: u64,
    pub given: u64,
    // The first `have` bytes of the length, and behind all four of them those of the unit.
    pub length: [u8; 4],
    pub have: usize,
    pub unit: Vec<u8>,
}

impl Machine {
    ghost use Rattle.std.specs.Prelude.{◌≡◌, ◌+◌, ◌-◌, ◌<◌, ◌≤◌, ◌^◌, ◌++◌, [], ℕ, Some, None, length, take, min, vec_len, OnOk, OnErr, IfErr, IfOk, Err, if◌then◌else◌};
    ghost use Rattle.mv_lenform.specs.LenScan.{handed_out};
    ghost use Rattle.mv_lenform.specs.Moves.{Comes, Faults, OpenBefore, cut_off};
    ghost use Rattle.mv_prefixed.specs.Reading.{length_rule as least_length_rule, spelled};
    ghost use Rattle.mv_lenform.specs.Stages.{IsHeld, IsOpen, bytes_held, scan_of, unit_held};
    ghost use Rattle.mv_lenform.specs.declared.machine.Stage.{Stage};

    // Begins the next length behind a unit that was handed out. To callers nothing changes.
    pub fn resume(&mut self)
        requires open { IsOpen self.old.stage }
        requires held { IsHeld self.old }
        ensures stage { self.new.stage ≡ Stage.Reading }
        ensures same { scan_of self.new ≡ scan_of self.old }
        ensures held { IsHeld self.new }
    {
        if let Stage::Given = self.stage {
            self.stage = Stage::Reading;
            self.have = 0;
            self.unit.clear();
        }
    }

    // Hands out the unit that waits, and says whether one did.
    pub fn hand_out(&mut self) -> bool
        requires held { IsHeld self.old }
        ensures waiting { (scan_of self.old).waiting ≡ (if result then Some (unit_held self.new) else None) }
        ensures handed { scan_of self.new ≡ handed_out (scan_of self.old) }
        ensures held { IsHeld self.new }
    {
        match self.stage {
            Stage::Found => {
                self.stage = Stage::Given;
                self.given += 1;
                true
            }
            _ => false,
        }
    }

    // Takes bytes of a length, and says how many.
    fn take_length(&mut self, piece: &[u8]) -> usize
        requires most { self.old.have ≤ 4 }
        requires countable { self.old.fed + length piece.now < 2 ^ 64 }
        ensures count { result ≡ min (4 - self.old.have) (length piece.now) }
        ensures have { self.new.have ≡ self.old.have + result }
        ensures taken { take self.new.have self.new.length ≡ take self.old.have self.old.length ++ take result piece.now }
        ensures four { length self.new.length ≡ 4 }
        ensures before { take self.old.have self.new.length ≡ take self.old.have self.old.length }
        ensures fed { self.new.fed ≡ self.old.fed + result }
        ensures unit { self.new.unit ≡ self.old.unit }
        ensures stage { self.new.stage ≡ self.old.stage }
        ensures given { self.new.given ≡ self.old.given }
    {
        let count = (4 - self.have).min(piece.len());
        let end = self.have + count;
        self.length[self.have..end].copy_from_slice(&piece[..count]);
        self.have = end;
        self.fed += count as u64;
        count
    }

    // Takes bytes of the unit, up to so many in all, and says how many, or takes none where memory is wanting.
    fn take_bytes(&mut self, bytes: &[u8], wanted: usize) -> Result<usize, AllocError>
        requires less { vec_len self.old.unit ≤ wanted }
        requires countable { self.old.fed + length bytes.now < 2 ^ 64 }
        ensures count { IfOk result (λ n. n ≡ min (wanted - vec_len self.old.unit) (length bytes.now)) }
        ensures taken { IfOk result (λ n. self.new.unit.items ≡ self.old.unit.items ++ take n bytes.now) }
        ensures fed { IfOk result (λ n. self.new.fed ≡ self.old.fed + n) }
        ensures unit { OnErr result (self.new.unit.items ≡ self.old.unit.items) }
        ensures same { OnErr result (self.new.fed ≡ self.old.fed) }
        ensures length { self.new.length ≡ self.old.length }
        ensures have { self.new.have ≡ self.old.have }
        ensures stage { self.new.stage ≡ self.old.stage }
        ensures given { self.new.given ≡ self.old.given }
    {
        let count = (wanted - self.unit.len()).min(bytes.len());
        self.unit.reserve(count)?;
        self.unit.extend_from_slice(&bytes[..count]).unwrap();
        self.fed += count as u64;
        Ok(count)
    }
    // Refuses the unit whose bytes are held.
    fn refuse(&mut self, rule: Rule) -> ScanFault
        ensures fault { result ≡ ScanFault.Refused (record { unit = self.old.given; byte = self.old.fed - vec_len self.old.unit; rule = rule }) }
        ensures new { self.new ≡ record self.old { stage = Stage.Refused (record { unit = self.old.given; byte = self.old.fed - vec_len self.old.unit; rule = rule }) } }
    {
        let refusal = Refusal {
            unit: self.given,
            byte: self.fed.saturating_sub(self.unit.len() as u64),
            rule,
        };
        self.stage = Stage::Refused(refusal);
        ScanFault::Refused(refusal)
    }

    // Takes bytes behind a length that is whole, up to the end of its unit.
    fn take_unit(&mut self, bytes: &[u8], wanted: u32) -> Result<usize, ScanFault>
        requires whole { self.old.have ≡ 4 }
        requires wanted { wanted ≡ spelled self.old.length }
        requires rule { least_length_rule wanted ≡ None }
        requires less { vec_len self.old.unit < wanted }
        requires stage { self.old.stage ≡ Stage.Reading }
        requires held { IsHeld self.old }
        requires countable { self.old.fed + length bytes.now < 2 ^ 64 }
        ensures within { IfOk result (λ n. n ≤ length bytes.now) }
        ensures some { IfOk result (λ n. 0 < length bytes.now → 0 < n) }
        ensures before { IfOk result (λ n. OpenBefore (bytes_held self.old) bytes.now n) }
        ensures comes { IfOk result (λ n. Comes self.old self.new bytes.now n) }
        ensures faults { IfErr result (Faults self.old self.new bytes.now) }
        ensures fed { IfOk result (λ n. self.new.fed ≡ self.old.fed + n) }
        ensures counted { self.new.fed ≤ self.old.fed + length bytes.now }
        ensures given { self.new.given ≡ self.old.given }
        ensures length { self.new.length ≡ self.old.length }
        ensures unit { result ≡ Err ScanFault.Memory → (self.new.unit.items ≡ self.old.unit.items) × (self.new.stage ≡ self.old.stage) }
        ensures held { IsHeld self.new }
    {
        let Ok(count) = self.take_bytes(bytes, wanted as usize) else {
            return Err(ScanFault::Memory);
        };
        if self.unit.len() < wanted as usize {
            return Ok(count);
        }
        match bytes_rule(&self.unit) {
            None => {
                self.stage = Stage::Found;
                Ok(count)
            }
            Some(rule) => Err(self.refuse(rule)),
        }
    }
    // Takes the piece's bytes up to and including the first that ends a unit, or all where none does, and says how
    // many. After want of memory nothing is changed, to callers.
    pub fn take_piece(&mut self, piece: &[u8]) -> Result<usize, ScanFault>
        requires stage { self.old.stage ≡ Stage.Reading }
        requires held { IsHeld self.old }
        requires countable { self.old.fed + length piece.now < 2 ^ 64 }
        ensures within { IfOk result (λ n. n ≤ length piece.now) }
        ensures some { IfOk result (λ n. 0 < length piece.now → 0 < n) }
        ensures before { IfOk result (λ n. OpenBefore (bytes_held self.old) piece.now n) }
        ensures comes { IfOk result (λ n. Comes self.old self.new piece.now n) }
        ensures faults { IfErr result (Faults self.old self.new piece.now) }
        ensures fed { IfOk result (λ n. self.new.fed ≡ self.old.fed + n) }
        ensures counted { self.new.fed ≤ self.old.fed + length piece.now }
        ensures given { self.new.given ≡ self.old.given }
        ensures held { IsHeld self.new }
    {
        let have = self.have;
        let fed = self.fed;
        let count = self.take_length(piece);
        if self.have < 4 {
            return Ok(count);
        }
        let wanted = number(&self.length);
        if let Some(rule) = length_rule(wanted) {
            return Err(self.refuse(rule));
        }
        match self.take_unit(&piece[count..], wanted) {
            Ok(more) => Ok(count + more),
            Err(ScanFault::Memory) => {
                self.have = have;
                self.fed = fed;
                Err(ScanFault::Memory)
            }
            Err(ScanFault::Refused(refusal)) => Err(ScanFault::Refused(refusal)),
        }
    }

    // Ends the input, which is refused where it ends in a length or in the bytes of its unit.
    pub fn finish(&mut self) -> Result<(), ScanFault>
        requires stage { self.old.stage ≡ Stage.Reading }
        requires held { IsHeld self.old }
        ensures ended { OnOk result ((bytes_held self.old ≡ []) × (self.new ≡ record self.old { stage = Stage.Ended })) }
        ensures cut { OnErr result (0 < length (bytes_held self.old)) }
        ensures refused { OnErr result (self.new ≡ record self.old { stage = Stage.Refused (cut_off self.old) }) }
        ensures fault { IfErr result (λ fault. fault ≡ ScanFault.Refused (cut_off self.old)) }
        ensures held { IsHeld self.new }
    {
        if self.have == 0 {
            self.stage = Stage::Ended;
            return Ok(());
        }
        let refusal = Refusal {
            unit: self.given,
            byte: self.fed,
            rule: Rule::Truncated,
        };
        self.stage = Stage::Refused(refusal);
        Err(ScanFault::Refused(refusal))
    }
}
