//! The parts of a scanner, and what bytes change in them.
#![tactic(auto)]

use crate::making::{LONGEST_UNIT, append, ends_in_three, rule_shown, run_length};
use mv_rules::{Refusal, Rule};
use std::alloc::AllocError;

// Where in a byte stream a scanner is.
#[derive(Clone, Copy, PartialEq, Eq, Debug)]
pub enum Stage {
    // No start code came yet.
    Leading,
    // A unit is in the making.
    Making,
    // A unit is finished and waits, and the next has no byte yet.
    Found,
    // That unit was handed out.
    Given,
    // The input has ended, and the last unit waits.
    Last,
    // The input has ended, and no unit waits.
    Ended,
    // A rule refused the bytes.
    Refused(Refusal),
}

// What a scanner keeps: of the bytes no more than those of one unit.
#[derive(Debug, Drop)]
pub struct Machine {
    pub stage: Stage,
    // How many bytes were fed, and how many units were handed out.
    pub fed: u64,
    pub given: u64,
    // The unit that is in the making or finished: its place, and its bytes less the zero bytes at its end.
    pub place: u64,
    pub unit: Vec<u8>,
    // How many zero bytes stand behind it, or before the first start code.
    pub zeros: u64,
}

impl Machine {
    ghost use Rattle.std.specs.Prelude.{◌≡◌, ◌+◌, ◌<◌, ◌≤◌, ◌^◌, ◌++◌, ◌∷◌, ◌⊎◌, [], ℕ, None, Some, length, take, nat_lt, vec_len, vec_capacity, IfErr, IfNone, IfOk, IfSome, List, OnOk, true, if◌then◌else◌};
    ghost use Rattle.mv_bytestream.specs.Scan.{RefusedAtEnd, ShowsAt, StandsFor, TakesToUnit, handed_out};
    ghost use Rattle.mv_rules.specs.declared.rule.Rule.{Rule};
    ghost use Rattle.mv_bytestream.specs.declared.machine.Stage.{Stage};
    ghost use Rattle.mv_bytestream.specs.Stages.{HasRoom, IsHeld, IsOpen, IsRunning, Takes, scan_of, unit_held};

    // Takes a byte before the first start code, or the last byte of that, and says which refusal it shows.
    pub fn leading_byte(&mut self, byte: u8) -> Option<Refusal>
        requires stage { self.old.stage ≡ Stage.Leading }
        requires held { IsHeld self.old }
        requires countable { self.old.fed + 1 < 2 ^ 64 }
        ensures takes { Takes self.old self.new (byte ∷ []) result }
        ensures held { IsHeld self.new }
        ensures running { IsRunning self.new.stage }
        ensures fed { self.new.fed ≡ self.old.fed + 1 }
        ensures given { self.new.given ≡ self.old.given }
        ensures room { (n : ℕ) → HasRoom self.old (n + 1) → HasRoom self.new n }
    {
        let at = self.fed;
        self.fed = at + 1;
        if byte == 0 {
            self.zeros += 1;
            return None;
        }
        if (byte == 1) & (self.zeros >= 2) {
            self.begin_unit();
            return None;
        }
        Some(Refusal {
            unit: 0,
            byte: at,
            rule: Rule::Leading,
        })
    }

    // Takes a byte of a unit or behind it, and says which refusal it shows.
    pub fn unit_byte(&mut self, byte: u8) -> Option<Refusal>
        requires stage { self.old.stage ≡ Stage.Making }
        requires held { IsHeld self.old }
        requires room { HasRoom self.old 1 }
        requires countable { self.old.fed + 1 < 2 ^ 64 }
        ensures takes { Takes self.old self.new (byte ∷ []) result }
        ensures held { IsHeld self.new }
        ensures stage { (self.new.stage ≡ Stage.Making) ⊎ (self.new.stage ≡ Stage.Found) }
        ensures fed { self.new.fed ≡ self.old.fed + 1 }
        ensures given { self.new.given ≡ self.old.given }
        ensures room { (n : ℕ) → HasRoom self.old (n + 1) → HasRoom self.new n }
    {
        self.fed += 1;
        if byte == 0 {
            self.zeros += 1;
            return None;
        }
        if (byte == 1) & (self.zeros >= 2) {
            return self.end_unit();
        }
        match rule_shown(&self.unit, self.zeros, byte) {
            Some(rule) => Some(self.refusal(rule)),
            None => {
                append(&mut self.unit, self.zeros, byte);
                self.zeros = 0;
                None
            }
        }
    }

    // Begins the next unit behind one that was handed out. To callers nothing changes.
    pub fn resume(&mut self)
        requires running { IsOpen self.old.stage }
        requires held { IsHeld self.old }
        ensures running { IsRunning self.new.stage }
        ensures same { scan_of self.new ≡ scan_of self.old }
        ensures held { IsHeld self.new }
    {
        if let Stage::Given = self.stage {
            self.begin_unit();
        }
    }

    // Hands out the unit that waits, and says whether one did.
    pub fn hand_out(&mut self) -> bool
        requires held { IsHeld self.old }
        ensures waiting { (scan_of self.old).waiting ≡ (if result then Some (unit_held self.new) else None) }
        ensures handed { scan_of self.new ≡ handed_out (scan_of self.old) }
        ensures held { IsHeld self.new }
    {
        match self.stage {
            Stage::Found => {
                self.stage = Stage::Given;
                self.given += 1;
                true
            }
            Stage::Last => {
                self.stage = Stage::Ended;
                self.given += 1;
                true
            }
            _ => false,
        }
    }

    // Makes room for bytes of the unit. To callers nothing changes.
    pub fn make_room(&mut self, count: usize) -> Result<(), AllocError>
        requires running { IsRunning self.old.stage }
        requires held { IsHeld self.old }
        ensures room { OnOk result (HasRoom self.new count) }
        ensures running { IsRunning self.new.stage }
        ensures same { scan_of self.new ≡ scan_of self.old }
        ensures held { IsHeld self.new }
    {
        // At most two zero bytes that stand before them may turn out to be the unit's. They are counted whether they
        // stand there or not, so that a longer input asks for no more memory.
        let most = LONGEST_UNIT - self.unit.len();
        self.unit.reserve(count.saturating_add(2).min(most))
    }

    // Ends the input, and says which refusal that shows.
    pub fn finish(&mut self) -> Option<Refusal>
        requires running { IsRunning self.old.stage }
        requires held { IsHeld self.old }
        ensures stands { IfNone result ((s : List ℕ) → StandsFor (scan_of self.old) s → StandsFor (scan_of self.new) s) }
        ensures shown { IfSome result (λ r. (s : List ℕ) → StandsFor (scan_of self.old) s → RefusedAtEnd s r) }
        ensures ended { IfNone result ((scan_of self.new).ended ≡ true) }
        ensures held { IsHeld self.new }
        ensures fed { self.new.fed ≡ self.old.fed }
        ensures given { self.new.given ≡ self.old.given }
    {
        match self.stage {
            Stage::Leading => {
                self.stage = Stage::Ended;
                None
            }
            _ if self.unit.len() < 2 => Some(self.refusal(Rule::Short)),
            _ => {
                self.stage = Stage::Last;
                None
            }
        }
    }

    // Takes the piece's bytes up to and including the first that ends a unit or shows a refusal, or all where
    // none does, and says how many, or the refusal.
    pub fn take_piece(&mut self, piece: &[u8]) -> Result<usize, Refusal>
        requires running { IsRunning self.old.stage }
        requires held { IsHeld self.old }
        requires room { HasRoom self.old (length piece.now) }
        requires countable { self.old.fed + length piece.now < 2 ^ 64 }
        ensures within { IfOk result (λ n. n ≤ length piece.now) }
        ensures some { IfOk result (λ n. 0 < length piece.now → 0 < n) }
        ensures stands { IfOk result (λ n. (s : List ℕ) → StandsFor (scan_of self.old) s → StandsFor (scan_of self.new) (s ++ take n piece.now)) }
        ensures takes { IfOk result (λ n. (s : List ℕ) → StandsFor (scan_of self.old) s → TakesToUnit s piece.now n) }
        ensures refused { IfErr result (λ r. (s : List ℕ) → StandsFor (scan_of self.old) s → (n : ℕ) × ShowsAt s piece.now r n) }
        ensures held { IsHeld self.new }
        ensures stage { OnOk result (IsRunning self.new.stage ⊎ (self.new.stage ≡ Stage.Found)) }
        ensures took { IfOk result (λ n. self.new.fed ≡ self.old.fed + n) }
        ensures fed { self.new.fed ≤ self.old.fed + length piece.now }
        ensures given { self.new.given ≡ self.old.given }
    {
        let mut at = 0;
        while at < piece.len() {
            at += self.run(&piece[at..]);
            if at == piece.len() {
                return Ok(at);
            }
            match self.byte(piece[at]) {
                Some(refusal) => return Err(refusal),
                None => at += 1,
            }
            if let Stage::Found = self.stage {
                return Ok(at);
            }
        }
        Ok(at)
    }

    // Takes a byte where nothing waits, and says which refusal it shows.
    pub fn byte(&mut self, byte: u8) -> Option<Refusal>
        requires running { IsRunning self.old.stage }
        requires held { IsHeld self.old }
        requires room { HasRoom self.old 1 }
        requires countable { self.old.fed + 1 < 2 ^ 64 }
        ensures takes { Takes self.old self.new (byte ∷ []) result }
        ensures held { IsHeld self.new }
        ensures stage { IsRunning self.new.stage ⊎ (self.new.stage ≡ Stage.Found) }
        ensures fed { self.new.fed ≡ self.old.fed + 1 }
        ensures given { self.new.given ≡ self.old.given }
        ensures room { (n : ℕ) → HasRoom self.old (n + 1) → HasRoom self.new n }
    {
        match self.stage {
            Stage::Leading => self.leading_byte(byte),
            _ => self.unit_byte(byte),
        }
    }

    // Takes bytes of a unit that hold no two zero bytes in a row, and says how many; none where there is no
    // unit, zero bytes stand before them, or they show a refusal.
    pub fn run(&mut self, bytes: &[u8]) -> usize
        requires running { IsRunning self.old.stage }
        requires held { IsHeld self.old }
        requires room { HasRoom self.old (length bytes.now) }
        requires countable { self.old.fed + length bytes.now < 2 ^ 64 }
        ensures within { result ≤ length bytes.now }
        ensures takes { Takes self.old self.new (take result bytes.now) None }
        ensures held { IsHeld self.new }
        ensures stage { self.new.stage ≡ self.old.stage }
        ensures fed { self.new.fed ≡ self.old.fed + result }
        ensures given { self.new.given ≡ self.old.given }
        ensures room { (n : ℕ) → HasRoom self.old (n + result) → HasRoom self.new n }
    {
        match self.stage {
            Stage::Making if self.zeros == 0 => self.unit_run(bytes),
            _ => 0,
        }
    }

    // Takes bytes of a unit that hold no two zero bytes in a row, where none stand before them, and says how
    // many; none where they show a refusal.
    fn unit_run(&mut self, bytes: &[u8]) -> usize
        requires stage { self.old.stage ≡ Stage.Making }
        requires none { self.old.zeros ≡ 0 }
        requires held { IsHeld self.old }
        requires room { HasRoom self.old (length bytes.now) }
        requires countable { self.old.fed + length bytes.now < 2 ^ 64 }
        ensures within { result ≤ length bytes.now }
        ensures takes { Takes self.old self.new (take result bytes.now) None }
        ensures held { IsHeld self.new }
        ensures stage { self.new.stage ≡ self.old.stage }
        ensures fed { self.new.fed ≡ self.old.fed + result }
        ensures given { self.new.given ≡ self.old.given }
        ensures room { (n : ℕ) → HasRoom self.old (n + result) → HasRoom self.new n }
    {
        let room = bytes.len().min(LONGEST_UNIT - self.unit.len());
        let count = run_length(&bytes[..room]);
        if count == 0 {
            return 0;
        }
        if (bytes[0] > 3) & ends_in_three(&self.unit) {
            return 0;
        }
        self.unit.extend_from_slice(&bytes[..count]).unwrap();
        self.fed += count as u64;
        count
    }

    // Begins a unit behind a start code.
    pub fn begin_unit(&mut self)
        ensures stage { self.new.stage ≡ Stage.Making }
        ensures place { self.new.place ≡ self.old.fed }
        ensures unit { self.new.unit.items ≡ [] }
        ensures len { vec_len self.new.unit ≡ 0 }
        ensures capacity { vec_capacity self.new.unit ≡ vec_capacity self.old.unit }
        ensures zeros { self.new.zeros ≡ 0 }
        ensures fed { self.new.fed ≡ self.old.fed }
        ensures given { self.new.given ≡ self.old.given }
    {
        self.stage = Stage::Making;
        self.place = self.fed;
        self.unit.clear();
        self.zeros = 0;
    }

    // Ends the unit at a start code, unless it is short.
    fn end_unit(&mut self) -> Option<Refusal>
        ensures value { result ≡ (if nat_lt (vec_len self.old.unit) 2 then Some (record { unit = self.old.given; byte = self.old.place; rule = Rule.Short }) else None) }
        ensures found { IfNone result (self.new ≡ record self.old { stage = Stage.Found; zeros = 0 }) }
        ensures short { IfSome result (λ _. self.new ≡ self.old) }
    {
        if self.unit.len() < 2 {
            return Some(self.refusal(Rule::Short));
        }
        self.stage = Stage::Found;
        self.zeros = 0;
        None
    }

    // The refusal of the unit in the making.
    fn refusal(&self, rule: Rule) -> Refusal
        ensures value { result ≡ record { unit = self.now.given; byte = self.now.place; rule = rule } }
    {
        Refusal {
            unit: self.given,
            byte: self.place,
            rule,
        }
    }
}
