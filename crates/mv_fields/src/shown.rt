//! The text of lines, with the brackets of the loops that are open.

ghost use Rattle.std.specs.Prelude.{◌≡◌, ◌≤◌, ◌++◌, [], length, take, option_map, OnOk, IfOk, codes};
ghost use Rattle.mv_syntax.specs.Lines.{bracket};
ghost use Rattle.mv_syntax.specs.PrintedPayload.{with_tail};

use itoa::{Buffer, Integer};
use std::alloc::{AllocError, Global};

/// The lines so far, and the brackets of the open loops.
#[derive(Drop)]
pub(crate) struct Shown {
    pub(crate) text: Vec<u8>,
    pub(crate) around: Vec<u8>,
}

impl Shown {
    pub(crate) fn new(alloc: Global) -> Shown
        ensures text { result.text.items ≡ [] }
        ensures around { result.around.items ≡ [] }
    {
        Shown {
            text: Vec::new(alloc),
            around: Vec::new(alloc),
        }
    }

    /// Appends the line of a field.
    pub(crate) fn line<I: Integer>(&mut self, name: &str, number: I) -> Result<(), AllocError>
        ensures text { OnOk result (self.new.text.items ≡ self.old.text.items ++ codes "  " ++ name.now ++ self.old.around.items ++ codes "=" ++ I.text number ++ codes "\n") }
        ensures around { self.new.around.items ≡ self.old.around.items }
    {
        let mut digits = Buffer::new();
        self.text.extend_from_slice(b"  ")?;
        self.text.extend_from_slice(name.as_bytes())?;
        self.text.extend_from_slice(&self.around)?;
        self.text.extend_from_slice(b"=")?;
        self.text
            .extend_from_slice(digits.format(number).as_bytes())?;
        self.text.extend_from_slice(b"\n")
    }

    /// Appends the line of a tail, if there is one: its number of bits.
    pub(crate) fn tail(&mut self, tail: &Option<Vec<bool>>) -> Result<(), AllocError>
        ensures text { OnOk result (self.new.text.items ≡ with_tail (option_map (λ v. v.items) tail.now) self.old.around.items self.old.text.items) }
        ensures around { self.new.around.items ≡ self.old.around.items }
    {
        match tail {
            Some(tail) => self.line("tail", tail.len()),
            None => Ok(()),
        }
    }

    /// Opens a loop's turn, and answers how many bytes of brackets stood around it.
    pub(crate) fn open(&mut self, index: u64) -> Result<usize, AllocError>
        ensures around { IfOk result (λ outer. (outer ≡ length self.old.around.items) × (self.new.around.items ≡ self.old.around.items ++ bracket index)) }
        ensures text { self.new.text.items ≡ self.old.text.items }
    {
        let outer = self.around.len();
        let mut digits = Buffer::new();
        self.around.extend_from_slice(b"[")?;
        self.around
            .extend_from_slice(digits.format(index).as_bytes())?;
        self.around.extend_from_slice(b"]")?;
        Ok(outer)
    }

    /// Closes it.
    pub(crate) fn close(&mut self, outer: usize)
        ensures around { self.new.around.items ≡ take outer self.old.around.items }
        ensures text { self.new.text.items ≡ self.old.text.items }
    {
        self.around.truncate(outer);
    }

    pub(crate) fn write(&mut self, bytes: &[u8]) -> Result<(), AllocError>
        ensures text { OnOk result (self.new.text.items ≡ self.old.text.items ++ bytes.now) }
        ensures around { self.new.around.items ≡ self.old.around.items }
    {
        self.text.extend_from_slice(bytes)
    }

    pub(crate) fn clear(&mut self)
        ensures text { self.new.text.items ≡ [] }
        ensures around { self.new.around.items ≡ [] }
    {
        self.text.clear();
        self.around.clear();
    }
}
