//! The printer of headers: what a table prints for a value, in bits or in the text of lines.

ghost use Rattle.std.specs.Prelude.{◌≡◌, ◌≤◌, ◌++◌, [], option_map, OnOk, OnErr, IfOk};
ghost use Rattle.mv_syntax.specs.Bits.{byte_bits};
ghost use Rattle.mv_syntax.specs.Table.{u, ue, se, Valid};
ghost use Rattle.mv_syntax.specs.Printed.{bits, lines, u_to, ue_to, se_to, opened, closed, depth};
ghost use Rattle.mv_syntax.specs.PrintedPayload.{printed_end};
ghost use Rattle.mv_fields.specs.Output.{bits_in, IsBits, IsText, IsWhole, text_in, with_text, aligned};

use crate::shown::Shown;
use mv_bits::{BitWriter, put_payload_end};
use std::alloc::{AllocError, Global};
use std::marker::Model;

/// Prints the fields of headers one behind the other: as bits, or as lines of text, one a field.
///
/// A line is two blanks, the field's name, the index of each loop around it in brackets, from the outermost, `=`, the number in
/// decimal, and a newline.
#[derive(Drop)]
pub struct Printer {
    to: To,
}

#[derive(Drop)]
enum To {
    Bits(BitWriter),
    Lines(Shown),
}

impl Model for Printer {
    ghost use Rattle.mv_syntax.specs.Printed.{Output};
    ghost use Rattle.mv_fields.specs.Output.{output_of};

    ghost Value = { Output };

    ghost view = { λ p. output_of p.to };
}

impl Printer {
    /// A printer of bits, with none so far.
    pub fn bits(alloc: Global) -> Printer
        ensures { result ≡ bits [] }
    {
        Printer {
            to: To::Bits(BitWriter::new(alloc)),
        }
    }

    /// A printer of bits, with none so far, on the allocator of a writer.
    pub fn beside(out: &BitWriter) -> Printer
        ensures { result ≡ bits [] }
    {
        Printer {
            to: To::Bits(out.empty()),
        }
    }

    /// A printer of lines, with none so far.
    pub fn lines(alloc: Global) -> Printer
        ensures { result ≡ lines [] [] }
    {
        Printer {
            to: To::Lines(Shown::new(alloc)),
        }
    }

    /// Prints a field u(n) (7.2) of at most 64 bits under its name.
    pub fn u64(&mut self, name: &str, n: u8, field: u64) -> Result<(), AllocError>
        requires width { n ≤ 64 }
        requires fits { Valid (u n) field }
        ensures { OnOk result (self.new ≡ u_to n name.now field self.old) }
    {
        match &mut self.to {
            To::Bits(writer) => writer.u(n, field),
            To::Lines(shown) => shown.line(name, field),
        }
    }

    /// Prints a field ue(v) (9.2) under its name.
    pub fn ue(&mut self, name: &str, field: u32) -> Result<(), AllocError>
        requires { Valid ue field }
        ensures { OnOk result (self.new ≡ ue_to name.now field self.old) }
    {
        match &mut self.to {
            To::Bits(writer) => writer.ue(field),
            To::Lines(shown) => shown.line(name, field),
        }
    }

    /// Prints a field se(v) (9.2.2) under its name.
    #[tactic(auto, using(crate::proofs::Signed::signed_steps))]
    pub fn se(&mut self, name: &str, field: i32) -> Result<(), AllocError>
        requires { Valid se field }
        ensures { OnOk result (self.new ≡ se_to name.now field self.old) }
    {
        match &mut self.to {
            To::Bits(writer) => writer.se(field),
            To::Lines(shown) => shown.line::<i32>(name, field),
        }
    }

    /// Begins a turn of a loop, which has this index, and answers what `close` ends it by.
    pub fn open(&mut self, index: u64) -> Result<usize, AllocError>
        ensures { IfOk result (λ outer. (outer ≡ depth self.old) × (self.new ≡ opened index self.old)) }
    {
        match &mut self.to {
            To::Bits(_) => Ok(0),
            To::Lines(shown) => shown.open(index),
        }
    }

    /// Ends a turn of a loop.
    pub fn close(&mut self, outer: usize)
        ensures { self.new ≡ closed outer self.old }
    {
        match &mut self.to {
            To::Bits(_) => {}
            To::Lines(shown) => shown.close(outer),
        }
    }

    /// Prints `bit` up to the end of the byte, and nothing where a byte ends. No line shows it.
    pub fn align(&mut self, bit: bool) -> Result<(), AllocError>
        ensures { OnOk result (self.new ≡ aligned bit self.old) }
    {
        match &mut self.to {
            To::Bits(writer) => writer.align(bit),
            To::Lines(_) => Ok(()),
        }
    }

    /// Prints the end of a payload: in bits its tail, if it has one, and the trailing bits (7.3.2.11), which end a byte; in
    /// lines the tail's number of bits.
    pub fn end(&mut self, tail: &Option<Vec<bool>>) -> Result<(), AllocError>
        ensures printed { OnOk result (self.new ≡ printed_end (option_map (λ v. v.items) tail.now) self.old) }
        ensures whole { OnOk result (IsWhole self.new) }
    {
        match &mut self.to {
            To::Bits(writer) => put_payload_end(writer, tail),
            To::Lines(shown) => shown.tail(tail),
        }
    }

    /// Appends the bits printed to those of a writer. A refused call changes nothing.
    pub fn append_to(&self, out: &mut BitWriter) -> Result<(), AllocError>
        requires { IsBits self.now }
        ensures ok { OnOk result (out.new ≡ out.old ++ bits_in self.now) }
        ensures err { OnErr result (out.new ≡ out.old) }
    {
        match &self.to {
            To::Bits(writer) => out.append(writer),
            To::Lines(_) => unreachable!(),
        }
    }

    /// The bytes of the bits printed.
    pub fn into_bytes(self) -> Vec<u8>
        requires bits { IsBits self }
        requires whole { IsWhole self }
        ensures { bits (byte_bits result.items) ≡ self }
    {
        match self.to {
            To::Bits(writer) => writer.into_bytes(),
            To::Lines(_) => unreachable!(),
        }
    }

    /// The lines printed, and what `write` put between them.
    pub fn text(&self) -> &[u8]
        ensures { result.now ≡ text_in self.now }
    {
        match &self.to {
            To::Bits(_) => &[],
            To::Lines(shown) => &shown.text,
        }
    }

    /// Appends bytes of other text to the lines.
    pub fn write(&mut self, bytes: &[u8]) -> Result<(), AllocError>
        requires { IsText self.old }
        ensures { OnOk result (self.new ≡ with_text bytes.now self.old) }
    {
        match &mut self.to {
            To::Bits(_) => Ok(()),
            To::Lines(shown) => shown.write(bytes),
        }
    }

    /// Forgets the lines, and keeps their memory.
    pub fn clear(&mut self)
        requires { IsText self.old }
        ensures { self.new ≡ lines [] [] }
    {
        match &mut self.to {
            To::Bits(_) => {}
            To::Lines(shown) => shown.clear(),
        }
    }
}
