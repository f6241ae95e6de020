//! The line that says on the sink for faults how a run ended. It takes no memory.
#![tactic(auto)]

ghost use Rattle.std.specs.Prelude.{◌≡◌, ◌+◌, ◌≤◌, ◌++◌, decimal};
ghost use Rattle.arrayvec.specs.ArrayString.{array_string_len};
ghost use Rattle.mv_rules.specs.Rule.{rule_name};
ghost use Rattle.mv_io.specs.Call.{output_of};
ghost use Rattle.mv_cli.specs.Answers.{Tells};
ghost use Rattle.mv_cli.specs.Ending.{accepted_line, lacking_line, line_of, refusal_line};

use crate::ending::Ending;
use arrayvec::ArrayString;
use itoa::Buffer;
use mv_io::{Sink, write_all};
use mv_rules::{Refusal, Rule};
use mv_walk::Totals;

/// The room for a line, in bytes.
const ROOM: usize = 160;

pub type Line = ArrayString<ROOM>;

/// Writes the line of an ending. A write that fails is left aside.
pub fn tell<E: Sink>(faults: &mut E, ending: &Ending)
    ensures { Tells
        (output_of (E.state faults.old) (E.state faults.new))
        (line_of ending.now) }
{
    match ending {
        Ending::Done => {}
        Ending::Refused(refusal) => tell_text(faults, describe(refusal).as_str()),
        Ending::Usage => tell_text(
            faults,
            "usage: mv_cli extract N | digest N [format1] | check | show | gen NUMBER COUNT [sum] | pack | unpack\n",
        ),
        Ending::ReadFault => tell_text(faults, "read fault\n"),
        Ending::WriteFault => tell_text(faults, "write fault\n"),
        Ending::NoMemory => tell_text(faults, "no memory\n"),
        Ending::NoSuchSet { asked, count } => tell_text(faults, lacking(*asked, *count).as_str()),
        Ending::TooLong => tell_text(faults, "too long\n"),
    }
}

// Writes a text, as far as the sink takes it.
fn tell_text<E: Sink>(faults: &mut E, text: &str)
    ensures { Tells
        (output_of (E.state faults.old) (E.state faults.new))
        text.now }
{
    let _ = write_all(faults, text.as_bytes());
}

// The line of a refusal.
fn describe(refusal: &Refusal) -> Line
    ensures { result.bytes ≡ refusal_line refusal.now }
{
    let mut line = Line::new();
    line.push_str("refused: unit ");
    push_number(&mut line, refusal.unit);
    line.push_str(" at byte ");
    push_number(&mut line, refusal.byte);
    line.push_str(": rule ");
    push_number(&mut line, refusal.rule.number() as u64);
    line.push_str(" ");
    push_rule(&mut line, &refusal.rule);
    line.push_str("\n");
    line
}

// The line of a set that is lacking.
fn lacking(asked: u32, count: u32) -> Line
    ensures { result.bytes ≡ lacking_line asked count }
{
    let mut line = Line::new();
    line.push_str("no such set: ");
    push_number(&mut line, asked as u64);
    line.push_str(" of ");
    push_number(&mut line, count as u64);
    line.push_str("\n");
    line
}

/// The line of an accepted stream.
pub fn accepted(totals: &Totals) -> Line
    ensures { result.bytes ≡ accepted_line totals.now }
{
    let mut line = Line::new();
    line.push_str("accepted: units ");
    push_number(&mut line, totals.units);
    line.push_str(" pictures ");
    push_number(&mut line, totals.pictures);
    line.push_str(" sequences ");
    push_number(&mut line, totals.sequences);
    line.push_str(" layers ");
    push_number(&mut line, totals.layers as u64);
    line.push_str(" sets ");
    push_number(&mut line, totals.sets as u64);
    line.push_str("\n");
    line
}

// Appends a number in decimal.
fn push_number(line: &mut Line, number: u64)
    requires { array_string_len line.old + 20 ≤ 160 }
    ensures bytes { line.new.bytes ≡ line.old.bytes ++ decimal number }
    ensures len { array_string_len line.new ≤ array_string_len line.old + 20 }
{
    let mut digits = Buffer::new();
    line.push_str(digits.format(number));
}

// Appends the name of a rule.
fn push_rule(line: &mut Line, rule: &Rule)
    requires { array_string_len line.old + 40 ≤ 160 }
    ensures bytes { line.new.bytes ≡ line.old.bytes ++ rule_name rule.now }
    ensures len { array_string_len line.new ≤ array_string_len line.old + 40 }
{
    line.push_str(rule.name());
    if let Rule::Reorder(set) = rule {
        line.push_str("(");
        push_number(line, *set as u64);
        line.push_str(")");
    }
}
