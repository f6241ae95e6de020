ghost use Rattle.std.specs.Prelude.{◌≡◌, ◌≢◌, false, ◌^◌, IsTrue, map, string_bytes};
ghost use Rattle.mv_cli.specs.Answers.{Answers, Caused, Checks, Headline, Tells, WritesLine};
ghost use Rattle.mv_cli.specs.Ending.{line_of};
ghost use Rattle.mv_io.specs.Call.{input_of, output_of};

use crate::command::{Command, command_of};
use crate::ending::Ending;
use crate::line::{accepted, tell};
use mv_extract::{ExtractError, check, extract};
use mv_io::{Sink, Source, write_all};
use mv_lenform::{pack, unpack};
use std::alloc::Global;

/// The most bytes of input that `run` takes: 2^40.
const LIMIT: u64 = 1 << 40;

/// Does what the words say, with at most 2^40 bytes of input, and gives the exit status: `run_within` with
/// that limit.
pub fn run<S: Source, K: Sink, E: Sink>(
    alloc: Global,
    words: &[String],
    input: &mut S,
    output: &mut K,
    faults: &mut E,
) -> u8
    ensures answers { Answers (map string_bytes words.now) (2 ^ 40)
        (input_of (S.state input.old) (S.state input.new))
        (output_of (K.state output.old) (K.state output.new))
        (output_of (E.state faults.old) (E.state faults.new))
        result }
    ensures headline { Headline (map string_bytes words.now) (2 ^ 40)
        (input_of (S.state input.old) (S.state input.new))
        (output_of (K.state output.old) (K.state output.new))
        (output_of (E.state faults.old) (E.state faults.new))
        result }
{
    run_within(alloc, words, input, output, faults, LIMIT)
}

/// Does what the words say, with at most `limit` bytes of input, and gives the exit status.
///
/// With the words `extract` and N the units of a byte stream that are kept for output layer set N are written on the output,
/// each behind the bytes `00 00 00 01`, and the stream is checked; with `check` it is checked alone, and its totals are
/// written; with `pack` all its units, each behind its length in four bytes; with `unpack` the units of a string in that form,
/// each behind the bytes `00 00 00 01`. Each is written as soon as it is taken whole. The status is 0 where the stream is
/// accepted and was read to its end, and 1 where it is refused: as soon as the bytes taken show that, and then the units before
/// the refused one were written. 2 comes exactly where the words are others. 3 comes only where the input's count of faults
/// rose in this call, and 4 only where the output's did. 5 is want of memory. 6 comes where a video parameter set was accepted
/// that hasn't set N. 7 comes exactly where `limit` bytes were taken, they show nothing, and the input gave another. Each
/// status but 0 has its line, which is written on `faults`. A failure there changes no status.
pub fn run_within<S: Source, K: Sink, E: Sink>(
    alloc: Global,
    words: &[String],
    input: &mut S,
    output: &mut K,
    faults: &mut E,
    limit: u64,
) -> u8
    ensures answers { Answers (map string_bytes words.now) limit
        (input_of (S.state input.old) (S.state input.new))
        (output_of (K.state output.old) (K.state output.new))
        (output_of (E.state faults.old) (E.state faults.new))
        result }
    ensures headline { Headline (map string_bytes words.now) limit
        (input_of (S.state input.old) (S.state input.new))
        (output_of (K.state output.old) (K.state output.new))
        (output_of (E.state faults.old) (E.state faults.new))
        result }
{
    let ending = end(alloc, words, input, output, limit);
    tell(faults, &ending);
    ending.status()
}

// Does what the words say.
fn end<S: Source, K: Sink>(
    alloc: Global,
    words: &[String],
    input: &mut S,
    output: &mut K,
    limit: u64,
) -> Ending
    ensures { Caused (map string_bytes words.now) limit
        (input_of (S.state input.old) (S.state input.new))
        (output_of (K.state output.old) (K.state output.new))
        result }
{
    match command_of(words) {
        Some(Command::Extract(ols)) => Ending::of(extract(alloc, input, limit, ols, output)),
        Some(Command::Check) => Ending::of(check_all(alloc, input, limit, output)),
        Some(Command::Pack) => Ending::of(pack(alloc, input, limit, output)),
        Some(Command::Unpack) => Ending::of(unpack(alloc, input, limit, output)),
        None => Ending::Usage,
    }
}

// Checks the input, and writes the line of an accepted one on the output.
fn check_all<S: Source, K: Sink>(
    alloc: Global,
    input: &mut S,
    limit: u64,
    output: &mut K,
) -> Result<(), ExtractError>
    ensures { Checks limit
        (input_of (S.state input.old) (S.state input.new))
        (output_of (K.state output.old) (K.state output.new))
        result }
{
    match check(alloc, input, limit) {
        Ok(totals) => write_line(output, accepted(&totals).as_str()),
        Err(error) => Err(error),
    }
}

// Writes a line.
fn write_line<K: Sink>(output: &mut K, line: &str) -> Result<(), ExtractError>
    ensures { WritesLine (output_of (K.state output.old) (K.state output.new)) line.now result }
{
    match write_all(output, line.as_bytes()) {
        Ok(()) => Ok(()),
        Err(_) => Err(ExtractError::Write),
    }
}

/// The status of a run once its output was flushed: a flush that failed turns 0 into 4, and leaves another
/// status. Status 4 then has its line.
pub fn with_flush<E: Sink>(status: u8, flushed: bool, faults: &mut E) -> u8
    ensures kept { status ≢ 0 → result ≡ status }
    ensures flushed { IsTrue flushed → result ≡ status }
    ensures failed { flushed ≡ false → status ≡ 0 → result ≡ 4 }
    ensures says { flushed ≡ false → status ≡ 0 → Tells
        (output_of (E.state faults.old) (E.state faults.new))
        (line_of Ending.WriteFault) }
    ensures silent { result ≡ status → (E.state faults.new).taken ≡ (E.state faults.old).taken }
{
    if status == 0 && !flushed {
        let ending = Ending::WriteFault;
        tell(faults, &ending);
        return ending.status();
    }
    status
}
