//! Units carried from a byte stream to the length-prefixed form, and back.
#![tactic(auto)]

ghost use Rattle.std.specs.Prelude.{◌≡◌, ◌≤◌, [], length};
ghost use Rattle.mv_engine.specs.Reader.{IsFresh};
ghost use Rattle.mv_io.specs.Call.{input_of, output_of};
ghost use Rattle.mv_judging.specs.Format.{byte_stream};
ghost use Rattle.mv_prefixed.specs.Form.{length_form};
ghost use Rattle.mv_extract.specs.Answers.{Answers, Settles};
ghost use Rattle.mv_lenform.specs.Carrying.{carrying, nobody};

use crate::carrier::{Carrier, Target};
use crate::len_reader::LenReader;
use mv_bytestream::Scanner;
use mv_engine::{UnitReader, drive};
use mv_extract::ExtractError;
use mv_io::{Sink, Source};
use std::alloc::Global;
use std::marker::PhantomData;

/// Writes each unit of a byte stream (Annex B) behind its length in four bytes, the most significant first, as a
/// stream: reads at most `limit` bytes of the input in pieces of at most 65,536 bytes, and tries the rules
/// `Leading`, `Short`, `Emulation` and `Long` on each unit (this project's profile). Heads aren't looked at.
///
/// It keeps no more of the input than one piece and one unit. A unit is written once it was taken whole. Where
/// `limit` bytes were taken and they show no refusal, one byte more is asked for. Answers the number of units.
///
/// # Errors
///
/// `Refused` where a rule refuses the stream, in the piece whose bytes show it: the units before the refused one
/// were written. `Read` only where the source's count of faults rose in this call: the units that were taken whole
/// were written. `Write` only where the sink's count rose: the first bytes of those were written. `TooLong` exactly
/// where `limit` bytes were taken, they show no refusal, and the source gave another: the units that they hold
/// whole were written. `Memory` where the allocator refused memory.
pub fn pack<S: Source, K: Sink>(
    alloc: Global,
    source: &mut S,
    limit: u64,
    sink: &mut K,
) -> Result<u64, ExtractError>
    ensures answers { Answers byte_stream (carrying Target.Prefixed) length limit
        (input_of (S.state source.old) (S.state source.new))
        (output_of (K.state sink.old) (K.state sink.new))
        result }
    ensures settles { Settles byte_stream nobody limit
        (input_of (S.state source.old) (S.state source.new))
        (output_of (K.state sink.old) (K.state sink.new))
        result }
    ensures source_count { (S.state source.old).faults ≤ (S.state source.new).faults }
    ensures sink_count { (K.state sink.old).faults ≤ (K.state sink.new).faults }
{
    match Scanner::new(alloc) {
        Ok(mut scanner) => carry(alloc, source, limit, &mut scanner, Target::Prefixed, sink),
        Err(_) => Err(ExtractError::Memory),
    }
}

/// Writes each unit of a string in the length-prefixed form behind the bytes `00 00 00 01`, unchanged, as a stream:
/// reads at most `limit` bytes of the input in pieces of at most 65,536 bytes, and tries the rules `Short`,
/// `Emulation`, `Long`, `Truncated`, `InnerCode` and `LastZero` on each unit (this project's profile). Heads aren't
/// looked at.
///
/// It keeps no more of the input than one piece and one unit, and takes no memory for a unit before its length is
/// known to be within 16,777,216 bytes. Where `limit` bytes were taken and they show no refusal, one byte more is
/// asked for. Answers the number of units.
///
/// # Errors
///
/// As `pack`.
pub fn unpack<S: Source, K: Sink>(
    alloc: Global,
    source: &mut S,
    limit: u64,
    sink: &mut K,
) -> Result<u64, ExtractError>
    ensures answers { Answers length_form (carrying Target.Framed) length limit
        (input_of (S.state source.old) (S.state source.new))
        (output_of (K.state sink.old) (K.state sink.new))
        result }
    ensures settles { Settles length_form nobody limit
        (input_of (S.state source.old) (S.state source.new))
        (output_of (K.state sink.old) (K.state sink.new))
        result }
    ensures source_count { (S.state source.old).faults ≤ (S.state source.new).faults }
    ensures sink_count { (K.state sink.old).faults ≤ (K.state sink.new).faults }
{
    match LenReader::new(alloc) {
        Ok(mut reader) => carry(alloc, source, limit, &mut reader, Target::Framed, sink),
        Err(_) => Err(ExtractError::Memory),
    }
}

// Carries the units that a reader finds into another form.
fn carry<S: Source, R: UnitReader, K: Sink>(
    alloc: Global,
    source: &mut S,
    limit: u64,
    reader: &mut R,
    to: Target,
    sink: &mut K,
) -> Result<u64, ExtractError>
    requires fresh { IsFresh (R.reading reader.old) }
    requires stands { R.stands reader.old [] }
    ensures answers { Answers R.format (carrying to) length limit
        (input_of (S.state source.old) (S.state source.new))
        (output_of (K.state sink.old) (K.state sink.new))
        result }
    ensures settles { Settles R.format nobody limit
        (input_of (S.state source.old) (S.state source.new))
        (output_of (K.state sink.old) (K.state sink.new))
        result }
    ensures source_count { (S.state source.old).faults ≤ (S.state source.new).faults }
    ensures sink_count { (K.state sink.old).faults ≤ (K.state sink.new).faults }
{
    let mut visitor = Carrier {
        to,
        count: 0,
        sink: PhantomData,
    };
    match drive(alloc, source, limit, reader, &mut visitor, sink) {
        Ok(()) => Ok(visitor.count),
        Err(error) => Err(ExtractError::of(error)),
    }
}
