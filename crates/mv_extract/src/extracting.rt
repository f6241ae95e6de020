//! Extraction for an output layer set, and the check of a whole stream.
#![tactic(auto)]

ghost use Rattle.std.specs.Prelude.{ℕ, ◌≡◌, ◌≢◌, ◌≤◌, [], Err, IfOk};
ghost use Rattle.mv_bytestream.specs.Scan.{StandsFor, nothing_fed};
ghost use Rattle.mv_io.specs.Call.{input_of, output_of};
ghost use Rattle.mv_judging.specs.Format.{byte_stream};
ghost use Rattle.mv_pictures.specs.Verdict.{pictures};
ghost use Rattle.mv_walk.specs.Standing.{Stands};
ghost use Rattle.mv_extract.specs.Answers.{Answers, LacksOnly, Settles};
ghost use Rattle.mv_extract.specs.declared.error.ExtractError as ExtractError;
ghost use Rattle.mv_extract.specs.Commutes.{Extracted};
ghost use Rattle.mv_extract.specs.Text.{checking, extraction, no_sink, total};

use crate::error::ExtractError;
use crate::extractor::Extractor;
use crate::no_sink::NoSink;
use mv_bytestream::Scanner;
use mv_engine::drive;
use mv_io::{Sink, Source};
use mv_rebuild::NoPictures;
use mv_walk::{Totals, Walker};
use std::alloc::Global;
use std::marker::PhantomData;

/// No unit was counted yet.
const NOTHING: Totals = Totals {
    units: 0,
    kept: 0,
    pictures: 0,
    sequences: 0,
    layers: 0,
    sets: 0,
};

/// Extracts the sub-bitstream of output layer set `ols` (F.10.1, this project's profile), as a stream: reads at most `limit`
/// bytes of the input in pieces of at most 65,536 bytes, tries all rules on each unit, and writes each unit that is kept behind the
/// bytes `00 00 00 01`, unchanged. A unit is kept where layer 0 or a necessary layer of the set has it, by the video parameter
/// set in force, and where none is in force yet. Answers how many units there are and how many of them are kept, and how many
/// decoded pictures, coded video sequences, layers and output layer sets.
///
/// What was written of an accepted stream is accepted in turn, and its output pictures of the set are those of the whole, in
/// the same order.
///
/// It keeps no more of the input than one piece and one unit. A unit is written once it was taken whole and accepted, and
/// the next piece is read once all units that were taken whole are written. Where `limit` bytes were taken and
/// they show nothing, one byte more is asked for.
///
/// # Errors
///
/// `Refused` where a rule refuses the stream, in the piece whose bytes show it: the kept units before the refused one were
/// written. `NoSuchSet` where a video parameter set, the first or a changed one, was accepted that hasn't set `ols`, in the
/// piece whose bytes show it: the kept units before it were written. `Read` only where the source's count of faults rose in
/// this call: the kept units that were taken whole were written. `Write` only where the sink's count rose: the first bytes of
/// the kept units that were taken whole and accepted were written. `TooLong` exactly where `limit` bytes were taken, they show
/// nothing, and the source gave another: the kept units that they hold whole were written. `Memory` where the allocator refused
/// memory.
pub fn extract<S: Source, K: Sink>(
    alloc: Global,
    source: &mut S,
    limit: u64,
    ols: u32,
    sink: &mut K,
) -> Result<Totals, ExtractError>
    ensures answers { Answers byte_stream (extraction ols) (total ols) limit
        (input_of (S.state source.old) (S.state source.new))
        (output_of (K.state sink.old) (K.state sink.new))
        result }
    ensures settles { Settles byte_stream (pictures ols) limit
        (input_of (S.state source.old) (S.state source.new))
        (output_of (K.state sink.old) (K.state sink.new))
        result }
    ensures lacks { LacksOnly ols result }
    ensures commutes { IfOk result (λ totals. Extracted ols limit
        (input_of (S.state source.old) (S.state source.new))
        (output_of (K.state sink.old) (K.state sink.new))) }
    ensures source_count { (S.state source.old).faults ≤ (S.state source.new).faults }
    ensures sink_count { (K.state sink.old).faults ≤ (K.state sink.new).faults }
{
    let mut scanner = match Scanner::new(alloc) {
        Ok(scanner) => scanner,
        Err(_) => return Err(ExtractError::Memory),
    };
    let walker = match Walker::new(alloc, ols) {
        Ok(walker) => walker,
        Err(_) => return Err(ExtractError::Memory),
    };
    let mut visitor = Extractor {
        walker,
        totals: NOTHING,
        sink: PhantomData,
    };
    extract_by(alloc, source, limit, &mut scanner, &mut visitor, sink)
}

// Extracts by a visitor whose walker has walked nothing.
fn extract_by<S: Source, K: Sink>(
    alloc: Global,
    source: &mut S,
    limit: u64,
    scanner: &mut Scanner,
    visitor: &mut Extractor<K>,
    sink: &mut K,
) -> Result<Totals, ExtractError>
    requires made { scanner.old ≡ nothing_fed }
    requires stands { StandsFor scanner.old [] }
    requires begins { Stands visitor.old.walker [] }
    ensures answers { Answers byte_stream (extraction visitor.old.walker.asked) (total visitor.old.walker.asked) limit
        (input_of (S.state source.old) (S.state source.new))
        (output_of (K.state sink.old) (K.state sink.new))
        result }
    ensures settles { Settles byte_stream (pictures visitor.old.walker.asked) limit
        (input_of (S.state source.old) (S.state source.new))
        (output_of (K.state sink.old) (K.state sink.new))
        result }
    ensures lacks { LacksOnly visitor.old.walker.asked result }
    ensures commutes { IfOk result (λ totals. Extracted visitor.old.walker.asked limit
        (input_of (S.state source.old) (S.state source.new))
        (output_of (K.state sink.old) (K.state sink.new))) }
    ensures source_count { (S.state source.old).faults ≤ (S.state source.new).faults }
    ensures sink_count { (K.state sink.old).faults ≤ (K.state sink.new).faults }
{
    match drive(alloc, source, limit, scanner, visitor, sink) {
        Ok(()) => Ok(visitor.totals),
        Err(error) => Err(ExtractError::of(error)),
    }
}

/// Checks a stream: as `extract` of output layer set 0, which every video parameter set has, but nothing is written, and so no
/// write fails.
///
/// # Errors
///
/// `Refused` where a rule refuses the stream, in the piece whose bytes show it. `Read` only where the source's count of faults
/// rose in this call. `TooLong` exactly where `limit` bytes were taken, they show nothing, and the source gave another. `Memory`
/// where the allocator refused memory.
pub fn check<S: Source>(alloc: Global, source: &mut S, limit: u64) -> Result<Totals, ExtractError>
    ensures answers { Answers byte_stream checking (total 0) limit
        (input_of (S.state source.old) (S.state source.new)) no_sink
        result }
    ensures settles { Settles byte_stream (pictures 0) limit
        (input_of (S.state source.old) (S.state source.new)) no_sink
        result }
    ensures has_set { (asked count : ℕ) → result ≢ Err (ExtractError.NoSuchSet asked count) }
    ensures source_count { (S.state source.old).faults ≤ (S.state source.new).faults }
{
    extract(alloc, source, limit, 0, &mut NoSink)
}
