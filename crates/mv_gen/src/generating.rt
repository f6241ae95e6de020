//! A whole stream, written on a sink.

ghost use Rattle.std.specs.Prelude.{◌≤◌};
ghost use Rattle.mv_io.specs.Call.{output_of};
ghost use Rattle.mv_gen.specs.Units.{gen_units};
ghost use Rattle.mv_gen.specs.Writing.{Writes, WritesNext};

use crate::generator::Gen;
use mv_bytestream::frame;
use mv_io::Sink;
use std::alloc::Global;
use thiserror::Error;

/// Why a stream wasn't written whole.
#[derive(Clone, Copy, Debug, PartialEq, Eq, Error)]
pub enum GenerateError {
    /// A write to the sink failed.
    #[error("write fault")]
    Write,
    /// The allocator refused memory.
    #[error("no memory")]
    Memory,
}

/// Writes the stream of this number, with as many access units: each unit behind the bytes `00 00 00 01`, in order. It keeps
/// no more than one unit.
///
/// # Errors
///
/// `Write` only where the sink's count of faults rose in this call: the first bytes of the stream were written, and not all.
/// `Memory` where the allocator refused memory: the first units were written, each of them whole.
pub fn generate<K: Sink>(
    alloc: Global,
    number: u64,
    count: u32,
    sink: &mut K,
) -> Result<(), GenerateError>
    ensures writes { Writes (gen_units number count) (output_of (K.state sink.old) (K.state sink.new)) result }
    ensures sink_count { (K.state sink.old).faults ≤ (K.state sink.new).faults }
{
    let mut stream = Gen::new(number, count);
    'unit: loop {
        match write_next(alloc, &mut stream, sink) {
            Ok(true) => {}
            Ok(false) => return Ok(()),
            Err(error) => return Err(error),
        }
    }
}

// Writes the next unit of a stream, framed. Says whether there was one.
fn write_next<K: Sink>(alloc: Global, stream: &mut Gen, sink: &mut K) -> Result<bool, GenerateError>
    ensures writes { WritesNext stream.old stream.new (output_of (K.state sink.old) (K.state sink.new)) result }
    ensures sink_count { (K.state sink.old).faults ≤ (K.state sink.new).faults }
{
    let unit = match stream.next_unit(alloc) {
        Ok(Some(unit)) => unit,
        Ok(None) => return Ok(false),
        Err(_) => return Err(GenerateError::Memory),
    };
    match frame(sink, &unit) {
        Ok(()) => Ok(true),
        Err(_) => Err(GenerateError::Write),
    }
}
