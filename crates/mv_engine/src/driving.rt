//! The loop over a source.
#![tactic(auto)]

ghost use Rattle.std.specs.Prelude.{◌≡◌, ◌≤◌, [], false, length};
ghost use Rattle.mv_io.specs.Call.{input_of};
ghost use Rattle.mv_engine.specs.Driven.{Driven, Settles, largest_piece};
ghost use Rattle.mv_engine.specs.Reader.{IsFresh};

use crate::error::DriveError;
use crate::reader::UnitReader;
use crate::reading::{has_more, read_piece};
use crate::units::handle_end;
use crate::visitor::Visitor;
use mv_io::Source;
use std::alloc::Global;

/// The most bytes that one read asks for.
const PIECE: usize = 65536;

/// Reads at most `limit` bytes of the source, in pieces of at most 65,536 bytes, and hands each unit that `reader`
/// finds in them to the visitor, with its number and place, as soon as it was taken whole, and then the end. The
/// next piece is read once all units of the last one were handed out. Where `limit` bytes were taken and they show
/// nothing, one byte more is asked for. It keeps no more of the input than one piece, for which it takes memory
/// once, and what the reader keeps.
///
/// # Errors
///
/// `Stopped` where the bytes taken are refused by their form, or the visitor objects to a unit or to the end, in the
/// piece whose bytes show it: the units before it were written. `Read` only where the source's count of faults rose
/// in this call: the units that were taken whole were written. `TooLong` exactly where `limit` bytes were taken, they
/// show nothing, and the source gave another: the units that they hold whole were written. `Memory` where the
/// allocator refused memory. `Fault` where the visitor couldn't go on.
pub fn drive<S: Source, R: UnitReader, V: Visitor>(
    alloc: Global,
    source: &mut S,
    limit: u64,
    reader: &mut R,
    visitor: &mut V,
    out: &mut V::Out,
) -> Result<(), DriveError<V::Fault>>
    requires fresh { IsFresh (R.reading reader.old) }
    requires stands { R.stands reader.old [] }
    requires opens { V.meaning.opens visitor.old }
    ensures driven { Driven R.format V.meaning visitor.old visitor.new out.old out.new limit
        (input_of (S.state source.old) (S.state source.new)) result }
    ensures settles { Settles R.format (V.meaning.judge visitor.old) limit
        (input_of (S.state source.old) (S.state source.new)) result }
    ensures source_count { (S.state source.old).faults ≤ (S.state source.new).faults }
{
    let mut piece = match vec![in alloc; 0; PIECE] {
        Ok(piece) => piece,
        Err(_) => return Err(DriveError::Memory),
    };
    drive_pieces(source, limit, piece.as_mut_slice(), reader, visitor, out)
}

// Reads the input piece by piece into `piece`, and handles each, up to the end or one byte past the limit.
fn drive_pieces<S: Source, R: UnitReader, V: Visitor>(
    source: &mut S,
    limit: u64,
    piece: &mut [u8],
    reader: &mut R,
    visitor: &mut V,
    out: &mut V::Out,
) -> Result<(), DriveError<V::Fault>>
    requires fresh { IsFresh (R.reading reader.old) }
    requires stands { R.stands reader.old [] }
    requires opens { V.meaning.opens visitor.old }
    requires room { length piece.old ≡ largest_piece }
    ensures driven { Driven R.format V.meaning visitor.old visitor.new out.old out.new limit
        (input_of (S.state source.old) (S.state source.new)) result }
    ensures source_count { (S.state source.old).faults ≤ (S.state source.new).faults }
{
    let mut number = 0;
    let mut room = limit;
    while room > 0 {
        let most = room.min(PIECE as u64) as usize;
        match read_piece(
            source,
            &mut piece[..most],
            reader,
            &mut number,
            visitor,
            out,
        ) {
            Ok(0) => return handle_end(reader, number, limit - room, visitor, out),
            Ok(count) => room -= count as u64,
            Err(error) => return Err(error),
        }
    }
    match has_more(source) {
        Ok(false) => handle_end(reader, number, limit, visitor, out),
        Ok(true) => Err(DriveError::TooLong),
        Err(_) => Err(DriveError::Read),
    }
}
