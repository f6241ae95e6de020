//! One read, and what its piece brings.
#![tactic(auto)]

ghost use Rattle.std.specs.Prelude.{◌≡◌, ◌<◌, ◌≤◌, ◌+◌, ℕ, List, length};
ghost use Rattle.mv_io.specs.Call.{input_of};
ghost use Rattle.mv_io.specs.Source.{ReadsAtMost};
ghost use Rattle.mv_engine.specs.inner.Handling.{CanFeed, IdleBy};
ghost use Rattle.mv_engine.specs.inner.Reads.{EndsHere, Reads};

use crate::error::DriveError;
use crate::reader::UnitReader;
use crate::units::handle_piece;
use crate::visitor::Visitor;
use mv_io::{Source, SourceFailed};

// One read into `piece`, whose bytes are then handled. Says how many they are: none is the end.
pub fn read_piece<S: Source, R: UnitReader, V: Visitor>(
    source: &mut S,
    piece: &mut [u8],
    reader: &mut R,
    number: &mut u64,
    visitor: &mut V,
    out: &mut V::Out,
) -> Result<usize, DriveError<V::Fault>>
    requires some { 0 < length piece.old }
    requires countable { CanFeed R.format V.meaning (R.stands reader.old) visitor.old out.old (R.reading reader.old) number.old (length piece.old) }
    ensures reads { (start : V) (first : V.Out) (s : List ℕ) →
        IdleBy R.format V.meaning start first (R.stands reader.old) visitor.old out.old (R.reading reader.old) number.old s →
        Reads R.format V.meaning start first (R.stands reader.new) visitor.new out.new (length piece.old)
        (input_of (S.state source.old) (S.state source.new)) (R.reading reader.new) number.new s result }
    ensures bound { ReadsAtMost result piece.old }
    ensures source_count { (S.state source.old).faults ≤ (S.state source.new).faults }
{
    match source.read(piece) {
        Ok(0) => Ok(0),
        Ok(count) => match handle_piece(&piece[..count], reader, number, visitor, out) {
            Ok(()) => Ok(count),
            Err(error) => Err(error),
        },
        Err(_) => Err(DriveError::Read),
    }
}

// Asks for one byte more, and says whether there is one.
pub fn has_more<S: Source>(source: &mut S) -> Result<bool, SourceFailed>
    ensures ends { EndsHere (input_of (S.state source.old) (S.state source.new)) result }
    ensures source_count { (S.state source.old).faults ≤ (S.state source.new).faults }
{
    let mut more = [0];
    match source.read(&mut more) {
        Ok(0) => Ok(false),
        Ok(_) => Ok(true),
        Err(failed) => Err(failed),
    }
}
