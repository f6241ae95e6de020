//! The units of a stream, handed to a visitor one by one as they are found.
#![tactic(auto)]

ghost use Rattle.std.specs.Prelude.{◌≡◌, ℕ, List, length};
ghost use Rattle.mv_units.specs.Units.{NalUnit};
ghost use Rattle.mv_bytestream.specs.Found.{found_unit};
ghost use Rattle.mv_engine.specs.Meaning.{Ready, ReadyToEnd};
ghost use Rattle.mv_engine.specs.inner.Handling.{CanFeed, CanHandle, ClosesOne, HandledBy, HandlesEnd, HandlesPiece, HandlesUnit, IdleBy, VisitsOne};

use crate::error::{DriveError, Ending};
use crate::reader::UnitReader;
use crate::visitor::Visitor;
use mv_bytestream::{Found, ScanFault};
use mv_judging::{Objection, Stop};

// Feeds a whole piece, and hands on each unit as soon as it is finished. `number` is that of the next unit.
pub fn handle_piece<R: UnitReader, V: Visitor>(
    piece: &[u8],
    reader: &mut R,
    number: &mut u64,
    visitor: &mut V,
    out: &mut V::Out,
) -> Result<(), DriveError<V::Fault>>
    requires { CanFeed R.format V.meaning (R.stands reader.old) visitor.old out.old (R.reading reader.old) number.old (length piece.now) }
    ensures handles { (start : V) (first : V.Out) (s : List ℕ) →
        IdleBy R.format V.meaning start first (R.stands reader.old) visitor.old out.old (R.reading reader.old) number.old s →
        HandlesPiece R.format V.meaning start first (R.stands reader.new) visitor.new out.new (R.reading reader.new) number.new s piece.now result }
{
    let mut fed = 0;
    while fed < piece.len() {
        match reader.feed(&piece[fed..]) {
            Ok(count) => fed += count,
            Err(ScanFault::Refused(refusal)) => {
                return Err(DriveError::Stopped(Stop {
                    unit: refusal.unit,
                    byte: refusal.byte,
                    why: Objection::Breaks(refusal.rule),
                }));
            }
            Err(ScanFault::Memory) => return Err(DriveError::Memory),
        }
        match handle_unit(reader, number, visitor, out) {
            Ok(()) => {}
            Err(error) => return Err(error),
        }
    }
    Ok(())
}

// Ends the input behind `taken` bytes, and hands on the last unit and the end.
pub fn handle_end<R: UnitReader, V: Visitor>(
    reader: &mut R,
    number: u64,
    taken: u64,
    visitor: &mut V,
    out: &mut V::Out,
) -> Result<(), DriveError<V::Fault>>
    requires idle { CanFeed R.format V.meaning (R.stands reader.old) visitor.old out.old (R.reading reader.old) number 0 }
    requires count { (R.reading reader.old).fed ≡ taken }
    ensures handles { (start : V) (first : V.Out) (s : List ℕ) →
        IdleBy R.format V.meaning start first (R.stands reader.old) visitor.old out.old (R.reading reader.old) number s →
        HandlesEnd R.format V.meaning start visitor.new first out.new s result }
{
    let mut number = number;
    match reader.finish() {
        Ok(()) => {}
        Err(ScanFault::Refused(refusal)) => {
            return Err(DriveError::Stopped(Stop {
                unit: refusal.unit,
                byte: refusal.byte,
                why: Objection::Breaks(refusal.rule),
            }));
        }
        Err(ScanFault::Memory) => return Err(DriveError::Memory),
    }
    match handle_unit(reader, &mut number, visitor, out) {
        Ok(()) => close(number, taken, visitor, out),
        Err(error) => Err(error),
    }
}

// Hands on the unit that waits, if one does.
fn handle_unit<R: UnitReader, V: Visitor>(
    reader: &mut R,
    number: &mut u64,
    visitor: &mut V,
    out: &mut V::Out,
) -> Result<(), DriveError<V::Fault>>
    requires { CanHandle R.format V.meaning (R.stands reader.old) visitor.old out.old (R.reading reader.old) number.old }
    ensures handles { (start : V) (first : V.Out) (s : List ℕ) →
        HandledBy R.format V.meaning start first (R.stands reader.old) visitor.old out.old (R.reading reader.old) number.old s →
        HandlesUnit R.format V.meaning start first (R.stands reader.new) visitor.new out.new (R.reading reader.old) (R.reading reader.new) number.new s result }
{
    match reader.next_unit() {
        Some(found) => match visit(*number, &found, visitor, out) {
            Ok(()) => {
                *number += 1;
                Ok(())
            }
            Err(error) => Err(error),
        },
        None => Ok(()),
    }
}

// Hands a unit to the visitor. What it objects to is told with the unit's number and place.
fn visit<V: Visitor>(
    number: u64,
    found: &Found<'_>,
    visitor: &mut V,
    out: &mut V::Out,
) -> Result<(), DriveError<V::Fault>>
    requires ready { Ready V.meaning visitor.old out.old number (found_unit found.now) }
    ensures visits { (start : V) (first : V.Out) (us : List NalUnit) → V.meaning.stands start visitor.old us →
        V.meaning.wrote start first out.old us → number ≡ length us →
        VisitsOne V.meaning start first visitor.new out.new number us (found_unit found.now) result }
{
    match visitor.unit(number, found, out) {
        Ok(()) => Ok(()),
        Err(Ending::Objects(why)) => Err(DriveError::Stopped(Stop {
            unit: number,
            byte: found.byte,
            why,
        })),
        Err(Ending::Fault(fault)) => Err(DriveError::Fault(fault)),
    }
}

// Hands the end to the visitor, behind `number` units and `taken` bytes.
fn close<V: Visitor>(
    number: u64,
    taken: u64,
    visitor: &mut V,
    out: &mut V::Out,
) -> Result<(), DriveError<V::Fault>>
    requires ready { ReadyToEnd V.meaning visitor.old out.old }
    ensures closes { (start : V) (first : V.Out) (us : List NalUnit) → V.meaning.stands start visitor.old us →
        V.meaning.wrote start first out.old us →
        ClosesOne V.meaning start visitor.new first out.new number taken us result }
{
    match visitor.end(out) {
        Ok(()) => Ok(()),
        Err(Ending::Objects(why)) => Err(DriveError::Stopped(Stop {
            unit: number,
            byte: taken,
            why,
        })),
        Err(Ending::Fault(fault)) => Err(DriveError::Fault(fault)),
    }
}
