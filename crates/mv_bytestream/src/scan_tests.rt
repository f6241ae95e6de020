//! Worked rows of the scanner: what it finds however a stream is cut, and when it refuses one.
#![tactic(auto)]

ghost use Rattle.std.specs.Prelude.{◌≡◌, ◌<◌, ◌≤◌, None, OnOk};

use crate::{ScanFault, Scanner, split};
use mv_rules::{Refusal, Rule};
use std::alloc::Global;
use std::test::Fail;

// A unit, with its place.
#[derive(Debug, Drop)]
struct Unit {
    byte: u64,
    bytes: Vec<u8>,
}

// The units that a scanner finds in a stream that is fed in pieces of at most `most` bytes.
fn units_in_pieces(alloc: Global, bytes: &[u8], most: usize) -> Result<Vec<Unit>, ScanFault>
    requires some { 0 < most }
{
    let mut scanner = match Scanner::new(alloc) {
        Ok(scanner) => scanner,
        Err(_) => return Err(ScanFault::Memory),
    };
    let mut units = Vec::new(alloc);
    let mut at = 0;
    while at < bytes.len() {
        let end = at + most.min(bytes.len() - at);
        at += match scanner.feed(&bytes[at..end]) {
            Ok(count) => count,
            Err(fault) => return Err(fault),
        };
        if !keep(alloc, &mut scanner, &mut units) {
            return Err(ScanFault::Memory);
        }
    }
    match scanner.finish() {
        Ok(()) => {}
        Err(fault) => return Err(fault),
    }
    if !keep(alloc, &mut scanner, &mut units) {
        return Err(ScanFault::Memory);
    }
    Ok(units)
}

// Keeps the unit that waits, if one does. Says whether there was memory.
fn keep(alloc: Global, scanner: &mut Scanner, units: &mut Vec<Unit>) -> bool
    ensures waiting { scanner.new.waiting ≡ None }
    ensures ended { scanner.new.ended ≡ scanner.old.ended }
    ensures fed { scanner.new.fed ≡ scanner.old.fed }
{
    match scanner.next_unit() {
        None => true,
        Some(found) => match found.unit.to_vec(alloc) {
            Err(_) => false,
            Ok(bytes) => units
                .push(Unit {
                    byte: found.byte,
                    bytes,
                })
                .is_ok(),
        },
    }
}

#[test]
fn the_units_are_those_of_split_however_the_stream_is_cut(rt: HostRuntime) -> Result<(), Fail> {
    let rows = [
        // A stream of two views: parameter sets of two layers, and two pictures of each.
        b"\0\0\0\x01\x40\x01\x0c\x11\xff\xff\x01\x60\0\0\x03\0\x90\0\0\x03\0\0\x03\0\x5d\xac\x15\xbf\x5d\x20\0\x04\x59\x70\x60\x20\0\0\x09\0\0\x03\0\0\x03\0\x05\xd8\xd0\x04\0\x04\x0a\0\x89\x7d\x20\0\0\0\x01\x42\x01\x01\x01\x60\0\0\x03\0\x90\0\0\x03\0\0\x03\0\x5d\xa0\x20\x81\x05\xeb\xab\xc2\x08\0\0\0\x01\x42\x09\x0e\x9a\xbc\x21\x40\x40\0\0\0\x01\x44\x01\xc0\x71\x80\x12\0\0\0\x01\x44\x09\x48\x07\x18\x01\x20\0\0\0\x01\x26\x01\xaf\xd0\0\0\0\x01\x26\x09\x92\x07\xd1\0\0\0\x01\x02\x01\xd0\x97\x70\xd2\0\0\0\x01\x02\x09\xa4\x25\xeb\x80\xd3".as_slice(),
        // The same with start codes of three bytes.
        b"\0\0\x01\x40\x01\x0c\x11\xff\xff\x01\x60\0\0\x03\0\x90\0\0\x03\0\0\x03\0\x5d\xac\x15\xbf\x5d\x20\0\x04\x59\x70\x60\x20\0\0\x09\0\0\x03\0\0\x03\0\x05\xd8\xd0\x04\0\x04\x0a\0\x89\x7d\x20\0\0\x01\x42\x01\x01\x01\x60\0\0\x03\0\x90\0\0\x03\0\0\x03\0\x5d\xa0\x20\x81\x05\xeb\xab\xc2\x08\0\0\x01\x42\x09\x0e\x9a\xbc\x21\x40\x40\0\0\x01\x44\x01\xc0\x71\x80\x12\0\0\x01\x44\x09\x48\x07\x18\x01\x20\0\0\x01\x26\x01\xaf\xd0\0\0\x01\x26\x09\x92\x07\xd1\0\0\x01\x02\x01\xd0\x97\x70\xd2\0\0\x01\x02\x09\xa4\x25\xeb\x80\xd3".as_slice(),
        // Nothing, zero bytes, and zero bytes at the end of units.
        b"".as_slice(),
        b"\0\0\0\0".as_slice(),
        b"\0\0\x01\x40\x01\0\0\0\0\x01\x42\x01\0\0\0".as_slice(),
    ];
    for bytes in rows {
        let spans = split(rt.alloc(), bytes)?;
        for most in [1, 2, 3, 7, 1000] {
            let units = units_in_pieces(rt.alloc(), bytes, most)?;
            assert_eq!(rt; units.len(), spans.len(), "{most} bytes a piece");
            for (unit, span) in units.iter().zip(spans.iter()) {
                assert_eq!(rt; unit.byte, span.from as u64, "{most} bytes a piece");
                assert_eq!(rt;
                    Some(unit.bytes.as_slice()),
                    bytes.get(span.from..span.to),
                    "{most} bytes a piece"
                );
            }
        }
    }
    Ok(())
}

#[test]
fn a_stream_is_refused_at_the_byte_that_shows_it(rt: HostRuntime) {
    let rows = [
        // A byte before the first start code, and the end of no start code.
        (b"\0\0\x07".as_slice(), 0, 2, Rule::Leading),
        (b"\0\x01".as_slice(), 0, 1, Rule::Leading),
        // 00 00 02, 00 00 00 and 00 00 03 04 in a unit.
        (
            b"\0\0\x01\x26\x01\0\0\x02".as_slice(),
            0,
            3,
            Rule::Emulation,
        ),
        (
            b"\0\0\x01\x40\x01\0\0\x01\x26\x01\0\0\0\x05".as_slice(),
            1,
            8,
            Rule::Emulation,
        ),
        (
            b"\0\0\x01\x26\x01\0\0\x03\x04".as_slice(),
            0,
            3,
            Rule::Emulation,
        ),
        // Units of no byte and of one byte.
        (b"\0\0\x01\0\0\x01".as_slice(), 0, 3, Rule::Short),
        (b"\0\0\x01\x40\0\0\x01".as_slice(), 0, 3, Rule::Short),
    ];
    for (bytes, unit, byte, rule) in rows {
        let refusal = ScanFault::Refused(Refusal { unit, byte, rule });
        for most in [1, 3, 1000] {
            // A byte that follows isn't needed, and one less shows nothing.
            match units_in_pieces(rt.alloc(), bytes, most) {
                Ok(_) => assert!(rt; false, "at {bytes:?}"),
                Err(fault) => assert_eq!(rt; fault, refusal, "at {bytes:?}"),
            }
        }
    }
}

#[test]
fn a_short_unit_is_refused_at_the_end(rt: HostRuntime) {
    let rows = [
        b"\0\0\x01".as_slice(),
        b"\0\0\x01\x40".as_slice(),
        b"\0\0\x01\x40\0\0\0".as_slice(),
    ];
    for bytes in rows {
        match units_in_pieces(rt.alloc(), bytes, 1) {
            Ok(_) => assert!(rt; false, "at {bytes:?}"),
            Err(fault) => assert_eq!(rt;
                fault,
                ScanFault::Refused(Refusal {
                    unit: 0,
                    byte: 3,
                    rule: Rule::Short,
                }),
                "at {bytes:?}"
            ),
        }
    }
}

#[test]
fn a_refused_scanner_answers_the_same_again(rt: HostRuntime) -> Result<(), Fail> {
    let mut scanner = Scanner::new(rt.alloc())?;
    let refused = ScanFault::Refused(Refusal {
        unit: 0,
        byte: 1,
        rule: Rule::Leading,
    });
    assert_eq!(rt; scanner.feed(b"\0\x09"), Err(refused));
    assert_eq!(rt; scanner.feed(b"\0\0\x01\x40\x01"), Err(refused));
    assert!(rt; scanner.next_unit().is_none());
    assert_eq!(rt; scanner.finish(), Err(refused));
    assert_eq!(rt; scanner.feed(b""), Err(refused));
    Ok(())
}
