//! Worked rows: what is found in a string, how heads are read, what a failed write leaves, and payloads put into
//! units and taken out.
#![tactic(auto)]

use crate::{ScanFault, Span, UnitHead, escape, frame, read_head, split, unescape};
use mv_io::MemSink;
use mv_rules::{Refusal, Rule};
use std::test::Fail;

#[test]
fn units_stand_behind_start_codes(rt: HostRuntime) -> Result<(), Fail> {
    let rows = [
        // No bytes, and zero bytes alone.
        (b"".as_slice(), [].as_slice()),
        (b"\0\0\0\0".as_slice(), [].as_slice()),
        // Two units.
        (
            b"\0\0\x01\x40\x01\xaa\0\0\x01\x02\x09\xbb".as_slice(),
            [Span { from: 3, to: 6 }, Span { from: 9, to: 12 }].as_slice(),
        ),
        // A code of four bytes, and one of three.
        (
            b"\0\0\0\x01\x40\x01\0\0\x01\x42\x01".as_slice(),
            [Span { from: 4, to: 6 }, Span { from: 9, to: 11 }].as_slice(),
        ),
        // Zero bytes at the end of a unit, before a code and at the end.
        (
            b"\0\0\x01\x40\x01\0\0\0\0\x01\x42\x01\0\0\0".as_slice(),
            [Span { from: 3, to: 5 }, Span { from: 10, to: 12 }].as_slice(),
        ),
        // An empty unit between two codes, one of zero bytes alone, and one behind a code at the end.
        (
            b"\0\0\x01\0\0\x01\x40".as_slice(),
            [Span { from: 3, to: 3 }, Span { from: 6, to: 7 }].as_slice(),
        ),
        (
            b"\0\0\x01\0\0".as_slice(),
            [Span { from: 3, to: 3 }].as_slice(),
        ),
        (
            b"\0\0\x01\x40\x01\0\0\x01".as_slice(),
            [Span { from: 3, to: 5 }, Span { from: 8, to: 8 }].as_slice(),
        ),
        // Bytes that are no code.
        (
            b"\0\0\x01\0\0\x02\0\x01".as_slice(),
            [Span { from: 3, to: 8 }].as_slice(),
        ),
    ];
    for (bytes, want) in rows {
        let spans = split(rt.alloc(), bytes)?;
        assert_eq!(rt; spans.as_slice(), want, "at {bytes:?}");
    }
    Ok(())
}

#[test]
fn a_leading_byte_is_refused(rt: HostRuntime) {
    let rows = [
        (b"\xff\0\0\x01\x40\x01".as_slice(), 0),
        (b"\0\0\0\x07".as_slice(), 3),
        (b"\0\x01".as_slice(), 1),
        (b"\0\0\x02\0\0\x01\x40\x01".as_slice(), 2),
    ];
    for (bytes, byte) in rows {
        let refusal = Refusal {
            unit: 0,
            byte,
            rule: Rule::Leading,
        };
        match split(rt.alloc(), bytes) {
            Ok(_) => assert!(rt; false, "at {bytes:?}"),
            Err(fault) => assert_eq!(rt; fault, ScanFault::Refused(refusal), "at {bytes:?}"),
        }
    }
}

#[test]
fn heads_are_read(rt: HostRuntime) {
    let rows = [
        (
            b"\x40\x01".as_slice(),
            Ok(UnitHead {
                kind: 32,
                layer: 0,
                tid: 0,
            }),
        ),
        (
            b"\x42\x09\xff".as_slice(),
            Ok(UnitHead {
                kind: 33,
                layer: 1,
                tid: 0,
            }),
        ),
        (
            b"\x03\xfa".as_slice(),
            Ok(UnitHead {
                kind: 1,
                layer: 63,
                tid: 1,
            }),
        ),
        (
            b"\x02\x07".as_slice(),
            Ok(UnitHead {
                kind: 1,
                layer: 0,
                tid: 6,
            }),
        ),
        // The types next to those of IRAP pictures may have a TemporalId.
        (
            b"\x1e\x02".as_slice(),
            Ok(UnitHead {
                kind: 15,
                layer: 0,
                tid: 1,
            }),
        ),
        (
            b"\x30\x02".as_slice(),
            Ok(UnitHead {
                kind: 24,
                layer: 0,
                tid: 1,
            }),
        ),
        (
            b"\x2e\x01".as_slice(),
            Ok(UnitHead {
                kind: 23,
                layer: 0,
                tid: 0,
            }),
        ),
        (b"".as_slice(), Err(Rule::Short)),
        (b"\xc0".as_slice(), Err(Rule::Short)),
        (b"\xc0\x01".as_slice(), Err(Rule::Head)),
        (b"\x40\x00".as_slice(), Err(Rule::Head)),
        (b"\x20\x02".as_slice(), Err(Rule::Head)),
        (b"\x2e\x02".as_slice(), Err(Rule::Head)),
    ];
    for (unit, want) in rows {
        assert_eq!(rt; read_head(unit), want, "at {unit:?}");
    }
}

#[test]
fn a_unit_is_framed_by_two_writes(rt: HostRuntime) -> Result<(), Fail> {
    let rows = [
        ([].as_slice(), true, b"\0\0\0\x01\x40\x01\xaa".as_slice()),
        ([0].as_slice(), false, b"".as_slice()),
        ([1].as_slice(), false, b"\0\0\0\x01".as_slice()),
        ([2].as_slice(), true, b"\0\0\0\x01\x40\x01\xaa".as_slice()),
    ];
    for (failing, framed, bytes) in rows {
        let mut sink = MemSink::new(rt.alloc(), 16, failing)?;
        let answer = frame(&mut sink, b"\x40\x01\xaa");
        assert_eq!(rt; answer.is_ok(), framed, "at {failing:?}");
        assert_eq!(rt; sink.bytes(), bytes, "at {failing:?}");
    }
    Ok(())
}

#[test]
fn a_payload_is_put_into_a_unit_and_taken_out(rt: HostRuntime) -> Result<(), Fail> {
    let rows = [
        (b"\0\0\x01".as_slice(), b"\x02\x01\0\0\x03\x01".as_slice()),
        // Zero bytes at the end.
        (b"\xaa\0\0".as_slice(), b"\x02\x01\xaa\0\0\x03".as_slice()),
        (
            b"\xaa\0\0\0".as_slice(),
            b"\x02\x01\xaa\0\0\x03\0".as_slice(),
        ),
        (b"\0".as_slice(), b"\x02\x01\0".as_slice()),
        // No payload, and one of zero bytes.
        (b"".as_slice(), b"\x02\x01".as_slice()),
        (
            b"\0\0\0\0\0\0\0".as_slice(),
            b"\x02\x01\0\0\x03\0\0\x03\0\0\x03\0".as_slice(),
        ),
        // Each byte that is prevented, and the least that isn't.
        (
            b"\0\0\x02\0\0\x03\0\0\x04\0\0\xff".as_slice(),
            b"\x02\x01\0\0\x03\x02\0\0\x03\x03\0\0\x04\0\0\xff".as_slice(),
        ),
        (
            b"\0\0\x03\0\0\x03".as_slice(),
            b"\x02\x01\0\0\x03\x03\0\0\x03\x03".as_slice(),
        ),
    ];
    for (payload, unit) in rows {
        let head = UnitHead {
            kind: 1,
            layer: 0,
            tid: 0,
        };
        let made = escape(rt.alloc(), head, payload)?;
        assert_eq!(rt; made.as_slice(), unit, "at {payload:?}");
        let taken = unescape(rt.alloc(), unit)?;
        assert_eq!(rt; taken.as_slice(), payload, "at {unit:?}");
    }
    Ok(())
}

#[test]
fn a_head_stands_before_its_payload(rt: HostRuntime) -> Result<(), Fail> {
    // The zero byte of the least head stands in no pair.
    let least = UnitHead {
        kind: 0,
        layer: 0,
        tid: 0,
    };
    let unit = escape(rt.alloc(), least, b"\0\0\0")?;
    assert_eq!(rt; unit.as_slice(), b"\0\x01\0\0\x03\0".as_slice());
    let greatest = UnitHead {
        kind: 63,
        layer: 63,
        tid: 6,
    };
    let unit = escape(rt.alloc(), greatest, b"\0\x03")?;
    assert_eq!(rt; unit.as_slice(), b"\x7f\xff\0\x03".as_slice());
    Ok(())
}

#[test]
fn a_video_parameter_set_comes_back(rt: HostRuntime) -> Result<(), Fail> {
    let unit = b"\x40\x01\x0c\x11\xff\xff\x01\x60\0\0\x03\0\x90\0\0\x03\0\0\x03\0\x5d\xac\x15\xbf\
        \x5d\x20\0\x04\x59\x70\x60\x20\0\0\x09\0\0\x03\0\0\x03\0\x05\xd8\xd0\x04\0\x04\x0a\0\x89\x7d\x20";
    let payload = unescape(rt.alloc(), unit)?;
    let bytes = b"\x0c\x11\xff\xff\x01\x60\0\0\0\x90\0\0\0\0\0\x5d\xac\x15\xbf\
        \x5d\x20\0\x04\x59\x70\x60\x20\0\0\x09\0\0\0\0\0\x05\xd8\xd0\x04\0\x04\x0a\0\x89\x7d\x20";
    assert_eq!(rt; payload.as_slice(), bytes.as_slice());
    let head = UnitHead {
        kind: 32,
        layer: 0,
        tid: 0,
    };
    let again = escape(rt.alloc(), head, payload.as_slice())?;
    assert_eq!(rt; again.as_slice(), unit.as_slice());
    Ok(())
}

#[test]
fn the_zero_bytes_before_a_prevented_byte_may_be_the_head(rt: HostRuntime) -> Result<(), Fail> {
    let rows = [
        (b"\0\0\x03\x07".as_slice(), b"\x07".as_slice()),
        (b"\x02\0\0\x03\x01".as_slice(), b"\0\x01".as_slice()),
        // One zero byte before 03, and 03 behind a 03 that was put in.
        (
            b"\x02\x01\0\x03\0\0\x03\x03".as_slice(),
            b"\0\x03\0\0\x03".as_slice(),
        ),
        (
            b"\x02\x01\0\0\x03\0\x03".as_slice(),
            b"\0\0\0\x03".as_slice(),
        ),
        (b"\x02\x01".as_slice(), b"".as_slice()),
        (b"\x02".as_slice(), b"".as_slice()),
        (b"".as_slice(), b"".as_slice()),
    ];
    for (unit, payload) in rows {
        let taken = unescape(rt.alloc(), unit)?;
        assert_eq!(rt; taken.as_slice(), payload, "at {unit:?}");
    }
    Ok(())
}
