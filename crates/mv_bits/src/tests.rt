ghost use Rattle.std.specs.Prelude.{◌≤◌};

use crate::end_fault::EndFault;
use crate::ending::{payload_end_of, put_payload_end};
use crate::no_bits::NoBits;
use crate::reader::BitReader;
use crate::writer::BitWriter;
use std::alloc::Global;
use std::test::Fail;

// Bytes, the value that they begin with, if one, and the place behind it.
static UE: [(&[u8], Result<u32, NoBits>, u64); 8] = [
    (&[0x80], Ok(0), 1),
    (&[0x40], Ok(1), 3),
    (&[0x60], Ok(2), 3),
    (&[0x28], Ok(4), 5),
    // 31 zeros and 32 ones.
    (&[0, 0, 0, 1, 0xFF, 0xFF, 0xFF, 0xFE], Ok(4_294_967_294), 63),
    // 32 zeros and 33 ones.
    (&[0, 0, 0, 0, 0xFF, 0xFF, 0xFF, 0xFF, 0x80], Err(NoBits), 0),
    // The bits end among the zeros, and in the bits behind the one.
    (&[0, 0], Err(NoBits), 0),
    (&[0, 0x80], Err(NoBits), 0),
];

#[test]
fn reads_ue(rt: HostRuntime) {
    for (bytes, want, place) in &UE {
        let mut bits = BitReader::new(bytes);
        assert!(rt; bits.ue() == *want, "{want:?}");
        assert_eq!(rt; bits.place(), *place, "{want:?}");
    }
}

static SE: [(&[u8], Result<i32, NoBits>); 6] = [
    (&[0x80], Ok(0)),
    (&[0x40], Ok(1)),
    (&[0x60], Ok(-1)),
    (&[0x28], Ok(-2)),
    (&[0, 0, 0, 1, 0xFF, 0xFF, 0xFF, 0xFE], Ok(-2_147_483_647)),
    (&[0, 0, 0, 0, 0xFF, 0xFF, 0xFF, 0xFF, 0x80], Err(NoBits)),
];

#[test]
fn reads_se(rt: HostRuntime) {
    for (bytes, want) in &SE {
        assert!(rt; BitReader::new(bytes).se() == *want, "{want:?}");
    }
}

// A code of 31 zeros that does not begin at a byte, behind one that fills the word.
static LONG: [u8; 9] = [0x80, 0, 0, 0, 0xFF, 0xFF, 0xFF, 0xFF, 0x40];

static LONG_VALUES: [Result<u32, NoBits>; 4] = [Ok(0), Ok(4_294_967_294), Ok(1), Err(NoBits)];

#[test]
fn reads_long_ue(rt: HostRuntime) {
    let mut bits = BitReader::new(&LONG);
    for want in &LONG_VALUES {
        assert!(rt; bits.ue() == *want, "{want:?}");
    }
}

static NUMBERS: [u8; 11] = [
    0x01, 0x23, 0x45, 0x67, 0x89, 0xAB, 0xCD, 0xEF, 0x01, 0x23, 0x45,
];

// A width, the value, and whether a byte ends behind it.
static U: [(u8, Result<u64, NoBits>, bool); 8] = [
    (0, Ok(0), true),
    (4, Ok(0), false),
    (64, Ok(0x1234_5678_9ABC_DEF0), false),
    (1, Ok(0), false),
    (12, Ok(0x246), false),
    (8, Err(NoBits), false),
    (7, Ok(0x45), true),
    (1, Err(NoBits), true),
];

#[test]
fn reads_u(rt: HostRuntime) {
    let mut bits = BitReader::new(&NUMBERS);
    for (n, want, aligned) in &U {
        assert!(rt; bits.u(*n) == *want, "{n} bits");
        assert_eq!(rt; bits.aligned(), *aligned, "{n} bits");
    }
}

// Bytes, the bits taken first, whether more data stand there, and whether trailing bits do.
static ENDS: [(&[u8], u8, bool, bool); 10] = [
    (&[], 0, false, false),
    (&[0x80], 0, false, true),
    (&[0x00], 0, false, false),
    (&[0x40], 0, true, false),
    (&[0x40], 1, false, true),
    (&[0x60], 1, true, false),
    (&[0x80, 0x00], 0, false, false),
    (&[0x80, 0x01], 0, true, false),
    (&[0xFF], 7, false, true),
    (&[0xFF], 8, false, false),
];

#[test]
fn finds_the_end(rt: HostRuntime) {
    for (bytes, taken, more, ends) in &ENDS {
        let mut bits = BitReader::new(bytes);
        assert!(rt; bits.u(*taken).is_ok(), "{bytes:?} at {taken}");
        assert_eq!(rt; bits.more_data(), *more, "{bytes:?} at {taken}");
        assert_eq!(rt;
            bits.fork().trailing().is_ok(),
            *ends,
            "{bytes:?} at {taken}"
        );
        assert_eq!(rt; bits.trailing().is_ok(), *ends, "{bytes:?} at {taken}");
        let place = if *ends {
            bytes.len() as u64 * 8
        } else {
            u64::from(*taken)
        };
        assert_eq!(rt; bits.place(), place, "{bytes:?} at {taken}");
    }
}

// Bytes, the bits taken first, and the length of the tail that stands behind them, if one does.
static TAILS: [(&[u8], u8, Result<usize, EndFault>); 10] = [
    (&[], 0, Err(EndFault::NoBits)),
    (&[0x80], 0, Ok(0)),
    (&[0x60], 0, Ok(2)),
    (&[0x60], 1, Ok(1)),
    (&[0x60], 3, Err(EndFault::NoBits)),
    (&[0x80, 0x00], 0, Err(EndFault::NoBits)),
    (&[0xA5, 0x01], 4, Ok(11)),
    (&[0xA5, 0x5A, 0x80], 4, Ok(12)),
    (&[1, 2, 3, 4, 5, 6, 7, 8, 9, 10, 11, 12], 9, Ok(84)),
    (
        &[
            0, 0, 0, 0, 0, 0, 0, 0, 0, 0, 0, 0, 0, 0, 0, 0, 0, 0, 0, 0, 0x40,
        ],
        3,
        Ok(158),
    ),
];

// The bytes again, from the bits taken first and the tail.
fn written_again(
    alloc: Global,
    bytes: &[u8],
    taken: u8,
    tail: Option<Vec<bool>>,
) -> Result<Vec<u8>, Fail>
    requires { taken ≤ 64 }
{
    let mut out = BitWriter::new(alloc);
    out.u(taken, BitReader::new(bytes).u(taken)?)?;
    put_payload_end(&mut out, &tail)?;
    out.align(false)?;
    Ok(out.into_bytes())
}

#[test]
fn reads_tails(rt: HostRuntime) -> Result<(), Fail> {
    for (bytes, taken, want) in &TAILS {
        let mut bits = BitReader::new(bytes);
        assert!(rt; bits.u(*taken).is_ok(), "{bytes:?} at {taken}");
        match payload_end_of(rt.alloc(), &mut bits, true) {
            Ok(tail) => {
                let length = tail.as_ref().map(|tail| tail.len());
                assert!(rt; length == want.ok(), "{bytes:?} at {taken}");
                let again = written_again(rt.alloc(), bytes, *taken, tail)?;
                assert_eq!(rt; again.as_slice(), *bytes, "{bytes:?} at {taken}");
            }
            Err(fault) => assert!(rt; *want == Err(fault), "{bytes:?} at {taken}"),
        }
    }
    Ok(())
}

// Bits of each call, appended to a writer that stands inside a byte.
fn write_all(out: &mut BitWriter) -> Result<(), Fail> {
    out.u(3, 5)?;
    let mut part = out.empty();
    part.u(0, 0)?;
    part.u(64, 0x8123_4567_89AB_CDEF)?;
    part.ue(0)?;
    part.ue(4_294_967_294)?;
    part.se(-2)?;
    part.se(2_147_483_647)?;
    part.se(-2_147_483_647)?;
    out.append(&part)?;
    out.align(true)?;
    out.align(false)?;
    out.trailing()?;
    Ok(())
}

#[test]
fn reads_what_was_written(rt: HostRuntime) -> Result<(), Fail> {
    let mut out = BitWriter::new(rt.alloc());
    write_all(&mut out)?;
    out.align(false)?;
    let bytes = out.into_bytes();
    let mut bits = BitReader::new(&bytes);
    assert_eq!(rt; bits.u(3)?, 5);
    assert_eq!(rt; bits.u(64)?, 0x8123_4567_89AB_CDEF);
    assert_eq!(rt; bits.ue()?, 0);
    assert_eq!(rt; bits.ue()?, 4_294_967_294);
    assert_eq!(rt; bits.se()?, -2);
    assert_eq!(rt; bits.se()?, 2_147_483_647);
    assert_eq!(rt; bits.se()?, -2_147_483_647);
    assert_eq!(rt; bits.u(2)?, 3);
    assert_eq!(rt; bits.trailing(), Ok(()));
    Ok(())
}

// How many zeros come first, the bit that fills the byte, and the bytes with trailing bits behind.
static WRITTEN: [(u8, bool, &[u8]); 4] = [
    (0, true, &[0x80]),
    (1, true, &[0x7F, 0x80]),
    (7, false, &[0x00, 0x80]),
    (8, true, &[0x00, 0x80]),
];

#[test]
fn writes_the_end(rt: HostRuntime) -> Result<(), Fail> {
    for (n, bit, want) in &WRITTEN {
        let mut out = BitWriter::new(rt.alloc());
        out.u(*n, 0)?;
        out.align(*bit)?;
        out.trailing()?;
        out.align(true)?;
        assert_eq!(rt; out.into_bytes().as_slice(), *want, "{n} bits");
    }
    Ok(())
}
