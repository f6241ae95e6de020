//! A stream with two views, cut and broken in each way.
#![tactic(auto)]

ghost use Rattle.std.specs.Prelude.{None};

use crate::run::run_within;
use crate::tests::{Outcome, PLAIN, Row, check, run_on};
use mv_io::{MemSink, MemSource, Source, SourceFailed};
use std::alloc::{AllocError, Global};
use std::process::Abort;
use std::test::Fail;

pub const LONG_CODE: &[u8] = &[0, 0, 0, 1];

const SHORT_CODE: &[u8] = &[0, 0, 1];

// The nine units.
pub const VPS: &[u8] = &[
    0x40, 0x01, 0x0C, 0x11, 0xFF, 0xFF, 0x01, 0x60, 0x00, 0x00, 0x03, 0x00, 0x90, 0x00, 0x00, 0x03,
    0x00, 0x00, 0x03, 0x00, 0x5D, 0xAC, 0x15, 0xBF, 0x5D, 0x20, 0x00, 0x04, 0x59, 0x70, 0x60, 0x20,
    0x00, 0x00, 0x09, 0x00, 0x00, 0x03, 0x00, 0x00, 0x03, 0x00, 0x05, 0xD8, 0xD0, 0x04, 0x00, 0x04,
    0x0A, 0x00, 0x89, 0x7D, 0x20,
];

pub const SPS: &[u8] = &[
    0x42, 0x01, 0x01, 0x01, 0x60, 0x00, 0x00, 0x03, 0x00, 0x90, 0x00, 0x00, 0x03, 0x00, 0x00, 0x03,
    0x00, 0x5D, 0xA0, 0x20, 0x81, 0x05, 0xEB, 0xAB, 0xC2, 0x08,
];

pub const SPS_LAYER_1: &[u8] = &[0x42, 0x09, 0x0E, 0x9A, 0xBC, 0x21, 0x40, 0x40];

pub const PPS: &[u8] = &[0x44, 0x01, 0xC0, 0x71, 0x80, 0x12];

pub const PPS_LAYER_1: &[u8] = &[0x44, 0x09, 0x48, 0x07, 0x18, 0x01, 0x20];

pub const IDR: &[u8] = &[0x26, 0x01, 0xAF, 0xD0];

pub const IDR_LAYER_1: &[u8] = &[0x26, 0x09, 0x92, 0x07, 0xD1];

pub const TRAIL: &[u8] = &[0x02, 0x01, 0xD0, 0x97, 0x70, 0xD2];

pub const TRAIL_LAYER_1: &[u8] = &[0x02, 0x09, 0xA4, 0x25, 0xEB, 0x80, 0xD3];

// The sixth unit with bytes that may stand nowhere in a unit.
const BROKEN_IDR: &[u8] = &[0x26, 0x01, 0xAF, 0x00, 0x00, 0x02, 0xD0];

pub const TWO_VIEW: [&[u8]; 9] = [
    VPS,
    SPS,
    SPS_LAYER_1,
    PPS,
    PPS_LAYER_1,
    IDR,
    IDR_LAYER_1,
    TRAIL,
    TRAIL_LAYER_1,
];

const BROKEN: [&[u8]; 9] = [
    VPS,
    SPS,
    SPS_LAYER_1,
    PPS,
    PPS_LAYER_1,
    BROKEN_IDR,
    IDR_LAYER_1,
    TRAIL,
    TRAIL_LAYER_1,
];

// The units of layer 0.
pub const BASE: [&[u8]; 5] = [VPS, SPS, PPS, IDR, TRAIL];

// One byte a read.
pub const ONES: [u32; 200] = [1; 200];

pub fn stream(alloc: Global, units: &[&[u8]], code: &[u8]) -> Result<Vec<u8>, AllocError> {
    let mut bytes = Vec::new(alloc);
    for unit in units {
        bytes.extend_from_slice(code)?;
        bytes.extend_from_slice(unit)?;
    }
    Ok(bytes)
}

// Runs the words on an accepted stream in pieces.
fn accepted_in(
    rt: &impl Abort,
    alloc: Global,
    words: &[&str],
    input: &[u8],
    pieces: &[u32],
    output: &[u8],
) -> Result<(), Fail> {
    let mut texts = Vec::new(alloc);
    for word in words {
        texts.push(String::from_str(alloc, word)?)?;
    }
    let mut source = MemSource::new(alloc, input, pieces, &[])?;
    let mut written = MemSink::new(alloc, 1000, &[])?;
    let mut faults = MemSink::new(alloc, 1000, &[])?;
    let answered = run_within(alloc, &texts, &mut source, &mut written, &mut faults, 1000);
    assert_eq!(rt; answered, 0);
    assert_eq!(rt; written.bytes(), output);
    assert_eq!(rt; faults.bytes().len(), 0);
    Ok(())
}

// The words answer the same for the stream with two views under each code, however it is cut.
fn accepted_however_cut(
    rt: &impl Abort,
    alloc: Global,
    words: &[&str],
    output: &[u8],
) -> Result<(), Fail> {
    let long = stream(alloc, &TWO_VIEW, LONG_CODE)?;
    let short = stream(alloc, &TWO_VIEW, SHORT_CODE)?;
    assert_eq!(rt; short.len(), 149);
    accepted_in(rt, alloc, words, &long, &[], output)?;
    accepted_in(rt, alloc, words, &long, &ONES, output)?;
    accepted_in(rt, alloc, words, &short, &[], output)?;
    accepted_in(rt, alloc, words, &short, &ONES, output)
}

#[test]
fn extracts_however_cut(rt: HostRuntime) -> Result<(), Fail> {
    let alloc = rt.alloc();
    let base = stream(alloc, &BASE, LONG_CODE)?;
    assert_eq!(rt; base.len(), 115);
    let long = stream(alloc, &TWO_VIEW, LONG_CODE)?;
    accepted_however_cut(&rt, alloc, &["extract", "1"], &long)?;
    accepted_however_cut(&rt, alloc, &["extract", "0"], &base)?;
    accepted_however_cut(
        &rt,
        alloc,
        &["check"],
        b"accepted: units 9 pictures 4 sequences 1 layers 2 sets 2\n",
    )
}

// The first bytes of a stream, or all of them where it has fewer.
fn front<'a>(bytes: &'a [u8], len: usize) -> &'a [u8] {
    if len <= bytes.len() {
        &bytes[..len]
    } else {
        bytes
    }
}

#[test]
fn refuses_at_the_byte_that_shows_it(rt: HostRuntime) -> Result<(), Fail> {
    let alloc = rt.alloc();
    let input = stream(alloc, &BROKEN, LONG_CODE)?;
    let refused = Row {
        words: &["extract", "1"],
        input: &input,
        output: front(&input, 120),
        line: "refused: unit 5 at byte 124: rule 3 Emulation\n",
        ..PLAIN
    };
    let rows = [
        refused,
        Row {
            pieces: &ONES,
            failing_reads: &[129],
            status: 3,
            line: "read fault\n",
            ..refused
        },
        Row {
            pieces: &ONES,
            failing_reads: &[130],
            ..refused
        },
    ];
    for row in &rows {
        check(&rt, alloc, row)?;
    }
    Ok(())
}

// Each start code and each unit is a write of its own.
#[test]
fn keeps_what_was_written_before_a_failed_write(rt: HostRuntime) -> Result<(), Fail> {
    let alloc = rt.alloc();
    let input = stream(alloc, &TWO_VIEW, LONG_CODE)?;
    let failed = Row {
        words: &["extract", "1"],
        input: &input,
        status: 4,
        line: "write fault\n",
        ..PLAIN
    };
    let lens = [0, 4, 57, 61, 87, 91, 99, 103, 109, 113, 120, 124, 128];
    for (number, len) in lens.iter().enumerate() {
        check(
            &rt,
            alloc,
            &Row {
                failing_writes: &[number as u64],
                output: front(&input, *len),
                ..failed
            },
        )?;
    }
    check(
        &rt,
        alloc,
        &Row {
            words: &["check"],
            failing_writes: &[0],
            output: &[],
            ..failed
        },
    )
}

fn run_of(alloc: Global, input: &[u8], pieces: &[u32]) -> Result<Outcome, Fail> {
    let mut source = MemSource::new(alloc, input, pieces, &[])?;
    run_on(alloc, &PLAIN, &mut source)
}

// Each ninth front of the stream has one answer, in one piece and in pieces of one byte.
#[test]
fn answers_the_same_however_cut(rt: HostRuntime) -> Result<(), Fail> {
    let alloc = rt.alloc();
    let input = stream(alloc, &TWO_VIEW, LONG_CODE)?;
    for part in 0..=input.len() / 9 {
        let len = 9 * part;
        let whole = run_of(alloc, &input[..len], &[])?;
        let cut = run_of(alloc, &input[..len], &ONES)?;
        assert_eq!(rt; cut.status, whole.status);
        assert_eq!(rt; cut.output.bytes(), whole.output.bytes());
        assert_eq!(rt; cut.faults.bytes(), whole.faults.bytes());
    }
    Ok(())
}

// Zero bytes for ever.
#[derive(Drop)]
struct Zeros;

impl Source for Zeros {
    ghost state = { λ _. record { told = None; faults = 0 } };

    fn read(&mut self, into: &mut [u8]) -> Result<usize, SourceFailed> {
        into.fill(0);
        Ok(into.len())
    }
}

#[test]
fn ends_at_the_limit_of_an_input_without_end(rt: HostRuntime) -> Result<(), Fail> {
    let outcome = run_on(rt.alloc(), &PLAIN, &mut Zeros)?;
    assert_eq!(rt; outcome.status, 7);
    assert_eq!(rt; outcome.output.bytes().len(), 0);
    assert_eq!(rt; outcome.faults.bytes(), "too long\n".as_bytes());
    Ok(())
}
