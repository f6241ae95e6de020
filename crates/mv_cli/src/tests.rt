use crate::run::run_within;
use crate::two_view_tests::ONES;
use mv_io::{MemSink, MemSource, Source};
use std::alloc::Global;
use std::process::Abort;
use std::test::Fail;

const TWELVE: [u8; 12] = [0, 0, 1, 0x40, 1, 0xAA, 0, 0, 1, 2, 9, 0xBB];

// Two access unit delimiters, and one of them framed.
const DELIMITERS: [u8; 12] = [0, 0, 1, 0x46, 1, 0x50, 0, 0, 1, 0x46, 1, 0x50];

const FRAMED_DELIMITER: [u8; 7] = [0, 0, 0, 1, 0x46, 1, 0x50];

const USAGE: &str =
    "usage: mv_cli extract N | digest N [format1] | check | show | gen NUMBER COUNT [sum] | pack | unpack\n";

// A run over the memory ends: what comes in, and what has to come out.
#[derive(Clone, Copy)]
pub struct Row<'a> {
    pub words: &'a [&'a str],
    pub input: &'a [u8],
    pub limit: u64,
    pub pieces: &'a [u32],
    pub failing_reads: &'a [u64],
    pub failing_writes: &'a [u64],
    pub failing_faults: &'a [u64],
    pub status: u8,
    pub output: &'a [u8],
    pub line: &'a str,
}

pub const PLAIN: Row<'static> = Row {
    words: &["extract", "0"],
    input: &[],
    limit: 1000,
    pieces: &[],
    failing_reads: &[],
    failing_writes: &[],
    failing_faults: &[],
    status: 1,
    output: &[],
    line: "refused: unit 0 at byte 0: rule 73 NoPicture\n",
};

// What came out of a run.
#[derive(Drop)]
pub struct Outcome {
    pub status: u8,
    pub output: MemSink,
    pub faults: MemSink,
}

pub fn run_on<S: Source>(alloc: Global, row: &Row, input: &mut S) -> Result<Outcome, Fail> {
    let mut words = Vec::new(alloc);
    for word in row.words {
        words.push(String::from_str(alloc, word)?)?;
    }
    let mut output = MemSink::new(alloc, 1000, row.failing_writes)?;
    let mut faults = MemSink::new(alloc, 1000, row.failing_faults)?;
    let status = run_within(alloc, &words, input, &mut output, &mut faults, row.limit);
    Ok(Outcome {
        status,
        output,
        faults,
    })
}

pub fn check(rt: &impl Abort, alloc: Global, row: &Row) -> Result<(), Fail> {
    let mut input = MemSource::new(alloc, row.input, row.pieces, row.failing_reads)?;
    let outcome = run_on(alloc, row, &mut input)?;
    assert_eq!(rt; outcome.status, row.status);
    assert_eq!(rt; outcome.output.bytes(), row.output);
    assert_eq!(rt; outcome.faults.bytes(), row.line.as_bytes());
    Ok(())
}

// Runs the words on an input in pieces.
fn answers_in(
    rt: &impl Abort,
    alloc: Global,
    words: &[&str],
    input: &[u8],
    pieces: &[u32],
    status: u8,
    output: &[u8],
    line: &str,
) -> Result<(), Fail> {
    let mut texts = Vec::new(alloc);
    for word in words {
        texts.push(String::from_str(alloc, word)?)?;
    }
    let mut source = MemSource::new(alloc, input, pieces, &[])?;
    let mut written = MemSink::new(alloc, 1000, &[])?;
    let mut faults = MemSink::new(alloc, 1000, &[])?;
    let answered = run_within(alloc, &texts, &mut source, &mut written, &mut faults, 1000);
    assert_eq!(rt; answered, status);
    assert_eq!(rt; written.bytes(), output);
    assert_eq!(rt; faults.bytes(), line.as_bytes());
    Ok(())
}

// Runs the words on an input, in one piece and in pieces of one byte.
fn answers(
    rt: &impl Abort,
    alloc: Global,
    words: &[&str],
    input: &[u8],
    status: u8,
    output: &[u8],
    line: &str,
) -> Result<(), Fail> {
    answers_in(rt, alloc, words, input, &[], status, output, line)?;
    answers_in(rt, alloc, words, input, &ONES, status, output, line)
}

fn refused(
    rt: &impl Abort,
    alloc: Global,
    input: &[u8],
    output: &[u8],
    line: &str,
) -> Result<(), Fail> {
    answers(rt, alloc, &["extract", "0"], input, 1, output, line)
}

#[test]
fn streams(rt: HostRuntime) -> Result<(), Fail> {
    let alloc = rt.alloc();
    let none = "refused: unit 0 at byte 0: rule 73 NoPicture\n";
    refused(&rt, alloc, &[], &[], none)?;
    answers(&rt, alloc, &["check"], &[], 1, &[], none)?;
    refused(
        &rt,
        alloc,
        &TWELVE,
        &[],
        "refused: unit 0 at byte 3: rule 11 ExternalBase\n",
    )?;
    refused(
        &rt,
        alloc,
        &[0, 0, 1, 0xC0, 1],
        &[],
        "refused: unit 0 at byte 3: rule 5 Head\n",
    )?;
    refused(
        &rt,
        alloc,
        &[0xFF, 0, 0, 1, 0x46, 1, 0x50],
        &[],
        "refused: unit 0 at byte 0: rule 1 Leading\n",
    )?;
    refused(
        &rt,
        alloc,
        &[0, 0, 1, 0x46],
        &[],
        "refused: unit 0 at byte 3: rule 2 Short\n",
    )?;
    refused(
        &rt,
        alloc,
        &[0, 0, 1, 0x46, 1, 0x50, 0, 0, 1, 0x46],
        &FRAMED_DELIMITER,
        "refused: unit 1 at byte 9: rule 2 Short\n",
    )?;
    refused(
        &rt,
        alloc,
        &[0, 0, 1, 0x26, 1, 0, 0, 2, 0xD0],
        &[],
        "refused: unit 0 at byte 3: rule 3 Emulation\n",
    )
}

#[test]
fn ends_at_the_limit(rt: HostRuntime) -> Result<(), Fail> {
    let zeros = [0; 11];
    let long = Row {
        input: &zeros,
        limit: 10,
        status: 7,
        line: "too long\n",
        ..PLAIN
    };
    let full = Row {
        input: &zeros[..10],
        limit: 10,
        line: "refused: unit 0 at byte 10: rule 73 NoPicture\n",
        ..PLAIN
    };
    let rows = [
        long,
        Row {
            pieces: &ONES,
            ..long
        },
        full,
        Row {
            pieces: &ONES,
            ..full
        },
    ];
    for row in &rows {
        check(&rt, rt.alloc(), row)?;
    }
    Ok(())
}

static PACKED: [u8; 14] = [0, 0, 0, 3, 0x40, 1, 0xAA, 0, 0, 0, 3, 2, 9, 0xBB];

static FRAMED: [u8; 14] = [0, 0, 0, 1, 0x40, 1, 0xAA, 0, 0, 0, 1, 2, 9, 0xBB];

#[test]
fn units_behind_their_lengths(rt: HostRuntime) -> Result<(), Fail> {
    let alloc = rt.alloc();
    answers(&rt, alloc, &["pack"], &TWELVE, 0, &PACKED, "")?;
    answers(&rt, alloc, &["unpack"], &PACKED, 0, &FRAMED, "")?;
    answers(&rt, alloc, &["unpack"], &[], 0, &[], "")
}

fn refused_unpacked(rt: &impl Abort, alloc: Global, input: &[u8], line: &str) -> Result<(), Fail> {
    answers(rt, alloc, &["unpack"], input, 1, &[], line)
}

#[test]
fn refuses_units_behind_their_lengths(rt: HostRuntime) -> Result<(), Fail> {
    let alloc = rt.alloc();
    refused_unpacked(
        &rt,
        alloc,
        &PACKED[..6],
        "refused: unit 0 at byte 6: rule 90 Truncated\n",
    )?;
    refused_unpacked(
        &rt,
        alloc,
        &[0, 0, 0, 6, 0x40, 1, 0, 0, 1, 0xAA],
        "refused: unit 0 at byte 4: rule 91 InnerCode\n",
    )?;
    refused_unpacked(
        &rt,
        alloc,
        &[0, 0, 0, 3, 0x40, 1, 0],
        "refused: unit 0 at byte 4: rule 92 LastZero\n",
    )
}

#[test]
fn faults_with_units_behind_their_lengths(rt: HostRuntime) -> Result<(), Fail> {
    let unread = Row {
        words: &["pack"],
        input: &TWELVE,
        failing_reads: &[0],
        status: 3,
        line: "read fault\n",
        ..PLAIN
    };
    let unwritten = Row {
        words: &["unpack"],
        input: &PACKED,
        failing_writes: &[3],
        status: 4,
        output: &FRAMED[..11],
        line: "write fault\n",
        ..PLAIN
    };
    let rows = [
        unread,
        Row {
            pieces: &ONES,
            ..unread
        },
        unwritten,
        Row {
            pieces: &ONES,
            ..unwritten
        },
    ];
    for row in &rows {
        check(&rt, rt.alloc(), row)?;
    }
    Ok(())
}

#[test]
fn faults(rt: HostRuntime) -> Result<(), Fail> {
    let plain = Row {
        input: &DELIMITERS,
        output: &FRAMED_DELIMITER,
        status: 3,
        line: "read fault\n",
        ..PLAIN
    };
    let rows = [
        Row {
            failing_reads: &[0],
            output: &[],
            ..plain
        },
        Row {
            failing_reads: &[1],
            ..plain
        },
        Row {
            failing_writes: &[0],
            status: 4,
            output: &[],
            line: "write fault\n",
            ..plain
        },
        Row {
            failing_writes: &[1],
            status: 4,
            output: &FRAMED_DELIMITER[..4],
            line: "write fault\n",
            ..plain
        },
        Row {
            failing_faults: &[0],
            line: "",
            ..PLAIN
        },
        Row {
            failing_reads: &[0],
            failing_faults: &[0],
            output: &[],
            line: "",
            ..plain
        },
    ];
    for row in &rows {
        check(&rt, rt.alloc(), row)?;
    }
    Ok(())
}

// Runs other words on ends that fail.
fn answers_usage(rt: &impl Abort, alloc: Global, words: &[&str]) -> Result<(), Fail> {
    let mut texts = Vec::new(alloc);
    for word in words {
        texts.push(String::from_str(alloc, word)?)?;
    }
    let mut input = MemSource::new(alloc, &[], &[], &[0])?;
    let mut output = MemSink::new(alloc, 1000, &[0])?;
    let mut faults = MemSink::new(alloc, 1000, &[])?;
    let status = run_within(alloc, &texts, &mut input, &mut output, &mut faults, 1000);
    assert_eq!(rt; status, 2);
    assert_eq!(rt; output.bytes().len(), 0);
    assert_eq!(rt; faults.bytes(), USAGE.as_bytes());
    Ok(())
}

#[test]
fn other_words(rt: HostRuntime) -> Result<(), Fail> {
    let forms: [&[&str]; 15] = [
        &[],
        &["extract"],
        &["extract", ""],
        &["extract", "x"],
        &["extract", "-1"],
        &["extract", "+1"],
        &["extract", "4294967296"],
        &["extract", "00000000000"],
        &["extract", "0", "0"],
        &["check", "0"],
        &["digest", "0"],
        &["gen", "7", "0"],
        &["-h"],
        &["--help"],
        &["help"],
    ];
    for words in &forms {
        answers_usage(&rt, rt.alloc(), words)?;
    }
    check(
        &rt,
        rt.alloc(),
        &Row {
            words: &["show"],
            failing_reads: &[0],
            failing_writes: &[0],
            failing_faults: &[0],
            status: 2,
            line: "",
            ..PLAIN
        },
    )
}
