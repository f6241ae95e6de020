//! Streams that are accepted and refused, by their units.
#![tactic(auto)]

ghost use Rattle.std.specs.Prelude.{◌<◌};

use crate::run::run_within;
use crate::two_view_tests::{
    BASE, IDR, IDR_LAYER_1, LONG_CODE, PPS, PPS_LAYER_1, SPS, SPS_LAYER_1, TRAIL, TRAIL_LAYER_1,
    TWO_VIEW, VPS, stream,
};
use mv_io::{MemSink, MemSource};
use std::alloc::Global;
use std::process::Abort;
use std::test::Fail;

const DELIMITER: &[u8] = &[0x46, 0x01, 0x50];

const SEI: &[u8] = &[0x4E, 0x01, 0x06, 0x01, 0xD0, 0x80];

const END: &[u8] = &[0x48, 0x01];

// A stream with one view, whose video parameter set has no extension.
const ONE_VIEW_VPS: &[u8] = &[
    0x40, 0x01, 0x0C, 0x01, 0xFF, 0xFF, 0x01, 0x60, 0x00, 0x00, 0x03, 0x00, 0x90, 0x00, 0x00, 0x03,
    0x00, 0x00, 0x03, 0x00, 0x5D, 0xAC, 0x09,
];

// The video parameter set of the two views with a flag of the scalability mask that is refused.
const DEEP_VPS: &[u8] = &[
    0x40, 0x01, 0x0C, 0x11, 0xFF, 0xFF, 0x01, 0x60, 0x00, 0x00, 0x03, 0x00, 0x90, 0x00, 0x00, 0x03,
    0x00, 0x00, 0x03, 0x00, 0x5D, 0xAC, 0x15, 0xBF, 0x5D, 0x60, 0x00, 0x04, 0x59, 0x70, 0x60, 0x20,
    0x00, 0x00, 0x09, 0x00, 0x00, 0x03, 0x00, 0x00, 0x03, 0x00, 0x05, 0xD8, 0xD0, 0x04, 0x00, 0x04,
    0x0A, 0x00, 0x89, 0x7D, 0x20,
];

// The same without its trailing bits.
const CUT_VPS: &[u8] = &[
    0x40, 0x01, 0x0C, 0x11, 0xFF, 0xFF, 0x01, 0x60, 0x00, 0x00, 0x03, 0x00, 0x90, 0x00, 0x00, 0x03,
    0x00, 0x00, 0x03, 0x00, 0x5D, 0xAC, 0x15, 0xBF, 0x5D, 0x20, 0x00, 0x04, 0x59, 0x70, 0x60, 0x20,
    0x00, 0x00, 0x09, 0x00, 0x00, 0x03, 0x00, 0x00, 0x03, 0x00, 0x05, 0xD8, 0xD0, 0x04, 0x00, 0x04,
    0x0A, 0x00, 0x89, 0x7D, 0x30,
];

// The video parameter set of the two views with vps_extension2_flag, and no bits behind it.
const OTHER_VPS: &[u8] = &[
    0x40, 0x01, 0x0C, 0x11, 0xFF, 0xFF, 0x01, 0x60, 0x00, 0x00, 0x03, 0x00, 0x90, 0x00, 0x00, 0x03,
    0x00, 0x00, 0x03, 0x00, 0x5D, 0xAC, 0x15, 0xBF, 0x5D, 0x20, 0x00, 0x04, 0x59, 0x70, 0x60, 0x20,
    0x00, 0x00, 0x09, 0x00, 0x00, 0x03, 0x00, 0x00, 0x03, 0x00, 0x05, 0xD8, 0xD0, 0x04, 0x00, 0x04,
    0x0A, 0x00, 0x89, 0x7D, 0x60,
];

// Runs the words on a stream of units.
fn answers(
    rt: &impl Abort,
    alloc: Global,
    words: &[&str],
    units: &[&[u8]],
    status: u8,
    output: &[u8],
    line: &str,
) -> Result<(), Fail> {
    let bytes = stream(alloc, units, LONG_CODE)?;
    let mut input = MemSource::new(alloc, &bytes, &[], &[])?;
    let mut texts = Vec::new(alloc);
    for word in words {
        texts.push(String::from_str(alloc, word)?)?;
    }
    let mut written = MemSink::new(alloc, 1000, &[])?;
    let mut faults = MemSink::new(alloc, 1000, &[])?;
    let answered = run_within(alloc, &texts, &mut input, &mut written, &mut faults, 1000);
    assert_eq!(rt; answered, status);
    assert_eq!(rt; written.bytes(), output);
    assert_eq!(rt; faults.bytes(), line.as_bytes());
    Ok(())
}

fn accepted(rt: &impl Abort, alloc: Global, units: &[&[u8]], line: &str) -> Result<(), Fail> {
    answers(rt, alloc, &["check"], units, 0, line.as_bytes(), "")
}

fn refused(rt: &impl Abort, alloc: Global, units: &[&[u8]], line: &str) -> Result<(), Fail> {
    answers(rt, alloc, &["check"], units, 1, &[], line)
}

fn extracted(
    rt: &impl Abort,
    alloc: Global,
    words: &[&str],
    units: &[&[u8]],
    kept: &[&[u8]],
) -> Result<(), Fail> {
    let output = stream(alloc, kept, LONG_CODE)?;
    answers(rt, alloc, words, units, 0, &output, "")
}

// The stream with two views, with one unit in place of another.
fn with<'a>(number: usize, unit: &'a [u8]) -> [&'a [u8]; 9]
    requires { number < 9 }
{
    let mut units = TWO_VIEW;
    units[number] = unit;
    units
}

const AS_BEFORE: &str = "accepted: units 9 pictures 4 sequences 1 layers 2 sets 2\n";

#[test]
fn accepts(rt: HostRuntime) -> Result<(), Fail> {
    let alloc = rt.alloc();
    // Both layers have a picture parameter set of number 0.
    let mut both = TWO_VIEW;
    both[4] = &[0x44, 0x09, 0xA0, 0x1C, 0x60, 0x04, 0x80];
    both[6] = &[0x26, 0x09, 0xA8, 0x1C, 0xD1];
    both[8] = &[0x02, 0x09, 0xD0, 0x97, 0xAE, 0xD3];
    accepted(&rt, alloc, &both, AS_BEFORE)?;
    // The second view starts with a trailing picture without references of its own.
    accepted(
        &rt,
        alloc,
        &with(6, &[0x02, 0x09, 0xA4, 0x0D, 0xC0, 0xD1]),
        AS_BEFORE,
    )?;
    // A clean random access picture, and pictures that are skipped behind it, in both layers.
    let leading: [&[u8]; 9] = [
        VPS,
        SPS,
        SPS_LAYER_1,
        PPS,
        PPS_LAYER_1,
        &[0x2A, 0x01, 0xAD, 0x1E, 0xD0],
        &[0x2A, 0x09, 0x92, 0x46, 0xE0, 0xD1],
        &[0x12, 0x01, 0xD1, 0xAB, 0x70, 0xD2],
        &[0x12, 0x09, 0xA4, 0x6A, 0xDC, 0xD3],
    ];
    accepted(
        &rt,
        alloc,
        &leading,
        "accepted: units 9 pictures 2 sequences 1 layers 2 sets 2\n",
    )?;
    // A second sequence, of the base layer alone.
    let two: [&[u8]; 10] = [
        VPS,
        SPS,
        SPS_LAYER_1,
        PPS,
        PPS_LAYER_1,
        IDR,
        IDR_LAYER_1,
        TRAIL,
        TRAIL_LAYER_1,
        &[0x26, 0x01, 0xEF, 0xD4],
    ];
    accepted(
        &rt,
        alloc,
        &two,
        "accepted: units 10 pictures 5 sequences 2 layers 2 sets 2\n",
    )?;
    // The video parameter set again, and a second sequence.
    let again: [&[u8]; 11] = [
        VPS,
        SPS,
        SPS_LAYER_1,
        PPS,
        PPS_LAYER_1,
        IDR,
        IDR_LAYER_1,
        TRAIL,
        TRAIL_LAYER_1,
        VPS,
        IDR,
    ];
    accepted(
        &rt,
        alloc,
        &again,
        "accepted: units 11 pictures 5 sequences 2 layers 2 sets 2\n",
    )?;
    // A stray of layer 5.
    let stray: [&[u8]; 6] = [ONE_VIEW_VPS, SPS, PPS, IDR, &[0x02, 0x29, 0xFF], TRAIL];
    accepted(
        &rt,
        alloc,
        &stray,
        "accepted: units 6 pictures 2 sequences 1 layers 1 sets 1\n",
    )?;
    // As a usual encoder wraps it.
    let wrapped: [&[u8]; 13] = [
        DELIMITER,
        VPS,
        SPS,
        SPS_LAYER_1,
        PPS,
        PPS_LAYER_1,
        SEI,
        IDR,
        IDR_LAYER_1,
        DELIMITER,
        TRAIL,
        TRAIL_LAYER_1,
        END,
    ];
    accepted(
        &rt,
        alloc,
        &wrapped,
        "accepted: units 13 pictures 4 sequences 1 layers 2 sets 2\n",
    )
}

#[test]
fn counts_pass_their_lsb(rt: HostRuntime) -> Result<(), Fail> {
    let alloc = rt.alloc();
    // Pictures of the base layer with the counts from 0 to 17, and then a start of the second view.
    let mut units: [&[u8]; 24] = [
        VPS,
        SPS,
        SPS_LAYER_1,
        PPS,
        PPS_LAYER_1,
        IDR,
        &[0x02, 0x01, 0xD0, 0x97, 0x70, 0xD2],
        &[0x02, 0x01, 0xD1, 0x17, 0x70, 0xD2],
        &[0x02, 0x01, 0xD1, 0x97, 0x70, 0xD2],
        &[0x02, 0x01, 0xD2, 0x17, 0x70, 0xD2],
        &[0x02, 0x01, 0xD2, 0x97, 0x70, 0xD2],
        &[0x02, 0x01, 0xD3, 0x17, 0x70, 0xD2],
        &[0x02, 0x01, 0xD3, 0x97, 0x70, 0xD2],
        &[0x02, 0x01, 0xD4, 0x17, 0x70, 0xD2],
        &[0x02, 0x01, 0xD4, 0x97, 0x70, 0xD2],
        &[0x02, 0x01, 0xD5, 0x17, 0x70, 0xD2],
        &[0x02, 0x01, 0xD5, 0x97, 0x70, 0xD2],
        &[0x02, 0x01, 0xD6, 0x17, 0x70, 0xD2],
        &[0x02, 0x01, 0xD6, 0x97, 0x70, 0xD2],
        &[0x02, 0x01, 0xD7, 0x17, 0x70, 0xD2],
        &[0x02, 0x01, 0xD7, 0x97, 0x70, 0xD2],
        &[0x02, 0x01, 0xD0, 0x17, 0x70, 0xD2],
        &[0x02, 0x01, 0xD0, 0x97, 0x70, 0xD2],
        &[0x2A, 0x09, 0x92, 0x16, 0xE0, 0xD1],
    ];
    accepted(
        &rt,
        alloc,
        &units,
        "accepted: units 24 pictures 19 sequences 1 layers 2 sets 2\n",
    )?;
    // The second view has another lsb than the base picture.
    units[23] = &[0x2A, 0x09, 0x92, 0x06, 0xE0, 0xD1];
    refused(
        &rt,
        alloc,
        &units,
        "refused: unit 23 at byte 302: rule 64 PocMismatch\n",
    )
}

#[test]
fn extracts(rt: HostRuntime) -> Result<(), Fail> {
    let alloc = rt.alloc();
    let tailed = with(
        8,
        &[0x02, 0x09, 0xA4, 0x25, 0xEB, 0x80, 0xD3, 0x00, 0x00, 0x03],
    );
    let wrapped: [&[u8]; 13] = [
        DELIMITER,
        VPS,
        SPS,
        SPS_LAYER_1,
        PPS,
        PPS_LAYER_1,
        SEI,
        IDR,
        IDR_LAYER_1,
        DELIMITER,
        TRAIL,
        TRAIL_LAYER_1,
        END,
    ];
    let behind: [&[u8]; 10] = [
        DELIMITER,
        VPS,
        SPS,
        SPS_LAYER_1,
        PPS,
        PPS_LAYER_1,
        IDR,
        IDR_LAYER_1,
        TRAIL,
        TRAIL_LAYER_1,
    ];
    extracted(&rt, alloc, &["extract", "1"], &TWO_VIEW, &TWO_VIEW)?;
    extracted(&rt, alloc, &["extract", "0000000000"], &TWO_VIEW, &BASE)?;
    extracted(&rt, alloc, &["extract", "1"], &BASE, &BASE)?;
    extracted(&rt, alloc, &["extract", "1"], &tailed, &tailed)?;
    extracted(&rt, alloc, &["extract", "1"], &wrapped, &wrapped)?;
    extracted(
        &rt,
        alloc,
        &["extract", "0"],
        &[ONE_VIEW_VPS, SPS, PPS, IDR, &[0x02, 0x29, 0xFF], TRAIL],
        &[ONE_VIEW_VPS, SPS, PPS, IDR, TRAIL],
    )?;
    answers(
        &rt,
        alloc,
        &["extract", "9"],
        &TWO_VIEW,
        6,
        &[],
        "no such set: 9 of 2\n",
    )?;
    let kept = stream(alloc, &[DELIMITER], LONG_CODE)?;
    answers(
        &rt,
        alloc,
        &["extract", "9"],
        &behind,
        6,
        &kept,
        "no such set: 9 of 2\n",
    )?;
    Ok(())
}

#[test]
fn refuses(rt: HostRuntime) -> Result<(), Fail> {
    let alloc = rt.alloc();
    refused(
        &rt,
        alloc,
        &with(7, &[0x02, 0x01, 0xD0, 0x95, 0x5C, 0xD2]),
        "refused: unit 7 at byte 141: rule 67 MissingRef\n",
    )?;
    refused(
        &rt,
        alloc,
        &with(2, &[0x42, 0x09, 0x0E, 0x9A, 0xBC, 0x21, 0xC0, 0x40]),
        "refused: unit 2 at byte 91: rule 31 SpsRange\n",
    )?;
    refused(
        &rt,
        alloc,
        &with(0, DEEP_VPS),
        "refused: unit 0 at byte 4: rule 13 Depth\n",
    )?;
    refused(
        &rt,
        alloc,
        &[
            VPS,
            SPS,
            SPS_LAYER_1,
            PPS,
            PPS_LAYER_1,
            IDR,
            &[0x02, 0x01, 0xD1, 0x15, 0x5C, 0xD2],
            &[0x02, 0x01, 0xD0, 0x97, 0x70, 0xD3],
        ],
        "refused: unit 7 at byte 142: rule 72 Reorder(0)\n",
    )?;
    refused(
        &rt,
        alloc,
        &[VPS, SPS, &[0x42, 0x09, 0x0E, 0x9A, 0xBC]],
        "refused: unit 2 at byte 91: rule 30 SpsSyntax\n",
    )?;
    refused(
        &rt,
        alloc,
        &[VPS, SPS, SPS_LAYER_1],
        "refused: unit 3 at byte 99: rule 73 NoPicture\n",
    )?;
    refused(
        &rt,
        alloc,
        &[
            VPS,
            SPS,
            SPS_LAYER_1,
            PPS,
            PPS_LAYER_1,
            IDR_LAYER_1,
            TRAIL,
            TRAIL_LAYER_1,
        ],
        "refused: unit 5 at byte 124: rule 54 NoBase\n",
    )?;
    refused(
        &rt,
        alloc,
        &[
            VPS,
            SPS,
            SPS_LAYER_1,
            PPS,
            PPS_LAYER_1,
            IDR,
            IDR_LAYER_1,
            IDR_LAYER_1,
            TRAIL,
            TRAIL_LAYER_1,
        ],
        "refused: unit 7 at byte 141: rule 55 LayerOrder\n",
    )?;
    refused(
        &rt,
        alloc,
        &[
            VPS,
            SPS,
            SPS_LAYER_1,
            PPS,
            PPS_LAYER_1,
            IDR,
            IDR_LAYER_1,
            TRAIL,
            TRAIL_LAYER_1,
            CUT_VPS,
            IDR,
        ],
        "refused: unit 9 at byte 162: rule 10 VpsSyntax\n",
    )?;
    Ok(())
}

#[test]
fn video_parameter_sets_change(rt: HostRuntime) -> Result<(), Fail> {
    let alloc = rt.alloc();
    let changed: [&[u8]; 15] = [
        VPS,
        SPS,
        SPS_LAYER_1,
        PPS,
        PPS_LAYER_1,
        IDR,
        IDR_LAYER_1,
        TRAIL,
        TRAIL_LAYER_1,
        OTHER_VPS,
        SPS,
        SPS_LAYER_1,
        PPS,
        PPS_LAYER_1,
        IDR,
    ];
    let forgotten: [&[u8]; 11] = [
        VPS,
        SPS,
        SPS_LAYER_1,
        PPS,
        PPS_LAYER_1,
        IDR,
        IDR_LAYER_1,
        TRAIL,
        TRAIL_LAYER_1,
        OTHER_VPS,
        IDR,
    ];
    let mid_sequence: [&[u8]; 15] = [
        VPS,
        SPS,
        SPS_LAYER_1,
        PPS,
        PPS_LAYER_1,
        IDR,
        IDR_LAYER_1,
        TRAIL,
        TRAIL_LAYER_1,
        OTHER_VPS,
        SPS,
        SPS_LAYER_1,
        PPS,
        PPS_LAYER_1,
        &[0x02, 0x01, 0xD1, 0x17, 0x70, 0xD3],
    ];
    let narrowed: [&[u8]; 10] = [
        VPS,
        SPS,
        SPS_LAYER_1,
        PPS,
        PPS_LAYER_1,
        IDR,
        IDR_LAYER_1,
        TRAIL,
        TRAIL_LAYER_1,
        ONE_VIEW_VPS,
    ];
    accepted(
        &rt,
        alloc,
        &changed,
        "accepted: units 15 pictures 5 sequences 2 layers 2 sets 2\n",
    )?;
    refused(
        &rt,
        alloc,
        &forgotten,
        "refused: unit 10 at byte 219: rule 50 MissingPps\n",
    )?;
    refused(
        &rt,
        alloc,
        &mid_sequence,
        "refused: unit 14 at byte 282: rule 74 VpsMidCvs\n",
    )?;
    let kept = stream(alloc, &TWO_VIEW, LONG_CODE)?;
    answers(
        &rt,
        alloc,
        &["extract", "1"],
        &narrowed,
        6,
        &kept,
        "no such set: 1 of 1\n",
    )?;
    Ok(())
}
