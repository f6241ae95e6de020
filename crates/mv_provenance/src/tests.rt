ghost use Rattle.std.specs.Prelude.{◌≡◌, ◌≤◌, ◌++◌, ℕ, List, length, OnOk};
ghost use Rattle.mv_provenance.specs.Lines.{line};

use super::*;
use mv_dpb::Shown;
use mv_io::{MemSink, Sink};
use mv_rebuild::{PicStart, Rebuild, RefKind, ViewFailed, Viewer};
use sha2::{Digest, Sha256};
use std::alloc::{AllocError, Global};
use std::test::Fail;

// The payloads of a picture's parameter sets.
struct Sets {
    vps: &'static [u8],
    sps: &'static [u8],
    pps: &'static [u8],
}

// A picture, by what it is made of: its layer, which is also its view, its count, the number of its parameter sets, its
// references by their numbers in the table, its one segment, and its list 0. The first four are those of a stream of two views.
// Their digests were computed by a program of its own, by which those of the others, and many more, come out as they were given.
struct Row {
    sequence: u64,
    layer: u8,
    count: i32,
    sets: usize,
    references: &'static [(RefKind, usize)],
    unit: &'static [u8],
    list: &'static [u8],
    digest1: &'static str,
    digest2: &'static str,
}

// The payloads of the parameter sets of the two views, and of a stream of one view.
static SETS: [Sets; 3] = [
    Sets {
        vps: &[
            0x0C, 0x11, 0xFF, 0xFF, 0x01, 0x60, 0x00, 0x00, 0x00, 0x90, 0x00, 0x00, 0x00, 0x00,
            0x00, 0x5D, 0xAC, 0x15, 0xBF, 0x5D, 0x20, 0x00, 0x04, 0x59, 0x70, 0x60, 0x20, 0x00,
            0x00, 0x09, 0x00, 0x00, 0x00, 0x00, 0x00, 0x05, 0xD8, 0xD0, 0x04, 0x00, 0x04, 0x0A,
            0x00, 0x89, 0x7D, 0x20,
        ],
        sps: &[
            0x01, 0x01, 0x60, 0x00, 0x00, 0x00, 0x90, 0x00, 0x00, 0x00, 0x00, 0x00, 0x5D, 0xA0,
            0x20, 0x81, 0x05, 0xEB, 0xAB, 0xC2, 0x08,
        ],
        pps: &[0xC0, 0x71, 0x80, 0x12],
    },
    Sets {
        vps: &[
            0x0C, 0x11, 0xFF, 0xFF, 0x01, 0x60, 0x00, 0x00, 0x00, 0x90, 0x00, 0x00, 0x00, 0x00,
            0x00, 0x5D, 0xAC, 0x15, 0xBF, 0x5D, 0x20, 0x00, 0x04, 0x59, 0x70, 0x60, 0x20, 0x00,
            0x00, 0x09, 0x00, 0x00, 0x00, 0x00, 0x00, 0x05, 0xD8, 0xD0, 0x04, 0x00, 0x04, 0x0A,
            0x00, 0x89, 0x7D, 0x20,
        ],
        sps: &[0x0E, 0x9A, 0xBC, 0x21, 0x40, 0x40],
        pps: &[0x48, 0x07, 0x18, 0x01, 0x20],
    },
    Sets {
        vps: &[
            0x0C, 0x01, 0x00, 0x00, 0x06, 0x74, 0x6F, 0x23, 0x3B, 0xBF, 0xFF, 0xFF, 0xFF, 0xFF,
            0xFF, 0xFF, 0x93, 0x0F, 0xFF, 0xFF, 0xFF, 0xFF, 0x6F, 0x09, 0xD2, 0x48, 0x21, 0x01,
            0x40,
        ],
        sps: &[
            0x00, 0xDC, 0xFF, 0xFF, 0xFF, 0xFF, 0x47, 0x8D, 0x74, 0xD5, 0x08, 0xE2, 0x00, 0xB1,
            0x22, 0x72, 0x59, 0x84, 0xE5, 0x49, 0x44, 0x28, 0x86, 0x3A, 0x6A, 0xB9, 0xA2, 0x49,
            0xCD, 0xA6, 0x4D, 0x76, 0x1C, 0x94, 0x76, 0x51, 0xAA, 0x48, 0x71, 0xAA, 0x0C, 0x37,
            0x67,
        ],
        pps: &[0x26, 0x2A, 0x1E, 0x30, 0x88, 0x88, 0xB0, 0x0A, 0x40],
    },
];

static ROWS: [Row; 6] = [
    Row {
        sequence: 0,
        layer: 0,
        count: 0,
        sets: 0,
        references: &[],
        unit: &[0x26, 0x01, 0xAF, 0xD0],
        list: &[],
        digest1: "811643bee419b5105edf7358441135e3dda6f03def2a6739e467f9e00fbf2bcf",
        digest2: "958876691767260ff04c60423751bcba01382cca577b36b079ef0beecf8e5a03",
    },
    Row {
        sequence: 0,
        layer: 1,
        count: 0,
        sets: 1,
        references: &[(RefKind::InterZero, 0)],
        unit: &[0x26, 0x09, 0x92, 0x07, 0xD1],
        list: &[0],
        digest1: "45063404c6cb2f6553dd096cabe7b460d441bbe4921fda0ac66263b171638353",
        digest2: "e60d46eaf9c9463e68bd48b39c2740aa65bd150fcf9d8f5c856b776f8d98ef94",
    },
    Row {
        sequence: 0,
        layer: 0,
        count: 1,
        sets: 0,
        references: &[(RefKind::Before, 0)],
        unit: &[0x02, 0x01, 0xD0, 0x97, 0x70, 0xD2],
        list: &[0],
        digest1: "5d827eca64beae784b3fb0fb433de9a78f2afd721b1cd89b2fca43f69b263a4f",
        digest2: "a941caace9c822b999fdc9897ab9d79ebf98844a3ec3200d291dbc0a90cf0194",
    },
    Row {
        sequence: 0,
        layer: 1,
        count: 1,
        sets: 1,
        references: &[(RefKind::Before, 1), (RefKind::InterZero, 2)],
        unit: &[0x02, 0x09, 0xA4, 0x25, 0xEB, 0x80, 0xD3],
        list: &[0, 1],
        digest1: "b3007e4c49af2f0fb084f2d2e0e1ea1fe2b467751f6a5c0428ba14c2a898f41a",
        digest2: "4010415d6713a284f948bd1e11bdffad28dbd17ed9d9bbc00b4d0e4dbbf97109",
    },
    Row {
        sequence: 1,
        layer: 0,
        count: 0,
        sets: 2,
        references: &[],
        unit: &[0x26, 0x01, 0xC9, 0x63, 0x18, 0xE0],
        list: &[],
        digest1: "4d7846ab1cc0578694e56ff5acbef7fbb6282cf2f11428be8a6765fec090337c",
        digest2: "e2b8b9552c7ab8209b4053432970f29f3db007d5a8106f7eb17500ef96da30ca",
    },
    Row {
        sequence: 1,
        layer: 0,
        count: 2,
        sets: 2,
        references: &[(RefKind::Before, 4)],
        unit: &[
            0x02, 0x01, 0x92, 0x88, 0x55, 0xE6, 0x71, 0xAE, 0x00, 0x00, 0x03, 0x01, 0x1B, 0xDD,
            0x01,
        ],
        list: &[0, 0],
        digest1: "ac4890f05398bccbe43cf48352c8b52d226b588ceb32994b399b3899626a0de6",
        digest2: "fc7338afaf50386684a8f8dbad1a92cb8404c535a5529f124f8389bd3b6a6a65",
    },
];

// The bytes in format 2 of the first two pictures.
static FIRST: [u8; 108] = [
    0x6D, 0x76, 0x70, 0x32, 0x00, 0x00, 0x00, 0x00, 0x00, 0x00, 0x00, 0x00, 0x00, 0x00, 0x00, 0x00,
    0x2E, 0x0C, 0x11, 0xFF, 0xFF, 0x01, 0x60, 0x00, 0x00, 0x00, 0x90, 0x00, 0x00, 0x00, 0x00, 0x00,
    0x5D, 0xAC, 0x15, 0xBF, 0x5D, 0x20, 0x00, 0x04, 0x59, 0x70, 0x60, 0x20, 0x00, 0x00, 0x09, 0x00,
    0x00, 0x00, 0x00, 0x00, 0x05, 0xD8, 0xD0, 0x04, 0x00, 0x04, 0x0A, 0x00, 0x89, 0x7D, 0x20, 0x00,
    0x00, 0x00, 0x15, 0x01, 0x01, 0x60, 0x00, 0x00, 0x00, 0x90, 0x00, 0x00, 0x00, 0x00, 0x00, 0x5D,
    0xA0, 0x20, 0x81, 0x05, 0xEB, 0xAB, 0xC2, 0x08, 0x00, 0x00, 0x00, 0x04, 0xC0, 0x71, 0x80, 0x12,
    0x02, 0x00, 0x00, 0x00, 0x04, 0x26, 0x01, 0xAF, 0xD0, 0x00, 0x00, 0x03,
];

static SECOND: [u8; 139] = [
    0x6D, 0x76, 0x70, 0x32, 0x01, 0x00, 0x00, 0x00, 0x01, 0x00, 0x00, 0x00, 0x00, 0x00, 0x00, 0x00,
    0x2E, 0x0C, 0x11, 0xFF, 0xFF, 0x01, 0x60, 0x00, 0x00, 0x00, 0x90, 0x00, 0x00, 0x00, 0x00, 0x00,
    0x5D, 0xAC, 0x15, 0xBF, 0x5D, 0x20, 0x00, 0x04, 0x59, 0x70, 0x60, 0x20, 0x00, 0x00, 0x09, 0x00,
    0x00, 0x00, 0x00, 0x00, 0x05, 0xD8, 0xD0, 0x04, 0x00, 0x04, 0x0A, 0x00, 0x89, 0x7D, 0x20, 0x00,
    0x00, 0x00, 0x06, 0x0E, 0x9A, 0xBC, 0x21, 0x40, 0x40, 0x00, 0x00, 0x00, 0x05, 0x48, 0x07, 0x18,
    0x01, 0x20, 0x01, 0x03, 0x01, 0x00, 0x00, 0x00, 0x00, 0x00, 0x00, 0x00, 0x00, 0x95, 0x88, 0x76,
    0x69, 0x17, 0x67, 0x26, 0x0F, 0xF0, 0x4C, 0x60, 0x42, 0x37, 0x51, 0xBC, 0xBA, 0x01, 0x38, 0x2C,
    0xCA, 0x57, 0x7B, 0x36, 0xB0, 0x79, 0xEF, 0x0B, 0xEE, 0xCF, 0x8E, 0x5A, 0x03, 0x02, 0x00, 0x00,
    0x00, 0x05, 0x26, 0x09, 0x92, 0x07, 0xD1, 0x01, 0x00, 0x00, 0x03,
];

static LINES: &str = "pic 0 0 0 811643bee419b5105edf7358441135e3dda6f03def2a6739e467f9e00fbf2bcf\n\
pic 0 0 1 45063404c6cb2f6553dd096cabe7b460d441bbe4921fda0ac66263b171638353\n\
pic 0 1 0 5d827eca64beae784b3fb0fb433de9a78f2afd721b1cd89b2fca43f69b263a4f\n\
pic 0 1 1 b3007e4c49af2f0fb084f2d2e0e1ea1fe2b467751f6a5c0428ba14c2a898f41a\n\
pic 1 0 0 4d7846ab1cc0578694e56ff5acbef7fbb6282cf2f11428be8a6765fec090337c\n\
pic 1 2 0 ac4890f05398bccbe43cf48352c8b52d226b588ceb32994b399b3899626a0de6\n";

static SUM1: &str = "195dd8f290dc97c496d17e823e63fc508d160f59224ec5c340df6fb5258c3d49";

static SUM2: &str = "5352e3db6bd05bea4e021338e3f8a21208637db46d9190bf0024deab5ebb3494";

// The pictures of the table, in its order.
fn pictures<R: Rebuild>(alloc: Global, rebuild: &R) -> Result<Vec<R::Pic>, AllocError> {
    let mut pictures: Vec<R::Pic> = Vec::new(alloc);
    for row in &ROWS {
        let picture = picture(alloc, rebuild, row, &pictures)?;
        pictures.push(picture)?;
    }
    Ok(pictures)
}

fn picture<R: Rebuild>(
    alloc: Global,
    rebuild: &R,
    row: &Row,
    earlier: &[R::Pic],
) -> Result<R::Pic, AllocError> {
    let mut work = begun(alloc, rebuild, row)?;
    for (kind, number) in row.references {
        if let Some(pic) = earlier.get(*number) {
            rebuild.refer(alloc, &mut work, *kind, pic)?;
        }
    }
    rebuild.slice(
        alloc,
        &mut work,
        first(row.unit, 100),
        first(row.list, 15),
        &[],
    )?;
    rebuild.finish(alloc, work)
}

fn begun<R: Rebuild>(alloc: Global, rebuild: &R, row: &Row) -> Result<R::Work, AllocError> {
    let sets = &SETS[row.sets % 3];
    rebuild.start(
        alloc,
        &PicStart {
            layer: row.layer,
            view: row.layer as u32,
            count: row.count,
            vps: first(sets.vps, 100),
            sps: first(sets.sps, 100),
            pps: first(sets.pps, 100),
        },
    )
}

// The first bytes, at most so many.
fn first(bytes: &[u8], count: usize) -> &[u8]
    ensures { length result.now ≤ count }
{
    &bytes[..bytes.len().min(count)]
}

fn show_all<P, V: Viewer<P>>(viewer: &mut V, pictures: &[P]) -> Result<(), ViewFailed>
    ensures same { V.viewing.name viewer.new ≡ V.viewing.name viewer.old }
{
    for (row, picture) in ROWS.iter().zip(pictures) {
        let shown = Shown {
            sequence: row.sequence,
            count: row.count,
            layer: row.layer,
            view: row.layer as u32,
        };
        match viewer.show(&shown, picture) {
            Ok(()) => {}
            Err(failed) => return Err(failed),
        }
    }
    Ok(())
}

// Writes the line of one picture, and lets the viewer go.
fn write_one<K: Sink>(sink: &mut K, shown: &Shown, picture: &Digest2) -> Result<(), ViewFailed>
    ensures written { (before : List ℕ) → (K.state sink.old).taken ≡ Some before →
        OnOk result ((K.state sink.new).taken ≡ Some (before ++ line shown.now picture.now.bytes)) }
{
    let mut viewer = DigestViewer::new(sink);
    viewer.show(shown, picture)
}

#[test]
fn digests_bind_what_pictures_are_made_of(rt: HostRuntime) -> Result<(), Fail> {
    let alloc = rt.alloc();
    let first = pictures(alloc, &DigestRebuild)?;
    let second = pictures(alloc, &DigestRebuild2)?;
    assert_eq!(rt; first.len(), 6);
    assert_eq!(rt; second.len(), 6);
    for (row, picture) in ROWS.iter().zip(&first) {
        assert_eq!(rt; hex::encode(alloc, &picture.bytes)?.as_str(), row.digest1);
    }
    for (row, picture) in ROWS.iter().zip(&second) {
        assert_eq!(rt; hex::encode(alloc, &picture.bytes)?.as_str(), row.digest2);
        assert_eq!(rt; picture.view, row.layer as u32);
        assert_eq!(rt; picture.count, row.count);
    }
    assert!(rt; Sha256::digest(&FIRST) == second[0].bytes);
    assert!(rt; Sha256::digest(&SECOND) == second[1].bytes);
    Ok(())
}

#[test]
fn viewers_write_and_sum_lines(rt: HostRuntime) -> Result<(), Fail> {
    let alloc = rt.alloc();
    let first = pictures(alloc, &DigestRebuild)?;
    let second = pictures(alloc, &DigestRebuild2)?;
    let mut sink = MemSink::new(alloc, 1000, &[6])?;
    {
        let mut viewer = DigestViewer::new(&mut sink);
        assert!(rt; show_all(&mut viewer, &first).is_ok());
        assert!(rt; show_all(&mut viewer, &second).is_err());
    }
    assert_eq!(rt; sink.bytes(), LINES.as_bytes());
    let mut sum = SumViewer::new();
    assert!(rt; show_all(&mut sum, &first).is_ok());
    assert_eq!(rt; hex::encode(alloc, &sum.finish())?.as_str(), SUM1);
    let mut sum = SumViewer::new();
    assert!(rt; show_all(&mut sum, &second).is_ok());
    assert_eq!(rt; hex::encode(alloc, &sum.finish())?.as_str(), SUM2);
    Ok(())
}
