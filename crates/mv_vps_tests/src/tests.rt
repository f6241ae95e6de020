//! Payloads that are read, refused, written again and shown, and what is told of them.

ghost use Rattle.mv_vps.specs.Vps.{ValidVps};

use crate::field_tests::*;
use crate::payload_tests::*;
use mv_bits::BitWriter;
use mv_common::Format;
use mv_fields::Printer;
use mv_rules::{ReadFault, Rule};
use mv_vps::*;
use std::alloc::{AllocError, Global};
use std::test::Fail;

// What may hold of a video parameter set.
trait Claim {
    fn holds(&self, alloc: Global, vps: &Vps) -> bool
        requires { ValidVps vps.now };
}

// Each of several.
impl<C: Claim> Claim for &[C] {
    fn holds(&self, alloc: Global, vps: &Vps) -> bool
        requires { ValidVps vps.now }
    {
        for claim in *self {
            if !claim.holds(alloc, vps) {
                return false;
            }
        }
        true
    }
}

// Whether this holds of the video parameter set that the payload is, or why it isn't read. The tests read here alone, since the check
// of a function takes long at each place where it lets go of a video parameter set.
fn tells<C: Claim>(alloc: Global, payload: &[u8], claim: &C) -> Result<bool, ReadFault> {
    match read_vps(alloc, payload) {
        Ok(vps) => Ok(claim.holds(alloc, &vps)),
        Err(fault) => Err(fault),
    }
}

// It is written as these bytes.
#[derive(Clone, Copy)]
struct Written<'a>(&'a [u8]);

impl<'a> Claim for Written<'a> {
    fn holds(&self, alloc: Global, vps: &Vps) -> bool
        requires { ValidVps vps.now }
    {
        match write_vps(alloc, vps) {
            Ok(bytes) => bytes.as_slice() == self.0,
            Err(_) => false,
        }
    }
}

// It is shown as this text.
#[derive(Clone, Copy)]
struct Shown<'a>(&'a [u8]);

impl<'a> Claim for Shown<'a> {
    fn holds(&self, alloc: Global, vps: &Vps) -> bool
        requires { ValidVps vps.now }
    {
        let mut out = Printer::lines(alloc);
        match show_vps(&mut out, vps) {
            Ok(()) => out.text() == self.0,
            Err(_) => false,
        }
    }
}

#[test]
fn rules_refuse(rt: HostRuntime) -> Result<(), Fail> {
    for (rule, payload) in &REFUSED {
        let refused = Err(ReadFault::Refused(*rule));
        assert_eq!(rt; tells(rt.alloc(), payload, &Written(payload)), refused);
    }
    Ok(())
}

// A payload of one byte more than the greatest is refused before its fields are read.
#[test]
fn long_payload(rt: HostRuntime) -> Result<(), Fail> {
    let mut payload = Vec::new(rt.alloc());
    for _ in 0..65_537 {
        payload.push(0xAA)?;
    }
    let refused = Err(ReadFault::Refused(Rule::VpsLimit));
    assert_eq!(rt; tells(rt.alloc(), &payload, &Written(&payload)), refused);
    Ok(())
}

#[test]
fn written_again(rt: HostRuntime) -> Result<(), Fail> {
    for payload in &READ {
        assert_eq!(rt; tells(rt.alloc(), payload, &Written(payload)), Ok(true));
    }
    Ok(())
}

// What fields spell: their payload, with trailing bits, and the text that shows them. Each stands on a line of its own: its bits,
// and behind a blank, where a line shows it, that line.
fn spelled(alloc: Global, fields: &str) -> Result<(Vec<u8>, Vec<u8>), AllocError> {
    let mut bits = BitWriter::new(alloc);
    let mut text = Vec::new(alloc);
    let mut shown = false;
    for c in fields.as_bytes() {
        match *c {
            b'\n' => {
                if shown {
                    text.push(b'\n')?;
                }
                shown = false;
            }
            b' ' => {
                text.extend_from_slice(b"  ")?;
                shown = true;
            }
            c if shown => text.push(c)?,
            c => bits.u(1, u64::from(c == b'1'))?,
        }
    }
    bits.trailing()?;
    Ok((bits.into_bytes(), text))
}

// The fields read, and are written and shown as they stand.
#[test]
fn field_by_field(rt: HostRuntime) -> Result<(), Fail> {
    for fields in [single(), highest(), hrd_fields(), diamond(), independent()] {
        let (payload, text) = spelled(rt.alloc(), fields)?;
        assert_eq!(rt; tells(rt.alloc(), &payload, &Written(&payload)), Ok(true));
        assert_eq!(rt; tells(rt.alloc(), &payload, &Shown(&text)), Ok(true));
    }
    Ok(())
}

#[test]
fn fields_spell_payloads(rt: HostRuntime) -> Result<(), Fail> {
    for (fields, expected) in [
        (single(), SINGLE),
        (highest(), HIGHEST),
        (hrd_fields(), HRDS),
    ] {
        let (payload, _text) = spelled(rt.alloc(), fields)?;
        assert_eq!(rt; payload.as_slice(), expected);
    }
    Ok(())
}

#[test]
fn two_views_shown(rt: HostRuntime) -> Result<(), Fail> {
    let text = Shown(two_view_lines().as_bytes());
    assert_eq!(rt; tells(rt.alloc(), TWO_VIEW, &text), Ok(true));
    Ok(())
}

// A layer: its nuh_layer_id, view order index and view identifier, and the layers that it refers to, directly and in all.
#[derive(Clone, Copy)]
struct HasLayer(u8, u8, u32, &'static [u8], &'static [u8]);

impl Claim for HasLayer {
    fn holds(&self, _alloc: Global, vps: &Vps) -> bool
        requires { ValidVps vps.now }
    {
        match vps.layer(self.0) {
            Some(info) => {
                info.layer == self.0
                    && info.view_order == self.1
                    && info.view_id == self.2
                    && info.directs.as_slice() == self.3
                    && info.closure.as_slice() == self.4
            }
            None => false,
        }
    }
}

static LAYERS: [(&[u8], &[HasLayer]); 4] = [
    (SINGLE, &[HasLayer(0, 0, 0, &[], &[0])]),
    (HRDS, &[HasLayer(0, 0, 0, &[], &[0])]),
    (
        TWO_VIEW,
        &[
            HasLayer(0, 0, 0, &[], &[0]),
            HasLayer(1, 1, 1, &[0], &[0, 1]),
        ],
    ),
    (
        ALL,
        &[
            HasLayer(0, 0, 3, &[], &[0]),
            HasLayer(2, 1, 2, &[0], &[0, 2]),
            HasLayer(4, 2, 1, &[0], &[0, 4]),
            HasLayer(6, 3, 0, &[2, 4], &[0, 2, 4, 6]),
        ],
    ),
];

#[test]
fn layers(rt: HostRuntime) -> Result<(), Fail> {
    for (payload, rows) in &LAYERS {
        assert_eq!(rt; tells(rt.alloc(), payload, rows), Ok(true));
    }
    Ok(())
}

// An output layer set: its number, layers, outputs, necessary layers and reorder number.
#[derive(Clone, Copy)]
struct HasSet(u32, &'static [u8], &'static [u8], &'static [u8], Option<u8>);

impl Claim for HasSet {
    fn holds(&self, _alloc: Global, vps: &Vps) -> bool
        requires { ValidVps vps.now }
    {
        match vps.ols(self.0) {
            Some(set) => {
                set.layers.as_slice() == self.1
                    && set.outputs.as_slice() == self.2
                    && set.necessary.as_slice() == self.3
                    && set.reorder == self.4
            }
            None => false,
        }
    }
}

static SETS: [(&[u8], &[HasSet]); 5] = [
    (SINGLE, &[HasSet(0, &[0], &[0], &[0], None)]),
    (
        TWO_VIEW,
        &[
            HasSet(0, &[0], &[0], &[0], None),
            HasSet(1, &[0, 1], &[0, 1], &[0, 1], Some(0)),
        ],
    ),
    (
        ALL,
        &[
            HasSet(1, &[0, 2], &[0, 2], &[0, 2], Some(2)),
            HasSet(2, &[0, 2, 4, 6], &[0, 2, 4, 6], &[0, 2, 4, 6], Some(3)),
        ],
    ),
    (
        TOP,
        &[
            HasSet(1, &[0, 2], &[2], &[0, 2], Some(2)),
            HasSet(2, &[0, 2, 4, 6], &[6], &[0, 2, 4, 6], Some(3)),
        ],
    ),
    (
        FLAGGED,
        &[
            HasSet(1, &[0, 2], &[2], &[0, 2], Some(2)),
            HasSet(2, &[0, 2, 4, 6], &[0, 2], &[0, 2], Some(4)),
            HasSet(3, &[0, 2, 4, 6], &[4], &[0, 4], Some(5)),
        ],
    ),
];

#[test]
fn sets(rt: HostRuntime) -> Result<(), Fail> {
    for (payload, rows) in &SETS {
        assert_eq!(rt; tells(rt.alloc(), payload, rows), Ok(true));
    }
    Ok(())
}

// How many output layer sets there are, and a nuh_layer_id that no layer has.
#[derive(Clone, Copy)]
struct HasNoMore(u32, u8);

impl Claim for HasNoMore {
    fn holds(&self, _alloc: Global, vps: &Vps) -> bool
        requires { ValidVps vps.now }
    {
        vps.ols_count() == self.0 && vps.ols(self.0).is_none() && vps.layer(self.1).is_none()
    }
}

static COUNTS: [(&[u8], HasNoMore); 5] = [
    (SINGLE, HasNoMore(1, 1)),
    (TWO_VIEW, HasNoMore(2, 2)),
    (ALL, HasNoMore(3, 1)),
    (FLAGGED, HasNoMore(4, 7)),
    (FORMATS, HasNoMore(2, 63)),
];

#[test]
fn counts(rt: HostRuntime) -> Result<(), Fail> {
    for (payload, row) in &COUNTS {
        assert_eq!(rt; tells(rt.alloc(), payload, row), Ok(true));
    }
    Ok(())
}

// A format's index, and its width, height, chroma format and bit depths.
#[derive(Clone, Copy)]
struct HasFormat(u8, Option<[u32; 5]>);

fn numbers(format: Option<Format>) -> Option<[u32; 5]> {
    match format {
        Some(f) => Some([
            f.width,
            f.height,
            u32::from(f.chroma),
            u32::from(f.luma_depth),
            u32::from(f.chroma_depth),
        ]),
        None => None,
    }
}

impl Claim for HasFormat {
    fn holds(&self, _alloc: Global, vps: &Vps) -> bool
        requires { ValidVps vps.now }
    {
        numbers(vps.format(self.0)) == self.1
    }
}

static FORMAT_ROWS: [(&[u8], &[HasFormat]); 3] = [
    (SINGLE, &[HasFormat(0, None)]),
    (
        TWO_VIEW,
        &[HasFormat(0, Some([64, 64, 1, 8, 8])), HasFormat(1, None)],
    ),
    (
        FORMATS,
        &[
            HasFormat(0, Some([64, 48, 1, 8, 10])),
            HasFormat(1, Some([1920, 1080, 1, 8, 10])),
            HasFormat(2, Some([16_384, 16, 3, 16, 16])),
            HasFormat(3, None),
        ],
    ),
];

#[test]
fn formats(rt: HostRuntime) -> Result<(), Fail> {
    for (payload, rows) in &FORMAT_ROWS {
        assert_eq!(rt; tells(rt.alloc(), payload, rows), Ok(true));
    }
    Ok(())
}

// A tail: how many bits it has, and whether vps_extension2_flag is coded.
#[derive(Clone, Copy)]
struct HasTail(Option<usize>, Option<u8>);

fn tail_len(vps: &Vps) -> Option<usize> {
    match &vps.tail {
        Some(tail) => Some(tail.len()),
        None => None,
    }
}

impl Claim for HasTail {
    fn holds(&self, _alloc: Global, vps: &Vps) -> bool
        requires { ValidVps vps.now }
    {
        tail_len(vps) == self.0 && vps.vps_extension2_flag == self.1
    }
}

static TAILS: [(&[u8], HasTail); 4] = [
    (SINGLE, HasTail(None, None)),
    (TWO_VIEW, HasTail(None, Some(0))),
    (EMPTY_TAIL, HasTail(Some(0), Some(1))),
    (VUI, HasTail(Some(4), None)),
];

#[test]
fn tails(rt: HostRuntime) -> Result<(), Fail> {
    for (payload, row) in &TAILS {
        assert_eq!(rt; tells(rt.alloc(), payload, row), Ok(true));
    }
    Ok(())
}

// A layer, and its place, its greatest sub-layer, the index of its format, and whether its pictures lack order counts.
#[derive(Clone, Copy)]
struct PerLayer(u8, Option<[u8; 4]>);

fn numbers_of(vps: &Vps, layer: u8) -> Option<[u8; 4]>
    requires { ValidVps vps.now }
{
    Some([
        vps.layer_index(layer)?,
        vps.sub_layers_vps_max_minus1(layer)?,
        vps.rep_format_index(layer)?,
        vps.poc_lsb_not_present_flag(layer)?,
    ])
}

impl Claim for PerLayer {
    fn holds(&self, _alloc: Global, vps: &Vps) -> bool
        requires { ValidVps vps.now }
    {
        numbers_of(vps, self.0) == self.1
    }
}

static HRD_LAYERS: &[PerLayer] = &[PerLayer(0, Some([0, 0, 0, 0])), PerLayer(1, None)];

static DIAMOND_LAYERS: &[PerLayer] = &[
    PerLayer(0, Some([0, 1, 0, 0])),
    PerLayer(1, None),
    PerLayer(2, Some([1, 1, 0, 0])),
    PerLayer(3, Some([2, 1, 1, 0])),
    PerLayer(5, Some([3, 1, 1, 0])),
];

static INDEPENDENT_LAYERS: &[PerLayer] = &[
    PerLayer(0, Some([0, 1, 0, 0])),
    PerLayer(1, Some([1, 0, 1, 1])),
];

// Whether this holds of the video parameter set that the fields spell.
fn fields_tell<C: Claim>(alloc: Global, fields: &str, claim: &C) -> Result<bool, ReadFault> {
    match spelled(alloc, fields) {
        Ok((payload, _text)) => tells(alloc, &payload, claim),
        Err(_) => Err(ReadFault::Memory),
    }
}

#[test]
fn per_layer(rt: HostRuntime) -> Result<(), Fail> {
    assert_eq!(rt;
        fields_tell(rt.alloc(), hrd_fields(), &HRD_LAYERS),
        Ok(true)
    );
    assert_eq!(rt;
        fields_tell(rt.alloc(), diamond(), &DIAMOND_LAYERS),
        Ok(true)
    );
    assert_eq!(rt;
        fields_tell(rt.alloc(), independent(), &INDEPENDENT_LAYERS),
        Ok(true)
    );
    Ok(())
}

// default_ref_layers_active_flag and max_one_active_ref_layer_flag.
#[derive(Clone, Copy)]
struct HasFlags(u8, u8);

impl Claim for HasFlags {
    fn holds(&self, _alloc: Global, vps: &Vps) -> bool
        requires { ValidVps vps.now }
    {
        vps.default_ref_layers_active_flag() == self.0
            && vps.max_one_active_ref_layer_flag() == self.1
    }
}

#[test]
fn flags(rt: HostRuntime) -> Result<(), Fail> {
    assert_eq!(rt;
        fields_tell(rt.alloc(), hrd_fields(), &HasFlags(0, 0)),
        Ok(true)
    );
    assert_eq!(rt;
        fields_tell(rt.alloc(), diamond(), &HasFlags(0, 1)),
        Ok(true)
    );
    assert_eq!(rt;
        fields_tell(rt.alloc(), independent(), &HasFlags(1, 0)),
        Ok(true)
    );
    Ok(())
}

// A reference, a layer, and max_tid_il_ref_pics_plus1 of the two.
#[derive(Clone, Copy)]
struct HasMaxTid(u8, u8, u8);

impl Claim for HasMaxTid {
    fn holds(&self, _alloc: Global, vps: &Vps) -> bool
        requires { ValidVps vps.now }
    {
        vps.max_tid_il_ref_pics_plus1(self.0, self.1) == self.2
    }
}

static MAX_TIDS: &[HasMaxTid] = &[
    HasMaxTid(0, 2, 7),
    HasMaxTid(2, 5, 1),
    HasMaxTid(3, 5, 0),
    HasMaxTid(0, 5, 7),
    HasMaxTid(5, 3, 7),
    HasMaxTid(2, 4, 7),
    HasMaxTid(4, 5, 7),
];

#[test]
fn max_tids(rt: HostRuntime) -> Result<(), Fail> {
    assert_eq!(rt; fields_tell(rt.alloc(), diamond(), &MAX_TIDS), Ok(true));
    Ok(())
}
