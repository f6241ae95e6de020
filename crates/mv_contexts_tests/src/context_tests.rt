//! Contexts of slices, and headers read with them: in a stream of two views, and by sets spelled by hand.

ghost use Rattle.std.specs.Prelude.{◌≡◌, ◌≤◌, true, IfOk, IfSome};
ghost use Rattle.mv_contexts.specs.Sets.{AreSets, IsSized};
ghost use Rattle.mv_layers.specs.LayerInfos.{is_known};
ghost use Rattle.mv_pps.specs.Pps.{pps};
ghost use Rattle.mv_slice.specs.Context.{Fits};
ghost use Rattle.mv_sps.specs.Sps.{sps_payload};
ghost use Rattle.mv_syntax.specs.Payload.{ValidPayload};
ghost use Rattle.mv_vps.specs.Vps.{ValidVps};

use mv_bytestream::read_head;
use mv_common::Format;
use mv_contexts::{eligible_layers, read_unit, slice_context};
use mv_fields::Printer;
use mv_pps::read_pps;
use mv_sets::{Active, PpsSet, SpsSet};
use mv_slice::{SliceContext, show_slice};
use mv_sps::read_sps;
use mv_units::UnitHead;
use mv_vps::{Vps, read_vps};
use std::alloc::{AllocError, Global};
use std::rc::Rc;
use std::test::Fail;

// A video parameter set of layers 0 and 1, of which 1 refers to 0.
const TWO_VIEW: &[u8] = &[
    0x0C, 0x11, 0xFF, 0xFF, 0x01, 0x60, 0x00, 0x00, 0x00, 0x90, 0x00, 0x00, 0x00, 0x00, 0x00, 0x5D,
    0xAC, 0x15, 0xBF, 0x5D, 0x20, 0x00, 0x04, 0x59, 0x70, 0x60, 0x20, 0x00, 0x00, 0x09, 0x00, 0x00,
    0x00, 0x00, 0x00, 0x05, 0xD8, 0xD0, 0x04, 0x00, 0x04, 0x0A, 0x00, 0x89, 0x7D, 0x20,
];

// One of layers 0 and 1 that refer to nothing, with poc_lsb_not_present_flag for layer 1.
const INDEPENDENT: &[u8] = &[
    0x0C, 0x13, 0xFF, 0xFF, 0x01, 0x60, 0x00, 0x00, 0x00, 0x90, 0x00, 0x00, 0x00, 0x00, 0x00, 0x5D,
    0x00, 0x00, 0x2C, 0x15, 0xBF, 0x5A, 0x00, 0x00, 0x20, 0x00, 0x04, 0x19, 0x0A, 0xB4, 0x00, 0x80,
    0x00, 0x81, 0x48, 0x00, 0x10, 0x00, 0x0C, 0x1C, 0x41, 0xA6, 0x43, 0x2F, 0xBB,
];

// Layers 0, 2, 3 and 5, each with two sub-layers. Layers 2 and 3 refer to layer 0, for all sub-layers; layer 5 refers to layer 2
// for two of them, and to layer 3 for pictures of TemporalId 0 alone.
const FOUR_LAYERS: &[u8] = &[
    0x5C, 0x33, 0xFF, 0xFF, 0x01, 0x60, 0x00, 0x00, 0x00, 0x90, 0x00, 0x00, 0x00, 0x00, 0x00, 0x5D,
    0x00, 0x00, 0x15, 0xA1, 0x5D, 0x16, 0xBF, 0x5A, 0x00, 0x00, 0x20, 0x00, 0x18, 0x50, 0x68, 0xBA,
    0x3A, 0x49, 0x66, 0xFE, 0x81, 0x97, 0x40, 0x00, 0x14, 0xB0, 0x5A, 0x54, 0x62, 0x00, 0x40, 0x00,
    0x40, 0xA0, 0x00, 0x08, 0x00, 0x06, 0x02, 0xE1, 0x08, 0xF6, 0xDB, 0x59, 0x4A, 0x52, 0x90, 0xD3,
    0x18, 0xB5, 0x0C, 0xA9, 0x48,
];

// The sets of the first view, and those of the second, which takes its format from the video parameter set.
const FIRST_SPS: &[u8] = &[
    0x01, 0x01, 0x60, 0x00, 0x00, 0x00, 0x90, 0x00, 0x00, 0x00, 0x00, 0x00, 0x5D, 0xA0, 0x20, 0x81,
    0x05, 0xEB, 0xAB, 0xC2, 0x08,
];

const FIRST_PPS: &[u8] = &[0xC0, 0x71, 0x80, 0x12];

const SECOND_SPS: &[u8] = &[0x0E, 0x9A, 0xBC, 0x21, 0x40, 0x40];

const SECOND_PPS: &[u8] = &[0x48, 0x07, 0x18, 0x01, 0x20];

// A slice unit, and the lines of its header.
struct Row {
    unit: &'static [u8],
    lines: &'static str,
}

static FIRST_VIEW: [Row; 3] = [
    Row {
        unit: &[0x26, 0x01, 0xAF, 0xD0],
        lines: "  first_slice_segment_in_pic_flag=1
  no_output_of_prior_pics_flag=0
  slice_pic_parameter_set_id=0
  slice_type=2
  slice_qp_delta=0
",
    },
    Row {
        unit: &[0x02, 0x01, 0xD0, 0x97, 0x70, 0xD2],
        lines: "  first_slice_segment_in_pic_flag=1
  slice_pic_parameter_set_id=0
  slice_type=1
  slice_pic_order_cnt_lsb=1
  short_term_ref_pic_set_sps_flag=0
  num_negative_pics=1
  num_positive_pics=0
  delta_poc_s0_minus1[0]=0
  used_by_curr_pic_s0_flag[0]=1
  num_ref_idx_active_override_flag=0
  five_minus_max_num_merge_cand=0
  slice_qp_delta=0
",
    },
    // With an emulation_prevention_three_byte in it.
    Row {
        unit: &[
            0x02, 0x01, 0xD8, 0x9C, 0x02, 0x00, 0x00, 0x03, 0x02, 0x00, 0x07,
        ],
        lines: "  first_slice_segment_in_pic_flag=1
  slice_pic_parameter_set_id=0
  slice_type=2
  slice_pic_order_cnt_lsb=1
  short_term_ref_pic_set_sps_flag=0
  num_negative_pics=2
  num_positive_pics=0
  delta_poc_s0_minus1[0]=255
  used_by_curr_pic_s0_flag[0]=0
  delta_poc_s0_minus1[1]=16383
  used_by_curr_pic_s0_flag[1]=1
  slice_qp_delta=0
",
    },
];

static SECOND_VIEW: [Row; 2] = [
    Row {
        unit: &[0x26, 0x09, 0x92, 0x07, 0xD1],
        lines: "  first_slice_segment_in_pic_flag=1
  no_output_of_prior_pics_flag=0
  slice_pic_parameter_set_id=1
  slice_type=1
  slice_pic_order_cnt_lsb=0
  num_ref_idx_active_override_flag=0
  five_minus_max_num_merge_cand=0
  slice_qp_delta=0
",
    },
    Row {
        unit: &[0x02, 0x09, 0xA4, 0x25, 0xEB, 0x80, 0xD3],
        lines: "  first_slice_segment_in_pic_flag=1
  slice_pic_parameter_set_id=1
  slice_type=1
  slice_pic_order_cnt_lsb=1
  short_term_ref_pic_set_sps_flag=0
  num_negative_pics=1
  num_positive_pics=0
  delta_poc_s0_minus1[0]=0
  used_by_curr_pic_s0_flag[0]=1
  num_ref_idx_active_override_flag=1
  num_ref_idx_l0_active_minus1=1
  five_minus_max_num_merge_cand=0
  slice_qp_delta=0
",
    },
];

// A sequence parameter set of a layer, and a picture parameter set, each with its owner.
fn sps_of(alloc: Global, layer: u8, payload: &[u8]) -> Result<Rc<SpsSet>, Fail>
    ensures { IfOk result (λ set. ValidPayload (sps_payload layer 0) set.value.value) }
{
    let copy = payload.to_vec(alloc)?;
    let Ok(value) = read_sps(alloc, layer, 0, payload) else {
        return Err(Fail::new("the sequence parameter set doesn't read"));
    };
    let set = SpsSet {
        layer,
        payload: copy,
        value,
    };
    match Rc::new(alloc, set) {
        Ok(set) => Ok(set),
        Err(_) => Err(Fail::new("memory ran out")),
    }
}

fn pps_of(alloc: Global, layer: u8, payload: &[u8]) -> Result<Rc<PpsSet>, Fail>
    ensures { IfOk result (λ set. ValidPayload pps set.value.value) }
{
    let copy = payload.to_vec(alloc)?;
    let Ok(value) = read_pps(alloc, payload) else {
        return Err(Fail::new("the picture parameter set doesn't read"));
    };
    let set = PpsSet {
        layer,
        payload: copy,
        value,
    };
    match Rc::new(alloc, set) {
        Ok(set) => Ok(set),
        Err(_) => Err(Fail::new("memory ran out")),
    }
}

// The sets of a view, for pictures of a format.
fn sets_of(alloc: Global, view: u8, format: Format) -> Result<Active, Fail>
    requires { IsSized format }
    ensures { IfOk result (λ active. AreSets active) }
{
    let sps = sps_of(alloc, view, if view == 0 { FIRST_SPS } else { SECOND_SPS })?;
    let pps = pps_of(alloc, view, if view == 0 { FIRST_PPS } else { SECOND_PPS })?;
    Ok(Active { sps, pps, format })
}

// A format of 8 bits a sample, if its pictures have a size.
fn format_of(width: u32, height: u32, chroma: u8) -> Option<Format>
    ensures { IfSome result (λ format. IsSized format) }
{
    if width == 0 || width > 16384 || height == 0 || height > 16384 {
        return None;
    }
    Some(Format {
        width,
        height,
        chroma,
        luma_depth: 8,
        chroma_depth: 8,
    })
}

// What a context tells by the video parameter set: how many direct reference layers there are, the eligible ones, and
// poc_lsb_not_present_flag, default_ref_layers_active_flag and max_one_active_ref_layer_flag; and by the format.
struct Told {
    directs: u8,
    eligible: &'static [u8],
    flags: (u8, u8, u8),
    ctbs: u32,
    chroma: bool,
}

fn is_told(ctx: &SliceContext, told: &Told) -> bool {
    ctx.directs == told.directs
        && ctx.eligible == told.eligible
        && ctx.poc_lsb_not_present_flag == told.flags.0
        && ctx.default_ref_layers_active_flag == told.flags.1
        && ctx.max_one_active_ref_layer_flag == told.flags.2
        && ctx.ctbs == told.ctbs
        && ctx.chroma == told.chroma
        && ctx.lsb_bits == 4
}

// A slice's layer and TemporalId with the video parameter set and the size and chroma_format_idc of its pictures, and what its
// context tells.
struct Case {
    vps: &'static [u8],
    layer: u8,
    tid: u8,
    format: (u32, u32, u8),
    told: Told,
}

// The video parameter set has a layer.
fn is_known(vps: &Vps, layer: u8) -> bool
    requires { ValidVps vps.now }
    ensures { result ≡ is_known vps.now.derived.layers layer }
{
    match vps.layer(layer) {
        Some(_) => true,
        None => false,
    }
}

// Whether the context of a layer tells this. One that the video parameter set hasn't has none.
fn tells(
    alloc: Global,
    vps: &Vps,
    active: &Active,
    head: UnitHead,
    told: &Told,
) -> Result<bool, AllocError>
    requires vps { ValidVps vps.now }
    requires sets { AreSets active.now }
{
    if !is_known(vps, head.layer) {
        return Ok(false);
    }
    let eligible = eligible_layers(alloc, vps, head)?;
    let ctx = slice_context(vps, active, head, eligible.as_slice());
    Ok(is_told(&ctx, told))
}

fn holds_of(alloc: Global, active: &Active, case: &Case) -> Result<bool, Fail>
    requires { AreSets active.now }
{
    let head = UnitHead {
        kind: 1,
        layer: case.layer,
        tid: case.tid,
    };
    match read_vps(alloc, case.vps) {
        Ok(vps) => Ok(tells(alloc, &vps, active, head, &case.told)?),
        Err(_) => Err(Fail::new("the video parameter set doesn't read")),
    }
}

fn holds(alloc: Global, case: &Case) -> Result<bool, Fail> {
    let (width, height, chroma) = case.format;
    let Some(format) = format_of(width, height, chroma) else {
        return Err(Fail::new("the pictures have no size"));
    };
    let active = sets_of(alloc, 0, format)?;
    holds_of(alloc, &active, case)
}

static CASES: [Case; 9] = [
    Case {
        vps: TWO_VIEW,
        layer: 0,
        tid: 0,
        format: (64, 64, 1),
        told: Told {
            directs: 0,
            eligible: &[],
            flags: (0, 1, 1),
            ctbs: 16,
            chroma: true,
        },
    },
    Case {
        vps: TWO_VIEW,
        layer: 1,
        tid: 0,
        format: (64, 64, 1),
        told: Told {
            directs: 1,
            eligible: &[0],
            flags: (0, 1, 1),
            ctbs: 16,
            chroma: true,
        },
    },
    // Blocks that are cut at the right, and at the bottom.
    Case {
        vps: INDEPENDENT,
        layer: 0,
        tid: 0,
        format: (65, 64, 3),
        told: Told {
            directs: 0,
            eligible: &[],
            flags: (0, 1, 0),
            ctbs: 20,
            chroma: true,
        },
    },
    Case {
        vps: INDEPENDENT,
        layer: 1,
        tid: 1,
        format: (64, 17, 0),
        told: Told {
            directs: 0,
            eligible: &[],
            flags: (1, 1, 0),
            ctbs: 8,
            chroma: false,
        },
    },
    // The least and the greatest picture.
    Case {
        vps: FOUR_LAYERS,
        layer: 5,
        tid: 0,
        format: (1, 1, 1),
        told: Told {
            directs: 2,
            eligible: &[0, 1],
            flags: (0, 0, 1),
            ctbs: 1,
            chroma: true,
        },
    },
    Case {
        vps: FOUR_LAYERS,
        layer: 5,
        tid: 1,
        format: (16384, 16384, 1),
        told: Told {
            directs: 2,
            eligible: &[0],
            flags: (0, 0, 1),
            ctbs: 1_048_576,
            chroma: true,
        },
    },
    Case {
        vps: FOUR_LAYERS,
        layer: 5,
        tid: 2,
        format: (64, 64, 1),
        told: Told {
            directs: 2,
            eligible: &[],
            flags: (0, 0, 1),
            ctbs: 16,
            chroma: true,
        },
    },
    Case {
        vps: FOUR_LAYERS,
        layer: 2,
        tid: 1,
        format: (64, 64, 1),
        told: Told {
            directs: 1,
            eligible: &[0],
            flags: (0, 0, 1),
            ctbs: 16,
            chroma: true,
        },
    },
    Case {
        vps: FOUR_LAYERS,
        layer: 0,
        tid: 0,
        format: (64, 64, 1),
        told: Told {
            directs: 0,
            eligible: &[],
            flags: (0, 0, 1),
            ctbs: 16,
            chroma: true,
        },
    },
];

#[test]
fn contexts(rt: HostRuntime) -> Result<(), Fail> {
    for i in 0..CASES.len() {
        assert!(rt; holds(rt.alloc(), &CASES[i])?, "case {i}");
    }
    Ok(())
}

// Whether the header of a unit reads, and has these lines.
fn reads(alloc: Global, ctx: &SliceContext, head: UnitHead, row: &Row) -> Result<bool, Fail>
    requires fits { Fits ctx.now }
    requires layer { head.layer ≡ ctx.now.layer }
{
    let Ok(value) = read_unit(alloc, ctx, head, row.unit) else {
        return Err(Fail::new("the header doesn't read"));
    };
    let mut lines = Printer::lines(alloc);
    show_slice(alloc, &mut lines, ctx, head, &value)?;
    Ok(lines.text() == row.lines.as_bytes())
}

// The same of a unit in a stream of these sets.
fn reads_by(alloc: Global, vps: &Vps, active: &Active, row: &Row) -> Result<bool, Fail>
    requires vps { ValidVps vps.now }
    requires sets { AreSets active.now }
{
    let Ok(head) = read_head(row.unit) else {
        return Err(Fail::new("the unit has no head"));
    };
    if !is_known(vps, head.layer) {
        return Err(Fail::new("the layer isn't known"));
    }
    let eligible = eligible_layers(alloc, vps, head)?;
    let ctx = slice_context(vps, active, head, eligible.as_slice());
    reads(alloc, &ctx, head, row)
}

fn all_read(alloc: Global, vps: &Vps, active: &Active, rows: &[Row]) -> Result<bool, Fail>
    requires vps { ValidVps vps.now }
    requires sets { AreSets active.now }
{
    for row in rows {
        if !reads_by(alloc, vps, active, row)? {
            return Ok(false);
        }
    }
    Ok(true)
}

fn view_reads(alloc: Global, view: u8, rows: &[Row]) -> Result<bool, Fail> {
    let Some(format) = format_of(64, 64, 1) else {
        return Err(Fail::new("the pictures have no size"));
    };
    let active = sets_of(alloc, view, format)?;
    match read_vps(alloc, TWO_VIEW) {
        Ok(vps) => all_read(alloc, &vps, &active, rows),
        Err(_) => Err(Fail::new("the video parameter set doesn't read")),
    }
}

#[test]
fn headers_of_two_views(rt: HostRuntime) -> Result<(), Fail> {
    assert!(rt; view_reads(rt.alloc(), 0, &FIRST_VIEW)?);
    assert!(rt; view_reads(rt.alloc(), 1, &SECOND_VIEW)?);
    Ok(())
}
