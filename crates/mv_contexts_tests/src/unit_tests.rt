//! First fields and headers of slice units, and what refuses them.

ghost use Rattle.std.specs.Prelude.{◌≡◌, ◌≤◌};
ghost use Rattle.mv_slice.specs.Context.{Fits};

use mv_bytestream::read_head;
use mv_contexts::{peek_unit, read_unit};
use mv_rules::{ReadFault, Rule};
use mv_slice::SliceContext;
use mv_units::UnitHead;
use std::test::Fail;

// What a unit's first fields tell.
static PEEKED: [(&[u8], Option<(bool, u8)>); 5] = [
    (&[0x26, 0x01, 0xAF, 0xD0], Some((true, 0))),
    (&[0x02, 0x09, 0xA4, 0x25, 0xEB, 0x80, 0xD3], Some((true, 1))),
    // The id 63, and the id 64, which is past the limit.
    (&[0x02, 0x01, 0x01, 0x00], Some((false, 63))),
    (&[0x02, 0x01, 0x01, 0x04], None),
    (&[0x02, 0x01], None),
];

#[test]
fn first_fields(rt: HostRuntime) -> Result<(), Fail> {
    for (unit, told) in &PEEKED {
        let Ok(head) = read_head(unit) else {
            return Err(Fail::new("the unit has no head"));
        };
        if head.kind > 9 && head.kind < 16 || head.kind > 21 {
            return Err(Fail::new("the unit has no slice"));
        }
        match peek_unit(rt.alloc(), head, unit) {
            Ok(peek) => assert_eq!(rt; Some((peek.first, peek.pps_id)), *told),
            Err(fault) => {
                assert_eq!(rt; fault, ReadFault::Refused(Rule::SliceSyntax));
                assert_eq!(rt; None, *told);
            }
        }
    }
    Ok(())
}

// The first view's sets, with so many extra bits, and with entry points or without.
fn plain(
    num_extra_slice_header_bits: u8,
    entropy_coding_sync_enabled_flag: u8,
) -> SliceContext<'static>
    requires bits { num_extra_slice_header_bits ≤ 7 }
    requires flag { entropy_coding_sync_enabled_flag ≤ 1 }
    ensures fits { Fits result }
    ensures layer { result.layer ≡ 0 }
{
    SliceContext {
        layer: 0,
        directs: 0,
        eligible: &[],
        poc_lsb_not_present_flag: 0,
        default_ref_layers_active_flag: 0,
        max_one_active_ref_layer_flag: 0,
        ctbs: 16,
        lsb_bits: 4,
        chroma: true,
        num_short_term_ref_pic_sets: 0,
        short_sets: &[],
        long_term_ref_pics_present_flag: 0,
        num_long_term_ref_pics_sps: 0,
        lt_ref_pic_poc_lsb_sps: &[],
        used_by_curr_pic_lt_sps_flag: &[],
        sps_temporal_mvp_enabled_flag: 0,
        sample_adaptive_offset_enabled_flag: 0,
        dependent_slice_segments_enabled_flag: 0,
        output_flag_present_flag: 0,
        num_extra_slice_header_bits,
        cabac_init_present_flag: 0,
        num_ref_idx_l0_default_active_minus1: 0,
        num_ref_idx_l1_default_active_minus1: 0,
        pps_slice_chroma_qp_offsets_present_flag: 0,
        weighted_pred_flag: 0,
        weighted_bipred_flag: 0,
        tiles_enabled_flag: 0,
        entropy_coding_sync_enabled_flag,
        pps_loop_filter_across_slices_enabled_flag: 0,
        deblocking_filter_override_enabled_flag: 0,
        pps_deblocking_filter_disabled_flag: 0,
        lists_modification_present_flag: 0,
        slice_segment_header_extension_present_flag: 0,
    }
}

fn base_head(kind: u8) -> UnitHead
    ensures { result.layer ≡ 0 }
{
    UnitHead {
        kind,
        layer: 0,
        tid: 0,
    }
}

// A number of extra bits, a unit, and the rule that refuses its header.
static REFUSED: [(u8, &[u8], Rule); 6] = [
    // It ends within its header, or has none.
    (0, &[0x02, 0x01, 0xD0, 0x97], Rule::SliceSyntax),
    (0, &[0x02, 0x01], Rule::SliceSyntax),
    (0, &[0x02], Rule::SliceSyntax),
    // The id of its picture parameter set is 64, its slice_type is 3, its cross_layer_bla_flag is 1.
    (0, &[0x02, 0x01, 0x81, 0x04, 0x80], Rule::SliceSyntax),
    (0, &[0x02, 0x01, 0xC8, 0x80], Rule::SliceSyntax),
    (2, &[0x02, 0x01, 0xD0, 0x97], Rule::CrossLayerBla),
];

#[test]
fn headers_are_refused(rt: HostRuntime) -> Result<(), Fail> {
    for (bits, unit, rule) in &REFUSED {
        if *bits > 7 {
            return Err(Fail::new("so many bits can't be"));
        }
        match read_unit(rt.alloc(), &plain(*bits, 0), base_head(1), unit) {
            Ok(_) => return Err(Fail::new("the header reads")),
            Err(fault) => assert_eq!(rt; fault, ReadFault::Refused(*rule)),
        }
    }
    Ok(())
}

// An IDR picture's header with 40 entry points, each of 32 bits, up to the first bit of the first of them.
static MANY_ENTRY_POINTS: &[u8] = &[0x26, 0x01, 0xA3, 0x82, 0x90, 0x41];

// A header of 164 bytes: its entry points, its alignment and the slice's data are made of one byte alone.
#[test]
fn a_long_header(rt: HostRuntime) -> Result<(), Fail> {
    let mut unit = Vec::from_slice(rt.alloc(), MANY_ENTRY_POINTS)?;
    for _ in 0..200 {
        unit.push(0x11)?;
    }
    let Ok(header) = read_unit(rt.alloc(), &plain(2, 1), base_head(19), &unit) else {
        return Err(Fail::new("the header doesn't read"));
    };
    let offsets = &header.ending.entry_point_offset_minus1;
    assert_eq!(rt; offsets.len(), 40);
    assert!(rt; offsets.iter().all(|offset| *offset == 0x8888_8888));
    Ok(())
}
