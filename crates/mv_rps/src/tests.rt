ghost use Rattle.std.specs.Prelude.{◌≡◌};
ghost use Rattle.mv_slice.specs.Context.{Fits};

use super::*;
use mv_rules::Rule;
use mv_slice::{SliceContext, read_slice};
use mv_units::UnitHead;
use std::alloc::Global;
use std::test::Fail;

// A picture that isn't a start, of layer 0, by its low bits.
fn picture(lsb: u32) -> PocAsk {
    PocAsk {
        layer: 0,
        kind: 1,
        tid: 0,
        start: false,
        lsb: Some(lsb),
        max_lsb: 16,
        base: None,
    }
}

fn start(lsb: u32) -> PocAsk {
    PocAsk {
        start: true,
        ..picture(lsb)
    }
}

// A picture of a layer above 0.
fn above(asked: PocAsk, base: i32) -> PocAsk {
    PocAsk {
        layer: 1,
        base: Some(base),
        ..asked
    }
}

// The call, whose conditions are tested here. No other rule is refused by it.
fn next(state: &mut PocState, asked: &PocAsk) -> Result<i32, Rule> {
    if 1 <= asked.max_lsb && asked.max_lsb <= 65536 {
        state.next(asked)
    } else {
        Err(Rule::Leading)
    }
}

// What a start and a picture behind it answer.
fn behind(first: &PocAsk, second: &PocAsk) -> (Result<i32, Rule>, Result<i32, Rule>) {
    let mut state = PocState::new();
    let one = next(&mut state, first);
    (one, next(&mut state, second))
}

#[test]
fn a_count_is_the_nearest_with_its_low_bits(rt: HostRuntime) -> Result<(), Fail> {
    // The low bits of a start and its count, and those of a picture behind it and its count, with 4 low bits.
    let rows = [
        (0, 0, 8, 8),
        (0, 0, 9, -7),
        (0, 0, 15, -1),
        (15, 15, 0, 16),
        (15, 15, 7, 23),
        (15, 15, 8, 8),
        (7, 7, 15, 15),
        (7, 7, 0, 0),
    ];
    for (first, one, second, two) in rows {
        let answers = behind(&start(first), &picture(second));
        assert_eq!(rt; answers, (Ok(one), Ok(two)));
    }
    let wide = PocAsk {
        max_lsb: 65536,
        ..picture(32769)
    };
    assert_eq!(rt; behind(&start(0), &wide), (Ok(0), Ok(-32767)));
    let none = PocAsk {
        kind: 19,
        lsb: None,
        ..start(0)
    };
    assert_eq!(rt; behind(&none, &picture(3)), (Ok(0), Ok(3)));
    Ok(())
}

#[test]
fn an_anchor_is_a_reference_of_the_lowest_sub_layer(rt: HostRuntime) -> Result<(), Fail> {
    // nal_unit_type and TemporalId of a picture with count 8, and the count of one behind it with the low bits 15.
    let rows = [
        (1, 0, 15),
        (1, 1, -1),
        (0, 0, -1),
        (6, 0, -1),
        (7, 0, -1),
        (8, 0, -1),
        (9, 0, -1),
        (14, 0, 15),
        (21, 0, 15),
    ];
    for (kind, tid, count) in rows {
        let mut state = PocState::new();
        assert_eq!(rt; next(&mut state, &start(0)), Ok(0));
        let middle = PocAsk {
            kind,
            tid,
            ..picture(8)
        };
        assert_eq!(rt; next(&mut state, &middle), Ok(8));
        assert_eq!(rt; next(&mut state, &picture(15)), Ok(count));
    }
    Ok(())
}

#[test]
fn a_start_above_has_the_count_of_the_base_picture(rt: HostRuntime) -> Result<(), Fail> {
    let mut state = PocState::new();
    assert_eq!(rt; next(&mut state, &above(start(1), 17)), Ok(17));
    assert_eq!(rt;
        next(&mut state, &above(start(0), 33)),
        Err(Rule::PocMismatch)
    );
    // The refusal changed nothing: 17 is the anchor.
    assert_eq!(rt; next(&mut state, &above(picture(9), 25)), Ok(25));
    assert_eq!(rt;
        next(&mut state, &above(picture(10), 42)),
        Err(Rule::PocMismatch)
    );
    let lost = PocAsk {
        base: None,
        ..above(picture(9), 0)
    };
    assert_eq!(rt; next(&mut state, &lost), Err(Rule::PocMismatch));
    let lost = PocAsk {
        start: true,
        ..lost
    };
    assert_eq!(rt; next(&mut state, &lost), Err(Rule::PocRange));
    let low = above(start(15), i32::MIN + 15);
    assert_eq!(rt; next(&mut PocState::new(), &low), Ok(i32::MIN + 15));
    Ok(())
}

#[test]
fn counts_end_with_32_bits(rt: HostRuntime) -> Result<(), Fail> {
    // The count of a start, the low bits of a picture behind it, and its count.
    let rows = [
        (i32::MAX - 8, 15, Ok(i32::MAX)),
        (i32::MAX, 0, Err(Rule::PocRange)),
        (i32::MAX, 7, Err(Rule::PocRange)),
        (i32::MAX, 8, Ok(i32::MAX - 7)),
        (i32::MIN, 15, Err(Rule::PocRange)),
        (i32::MIN, 9, Err(Rule::PocRange)),
        (i32::MIN, 8, Ok(i32::MIN + 8)),
        (i32::MIN + 1, 0, Ok(i32::MIN)),
    ];
    for (first, second, count) in rows {
        let mut state = PocState::new();
        let low = PocAsk {
            lsb: None,
            ..above(start(0), first)
        };
        assert_eq!(rt; next(&mut state, &low), Ok(first));
        assert_eq!(rt; next(&mut state, &picture(second)), count);
    }
    Ok(())
}

// A picture of layer 0 with 4 low bits of its count; its sequence parameter set has no set, and no long-term pictures.
pub fn plain() -> SliceContext<'static>
    ensures fits { Fits result }
    ensures layer { result.layer ≡ 0 }
{
    SliceContext {
        layer: 0,
        directs: 0,
        eligible: &[],
        poc_lsb_not_present_flag: 0,
        default_ref_layers_active_flag: 0,
        max_one_active_ref_layer_flag: 0,
        ctbs: 16,
        lsb_bits: 4,
        chroma: true,
        num_short_term_ref_pic_sets: 0,
        short_sets: &[],
        long_term_ref_pics_present_flag: 0,
        num_long_term_ref_pics_sps: 0,
        lt_ref_pic_poc_lsb_sps: &[],
        used_by_curr_pic_lt_sps_flag: &[],
        sps_temporal_mvp_enabled_flag: 0,
        sample_adaptive_offset_enabled_flag: 0,
        dependent_slice_segments_enabled_flag: 0,
        output_flag_present_flag: 0,
        num_extra_slice_header_bits: 0,
        cabac_init_present_flag: 0,
        num_ref_idx_l0_default_active_minus1: 0,
        num_ref_idx_l1_default_active_minus1: 0,
        pps_slice_chroma_qp_offsets_present_flag: 0,
        weighted_pred_flag: 0,
        weighted_bipred_flag: 0,
        tiles_enabled_flag: 0,
        entropy_coding_sync_enabled_flag: 0,
        pps_loop_filter_across_slices_enabled_flag: 0,
        deblocking_filter_override_enabled_flag: 0,
        pps_deblocking_filter_disabled_flag: 0,
        lists_modification_present_flag: 0,
        slice_segment_header_extension_present_flag: 0,
    }
}

// The set of a header with the count 3.
fn set_of(alloc: Global, kind: u8, payload: &[u8]) -> Result<RefSet, RefFault> {
    let ctx = plain();
    let head = UnitHead {
        kind,
        layer: 0,
        tid: 0,
    };
    match read_slice(alloc, &ctx, head, payload) {
        Ok(read) => RefSet::of(alloc, &read.head, &ctx, kind, 3),
        Err(_) => Err(RefFault::Refused(Rule::SliceSyntax)),
    }
}

#[test]
fn a_set_has_at_most_fifteen_entries(rt: HostRuntime) -> Result<(), Fail> {
    let alloc = rt.alloc();
    // I slices: with two used entries, with 15, with 16; of IRAP pictures with two and with 16; of an IDR picture.
    let rows: [(u8, &'static [u8], Option<Rule>); 6] = [
        (1, &[0xD9, 0x9F, 0xF0], None),
        (1, &[0xD9, 0x82, 0x1F, 0xFF, 0xFF, 0xFF, 0xF0], None),
        (
            1,
            &[0xD9, 0x82, 0x3F, 0xFF, 0xFF, 0xFF, 0xFC],
            Some(Rule::TooManyRefs),
        ),
        (21, &[0xAC, 0xCF, 0xF8], Some(Rule::IrapRefers)),
        (
            21,
            &[0xAC, 0xC1, 0x1F, 0xFF, 0xFF, 0xFF, 0xFE],
            Some(Rule::IrapRefers),
        ),
        (19, &[0xAF, 0x80], None),
    ];
    for (kind, payload, refused) in rows {
        match (set_of(alloc, kind, payload), refused) {
            (Ok(_), None) => {}
            (Err(fault), Some(rule)) => assert_eq!(rt; fault, RefFault::Refused(rule)),
            _ => Err("the set isn't answered as it should be")?,
        }
    }
    Ok(())
}
