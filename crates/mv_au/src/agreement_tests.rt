use super::*;
use mv_rules::Rule;
use mv_short_sets::ShortSet;
use mv_slice::{
    LongTerm, LongTerms, SliceAddress, SliceContext, SliceDeblocking, SliceEnding, SliceFilters,
    SliceFull, SliceHead, SliceInterLayer, SliceOpening, SlicePicture, SlicePrediction,
    SliceReferences,
};
use mv_units::UnitHead;
use std::alloc::{AllocError, Global};
use std::test::Fail;

fn context(tiles_enabled_flag: u8) -> SliceContext<'static> {
    SliceContext {
        layer: 1,
        directs: 1,
        eligible: b"\x00",
        poc_lsb_not_present_flag: 0,
        default_ref_layers_active_flag: 0,
        max_one_active_ref_layer_flag: 0,
        ctbs: 16,
        lsb_bits: 4,
        chroma: true,
        num_short_term_ref_pic_sets: 0,
        short_sets: &[],
        long_term_ref_pics_present_flag: 1,
        num_long_term_ref_pics_sps: 0,
        lt_ref_pic_poc_lsb_sps: &[],
        used_by_curr_pic_lt_sps_flag: &[],
        sps_temporal_mvp_enabled_flag: 1,
        sample_adaptive_offset_enabled_flag: 0,
        dependent_slice_segments_enabled_flag: 1,
        output_flag_present_flag: 1,
        num_extra_slice_header_bits: 3,
        cabac_init_present_flag: 0,
        num_ref_idx_l0_default_active_minus1: 0,
        num_ref_idx_l1_default_active_minus1: 0,
        pps_slice_chroma_qp_offsets_present_flag: 0,
        weighted_pred_flag: 0,
        weighted_bipred_flag: 0,
        tiles_enabled_flag,
        entropy_coding_sync_enabled_flag: 0,
        pps_loop_filter_across_slices_enabled_flag: 0,
        deblocking_filter_override_enabled_flag: 0,
        pps_deblocking_filter_disabled_flag: 0,
        lists_modification_present_flag: 0,
        slice_segment_header_extension_present_flag: 0,
    }
}

fn short_set(alloc: Global) -> Result<ShortSet, AllocError> {
    Ok(ShortSet {
        inter_ref_pic_set_prediction_flag: Some(0),
        delta_idx_minus1: Some(0),
        delta_rps_sign: Some(0),
        abs_delta_rps_minus1: Some(0),
        used_by_curr_pic_flag: Vec::from_slice(alloc, &[1, 0])?,
        use_delta_flag: Vec::from_slice(alloc, &[None, Some(1)])?,
        num_negative_pics: Some(1),
        num_positive_pics: Some(1),
        delta_poc_s0_minus1: Vec::from_slice(alloc, &[0])?,
        used_by_curr_pic_s0_flag: Vec::from_slice(alloc, &[1])?,
        delta_poc_s1_minus1: Vec::from_slice(alloc, &[2])?,
        used_by_curr_pic_s1_flag: Vec::from_slice(alloc, &[1])?,
    })
}

fn references(alloc: Global) -> Result<SliceReferences, AllocError> {
    let entry = LongTerm {
        lt_idx_sps: None,
        poc_lsb_lt: Some(3),
        used_by_curr_pic_lt_flag: Some(1),
        delta_poc_msb_present_flag: 1,
        delta_poc_msb_cycle_lt: Some(2),
    };
    Ok(SliceReferences {
        short_term_ref_pic_set_sps_flag: 0,
        st_ref_pic_set: Some(short_set(alloc)?),
        short_term_ref_pic_set_idx: None,
        long_terms: Some(LongTerms {
            num_long_term_sps: None,
            num_long_term_pics: 1,
            entries: Vec::from_slice(alloc, &[entry])?,
        }),
        slice_temporal_mvp_enabled_flag: Some(1),
    })
}

fn full(alloc: Global) -> Result<SliceFull, AllocError> {
    Ok(SliceFull {
        picture: SlicePicture {
            discardable_flag: Some(0),
            cross_layer_bla_flag: Some(0),
            slice_reserved_flag: Vec::from_slice(alloc, &[0])?,
            slice_type: 1,
            pic_output_flag: Some(1),
            slice_pic_order_cnt_lsb: Some(5),
            references: Some(references(alloc)?),
        },
        inter_layer: SliceInterLayer {
            inter_layer_pred_enabled_flag: Some(1),
            num_inter_layer_ref_pics_minus1: Some(0),
            inter_layer_pred_layer_idc: Some(Vec::from_slice(alloc, &[0])?),
        },
        prediction: SlicePrediction {
            slice_sao_luma_flag: None,
            slice_sao_chroma_flag: None,
            lists: None,
        },
        filters: SliceFilters {
            slice_qp_delta: 0,
            slice_cb_qp_offset: None,
            slice_cr_qp_offset: None,
            deblocking: SliceDeblocking {
                deblocking_filter_override_flag: None,
                slice_deblocking_filter_disabled_flag: None,
                slice_beta_offset_div2: None,
                slice_tc_offset_div2: None,
            },
            slice_loop_filter_across_slices_enabled_flag: None,
        },
    })
}

fn header(alloc: Global, address: Option<u32>) -> Result<SliceHead, AllocError> {
    Ok(SliceHead {
        opening: SliceOpening {
            first_slice_segment_in_pic_flag: u8::from(address.is_none()),
            no_output_of_prior_pics_flag: Some(0),
            slice_pic_parameter_set_id: 2,
        },
        address: SliceAddress {
            dependent_slice_segment_flag: Some(0),
            slice_segment_address: address,
        },
        full: Some(full(alloc)?),
        ending: SliceEnding {
            num_entry_point_offsets: None,
            offset_len_minus1: None,
            entry_point_offset_minus1: Vec::new(alloc),
            slice_segment_header_extension_length: None,
            slice_segment_header_extension_data_byte: Vec::new(alloc),
        },
    })
}

// The fields of the short-term set that all segments of a picture share.
fn change_set(set: &mut ShortSet, field: u8) -> Result<(), AllocError> {
    match field {
        0 => set.inter_ref_pic_set_prediction_flag = None,
        1 => set.delta_idx_minus1 = Some(1),
        2 => set.delta_rps_sign = Some(1),
        3 => set.abs_delta_rps_minus1 = None,
        4 => set.used_by_curr_pic_flag.push(1)?,
        5 => set.use_delta_flag.push(None)?,
        6 => set.num_negative_pics = Some(2),
        7 => set.num_positive_pics = Some(0),
        8 => set.delta_poc_s0_minus1.clear(),
        9 => set.used_by_curr_pic_s0_flag.clear(),
        10 => set.delta_poc_s1_minus1.push(2)?,
        _ => set.used_by_curr_pic_s1_flag.clear(),
    }
    Ok(())
}

fn change_references(references: &mut SliceReferences, field: u8) -> Result<(), AllocError> {
    match field {
        0 => references.short_term_ref_pic_set_sps_flag = 1,
        1 => references.st_ref_pic_set = None,
        2 => references.short_term_ref_pic_set_idx = Some(0),
        3 => references.long_terms = None,
        4 => references.slice_temporal_mvp_enabled_flag = Some(0),
        5 => {
            if let Some(terms) = &mut references.long_terms {
                terms.num_long_term_sps = Some(0);
            }
        }
        6 => {
            if let Some(terms) = &mut references.long_terms {
                terms.num_long_term_pics = 2;
            }
        }
        7 => {
            if let Some(terms) = &mut references.long_terms {
                terms.entries.clear();
            }
        }
        _ => {
            if let Some(set) = &mut references.st_ref_pic_set {
                change_set(set, field - 8)?;
            }
        }
    }
    Ok(())
}

// Fields that all segments share, from 0 to 27.
fn change(full: &mut SliceFull, field: u8) -> Result<(), AllocError> {
    match field {
        0 => full.picture.discardable_flag = None,
        1 => full.picture.pic_output_flag = Some(0),
        2 => full.picture.slice_pic_order_cnt_lsb = Some(4),
        3 => full.picture.references = None,
        4 => full.inter_layer.inter_layer_pred_enabled_flag = Some(0),
        5 => full.inter_layer.num_inter_layer_ref_pics_minus1 = None,
        6 => full.inter_layer.inter_layer_pred_layer_idc = None,
        7 => {
            if let Some(layers) = &mut full.inter_layer.inter_layer_pred_layer_idc {
                layers.push(1)?;
            }
        }
        _ => {
            if let Some(references) = &mut full.picture.references {
                change_references(references, field - 8)?;
            }
        }
    }
    Ok(())
}

const HEAD: UnitHead = UnitHead {
    kind: 1,
    layer: 1,
    tid: 2,
};

fn told(first: &SliceHead, next: &SliceHead) -> Result<(), Rule> {
    agree(first, 0, (HEAD, HEAD), next, &context(0))
}

#[test]
fn shared_fields_agree(rt: HostRuntime) -> Result<(), Fail> {
    let first = header(rt.alloc(), None)?;
    for field in 0..28u8 {
        let mut next = header(rt.alloc(), Some(1))?;
        assert!(rt; told(&first, &next).is_ok());
        if let Some(full) = &mut next.full {
            change(full, field)?;
        }
        assert!(rt;
            told(&first, &next) == Err(Rule::SliceDiffers),
            "field {field}"
        );
        assert!(rt;
            told(&next, &first) == Err(Rule::SliceDiffers),
            "field {field}"
        );
    }
    let mut next = header(rt.alloc(), Some(1))?;
    next.opening.slice_pic_parameter_set_id = 3;
    assert!(rt; told(&first, &next) == Err(Rule::SliceDiffers));
    next.opening.slice_pic_parameter_set_id = 2;
    next.opening.no_output_of_prior_pics_flag = None;
    assert!(rt; told(&first, &next) == Err(Rule::SliceDiffers));
    Ok(())
}

// A dependent segment has the first fields alone, and other fields may differ.
#[test]
fn other_fields_may_differ(rt: HostRuntime) -> Result<(), Fail> {
    let first = header(rt.alloc(), None)?;
    let mut next = header(rt.alloc(), Some(1))?;
    if let Some(full) = &mut next.full {
        full.picture.slice_type = 2;
        full.picture.cross_layer_bla_flag = None;
        full.picture.slice_reserved_flag.push(1)?;
        full.filters.slice_qp_delta = 9;
        full.prediction.slice_sao_luma_flag = Some(1);
    }
    assert!(rt; told(&first, &next).is_ok());
    next.full = None;
    assert!(rt; told(&first, &next).is_ok());
    next.opening.slice_pic_parameter_set_id = 0;
    assert!(rt; told(&first, &next) == Err(Rule::SliceDiffers));
    Ok(())
}

#[test]
fn heads_agree(rt: HostRuntime) -> Result<(), Fail> {
    let first = header(rt.alloc(), None)?;
    let next = header(rt.alloc(), Some(1))?;
    let other_type = UnitHead { kind: 0, ..HEAD };
    let other_tid = UnitHead { tid: 1, ..HEAD };
    for head in [other_type, other_tid] {
        let answer = agree(&first, 0, (HEAD, head), &next, &context(0));
        assert!(rt; answer == Err(Rule::SliceDiffers));
        let answer = agree(&first, 0, (head, HEAD), &next, &context(0));
        assert!(rt; answer == Err(Rule::SliceDiffers));
    }
    Ok(())
}

// The address of the segment before, that of the next, whether there are tiles, and whether that is in order in 16 blocks.
const ADDRESSES: [(u32, u32, u8, bool); 10] = [
    (0, 0, 0, false),
    (0, 0, 1, false),
    (0, 1, 0, true),
    (5, 5, 0, false),
    (5, 4, 0, false),
    (5, 4, 1, true),
    (5, 5, 1, true),
    (5, 15, 0, true),
    (5, 16, 0, false),
    (5, 16, 1, false),
];

#[test]
fn addresses_rise(rt: HostRuntime) -> Result<(), Fail> {
    let first = header(rt.alloc(), None)?;
    for (last_address, address, tiles, right) in ADDRESSES {
        let next = header(rt.alloc(), Some(address))?;
        let answer = agree(&first, last_address, (HEAD, HEAD), &next, &context(tiles));
        let wanted = if right {
            Ok(())
        } else {
            Err(Rule::AddressOrder)
        };
        assert!(rt; answer == wanted, "address {address} behind {last_address}");
    }
    Ok(())
}
