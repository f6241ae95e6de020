ghost use Rattle.std.specs.Prelude.{◌≡◌, ◌≤◌, length, option_map, IfOk, IsSome, IsTrue};
ghost use Rattle.mv_syntax.specs.Words.{or_zero};
ghost use Rattle.std.specs.Option.{IfSome};
ghost use Rattle.mv_reflists.specs.Segment.{active_l0, active_l1, list_entry_l0, list_entry_l1};

use super::*;
use crate::segment::{active_l0, active_l1, list_entry_l0, list_entry_l1};
use crate::sizes::total;
use mv_rules::Rule;
use mv_slice::{
    ListModification, SliceAddress, SliceContext, SliceDeblocking, SliceEnding, SliceFilters,
    SliceFull, SliceHead, SliceInterLayer, SliceLists, SliceOpening, SlicePicture, SlicePrediction,
};
use std::alloc::{AllocError, Global};
use std::process::Abort;
use std::test::Fail;

// The views of a picture and of layer 0, and the active layers, each with its view and whether its picture is here; then the layers of both sets, or none where one is missing.
struct SplitRow {
    view: u32,
    base_view: u32,
    active: &'static [(u8, u32, bool)],
    sets: Option<(&'static [u8], &'static [u8])>,
}

static SPLITS: [SplitRow; 8] = [
    // Between the two views.
    SplitRow {
        view: 1,
        base_view: 0,
        active: &[(0, 0, true), (1, 2, true)],
        sets: Some((&[0], &[1])),
    },
    // No active layer.
    SplitRow {
        view: 1,
        base_view: 0,
        active: &[],
        sets: Some((&[], &[])),
    },
    // Below the base view: what lies above its own view is on the side of the base view.
    SplitRow {
        view: 3,
        base_view: 5,
        active: &[(0, 5, true), (2, 9, true), (3, 1, true), (4, 4, true)],
        sets: Some((&[0, 2, 4], &[3])),
    },
    // Above it.
    SplitRow {
        view: 7,
        base_view: 5,
        active: &[(3, 9, true), (0, 5, true), (2, 6, true), (4, 1, true)],
        sets: Some((&[0, 2, 4], &[3])),
    },
    // With the view of layer 0 both sides are its own.
    SplitRow {
        view: 5,
        base_view: 5,
        active: &[(2, 9, true), (3, 1, true)],
        sets: Some((&[2, 3], &[])),
    },
    // With a reference of the picture's own view.
    SplitRow {
        view: 1,
        base_view: 0,
        active: &[(2, 1, true), (3, 4294967295, true)],
        sets: Some((&[2], &[3])),
    },
    // The only active layer is missing.
    SplitRow {
        view: 1,
        base_view: 0,
        active: &[(0, 0, false)],
        sets: None,
    },
    // The last one is.
    SplitRow {
        view: 1,
        base_view: 0,
        active: &[(0, 0, true), (2, 2, true), (3, 3, false)],
        sets: None,
    },
];

fn active_of(alloc: Global, layers: &[(u8, u32, bool)]) -> Result<Vec<Active2>, AllocError> {
    let mut active = Vec::new(alloc);
    for (layer, view, here) in layers {
        active.push(Active2 {
            layer: *layer,
            view: *view,
            here: *here,
        })?;
    }
    Ok(active)
}

#[test]
fn splits(rt: HostRuntime) -> Result<(), Fail> {
    for row in &SPLITS {
        let active = active_of(rt.alloc(), row.active)?;
        let answer = inter_layer(rt.alloc(), row.view, row.base_view, &active);
        match row.sets {
            Some((zero, one)) => {
                let sets = answer.ok().ok_or("no picture is missing")?;
                assert_eq!(rt; sets.zero.as_slice(), zero);
                assert_eq!(rt; sets.one.as_slice(), one);
            }
            None => {
                let fault = answer.err().ok_or("a picture is missing")?;
                assert!(rt; fault == ListFault::Refused(Rule::MissingInterLayer));
            }
        }
    }
    Ok(())
}

// A context whose picture parameter set has two active entries in list 0 and one in list 1.
fn context() -> SliceContext<'static>
    ensures l0 { result.num_ref_idx_l0_default_active_minus1 ≡ 1 }
    ensures l1 { result.num_ref_idx_l1_default_active_minus1 ≡ 0 }
{
    SliceContext {
        layer: 1,
        directs: 1,
        eligible: b"\x00",
        poc_lsb_not_present_flag: 0,
        default_ref_layers_active_flag: 1,
        max_one_active_ref_layer_flag: 1,
        ctbs: 16,
        lsb_bits: 4,
        chroma: true,
        num_short_term_ref_pic_sets: 0,
        short_sets: &[],
        long_term_ref_pics_present_flag: 0,
        num_long_term_ref_pics_sps: 0,
        lt_ref_pic_poc_lsb_sps: &[],
        used_by_curr_pic_lt_sps_flag: &[],
        sps_temporal_mvp_enabled_flag: 1,
        sample_adaptive_offset_enabled_flag: 0,
        dependent_slice_segments_enabled_flag: 0,
        output_flag_present_flag: 0,
        num_extra_slice_header_bits: 0,
        cabac_init_present_flag: 0,
        num_ref_idx_l0_default_active_minus1: 1,
        num_ref_idx_l1_default_active_minus1: 0,
        pps_slice_chroma_qp_offsets_present_flag: 0,
        weighted_pred_flag: 0,
        weighted_bipred_flag: 0,
        tiles_enabled_flag: 0,
        entropy_coding_sync_enabled_flag: 0,
        pps_loop_filter_across_slices_enabled_flag: 0,
        deblocking_filter_override_enabled_flag: 0,
        pps_deblocking_filter_disabled_flag: 0,
        lists_modification_present_flag: 1,
        slice_segment_header_extension_present_flag: 0,
    }
}

// What a header says of one list: how many entries are active, 1 to 15, where that is coded, and its list entries, as many, where
// the modification is.
type Asked = (Option<u32>, Option<&'static [u8]>);

const BY_SETS: Asked = (None, None);

// A segment of slice_type, its references before, after, long, inter-layer 0 and 1, and collocated_from_l0_flag with
// collocated_ref_idx; then both lists, or the rule that is broken.
struct Row {
    sizes: [u8; 5],
    slice_type: u32,
    l0: Asked,
    l1: Asked,
    collocated: (Option<u8>, Option<u32>),
    lists: Result<(&'static [u8], &'static [u8]), Rule>,
}

const NONE: (Option<u8>, Option<u32>) = (None, None);

static LISTS: [Row; 13] = [
    // A P segment repeats its two references.
    Row {
        sizes: [1, 0, 0, 1, 0],
        slice_type: 1,
        l0: (Some(3), None),
        l1: BY_SETS,
        collocated: NONE,
        lists: Ok((&[0, 1, 0], &[])),
    },
    // One picture on each side of the picture's view.
    Row {
        sizes: [0, 0, 0, 1, 1],
        slice_type: 0,
        l0: (Some(2), None),
        l1: (Some(2), None),
        collocated: NONE,
        lists: Ok((&[0, 1], &[1, 0])),
    },
    // All five parts, in the order of each list.
    Row {
        sizes: [2, 1, 1, 2, 1],
        slice_type: 0,
        l0: (Some(7), None),
        l1: (Some(8), None),
        collocated: NONE,
        lists: Ok((&[0, 1, 4, 5, 2, 3, 6], &[2, 6, 0, 1, 3, 4, 5, 2])),
    },
    // As many as the picture parameter set says.
    Row {
        sizes: [2, 1, 0, 0, 0],
        slice_type: 0,
        l0: BY_SETS,
        l1: BY_SETS,
        collocated: NONE,
        lists: Ok((&[0, 1], &[2])),
    },
    // The initial entries at the list entries.
    Row {
        sizes: [1, 1, 0, 1, 0],
        slice_type: 0,
        l0: (Some(4), Some(&[2, 0, 1, 1])),
        l1: (Some(1), Some(&[2])),
        collocated: NONE,
        lists: Ok((&[1, 0, 2, 2], &[2])),
    },
    // 15 entries of 15 references, and of one.
    Row {
        sizes: [15, 0, 0, 0, 0],
        slice_type: 0,
        l0: (Some(15), None),
        l1: (
            Some(15),
            Some(&[14, 13, 12, 11, 10, 9, 8, 7, 6, 5, 4, 3, 2, 1, 0]),
        ),
        collocated: NONE,
        lists: Ok((
            &[0, 1, 2, 3, 4, 5, 6, 7, 8, 9, 10, 11, 12, 13, 14],
            &[14, 13, 12, 11, 10, 9, 8, 7, 6, 5, 4, 3, 2, 1, 0],
        )),
    },
    Row {
        sizes: [0, 0, 1, 0, 0],
        slice_type: 0,
        l0: (Some(15), None),
        l1: (Some(1), None),
        collocated: NONE,
        lists: Ok((&[0, 0, 0, 0, 0, 0, 0, 0, 0, 0, 0, 0, 0, 0, 0], &[0])),
    },
    // 255 references: the last place is 254.
    Row {
        sizes: [51, 51, 51, 51, 51],
        slice_type: 0,
        l0: (Some(2), Some(&[254, 51])),
        l1: (Some(2), Some(&[254, 51])),
        collocated: NONE,
        lists: Ok((&[254, 153], &[203, 204])),
    },
    // An I segment has no lists.
    Row {
        sizes: [1, 0, 0, 1, 0],
        slice_type: 2,
        l0: BY_SETS,
        l1: BY_SETS,
        collocated: NONE,
        lists: Ok((&[], &[])),
    },
    Row {
        sizes: [0, 0, 0, 0, 0],
        slice_type: 2,
        l0: BY_SETS,
        l1: BY_SETS,
        collocated: NONE,
        lists: Ok((&[], &[])),
    },
    // The last entry of list 0 where no flag says, of list 0 and of list 1.
    Row {
        sizes: [1, 1, 0, 0, 0],
        slice_type: 1,
        l0: (Some(3), None),
        l1: BY_SETS,
        collocated: (None, Some(2)),
        lists: Ok((&[0, 1, 0], &[])),
    },
    Row {
        sizes: [1, 1, 0, 0, 0],
        slice_type: 0,
        l0: (Some(3), None),
        l1: (Some(2), None),
        collocated: (Some(1), Some(2)),
        lists: Ok((&[0, 1, 0], &[1, 0])),
    },
    Row {
        sizes: [1, 1, 0, 0, 0],
        slice_type: 0,
        l0: (Some(3), None),
        l1: (Some(2), None),
        collocated: (Some(0), Some(1)),
        lists: Ok((&[0, 1, 0], &[1, 0])),
    },
];

static REFUSED: [Row; 10] = [
    // A list entry of list 0, and one of list 1, past two references.
    Row {
        sizes: [1, 0, 1, 0, 0],
        slice_type: 1,
        l0: (Some(2), Some(&[0, 2])),
        l1: BY_SETS,
        collocated: NONE,
        lists: Err(Rule::ListEntry),
    },
    Row {
        sizes: [1, 0, 1, 0, 0],
        slice_type: 0,
        l0: (Some(2), Some(&[0, 1])),
        l1: (Some(2), Some(&[2, 0])),
        collocated: NONE,
        lists: Err(Rule::ListEntry),
    },
    // No reference, of a P and of a B segment.
    Row {
        sizes: [0, 0, 0, 0, 0],
        slice_type: 1,
        l0: BY_SETS,
        l1: BY_SETS,
        collocated: NONE,
        lists: Err(Rule::NoRefs),
    },
    Row {
        sizes: [0, 0, 0, 0, 0],
        slice_type: 0,
        l0: BY_SETS,
        l1: BY_SETS,
        collocated: NONE,
        lists: Err(Rule::NoRefs),
    },
    // Past list 0 where no flag says, past list 0 and past list 1.
    Row {
        sizes: [1, 1, 0, 0, 0],
        slice_type: 1,
        l0: (Some(3), None),
        l1: BY_SETS,
        collocated: (None, Some(3)),
        lists: Err(Rule::Collocated),
    },
    Row {
        sizes: [1, 1, 0, 0, 0],
        slice_type: 0,
        l0: (Some(2), None),
        l1: (Some(3), None),
        collocated: (Some(1), Some(2)),
        lists: Err(Rule::Collocated),
    },
    Row {
        sizes: [1, 1, 0, 0, 0],
        slice_type: 0,
        l0: (Some(3), None),
        l1: (Some(2), None),
        collocated: (Some(0), Some(2)),
        lists: Err(Rule::Collocated),
    },
    Row {
        sizes: [1, 1, 0, 0, 0],
        slice_type: 1,
        l0: (Some(3), None),
        l1: BY_SETS,
        collocated: (None, Some(4294967295)),
        lists: Err(Rule::Collocated),
    },
    // The least rule of two.
    Row {
        sizes: [0, 0, 0, 0, 0],
        slice_type: 1,
        l0: (Some(1), Some(&[0])),
        l1: BY_SETS,
        collocated: (None, Some(9)),
        lists: Err(Rule::ListEntry),
    },
    Row {
        sizes: [0, 0, 0, 0, 0],
        slice_type: 1,
        l0: (Some(2), None),
        l1: BY_SETS,
        collocated: (None, Some(9)),
        lists: Err(Rule::NoRefs),
    },
];

// What is coded of one list.
#[derive(Drop)]
struct Coded {
    active_minus1: Option<u32>,
    flag: Option<u8>,
    list_entry: Option<Vec<u8>>,
}

fn active_minus1(active: Option<u32>) -> Result<Option<u32>, Fail>
    ensures { IfOk result (λ m. or_zero m ≤ 14) }
{
    match active {
        Some(active) => {
            let minus1 = active.checked_sub(1).ok_or("an active entry")?;
            if minus1 > 14 {
                return Err("too many active entries".into());
            }
            Ok(Some(minus1))
        }
        None => Ok(None),
    }
}

fn coded_of(alloc: Global, asked: Asked) -> Result<Coded, Fail>
    ensures { IfOk result (λ v. or_zero v.active_minus1 ≤ 14) }
{
    let minus1 = active_minus1(asked.0)?;
    match asked.1 {
        Some(list_entry) => Ok(Coded {
            active_minus1: minus1,
            flag: Some(1),
            list_entry: Some(Vec::from_slice(alloc, list_entry)?),
        }),
        None => Ok(Coded {
            active_minus1: minus1,
            flag: Some(0),
            list_entry: None,
        }),
    }
}

const UNCODED: Coded = Coded {
    active_minus1: None,
    flag: None,
    list_entry: None,
};

// The fields of a P or B segment.
fn lists_of(alloc: Global, row: &Row) -> Result<SliceLists, Fail>
    ensures few_l0 { IfOk result (λ l. or_zero l.num_ref_idx_l0_active_minus1 ≤ 14) }
    ensures few_l1 { IfOk result (λ l. or_zero l.num_ref_idx_l1_active_minus1 ≤ 14) }
{
    let l0 = coded_of(alloc, row.l0)?;
    let l1 = if row.slice_type == 0 {
        coded_of(alloc, row.l1)?
    } else {
        UNCODED
    };
    Ok(SliceLists {
        num_ref_idx_active_override_flag: 1,
        num_ref_idx_l0_active_minus1: l0.active_minus1,
        num_ref_idx_l1_active_minus1: l1.active_minus1,
        modification: ListModification {
            ref_pic_list_modification_flag_l0: l0.flag,
            list_entry_l0: l0.list_entry,
            ref_pic_list_modification_flag_l1: l1.flag,
            list_entry_l1: l1.list_entry,
        },
        mvd_l1_zero_flag: None,
        cabac_init_flag: None,
        collocated_from_l0_flag: row.collocated.0,
        collocated_ref_idx: row.collocated.1,
        pred_weight_table: None,
        five_minus_max_num_merge_cand: 0,
    })
}

// None in an I segment.
fn lists_if(alloc: Global, row: &Row) -> Result<Option<SliceLists>, Fail>
    ensures few_l0 { IfOk result (λ o. IfSome o (λ l. or_zero l.num_ref_idx_l0_active_minus1 ≤ 14)) }
    ensures few_l1 { IfOk result (λ o. IfSome o (λ l. or_zero l.num_ref_idx_l1_active_minus1 ≤ 14)) }
{
    if row.slice_type > 1 {
        return Ok(None);
    }
    Ok(Some(lists_of(alloc, row)?))
}

#[tactic(auto, using(crate::proofs::Headers::few_l0, crate::proofs::Headers::few_l1))]
fn fields_of(alloc: Global, ctx: &SliceContext, row: &Row) -> Result<SliceFull, Fail>
    requires l0 { ctx.now.num_ref_idx_l0_default_active_minus1 ≤ 14 }
    requires l1 { ctx.now.num_ref_idx_l1_default_active_minus1 ≤ 14 }
    ensures few_l0 { IfOk result (λ full. active_l0 ctx.now full ≤ 15) }
    ensures few_l1 { IfOk result (λ full. active_l1 ctx.now full ≤ 15) }
{
    let lists = lists_if(alloc, row)?;
    Ok(SliceFull {
        picture: SlicePicture {
            discardable_flag: None,
            cross_layer_bla_flag: None,
            slice_reserved_flag: Vec::new(alloc),
            slice_type: row.slice_type,
            pic_output_flag: None,
            slice_pic_order_cnt_lsb: Some(1),
            references: None,
        },
        inter_layer: SliceInterLayer {
            inter_layer_pred_enabled_flag: None,
            num_inter_layer_ref_pics_minus1: None,
            inter_layer_pred_layer_idc: None,
        },
        prediction: SlicePrediction {
            slice_sao_luma_flag: None,
            slice_sao_chroma_flag: None,
            lists,
        },
        filters: SliceFilters {
            slice_qp_delta: 0,
            slice_cb_qp_offset: None,
            slice_cr_qp_offset: None,
            deblocking: SliceDeblocking {
                deblocking_filter_override_flag: None,
                slice_deblocking_filter_disabled_flag: None,
                slice_beta_offset_div2: None,
                slice_tc_offset_div2: None,
            },
            slice_loop_filter_across_slices_enabled_flag: None,
        },
    })
}

// As many list entries as are active, where they are coded.
fn are_all(active: usize, list_entry: Option<&[u8]>) -> bool
    ensures { IsTrue result → IfSome (option_map (λ s. s.now) list_entry.entry) (λ entries. length entries ≡ active) }
{
    match list_entry {
        Some(list_entry) => list_entry.len() == active,
        None => true,
    }
}

fn full_of(alloc: Global, ctx: &SliceContext, row: &Row) -> Result<SliceFull, Fail>
    requires l0 { ctx.now.num_ref_idx_l0_default_active_minus1 ≤ 14 }
    requires l1 { ctx.now.num_ref_idx_l1_default_active_minus1 ≤ 14 }
    ensures few_l0 { IfOk result (λ full. active_l0 ctx.now full ≤ 15) }
    ensures few_l1 { IfOk result (λ full. active_l1 ctx.now full ≤ 15) }
    ensures all_l0 { IfOk result (λ full. IfSome (list_entry_l0 full) (λ entries. length entries ≡ active_l0 ctx.now full)) }
    ensures all_l1 { IfOk result (λ full. IfSome (list_entry_l1 full) (λ entries. length entries ≡ active_l1 ctx.now full)) }
{
    let full = fields_of(alloc, ctx, row)?;
    if !are_all(active_l0(ctx, &full), list_entry_l0(&full)) {
        return Err("as many list entries of list 0 as are active".into());
    }
    if !are_all(active_l1(ctx, &full), list_entry_l1(&full)) {
        return Err("as many list entries of list 1 as are active".into());
    }
    Ok(full)
}

fn head_of(alloc: Global, ctx: &SliceContext, row: &Row) -> Result<SliceHead, Fail>
    requires l0 { ctx.now.num_ref_idx_l0_default_active_minus1 ≤ 14 }
    requires l1 { ctx.now.num_ref_idx_l1_default_active_minus1 ≤ 14 }
    ensures full { IfOk result (λ head. IsSome head.full) }
    ensures few_l0 { IfOk result (λ head. IfSome head.full (λ full. active_l0 ctx.now full ≤ 15)) }
    ensures few_l1 { IfOk result (λ head. IfSome head.full (λ full. active_l1 ctx.now full ≤ 15)) }
    ensures all_l0 { IfOk result (λ head. IfSome head.full (λ full. IfSome (list_entry_l0 full) (λ entries. length entries ≡ active_l0 ctx.now full))) }
    ensures all_l1 { IfOk result (λ head. IfSome head.full (λ full. IfSome (list_entry_l1 full) (λ entries. length entries ≡ active_l1 ctx.now full))) }
{
    Ok(SliceHead {
        opening: SliceOpening {
            first_slice_segment_in_pic_flag: 1,
            no_output_of_prior_pics_flag: None,
            slice_pic_parameter_set_id: 0,
        },
        address: SliceAddress {
            dependent_slice_segment_flag: None,
            slice_segment_address: None,
        },
        full: Some(full_of(alloc, ctx, row)?),
        ending: SliceEnding {
            num_entry_point_offsets: None,
            offset_len_minus1: None,
            entry_point_offset_minus1: Vec::new(alloc),
            slice_segment_header_extension_length: None,
            slice_segment_header_extension_data_byte: Vec::new(alloc),
        },
    })
}

fn sizes_of(sizes: [u8; 5]) -> Sizes {
    let [before, after, long, zero, one] = sizes;
    Sizes {
        before,
        after,
        long,
        zero,
        one,
    }
}

fn holds(rt: &impl Abort, alloc: Global, row: &Row) -> Result<(), Fail> {
    let ctx = context();
    let head = head_of(alloc, &ctx, row)?;
    let sizes = sizes_of(row.sizes);
    if total(&sizes) > 255 {
        return Err("at most 255 references".into());
    }
    let answer = build_lists(alloc, &sizes, &ctx, &head);
    match row.lists {
        Ok((list0, list1)) => {
            let lists = answer.ok().ok_or("no rule is broken")?;
            assert_eq!(rt; lists.list0.as_slice(), list0);
            assert_eq!(rt; lists.list1.as_slice(), list1);
        }
        Err(rule) => {
            let fault = answer.err().ok_or("a rule is broken")?;
            assert!(rt; fault == ListFault::Refused(rule));
        }
    }
    Ok(())
}

#[test]
fn lists(rt: HostRuntime) -> Result<(), Fail> {
    for row in &LISTS {
        holds(&rt, rt.alloc(), row)?;
    }
    Ok(())
}

#[test]
fn refused_lists(rt: HostRuntime) -> Result<(), Fail> {
    for row in &REFUSED {
        holds(&rt, rt.alloc(), row)?;
    }
    Ok(())
}
