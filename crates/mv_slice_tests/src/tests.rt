//! Headers that are read, shown, written again and refused, and the numbers that they derive.

ghost use Rattle.std.specs.Prelude.{◌≡◌, ◌≤◌, length, IfOk};
ghost use Rattle.mv_short_sets.specs.ShortSet.{ValidSets};
ghost use Rattle.mv_syntax.specs.Table.{Valid};
ghost use Rattle.mv_slice.specs.Context.{Fits};
ghost use Rattle.mv_slice.specs.Slice.{slice_header};

use mv_bits::BitReader;
use mv_fields::{Fault, Limit, Printer};
use mv_rules::{ReadFault, Rule};
use mv_short_sets::{ShortArgs, ShortSet};
use mv_slice::*;
use mv_units::UnitHead;
use std::alloc::Global;
use std::process::Abort;
use std::test::Fail;

// Sets with no flag set, for a picture of 16 coding tree blocks in a layer with no direct reference layer.
fn plain() -> SliceContext<'static>
    ensures { Fits result }
{
    SliceContext {
        layer: 0,
        directs: 0,
        eligible: &[],
        poc_lsb_not_present_flag: 0,
        default_ref_layers_active_flag: 0,
        max_one_active_ref_layer_flag: 0,
        ctbs: 16,
        lsb_bits: 4,
        chroma: true,
        num_short_term_ref_pic_sets: 0,
        short_sets: &[],
        long_term_ref_pics_present_flag: 0,
        num_long_term_ref_pics_sps: 0,
        lt_ref_pic_poc_lsb_sps: &[],
        used_by_curr_pic_lt_sps_flag: &[],
        sps_temporal_mvp_enabled_flag: 0,
        sample_adaptive_offset_enabled_flag: 0,
        dependent_slice_segments_enabled_flag: 0,
        output_flag_present_flag: 0,
        num_extra_slice_header_bits: 0,
        cabac_init_present_flag: 0,
        num_ref_idx_l0_default_active_minus1: 0,
        num_ref_idx_l1_default_active_minus1: 0,
        pps_slice_chroma_qp_offsets_present_flag: 0,
        weighted_pred_flag: 0,
        weighted_bipred_flag: 0,
        tiles_enabled_flag: 0,
        entropy_coding_sync_enabled_flag: 0,
        pps_loop_filter_across_slices_enabled_flag: 0,
        deblocking_filter_override_enabled_flag: 0,
        pps_deblocking_filter_disabled_flag: 0,
        lists_modification_present_flag: 0,
        slice_segment_header_extension_present_flag: 0,
    }
}

// The second view of the streams of two views.
fn second_view() -> SliceContext<'static>
    ensures { Fits result }
{
    SliceContext {
        layer: 1,
        directs: 1,
        eligible: b"\x00",
        default_ref_layers_active_flag: 1,
        max_one_active_ref_layer_flag: 1,
        ..plain()
    }
}

// Layer 3 with three direct reference layers, of which the first and the last may be referred to.
fn three_layers() -> SliceContext<'static>
    ensures { Fits result }
{
    SliceContext {
        layer: 3,
        directs: 3,
        eligible: b"\x00\x02",
        lists_modification_present_flag: 1,
        ..plain()
    }
}

// Layer 2 with two direct reference layers, and with one.
fn two_layers() -> SliceContext<'static>
    ensures { Fits result }
{
    SliceContext {
        layer: 2,
        directs: 2,
        eligible: b"\x00\x01",
        lists_modification_present_flag: 1,
        ..plain()
    }
}

fn one_layer() -> SliceContext<'static>
    ensures { Fits result }
{
    SliceContext {
        layer: 1,
        directs: 1,
        eligible: b"\x00",
        ..plain()
    }
}

// The first `count` of as many sets.
fn sets_of(alloc: Global, bits: &mut BitReader, count: u8) -> Result<Vec<ShortSet>, Fault<Limit>>
    requires { count ≤ 64 }
    ensures all { IfOk result (λ v. length v.items ≡ count) }
    ensures valid { IfOk result (λ v. ValidSets count v.items) }
{
    let mut sets = Vec::new(alloc);
    for idx in 0..count {
        let args = ShortArgs {
            idx,
            num: count,
            earlier: sets.as_slice(),
        };
        let set = ShortSet::read(alloc, bits, &args)?;
        sets.push(set)?;
    }
    Ok(sets)
}

// Three sets: -1; -1 and 2, which is not used; and none.
static SETS: [u8; 3] = [0x5C, 0x96, 0x8C];

static CANDIDATES: [u16; 3] = [5, 9, 0];

// Sets with every flag set that asks for a field.
fn all_flags(short_sets: &[ShortSet]) -> SliceContext<'_>
    requires all { length short_sets.now ≡ 3 }
    requires valid { ValidSets 3 short_sets.now }
    ensures { Fits result }
{
    SliceContext {
        layer: 0,
        directs: 0,
        eligible: &[],
        poc_lsb_not_present_flag: 0,
        default_ref_layers_active_flag: 0,
        max_one_active_ref_layer_flag: 0,
        ctbs: 100,
        lsb_bits: 6,
        chroma: true,
        num_short_term_ref_pic_sets: 3,
        short_sets,
        long_term_ref_pics_present_flag: 1,
        num_long_term_ref_pics_sps: 3,
        lt_ref_pic_poc_lsb_sps: &CANDIDATES,
        used_by_curr_pic_lt_sps_flag: b"\x01\x00\x00",
        sps_temporal_mvp_enabled_flag: 1,
        sample_adaptive_offset_enabled_flag: 1,
        dependent_slice_segments_enabled_flag: 1,
        output_flag_present_flag: 1,
        num_extra_slice_header_bits: 4,
        cabac_init_present_flag: 1,
        num_ref_idx_l0_default_active_minus1: 0,
        num_ref_idx_l1_default_active_minus1: 1,
        pps_slice_chroma_qp_offsets_present_flag: 1,
        weighted_pred_flag: 1,
        weighted_bipred_flag: 1,
        tiles_enabled_flag: 1,
        entropy_coding_sync_enabled_flag: 0,
        pps_loop_filter_across_slices_enabled_flag: 1,
        deblocking_filter_override_enabled_flag: 1,
        pps_deblocking_filter_disabled_flag: 1,
        lists_modification_present_flag: 1,
        slice_segment_header_extension_present_flag: 1,
    }
}

// A slice segment of a nal_unit_type: its payload, and of its header the bytes and the lines.
struct Row {
    kind: u8,
    payload: &'static [u8],
    bytes: u32,
    lines: &'static str,
}

// The slices of layer 0 in a stream of two views, and in one with a leading picture, as another reader tells them.
static FIRST_VIEW: [Row; 4] = [
    // An IDR picture.
    Row {
        kind: 19,
        payload: &[0xAF, 0xD0],
        bytes: 1,
        lines: "  first_slice_segment_in_pic_flag=1\n  no_output_of_prior_pics_flag=0\n  \
                slice_pic_parameter_set_id=0\n  slice_type=2\n  slice_qp_delta=0\n",
    },
    // A picture that refers to the one before it.
    Row {
        kind: 1,
        payload: &[0xD0, 0x97, 0x70, 0xD2],
        bytes: 3,
        lines: "  first_slice_segment_in_pic_flag=1\n  slice_pic_parameter_set_id=0\n  slice_type=1\n  \
                slice_pic_order_cnt_lsb=1\n  short_term_ref_pic_set_sps_flag=0\n  num_negative_pics=1\n  \
                num_positive_pics=0\n  delta_poc_s0_minus1[0]=0\n  used_by_curr_pic_s0_flag[0]=1\n  \
                num_ref_idx_active_override_flag=0\n  five_minus_max_num_merge_cand=0\n  slice_qp_delta=0\n",
    },
    // A clean random access picture.
    Row {
        kind: 21,
        payload: &[0xAD, 0x1E, 0xD0],
        bytes: 2,
        lines: "  first_slice_segment_in_pic_flag=1\n  no_output_of_prior_pics_flag=0\n  \
                slice_pic_parameter_set_id=0\n  slice_type=2\n  slice_pic_order_cnt_lsb=4\n  \
                short_term_ref_pic_set_sps_flag=0\n  num_negative_pics=0\n  num_positive_pics=0\n  \
                slice_qp_delta=0\n",
    },
    // Its leading picture.
    Row {
        kind: 9,
        payload: &[0xD1, 0xAB, 0x70, 0xD2],
        bytes: 3,
        lines: "  first_slice_segment_in_pic_flag=1\n  slice_pic_parameter_set_id=0\n  slice_type=1\n  \
                slice_pic_order_cnt_lsb=3\n  short_term_ref_pic_set_sps_flag=0\n  num_negative_pics=0\n  \
                num_positive_pics=1\n  delta_poc_s1_minus1[0]=0\n  used_by_curr_pic_s1_flag[0]=1\n  \
                num_ref_idx_active_override_flag=0\n  five_minus_max_num_merge_cand=0\n  slice_qp_delta=0\n",
    },
];

// Those of layer 1.
static SECOND_VIEW: [Row; 4] = [
    // An IDR picture.
    Row {
        kind: 19,
        payload: &[0x92, 0x07, 0xD1],
        bytes: 2,
        lines: "  first_slice_segment_in_pic_flag=1\n  no_output_of_prior_pics_flag=0\n  \
                slice_pic_parameter_set_id=1\n  slice_type=1\n  slice_pic_order_cnt_lsb=0\n  \
                num_ref_idx_active_override_flag=0\n  five_minus_max_num_merge_cand=0\n  slice_qp_delta=0\n",
    },
    // A picture that refers to the one before it.
    Row {
        kind: 1,
        payload: &[0xA4, 0x25, 0xEB, 0x80, 0xD3],
        bytes: 4,
        lines: "  first_slice_segment_in_pic_flag=1\n  slice_pic_parameter_set_id=1\n  slice_type=1\n  \
                slice_pic_order_cnt_lsb=1\n  short_term_ref_pic_set_sps_flag=0\n  num_negative_pics=1\n  \
                num_positive_pics=0\n  delta_poc_s0_minus1[0]=0\n  used_by_curr_pic_s0_flag[0]=1\n  \
                num_ref_idx_active_override_flag=1\n  num_ref_idx_l0_active_minus1=1\n  \
                five_minus_max_num_merge_cand=0\n  slice_qp_delta=0\n",
    },
    // A clean random access picture.
    Row {
        kind: 21,
        payload: &[0x92, 0x46, 0xE0, 0xD1],
        bytes: 3,
        lines: "  first_slice_segment_in_pic_flag=1\n  no_output_of_prior_pics_flag=0\n  \
                slice_pic_parameter_set_id=1\n  slice_type=1\n  slice_pic_order_cnt_lsb=4\n  \
                short_term_ref_pic_set_sps_flag=0\n  num_negative_pics=0\n  num_positive_pics=0\n  \
                num_ref_idx_active_override_flag=0\n  five_minus_max_num_merge_cand=0\n  slice_qp_delta=0\n",
    },
    // Its leading picture.
    Row {
        kind: 9,
        payload: &[0xA4, 0x6A, 0xDC, 0xD3],
        bytes: 3,
        lines: "  first_slice_segment_in_pic_flag=1\n  slice_pic_parameter_set_id=1\n  slice_type=1\n  \
                slice_pic_order_cnt_lsb=3\n  short_term_ref_pic_set_sps_flag=0\n  num_negative_pics=0\n  \
                num_positive_pics=1\n  delta_poc_s1_minus1[0]=0\n  used_by_curr_pic_s1_flag[0]=1\n  \
                num_ref_idx_active_override_flag=0\n  five_minus_max_num_merge_cand=0\n  slice_qp_delta=0\n",
    },
];

// Slices whose sets have every flag set.
static ALL_FLAGS: [Row; 3] = [
    // A B slice with every field that can be there.
    Row {
        kind: 1,
        payload: &[
            0xEB, 0x86, 0xA4, 0x48, 0x8D, 0xAB, 0x8B, 0xD1, 0x9C, 0x98, 0x4A, 0x64, 0x2A, 0x28,
            0x60, 0xE0, 0x83, 0x3A, 0x71, 0x0B, 0x65, 0x3F, 0xDD, 0x5E, 0x6C,
        ],
        bytes: 25,
        lines: "  first_slice_segment_in_pic_flag=1\n  slice_pic_parameter_set_id=0\n  discardable_flag=1\n  \
                cross_layer_bla_flag=0\n  slice_reserved_flag[2]=1\n  slice_reserved_flag[3]=0\n  \
                slice_type=0\n  pic_output_flag=1\n  slice_pic_order_cnt_lsb=33\n  \
                short_term_ref_pic_set_sps_flag=1\n  short_term_ref_pic_set_idx=1\n  num_long_term_sps=1\n  \
                num_long_term_pics=1\n  lt_idx_sps[0]=0\n  delta_poc_msb_present_flag[0]=1\n  \
                delta_poc_msb_cycle_lt[0]=3\n  poc_lsb_lt[1]=17\n  used_by_curr_pic_lt_flag[1]=1\n  \
                delta_poc_msb_present_flag[1]=0\n  slice_temporal_mvp_enabled_flag=1\n  \
                slice_sao_luma_flag=1\n  slice_sao_chroma_flag=0\n  num_ref_idx_active_override_flag=1\n  \
                num_ref_idx_l0_active_minus1=1\n  num_ref_idx_l1_active_minus1=0\n  \
                ref_pic_list_modification_flag_l0=1\n  list_entry_l0[0]=2\n  list_entry_l0[1]=0\n  \
                ref_pic_list_modification_flag_l1=1\n  list_entry_l1[0]=1\n  mvd_l1_zero_flag=1\n  \
                cabac_init_flag=1\n  collocated_from_l0_flag=1\n  collocated_ref_idx=1\n  \
                luma_log2_weight_denom=5\n  delta_chroma_log2_weight_denom=-1\n  luma_weight_flag[0][0]=1\n  \
                luma_weight_flag[0][1]=0\n  chroma_weight_flag[0][0]=0\n  chroma_weight_flag[0][1]=1\n  \
                delta_luma_weight[0][0]=3\n  luma_offset[0][0]=-4\n  delta_chroma_weight[0][1][0]=1\n  \
                delta_chroma_offset[0][1][0]=-1\n  delta_chroma_weight[0][1][1]=2\n  \
                delta_chroma_offset[0][1][1]=-2\n  luma_weight_flag[1][0]=0\n  chroma_weight_flag[1][0]=1\n  \
                delta_chroma_weight[1][0][0]=5\n  delta_chroma_offset[1][0][0]=6\n  \
                delta_chroma_weight[1][0][1]=7\n  delta_chroma_offset[1][0][1]=8\n  \
                five_minus_max_num_merge_cand=2\n  slice_qp_delta=-3\n  slice_cb_qp_offset=1\n  \
                slice_cr_qp_offset=-1\n  deblocking_filter_override_flag=1\n  \
                slice_deblocking_filter_disabled_flag=0\n  slice_beta_offset_div2=2\n  \
                slice_tc_offset_div2=-2\n  slice_loop_filter_across_slices_enabled_flag=1\n  \
                num_entry_point_offsets=2\n  offset_len_minus1=4\n  entry_point_offset_minus1[0]=7\n  \
                entry_point_offset_minus1[1]=31\n  slice_segment_header_extension_length=2\n  \
                slice_segment_header_extension_data_byte[0]=171\n  \
                slice_segment_header_extension_data_byte[1]=205\n",
    },
    // A dependent segment.
    Row {
        kind: 1,
        payload: &[0x70, 0x78, 0xFF],
        bytes: 2,
        lines: "  first_slice_segment_in_pic_flag=0\n  slice_pic_parameter_set_id=0\n  \
                dependent_slice_segment_flag=1\n  slice_segment_address=65\n  num_entry_point_offsets=0\n  \
                slice_segment_header_extension_length=0\n",
    },
    // A P slice whose set is predicted from set 1.
    Row {
        kind: 1,
        payload: &[0x58, 0xC1, 0x00, 0x57, 0x38, 0x19, 0xEE],
        bytes: 7,
        lines: "  first_slice_segment_in_pic_flag=0\n  slice_pic_parameter_set_id=0\n  \
                dependent_slice_segment_flag=0\n  slice_segment_address=99\n  discardable_flag=0\n  \
                cross_layer_bla_flag=0\n  slice_reserved_flag[2]=0\n  slice_reserved_flag[3]=0\n  \
                slice_type=1\n  pic_output_flag=0\n  slice_pic_order_cnt_lsb=0\n  \
                short_term_ref_pic_set_sps_flag=0\n  inter_ref_pic_set_prediction_flag=1\n  \
                delta_idx_minus1=1\n  delta_rps_sign=1\n  abs_delta_rps_minus1=0\n  \
                used_by_curr_pic_flag[0]=1\n  used_by_curr_pic_flag[1]=0\n  use_delta_flag[1]=0\n  \
                used_by_curr_pic_flag[2]=1\n  num_long_term_sps=0\n  num_long_term_pics=0\n  \
                slice_temporal_mvp_enabled_flag=0\n  slice_sao_luma_flag=0\n  slice_sao_chroma_flag=0\n  \
                num_ref_idx_active_override_flag=0\n  ref_pic_list_modification_flag_l0=0\n  \
                cabac_init_flag=0\n  luma_log2_weight_denom=0\n  delta_chroma_log2_weight_denom=0\n  \
                luma_weight_flag[0][0]=0\n  chroma_weight_flag[0][0]=0\n  five_minus_max_num_merge_cand=0\n  \
                slice_qp_delta=0\n  slice_cb_qp_offset=0\n  slice_cr_qp_offset=0\n  \
                deblocking_filter_override_flag=0\n  num_entry_point_offsets=0\n  \
                slice_segment_header_extension_length=0\n",
    },
];

// Inter-layer fields with one direct reference layer, with two, and with three.
static ONE_LAYER: [Row; 2] = [
    // Refers to the layer.
    Row {
        kind: 1,
        payload: &[0xD2, 0xBB, 0x80],
        bytes: 3,
        lines: "  first_slice_segment_in_pic_flag=1\n  slice_pic_parameter_set_id=0\n  slice_type=1\n  \
                slice_pic_order_cnt_lsb=5\n  short_term_ref_pic_set_sps_flag=0\n  num_negative_pics=0\n  \
                num_positive_pics=0\n  inter_layer_pred_enabled_flag=1\n  num_ref_idx_active_override_flag=0\n  \
                five_minus_max_num_merge_cand=0\n  slice_qp_delta=0\n",
    },
    // Does not.
    Row {
        kind: 1,
        payload: &[0xD2, 0xB3, 0x80],
        bytes: 3,
        lines: "  first_slice_segment_in_pic_flag=1\n  slice_pic_parameter_set_id=0\n  slice_type=1\n  \
                slice_pic_order_cnt_lsb=5\n  short_term_ref_pic_set_sps_flag=0\n  num_negative_pics=0\n  \
                num_positive_pics=0\n  inter_layer_pred_enabled_flag=0\n  num_ref_idx_active_override_flag=0\n  \
                five_minus_max_num_merge_cand=0\n  slice_qp_delta=0\n",
    },
];

static TWO_LAYERS: [Row; 2] = [
    // One layer, named.
    Row {
        kind: 1,
        payload: &[0xD2, 0xBA, 0xE0],
        bytes: 3,
        lines: "  first_slice_segment_in_pic_flag=1\n  slice_pic_parameter_set_id=0\n  slice_type=1\n  \
                slice_pic_order_cnt_lsb=5\n  short_term_ref_pic_set_sps_flag=0\n  num_negative_pics=0\n  \
                num_positive_pics=0\n  inter_layer_pred_enabled_flag=1\n  num_inter_layer_ref_pics_minus1=0\n  \
                inter_layer_pred_layer_idc[0]=1\n  num_ref_idx_active_override_flag=0\n  \
                five_minus_max_num_merge_cand=0\n  slice_qp_delta=0\n",
    },
    // Both layers, so that two pictures may be referred to.
    Row {
        kind: 1,
        payload: &[0xD2, 0xBC, 0xE0],
        bytes: 3,
        lines: "  first_slice_segment_in_pic_flag=1\n  slice_pic_parameter_set_id=0\n  slice_type=1\n  \
                slice_pic_order_cnt_lsb=5\n  short_term_ref_pic_set_sps_flag=0\n  num_negative_pics=0\n  \
                num_positive_pics=0\n  inter_layer_pred_enabled_flag=1\n  num_inter_layer_ref_pics_minus1=1\n  \
                num_ref_idx_active_override_flag=0\n  ref_pic_list_modification_flag_l0=0\n  \
                five_minus_max_num_merge_cand=0\n  slice_qp_delta=0\n",
    },
];

static THREE_LAYERS: [Row; 1] = [
    // Two of three layers.
    Row {
        kind: 1,
        payload: &[0xD2, 0xBA, 0x47],
        bytes: 3,
        lines: "  first_slice_segment_in_pic_flag=1\n  slice_pic_parameter_set_id=0\n  slice_type=1\n  \
                slice_pic_order_cnt_lsb=5\n  short_term_ref_pic_set_sps_flag=0\n  num_negative_pics=0\n  \
                num_positive_pics=0\n  inter_layer_pred_enabled_flag=1\n  num_inter_layer_ref_pics_minus1=1\n  \
                inter_layer_pred_layer_idc[0]=0\n  inter_layer_pred_layer_idc[1]=2\n  \
                num_ref_idx_active_override_flag=0\n  ref_pic_list_modification_flag_l0=0\n  \
                five_minus_max_num_merge_cand=0\n  slice_qp_delta=0\n",
    },
];

// The head of a unit of the context's layer.
fn head_of(ctx: &SliceContext, kind: u8) -> UnitHead
    ensures layer { result.layer ≡ ctx.now.layer }
    ensures kind { result.kind ≡ kind }
{
    UnitHead {
        kind,
        layer: ctx.layer,
        tid: 0,
    }
}

// The header of a row.
fn read_of(alloc: Global, ctx: &SliceContext, row: &Row) -> Result<SliceRead, Fail>
    requires { Fits ctx.now }
    ensures { IfOk result (λ read. Valid (slice_header ctx.now row.now.kind) read.head) }
{
    match read_slice(alloc, ctx, head_of(ctx, row.kind), row.payload) {
        Ok(read) => Ok(read),
        Err(_) => Err("it reads")?,
    }
}

// Its first fields are told from the payload alone.
fn tells(rt: &impl Abort, row: &Row, opening: SliceOpening, head: UnitHead) -> Result<(), Fail> {
    let told = peek_slice(head, row.payload).ok().ok_or("it tells")?;
    assert_eq!(rt; told.first, opening.first_slice_segment_in_pic_flag == 1);
    assert_eq!(rt; u32::from(told.pps_id), opening.slice_pic_parameter_set_id);
    Ok(())
}

// It has the row's lines.
fn shows(
    rt: &impl Abort,
    alloc: Global,
    ctx: &SliceContext,
    row: &Row,
    value: &SliceHead,
) -> Result<(), Fail>
    requires fits { Fits ctx.now }
    requires valid { Valid (slice_header ctx.now row.now.kind) value.now }
{
    let mut lines = Printer::lines(alloc);
    show_slice(alloc, &mut lines, ctx, head_of(ctx, row.kind), value)?;
    assert_eq!(rt; lines.text(), row.lines.as_bytes());
    Ok(())
}

// It is written again, and goes on behind its first bytes.
fn writes(
    rt: &impl Abort,
    alloc: Global,
    ctx: &SliceContext,
    row: &Row,
    value: &SliceHead,
) -> Result<(), Fail>
    requires fits { Fits ctx.now }
    requires valid { Valid (slice_header ctx.now row.now.kind) value.now }
{
    let written = write_slice(alloc, ctx, head_of(ctx, row.kind), value)?;
    assert_eq!(rt; written.len(), row.bytes as usize);
    assert!(rt; row.payload.starts_with(&written));
    let (_, first) = written.split_last().ok_or("its first bytes")?;
    goes_on(rt, alloc, ctx, row.kind, first);
    Ok(())
}

// A header that begins with these bytes goes on behind them.
fn goes_on(rt: &impl Abort, alloc: Global, ctx: &SliceContext, kind: u8, first: &[u8])
    requires { Fits ctx.now }
{
    let answer = read_slice_start(alloc, ctx, head_of(ctx, kind), first);
    assert!(rt; matches!(answer, Ok(None)));
}

// The header reads, tells its first fields, has its lines, and is written again.
fn holds(rt: &impl Abort, alloc: Global, ctx: &SliceContext, row: &Row) -> Result<(), Fail>
    requires { Fits ctx.now }
{
    let read = read_of(alloc, ctx, row)?;
    assert_eq!(rt; read.bytes, row.bytes);
    tells(rt, row, read.head.opening, head_of(ctx, row.kind))?;
    shows(rt, alloc, ctx, row, &read.head)?;
    writes(rt, alloc, ctx, row, &read.head)
}

#[test]
fn headers_of_streams(rt: HostRuntime) -> Result<(), Fail> {
    for row in &FIRST_VIEW {
        holds(&rt, rt.alloc(), &plain(), row)?;
    }
    for row in &SECOND_VIEW {
        holds(&rt, rt.alloc(), &second_view(), row)?;
    }
    Ok(())
}

#[test]
fn headers_with_all_fields(rt: HostRuntime) -> Result<(), Fail> {
    let sets = sets_of(rt.alloc(), &mut BitReader::new(&SETS), 3)?;
    for row in &ALL_FLAGS {
        holds(&rt, rt.alloc(), &all_flags(&sets), row)?;
    }
    Ok(())
}

// What a header derives: NumPicTotalCurr, and its active layers.
fn derives(
    rt: &impl Abort,
    alloc: Global,
    ctx: &SliceContext,
    row: &Row,
    derived: (u32, &[u8]),
) -> Result<(), Fail>
    requires { Fits ctx.now }
{
    let read = read_of(alloc, ctx, row)?;
    let head = head_of(ctx, row.kind);
    assert_eq!(rt;
        num_pic_total_curr(alloc, ctx, head, &read.head)?,
        derived.0
    );
    assert_eq!(rt; active_layers(ctx, &read.head), derived.1);
    Ok(())
}

// The B slice has one used picture in its short-term set and two long-term ones, the dependent segment none, and the P slice
// two in its set. Those of the second view have the picture of the first view, and two of them one of their own view.
#[test]
fn derived_numbers(rt: HostRuntime) -> Result<(), Fail> {
    let sets = sets_of(rt.alloc(), &mut BitReader::new(&SETS), 3)?;
    let totals: [u32; 3] = [3, 0, 2];
    for (row, total) in ALL_FLAGS.iter().zip(totals) {
        derives(&rt, rt.alloc(), &all_flags(&sets), row, (total, b""))?;
    }
    let totals: [u32; 4] = [1, 2, 1, 2];
    for (row, total) in SECOND_VIEW.iter().zip(totals) {
        derives(&rt, rt.alloc(), &second_view(), row, (total, b"\x00"))?;
    }
    for row in &THREE_LAYERS {
        derives(&rt, rt.alloc(), &three_layers(), row, (2, b"\x00\x02"))?;
    }
    Ok(())
}

#[test]
fn inter_layer_fields(rt: HostRuntime) -> Result<(), Fail> {
    for row in &ONE_LAYER {
        holds(&rt, rt.alloc(), &one_layer(), row)?;
    }
    for row in &TWO_LAYERS {
        holds(&rt, rt.alloc(), &two_layers(), row)?;
    }
    for row in &THREE_LAYERS {
        holds(&rt, rt.alloc(), &three_layers(), row)?;
    }
    Ok(())
}

// The payload is refused by the rule.
fn refuses(rt: &impl Abort, alloc: Global, ctx: &SliceContext, payload: &[u8], rule: Rule)
    requires { Fits ctx.now }
{
    let answer = read_slice(alloc, ctx, head_of(ctx, 1), payload).err();
    assert!(rt; answer == Some(ReadFault::Refused(rule)), "{payload:?}");
}

// In turn past its limit: the id, slice_type, a set's pictures, the index of a set, the numbers of long-term pictures from
// the sequence parameter set and of others, the index of a candidate, the active entries of list 0 and list 1, the entry
// points, the bits of an offset, the extension's bytes, the pictures of both sides of a set, the distance of one, the set that a
// set is predicted from, and the difference to it.
static PAST_LIMITS: [&[u8]; 16] = [
    &[0x81, 0x04],
    &[0xC0, 0x80],
    &[0xC3, 0x00, 0x09, 0x00],
    &[0xC3, 0x03, 0x80],
    &[0xC3, 0x03, 0x04, 0x80],
    &[0xC3, 0x03, 0x20, 0x90],
    &[0xC3, 0x03, 0x2E],
    &[0xC3, 0x03, 0x28, 0x10, 0x80],
    &[0xC3, 0x03, 0x28, 0x18, 0x40],
    &[0x70, 0x40, 0x00, 0x20, 0x00, 0x20],
    &[0x70, 0x50, 0x21],
    &[0x70, 0x60, 0x10, 0x20],
    &[0xC3, 0x00, 0x14, 0x26],
    &[0xC3, 0x00, 0x50, 0x00, 0x10, 0x00, 0x30],
    &[0xC3, 0x01, 0x24],
    &[0xC3, 0x01, 0x80, 0x00, 0x40, 0x00, 0xC0],
];

// More layers than may be referred to, a number past the layers, layers that don't rise, and a layer past them.
static BAD_LAYERS: [&[u8]; 4] = [
    &[0xD2, 0xBC, 0x70],
    &[0xD2, 0xBE, 0x70],
    &[0xD2, 0xBB, 0x27],
    &[0xD2, 0xB9, 0x9C],
];

// A set of a sequence parameter set that has none, bits that end, no bits, and no one bit behind the fields.
static NO_HEADERS: [&[u8]; 4] = [&[0xD0, 0xC0], &[0xD0, 0x97], &[], &[0xD0, 0x97, 0x60]];

#[test]
fn refused_headers(rt: HostRuntime) -> Result<(), Fail> {
    let sets = sets_of(rt.alloc(), &mut BitReader::new(&SETS), 3)?;
    let all = all_flags(&sets);
    for payload in &PAST_LIMITS {
        refuses(&rt, rt.alloc(), &all, payload, Rule::SliceSyntax);
    }
    refuses(&rt, rt.alloc(), &all, b"\xD0", Rule::CrossLayerBla);
    for payload in &BAD_LAYERS {
        refuses(&rt, rt.alloc(), &three_layers(), payload, Rule::SliceSyntax);
    }
    for payload in &NO_HEADERS {
        refuses(&rt, rt.alloc(), &plain(), payload, Rule::SliceSyntax);
    }
    Ok(())
}
