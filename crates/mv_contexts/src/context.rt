//! What the header of a slice segment takes from the parameter sets that serve it.

ghost use Rattle.std.specs.Prelude.{◌≡◌, ◌≤◌, ◌+◌, length, map, true};
ghost use Rattle.mv_layers.specs.LayerInfos.{directs_of, is_known};
ghost use Rattle.mv_pictures.specs.Contexts.{direct_layer, slice_context};
ghost use Rattle.mv_slice.specs.Context.{Fits};
ghost use Rattle.mv_slice.specs.Layers.{eligible as eligible_numbers};
ghost use Rattle.mv_syntax.specs.Words.{◌otherwise◌};
ghost use Rattle.mv_vps.specs.Getters.{poc_lsb_not_present};
ghost use Rattle.mv_vps.specs.Vps.{ValidVps};
ghost use Rattle.mv_contexts.specs.Sets.{AreSets, IsSized};
ghost use Rattle.mv_contexts.specs.SpsFits.{SpsFits};

use crate::blocks::ctbs;
use crate::eligible::directs_of;
use mv_common::Format;
use mv_pps::Pps;
use mv_sets::Active;
use mv_slice::SliceContext;
use mv_sps::Sps;
use mv_units::UnitHead;
use mv_vps::Vps;

// How many there are.
fn count_of(layers: &[u8]) -> u8
    requires { length layers.now ≤ 62 }
    ensures { result ≡ length layers.now }
{
    layers.len() as u8
}

// poc_lsb_not_present_flag of a layer.
fn poc_lsb_not_present(vps: &Vps, layer: u8) -> u8
    requires { ValidVps vps.now }
    ensures { result ≡ poc_lsb_not_present vps.now layer otherwise 0 }
{
    vps.poc_lsb_not_present_flag(layer).unwrap_or(0)
}

// How many bits slice_pic_order_cnt_lsb has.
fn lsb_bits(log2_max_pic_order_cnt_lsb_minus4: u32) -> u8
    requires { log2_max_pic_order_cnt_lsb_minus4 ≤ 12 }
    ensures { result ≡ log2_max_pic_order_cnt_lsb_minus4 + 4 }
{
    (log2_max_pic_order_cnt_lsb_minus4 + 4) as u8
}

// The sequence and the picture parameter set of some that serve.
fn sps_of(active: &Active) -> &Sps
    ensures { result.now ≡ active.now.sps.value }
{
    &active.sps.value
}

fn pps_of(active: &Active) -> &Pps
    ensures { result.now ≡ active.now.pps.value }
{
    &active.pps.value
}

// The context of sets that fit.
#[tactic(auto, unfolding(mv_pictures::specs::Contexts::slice_context))]
fn context_of<'a>(
    vps: &'a Vps,
    sps: &'a Sps,
    pps: &'a Pps,
    format: Format,
    head: UnitHead,
    eligible: &'a [u8],
) -> SliceContext<'a>
    requires vps { ValidVps vps.now }
    requires sps { SpsFits sps.now.0 }
    requires format { IsSized format }
    requires eligible { eligible.now ≡ eligible_numbers head.tid (map (direct_layer vps.now head.layer) (directs_of vps.now.derived.layers head.layer)) }
    ensures value { result ≡ slice_context vps.now head format sps.now.0 pps.now.0 }
    ensures some_ctbs { 1 ≤ result.ctbs }
    ensures few_ctbs { result.ctbs ≤ 4194304 }
{
    SliceContext {
        layer: head.layer,
        directs: count_of(directs_of(vps, head.layer)),
        eligible,
        poc_lsb_not_present_flag: poc_lsb_not_present(vps, head.layer),
        default_ref_layers_active_flag: vps.default_ref_layers_active_flag(),
        max_one_active_ref_layer_flag: vps.max_one_active_ref_layer_flag(),
        ctbs: ctbs(format, &sps.coding.blocks),
        lsb_bits: lsb_bits(sps.pictures.log2_max_pic_order_cnt_lsb_minus4),
        chroma: format.chroma != 0,
        num_short_term_ref_pic_sets: sps.coding.references.num_short_term_ref_pic_sets,
        short_sets: &sps.coding.references.st_ref_pic_set,
        long_term_ref_pics_present_flag: sps.coding.references.long_term_ref_pics_present_flag,
        num_long_term_ref_pics_sps: sps
            .coding
            .references
            .num_long_term_ref_pics_sps
            .unwrap_or(0),
        lt_ref_pic_poc_lsb_sps: &sps.coding.references.lt_ref_pic_poc_lsb_sps,
        used_by_curr_pic_lt_sps_flag: &sps.coding.references.used_by_curr_pic_lt_sps_flag,
        sps_temporal_mvp_enabled_flag: sps.coding.sps_temporal_mvp_enabled_flag,
        sample_adaptive_offset_enabled_flag: sps.coding.tools.sample_adaptive_offset_enabled_flag,
        dependent_slice_segments_enabled_flag: pps.opening.dependent_slice_segments_enabled_flag,
        output_flag_present_flag: pps.opening.output_flag_present_flag,
        num_extra_slice_header_bits: pps.opening.num_extra_slice_header_bits,
        cabac_init_present_flag: pps.opening.cabac_init_present_flag,
        num_ref_idx_l0_default_active_minus1: pps.opening.num_ref_idx_l0_default_active_minus1,
        num_ref_idx_l1_default_active_minus1: pps.opening.num_ref_idx_l1_default_active_minus1,
        pps_slice_chroma_qp_offsets_present_flag: pps
            .quantization
            .pps_slice_chroma_qp_offsets_present_flag,
        weighted_pred_flag: pps.tools.weighted_pred_flag,
        weighted_bipred_flag: pps.tools.weighted_bipred_flag,
        tiles_enabled_flag: pps.tools.tiles_enabled_flag,
        entropy_coding_sync_enabled_flag: pps.tools.entropy_coding_sync_enabled_flag,
        pps_loop_filter_across_slices_enabled_flag: pps.pps_loop_filter_across_slices_enabled_flag,
        deblocking_filter_override_enabled_flag: pps
            .deblocking
            .deblocking_filter_override_enabled_flag
            .unwrap_or(0),
        pps_deblocking_filter_disabled_flag: pps
            .deblocking
            .pps_deblocking_filter_disabled_flag
            .unwrap_or(0),
        lists_modification_present_flag: pps.lists_modification_present_flag,
        slice_segment_header_extension_present_flag: pps.slice_segment_header_extension_present_flag,
    }
}

/// What the header of a slice segment takes from the sets that serve it (7.3.6.1, 7.4.7.1, F.7.3.6.1, F.7.4.7.1), with the lists
/// of the sets lent, and with the direct reference layers that its picture may refer to.
pub fn slice_context<'a>(
    vps: &'a Vps,
    active: &'a Active,
    head: UnitHead,
    eligible: &'a [u8],
) -> SliceContext<'a>
    requires vps { ValidVps vps.now }
    requires layer { is_known vps.now.derived.layers head.layer ≡ true }
    requires sets { AreSets active.now }
    requires eligible { eligible.now ≡ eligible_numbers head.tid (map (direct_layer vps.now head.layer) (directs_of vps.now.derived.layers head.layer)) }
    ensures value { result ≡ slice_context vps.now head active.now.format active.now.sps.value.0 active.now.pps.value.0 }
    ensures fits { Fits result }
{
    context_of(
        vps,
        sps_of(active),
        pps_of(active),
        active.format,
        head,
        eligible,
    )
}
