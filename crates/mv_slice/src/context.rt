//! What slice segment headers take from the parameter sets that are in force.

use mv_short_sets::ShortSet;
use std::marker::Model;

/// What the header of a slice segment takes from the video, sequence and picture parameter sets that are in force for it
/// (7.3.6.1, F.7.3.6.1), with its lists lent. A field that its set leaves out has the value that is stated for it there, or 0.
#[derive(Debug, Drop)]
pub struct SliceContext<'a> {
    /// The picture's layer, nuh_layer_id.
    pub layer: u8,
    /// How many direct reference layers it has.
    pub directs: u8,
    /// Those of them that the picture may refer to, by their numbers from 0 on, which rise.
    pub eligible: &'a [u8],
    /// The layer's.
    pub poc_lsb_not_present_flag: u8,
    pub default_ref_layers_active_flag: u8,
    pub max_one_active_ref_layer_flag: u8,
    /// How many coding tree blocks the picture has.
    pub ctbs: u32,
    /// How many bits slice_pic_order_cnt_lsb has.
    pub lsb_bits: u8,
    /// Whether the picture's format has chroma.
    pub chroma: bool,
    pub num_short_term_ref_pic_sets: u32,
    /// The sets of the sequence parameter set.
    pub short_sets: &'a [ShortSet],
    pub long_term_ref_pics_present_flag: u8,
    pub num_long_term_ref_pics_sps: u32,
    pub lt_ref_pic_poc_lsb_sps: &'a [u16],
    pub used_by_curr_pic_lt_sps_flag: &'a [u8],
    pub sps_temporal_mvp_enabled_flag: u8,
    pub sample_adaptive_offset_enabled_flag: u8,
    pub dependent_slice_segments_enabled_flag: u8,
    pub output_flag_present_flag: u8,
    pub num_extra_slice_header_bits: u8,
    pub cabac_init_present_flag: u8,
    pub num_ref_idx_l0_default_active_minus1: u32,
    pub num_ref_idx_l1_default_active_minus1: u32,
    pub pps_slice_chroma_qp_offsets_present_flag: u8,
    pub weighted_pred_flag: u8,
    pub weighted_bipred_flag: u8,
    pub tiles_enabled_flag: u8,
    pub entropy_coding_sync_enabled_flag: u8,
    pub pps_loop_filter_across_slices_enabled_flag: u8,
    pub deblocking_filter_override_enabled_flag: u8,
    pub pps_deblocking_filter_disabled_flag: u8,
    pub lists_modification_present_flag: u8,
    pub slice_segment_header_extension_present_flag: u8,
}

impl<'a> Model for SliceContext<'a> {
    ghost use Rattle.mv_slice.specs.Context.{SliceContextValue};

    ghost Value = { SliceContextValue };

    ghost view = { λ s. record {
      layer = s.layer;
      directs = s.directs;
      eligible = s.eligible.now;
      poc_lsb_not_present_flag = s.poc_lsb_not_present_flag;
      default_ref_layers_active_flag = s.default_ref_layers_active_flag;
      max_one_active_ref_layer_flag = s.max_one_active_ref_layer_flag;
      ctbs = s.ctbs;
      lsb_bits = s.lsb_bits;
      chroma = s.chroma;
      num_short_term_ref_pic_sets = s.num_short_term_ref_pic_sets;
      short_sets = s.short_sets.now;
      long_term_ref_pics_present_flag = s.long_term_ref_pics_present_flag;
      num_long_term_ref_pics_sps = s.num_long_term_ref_pics_sps;
      lt_ref_pic_poc_lsb_sps = s.lt_ref_pic_poc_lsb_sps.now;
      used_by_curr_pic_lt_sps_flag = s.used_by_curr_pic_lt_sps_flag.now;
      sps_temporal_mvp_enabled_flag = s.sps_temporal_mvp_enabled_flag;
      sample_adaptive_offset_enabled_flag = s.sample_adaptive_offset_enabled_flag;
      dependent_slice_segments_enabled_flag = s.dependent_slice_segments_enabled_flag;
      output_flag_present_flag = s.output_flag_present_flag;
      num_extra_slice_header_bits = s.num_extra_slice_header_bits;
      cabac_init_present_flag = s.cabac_init_present_flag;
      num_ref_idx_l0_default_active_minus1 = s.num_ref_idx_l0_default_active_minus1;
      num_ref_idx_l1_default_active_minus1 = s.num_ref_idx_l1_default_active_minus1;
      pps_slice_chroma_qp_offsets_present_flag = s.pps_slice_chroma_qp_offsets_present_flag;
      weighted_pred_flag = s.weighted_pred_flag;
      weighted_bipred_flag = s.weighted_bipred_flag;
      tiles_enabled_flag = s.tiles_enabled_flag;
      entropy_coding_sync_enabled_flag = s.entropy_coding_sync_enabled_flag;
      pps_loop_filter_across_slices_enabled_flag = s.pps_loop_filter_across_slices_enabled_flag;
      deblocking_filter_override_enabled_flag = s.deblocking_filter_override_enabled_flag;
      pps_deblocking_filter_disabled_flag = s.pps_deblocking_filter_disabled_flag;
      lists_modification_present_flag = s.lists_modification_present_flag;
      slice_segment_header_extension_present_flag = s.slice_segment_header_extension_present_flag;
    } };
}
