//! The parts of sequence parameter sets that the tests put together. Each is a function's, since the check of a function costs
//! what the texts that stand in it cost.

// A run of fields: its bits, zeros and ones with blanks between the fields, and the lines that show it.
#[derive(Clone, Copy)]
pub struct Part<'a> {
    pub bits: &'a str,
    pub lines: &'a [&'a str],
}

pub fn opening() -> Part<'static> {
    Part {
        bits: "0000 000 1 00 0 00001 01100000000000000000000000000000 1 0 0 1 \
             0000000000000000000000000000000000000000000 0 01011101 1",
        lines: &[
            "sps_video_parameter_set_id=0",
            "sps_max_sub_layers_minus1=0",
            "sps_temporal_id_nesting_flag=1",
            "profile_space=0",
            "tier_flag=0",
            "profile_idc=1",
            "compatibility_flags=1610612736",
            "progressive_source_flag=1",
            "interlaced_source_flag=0",
            "non_packed_constraint_flag=0",
            "frame_only_constraint_flag=1",
            "constraint_43bits=0",
            "constraint_last_bit=0",
            "level_idc=93",
            "sps_seq_parameter_set_id=0",
        ],
    }
}

pub fn format() -> Part<'static> {
    Part {
        bits: "010 0000001000001 0000001000001 0 1 1",
        lines: &[
            "chroma_format_idc=1",
            "pic_width_in_luma_samples=64",
            "pic_height_in_luma_samples=64",
            "conformance_window_flag=0",
            "bit_depth_luma_minus8=0",
            "bit_depth_chroma_minus8=0",
        ],
    }
}

pub fn four_bits() -> Part<'static> {
    Part {
        bits: "1",
        lines: &["log2_max_pic_order_cnt_lsb_minus4=0"],
    }
}

pub fn alone() -> Part<'static> {
    Part {
        bits: "1 010 1 1",
        lines: &[
            "sps_sub_layer_ordering_info_present_flag=1",
            "sps_max_dec_pic_buffering_minus1[0]=1",
            "sps_max_num_reorder_pics[0]=0",
            "sps_max_latency_increase_plus1[0]=0",
        ],
    }
}

pub fn blocks() -> Part<'static> {
    Part {
        bits: "1 010 1 011 1 1",
        lines: &[
            "log2_min_luma_coding_block_size_minus3=0",
            "log2_diff_max_min_luma_coding_block_size=1",
            "log2_min_luma_transform_block_size_minus2=0",
            "log2_diff_max_min_luma_transform_block_size=2",
            "max_transform_hierarchy_depth_inter=0",
            "max_transform_hierarchy_depth_intra=0",
        ],
    }
}

pub fn no_lists() -> Part<'static> {
    Part {
        bits: "0",
        lines: &["scaling_list_enabled_flag=0"],
    }
}

pub fn no_tools() -> Part<'static> {
    Part {
        bits: "0 0 0",
        lines: &[
            "amp_enabled_flag=0",
            "sample_adaptive_offset_enabled_flag=0",
            "pcm_enabled_flag=0",
        ],
    }
}

pub fn no_references() -> Part<'static> {
    Part {
        bits: "1 0",
        lines: &[
            "num_short_term_ref_pic_sets=0",
            "long_term_ref_pics_present_flag=0",
        ],
    }
}

pub fn no_flags() -> Part<'static> {
    Part {
        bits: "0 0",
        lines: &[
            "sps_temporal_mvp_enabled_flag=0",
            "strong_intra_smoothing_enabled_flag=0",
        ],
    }
}

pub fn no_vui() -> Part<'static> {
    Part {
        bits: "0",
        lines: &["vui_parameters_present_flag=0"],
    }
}

pub fn no_extension() -> Part<'static> {
    Part {
        bits: "0",
        lines: &["sps_extension_present_flag=0"],
    }
}

pub fn layered() -> Part<'static> {
    Part {
        bits: "0000 111 010",
        lines: &[
            "sps_video_parameter_set_id=0",
            "sps_max_sub_layers_minus1=7",
            "sps_seq_parameter_set_id=1",
        ],
    }
}

pub fn own_format() -> Part<'static> {
    Part {
        bits: "0",
        lines: &["update_rep_format_flag=0"],
    }
}

pub fn multilayer() -> Part<'static> {
    Part {
        bits: "1 0 1 0 0 0000 0",
        lines: &[
            "sps_extension_present_flag=1",
            "sps_range_extension_flag=0",
            "sps_multilayer_extension_flag=1",
            "sps_3d_extension_flag=0",
            "sps_scc_extension_flag=0",
            "sps_extension_4bits=0",
            "inter_view_mv_vert_constraint_flag=0",
        ],
    }
}

pub fn level_1() -> Part<'static> {
    Part {
        bits: "0000 000 1 00 0 00001 01100000000000000000000000000000 1 0 0 1 \
             0000000000000000000000000000000000000000000 0 00011110 1",
        lines: &[
            "sps_video_parameter_set_id=0",
            "sps_max_sub_layers_minus1=0",
            "sps_temporal_id_nesting_flag=1",
            "profile_space=0",
            "tier_flag=0",
            "profile_idc=1",
            "compatibility_flags=1610612736",
            "progressive_source_flag=1",
            "interlaced_source_flag=0",
            "non_packed_constraint_flag=0",
            "frame_only_constraint_flag=1",
            "constraint_43bits=0",
            "constraint_last_bit=0",
            "level_idc=30",
            "sps_seq_parameter_set_id=0",
        ],
    }
}

pub fn eight_bits() -> Part<'static> {
    Part {
        bits: "00101",
        lines: &["log2_max_pic_order_cnt_lsb_minus4=4"],
    }
}

pub fn reordered() -> Part<'static> {
    Part {
        bits: "1 00101 011 00110",
        lines: &[
            "sps_sub_layer_ordering_info_present_flag=1",
            "sps_max_dec_pic_buffering_minus1[0]=4",
            "sps_max_num_reorder_pics[0]=2",
            "sps_max_latency_increase_plus1[0]=5",
        ],
    }
}

pub fn large_blocks() -> Part<'static> {
    Part {
        bits: "1 00100 1 00100 1 1",
        lines: &[
            "log2_min_luma_coding_block_size_minus3=0",
            "log2_diff_max_min_luma_coding_block_size=3",
            "log2_min_luma_transform_block_size_minus2=0",
            "log2_diff_max_min_luma_transform_block_size=3",
            "max_transform_hierarchy_depth_inter=0",
            "max_transform_hierarchy_depth_intra=0",
        ],
    }
}

pub fn offset() -> Part<'static> {
    Part {
        bits: "0 1 0",
        lines: &[
            "amp_enabled_flag=0",
            "sample_adaptive_offset_enabled_flag=1",
            "pcm_enabled_flag=0",
        ],
    }
}

pub fn both_flags() -> Part<'static> {
    Part {
        bits: "1 1",
        lines: &[
            "sps_temporal_mvp_enabled_flag=1",
            "strong_intra_smoothing_enabled_flag=1",
        ],
    }
}

pub fn timed() -> Part<'static> {
    Part {
        bits: "1 0 0 0 0 0 0 0 0 1 00000000000000000000001111101000 00000000000000000110000110101000 0 0 0",
        lines: &[
            "vui_parameters_present_flag=1",
            "aspect_ratio_info_present_flag=0",
            "overscan_info_present_flag=0",
            "video_signal_type_present_flag=0",
            "chroma_loc_info_present_flag=0",
            "neutral_chroma_indication_flag=0",
            "field_seq_flag=0",
            "frame_field_info_present_flag=0",
            "default_display_window_flag=0",
            "vui_timing_info_present_flag=1",
            "vui_num_units_in_tick=1000",
            "vui_time_scale=25000",
            "vui_poc_proportional_to_timing_flag=0",
            "vui_hrd_parameters_present_flag=0",
            "bitstream_restriction_flag=0",
        ],
    }
}

pub fn coloured() -> Part<'static> {
    Part {
        bits: "1 1 00000100 1 0 1 001 1 1 00000001 00000001 00000001 1 010 010 0 0 0 1 011 00101 1 1 1 \
             00000000000000000000001111101000 00000000000000000110000110101000 0 0 0",
        lines: &[
            "vui_parameters_present_flag=1",
            "aspect_ratio_info_present_flag=1",
            "aspect_ratio_idc=4",
            "overscan_info_present_flag=1",
            "overscan_appropriate_flag=0",
            "video_signal_type_present_flag=1",
            "video_format=1",
            "video_full_range_flag=1",
            "colour_description_present_flag=1",
            "colour_primaries=1",
            "transfer_characteristics=1",
            "matrix_coeffs=1",
            "chroma_loc_info_present_flag=1",
            "chroma_sample_loc_type_top_field=1",
            "chroma_sample_loc_type_bottom_field=1",
            "neutral_chroma_indication_flag=0",
            "field_seq_flag=0",
            "frame_field_info_present_flag=0",
            "default_display_window_flag=1",
            "def_disp_win_left_offset=2",
            "def_disp_win_right_offset=4",
            "def_disp_win_top_offset=0",
            "def_disp_win_bottom_offset=0",
            "vui_timing_info_present_flag=1",
            "vui_num_units_in_tick=1000",
            "vui_time_scale=25000",
            "vui_poc_proportional_to_timing_flag=0",
            "vui_hrd_parameters_present_flag=0",
            "bitstream_restriction_flag=0",
        ],
    }
}

pub fn two_sub_layers() -> Part<'static> {
    Part {
        bits: "0000 001 0 00 0 00001 01100000000000000000000000000000 1 0 0 1 \
             0000000000000000000000000000000000000000000 0 00111100 0 0 00 00 00 00 00 00 00 1",
        lines: &[
            "sps_video_parameter_set_id=0",
            "sps_max_sub_layers_minus1=1",
            "sps_temporal_id_nesting_flag=0",
            "profile_space=0",
            "tier_flag=0",
            "profile_idc=1",
            "compatibility_flags=1610612736",
            "progressive_source_flag=1",
            "interlaced_source_flag=0",
            "non_packed_constraint_flag=0",
            "frame_only_constraint_flag=1",
            "constraint_43bits=0",
            "constraint_last_bit=0",
            "level_idc=60",
            "sub_layer_profile_present_flag[0]=0",
            "sub_layer_level_present_flag[0]=0",
            "reserved_zero_2bits[1]=0",
            "reserved_zero_2bits[2]=0",
            "reserved_zero_2bits[3]=0",
            "reserved_zero_2bits[4]=0",
            "reserved_zero_2bits[5]=0",
            "reserved_zero_2bits[6]=0",
            "reserved_zero_2bits[7]=0",
            "sps_seq_parameter_set_id=0",
        ],
    }
}

pub fn reordered_twice() -> Part<'static> {
    Part {
        bits: "1 00101 011 00110 00101 011 00110",
        lines: &[
            "sps_sub_layer_ordering_info_present_flag=1",
            "sps_max_dec_pic_buffering_minus1[0]=4",
            "sps_max_num_reorder_pics[0]=2",
            "sps_max_latency_increase_plus1[0]=5",
            "sps_max_dec_pic_buffering_minus1[1]=4",
            "sps_max_num_reorder_pics[1]=2",
            "sps_max_latency_increase_plus1[1]=5",
        ],
    }
}

pub fn scheduled() -> Part<'static> {
    Part {
        bits: "1 0 0 0 0 0 0 0 0 1 00000000000000000000001111101000 00000000000000000110000110101000 0 1 1 0 0 \
             0000 0010 10010 01011 00101 1 1 1 000000000000011110100001001 000000000000011110100001001 0 1 1 \
             1 000000000000011110100001001 000000000000011110100001001 0 0",
        lines: &[
            "vui_parameters_present_flag=1",
            "aspect_ratio_info_present_flag=0",
            "overscan_info_present_flag=0",
            "video_signal_type_present_flag=0",
            "chroma_loc_info_present_flag=0",
            "neutral_chroma_indication_flag=0",
            "field_seq_flag=0",
            "frame_field_info_present_flag=0",
            "default_display_window_flag=0",
            "vui_timing_info_present_flag=1",
            "vui_num_units_in_tick=1000",
            "vui_time_scale=25000",
            "vui_poc_proportional_to_timing_flag=0",
            "vui_hrd_parameters_present_flag=1",
            "nal_hrd_parameters_present_flag=1",
            "vcl_hrd_parameters_present_flag=0",
            "sub_pic_hrd_params_present_flag=0",
            "bit_rate_scale=0",
            "cpb_size_scale=2",
            "initial_cpb_removal_delay_length_minus1=18",
            "au_cpb_removal_delay_length_minus1=11",
            "dpb_output_delay_length_minus1=5",
            "fixed_pic_rate_general_flag[0]=1",
            "elemental_duration_in_tc_minus1[0]=0",
            "cpb_cnt_minus1[0]=0",
            "bit_rate_value_minus1[0][0]=15624",
            "cpb_size_value_minus1[0][0]=15624",
            "cbr_flag[0][0]=0",
            "fixed_pic_rate_general_flag[1]=1",
            "elemental_duration_in_tc_minus1[1]=0",
            "cpb_cnt_minus1[1]=0",
            "bit_rate_value_minus1[1][0]=15624",
            "cpb_size_value_minus1[1][0]=15624",
            "cbr_flag[1][0]=0",
            "bitstream_restriction_flag=0",
        ],
    }
}

pub fn default_lists() -> Part<'static> {
    Part {
        bits: "1 0",
        lines: &[
            "scaling_list_enabled_flag=1",
            "sps_scaling_list_data_present_flag=0",
        ],
    }
}

pub fn parted() -> Part<'static> {
    Part {
        bits: "1 1 0",
        lines: &[
            "amp_enabled_flag=1",
            "sample_adaptive_offset_enabled_flag=1",
            "pcm_enabled_flag=0",
        ],
    }
}

pub fn windowed() -> Part<'static> {
    Part {
        bits: "00100 0 0000001000001 010 1 1 010 011 00100 0001001 0001001",
        lines: &[
            "chroma_format_idc=3",
            "separate_colour_plane_flag=0",
            "pic_width_in_luma_samples=64",
            "pic_height_in_luma_samples=1",
            "conformance_window_flag=1",
            "conf_win_left_offset=0",
            "conf_win_right_offset=1",
            "conf_win_top_offset=2",
            "conf_win_bottom_offset=3",
            "bit_depth_luma_minus8=8",
            "bit_depth_chroma_minus8=8",
        ],
    }
}

pub fn high() -> Part<'static> {
    Part {
        bits: "1 0000001000001 00000000000000100000000000001 0 010 011",
        lines: &[
            "chroma_format_idc=0",
            "pic_width_in_luma_samples=64",
            "pic_height_in_luma_samples=16384",
            "conformance_window_flag=0",
            "bit_depth_luma_minus8=1",
            "bit_depth_chroma_minus8=2",
        ],
    }
}

pub fn layered_15() -> Part<'static> {
    Part {
        bits: "0000 111 000010000",
        lines: &[
            "sps_video_parameter_set_id=0",
            "sps_max_sub_layers_minus1=7",
            "sps_seq_parameter_set_id=15",
        ],
    }
}

pub fn format_255() -> Part<'static> {
    Part {
        bits: "1 11111111",
        lines: &["update_rep_format_flag=1", "sps_rep_format_idx=255"],
    }
}

pub fn three_sub_layers() -> Part<'static> {
    Part {
        bits: "0000 010 1 00 0 00001 01100000000000000000000000000000 1 0 0 1 \
             0000000000000000000000000000000000000000000 0 01011101 1 1 0 1 00 00 00 00 00 00 00 0 00001 \
             01100000000000000000000000000000 1 0 0 1 0000000000000000000000000000000000000000000 0 00011110 \
             00111100 1",
        lines: &[
            "sps_video_parameter_set_id=0",
            "sps_max_sub_layers_minus1=2",
            "sps_temporal_id_nesting_flag=1",
            "profile_space=0",
            "tier_flag=0",
            "profile_idc=1",
            "compatibility_flags=1610612736",
            "progressive_source_flag=1",
            "interlaced_source_flag=0",
            "non_packed_constraint_flag=0",
            "frame_only_constraint_flag=1",
            "constraint_43bits=0",
            "constraint_last_bit=0",
            "level_idc=93",
            "sub_layer_profile_present_flag[0]=1",
            "sub_layer_level_present_flag[0]=1",
            "sub_layer_profile_present_flag[1]=0",
            "sub_layer_level_present_flag[1]=1",
            "reserved_zero_2bits[2]=0",
            "reserved_zero_2bits[3]=0",
            "reserved_zero_2bits[4]=0",
            "reserved_zero_2bits[5]=0",
            "reserved_zero_2bits[6]=0",
            "reserved_zero_2bits[7]=0",
            "profile_space[0]=0",
            "tier_flag[0]=0",
            "profile_idc[0]=1",
            "compatibility_flags[0]=1610612736",
            "progressive_source_flag[0]=1",
            "interlaced_source_flag[0]=0",
            "non_packed_constraint_flag[0]=0",
            "frame_only_constraint_flag[0]=1",
            "constraint_43bits[0]=0",
            "constraint_last_bit[0]=0",
            "sub_layer_level_idc[0]=30",
            "sub_layer_level_idc[1]=60",
            "sps_seq_parameter_set_id=0",
        ],
    }
}

pub fn three() -> Part<'static> {
    Part {
        bits: "1 1 1 1 010 1 010 011 010 1",
        lines: &[
            "sps_sub_layer_ordering_info_present_flag=1",
            "sps_max_dec_pic_buffering_minus1[0]=0",
            "sps_max_num_reorder_pics[0]=0",
            "sps_max_latency_increase_plus1[0]=0",
            "sps_max_dec_pic_buffering_minus1[1]=1",
            "sps_max_num_reorder_pics[1]=0",
            "sps_max_latency_increase_plus1[1]=1",
            "sps_max_dec_pic_buffering_minus1[2]=2",
            "sps_max_num_reorder_pics[2]=1",
            "sps_max_latency_increase_plus1[2]=0",
        ],
    }
}

pub fn highest() -> Part<'static> {
    Part {
        bits: "0 011 010 1",
        lines: &[
            "sps_sub_layer_ordering_info_present_flag=0",
            "sps_max_dec_pic_buffering_minus1[2]=2",
            "sps_max_num_reorder_pics[2]=1",
            "sps_max_latency_increase_plus1[2]=0",
        ],
    }
}

pub fn greatest() -> Part<'static> {
    Part {
        bits: "0 000010000 000010000 00100",
        lines: &[
            "sps_sub_layer_ordering_info_present_flag=0",
            "sps_max_dec_pic_buffering_minus1[2]=15",
            "sps_max_num_reorder_pics[2]=15",
            "sps_max_latency_increase_plus1[2]=3",
        ],
    }
}

pub fn lists_of_layer_2() -> Part<'static> {
    Part {
        bits: "1 1 000010",
        lines: &[
            "scaling_list_enabled_flag=1",
            "sps_infer_scaling_list_flag=1",
            "sps_scaling_list_ref_layer_id=2",
        ],
    }
}

pub fn own_default_lists() -> Part<'static> {
    Part {
        bits: "1 0 0",
        lines: &[
            "scaling_list_enabled_flag=1",
            "sps_infer_scaling_list_flag=0",
            "sps_scaling_list_data_present_flag=0",
        ],
    }
}

pub fn lists() -> Part<'static> {
    Part {
        bits: "1 1 1 010 011 1 1 1 1 1 1 1 1 1 1 1 1 1 1 0 1 0 1 0 1 0 1 0 1 0 1 0 1 0 1 0 1 0 1 0 1 0 1 0 1 0 \
             1 0 1 0 1 0 1 0 1 1 00101 00100 1 1 1 1 1 1 1 1 1 1 1 1 1 1 1 1 1 1 1 1 1 1 1 1 1 1 1 1 1 1 1 1 \
             1 1 1 1 1 1 1 1 1 1 1 1 1 1 1 1 1 1 1 1 1 1 1 1 1 1 1 1 1 1 1",
        lines: &[
            "scaling_list_enabled_flag=1",
            "sps_scaling_list_data_present_flag=1",
            "scaling_list_pred_mode_flag[0][0]=1",
            "scaling_list_delta_coef[0][0][0]=1",
            "scaling_list_delta_coef[0][0][1]=-1",
            "scaling_list_delta_coef[0][0][2]=0",
            "scaling_list_delta_coef[0][0][3]=0",
            "scaling_list_delta_coef[0][0][4]=0",
            "scaling_list_delta_coef[0][0][5]=0",
            "scaling_list_delta_coef[0][0][6]=0",
            "scaling_list_delta_coef[0][0][7]=0",
            "scaling_list_delta_coef[0][0][8]=0",
            "scaling_list_delta_coef[0][0][9]=0",
            "scaling_list_delta_coef[0][0][10]=0",
            "scaling_list_delta_coef[0][0][11]=0",
            "scaling_list_delta_coef[0][0][12]=0",
            "scaling_list_delta_coef[0][0][13]=0",
            "scaling_list_delta_coef[0][0][14]=0",
            "scaling_list_delta_coef[0][0][15]=0",
            "scaling_list_pred_mode_flag[0][1]=0",
            "scaling_list_pred_matrix_id_delta[0][1]=0",
            "scaling_list_pred_mode_flag[0][2]=0",
            "scaling_list_pred_matrix_id_delta[0][2]=0",
            "scaling_list_pred_mode_flag[0][3]=0",
            "scaling_list_pred_matrix_id_delta[0][3]=0",
            "scaling_list_pred_mode_flag[0][4]=0",
            "scaling_list_pred_matrix_id_delta[0][4]=0",
            "scaling_list_pred_mode_flag[0][5]=0",
            "scaling_list_pred_matrix_id_delta[0][5]=0",
            "scaling_list_pred_mode_flag[1][0]=0",
            "scaling_list_pred_matrix_id_delta[1][0]=0",
            "scaling_list_pred_mode_flag[1][1]=0",
            "scaling_list_pred_matrix_id_delta[1][1]=0",
            "scaling_list_pred_mode_flag[1][2]=0",
            "scaling_list_pred_matrix_id_delta[1][2]=0",
            "scaling_list_pred_mode_flag[1][3]=0",
            "scaling_list_pred_matrix_id_delta[1][3]=0",
            "scaling_list_pred_mode_flag[1][4]=0",
            "scaling_list_pred_matrix_id_delta[1][4]=0",
            "scaling_list_pred_mode_flag[1][5]=0",
            "scaling_list_pred_matrix_id_delta[1][5]=0",
            "scaling_list_pred_mode_flag[2][0]=0",
            "scaling_list_pred_matrix_id_delta[2][0]=0",
            "scaling_list_pred_mode_flag[2][1]=0",
            "scaling_list_pred_matrix_id_delta[2][1]=0",
            "scaling_list_pred_mode_flag[2][2]=0",
            "scaling_list_pred_matrix_id_delta[2][2]=0",
            "scaling_list_pred_mode_flag[2][3]=0",
            "scaling_list_pred_matrix_id_delta[2][3]=0",
            "scaling_list_pred_mode_flag[2][4]=0",
            "scaling_list_pred_matrix_id_delta[2][4]=0",
            "scaling_list_pred_mode_flag[2][5]=0",
            "scaling_list_pred_matrix_id_delta[2][5]=0",
            "scaling_list_pred_mode_flag[3][0]=0",
            "scaling_list_pred_matrix_id_delta[3][0]=0",
            "scaling_list_pred_mode_flag[3][3]=1",
            "scaling_list_dc_coef_minus8[3][3]=-2",
            "scaling_list_delta_coef[3][3][0]=2",
            "scaling_list_delta_coef[3][3][1]=0",
            "scaling_list_delta_coef[3][3][2]=0",
            "scaling_list_delta_coef[3][3][3]=0",
            "scaling_list_delta_coef[3][3][4]=0",
            "scaling_list_delta_coef[3][3][5]=0",
            "scaling_list_delta_coef[3][3][6]=0",
            "scaling_list_delta_coef[3][3][7]=0",
            "scaling_list_delta_coef[3][3][8]=0",
            "scaling_list_delta_coef[3][3][9]=0",
            "scaling_list_delta_coef[3][3][10]=0",
            "scaling_list_delta_coef[3][3][11]=0",
            "scaling_list_delta_coef[3][3][12]=0",
            "scaling_list_delta_coef[3][3][13]=0",
            "scaling_list_delta_coef[3][3][14]=0",
            "scaling_list_delta_coef[3][3][15]=0",
            "scaling_list_delta_coef[3][3][16]=0",
            "scaling_list_delta_coef[3][3][17]=0",
            "scaling_list_delta_coef[3][3][18]=0",
            "scaling_list_delta_coef[3][3][19]=0",
            "scaling_list_delta_coef[3][3][20]=0",
            "scaling_list_delta_coef[3][3][21]=0",
            "scaling_list_delta_coef[3][3][22]=0",
            "scaling_list_delta_coef[3][3][23]=0",
            "scaling_list_delta_coef[3][3][24]=0",
            "scaling_list_delta_coef[3][3][25]=0",
            "scaling_list_delta_coef[3][3][26]=0",
            "scaling_list_delta_coef[3][3][27]=0",
            "scaling_list_delta_coef[3][3][28]=0",
            "scaling_list_delta_coef[3][3][29]=0",
            "scaling_list_delta_coef[3][3][30]=0",
            "scaling_list_delta_coef[3][3][31]=0",
            "scaling_list_delta_coef[3][3][32]=0",
            "scaling_list_delta_coef[3][3][33]=0",
            "scaling_list_delta_coef[3][3][34]=0",
            "scaling_list_delta_coef[3][3][35]=0",
            "scaling_list_delta_coef[3][3][36]=0",
            "scaling_list_delta_coef[3][3][37]=0",
            "scaling_list_delta_coef[3][3][38]=0",
            "scaling_list_delta_coef[3][3][39]=0",
            "scaling_list_delta_coef[3][3][40]=0",
            "scaling_list_delta_coef[3][3][41]=0",
            "scaling_list_delta_coef[3][3][42]=0",
            "scaling_list_delta_coef[3][3][43]=0",
            "scaling_list_delta_coef[3][3][44]=0",
            "scaling_list_delta_coef[3][3][45]=0",
            "scaling_list_delta_coef[3][3][46]=0",
            "scaling_list_delta_coef[3][3][47]=0",
            "scaling_list_delta_coef[3][3][48]=0",
            "scaling_list_delta_coef[3][3][49]=0",
            "scaling_list_delta_coef[3][3][50]=0",
            "scaling_list_delta_coef[3][3][51]=0",
            "scaling_list_delta_coef[3][3][52]=0",
            "scaling_list_delta_coef[3][3][53]=0",
            "scaling_list_delta_coef[3][3][54]=0",
            "scaling_list_delta_coef[3][3][55]=0",
            "scaling_list_delta_coef[3][3][56]=0",
            "scaling_list_delta_coef[3][3][57]=0",
            "scaling_list_delta_coef[3][3][58]=0",
            "scaling_list_delta_coef[3][3][59]=0",
            "scaling_list_delta_coef[3][3][60]=0",
            "scaling_list_delta_coef[3][3][61]=0",
            "scaling_list_delta_coef[3][3][62]=0",
            "scaling_list_delta_coef[3][3][63]=0",
        ],
    }
}

pub fn all_tools() -> Part<'static> {
    Part {
        bits: "1 1 1 0111 0110 1 010 1",
        lines: &[
            "amp_enabled_flag=1",
            "sample_adaptive_offset_enabled_flag=1",
            "pcm_enabled_flag=1",
            "pcm_sample_bit_depth_luma_minus1=7",
            "pcm_sample_bit_depth_chroma_minus1=6",
            "log2_min_pcm_luma_coding_block_size_minus3=0",
            "log2_diff_max_min_pcm_luma_coding_block_size=1",
            "pcm_loop_filter_disabled_flag=1",
        ],
    }
}

pub fn five_bits() -> Part<'static> {
    Part {
        bits: "010",
        lines: &["log2_max_pic_order_cnt_lsb_minus4=1"],
    }
}

pub fn references() -> Part<'static> {
    Part {
        bits: "011 010 1 1 1 1 0 1 0 1 1 1 010 10101 1",
        lines: &[
            "num_short_term_ref_pic_sets=2",
            "num_negative_pics[0]=1",
            "num_positive_pics[0]=0",
            "delta_poc_s0_minus1[0][0]=0",
            "used_by_curr_pic_s0_flag[0][0]=1",
            "inter_ref_pic_set_prediction_flag[1]=1",
            "delta_rps_sign[1]=0",
            "abs_delta_rps_minus1[1]=0",
            "used_by_curr_pic_flag[1][0]=0",
            "use_delta_flag[1][0]=1",
            "used_by_curr_pic_flag[1][1]=1",
            "long_term_ref_pics_present_flag=1",
            "num_long_term_ref_pics_sps=1",
            "lt_ref_pic_poc_lsb_sps[0]=21",
            "used_by_curr_pic_lt_sps_flag[0]=1",
        ],
    }
}

pub fn decoder() -> Part<'static> {
    Part {
        bits: "1 0 0 0 0 0 0 0 0 1 00000000000000000000000000000001 00000000000000000000000000011001 0 1 0 0 1 \
             1 1 0 1 1 1 0 0 1 0",
        lines: &[
            "vui_parameters_present_flag=1",
            "aspect_ratio_info_present_flag=0",
            "overscan_info_present_flag=0",
            "video_signal_type_present_flag=0",
            "chroma_loc_info_present_flag=0",
            "neutral_chroma_indication_flag=0",
            "field_seq_flag=0",
            "frame_field_info_present_flag=0",
            "default_display_window_flag=0",
            "vui_timing_info_present_flag=1",
            "vui_num_units_in_tick=1",
            "vui_time_scale=25",
            "vui_poc_proportional_to_timing_flag=0",
            "vui_hrd_parameters_present_flag=1",
            "nal_hrd_parameters_present_flag=0",
            "vcl_hrd_parameters_present_flag=0",
            "fixed_pic_rate_general_flag[0]=1",
            "elemental_duration_in_tc_minus1[0]=0",
            "cpb_cnt_minus1[0]=0",
            "fixed_pic_rate_general_flag[1]=0",
            "fixed_pic_rate_within_cvs_flag[1]=1",
            "elemental_duration_in_tc_minus1[1]=0",
            "cpb_cnt_minus1[1]=0",
            "fixed_pic_rate_general_flag[2]=0",
            "fixed_pic_rate_within_cvs_flag[2]=0",
            "low_delay_hrd_flag[2]=1",
            "bitstream_restriction_flag=0",
        ],
    }
}

pub fn two_levels() -> Part<'static> {
    Part {
        bits: "0000 001 1 00 0 00001 01100000000000000000000000000000 1 0 0 1 \
             0000000000000000000000000000000000000000000 0 01011101 0 1 00 00 00 00 00 00 00 00111100 1",
        lines: &[
            "sps_video_parameter_set_id=0",
            "sps_max_sub_layers_minus1=1",
            "sps_temporal_id_nesting_flag=1",
            "profile_space=0",
            "tier_flag=0",
            "profile_idc=1",
            "compatibility_flags=1610612736",
            "progressive_source_flag=1",
            "interlaced_source_flag=0",
            "non_packed_constraint_flag=0",
            "frame_only_constraint_flag=1",
            "constraint_43bits=0",
            "constraint_last_bit=0",
            "level_idc=93",
            "sub_layer_profile_present_flag[0]=0",
            "sub_layer_level_present_flag[0]=1",
            "reserved_zero_2bits[1]=0",
            "reserved_zero_2bits[2]=0",
            "reserved_zero_2bits[3]=0",
            "reserved_zero_2bits[4]=0",
            "reserved_zero_2bits[5]=0",
            "reserved_zero_2bits[6]=0",
            "reserved_zero_2bits[7]=0",
            "sub_layer_level_idc[0]=60",
            "sps_seq_parameter_set_id=0",
        ],
    }
}

pub fn second() -> Part<'static> {
    Part {
        bits: "0 1 1 1",
        lines: &[
            "sps_sub_layer_ordering_info_present_flag=0",
            "sps_max_dec_pic_buffering_minus1[1]=0",
            "sps_max_num_reorder_pics[1]=0",
            "sps_max_latency_increase_plus1[1]=0",
        ],
    }
}

pub fn candidate() -> Part<'static> {
    Part {
        bits: "010 1 1 1 010 1010 1",
        lines: &[
            "num_short_term_ref_pic_sets=1",
            "num_negative_pics[0]=0",
            "num_positive_pics[0]=0",
            "long_term_ref_pics_present_flag=1",
            "num_long_term_ref_pics_sps=1",
            "lt_ref_pic_poc_lsb_sps[0]=10",
            "used_by_curr_pic_lt_sps_flag[0]=1",
        ],
    }
}

pub fn whole_vui() -> Part<'static> {
    Part {
        bits: "1 1 11111111 0000000000010000 0000000000001011 1 0 1 101 1 1 00000001 00000010 00000011 1 1 010 \
             1 0 1 1 1 010 011 00100 1 00000000000000000000000000000001 00000000000000000000000000011001 1 \
             011 1 1 1 1 00000101 00011 1 00100 0001 0010 0011 10111 01111 00111 1 1 010 010 1 010 011 1 1 1 \
             010 011 1 010 1 010 011 1 1 1 010 011 1 0 1 1 1 1 1 010 011 1 011 1 010 011 1 1 1 0 1 1 010 011 \
             00100 00101",
        lines: &[
            "vui_parameters_present_flag=1",
            "aspect_ratio_info_present_flag=1",
            "aspect_ratio_idc=255",
            "sar_width=16",
            "sar_height=11",
            "overscan_info_present_flag=1",
            "overscan_appropriate_flag=0",
            "video_signal_type_present_flag=1",
            "video_format=5",
            "video_full_range_flag=1",
            "colour_description_present_flag=1",
            "colour_primaries=1",
            "transfer_characteristics=2",
            "matrix_coeffs=3",
            "chroma_loc_info_present_flag=1",
            "chroma_sample_loc_type_top_field=0",
            "chroma_sample_loc_type_bottom_field=1",
            "neutral_chroma_indication_flag=1",
            "field_seq_flag=0",
            "frame_field_info_present_flag=1",
            "default_display_window_flag=1",
            "def_disp_win_left_offset=0",
            "def_disp_win_right_offset=1",
            "def_disp_win_top_offset=2",
            "def_disp_win_bottom_offset=3",
            "vui_timing_info_present_flag=1",
            "vui_num_units_in_tick=1",
            "vui_time_scale=25",
            "vui_poc_proportional_to_timing_flag=1",
            "vui_num_ticks_poc_diff_one_minus1=2",
            "vui_hrd_parameters_present_flag=1",
            "nal_hrd_parameters_present_flag=1",
            "vcl_hrd_parameters_present_flag=1",
            "sub_pic_hrd_params_present_flag=1",
            "tick_divisor_minus2=5",
            "du_cpb_removal_delay_increment_length_minus1=3",
            "sub_pic_cpb_params_in_pic_timing_sei_flag=1",
            "dpb_output_delay_du_length_minus1=4",
            "bit_rate_scale=1",
            "cpb_size_scale=2",
            "cpb_size_du_scale=3",
            "initial_cpb_removal_delay_length_minus1=23",
            "au_cpb_removal_delay_length_minus1=15",
            "dpb_output_delay_length_minus1=7",
            "fixed_pic_rate_general_flag[0]=1",
            "elemental_duration_in_tc_minus1[0]=0",
            "cpb_cnt_minus1[0]=1",
            "bit_rate_value_minus1[0][0]=1",
            "cpb_size_value_minus1[0][0]=0",
            "cpb_size_du_value_minus1[0][0]=1",
            "bit_rate_du_value_minus1[0][0]=2",
            "cbr_flag[0][0]=1",
            "bit_rate_value_minus1[0][1]=0",
            "cpb_size_value_minus1[0][1]=0",
            "cpb_size_du_value_minus1[0][1]=1",
            "bit_rate_du_value_minus1[0][1]=2",
            "cbr_flag[0][1]=1",
            "bit_rate_value_minus1[0][0]=1",
            "cpb_size_value_minus1[0][0]=0",
            "cpb_size_du_value_minus1[0][0]=1",
            "bit_rate_du_value_minus1[0][0]=2",
            "cbr_flag[0][0]=1",
            "bit_rate_value_minus1[0][1]=0",
            "cpb_size_value_minus1[0][1]=0",
            "cpb_size_du_value_minus1[0][1]=1",
            "bit_rate_du_value_minus1[0][1]=2",
            "cbr_flag[0][1]=1",
            "fixed_pic_rate_general_flag[1]=0",
            "fixed_pic_rate_within_cvs_flag[1]=1",
            "elemental_duration_in_tc_minus1[1]=0",
            "cpb_cnt_minus1[1]=0",
            "bit_rate_value_minus1[1][0]=0",
            "cpb_size_value_minus1[1][0]=0",
            "cpb_size_du_value_minus1[1][0]=1",
            "bit_rate_du_value_minus1[1][0]=2",
            "cbr_flag[1][0]=1",
            "bit_rate_value_minus1[1][0]=2",
            "cpb_size_value_minus1[1][0]=0",
            "cpb_size_du_value_minus1[1][0]=1",
            "bit_rate_du_value_minus1[1][0]=2",
            "cbr_flag[1][0]=1",
            "bitstream_restriction_flag=1",
            "tiles_fixed_structure_flag=1",
            "motion_vectors_over_pic_boundaries_flag=0",
            "restricted_ref_pic_lists_flag=1",
            "min_spatial_segmentation_idc=0",
            "max_bytes_per_pic_denom=1",
            "max_bits_per_min_cu_denom=2",
            "log2_max_mv_length_horizontal=3",
            "log2_max_mv_length_vertical=4",
        ],
    }
}

pub fn unknown() -> Part<'static> {
    Part {
        bits: "1 0 0 0 0 1001",
        lines: &[
            "sps_extension_present_flag=1",
            "sps_range_extension_flag=0",
            "sps_multilayer_extension_flag=0",
            "sps_3d_extension_flag=0",
            "sps_scc_extension_flag=0",
            "sps_extension_4bits=9",
        ],
    }
}

pub fn tail() -> Part<'static> {
    Part {
        bits: "101",
        lines: &["tail=3"],
    }
}

pub fn no_tail() -> Part<'static> {
    Part {
        bits: "",
        lines: &["tail=0"],
    }
}

pub fn both_extensions() -> Part<'static> {
    Part {
        bits: "1 0 1 0 0 1000 1",
        lines: &[
            "sps_extension_present_flag=1",
            "sps_range_extension_flag=0",
            "sps_multilayer_extension_flag=1",
            "sps_3d_extension_flag=0",
            "sps_scc_extension_flag=0",
            "sps_extension_4bits=8",
            "inter_view_mv_vert_constraint_flag=1",
        ],
    }
}

pub fn short_tail() -> Part<'static> {
    Part {
        bits: "0",
        lines: &["tail=1"],
    }
}
