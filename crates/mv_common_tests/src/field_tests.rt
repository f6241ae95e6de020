//! Shared structures that the tests show: field by field, the bits of each and the line that shows it, and member by member. Each
//! is a function's, since the check of a function costs what the texts that stand in it cost.

/// The fields of a structure, and the value that they are, as `Debug` tells it.
#[derive(Clone, Copy)]
pub struct Row {
    pub fields: &'static str,
    pub value: &'static str,
}

/// The general profile and level that an encoder writes.
pub fn profile_and_level() -> Row {
    Row {
        fields: "\
00 profile_space=0
0 tier_flag=0
00001 profile_idc=1
01100000000000000000000000000000 compatibility_flags=1610612736
1 progressive_source_flag=1
0 interlaced_source_flag=0
0 non_packed_constraint_flag=0
1 frame_only_constraint_flag=1
0000000000000000000000000000000000000000000 constraint_43bits=0
0 constraint_last_bit=0
00011110 level_idc=30
",
        value: "ProfileTier { profile: Some(Profile { profile_space: 0, tier_flag: 0, profile_idc: 1, \
             compatibility_flags: 1610612736, progressive_source_flag: 1, interlaced_source_flag: 0, \
             non_packed_constraint_flag: 0, frame_only_constraint_flag: 1, constraint_43bits: 0, constraint_last_bit: \
             0 }), level_idc: 30, sub_layer_profile_present_flag: [], sub_layer_level_present_flag: [], \
             reserved_zero_2bits: None, sub_layer_profile: [], sub_layer_level_idc: [] }",
    }
}

/// Of two sub-layers one has a profile, and one a level.
pub fn sub_layer_profile_and_level() -> Row {
    Row {
        fields: "\
01011101 level_idc=93
1 sub_layer_profile_present_flag[0]=1
0 sub_layer_level_present_flag[0]=0
0 sub_layer_profile_present_flag[1]=0
1 sub_layer_level_present_flag[1]=1
00 reserved_zero_2bits[2]=0
00 reserved_zero_2bits[3]=0
00 reserved_zero_2bits[4]=0
00 reserved_zero_2bits[5]=0
00 reserved_zero_2bits[6]=0
00 reserved_zero_2bits[7]=0
00 profile_space[0]=0
0 tier_flag[0]=0
00001 profile_idc[0]=1
01100000000000000000000000000000 compatibility_flags[0]=1610612736
1 progressive_source_flag[0]=1
0 interlaced_source_flag[0]=0
0 non_packed_constraint_flag[0]=0
1 frame_only_constraint_flag[0]=1
0000000000000000000000000000000000000000000 constraint_43bits[0]=0
0 constraint_last_bit[0]=0
00111100 sub_layer_level_idc[1]=60
",
        value: "ProfileTier { profile: None, level_idc: 93, sub_layer_profile_present_flag: [1, 0], \
             sub_layer_level_present_flag: [0, 1], reserved_zero_2bits: Some([0, 0, 0, 0, 0, 0]), sub_layer_profile: \
             [Some(Profile { profile_space: 0, tier_flag: 0, profile_idc: 1, compatibility_flags: 1610612736, \
             progressive_source_flag: 1, interlaced_source_flag: 0, non_packed_constraint_flag: 0, \
             frame_only_constraint_flag: 1, constraint_43bits: 0, constraint_last_bit: 0 }), None], \
             sub_layer_level_idc: [None, Some(60)] }",
    }
}

/// No schedules.
pub fn shortest_hrd() -> Row {
    Row {
        fields: "\
0 nal_hrd_parameters_present_flag=0
0 vcl_hrd_parameters_present_flag=0
1 fixed_pic_rate_general_flag[0]=1
1 elemental_duration_in_tc_minus1[0]=0
1 cpb_cnt_minus1[0]=0
",
        value: "Hrd { common: Some(HrdCommon { nal_hrd_parameters_present_flag: 0, vcl_hrd_parameters_present_flag: 0, \
             sub_pic_hrd_params_present_flag: None, tick_divisor_minus2: None, \
             du_cpb_removal_delay_increment_length_minus1: None, sub_pic_cpb_params_in_pic_timing_sei_flag: None, \
             dpb_output_delay_du_length_minus1: None, bit_rate_scale: None, cpb_size_scale: None, cpb_size_du_scale: \
             None, initial_cpb_removal_delay_length_minus1: None, au_cpb_removal_delay_length_minus1: None, \
             dpb_output_delay_length_minus1: None }), sub_layers: [HrdSubLayer { fixed_pic_rate_general_flag: 1, \
             fixed_pic_rate_within_cvs_flag: None, elemental_duration_in_tc_minus1: Some(0), low_delay_hrd_flag: None, \
             cpb_cnt_minus1: Some(0), nal_sub_layer_hrd: None, vcl_sub_layer_hrd: None }] }",
    }
}

/// Both kinds of schedules, with sub-pictures.
pub fn whole_hrd() -> Row {
    Row {
        fields: "\
1 nal_hrd_parameters_present_flag=1
1 vcl_hrd_parameters_present_flag=1
1 sub_pic_hrd_params_present_flag=1
01100100 tick_divisor_minus2=100
00011 du_cpb_removal_delay_increment_length_minus1=3
1 sub_pic_cpb_params_in_pic_timing_sei_flag=1
00100 dpb_output_delay_du_length_minus1=4
0001 bit_rate_scale=1
0010 cpb_size_scale=2
0011 cpb_size_du_scale=3
10111 initial_cpb_removal_delay_length_minus1=23
01111 au_cpb_removal_delay_length_minus1=15
00101 dpb_output_delay_length_minus1=5
0 fixed_pic_rate_general_flag[0]=0
0 fixed_pic_rate_within_cvs_flag[0]=0
0 low_delay_hrd_flag[0]=0
010 cpb_cnt_minus1[0]=1
1 bit_rate_value_minus1[0][0]=0
010 cpb_size_value_minus1[0][0]=1
011 cpb_size_du_value_minus1[0][0]=2
00100 bit_rate_du_value_minus1[0][0]=3
1 cbr_flag[0][0]=1
00101 bit_rate_value_minus1[0][1]=4
00110 cpb_size_value_minus1[0][1]=5
00111 cpb_size_du_value_minus1[0][1]=6
0001000 bit_rate_du_value_minus1[0][1]=7
0 cbr_flag[0][1]=0
1 bit_rate_value_minus1[0][0]=0
1 cpb_size_value_minus1[0][0]=0
1 cpb_size_du_value_minus1[0][0]=0
1 bit_rate_du_value_minus1[0][0]=0
0 cbr_flag[0][0]=0
1 bit_rate_value_minus1[0][1]=0
1 cpb_size_value_minus1[0][1]=0
1 cpb_size_du_value_minus1[0][1]=0
1 bit_rate_du_value_minus1[0][1]=0
1 cbr_flag[0][1]=1
",
        value: "Hrd { common: Some(HrdCommon { nal_hrd_parameters_present_flag: 1, vcl_hrd_parameters_present_flag: 1, \
             sub_pic_hrd_params_present_flag: Some(1), tick_divisor_minus2: Some(100), \
             du_cpb_removal_delay_increment_length_minus1: Some(3), sub_pic_cpb_params_in_pic_timing_sei_flag: \
             Some(1), dpb_output_delay_du_length_minus1: Some(4), bit_rate_scale: Some(1), cpb_size_scale: Some(2), \
             cpb_size_du_scale: Some(3), initial_cpb_removal_delay_length_minus1: Some(23), \
             au_cpb_removal_delay_length_minus1: Some(15), dpb_output_delay_length_minus1: Some(5) }), sub_layers: \
             [HrdSubLayer { fixed_pic_rate_general_flag: 0, fixed_pic_rate_within_cvs_flag: Some(0), \
             elemental_duration_in_tc_minus1: None, low_delay_hrd_flag: Some(0), cpb_cnt_minus1: Some(1), \
             nal_sub_layer_hrd: Some([Cpb { bit_rate_value_minus1: 0, cpb_size_value_minus1: 1, \
             cpb_size_du_value_minus1: Some(2), bit_rate_du_value_minus1: Some(3), cbr_flag: 1 }, Cpb { \
             bit_rate_value_minus1: 4, cpb_size_value_minus1: 5, cpb_size_du_value_minus1: Some(6), \
             bit_rate_du_value_minus1: Some(7), cbr_flag: 0 }]), vcl_sub_layer_hrd: Some([Cpb { bit_rate_value_minus1: \
             0, cpb_size_value_minus1: 0, cpb_size_du_value_minus1: Some(0), bit_rate_du_value_minus1: Some(0), \
             cbr_flag: 0 }, Cpb { bit_rate_value_minus1: 0, cpb_size_value_minus1: 0, cpb_size_du_value_minus1: \
             Some(0), bit_rate_du_value_minus1: Some(0), cbr_flag: 1 }]) }] }",
    }
}

/// The flags of the hrd_parameters before, and low delay, where cpb_cnt_minus1 is left out.
pub fn hrd_by_flags_before() -> Row {
    Row {
        fields: "\
0 fixed_pic_rate_general_flag[0]=0
0 fixed_pic_rate_within_cvs_flag[0]=0
1 low_delay_hrd_flag[0]=1
1 bit_rate_value_minus1[0][0]=0
1 cpb_size_value_minus1[0][0]=0
0 cbr_flag[0][0]=0
",
        value: "Hrd { common: None, sub_layers: [HrdSubLayer { fixed_pic_rate_general_flag: 0, \
             fixed_pic_rate_within_cvs_flag: Some(0), elemental_duration_in_tc_minus1: None, low_delay_hrd_flag: \
             Some(1), cpb_cnt_minus1: None, nal_sub_layer_hrd: Some([Cpb { bit_rate_value_minus1: 0, \
             cpb_size_value_minus1: 0, cpb_size_du_value_minus1: None, bit_rate_du_value_minus1: None, cbr_flag: 0 \
             }]), vcl_sub_layer_hrd: None }] }",
    }
}

pub fn empty_vui() -> Row {
    Row {
        fields: "\
0 aspect_ratio_info_present_flag=0
0 overscan_info_present_flag=0
0 video_signal_type_present_flag=0
0 chroma_loc_info_present_flag=0
0 neutral_chroma_indication_flag=0
0 field_seq_flag=0
0 frame_field_info_present_flag=0
0 default_display_window_flag=0
0 vui_timing_info_present_flag=0
0 bitstream_restriction_flag=0
",
        value: "Vui { aspect_ratio: AspectRatio { aspect_ratio_info_present_flag: 0, aspect_ratio_idc: None, sar_width: \
             None, sar_height: None }, overscan: Overscan { overscan_info_present_flag: 0, overscan_appropriate_flag: \
             None }, video_signal_type: VideoSignalType { video_signal_type_present_flag: 0, video_format: None, \
             video_full_range_flag: None, colour_description_present_flag: None, colour_primaries: None, \
             transfer_characteristics: None, matrix_coeffs: None }, chroma_location: ChromaLocation { \
             chroma_loc_info_present_flag: 0, chroma_sample_loc_type_top_field: None, \
             chroma_sample_loc_type_bottom_field: None }, neutral_chroma_indication_flag: 0, field_seq_flag: 0, \
             frame_field_info_present_flag: 0, display_window: DisplayWindow { default_display_window_flag: 0, \
             def_disp_win_left_offset: None, def_disp_win_right_offset: None, def_disp_win_top_offset: None, \
             def_disp_win_bottom_offset: None }, timing: VuiTiming { vui_timing_info_present_flag: 0, \
             vui_num_units_in_tick: None, vui_time_scale: None, vui_poc_proportional_to_timing_flag: None, \
             vui_num_ticks_poc_diff_one_minus1: None, vui_hrd_parameters_present_flag: None, hrd_parameters: None }, \
             bitstream_restriction: BitstreamRestriction { bitstream_restriction_flag: 0, tiles_fixed_structure_flag: \
             None, motion_vectors_over_pic_boundaries_flag: None, restricted_ref_pic_lists_flag: None, \
             min_spatial_segmentation_idc: None, max_bytes_per_pic_denom: None, max_bits_per_min_cu_denom: None, \
             log2_max_mv_length_horizontal: None, log2_max_mv_length_vertical: None } }",
    }
}

/// Every condition holds.
pub fn whole_vui() -> Row {
    Row {
        fields: "\
1 aspect_ratio_info_present_flag=1
11111111 aspect_ratio_idc=255
0000000000000100 sar_width=4
0000000000000011 sar_height=3
1 overscan_info_present_flag=1
1 overscan_appropriate_flag=1
1 video_signal_type_present_flag=1
101 video_format=5
0 video_full_range_flag=0
1 colour_description_present_flag=1
00001001 colour_primaries=9
00010000 transfer_characteristics=16
00001001 matrix_coeffs=9
1 chroma_loc_info_present_flag=1
011 chroma_sample_loc_type_top_field=2
00100 chroma_sample_loc_type_bottom_field=3
0 neutral_chroma_indication_flag=0
1 field_seq_flag=1
1 frame_field_info_present_flag=1
1 default_display_window_flag=1
1 def_disp_win_left_offset=0
010 def_disp_win_right_offset=1
011 def_disp_win_top_offset=2
00100 def_disp_win_bottom_offset=3
1 vui_timing_info_present_flag=1
00000000000000000000001111101001 vui_num_units_in_tick=1001
00000000000000001110101001100000 vui_time_scale=60000
1 vui_poc_proportional_to_timing_flag=1
1 vui_num_ticks_poc_diff_one_minus1=0
1 vui_hrd_parameters_present_flag=1
0 nal_hrd_parameters_present_flag=0
0 vcl_hrd_parameters_present_flag=0
1 fixed_pic_rate_general_flag[0]=1
1 elemental_duration_in_tc_minus1[0]=0
1 cpb_cnt_minus1[0]=0
1 bitstream_restriction_flag=1
0 tiles_fixed_structure_flag=0
1 motion_vectors_over_pic_boundaries_flag=1
1 restricted_ref_pic_lists_flag=1
1 min_spatial_segmentation_idc=0
011 max_bytes_per_pic_denom=2
010 max_bits_per_min_cu_denom=1
000010000 log2_max_mv_length_horizontal=15
0001111 log2_max_mv_length_vertical=14
",
        value: "Vui { aspect_ratio: AspectRatio { aspect_ratio_info_present_flag: 1, aspect_ratio_idc: Some(255), \
             sar_width: Some(4), sar_height: Some(3) }, overscan: Overscan { overscan_info_present_flag: 1, \
             overscan_appropriate_flag: Some(1) }, video_signal_type: VideoSignalType { \
             video_signal_type_present_flag: 1, video_format: Some(5), video_full_range_flag: Some(0), \
             colour_description_present_flag: Some(1), colour_primaries: Some(9), transfer_characteristics: Some(16), \
             matrix_coeffs: Some(9) }, chroma_location: ChromaLocation { chroma_loc_info_present_flag: 1, \
             chroma_sample_loc_type_top_field: Some(2), chroma_sample_loc_type_bottom_field: Some(3) }, \
             neutral_chroma_indication_flag: 0, field_seq_flag: 1, frame_field_info_present_flag: 1, display_window: \
             DisplayWindow { default_display_window_flag: 1, def_disp_win_left_offset: Some(0), \
             def_disp_win_right_offset: Some(1), def_disp_win_top_offset: Some(2), def_disp_win_bottom_offset: Some(3) \
             }, timing: VuiTiming { vui_timing_info_present_flag: 1, vui_num_units_in_tick: Some(1001), \
             vui_time_scale: Some(60000), vui_poc_proportional_to_timing_flag: Some(1), \
             vui_num_ticks_poc_diff_one_minus1: Some(0), vui_hrd_parameters_present_flag: Some(1), hrd_parameters: \
             Some(Hrd { common: Some(HrdCommon { nal_hrd_parameters_present_flag: 0, vcl_hrd_parameters_present_flag: \
             0, sub_pic_hrd_params_present_flag: None, tick_divisor_minus2: None, \
             du_cpb_removal_delay_increment_length_minus1: None, sub_pic_cpb_params_in_pic_timing_sei_flag: None, \
             dpb_output_delay_du_length_minus1: None, bit_rate_scale: None, cpb_size_scale: None, cpb_size_du_scale: \
             None, initial_cpb_removal_delay_length_minus1: None, au_cpb_removal_delay_length_minus1: None, \
             dpb_output_delay_length_minus1: None }), sub_layers: [HrdSubLayer { fixed_pic_rate_general_flag: 1, \
             fixed_pic_rate_within_cvs_flag: None, elemental_duration_in_tc_minus1: Some(0), low_delay_hrd_flag: None, \
             cpb_cnt_minus1: Some(0), nal_sub_layer_hrd: None, vcl_sub_layer_hrd: None }] }) }, bitstream_restriction: \
             BitstreamRestriction { bitstream_restriction_flag: 1, tiles_fixed_structure_flag: Some(0), \
             motion_vectors_over_pic_boundaries_flag: Some(1), restricted_ref_pic_lists_flag: Some(1), \
             min_spatial_segmentation_idc: Some(0), max_bytes_per_pic_denom: Some(2), max_bits_per_min_cu_denom: \
             Some(1), log2_max_mv_length_horizontal: Some(15), log2_max_mv_length_vertical: Some(14) } }",
    }
}

/// What an encoder writes of a display of its own.
pub fn encoder_vui() -> Row {
    Row {
        fields: "\
1 aspect_ratio_info_present_flag=1
00000100 aspect_ratio_idc=4
1 overscan_info_present_flag=1
0 overscan_appropriate_flag=0
1 video_signal_type_present_flag=1
001 video_format=1
1 video_full_range_flag=1
1 colour_description_present_flag=1
00000001 colour_primaries=1
00000001 transfer_characteristics=1
00000001 matrix_coeffs=1
1 chroma_loc_info_present_flag=1
010 chroma_sample_loc_type_top_field=1
010 chroma_sample_loc_type_bottom_field=1
0 neutral_chroma_indication_flag=0
0 field_seq_flag=0
0 frame_field_info_present_flag=0
1 default_display_window_flag=1
011 def_disp_win_left_offset=2
00101 def_disp_win_right_offset=4
1 def_disp_win_top_offset=0
1 def_disp_win_bottom_offset=0
1 vui_timing_info_present_flag=1
00000000000000000000001111101000 vui_num_units_in_tick=1000
00000000000000000110000110101000 vui_time_scale=25000
0 vui_poc_proportional_to_timing_flag=0
0 vui_hrd_parameters_present_flag=0
0 bitstream_restriction_flag=0
",
        value: "Vui { aspect_ratio: AspectRatio { aspect_ratio_info_present_flag: 1, aspect_ratio_idc: Some(4), \
             sar_width: None, sar_height: None }, overscan: Overscan { overscan_info_present_flag: 1, \
             overscan_appropriate_flag: Some(0) }, video_signal_type: VideoSignalType { \
             video_signal_type_present_flag: 1, video_format: Some(1), video_full_range_flag: Some(1), \
             colour_description_present_flag: Some(1), colour_primaries: Some(1), transfer_characteristics: Some(1), \
             matrix_coeffs: Some(1) }, chroma_location: ChromaLocation { chroma_loc_info_present_flag: 1, \
             chroma_sample_loc_type_top_field: Some(1), chroma_sample_loc_type_bottom_field: Some(1) }, \
             neutral_chroma_indication_flag: 0, field_seq_flag: 0, frame_field_info_present_flag: 0, display_window: \
             DisplayWindow { default_display_window_flag: 1, def_disp_win_left_offset: Some(2), \
             def_disp_win_right_offset: Some(4), def_disp_win_top_offset: Some(0), def_disp_win_bottom_offset: Some(0) \
             }, timing: VuiTiming { vui_timing_info_present_flag: 1, vui_num_units_in_tick: Some(1000), \
             vui_time_scale: Some(25000), vui_poc_proportional_to_timing_flag: Some(0), \
             vui_num_ticks_poc_diff_one_minus1: None, vui_hrd_parameters_present_flag: Some(0), hrd_parameters: None \
             }, bitstream_restriction: BitstreamRestriction { bitstream_restriction_flag: 0, \
             tiles_fixed_structure_flag: None, motion_vectors_over_pic_boundaries_flag: None, \
             restricted_ref_pic_lists_flag: None, min_spatial_segmentation_idc: None, max_bytes_per_pic_denom: None, \
             max_bits_per_min_cu_denom: None, log2_max_mv_length_horizontal: None, log2_max_mv_length_vertical: None } \
             }",
    }
}

/// What an encoder writes of a hypothetical reference decoder with two sub-layers.
pub fn encoder_hrd() -> Row {
    Row {
        fields: "\
0 aspect_ratio_info_present_flag=0
0 overscan_info_present_flag=0
0 video_signal_type_present_flag=0
0 chroma_loc_info_present_flag=0
0 neutral_chroma_indication_flag=0
0 field_seq_flag=0
0 frame_field_info_present_flag=0
0 default_display_window_flag=0
1 vui_timing_info_present_flag=1
00000000000000000000001111101000 vui_num_units_in_tick=1000
00000000000000000110000110101000 vui_time_scale=25000
0 vui_poc_proportional_to_timing_flag=0
1 vui_hrd_parameters_present_flag=1
1 nal_hrd_parameters_present_flag=1
0 vcl_hrd_parameters_present_flag=0
0 sub_pic_hrd_params_present_flag=0
0000 bit_rate_scale=0
0010 cpb_size_scale=2
10010 initial_cpb_removal_delay_length_minus1=18
01011 au_cpb_removal_delay_length_minus1=11
00101 dpb_output_delay_length_minus1=5
1 fixed_pic_rate_general_flag[0]=1
1 elemental_duration_in_tc_minus1[0]=0
1 cpb_cnt_minus1[0]=0
000000000000011110100001001 bit_rate_value_minus1[0][0]=15624
000000000000011110100001001 cpb_size_value_minus1[0][0]=15624
0 cbr_flag[0][0]=0
1 fixed_pic_rate_general_flag[1]=1
1 elemental_duration_in_tc_minus1[1]=0
1 cpb_cnt_minus1[1]=0
000000000000011110100001001 bit_rate_value_minus1[1][0]=15624
000000000000011110100001001 cpb_size_value_minus1[1][0]=15624
0 cbr_flag[1][0]=0
0 bitstream_restriction_flag=0
",
        value: "Vui { aspect_ratio: AspectRatio { aspect_ratio_info_present_flag: 0, aspect_ratio_idc: None, sar_width: \
             None, sar_height: None }, overscan: Overscan { overscan_info_present_flag: 0, overscan_appropriate_flag: \
             None }, video_signal_type: VideoSignalType { video_signal_type_present_flag: 0, video_format: None, \
             video_full_range_flag: None, colour_description_present_flag: None, colour_primaries: None, \
             transfer_characteristics: None, matrix_coeffs: None }, chroma_location: ChromaLocation { \
             chroma_loc_info_present_flag: 0, chroma_sample_loc_type_top_field: None, \
             chroma_sample_loc_type_bottom_field: None }, neutral_chroma_indication_flag: 0, field_seq_flag: 0, \
             frame_field_info_present_flag: 0, display_window: DisplayWindow { default_display_window_flag: 0, \
             def_disp_win_left_offset: None, def_disp_win_right_offset: None, def_disp_win_top_offset: None, \
             def_disp_win_bottom_offset: None }, timing: VuiTiming { vui_timing_info_present_flag: 1, \
             vui_num_units_in_tick: Some(1000), vui_time_scale: Some(25000), vui_poc_proportional_to_timing_flag: \
             Some(0), vui_num_ticks_poc_diff_one_minus1: None, vui_hrd_parameters_present_flag: Some(1), \
             hrd_parameters: Some(Hrd { common: Some(HrdCommon { nal_hrd_parameters_present_flag: 1, \
             vcl_hrd_parameters_present_flag: 0, sub_pic_hrd_params_present_flag: Some(0), tick_divisor_minus2: None, \
             du_cpb_removal_delay_increment_length_minus1: None, sub_pic_cpb_params_in_pic_timing_sei_flag: None, \
             dpb_output_delay_du_length_minus1: None, bit_rate_scale: Some(0), cpb_size_scale: Some(2), \
             cpb_size_du_scale: None, initial_cpb_removal_delay_length_minus1: Some(18), \
             au_cpb_removal_delay_length_minus1: Some(11), dpb_output_delay_length_minus1: Some(5) }), sub_layers: \
             [HrdSubLayer { fixed_pic_rate_general_flag: 1, fixed_pic_rate_within_cvs_flag: None, \
             elemental_duration_in_tc_minus1: Some(0), low_delay_hrd_flag: None, cpb_cnt_minus1: Some(0), \
             nal_sub_layer_hrd: Some([Cpb { bit_rate_value_minus1: 15624, cpb_size_value_minus1: 15624, \
             cpb_size_du_value_minus1: None, bit_rate_du_value_minus1: None, cbr_flag: 0 }]), vcl_sub_layer_hrd: None \
             }, HrdSubLayer { fixed_pic_rate_general_flag: 1, fixed_pic_rate_within_cvs_flag: None, \
             elemental_duration_in_tc_minus1: Some(0), low_delay_hrd_flag: None, cpb_cnt_minus1: Some(0), \
             nal_sub_layer_hrd: Some([Cpb { bit_rate_value_minus1: 15624, cpb_size_value_minus1: 15624, \
             cpb_size_du_value_minus1: None, bit_rate_du_value_minus1: None, cbr_flag: 0 }]), vcl_sub_layer_hrd: None \
             }] }) }, bitstream_restriction: BitstreamRestriction { bitstream_restriction_flag: 0, \
             tiles_fixed_structure_flag: None, motion_vectors_over_pic_boundaries_flag: None, \
             restricted_ref_pic_lists_flag: None, min_spatial_segmentation_idc: None, max_bytes_per_pic_denom: None, \
             max_bits_per_min_cu_denom: None, log2_max_mv_length_horizontal: None, log2_max_mv_length_vertical: None } \
             }",
    }
}
