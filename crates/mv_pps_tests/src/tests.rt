//! Payloads of streams, and each part in bits written by hand: read, written back, and shown line by line.

use mv_bits::BitWriter;
use mv_fields::Printer;
use mv_pps::*;
use mv_rules::{ReadFault, Rule};
use std::alloc::{AllocError, Global};
use std::process::Abort;
use std::test::Fail;

// A run of fields: its bits, zeros and ones with blanks between the fields, and the lines that show it.
#[derive(Clone, Copy)]
struct Part<'a> {
    bits: &'a str,
    lines: &'a [&'a str],
}

fn add_bits(out: &mut BitWriter, text: &str) -> Result<(), AllocError> {
    for c in text.as_bytes() {
        match c {
            b'0' => out.u(1, 0)?,
            b'1' => out.u(1, 1)?,
            _ => {}
        }
    }
    Ok(())
}

// The payload of some parts: their bits, and trailing bits.
fn payload_of(alloc: Global, parts: &[Part]) -> Result<Vec<u8>, AllocError> {
    let mut out = BitWriter::new(alloc);
    for part in parts {
        add_bits(&mut out, part.bits)?;
    }
    out.trailing()?;
    Ok(out.into_bytes())
}

fn add_lines(out: &mut Vec<u8>, lines: &[&str]) -> Result<(), AllocError> {
    for line in lines {
        out.extend_from_slice(b"  ")?;
        out.extend_from_slice(line.as_bytes())?;
        out.extend_from_slice(b"\n")?;
    }
    Ok(())
}

// The text that shows them.
fn text_of(alloc: Global, parts: &[Part]) -> Result<Vec<u8>, AllocError> {
    let mut out = Vec::new(alloc);
    for part in parts {
        add_lines(&mut out, part.lines)?;
    }
    Ok(out)
}

fn check(rt: &impl Abort, alloc: Global, parts: &[Part]) -> Result<(), Fail> {
    let payload = payload_of(alloc, parts)?;
    let text = text_of(alloc, parts)?;
    let value = read_pps(alloc, &payload).ok().ok_or("it reads")?;
    let written = write_pps(alloc, &value)?;
    assert_eq!(rt; written.as_slice(), payload.as_slice());
    let mut out = Printer::lines(alloc);
    show_pps(&mut out, &value)?;
    assert_eq!(rt; out.text(), text.as_slice());
    Ok(())
}

const OPENING: Part<'static> = Part {
    bits: "1 1 0 0 000 0 0 1 1",
    lines: &[
        "pps_pic_parameter_set_id=0",
        "pps_seq_parameter_set_id=0",
        "dependent_slice_segments_enabled_flag=0",
        "output_flag_present_flag=0",
        "num_extra_slice_header_bits=0",
        "sign_data_hiding_enabled_flag=0",
        "cabac_init_present_flag=0",
        "num_ref_idx_l0_default_active_minus1=0",
        "num_ref_idx_l1_default_active_minus1=0",
    ],
};

const SECOND: Part<'static> = Part {
    bits: "010 010 0 0 000 0 0 1 1",
    lines: &[
        "pps_pic_parameter_set_id=1",
        "pps_seq_parameter_set_id=1",
        "dependent_slice_segments_enabled_flag=0",
        "output_flag_present_flag=0",
        "num_extra_slice_header_bits=0",
        "sign_data_hiding_enabled_flag=0",
        "cabac_init_present_flag=0",
        "num_ref_idx_l0_default_active_minus1=0",
        "num_ref_idx_l1_default_active_minus1=0",
    ],
};

const HIDING: Part<'static> = Part {
    bits: "1 1 0 0 000 1 0 1 1",
    lines: &[
        "pps_pic_parameter_set_id=0",
        "pps_seq_parameter_set_id=0",
        "dependent_slice_segments_enabled_flag=0",
        "output_flag_present_flag=0",
        "num_extra_slice_header_bits=0",
        "sign_data_hiding_enabled_flag=1",
        "cabac_init_present_flag=0",
        "num_ref_idx_l0_default_active_minus1=0",
        "num_ref_idx_l1_default_active_minus1=0",
    ],
};

const PLAIN: Part<'static> = Part {
    bits: "1 0 0 0 1 1 0",
    lines: &[
        "init_qp_minus26=0",
        "constrained_intra_pred_flag=0",
        "transform_skip_enabled_flag=0",
        "cu_qp_delta_enabled_flag=0",
        "pps_cb_qp_offset=0",
        "pps_cr_qp_offset=0",
        "pps_slice_chroma_qp_offsets_present_flag=0",
    ],
};

const DEEP: Part<'static> = Part {
    bits: "1 0 0 1 010 1 1 0",
    lines: &[
        "init_qp_minus26=0",
        "constrained_intra_pred_flag=0",
        "transform_skip_enabled_flag=0",
        "cu_qp_delta_enabled_flag=1",
        "diff_cu_qp_delta_depth=1",
        "pps_cb_qp_offset=0",
        "pps_cr_qp_offset=0",
        "pps_slice_chroma_qp_offsets_present_flag=0",
    ],
};

const OFFSET: Part<'static> = Part {
    bits: "1 1 1 1 1 00100 00111 0",
    lines: &[
        "init_qp_minus26=0",
        "constrained_intra_pred_flag=1",
        "transform_skip_enabled_flag=1",
        "cu_qp_delta_enabled_flag=1",
        "diff_cu_qp_delta_depth=0",
        "pps_cb_qp_offset=2",
        "pps_cr_qp_offset=-3",
        "pps_slice_chroma_qp_offsets_present_flag=0",
    ],
};

const NO_TOOLS: Part<'static> = Part {
    bits: "0 0 0 0 0",
    lines: &[
        "weighted_pred_flag=0",
        "weighted_bipred_flag=0",
        "transquant_bypass_enabled_flag=0",
        "tiles_enabled_flag=0",
        "entropy_coding_sync_enabled_flag=0",
    ],
};

const WEIGHTED: Part<'static> = Part {
    bits: "1 0 0 0 0",
    lines: &[
        "weighted_pred_flag=1",
        "weighted_bipred_flag=0",
        "transquant_bypass_enabled_flag=0",
        "tiles_enabled_flag=0",
        "entropy_coding_sync_enabled_flag=0",
    ],
};

const BOTH_WEIGHTED: Part<'static> = Part {
    bits: "1 1 0 0 0",
    lines: &[
        "weighted_pred_flag=1",
        "weighted_bipred_flag=1",
        "transquant_bypass_enabled_flag=0",
        "tiles_enabled_flag=0",
        "entropy_coding_sync_enabled_flag=0",
    ],
};

const TILED: Part<'static> = Part {
    bits: "0 0 0 1 0",
    lines: &[
        "weighted_pred_flag=0",
        "weighted_bipred_flag=0",
        "transquant_bypass_enabled_flag=0",
        "tiles_enabled_flag=1",
        "entropy_coding_sync_enabled_flag=0",
    ],
};

// Three columns and two rows of uniform sizes, and of others.
const UNIFORM: Part<'static> = Part {
    bits: "011 010 1 1",
    lines: &[
        "num_tile_columns_minus1=2",
        "num_tile_rows_minus1=1",
        "uniform_spacing_flag=1",
        "loop_filter_across_tiles_enabled_flag=1",
    ],
};

const SIZED: Part<'static> = Part {
    bits: "011 010 0 1 010 011 1",
    lines: &[
        "num_tile_columns_minus1=2",
        "num_tile_rows_minus1=1",
        "uniform_spacing_flag=0",
        "column_width_minus1[0]=0",
        "column_width_minus1[1]=1",
        "row_height_minus1[0]=2",
        "loop_filter_across_tiles_enabled_flag=1",
    ],
};

const NOT_ACROSS: Part<'static> = Part {
    bits: "0",
    lines: &["pps_loop_filter_across_slices_enabled_flag=0"],
};

const ACROSS: Part<'static> = Part {
    bits: "1",
    lines: &["pps_loop_filter_across_slices_enabled_flag=1"],
};

const NO_CONTROL: Part<'static> = Part {
    bits: "0",
    lines: &["deblocking_filter_control_present_flag=0"],
};

const FILTERED: Part<'static> = Part {
    bits: "1 0 0 00101 010",
    lines: &[
        "deblocking_filter_control_present_flag=1",
        "deblocking_filter_override_enabled_flag=0",
        "pps_deblocking_filter_disabled_flag=0",
        "pps_beta_offset_div2=-2",
        "pps_tc_offset_div2=1",
    ],
};

const UNFILTERED: Part<'static> = Part {
    bits: "1 1 1",
    lines: &[
        "deblocking_filter_control_present_flag=1",
        "deblocking_filter_override_enabled_flag=1",
        "pps_deblocking_filter_disabled_flag=1",
    ],
};

const NO_LISTS: Part<'static> = Part {
    bits: "0",
    lines: &["pps_scaling_list_data_present_flag=0"],
};

// Scaling lists that are all predicted.
const LISTS: Part<'static> = Part {
    bits: "1 010101010101 010101010101 010101010101 0101",
    lines: &[
        "pps_scaling_list_data_present_flag=1",
        "scaling_list_pred_mode_flag[0][0]=0",
        "scaling_list_pred_matrix_id_delta[0][0]=0",
        "scaling_list_pred_mode_flag[0][1]=0",
        "scaling_list_pred_matrix_id_delta[0][1]=0",
        "scaling_list_pred_mode_flag[0][2]=0",
        "scaling_list_pred_matrix_id_delta[0][2]=0",
        "scaling_list_pred_mode_flag[0][3]=0",
        "scaling_list_pred_matrix_id_delta[0][3]=0",
        "scaling_list_pred_mode_flag[0][4]=0",
        "scaling_list_pred_matrix_id_delta[0][4]=0",
        "scaling_list_pred_mode_flag[0][5]=0",
        "scaling_list_pred_matrix_id_delta[0][5]=0",
        "scaling_list_pred_mode_flag[1][0]=0",
        "scaling_list_pred_matrix_id_delta[1][0]=0",
        "scaling_list_pred_mode_flag[1][1]=0",
        "scaling_list_pred_matrix_id_delta[1][1]=0",
        "scaling_list_pred_mode_flag[1][2]=0",
        "scaling_list_pred_matrix_id_delta[1][2]=0",
        "scaling_list_pred_mode_flag[1][3]=0",
        "scaling_list_pred_matrix_id_delta[1][3]=0",
        "scaling_list_pred_mode_flag[1][4]=0",
        "scaling_list_pred_matrix_id_delta[1][4]=0",
        "scaling_list_pred_mode_flag[1][5]=0",
        "scaling_list_pred_matrix_id_delta[1][5]=0",
        "scaling_list_pred_mode_flag[2][0]=0",
        "scaling_list_pred_matrix_id_delta[2][0]=0",
        "scaling_list_pred_mode_flag[2][1]=0",
        "scaling_list_pred_matrix_id_delta[2][1]=0",
        "scaling_list_pred_mode_flag[2][2]=0",
        "scaling_list_pred_matrix_id_delta[2][2]=0",
        "scaling_list_pred_mode_flag[2][3]=0",
        "scaling_list_pred_matrix_id_delta[2][3]=0",
        "scaling_list_pred_mode_flag[2][4]=0",
        "scaling_list_pred_matrix_id_delta[2][4]=0",
        "scaling_list_pred_mode_flag[2][5]=0",
        "scaling_list_pred_matrix_id_delta[2][5]=0",
        "scaling_list_pred_mode_flag[3][0]=0",
        "scaling_list_pred_matrix_id_delta[3][0]=0",
        "scaling_list_pred_mode_flag[3][3]=0",
        "scaling_list_pred_matrix_id_delta[3][3]=0",
    ],
};

const END: Part<'static> = Part {
    bits: "0 1 0 0",
    lines: &[
        "lists_modification_present_flag=0",
        "log2_parallel_merge_level_minus2=0",
        "slice_segment_header_extension_present_flag=0",
        "pps_extension_present_flag=0",
    ],
};

const EXTENDED: Part<'static> = Part {
    bits: "0 1 0 1",
    lines: &[
        "lists_modification_present_flag=0",
        "log2_parallel_merge_level_minus2=0",
        "slice_segment_header_extension_present_flag=0",
        "pps_extension_present_flag=1",
    ],
};

const NO_EXTENSION: Part<'static> = Part {
    bits: "0 0 0 0 0000",
    lines: &[
        "pps_range_extension_flag=0",
        "pps_multilayer_extension_flag=0",
        "pps_3d_extension_flag=0",
        "pps_scc_extension_flag=0",
        "pps_extension_4bits=0",
    ],
};

const MULTILAYER: Part<'static> = Part {
    bits: "0 1 0 0 0000 | 0 1 000101 1 0",
    lines: &[
        "pps_range_extension_flag=0",
        "pps_multilayer_extension_flag=1",
        "pps_3d_extension_flag=0",
        "pps_scc_extension_flag=0",
        "pps_extension_4bits=0",
        "poc_reset_info_present_flag=0",
        "pps_infer_scaling_list_flag=1",
        "pps_scaling_list_ref_layer_id=5",
        "num_ref_loc_offsets=0",
        "colour_mapping_enabled_flag=0",
    ],
};

// Extensions of no known kind, with a tail of three bits and of none.
const UNKNOWN: Part<'static> = Part {
    bits: "0 0 0 0 1001",
    lines: &[
        "pps_range_extension_flag=0",
        "pps_multilayer_extension_flag=0",
        "pps_3d_extension_flag=0",
        "pps_scc_extension_flag=0",
        "pps_extension_4bits=9",
    ],
};

const TAIL: Part<'static> = Part {
    bits: "101",
    lines: &["tail=3"],
};

const NO_TAIL: Part<'static> = Part {
    bits: "",
    lines: &["tail=0"],
};

// The payloads of a stream of two views, of an encoder's defaults, and of that encoder with more tools.
static STREAMS: [(&[u8], &[Part]); 4] = [
    (
        &[0xC0, 0x71, 0x80, 0x12],
        &[
            OPENING, PLAIN, NO_TOOLS, NOT_ACROSS, NO_CONTROL, NO_LISTS, END,
        ],
    ),
    (
        &[0x48, 0x07, 0x18, 0x01, 0x20],
        &[
            SECOND, PLAIN, NO_TOOLS, NOT_ACROSS, NO_CONTROL, NO_LISTS, END,
        ],
    ),
    (
        &[0xC1, 0x72, 0xB4, 0x22, 0x40],
        &[HIDING, DEEP, WEIGHTED, ACROSS, NO_CONTROL, NO_LISTS, END],
    ),
    (
        &[0xC1, 0x7F, 0x21, 0xD8, 0xC2, 0xA2, 0x40],
        &[
            HIDING,
            OFFSET,
            BOTH_WEIGHTED,
            ACROSS,
            FILTERED,
            NO_LISTS,
            END,
        ],
    ),
];

#[test]
fn streams(rt: HostRuntime) -> Result<(), Fail> {
    for (bytes, parts) in &STREAMS {
        let payload = payload_of(rt.alloc(), parts)?;
        assert_eq!(rt; payload.as_slice(), *bytes);
        check(&rt, rt.alloc(), parts)?;
    }
    Ok(())
}

static ROWS: [&[Part]; 8] = [
    &[
        OPENING, PLAIN, TILED, UNIFORM, NOT_ACROSS, NO_CONTROL, NO_LISTS, END,
    ],
    &[
        OPENING, PLAIN, TILED, SIZED, NOT_ACROSS, NO_CONTROL, NO_LISTS, END,
    ],
    &[
        OPENING, PLAIN, NO_TOOLS, NOT_ACROSS, UNFILTERED, NO_LISTS, END,
    ],
    &[OPENING, PLAIN, NO_TOOLS, NOT_ACROSS, NO_CONTROL, LISTS, END],
    &[
        OPENING,
        PLAIN,
        NO_TOOLS,
        NOT_ACROSS,
        NO_CONTROL,
        NO_LISTS,
        EXTENDED,
        NO_EXTENSION,
    ],
    &[
        OPENING, PLAIN, NO_TOOLS, NOT_ACROSS, NO_CONTROL, NO_LISTS, EXTENDED, MULTILAYER,
    ],
    &[
        OPENING, PLAIN, NO_TOOLS, NOT_ACROSS, NO_CONTROL, NO_LISTS, EXTENDED, UNKNOWN, TAIL,
    ],
    &[
        OPENING, PLAIN, NO_TOOLS, NOT_ACROSS, NO_CONTROL, NO_LISTS, EXTENDED, UNKNOWN, NO_TAIL,
    ],
];

#[test]
fn rows(rt: HostRuntime) -> Result<(), Fail> {
    for parts in &ROWS {
        check(&rt, rt.alloc(), parts)?;
    }
    Ok(())
}

// The rule that refuses a payload.
fn refusal(alloc: Global, payload: &[u8]) -> Option<Rule> {
    match read_pps(alloc, payload) {
        Err(ReadFault::Refused(rule)) => Some(rule),
        _ => None,
    }
}

// The fields up to the first that breaks a rule, and the rule: 64, 16, and twice 15 are over the limits of the opening, 256 is
// over that of columns and of rows.
static BROKEN: [(&str, Rule); 12] = [
    ("0000001000001", Rule::PpsLimit),
    ("1 000010001", Rule::PpsLimit),
    ("1 1 00 000 0 0 000010000", Rule::PpsLimit),
    ("1 1 00 000 0 0 1 000010000", Rule::PpsLimit),
    (
        "1 1 00 000 0 0 1 1 | 1 0 0 0 1 1 0 | 00010 | 00000000100000001",
        Rule::PpsLimit,
    ),
    (
        "1 1 00 000 0 0 1 1 | 1 0 0 0 1 1 0 | 00010 | 1 00000000100000001",
        Rule::PpsLimit,
    ),
    (
        "1 1 00 000 0 0 1 1 | 1 0 0 0 1 1 0 | 00000 | 0 0 0 | 0 1 0 1 | 1",
        Rule::PpsRange,
    ),
    (
        "1 1 00 000 0 0 1 1 | 1 0 0 0 1 1 0 | 00000 | 0 0 0 | 0 1 0 1 | 001",
        Rule::Pps3d,
    ),
    (
        "1 1 00 000 0 0 1 1 | 1 0 0 0 1 1 0 | 00000 | 0 0 0 | 0 1 0 1 | 0001",
        Rule::PpsScc,
    ),
    (
        "1 1 00 000 0 0 1 1 | 1 0 0 0 1 1 0 | 00000 | 0 0 0 | 0 1 0 1 | 0100 0000 | 1",
        Rule::PocReset,
    ),
    (
        "1 1 00 000 0 0 1 1 | 1 0 0 0 1 1 0 | 00000 | 0 0 0 | 0 1 0 1 | 0100 0000 | 0 0 010",
        Rule::LocationOffsets,
    ),
    (
        "1 1 00 000 0 0 1 1 | 1 0 0 0 1 1 0 | 00000 | 0 0 0 | 0 1 0 1 | 0100 0000 | 0 0 1 1",
        Rule::ColourMapping,
    ),
];

#[test]
fn broken_rules(rt: HostRuntime) -> Result<(), Fail> {
    for (text, rule) in &BROKEN {
        let part = Part {
            bits: *text,
            lines: &[],
        };
        let bytes = payload_of(rt.alloc(), &[part])?;
        assert_eq!(rt; refusal(rt.alloc(), &bytes), Some(*rule), "{text}");
    }
    Ok(())
}

// No bits, bits that end in a field, a code of 32 zeros, a set bit or a byte behind the trailing bits, and a tail without a
// set bit.
static NO_PAYLOADS: [&[u8]; 6] = [
    &[],
    &[0xC0, 0x71, 0x80],
    &[0, 0, 0, 0, 0xFF, 0xFF, 0xFF, 0xFF, 0xFF],
    &[0xC0, 0x71, 0x80, 0x13],
    &[0xC0, 0x71, 0x80, 0x12, 0],
    &[0xC0, 0x71, 0x80, 0x14, 0x04, 0],
];

#[test]
fn no_payloads(rt: HostRuntime) {
    for bytes in &NO_PAYLOADS {
        assert_eq!(rt; refusal(rt.alloc(), bytes), Some(Rule::PpsSyntax));
    }
}

// 65,536 bytes may be read, which zeros can't be; one more is too long.
#[test]
fn size_of_payloads(rt: HostRuntime) -> Result<(), Fail> {
    let mut bytes = vec![in rt.alloc(); 0u8; 65_536]?;
    assert_eq!(rt; refusal(rt.alloc(), &bytes), Some(Rule::PpsSyntax));
    bytes.push(0)?;
    assert_eq!(rt; refusal(rt.alloc(), &bytes), Some(Rule::PpsLimit));
    Ok(())
}
