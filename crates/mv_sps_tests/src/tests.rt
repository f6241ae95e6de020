//! Payloads of streams, and each part in bits written by hand: read, written back, and shown line by line.

ghost use Rattle.std.specs.Prelude.{◌≤◌};

use crate::part_tests::*;
use mv_bits::BitWriter;
use mv_fields::Printer;
use mv_rules::{ReadFault, Rule};
use mv_sps::*;
use std::alloc::{AllocError, Global};
use std::process::Abort;
use std::test::Fail;

// Writes the bits that a text of zeros and ones has.
fn add_bits(out: &mut BitWriter, text: &str) -> Result<(), AllocError> {
    for c in text.as_bytes() {
        match c {
            b'0' => out.u(1, 0)?,
            b'1' => out.u(1, 1)?,
            _ => {}
        }
    }
    Ok(())
}

// The payload of some parts: their bits, and trailing bits.
fn payload_of(alloc: Global, parts: &[Part]) -> Result<Vec<u8>, AllocError> {
    let mut out = BitWriter::new(alloc);
    for part in parts {
        add_bits(&mut out, part.bits)?;
    }
    out.trailing()?;
    Ok(out.into_bytes())
}

fn add_lines(out: &mut Vec<u8>, lines: &[&str]) -> Result<(), AllocError> {
    for line in lines {
        out.extend_from_slice(b"  ")?;
        out.extend_from_slice(line.as_bytes())?;
        out.extend_from_slice(b"\n")?;
    }
    Ok(())
}

// The text that shows them.
fn text_of(alloc: Global, parts: &[Part]) -> Result<Vec<u8>, AllocError> {
    let mut out = Vec::new(alloc);
    for part in parts {
        add_lines(&mut out, part.lines)?;
    }
    Ok(out)
}

fn check(
    rt: &impl Abort,
    alloc: Global,
    layer: u8,
    vps_sub_layers: u8,
    parts: &[Part],
) -> Result<(), Fail>
    requires { vps_sub_layers ≤ 6 }
{
    let payload = payload_of(alloc, parts)?;
    let text = text_of(alloc, parts)?;
    let value = read_sps(alloc, layer, vps_sub_layers, &payload)
        .ok()
        .ok_or("it reads")?;
    let written = write_sps(alloc, layer, vps_sub_layers, &value)?;
    assert_eq!(rt; written.as_slice(), payload.as_slice());
    let mut out = Printer::lines(alloc);
    show_sps(&mut out, layer, vps_sub_layers, &value)?;
    assert_eq!(rt; out.text(), text.as_slice());
    Ok(())
}

// A payload of a stream is that of its parts, in a layer.
fn check_stream(
    rt: &impl Abort,
    alloc: Global,
    layer: u8,
    bytes: &[u8],
    parts: &[Part],
) -> Result<(), Fail> {
    let payload = payload_of(alloc, parts)?;
    assert_eq!(rt; payload.as_slice(), bytes);
    check(rt, alloc, layer, 0, parts)
}

// The sets of a stream of two views; a layer above 0 has all fields where its first field of 3 bits isn't 7.
#[test]
fn sets_of_two_views(rt: HostRuntime) -> Result<(), Fail> {
    check_stream(
        &rt,
        rt.alloc(),
        0,
        &[
            0x01, 0x01, 0x60, 0, 0, 0, 0x90, 0, 0, 0, 0, 0, 0x5D, 0xA0, 0x20, 0x81, 0x05, 0xEB,
            0xAB, 0xC2, 0x08,
        ],
        &[
            opening(),
            format(),
            four_bits(),
            alone(),
            blocks(),
            no_lists(),
            no_tools(),
            no_references(),
            no_flags(),
            no_vui(),
            no_extension(),
        ],
    )?;
    check_stream(
        &rt,
        rt.alloc(),
        1,
        &[
            0x01, 0x01, 0x60, 0, 0, 0, 0x90, 0, 0, 0, 0, 0, 0x5D, 0xA0, 0x20, 0x81, 0x05, 0xEB,
            0xAB, 0xC2, 0x08,
        ],
        &[
            opening(),
            format(),
            four_bits(),
            alone(),
            blocks(),
            no_lists(),
            no_tools(),
            no_references(),
            no_flags(),
            no_vui(),
            no_extension(),
        ],
    )?;
    check_stream(
        &rt,
        rt.alloc(),
        1,
        &[0x0E, 0x9A, 0xBC, 0x21, 0x40, 0x40],
        &[
            layered(),
            own_format(),
            four_bits(),
            blocks(),
            no_lists(),
            no_tools(),
            no_references(),
            no_flags(),
            no_vui(),
            multilayer(),
        ],
    )?;
    Ok(())
}

// A set of an encoder, x265, without options.
#[test]
fn set_of_an_encoder(rt: HostRuntime) -> Result<(), Fail> {
    check_stream(
        &rt,
        rt.alloc(),
        0,
        &[
            0x01, 0x01, 0x60, 0, 0, 0, 0x90, 0, 0, 0, 0, 0, 0x1E, 0xA0, 0x20, 0x81, 0x05, 0x96,
            0x56, 0x69, 0x24, 0xCA, 0xE0, 0x10, 0, 0, 0x3E, 0x80, 0, 0x06, 0x1A, 0x80, 0x80,
        ],
        &[
            level_1(),
            format(),
            eight_bits(),
            reordered(),
            large_blocks(),
            no_lists(),
            offset(),
            no_references(),
            both_flags(),
            timed(),
            no_extension(),
        ],
    )?;
    Ok(())
}

// With --sar 16:11 --overscan show --videoformat pal --range full --colorprim bt709 --transfer bt709 --colormatrix
// bt709 --chromaloc 1 --display-window 2,0,4,0.
#[test]
fn set_with_usability_information(rt: HostRuntime) -> Result<(), Fail> {
    check_stream(
        &rt,
        rt.alloc(),
        0,
        &[
            0x01, 0x01, 0x60, 0, 0, 0, 0x90, 0, 0, 0, 0, 0, 0x1E, 0xA0, 0x20, 0x81, 0x05, 0x96,
            0x56, 0x69, 0x24, 0xCA, 0xF0, 0x4A, 0x70, 0x10, 0x10, 0x1A, 0x42, 0xCB, 0xC0, 0, 0,
            0xFA, 0, 0, 0x18, 0x6A, 0x02,
        ],
        &[
            level_1(),
            format(),
            eight_bits(),
            reordered(),
            large_blocks(),
            no_lists(),
            offset(),
            no_references(),
            both_flags(),
            coloured(),
            no_extension(),
        ],
    )?;
    Ok(())
}

// With --hrd --vbv-bufsize 1000 --vbv-maxrate 1000 --bitrate 900 --temporal-layers.
#[test]
fn set_with_a_hypothetical_decoder(rt: HostRuntime) -> Result<(), Fail> {
    check_stream(
        &rt,
        rt.alloc(),
        0,
        &[
            0x02, 0x01, 0x60, 0, 0, 0, 0x90, 0, 0, 0, 0, 0, 0x3C, 0, 0, 0xA0, 0x20, 0x81, 0x05,
            0x96, 0x56, 0x62, 0xB3, 0x49, 0x26, 0x57, 0, 0x80, 0, 0x01, 0xF4, 0, 0, 0x30, 0xD4,
            0x30, 0x0A, 0x4B, 0x2F, 0, 0x07, 0xA1, 0x20, 0, 0xF4, 0x25, 0xC0, 0x01, 0xE8, 0x48, 0,
            0x3D, 0x09, 0x10,
        ],
        &[
            two_sub_layers(),
            format(),
            eight_bits(),
            reordered_twice(),
            large_blocks(),
            no_lists(),
            offset(),
            no_references(),
            both_flags(),
            scheduled(),
            no_extension(),
        ],
    )?;
    Ok(())
}

// With --scaling-list default --amp --ctu 16 and others.
#[test]
fn set_with_default_lists(rt: HostRuntime) -> Result<(), Fail> {
    check_stream(
        &rt,
        rt.alloc(),
        0,
        &[
            0x01, 0x01, 0x60, 0, 0, 0, 0x90, 0, 0, 0, 0, 0, 0x1E, 0xA0, 0x20, 0x81, 0x05, 0x96,
            0x56, 0x6A, 0xBE, 0xD7, 0, 0x80, 0, 0x01, 0xF4, 0, 0, 0x30, 0xD4, 0x04,
        ],
        &[
            level_1(),
            format(),
            eight_bits(),
            reordered(),
            blocks(),
            default_lists(),
            parted(),
            no_references(),
            both_flags(),
            timed(),
            no_extension(),
        ],
    )?;
    Ok(())
}

// 4:4:4 with a window and 16 bits a sample, and the greatest height.
#[test]
fn formats(rt: HostRuntime) -> Result<(), Fail> {
    check(
        &rt,
        rt.alloc(),
        0,
        0,
        &[
            opening(),
            windowed(),
            four_bits(),
            alone(),
            blocks(),
            no_lists(),
            no_tools(),
            no_references(),
            no_flags(),
            no_vui(),
            no_extension(),
        ],
    )?;
    check(
        &rt,
        rt.alloc(),
        0,
        0,
        &[
            opening(),
            high(),
            four_bits(),
            alone(),
            blocks(),
            no_lists(),
            no_tools(),
            no_references(),
            no_flags(),
            no_vui(),
            no_extension(),
        ],
    )?;
    Ok(())
}

// The last index of a format, in the last layer and the last set.
#[test]
fn last_index_of_a_format(rt: HostRuntime) -> Result<(), Fail> {
    check(
        &rt,
        rt.alloc(),
        62,
        0,
        &[
            layered_15(),
            format_255(),
            four_bits(),
            blocks(),
            no_lists(),
            no_tools(),
            no_references(),
            no_flags(),
            no_vui(),
            no_extension(),
        ],
    )?;
    Ok(())
}

// The numbers of three sub-layers, of which two have levels and one a profile; of the highest alone, and the
// greatest.
#[test]
fn sub_layers(rt: HostRuntime) -> Result<(), Fail> {
    check(
        &rt,
        rt.alloc(),
        0,
        0,
        &[
            three_sub_layers(),
            format(),
            four_bits(),
            three(),
            blocks(),
            no_lists(),
            no_tools(),
            no_references(),
            no_flags(),
            no_vui(),
            no_extension(),
        ],
    )?;
    check(
        &rt,
        rt.alloc(),
        0,
        0,
        &[
            three_sub_layers(),
            format(),
            four_bits(),
            highest(),
            blocks(),
            no_lists(),
            no_tools(),
            no_references(),
            no_flags(),
            no_vui(),
            no_extension(),
        ],
    )?;
    check(
        &rt,
        rt.alloc(),
        0,
        0,
        &[
            three_sub_layers(),
            format(),
            four_bits(),
            greatest(),
            blocks(),
            no_lists(),
            no_tools(),
            no_references(),
            no_flags(),
            no_vui(),
            no_extension(),
        ],
    )?;
    Ok(())
}

// Scaling lists of layer 2, the default ones, and own ones, of which two are coded.
#[test]
fn scaling_lists(rt: HostRuntime) -> Result<(), Fail> {
    check(
        &rt,
        rt.alloc(),
        1,
        0,
        &[
            layered(),
            own_format(),
            four_bits(),
            blocks(),
            lists_of_layer_2(),
            no_tools(),
            no_references(),
            no_flags(),
            no_vui(),
            no_extension(),
        ],
    )?;
    check(
        &rt,
        rt.alloc(),
        1,
        0,
        &[
            layered(),
            own_format(),
            four_bits(),
            blocks(),
            own_default_lists(),
            no_tools(),
            no_references(),
            no_flags(),
            no_vui(),
            no_extension(),
        ],
    )?;
    check(
        &rt,
        rt.alloc(),
        0,
        0,
        &[
            opening(),
            format(),
            four_bits(),
            alone(),
            blocks(),
            lists(),
            no_tools(),
            no_references(),
            no_flags(),
            no_vui(),
            no_extension(),
        ],
    )?;
    Ok(())
}

// All tools, with samples coded as they are.
#[test]
fn tools(rt: HostRuntime) -> Result<(), Fail> {
    check(
        &rt,
        rt.alloc(),
        1,
        0,
        &[
            layered(),
            own_format(),
            four_bits(),
            blocks(),
            no_lists(),
            all_tools(),
            no_references(),
            no_flags(),
            no_vui(),
            no_extension(),
        ],
    )?;
    Ok(())
}

// A set with -1, one predicted from it by 1, of which 1 alone is used, and a long-term candidate of 5 bits.
#[test]
fn short_and_long_term_sets(rt: HostRuntime) -> Result<(), Fail> {
    check(
        &rt,
        rt.alloc(),
        1,
        0,
        &[
            layered(),
            own_format(),
            five_bits(),
            blocks(),
            no_lists(),
            no_tools(),
            references(),
            no_flags(),
            no_vui(),
            no_extension(),
        ],
    )?;
    Ok(())
}

// A hypothetical decoder with the three sub-layers of the VPS, and all usability information with two sub-layers.
#[test]
fn usability_information(rt: HostRuntime) -> Result<(), Fail> {
    check(
        &rt,
        rt.alloc(),
        1,
        2,
        &[
            layered(),
            own_format(),
            four_bits(),
            blocks(),
            no_lists(),
            no_tools(),
            no_references(),
            no_flags(),
            decoder(),
            no_extension(),
        ],
    )?;
    check(
        &rt,
        rt.alloc(),
        0,
        0,
        &[
            two_levels(),
            format(),
            four_bits(),
            second(),
            blocks(),
            lists(),
            no_tools(),
            candidate(),
            no_flags(),
            whole_vui(),
            no_extension(),
        ],
    )?;
    Ok(())
}

// Extensions of no known kind, with tails of three bits, of none, and of one.
#[test]
fn extensions_with_tails(rt: HostRuntime) -> Result<(), Fail> {
    check(
        &rt,
        rt.alloc(),
        1,
        0,
        &[
            layered(),
            own_format(),
            four_bits(),
            blocks(),
            no_lists(),
            no_tools(),
            no_references(),
            no_flags(),
            no_vui(),
            unknown(),
            tail(),
        ],
    )?;
    check(
        &rt,
        rt.alloc(),
        1,
        0,
        &[
            layered(),
            own_format(),
            four_bits(),
            blocks(),
            no_lists(),
            no_tools(),
            no_references(),
            no_flags(),
            no_vui(),
            unknown(),
            no_tail(),
        ],
    )?;
    check(
        &rt,
        rt.alloc(),
        1,
        0,
        &[
            layered(),
            own_format(),
            four_bits(),
            blocks(),
            no_lists(),
            no_tools(),
            no_references(),
            no_flags(),
            no_vui(),
            both_extensions(),
            short_tail(),
        ],
    )?;
    Ok(())
}

// The fields up to level_idc, with one sub-layer: the ids, the profile, the level.
const HEAD: &str = "0000 000 1 | 00 0 00001 01100000000000000000000000000000 1 0 0 1 \
     0000000000000000000000000000000000000000000 0 | 01011101 |";

// The fields of set 1 in a layer above 0 that leaves out what the VPS has, up to max_transform_hierarchy_depth_intra.
const LAYERED_FRONT: &str = "0000 111 | 010 | 0 | 1 | 1 010 1 011 1 1 |";

// The rule that refuses a payload.
fn refusal(alloc: Global, layer: u8, payload: &[u8]) -> Option<Rule> {
    match read_sps(alloc, layer, 0, payload) {
        Err(ReadFault::Refused(rule)) => Some(rule),
        _ => None,
    }
}

// A layer, the fields that are read, those of which the last breaks the rule, and the rule.
static BROKEN: [(u8, &str, &str, Rule); 24] = [
    // sps_max_sub_layers_minus1 7 in layer 0, and set 16.
    (0, "", "0000 111", Rule::SpsLimit),
    (0, HEAD, "000010001", Rule::SpsLimit),
    (1, "0000 111 |", "000010001", Rule::SpsLimit),
    // chroma_format_idc 4, planes apart, a width and a height of 0 and of 16,385 samples, 17 bits a sample.
    (0, HEAD, "1 | 00101", Rule::SpsLimit),
    (0, HEAD, "1 | 00100 1", Rule::ColourPlanes),
    (0, HEAD, "1 | 1 1", Rule::SpsLimit),
    (
        0,
        HEAD,
        "1 | 1 00000000000000100000000000010",
        Rule::SpsLimit,
    ),
    (0, HEAD, "1 | 1 010 1", Rule::SpsLimit),
    (
        0,
        HEAD,
        "1 | 1 010 00000000000000100000000000010",
        Rule::SpsLimit,
    ),
    (0, HEAD, "1 | 1 010 010 0 0001010", Rule::SpsLimit),
    (0, HEAD, "1 | 1 010 010 0 1 0001010", Rule::SpsLimit),
    // 17 bits of an order count, 17 pictures held and 16 reordered.
    (1, "0000 111 |", "1 | 0 | 0001110", Rule::SpsLimit),
    (
        0,
        HEAD,
        "1 | 1 010 010 0 1 1 | 1 | 1 000010001",
        Rule::SpsLimit,
    ),
    (
        0,
        HEAD,
        "1 | 1 010 010 0 1 1 | 1 | 1 1 000010001",
        Rule::SpsLimit,
    ),
    // Coding blocks of 128 samples, the least of them and the greatest.
    (1, "0000 111 |", "1 | 0 | 1 | 00101", Rule::SpsLimit),
    (1, "0000 111 |", "1 | 0 | 1 | 00100 010", Rule::SpsLimit),
    // 65 sets, a set of 17 pictures, 33 candidates.
    (
        1,
        LAYERED_FRONT,
        "0 | 0 0 0 | 0000001000010",
        Rule::SpsLimit,
    ),
    (
        1,
        LAYERED_FRONT,
        "0 | 0 0 0 | 010 | 000010010",
        Rule::SpsLimit,
    ),
    (
        1,
        LAYERED_FRONT,
        "0 | 0 0 0 | 1 1 00000100010",
        Rule::SpsLimit,
    ),
    // A hypothetical decoder of 33 schedules.
    (1, LAYERED_FRONT, DECODER_OF_33, Rule::SpsLimit),
    // The extensions that are refused, the first before the others.
    (
        1,
        LAYERED_FRONT,
        "0 | 0 0 0 | 1 0 | 0 0 | 0 | 1 | 1 0 1 1",
        Rule::SpsRange,
    ),
    (
        1,
        LAYERED_FRONT,
        "0 | 0 0 0 | 1 0 | 0 0 | 0 | 1 | 0 1 1 1",
        Rule::Sps3d,
    ),
    (
        1,
        LAYERED_FRONT,
        "0 | 0 0 0 | 1 0 | 0 0 | 0 | 1 | 0 1 0 1",
        Rule::SpsScc,
    ),
    // Bits that end in the usability information.
    (
        1,
        LAYERED_FRONT,
        "0 | 0 0 0 | 1 0 | 0 0 | 1 | 0 0 0 0",
        Rule::SpsSyntax,
    ),
];

const DECODER_OF_33: &str =
    "0 | 0 0 0 | 1 0 | 0 0 | 1 | 0 0 0 0 0 0 0 0 | 1 00000000000000000000000000000001 \
     00000000000000000000000000011001 0 1 | 0 0 | 1 1 00000100001";

#[test]
fn broken_rules(rt: HostRuntime) -> Result<(), Fail> {
    for (layer, front, text, rule) in &BROKEN {
        let bytes = payload_of(
            rt.alloc(),
            &[
                Part {
                    bits: *front,
                    lines: &[],
                },
                Part {
                    bits: *text,
                    lines: &[],
                },
            ],
        )?;
        assert_eq!(rt; refusal(rt.alloc(), *layer, &bytes), Some(*rule), "{text}");
    }
    Ok(())
}

// Bytes that are no payload: none, the second view's set cut short, with a code of 33 zeros, with a set bit or a byte behind
// its trailing bits, and with a tail without a set bit. With its range extension it is refused by that.
static NO_PAYLOADS: [(&[u8], Rule); 7] = [
    (&[], Rule::SpsSyntax),
    (&[0x0E, 0x9A, 0xBC], Rule::SpsSyntax),
    (
        &[0x0E, 0, 0, 0, 0, 0xFF, 0xFF, 0xFF, 0xFF, 0xFF],
        Rule::SpsSyntax,
    ),
    (&[0x0E, 0x9A, 0xBC, 0x21, 0x40, 0x41], Rule::SpsSyntax),
    (&[0x0E, 0x9A, 0xBC, 0x21, 0x40, 0x40, 0], Rule::SpsSyntax),
    (&[0x0E, 0x9A, 0xBC, 0x21, 0x02, 0, 0], Rule::SpsSyntax),
    (&[0x0E, 0x9A, 0xBC, 0x21, 0xC0, 0x40], Rule::SpsRange),
];

#[test]
fn no_payloads(rt: HostRuntime) {
    for (bytes, rule) in &NO_PAYLOADS {
        assert_eq!(rt; refusal(rt.alloc(), 1, bytes), Some(*rule), "{bytes:?}");
    }
}

// 65,536 bytes may be read, which zeros can't be; one more is too long.
#[test]
fn size_of_payloads(rt: HostRuntime) -> Result<(), Fail> {
    let mut bytes = vec![in rt.alloc(); 0u8; 65_536]?;
    assert_eq!(rt; refusal(rt.alloc(), 0, &bytes), Some(Rule::SpsSyntax));
    bytes.push(0)?;
    assert_eq!(rt; refusal(rt.alloc(), 0, &bytes), Some(Rule::SpsLimit));
    Ok(())
}
