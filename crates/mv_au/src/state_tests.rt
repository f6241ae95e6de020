use super::*;
use mv_rules::Rule;
use mv_vps::read_vps;
use std::test::Fail;

// A video parameter set of layers 0, 2, 4 and 6: 2 and 4 refer to 0, and 6 to both.
const LAYERS: &[u8] = &[
    0x0C, 0x31, 0xFF, 0xFF, 0x01, 0x60, 0x00, 0x00, 0x00, 0x90, 0x00, 0x00, 0x00, 0x00, 0x00, 0x5D,
    0xAC, 0x67, 0x42, 0xAB, 0x5D, 0x20, 0x00, 0x18, 0x48, 0x90, 0xD9, 0x72, 0x66, 0x72, 0x00, 0x80,
    0x00, 0x81, 0x40, 0x11, 0x27, 0x24, 0x91, 0x3B, 0x20,
];

const START: Result<PicState, Rule> = Ok(PicState::Start);

const DECODED: Result<PicState, Rule> = Ok(PicState::Decoded);

const SKIPPED: Result<PicState, Rule> = Ok(PicState::Skipped);

const REFUSED: Result<PicState, Rule> = Err(Rule::NoIrap);

// Pictures and ends of a stream: the layer, the type, the number of entries, and the answer of a picture.
const STREAM: [(u8, u8, u8, Result<PicState, Rule>); 47] = [
    // The first base picture is an IRAP picture.
    (0, 1, 0, REFUSED),
    (0, 8, 0, REFUSED),
    (0, 21, 0, START),
    // In that access unit a layer starts by a picture without entries, if all its direct reference layers have started.
    (2, 1, 0, START),
    (4, 1, 1, SKIPPED),
    (6, 1, 0, SKIPPED),
    (6, 19, 0, SKIPPED),
    // Random access skipped pictures behind a start, which need not be an IRAP picture.
    (0, 8, 2, SKIPPED),
    (2, 9, 2, SKIPPED),
    (4, 1, 0, SKIPPED),
    (4, 21, 1, START),
    (6, 21, 0, START),
    (0, 1, 1, DECODED),
    (2, 8, 1, SKIPPED),
    (4, 9, 1, SKIPPED),
    (2, 6, 1, DECODED),
    // The next IRAP picture of an initialised layer is no start.
    (0, 21, 0, DECODED),
    (2, 21, 0, DECODED),
    (4, 1, 0, DECODED),
    (0, 9, 1, DECODED),
    (2, 8, 1, DECODED),
    (4, 8, 1, SKIPPED),
    // An end of layer 2: IDR and BLA pictures of layer 6 can't start it again, and make it uninitialised.
    (2, 36, 0, DECODED),
    (0, 1, 1, DECODED),
    (2, 1, 0, SKIPPED),
    (4, 1, 1, DECODED),
    (6, 1, 1, DECODED),
    (6, 20, 0, SKIPPED),
    (6, 1, 1, SKIPPED),
    (2, 16, 0, START),
    (6, 1, 0, SKIPPED),
    (6, 18, 0, START),
    (4, 17, 0, START),
    // An end of layer 0: the next base picture starts a sequence, at which every layer is uninitialised.
    (0, 36, 0, DECODED),
    (4, 1, 1, DECODED),
    (0, 1, 1, REFUSED),
    (0, 21, 0, START),
    (2, 1, 1, SKIPPED),
    (4, 9, 0, START),
    // The end of the bitstream is one too, and IDR and BLA pictures of layer 0 start a sequence anywhere.
    (0, 37, 0, DECODED),
    (0, 0, 0, REFUSED),
    (0, 16, 0, START),
    (2, 0, 0, START),
    (0, 20, 0, START),
    (2, 0, 1, SKIPPED),
    (0, 1, 1, DECODED),
    (4, 1, 0, SKIPPED),
];

#[test]
fn starts_resets_and_skips(rt: HostRuntime) -> Result<(), Fail> {
    let Ok(vps) = read_vps(rt.alloc(), LAYERS) else {
        return Err(Fail::new("the video parameter set doesn't read"));
    };
    let mut states = LayerStates::new();
    for (i, (layer, kind, entries, answer)) in STREAM.into_iter().enumerate() {
        if layer >= 64 {
            continue;
        }
        if kind >= 36 {
            states.eos(layer);
        } else {
            let facts = PicFacts {
                layer,
                kind,
                entries,
            };
            assert!(rt; states.picture(&vps, &facts) == answer, "row {i}");
        }
    }
    Ok(())
}
