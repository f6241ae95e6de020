//! Units that carry parameter sets.

// Video parameter sets of layer 0 alone: of id 0, the same with another level, of id 1, and cut off.
pub const VPS: &[u8] = &[
    64, 1, 12, 1, 255, 255, 1, 96, 0, 0, 3, 0, 144, 0, 0, 3, 0, 0, 3, 0, 93, 172, 9,
];

pub const VPS_OF_LEVEL_3: &[u8] = &[
    64, 1, 12, 1, 255, 255, 1, 96, 0, 0, 3, 0, 144, 0, 0, 3, 0, 0, 3, 0, 90, 172, 9,
];

pub const VPS_1: &[u8] = &[
    64, 1, 28, 1, 255, 255, 1, 96, 0, 0, 3, 0, 144, 0, 0, 3, 0, 0, 3, 0, 93, 172, 9,
];

pub const SHORT_VPS: &[u8] = &[64, 1, 12, 1, 255, 255, 1, 96];

// One of layers 0 and 1, of which 1 refers to 0: output layer set 0 has layer 0, and set 1 both.
pub const TWO_VIEW: &[u8] = &[
    64, 1, 12, 17, 255, 255, 1, 96, 0, 0, 3, 0, 144, 0, 0, 3, 0, 0, 3, 0, 93, 172, 21, 191, 93, 32,
    0, 4, 89, 112, 96, 32, 0, 0, 9, 0, 0, 3, 0, 0, 3, 0, 5, 216, 208, 4, 0, 4, 10, 0, 137, 125, 32,
];

// Sequence parameter sets: that name video parameter set 0 and 1; of two sub-layers; with one field past its limit; and with no
// payload.
pub const SPS: &[u8] = &[
    66, 1, 1, 1, 96, 0, 0, 3, 0, 144, 0, 0, 3, 0, 0, 3, 0, 93, 160, 32, 129, 5, 235, 187, 194, 8,
];

pub const SPS_OF_VPS_1: &[u8] = &[
    66, 1, 17, 1, 96, 0, 0, 3, 0, 144, 0, 0, 3, 0, 0, 3, 0, 93, 160, 32, 129, 5, 235, 187, 194, 8,
];

pub const SPS_OF_TWO: &[u8] = &[
    66, 1, 3, 1, 96, 0, 0, 3, 0, 144, 0, 0, 3, 0, 0, 3, 0, 93, 0, 0, 160, 32, 129, 5, 235, 93, 222,
    16, 64,
];

pub const SPS_PAST_LIMIT: &[u8] = &[
    66, 1, 1, 1, 96, 0, 0, 3, 0, 144, 0, 0, 3, 0, 0, 3, 0, 93, 160, 32, 129, 5, 142, 174, 239, 8,
    32,
];

pub const EMPTY_SPS: &[u8] = &[66, 1];

// One of layer 1, which takes its sub-layers from the video parameter set.
pub const SPS_OF_LAYER_1: &[u8] = &[66, 9, 14, 154, 188, 33, 64, 64];

// Picture parameter sets: one, with the range extension, and with no payload.
pub const PPS: &[u8] = &[68, 1, 192, 113, 128, 18];

pub const PPS_OF_RANGE: &[u8] = &[68, 1, 192, 113, 128, 22, 2];

pub const EMPTY_PPS: &[u8] = &[68, 1];
