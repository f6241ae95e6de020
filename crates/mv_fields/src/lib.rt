//! What the readers and printers of headers share: single fields and loops of them, limits under a rule of refusal, faults,
//! the end of a payload, and the printer of bits and lines.
#![tactic(auto)]

mod ending;
mod fault;
mod fields;
mod fields_printed;
mod flags;
mod limits;
mod limits_printed;
mod loops;
mod loops_printed;
mod printer;
mod shown;
mod widths;

pub use ending::{MAX_BYTES, payload_end_of};
pub use fault::{Fault, Limit, under};
pub use fields::{
    coded_set, or_zero, se_if, u8_if, u8_of, u16_if, u16_of, u32_if, u32_of, u64_of, ue_if,
};
pub use flags::{unset_flag, unset_flag_if};
pub use limits::{
    u8_below_if, u8_within, u32_within_if, ue_limited, ue_limited_if, ue_sum_within, ue_within,
    ue_within_if,
};
pub use loops::{u8s_if, u8s_of, u32s_of, ues_if, ues_of};
pub use printer::Printer;
pub use widths::{clog2, clog2_laws};
