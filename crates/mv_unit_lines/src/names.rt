//! The names of the types of units.

ghost use Rattle.std.specs.Prelude.{◌≡◌, ◌++◌, [], OnOk, codes, decimal, get_or, map};
ghost use Rattle.mv_unit_lines.specs.Names.{names, type_name};

use crate::text::{push, push_number};
use std::alloc::AllocError;

// Appends the name of a type.
#[tactic(auto, unfolding(crate::specs::Names::type_name))]
pub(crate) fn push_type(out: &mut Vec<u8>, kind: u8) -> Result<(), AllocError>
    ensures { OnOk result (out.new.items ≡ out.old.items ++ type_name kind) }
{
    let name = name_of(kind);
    if name.len() == 0 {
        return push_unnamed(out, kind);
    }
    push(out, name)
}

// The name of a type (7.4.2.2, table 7-1), which is empty where it has none.
fn name_of(kind: u8) -> &'static str
    ensures { result.now ≡ get_or names kind [] }
{
    if kind > 40 {
        return "";
    }
    match kind {
        0 => "TRAIL_N",
        1 => "TRAIL_R",
        2 => "TSA_N",
        3 => "TSA_R",
        4 => "STSA_N",
        5 => "STSA_R",
        6 => "RADL_N",
        7 => "RADL_R",
        8 => "RASL_N",
        9 => "RASL_R",
        10 => "",
        11 => "",
        12 => "",
        13 => "",
        14 => "",
        15 => "",
        16 => "BLA_W_LP",
        17 => "BLA_W_RADL",
        18 => "BLA_N_LP",
        19 => "IDR_W_RADL",
        20 => "IDR_N_LP",
        21 => "CRA",
        22 => "",
        23 => "",
        24 => "",
        25 => "",
        26 => "",
        27 => "",
        28 => "",
        29 => "",
        30 => "",
        31 => "",
        32 => "VPS",
        33 => "SPS",
        34 => "PPS",
        35 => "AUD",
        36 => "EOS",
        37 => "EOB",
        38 => "FILLER",
        39 => "PREFIX_SEI",
        _ => "SUFFIX_SEI",
    }
}

fn push_unnamed(out: &mut Vec<u8>, kind: u8) -> Result<(), AllocError>
    ensures { OnOk result (out.new.items ≡ out.old.items ++ codes "TYPE_" ++ decimal kind) }
{
    push(out, "TYPE_")?;
    push_number(out, kind)
}
