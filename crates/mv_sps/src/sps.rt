ghost use Rattle.std.specs.Prelude.{◌≡◌, ◌≤◌, OnOk};
ghost use Rattle.mv_syntax.specs.Table.{Valid};
ghost use Rattle.mv_syntax.specs.Printed.{printed};
ghost use Rattle.mv_fields.specs.Reading.{ReadsAs};
ghost use Rattle.mv_sps.specs.Opening.{subs_of};
ghost use Rattle.mv_sps.specs.Sps.{ending, sps_fields};

use crate::coding::{SpsCoding, coding_of, print_coding};
use crate::extension::{SpsExtension, extension_of, print_extension};
use crate::opening::{SpsOpening, is_ext, opening_of, print_opening, subs_of};
use crate::pictures::{SpsPictures, pictures_of, print_pictures};
use crate::vui::{SpsVui, print_usability, usability_of};
use mv_bits::BitReader;
use mv_fields::{Fault, Printer};
use mv_rules::Rule;
use std::alloc::{AllocError, Global};
use std::marker::Model;

/// A sequence parameter set (7.3.2.2.1, F.7.3.2.2.1), in parts: each part is a run of its fields. What is not coded is
/// `None`. A contract sees the fields, and beside them the tail.
#[derive(Debug, Drop)]
pub struct Sps {
    pub opening: SpsOpening,
    pub pictures: SpsPictures,
    pub coding: SpsCoding,
    pub vui: SpsVui,
    pub extension: SpsExtension,
    /// The bits behind the fields, where sps_extension_4bits is above 0: all up to the trailing bits.
    pub tail: Option<Vec<bool>>,
}

impl Model for Sps {
    ghost use Rattle.std.specs.Prelude.{List, Bool, Option, option_map};
    ghost use Rattle.mv_sps.specs.Sps.{SpsValue};

    ghost Value = { SpsValue × Option (List Bool) };

    ghost view = { λ s. (
      record {
        opening = s.opening;
        pictures = s.pictures;
        coding = s.coding;
        vui = s.vui;
        extension = s.extension;
      },
      option_map (λ v. v.items) s.tail,
    ) };
}

#[tactic(auto, unfolding(crate::specs::Sps::ending))]
fn ending_of(
    alloc: Global,
    bits: &mut BitReader,
    subs: u8,
) -> Result<(SpsVui, SpsExtension), Fault<Rule>>
    requires { subs ≤ 6 }
    ensures { ReadsAs (λ v. (v.0, v.1)) (ending subs) bits.old bits.new result }
{
    let vui = usability_of(alloc, bits, subs)?;
    let extension = extension_of(bits)?;
    Ok((vui, extension))
}

// The fields, with no tail yet.
#[tactic(auto, unfolding(crate::specs::Sps::sps_fields, crate::specs::Sps::behind_opening))]
pub(crate) fn fields_of(
    alloc: Global,
    bits: &mut BitReader,
    layer: u8,
    vps_sub_layers: u8,
) -> Result<Sps, Fault<Rule>>
    requires { vps_sub_layers ≤ 6 }
    ensures { ReadsAs (λ v. v.0) (sps_fields layer vps_sub_layers) bits.old bits.new result }
{
    let opening = opening_of(alloc, bits, layer, vps_sub_layers)?;
    let ext = is_ext(layer, opening.sps_max_sub_layers_minus1);
    let subs = subs_of(layer, vps_sub_layers, opening.sps_max_sub_layers_minus1);
    let pictures = pictures_of(alloc, bits, ext, subs)?;
    let lsb_bits = pictures.log2_max_pic_order_cnt_lsb_minus4 as u8 + 4;
    let coding = coding_of(alloc, bits, ext, lsb_bits)?;
    let (vui, extension) = ending_of(alloc, bits, subs)?;
    Ok(Sps {
        opening,
        pictures,
        coding,
        vui,
        extension,
        tail: None,
    })
}

#[tactic(auto, unfolding(crate::specs::Sps::sps_fields, crate::specs::Sps::behind_opening, crate::specs::Sps::ending))]
pub(crate) fn print_fields(
    out: &mut Printer,
    v: &Sps,
    layer: u8,
    vps_sub_layers: u8,
) -> Result<(), AllocError>
    requires few { subs_of layer vps_sub_layers v.now.0.opening.sps_max_sub_layers_minus1 ≤ 6 }
    requires lsb { v.now.0.pictures.log2_max_pic_order_cnt_lsb_minus4 ≤ 12 }
    requires valid { Valid (sps_fields layer vps_sub_layers) v.now.0 }
    ensures { OnOk result (out.new ≡ printed (sps_fields layer vps_sub_layers) v.now.0 out.old) }
{
    let ext = is_ext(layer, v.opening.sps_max_sub_layers_minus1);
    let subs = subs_of(layer, vps_sub_layers, v.opening.sps_max_sub_layers_minus1);
    let lsb_bits = v.pictures.log2_max_pic_order_cnt_lsb_minus4 as u8 + 4;
    print_opening(out, &v.opening, layer, vps_sub_layers)?;
    print_pictures(out, &v.pictures, ext, subs)?;
    print_coding(out, &v.coding, ext, lsb_bits)?;
    print_usability(out, &v.vui, subs)?;
    print_extension(out, &v.extension)?;
    Ok(())
}
