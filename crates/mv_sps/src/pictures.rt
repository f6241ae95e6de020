ghost use Rattle.std.specs.Prelude.{◌≡◌, ◌≤◌, OnOk, IfOk};
ghost use Rattle.mv_syntax.specs.Table.{Valid};
ghost use Rattle.mv_syntax.specs.Printed.{printed};
ghost use Rattle.mv_fields.specs.Reading.{ReadsBy};
ghost use Rattle.mv_sps.specs.Pictures.{pictures};

use crate::picture_format::{SpsPictureFormat, picture_format_if, print_picture_format_if};
use crate::rep_format::{SpsRepFormat, print_rep_format_if, rep_format_if};
use crate::shared::{ordering_if, print_ordering_if};
use mv_bits::BitReader;
use mv_common::SubLayerOrdering;
use mv_fields::{Fault, Printer, ue_within};
use mv_rules::Rule;
use std::alloc::{AllocError, Global};
use std::marker::Model;

/// The pictures: their format, or its index in the VPS; how many low bits of their order counts slices code; and what the
/// sub-layers ask of a decoder.
#[derive(Debug, Drop)]
pub struct SpsPictures {
    pub rep_format: Option<SpsRepFormat>,
    pub picture_format: Option<SpsPictureFormat>,
    pub log2_max_pic_order_cnt_lsb_minus4: u32,
    pub ordering: Option<SubLayerOrdering>,
}

impl Model for SpsPictures {
    ghost use Rattle.mv_sps.specs.Pictures.{SpsPicturesValue};

    ghost Value = { SpsPicturesValue };

    ghost view = { λ p. record {
      rep_format = p.rep_format;
      picture_format = p.picture_format;
      log2_max_pic_order_cnt_lsb_minus4 = p.log2_max_pic_order_cnt_lsb_minus4;
      ordering = p.ordering;
    } };
}

#[tactic(auto, unfolding(crate::specs::Pictures::pictures))]
pub(crate) fn pictures_of(
    alloc: Global,
    bits: &mut BitReader,
    ext: bool,
    subs: u8,
) -> Result<SpsPictures, Fault<Rule>>
    requires { subs ≤ 6 }
    ensures fills { ReadsBy (pictures ext subs) bits.old bits.new result }
    ensures few { IfOk result (λ v. v.log2_max_pic_order_cnt_lsb_minus4 ≤ 12) }
{
    let rep_format = rep_format_if(bits, ext)?;
    let picture_format = picture_format_if(bits, !ext)?;
    let log2_max_pic_order_cnt_lsb_minus4 = ue_within(bits, Rule::SpsLimit, 12)?;
    let ordering = ordering_if(alloc, bits, !ext, subs)?;
    Ok(SpsPictures {
        rep_format,
        picture_format,
        log2_max_pic_order_cnt_lsb_minus4,
        ordering,
    })
}

#[tactic(auto, unfolding(crate::specs::Pictures::pictures))]
pub(crate) fn print_pictures(
    out: &mut Printer,
    v: &SpsPictures,
    ext: bool,
    subs: u8,
) -> Result<(), AllocError>
    requires { Valid (pictures ext subs) v.now }
    ensures { OnOk result (out.new ≡ printed (pictures ext subs) v.now out.old) }
{
    print_rep_format_if(out, ext, &v.rep_format)?;
    print_picture_format_if(out, !ext, &v.picture_format)?;
    out.ue(
        "log2_max_pic_order_cnt_lsb_minus4",
        v.log2_max_pic_order_cnt_lsb_minus4,
    )?;
    print_ordering_if(out, !ext, &v.ordering, subs)?;
    Ok(())
}
