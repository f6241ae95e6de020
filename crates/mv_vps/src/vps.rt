ghost use Rattle.std.specs.Prelude.{◌≡◌, ◌≤◌, ◌<◌, ◌^◌, [], length, OnOk, IfOk, ◌⊎◌};
ghost use Rattle.mv_syntax.specs.Table.{Valid};
ghost use Rattle.mv_syntax.specs.Printed.{bits, printed};
ghost use Rattle.mv_fields.specs.Output.{IsText};
ghost use Rattle.mv_fields.specs.Reading.{ReadsAs};
ghost use Rattle.mv_vpsext.specs.Args.{AreVpsArgs};
ghost use Rattle.mv_vps.specs.Base.{args_of};
ghost use Rattle.mv_vps.specs.Vps.{vps_fields, described};

use crate::base::{VpsBase, aligned_base_of, print_aligned_base};
use crate::extension::{extension_of, has_extension2_flag, print_extension};
use mv_bits::BitReader;
use mv_fields::{Fault, Printer, u8_if};
use mv_layers::Derived;
use mv_rules::Rule;
use mv_vpsext::VpsExt;
use std::alloc::{AllocError, Global};
use std::marker::Model;

/// A video parameter set (7.3.2.1, F.7.3.2.1): its fields in coded order, in parts, a tail, and what is derived from them. A
/// contract sees what is coded, which is the fields and the tail, and what is derived.
#[derive(Debug, Drop)]
pub struct Vps {
    pub base: VpsBase,
    /// Coded where vps_extension_flag is 1.
    pub extension: Option<VpsExt>,
    /// Coded behind an extension that has no VUI.
    pub vps_extension2_flag: Option<u8>,
    /// The bits of the VUI, or of vps_extension_data_flag where vps_extension2_flag is 1.
    pub tail: Option<Vec<bool>>,
    /// The layers and output layer sets, which aren't coded.
    pub derived: Derived,
}

impl Model for Vps {
    ghost use Rattle.std.specs.Prelude.{option_map};
    ghost use Rattle.mv_vps.specs.Vps.{WholeVps};

    ghost Value = { WholeVps };

    ghost view = { λ v. record {
      coded = (
        record {
          base = v.base;
          extension = v.extension;
          vps_extension2_flag = v.vps_extension2_flag;
        },
        option_map (λ t. t.items) v.tail,
      );
      derived = v.derived;
    } };
}

/// The fields of a video parameter set from the head of a payload, up to the tail, which is None here; and what is derived.
#[tactic(auto, using(crate::proofs::Extending::base_steps), unfolding(crate::specs::Vps::vps_fields))]
pub(crate) fn fields_of(alloc: Global, bits: &mut BitReader) -> Result<Vps, Fault<Rule>>
    requires at_head { bits.old.total ≡ length bits.old.left }
    requires few { bits.old.total < 2 ^ 64 }
    ensures fills { ReadsAs (λ v. v.coded.0) vps_fields bits.old bits.new result }
    ensures derived { IfOk result (λ v. v.derived ≡ described (args_of v.coded.0.base) v.coded.0.extension) }
{
    let base = aligned_base_of(alloc, bits)?;
    let (extension, derived) = extension_of(alloc, bits, &base)?;
    let vps_extension2_flag = u8_if(bits, has_extension2_flag(&extension), 1)?;
    Ok(Vps {
        base,
        extension,
        vps_extension2_flag,
        tail: None,
        derived,
    })
}

/// Prints the fields of a video parameter set at the head of a payload, up to the tail.
#[tactic(auto, unfolding(crate::specs::Vps::vps_fields))]
pub(crate) fn print_fields(out: &mut Printer, v: &Vps) -> Result<(), AllocError>
    requires at_head { (out.old ≡ bits []) ⊎ IsText out.old }
    requires few { v.now.coded.0.base.opening.vps_max_sub_layers_minus1 ≤ 6 }
    requires args { AreVpsArgs (args_of v.now.coded.0.base) }
    requires valid { Valid vps_fields v.now.coded.0 }
    ensures { OnOk result (out.new ≡ printed vps_fields v.now.coded.0 out.old) }
{
    print_aligned_base(out, &v.base)?;
    print_extension(out, &v.base, &v.extension)?;
    let has_flag = has_extension2_flag(&v.extension);
    out.flag_if(has_flag, "vps_extension2_flag", v.vps_extension2_flag)?;
    Ok(())
}
