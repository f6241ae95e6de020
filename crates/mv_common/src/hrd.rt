ghost use Rattle.std.specs.Prelude.{◌≡◌, ◌≤◌, ◌++◌, OnOk, OnErr};
ghost use Rattle.mv_syntax.specs.Table.{Valid, bits_of};
ghost use Rattle.mv_syntax.specs.Printed.{printed};
ghost use Rattle.mv_fields.specs.Reading.{AnswersShared, ReadsShared};
ghost use Rattle.mv_common.specs.Hrd.{hrd_parameters, flags_before};

use crate::hrd_common::{HrdCommon, HrdFlags, flags_in_force, hrd_common_if, print_hrd_common_if};
use crate::hrd_sub_layer::{HrdSubLayer, hrd_sub_layers_of, print_hrd_sub_layers};
use mv_bits::{BitReader, BitWriter};
use mv_fields::{Fault, Limit, Printer};
use std::alloc::{AllocError, Global};
use std::marker::Model;

/// The arguments of hrd_parameters (E.2.2): whether the first group is coded, and how many sub-layers stand below the
/// highest, at most 6. `nal`, `vcl` and `sub_pic` are the flags in force at the hrd_parameters before, which count only
/// where the first group isn't coded.
#[derive(Clone, Copy, Debug, PartialEq, Eq)]
pub struct HrdArgs {
    pub common: bool,
    pub subs: u8,
    pub nal: bool,
    pub vcl: bool,
    pub sub_pic: bool,
}

/// hrd_parameters (E.2.2): the first group, and the fields of each sub-layer.
#[derive(Debug, Drop)]
pub struct Hrd {
    pub common: Option<HrdCommon>,
    pub sub_layers: Vec<HrdSubLayer>,
}

impl Model for Hrd {
    ghost use Rattle.mv_common.specs.Hrd.{HrdValue};

    ghost Value = { HrdValue };

    ghost view = { λ h. record { common = h.common; sub_layers = h.sub_layers.items } };
}

#[tactic(auto, unfolding(crate::specs::Hrd::hrd_parameters))]
pub(crate) fn hrd_of(
    alloc: Global,
    bits: &mut BitReader,
    common: bool,
    subs: u8,
    before: HrdFlags,
) -> Result<Hrd, Fault<Limit>>
    requires { subs ≤ 6 }
    ensures { ReadsShared (hrd_parameters common subs before) bits.old bits.new result }
{
    let common = hrd_common_if(bits, common)?;
    let flags = flags_in_force(&common, before);
    let sub_layers = hrd_sub_layers_of(alloc, bits, subs, flags)?;
    Ok(Hrd { common, sub_layers })
}

#[tactic(auto, unfolding(crate::specs::Hrd::hrd_parameters))]
pub(crate) fn print_hrd(
    out: &mut Printer,
    v: &Hrd,
    common: bool,
    subs: u8,
    before: HrdFlags,
) -> Result<(), AllocError>
    requires { Valid (hrd_parameters common subs before) v.now }
    ensures { OnOk result (out.new ≡ printed (hrd_parameters common subs before) v.now out.old) }
{
    let flags = flags_in_force(&v.common, before);
    print_hrd_common_if(out, common, &v.common)?;
    print_hrd_sub_layers(out, &v.sub_layers, subs, flags)?;
    Ok(())
}

impl Hrd {
    /// Reads hrd_parameters (E.2.2).
    ///
    /// `NoBits` where the bits end before or in a field or hold no code there, and no earlier field is past its limit;
    /// `Breaks(Limit)` where cpb_cnt_minus1 of a sub-layer is over 31 and all before it could be read; `Memory` where memory
    /// runs out. After a fault the reader stands where it stood.
    pub fn read(alloc: Global, bits: &mut BitReader, args: &HrdArgs) -> Result<Hrd, Fault<Limit>>
        requires { args.now.subs ≤ 6 }
        ensures { AnswersShared (hrd_parameters args.now.common args.now.subs (flags_before args.now)) bits.old bits.new result }
    {
        let before = HrdFlags {
            nal: args.nal,
            vcl: args.vcl,
            sub_pic: args.sub_pic,
        };
        let mut ahead = bits.fork();
        match hrd_of(alloc, &mut ahead, args.common, args.subs, before) {
            Ok(value) => {
                *bits = ahead;
                Ok(value)
            }
            Err(fault) => Err(fault),
        }
    }

    /// Prints hrd_parameters (E.2.2).
    ///
    /// `AllocError` where memory runs out.
    pub fn print(&self, out: &mut Printer, args: &HrdArgs) -> Result<(), AllocError>
        requires subs { args.now.subs ≤ 6 }
        requires valid { Valid (hrd_parameters args.now.common args.now.subs (flags_before args.now)) self.now }
        ensures { OnOk result (out.new ≡ printed (hrd_parameters args.now.common args.now.subs (flags_before args.now)) self.now out.old) }
    {
        let before = HrdFlags {
            nal: args.nal,
            vcl: args.vcl,
            sub_pic: args.sub_pic,
        };
        print_hrd(out, self, args.common, args.subs, before)
    }

    /// Writes hrd_parameters (E.2.2).
    ///
    /// `AllocError` where memory runs out: the writer is then unchanged.
    pub fn write(&self, out: &mut BitWriter, args: &HrdArgs) -> Result<(), AllocError>
        requires subs { args.now.subs ≤ 6 }
        requires valid { Valid (hrd_parameters args.now.common args.now.subs (flags_before args.now)) self.now }
        ensures ok { OnOk result (out.new ≡ out.old ++ bits_of (hrd_parameters args.now.common args.now.subs (flags_before args.now)) self.now) }
        ensures err { OnErr result (out.new ≡ out.old) }
    {
        let mut own = Printer::beside(out);
        self.print(&mut own, args)?;
        own.append_to(out)
    }
}
