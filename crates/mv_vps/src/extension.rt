//! The extension of a video parameter set, and what is derived with it or without.

ghost use Rattle.std.specs.Prelude.{◌≡◌, ◌∷◌, [], OnOk, IfOk};
ghost use Rattle.mv_syntax.specs.Table.{when, Valid};
ghost use Rattle.mv_syntax.specs.Printed.{printed};
ghost use Rattle.mv_syntax.specs.Words.{is_set};
ghost use Rattle.mv_fields.specs.Reading.{ReadsAs};
ghost use Rattle.mv_vpsext.specs.Args.{AreVpsArgs};
ghost use Rattle.mv_vpsext.specs.VpsExt.{vps_extension};
ghost use Rattle.mv_vpsext.specs.Derived.{derived};
ghost use Rattle.mv_vps.specs.Base.{args_of};
ghost use Rattle.mv_vps.specs.Vps.{has_vui, has_extension2_flag, layer_0_alone, described};

use crate::base::VpsBase;
use mv_bits::BitReader;
use mv_fields::{Fault, Printer};
use mv_layers::{Derived, LayerInfo, Ols};
use mv_rules::Rule;
use mv_vpsext::{VpsArgs, VpsExt};
use std::alloc::{AllocError, Global};

// What the extension takes from the fields before it.
fn args_of(base: &VpsBase) -> VpsArgs<'_>
    ensures { result ≡ args_of base.now }
{
    VpsArgs {
        vps_max_layers_minus1: base.opening.vps_max_layers_minus1,
        vps_max_sub_layers_minus1: base.opening.vps_max_sub_layers_minus1,
        vps_max_layer_id: base.layer_sets.vps_max_layer_id,
        vps_num_layer_sets_minus1: base.layer_sets.vps_num_layer_sets_minus1,
        layer_id_included_flag: &base.layer_sets.layer_id_included_flag,
    }
}

// Layer 0 in a list of its own.
fn base_layer(alloc: Global) -> Result<Vec<u8>, AllocError>
    ensures { IfOk result (λ v. v.items ≡ 0 ∷ []) }
{
    let mut layers = Vec::new(alloc);
    layers.push(0)?;
    Ok(layers)
}

// What a video parameter set without an extension describes.
fn layer_0_alone(alloc: Global) -> Result<Derived, AllocError>
    ensures { IfOk result (λ d. d ≡ layer_0_alone) }
{
    let info = LayerInfo {
        layer: 0,
        view_order: 0,
        view_id: 0,
        directs: Vec::new(alloc),
        closure: base_layer(alloc)?,
    };
    let set = Ols {
        layers: base_layer(alloc)?,
        outputs: base_layer(alloc)?,
        necessary: base_layer(alloc)?,
        reorder: None,
    };
    let mut layers = Vec::new(alloc);
    layers.push(info)?;
    let mut sets = Vec::new(alloc);
    sets.push(set)?;
    Ok(Derived { layers, sets })
}

/// The extension behind these fields, where vps_extension_flag is 1, and what the two describe.
pub(crate) fn extension_of(
    alloc: Global,
    bits: &mut BitReader,
    base: &VpsBase,
) -> Result<(Option<VpsExt>, Derived), Fault<Rule>>
    requires { AreVpsArgs (args_of base.now) }
    ensures fills { ReadsAs (λ v. v.0) (when (is_set base.now.vps_extension_flag) (vps_extension (args_of base.now))) bits.old bits.new result }
    ensures derived { IfOk result (λ v. v.1 ≡ described (args_of base.now) v.0) }
{
    if base.vps_extension_flag != 1 {
        let derived = layer_0_alone(alloc)?;
        return Ok((None, derived));
    }
    let args = args_of(base);
    let (ext, derived) = VpsExt::part(alloc, bits, &args)?;
    Ok((Some(ext), derived))
}

/// Prints the extension behind these fields, where there is one.
pub(crate) fn print_extension(
    out: &mut Printer,
    base: &VpsBase,
    extension: &Option<VpsExt>,
) -> Result<(), AllocError>
    requires args { AreVpsArgs (args_of base.now) }
    requires valid { Valid (when (is_set base.now.vps_extension_flag) (vps_extension (args_of base.now))) extension.now }
    ensures { OnOk result (out.new ≡ printed (when (is_set base.now.vps_extension_flag) (vps_extension (args_of base.now))) extension.now out.old) }
{
    match extension {
        Some(ext) => {
            let args = args_of(base);
            ext.print(out, &args)
        }
        None => Ok(()),
    }
}

/// Whether there is an extension with a VUI, which is left unread.
pub(crate) fn has_vui(extension: &Option<VpsExt>) -> bool
    ensures { result ≡ has_vui extension.now }
{
    match extension {
        Some(ext) => ext.ending.vps_vui_present_flag == 1,
        None => false,
    }
}

/// Whether vps_extension2_flag is coded: behind an extension that has no VUI.
pub(crate) fn has_extension2_flag(extension: &Option<VpsExt>) -> bool
    ensures { result ≡ has_extension2_flag extension.now }
{
    match extension {
        Some(ext) => ext.ending.vps_vui_present_flag != 1,
        None => false,
    }
}
