//! Laws of parameter sets and of the headers that take from them. Each function has an empty body, and its contract is the law.
#![tactic(auto)]

ghost use Rattle.std.specs.Prelude.{ℕ, ◌≡◌, true, Bool, List, Option, Some};
ghost use Rattle.mv_common.specs.declared.format.Format.{Format};
ghost use Rattle.mv_contexts.specs.PpsFits.{PpsFits};
ghost use Rattle.mv_contexts.specs.Sets.{IsSized};
ghost use Rattle.mv_contexts.specs.SpsFits.{SpsFits};
ghost use Rattle.mv_contexts.specs.Units.{header_in};
ghost use Rattle.mv_contexts.specs.VpsFits.{VpsFits};
ghost use Rattle.mv_layers.specs.LayerInfos.{is_known};
ghost use Rattle.mv_vps.specs.Vps.{ValidVps, WholeVps};
ghost use Rattle.mv_pictures.specs.Contexts.{format_of};
ghost use Rattle.mv_pictures.specs.Facts.{header_of};
ghost use Rattle.mv_pictures.specs.Items.{Item};
ghost use Rattle.mv_pps.specs.Pps.{PpsValue, pps};
ghost use Rattle.mv_slice.specs.Context.{SliceContextValue};
ghost use Rattle.mv_sps.specs.Sps.{SpsValue, sps_payload};
ghost use Rattle.mv_syntax.specs.Payload.{ValidPayload};

/// The fields of a valid picture parameter set that slice segment headers take are within their limits (7.3.2.3.1).
pub fn a_valid_picture_parameter_set_fits()
    ensures { (v : PpsValue) (tail : Option (List Bool)) → ValidPayload pps (v, tail) → PpsFits v }
{}

/// The fields of a valid sequence parameter set that slice segment headers take are within their limits (7.3.2.2.1).
pub fn a_valid_sequence_parameter_set_fits()
    ensures { (layer vps_sub_layers : ℕ) (v : SpsValue) (tail : Option (List Bool)) → ValidPayload (sps_payload layer vps_sub_layers) (v, tail) → SpsFits v }
{}

/// The header of a slice segment in a stream is that of its unit.
pub fn a_header_is_that_of_its_unit()
    ensures { (i : Item) (ctx : SliceContextValue) → header_of i ctx ≡ header_in ctx i.head i.bytes }
{}

/// What slice segment headers take from a valid video parameter set for one of its layers is within its limits (F.7.3.2.1.1).
pub fn a_valid_video_parameter_set_fits()
    ensures { (v : WholeVps) (layer : ℕ) → ValidVps v → is_known v.derived.layers layer ≡ true → VpsFits v layer }
{}

/// The format that a valid sequence parameter set gives a layer, by itself or by a format of a valid video parameter set, has some
/// samples, and at most 16384 in width and in height (7.4.3.2.1, F.7.4.3.1.1; this project's profile).
pub fn a_format_has_a_size()
    ensures { (v : WholeVps) (layer id vps_sub_layers : ℕ) (sps : SpsValue) (tail : Option (List Bool)) (format : Format) → ValidVps v →
        ValidPayload (sps_payload id vps_sub_layers) (sps, tail) → format_of v layer sps ≡ Some format → IsSized format }
{}
