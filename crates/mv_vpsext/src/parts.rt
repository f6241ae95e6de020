//! The parts of the extension, read and printed with its arguments: what each takes of them and of the parts before it.

ghost use Rattle.std.specs.Prelude.{◌≡◌, ℕ, ◌≤◌, [], get_or, length, IfOk, OnOk};
ghost use Rattle.mv_syntax.specs.Table.{Valid};
ghost use Rattle.mv_syntax.specs.Printed.{printed};
ghost use Rattle.mv_syntax.specs.Words.{◌otherwise◌};
ghost use Rattle.mv_fields.specs.Reading.{ReadsBy, ReadsAs};
ghost use Rattle.mv_vpsext.specs.Args.{AreVpsArgs};
ghost use Rattle.mv_vpslayers.specs.Dimensions.{dimensions};
ghost use Rattle.mv_vpslayers.specs.Dependencies.{dependencies};
ghost use Rattle.mv_vpsext.specs.Profiles.{profiles};
ghost use Rattle.mv_vpsext.specs.Formats.{formats};
ghost use Rattle.mv_vpsext.specs.Pictures.{pictures};
ghost use Rattle.mv_vpslayers.specs.DependencyTypes.{types};
ghost use Rattle.mv_vpssets.specs.OutputSets.{output_sets};
ghost use Rattle.mv_vpssets.specs.Sets.{all_sets};
ghost use Rattle.mv_vpsext.specs.VpsExt.{ext_layers, dpb_sizes};

use crate::args::VpsArgs;
use crate::formats::{VpsFormats, formats_of, print_formats};
use crate::pictures::{VpsPictures, pictures_of, print_pictures};
use crate::profiles::{VpsProfiles, print_profiles, profiles_of};
use mv_bits::BitReader;
use mv_fields::{Fault, Printer};
use mv_layers::{LayerInfo, OlsLayers};
use mv_rules::Rule;
use mv_vpslayers::{
    VpsDependencies, VpsDependencyTypes, VpsDimensions, dependencies_of, dimensions_of,
    layers_described, print_dependencies, print_dimensions, print_types, types_of,
};
use mv_vpssets::{
    DpbSizes, VpsOutputSets, all_dpb_layers_of, all_sets_of, dpb_size_of, output_sets_of,
    print_dpb_size, print_output_sets,
};
use std::alloc::{AllocError, Global};

/// What the first two parts say of each layer.
pub(crate) fn infos_of(
    alloc: Global,
    args: &VpsArgs,
    scalability: &VpsDimensions,
    references: &VpsDependencies,
) -> Result<Vec<LayerInfo>, AllocError>
    requires { AreVpsArgs args.now }
    ensures { IfOk result (λ v. v.items ≡ ext_layers args.now scalability.now references.now) }
{
    layers_described(
        alloc,
        args.vps_max_layers_minus1,
        &scalability.layers,
        &scalability.view_id_val,
        &references.direct_dependency_flag,
    )
}

/// The layers of the output layer sets, from 0 on, from the values of the fourth part.
#[tactic(auto, using(crate::proofs::Bounds::flags_within))]
pub(crate) fn sets_of(
    alloc: Global,
    args: &VpsArgs,
    infos: &[LayerInfo],
    outputs: &VpsOutputSets,
) -> Result<Vec<OlsLayers>, AllocError>
    requires { AreVpsArgs args.now }
    ensures { IfOk result (λ v. v.items ≡ all_sets infos.now args.now.layer_id_included_flag outputs.now) }
{
    all_sets_of(alloc, infos, args.layer_id_included_flag, outputs)
}

pub(crate) fn dimensions_in(
    alloc: Global,
    bits: &mut BitReader,
    args: &VpsArgs,
) -> Result<VpsDimensions, Fault<Rule>>
    requires { AreVpsArgs args.now }
    ensures { ReadsBy (dimensions args.now.vps_max_layers_minus1 args.now.vps_max_sub_layers_minus1) bits.old bits.new result }
{
    dimensions_of(
        alloc,
        bits,
        args.vps_max_layers_minus1,
        args.vps_max_sub_layers_minus1,
    )
}

pub(crate) fn dependencies_in(
    alloc: Global,
    bits: &mut BitReader,
    args: &VpsArgs,
    scalability: &VpsDimensions,
) -> Result<(VpsDependencies, Vec<LayerInfo>), Fault<Rule>>
    requires { AreVpsArgs args.now }
    ensures reads { ReadsAs (λ v. v.0) (dependencies args.now.vps_max_layers_minus1 scalability.now args.now.layer_id_included_flag) bits.old bits.new result }
    ensures layers { IfOk result (λ v. v.1.items ≡ ext_layers args.now scalability.now v.0) }
{
    dependencies_of(
        alloc,
        bits,
        args.vps_max_layers_minus1,
        scalability,
        args.layer_id_included_flag,
    )
}

pub(crate) fn profiles_in(
    alloc: Global,
    bits: &mut BitReader,
    args: &VpsArgs,
) -> Result<VpsProfiles, Fault<Rule>>
    requires { AreVpsArgs args.now }
    ensures { ReadsBy (profiles args.now.vps_max_sub_layers_minus1) bits.old bits.new result }
{
    profiles_of(alloc, bits, args.vps_max_sub_layers_minus1)
}

#[tactic(auto, using(crate::proofs::Bounds::flags_within))]
pub(crate) fn output_sets_in(
    alloc: Global,
    bits: &mut BitReader,
    args: &VpsArgs,
    infos: &[LayerInfo],
    levels: &VpsProfiles,
) -> Result<(VpsOutputSets, Vec<OlsLayers>), Fault<Rule>>
    requires args { AreVpsArgs args.now }
    requires profiles { levels.now.vps_num_profile_tier_level_minus1 ≤ 63 }
    ensures layers { IfOk result (λ v. v.1.items ≡ all_sets infos.now args.now.layer_id_included_flag v.0) }
    ensures reads { ReadsAs (λ v. v.0) (output_sets infos.now args.now.layer_id_included_flag levels.now.vps_num_profile_tier_level_minus1) bits.old bits.new result }
{
    output_sets_of(
        alloc,
        bits,
        infos,
        args.layer_id_included_flag,
        levels.vps_num_profile_tier_level_minus1,
    )
}

pub(crate) fn formats_in(
    alloc: Global,
    bits: &mut BitReader,
    args: &VpsArgs,
) -> Result<VpsFormats, Fault<Rule>>
    requires { AreVpsArgs args.now }
    ensures { ReadsBy (formats args.now.vps_max_layers_minus1) bits.old bits.new result }
{
    formats_of(alloc, bits, args.vps_max_layers_minus1)
}

pub(crate) fn pictures_in(
    alloc: Global,
    bits: &mut BitReader,
    args: &VpsArgs,
    references: &VpsDependencies,
) -> Result<VpsPictures, Fault<Rule>>
    requires { AreVpsArgs args.now }
    ensures { ReadsBy (pictures args.now.vps_max_layers_minus1 references.now.direct_dependency_flag) bits.old bits.new result }
{
    let flags = &references.direct_dependency_flag;
    pictures_of(alloc, bits, args.vps_max_layers_minus1, flags)
}

#[tactic(auto, unfolding(crate::specs::VpsExt::dpb_sizes, mv_vpssets::specs::Sets::all_dpb_layers))]
pub(crate) fn dpb_size_in(
    alloc: Global,
    bits: &mut BitReader,
    args: &VpsArgs,
    infos: &[LayerInfo],
    references: &VpsDependencies,
    sets: &[OlsLayers],
) -> Result<Vec<DpbSizes>, Fault<Rule>>
    requires args { AreVpsArgs args.now }
    requires some { 1 ≤ length sets.now }
    requires sub_layers { (k : ℕ) → get_or (references.now.sub_layers_vps_max_minus1 otherwise []) k 0 ≤ 6 }
    ensures { ReadsAs (λ v. v.items) (dpb_sizes args.now infos.now references.now sets.now) bits.old bits.new result }
{
    let layers = all_dpb_layers_of(
        alloc,
        infos,
        args.vps_max_sub_layers_minus1,
        &references.sub_layers_vps_max_minus1,
        sets,
    )?;
    dpb_size_of(alloc, bits, &layers)
}

pub(crate) fn types_in(
    alloc: Global,
    bits: &mut BitReader,
    args: &VpsArgs,
    references: &VpsDependencies,
) -> Result<VpsDependencyTypes, Fault<Rule>>
    requires { AreVpsArgs args.now }
    ensures { ReadsBy (types args.now.vps_max_layers_minus1 references.now.direct_dependency_flag) bits.old bits.new result }
{
    let flags = &references.direct_dependency_flag;
    types_of(alloc, bits, args.vps_max_layers_minus1, flags)
}

pub(crate) fn print_dimensions_in(
    out: &mut Printer,
    v: &VpsDimensions,
    args: &VpsArgs,
) -> Result<(), AllocError>
    requires args { AreVpsArgs args.now }
    requires valid { Valid (dimensions args.now.vps_max_layers_minus1 args.now.vps_max_sub_layers_minus1) v.now }
    ensures { OnOk result (out.new ≡ printed (dimensions args.now.vps_max_layers_minus1 args.now.vps_max_sub_layers_minus1) v.now out.old) }
{
    print_dimensions(
        out,
        v,
        args.vps_max_layers_minus1,
        args.vps_max_sub_layers_minus1,
    )
}

pub(crate) fn print_dependencies_in(
    out: &mut Printer,
    v: &VpsDependencies,
    args: &VpsArgs,
    scalability: &VpsDimensions,
    infos: &[LayerInfo],
) -> Result<(), AllocError>
    requires args { AreVpsArgs args.now }
    requires layers { infos.now ≡ ext_layers args.now scalability.now v.now }
    requires valid { Valid (dependencies args.now.vps_max_layers_minus1 scalability.now args.now.layer_id_included_flag) v.now }
    ensures { OnOk result (out.new ≡ printed (dependencies args.now.vps_max_layers_minus1 scalability.now args.now.layer_id_included_flag) v.now out.old) }
{
    print_dependencies(
        out,
        v,
        args.vps_max_layers_minus1,
        scalability,
        infos,
        args.layer_id_included_flag,
    )
}

pub(crate) fn print_profiles_in(
    out: &mut Printer,
    v: &VpsProfiles,
    args: &VpsArgs,
) -> Result<(), AllocError>
    requires args { AreVpsArgs args.now }
    requires valid { Valid (profiles args.now.vps_max_sub_layers_minus1) v.now }
    ensures { OnOk result (out.new ≡ printed (profiles args.now.vps_max_sub_layers_minus1) v.now out.old) }
{
    print_profiles(out, v, args.vps_max_sub_layers_minus1)
}

#[tactic(auto, using(crate::proofs::Bounds::flags_within))]
pub(crate) fn print_output_sets_in(
    out: &mut Printer,
    v: &VpsOutputSets,
    args: &VpsArgs,
    infos: &[LayerInfo],
    levels: &VpsProfiles,
) -> Result<(), AllocError>
    requires args { AreVpsArgs args.now }
    requires profiles { levels.now.vps_num_profile_tier_level_minus1 ≤ 63 }
    requires valid { Valid (output_sets infos.now args.now.layer_id_included_flag levels.now.vps_num_profile_tier_level_minus1) v.now }
    ensures { OnOk result (out.new ≡ printed (output_sets infos.now args.now.layer_id_included_flag levels.now.vps_num_profile_tier_level_minus1) v.now out.old) }
{
    print_output_sets(
        out,
        v,
        infos,
        args.layer_id_included_flag,
        levels.vps_num_profile_tier_level_minus1,
    )
}

pub(crate) fn print_formats_in(
    out: &mut Printer,
    v: &VpsFormats,
    args: &VpsArgs,
) -> Result<(), AllocError>
    requires args { AreVpsArgs args.now }
    requires valid { Valid (formats args.now.vps_max_layers_minus1) v.now }
    ensures { OnOk result (out.new ≡ printed (formats args.now.vps_max_layers_minus1) v.now out.old) }
{
    print_formats(out, v, args.vps_max_layers_minus1)
}

pub(crate) fn print_pictures_in(
    out: &mut Printer,
    v: &VpsPictures,
    args: &VpsArgs,
    references: &VpsDependencies,
) -> Result<(), AllocError>
    requires args { AreVpsArgs args.now }
    requires valid { Valid (pictures args.now.vps_max_layers_minus1 references.now.direct_dependency_flag) v.now }
    ensures { OnOk result (out.new ≡ printed (pictures args.now.vps_max_layers_minus1 references.now.direct_dependency_flag) v.now out.old) }
{
    let flags = &references.direct_dependency_flag;
    print_pictures(out, v, args.vps_max_layers_minus1, flags)
}

#[tactic(auto, unfolding(crate::specs::VpsExt::dpb_sizes, mv_vpssets::specs::Sets::all_dpb_layers))]
pub(crate) fn print_dpb_size_in(
    alloc: Global,
    out: &mut Printer,
    all: &[DpbSizes],
    args: &VpsArgs,
    infos: &[LayerInfo],
    references: &VpsDependencies,
    sets: &[OlsLayers],
) -> Result<(), AllocError>
    requires args { AreVpsArgs args.now }
    requires some { 1 ≤ length sets.now }
    requires sub_layers { (k : ℕ) → get_or (references.now.sub_layers_vps_max_minus1 otherwise []) k 0 ≤ 6 }
    requires valid { Valid (dpb_sizes args.now infos.now references.now sets.now) all.now }
    ensures { OnOk result (out.new ≡ printed (dpb_sizes args.now infos.now references.now sets.now) all.now out.old) }
{
    let layers = all_dpb_layers_of(
        alloc,
        infos,
        args.vps_max_sub_layers_minus1,
        &references.sub_layers_vps_max_minus1,
        sets,
    )?;
    print_dpb_size(out, all, &layers)
}

pub(crate) fn print_types_in(
    out: &mut Printer,
    v: &VpsDependencyTypes,
    args: &VpsArgs,
    references: &VpsDependencies,
) -> Result<(), AllocError>
    requires args { AreVpsArgs args.now }
    requires valid { Valid (types args.now.vps_max_layers_minus1 references.now.direct_dependency_flag) v.now }
    ensures { OnOk result (out.new ≡ printed (types args.now.vps_max_layers_minus1 references.now.direct_dependency_flag) v.now out.old) }
{
    let flags = &references.direct_dependency_flag;
    print_types(out, v, args.vps_max_layers_minus1, flags)
}
