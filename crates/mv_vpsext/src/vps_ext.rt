ghost use Rattle.std.specs.Prelude.{◌≡◌, ◌++◌, IfOk, OnOk, OnErr, MatchResult};
ghost use Rattle.mv_syntax.specs.Table.{Valid, Reads, Cut, bits_of};
ghost use Rattle.mv_syntax.specs.Printed.{printed};
ghost use Rattle.mv_rules.specs.declared.rule.Rule.TheVariants.{VpsSyntax};
ghost use Rattle.mv_fields.specs.Reading.{ReadsAs, ReadsWhole};
ghost use Rattle.mv_vpsext.specs.Args.{AreVpsArgs};
ghost use Rattle.mv_vpsext.specs.VpsExt.{vps_extension};
ghost use Rattle.mv_vpsext.specs.Derived.{derived};

use crate::args::VpsArgs;
use crate::derived::all_ols;
use crate::ending::{VpsExtEnding, ending_of, print_ending};
use crate::formats::VpsFormats;
use crate::parts::{
    dependencies_in, dimensions_in, dpb_size_in, formats_in, infos_of, output_sets_in, pictures_in,
    print_dependencies_in, print_dimensions_in, print_dpb_size_in, print_formats_in,
    print_output_sets_in, print_pictures_in, print_profiles_in, print_types_in, profiles_in,
    sets_of, types_in,
};
use crate::pictures::VpsPictures;
use crate::profiles::VpsProfiles;
use mv_bits::{BitReader, BitWriter};
use mv_fields::{Fault, Printer};
use mv_layers::Derived;
use mv_rules::{ReadFault, Rule};
use mv_vpslayers::{VpsDependencies, VpsDependencyTypes, VpsDimensions};
use mv_vpssets::{DpbSizes, VpsOutputSets};
use std::alloc::{AllocError, Global};
use std::marker::Model;

/// The extension of a video parameter set (F.7.3.2.1.1): its fields in coded order, in parts.
#[derive(Debug, Drop)]
pub struct VpsExt {
    pub dimensions: VpsDimensions,
    pub dependencies: VpsDependencies,
    pub profiles: VpsProfiles,
    pub output_sets: VpsOutputSets,
    pub formats: VpsFormats,
    pub pictures: VpsPictures,
    /// Of the output layer sets from 1 on.
    pub dpb_size: Vec<DpbSizes>,
    pub dependency_types: VpsDependencyTypes,
    pub ending: VpsExtEnding,
}

impl Model for VpsExt {
    ghost use Rattle.mv_vpsext.specs.VpsExt.{VpsExtValue};

    ghost Value = { VpsExtValue };

    ghost view = { λ e. record {
      dimensions = e.dimensions;
      dependencies = e.dependencies;
      profiles = e.profiles;
      output_sets = e.output_sets;
      formats = e.formats;
      pictures = e.pictures;
      dpb_size = e.dpb_size.items;
      dependency_types = e.dependency_types;
      ending = e.ending;
    } };
}

impl VpsExt {
    /// Reads the extension of a video parameter set (F.7.3.2.1.1) as a part of it, and gives with it the layers and the output
    /// layer sets that the video parameter set describes (F.7.4.3.1.1).
    ///
    /// `Breaks` with the first rule that a field breaks, all fields before it being read, and the least of those that one
    /// breaks: `Splitting`, `Depth`, `Spatial`, `Auxiliary`, `ReservedDimension`, `NoViewDimension`, `SameView`,
    /// `AddedLayerSets`, `AltOutput`, `LayerSetBase`, `LayerSetClosure`, `LayerSetUnknown`, `ReservedOutput` or
    /// `DependencyType`, as each names it, and `VpsLimit` where a field is past its limit. `NoBits` where no rule is broken and
    /// the bits end before or in a field. `Memory` where memory runs out.
    #[tactic(auto, unfolding(crate::specs::VpsExt::vps_extension), using(crate::proofs::Bounds::sub_layers_of_read, crate::proofs::Bounds::profiles_of_read))]
    pub fn part(
        alloc: Global,
        bits: &mut BitReader,
        args: &VpsArgs,
    ) -> Result<(VpsExt, Derived), Fault<Rule>>
        requires { AreVpsArgs args.now }
        ensures reads { ReadsAs (λ v. v.0) (vps_extension args.now) bits.old bits.new result }
        ensures derived { IfOk result (λ v. v.1 ≡ derived args.now v.0) }
    {
        let dimensions = dimensions_in(alloc, bits, args)?;
        let (dependencies, layers) = dependencies_in(alloc, bits, args, &dimensions)?;
        let profiles = profiles_in(alloc, bits, args)?;
        let (output_sets, sets) = output_sets_in(alloc, bits, args, &layers, &profiles)?;
        let formats = formats_in(alloc, bits, args)?;
        let pictures = pictures_in(alloc, bits, args, &dependencies)?;
        let dpb_size = dpb_size_in(alloc, bits, args, &layers, &dependencies, &sets)?;
        let dependency_types = types_in(alloc, bits, args, &dependencies)?;
        let ending = ending_of(alloc, bits)?;
        let sets = all_ols(alloc, sets, &dpb_size)?;
        let ext = VpsExt {
            dimensions,
            dependencies,
            profiles,
            output_sets,
            formats,
            pictures,
            dpb_size,
            dependency_types,
            ending,
        };
        Ok((ext, Derived { layers, sets }))
    }

    /// Reads the extension of a video parameter set (F.7.3.2.1.1), as `part` does.
    ///
    /// `Refused` with the rule that `part` finds broken, or with `VpsSyntax` where it finds too few bits. `Memory` where memory
    /// runs out. After a fault the reader stands where it stood.
    pub fn read(
        alloc: Global,
        bits: &mut BitReader,
        args: &VpsArgs,
    ) -> Result<(VpsExt, Derived), ReadFault>
        requires { AreVpsArgs args.now }
        ensures answers { ReadsWhole (λ v. Reads (vps_extension args.now) bits.old.left v.0 bits.new.left) (Cut (vps_extension args.now) bits.old.left) VpsSyntax result }
        ensures derived { IfOk result (λ v. v.1 ≡ derived args.now v.0) }
        ensures place { MatchResult result (λ _. bits.new.total ≡ bits.old.total) (λ _. bits.new ≡ bits.old) }
    {
        let mut ahead = bits.fork();
        match VpsExt::part(alloc, &mut ahead, args) {
            Ok(value) => {
                *bits = ahead;
                Ok(value)
            }
            Err(fault) => Err(fault.refusal(Rule::VpsSyntax)),
        }
    }

    /// Prints the extension of a video parameter set (F.7.3.2.1.1).
    ///
    /// `AllocError` where memory runs out.
    #[tactic(auto, unfolding(crate::specs::VpsExt::vps_extension), using(crate::proofs::Bounds::sub_layers_of_valid, crate::proofs::Bounds::profiles_of_valid))]
    pub fn print(&self, out: &mut Printer, args: &VpsArgs) -> Result<(), AllocError>
        requires args { AreVpsArgs args.now }
        requires valid { Valid (vps_extension args.now) self.now }
        ensures { OnOk result (out.new ≡ printed (vps_extension args.now) self.now out.old) }
    {
        let alloc = *self.dpb_size.allocator();
        let infos = infos_of(alloc, args, &self.dimensions, &self.dependencies)?;
        let sets = sets_of(alloc, args, &infos, &self.output_sets)?;
        print_dimensions_in(out, &self.dimensions, args)?;
        print_dependencies_in(out, &self.dependencies, args, &self.dimensions, &infos)?;
        print_profiles_in(out, &self.profiles, args)?;
        print_output_sets_in(out, &self.output_sets, args, &infos, &self.profiles)?;
        print_formats_in(out, &self.formats, args)?;
        print_pictures_in(out, &self.pictures, args, &self.dependencies)?;
        print_dpb_size_in(
            alloc,
            out,
            &self.dpb_size,
            args,
            &infos,
            &self.dependencies,
            &sets,
        )?;
        print_types_in(out, &self.dependency_types, args, &self.dependencies)?;
        print_ending(out, &self.ending)?;
        Ok(())
    }

    /// Writes the extension of a video parameter set (F.7.3.2.1.1).
    ///
    /// `AllocError` where memory runs out: the writer is then unchanged.
    pub fn write(&self, out: &mut BitWriter, args: &VpsArgs) -> Result<(), AllocError>
        requires args { AreVpsArgs args.now }
        requires valid { Valid (vps_extension args.now) self.now }
        ensures ok { OnOk result (out.new ≡ out.old ++ bits_of (vps_extension args.now) self.now) }
        ensures err { OnErr result (out.new ≡ out.old) }
    {
        let mut own = Printer::beside(out);
        self.print(&mut own, args)?;
        own.append_to(out)
    }

    /// The layers and the output layer sets of the video parameter set (F.7.4.3.1.1).
    ///
    /// `AllocError` where memory runs out.
    pub fn derive(&self, alloc: Global, args: &VpsArgs) -> Result<Derived, AllocError>
        requires args { AreVpsArgs args.now }
        requires valid { Valid (vps_extension args.now) self.now }
        ensures { IfOk result (λ d. d ≡ derived args.now self.now) }
    {
        let layers = infos_of(alloc, args, &self.dimensions, &self.dependencies)?;
        let sets = sets_of(alloc, args, &layers, &self.output_sets)?;
        let sets = all_ols(alloc, sets, &self.dpb_size)?;
        Ok(Derived { layers, sets })
    }
}
