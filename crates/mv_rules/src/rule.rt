ghost use Rattle.std.specs.Prelude.{◌≡◌};

use std::fmt;

/// The rules of refusal of this project's profile. A stream is refused at its first unit for which a
/// rule holds, by the least rule that holds there.
///
/// Syntax elements have their names in ITU-T H.265.
#[derive(Clone, Copy, Debug, PartialEq, Eq, Hash)]
pub enum Rule {
    // The byte stream and the unit.
    /// A byte that isn't zero, and isn't the end of a start code, stands before the first start code.
    Leading,
    /// The unit has fewer than 2 bytes, so it has no head.
    Short,
    /// The unit's first 16,777,216 bytes contain `00 00 00`, `00 00 02`, or `00 00 03` followed by a byte above `03`.
    Emulation,
    /// The unit has more than 16,777,216 bytes.
    Long,
    /// The head has forbidden_zero_bit 1 or nuh_temporal_id_plus1 0, or the type is 16 to 23 and TemporalId is above 0.
    Head,

    // The video parameter set.
    /// The payload isn't a VPS.
    VpsSyntax,
    /// vps_base_layer_internal_flag or vps_base_layer_available_flag is 0.
    ExternalBase,
    /// splitting_flag is 1.
    Splitting,
    /// scalability_mask_flag 0 is 1.
    Depth,
    /// scalability_mask_flag 2 is 1.
    Spatial,
    /// scalability_mask_flag 3 is 1.
    Auxiliary,
    /// A scalability_mask_flag from 4 to 15 is 1.
    ReservedDimension,
    /// There is more than one layer, and scalability_mask_flag 1 is 0.
    NoViewDimension,
    /// A layer has the view order index of an earlier one.
    SameView,
    /// num_add_layer_sets is above 0.
    AddedLayerSets,
    /// An alt_output_layer_flag is 1.
    AltOutput,
    /// A layer set lacks layer 0.
    LayerSetBase,
    /// A layer set has a layer and lacks one of its direct reference layers.
    LayerSetClosure,
    /// A layer set has a layer that the VPS hasn't.
    LayerSetUnknown,
    /// default_output_layer_idc is 3.
    ReservedOutput,
    /// A direct_dependency_type is above 2.
    DependencyType,
    /// A field of the VPS is past its limit, or the payload has more than 65,536 bytes.
    VpsLimit,
    /// A VPS of layer 0 has TemporalId above 0.
    VpsTid,
    /// No VPS was accepted before this unit, which needs one, or an SPS names another VPS.
    NoVps,

    // The sequence parameter set.
    /// The payload isn't an SPS.
    SpsSyntax,
    /// sps_range_extension_flag is 1.
    SpsRange,
    /// sps_3d_extension_flag is 1.
    Sps3d,
    /// sps_scc_extension_flag is 1.
    SpsScc,
    /// separate_colour_plane_flag is 1 in an SPS.
    ColourPlanes,
    /// An SPS has TemporalId above 0.
    SpsTid,
    /// A field of the SPS is past its limit, or the payload has more than 65,536 bytes.
    SpsLimit,

    // The picture parameter set.
    /// The payload isn't a PPS.
    PpsSyntax,
    /// pps_range_extension_flag is 1.
    PpsRange,
    /// pps_3d_extension_flag is 1.
    Pps3d,
    /// pps_scc_extension_flag is 1.
    PpsScc,
    /// poc_reset_info_present_flag is 1.
    PocReset,
    /// num_ref_loc_offsets is above 0.
    LocationOffsets,
    /// colour_mapping_enabled_flag is 1.
    ColourMapping,
    /// A field of the PPS is past its limit, or the payload has more than 65,536 bytes.
    PpsLimit,

    // The slice header and the access unit.
    /// No PPS with the slice's id is visible to its layer.
    MissingPps,
    /// No SPS with the id that the PPS names is visible to the layer, or its format index isn't in the VPS.
    MissingSps,
    /// The payload doesn't begin with a slice header, or a field of it is past its limit.
    SliceSyntax,
    /// cross_layer_bla_flag is 1.
    CrossLayerBla,
    /// The first slice unit of an access unit is of a layer above 0.
    NoBase,
    /// A first segment's layer isn't above the layers of the access unit's earlier pictures.
    LayerOrder,
    /// A later segment has no picture of its layer as the access unit's last picture.
    OrphanSlice,
    /// A later segment differs from its picture's first in a field that all segments of a picture share.
    SliceDiffers,
    /// A later segment's address is 0, isn't in the picture, or doesn't follow the preceding segment's.
    AddressOrder,
    /// A first segment's TemporalId isn't that of the access unit's first slice unit.
    TidDiffers,

    // Pictures, counts and references.
    /// A base picture where a sequence has to start isn't an IRAP picture.
    NoIrap,
    /// A decoded picture that isn't a start has another SPS than its layer's preceding decoded picture.
    SpsChanged,
    /// A decoded picture and one of its access unit that it refers to differ in size, chroma format or bit depth.
    FormatDiffers,
    /// A picture order count leaves the range from -2^31 to 2^31 - 1.
    PocRange,
    /// A picture above layer 0 hasn't the base picture's order count, or a start's coded bits of it differ.
    PocMismatch,
    /// The reference picture set of an IRAP picture has an entry that the picture uses.
    IrapRefers,
    /// A reference picture set has more than 15 entries.
    TooManyRefs,
    /// An entry that the current picture uses has no matching picture.
    MissingRef,
    /// An active reference layer has no decoded picture in the access unit.
    MissingInterLayer,
    /// A list_entry isn't below NumPicTotalCurr.
    ListEntry,
    /// A P or B segment has NumPicTotalCurr 0.
    NoRefs,
    /// A coded collocated_ref_idx isn't below the active entries of its list.
    Collocated,
    /// The picture is late for this output layer set, the least one for which it is.
    Reorder(u16),
    /// The input ended, and no base picture was decoded.
    NoPicture,
    /// A base picture that doesn't start a sequence stands in an access unit that has a changed VPS before it.
    VpsMidCvs,

    // The length-prefixed form.
    /// The input ended in a unit's length or in its bytes.
    Truncated,
    /// A unit's bytes contain a start code prefix.
    InnerCode,
    /// A unit's last byte is 0.
    LastZero,
}

impl Rule {
    ghost use Rattle.mv_rules.specs.Rule.{rule_number, rule_word};

    /// The rule's number, from 1 to 92, by which the program names it beside its name.
    pub fn number(&self) -> u8
        ensures { result ≡ rule_number self.now }
    {
        self.entry().0
    }

    /// The rule's name alone, without the output layer set of `Reorder`.
    pub fn name(&self) -> &'static str
        ensures { result.now ≡ rule_word self.now }
    {
        self.entry().1
    }

    // The number and the name: a line for each rule.
    fn entry(&self) -> (u8, &'static str)
        ensures number { result.0 ≡ rule_number self.now }
        ensures name { result.1.now ≡ rule_word self.now }
    {
        match self {
            Rule::Leading => (1, "Leading"),
            Rule::Short => (2, "Short"),
            Rule::Emulation => (3, "Emulation"),
            Rule::Long => (4, "Long"),
            Rule::Head => (5, "Head"),
            Rule::VpsSyntax => (10, "VpsSyntax"),
            Rule::ExternalBase => (11, "ExternalBase"),
            Rule::Splitting => (12, "Splitting"),
            Rule::Depth => (13, "Depth"),
            Rule::Spatial => (14, "Spatial"),
            Rule::Auxiliary => (15, "Auxiliary"),
            Rule::ReservedDimension => (16, "ReservedDimension"),
            Rule::NoViewDimension => (17, "NoViewDimension"),
            Rule::SameView => (18, "SameView"),
            Rule::AddedLayerSets => (19, "AddedLayerSets"),
            Rule::AltOutput => (20, "AltOutput"),
            Rule::LayerSetBase => (21, "LayerSetBase"),
            Rule::LayerSetClosure => (22, "LayerSetClosure"),
            Rule::LayerSetUnknown => (23, "LayerSetUnknown"),
            Rule::ReservedOutput => (24, "ReservedOutput"),
            Rule::DependencyType => (25, "DependencyType"),
            Rule::VpsLimit => (26, "VpsLimit"),
            Rule::VpsTid => (28, "VpsTid"),
            Rule::NoVps => (29, "NoVps"),
            Rule::SpsSyntax => (30, "SpsSyntax"),
            Rule::SpsRange => (31, "SpsRange"),
            Rule::Sps3d => (32, "Sps3d"),
            Rule::SpsScc => (33, "SpsScc"),
            Rule::ColourPlanes => (34, "ColourPlanes"),
            Rule::SpsTid => (35, "SpsTid"),
            Rule::SpsLimit => (36, "SpsLimit"),
            Rule::PpsSyntax => (40, "PpsSyntax"),
            Rule::PpsRange => (41, "PpsRange"),
            Rule::Pps3d => (42, "Pps3d"),
            Rule::PpsScc => (43, "PpsScc"),
            Rule::PocReset => (44, "PocReset"),
            Rule::LocationOffsets => (45, "LocationOffsets"),
            Rule::ColourMapping => (46, "ColourMapping"),
            Rule::PpsLimit => (47, "PpsLimit"),
            Rule::MissingPps => (50, "MissingPps"),
            Rule::MissingSps => (51, "MissingSps"),
            Rule::SliceSyntax => (52, "SliceSyntax"),
            Rule::CrossLayerBla => (53, "CrossLayerBla"),
            Rule::NoBase => (54, "NoBase"),
            Rule::LayerOrder => (55, "LayerOrder"),
            Rule::OrphanSlice => (56, "OrphanSlice"),
            Rule::SliceDiffers => (57, "SliceDiffers"),
            Rule::AddressOrder => (58, "AddressOrder"),
            Rule::TidDiffers => (59, "TidDiffers"),
            Rule::NoIrap => (60, "NoIrap"),
            Rule::SpsChanged => (61, "SpsChanged"),
            Rule::FormatDiffers => (62, "FormatDiffers"),
            Rule::PocRange => (63, "PocRange"),
            Rule::PocMismatch => (64, "PocMismatch"),
            Rule::IrapRefers => (65, "IrapRefers"),
            Rule::TooManyRefs => (66, "TooManyRefs"),
            Rule::MissingRef => (67, "MissingRef"),
            Rule::MissingInterLayer => (68, "MissingInterLayer"),
            Rule::ListEntry => (69, "ListEntry"),
            Rule::NoRefs => (70, "NoRefs"),
            Rule::Collocated => (71, "Collocated"),
            Rule::Reorder(_) => (72, "Reorder"),
            Rule::NoPicture => (73, "NoPicture"),
            Rule::VpsMidCvs => (74, "VpsMidCvs"),
            Rule::Truncated => (90, "Truncated"),
            Rule::InnerCode => (91, "InnerCode"),
            Rule::LastZero => (92, "LastZero"),
        }
    }
}

/// Writes the rule's name, and behind that of `Reorder` its output layer set, as `Reorder(1)`.
impl fmt::Display for Rule {
    ghost use Rattle.std.specs.Prelude.{Some};
    ghost use Rattle.mv_rules.specs.Rule.{rule_name};

    ghost output = { λ rule. Some (rule_name rule) };

    fn fmt<W: fmt::Write>(&self, f: &mut fmt::Formatter<W>) -> fmt::Result {
        match self {
            Rule::Reorder(set) => write!(f, "Reorder({set})"),
            _ => f.write_str(self.name()),
        }
    }
}
