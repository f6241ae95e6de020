use super::*;
use std::test::Fail;

// Each rule's number, and what Display writes of it.
static RULES: [(Rule, u8, &str); 68] = [
    (Rule::Leading, 1, "Leading"),
    (Rule::Short, 2, "Short"),
    (Rule::Emulation, 3, "Emulation"),
    (Rule::Long, 4, "Long"),
    (Rule::Head, 5, "Head"),
    (Rule::VpsSyntax, 10, "VpsSyntax"),
    (Rule::ExternalBase, 11, "ExternalBase"),
    (Rule::Splitting, 12, "Splitting"),
    (Rule::Depth, 13, "Depth"),
    (Rule::Spatial, 14, "Spatial"),
    (Rule::Auxiliary, 15, "Auxiliary"),
    (Rule::ReservedDimension, 16, "ReservedDimension"),
    (Rule::NoViewDimension, 17, "NoViewDimension"),
    (Rule::SameView, 18, "SameView"),
    (Rule::AddedLayerSets, 19, "AddedLayerSets"),
    (Rule::AltOutput, 20, "AltOutput"),
    (Rule::LayerSetBase, 21, "LayerSetBase"),
    (Rule::LayerSetClosure, 22, "LayerSetClosure"),
    (Rule::LayerSetUnknown, 23, "LayerSetUnknown"),
    (Rule::ReservedOutput, 24, "ReservedOutput"),
    (Rule::DependencyType, 25, "DependencyType"),
    (Rule::VpsLimit, 26, "VpsLimit"),
    (Rule::VpsTid, 28, "VpsTid"),
    (Rule::NoVps, 29, "NoVps"),
    (Rule::SpsSyntax, 30, "SpsSyntax"),
    (Rule::SpsRange, 31, "SpsRange"),
    (Rule::Sps3d, 32, "Sps3d"),
    (Rule::SpsScc, 33, "SpsScc"),
    (Rule::ColourPlanes, 34, "ColourPlanes"),
    (Rule::SpsTid, 35, "SpsTid"),
    (Rule::SpsLimit, 36, "SpsLimit"),
    (Rule::PpsSyntax, 40, "PpsSyntax"),
    (Rule::PpsRange, 41, "PpsRange"),
    (Rule::Pps3d, 42, "Pps3d"),
    (Rule::PpsScc, 43, "PpsScc"),
    (Rule::PocReset, 44, "PocReset"),
    (Rule::LocationOffsets, 45, "LocationOffsets"),
    (Rule::ColourMapping, 46, "ColourMapping"),
    (Rule::PpsLimit, 47, "PpsLimit"),
    (Rule::MissingPps, 50, "MissingPps"),
    (Rule::MissingSps, 51, "MissingSps"),
    (Rule::SliceSyntax, 52, "SliceSyntax"),
    (Rule::CrossLayerBla, 53, "CrossLayerBla"),
    (Rule::NoBase, 54, "NoBase"),
    (Rule::LayerOrder, 55, "LayerOrder"),
    (Rule::OrphanSlice, 56, "OrphanSlice"),
    (Rule::SliceDiffers, 57, "SliceDiffers"),
    (Rule::AddressOrder, 58, "AddressOrder"),
    (Rule::TidDiffers, 59, "TidDiffers"),
    (Rule::NoIrap, 60, "NoIrap"),
    (Rule::SpsChanged, 61, "SpsChanged"),
    (Rule::FormatDiffers, 62, "FormatDiffers"),
    (Rule::PocRange, 63, "PocRange"),
    (Rule::PocMismatch, 64, "PocMismatch"),
    (Rule::IrapRefers, 65, "IrapRefers"),
    (Rule::TooManyRefs, 66, "TooManyRefs"),
    (Rule::MissingRef, 67, "MissingRef"),
    (Rule::MissingInterLayer, 68, "MissingInterLayer"),
    (Rule::ListEntry, 69, "ListEntry"),
    (Rule::NoRefs, 70, "NoRefs"),
    (Rule::Collocated, 71, "Collocated"),
    (Rule::Reorder(1), 72, "Reorder(1)"),
    (Rule::Reorder(65535), 72, "Reorder(65535)"),
    (Rule::NoPicture, 73, "NoPicture"),
    (Rule::VpsMidCvs, 74, "VpsMidCvs"),
    (Rule::Truncated, 90, "Truncated"),
    (Rule::InnerCode, 91, "InnerCode"),
    (Rule::LastZero, 92, "LastZero"),
];

#[test]
fn rules_by_number_and_name(rt: HostRuntime) -> Result<(), Fail> {
    for (rule, number, text) in &RULES {
        assert_eq!(rt; rule.number(), *number);
        assert_eq!(rt; rule.to_string(rt.alloc())?.as_str(), *text);
        assert!(rt; text.starts_with(rule.name()));
    }
    Ok(())
}
