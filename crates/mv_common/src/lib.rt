//! The syntax structures that several headers share (H.265 7.3.3, 7.3.4, E.2): each read and written exactly.
#![tactic(auto)]

mod cpb;
mod format;
mod hrd;
mod hrd_common;
mod hrd_sub_layer;
mod in_header;
mod laws;
mod profile;
mod profile_tier;
mod scaling_lists;
mod sub_layer_ordering;
mod vui;
mod vui_parts;

pub use cpb::Cpb;
pub use format::Format;
pub use hrd::{Hrd, HrdArgs};
pub use hrd_common::{HrdCommon, HrdFlags, flags_in_force};
pub use hrd_sub_layer::HrdSubLayer;
pub use in_header::{print_scaling_lists_if, scaling_lists_if};
pub use laws::{hrd_laws, profile_tier_laws, scaling_list_laws, vui_laws};
pub use profile::Profile;
pub use profile_tier::{ProfileArgs, ProfileTier};
pub use scaling_lists::{ScalingArgs, ScalingList, ScalingLists, ScalingListsOfSize};
pub use sub_layer_ordering::{ParameterSet, SubLayer, SubLayerOrdering};
pub use vui::{Vui, VuiArgs, VuiTiming};
pub use vui_parts::{
    AspectRatio, BitstreamRestriction, ChromaLocation, DisplayWindow, Overscan, VideoSignalType,
};
