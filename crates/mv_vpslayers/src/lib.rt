//! The layers that the extension of a video parameter set codes: their dimensions and views, and what each depends on
//! (H.265 F.7.3.2.1.1, F.7.4.3.1.1). Each part is read and printed by its table.
#![tactic(auto)]

mod added_layer_sets;
mod dependencies;
mod dependency_types;
mod dimensions;
mod layers;
mod shared;

pub use dependencies::{LayerMaxTids, VpsDependencies, dependencies_of, print_dependencies};
pub use dependency_types::{LayerDependencyTypes, VpsDependencyTypes, print_types, types_of};
pub use dimensions::{VpsDimensions, VpsLayer, dimensions_of, print_dimensions};
pub use layers::layers_described;
pub use shared::{print_profile_tier, profile_tier_of};
