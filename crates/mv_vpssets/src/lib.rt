//! The output layer sets that the extension of a video parameter set codes, and their buffers (H.265 F.7.3.2.1.1, F.7.3.2.1.3,
//! F.7.4.3.1.1). Each part is read and printed by its table.
#![tactic(auto)]

mod dpb_numbers;
mod dpb_sizes;
mod output_sets;
mod sets;

pub use dpb_numbers::DpbNumbers;
pub use dpb_sizes::{DpbSizes, DpbSubLayer, SetLayers, dpb_size_of, print_dpb_size};
pub use output_sets::{OutputLayerSet, VpsOutputSets, output_sets_of, print_output_sets};
pub use sets::{all_dpb_layers_of, all_sets_of};
