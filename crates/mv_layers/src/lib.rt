//! The layers of a video parameter set (H.265 F.7.4.3.1.1): their references, layer sets and output layer sets.
#![tactic(auto)]

mod coded;
mod derived;
mod infos;
mod laws;
mod layer_sets;
mod marks;
mod output_layers;
mod per_layer;
mod reached;
mod references;
mod rules;

pub use coded::{CodedLayers, LayerDependencies, LayerSet};
pub use derived::{Derived, Ols};
pub use infos::{LayerInfo, independent_layers, layer_index, layer_infos, layer_named};
pub use laws::{derived_laws, reference_laws};
pub use output_layers::{OlsLayers, ols_layers, ols_of, ols_outputs, one_output_refers};
pub use per_layer::{poc_lsb_not_present_at, rep_format_at, sub_layers_at};
pub use references::{depends, independent};
pub use rules::{any_has_unknown, any_lacks_base, any_not_closed};

#[cfg(test)]
mod tests;
