//! Inter-layer reference pictures and reference picture lists (H.265 8.3.4, F.8.1.6, F.8.3.4).
#![tactic(auto)]

mod build;
mod fault;
mod initial;
mod inter_layer_sets;
mod laws;
mod lists;
mod parts;
mod rules;
mod segment;
mod sizes;

pub use build::build_lists;
pub use fault::ListFault;
pub use inter_layer_sets::{Active2, InterLayer, inter_layer};
pub use laws::{condition_laws, inter_layer_laws, list_laws};
pub use lists::Lists;
pub use sizes::Sizes;

#[cfg(test)]
mod tests;
