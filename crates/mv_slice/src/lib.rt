//! Slice segment headers (H.265 7.3.6, F.7.3.6.1): read and written exactly.
#![tactic(auto)]

mod active_entries;
mod context;
mod derived;
mod ending;
mod filters;
mod header;
mod inter_layer;
mod laws;
mod list_modification;
mod lists;
mod long_terms;
mod numbers;
mod opening;
mod peek;
mod picture;
mod prediction;
mod slice;
mod weights;

pub use context::SliceContext;
pub use ending::SliceEnding;
pub use filters::{SliceDeblocking, SliceFilters};
pub use header::{SliceRead, read_slice, read_slice_start, show_slice, write_slice};
pub use inter_layer::SliceInterLayer;
pub use laws::slice_laws;
pub use list_modification::ListModification;
pub use lists::SliceLists;
pub use long_terms::{LongTerm, LongTerms};
pub use numbers::{active_layers, num_pic_total_curr};
pub use opening::{SliceAddress, SliceOpening};
pub use peek::{SlicePeek, peek_slice};
pub use picture::{SlicePicture, SliceReferences};
pub use prediction::SlicePrediction;
pub use slice::{SliceFull, SliceHead};
pub use weights::{ChromaWeight, EntryWeights, ListWeights, PredWeightTable};
