//! What is derived from the extension of a video parameter set (F.7.4.3.1.1): its layers and its output layer sets.

ghost use Rattle.std.specs.Prelude.{◌≡◌, ◌≤◌, ℕ, get_or, IfOk};
ghost use Rattle.mv_syntax.specs.Words.{◌otherwise◌};
ghost use Rattle.mv_vpsext.specs.Derived.{no_dpb, coded_reorder, reorder_pics, reorder, all_ols};

use mv_layers::{Ols, OlsLayers};
use mv_vpssets::{DpbSizes, DpbSubLayer};
use std::alloc::{AllocError, Global};

// max_vps_num_reorder_pics of a sub-layer: where it isn't coded, that of the sub-layer below.
fn reorder_at(sub_layer: &DpbSubLayer, below: u32) -> u32
    ensures { result ≡ coded_reorder sub_layer.now otherwise below }
{
    match &sub_layer.numbers {
        Some(numbers) => numbers.max_vps_num_reorder_pics,
        None => below,
    }
}

// max_vps_num_reorder_pics of the highest sub-layer.
#[tactic(auto, using(crate::proofs::Reordering::reorder_steps))]
fn reorder_pics(set: &DpbSizes) -> u8
    requires { reorder_pics set.now ≤ 15 }
    ensures { result ≡ reorder_pics set.now }
{
    let mut highest = 0;
    for sub_layer in &set.sub_layers {
        highest = reorder_at(sub_layer, highest);
    }
    highest as u8
}

// The reorder number of output layer set i. The sizes are those of the output layer sets from 1 on.
fn reorder(sizes: &[DpbSizes], i: usize) -> Option<u8>
    requires { (k : ℕ) → reorder_pics (get_or sizes.now k no_dpb) ≤ 15 }
    ensures { result ≡ reorder sizes.now i }
{
    if i == 0 {
        return None;
    }
    match sizes.get(i - 1) {
        Some(set) => Some(reorder_pics(set)),
        None => Some(0),
    }
}

/// The output layer sets, which are those from 0 on, with their reorder numbers. The sizes are those of the sets from 1 on.
pub(crate) fn all_ols(
    alloc: Global,
    sets: Vec<OlsLayers>,
    sizes: &[DpbSizes],
) -> Result<Vec<Ols>, AllocError>
    requires { (k : ℕ) → reorder_pics (get_or sizes.now k no_dpb) ≤ 15 }
    ensures { IfOk result (λ v. v.items ≡ all_ols sets.items sizes.now) }
{
    let mut all = Vec::new(alloc);
    for set in sets {
        let number = all.len();
        all.push(Ols::new(set, reorder(sizes, number)))?;
    }
    Ok(all)
}
