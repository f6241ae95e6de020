//! The layers of a layer set.

ghost use Rattle.std.specs.Prelude.{◌≡◌, ◌≤◌, length, IfOk};
ghost use Rattle.mv_layers.specs.LayerSets.{has_layer, layers_in};

use crate::coded::LayerSet;
use crate::infos::push_if;
use crate::references::set_at;
use std::alloc::{AllocError, Global};

/// Whether a layer set has the layer of this nuh_layer_id.
pub(crate) fn has_layer(set: &LayerSet, id: u8) -> bool
    ensures { result ≡ has_layer set.now id }
{
    set_at(&set.layer_id_included_flag, usize::from(id))
}

/// The layers that the flags of a layer set give.
#[tactic(auto, using(crate::proofs::Collecting::collect_steps))]
pub(crate) fn layers_in(alloc: Global, flags: &[u8]) -> Result<Vec<u8>, AllocError>
    requires { length flags.now ≤ 63 }
    ensures { IfOk result (λ v. v.items ≡ layers_in flags.now) }
{
    let mut all = Vec::new(alloc);
    for id in 0..flags.len() {
        push_if(&mut all, set_at(flags, id), id as u8)?;
    }
    Ok(all)
}
