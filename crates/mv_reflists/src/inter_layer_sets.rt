//! The inter-layer reference pictures of a picture.

ghost use Rattle.std.specs.Prelude.{◌≡◌, ◌↔◌, ◌⊎◌, IsTrue, IfOk, IfErr};
ghost use Rattle.mv_pictures.specs.References.{is_side_of_base};
ghost use Rattle.mv_reflists.specs.InterLayer.{inter_layer_sets, missing_inter_layer};

use crate::fault::ListFault;
use mv_rules::Rule;
use std::alloc::{AllocError, Global};
use std::marker::Model;

/// An active reference layer of a picture.
#[derive(Clone, Copy, Debug, Default, PartialEq, Eq)]
pub struct Active2 {
    /// nuh_layer_id.
    pub layer: u8,
    /// ViewId.
    pub view: u32,
    /// Whether the picture's access unit has a decoded picture of this layer.
    pub here: bool,
}

/// The inter-layer reference pictures of a picture by their layers, nuh_layer_id, in the order of the active layers.
#[derive(Debug, Drop)]
pub struct InterLayer {
    /// RefPicSetInterLayer0.
    pub zero: Vec<u8>,
    /// RefPicSetInterLayer1.
    pub one: Vec<u8>,
}

impl Model for InterLayer {
    ghost use Rattle.mv_reflists.specs.InterLayer.{InterLayerSets};

    ghost Value = { InterLayerSets };

    ghost view = { λ s. record {
      zero = s.zero.items;
      one = s.one.items;
    } };
}

// Whether a reference layer with this view is of the first set: on the side of the picture's view on which layer 0 stands.
fn is_side_of_base(view: u32, base_view: u32, reference_view: u32) -> bool
    ensures { result ≡ is_side_of_base view base_view reference_view }
{
    (view <= base_view && view <= reference_view) || (base_view <= view && reference_view <= view)
}

// Whether an active layer has no decoded picture in the access unit.
fn is_one_missing(active: &[Active2]) -> bool
    ensures { result ≡ missing_inter_layer active.now }
{
    active.iter().any(|layer| !layer.here)
}

// Both sets, where no picture is missing.
#[tactic(auto, unfolding(crate::specs::InterLayer::inter_layer_sets))]
fn split(
    alloc: Global,
    view: u32,
    base_view: u32,
    active: &[Active2],
) -> Result<InterLayer, AllocError>
    ensures { IfOk result (λ sets. sets ≡ inter_layer_sets view base_view active.now) }
{
    let mut zero = Vec::new(alloc);
    let mut one = Vec::new(alloc);
    for reference in active {
        if is_side_of_base(view, base_view, reference.view) {
            zero.push(reference.layer)?;
        } else {
            one.push(reference.layer)?;
        }
    }
    Ok(InterLayer { zero, one })
}

/// The inter-layer reference pictures of a picture (F.8.1.6, G.8.1.3), from ViewId of the picture and of layer 0 and from its
/// active reference layers. A layer goes into the first set where its view is the picture's or stands on the side of layer 0.
///
/// `Refused(MissingInterLayer)` exactly where an active layer has no decoded picture in the access unit; `Memory` where
/// memory runs out.
pub fn inter_layer(
    alloc: Global,
    view: u32,
    base_view: u32,
    active: &[Active2],
) -> Result<InterLayer, ListFault>
    ensures missing { IsTrue (missing_inter_layer active.now) ↔ (result ≡ Err (ListFault.Refused Rule.MissingInterLayer)) }
    ensures faults { IfErr result (λ fault. (fault ≡ ListFault.Refused Rule.MissingInterLayer) ⊎ (fault ≡ ListFault.Memory)) }
    ensures sets { IfOk result (λ sets. sets ≡ inter_layer_sets view base_view active.now) }
{
    if is_one_missing(active) {
        return Err(ListFault::Refused(Rule::MissingInterLayer));
    }
    split(alloc, view, base_view, active).map_err(|_| ListFault::Memory)
}
