//! What is decoded of a stream: the pictures of each layer, and the pictures that wait for their output.
#![tactic(auto)]

ghost use Rattle.std.specs.Prelude.{◌≡◌, ◌<◌, ◌∷◌, [], List, Some, None, IfOk, length, replicate};
ghost use Rattle.mv_pictures.specs.Facts.{Fact};
ghost use Rattle.mv_pictures.specs.History.{judged};
ghost use Rattle.mv_pictures.specs.Judged.{Judged};
ghost use Rattle.mv_au.specs.States.{IsEndOf};
ghost use Rattle.mv_walk_layer.specs.LayerValue.{no_pictures};
ghost use Rattle.mv_walk.specs.Decoders.{IsClosed, Keeps};

use crate::making::Making;
use mv_au::LayerStates;
use mv_rebuild::Rebuild;
use mv_walk_layer::LayerPictures;
use mv_walk_order::{OutputOrder, OutputQueue};
use mv_walk_segment::OpenPicture;
use std::alloc::{AllocError, Global};

const LAYERS: usize = 64;

/// The pictures of every layer, and those that wait for their output.
#[derive(Drop)]
pub(crate) struct Decoder<R: Rebuild> {
    pub(crate) alloc: Global,
    /// The output layer set that is asked for.
    pub(crate) asked: u32,
    pub(crate) states: LayerStates,
    pub(crate) layers: Vec<LayerPictures<R::Pic>>,
    pub(crate) order: OutputOrder,
    pub(crate) queue: OutputQueue<R::Pic>,
    /// PicOrderCntVal of the latest base picture, where it has one in range.
    pub(crate) base_count: Option<i32>,
    /// The latest picture of the access unit, and where it is decoded the picture in the making.
    pub(crate) picture: Option<OpenPicture>,
    pub(crate) making: Option<Making<R>>,
    pub(crate) pictures: u64,
    pub(crate) sequences: u64,
}

// No pictures of any layer.
fn no_layers<P: Drop>(alloc: Global) -> Result<Vec<LayerPictures<P>>, AllocError>
    ensures { IfOk result (λ layers. layers.items ≡ replicate 64 no_pictures) }
{
    let mut layers = Vec::with_capacity(alloc, LAYERS)?;
    for _ in 0..LAYERS {
        let layer = LayerPictures::new(alloc)?;
        layers.push(layer)?;
    }
    Ok(layers)
}

// A sequence starts: nothing is left of the pictures before.
pub(crate) fn forget_all<P: Drop>(layers: &mut [LayerPictures<P>])
    ensures { layers.new ≡ replicate (length layers.old) no_pictures }
{
    for layer in layers.iter_mut() {
        layer.forget();
    }
}

impl<R: Rebuild> Decoder<R> {
    /// Nothing is kept of pictures.
    pub(crate) fn new(alloc: Global, asked: u32) -> Result<Decoder<R>, AllocError>
        ensures keeps { IfOk result (λ d. IsClosed d []) }
        ensures asked { IfOk result (λ d. d.asked ≡ asked) }
    {
        let layers = no_layers(alloc)?;
        Ok(Decoder {
            alloc,
            asked,
            states: LayerStates::new(),
            layers,
            order: OutputOrder::new(),
            queue: OutputQueue::new(),
            base_count: None,
            picture: None,
            making: None,
            pictures: 0,
            sequences: 0,
        })
    }

    pub(crate) fn picture(&self) -> &Option<OpenPicture>
        ensures { result.now ≡ self.now.picture }
    {
        &self.picture
    }

    pub(crate) fn pictures(&self) -> u64
        ensures { result ≡ self.now.pictures }
    {
        self.pictures
    }

    pub(crate) fn sequences(&self) -> u64
        ensures { result ≡ self.now.sequences }
    {
        self.sequences
    }

    /// The references of the picture in the making, and the lists of its latest segment.
    pub(crate) fn lists(&self) -> (&[(u8, i32)], &[u8], &[u8]) {
        match (&self.making, &self.picture) {
            (Some(making), Some(picture)) => match &picture.decoded {
                Some(decoded) => (
                    making.references.as_slice(),
                    decoded.lists.list0.as_slice(),
                    decoded.lists.list1.as_slice(),
                ),
                None => (&[], &[], &[]),
            },
            _ => (&[], &[], &[]),
        }
    }

    /// A sequence ends in a layer, or the bitstream in layer 0.
    pub(crate) fn eos(&mut self, layer: u8)
        requires { layer < 64 }
        ensures keeps { (past : List Judged) (q : Fact) → IsEndOf layer q → Keeps self.old past self.old.making → Keeps self.new (judged past q ∷ past) self.new.making }
        ensures rest { self.new ≡ record self.old { states = self.new.states } }
    {
        self.states.eos(layer);
    }
}
