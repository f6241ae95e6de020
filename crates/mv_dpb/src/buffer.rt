//! A layer's buffer of reference pictures.
#![tactic(auto)]

ghost use Rattle.std.specs.Prelude.{◌≡◌, ◌≤◌, ◌<◌, ◌++◌, ◌∷◌, [], false, map, length, All, AllPairs, IfOk, slice_get, option_map};
ghost use Rattle.mv_dpb.specs.Buffer.{inserted, kept};

use crate::held::{Held, Keep};
use crate::picked::{mark, pick};
use std::alloc::{AllocError, Global};
use std::marker::Model;
use std::rc::Rc;

/// The greatest number of pictures in a layer's buffer.
const ROOM: usize = 16;

/// The pictures of a layer that are kept for reference, at most 16, in decoding order. Each is seen as what is told of it, and
/// the picture.
#[derive(Drop)]
pub struct Buffer<P> {
    held: Vec<Held>,
    pictures: Vec<Rc<P>>,
}

impl<P> Model for Buffer<P> {
    ghost use Rattle.std.specs.Prelude.{◌≡◌, ◌≤◌, List, map, length, vec_capacity};
    ghost use Rattle.std.specs.Coded.{coded_list};
    ghost use Rattle.mv_dpb.specs.declared.held.Held.{Held};
    ghost use Rattle.mv_dpb.specs.Stored.{Stored, stored, stored_code};
    ghost use Rattle.mv_dpb.specs.Buffer.{held_code};

    ghost Value = { List (Stored Held P) };

    ghost coded = { coded_list (stored_code held_code P.code) };

    ghost view = { λ b. stored b.held.items (map (λ p. p.value) b.pictures.items) };

    ghost invariant = { λ b.
        (length b.held.items ≡ length b.pictures.items)
        × (length b.held.items ≤ 16)
        × (vec_capacity b.held ≡ 16)
        × (vec_capacity b.pictures ≡ 16) };
}

impl<P: Drop> Buffer<P> {
    /// An empty buffer, with the room for 16 pictures.
    pub fn new(alloc: Global) -> Result<Self, AllocError>
        ensures { IfOk result (λ buffer. buffer ≡ []) }
    {
        let held = Vec::with_capacity(alloc, ROOM)?;
        let pictures = Vec::with_capacity(alloc, ROOM)?;
        Ok(Buffer { held, pictures })
    }

    /// What is told of the pictures, in decoding order.
    pub fn held(&self) -> &[Held]
        ensures told { result.now ≡ map (λ s. s.told) self.now }
        ensures few { length result.now ≤ 16 }
    {
        self.held.as_slice()
    }

    /// The picture at a place, from 0, if there is one.
    pub fn lookup(&self, place: u8) -> Option<&Rc<P>>
        ensures { option_map (λ p. p.now.value) result ≡ option_map (λ s. s.picture) (slice_get self.now place) }
    {
        self.pictures.get(place as usize)
    }

    /// Keeps the pictures that are named, each with the mark that it is given, and no other (8.3.2).
    pub fn apply(&mut self, keep: &[Keep])
        requires rising { AllPairs (λ k l. k.place < l.place) keep.now }
        requires within { All (λ k. k.place < length self.old) keep.now }
        ensures { self.new ≡ kept keep.now self.old }
    {
        pick(&mut self.held, keep);
        pick(&mut self.pictures, keep);
        mark(&mut self.held, keep);
    }

    /// Removes all pictures.
    pub fn clear(&mut self)
        ensures { self.new ≡ [] }
    {
        self.held.clear();
        self.pictures.clear();
    }

    /// Adds a picture at the end, marked "used for short-term reference".
    pub fn insert(&mut self, count: i32, au: u64, pic: Rc<P>)
        requires { length self.old < 16 }
        ensures added { self.new ≡ self.old ++ inserted count au pic.value ∷ [] }
        ensures few { length self.new ≤ 16 }
    {
        self.held.push_reserved(Held {
            count,
            au,
            long: false,
        });
        self.pictures.push_reserved(pic);
    }
}
