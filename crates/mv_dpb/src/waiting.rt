//! The pictures that wait for their output.
#![tactic(auto)]

ghost use Rattle.std.specs.Prelude.{IsTrue, ◌≡◌, ◌≤◌, ◌<◌, ◌+◌, ◌*◌, ◌↔◌, [], None, false, length, IfOk, OnSome, IsNone, slice_get, option_map, if◌then◌else◌};
ghost use Rattle.mv_dpb.specs.Waiting.{FirstIsLeast, given, may_leave, with_picture, without_first};

use crate::picked::put_in;
use crate::shown::Shown;
use crate::waits::{Waits, any_begun, any_begun_of, begin, place_of, units_with, units_without};
use std::alloc::{AllocError, Global};
use std::marker::Model;
use std::rc::Rc;

/// The pictures of one coded video sequence and one output layer set that wait for their output, in output order.
#[derive(Drop)]
pub struct Waiting<P> {
    reorder: u8,
    // How many access units wait.
    units: usize,
    waits: Vec<Waits>,
    pictures: Vec<Rc<P>>,
}

impl<P> Model for Waiting<P> {
    ghost use Rattle.std.specs.Prelude.{◌≡◌, map, length, vec_capacity};
    ghost use Rattle.mv_dpb.specs.Stored.{stored};
    ghost use Rattle.mv_dpb.specs.Waits.{AreInOrder, access_units};
    ghost use Rattle.mv_dpb.specs.Waiting.{WaitingValue, waiting_code};

    ghost Value = { WaitingValue P };

    ghost coded = { waiting_code P.code };

    ghost view = { λ w. record {
      reorder = w.reorder;
      room = vec_capacity w.waits;
      pictures = stored w.waits.items (map (λ p. p.value) w.pictures.items);
    } };

    ghost invariant = { λ w.
        (length w.waits.items ≡ length w.pictures.items)
        × (vec_capacity w.waits ≡ vec_capacity w.pictures)
        × (w.units ≡ access_units w.waits.items)
        × AreInOrder w.waits.items };
}

impl<P: Drop> Waiting<P> {
    /// No pictures. There is room for those of one access unit more than may wait, each with as many as there are output layers.
    pub fn new(alloc: Global, reorder: u8, outputs: u8) -> Result<Self, AllocError>
        ensures { IfOk result (λ w. w ≡ record { reorder = reorder; room = (reorder + 1) * outputs; pictures = [] }) }
    {
        let room = (reorder as usize + 1) * outputs as usize;
        let waits = Vec::with_capacity(alloc, room)?;
        let pictures = Vec::with_capacity(alloc, room)?;
        Ok(Waiting {
            reorder,
            units: 0,
            waits,
            pictures,
        })
    }

    /// Whether there is room for a picture more.
    pub fn has_room(&self) -> bool
        ensures { IsTrue result ↔ (length self.now.pictures < self.now.room) }
    {
        self.waits.len() < self.waits.capacity()
    }

    /// Adds a picture of an access unit.
    pub fn push(&mut self, shown: Shown, au: u64, pic: Rc<P>)
        requires { length self.old.pictures < self.old.room }
        ensures added { self.new ≡ with_picture shown au pic.value self.old }
        ensures few { length self.new.pictures ≤ self.new.room }
    {
        let begun = any_begun_of(&self.waits, au);
        let waits = Waits { shown, au, begun };
        let place = place_of(&waits, &self.waits);
        self.units = units_with(self.units, &self.waits, au);
        put_in(&mut self.waits, place, waits);
        put_in(&mut self.pictures, place, pic);
    }

    /// Takes out the next picture in output order where one leaves (C.5.2.4): more access units wait than may, or another picture
    /// of an access unit that waits has left.
    pub fn bump(&mut self) -> Option<(Shown, Rc<P>)>
        ensures next { option_map (λ p. (p.0, p.1.value)) result
            ≡ (if may_leave self.old then option_map given (slice_get self.old.pictures 0) else None) }
        ensures rest { self.new ≡ (if may_leave self.old then without_first self.old else self.old) }
        ensures least { OnSome result (FirstIsLeast self.old.pictures) }
        ensures none { IsNone result ↔ (may_leave self.old ≡ false) }
    {
        if self.may_leave() { self.flush() } else { None }
    }

    /// Takes out the next picture in output order, if one waits.
    pub fn flush(&mut self) -> Option<(Shown, Rc<P>)>
        ensures next { option_map (λ p. (p.0, p.1.value)) result ≡ option_map given (slice_get self.old.pictures 0) }
        ensures rest { self.new ≡ without_first self.old }
        ensures least { OnSome result (FirstIsLeast self.old.pictures) }
        ensures none { IsNone result ↔ (self.old.pictures ≡ []) }
    {
        if self.waits.is_empty() {
            return None;
        }
        let first = self.waits.remove(0);
        let picture = self.pictures.remove(0);
        begin(&mut self.waits, first.au);
        self.units = units_without(self.units, &self.waits, first.au);
        Some((first.shown, picture))
    }

    // Whether a picture leaves.
    fn may_leave(&self) -> bool
        ensures { result ≡ may_leave self.now }
    {
        self.units > self.reorder as usize || any_begun(&self.waits)
    }
}
