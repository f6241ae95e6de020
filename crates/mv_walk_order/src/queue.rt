//! The pictures of one output layer set that wait for their output.
#![tactic(auto)]

ghost use Rattle.std.specs.Prelude.{IsTrue, ◌↔◌, ◌≡◌, ◌+◌, ◌*◌, None, Some, [], ◌∷◌, List, false, IsNone, OnOk, OnErr, option_map, slice_get, if◌then◌else◌};
ghost use Rattle.std.specs.List.{list_any};
ghost use Rattle.mv_history.specs.Order.{sorted};
ghost use Rattle.mv_dpb.specs.Waiting.{given, with_picture, without_first};
ghost use Rattle.mv_walk_order.specs.Queue.{GivesNext, HasRoom, IsInOrder, Queued, is_first, leaves, pictures_in};

use mv_dpb::{Shown, Waiting};
use std::alloc::{AllocError, Global};
use std::marker::Model;
use std::rc::Rc;

/// The pictures of one output layer set that wait for their output, from one sequence to the next. What was given of a sequence
/// and what waits are the pictures of the sequence that came, in output order.
#[derive(Drop)]
pub struct OutputQueue<P> {
    waiting: Option<Waiting<P>>,
}

impl<P> Model for OutputQueue<P> {
    ghost use Rattle.std.specs.Prelude.{Option};
    ghost use Rattle.mv_dpb.specs.Waiting.{WaitingValue};
    ghost use Rattle.mv_walk_order.specs.Queue.{queue_code};

    ghost Value = { Option (WaitingValue P) };

    ghost coded = { queue_code P.code };

    ghost view = { λ q. q.waiting };
}

impl<P: Drop> OutputQueue<P> {
    /// No sequence has begun, and no picture waits.
    pub fn new() -> Self
        ensures { result ≡ None }
    {
        OutputQueue { waiting: None }
    }

    /// Begins a sequence with this reorder number, of which so many layers are put out. All pictures were flushed before: one
    /// that waits is lost.
    ///
    /// `AllocError` where memory runs out; nothing is changed then.
    pub fn begin(&mut self, alloc: Global, reorder: u8, outputs: u8) -> Result<(), AllocError>
        ensures begun { OnOk result (self.new ≡ Some (record { reorder = reorder; room = (reorder + 1) * outputs; pictures = [] })) }
        ensures none { OnOk result (IsInOrder self.new [] []) }
        ensures refused { OnErr result (self.new ≡ self.old) }
    {
        let waiting = match Waiting::new(alloc, reorder, outputs) {
            Ok(waiting) => waiting,
            Err(error) => return Err(error),
        };
        self.waiting = Some(waiting);
        Ok(())
    }

    /// Whether there is room for a picture more; there is none before a sequence has begun.
    pub fn has_room(&self) -> bool
        ensures { IsTrue result ↔ HasRoom self.now }
    {
        match &self.waiting {
            Some(waiting) => waiting.has_room(),
            None => false,
        }
    }

    /// Adds a picture of an access unit. No picture that stands behind it in output order was given before.
    pub fn push(&mut self, shown: Shown, au: u64, pic: Rc<P>)
        requires { HasRoom self.old }
        ensures added { self.new ≡ option_map (with_picture shown au pic.value) self.old }
        ensures in_order { (gone came : List (Queued P)) → IsInOrder self.old gone came → list_any (is_first (record { shown = shown; au = au; picture = pic.value })) gone ≡ false →
            IsInOrder self.new gone (record { shown = shown; au = au; picture = pic.value } ∷ came) }
    {
        if let Some(waiting) = &mut self.waiting {
            waiting.push(shown, au, pic);
        }
    }

    /// Takes out the next picture in output order where one leaves (C.5.2.4), once an access unit is complete. `None` where none
    /// does.
    pub fn bump(&mut self) -> Option<(Shown, Rc<P>)>
        ensures next { option_map (λ p. (p.0, p.1.value)) result ≡ (if leaves self.old then option_map given (slice_get (pictures_in self.old) 0) else None) }
        ensures rest { self.new ≡ (if leaves self.old then option_map without_first self.old else self.old) }
        ensures in_order { (gone came : List (Queued P)) → IsInOrder self.old gone came → GivesNext (option_map (λ p. (p.0, p.1.value)) result) self.new gone came }
    {
        match &mut self.waiting {
            Some(waiting) => waiting.bump(),
            None => None,
        }
    }

    /// Takes out the next picture in output order. `None` where none waits.
    pub fn flush(&mut self) -> Option<(Shown, Rc<P>)>
        ensures next { option_map (λ p. (p.0, p.1.value)) result ≡ option_map given (slice_get (pictures_in self.old) 0) }
        ensures rest { self.new ≡ option_map without_first self.old }
        ensures in_order { (gone came : List (Queued P)) → IsInOrder self.old gone came → GivesNext (option_map (λ p. (p.0, p.1.value)) result) self.new gone came }
        ensures all { IsNone result → (gone came : List (Queued P)) → IsInOrder self.old gone came → gone ≡ sorted is_first came }
    {
        match &mut self.waiting {
            Some(waiting) => waiting.flush(),
            None => None,
        }
    }
}
