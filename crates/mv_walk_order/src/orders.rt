//! Which layers output layer sets put out, and the check of their output order.
#![tactic(auto)]

ghost use Rattle.std.specs.Prelude.{◌≡◌, ◌≤◌, ◌<◌, ◌∷◌, [], ℕ, ℤ, true, List, length, is_ok, Ok, Err, replicate, if◌then◌else◌};
ghost use Rattle.mv_dpb.specs.SetOrder.{begun};
ghost use Rattle.mv_pictures.specs.Facts.{Fact};
ghost use Rattle.mv_pictures.specs.History.{judged};
ghost use Rattle.mv_pictures.specs.Judged.{Judged};
ghost use Rattle.mv_vps.specs.Vps.{ValidVps};
ghost use Rattle.mv_walk_order.specs.OrderSteps.{begun_upto, begun_with, counted_in, counted_upto, counted_with, is_late_in, late_set, puts_out, refusal, reorder_in, set_of, set_value};
ghost use Rattle.mv_walk_order.specs.Orders.{AreSteady, IsBegun, IsShown, Stands, StandsBefore, answer};

use crate::sets::{SETS, SetOutputs, puts_out, sets_in, sets_of, sps_reorder};
use arrayvec::ArrayVec;
use mv_dpb::OrderCheck;
use mv_rules::Rule;
use mv_sps::Sps;
use mv_vps::Vps;
use std::marker::Model;

/// Which layers each output layer set puts out in the current sequence, and the check of its output order.
#[derive(Drop)]
pub struct OutputOrder {
    check: OrderCheck,
    sets: ArrayVec<SetOutputs, SETS>,
}

impl Model for OutputOrder {
    ghost use Rattle.std.specs.Prelude.{◌≤◌, length};
    ghost use Rattle.mv_walk_order.specs.OrderValues.{OrdersValue};

    ghost Value = { OrdersValue };

    ghost view = { λ o. record { check = o.check; sets = o.sets.items } };

    ghost invariant = { λ o. length o.sets.items ≤ 64 };
}

impl OutputOrder {
    /// A stream without a sequence: there is no output layer set.
    pub fn new() -> Self
        ensures value { result ≡ record { check = replicate 64 (begun 0); sets = [] } }
        ensures stands { Stands result [] }
    {
        OutputOrder {
            check: OrderCheck::new(),
            sets: ArrayVec::new(),
        }
    }

    /// Begins a sequence with its first picture, which isn't counted yet: its output layer sets are those of the video parameter
    /// set, and set 0 has the reorder number of the sequence parameter set.
    pub fn begin(&mut self, vps: &Vps, sps: &Sps)
        requires valid { ValidVps vps.now }
        requires few { reorder_in sps.now.0 ≤ 15 }
        ensures stands { (past : List Judged) (p : Fact) → Stands self.old past → IsBegun vps.now sps.now.0 past p → StandsBefore self.new past (judged past p) }
    {
        let sets = sets_of(sets_in(vps), sps_reorder(sps));
        begin_all(&mut self.check, sets.as_slice());
        self.sets = sets;
    }

    /// Whether a set puts out a layer in this sequence.
    pub fn puts_out(&self, set: u32, layer: u8) -> bool
        ensures { result ≡ puts_out self.now.sets set layer }
    {
        puts_out(self.sets.as_slice(), set as usize, layer)
    }

    /// The reorder number of a set in this sequence: 0 where there is no such set.
    pub fn reorder(&self, set: u32) -> u8
        ensures value { result ≡ (set_of self.now.sets set).reorder }
        ensures few { result ≤ 15 }
    {
        match self.sets.as_slice().get(set as usize) {
            Some(one) => one.reorder(),
            None => 0,
        }
    }

    /// How many layers a set puts out in this sequence.
    pub fn outputs(&self, set: u32) -> u8
        ensures { result ≡ length (set_of self.now.sets set).outputs }
    {
        match self.sets.as_slice().get(set as usize) {
            Some(one) => one.count(),
            None => 0,
        }
    }

    /// Counts a decoded picture that may be put out for each set that puts out its layer. `Reorder` with the least set for which
    /// it comes late (C.5.2): the sets before that one have counted it.
    pub fn step(&mut self, layer: u8, au: u64, count: i32) -> Result<(), Rule>
        ensures value { result ≡ refusal (late_set self.old.sets self.old.check layer count (length self.old.sets)) }
        ensures new { self.new ≡ counted_with layer au count self.old }
        ensures answer { (past : List Judged) (p : Fact) → StandsBefore self.old past (judged past p) → AreSteady (judged past p ∷ past) →
            IsShown layer au count (judged past p) → result ≡ answer past (judged past p) }
        ensures stands { (past : List Judged) (p : Fact) → StandsBefore self.old past (judged past p) → AreSteady (judged past p ∷ past) →
            IsShown layer au count (judged past p) → is_ok result ≡ true → Stands self.new (judged past p ∷ past) }
    {
        step_all(&mut self.check, self.sets.as_slice(), layer, au, count)
    }
}

// Begins a sequence for each set.
fn begin_all(check: &mut OrderCheck, sets: &[SetOutputs])
    requires { length sets.now ≤ 64 }
    ensures { check.new ≡ begun_upto sets.now (length sets.now) check.old }
{
    for set in 0..sets.len() {
        check.begin(set as u16, sets[set].reorder());
    }
}

// Counts a picture for one set, if that puts out its layer.
fn step_set(
    check: &mut OrderCheck,
    sets: &[SetOutputs],
    set: usize,
    layer: u8,
    au: u64,
    count: i32,
) -> Result<(), Rule>
    requires { set < 64 }
    ensures late { result ≡ (if is_late_in sets.now check.old layer count set then Err (Rule.Reorder set) else Ok tt) }
    ensures counted { check.new ≡ (if is_ok result then counted_in sets.now layer au count set check.old else check.old) }
{
    if !puts_out(sets, set, layer) {
        return Ok(());
    }
    check.step(set as u16, au, count)
}

// Counts a picture for each set.
fn step_all(
    check: &mut OrderCheck,
    sets: &[SetOutputs],
    layer: u8,
    au: u64,
    count: i32,
) -> Result<(), Rule>
    requires { length sets.now ≤ 64 }
    ensures late { result ≡ refusal (late_set sets.now check.old layer count (length sets.now)) }
    ensures counted { check.new ≡ (counted_with layer au count (record { check = check.old; sets = sets.now })).check }
{
    for set in 0..sets.len() {
        match step_set(check, sets, set, layer, au, count) {
            Ok(()) => {}
            Err(rule) => return Err(rule),
        }
    }
    Ok(())
}
