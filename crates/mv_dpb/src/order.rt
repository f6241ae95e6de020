//! The check of output order.
#![tactic(auto)]

ghost use Rattle.std.specs.Prelude.{◌≡◌, ◌≤◌, ◌<◌, replicate, slice_set, is_ok, if◌then◌else◌};
ghost use Rattle.mv_dpb.specs.SetOrder.{begun, comes_late, order_of, with_unit};

use crate::set_order::SetOrder;
use mv_rules::Rule;
use std::array;
use std::marker::Model;

/// The greatest number of output layer sets.
const SETS: usize = 64;

/// What is kept of the output order of each output layer set: the greatest counts of its access units since it began.
#[derive(Drop)]
pub struct OrderCheck {
    sets: [SetOrder; SETS],
}

impl Model for OrderCheck {
    ghost use Rattle.std.specs.Prelude.{List};
    ghost use Rattle.mv_dpb.specs.OrderValue.{OrderValue};

    ghost Value = { List OrderValue };

    ghost view = { λ c. c.sets };
}

impl OrderCheck {
    /// A check of 64 sets, of which no access unit was counted yet.
    pub fn new() -> Self
        ensures { result ≡ replicate 64 (begun 0) }
    {
        OrderCheck {
            sets: array::from_fn(|_| SetOrder::begin(0)),
        }
    }

    /// Begins a sequence for a set, whose reorder number is given.
    pub fn begin(&mut self, set: u16, reorder: u8)
        requires set { set < 64 }
        requires reorder { reorder ≤ 15 }
        ensures { self.new ≡ slice_set self.old set (begun reorder) }
    {
        self.sets[set as usize] = SetOrder::begin(reorder);
    }

    /// Counts an output picture's access unit for a set, once for all its pictures. `Reorder` refuses a picture that comes late
    /// (C.5.2): more access units than the set's reorder number have a greater count. Nothing is counted then.
    pub fn step(&mut self, set: u16, au: u64, count: i32) -> Result<(), Rule>
        requires { set < 64 }
        ensures late { result ≡ (if comes_late (order_of self.old set) count then Err (Rule.Reorder set) else Ok tt) }
        ensures counted { self.new ≡ (if is_ok result then slice_set self.old set (with_unit (order_of self.old set) au count) else self.old) }
    {
        let order = &mut self.sets[set as usize];
        if order.is_late(count) {
            return Err(Rule::Reorder(set));
        }
        order.add(au, count);
        Ok(())
    }
}
