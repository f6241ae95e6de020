//! The check of output order for one output layer set.
#![tactic(auto)]

ghost use Rattle.std.specs.Prelude.{◌≡◌, ◌≤◌, length, filter, int_lt};
ghost use Rattle.std.specs.List.{position_or_len};
ghost use Rattle.mv_dpb.specs.SetOrder.{begun, comes_late, is_again, with_unit};

use arrayvec::ArrayVec;
use std::marker::Model;

/// A picture's access unit and its count.
#[derive(Clone, Copy, Debug, PartialEq, Eq)]
pub struct Counted {
    pub au: u64,
    pub count: i32,
}

/// What is kept of the access units of one output layer set: the last, and the greatest counts, one more than may wait. The room
/// is for one count more, which is put among them before the least leaves.
#[derive(Drop)]
pub struct SetOrder {
    reorder: u8,
    last: Option<Counted>,
    tops: ArrayVec<i32, 17>,
}

impl Model for SetOrder {
    ghost use Rattle.std.specs.Prelude.{◌≤◌, suc, length};
    ghost use Rattle.mv_dpb.specs.OrderValue.{OrderValue};

    ghost Value = { OrderValue };

    ghost view = { λ s. record { reorder = s.reorder; last = s.last; tops = s.tops.items } };

    ghost invariant = { λ s. (s.reorder ≤ 15) × (length s.tops.items ≤ suc s.reorder) };
}

impl SetOrder {
    /// A set of which no access unit was counted yet.
    pub fn begin(reorder: u8) -> Self
        requires { reorder ≤ 15 }
        ensures { result ≡ begun reorder }
    {
        SetOrder {
            reorder,
            last: None,
            tops: ArrayVec::new(),
        }
    }

    /// Whether more access units than may wait have a greater count.
    pub fn is_late(&self, count: i32) -> bool
        ensures { result ≡ comes_late self.now count }
    {
        count_above(self.tops.as_slice(), count) > self.reorder as usize
    }

    /// Counts an access unit, once for all its pictures.
    pub fn add(&mut self, au: u64, count: i32)
        ensures { self.new ≡ with_unit self.old au count }
    {
        if self.is_again(au, count) {
            return;
        }
        self.last = Some(Counted { au, count });
        let place = place_among(self.tops.as_slice(), count);
        self.tops.insert(place, count);
        if self.tops.len() > self.reorder as usize + 1 {
            self.tops.remove(0);
        }
    }

    // Whether a picture of the same access unit, with the same count, was the last.
    fn is_again(&self, au: u64, count: i32) -> bool
        ensures { result ≡ is_again self.now au count }
    {
        match &self.last {
            Some(last) => last.au == au && last.count == count,
            None => false,
        }
    }
}

// How many counts are above one.
fn count_above(counts: &[i32], count: i32) -> usize
    ensures { result ≡ length (filter (int_lt count) counts.now) }
{
    counts.iter().filter(|other| count < **other).count()
}

// The place among counts behind all that a count doesn't stand before.
fn place_among(counts: &[i32], count: i32) -> usize
    ensures within { result ≤ length counts.now }
    ensures place { result ≡ position_or_len (int_lt count) counts.now }
{
    for (i, other) in counts.iter().enumerate() {
        if count < *other {
            return i;
        }
    }
    counts.len()
}
