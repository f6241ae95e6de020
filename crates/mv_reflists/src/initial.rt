//! The initial reference picture lists, which lists are filled from.

ghost use Rattle.std.specs.Prelude.{◌≡◌, ◌==◌, ◌+◌, ◌<◌, ◌≤◌, length, get_or};
ghost use Rattle.mv_pictures.specs.Terms.{before, after, long, inter_zero, inter_one};
ghost use Rattle.mv_pictures.specs.Lists.{entry, places};
ghost use Rattle.mv_reflists.specs.Sizes.{tags, total};
ghost use Rattle.mv_reflists.specs.Lists.{initial0, initial1};
ghost use Rattle.mv_reflists.specs.inner.Parts.{places_in, places_of};

use crate::parts::{Part, Parts};
use crate::sizes::{Sizes, total};
use std::marker::Model;

// The parts behind one another, in the order in which places are counted.
#[tactic(auto, using(crate::proofs::Places::before_places, crate::proofs::Places::after_places, crate::proofs::Places::long_places, crate::proofs::Places::zero_places, crate::proofs::Places::one_places))]
fn parts_of(sizes: &Sizes) -> Parts
    requires { total sizes.now ≤ 255 }
    ensures before { places_in result.before ≡ places (tags sizes.now) before }
    ensures after { places_in result.after ≡ places (tags sizes.now) after }
    ensures long { places_in result.long ≡ places (tags sizes.now) long }
    ensures zero { places_in result.zero ≡ places (tags sizes.now) inter_zero }
    ensures one { places_in result.one ≡ places (tags sizes.now) inter_one }
    ensures counts { result.before.count + result.after.count + result.long.count + result.zero.count + result.one.count ≡ total sizes.now }
{
    let after = sizes.before;
    let long = after + sizes.after;
    let zero = long + sizes.long;
    let one = zero + sizes.zero;
    Parts {
        before: Part {
            first: 0,
            count: sizes.before,
        },
        after: Part {
            first: after,
            count: sizes.after,
        },
        long: Part {
            first: long,
            count: sizes.long,
        },
        zero: Part {
            first: zero,
            count: sizes.zero,
        },
        one: Part {
            first: one,
            count: sizes.one,
        },
    }
}

/// An initial list before it is repeated: the places of five parts, in an order of their own.
#[derive(Drop)]
pub(crate) struct InitialList {
    order: [Part; 5],
    count: usize,
}

impl Model for InitialList {
    ghost use Rattle.std.specs.Prelude.{ℕ, List, ◌≡◌, length};
    ghost use Rattle.mv_reflists.specs.inner.Parts.{places_of};

    ghost Value = { List ℕ };

    ghost view = { λ s. places_of s.order };

    ghost invariant = { λ s. s.count ≡ length (places_of s.order) };
}

// The place that stands at `i` among those of some parts, or 0 past them.
fn place_at(order: &[Part], i: usize) -> u8
    ensures { result ≡ get_or (places_of order.now) i 0 }
{
    let mut left = i;
    for part in order {
        if left < usize::from(part.count) {
            return part.first + left as u8;
        }
        left -= usize::from(part.count);
    }
    0
}

impl InitialList {
    /// RefPicListTemp0.
    pub(crate) fn zero(sizes: &Sizes) -> InitialList
        requires { total sizes.now ≤ 255 }
        ensures { result ≡ initial0 sizes.now }
    {
        let parts = parts_of(sizes);
        InitialList {
            order: [parts.before, parts.zero, parts.after, parts.long, parts.one],
            count: total(sizes),
        }
    }

    /// RefPicListTemp1.
    pub(crate) fn one(sizes: &Sizes) -> InitialList
        requires { total sizes.now ≤ 255 }
        ensures { result ≡ initial1 sizes.now }
    {
        let parts = parts_of(sizes);
        InitialList {
            order: [parts.after, parts.one, parts.before, parts.long, parts.zero],
            count: total(sizes),
        }
    }

    pub(crate) fn is_empty(&self) -> bool
        ensures { result ≡ (length self.now == 0) }
    {
        self.count == 0
    }

    /// Entry `i` of the repeated list.
    pub(crate) fn entry(&self, i: usize) -> u8
        requires { 0 < length self.now }
        ensures { result ≡ entry self.now i }
    {
        place_at(&self.order, i % self.count)
    }
}
