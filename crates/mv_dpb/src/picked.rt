//! Items of a list that are kept in its first places, and items that are put into it.
#![tactic(auto)]

ghost use Rattle.std.specs.Prelude.{◌≡◌, ◌<◌, ◌≤◌, length, insert, All, AllPairs, vec_capacity};
ghost use Rattle.mv_dpb.specs.Buffer.{marks, picked};

use crate::held::{Held, Keep};

/// Keeps the items at the places that are named, and no other.
pub fn pick<T: Drop>(items: &mut Vec<T>, keep: &[Keep])
    requires rising { AllPairs (λ k l. k.place < l.place) keep.now }
    requires within { All (λ k. k.place < length items.old.items) keep.now }
    ensures items { items.new.items ≡ picked keep.now items.old.items }
    ensures count { length items.new.items ≡ length keep.now }
    ensures capacity { vec_capacity items.new ≡ vec_capacity items.old }
{
    for (i, named) in keep.iter().enumerate() {
        items.swap(i, named.place as usize);
    }
    items.truncate(keep.len());
}

/// Gives each picture the mark that it is named with.
pub fn mark(held: &mut Vec<Held>, keep: &[Keep])
    requires { length held.old.items ≡ length keep.now }
    ensures items { held.new.items ≡ marks keep.now held.old.items }
    ensures capacity { vec_capacity held.new ≡ vec_capacity held.old }
{
    for (i, named) in keep.iter().enumerate() {
        held[i].long = named.long;
    }
}

/// Puts an item at a place, and moves those from there on up. There is room.
pub fn put_in<T: Drop>(items: &mut Vec<T>, place: usize, item: T)
    requires within { place ≤ length items.old.items }
    requires room { length items.old.items < vec_capacity items.old }
    ensures items { items.new.items ≡ insert items.old.items place item }
    ensures capacity { vec_capacity items.new ≡ vec_capacity items.old }
{
    let _ = items.insert(place, item);
}
