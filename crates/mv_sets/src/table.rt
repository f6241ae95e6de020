//! Parameter sets of one kind, by nuh_layer_id and id.

ghost use Rattle.std.specs.Prelude.{◌≡◌, ◌≤◌, ◌<◌, ◌*◌, ◌+◌, ◌^◌, [], None, length, replicate, IfOk};
ghost use Rattle.std.specs.Option.{option_copied};
ghost use Rattle.mv_sets.specs.Tables.{found, later, latest, emptied, no_sets, slot_of, with_set};

use std::alloc::{AllocError, Global};
use std::marker::Model;
use std::rc::Rc;

/// The layers that are kept, by nuh_layer_id.
const LAYERS: usize = 64;

/// A set, with the number of its reception.
#[derive(Debug, Drop)]
pub struct Received<T> {
    pub number: u64,
    pub set: Rc<T>,
}

impl<T> Model for Received<T> {
    ghost use Rattle.mv_sets.specs.Numbered.{Numbered, numbered_code};

    ghost Value = { Numbered T };

    ghost coded = { numbered_code T.code };

    ghost view = { λ r. record { number = r.number; set = r.set.value } };
}

/// Of each layer and id the set that was received last, if there is one, and how many were received.
#[derive(Debug, Drop)]
pub struct Table<T> {
    ids: usize,
    entries: Vec<Option<Received<T>>>,
    count: u64,
}

impl<T> Model for Table<T> {
    ghost use Rattle.mv_sets.specs.Numbered.{TableValue, table_code};

    ghost Value = { TableValue T };

    ghost coded = { table_code T.code };

    ghost view = { λ t. record { ids = t.ids; entries = t.entries.items; count = t.count } };
}

fn nothing<T: Drop>(alloc: Global, room: usize) -> Result<Vec<Option<Received<T>>>, AllocError>
    ensures { IfOk result (λ entries. entries.items ≡ replicate room None) }
{
    let mut entries = Vec::with_capacity(alloc, room)?;
    for _ in 0..room {
        entries.push(None)?;
    }
    Ok(entries)
}

// Whichever was received last.
fn later<'a, T>(
    one: Option<&'a Received<T>>,
    other: Option<&'a Received<T>>,
) -> Option<&'a Received<T>>
    ensures { option_copied result ≡ later (option_copied one.entry) (option_copied other.entry) }
{
    match (one, other) {
        (Some(a), Some(b)) => Some(if a.number < b.number { b } else { a }),
        (Some(a), None) => Some(a),
        (None, b) => b,
    }
}

impl<T: Drop> Table<T> {
    /// No sets, with the room for those of 64 layers, of so many ids each.
    pub fn new(alloc: Global, ids: usize) -> Result<Self, AllocError>
        requires { ids ≤ 64 }
        ensures { IfOk result (λ table. table ≡ no_sets ids) }
    {
        let entries = nothing(alloc, LAYERS * ids)?;
        Ok(Table {
            ids,
            entries,
            count: 0,
        })
    }

    // The place of a layer and an id.
    fn slot(&self, layer: u8, id: u32) -> Option<usize>
        requires { self.now.ids ≤ 64 }
        ensures { result ≡ slot_of self.now.ids layer id }
    {
        if (id as usize) < self.ids {
            Some(layer as usize * self.ids + id as usize)
        } else {
            None
        }
    }

    /// The set of a layer and an id, if there is one.
    pub fn get(&self, layer: u8, id: u32) -> Option<&Received<T>>
        requires { self.now.ids ≤ 64 }
        ensures { option_copied result ≡ found self.now id layer }
    {
        let slot = self.slot(layer, id)?;
        match self.entries.get(slot) {
            Some(entry) => entry.as_ref(),
            None => None,
        }
    }

    /// Of the sets with an id in some layers the one that was received last, if there is one.
    pub fn latest(&self, layers: &[u8], id: u32) -> Option<&Received<T>>
        requires { self.now.ids ≤ 64 }
        ensures { option_copied result ≡ latest self.now id layers.now }
    {
        let mut best = None;
        for layer in layers {
            best = later(best, self.get(*layer, id));
        }
        best
    }

    /// A set is received.
    pub fn put(&mut self, layer: u8, id: u32, set: Rc<T>)
        requires layer { layer < 64 }
        requires id { id < self.old.ids }
        requires ids { self.old.ids ≤ 64 }
        requires room { length self.old.entries ≡ 64 * self.old.ids }
        requires count { self.old.count + 1 < 2 ^ 64 }
        ensures { self.new ≡ with_set self.old layer id set.value }
    {
        let slot = layer as usize * self.ids + id as usize;
        self.count += 1;
        let number = self.count;
        self.entries[slot] = Some(Received { number, set });
    }

    /// No set is left.
    pub fn clear(&mut self)
        ensures { self.new ≡ emptied self.old }
    {
        for entry in self.entries.iter_mut() {
            *entry = None;
        }
        self.count = 0;
    }
}
