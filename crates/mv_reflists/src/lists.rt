//! A reference picture list, filled from its initial list.

ghost use Rattle.std.specs.Prelude.{◌≡◌, ◌<◌, ◌≤◌, length, map, option_map};
ghost use Rattle.std.specs.List.{range_with_len};
ghost use Rattle.std.specs.Option.{IfSome};
ghost use Rattle.mv_pictures.specs.Lists.{entry, list};

use crate::initial::InitialList;
use smallvec::SmallVec;
use std::alloc::Global;
use std::marker::Model;

/// The reference picture lists of a slice segment, RefPicList0 and RefPicList1: places in the list of its picture's references,
/// from 0 on.
#[derive(Debug, Drop)]
pub struct Lists {
    pub list0: SmallVec<u8, 16>,
    pub list1: SmallVec<u8, 16>,
}

impl Model for Lists {
    ghost use Rattle.mv_pictures.specs.Terms.{Lists as Places};

    ghost Value = { Places };

    ghost view = { λ s. record {
      list0 = s.list0.items;
      list1 = s.list1.items;
    } };
}

// The first entries of an initial list.
fn first_entries(alloc: Global, places: &InitialList, active: usize) -> SmallVec<u8, 16>
    requires some { 0 < length places.now }
    requires few { active ≤ 15 }
    ensures { result.items ≡ map (entry places.now) (range_with_len 0 active) }
{
    let mut list = SmallVec::new(alloc);
    for i in 0..active {
        list.push_reserved(places.entry(i));
    }
    list
}

// The initial entry at each list_entry.
fn entries_at(alloc: Global, places: &InitialList, list_entry: &[u8]) -> SmallVec<u8, 16>
    requires some { 0 < length places.now }
    requires few { length list_entry.now ≤ 15 }
    ensures { result.items ≡ map (entry places.now) list_entry.now }
{
    let mut list = SmallVec::new(alloc);
    for entry in list_entry {
        list.push_reserved(places.entry(usize::from(*entry)));
    }
    list
}

/// A list from its initial list: with the modification the entry at each list_entry, and else the first of them.
#[tactic(auto, using(crate::proofs::Filling::list_empty, crate::proofs::Filling::list_modified, crate::proofs::Filling::list_initial))]
pub(crate) fn list_of(
    alloc: Global,
    places: &InitialList,
    active: usize,
    list_entry: Option<&[u8]>,
) -> SmallVec<u8, 16>
    requires few { active ≤ 15 }
    requires few_entries { IfSome list_entry (λ s. length s.now ≤ 15) }
    ensures { result.items ≡ list places.now active (option_map (λ s. s.now) list_entry.entry) }
{
    if places.is_empty() {
        return SmallVec::new(alloc);
    }
    match list_entry {
        Some(list_entry) => entries_at(alloc, places, list_entry),
        None => first_entries(alloc, places, active),
    }
}
