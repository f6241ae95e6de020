//! Which layers each layer refers to, directly or indirectly.

ghost use Rattle.std.specs.Prelude.{◌≡◌, false, ◌&&◌, ◌||◌, [], get_or, map, IfOk, nat_eq};
ghost use Rattle.std.specs.List.{list_any, range_with_len};
ghost use Rattle.mv_layers.specs.References.{depends, direct_indexes, reaches};

use crate::coded::LayerDependencies;
use crate::references::depends;
use std::alloc::{AllocError, Global};
use std::marker::Model;

/// Of one layer: whether it is, or refers directly or indirectly to, the layer of each index.
#[derive(Debug, Drop)]
pub(crate) struct Reached {
    marks: Vec<bool>,
}

impl Model for Reached {
    ghost use Rattle.std.specs.Prelude.{Bool, List};

    ghost Value = { List Bool };

    ghost view = { λ r. r.marks.items };
}

/// Whether the layer of index j has a mark at index k; beyond the last it hasn't.
pub(crate) fn is_reached(all: &[Reached], j: usize, k: usize) -> bool
    ensures { result ≡ get_or (get_or all.now j []) k false }
{
    match all.get(j) {
        Some(reached) => mark_at(&reached.marks, k),
        None => false,
    }
}

fn mark_at(marks: &[bool], k: usize) -> bool
    ensures { result ≡ get_or marks.now k false }
{
    match marks.get(k) {
        Some(mark) => *mark,
        None => false,
    }
}

// Whether the layer of index i refers directly to that of index j, which reaches that of index k.
fn refers_through(
    all: &[Reached],
    flags: &[LayerDependencies],
    i: usize,
    j: usize,
    k: usize,
) -> bool
    ensures { result ≡ (depends flags.now i j && get_or (get_or all.now j []) k false) }
{
    depends(flags, i, j) && is_reached(all, j, k)
}

// Whether a direct reference layer of the layer of index i reaches the layer of index k.
fn refers_on(all: &[Reached], flags: &[LayerDependencies], i: usize, k: usize) -> bool
    ensures { result ≡ list_any (λ j. get_or (get_or all.now j []) k false) (direct_indexes flags.now i) }
{
    for j in 0..i {
        if refers_through(all, flags, i, j, k) {
            return true;
        }
    }
    false
}

// Whether the layer of index i is, or by one of its direct reference layers reaches, the layer of index k.
fn reaches(all: &[Reached], flags: &[LayerDependencies], i: usize, k: usize) -> bool
    ensures { result ≡ (nat_eq i k || list_any (λ j. get_or (get_or all.now j []) k false) (direct_indexes flags.now i)) }
{
    i == k || refers_on(all, flags, i, k)
}

// The marks of the layer of index i, from those of the layers before it.
#[tactic(auto, using(crate::proofs::Collecting::collect_steps))]
fn reached_from(
    alloc: Global,
    all: &[Reached],
    flags: &[LayerDependencies],
    count: usize,
    i: usize,
) -> Result<Reached, AllocError>
    ensures { IfOk result (λ r. r ≡ map (λ k. nat_eq i k || list_any (λ j. get_or (get_or all.now j []) k false) (direct_indexes flags.now i)) (range_with_len 0 count)) }
{
    let mut marks = Vec::new(alloc);
    for k in 0..count {
        marks.push(reaches(all, flags, i, k))?;
    }
    Ok(Reached { marks })
}

/// The marks of so many layers.
pub(crate) fn all_reached(
    alloc: Global,
    flags: &[LayerDependencies],
    count: usize,
) -> Result<Vec<Reached>, AllocError>
    ensures { IfOk result (λ v. v.items ≡ map (λ i. map (reaches flags.now i) (range_with_len 0 count)) (range_with_len 0 count)) }
{
    let mut all = Vec::new(alloc);
    for i in 0..count {
        let reached = reached_from(alloc, &all, flags, count, i)?;
        all.push(reached)?;
    }
    Ok(all)
}
