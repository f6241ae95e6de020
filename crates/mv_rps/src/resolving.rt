//! The pictures of a buffer that entries match, and those that are kept.
#![tactic(auto)]

ghost use Rattle.std.specs.Prelude.{◌≡◌, ◌≤◌, ◌&&◌, Some, length, map, IfOk, option_map};
ghost use Rattle.std.specs.List.{enumerate_from, filter_map, list_any};
ghost use Rattle.mv_pictures.specs.Held.{fits_short};
ghost use Rattle.mv_rps.specs.RefSet.{aim_of};
ghost use Rattle.mv_rps.specs.Resolving.{fits, index_of, is_free, kept_at};
ghost use Rattle.mv_rps.specs.Matched.{entry_to, in_part, index_in, is_lost, long_place_at, long_place_of, place_of, set_of, with_match};

use crate::entries::{CodedAim, CodedEntry};
use crate::matching::{fits_long, fits_short};
use mv_dpb::{Held, Keep};
use smallvec::SmallVec;
use std::alloc::{AllocError, Global};

/// MaxPicOrderCntLsb and the count of a picture, from which its entries are told.
#[derive(Clone, Copy)]
pub struct Origin {
    pub max_lsb: u32,
    pub current: i32,
}

/// An entry, and the place of the picture that it matches.
#[derive(Clone, Copy, Default)]
pub struct Match {
    pub entry: CodedEntry,
    pub place: Option<u8>,
}

/// The parts of a set.
#[derive(Clone, Copy)]
pub enum Part {
    /// Short-term entries before the picture in output order.
    Before,
    /// Short-term entries after it.
    After,
    /// Long-term entries.
    Long,
}

/// Places or indexes: most pictures have at most 15 entries.
pub type Places = SmallVec<u8, 16>;

pub type Matches = SmallVec<Match, 16>;

// A short-term entry may match the picture at a place.
fn is_free(longs: &[u8], place: u8, picture: Held) -> bool
    ensures { result ≡ is_free longs.now (place, picture) }
{
    !picture.long && !longs.contains(&place)
}

fn fits_if_free(origin: Origin, longs: &[u8], aim: CodedAim, place: u8, picture: Held) -> bool
    ensures { result ≡ (fits_short origin.current (aim_of aim) (Some picture.count) && is_free longs.now (place, picture)) }
{
    fits_short(origin.current, aim, picture.count) && is_free(longs, place, picture)
}

fn fits(origin: Origin, longs: &[u8], aim: CodedAim, place: u8, picture: Held) -> bool
    requires some { 1 ≤ origin.max_lsb }
    requires few { origin.max_lsb ≤ 65536 }
    ensures { result ≡ fits (set_of origin) longs.now (entry_to aim) (place, picture) }
{
    fits_long(origin.max_lsb, origin.current, aim, picture.count)
        || fits_if_free(origin, longs, aim, place, picture)
}

// The place of the last decoded picture that an entry fits, where long-term entries match those at the places `longs`.
fn place_of(origin: Origin, longs: &[u8], aim: CodedAim, held: &[Held]) -> Option<u8>
    requires some { 1 ≤ origin.max_lsb }
    requires few { origin.max_lsb ≤ 65536 }
    requires places { length held.now ≤ 256 }
    ensures { result ≡ place_of origin longs.now held.now aim }
{
    let mut left = held.len();
    while left > 0 {
        left -= 1;
        if fits(origin, longs, aim, left as u8, held[left]) {
            return Some(left as u8);
        }
    }
    None
}

fn long_place_of(origin: Origin, aim: CodedAim, held: &[Held]) -> Option<u8>
    requires some { 1 ≤ origin.max_lsb }
    requires few { origin.max_lsb ≤ 65536 }
    requires places { length held.now ≤ 256 }
    ensures { result ≡ long_place_of origin held.now aim }
{
    match aim {
        CodedAim::Delta(_) => None,
        CodedAim::Lsb(_) => place_of(origin, &[], aim, held),
        CodedAim::Cycle(..) => place_of(origin, &[], aim, held),
    }
}

/// The places of the pictures that long-term entries match.
pub fn long_places(
    alloc: Global,
    origin: Origin,
    entries: &[CodedEntry],
    held: &[Held],
) -> Result<Places, AllocError>
    requires some { 1 ≤ origin.max_lsb }
    requires few { origin.max_lsb ≤ 65536 }
    requires places { length held.now ≤ 256 }
    ensures { IfOk result (λ v. v.items ≡ filter_map (long_place_at origin held.now) entries.now) }
{
    let mut out = SmallVec::new(alloc);
    for i in 0..entries.len() {
        if let Some(place) = long_place_of(origin, entries[i].aim, held) {
            out.push(place)?;
        }
    }
    Ok(out)
}

fn with_match(origin: Origin, longs: &[u8], entry: CodedEntry, held: &[Held]) -> Match
    requires some { 1 ≤ origin.max_lsb }
    requires few { origin.max_lsb ≤ 65536 }
    requires places { length held.now ≤ 256 }
    ensures { result ≡ with_match origin longs.now held.now entry }
{
    Match {
        entry,
        place: place_of(origin, longs, entry.aim, held),
    }
}

/// Each entry with its match, where long-term entries match those at the places `longs`.
pub fn matches_of(
    alloc: Global,
    origin: Origin,
    longs: &[u8],
    entries: &[CodedEntry],
    held: &[Held],
) -> Result<Matches, AllocError>
    requires some { 1 ≤ origin.max_lsb }
    requires few { origin.max_lsb ≤ 65536 }
    requires places { length held.now ≤ 256 }
    ensures { IfOk result (λ v. v.items ≡ map (with_match origin longs.now held.now) entries.now) }
{
    let mut out = SmallVec::new(alloc);
    for i in 0..entries.len() {
        out.push(with_match(origin, longs, entries[i], held))?;
    }
    Ok(out)
}

/// An entry that the picture uses has no match.
pub fn has_lost(matches: &[Match]) -> bool
    ensures { result ≡ list_any is_lost matches.now }
{
    matches
        .iter()
        .any(|one| one.entry.used && one.place.is_none())
}

/// The places of the matches.
pub fn matched_places(alloc: Global, matches: &[Match]) -> Result<Places, AllocError>
    ensures { IfOk result (λ v. v.items ≡ filter_map (λ m. m.place) matches.now) }
{
    let mut out = SmallVec::new(alloc);
    for i in 0..matches.len() {
        if let Some(place) = matches[i].place {
            out.push(place)?;
        }
    }
    Ok(out)
}

fn kept_at(matched: &[u8], longs: &[u8], place: u8, picture: Held) -> Option<Keep>
    ensures { result ≡ kept_at matched.now longs.now (place, picture) }
{
    if !matched.contains(&place) {
        return None;
    }
    let long = picture.long || longs.contains(&place);
    Some(Keep { place, long })
}

/// The pictures that are kept: those at the places `matched`, of which those at the places `longs` are marked for good.
pub fn kept(
    alloc: Global,
    matched: &[u8],
    longs: &[u8],
    held: &[Held],
) -> Result<Vec<Keep>, AllocError>
    requires { length held.now ≤ 256 }
    ensures { IfOk result (λ v. v.items ≡ filter_map (kept_at matched.now longs.now) (enumerate_from 0 held.now)) }
{
    let mut out = Vec::new(alloc);
    for i in 0..held.len() {
        if let Some(keep) = kept_at(matched, longs, i as u8, held[i]) {
            out.push(keep)?;
        }
    }
    Ok(out)
}

fn count_before(keep: &[Keep], place: u8) -> usize
    ensures { result ≡ index_of keep.now place }
{
    keep.iter().filter(|one| one.place < place).count()
}

// Where a place stands among those that are kept.
fn index_of(keep: &[Keep], place: u8) -> u8
    requires { index_of keep.now place ≤ place }
    ensures { result ≡ index_of keep.now place }
{
    count_before(keep, place) as u8
}

fn is_in(part: Part, aim: CodedAim) -> bool
    ensures { result ≡ in_part part (aim_of aim) }
{
    match aim {
        CodedAim::Delta(delta) => match part {
            Part::Before => delta < 0,
            Part::After => delta >= 0,
            Part::Long => false,
        },
        CodedAim::Lsb(_) => matches!(part, Part::Long),
        CodedAim::Cycle(..) => matches!(part, Part::Long),
    }
}

fn index_in(part: Part, keep: &[Keep], one: &Match) -> Option<u8>
    requires { (place : _) → index_of keep.now place ≤ place }
    ensures { result ≡ index_in part keep.now one.now }
{
    if !one.entry.used || !is_in(part, one.entry.aim) {
        return None;
    }
    match one.place {
        Some(place) => Some(index_of(keep, place)),
        None => None,
    }
}

/// The matches of a part's entries that the picture uses, by where they stand among those that are kept.
pub fn part_of(
    alloc: Global,
    part: Part,
    keep: &[Keep],
    matches: &[Match],
) -> Result<Places, AllocError>
    requires { (place : _) → index_of keep.now place ≤ place }
    ensures { IfOk result (λ v. v.items ≡ filter_map (index_in part keep.now) matches.now) }
{
    let mut out = SmallVec::new(alloc);
    for i in 0..matches.len() {
        if let Some(index) = index_in(part, keep, &matches[i]) {
            out.push(index)?;
        }
    }
    Ok(out)
}
