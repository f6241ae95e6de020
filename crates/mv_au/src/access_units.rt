//! Access units.
#![tactic(auto)]

ghost use Rattle.std.specs.Prelude.{◌≡◌, ◌<◌, ◌+◌, ◌^◌, ◌∷◌, [], true, false, List, length, is_ok, if◌then◌else◌};
ghost use Rattle.mv_pictures.specs.Items.{Item};
ghost use Rattle.mv_pictures.specs.Kinds.{is_opening_kind};
ghost use Rattle.mv_au.specs.Tracker.{IsTold, Stands, answer};
ghost use Rattle.mv_au.specs.Tracking.{begins_by, joined, open_at, opens, with_picture, with_segment};

use mv_rules::Rule;
use mv_units::UnitHead;
use std::marker::Model;

/// The access unit of a unit.
#[derive(Clone, Copy, PartialEq, Eq, Debug)]
pub struct AuStep {
    /// Its number, from 0 on.
    pub au: u64,
    /// The unit begins it, behind another access unit.
    pub begins: bool,
}

/// The access unit of the latest unit of a stream: its number, and the head of its latest picture.
#[derive(Debug, Drop)]
pub struct AuTracker {
    au: u64,
    picture: Option<UnitHead>,
}

impl Model for AuTracker {
    ghost use Rattle.mv_au.specs.TrackerValue.{TrackerValue};

    ghost Value = { TrackerValue };

    ghost view = { λ t. record { au = t.au; picture = t.picture } };
}

impl AuTracker {
    /// A stream without units.
    pub fn new() -> Self
        ensures { Stands result [] }
    {
        AuTracker {
            au: 0,
            picture: None,
        }
    }

    /// The access unit of the stream's next unit (7.4.2.4.4), which isn't a stray. Of a slice segment `first` says whether it is
    /// the first one of its picture. A refusal changes nothing.
    ///
    /// `NoBase`, `LayerOrder`, `OrphanSlice` and `TidDiffers` say what the access unit can't have.
    pub fn step(&mut self, head: UnitHead, first: Option<bool>) -> Result<AuStep, Rule>
        ensures answer { (us : List Item) (i : Item) → Stands self.old us → IsTold i head first → length us + 1 < 2 ^ 64 → result ≡ answer us i }
        ensures stands { (us : List Item) (i : Item) → Stands self.old us → IsTold i head first → length us + 1 < 2 ^ 64 → is_ok result ≡ true → Stands self.new (i ∷ us) }
        ensures refused { is_ok result ≡ false → self.new ≡ self.old }
    {
        let begins = begins_behind(self.picture, head, first);
        let picture = joined(open_at(begins, self.picture), head, first)?;
        let au = number_at(begins, self.au);
        self.au = au;
        self.picture = picture;
        Ok(AuStep { au, begins })
    }
}

// It begins an access unit where the one before has its slice segments.
fn opens(head: UnitHead, first: Option<bool>) -> bool
    ensures { result ≡ opens head first }
{
    head.layer == 0 && (is_opening_kind(head.kind) || first == Some(true))
}

fn begins_behind(picture: Option<UnitHead>, head: UnitHead, first: Option<bool>) -> bool
    ensures { result ≡ begins_by picture head first }
{
    opens(head, first) && picture.is_some()
}

fn is_opening_kind(kind: u8) -> bool
    ensures { result ≡ is_opening_kind kind }
{
    matches!(kind, 32..=35 | 39 | 41..=44 | 48..=55)
}

// The latest picture of the access unit to which a unit belongs.
fn open_at(begins: bool, picture: Option<UnitHead>) -> Option<UnitHead>
    ensures { result ≡ open_at begins picture }
{
    if begins { None } else { picture }
}

fn number_at(begins: bool, au: u64) -> u64
    ensures { au + 1 < 2 ^ 64 → result ≡ au + (if begins then 1 else 0) }
{
    if begins { au.wrapping_add(1) } else { au }
}

// The latest picture with a unit more.
fn joined(
    picture: Option<UnitHead>,
    head: UnitHead,
    first: Option<bool>,
) -> Result<Option<UnitHead>, Rule>
    ensures { result ≡ joined picture head first }
{
    match first {
        None => Ok(picture),
        Some(true) => with_picture(picture, head),
        Some(false) => with_segment(picture, head),
    }
}

fn with_picture(picture: Option<UnitHead>, head: UnitHead) -> Result<Option<UnitHead>, Rule>
    ensures { result ≡ with_picture picture head }
{
    let Some(latest) = picture else {
        return if head.layer == 0 {
            Ok(Some(head))
        } else {
            Err(Rule::NoBase)
        };
    };
    if head.layer <= latest.layer {
        return Err(Rule::LayerOrder);
    }
    if head.tid != latest.tid {
        return Err(Rule::TidDiffers);
    }
    Ok(Some(head))
}

fn with_segment(picture: Option<UnitHead>, head: UnitHead) -> Result<Option<UnitHead>, Rule>
    ensures { result ≡ with_segment picture head }
{
    let Some(latest) = picture else {
        return Err(if head.layer == 0 {
            Rule::OrphanSlice
        } else {
            Rule::NoBase
        });
    };
    if latest.layer != head.layer {
        return Err(Rule::OrphanSlice);
    }
    Ok(Some(latest))
}
