//! Picture order counts.
#![tactic(auto)]

ghost use Rattle.std.specs.Prelude.{◌≡◌, ◌^◌, ◌≤◌, None, pos, neg_ℤ, ◌≤ℤ◌, ◌-ℤ◌};
ghost use Rattle.mv_pictures.specs.Counts.{lowest, nearest, residue};
ghost use Rattle.mv_rps.specs.Asked.{anchor_after, count_of, count_within, counted, has_low_bits, is_off_base, may_anchor, start_count};

use mv_fields::or_zero;
use mv_rules::Rule;
use std::marker::Model;

/// What is asked of a picture for its count.
#[derive(Clone, Copy, Debug, PartialEq, Eq)]
pub struct PocAsk {
    /// nuh_layer_id.
    pub layer: u8,
    /// nal_unit_type.
    pub kind: u8,
    /// TemporalId.
    pub tid: u8,
    /// The layer starts with it.
    pub start: bool,
    /// slice_pic_order_cnt_lsb, where it is coded.
    pub lsb: Option<u32>,
    /// MaxPicOrderCntLsb.
    pub max_lsb: u32,
    /// The count of the base picture of its access unit, for a picture of another layer, where it is in range.
    pub base: Option<i32>,
}

/// The counts of one layer's pictures: the count of the last picture that later ones take as their anchor, prevTid0Pic
/// (8.3.1).
#[derive(Debug, Drop)]
pub struct PocState {
    anchor: Option<i32>,
}

impl Model for PocState {
    ghost use Rattle.std.specs.Prelude.{Option, ℤ};

    ghost Value = { Option ℤ };

    ghost view = { λ s. s.anchor };
}

impl PocState {
    /// A layer of which no picture was counted.
    pub fn new() -> Self
        ensures { result ≡ None }
    {
        PocState { anchor: None }
    }

    /// PicOrderCntVal of the layer's next picture (8.3.1, F.8.3.1). A refusal changes nothing.
    ///
    /// `PocRange` where it has none within 32 bits, and else `PocMismatch` where a picture of a layer above 0 hasn't the count of
    /// the base picture, or the low bits that are coded in a start aren't those of its count.
    pub fn next(&mut self, asked: &PocAsk) -> Result<i32, Rule>
        requires some { 1 ≤ asked.now.max_lsb }
        requires few { asked.now.max_lsb ≤ 65536 }
        ensures count { result ≡ counted self.old asked.now }
        ensures anchor { self.new ≡ anchor_after self.old asked.now }
    {
        let count = count_in_range(asked, self.anchor)?;
        if is_off_base(asked, count) {
            return Err(Rule::PocMismatch);
        }
        if asked.start || may_anchor(asked) {
            self.anchor = Some(count);
        }
        Ok(count)
    }
}

// The lowest count that may follow an anchor.
fn lowest(max_lsb: u32, anchor: i32) -> i64
    requires few { max_lsb ≤ 65536 }
    ensures is { result ≡ lowest max_lsb anchor }
    ensures not_below { neg_ℤ (pos (2 ^ 33)) ≤ℤ result }
    ensures not_above { result ≤ℤ pos (2 ^ 33) }
{
    i64::from(anchor) - (i64::from(max_lsb / 2) - 1)
}

// How far above the lowest count the next one with these low bits stands.
fn distance(max_lsb: u32, lsb: u32, lowest: i64) -> i64
    requires some { 1 ≤ max_lsb }
    requires few { max_lsb ≤ 65536 }
    requires not_below { neg_ℤ (pos (2 ^ 33)) ≤ℤ lowest }
    requires not_above { lowest ≤ℤ pos (2 ^ 33) }
    ensures is { result ≡ residue max_lsb (pos lsb -ℤ lowest) }
    ensures not_below { pos 0 ≤ℤ result }
    ensures not_above { result ≤ℤ pos 65536 }
{
    (i64::from(lsb) - lowest).rem_euclid(i64::from(max_lsb))
}

// The count with these low bits that is nearest to the anchor's.
#[tactic(auto, unfolding(mv_pictures::specs::Counts::nearest))]
fn nearest(max_lsb: u32, lsb: u32, anchor: i32) -> i64
    requires some { 1 ≤ max_lsb }
    requires few { max_lsb ≤ 65536 }
    ensures { result ≡ nearest max_lsb lsb anchor }
{
    let lowest = lowest(max_lsb, anchor);
    lowest + distance(max_lsb, lsb, lowest)
}

// The count of a start: its low bits in layer 0, and elsewhere that of the base picture.
fn count_of_start(asked: &PocAsk) -> Option<i64>
    ensures { result ≡ start_count asked.now }
{
    if asked.layer == 0 {
        return Some(i64::from(or_zero(asked.lsb)));
    }
    asked.base.map(i64::from)
}

fn count_of(asked: &PocAsk, anchor: Option<i32>) -> Option<i64>
    requires some { 1 ≤ asked.now.max_lsb }
    requires few { asked.now.max_lsb ≤ 65536 }
    ensures { result ≡ count_of anchor asked.now }
{
    if asked.start {
        return count_of_start(asked);
    }
    match anchor {
        Some(anchor) => Some(nearest(asked.max_lsb, or_zero(asked.lsb), anchor)),
        None => None,
    }
}

// That count, where it is within 32 bits.
fn count_in_range(asked: &PocAsk, anchor: Option<i32>) -> Result<i32, Rule>
    requires some { 1 ≤ asked.now.max_lsb }
    requires few { asked.now.max_lsb ≤ 65536 }
    ensures { result ≡ count_within anchor asked.now }
{
    let Some(count) = count_of(asked, anchor) else {
        return Err(Rule::PocRange);
    };
    match i32::try_from(count) {
        Ok(count) => Ok(count),
        Err(_) => Err(Rule::PocRange),
    }
}

// The low bits that are coded, if they are, are those of the count.
fn has_low_bits(asked: &PocAsk, count: i32) -> bool
    requires some { 1 ≤ asked.now.max_lsb }
    requires few { asked.now.max_lsb ≤ 65536 }
    ensures { result ≡ has_low_bits asked.now count }
{
    match asked.lsb {
        Some(lsb) => i64::from(count).rem_euclid(i64::from(asked.max_lsb)) == i64::from(lsb),
        None => true,
    }
}

fn is_off_base(asked: &PocAsk, count: i32) -> bool
    requires some { 1 ≤ asked.now.max_lsb }
    requires few { asked.now.max_lsb ≤ 65536 }
    ensures { result ≡ is_off_base asked.now count }
{
    asked.layer != 0 && (asked.base != Some(count) || (asked.start && !has_low_bits(asked, count)))
}

// Later pictures take it as their anchor.
fn may_anchor(asked: &PocAsk) -> bool
    ensures { result ≡ may_anchor asked.now }
{
    let leading = 6 <= asked.kind && asked.kind <= 9;
    let non_reference = asked.kind <= 9 && asked.kind % 2 == 0;
    asked.tid == 0 && !leading && !non_reference
}
