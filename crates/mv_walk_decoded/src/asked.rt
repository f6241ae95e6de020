//! What is asked of a picture beside its header.
#![tactic(auto)]

ghost use Rattle.std.specs.Prelude.{◌≡◌, ◌^◌, ◌≤◌, Some};
ghost use Rattle.mv_slice.specs.Context.{Fits};
ghost use Rattle.mv_walk_decoded.specs.Asked.{asked_by, lsb_in, put_out_in};

use mv_rps::PocAsk;
use mv_slice::{SliceContext, SliceFull, SliceHead};
use mv_units::UnitHead;

/// Where a decoded picture's first segment stands.
#[derive(Clone, Copy, Debug)]
pub struct First {
    /// The head of its unit.
    pub head: UnitHead,
    /// The number of its access unit.
    pub au: u64,
    /// The layer starts with it.
    pub start: bool,
    /// PicOrderCntVal of the base picture of its access unit, for a picture of another layer, where it is in range.
    pub base: Option<i32>,
}

// slice_pic_order_cnt_lsb, where it is coded.
fn coded_lsb(header: &SliceHead) -> Option<u32>
    ensures { result ≡ lsb_in header.now.full }
{
    match &header.full {
        Some(full) => full.picture.slice_pic_order_cnt_lsb.map(u32::from),
        None => None,
    }
}

// MaxPicOrderCntLsb.
fn max_lsb(lsb_bits: u8) -> u32
    requires { lsb_bits ≤ 16 }
    ensures is { result ≡ 2 ^ lsb_bits }
    ensures some { 1 ≤ result }
    ensures few { result ≤ 65536 }
{
    1 << lsb_bits
}

/// What is asked of a picture for its count (8.3.1, F.8.3.1).
pub fn count_asked(first: First, ctx: &SliceContext, header: &SliceHead) -> PocAsk
    requires fits { Fits ctx.now }
    ensures is { result ≡ asked_by first ctx.now header.now }
    ensures some { 1 ≤ result.max_lsb }
    ensures few { result.max_lsb ≤ 65536 }
{
    PocAsk {
        layer: first.head.layer,
        kind: first.head.kind,
        tid: first.head.tid,
        start: first.start,
        lsb: coded_lsb(header),
        max_lsb: max_lsb(ctx.lsb_bits),
        base: first.base,
    }
}

fn has_output_flag(full: &SliceFull) -> bool
    ensures { result ≡ put_out_in (Some full.now) }
{
    full.picture.pic_output_flag.unwrap_or(1) == 1
}

/// Whether the picture may be put out: pic_output_flag, 1 where it isn't coded.
pub fn is_put_out(header: &SliceHead) -> bool
    ensures { result ≡ put_out_in header.now.full }
{
    match &header.full {
        Some(full) => has_output_flag(full),
        None => true,
    }
}
