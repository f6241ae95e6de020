//! What is decided of a decoded picture by its first segment.
#![tactic(auto)]

ghost use Rattle.std.specs.Prelude.{◌≡◌, ◌<◌, ◌≤◌, List, length, IfSome, IsSome};
ghost use Rattle.mv_syntax.specs.Table.{Valid};
ghost use Rattle.mv_slice.specs.Context.{Fits};
ghost use Rattle.mv_slice.specs.Slice.{slice_header};
ghost use Rattle.mv_vps.specs.Vps.{ValidVps};
ghost use Rattle.mv_pictures.specs.Facts.{Fact};
ghost use Rattle.mv_pictures.specs.Judged.{Judged};
ghost use Rattle.mv_walk_decoded.specs.Asked.{Tried};
ghost use Rattle.mv_reflists.specs.Segment.{active_l0, active_l1, list_entry_l0, list_entry_l1};
ghost use Rattle.mv_tried.specs.Tried.{first_of};
ghost use Rattle.mv_walk_decoded.specs.Making.{lists_refuse, order_after, order_refuses};
ghost use Rattle.mv_walk_decoded.specs.Made.{Given, IsListed, Makes, refuses, sizes_in};
ghost use Rattle.mv_walk_decoded.specs.Decided.{IsAsked, IsDecided, decided_cases};

use crate::asked::{First, is_put_out};
use crate::fault::DecideFault;
use crate::references::{Counted, checked_actives, count_of, inter_layer_of, sizes_of};
use mv_reflists::{InterLayer, ListFault, Lists, Sizes, build_lists};
use mv_rps::Resolved;
use mv_sets::Active;
use mv_slice::{SliceContext, SliceHead};
use mv_vps::Vps;
use mv_walk_layer::LayerPictures;
use mv_walk_order::OutputOrder;
use std::alloc::Global;

/// A decoded picture: its count; what stays of its layer's buffer, and which pictures there it refers to; the layers of its
/// inter-layer reference pictures; how many references it has of each part; the lists of its first segment; and whether it may be
/// put out.
#[derive(Debug, Drop)]
pub struct Decided {
    /// PicOrderCntVal.
    pub count: i32,
    pub resolved: Resolved,
    pub inter_layer: InterLayer,
    pub sizes: Sizes,
    pub lists: Lists,
    /// pic_output_flag.
    pub put_out: bool,
}

// The picture with the lists of its first segment. Tries the rules ListEntry, NoRefs and Collocated.
fn with_lists(
    alloc: Global,
    ctx: &SliceContext,
    header: &SliceHead,
    counted: Counted,
    inter_layer: InterLayer,
) -> Result<Decided, DecideFault>
    requires full { IsSome header.now.full }
    requires active_l0 { IfSome header.now.full (λ full. active_l0 ctx.now full ≤ 15) }
    requires active_l1 { IfSome header.now.full (λ full. active_l1 ctx.now full ≤ 15) }
    requires entries_l0 { IfSome header.now.full (λ full. IfSome (list_entry_l0 full) (λ entries. length entries ≡ active_l0 ctx.now full)) }
    requires entries_l1 { IfSome header.now.full (λ full. IfSome (list_entry_l1 full) (λ entries. length entries ≡ active_l1 ctx.now full)) }
    requires before { length counted.resolved.before.items ≤ 15 }
    requires after { length counted.resolved.after.items ≤ 15 }
    requires long { length counted.resolved.long.items ≤ 15 }
    requires zero { length inter_layer.zero ≤ 62 }
    requires one { length inter_layer.one ≤ 62 }
    ensures { Tried (lists_refuse (sizes_in counted.resolved inter_layer) ctx.now header.now.full) (IsListed counted inter_layer ctx.now header.now) result }
{
    let sizes = sizes_of(&counted.resolved, &inter_layer);
    match build_lists(alloc, &sizes, ctx, header) {
        Ok(lists) => Ok(Decided {
            count: counted.count,
            resolved: counted.resolved,
            inter_layer,
            sizes,
            lists,
            put_out: is_put_out(header),
        }),
        Err(ListFault::Refused(rule)) => Err(DecideFault::Refused(rule)),
        Err(ListFault::Memory) => Err(DecideFault::Memory),
    }
}

// Tries the rule Reorder of a picture that may be put out.
fn in_order(order: &mut OutputOrder, first: First, decided: Decided) -> Result<Decided, DecideFault>
    ensures tried { Tried (order_refuses decided.put_out order.old first.head.layer decided.count) (λ v. v ≡ decided) result }
    ensures order { order.new ≡ order_after decided.put_out order.old first.head.layer first.au decided.count }
{
    if !decided.put_out {
        return Ok(decided);
    }
    match order.step(first.head.layer, first.au, decided.count) {
        Ok(()) => Ok(decided),
        Err(rule) => Err(DecideFault::Refused(rule)),
    }
}

// What is decided, by the values alone.
fn made<P: Drop>(
    alloc: Global,
    layers: &mut [LayerPictures<P>],
    order: &mut OutputOrder,
    vps: &Vps,
    active: &Active,
    ctx: &SliceContext,
    header: &SliceHead,
    first: First,
) -> Result<Decided, DecideFault>
    requires layers { length layers.old ≡ 64 }
    requires layer { first.head.layer < 64 }
    requires vps { ValidVps vps.now }
    requires fits { Fits ctx.now }
    requires valid { Valid (slice_header ctx.now first.head.kind) header.now }
    requires full { IsSome header.now.full }
    ensures { let g : Given P = record { layers = layers.old; order = order.old; vps = vps.now; active = active.now; ctx = ctx.now; header = header.now; first = first } in
        Tried (refuses g) (Makes g layers.new order.new) result }
{
    let layer = first.head.layer;
    let actives = match checked_actives(alloc, layers, vps, active, ctx, header, first) {
        Ok(actives) => actives,
        Err(fault) => return Err(fault),
    };
    let counted = match count_of(alloc, layers, ctx, header, first) {
        Ok(counted) => counted,
        Err(fault) => return Err(fault),
    };
    let inter_layer = match inter_layer_of(alloc, vps, layer, &actives) {
        Ok(inter_layer) => inter_layer,
        Err(fault) => return Err(fault),
    };
    match with_lists(alloc, ctx, header, counted, inter_layer) {
        Ok(decided) => in_order(order, first, decided),
        Err(fault) => Err(fault),
    }
}

/// Decides a decoded picture by its first segment (8.3, F.8.3, G.8.1.3, C.5.2), over the layers' pictures before it: of 64 layers
/// what is kept of each, by nuh_layer_id. The picture's count is counted in its layer, and its output in the order of output;
/// nothing else is changed.
///
/// `Refused` with the least rule that it breaks of SpsChanged, FormatDiffers, PocRange, PocMismatch, IrapRefers, TooManyRefs,
/// MissingRef, MissingInterLayer, ListEntry, NoRefs, Collocated and Reorder. `Memory` where memory runs out. Behind an error
/// nothing is said of what is kept.
pub fn decide<P: Drop>(
    alloc: Global,
    layers: &mut [LayerPictures<P>],
    order: &mut OutputOrder,
    vps: &Vps,
    active: &Active,
    ctx: &SliceContext,
    header: &SliceHead,
    first: First,
) -> Result<Decided, DecideFault>
    requires layers { length layers.old ≡ 64 }
    requires layer { first.head.layer < 64 }
    requires vps { ValidVps vps.now }
    requires fits { Fits ctx.now }
    requires valid { Valid (slice_header ctx.now first.head.kind) header.now }
    requires full { IsSome header.now.full }
    ensures { (past : List Judged) (p : Fact) →
        let g : Given P = record { layers = layers.old; order = order.old; vps = vps.now; active = active.now; ctx = ctx.now; header = header.now; first = first } in
        IsAsked g past p →
        Tried (first_of (decided_cases past p)) (IsDecided layers.old layers.new order.new past p) result }
{
    made(alloc, layers, order, vps, active, ctx, header, first)
}
