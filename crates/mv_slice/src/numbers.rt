//! What a caller asks of a header beside its fields.

ghost use Rattle.std.specs.Prelude.{◌≡◌, ◌≤◌, IfOk};
ghost use Rattle.mv_syntax.specs.Table.{Valid};
ghost use Rattle.mv_slice.specs.Context.{Fits};
ghost use Rattle.mv_slice.specs.Slice.{header_layers, header_total, slice_header};

use crate::context::SliceContext;
use crate::derived::num_pic_total_curr_of;
use crate::inter_layer::num_active;
use crate::slice::SliceHead;
use mv_units::UnitHead;
use std::alloc::{AllocError, Global};

/// NumPicTotalCurr of a header (F.7.4.7.2): how many pictures of its layer and of others the slice may refer to, at most 110. Of
/// a dependent segment it is 0. It takes memory only where the short-term set is predicted.
///
/// `AllocError` where memory runs out.
pub fn num_pic_total_curr(
    alloc: Global,
    ctx: &SliceContext,
    head: UnitHead,
    value: &SliceHead,
) -> Result<u32, AllocError>
    requires fits { Fits ctx.now }
    requires valid { Valid (slice_header ctx.now head.kind) value.now }
    ensures is { IfOk result (λ n. n ≡ header_total ctx.now value.now.full) }
    ensures few { IfOk result (λ n. n ≤ 110) }
{
    match &value.full {
        Some(full) => {
            num_pic_total_curr_of(alloc, ctx, head.kind, &full.picture, &full.inter_layer)
        }
        None => Ok(0),
    }
}

/// The active layers of a header (F.7.4.7.1), by their numbers among the direct reference layers, from 0 on. A dependent segment
/// has none.
pub fn active_layers<'a>(ctx: &SliceContext<'a>, value: &'a SliceHead) -> &'a [u8]
    ensures { result.now ≡ header_layers ctx.now value.now.full }
{
    let Some(full) = &value.full else {
        return &[];
    };
    let layers = &full.inter_layer;
    if let Some(named) = &layers.inter_layer_pred_layer_idc {
        return named;
    }
    let active = num_active(
        ctx,
        layers.inter_layer_pred_enabled_flag,
        layers.num_inter_layer_ref_pics_minus1,
    );
    &ctx.eligible[..active.min(ctx.eligible.len())]
}
