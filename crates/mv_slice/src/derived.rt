//! Numbers that slice segment headers derive (7.4.7.1, 8.3.2, F.7.4.7.1).

ghost use Rattle.std.specs.Prelude.{◌≡◌, ◌≤◌, [], Some, length, get_or, IfOk, IfSome};
ghost use Rattle.std.specs.List.{filter};
ghost use Rattle.mv_syntax.specs.Table.{Valid};
ghost use Rattle.mv_syntax.specs.Words.{is_set};
ghost use Rattle.mv_short_sets.specs.Deltas.{deltas, deltas_of_each};
ghost use Rattle.mv_short_sets.specs.ShortSet.{st_ref_pic_set, AreShortArgs};
ghost use Rattle.mv_slice.specs.Context.{Fits};
ghost use Rattle.mv_slice.specs.LongTerms.{long_terms};
ghost use Rattle.mv_slice.specs.Picture.{own_set, references, picture};
ghost use Rattle.mv_slice.specs.InterLayer.{inter_layer};
ghost use Rattle.mv_slice.specs.Derived.{short_deltas, is_long_used, num_short_used, num_long_used, long_entries, num_used};
ghost use Rattle.mv_slice.specs.Slice.{num_pic_total_curr, has_temporal_mvp, has_sao};

use crate::context::SliceContext;
use crate::inter_layer::{SliceInterLayer, num_active};
use crate::long_terms::{LongTerm, LongTerms};
use crate::picture::{SlicePicture, SliceReferences};
use crate::prediction::SlicePrediction;
use mv_fields::coded_set;
use mv_short_sets::{Delta, ShortArgs, ShortSet};
use std::alloc::{AllocError, Global};

fn num_set(flags: &[u8]) -> usize
    ensures { result ≡ length (filter is_set flags.now) }
{
    flags.iter().filter(|flag| **flag == 1).count()
}

#[tactic(auto, unfolding(crate::specs::Derived::num_short_used))]
fn num_used_deltas(some: &[Delta]) -> usize
    ensures { result ≡ num_short_used some.now }
{
    some.iter().filter(|one| one.used).count()
}

/// The used pictures of a short-term set. A set that is coded directly takes no memory.
fn num_used_of_set(alloc: Global, set: &ShortSet, args: &ShortArgs<'_>) -> Result<usize, AllocError>
    requires args { AreShortArgs args.now.idx args.now.num args.now.earlier.now }
    requires valid { Valid (st_ref_pic_set args.now.idx args.now.num (deltas_of_each args.now.earlier.now)) set.now }
    ensures is { IfOk result (λ n. n ≡ num_short_used (deltas args.now.idx (deltas_of_each args.now.earlier.now) set.now)) }
    ensures few { IfOk result (λ n. n ≤ 16) }
{
    if coded_set(set.inter_ref_pic_set_prediction_flag) {
        let deltas = set.deltas(alloc, args)?;
        return Ok(num_used_deltas(&deltas));
    }
    Ok(num_set(&set.used_by_curr_pic_s0_flag) + num_set(&set.used_by_curr_pic_s1_flag))
}

/// The used pictures of a set of the sequence parameter set; of one that it hasn't, none.
fn num_used_of_sps(alloc: Global, ctx: &SliceContext, idx: u8) -> Result<usize, AllocError>
    requires { Fits ctx.now }
    ensures is { IfOk result (λ n. n ≡ num_short_used (get_or (deltas_of_each ctx.now.short_sets) idx [])) }
    ensures few { IfOk result (λ n. n ≤ 16) }
{
    let at = usize::from(idx);
    let Some(set) = ctx.short_sets.get(at) else {
        return Ok(0);
    };
    let args = ShortArgs {
        idx,
        num: ctx.num_short_term_ref_pic_sets as u8,
        earlier: &ctx.short_sets[..at],
    };
    num_used_of_set(alloc, set, &args)
}

/// The used pictures of the set that is coded, or else of the one of the sequence parameter set that is named.
#[tactic(auto, unfolding(crate::specs::Derived::short_deltas))]
fn num_short_used_of(
    alloc: Global,
    ctx: &SliceContext,
    coded: &Option<ShortSet>,
    idx: Option<u8>,
) -> Result<usize, AllocError>
    requires fits { Fits ctx.now }
    requires valid { IfSome coded.now (λ set. Valid (own_set ctx.now) set) }
    ensures is { IfOk result (λ n. n ≡ num_short_used (short_deltas ctx.now coded.now idx)) }
    ensures few { IfOk result (λ n. n ≤ 16) }
{
    let num = ctx.num_short_term_ref_pic_sets as u8;
    match coded {
        Some(set) => num_used_of_set(
            alloc,
            set,
            &ShortArgs {
                idx: num,
                num,
                earlier: ctx.short_sets,
            },
        ),
        None => num_used_of_sps(alloc, ctx, idx.unwrap_or(0)),
    }
}

/// Whether a long-term entry is used: by its own flag, or else by that of its candidate.
#[tactic(auto, unfolding(crate::specs::Derived::is_long_used))]
fn is_used(ctx: &SliceContext, entry: LongTerm) -> bool
    ensures { result ≡ is_long_used ctx.now entry }
{
    if let Some(flag) = entry.used_by_curr_pic_lt_flag {
        return flag == 1;
    }
    let candidate = usize::from(entry.lt_idx_sps.unwrap_or(0));
    match ctx.used_by_curr_pic_lt_sps_flag.get(candidate) {
        Some(flag) => *flag == 1,
        None => false,
    }
}

#[tactic(auto, unfolding(crate::specs::Derived::num_long_used))]
fn num_used_entries(ctx: &SliceContext, entries: &[LongTerm]) -> usize
    ensures is { result ≡ num_long_used ctx.now entries.now }
    ensures few { result ≤ length entries.now }
{
    entries.iter().filter(|entry| is_used(ctx, **entry)).count()
}

fn num_long_used_of(ctx: &SliceContext, coded: &Option<LongTerms>) -> usize
    requires { IfSome coded.now (λ some. Valid (long_terms ctx.now) some) }
    ensures is { result ≡ num_long_used ctx.now (long_entries coded.now) }
    ensures few { result ≤ 32 }
{
    match coded {
        Some(some) => num_used_entries(ctx, &some.entries),
        None => 0,
    }
}

/// The used entries of the reference set of a picture that is no IDR picture.
#[tactic(auto, unfolding(crate::specs::Derived::num_used))]
fn num_used_of(alloc: Global, ctx: &SliceContext, v: &SliceReferences) -> Result<usize, AllocError>
    requires fits { Fits ctx.now }
    requires valid { Valid (references ctx.now) v.now }
    ensures is { IfOk result (λ n. n ≡ num_used ctx.now (Some v.now)) }
    ensures few { IfOk result (λ n. n ≤ 48) }
{
    let short = num_short_used_of(alloc, ctx, &v.st_ref_pic_set, v.short_term_ref_pic_set_idx)?;
    Ok(short + num_long_used_of(ctx, &v.long_terms))
}

#[tactic(auto, unfolding(crate::specs::Derived::num_used))]
fn num_used_if(
    alloc: Global,
    ctx: &SliceContext,
    coded: &Option<SliceReferences>,
) -> Result<usize, AllocError>
    requires fits { Fits ctx.now }
    requires valid { IfSome coded.now (λ v. Valid (references ctx.now) v) }
    ensures is { IfOk result (λ n. n ≡ num_used ctx.now coded.now) }
    ensures few { IfOk result (λ n. n ≤ 48) }
{
    match coded {
        Some(v) => num_used_of(alloc, ctx, v),
        None => Ok(0),
    }
}

/// NumPicTotalCurr (F.7.4.7.2), at most 48 pictures of the layer itself and 62 of others. It takes memory only where the
/// short-term set is predicted.
#[tactic(auto, unfolding(crate::specs::Slice::num_pic_total_curr))]
pub(crate) fn num_pic_total_curr_of(
    alloc: Global,
    ctx: &SliceContext,
    nal_unit_type: u8,
    of_picture: &SlicePicture,
    of_layers: &SliceInterLayer,
) -> Result<u32, AllocError>
    requires fits { Fits ctx.now }
    requires picture { Valid (picture ctx.now nal_unit_type) of_picture.now }
    requires layers { Valid (inter_layer ctx.now) of_layers.now }
    ensures is { IfOk result (λ n. n ≡ num_pic_total_curr ctx.now of_picture.now of_layers.now) }
    ensures few { IfOk result (λ n. n ≤ 110) }
{
    let used = num_used_if(alloc, ctx, &of_picture.references)?;
    let active = num_active(
        ctx,
        of_layers.inter_layer_pred_enabled_flag,
        of_layers.num_inter_layer_ref_pics_minus1,
    );
    Ok((used + active) as u32)
}

/// slice_temporal_mvp_enabled_flag is 1.
pub(crate) fn has_temporal_mvp(references: &Option<SliceReferences>) -> bool
    ensures { result ≡ has_temporal_mvp references.now }
{
    match references {
        Some(references) => coded_set(references.slice_temporal_mvp_enabled_flag),
        None => false,
    }
}

/// One of the flags of sample adaptive offset is 1.
pub(crate) fn has_sao(prediction: &SlicePrediction) -> bool
    ensures { result ≡ has_sao prediction.now }
{
    coded_set(prediction.slice_sao_luma_flag) || coded_set(prediction.slice_sao_chroma_flag)
}
