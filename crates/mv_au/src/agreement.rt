//! Fields that agree in all segments of a picture, and addresses that follow one another.
#![tactic(auto)]

ghost use Rattle.std.specs.Prelude.{◌≡◌, List, option_map};
ghost use Rattle.mv_pictures.specs.Facts.{Fact};
ghost use Rattle.mv_pictures.specs.SliceRules.{full_agrees, same_field, same_fields, same_full, same_inter_layer, same_list, same_long_term, same_long_terms, same_opening, same_option, same_picture, same_references, same_short_set};
ghost use Rattle.mv_au.specs.Agreement.{IsLater, IsSegment, agrees_by, answer, is_bad_by};

use mv_fields::or_zero;
use mv_rules::Rule;
use mv_short_sets::ShortSet;
use mv_slice::{
    LongTerm, LongTerms, SliceContext, SliceFull, SliceHead, SliceInterLayer, SliceOpening,
    SlicePicture, SliceReferences,
};
use mv_units::UnitHead;

/// Whether a segment that isn't the first one of its picture agrees with the first one (7.4.7.1; this project's profile), and its
/// address follows that of the segment before. `head` has the heads of the two segments' units, that of the first one first, and
/// `last_address` is the address of the segment before.
///
/// `SliceDiffers` where the type, TemporalId or a coded field that all segments of a picture share differs, and else
/// `AddressOrder` where the address is 0, not in the picture, or without tiles not above that of the segment before.
pub fn agree(
    first: &SliceHead,
    last_address: u32,
    head: (UnitHead, UnitHead),
    next: &SliceHead,
    ctx: &SliceContext,
) -> Result<(), Rule>
    ensures { (past : List Fact) (f p : Fact) → IsSegment head.0 first.now f → IsSegment head.1 next.now p → IsLater last_address ctx.now past f p → result ≡ answer past p }
{
    if !agrees(first, head, next) {
        return Err(Rule::SliceDiffers);
    }
    if is_bad_address(last_address, next, ctx) {
        return Err(Rule::AddressOrder);
    }
    Ok(())
}

fn is_bad_address(last_address: u32, next: &SliceHead, ctx: &SliceContext) -> bool
    ensures { result ≡ is_bad_by last_address next.now ctx.now }
{
    let address = or_zero(next.address.slice_segment_address);
    address == 0 || ctx.ctbs <= address || (ctx.tiles_enabled_flag != 1 && address <= last_address)
}

fn agrees(first: &SliceHead, head: (UnitHead, UnitHead), next: &SliceHead) -> bool
    ensures { result ≡ agrees_by first.now head.0 head.1 next.now }
{
    head.1.kind == head.0.kind
        && head.1.tid == head.0.tid
        && same_opening(&next.opening, &first.opening)
        && full_agrees(&next.full, &first.full)
}

#[tactic(auto, unfolding(mv_pictures::specs::SliceRules::same_option, mv_pictures::specs::SliceRules::same_opening))]
fn same_opening(a: &SliceOpening, b: &SliceOpening) -> bool
    ensures { result ≡ same_opening a.now b.now }
{
    a.no_output_of_prior_pics_flag == b.no_output_of_prior_pics_flag
        && a.slice_pic_parameter_set_id == b.slice_pic_parameter_set_id
}

// A dependent segment has no other fields.
fn full_agrees(next: &Option<SliceFull>, first: &Option<SliceFull>) -> bool
    ensures { result ≡ full_agrees next.now first.now }
{
    match (next, first) {
        (None, _) => true,
        (Some(_), None) => false,
        (Some(next), Some(first)) => same_full(next, first),
    }
}

#[tactic(auto, unfolding(mv_pictures::specs::SliceRules::same_full))]
fn same_full(a: &SliceFull, b: &SliceFull) -> bool
    ensures { result ≡ same_full a.now b.now }
{
    same_picture(&a.picture, &b.picture) && same_inter_layer(&a.inter_layer, &b.inter_layer)
}

#[tactic(auto, unfolding(mv_pictures::specs::SliceRules::same_option, mv_pictures::specs::SliceRules::same_inter_layer))]
fn same_inter_layer(a: &SliceInterLayer, b: &SliceInterLayer) -> bool
    ensures { result ≡ same_inter_layer a.now b.now }
{
    a.inter_layer_pred_enabled_flag == b.inter_layer_pred_enabled_flag
        && a.num_inter_layer_ref_pics_minus1 == b.num_inter_layer_ref_pics_minus1
        && same_layers(&a.inter_layer_pred_layer_idc, &b.inter_layer_pred_layer_idc)
}

#[tactic(auto, unfolding(mv_pictures::specs::SliceRules::same_option, mv_pictures::specs::SliceRules::same_picture))]
fn same_picture(a: &SlicePicture, b: &SlicePicture) -> bool
    ensures { result ≡ same_picture a.now b.now }
{
    a.discardable_flag == b.discardable_flag
        && a.pic_output_flag == b.pic_output_flag
        && a.slice_pic_order_cnt_lsb == b.slice_pic_order_cnt_lsb
        && both_references(&a.references, &b.references)
}

#[tactic(auto, unfolding(mv_pictures::specs::SliceRules::same_option))]
fn both_references(a: &Option<SliceReferences>, b: &Option<SliceReferences>) -> bool
    ensures { result ≡ same_option same_references a.now b.now }
{
    match (a, b) {
        (Some(a), Some(b)) => same_references(a, b),
        (None, None) => true,
        _ => false,
    }
}

#[tactic(auto, unfolding(mv_pictures::specs::SliceRules::same_option, mv_pictures::specs::SliceRules::same_references))]
fn same_references(a: &SliceReferences, b: &SliceReferences) -> bool
    ensures { result ≡ same_references a.now b.now }
{
    a.short_term_ref_pic_set_sps_flag == b.short_term_ref_pic_set_sps_flag
        && both_short_sets(&a.st_ref_pic_set, &b.st_ref_pic_set)
        && a.short_term_ref_pic_set_idx == b.short_term_ref_pic_set_idx
        && both_long_terms(&a.long_terms, &b.long_terms)
        && a.slice_temporal_mvp_enabled_flag == b.slice_temporal_mvp_enabled_flag
}

#[tactic(auto, unfolding(mv_pictures::specs::SliceRules::same_option))]
fn both_short_sets(a: &Option<ShortSet>, b: &Option<ShortSet>) -> bool
    ensures { result ≡ same_option same_short_set a.now b.now }
{
    match (a, b) {
        (Some(a), Some(b)) => same_short_set(a, b),
        (None, None) => true,
        _ => false,
    }
}

#[tactic(auto, unfolding(mv_pictures::specs::SliceRules::same_option))]
fn both_long_terms(a: &Option<LongTerms>, b: &Option<LongTerms>) -> bool
    ensures { result ≡ same_option same_long_terms a.now b.now }
{
    match (a, b) {
        (Some(a), Some(b)) => same_long_terms(a, b),
        (None, None) => true,
        _ => false,
    }
}

#[tactic(auto, unfolding(mv_pictures::specs::SliceRules::same_option, mv_pictures::specs::SliceRules::same_short_set))]
fn same_short_set(a: &ShortSet, b: &ShortSet) -> bool
    ensures { result ≡ same_short_set a.now b.now }
{
    a.inter_ref_pic_set_prediction_flag == b.inter_ref_pic_set_prediction_flag
        && a.delta_idx_minus1 == b.delta_idx_minus1
        && a.delta_rps_sign == b.delta_rps_sign
        && a.abs_delta_rps_minus1 == b.abs_delta_rps_minus1
        && same_flags(&a.used_by_curr_pic_flag, &b.used_by_curr_pic_flag)
        && same_coded_flags(&a.use_delta_flag, &b.use_delta_flag)
        && a.num_negative_pics == b.num_negative_pics
        && a.num_positive_pics == b.num_positive_pics
        && same_numbers(&a.delta_poc_s0_minus1, &b.delta_poc_s0_minus1)
        && same_flags(&a.used_by_curr_pic_s0_flag, &b.used_by_curr_pic_s0_flag)
        && same_numbers(&a.delta_poc_s1_minus1, &b.delta_poc_s1_minus1)
        && same_flags(&a.used_by_curr_pic_s1_flag, &b.used_by_curr_pic_s1_flag)
}

#[tactic(auto, unfolding(mv_pictures::specs::SliceRules::same_option, mv_pictures::specs::SliceRules::same_long_terms))]
fn same_long_terms(a: &LongTerms, b: &LongTerms) -> bool
    ensures { result ≡ same_long_terms a.now b.now }
{
    a.num_long_term_sps == b.num_long_term_sps
        && a.num_long_term_pics == b.num_long_term_pics
        && same_entries(&a.entries, &b.entries)
}

// The layers that are named, where they are.
#[tactic(auto, unfolding(mv_pictures::specs::SliceRules::same_option))]
fn same_layers(a: &Option<Vec<u8>>, b: &Option<Vec<u8>>) -> bool
    ensures { result ≡ same_option same_fields (option_map (λ v. v.items) a.now) (option_map (λ v. v.items) b.now) }
{
    match (a, b) {
        (Some(a), Some(b)) => same_flags(a, b),
        (None, None) => true,
        _ => false,
    }
}

fn same_flags(a: &[u8], b: &[u8]) -> bool
    ensures { result ≡ same_fields a.now b.now }
{
    a == b
}

fn same_numbers(a: &[u32], b: &[u32]) -> bool
    ensures { result ≡ same_fields a.now b.now }
{
    a == b
}

fn same_coded_flags(a: &[Option<u8>], b: &[Option<u8>]) -> bool
    ensures { result ≡ same_list same_field a.now b.now }
{
    a == b
}

fn same_entries(a: &[LongTerm], b: &[LongTerm]) -> bool
    ensures { result ≡ same_list same_long_term a.now b.now }
{
    a == b
}
