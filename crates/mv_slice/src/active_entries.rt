//! How many entries of the reference picture lists are active.

ghost use Rattle.std.specs.Prelude.{◌≡◌, ◌≤◌, ◌&&◌};
ghost use Rattle.mv_syntax.specs.Table.{ue, when, Valid};
ghost use Rattle.mv_syntax.specs.Words.{◌!◌∶◌, over, or_zero};
ghost use Rattle.mv_rules.specs.declared.rule.Rule.TheVariants.{SliceSyntax};
ghost use Rattle.mv_slice.specs.Context.{Fits};
ghost use Rattle.mv_slice.specs.Prediction.{num_entries};

use crate::context::SliceContext;

/// The numbers of active entries of both lists, 1 to 15; that of list 1 counts for a B slice alone.
#[derive(Clone, Copy)]
pub(crate) struct ActiveEntries {
    pub(crate) l0: u32,
    pub(crate) l1: u32,
}

fn num_entries(coded_minus1: Option<u32>, default_minus1: u32) -> u32
    requires coded { or_zero coded_minus1 ≤ 14 }
    requires default { default_minus1 ≤ 14 }
    ensures { result ≡ num_entries coded_minus1 default_minus1 }
{
    coded_minus1.unwrap_or(default_minus1) + 1
}

/// The numbers that the fields give, or where they aren't coded the picture parameter set.
pub(crate) fn active_entries(
    ctx: &SliceContext,
    minus1_l0: Option<u32>,
    minus1_l1: Option<u32>,
) -> ActiveEntries
    requires fits { Fits ctx.now }
    requires within_l0 { or_zero minus1_l0 ≤ 14 }
    requires within_l1 { or_zero minus1_l1 ≤ 14 }
    ensures l0 { result.l0 ≡ num_entries minus1_l0 ctx.now.num_ref_idx_l0_default_active_minus1 }
    ensures l1 { result.l1 ≡ num_entries minus1_l1 ctx.now.num_ref_idx_l1_default_active_minus1 }
{
    ActiveEntries {
        l0: num_entries(minus1_l0, ctx.num_ref_idx_l0_default_active_minus1),
        l1: num_entries(minus1_l1, ctx.num_ref_idx_l1_default_active_minus1),
    }
}

/// The same, from fields that are valid: coded where the flag is 1, and that of list 1 for a B slice.
pub(crate) fn active_entries_of(
    ctx: &SliceContext,
    overrides: bool,
    b: bool,
    minus1_l0: Option<u32>,
    minus1_l1: Option<u32>,
) -> ActiveEntries
    requires fits { Fits ctx.now }
    requires valid_l0 { Valid (when overrides (ue ! SliceSyntax ∶ over 14)) minus1_l0 }
    requires valid_l1 { Valid (when (overrides && b) (ue ! SliceSyntax ∶ over 14)) minus1_l1 }
    ensures l0 { result.l0 ≡ num_entries minus1_l0 ctx.now.num_ref_idx_l0_default_active_minus1 }
    ensures l1 { result.l1 ≡ num_entries minus1_l1 ctx.now.num_ref_idx_l1_default_active_minus1 }
{
    active_entries(ctx, minus1_l0, minus1_l1)
}
