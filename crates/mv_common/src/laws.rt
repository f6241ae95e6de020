//! Laws of the tables, as contracts of functions with nothing to do.

ghost use Rattle.std.specs.Prelude.{ℕ, Bool, List};
ghost use Rattle.mv_syntax.specs.Laws.{ExactlyOne, RoundTrips};
ghost use Rattle.mv_common.specs.declared.hrd_common.HrdFlags.{HrdFlags as Flags};
ghost use Rattle.mv_common.specs.ProfileTier.{profile_tier_level};
ghost use Rattle.mv_common.specs.Hrd.{hrd_parameters};
ghost use Rattle.mv_common.specs.Vui.{vui_parameters};
ghost use Rattle.mv_common.specs.ScalingLists.{scaling_list_data};

/// Of any bits exactly one holds of profile_tier_level (7.3.3): one value reads, a field is past its limit, or neither.
/// What was written reads back, and what reads writes back the same bits.
pub fn profile_tier_laws()
    ensures exactly_one { (present : Bool) (subs : ℕ) (b : List Bool) → ExactlyOne (profile_tier_level present subs) b }
    ensures round_trips { (present : Bool) (subs : ℕ) → RoundTrips (profile_tier_level present subs) }
{}

/// The same of hrd_parameters (E.2.2).
pub fn hrd_laws()
    ensures exactly_one { (common : Bool) (subs : ℕ) (before : Flags) (b : List Bool) → ExactlyOne (hrd_parameters common subs before) b }
    ensures round_trips { (common : Bool) (subs : ℕ) (before : Flags) → RoundTrips (hrd_parameters common subs before) }
{}

/// The same of vui_parameters (E.2.1).
pub fn vui_laws()
    ensures exactly_one { (subs : ℕ) (b : List Bool) → ExactlyOne (vui_parameters subs) b }
    ensures round_trips { (subs : ℕ) → RoundTrips (vui_parameters subs) }
{}

/// The same of scaling_list_data (7.3.4) as of profile_tier_level.
pub fn scaling_list_laws()
    ensures exactly_one { (b : List Bool) → ExactlyOne scaling_list_data b }
    ensures round_trips { RoundTrips scaling_list_data }
{}
