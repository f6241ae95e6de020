//! Laws of slice segments, and of the latest picture of an access unit. Each function has an empty body, and its contract is the
//! law.
#![tactic(auto)]

ghost use Rattle.std.specs.Prelude.{◌≡◌, ◌<◌, ◌∷◌, ℕ, All, false, true, List, None, Option, Some};
ghost use Rattle.mv_rules.specs.declared.rule.Rule.{Rule};
ghost use Rattle.mv_units.specs.declared.head.UnitHead.{UnitHead};
ghost use Rattle.mv_vps.specs.Vps.{WholeVps};
ghost use Rattle.mv_pictures.specs.AccessUnits.{Placed};
ghost use Rattle.mv_pictures.specs.Facts.{Fact, fact, named_sets, sets_of};
ghost use Rattle.mv_pictures.specs.History.{judged};
ghost use Rattle.mv_pictures.specs.Items.{is_picture as item_picture, is_slice as item_slice};
ghost use Rattle.mv_pictures.specs.Judged.{Judged, au, is_slice};
ghost use Rattle.mv_pictures.specs.Layers.{whole};
ghost use Rattle.mv_sets.specs.Sets.{ActiveValue};
ghost use Rattle.mv_tried.specs.Segments.{lacking_set, segment_rule};
ghost use Rattle.mv_walk_segment.specs.Open.{IsFirst, IsOpen, Stands};
ghost use Rattle.mv_walk_segment.specs.OpenValue.{OpenValue};
ghost use Rattle.mv_walk_segment.specs.Serving.{IsSegment, context_by, sets_by};

/// The first segment of a picture is served by the sets that it names. A segment that what it names serves breaks the rule on what
/// lacks, and its header takes what the sets give (7.4.7.1; this project's profile).
pub fn a_first_segment_is_served_by_what_it_names()
    ensures sets { (past : List Fact) (q : Placed) → item_slice q.item ≡ true → item_picture q.item ≡ true → sets_of past q ≡ named_sets past q }
    ensures refused { (vps : WholeVps) (head : UnitHead) (id : ℕ) (past : List Fact) (q : Placed) (rule : Rule) → IsSegment vps head id q → sets_of past q ≡ named_sets past q →
        lacking_set (named_sets past q).pps (named_sets past q).sps (named_sets past q).format ≡ Some rule → segment_rule (fact past q) ≡ Some rule }
    ensures context { (vps : WholeVps) (active : ActiveValue) (head : UnitHead) (past : List Fact) (q : Placed) → sets_of past q ≡ sets_by active → whole q.item.at ≡ Some vps → q.item.head ≡ head →
        (fact past q).context ≡ Some (context_by vps active head) }
{}

/// The first segment of a picture is the latest one of the latest picture.
pub fn a_first_segment_opens_a_picture()
    ensures { (vps : WholeVps) (opened : OpenValue) (past : List Judged) (p : Fact) → IsFirst vps opened past p → IsOpen vps opened (judged past p ∷ past) (au p) }
{}

/// A unit that is no slice segment leaves the latest picture as it is.
pub fn other_units_leave_a_picture()
    ensures { (vps : WholeVps) (picture : Option OpenValue) (past : List Judged) (p : Fact) (current : ℕ) → is_slice p ≡ false → Stands vps picture past current → Stands vps picture (judged past p ∷ past) current }
{}

/// An access unit has no picture before its first unit.
pub fn an_access_unit_begins_without_a_picture()
    ensures { (vps : WholeVps) (past : List Judged) (current : ℕ) → All (λ (d : Judged). au d.fact < current) past → Stands vps None past current }
{}
