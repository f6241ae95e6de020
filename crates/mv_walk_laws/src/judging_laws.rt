//! Laws of what is said against the next unit of a stream. Each function has an empty body, and its contract is the law.
#![tactic(auto)]

ghost use Rattle.std.specs.Prelude.{◌≡◌, ◌++◌, ℕ, true, false, List, None, Option, Some, option_map};
ghost use Rattle.std.specs.Option.{option_or};
ghost use Rattle.mv_rules.specs.declared.rule.Rule.{Rule};
ghost use Rattle.mv_units.specs.Head.{head};
ghost use Rattle.mv_units.specs.Rules.{bad_head};
ghost use Rattle.mv_judging.specs.declared.stop.Objection.{Objection};
ghost use Rattle.mv_commuting.specs.OneMore.{fact_behind};
ghost use Rattle.mv_pictures.specs.Facts.{Fact};
ghost use Rattle.mv_pictures.specs.History.{history_of, judged};
ghost use Rattle.mv_pictures.specs.Items.{Item, is_known, is_picture, is_slice, is_vps, opening_of};
ghost use Rattle.mv_pictures.specs.Judged.{Judged};
ghost use Rattle.mv_pictures.specs.Kinds.{is_pps_kind, is_slice_kind, is_sps_kind};
ghost use Rattle.mv_pictures.specs.Look.{asked, look};
ghost use Rattle.mv_pictures.specs.Rules.{item_cases, least_rule, output_cases, picture_cases, set_cases, slice_cases};
ghost use Rattle.mv_pictures.specs.Verdict.{lacking, lacks};
ghost use Rattle.mv_tried.specs.Finer.{facts_in, placed_in};
ghost use Rattle.mv_tried.specs.Segments.{segment_rule};
ghost use Rattle.mv_tried.specs.Tried.{first_of, mid_cases};
ghost use Rattle.mv_au.specs.Tracker.{broken};
ghost use Rattle.mv_walk_laws.specs.Rest.{later_rule, picture_rule};
ghost use Rattle.mv_walk_laws.specs.Streams.{broken_behind, item_behind, objected, placed_behind, placed_units};

/// The next unit is objected to by the least rule that it breaks, or else for an output layer set that its video parameter set
/// lacks.
pub fn the_next_unit_is_objected_to()
    ensures is { (o : ℕ) (us : List (List ℕ)) (u : List ℕ) → objected o us u ≡ option_or (option_map Objection.Breaks (broken_behind us u)) (lacking o (item_behind us u)) }
    ensures broken { (o : ℕ) (us : List (List ℕ)) (u : List ℕ) (rule : Rule) → broken_behind us u ≡ Some rule → objected o us u ≡ Some (Objection.Breaks rule) }
    ensures unbroken { (o : ℕ) (us : List (List ℕ)) (u : List ℕ) → broken_behind us u ≡ None → objected o us u ≡ lacking o (item_behind us u) }
    ensures breaks_none { (o : ℕ) (us : List (List ℕ)) (u : List ℕ) → objected o us u ≡ None → broken_behind us u ≡ None }
    ensures has_set { (o : ℕ) (us : List (List ℕ)) (u : List ℕ) → objected o us u ≡ None → lacks o (item_behind us u) ≡ false }
    ensures only_video_sets_lack { (o : ℕ) (i : Item) → is_vps i ≡ false → lacking o i ≡ None }
    ensures other { (o : ℕ) (us : List (List ℕ)) (u : List ℕ) → is_vps (item_behind us u) ≡ false → broken_behind us u ≡ None → objected o us u ≡ None }
{}

/// The least rule that a unit breaks is that of its parts in turn: the rules on the unit alone, on its parameter set, on a slice
/// segment, on its picture, on output and on a changed video parameter set; a unit that is no slice segment breaks only those of
/// the first two.
pub fn rules_are_tried_in_parts()
    ensures whole { (past : List Judged) (d : Judged) →
        least_rule past d
        ≡ option_or (option_or (option_or (option_or (option_or (first_of (item_cases d.fact.placed.item)) (first_of (set_cases d.fact))) (first_of (slice_cases (facts_in past) d.fact)))
        (first_of (picture_cases (look (asked past d.fact) d.fact) d.fact))) (first_of (output_cases past d))) (first_of (mid_cases (placed_in past) (look (asked past d.fact) d.fact) d.fact)) }
    ensures other { (past : List Judged) (p : Fact) → is_slice p.placed.item ≡ false →
        least_rule past (judged past p) ≡ option_or (first_of (item_cases p.placed.item)) (first_of (set_cases p)) }
{}

/// The rules on a unit alone come first, whatever the unit is, and that on its head before all others.
pub fn the_rules_on_a_unit_alone_come_first()
    ensures item { (us : List (List ℕ)) (u : List ℕ) (r : Rule) → first_of (item_cases (item_behind us u)) ≡ Some r → broken_behind us u ≡ Some r }
    ensures head { (us : List (List ℕ)) (u : List ℕ) → bad_head u ≡ true → broken_behind us u ≡ Some Rule.Head }
{}

/// The least rule that the next unit breaks, by what it is (this project's profile): of strays, video parameter sets and units that
/// are read no further than their heads by the unit alone, of the other parameter sets by what they carry too, and of slice
/// segments by their sets and their header, by their access unit, and by what is left then.
pub fn the_least_rule_goes_by_kind()
    ensures stray { (us : List (List ℕ)) (u : List ℕ) → is_vps (item_behind us u) ≡ false → is_known (item_behind us u) ≡ false →
        broken_behind us u ≡ first_of (item_cases (item_behind us u)) }
    ensures passed { (us : List (List ℕ)) (u : List ℕ) → is_vps (item_behind us u) ≡ false → is_slice_kind (item_behind us u).head.kind ≡ false →
        is_sps_kind (item_behind us u).head.kind ≡ false → is_pps_kind (item_behind us u).head.kind ≡ false → broken_behind us u ≡ first_of (item_cases (item_behind us u)) }
    ensures video_set { (us : List (List ℕ)) (u : List ℕ) → is_vps (item_behind us u) ≡ true → broken_behind us u ≡ first_of (item_cases (item_behind us u)) }
    ensures sequence_set { (us : List (List ℕ)) (u : List ℕ) → is_sps_kind (item_behind us u).head.kind ≡ true →
        broken_behind us u ≡ first_of (item_cases (item_behind us u) ++ set_cases (fact_behind us u)) }
    ensures picture_set { (us : List (List ℕ)) (u : List ℕ) → is_pps_kind (item_behind us u).head.kind ≡ true →
        broken_behind us u ≡ option_or (first_of (item_cases (item_behind us u))) (first_of (set_cases (fact_behind us u))) }
    ensures first { (us : List (List ℕ)) (u : List ℕ) → is_picture (item_behind us u) ≡ true →
        broken_behind us u
        ≡ option_or (option_or (option_or (first_of (item_cases (item_behind us u))) (segment_rule (fact_behind us u))) (broken (placed_units us) (placed_behind us u)))
        (picture_rule (history_of us) (fact_behind us u)) }
    ensures later { (us : List (List ℕ)) (u : List ℕ) → is_slice (item_behind us u) ≡ true → is_picture (item_behind us u) ≡ false →
        broken_behind us u
        ≡ option_or (option_or (option_or (first_of (item_cases (item_behind us u))) (segment_rule (fact_behind us u))) (broken (placed_units us) (placed_behind us u)))
        (later_rule (history_of us) (fact_behind us u)) }
{}

/// What is said against the first segment of a picture that breaks no rule on the unit alone, step by step as its rules are tried.
pub fn first_segments_are_judged_in_turn()
    ensures segment { (o : ℕ) (us : List (List ℕ)) (u : List ℕ) (r : Rule) → is_picture (item_behind us u) ≡ true → first_of (item_cases (item_behind us u)) ≡ None →
        segment_rule (fact_behind us u) ≡ Some r → objected o us u ≡ Some (Objection.Breaks r) }
    ensures access_unit { (o : ℕ) (us : List (List ℕ)) (u : List ℕ) (r : Rule) → is_picture (item_behind us u) ≡ true → first_of (item_cases (item_behind us u)) ≡ None →
        segment_rule (fact_behind us u) ≡ None → broken (placed_units us) (placed_behind us u) ≡ Some r → objected o us u ≡ Some (Objection.Breaks r) }
    ensures picture { (o : ℕ) (us : List (List ℕ)) (u : List ℕ) (r : Rule) → is_picture (item_behind us u) ≡ true → first_of (item_cases (item_behind us u)) ≡ None →
        segment_rule (fact_behind us u) ≡ None → broken (placed_units us) (placed_behind us u) ≡ None → picture_rule (history_of us) (fact_behind us u) ≡ Some r →
        objected o us u ≡ Some (Objection.Breaks r) }
    ensures accepted { (o : ℕ) (us : List (List ℕ)) (u : List ℕ) → is_picture (item_behind us u) ≡ true → first_of (item_cases (item_behind us u)) ≡ None →
        segment_rule (fact_behind us u) ≡ None → broken (placed_units us) (placed_behind us u) ≡ None → picture_rule (history_of us) (fact_behind us u) ≡ None →
        objected o us u ≡ None }
    ensures rest { (us : List (List ℕ)) (u : List ℕ) → is_picture (item_behind us u) ≡ true → first_of (item_cases (item_behind us u)) ≡ None →
        segment_rule (fact_behind us u) ≡ None → broken (placed_units us) (placed_behind us u) ≡ None → broken_behind us u ≡ picture_rule (history_of us) (fact_behind us u) }
{}

/// The same of a segment that isn't the first one of its picture.
pub fn later_segments_are_judged_in_turn()
    ensures segment { (o : ℕ) (us : List (List ℕ)) (u : List ℕ) (r : Rule) → is_slice (item_behind us u) ≡ true → is_picture (item_behind us u) ≡ false →
        first_of (item_cases (item_behind us u)) ≡ None → segment_rule (fact_behind us u) ≡ Some r → objected o us u ≡ Some (Objection.Breaks r) }
    ensures access_unit { (o : ℕ) (us : List (List ℕ)) (u : List ℕ) (r : Rule) → is_slice (item_behind us u) ≡ true → is_picture (item_behind us u) ≡ false →
        first_of (item_cases (item_behind us u)) ≡ None → segment_rule (fact_behind us u) ≡ None → broken (placed_units us) (placed_behind us u) ≡ Some r →
        objected o us u ≡ Some (Objection.Breaks r) }
    ensures picture { (o : ℕ) (us : List (List ℕ)) (u : List ℕ) (r : Rule) → is_slice (item_behind us u) ≡ true → is_picture (item_behind us u) ≡ false →
        first_of (item_cases (item_behind us u)) ≡ None → segment_rule (fact_behind us u) ≡ None → broken (placed_units us) (placed_behind us u) ≡ None →
        later_rule (history_of us) (fact_behind us u) ≡ Some r → objected o us u ≡ Some (Objection.Breaks r) }
    ensures accepted { (o : ℕ) (us : List (List ℕ)) (u : List ℕ) → is_slice (item_behind us u) ≡ true → is_picture (item_behind us u) ≡ false →
        first_of (item_cases (item_behind us u)) ≡ None → segment_rule (fact_behind us u) ≡ None → broken (placed_units us) (placed_behind us u) ≡ None →
        later_rule (history_of us) (fact_behind us u) ≡ None → objected o us u ≡ None }
{}

/// A slice segment whose first fields don't read breaks the syntax rule, where it breaks none on the unit alone (7.3.6.1).
pub fn segments_need_their_first_fields()
    ensures { (o : ℕ) (us : List (List ℕ)) (u : List ℕ) → is_slice (item_behind us u) ≡ true → first_of (item_cases (item_behind us u)) ≡ None → opening_of (head u) u ≡ None →
        objected o us u ≡ Some (Objection.Breaks Rule.SliceSyntax) }
{}

/// The same of parameter sets, and of units that are read no further than their heads.
pub fn other_units_are_judged_in_turn()
    ensures video_refused { (o : ℕ) (us : List (List ℕ)) (u : List ℕ) (r : Rule) → is_vps (item_behind us u) ≡ true → first_of (item_cases (item_behind us u)) ≡ Some r →
        objected o us u ≡ Some (Objection.Breaks r) }
    ensures video_lacking { (o : ℕ) (us : List (List ℕ)) (u : List ℕ) → is_vps (item_behind us u) ≡ true → first_of (item_cases (item_behind us u)) ≡ None →
        objected o us u ≡ lacking o (item_behind us u) }
    ensures sequence_refused { (o : ℕ) (us : List (List ℕ)) (u : List ℕ) (r : Rule) → is_sps_kind (item_behind us u).head.kind ≡ true →
        first_of (item_cases (item_behind us u) ++ set_cases (fact_behind us u)) ≡ Some r → objected o us u ≡ Some (Objection.Breaks r) }
    ensures sequence_accepted { (o : ℕ) (us : List (List ℕ)) (u : List ℕ) → is_sps_kind (item_behind us u).head.kind ≡ true →
        first_of (item_cases (item_behind us u) ++ set_cases (fact_behind us u)) ≡ None → objected o us u ≡ None }
    ensures picture_refused { (o : ℕ) (us : List (List ℕ)) (u : List ℕ) (r : Rule) → is_pps_kind (item_behind us u).head.kind ≡ true →
        first_of (item_cases (item_behind us u)) ≡ None → first_of (set_cases (fact_behind us u)) ≡ Some r → objected o us u ≡ Some (Objection.Breaks r) }
    ensures picture_accepted { (o : ℕ) (us : List (List ℕ)) (u : List ℕ) → is_pps_kind (item_behind us u).head.kind ≡ true →
        first_of (item_cases (item_behind us u)) ≡ None → first_of (set_cases (fact_behind us u)) ≡ None → objected o us u ≡ None }
    ensures stray { (o : ℕ) (us : List (List ℕ)) (u : List ℕ) → is_vps (item_behind us u) ≡ false → is_known (item_behind us u) ≡ false →
        first_of (item_cases (item_behind us u)) ≡ None → objected o us u ≡ None }
    ensures passed { (o : ℕ) (us : List (List ℕ)) (u : List ℕ) → is_vps (item_behind us u) ≡ false → is_slice_kind (item_behind us u).head.kind ≡ false →
        is_sps_kind (item_behind us u).head.kind ≡ false → is_pps_kind (item_behind us u).head.kind ≡ false → first_of (item_cases (item_behind us u)) ≡ None → objected o us u ≡ None }
{}
