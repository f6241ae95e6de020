//! Only the rules that can hold of a unit are tried on it. Each function has an empty body, and its contract is the law.
#![tactic(auto)]

ghost use Rattle.std.specs.Prelude.{◌≡◌, ◌∷◌, ◌++◌, ◌&&◌, ◌||◌, [], ℕ, true, false, All, List, None, Some, is_none, map, nat_lt, option_map, if◌then◌else◌};
ghost use Rattle.std.specs.Option.{option_or};
ghost use Rattle.mv_history.specs.History.{Throughout};
ghost use Rattle.mv_syntax.specs.Words.{◌otherwise◌};
ghost use Rattle.mv_rules.specs.declared.rule.Rule.{Rule};
ghost use Rattle.mv_units.specs.Escapes.{payload};
ghost use Rattle.mv_units.specs.Units.{NalUnit};
ghost use Rattle.mv_judging.specs.declared.stop.Objection.{Objection};
ghost use Rattle.mv_commuting.specs.Kept.{IsEarlierPicture, IsOtherPicture};
ghost use Rattle.mv_commuting.specs.OneMore.{fact_behind};
ghost use Rattle.mv_pictures.specs.AccessUnits.{Placed};
ghost use Rattle.mv_pictures.specs.Facts.{Fact, fact};
ghost use Rattle.mv_pictures.specs.History.{history_of, judged};
ghost use Rattle.mv_pictures.specs.Items.{Item, is_known, is_picture as item_picture, is_slice as item_slice, is_vps};
ghost use Rattle.mv_pictures.specs.Judged.{Judged, is_picture, is_slice, vps_at};
ghost use Rattle.mv_pictures.specs.Kinds.{is_pps_kind, is_slice_kind, is_sps_kind};
ghost use Rattle.mv_pictures.specs.Layers.{whole};
ghost use Rattle.mv_pictures.specs.Lists.{picture_before};
ghost use Rattle.mv_pictures.specs.Look.{Look, look};
ghost use Rattle.mv_pictures.specs.PictureRules.{format_differs, irap_refers, is_of_decoded, missing_inter_layer, missing_ref, no_irap, poc_mismatch, poc_range, sps_changed, too_many_refs};
ghost use Rattle.mv_pictures.specs.Rules.{Case, case, least_rule, output_cases};
ghost use Rattle.mv_pictures.specs.SliceFields.{is_full};
ghost use Rattle.mv_pictures.specs.Starts.{is_decoded};
ghost use Rattle.mv_pictures.specs.UnitRules.{names_other_vps, no_vps, sps_tid, vps_tid};
ghost use Rattle.mv_pictures.specs.Verdict.{breaks_none, bytes_of, lacking, objection, pictures};
ghost use Rattle.mv_tried.specs.Decoded.{decoded_cases, decoded_list_cases, has_other_sps, has_too_many_refs, is_mismatched, is_out_of_range, is_referring_irap, lacks_inter_layer, lacks_ref, refers_to_other_format};
ghost use Rattle.mv_tried.specs.Finer.{access_unit_cases, agreement_cases, before_lists, before_pictures, placed_in};
ghost use Rattle.mv_tried.specs.Segments.{segment_rule};
ghost use Rattle.mv_tried.specs.Tried.{first, first_cases, first_of, later, later_cases, mid_cases, passed, picture_set, role_of, segment_cases, sequence_set, stray, tried, video_set};

/// The least rule that a unit breaks is the first that holds of those that are tried on its kind of unit (this project's profile).
pub fn only_these_are_tried()
    ensures { (past : List Judged) (before : List Fact) (q : Placed) →
        least_rule past (judged past (fact before q)) ≡ first_of (tried past (judged past (fact before q))) }
{}

/// What a unit is to the rules, by what a program tests of it.
pub fn what_a_unit_is()
    ensures video_set { (i : Item) → is_vps i ≡ true → role_of i ≡ video_set }
    ensures stray { (i : Item) → is_vps i ≡ false → is_known i ≡ false → role_of i ≡ stray }
    ensures first { (i : Item) → item_picture i ≡ true → role_of i ≡ first }
    ensures later { (i : Item) → item_slice i ≡ true → item_picture i ≡ false → role_of i ≡ later }
    ensures sequence_set { (i : Item) → is_known i ≡ true → is_sps_kind i.head.kind ≡ true → role_of i ≡ sequence_set }
    ensures picture_set { (i : Item) → is_known i ≡ true → is_pps_kind i.head.kind ≡ true → role_of i ≡ picture_set }
    ensures passed { (i : Item) → is_vps i ≡ false → is_known i ≡ true → is_slice_kind i.head.kind ≡ false → is_sps_kind i.head.kind ≡ false → is_pps_kind i.head.kind ≡ false →
        role_of i ≡ passed }
{}

/// The rule of the first case that holds, case by case and list by list.
pub fn cases_are_tried_in_order()
    ensures none { first_of [] ≡ None }
    ensures next { (c : Case) (cs : List Case) → first_of (c ∷ cs) ≡ (if c.holds then Some c.rule else first_of cs) }
    ensures joined { (cs ds : List Case) → first_of (cs ++ ds) ≡ option_or (first_of cs) (first_of ds) }
{}

/// What is left of the rules on video parameter sets in force and on TemporalId, by what a unit is (this project's profile).
pub fn rules_on_heads_go_by_kind()
    ensures segment { (i : Item) → item_slice i ≡ true → no_vps i ≡ is_none i.at }
    ensures picture_set { (i : Item) → is_known i ≡ true → is_pps_kind i.head.kind ≡ true → no_vps i ≡ is_none i.at }
    ensures sequence_set { (i : Item) → is_known i ≡ true → is_sps_kind i.head.kind ≡ true →
        no_vps i ≡ (is_none i.at || (option_map (names_other_vps (payload i.bytes)) (whole i.at) otherwise false)) }
    ensures other { (i : Item) → is_slice_kind i.head.kind ≡ false → is_sps_kind i.head.kind ≡ false → is_pps_kind i.head.kind ≡ false →
        no_vps i ≡ (is_none i.at && nat_lt 0 i.head.layer) }
    ensures video_set_tid { (i : Item) → is_vps i ≡ true → vps_tid i ≡ nat_lt 0 i.head.tid }
    ensures sequence_set_tid { (i : Item) → is_known i ≡ true → is_sps_kind i.head.kind ≡ true → sps_tid i ≡ nat_lt 0 i.head.tid }
{}

/// The rules on access units may be tried together: on a first segment, on a later one before it is compared with the first
/// segment of its picture, and on units that are no slice segments, which break none of them (F.7.4.2.4.4).
pub fn rules_on_access_units_are_tried_together()
    ensures first { (earlier : List Placed) (p : Fact) → is_picture p ≡ true → first_of (first_cases earlier p) ≡ first_of (access_unit_cases earlier p.placed) }
    ensures later { (past : List Fact) (p : Fact) → is_picture p ≡ false →
        first_of (later_cases past p) ≡ option_or (first_of (access_unit_cases (map (λ (f : Fact). f.placed) past) p.placed)) (first_of (agreement_cases past p)) }
    ensures other { (earlier : List Placed) (q : Placed) → item_slice q.item ≡ false → first_of (access_unit_cases earlier q) ≡ None }
{}

/// What a slice segment breaks by its sets and its header is one answer, by what there is of them (7.4.7.1).
pub fn a_segment_breaks_by_its_sets()
    ensures { (before : List Fact) (q : Placed) → item_slice q.item ≡ true → first_of (segment_cases (fact before q)) ≡ segment_rule (fact before q) }
{}

/// On a first segment of a decoded picture each rule on pictures is tried by what is left of its condition; of a skipped one
/// only the rules on the first picture of a sequence and on a changed video parameter set are left (8.1.3, F.8.1.3).
pub fn pictures_are_tried_where_they_are_decoded()
    ensures decoded { (past : List Judged) (before : List Fact) (q : Placed) → is_picture (fact before q) ≡ true → is_decoded (look past (fact before q)) (fact before q) ≡ true →
        least_rule past (judged past (fact before q))
        ≡ first_of (((before_pictures past (fact before q) ++ decoded_cases (look past (fact before q)) (fact before q)) ++ output_cases past (judged past (fact before q)))
        ++ mid_cases (placed_in past) (look past (fact before q)) (fact before q)) }
    ensures skipped { (past : List Judged) (before : List Fact) (q : Placed) → is_picture (fact before q) ≡ true → is_decoded (look past (fact before q)) (fact before q) ≡ false →
        least_rule past (judged past (fact before q))
        ≡ first_of ((before_pictures past (fact before q) ++ (case Rule.NoIrap (no_irap (look past (fact before q)) (fact before q)) ∷ []))
        ++ mid_cases (placed_in past) (look past (fact before q)) (fact before q)) }
    ensures sps_changed { (l : Look) (p : Fact) → is_decoded l p ≡ true → sps_changed l p ≡ has_other_sps l p }
    ensures format_differs { (l : Look) (p : Fact) → is_decoded l p ≡ true → format_differs l p ≡ refers_to_other_format l p }
    ensures poc_range { (l : Look) (p : Fact) → is_decoded l p ≡ true → poc_range l p ≡ is_out_of_range l p }
    ensures poc_mismatch { (l : Look) (p : Fact) → is_decoded l p ≡ true → poc_mismatch l p ≡ is_mismatched l p }
    ensures irap_refers { (l : Look) (p : Fact) → is_decoded l p ≡ true → irap_refers l p ≡ is_referring_irap p }
    ensures too_many_refs { (l : Look) (p : Fact) → is_decoded l p ≡ true → too_many_refs l p ≡ has_too_many_refs p }
    ensures missing_ref { (l : Look) (p : Fact) → is_decoded l p ≡ true → missing_ref l p ≡ lacks_ref l p }
    ensures missing_inter_layer { (l : Look) (p : Fact) → is_decoded l p ≡ true → missing_inter_layer l p ≡ lacks_inter_layer l p }
    ensures its_segment { (l : Look) (p : Fact) → is_picture p ≡ true → is_decoded l p ≡ true → is_of_decoded l p ≡ is_full p }
{}

/// On a later segment the rules on lists are tried where its picture is decoded, and else none of them.
pub fn lists_are_tried_where_pictures_are_decoded()
    ensures decoded { (past : List Judged) (before : List Fact) (q : Placed) → is_slice (fact before q) ≡ true → is_picture (fact before q) ≡ false →
        (option_map (λ (d : Judged). d.decoded) (picture_before (look past (fact before q)) (fact before q)) otherwise false) ≡ true →
        least_rule past (judged past (fact before q)) ≡ first_of (before_lists past (fact before q) ++ decoded_list_cases (fact before q)) }
    ensures skipped { (past : List Judged) (before : List Fact) (q : Placed) → is_slice (fact before q) ≡ true → is_picture (fact before q) ≡ false →
        (option_map (λ (d : Judged). d.decoded) (picture_before (look past (fact before q)) (fact before q)) otherwise false) ≡ false →
        least_rule past (judged past (fact before q)) ≡ first_of (before_lists past (fact before q)) }
    ensures its_segment { (l : Look) (p : Fact) → is_picture p ≡ false → (option_map (λ (d : Judged). d.decoded) (picture_before l p) otherwise false) ≡ true →
        is_of_decoded l p ≡ is_full p }
{}

/// What is said against the next unit of a stream: the first rule that holds of those that are tried on it, or else that its
/// video parameter set has no set o.
pub fn the_next_unit_is_judged()
    ensures unit { (o : ℕ) (us : List (List ℕ)) (u : List ℕ) →
        objection o (history_of (us ++ u ∷ []))
        ≡ option_or (option_map Objection.Breaks (first_of (tried (history_of us) (judged (history_of us) (fact_behind us u))))) (lacking o (fact_behind us u).placed.item) }
    ensures by_the_judge { (o : ℕ) (us : List NalUnit) (u : NalUnit) →
        (pictures o).late us u
        ≡ option_or (option_map Objection.Breaks (first_of (tried (history_of (bytes_of us)) (judged (history_of (bytes_of us)) (fact_behind (bytes_of us) u.bytes)))))
        (lacking o (fact_behind (bytes_of us) u.bytes).placed.item) }
{}

/// No unit of a stream breaks a rule: the same of each unit; so it is where nothing was said against any; with the next unit
/// where nothing is said against it.
pub fn no_unit_breaks_a_rule()
    ensures each { (ds : List Judged) → breaks_none ds ≡ true → Throughout (λ past d. least_rule past d ≡ None) ds }
    ensures all { (ds : List Judged) → Throughout (λ past d. least_rule past d ≡ None) ds → breaks_none ds ≡ true }
    ensures unobjected { (o : ℕ) (ds : List Judged) → Throughout (λ past d. objection o (d ∷ past) ≡ None) ds → breaks_none ds ≡ true }
    ensures first { breaks_none (history_of []) ≡ true }
    ensures more { (o : ℕ) (us : List (List ℕ)) (u : List ℕ) → breaks_none (history_of us) ≡ true → objection o (history_of (us ++ u ∷ [])) ≡ None →
        breaks_none (history_of (us ++ u ∷ [])) ≡ true }
    ensures more_by_the_judge { (o : ℕ) (us : List NalUnit) (u : NalUnit) → breaks_none (history_of (bytes_of us)) ≡ true → (pictures o).late us u ≡ None →
        breaks_none (history_of (bytes_of (us ++ u ∷ []))) ≡ true }
    ensures less { (us : List (List ℕ)) (u : List ℕ) → breaks_none (history_of (us ++ u ∷ [])) ≡ true → breaks_none (history_of us) ≡ true }
{}

/// While no unit breaks a rule, a picture's layer and access unit name one picture, the access units of the pictures of a layer
/// rise, and a sequence has one video parameter set, whether a base picture was decoded or not (F.7.4.2.4.4).
pub fn streams_obey_while_no_unit_breaks_a_rule()
    ensures names { (us : List (List ℕ)) → breaks_none (history_of us) ≡ true →
        Throughout (λ past d. is_picture d.fact ≡ true → All (IsOtherPicture d) past) (history_of us) }
    ensures pictures_rise { (us : List (List ℕ)) → breaks_none (history_of us) ≡ true →
        Throughout (λ past d. is_picture d.fact ≡ true → All (IsEarlierPicture d) past) (history_of us) }
    ensures one_video_parameter_set { (us : List (List ℕ)) → breaks_none (history_of us) ≡ true →
        All (λ (d : Judged). is_slice d.fact ≡ true → d.seq_vps ≡ vps_at d.fact) (history_of us) }
{}
