//! Laws of histories of judgements, for programs that go from unit to unit. Each function has an empty body, and its contract
//! is the law.
#![tactic(auto)]

ghost use Rattle.std.specs.Prelude.{◌≡◌, ◌∷◌, ◌++◌, ◌+◌, ◌<◌, ◌≤◌, ◌&&◌, ◌||◌, [], ℕ, true, List, All, Some, filter, is_some, map, if◌then◌else◌};
ghost use Rattle.std.specs.List.{find, list_all};
ghost use Rattle.std.specs.List.Sorted.{IsStrictlyIncreasing};
ghost use Rattle.mv_layers.specs.Derived.{IsOrderly};
ghost use Rattle.mv_layers.specs.OutputLayers.{is_among};
ghost use Rattle.mv_commuting.specs.InOrder.{described_at};
ghost use Rattle.mv_slice.specs.Numbers.{is_irap};
ghost use Rattle.mv_history.specs.History.{Throughout};
ghost use Rattle.mv_commuting.specs.Kept.{IsEarlierPicture, IsOtherPicture};
ghost use Rattle.mv_commuting.specs.OneMore.{fact_behind, initialised_with, own_with};
ghost use Rattle.mv_pictures.specs.AccessUnits.{Placed, all_placed, begins as begins_unit, has_slices, is_trigger, number};
ghost use Rattle.mv_pictures.specs.Counts.{may_anchor};
ghost use Rattle.mv_pictures.specs.Facts.{Fact};
ghost use Rattle.mv_pictures.specs.Items.{Item, is_slice as item_slice};
ghost use Rattle.mv_pictures.specs.Held.{held_behind};
ghost use Rattle.mv_pictures.specs.History.{history_of, judged};
ghost use Rattle.mv_pictures.specs.Judged.{Judged, au, begins, is_end, is_picture, is_slice, kind, layer, of_layer, vps_at};
ghost use Rattle.mv_pictures.specs.Layers.{closure, directs};
ghost use Rattle.mv_pictures.specs.Output.{outputs};
ghost use Rattle.mv_pictures.specs.Look.{in_sequence, initialised, look};
ghost use Rattle.mv_pictures.specs.SliceFields.{active_layers};
ghost use Rattle.mv_pictures.specs.Verdict.{is_accepted};

/// What one unit more changes: each field of what is asked of the past, by what the unit is, and whether a layer is
/// initialised and which of its units are in the sequence (8.1.3, F.8.1.3).
pub fn one_unit_more()
    ensures history { (us : List (List ℕ)) (u : List ℕ) → history_of (us ++ u ∷ []) ≡ judged (history_of us) (fact_behind us u) ∷ history_of us }
    ensures border { (d : Judged) (past : List Judged) (p : Fact) →
        (look (d ∷ past) p).border ≡ (if of_layer 0 d && (is_picture d.fact || is_end d.fact) then Some d else (look past p).border) }
    ensures base { (d : Judged) (past : List Judged) (p : Fact) → (look (d ∷ past) p).base ≡ (if of_layer 0 d && is_picture d.fact then Some d else (look past p).base) }
    ensures root { (d : Judged) (past : List Judged) (p : Fact) → (look (d ∷ past) p).root ≡ (if begins d then Some d else (look past p).root) }
    ensures seqs { (d : Judged) (past : List Judged) (p : Fact) → (look (d ∷ past) p).seqs ≡ (if begins d then (look past p).seqs + 1 else (look past p).seqs) }
    ensures own { (d : Judged) (past : List Judged) (n : ℕ) → in_sequence (d ∷ past) n ≡ own_with d past n }
    ensures here { (d : Judged) (past : List Judged) (n : ℕ) → initialised (d ∷ past) n ≡ initialised_with d past n }
    ensures ready { (d : Judged) (past : List Judged) (p : Fact) → (look (d ∷ past) p).ready ≡ list_all (initialised_with d past) (directs (vps_at p) (layer p)) }
    ensures across { (d : Judged) (past : List Judged) (p : Fact) → (look (d ∷ past) p).across ≡ map (own_with d past) (active_layers p) }
{}

/// What one unit more changes of access units: whether slice segments stand behind the latest unit that may begin one, and the
/// number of the next unit's, which is that of the unit before it, or one more where it begins one (7.4.2.4.4, F.7.4.2.4.4).
pub fn one_unit_more_of_access_units()
    ensures has_slices { (q : Placed) (past : List Placed) →
        has_slices (q ∷ past) ≡ (if item_slice q.item || is_trigger q.item then item_slice q.item else has_slices past) }
    ensures first { (i : Item) → number [] i ≡ 0 }
    ensures number { (past : List Item) (i j : Item) →
        number (all_placed (i ∷ past)) j ≡ number (all_placed past) i + (if begins_unit (all_placed (i ∷ past)) j then 1 else 0) }
{}

/// At each unit of any stream the lists of layers that the video parameter set in force describes rise, and direct reference
/// layers are lower ones; the layers of output layer sets are as they have to be (F.7.4.3.1.1).
pub fn layers_are_in_order()
    ensures described { (us : List (List ℕ)) → All (λ (d : Judged). IsOrderly (described_at (vps_at d.fact))) (history_of us) }
    ensures directs_rise { (us : List (List ℕ)) → All (λ (d : Judged). (n : ℕ) → IsStrictlyIncreasing (directs (vps_at d.fact) n)) (history_of us) }
    ensures directs_below { (us : List (List ℕ)) → All (λ (d : Judged). (n direct : ℕ) → is_among (directs (vps_at d.fact) n) direct ≡ true → direct < n) (history_of us) }
    ensures closures_rise { (us : List (List ℕ)) → All (λ (d : Judged). (n : ℕ) → IsStrictlyIncreasing (closure (vps_at d.fact) n)) (history_of us) }
    ensures outputs_rise { (us : List (List ℕ)) → All (λ (d : Judged). (o : ℕ) → IsStrictlyIncreasing (outputs (vps_at d.fact) o)) (history_of us) }
{}

/// Nothing is lost where only the units of a sequence are looked at (8.3.1, 8.3.2): where a layer is initialised, what is held
/// of its units in the sequence is what is held of all its units, and so are the latest IRAP picture or start, and the anchor.
pub fn the_sequence_holds_all()
    ensures held { (us : List (List ℕ)) (n : ℕ) → initialised (history_of us) n ≡ true →
        held_behind [] (in_sequence (history_of us) n) ≡ held_behind [] (filter (of_layer n) (history_of us)) }
    ensures led { (us : List (List ℕ)) (n : ℕ) → initialised (history_of us) n ≡ true →
        find (λ (d : Judged). is_picture d.fact && (is_irap (kind d.fact) || d.start)) (in_sequence (history_of us) n)
        ≡ find (λ (d : Judged). is_picture d.fact && (is_irap (kind d.fact) || d.start)) (filter (of_layer n) (history_of us)) }
    ensures anchor { (us : List (List ℕ)) (n : ℕ) → is_accepted us ≡ true → initialised (history_of us) n ≡ true →
        find (λ (d : Judged). is_some d.count && (d.start || may_anchor d.fact)) (in_sequence (history_of us) n)
        ≡ find (λ (d : Judged). is_some d.count && (d.start || may_anchor d.fact)) (filter (of_layer n) (history_of us)) }
{}

/// In an accepted stream a picture's layer and access unit name one picture (F.7.4.2.4.4).
pub fn a_name_is_of_one_picture()
    ensures { (us : List (List ℕ)) → is_accepted us ≡ true →
        Throughout (λ past d. is_picture d.fact ≡ true → All (IsOtherPicture d) past) (history_of us) }
{}

/// The numbers of access units don't fall, and in an accepted stream those of the pictures of a layer rise (F.7.4.2.4.4).
pub fn access_units_rise()
    ensures numbers { (us : List (List ℕ)) → Throughout (λ past d. All (λ (e : Judged). au e.fact ≤ au d.fact) past) (history_of us) }
    ensures pictures { (us : List (List ℕ)) → is_accepted us ≡ true →
        Throughout (λ past d. is_picture d.fact ≡ true → All (IsEarlierPicture d) past) (history_of us) }
{}

/// In an accepted stream the video parameter set in force at the base picture that starts a sequence is in force at each of
/// its slice segments.
pub fn a_sequence_has_one_video_parameter_set()
    ensures { (us : List (List ℕ)) → is_accepted us ≡ true → All (λ (d : Judged). is_slice d.fact ≡ true → d.seq_vps ≡ vps_at d.fact) (history_of us) }
{}
