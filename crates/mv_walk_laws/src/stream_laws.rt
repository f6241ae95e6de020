//! Laws of a stream with one unit more. Each function has an empty body, and its contract is the law.
#![tactic(auto)]

ghost use Rattle.std.specs.Prelude.{◌≡◌, ◌∷◌, ◌++◌, ◌+◌, ◌≤◌, [], ℕ, Bool, true, false, All, List, None, Ok, Option, Some, length, nat_eq, option_map, reverse, if◌then◌else◌};
ghost use Rattle.std.specs.List.{filter_map};
ghost use Rattle.mv_history.specs.History.{since};
ghost use Rattle.mv_syntax.specs.Payload.{ValidPayload};
ghost use Rattle.mv_syntax.specs.Words.{◌otherwise◌};
ghost use Rattle.mv_slice.specs.declared.opening.SliceOpening.{SliceOpening};
ghost use Rattle.mv_units.specs.Head.{head};
ghost use Rattle.mv_units.specs.declared.head.UnitHead.{UnitHead};
ghost use Rattle.mv_units.specs.Rules.{unit_rule};
ghost use Rattle.mv_commuting.specs.OneMore.{fact_behind};
ghost use Rattle.mv_pictures.specs.AccessUnits.{begins, has_changed_vps, number};
ghost use Rattle.mv_pps.specs.Pps.{PpsValue, pps};
ghost use Rattle.mv_sps.specs.Sps.{SpsValue, sps_payload};
ghost use Rattle.mv_pictures.specs.Carried.{Carried};
ghost use Rattle.mv_pictures.specs.Extract.{last_vps};
ghost use Rattle.mv_pictures.specs.Facts.{Fact, fact, pps_id, pps_of_unit, sps_of_unit, turned};
ghost use Rattle.mv_pictures.specs.History.{facts_of, history_of, judged};
ghost use Rattle.mv_pictures.specs.Items.{Item, is_first_segment, is_known, is_picture, is_slice, is_vps, items, opening_of, turns};
ghost use Rattle.mv_pictures.specs.Kinds.{is_pps_kind, is_sps_kind};
ghost use Rattle.mv_au.specs.Tracker.{IsTold};
ghost use Rattle.mv_tried.specs.Finer.{facts_in, placed_in};
ghost use Rattle.mv_walk_laws.specs.Parts.{CarriesNothing};
ghost use Rattle.mv_walk_laws.specs.Streams.{IsLatestChange, IsSound, current, item_behind, objected, placed_behind, placed_units};

/// The items, the units as they are placed in access units, the facts and the history of a stream with one unit more.
pub fn units_with_one_more()
    ensures items { (us : List (List ℕ)) (u : List ℕ) → items (reverse (us ++ u ∷ [])) ≡ item_behind us u ∷ items (reverse us) }
    ensures placed { (us : List (List ℕ)) (u : List ℕ) → placed_units (us ++ u ∷ []) ≡ placed_behind us u ∷ placed_units us }
    ensures facts { (us : List (List ℕ)) (u : List ℕ) → facts_of (us ++ u ∷ []) ≡ fact_behind us u ∷ facts_of us }
    ensures history { (us : List (List ℕ)) (u : List ℕ) → history_of (us ++ u ∷ []) ≡ judged (history_of us) (fact_behind us u) ∷ history_of us }
{}

/// A history tells the facts and the placed units of its stream, and so the fact of the next unit.
pub fn histories_tell_their_units()
    ensures facts { (us : List (List ℕ)) → facts_in (history_of us) ≡ facts_of us }
    ensures placed { (us : List (List ℕ)) → placed_in (history_of us) ≡ placed_units us }
    ensures next { (us : List (List ℕ)) (u : List ℕ) → fact_behind us u ≡ fact (facts_in (history_of us)) (placed_behind us u) }
    ensures its_place { (us : List (List ℕ)) (u : List ℕ) → (fact_behind us u).placed ≡ placed_behind us u }
    ensures its_item { (us : List (List ℕ)) (u : List ℕ) → (fact_behind us u).placed.item ≡ item_behind us u }
    ensures its_access_unit { (us : List (List ℕ)) (u : List ℕ) → (fact_behind us u).placed.au ≡ number (placed_units us) (item_behind us u) }
{}

/// The number of the latest access unit with one unit more (7.4.2.4.4, F.7.4.2.4.4).
pub fn the_latest_access_unit()
    ensures first { current [] ≡ 0 }
    ensures more { (us : List (List ℕ)) (u : List ℕ) → current (us ++ u ∷ []) ≡ number (placed_units us) (item_behind us u) }
    ensures number { (us : List (List ℕ)) (u : List ℕ) → number (placed_units us) (item_behind us u) ≡ current us + (if begins (placed_units us) (item_behind us u) then 1 else 0) }
    ensures rises { (us : List (List ℕ)) (u : List ℕ) → current us ≤ number (placed_units us) (item_behind us u) }
{}

/// The video parameter set in force with one unit more: that at the unit, which is the one before it where the unit is none.
pub fn the_video_parameter_set_in_force()
    ensures first { last_vps [] ≡ None }
    ensures before { (us : List (List ℕ)) (u : List ℕ) → (item_behind us u).before ≡ last_vps us }
    ensures more { (us : List (List ℕ)) (u : List ℕ) → last_vps (us ++ u ∷ []) ≡ (item_behind us u).at }
    ensures other { (us : List (List ℕ)) (u : List ℕ) → is_vps (item_behind us u) ≡ false → (item_behind us u).at ≡ last_vps us }
    ensures same { (us : List (List ℕ)) (u : List ℕ) → is_vps (item_behind us u) ≡ false → last_vps (us ++ u ∷ []) ≡ last_vps us }
    ensures repeated { (us : List (List ℕ)) (u : List ℕ) → (item_behind us u).at ≡ (item_behind us u).before → last_vps (us ++ u ∷ []) ≡ last_vps us }
{}

/// The number of the latest access unit that has a changed video parameter set, with one unit more, and what it tells of the next.
pub fn the_latest_change()
    ensures first { IsLatestChange None [] }
    ensures other { (changed : Option ℕ) (us : List (List ℕ)) (u : List ℕ) → turns (item_behind us u) ≡ false →
        IsLatestChange changed us → IsLatestChange changed (us ++ u ∷ []) }
    ensures only_video_sets { (i : Item) → is_vps i ≡ false → turns i ≡ false }
    ensures changed { (us : List (List ℕ)) (u : List ℕ) → turns (item_behind us u) ≡ true →
        IsLatestChange (Some (number (placed_units us) (item_behind us u))) (us ++ u ∷ []) }
    ensures next { (changed : Option ℕ) (us : List (List ℕ)) (u : List ℕ) → IsLatestChange changed us →
        has_changed_vps (placed_units us) (placed_behind us u) ≡ (option_map (nat_eq (number (placed_units us) (item_behind us u))) changed otherwise false) }
{}

/// What the next unit carries, by what it is: a sequence parameter set carries no picture parameter set, and every other unit that
/// isn't a changed video parameter set changes no set in reach (7.4.1.4.1, F.7.4.1.4.1).
pub fn what_the_next_unit_carries()
    ensures turned { (us : List (List ℕ)) (u : List ℕ) → turned (fact_behind us u) ≡ turns (item_behind us u) }
    ensures sps { (us : List (List ℕ)) (u : List ℕ) → (fact_behind us u).sps_unit ≡ sps_of_unit (item_behind us u) }
    ensures pps { (us : List (List ℕ)) (u : List ℕ) → (fact_behind us u).pps_unit ≡ pps_of_unit (item_behind us u) }
    ensures stray { (us : List (List ℕ)) (u : List ℕ) → is_vps (item_behind us u) ≡ false → is_known (item_behind us u) ≡ false → CarriesNothing (fact_behind us u) }
    ensures other { (us : List (List ℕ)) (u : List ℕ) → is_vps (item_behind us u) ≡ false → is_sps_kind (item_behind us u).head.kind ≡ false →
        is_pps_kind (item_behind us u).head.kind ≡ false → CarriesNothing (fact_behind us u) }
    ensures video_set { (us : List (List ℕ)) (u : List ℕ) → is_vps (item_behind us u) ≡ true → turns (item_behind us u) ≡ false → CarriesNothing (fact_behind us u) }
    ensures sequence_set { (us : List (List ℕ)) (u : List ℕ) → is_sps_kind (item_behind us u).head.kind ≡ true → (fact_behind us u).pps_unit ≡ None }
    ensures picture_set { (us : List (List ℕ)) (u : List ℕ) → is_pps_kind (item_behind us u).head.kind ≡ true → (fact_behind us u).sps_unit ≡ None }
    ensures slice { (us : List (List ℕ)) (u : List ℕ) → is_slice (item_behind us u) ≡ true → CarriesNothing (fact_behind us u) }
{}

/// The next unit by its head and the first fields of a slice segment, and as a tracker of access units is told of it.
pub fn the_next_unit_by_its_first_fields()
    ensures picture { (us : List (List ℕ)) (u : List ℕ) (b : Bool) → is_slice (item_behind us u) ≡ true → is_first_segment (opening_of (head u) u) ≡ b → is_picture (item_behind us u) ≡ b }
    ensures id { (us : List (List ℕ)) (u : List ℕ) → pps_id (placed_behind us u) ≡ option_map (λ (o : SliceOpening). o.slice_pic_parameter_set_id) (opening_of (head u) u) }
    ensures told { (i : Item) (h : UnitHead) → is_known i ≡ true → h ≡ i.head → is_slice i ≡ false → IsTold i h None }
    ensures told_segment { (i : Item) (h : UnitHead) (first : Bool) → is_slice i ≡ true → h ≡ i.head → is_picture i ≡ first → IsTold i h (Some first) }
{}

/// What units carry is what their bytes say, and a set that reads is valid, whatever stands behind its fields (7.3.2.2, 7.3.2.3).
pub fn sets_that_read_are_valid()
    ensures carried { (us : List (List ℕ)) → All (λ (f : Fact). (f.sps_unit ≡ sps_of_unit f.placed.item) × (f.pps_unit ≡ pps_of_unit f.placed.item)) (facts_of us) }
    ensures sps { (us : List (List ℕ)) (u : List ℕ) (c : Carried SpsValue) (v : SpsValue) → (fact_behind us u).sps_unit ≡ Some c → c.reading ≡ Ok v →
        (vps_sub_layers : ℕ) × (tail : Option (List Bool)) × ValidPayload (sps_payload (item_behind us u).head.layer vps_sub_layers) (v, tail) }
    ensures pps { (us : List (List ℕ)) (u : List ℕ) (c : Carried PpsValue) (v : PpsValue) → (fact_behind us u).pps_unit ≡ Some c → c.reading ≡ Ok v →
        (tail : Option (List Bool)) × ValidPayload pps (v, tail) }
{}

/// There are as many items, facts and judgements as units.
pub fn as_many_as_units()
    ensures items { (us : List (List ℕ)) → length (items (reverse us)) ≡ length us }
    ensures facts { (us : List (List ℕ)) → length (facts_of us) ≡ length us }
    ensures history { (us : List (List ℕ)) → length (history_of us) ≡ length us }
{}

/// No more sets are in reach than there are units.
pub fn no_more_sets_than_units<A>()
    ensures { (unit : Fact → Option A) (us : List (List ℕ)) → length (filter_map unit (since turned (facts_of us))) ≤ length us }
{}

/// Units of which none is objected to, with one more.
pub fn units_that_are_sound()
    ensures first { (o : ℕ) → IsSound o [] }
    ensures more { (o : ℕ) (us : List (List ℕ)) (u : List ℕ) → IsSound o us → unit_rule u ≡ None → objected o us u ≡ None → IsSound o (us ++ u ∷ []) }
{}
