//! Laws of access units, base pictures, parameter sets and headers behind a stream. Each function has an empty body, and its
//! contract is the law.
#![tactic(auto)]

ghost use Rattle.std.specs.Prelude.{◌≡◌, ◌<◌, ◌≤◌, ◌+◌, ◌∷◌, ℕ, Bool, true, false, All, List, None, Option, Some, Ok, Err, is_some, length, nat_eq, option_map, reverse};
ghost use Rattle.std.specs.List.{find};
ghost use Rattle.mv_history.specs.History.{Throughout};
ghost use Rattle.mv_syntax.specs.Bits.{byte_bits};
ghost use Rattle.mv_syntax.specs.Payload.{ReadsPayload};
ghost use Rattle.mv_syntax.specs.Table.{Valid};
ghost use Rattle.mv_syntax.specs.Words.{◌otherwise◌};
ghost use Rattle.mv_rules.specs.declared.rule.Rule.{Rule};
ghost use Rattle.mv_pps.specs.Pps.{PpsValue, pps};
ghost use Rattle.mv_sps.specs.Sps.{SpsValue, sps_payload};
ghost use Rattle.mv_vps.specs.Vps.{VpsValue, vps};
ghost use Rattle.mv_slice.specs.Context.{SliceContextValue};
ghost use Rattle.mv_slice.specs.Slice.{slice_header};
ghost use Rattle.mv_slice.specs.declared.slice.SliceHead.{SliceHead};
ghost use Rattle.mv_commuting.specs.HeldOneMore.{held_of};
ghost use Rattle.mv_commuting.specs.OneMore.{fact_behind};
ghost use Rattle.mv_pictures.specs.AccessUnits.{Placed, all_placed, begins, number};
ghost use Rattle.mv_pictures.specs.Extract.{last_vps};
ghost use Rattle.mv_pictures.specs.Facts.{Fact, fact};
ghost use Rattle.mv_pictures.specs.Held.{Held};
ghost use Rattle.mv_pictures.specs.History.{history_of, judged};
ghost use Rattle.mv_pictures.specs.Items.{is_known, is_picture as item_picture, is_slice as item_slice, is_vps, items};
ghost use Rattle.mv_pictures.specs.Judged.{Judged, au, in_au, is_end, is_layer_end, is_picture, is_slice};
ghost use Rattle.mv_pictures.specs.Look.{look};
ghost use Rattle.mv_pictures.specs.Output.{count_of};
ghost use Rattle.mv_pictures.specs.PictureRules.{is_in_range, poc_mismatch};
ghost use Rattle.mv_pictures.specs.Verdict.{breaks_none, no_picture};
ghost use Rattle.mv_au.specs.Tracker.{answer, broken};
ghost use Rattle.mv_au.specs.declared.access_units.AuStep.{AuStep};
ghost use Rattle.mv_walk_laws.specs.Parts.{HasPicture};
ghost use Rattle.mv_walk_laws.specs.Sizes.{AreShort};
ghost use Rattle.mv_walk_laws.specs.Streams.{broken_behind, current, item_behind, placed_behind, placed_units};

/// The access unit of the next unit is the latest one, or behind it where the unit begins one; a stray begins none (7.4.2.4.4,
/// F.7.4.2.4.4; strays by this project's profile).
pub fn the_next_unit_joins_an_access_unit()
    ensures same { (us : List (List ℕ)) (u : List ℕ) → begins (placed_units us) (item_behind us u) ≡ false → number (placed_units us) (item_behind us u) ≡ current us }
    ensures next { (us : List (List ℕ)) (u : List ℕ) → begins (placed_units us) (item_behind us u) ≡ true → number (placed_units us) (item_behind us u) ≡ current us + 1 }
    ensures stray { (us : List (List ℕ)) (u : List ℕ) → is_known (item_behind us u) ≡ false → number (placed_units us) (item_behind us u) ≡ current us }
    ensures none_later { (us : List (List ℕ)) (u : List ℕ) → All (λ (d : Judged). au d.fact ≤ number (placed_units us) (item_behind us u)) (history_of us) }
    ensures all_earlier { (us : List (List ℕ)) (u : List ℕ) → begins (placed_units us) (item_behind us u) ≡ true →
        All (λ (d : Judged). au d.fact < number (placed_units us) (item_behind us u)) (history_of us) }
    ensures none_open { (us : List (List ℕ)) (u : List ℕ) → begins (placed_units us) (item_behind us u) ≡ true →
        (option_map (in_au (number (placed_units us) (item_behind us u))) (find (λ (d : Judged). is_picture d.fact) (history_of us)) otherwise false) ≡ false }
{}

/// A segment that isn't the first one of its picture begins no access unit (7.4.2.4.4), and no slice segment ends a sequence.
pub fn segments_join_and_end_nothing()
    ensures begins { (us : List (List ℕ)) (u : List ℕ) → item_slice (item_behind us u) ≡ true → item_picture (item_behind us u) ≡ false → begins (placed_units us) (item_behind us u) ≡ false }
    ensures same { (us : List (List ℕ)) (u : List ℕ) → item_slice (item_behind us u) ≡ true → item_picture (item_behind us u) ≡ false → number (placed_units us) (item_behind us u) ≡ current us }
    ensures ends { (p : Fact) → item_slice p.placed.item ≡ true → is_end p ≡ false }
    ensures layer_ends { (p : Fact) → item_slice p.placed.item ≡ true → is_layer_end p ≡ false }
{}

/// A video parameter set is no stray and no slice segment, and no slice segment stands before it in its access unit (7.4.2.4.4): no
/// picture is open behind it.
pub fn no_picture_is_open_at_a_video_parameter_set()
    ensures known { (us : List (List ℕ)) (u : List ℕ) → is_vps (item_behind us u) ≡ true → is_known (item_behind us u) ≡ true }
    ensures no_slice { (us : List (List ℕ)) (u : List ℕ) → is_vps (item_behind us u) ≡ true → item_slice (item_behind us u) ≡ false }
    ensures alone { (us : List (List ℕ)) (u : List ℕ) → is_vps (item_behind us u) ≡ true →
        All (λ (d : Judged). is_slice d.fact ≡ true → au d.fact ≡ number (placed_units us) (item_behind us u) → ⊥) (history_of us) }
    ensures closed { (us : List (List ℕ)) (u : List ℕ) → is_vps (item_behind us u) ≡ true →
        (option_map (in_au (number (placed_units us) (item_behind us u))) (find (λ (d : Judged). is_picture d.fact) (history_of us)) otherwise false) ≡ false }
{}

/// What a tracker of access units answers of the next unit: its access unit, or the least rule on access units that it breaks,
/// which no unit does that is no slice segment.
pub fn a_tracker_answers()
    ensures other { (us : List (List ℕ)) (u : List ℕ) → item_slice (item_behind us u) ≡ false →
        answer (items (reverse us)) (item_behind us u) ≡ Ok (record { au = number (placed_units us) (item_behind us u); begins = begins (placed_units us) (item_behind us u) }) }
    ensures ok { (us : List (List ℕ)) (u : List ℕ) (step : AuStep) → answer (items (reverse us)) (item_behind us u) ≡ Ok step →
        (step ≡ record { au = number (placed_units us) (item_behind us u); begins = begins (placed_units us) (item_behind us u) })
        × (broken (placed_units us) (placed_behind us u) ≡ None) }
    ensures err { (us : List (List ℕ)) (u : List ℕ) (r : Rule) → answer (items (reverse us)) (item_behind us u) ≡ Err r → broken (placed_units us) (placed_behind us u) ≡ Some r }
{}

/// Where no unit breaks a rule on access units, the latest base picture is in the access unit of a picture of a layer above 0
/// (F.7.4.2.4.4).
pub fn a_picture_has_a_base_picture()
    ensures of_any { (us : List (List ℕ)) (u : List ℕ) → Throughout (λ past q. broken past q ≡ None) (placed_units us) → broken (placed_units us) (placed_behind us u) ≡ None →
        item_picture (item_behind us u) ≡ true → nat_eq (item_behind us u).head.layer 0 ≡ false → (p : Fact) →
        option_map (λ (d : Judged). nat_eq (au d.fact) (number (placed_units us) (item_behind us u))) (look (history_of us) p).base ≡ Some true }
    ensures of_the_next { (us : List (List ℕ)) (u : List ℕ) → Throughout (λ past q. broken past q ≡ None) (all_placed (item_behind us u ∷ items (reverse us))) →
        item_picture (item_behind us u) ≡ true → nat_eq (item_behind us u).head.layer 0 ≡ false →
        option_map (λ (d : Judged). nat_eq (au d.fact) (au (fact_behind us u))) (look (history_of us) (fact_behind us u)).base ≡ Some true }
{}

/// While no unit breaks a rule, no picture is decoded before a base picture is: a picture of another layer has the count of its
/// base picture, which none has until then (8.3.1, F.8.3.1); and none is while no video parameter set is in force.
pub fn base_pictures_are_decoded_first()
    ensures base { (us : List (List ℕ)) → breaks_none (history_of us) ≡ true → no_picture (history_of us) ≡ true → All (λ (d : Judged). d.decoded ≡ false) (history_of us) }
    ensures set { (us : List (List ℕ)) → breaks_none (history_of us) ≡ true → last_vps us ≡ None → All (λ (d : Judged). d.decoded ≡ false) (history_of us) }
    ensures no_picture { (us : List (List ℕ)) → breaks_none (history_of us) ≡ true → last_vps us ≡ None → no_picture (history_of us) ≡ true }
{}

/// A segment that isn't the first one of its picture, and breaks no rule on access units, stands in the access unit of the latest
/// picture, which is of its layer (7.4.2.4.4).
pub fn a_later_segment_has_its_picture()
    ensures { (us : List (List ℕ)) (u : List ℕ) → item_slice (item_behind us u) ≡ true → item_picture (item_behind us u) ≡ false → broken (placed_units us) (placed_behind us u) ≡ None →
        HasPicture (history_of us) (item_behind us u).head.layer (number (placed_units us) (item_behind us u)) }
{}

/// While no unit breaks a rule, the decoded pictures of an access unit have one count, that of its base picture (F.8.3.1); and
/// access units don't fall.
pub fn an_access_unit_has_one_count()
    ensures one_count { (us : List (List ℕ)) → breaks_none (history_of us) ≡ true →
        Throughout (λ past d. d.decoded ≡ true → All (λ (e : Judged). e.decoded ≡ true → au e.fact ≡ au d.fact → count_of e ≡ count_of d) past) (history_of us) }
    ensures steady { (us : List (List ℕ)) → breaks_none (history_of us) ≡ true →
        Throughout (λ past d. All (λ (e : Judged). au e.fact ≤ au d.fact) past
        × (d.decoded ≡ true → All (λ (e : Judged). e.decoded ≡ true → au e.fact ≡ au d.fact → count_of e ≡ count_of d) past)) (history_of us) }
    ensures next { (us : List (List ℕ)) (u : List ℕ) → breaks_none (history_of us) ≡ true → broken (placed_units us) (placed_behind us u) ≡ None →
        poc_mismatch (look (history_of us) (fact_behind us u)) (fact_behind us u) ≡ false → item_picture (item_behind us u) ≡ true → (judged (history_of us) (fact_behind us u)).decoded ≡ true →
        All (λ (e : Judged). e.decoded ≡ true → au e.fact ≡ au (fact_behind us u) → count_of e ≡ count_of (judged (history_of us) (fact_behind us u))) (history_of us) }
{}

/// What is held of a layer behind the next unit, where no unit breaks a rule: counts of 32 bits, access units that fall, at most 16
/// pictures (8.3.2); and access units don't fall there, and the decoded pictures of one have one count.
pub fn the_next_unit_leaves_all_in_order()
    ensures breaks_none { (us : List (List ℕ)) (u : List ℕ) → breaks_none (history_of us) ≡ true → broken_behind us u ≡ None →
        breaks_none (judged (history_of us) (fact_behind us u) ∷ history_of us) ≡ true }
    ensures counts { (us : List (List ℕ)) (u : List ℕ) (n : ℕ) → breaks_none (history_of us) ≡ true → broken_behind us u ≡ None →
        All (λ (h : Held). (option_map is_in_range h.it.count otherwise false) ≡ true) (held_of (judged (history_of us) (fact_behind us u) ∷ history_of us) n) }
    ensures falls { (us : List (List ℕ)) (u : List ℕ) (n : ℕ) → breaks_none (history_of us) ≡ true → broken_behind us u ≡ None →
        Throughout (λ past (h : Held). All (λ (g : Held). au g.it.fact < au h.it.fact) past) (held_of (judged (history_of us) (fact_behind us u) ∷ history_of us) n) }
    ensures few { (us : List (List ℕ)) (u : List ℕ) (n : ℕ) → breaks_none (history_of us) ≡ true → broken_behind us u ≡ None →
        length (held_of (judged (history_of us) (fact_behind us u) ∷ history_of us) n) ≤ 16 }
    ensures steady { (us : List (List ℕ)) (u : List ℕ) → breaks_none (history_of us) ≡ true → broken_behind us u ≡ None →
        Throughout (λ past d. All (λ (e : Judged). au e.fact ≤ au d.fact) past
        × (d.decoded ≡ true → All (λ (e : Judged). e.decoded ≡ true → au e.fact ≡ au d.fact → count_of e ≡ count_of d) past)) (judged (history_of us) (fact_behind us u) ∷ history_of us) }
{}

/// A parameter set that reads has at most 65,536 bytes, and so have those that the next unit carries or is served by.
pub fn sets_are_short()
    ensures vps { (bytes : List ℕ) (v : VpsValue × Option (List Bool)) → ReadsPayload vps (byte_bits bytes) v → length bytes ≤ 65536 }
    ensures sps { (layer vps_sub_layers : ℕ) (bytes : List ℕ) (v : SpsValue × Option (List Bool)) → ReadsPayload (sps_payload layer vps_sub_layers) (byte_bits bytes) v →
        length bytes ≤ 65536 }
    ensures pps { (bytes : List ℕ) (v : PpsValue × Option (List Bool)) → ReadsPayload pps (byte_bits bytes) v → length bytes ≤ 65536 }
    ensures next { (us : List (List ℕ)) (u : List ℕ) → AreShort (fact_behind us u) }
{}

/// A header that reads is valid, and the first segment of a picture has a full one: it is no dependent segment (7.3.6.1).
pub fn first_segments_are_full()
    ensures valid { (past : List Fact) (q : Placed) (ctx : SliceContextValue) (header : SliceHead) → (fact past q).context ≡ Some ctx → (fact past q).header ≡ Some (Ok header) →
        Valid (slice_header ctx q.item.head.kind) header }
    ensures full { (us : List (List ℕ)) (u : List ℕ) (header : SliceHead) → (fact_behind us u).header ≡ Some (Ok header) →
        (fact_behind us u).placed.item.opening ≡ Some header.opening → item_picture (item_behind us u) ≡ true → is_some header.full ≡ true }
{}
