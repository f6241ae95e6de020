//! Laws of what is kept of a layer's pictures. Each function has an empty body, and its contract is the law.
#![tactic(auto)]

ghost use Rattle.std.specs.Prelude.{◌≡◌, ◌≤◌, [], ◌∷◌, ℕ, ℤ, true, false, List, None, Ok, Option, Some, nat_eq, option_map};
ghost use Rattle.mv_dpb.specs.declared.held.Keep.{Keep};
ghost use Rattle.mv_syntax.specs.Table.{Valid};
ghost use Rattle.mv_slice.specs.Context.{Fits, SliceContextValue};
ghost use Rattle.mv_slice.specs.Slice.{slice_header};
ghost use Rattle.mv_slice.specs.declared.slice.SliceHead.{SliceHead};
ghost use Rattle.mv_pictures.specs.Facts.{Fact};
ghost use Rattle.mv_pictures.specs.SliceFields.{head_of, num_pic_total_curr};
ghost use Rattle.mv_pictures.specs.History.{history_of, judged};
ghost use Rattle.mv_pictures.specs.Judged.{Judged, au, begins, is_base, is_picture, kind, layer};
ghost use Rattle.mv_pictures.specs.Look.{in_sequence, look};
ghost use Rattle.mv_pictures.specs.Starts.{is_decoded, is_start};
ghost use Rattle.mv_pictures.specs.Counts.{count};
ghost use Rattle.mv_pictures.specs.Held.{held};
ghost use Rattle.mv_pictures.specs.References.{decoded_in, payload_of};
ghost use Rattle.mv_pictures.specs.PictureRules.{missing_inter_layer, missing_ref, sps_changed, too_many_refs};
ghost use Rattle.mv_pictures.specs.Verdict.{breaks_none};
ghost use Rattle.mv_commuting.specs.HeldOneMore.{held_of};
ghost use Rattle.mv_rps.specs.Asked.{counted, within_range};
ghost use Rattle.mv_rps.specs.Resolving.{is_missing, kept_of};
ghost use Rattle.mv_rps.specs.Standing.{AreApart, AreCounted, set_for, told};
ghost use Rattle.mv_walk_layer.specs.LayerValue.{LatestValue, LayerValue, found, is_other_sps, latest_here, no_pictures, told_held, with_count, with_decoded, with_picture};
ghost use Rattle.mv_walk_layer.specs.Sums.{num_references};
ghost use Rattle.mv_walk_layer.specs.Standing.{IsDecodedAnchor, IsInOrder, IsSound, Stands, answer, asked_within, told_of, told_of_fact, told_of_kept};

/// A layer of which nothing is kept stands for a stream without units.
pub fn no_pictures_stand_for_no_units<P>()
    ensures { (n : ℕ) → Stands {P = P} no_pictures [] n None }
{}

/// While no unit breaks a rule, what is held of a layer is sound.
pub fn what_is_held_is_sound()
    ensures { (us : List (List ℕ)) (n : ℕ) → breaks_none (history_of us) ≡ true → IsSound (held_of (history_of us) n) }
{}

/// The count that is told of a decoded picture is its PicOrderCntVal where it breaks neither rule on counts, and else the rule
/// that it breaks first; of a start that is so whatever is kept. Of a base picture that isn't decoded only the range is tried.
pub fn counts_are_those_of_rules<P>()
    ensures decoded { (l : LayerValue P) (past : List Judged) (p : Fact) (making : Option (ℤ × ℕ)) → Stands l past (layer p) making → is_decoded (look past p) p ≡ true →
        counted l.counts (asked_within (look past p) p) ≡ answer (look past p) p }
    ensures start { (c : Option ℤ) (past : List Judged) (p : Fact) → is_start (look past p) p ≡ true → counted c (asked_within (look past p) p) ≡ answer (look past p) p }
    ensures base { (l : LayerValue P) (past : List Judged) (p : Fact) (making : Option (ℤ × ℕ)) → Stands l past (layer p) making → is_base p ≡ true →
        counted l.counts (asked_within (look past p) p) ≡ within_range (count (look past p) p) }
{}

/// What is told of the latest decoded picture is what rule SpsChanged asks, and which picture of an access unit is decoded.
pub fn the_latest_is_the_one_that_is_asked_for<P>()
    ensures sps { (l : LayerValue P) (past : List Judged) (p : Fact) (making : Option (ℤ × ℕ)) → Stands l past (layer p) making → is_decoded (look past p) p ≡ true → is_start (look past p) p ≡ false →
        is_other_sps (payload_of p.sets.sps) l ≡ sps_changed (look past p) p }
    ensures here { (l : LayerValue P) (past : List Judged) (p : Fact) (n : ℕ) (making : Option (ℤ × ℕ)) → Stands l past n making → IsInOrder past p →
        option_map told_of_kept (latest_here (au p) l) ≡ option_map told_of (decoded_in p (in_sequence past n)) }
{}

/// A picture finds in the buffer just those that it finds held; each of them has a count, and no two are of one access unit. So an
/// entry that it uses has no match there just where rule MissingRef says so.
pub fn what_is_found_is_what_is_held<P>()
    ensures held { (l : LayerValue P) (past : List Judged) (p : Fact) → Stands l past (layer p) None → found (is_start (look past p) p) l ≡ told (held (look past p) p) }
    ensures counted { (past : List Judged) (p : Fact) → IsSound (held_of past (layer p)) → AreCounted (held (look past p) p) }
    ensures apart { (past : List Judged) (p : Fact) → IsSound (held_of past (layer p)) → AreApart (told (held (look past p) p)) }
    ensures missing { (l : LayerValue P) (past : List Judged) (p : Fact) → Stands l past (layer p) None → is_decoded (look past p) p ≡ true →
        is_missing (set_for (look past p) p) (found (is_start (look past p) p) l) ≡ missing_ref (look past p) p }
{}

/// A picture that is decoded: a start, whatever was kept, and another one, which keeps just what its entries match. It is then in
/// the making; once it is whole it is held in the buffer too.
pub fn a_decoded_picture_is_kept<P>()
    ensures start { (l : LayerValue P) (past : List Judged) (p : Fact) (c : ℤ) (keep : List Keep) (latest : LatestValue) →
        is_start (look past p) p ≡ true → counted l.counts (asked_within (look past p) p) ≡ Ok c → told_of_kept latest ≡ told_of_fact p → IsSound (held_of (judged past p ∷ past) (layer p)) →
        Stands (with_decoded true keep latest (with_count (asked_within (look past p) p) l)) (judged past p ∷ past) (layer p) (Some (c, au p)) }
    ensures decoded { (l : LayerValue P) (past : List Judged) (p : Fact) (c : ℤ) (keep : List Keep) (latest : LatestValue) → Stands l past (layer p) None →
        is_decoded (look past p) p ≡ true → is_start (look past p) p ≡ false → counted l.counts (asked_within (look past p) p) ≡ Ok c →
        keep ≡ kept_of (set_for (look past p) p) (told_held l) → told_of_kept latest ≡ told_of_fact p → IsSound (held_of (judged past p ∷ past) (layer p)) →
        Stands (with_decoded false keep latest (with_count (asked_within (look past p) p) l)) (judged past p ∷ past) (layer p) (Some (c, au p)) }
    ensures whole { (l : LayerValue P) (past : List Judged) (n : ℕ) (c : ℤ) (unit : ℕ) (pic : P) → Stands l past n (Some (c, unit)) → Stands (with_picture c unit pic l) past n None }
{}

/// Other units change nothing of a layer: what is no first segment of a picture, ends among it; a unit of another layer that
/// starts no sequence; a picture that isn't decoded, also where it is counted. Where a base picture starts a sequence nothing is
/// left of the other layers.
pub fn other_units_change_no_layer<P>()
    ensures no_picture { (l : LayerValue P) (past : List Judged) (p : Fact) (n : ℕ) (making : Option (ℤ × ℕ)) → is_picture p ≡ false → Stands l past n making →
        Stands l (judged past p ∷ past) n making }
    ensures other_layer { (l : LayerValue P) (past : List Judged) (p : Fact) (n : ℕ) (making : Option (ℤ × ℕ)) → nat_eq (layer p) n ≡ false → begins (judged past p) ≡ false →
        Stands l past n making → Stands l (judged past p ∷ past) n making }
    ensures skipped { (l : LayerValue P) (past : List Judged) (p : Fact) (n : ℕ) (making : Option (ℤ × ℕ)) → (judged past p).decoded ≡ false → IsDecodedAnchor (judged past p) →
        Stands l past n making → Stands l (judged past p ∷ past) n making }
    ensures skipped_base { (l : LayerValue P) (past : List Judged) (p : Fact) (making : Option (ℤ × ℕ)) → is_base p ≡ true → (judged past p).decoded ≡ false → IsDecodedAnchor (judged past p) →
        Stands l past (layer p) making → Stands (with_count (asked_within (look past p) p) l) (judged past p ∷ past) (layer p) making }
    ensures forgotten { (past : List Judged) (p : Fact) (n : ℕ) → nat_eq (layer p) n ≡ false → begins (judged past p) ≡ true → Stands {P = P} no_pictures (judged past p ∷ past) n None }
{}

/// A decoded picture that breaks neither rule on missing references has as many as NumPicTotalCurr of its header: its parts and its
/// inter-layer pictures together. With at most 15 entries there are at most 77.
pub fn references_are_as_many_as_counted()
    ensures total { (past : List Judged) (p : Fact) (ctx : SliceContextValue) (head : SliceHead) → p.context ≡ Some ctx → head_of p ≡ Some head → Fits ctx → Valid (slice_header ctx (kind p)) head →
        is_decoded (look past p) p ≡ true → missing_ref (look past p) p ≡ false → missing_inter_layer (look past p) p ≡ false → num_references (look past p) p ≡ num_pic_total_curr p }
    ensures few { (past : List Judged) (p : Fact) (ctx : SliceContextValue) (head : SliceHead) → p.context ≡ Some ctx → head_of p ≡ Some head → Fits ctx → Valid (slice_header ctx (kind p)) head →
        is_decoded (look past p) p ≡ true → too_many_refs (look past p) p ≡ false → missing_ref (look past p) p ≡ false → missing_inter_layer (look past p) p ≡ false → num_references (look past p) p ≤ 77 }
{}
