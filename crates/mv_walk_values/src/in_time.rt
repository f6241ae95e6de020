//! Laws of output order: what is shown stands before every picture that comes. Each function has an empty body, and its contract is
//! the law.
#![tactic(auto)]

ghost use Rattle.std.specs.Prelude.{◌≡◌, ◌<◌, ◌≤◌, ◌∷◌, ◌++◌, ◌+◌, ◌*◌, [], ℕ, suc, Bool, true, false, All, List, None, Option, Some, drop, filter, length, map, take};
ghost use Rattle.std.specs.List.{list_any};
ghost use Rattle.std.specs.Option.{IfSome};
ghost use Rattle.mv_dpb.specs.declared.shown.Shown.{Shown};
ghost use Rattle.mv_dpb.specs.declared.waits.Waits.{Waits};
ghost use Rattle.mv_dpb.specs.Stored.{Stored};
ghost use Rattle.mv_dpb.specs.Waiting.{WaitingValue, given, may_leave, with_picture as with_waiting, without_first};
ghost use Rattle.mv_pictures.specs.Decoding.{decoded_of, out_history};
ghost use Rattle.mv_pictures.specs.Facts.{Fact};
ghost use Rattle.mv_pictures.specs.History.{history_of, judged};
ghost use Rattle.mv_pictures.specs.Judged.{Judged, au, begins, is_picture, is_slice};
ghost use Rattle.mv_pictures.specs.Output.{is_before, is_output, reorder};
ghost use Rattle.mv_pictures.specs.Verdict.{breaks_none};
ghost use Rattle.mv_rebuild.specs.Parts.{Part};
ghost use Rattle.mv_rebuild.specs.Value.{shown_of, showings};
ghost use Rattle.mv_walk_order.specs.Queue.{leaves, pictures_in};
ghost use Rattle.mv_walk_values.specs.InTime.{ShowsInTime, latest_outputs, latest_reorder, of_sequence, units, whole_before};
ghost use Rattle.mv_walk_values.specs.Orderly.{IsOrderly};
ghost use Rattle.mv_walk_values.specs.Showing.{ShowsValues, in_order, latest_sequence};
ghost use Rattle.mv_walk_values.specs.Timely.{IsTimely};
ghost use Rattle.mv_walk_values.specs.Values.{is_segment_of, value_of};

/// While no unit breaks a rule, a history is timely: no picture of it is late (C.5.2). Its output pictures are of sequences that
/// were started, and those of the latest one have its reorder number.
pub fn histories_are_timely()
    ensures timely { (us : List (List ℕ)) → breaks_none (history_of us) ≡ true → IsTimely (history_of us) }
    ensures started { (o : ℕ) (past : List Judged) → IsTimely past → All (λ (d : Judged). is_output o d ≡ true → d.sequence < length (filter begins past)) past }
    ensures reorder { (o : ℕ) (past : List Judged) → IsTimely past → All (λ (d : Judged). is_output o d ≡ true → d.sequence ≡ latest_sequence past → reorder o d ≡ latest_reorder o past) past }
{}

/// A picture that isn't late stands before none that was shown (C.5.2.2, C.5.2.4): where the latest output picture of a history is
/// whole, of the latest sequence only pictures of earlier access units were shown, and then as many others wait as may.
pub fn a_picture_stands_before_none_that_was_shown()
    ensures { (o : ℕ) (past : List Judged) (x : Judged) (rest : List Judged) (unit left : ℕ) → IsTimely past → filter (is_output o) past ≡ x ∷ rest → x.sequence ≡ latest_sequence past → unit ≤ au x.fact →
        All (λ (d : Judged). d.sequence ≡ latest_sequence past) (drop left (in_order o past true)) → All (λ (d : Judged). au d.fact < unit) (of_sequence (latest_sequence past) (take left (in_order o past true))) →
        All (λ (d : Judged). latest_reorder o past ≤ units (whole_before unit (of_sequence (latest_sequence past) (take left (in_order o past true))) (drop left (in_order o past true)))) (of_sequence (latest_sequence past) (take left (in_order o past true))) →
        list_any (is_before x) (take left (in_order o past true)) ≡ false }
{}

/// Pictures leave in time, access unit by access unit (C.5.2.2, C.5.2.4): before the first unit; as a unit comes that starts no
/// sequence, with its picture in the making or not, or one that is no slice segment; as the latest output picture is whole and
/// waits; as an access unit is whole, as pictures leave then, and once none more does; and as a sequence starts where none waits.
pub fn pictures_leave_in_time<P>()
    ensures none { (rebuild : List (Part P) → P) (o whole unit : ℕ) → ShowsInTime rebuild o [] false whole unit None [] }
    ensures made { (o : ℕ) (e : Judged) (past : List Judged) → in_order o (e ∷ past) (is_output o e) ≡ in_order o past false }
    ensures other { (o : ℕ) (e : Judged) (past : List Judged) (made : Bool) → is_output o e ≡ false → in_order o (e ∷ past) made ≡ in_order o past made }
    ensures kept { (rebuild : List (Part P) → P) (o : ℕ) (e : Judged) (past : List Judged) (made making : Bool) (whole unit : ℕ) (q : Option (WaitingValue P)) (shown : List (Shown × P)) →
        in_order o (e ∷ past) making ≡ in_order o past made → All (λ d. is_segment_of d e ≡ false) (in_order o past made) → begins e ≡ false → ShowsInTime rebuild o past made whole unit q shown → ShowsInTime rebuild o (e ∷ past) making whole unit q shown }
    ensures no_segment { (rebuild : List (Part P) → P) (o : ℕ) (past : List Judged) (p : Fact) (made : Bool) (whole unit : ℕ) (q : Option (WaitingValue P)) (shown : List (Shown × P)) → is_picture p ≡ false → is_slice p ≡ false →
        ShowsInTime rebuild o past made whole unit q shown → ShowsInTime rebuild o (judged past p ∷ past) made whole unit q shown }
    ensures comes { (rebuild : List (Part P) → P) (o : ℕ) (past : List Judged) (whole unit : ℕ) (w : WaitingValue P) (shown : List (Shown × P)) (x : Judged) (rest : List Judged) (told_x : Shown) (unit_x : ℕ) (pic : P) → IsTimely past →
        filter (is_output o) past ≡ x ∷ rest → x.sequence ≡ latest_sequence past → told_x ≡ shown_of (decoded_of past x) → unit_x ≡ au x.fact → pic ≡ value_of rebuild past x → whole ≤ au x.fact → unit ≤ au x.fact →
        ShowsInTime rebuild o past true whole unit (Some w) shown → ShowsInTime rebuild o past false whole unit (Some (with_waiting told_x unit_x pic w)) shown }
    ensures whole { (rebuild : List (Part P) → P) (o : ℕ) (past : List Judged) (made : Bool) (whole unit next : ℕ) (q : Option (WaitingValue P)) (shown : List (Shown × P)) → unit ≤ next →
        ShowsInTime rebuild o past made whole unit q shown → ShowsInTime rebuild o past made whole next q shown }
    ensures given { (rebuild : List (Part P) → P) (o : ℕ) (past : List Judged) (made : Bool) (whole unit : ℕ) (w : WaitingValue P) (shown : List (Shown × P)) (s : Stored Waits P) (rest : List (Stored Waits P)) → IsTimely past →
        All (λ (d : Judged). au d.fact < unit) past → w.pictures ≡ s ∷ rest → may_leave w ≡ true → ShowsInTime rebuild o past made whole unit (Some w) shown →
        ShowsInTime rebuild o past made whole unit (Some (without_first w)) (shown ++ given s ∷ []) }
    ensures complete { (rebuild : List (Part P) → P) (o : ℕ) (past : List Judged) (made : Bool) (whole unit next : ℕ) (q : Option (WaitingValue P)) (shown : List (Shown × P)) → leaves q ≡ false →
        ShowsInTime rebuild o past made whole unit q shown → ShowsInTime rebuild o past made next unit q shown }
    ensures begun { (rebuild : List (Part P) → P) (o : ℕ) (e : Judged) (past : List Judged) (made making : Bool) (whole unit : ℕ) (q new : Option (WaitingValue P)) (shown : List (Shown × P)) → IsTimely past →
        in_order o (e ∷ past) making ≡ in_order o past made → All (λ d. is_segment_of d e ≡ false) (in_order o past made) → begins e ≡ true → pictures_in q ≡ [] → pictures_in new ≡ [] → IfSome new (λ w. w.reorder ≡ reorder o e) →
        ShowsValues rebuild o past made q shown → ShowsInTime rebuild o (e ∷ past) making whole unit new shown }
{}

/// What isn't shown yet are pictures of at most as many access units as may wait and one more (C.5.2.4): where no output picture is
/// in the making, and where one is.
pub fn few_pictures_are_not_shown_yet<P>()
    ensures none_made { (rebuild : List (Part P) → P) (o : ℕ) (past : List Judged) (whole unit : ℕ) (q : Option (WaitingValue P)) (shown : List (Shown × P)) → All (λ (d : Judged). au d.fact ≤ whole) past →
        ShowsInTime rebuild o past false whole unit q shown →
        (rest : List Judged) × (showings rebuild (out_history past o) ≡ shown ++ showings rebuild (map (decoded_of past) rest)) × (units rest ≤ suc (latest_reorder o past)) }
    ensures one_made { (rebuild : List (Part P) → P) (o : ℕ) (past : List Judged) (whole unit : ℕ) (q : Option (WaitingValue P)) (shown : List (Shown × P)) (x : Judged) (others : List Judged) → IsTimely past → filter (is_output o) past ≡ x ∷ others →
        x.sequence ≡ latest_sequence past → whole ≤ au x.fact → unit ≤ au x.fact → All (λ (d : Judged). au d.fact ≤ whole) past → ShowsInTime rebuild o past true whole unit q shown →
        (rest : List Judged) × (showings rebuild (out_history past o) ≡ shown ++ showings rebuild (map (decoded_of past) rest)) × (units rest ≤ suc (latest_reorder o past)) }
{}

/// There is room for each output picture that comes (C.5.2.4): where there is room for those of one access unit more than may wait,
/// each with as many as there are output layers.
pub fn there_is_room_for_a_picture_that_comes<P>()
    ensures { (rebuild : List (Part P) → P) (o : ℕ) (past : List Judged) (whole unit : ℕ) (w : WaitingValue P) (shown : List (Shown × P)) (x : Judged) (rest : List Judged) → IsOrderly past → IsTimely past →
        filter (is_output o) past ≡ x ∷ rest → x.sequence ≡ latest_sequence past → whole ≤ au x.fact → All (λ (d : Judged). au d.fact ≤ whole) past → ShowsInTime rebuild o past true whole unit (Some w) shown →
        w.room ≡ (latest_reorder o past + 1) * length (latest_outputs o past) → length w.pictures < w.room }
{}
