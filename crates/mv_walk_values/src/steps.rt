//! Laws of the pictures that are kept, made and shown, with a slice segment more: the first one of a picture and a later one, as
//! one step each; and once a picture is whole. Each function has an empty body, and its contract is the law.
#![tactic(auto)]

ghost use Rattle.std.specs.Prelude.{◌≡◌, ◌<◌, ◌≤◌, ◌∷◌, ◌++◌, ◌&&◌, [], ℕ, ℤ, Bool, true, false, All, List, None, Option, Some, get_or, length, slice_set};
ghost use Rattle.std.specs.List.{find};
ghost use Rattle.std.specs.Option.{IfSome};
ghost use Rattle.mv_vps.specs.Vps.{WholeVps};
ghost use Rattle.mv_sps.specs.Sps.{SpsValue};
ghost use Rattle.mv_pps.specs.Pps.{PpsValue};
ghost use Rattle.mv_dpb.specs.declared.shown.Shown.{Shown};
ghost use Rattle.mv_dpb.specs.Waiting.{WaitingValue, with_picture as with_waiting};
ghost use Rattle.mv_pictures.specs.Carried.{Carried};
ghost use Rattle.mv_pictures.specs.Counts.{count};
ghost use Rattle.mv_pictures.specs.Facts.{Fact};
ghost use Rattle.mv_pictures.specs.History.{history_of, judged};
ghost use Rattle.mv_pictures.specs.Judged.{Judged, au, is_picture, is_slice, layer, vps_at};
ghost use Rattle.mv_pictures.specs.Layers.{directs, view};
ghost use Rattle.mv_pictures.specs.Look.{look};
ghost use Rattle.mv_pictures.specs.Output.{count_of, is_output, reorder};
ghost use Rattle.mv_pictures.specs.References.{segment, start_of};
ghost use Rattle.mv_pictures.specs.SliceFields.{is_put_out};
ghost use Rattle.mv_pictures.specs.Starts.{is_decoded, is_sequence_start, is_start};
ghost use Rattle.mv_pictures.specs.Verdict.{breaks_none};
ghost use Rattle.mv_commuting.specs.HeldOneMore.{held_of};
ghost use Rattle.mv_commuting.specs.OneMore.{fact_behind};
ghost use Rattle.mv_rebuild.specs.Parts.{Part, has};
ghost use Rattle.mv_rps.specs.declared.counts.PocAsk.{PocAsk};
ghost use Rattle.mv_walk_laws.specs.Streams.{broken_behind};
ghost use Rattle.mv_walk_layer.specs.LayerValue.{LatestValue, LayerValue, no_pictures, with_count, with_decoded, with_picture};
ghost use Rattle.mv_walk_layer.specs.Standing.{IsSound, Stands};
ghost use Rattle.mv_walk_order.specs.OrderSteps.{puts_out};
ghost use Rattle.mv_walk_order.specs.OrderValues.{OrdersValue};
ghost use Rattle.mv_walk_order.specs.Orders.{Stands as StandsBehind};
ghost use Rattle.mv_walk_order.specs.Queue.{pictures_in};
ghost use Rattle.mv_walk_values.specs.Beginning.{AreReferences, IsBegunWith, ValuesReady, Referring, begun_parts};
ghost use Rattle.mv_walk_values.specs.Coming.{IsComing};
ghost use Rattle.mv_walk_values.specs.InMaking.{MadeValue};
ghost use Rattle.mv_walk_values.specs.InTime.{ShowsInTime};
ghost use Rattle.mv_walk_values.specs.Orderly.{IsOrderly};
ghost use Rattle.mv_walk_values.specs.Showing.{ShowsValues};
ghost use Rattle.mv_walk_values.specs.Standing.{ValuesStand};
ghost use Rattle.mv_walk_values.specs.Timely.{IsTimely};
ghost use Rattle.mv_walk_values.specs.Values.{is_segment_of, parts_of, term_of};

use mv_rebuild::Rebuild;

/// Behind a unit that breaks no rule, as those before it, a history is orderly and timely. And no unit before the first segment of
/// a picture is a segment of that picture (7.4.2.4.4).
pub fn histories_go_on()
    ensures orderly { (us : List (List ℕ)) (u : List ℕ) → breaks_none (history_of us) ≡ true → broken_behind us u ≡ None → IsOrderly (judged (history_of us) (fact_behind us u) ∷ history_of us) }
    ensures timely { (us : List (List ℕ)) (u : List ℕ) → breaks_none (history_of us) ≡ true → broken_behind us u ≡ None → IsTimely (judged (history_of us) (fact_behind us u) ∷ history_of us) }
    ensures first { (us : List (List ℕ)) (u : List ℕ) → breaks_none (history_of us) ≡ true → broken_behind us u ≡ None → is_picture (fact_behind us u) ≡ true →
        All (λ (x : Judged). is_segment_of (judged (history_of us) (fact_behind us u)) x ≡ false) (history_of us) }
{}

/// Before the first unit nothing is kept, made and shown.
pub fn no_units_give_no_pictures<R: Rebuild>(_rebuild: &R)
    ensures { (o : ℕ) (layers : List (LayerValue R.Pic)) → ((n : ℕ) → n < 64 → get_or layers n no_pictures ≡ no_pictures) → ValuesStand (R.meaning _rebuild.now) o [] layers None None [] }
{}

/// All is ready for a decoded picture where none is in the making and it starts no sequence; and at the start of a sequence, where
/// nothing is left of the pictures before, all that waited was shown, and none waits. So it is once its layer has counted the
/// picture.
pub fn all_is_ready_for_a_picture<R: Rebuild>(_rebuild: &R)
    ensures here { (o : ℕ) (past : List Judged) (p : Fact) (layers : List (LayerValue R.Pic)) (q : Option (WaitingValue R.Pic)) (shown : List (Shown × R.Pic)) → is_sequence_start (look past p) p ≡ false →
        length layers ≡ 64 → Stands (get_or layers (layer p) no_pictures) past (layer p) None → ValuesStand (R.meaning _rebuild.now) o past layers None q shown →
        ValuesReady (R.meaning _rebuild.now).picture o past p layers q shown }
    ensures start { (o : ℕ) (past : List Judged) (p : Fact) (layers : List (LayerValue R.Pic)) (q new : Option (WaitingValue R.Pic)) (shown : List (Shown × R.Pic)) → is_sequence_start (look past p) p ≡ true →
        length layers ≡ 64 → ((n : ℕ) → n < 64 → get_or layers n no_pictures ≡ no_pictures) → pictures_in q ≡ [] → pictures_in new ≡ [] →
        ShowsValues (R.meaning _rebuild.now).picture o past false q shown → ValuesReady (R.meaning _rebuild.now).picture o past p layers new shown }
    ensures counted { (o : ℕ) (past : List Judged) (p : Fact) (layers : List (LayerValue R.Pic)) (q : Option (WaitingValue R.Pic)) (shown : List (Shown × R.Pic)) (n : ℕ) (asked : PocAsk) → n < 64 →
        ValuesReady (R.meaning _rebuild.now).picture o past p layers q shown → ValuesReady (R.meaning _rebuild.now).picture o past p (slice_set layers n (with_count asked (get_or layers n no_pictures))) q shown }
{}

/// What a decoded picture is begun with are its start, its references and its first segment, as its term has them (8.3.2, F.8.1.6).
pub fn a_picture_is_begun_with_the_parts_of_its_term<P>()
    ensures { (rebuild : List (Part P) → P) (o : ℕ) (past : List Judged) (p : Fact) (layers : List (LayerValue P)) (q : Option (WaitingValue P)) (shown : List (Shown × P)) → IsOrderly (judged past p ∷ past) →
        is_decoded (look past p) p ≡ true → layer p < 64 → ValuesReady rebuild o past p layers q shown → All (λ n. n < 64) (directs (vps_at p) (layer p)) →
        (r : Referring) → AreReferences past p r → All (λ (x : Judged). is_segment_of (judged past p) x ≡ false) past →
        begun_parts layers (layer p) r (start_of (judged past p)) (segment (judged past p)) ≡ parts_of rebuild (term_of (judged past p ∷ past) (judged past p)) }
{}

/// What its first segment tells of a picture: its start, by its layer, its view, its count and its parameter sets; its count; the
/// segment, by the unit's bytes and its lists; and whether an output layer set puts it out, by what is kept of the sets.
pub fn a_first_segment_tells_of_its_picture()
    ensures start { (past : List Judged) (p : Fact) (c : ℤ) (v : Carried WholeVps) (s : Carried SpsValue) (t : Carried PpsValue) → is_picture p ≡ true → count (look past p) p ≡ Some c → vps_at p ≡ Some v → p.sets.sps ≡ Some s → p.sets.pps ≡ Some t →
        start_of (judged past p) ≡ record { layer = layer p; view = view (vps_at p) (layer p); count = c; vps = v.payload; sps = s.payload; pps = t.payload } }
    ensures segment { (past : List Judged) (p : Fact) → segment (judged past p) ≡ record { bytes = p.placed.item.bytes; lists = (judged past p).lists } }
    ensures count { (past : List Judged) (p : Fact) (c : ℤ) → is_picture p ≡ true → count (look past p) p ≡ Some c → count_of (judged past p) ≡ c }
    ensures output { (past : List Judged) (p : Fact) → is_picture p ≡ true → (s : OrdersValue) (o : ℕ) → is_decoded (look past p) p ≡ true → StandsBehind s (judged past p ∷ past) →
        (is_put_out p && puts_out s.sets o (layer p)) ≡ is_output o (judged past p) }
{}

/// The first segment of a picture, as one step. Where the picture is decoded it is in the making, its layer keeps what it names,
/// and nothing is shown; where it isn't, nothing changes but the count of its layer.
pub fn a_first_segment_is_one_step<R: Rebuild>(_rebuild: &R)
    ensures decoded { (o : ℕ) (past : List Judged) (p : Fact) (layers : List (LayerValue R.Pic)) (q : Option (WaitingValue R.Pic)) (shown : List (Shown × R.Pic)) (r : Referring) (latest : LatestValue) (m : MadeValue R.Work) →
        IsOrderly (judged past p ∷ past) → All (λ (x : Judged). is_segment_of (judged past p) x ≡ false) past → is_decoded (look past p) p ≡ true → layer p < 64 → All (λ n. n < 64) (directs (vps_at p) (layer p)) →
        ValuesReady (R.meaning _rebuild.now).picture o past p layers q shown → AreReferences past p r → IsBegunWith (R.meaning _rebuild.now) o past p layers r m →
        ValuesStand (R.meaning _rebuild.now) o (judged past p ∷ past) (slice_set layers (layer p) (with_decoded (is_start (look past p) p) r.keep latest (get_or layers (layer p) no_pictures))) (Some m) q shown }
    ensures skipped { (o : ℕ) (past : List Judged) (p : Fact) (layers : List (LayerValue R.Pic)) (q : Option (WaitingValue R.Pic)) (shown : List (Shown × R.Pic)) → IsOrderly (judged past p ∷ past) → is_picture p ≡ true →
        (judged past p).decoded ≡ false → ValuesStand (R.meaning _rebuild.now) o past layers None q shown → ValuesStand (R.meaning _rebuild.now) o (judged past p ∷ past) layers None q shown }
    ensures counted { (o : ℕ) (past : List Judged) (layers : List (LayerValue R.Pic)) (making : Option (MadeValue R.Work)) (q : Option (WaitingValue R.Pic)) (shown : List (Shown × R.Pic)) (n : ℕ) (asked : PocAsk) → n < length layers →
        ValuesStand (R.meaning _rebuild.now) o past layers making q shown → ValuesStand (R.meaning _rebuild.now) o past (slice_set layers n (with_count asked (get_or layers n no_pictures))) making q shown }
{}

/// A later segment of the latest picture, as one step. Where the picture is in the making it gains the segment; where the picture
/// isn't decoded nothing changes.
pub fn a_later_segment_is_one_step<R: Rebuild>(_rebuild: &R)
    ensures decoded { (o : ℕ) (past : List Judged) (p : Fact) (layers : List (LayerValue R.Pic)) (m : MadeValue R.Work) (work : R.Work) (q : Option (WaitingValue R.Pic)) (shown : List (Shown × R.Pic)) (first : Judged) →
        IsOrderly (judged past p ∷ past) → is_slice p ≡ true → is_picture p ≡ false → find (λ (d : Judged). is_picture d.fact) past ≡ Some first → layer p ≡ layer first.fact → au p ≡ au first.fact → IsSound (held_of past (layer p)) →
        ((parts : List (Part R.Pic)) → (R.meaning _rebuild.now).stands m.work parts → (R.meaning _rebuild.now).stands work (parts ++ has (segment (judged past p)) ∷ [])) →
        ValuesStand (R.meaning _rebuild.now) o past layers (Some m) q shown →
        ValuesStand (R.meaning _rebuild.now) o (judged past p ∷ past) layers (Some (record { work = work; shown = m.shown; au = m.au; output = m.output })) q shown }
    ensures skipped { (o : ℕ) (past : List Judged) (p : Fact) (layers : List (LayerValue R.Pic)) (q : Option (WaitingValue R.Pic)) (shown : List (Shown × R.Pic)) (first : Judged) →
        IsOrderly (judged past p ∷ past) → is_picture p ≡ false → find (λ (d : Judged). is_picture d.fact) past ≡ Some first → layer p ≡ layer first.fact → au p ≡ au first.fact → first.decoded ≡ false →
        ValuesStand (R.meaning _rebuild.now) o past layers None q shown → ValuesStand (R.meaning _rebuild.now) o (judged past p ∷ past) layers None q shown }
{}

/// With a slice segment more, pictures go on to leave in time (C.5.2.2, C.5.2.4): with a first segment that starts no sequence,
/// also where its picture isn't decoded; with one that starts a sequence where none waits; and with a later segment, whether its
/// picture is in the making or, where it isn't decoded, none is.
pub fn a_segment_keeps_the_time<P>()
    ensures first { (rebuild : List (Part P) → P) (o : ℕ) (past : List Judged) (p : Fact) (made : Bool) (whole unit : ℕ) (q : Option (WaitingValue P)) (shown : List (Shown × P)) → IsOrderly (judged past p ∷ past) → is_picture p ≡ true →
        is_sequence_start (look past p) p ≡ false → made ≡ is_output o (judged past p) → ShowsInTime rebuild o past false whole unit q shown → ShowsInTime rebuild o (judged past p ∷ past) made whole unit q shown }
    ensures skipped { (rebuild : List (Part P) → P) (o : ℕ) (past : List Judged) (p : Fact) (whole unit : ℕ) (q : Option (WaitingValue P)) (shown : List (Shown × P)) → IsOrderly (judged past p ∷ past) → is_picture p ≡ true →
        (judged past p).decoded ≡ false → ShowsInTime rebuild o past false whole unit q shown → ShowsInTime rebuild o (judged past p ∷ past) false whole unit q shown }
    ensures start { (rebuild : List (Part P) → P) (o : ℕ) (past : List Judged) (p : Fact) (made : Bool) (whole unit : ℕ) (q new : Option (WaitingValue P)) (shown : List (Shown × P)) → IsOrderly (judged past p ∷ past) → IsTimely past →
        is_picture p ≡ true → is_sequence_start (look past p) p ≡ true → made ≡ is_output o (judged past p) → pictures_in q ≡ [] → pictures_in new ≡ [] → IfSome new (λ w. w.reorder ≡ reorder o (judged past p)) →
        ShowsValues rebuild o past false q shown → ShowsInTime rebuild o (judged past p ∷ past) made whole unit new shown }
    ensures later { (rebuild : List (Part P) → P) (o : ℕ) (past : List Judged) (p : Fact) (first : Judged) (made : Bool) (whole unit : ℕ) (q : Option (WaitingValue P)) (shown : List (Shown × P)) → IsOrderly (judged past p ∷ past) →
        is_picture p ≡ false → find (λ (d : Judged). is_picture d.fact) past ≡ Some first → layer p ≡ layer first.fact → au p ≡ au first.fact → made ≡ is_output o first →
        ShowsInTime rebuild o past made whole unit q shown → ShowsInTime rebuild o (judged past p ∷ past) made whole unit q shown }
    ensures undecoded { (o : ℕ) (d : Judged) → d.decoded ≡ false → is_output o d ≡ false }
{}

/// Once the picture in the making is whole, its layer holds its value too. Where it isn't put out, what was shown and what waits
/// stays; where it is, it is the latest output picture, of the latest sequence, and comes to those that wait (C.5.2.3).
pub fn a_whole_picture_is_kept<R: Rebuild>(_rebuild: &R)
    ensures comes { (o : ℕ) (past : List Judged) (layers : List (LayerValue R.Pic)) (m : MadeValue R.Work) (q : Option (WaitingValue R.Pic)) (shown : List (Shown × R.Pic)) (pic : R.Pic) → IsOrderly past → IsTimely past →
        ((parts : List (Part R.Pic)) → (R.meaning _rebuild.now).stands m.work parts → pic ≡ (R.meaning _rebuild.now).picture parts) → ValuesStand (R.meaning _rebuild.now) o past layers (Some m) q shown → m.output ≡ true →
        IsComing (R.meaning _rebuild.now).picture o past m.shown m.au pic }
    ensures unput { (o : ℕ) (past : List Judged) (layers : List (LayerValue R.Pic)) (m : MadeValue R.Work) (q : Option (WaitingValue R.Pic)) (shown : List (Shown × R.Pic)) (pic : R.Pic) → IsOrderly past → IsTimely past →
        ((parts : List (Part R.Pic)) → (R.meaning _rebuild.now).stands m.work parts → pic ≡ (R.meaning _rebuild.now).picture parts) → ValuesStand (R.meaning _rebuild.now) o past layers (Some m) q shown →
        length layers ≡ 64 → m.shown.layer < 64 → (whole unit : ℕ) → m.output ≡ false → ShowsInTime (R.meaning _rebuild.now).picture o past m.output whole unit q shown →
        ValuesStand (R.meaning _rebuild.now) o past (slice_set layers m.shown.layer (with_picture m.shown.count m.au pic (get_or layers m.shown.layer no_pictures))) None q shown
        × ShowsInTime (R.meaning _rebuild.now).picture o past false whole unit q shown }
    ensures put { (o : ℕ) (past : List Judged) (layers : List (LayerValue R.Pic)) (m : MadeValue R.Work) (q : Option (WaitingValue R.Pic)) (shown : List (Shown × R.Pic)) (pic : R.Pic) → IsOrderly past → IsTimely past →
        ((parts : List (Part R.Pic)) → (R.meaning _rebuild.now).stands m.work parts → pic ≡ (R.meaning _rebuild.now).picture parts) → ValuesStand (R.meaning _rebuild.now) o past layers (Some m) q shown →
        length layers ≡ 64 → m.shown.layer < 64 → (whole unit : ℕ) (w : WaitingValue R.Pic) → m.output ≡ true → whole ≤ m.au → unit ≤ m.au → ShowsInTime (R.meaning _rebuild.now).picture o past m.output whole unit (Some w) shown →
        ValuesStand (R.meaning _rebuild.now) o past (slice_set layers m.shown.layer (with_picture m.shown.count m.au pic (get_or layers m.shown.layer no_pictures))) None (Some (with_waiting m.shown m.au pic w)) shown
        × ShowsInTime (R.meaning _rebuild.now).picture o past false whole unit (Some (with_waiting m.shown m.au pic w)) shown }
    ensures whole { (o : ℕ) (past : List Judged) (layers : List (LayerValue R.Pic)) (m : MadeValue R.Work) (q : Option (WaitingValue R.Pic)) (shown : List (Shown × R.Pic)) (pic : R.Pic) → IsOrderly past → IsTimely past →
        ((parts : List (Part R.Pic)) → (R.meaning _rebuild.now).stands m.work parts → pic ≡ (R.meaning _rebuild.now).picture parts) → ValuesStand (R.meaning _rebuild.now) o past layers (Some m) q shown →
        length layers ≡ 64 → m.shown.layer < 64 → (new : Option (WaitingValue R.Pic)) → ShowsValues (R.meaning _rebuild.now).picture o past false new shown →
        ValuesStand (R.meaning _rebuild.now) o past (slice_set layers m.shown.layer (with_picture m.shown.count m.au pic (get_or layers m.shown.layer no_pictures))) None new shown }
{}
