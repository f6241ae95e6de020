//! Laws of counts and entries, as contracts of functions with nothing to do.
#![tactic(auto)]

ghost use Rattle.std.specs.Prelude.{◌≡◌, ◌^◌, ℤ, true, List, ◌∷◌, map, Some, None, Ok};
ghost use Rattle.std.specs.List.{enumerate_from, filter, filter_map};
ghost use Rattle.mv_slice.specs.Context.{SliceContextValue};
ghost use Rattle.mv_slice.specs.declared.slice.SliceHead.{SliceHead};
ghost use Rattle.mv_pictures.specs.Facts.{Fact};
ghost use Rattle.mv_pictures.specs.Look.{Look};
ghost use Rattle.mv_pictures.specs.Starts.{is_decoded, is_start};
ghost use Rattle.mv_pictures.specs.Judged.{Judged, au, is_base};
ghost use Rattle.mv_pictures.specs.History.{judgement};
ghost use Rattle.mv_pictures.specs.SliceFields.{entries, head_of, max_lsb};
ghost use Rattle.mv_pictures.specs.Counts.{anchor, count};
ghost use Rattle.mv_rps.specs.Asked.{anchor_after, count_of, counted};
ghost use Rattle.mv_pictures.specs.Held.{Held, held, longs, match_of, names};
ghost use Rattle.mv_pictures.specs.Terms.{after, before, long};
ghost use Rattle.mv_pictures.specs.References.{is_used};
ghost use Rattle.mv_pictures.specs.PictureRules.{missing_ref};
ghost use Rattle.mv_rps.specs.RefSet.{entries_of};
ghost use Rattle.mv_rps.specs.Resolving.{is_after, is_before, is_long, is_missing, kept_of, part};
ghost use Rattle.mv_rps.specs.Standing.{AreApart, AreCounted, asked_of, au_kept, kept_by_name, set_for, told};

/// The count of a decoded picture, and of a base picture, is the one that is told of what is asked of it and of its anchor.
pub fn counts_are_those_of_pictures()
    ensures decoded { (l : Look) (p : Fact) → is_decoded l p ≡ true → count_of (anchor l) (asked_of l p) ≡ count l p }
    ensures base { (l : Look) (p : Fact) → is_base p ≡ true → count_of (anchor l) (asked_of l p) ≡ count l p }
{}

/// Behind a picture the anchor's count is the one that is told of what is asked of it, where nothing refuses it; behind a start,
/// whatever stood before it. Behind a unit without a count it is the same.
pub fn anchors_are_those_of_pictures()
    ensures decoded { (l m : Look) (p : Fact) (c : ℤ) → is_decoded l p ≡ true → counted (anchor l) (asked_of l p) ≡ Ok c → m.own ≡ judgement l p ∷ l.own → anchor_after (anchor l) (asked_of l p) ≡ anchor m }
    ensures base { (l m : Look) (p : Fact) (c : ℤ) → is_base p ≡ true → counted (anchor l) (asked_of l p) ≡ Ok c → m.own ≡ judgement l p ∷ l.own → anchor_after (anchor l) (asked_of l p) ≡ anchor m }
    ensures start { (l m : Look) (p : Fact) (c : ℤ) (earlier : List Judged) → is_start l p ≡ true → counted (anchor l) (asked_of l p) ≡ Ok c → m.own ≡ judgement l p ∷ earlier → anchor_after (anchor l) (asked_of l p) ≡ anchor m }
    ensures other { (l m : Look) (d : Judged) → d.count ≡ None → m.own ≡ d ∷ l.own → anchor m ≡ anchor l }
{}

/// The entries of a picture are those of its header, and MaxPicOrderCntLsb is that of its context.
pub fn entries_are_those_of_headers()
    ensures max_lsb { (p : Fact) (ctx : SliceContextValue) → p.context ≡ Some ctx → 2 ^ ctx.lsb_bits ≡ max_lsb p }
    ensures entries { (p : Fact) (ctx : SliceContextValue) (head : SliceHead) → p.context ≡ Some ctx → head_of p ≡ Some head → entries_of ctx head ≡ entries p }
{}

/// Among the pictures that a decoded picture finds held, an entry that it uses has no match just where the definitions of
/// pictures say so.
pub fn missing_references_are_those_of_pictures()
    ensures { (l : Look) (p : Fact) → is_decoded l p ≡ true → AreCounted (held l p) → AreApart (told (held l p)) → is_missing (set_for l p) (told (held l p)) ≡ missing_ref l p }
{}

/// And just those are kept whose access unit it names, marked for good where a long-term entry of it does.
pub fn kept_pictures_are_those_named()
    ensures { (l : Look) (p : Fact) → is_decoded l p ≡ true → AreCounted (held l p) → AreApart (told (held l p)) → kept_of (set_for l p) (told (held l p)) ≡ filter_map (kept_by_name (names l p) (longs l p)) (enumerate_from 0 (told (held l p))) }
{}

/// The indexes of each part are those of the pictures that its used entries match, told by their access units.
pub fn parts_are_those_matched()
    ensures before { (l : Look) (p : Fact) → AreCounted (held l p) → AreApart (told (held l p)) → map (au_kept (told (held l p)) (kept_of (set_for l p) (told (held l p)))) (part is_before (set_for l p) (told (held l p))) ≡ map (λ (h : Held). Some (au h.it.fact)) (filter_map (match_of l p) (filter (is_used before) (entries p))) }
    ensures after { (l : Look) (p : Fact) → AreCounted (held l p) → AreApart (told (held l p)) → map (au_kept (told (held l p)) (kept_of (set_for l p) (told (held l p)))) (part is_after (set_for l p) (told (held l p))) ≡ map (λ (h : Held). Some (au h.it.fact)) (filter_map (match_of l p) (filter (is_used after) (entries p))) }
    ensures long { (l : Look) (p : Fact) → AreCounted (held l p) → AreApart (told (held l p)) → map (au_kept (told (held l p)) (kept_of (set_for l p) (told (held l p)))) (part is_long (set_for l p) (told (held l p))) ≡ map (λ (h : Held). Some (au h.it.fact)) (filter_map (match_of l p) (filter (is_used long) (entries p))) }
{}
