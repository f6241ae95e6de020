//! Laws of units of which none breaks a rule, whether or not a base picture was decoded among them. Each function has an empty
//! body, and its contract is the law.
#![tactic(auto)]

ghost use Rattle.std.specs.Prelude.{◌≡◌, ◌<◌, ◌≤◌, ℕ, true, false, List, All, length, option_map};
ghost use Rattle.mv_syntax.specs.Words.{◌otherwise◌};
ghost use Rattle.mv_history.specs.History.{Throughout};
ghost use Rattle.mv_commuting.specs.HeldOneMore.{held_of};
ghost use Rattle.mv_commuting.specs.Kept.{IsEarlierPicture};
ghost use Rattle.mv_pictures.specs.Held.{Held};
ghost use Rattle.mv_pictures.specs.History.{history_of};
ghost use Rattle.mv_pictures.specs.Judged.{Judged, au, is_picture};
ghost use Rattle.mv_pictures.specs.PictureRules.{is_in_range};
ghost use Rattle.mv_pictures.specs.Verdict.{breaks_none};

/// Access units of the pictures of a layer rise (F.7.4.2.4.4), and each decoded picture's count is of 32 bits (8.3.1).
pub fn pictures_so_far()
    ensures rise { (us : List (List ℕ)) → breaks_none (history_of us) ≡ true →
        Throughout (λ past d. is_picture d.fact ≡ true → All (IsEarlierPicture d) past) (history_of us) }
    ensures counts { (us : List (List ℕ)) → breaks_none (history_of us) ≡ true →
        All (λ (d : Judged). d.decoded ≡ true → (option_map is_in_range d.count otherwise false) ≡ true) (history_of us) }
{}

/// What is held of a layer has counts of 32 bits and access units that fall from the latest on, and there are at most 16 (8.3.2).
pub fn held_so_far()
    ensures counts { (us : List (List ℕ)) (n : ℕ) → breaks_none (history_of us) ≡ true →
        All (λ (h : Held). (option_map is_in_range h.it.count otherwise false) ≡ true) (held_of (history_of us) n) }
    ensures falls { (us : List (List ℕ)) (n : ℕ) → breaks_none (history_of us) ≡ true →
        Throughout (λ past (h : Held). All (λ (g : Held). au g.it.fact < au h.it.fact) past) (held_of (history_of us) n) }
    ensures at_most { (us : List (List ℕ)) (n : ℕ) → breaks_none (history_of us) ≡ true → length (held_of (history_of us) n) ≤ 16 }
{}
