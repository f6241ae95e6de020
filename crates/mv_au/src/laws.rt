//! Laws of what these objects stand for. Each function has an empty body, and its contract is the law.
#![tactic(auto)]

ghost use Rattle.std.specs.Prelude.{◌≡◌, ◌∷◌, ◌&&◌, not, true, false, List, Some, None, nat_eq, option_map};
ghost use Rattle.mv_history.specs.History.{Throughout};
ghost use Rattle.mv_pictures.specs.AccessUnits.{Placed, all_placed, has_changed_vps, in_au, number};
ghost use Rattle.mv_pictures.specs.Items.{Item, is_known, is_picture as is_unit_picture};
ghost use Rattle.mv_pictures.specs.Facts.{Fact};
ghost use Rattle.mv_pictures.specs.History.{judged};
ghost use Rattle.mv_pictures.specs.Look.{Look};
ghost use Rattle.mv_pictures.specs.PictureRules.{vps_mid_cvs};
ghost use Rattle.mv_pictures.specs.Judged.{Judged, is_base, is_end, is_layer_end, is_picture};
ghost use Rattle.mv_au.specs.States.{Stands as StatesStand, is_started, state_of};
ghost use Rattle.mv_au.specs.StatesValue.{StatesValue};
ghost use Rattle.mv_au.specs.Tracker.{Stands, broken, latest_base};
ghost use Rattle.mv_au.specs.TrackerValue.{TrackerValue};

/// A stray counts for no access unit (this project's profile): a tracker stands for it too without a call.
pub fn a_stray_is_of_no_access_unit()
    ensures { (t : TrackerValue) (us : List Item) (i : Item) → Stands t us → is_known i ≡ false → Stands t (i ∷ us) }
{}

/// In units none of which breaks a rule on access units, a picture of a layer above 0 stands in the access unit of the latest
/// picture of layer 0 before it (F.7.4.2.4.4), as the states of layers want it.
pub fn a_picture_stands_behind_its_base_picture()
    ensures { (us : List Item) (i : Item) → Throughout (λ past p. broken past p ≡ None) (all_placed (i ∷ us)) → is_unit_picture i ≡ true → nat_eq i.head.layer 0 ≡ false →
        option_map (in_au (number (all_placed us) i)) (latest_base (all_placed us)) ≡ Some true }
{}

/// What is neither a picture nor an end of a sequence or of the bitstream changes no state of a layer (8.1.3, F.8.1.3): states of
/// layers stand for it too without a call.
pub fn other_units_change_no_state()
    ensures { (s : StatesValue) (past : List Judged) (p : Fact) → StatesStand s past → is_picture p ≡ false → is_end p ≡ false → is_layer_end p ≡ false → StatesStand s (judged past p ∷ past) }
{}

/// A changed video parameter set in the access unit of a base picture breaks the rule on it exactly where the states of layers
/// answer anything but a start (this project's profile).
pub fn a_changed_set_wants_a_start()
    ensures { (past : List Placed) (l : Look) (p : Fact) → is_base p ≡ true → vps_mid_cvs past l p ≡ (not (is_started (state_of l p)) && has_changed_vps past p.placed) }
{}
