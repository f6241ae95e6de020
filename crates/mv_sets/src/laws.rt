//! Laws of what a store stands for, and of what it takes. Each function has an empty body, and its contract is the law.

ghost use Rattle.std.specs.Prelude.{◌≡◌, ◌<◌, ◌∷◌, ℕ, false, Bool, List, Option, None};
ghost use Rattle.mv_syntax.specs.Payload.{ValidPayload};
ghost use Rattle.mv_pps.specs.Pps.{PpsValue, pps};
ghost use Rattle.mv_sps.specs.Sps.{SpsValue, sps_payload};
ghost use Rattle.mv_pictures.specs.Facts.{Fact, turned};
ghost use Rattle.mv_sets.specs.Formats.{SpsFormatFits};
ghost use Rattle.mv_sets.specs.Store.{Stands};
ghost use Rattle.mv_sets.specs.StoreValue.{StoreValue};

/// A unit that carries no sequence or picture parameter set and changes no video parameter set changes no set in reach
/// (7.4.1.4.1, F.7.4.1.4.1): a store stands for it too without a call.
pub fn other_units_leave_a_store()
    ensures { (s : StoreValue) (past : List Fact) (f : Fact) → Stands s past → turned f ≡ false → f.sps_unit ≡ None → f.pps_unit ≡ None → Stands s (f ∷ past) }
{}

/// A valid sequence parameter set is one that a store takes: its id is below 16, and the format that it codes is within its
/// limits (7.4.3.2.1).
pub fn a_valid_sequence_parameter_set_can_be_kept()
    ensures { (layer vps_sub_layers : ℕ) (v : SpsValue) (tail : Option (List Bool)) → ValidPayload (sps_payload layer vps_sub_layers) (v, tail) → (v.opening.sps_seq_parameter_set_id < 16) × SpsFormatFits v }
{}

/// A valid picture parameter set is one that a store takes: its id is below 64 (7.4.3.3.1).
pub fn a_valid_picture_parameter_set_can_be_kept()
    ensures { (v : PpsValue) (tail : Option (List Bool)) → ValidPayload pps (v, tail) → v.opening.pps_pic_parameter_set_id < 64 }
{}
