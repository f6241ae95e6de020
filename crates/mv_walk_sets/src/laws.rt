//! Laws of the tables, as the contract of a function with nothing to do.
#![tactic(auto)]

ghost use Rattle.std.specs.Prelude.{◌∷◌, ◌≡◌, ℕ, Bool, List, true};
ghost use Rattle.mv_rules.specs.declared.rule.Rule.TheVariants.{SpsLimit};
ghost use Rattle.mv_syntax.specs.Payload.{CutPayload};
ghost use Rattle.mv_pictures.specs.UnitRules.{pps_rules, sps_rules, vps_rules};
ghost use Rattle.mv_pps.specs.Pps.{pps};
ghost use Rattle.mv_sps.specs.Sps.{sps_payload};
ghost use Rattle.mv_vps.specs.Vps.{vps};
ghost use Rattle.mv_walk_sets.specs.Cuts.{is_of};

/// The rules that cut a payload of a parameter set are those that are tried on it (7.3.2.1, 7.3.2.2.1, 7.3.2.3.1; the rules are
/// this project's profile).
#[tactic(auto, using(crate::proofs::CutLaws::vps_cuts, crate::proofs::CutLaws::pps_cuts))]
pub fn payloads_are_cut_by_their_rules()
    ensures vps { (b : List Bool) (r : ℕ) → CutPayload vps b r → is_of vps_rules r ≡ true }
    ensures sps { (layer vps_sub_layers : ℕ) (b : List Bool) (r : ℕ) → CutPayload (sps_payload layer vps_sub_layers) b r → is_of (SpsLimit ∷ sps_rules) r ≡ true }
    ensures pps { (b : List Bool) (r : ℕ) → CutPayload pps b r → is_of pps_rules r ≡ true }
{}
