//! Laws of the table, as the contract of a function with nothing to do.

ghost use Rattle.std.specs.Prelude.{ℕ, Bool, List};
ghost use Rattle.mv_syntax.specs.Laws.{SplitsAs};
ghost use Rattle.mv_syntax.specs.Payload.{PayloadExactlyOne, PayloadRoundTrips};
ghost use Rattle.mv_sps.specs.Opening.{opening};
ghost use Rattle.mv_sps.specs.Sps.{behind_opening, in_parts, sps_fields, sps_payload};

/// Of any payload exactly one holds: it is one sequence parameter set (7.3.2.2.1, F.7.3.2.2.1), one rule cuts it, or neither.
/// What was written reads back, and no rule cuts it; what reads is what is written of it. And the fields are read, or cut, in
/// their opening, or behind it in the other parts.
pub fn sps_laws()
    ensures exactly_one { (layer vps_sub_layers : ℕ) (b : List Bool) → PayloadExactlyOne (sps_payload layer vps_sub_layers) b }
    ensures round_trips { (layer vps_sub_layers : ℕ) → PayloadRoundTrips (sps_payload layer vps_sub_layers) }
    ensures splits { (layer vps_sub_layers : ℕ) (b : List Bool) → SplitsAs (sps_fields layer vps_sub_layers) in_parts (opening layer vps_sub_layers) (behind_opening layer vps_sub_layers) b }
{}
