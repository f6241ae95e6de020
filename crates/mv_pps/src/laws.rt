//! Laws of the table, as the contract of a function with nothing to do.

ghost use Rattle.std.specs.Prelude.{Bool, List};
ghost use Rattle.mv_syntax.specs.Laws.{SplitsAs};
ghost use Rattle.mv_syntax.specs.Payload.{PayloadExactlyOne, PayloadRoundTrips};
ghost use Rattle.mv_pps.specs.Opening.{opening};
ghost use Rattle.mv_pps.specs.Pps.{behind_opening, in_parts, pps_fields, pps};

/// Of any payload exactly one holds: it is one picture parameter set (7.3.2.3.1, F.7.3.2.3.1), one rule cuts it, or neither.
/// What was written reads back, and no rule cuts it; what reads is what is written of it. And the fields are read, or cut, in
/// their opening, or behind it in the other parts.
pub fn pps_laws()
    ensures exactly_one { (b : List Bool) → PayloadExactlyOne pps b }
    ensures round_trips { PayloadRoundTrips pps }
    ensures splits { (b : List Bool) → SplitsAs pps_fields in_parts opening (λ _. behind_opening) b }
{}
