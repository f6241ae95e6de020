//! Laws of the table, as the contract of a function with nothing to do.

ghost use Rattle.std.specs.Prelude.{Bool, List};
ghost use Rattle.mv_syntax.specs.Payload.{PayloadExactlyOne, PayloadRoundTrips};
ghost use Rattle.mv_vps.specs.Vps.{vps};

/// Of any payload exactly one holds: it is one video parameter set (7.3.2.1, F.7.3.2.1), one rule cuts it, or neither. What was
/// written reads back, and what reads writes back the same bits.
pub fn vps_laws()
    ensures exactly_one { (b : List Bool) → PayloadExactlyOne vps b }
    ensures round_trips { PayloadRoundTrips vps }
{}
