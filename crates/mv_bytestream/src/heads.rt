//! The head of a unit.
#![tactic(auto)]

ghost use Rattle.std.specs.Prelude.{◌≡◌};
ghost use Rattle.mv_units.specs.Rules.{checked_head};

use mv_rules::Rule;
use mv_units::UnitHead;

/// The head of a unit, which is its first two bytes (7.3.1.2).
///
/// # Errors
///
/// `Short` where the unit has fewer than two bytes. `Head` where forbidden_zero_bit is 1,
/// nuh_temporal_id_plus1 is 0, or nal_unit_type is 16 to 23 and TemporalId is above 0 (7.4.2.2).
pub fn read_head(unit: &[u8]) -> Result<UnitHead, Rule>
    ensures { result ≡ checked_head unit.now }
{
    if unit.len() < 2 {
        return Err(Rule::Short);
    }
    let forbidden_zero_bit = unit[0] / 128;
    let nal_unit_type = unit[0] / 2 % 64;
    let nuh_layer_id = unit[0] % 2 * 32 + unit[1] / 8;
    let nuh_temporal_id_plus1 = unit[1] % 8;
    if forbidden_zero_bit == 1 || nuh_temporal_id_plus1 == 0 {
        return Err(Rule::Head);
    }
    let temporal_id = nuh_temporal_id_plus1 - 1;
    if nal_unit_type >= 16 && nal_unit_type <= 23 && temporal_id > 0 {
        return Err(Rule::Head);
    }
    Ok(UnitHead {
        kind: nal_unit_type,
        layer: nuh_layer_id,
        tid: temporal_id,
    })
}
