//! Which units are kept.
#![tactic(auto)]

ghost use Rattle.std.specs.Prelude.{◌≡◌, Some};
ghost use Rattle.mv_pictures.specs.Layers.{InForce, keeps, whole};
ghost use Rattle.mv_vps.specs.Vps.{ValidVps};

use mv_units::UnitHead;
use mv_vps::Vps;

/// Whether a unit with this head is kept for output layer set `ols` of the video parameter set in force: its layer is layer 0
/// or a necessary layer of the set (F.10.1, this project's profile). Where the video parameter set has no set of this number,
/// layer 0 alone is kept.
pub fn keeps(vps: &Vps, ols: u32, head: UnitHead) -> bool
    requires { ValidVps vps.now }
    ensures { (at : InForce) → whole at ≡ Some vps.now → result ≡ keeps ols at head.layer }
{
    match vps.ols(ols) {
        Some(set) => set.keeps(head.layer),
        None => head.layer == 0,
    }
}
