//! What becomes of a reference picture set that is refused.
#![tactic(auto)]

ghost use Rattle.std.specs.Prelude.{◌≡◌};
ghost use Rattle.mv_rps.specs.declared.fault.RefFault.TheVariants.{Memory};

use mv_rules::Rule;
use std::alloc::AllocError;

/// Why there is no reference picture set, or none that resolves.
#[derive(Debug, Drop, PartialEq, Eq)]
pub enum RefFault {
    Refused(Rule),
    Memory,
}

impl From<AllocError> for RefFault {
    ghost from_gives = { λ _ e. e ≡ Memory };

    fn from(_: AllocError) -> Self {
        RefFault::Memory
    }
}
