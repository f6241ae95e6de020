ghost use Rattle.std.specs.Prelude.{◌≡◌};
ghost use Rattle.mv_fields.specs.Faults.{broken_as, in_header, refusal};
ghost use Rattle.mv_fields.specs.declared.fault.Fault.TheVariants.{NoBits as no_bits, Memory};

use mv_bits::NoBits;
use mv_rules::{ReadFault, Rule};
use std::alloc::{AllocError, AllocFailed};

/// Why a part of a header was not read.
///
/// `R` is what a field can break: a `Rule`, or in a structure that several headers share its `Limit`.
#[derive(Clone, Copy, Debug, Drop, PartialEq, Eq)]
pub enum Fault<R> {
    /// The bits end before or in a field, or aren't those that have to stand there.
    NoBits,
    /// A field breaks this, and all before it could be read.
    Breaks(R),
    /// There was not enough memory.
    Memory,
}

/// The limit of a field of a structure that several headers share. Each header says which rule it breaks there.
#[derive(Clone, Copy, Debug, PartialEq, Eq)]
pub struct Limit;

impl Fault<Limit> {
    /// The fault of a shared structure in a header whose limit rule is `rule`.
    pub fn under(self, rule: Rule) -> Fault<Rule>
        ensures { result ≡ broken_as rule self }
    {
        match self {
            Fault::NoBits => Fault::NoBits,
            Fault::Breaks(_) => Fault::Breaks(rule),
            Fault::Memory => Fault::Memory,
        }
    }
}

/// What a call answered that reads a shared structure, in a header whose limit rule is `rule`.
pub fn under<X>(rule: Rule, answer: Result<X, Fault<Limit>>) -> Result<X, Fault<Rule>>
    ensures { result ≡ in_header rule answer }
{
    match answer {
        Ok(value) => Ok(value),
        Err(fault) => Err(fault.under(rule)),
    }
}

impl Fault<Rule> {
    /// The refusal of a header: by the rule that a field breaks, or by the header's rule `syntax` where its bits aren't
    /// those of one.
    pub fn refusal(self, syntax: Rule) -> ReadFault
        ensures { result ≡ refusal syntax self }
    {
        match self {
            Fault::NoBits => ReadFault::Refused(syntax),
            Fault::Breaks(rule) => ReadFault::Refused(rule),
            Fault::Memory => ReadFault::Memory,
        }
    }
}

impl<R> From<NoBits> for Fault<R> {
    ghost from_gives = { λ _ e. e ≡ no_bits };

    fn from(_e: NoBits) -> Fault<R> {
        Fault::NoBits
    }
}

impl<R> From<AllocError> for Fault<R> {
    ghost from_gives = { λ _ e. e ≡ Memory };

    fn from(_e: AllocError) -> Fault<R> {
        Fault::Memory
    }
}

impl<R, T: Drop> From<AllocFailed<T>> for Fault<R> {
    ghost from_gives = { λ _ e. e ≡ Memory };

    fn from(_e: AllocFailed<T>) -> Fault<R> {
        Fault::Memory
    }
}
