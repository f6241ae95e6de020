//! Where and why a run ends before its input does.
#![tactic(auto)]

use mv_rules::{Refusal, Rule};

/// What is said against a unit, or against the end of the input.
#[derive(Clone, Copy, PartialEq, Eq, Debug)]
pub enum Objection {
    /// It breaks a rule.
    Breaks(Rule),
    /// The output layer set that was asked for isn't one of those that a VPS has.
    NoSuchSet {
        /// The number of the set that was asked for.
        asked: u32,
        /// How many sets the VPS has.
        count: u32,
    },
}

/// The place in a stream at which it is objected to, and the objection.
#[derive(Clone, Copy, PartialEq, Eq, Debug)]
pub struct Stop {
    /// The number of the unit, from 0, or the number of units where the objection is against the end.
    pub unit: u64,
    /// The unit's place, or that of a leading byte, in bytes of the input, or the number of bytes at the end.
    pub byte: u64,
    /// The objection.
    pub why: Objection,
}

impl Stop {
    ghost use Rattle.std.specs.Prelude.{◌≡◌};
    ghost use Rattle.mv_judging.specs.Event.{IsByRule, refused_at};

    /// The refusal that it is, where the objection is by a rule.
    pub fn refusal(&self) -> Refusal
        requires { IsByRule self.now.why }
        ensures { refused_at result ≡ self.now }
    {
        match self.why {
            Objection::Breaks(rule) => Refusal {
                unit: self.unit,
                byte: self.byte,
                rule,
            },
            Objection::NoSuchSet { asked: _, count: _ } => unreachable!(),
        }
    }
}
