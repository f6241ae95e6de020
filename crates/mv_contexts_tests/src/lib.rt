//! Tests of contexts and of headers of slice units, apart from them: a crate with tests is proved twice.
#![tactic(auto)]

#[cfg(test)]
mod context_tests;
#[cfg(test)]
mod unit_tests;
