//! Tests of units that carry parameter sets, apart from them: a crate with tests is proved twice.
#![tactic(auto)]

#[cfg(test)]
mod tests;
#[cfg(test)]
mod units;
