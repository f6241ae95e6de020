//! Tests of sequence parameter sets, apart from them: a crate with tests is proved twice.
#![tactic(auto)]

#[cfg(test)]
mod part_tests;
#[cfg(test)]
mod tests;
