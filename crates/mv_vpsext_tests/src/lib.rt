//! Tests of extensions of video parameter sets, apart from them: a crate with tests is proved twice.
#![tactic(auto)]

#[cfg(test)]
mod field_tests;
#[cfg(test)]
mod tests;
