//! Tests of stores of parameter sets, apart from them: a crate with tests is proved twice.
#![tactic(auto)]

#[cfg(test)]
mod tests;
