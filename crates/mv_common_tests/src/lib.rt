//! Tests of the structures that headers share, apart from them: a crate with tests is proved twice.
#![tactic(auto)]

#[cfg(test)]
mod field_tests;
#[cfg(test)]
mod tests;
