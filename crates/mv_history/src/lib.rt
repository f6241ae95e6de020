//! Definitions of histories, which are lists that have the latest first, and of output order, and the laws about
//! them. Nothing here knows of streams.
#![tactic(auto)]

pub mod laws;
pub mod order_laws;
