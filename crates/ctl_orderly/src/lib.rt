//! Every trace is orderly.
#![tactic(auto)]

pub mod laws;
