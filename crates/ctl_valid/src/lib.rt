//! Code that was validated, and that it is never stuck.
#![tactic(auto)]

pub mod laws;
pub mod valid;
