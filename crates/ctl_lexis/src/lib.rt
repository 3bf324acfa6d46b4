//! The lexis of a source text (RM 2): what its tokens and their places are, and where it first breaks a rule.
//!
//! The definitions stand in `specs/`. The types here are those that the scanner shares with them.
#![tactic(auto)]

pub mod class;
pub mod laws;
pub mod place;
pub mod shape;
