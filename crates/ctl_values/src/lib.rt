//! Values in cells: what operators make of them, and the texts with their images.
#![tactic(auto)]

pub mod operators;
pub mod texts;
