//! What the code of each construct of a checked program is, and whether this version runs it.
#![tactic(auto)]

pub mod copies;
pub mod forms;
pub mod right;
pub mod runs;
pub mod typing;
