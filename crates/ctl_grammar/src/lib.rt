//! The grammar of the subset of Ada that adactl takes.
#![tactic(auto)]

pub mod depth;
pub mod fault;
pub mod joining;
pub mod kind;
pub mod laws;
pub mod refused;
pub mod spelling;
