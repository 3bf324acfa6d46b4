//! Single moves of the machine: what a part, an object and a master end by, and where control goes on.
#![tactic(auto)]

pub mod assign;
pub mod closing;
pub mod finalizing;
pub mod freeing;
pub mod initialize;
pub mod jumps;
pub mod leaving;
pub mod outcome;
pub mod procedures;
pub mod returning;
