//! From the checked program to the machine's code.
#![tactic(auto)]

pub mod generate;
