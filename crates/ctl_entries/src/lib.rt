//! What the entries of a matched command line say: its file, what is shown of a run, the order and the limit of steps.
#![tactic(auto)]

pub mod entries;
