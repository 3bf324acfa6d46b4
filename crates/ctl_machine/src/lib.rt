//! The machine that runs the code over windows of cells, a step at a time.
#![tactic(auto)]

mod advance;
mod assign;
mod emptying;
mod ending;
mod evaluating;
mod finalizing;
mod freeing;
mod handlers;
mod layers;
mod leaving;
pub mod machine;
mod procedures;
mod resuming;
mod several;
mod step;
mod stretch;
