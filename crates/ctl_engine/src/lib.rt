//! The engine of the machine: its state, and how masters and calls come and go in it.
#![tactic(auto)]

pub mod begin;
pub mod calls;
pub mod closing;
pub mod computing;
pub mod engine;
pub mod finalizing;
pub mod freeing;
pub mod handlers;
pub mod holders;
pub mod jumps;
pub mod layers;
pub mod leaving;
pub mod loops;
pub mod printing;
pub mod resuming;
pub mod showing;
pub mod start;
pub mod window;
