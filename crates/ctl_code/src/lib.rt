//! The code that the machine runs.
#![tactic(auto)]

mod accesses;
mod around;
mod calls;
pub mod code;
mod fine;
pub mod homes;
mod images;
pub mod kinds;
pub mod laws;
mod layouts;
pub mod least;
mod pools;
mod stacks;
mod tables;
pub mod template;
mod types;
pub mod validate;
