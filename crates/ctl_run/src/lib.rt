//! Runs of source texts, and sinks that take the text of a run.
//!
//! "RM" is ISO/IEC 8652:2012.
#![tactic(auto)]

mod into;
mod printing;
pub mod run;
mod summary;

pub use into::{put_run, run_into};
pub use summary::{RunFault, Summary};
