//! The jobs that the words of a command line ask for.
#![tactic(auto)]

mod entries;
mod job;
mod line;
mod matching;

pub use entries::job_of;
pub use job::{Job, UsageFault};
