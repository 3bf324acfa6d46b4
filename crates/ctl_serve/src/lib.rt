//! The program's jobs over any reader and any writers.
#![tactic(auto)]

mod command;
pub mod report;
mod source;
pub mod status;

pub use command::{READ_LIMIT, refuse_file, refuse_words, serve, serve_into};
pub use ctl_run::{RunFault, Summary, put_run, run_into};
pub use source::Reading;
