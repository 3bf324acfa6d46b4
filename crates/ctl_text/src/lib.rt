//! The texts that show a run: its trace, with a line for each event and one for the end, or what the program printed.
#![tactic(auto)]

mod lines;
mod output;
mod parts;
mod trace;
mod words;

pub use output::{output_text, output_text_in};
pub use trace::{trace_text, trace_text_in};
