//! The place of the first construct of a text that is of a kind of which this version does not run all.
//!
//! It goes when the whole language is run. "RM" is ISO/IEC 8652:2012.
#![tactic(auto)]

mod construct;
mod walk;

pub use walk::first_left_out;
