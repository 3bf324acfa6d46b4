//! From the bytes of a source text to its checked program, or the first rule that it breaks.
//!
//! "RM" is ISO/IEC 8652:2012.
#![tactic(auto)]

pub mod laws;
pub mod program;
pub mod tree;
