//! What a source text comes to: refused with its first fault, left out, or accepted with its program; and its code.
//!
//! "RM" is ISO/IEC 8652:2012.
#![tactic(auto)]

pub mod compile;
pub mod laws;
pub mod verdict;
