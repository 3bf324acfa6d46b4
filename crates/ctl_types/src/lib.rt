//! The check of types: from the resolved tree to the checked program.
//!
//! "RM" is ISO/IEC 8652:2012.
#![tactic(auto)]

pub mod library;
pub mod masters;
pub mod parts;
pub mod programs;
pub mod subprograms;
pub mod whole;
