//! The check of statements that hold no statements themselves, and of the choices of handlers.
//!
//! "RM" is ISO/IEC 8652:2012.
#![tactic(auto)]

pub mod assignments;
pub mod calls;
pub mod operation_calls;
pub mod raises;
pub mod transfers;
pub mod writing;
