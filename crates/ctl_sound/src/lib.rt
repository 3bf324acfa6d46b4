//! What the check gives is well typed. The functions do nothing: each contract is a law.
//!
//! "RM" is ISO/IEC 8652:2012.
#![tactic(auto)]

pub mod laws;
