//! When a checked program is well typed. The definition stands in `specs/`, and no code goes with it.
//!
//! "RM" is ISO/IEC 8652:2012.
#![tactic(auto)]
