//! The program as far as it was checked, and what every check of a construct asks of it.
//!
//! "RM" is ISO/IEC 8652:2012.
#![tactic(auto)]

pub mod associations;
pub mod draft;
pub mod freezing;
pub mod named_types;
pub mod names;
pub mod operations;
pub mod order;
pub mod rows;
pub mod types;
pub mod view;
