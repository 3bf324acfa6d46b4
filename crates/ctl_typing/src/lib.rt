//! The judgement of expressions: what their place asks goes down, their type and their checked form come up.
//!
//! "RM" is ISO/IEC 8652:2012.
#![tactic(auto)]

pub mod actuals;
pub mod adopting;
pub mod allocators;
pub mod attributes;
pub mod conversions;
pub mod expressions;
pub mod found;
pub mod joining;
pub mod judging;
pub mod literals;
pub mod lookup;
pub mod names;
pub mod notes;
pub mod operations;
pub mod operators;
pub mod table;
pub mod texts;
pub mod values;
pub mod variables;
