//! Names resolved in the tree: from the tree of a text to the tree in which each name has what it denotes (RM 8).
//!
//! "RM" is ISO/IEC 8652:2012.
#![tactic(auto)]

pub mod context;
pub mod copies;
pub mod declarations;
pub mod ends;
pub mod expressions;
pub mod library;
mod lists;
pub mod names;
pub mod notes;
pub mod objects;
mod pairs;
pub mod parts;
pub mod subprograms;
pub mod table;
pub mod type_definitions;
pub mod types;
pub mod view;
pub mod whole;
