//! Reads the tokens of a source text: answers its tree, or the first fault of its grammar.
//!
//! Each production of the grammar is a method of its own. What the grammar repeats is read by a loop, so the depth of recursion
//! is bounded by how many constructs stand in one another, and not by the length of the text.
#![tactic(auto)]

mod bodies;
mod building;
mod cursor;
mod declarations;
mod depth;
mod expressions;
mod headings;
mod known;
pub mod laws;
mod names;
mod operators;
mod simple_statements;
mod statements;
mod types;
mod whole;

pub use whole::parse;
