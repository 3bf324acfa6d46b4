//! Holds the checked program: every use resolved, every expression typed, collections where their types are frozen.
//!
//! What is called or looked up by number stands in flat tables (records, access types, subprograms, exceptions); what is nested is a
//! tree, no deeper than the source text nests. Operators of one precedence, selectors and alternatives are lists. Nothing is optional
//! that a legal program always has.
//!
//! Contracts see the lists and the values, and no address: two programs that say the same are equal, and a function of the
//! definitions can give one.
//!
//! "RM" is ISO/IEC 8652:2012.
#![tactic(auto)]

pub mod expression;
pub mod library;
pub mod limits;
pub mod operators;
pub mod program;
pub mod statement;
pub mod types;
