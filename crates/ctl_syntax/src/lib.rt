//! Holds the trees of source texts: what is written, each node with its place, and the same once each name has what it denotes.
//!
//! A tree is generic in what a definition (`D`) and a use (`U`) of a name hold: both an identifier in the tree of a text; a number, a level
//! and what is denoted in the resolved tree. Contracts see lists and values, and no address: equal texts have equal trees.
//!
//! What the grammar repeats is a list: operators of one level, selectors, branches, choices. So the depth of a tree is bounded by
//! how deep constructs stand in one another, and not by the length of the text.
//!
//! "RM" is ISO/IEC 8652:2012.
#![tactic(auto)]

pub mod denoted;
pub mod expression;
pub mod item;
pub mod name;
pub mod operators;
