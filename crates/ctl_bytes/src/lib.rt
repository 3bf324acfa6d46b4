//! What single bytes of a source text come to: the delimiters of one and of two bytes, and the place behind each byte (RM 2.2).
#![tactic(auto)]

pub mod delimiter;
pub mod place;
