//! The scanner: from the bytes of a source text to its tokens with their places, or to its first lexical fault (RM 2).
#![tactic(auto)]

mod byte;
mod front;
mod name;
mod number;
mod scan;
mod string;
mod token;
mod word;

pub use scan::tokens;
