//! The emitter, and the instructions of names, expressions and calls.
#![tactic(auto)]

pub mod emit;
pub mod emit_addresses;
pub mod emit_calls;
pub mod emit_expressions;
pub mod emit_parts;
