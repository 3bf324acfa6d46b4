//! The instructions of statements, declarations, handlers, bodies and defaults.
#![tactic(auto)]

pub mod emit_defaults;
pub mod emit_handlers;
pub mod emit_statements;
pub mod emit_storage;
