//! Parts of objects in the engine: they are created, initialized, assigned to, adjusted and finalized, and failures among that undone.
#![tactic(auto)]

pub mod adjusting;
pub mod assign;
pub mod creating;
pub mod emptying;
pub mod evaluating;
pub mod failing;
pub mod filling;
pub mod initialize;
pub mod undoing;
