//! Objects come to be in the engine: they are declared, or allocated from a pool.
#![tactic(auto)]

pub mod allocating;
pub mod allocating_copy;
pub mod declare;
pub mod granting;
pub mod made_at_once;
pub mod pools;
