//! What instructions reach in the engine: variables, parts of objects and their components, values of records, and blocks of pools.
#![tactic(auto)]

pub mod components;
pub mod copies;
pub mod dereferencing;
pub mod locating;
pub mod pool_blocks;
pub mod record_values;
pub mod returning;
pub mod seen;
pub mod storage_calls;
pub mod variables;
