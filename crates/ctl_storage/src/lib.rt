//! The storage of allocated objects: the objects with their cells, in the standard pool or in
//! blocks of block pools, and the block pools.
#![tactic(auto)]

mod existing;
mod located;
mod pools;
mod sizes;
mod storage;
mod words;

pub use existing::{Allocation, Life, Place, Stage, Step};
pub use pool_store::Spot;
pub use pools::{BlockReturn, Placing, Pool, PoolSize, PoolState};
pub use storage::ObjectStorage;
