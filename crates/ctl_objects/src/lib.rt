//! The objects that exist while a program runs: those that are declared, and those that are
//! allocated, with their cells, and the block pools.
#![tactic(auto)]

mod allocations;
mod cells;
mod declarations;
mod existing;
mod object_list;

pub use ctl_groups::{Group, Need, Start, Waiting};
pub use ctl_storage::{BlockReturn, Life, Place, Placing, Pool, PoolSize, PoolState, Spot, Stage};
pub use existing::{Existing, Origin};
pub use object_list::Objects;
