//! Pools of blocks of one size, each in one region (RM 13.11). The free blocks are linked by their own first words.
#![tactic(auto)]

mod pool;

pub use pool::BlockPool;
pub use raw_region::PoolFault;
