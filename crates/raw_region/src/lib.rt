//! Regions of 64-bit words, each in one allocation, from which runs of words can be cut out as Blocks and brought back.
#![tactic(auto)]

mod allocation;
mod block;
mod fault;
mod holding;
mod region;

pub use block::Block;
pub use fault::PoolFault;
pub use region::RawRegion;
