//! Pools whose words are taken one after the other and released back to a mark (RM 13.11.6).
#![tactic(auto)]

mod pool;

pub use pool::{MarkNo, MarkPool};
pub use raw_region::PoolFault;
