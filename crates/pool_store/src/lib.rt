//! The object store: objects by number, with their words, in the standard pool, in blocks and in subpools (RM 13.11).
#![tactic(auto)]

mod block_store;
mod cell;
mod closing;
mod entry;
mod fault;
mod forgetting;
mod kind;
mod mark_store;
mod object;
mod spots;
mod store;

pub use block_store::Address;
pub use entry::Spot;
pub use fault::StoreFault;
pub use kind::PoolKind;
pub use pool_area::Standing;
pub use store::{PoolStore, SubpoolNo};
