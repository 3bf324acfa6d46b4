//! Pools with their Blocks that are out, and the objects in these.
#![tactic(auto)]

mod block_area;
mod lot;
mod mark_area;
mod subpool;

pub use block_area::{BlockArea, Returned};
pub use lot::{Lot, Occupant};
pub use mark_area::MarkArea;
pub use subpool::{Standing, Subpool};
