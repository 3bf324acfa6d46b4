//! Maps from numbers to values, which contracts see as finite maps.
#![tactic(auto)]

mod map;
mod newest;

pub use map::NumberMap;
