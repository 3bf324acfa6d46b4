//! What stands on the stacks of the machine: frames, masters, parts of objects, and the components that are left among those of a part.
#![tactic(auto)]

pub mod frame;
pub mod left;
pub mod outcome;
pub mod parts;
pub mod spots;
