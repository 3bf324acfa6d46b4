//! The allocated objects that are still to be finalized, in groups by their collections and record types.
#![tactic(auto)]

mod groups;
mod needs;

pub use groups::{Group, Groups, Start, Waiting};
pub use needs::{Need, needs_finalization};
