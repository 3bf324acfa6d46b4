//! The finalization lists: masters with their layers, and sets of objects (RM 7.6.1).
#![tactic(auto)]

mod group;
mod lists;
mod master;

pub use lists::{FinLists, Layer, MasterNo, SetNo};
