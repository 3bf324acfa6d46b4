//! Numbers that belong to owners, which contracts see as a finite map from numbers to owners.
#![tactic(auto)]

mod lists;
mod newest;
mod others;
mod owned;

pub use owned::OwnedNumbers;
