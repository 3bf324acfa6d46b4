//! Tests of regions, of the pools and of the finalization lists, by their public calls.
#![tactic(auto)]

#[cfg(test)]
mod areas;
#[cfg(test)]
mod blocks;
#[cfg(test)]
mod finalization;
#[cfg(test)]
mod growths;
#[cfg(test)]
mod marks;
#[cfg(test)]
mod regions;
#[cfg(test)]
mod script;
#[cfg(test)]
mod stores;
