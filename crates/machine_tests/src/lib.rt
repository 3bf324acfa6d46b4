//! Tests the crates that hold the code and run it, each through its public calls.
#![tactic(auto)]

#[cfg(test)]
mod allocated;
#[cfg(test)]
mod code;
#[cfg(test)]
mod codes;
#[cfg(test)]
mod components;
#[cfg(test)]
mod controlled;
#[cfg(test)]
mod copied;
#[cfg(test)]
mod evaluated;
#[cfg(test)]
mod filled;
#[cfg(test)]
mod given;
#[cfg(test)]
mod machine;
#[cfg(test)]
mod marks;
#[cfg(test)]
mod rows;
#[cfg(test)]
mod runs;
#[cfg(test)]
mod tables;
#[cfg(test)]
mod windows;
#[cfg(test)]
mod words;
