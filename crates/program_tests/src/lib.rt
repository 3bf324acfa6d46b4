//! Tests of the crates that make up the program through their public calls, where no text and no command line reaches what is tested.
#![tactic(auto)]

#[cfg(test)]
mod faults;
#[cfg(test)]
mod lex;
#[cfg(test)]
mod sinks;
#[cfg(test)]
mod tokens;
#[cfg(test)]
mod traces;
#[cfg(test)]
mod words;
