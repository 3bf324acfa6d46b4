//! The types that the stages of adactl hand to one another, trees and programs apart: tokens, texts, the events of a run and how it
//! ends, what a user asks for, and faults with their places.
#![tactic(auto)]

pub mod ending;
pub mod event;
pub mod fault;
pub mod request;
pub mod span;
pub mod text;
pub mod token;
