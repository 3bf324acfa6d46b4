//! What a run comes to.

use ctl_tree::ending::End;
use ctl_tree::event::Event;

/// Whether a machine goes on.
#[derive(Clone, Copy, Debug)]
pub enum Progress {
    Running,
    Ended,
}

/// What a run has shown, the choices that it took, its end, and how many steps it took.
#[derive(Drop)]
pub struct Outcome {
    pub events: Vec<Event>,
    /// among the candidates of each choice, in the order in which they were made, the number of the one that was taken, from 0
    pub picks: Vec<u64>,
    pub end: End,
    /// the steps taken; one that was refused memory does not count
    pub steps: u64,
}
