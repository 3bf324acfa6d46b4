//! What a user asks of a run.

/// How the choices that the manual leaves open are made, among candidates in the order of their numbers or positions.
#[derive(Clone, Copy, Debug, PartialEq, Eq)]
pub enum Order {
    /// always the last candidate
    Newest,
    /// always the first candidate
    Oldest,
}

/// What is written of a run.
#[derive(Clone, Copy, Debug, PartialEq, Eq)]
pub enum Show {
    /// what the program prints
    Output,
    /// each event and the end, a line each
    Trace,
}
