//! What a run shows.

use crate::text::{Path, Text};
use std::fmt;

/// A part of an object: the object's number, and the way to the part (the object itself where it is empty).
#[derive(Drop, Debug)]
pub struct Part {
    pub object: u64,
    pub path: Path,
}

/// What an object belongs to: the master that declares it, or the collection that it was allocated for.
#[derive(Clone, Copy, Debug, PartialEq, Eq)]
pub enum Owner {
    Master(u64),
    Collection(u64),
}

/// Why a part is finalized (RM 7.6.1, 13.11.2, 13.11.5).
#[derive(Clone, Copy, Debug, PartialEq, Eq)]
pub enum Cause {
    /// its master is left
    Scope,
    /// its collection is finalized
    Collection,
    /// an instance of Unchecked_Deallocation frees it
    Free,
    /// its subpool is released
    Subpool,
    /// it is the target of an assignment
    Assign,
    /// the creation of the object around it failed
    Failed,
}

impl fmt::Display for Cause {
    fn fmt<W: fmt::Write>(&self, f: &mut fmt::Formatter<W>) -> fmt::Result {
        f.write_str(match self {
            Cause::Scope => "scope",
            Cause::Collection => "collection",
            Cause::Free => "free",
            Cause::Subpool => "subpool",
            Cause::Assign => "assign",
            Cause::Failed => "failed",
        })
    }
}

/// One thing that a run shows. The calls are those that the rules of the language make of operations that the user wrote.
#[derive(Drop, Debug)]
pub enum Event {
    /// the program prints these bytes
    Print(Text),
    /// the program ends a line
    Newline,
    Initialize(Part),
    Adjust(Part),
    Finalize(Part, Cause),
    /// storage is asked of a pool: the pool's object number and the size in storage units
    Allocate(u64, u64),
    /// storage is given back to a pool: the pool's object number and the size in storage units
    Deallocate(u64, u64),
    /// a part with a user-written Finalize has come to life
    Live(Part, Owner),
}
