//! What the freeing of an object is about (RM 13.11.2): what becomes of it, what becomes null, and where its storage goes.

use ctl_frames::frame::{Ended, Storage};
use ctl_tree::ending::Stop;

/// What becomes of an object that is to be freed.
#[derive(Clone, Copy)]
pub enum Fate {
    /// it stays, and the program is erroneous
    Stops(Stop),
    /// it goes as it is
    Goes,
    /// it is finalized before, as an object of this record type
    Finalizes(usize),
}

/// What was found of an object that is to be freed: what becomes of it, and its storage (RM 13.11).
#[derive(Clone, Copy)]
pub struct Found {
    pub fate: Fate,
    pub storage: Storage,
}

/// An object that an instruction frees: its number, its storage, and the place of the instruction (RM 13.11.2).
#[derive(Clone, Copy)]
pub struct Release {
    pub object: u64,
    pub storage: Storage,
    pub place: usize,
}

/// A component that becomes null: the number of its object, the first cell of the part that has it, and how much further it is.
#[derive(Clone, Copy)]
pub struct Component {
    pub object: u64,
    pub start: usize,
    pub offset: usize,
}

/// How the freeing of an object goes on once it is gone: how its finalization ended, its storage, and the place where that goes on if a
/// Finalize failed, or else the next one (RM 13.11.2).
#[derive(Clone, Copy)]
pub struct Ending {
    pub ended: Ended,
    pub storage: Storage,
    pub place: usize,
}

/// The Deallocate that the user wrote for the type of a pool: the number of the pool object, the address of the block that is given back, and
/// the number of the body (RM 13.11).
#[derive(Clone, Copy)]
pub struct Deallocation {
    pub pool: u64,
    pub address: u64,
    pub body: usize,
}

/// What comes of storage that is given back (RM 13.11.2).
#[derive(Clone, Copy)]
pub enum GivenBack {
    /// it is taken back, or it is the host's
    Accepted,
    /// it stays, and the program is erroneous
    Stops(Stop),
    /// the Deallocate of its pool is called
    Calls(Deallocation),
}
