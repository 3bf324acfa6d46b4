//! How a run ends.

use crate::text::Text;
use std::fmt;

/// Why a run was stopped: the program is erroneous at this point (RM 13.11.2, 13.11.4), and nothing more is done.
#[derive(Clone, Copy, Debug, PartialEq, Eq)]
pub enum Stop {
    /// use of an object that has ceased to exist, or of a pool that is closed
    UseAfterFree,
    /// an object that is being finalized is freed, or lies in a subpool that is released
    FreeWhileFinalizing,
    /// an object is freed that does not belong to the collection of the access type
    ForeignFree,
    /// an address that names no block that can be used so
    BadAddress,
    /// use of a subpool that was released
    ReleasedSubpool,
}

impl fmt::Display for Stop {
    fn fmt<W: fmt::Write>(&self, f: &mut fmt::Formatter<W>) -> fmt::Result {
        f.write_str(match self {
            Stop::UseAfterFree => "USE_AFTER_FREE",
            Stop::FreeWhileFinalizing => "FREE_WHILE_FINALIZING",
            Stop::ForeignFree => "FOREIGN_FREE",
            Stop::BadAddress => "BAD_ADDRESS",
            Stop::ReleasedSubpool => "RELEASED_SUBPOOL",
        })
    }
}

/// How a run ends.
#[derive(Drop, Debug)]
pub enum End {
    /// the main procedure was left normally
    Done,
    /// an exception of this name left the main procedure
    Raised(Text),
    Stopped(Stop),
    /// as many steps were taken as the limit allows
    StepLimit,
    /// the host refused memory
    HostMemory,
}
