ghost use Rattle.std.specs.Prelude.{◌≡◌};
ghost use Rattle.pool_store.specs.Fault.{code_of};

use std::alloc::AllocError;
use thiserror::Error;

/// The reason why a call of the store was refused.
#[derive(Clone, Copy, Debug, PartialEq, Eq, Error)]
pub enum StoreFault {
    /// No block is free or none is large enough, or a pool with marks has fewer storage units left.
    #[error("the pool is exhausted")]
    Exhausted,
    /// No block that holds no object is out under this address, or it is too small.
    #[error("the address names no vacant block of this pool")]
    BadAddress,
    /// No object of this number is held.
    #[error("the object is gone")]
    Gone,
    /// The subpool is not the last one of its pool.
    #[error("the subpool is not the last of its pool")]
    NotTop,
    /// The subpool does not belong to the pool (RM 13.11.4).
    #[error("the subpool does not belong to the pool")]
    Foreign,
    /// Ten subpools stand in the pool.
    #[error("the pool has ten subpools")]
    TooManyMarks,
    /// The subpool belongs to no pool, or stands in none (RM 13.11.5).
    #[error("the subpool is released")]
    Released,
    /// The allocator refused the memory.
    #[error("out of memory")]
    Memory,
}

impl StoreFault {
    /// Returns the fault's number: 60 for a pool that is exhausted, 61 for a subpool that is not the last, 62 for one
    /// of another pool, 63 for a bad address, 64 for an object that is gone, 65 for an eleventh subpool, 66 for a
    /// subpool that is released, 9 for memory that was refused.
    pub fn code(self) -> u32
        ensures { result ≡ code_of self }
    {
        match self {
            StoreFault::Exhausted => 60,
            StoreFault::BadAddress => 63,
            StoreFault::Gone => 64,
            StoreFault::NotTop => 61,
            StoreFault::Foreign => 62,
            StoreFault::TooManyMarks => 65,
            StoreFault::Released => 66,
            StoreFault::Memory => 9,
        }
    }
}

impl From<AllocError> for StoreFault {
    ghost use Rattle.std.specs.Prelude.{◌≡◌};
    ghost use Rattle.pool_store.specs.declared.fault.StoreFault.TheVariants.{Memory};

    ghost from_gives = { λ _ fault. fault ≡ Memory };

    fn from(_refused: AllocError) -> StoreFault {
        Self::Memory
    }
}
