ghost use Rattle.std.specs.Prelude.{◌≡◌};
ghost use Rattle.raw_region.specs.Fault.{code_of};

use std::alloc::AllocError;
use thiserror::Error;

/// The reason why a pool over a region was not opened.
#[derive(Clone, Copy, Debug, PartialEq, Eq, Error)]
pub enum PoolFault {
    /// A size is out of the range that such a pool allows.
    #[error("the pool's size is out of range")]
    Size,
    /// The allocator refused the memory.
    #[error("out of memory")]
    Memory,
}

impl PoolFault {
    /// Returns the fault's number: 50 for a size out of range, 9 for memory that was refused.
    pub fn code(self) -> u32
        ensures { result ≡ code_of self }
    {
        match self {
            PoolFault::Size => 50,
            PoolFault::Memory => 9,
        }
    }
}

impl From<AllocError> for PoolFault {
    ghost use Rattle.std.specs.Prelude.{◌≡◌};
    ghost use Rattle.raw_region.specs.declared.fault.PoolFault.TheVariants.{Memory};

    ghost from_gives = { λ _ fault. fault ≡ Memory };

    fn from(_refused: AllocError) -> PoolFault {
        Self::Memory
    }
}
