//! The jobs of the program.

use ctl_tree::request::{Order, Show};
use std::alloc::AllocError;
use thiserror::Error;

/// A job of the program.
#[derive(Debug, PartialEq, Eq, Drop)]
pub enum Job {
    /// to check the source text in this file
    Check {
        file: String,
    },
    /// to run the program in this file, by at most `steps` machine steps
    Run {
        file: String,
        show: Show,
        order: Order,
        steps: u64,
    },
}

/// The reason why the words of a command line give no job.
#[derive(Clone, Copy, Debug, PartialEq, Eq, Error)]
pub enum UsageFault {
    /// the words are not what the command line takes
    #[error("usage")]
    Usage,
    /// the host refused memory
    #[error("host memory")]
    Memory,
}

impl From<AllocError> for UsageFault {
    ghost use Rattle.std.specs.Prelude.{◌≡◌};
    ghost use Rattle.ctl_job.specs.declared.job.UsageFault.TheVariants.{Memory};

    ghost from_gives = { λ _ fault. fault ≡ Memory };

    fn from(_e: AllocError) -> UsageFault {
        UsageFault::Memory
    }
}
