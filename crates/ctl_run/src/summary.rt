//! Summaries of runs whose text has been written, and the reasons why one was not.

use ctl_frames::outcome::Outcome;
use ctl_tree::ending::End;
use ctl_tree::fault::Fault;
use thiserror::Error;

/// The summary of a run whose text has been written.
#[derive(Drop, Debug)]
pub struct Summary {
    /// the picks that the run took, in their order
    pub picks: Vec<u64>,
    pub end: End,
    /// how many machine steps were taken
    pub steps: u64,
}

impl From<Outcome> for Summary {
    ghost use Rattle.ctl_run.specs.Headline.{account_of};
    ghost use Rattle.ctl_run.specs.Shown.{Summarizes};

    ghost from_gives = { λ outcome summary. Summarizes (account_of outcome) summary };

    fn from(outcome: Outcome) -> Summary {
        Summary {
            picks: outcome.picks,
            end: outcome.end,
            steps: outcome.steps,
        }
    }
}

/// The reason why the text of a run was not written whole.
#[derive(Clone, Copy, Debug, PartialEq, Eq, Error)]
pub enum RunFault {
    /// the source text is refused, or the host refused memory; nothing was written
    #[error("{0}")]
    Refused(Fault),
    /// the sink failed; what it took is a prefix of the text
    #[error("write failed")]
    Write,
}

impl From<Fault> for RunFault {
    ghost use Rattle.std.specs.Prelude.{◌≡◌};
    ghost use Rattle.ctl_run.specs.declared.summary.RunFault.TheVariants.{Refused};

    ghost from_gives = { λ fault given. given ≡ Refused fault };

    fn from(fault: Fault) -> RunFault {
        RunFault::Refused(fault)
    }
}
