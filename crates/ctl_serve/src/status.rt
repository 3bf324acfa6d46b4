//! Exit statuses.

ghost use Rattle.std.specs.Prelude.{◌≡◌};
ghost use Rattle.ctl_serve.specs.Statuses.{end_status, exit_code, fault_status, usage_status};

use ctl_job::UsageFault;
use ctl_tree::ending::End;
use ctl_tree::fault::{Fault, FaultCode};

/// An exit status of the program.
#[derive(Clone, Copy, Debug, PartialEq, Eq)]
pub enum Status {
    /// the job was done
    Done = 0,
    /// an exception left the main procedure
    Raised = 1,
    /// the source text is refused
    Refused = 2,
    /// the run was stopped
    Stopped = 3,
    /// the limit of steps was reached
    StepLimit = 4,
    /// the host refused memory
    HostMemory = 5,
    /// the words of the command line are not what it takes
    Usage = 64,
    /// reading the file or writing the output failed
    InputOutput = 74,
}

impl Status {
    /// Returns the number that the program hands to its caller.
    pub fn code(self) -> u8
        ensures { result ≡ exit_code self }
    {
        self as u8
    }
}

/// Returns the status for words that ask for no job.
pub fn status_of_usage(fault: UsageFault) -> Status
    ensures { result ≡ usage_status fault }
{
    match fault {
        UsageFault::Usage => Status::Usage,
        UsageFault::Memory => Status::HostMemory,
    }
}

/// Returns the status for a run with this end.
pub fn status_of_end(end: &End) -> Status
    ensures { result ≡ end_status end.now }
{
    match end {
        End::Done => Status::Done,
        End::Raised(_) => Status::Raised,
        End::Stopped(_) => Status::Stopped,
        End::StepLimit => Status::StepLimit,
        End::HostMemory => Status::HostMemory,
    }
}

/// Returns the status for a source text with this fault.
pub fn status_of_fault(fault: Fault) -> Status
    ensures { result ≡ fault_status fault.code }
{
    match fault.code {
        FaultCode::Memory => Status::HostMemory,
        _ => Status::Refused,
    }
}
