//! Which fault a test means.

use ctl_tree::fault::{Fault, FaultCode};

/// Says whether this is the fault of this code in this column of the first line.
pub(crate) fn is_fault(fault: Option<Fault>, code: FaultCode, column: usize) -> bool {
    match fault {
        Some(fault) => {
            fault
                == Fault {
                    code,
                    line: 1,
                    column,
                }
        }
        None => false,
    }
}
