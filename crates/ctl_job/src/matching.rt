//! The words, matched against the command line.

ghost use Rattle.std.specs.Prelude.{◌≡◌, ◌≢◌, map, string_bytes, IfOk, IsErrOf};
ghost use Rattle.clap.specs.Words.{kind_of};
ghost use Rattle.clap.specs.declared.error.kind.ErrorKind.TheVariants.{OutOfMemory};
ghost use Rattle.ctl_job.specs.Asked.{IsMatched, IsRefused};
ghost use Rattle.ctl_job.specs.declared.job.UsageFault.TheVariants.{Usage};

use crate::job::UsageFault;
use crate::line::command_line;
use clap::error::ErrorKind;
use clap::{ArgMatches, Error};
use std::alloc::Global;

/// The names of the orders.
static ORDERS: [&str; 2] = ["newest", "oldest"];

/// Returns the fault for an error of a parse: `Memory` if it ran out of memory, `Usage` for words that the command
/// line does not take.
fn fault_of_error(error: &Error) -> UsageFault
    ensures { result ≡ Usage → kind_of error.now ≢ OutOfMemory }
{
    match error.kind() {
        ErrorKind::OutOfMemory => UsageFault::Memory,
        _ => UsageFault::Usage,
    }
}

/// Matches the words against the command line, and returns what they say.
///
/// # Errors
///
/// Returns `Usage` only if the command line does not take the words, and `Memory` if it runs out of memory.
pub fn matches_of<'a>(alloc: Global, words: &'a [String]) -> Result<ArgMatches<'a>, UsageFault>
    ensures ok { IfOk result (IsMatched (map string_bytes words.entry.now)) }
    ensures usage { IsErrOf result Usage → IsRefused (map string_bytes words.entry.now) }
{
    let Ok(command) = command_line(alloc, ORDERS.as_slice()) else {
        return Err(UsageFault::Memory);
    };
    match command.try_get_matches_from(words) {
        Ok(matches) => Ok(matches),
        Err(error) => Err(fault_of_error(&error)),
    }
}
