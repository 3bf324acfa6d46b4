//! The job that the entries of a command line ask for.

ghost use Rattle.std.specs.Prelude.{◌≡◌, ◌⊎◌, codes, map, string_bytes, IfOk, IsErrOf};
ghost use Rattle.clap.specs.Words.{found_of, rows_of};
ghost use Rattle.ctl_job.specs.Asked.{Asks, IsRefused};
ghost use Rattle.ctl_job.specs.Entries.{AsksBy, AsksToCheck, AsksToRun};
ghost use Rattle.ctl_job.specs.declared.job.UsageFault.TheVariants.{Usage};

use crate::job::{Job, UsageFault};
use crate::matching::matches_of;
use clap::ArgMatches;
use ctl_entries::entries::{file_of, order_of, show_of, steps_of};
use std::alloc::{AllocError, Global};

/// Returns the job that `check` asks for.
fn check_of(alloc: Global, entries: &ArgMatches<'_>) -> Result<Job, AllocError>
    ensures { IfOk result (AsksToCheck (rows_of (found_of entries.now))) }
{
    Ok(Job::Check {
        file: file_of(alloc, entries)?,
    })
}

/// Returns the job that `run` asks for.
fn run_of(alloc: Global, entries: &ArgMatches<'_>) -> Result<Job, AllocError>
    ensures { IfOk result (AsksToRun (rows_of (found_of entries.now))) }
{
    Ok(Job::Run {
        file: file_of(alloc, entries)?,
        show: show_of(entries),
        order: order_of(entries),
        steps: steps_of(entries),
    })
}

/// Returns the job that the entries of the subcommand with this name ask for.
fn job_by(alloc: Global, name: &str, entries: &ArgMatches<'_>) -> Result<Job, AllocError>
    requires { (name.now ≡ codes "check") ⊎ (name.now ≡ codes "run") }
    ensures { IfOk result (AsksBy name.now (rows_of (found_of entries.now))) }
{
    if name == "check" {
        check_of(alloc, entries)
    } else {
        run_of(alloc, entries)
    }
}

/// Returns the job that these words ask for, those after the program's name: `check FILE`, or
/// `run FILE [--trace] [--order newest|oldest] [--steps N]`.
///
/// # Errors
///
/// Returns `Usage` only if the words are none of these, as with `--help`, and `Memory` if it runs out of memory.
pub fn job_of(alloc: Global, words: &[String]) -> Result<Job, UsageFault>
    ensures job { IfOk result (Asks (map string_bytes words.now)) }
    ensures usage { IsErrOf result Usage → IsRefused (map string_bytes words.now) }
{
    let matches = matches_of(alloc, words)?;
    let Some((name, entries)) = matches.subcommand() else {
        return Err(UsageFault::Usage);
    };
    Ok(job_by(alloc, name, entries)?)
}
