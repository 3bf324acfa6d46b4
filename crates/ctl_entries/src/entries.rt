//! What the entries of a command line say: its file, what is shown, the order and the limit.

ghost use Rattle.std.specs.Prelude.{◌≡◌, ◌↔◌, Some, option_map, string_bytes, IfOk, IsTrue};
ghost use Rattle.clap.specs.Words.{first_of, found_of, rows_of};
ghost use Rattle.ctl_entries.specs.Entries.{file_in, IsLimitIn, IsOrderIn, IsShowIn};

use clap::ArgMatches;
use ctl_tree::request::{Order, Show};
use std::alloc::{AllocError, Global};

/// The limit on the machine steps of a run if the words name none.
const STEPS: u64 = 10_000_000;

/// Returns the value of an argument, or `None` if it has none.
fn value_of<'a>(entries: &ArgMatches<'a>, id: &str) -> Option<&'a str>
    ensures { option_map (λ value. value.now) result ≡ first_of id.now (rows_of (found_of entries.now)) }
{
    entries.get_str(id)
}

/// Returns whether an argument has this value.
fn has_value(entries: &ArgMatches<'_>, id: &str, wanted: &str) -> bool
    ensures { IsTrue result ↔ (first_of id.now (rows_of (found_of entries.now)) ≡ Some wanted.now) }
{
    match value_of(entries, id) {
        Some(value) => value == wanted,
        None => false,
    }
}

/// Returns the file.
pub fn file_of(alloc: Global, entries: &ArgMatches<'_>) -> Result<String, AllocError>
    ensures { IfOk result (λ file. string_bytes file ≡ file_in (rows_of (found_of entries.now))) }
{
    value_of(entries, "file").unwrap_or("").to_string(alloc)
}

/// Returns what is shown of the run: its trace if `--trace` is given, else its output.
pub fn show_of(entries: &ArgMatches<'_>) -> Show
    ensures { IsShowIn (rows_of (found_of entries.now)) result }
{
    if has_value(entries, "trace", "true") {
        Show::Trace
    } else {
        Show::Output
    }
}

/// Returns the order, newest if none is given.
pub fn order_of(entries: &ArgMatches<'_>) -> Order
    ensures { IsOrderIn (rows_of (found_of entries.now)) result }
{
    if has_value(entries, "order", "oldest") {
        Order::Oldest
    } else {
        Order::Newest
    }
}

/// Returns the limit on steps, `STEPS` if none is given.
pub fn steps_of(entries: &ArgMatches<'_>) -> u64
    ensures { IsLimitIn (rows_of (found_of entries.now)) result }
{
    match value_of(entries, "steps") {
        Some(text) => text.parse().unwrap_or(STEPS),
        None => STEPS,
    }
}
