//! What the tables of a code have under a number.

ghost use Rattle.std.specs.Prelude.{◌≡◌, slice_get};

use crate::code::{AccessHome, Code, Entry, Operations};

/// Answers what the body of a subprogram is, if it has one.
pub(crate) fn entry_at(code: &Code, number: usize) -> Option<Entry>
    ensures { result ≡ slice_get code.now.entries.items number }
{
    code.entries.get(number).copied()
}

/// Answers the operations of a record type, if there is one of this number.
pub(crate) fn operations_at(code: &Code, number: usize) -> Option<Operations>
    ensures { result ≡ slice_get code.now.records.items number }
{
    code.records.get(number).copied()
}

/// Answers where the collection of an access type stands, if there is one of this number.
pub(crate) fn access_home(code: &Code, number: usize) -> Option<AccessHome>
    ensures { result ≡ slice_get code.now.accesses.items number }
{
    code.accesses.get(number).copied()
}
