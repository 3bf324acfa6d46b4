//! For objects of which types something is executed as they are created (RM 3.3.1, 7.6).

ghost use Rattle.std.specs.Prelude.{◌≡◌};
ghost use Rattle.ctl_code.specs.Table as Table;
ghost use Rattle.ctl_frames.specs.Needs.{type_begun};

use ctl_code::code::{Code, Parts};
use ctl_frames::parts::{count_begun, parts_of};
use ctl_program::types::Ty;

/// Tells whether nothing is executed for the creation of an object of a record type: no part of it is controlled, and no component begins
/// with something (RM 3.3.1, 7.6).
#[inline(always)]
pub fn is_made_at_once(code: &Code, record: usize) -> bool
    ensures { result ≡ Table.is_made_at_once (Table.parts_of code.now «record») (Table.begun_of code.now «record») }
{
    match parts_of(code, record) {
        Parts::Plain => count_begun(code, record) == 0,
        _ => false,
    }
}

/// Answers the record type of the objects of a type, if something is executed for their creation (RM 3.3.1, 7.6); nothing is for those that
/// are no records.
#[inline(always)]
pub fn type_begun(code: &Code, of: Ty) -> Option<usize>
    ensures { result ≡ type_begun code.now of }
{
    match of {
        Ty::Record(record) => {
            if is_made_at_once(code, record) {
                None
            } else {
                Some(record)
            }
        }
        _ => None,
    }
}
