//! Subprograms, and the program.

use crate::operators::SubprogramKind;
use crate::statement::Master;
use crate::types::{AccessType, RecordType};
use ctl_tree::text::Text;
use sqlite_items::Items;

/// A subprogram. Its formals have the first slots of its body.
#[derive(Drop)]
pub struct Subprogram {
    /// how many masters stand around its declaration
    pub level: usize,
    pub kind: SubprogramKind,
    pub body: Master,
}

/// A program.
#[derive(Drop)]
pub struct Checked {
    /// the names, the first three of them Constraint_Error, Program_Error and Storage_Error
    pub exceptions: Items<Text>,
    /// the record types, those of the library among them
    pub records: Items<RecordType>,
    pub accesses: Items<AccessType>,
    pub subprograms: Items<Subprogram>,
    /// the number of the main procedure
    pub main: usize,
}
