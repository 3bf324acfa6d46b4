//! The program as far as it was checked, and what stands around a statement or an item.

use crate::names::Names;
use ctl_program::operators::SubprogramKind;
use ctl_program::statement::Master;
use ctl_program::types::{Component, Ty};
use ctl_syntax::denoted::OperationName;
use ctl_syntax::item::Limitation;
use ctl_tree::span::Span;
use ctl_tree::text::Text;
use ctl_typing::notes::{Deed, Notes};
use ctl_typing::table::{ComponentEntry, Tables};
use sqlite_items::Items;

/// A declared object that stands before a body of its part, where what it calls is not known yet (RM 3.11).
#[derive(Drop)]
pub struct Waiting {
    pub span: Span,
    pub ty: Ty,
    /// what its value and its discriminants do
    pub deeds: Items<Deed>,
}

/// Whether the subprogram body around has a return (RM 6.5).
#[derive(Clone, Copy)]
pub enum Returning {
    Nowhere,
    Somewhere,
}

/// A subprogram, whose body may not have come yet.
#[derive(Drop)]
pub struct Routine {
    /// how many masters stand around its declaration
    pub level: usize,
    pub kind: SubprogramKind,
    pub body: Option<Master>,
}

/// The program as far as it was checked.
#[derive(Drop)]
pub struct Draft {
    pub tables: Tables,
    /// the components that each record type does not inherit, with their defaults, where all of them are known
    pub components: Items<Option<Items<Component>>>,
    pub subprograms: Items<Routine>,
    pub exceptions: Items<Text>,
    /// the types of what the declarations of the master around hold, by their slots
    pub slots: Items<Ty>,
    pub returning: Returning,
    /// of the parts around
    pub waiting: Items<Waiting>,
    /// the components of the record type that is being declared
    pub own: Items<ComponentEntry>,
    /// the names of these, and of those that are wrong themselves
    pub own_names: Names,
    pub notes: Notes,
}

/// Whether a loop stands around in the same body (RM 5.7).
#[derive(Clone, Copy)]
pub enum Looping {
    Outside,
    Inside,
}

/// Whether a handler stands around in the same body (RM 11.3).
#[derive(Clone, Copy)]
pub enum Handling {
    Outside,
    Inside,
}

/// What a return of the body around gives (RM 6.5).
#[derive(Clone, Copy, PartialEq, Eq)]
pub enum Giving {
    Nothing,
    Value(Ty),
    /// a value whose type is wrong itself
    Unclear,
}

/// What stands around a statement or an item.
#[derive(Clone, Copy)]
pub struct Around {
    /// how many masters stand around
    pub level: usize,
    /// how many declarations were in view where the part around begins
    pub start: usize,
    /// how many subprograms there were where the part around begins
    pub first_subprogram: usize,
    /// how many record types there were where the part around begins
    pub first_record: usize,
    /// how many access types there were where the part around begins
    pub first_access: usize,
    pub looping: Looping,
    pub handling: Handling,
    pub giving: Giving,
}

/// What a subprogram is to the operations of a type (RM 3.2.3, 8.3.1).
#[derive(Clone, Copy)]
pub enum Role {
    Plain,
    /// it overrides this operation of this record type
    Overrides(OperationName, usize),
    /// it says that it overrides, or is named so, and does not
    Misplaced,
}

/// Whether a body of its part stands behind an item (RM 3.11, profile).
#[derive(Clone, Copy)]
pub enum Order {
    BeforeBody,
    BehindBodies,
}

/// What stands around the components of a record type (RM 3.8, 3.9.1).
#[derive(Clone, Copy)]
pub struct Enclosing {
    /// where the item of the type begins
    pub place: Span,
    /// the number of its declaration
    pub number: usize,
    pub parent: Option<usize>,
    /// whether the parent is limited; a type without one is what its components make it
    pub limitation: Option<Limitation>,
}
