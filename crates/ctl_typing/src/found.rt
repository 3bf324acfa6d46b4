//! What an expression's place asks, and what a name is as far as it was read.

use crate::table::Mutability;
use ctl_program::expression::{Expr, Step};
use ctl_program::operators::SubpoolFunction;
use ctl_program::types::{Ty, Var};
use ctl_syntax::item::Aliasing;
use sqlite_items::Items;

/// What the place of an expression asks of its type.
#[derive(Clone, Copy)]
pub enum Asked {
    Anything,
    /// this type
    Exactly(Ty),
    /// a number: what arithmetic takes
    Number,
    /// a type with an order
    Ordered,
    /// a type with equality
    Comparable,
}

/// Which types an expression takes on from its place.
#[derive(Clone, Copy)]
pub enum Adopts {
    /// none: it has one of its own
    Nothing,
    /// any number type: a literal, and operations on literals alone (profile)
    Numbers,
    /// any access type, and that of handles: null
    Accesses,
}

/// An expression with its type.
#[derive(Drop)]
pub struct Typed {
    pub ty: Ty,
    pub value: Expr,
}

/// What a name begins with.
#[derive(Drop)]
pub enum Head {
    At(Var),
    /// the value of a call, or of a converted access value
    Given(Expr),
}

/// A part of what a name begins with.
#[derive(Drop)]
pub struct Place {
    pub head: Head,
    pub steps: Items<Step>,
    pub ty: Ty,
    pub mutability: Mutability,
    pub aliasing: Aliasing,
}

/// What a name is, as far as it was read.
#[derive(Drop)]
pub enum Found {
    Part(Place),
    TypeName(Ty),
    /// a subprogram, by the number of its declaration
    Callable(usize),
    /// a value that has no parts
    Computed(Typed),
    Subpools(SubpoolFunction),
    /// the attribute Image of this type, whose argument has not come yet
    Image(Ty),
    /// the image of this value: a string
    Imaged(Typed),
    /// a discriminant of a pool, by its position from 0
    Discriminant(Place, usize),
    /// the view of a record as its ancestor
    View(Place),
    /// `X'Access` of a variable of this record type
    Accessed(Var, Ty),
}

/// Lets go of what a name is, by a call for each part: what goes out of scope by itself is taken apart where it stands, which makes a
/// proof of its own there.
pub fn discard(found: Found) {
    match found {
        Found::Part(part) | Found::Discriminant(part, _) | Found::View(part) => drop(part),
        Found::Computed(typed) | Found::Imaged(typed) => drop(typed),
        Found::TypeName(_)
        | Found::Callable(_)
        | Found::Subpools(_)
        | Found::Image(_)
        | Found::Accessed(_, _) => {}
    }
}
