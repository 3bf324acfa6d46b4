//! Identifiers, marks and names.

use ctl_tree::span::Span;
use ctl_tree::text::Text;
use sqlite_items::Items;

/// An identifier where it stands, as it is written. Case does not count (RM 2.3).
#[derive(Drop)]
pub struct Identifier {
    pub text: Text,
    pub span: Span,
}

/// A name of identifiers alone, as `Ada.Text_IO`: what its beginning is or denotes, and the identifiers behind that.
#[derive(Drop)]
pub struct Mark<U> {
    pub first: U,
    pub rest: Items<Identifier>,
}

/// A name that may be selected, dereferenced, called and so on (RM 4.1), with expressions `E` as arguments.
#[derive(Drop)]
pub struct Name<U, E> {
    pub first: U,
    pub suffixes: Items<Suffix<E>>,
}

/// What stands behind the beginning of a name (RM 4.1).
#[derive(Drop)]
pub enum Suffix<E> {
    /// `.X`
    Selector(Identifier),
    /// `.all`, and the place of `all`
    All(Span),
    /// `(..)`: the place of the parenthesis, the first expression and the others
    Arguments(Span, E, Items<E>),
    /// an attribute: its place, and which one
    Attribute(Span, Attribute),
}

/// The attributes of the subset (RM 3.5, 3.10.2).
#[derive(Clone, Copy)]
pub enum Attribute {
    Access,
    Image,
    First,
    Last,
}
