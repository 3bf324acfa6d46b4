//! Statements, and the masters that they stand in.

use crate::expression::{Actual, Expr, Name};
use crate::operators::{Direction, Operation};
use crate::types::{Ty, Var};
use ctl_tree::text::Text;
use sqlite_items::{Boxed, Items};

/// A piece of a string expression (RM 4.5.3).
#[derive(Drop)]
pub enum Piece {
    /// a string literal
    Text(Text),
    /// `Integer'Image` (RM 3.5)
    IntegerImage(Expr),
    /// `Boolean'Image` (RM 3.5)
    BooleanImage(Expr),
}

/// The value of a discriminant: its position, from 0, and the expression (RM 3.7.1).
#[derive(Drop)]
pub struct Association {
    pub position: usize,
    pub value: Expr,
}

/// An item of a declarative part (RM 3.11).
#[derive(Drop)]
pub enum Item {
    /// the access types that are frozen before the next item: their collections are made here, and are one layer (RM 13.14, 7.6.1).
    /// The declaration of an access type counts here as an item that is elaborated
    Collections(Items<usize>),
    /// the declaration of an object: its slot, its type and its value (RM 3.3.1)
    Object(usize, Ty, Option<Expr>),
    /// the declaration of a pool object: its slot, its record type and its discriminants (RM 13.11)
    Pool(usize, usize, Items<Association>),
    /// a declaration that does nothing when it is elaborated, and that is no access type's: of a record type, a subprogram or its body,
    /// an instance, an exception
    Silent,
}

/// A statement (RM 5.1).
#[cycle(statement)]
#[derive(Drop)]
pub enum Stmt {
    Null,
    /// of a value that is no record (RM 5.2)
    Assign(Name, Expr),
    /// of a record of this type, the target's at its place (RM 5.2, 7.6)
    AssignRecord(Name, usize, Actual),
    /// a call of a procedure, by its number (RM 6.4)
    Call(usize, Items<Actual>),
    /// an explicit call of an operation of the library that does nothing
    Nothing(Name),
    /// an explicit call of an operation of a class-wide object, by the object's own type (RM 3.9.2)
    Dispatch(Operation, Name),
    /// the library's Allocate: the pool, the variable for the address, the size and the alignment (RM 13.11)
    LibraryAllocate(Name, Name, Expr, Expr),
    /// the library's Deallocate: the pool, the address, the size and the alignment (RM 13.11)
    LibraryDeallocate(Name, Expr, Expr, Expr),
    /// `Put` of a string (RM A.10.7)
    Put(Items<Piece>),
    /// `Put_Line` of a string (RM A.10.7)
    PutLine(Items<Piece>),
    /// `New_Line` (RM A.10.5)
    NewLine,
    /// with its condition (RM 5.7)
    Exit(Option<Expr>),
    /// with its value (RM 6.5)
    Return(Option<Expr>),
    /// of an exception, by its number (RM 11.3)
    Raise(usize),
    /// of the exception that is handled, again (RM 11.3)
    RaiseAgain,
    /// the arms, and the statements behind `else` (RM 5.3)
    If(Items<Arm>, Items<Stmt>),
    /// without an iteration scheme (RM 5.5)
    Loop(Items<Stmt>),
    While(Expr, Items<Stmt>),
    /// the loop parameter, the direction, and the bounds
    For(Var, Direction, Expr, Expr, Items<Stmt>),
    /// RM 5.6
    Block(Boxed<Master>),
    /// a call of an instance of Ada.Unchecked_Deallocation for this access type (RM 13.11.2)
    Free(usize, Name),
    /// a call of Ada.Unchecked_Deallocate_Subpool (RM 13.11.5)
    Release(Name),
}

/// A condition, and the statements that it guards (RM 5.3).
#[cycle(statement)]
#[derive(Drop)]
pub struct Arm {
    pub test: Expr,
    pub body: Items<Stmt>,
}

/// A block or a subprogram body (RM 7.6.1): its declarative part, its statements and its handlers.
#[cycle(statement)]
#[derive(Drop)]
pub struct Master {
    /// how many slots its declarations take, formals and loop parameters included
    pub slots: usize,
    pub items: Items<Item>,
    pub body: Items<Stmt>,
    pub handlers: Items<Handler>,
}

/// What a handler handles (RM 11.2).
#[derive(Drop)]
pub enum Choices {
    Others,
    /// these exceptions, by their numbers
    Exceptions(Items<usize>),
}

/// An exception handler (RM 11.2).
#[cycle(statement)]
#[derive(Drop)]
pub struct Handler {
    pub choices: Choices,
    pub body: Items<Stmt>,
}
