//! Expressions, names and actual parameters.

use crate::operators::{BinaryOp, CopyStart, Shortcut, SubpoolFunction, UnaryOp};
use crate::types::{Ty, Var};
use sqlite_items::{Boxed, Items};

/// An expression (RM 4.4).
#[cycle(expression)]
#[derive(Drop)]
pub enum Expr {
    /// a literal, True, False, null or a bound of Integer, as a cell: a negative number counts down from 2 ** 64
    Constant(u64),
    /// the value of what a name denotes, and its type
    Read(Name, Ty),
    /// a call of a function, by its number, and the type of its result (RM 6.4)
    Call(usize, Items<Actual>, Ty),
    /// an operator, and the type of its result
    Unary(UnaryOp, Ty, Boxed<Expr>),
    /// operators of one precedence, applied from the left: the first operand, the first operator with its right operand, and those
    /// behind it
    Chain(Boxed<Expr>, Boxed<Operand>, Items<Operand>),
    /// operands joined by one short-circuit form, from the left: the first, the second, and those behind them
    Short(Shortcut, Boxed<Expr>, Boxed<Expr>, Items<Expr>),
    /// a conversion to a number type (RM 4.6)
    Convert(Ty, Boxed<Expr>),
    /// `X'Access` (RM 3.10.2)
    Access(Var),
    /// an allocator (RM 4.8): the access type, the type of the new object, the handle and the value
    New(usize, Ty, Option<Boxed<Expr>>, Option<Boxed<Expr>>),
    /// a call of a function on a mark pool
    Subpool(SubpoolFunction, Name),
    /// a discriminant of a pool, by its position from 0 (RM 3.7)
    Discriminant(Name, usize),
}

/// An operator of a chain with its right operand, and the type of the result.
#[cycle(expression)]
#[derive(Drop)]
pub struct Operand {
    pub op: BinaryOp,
    pub ty: Ty,
    pub right: Expr,
}

/// A name: what it begins with, and the steps from there to what it denotes (RM 4.1).
#[cycle(expression)]
#[derive(Drop)]
pub enum Name {
    Variable(Var, Items<Step>),
    /// the value of a function call, or of an access value that is converted
    Given(Boxed<Expr>, Items<Step>),
}

/// A selector, a dereference or a checked view.
#[derive(Clone, Copy)]
pub enum Step {
    /// the component of this record at a position, from 1 and with the inherited ones first (RM 4.1.3)
    Component(usize, usize),
    /// the object that an access value designates (RM 4.1)
    Dereference,
    /// the view of a class-wide object as a descendant, which is checked (RM 4.6)
    Narrow(usize),
}

/// An actual parameter (RM 6.4.1).
#[cycle(expression)]
#[derive(Drop)]
pub enum Actual {
    /// of mode `in`, and no record that a name denotes: the value, and its type
    ByValue(Expr, Ty),
    /// a record that a name denotes, by reference, and its type
    Part(Name, Ty),
    /// of mode `out` or `in out`, by copy: the variable, its type, and what the copy begins with
    Copied(Name, Ty, CopyStart),
}
