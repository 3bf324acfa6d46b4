//! Declarative parts, statements and bodies.

use crate::expression::Expression;
use crate::name::{Identifier, Mark, Name};
use ctl_tree::span::Span;
use sqlite_items::{Boxed, Items};

/// The library procedure with its context (RM 10.1.1).
#[derive(Drop)]
pub struct Tree<D, U> {
    pub contexts: Items<Context>,
    /// the place of `procedure`
    pub span: Span,
    pub name: D,
    pub body: Body<D, U>,
}

/// What a clause of the context does with its units.
#[derive(Clone, Copy)]
pub enum ContextKind {
    With,
    Use,
}

/// A with or use clause (RM 10.1.2, 8.4).
#[derive(Drop)]
pub struct Context {
    pub span: Span,
    pub kind: ContextKind,
    pub units: Items<Mark<Identifier>>,
}

/// A declarative part with the statements and handlers behind it: of a subprogram, or of a block (RM 3.11, 5.6, 6.3, 11.2).
#[cycle(part)]
#[derive(Drop)]
pub struct Body<D, U> {
    pub items: Items<Item<D, U>>,
    pub statements: Items<Statement<D, U>>,
    pub handlers: Items<Handler<Statement<D, U>, U>>,
}

/// What a handler handles (RM 11.2).
#[derive(Drop)]
pub enum Choices<U> {
    Others,
    Exceptions(Items<Mark<U>>),
}

/// An exception handler, with the place of its `when` (RM 11.2).
#[derive(Drop)]
pub struct Handler<S, U> {
    pub span: Span,
    pub choices: Choices<U>,
    pub statements: Items<S>,
}

/// How a parameter is passed (RM 6.2).
#[derive(Clone, Copy)]
pub enum Mode {
    In,
    Out,
    InOut,
}

/// Formal parameters of one mode and type (RM 6.1).
#[derive(Drop)]
pub struct Formal<D, U> {
    pub names: Items<D>,
    pub mode: Mode,
    pub mark: Mark<U>,
}

/// Whether `overriding` stands before a heading (RM 8.3.1).
#[derive(Clone, Copy)]
pub enum Indicator {
    Absent,
    Overriding,
}

/// The heading of a subprogram (RM 6.1): a function's has a result.
#[derive(Drop)]
pub struct Specification<D, U> {
    pub indicator: Indicator,
    /// the place of `procedure` or `function`
    pub span: Span,
    pub name: D,
    pub formals: Items<Formal<D, U>>,
    pub result: Option<Mark<U>>,
}

/// A discriminant or an actual of an instance: by position, or by name (RM 3.7.1, 12.3).
#[derive(Drop)]
pub struct Association<U> {
    pub name: Option<Identifier>,
    pub value: Expression<U>,
}

/// Components of one type (RM 3.8).
#[derive(Drop)]
pub struct Components<U> {
    pub names: Items<Identifier>,
    pub mark: Mark<U>,
    pub default: Option<Expression<U>>,
}

/// Whether a record type says `limited` (RM 7.5).
#[derive(Clone, Copy, PartialEq, Eq)]
pub enum Limitation {
    Nonlimited,
    Limited,
}

/// Whether an incomplete type says `is tagged` (RM 3.10.1).
#[derive(Clone, Copy)]
pub enum Taggedness {
    Unsaid,
    Tagged,
}

/// Whether an access type says `all` (RM 3.10).
#[derive(Clone, Copy)]
pub enum Generality {
    PoolSpecific,
    General,
}

/// Whether an access type designates one type, or each type of a class (RM 3.9, 3.10).
#[derive(Clone, Copy)]
pub enum Coverage {
    Specific,
    ClassWide,
}

/// The definition of a type (RM 3.2.1).
#[derive(Drop)]
pub enum Definition<U> {
    /// a record (RM 3.8)
    Record(Limitation, Items<Components<U>>),
    /// the parent, and the components that it adds (RM 3.9.1)
    Extension(Mark<U>, Items<Components<U>>),
    /// an access type: what it designates, and the pool of its aspect Storage_Pool (RM 3.10, 13.1.1, 13.11)
    Access(Generality, Mark<U>, Coverage, Option<Mark<U>>),
}

/// Objects of one type (RM 3.3.1).
#[derive(Drop)]
pub struct Objects<D, U> {
    pub names: Items<D>,
    pub aliasing: Aliasing,
    pub constancy: Constancy,
    pub mark: Mark<U>,
    pub discriminants: Items<Association<U>>,
    pub value: Option<Expression<U>>,
}

/// Whether objects say `aliased` (RM 3.10).
#[derive(Clone, Copy)]
pub enum Aliasing {
    Unaliased,
    Aliased,
}

/// Whether objects say `constant` (RM 3.3.1).
#[derive(Clone, Copy)]
pub enum Constancy {
    Variable,
    Constant,
}

/// An item of a declarative part, with the place of its first token (RM 3.11).
#[cycle(part)]
#[derive(Drop)]
pub struct Item<D, U> {
    pub span: Span,
    pub kind: ItemKind<D, U, Boxed<Body<D, U>>>,
}

/// An item of a declarative part, whose bodies are `B` (RM 3.11).
#[derive(Drop)]
pub enum ItemKind<D, U, B> {
    /// a subprogram's declaration (RM 6.1)
    Declaration(Specification<D, U>),
    /// a subprogram's body (RM 6.3)
    Body(Specification<D, U>, B),
    /// an instance of a generic procedure, with its actuals (RM 12.3)
    Instance(D, Mark<U>, Items<Association<U>>),
    /// an incomplete type (RM 3.10.1)
    Incomplete(D, Taggedness),
    /// a type with its definition (RM 3.2.1)
    Type(D, Definition<U>),
    /// `for T'Storage_Pool use P;`: the type, and the pool (RM 13.3, 13.11)
    StoragePool(U, Mark<U>),
    /// exceptions (RM 11.1)
    Exceptions(Items<D>),
    /// objects (RM 3.3.1)
    Objects(Objects<D, U>),
}

/// A condition, and the statements that it guards (RM 5.3).
#[derive(Drop)]
pub struct Branch<S, U> {
    pub condition: Expression<U>,
    pub statements: Items<S>,
}

/// Which way a loop goes through its range (RM 5.5).
#[derive(Clone, Copy)]
pub enum Direction {
    Upward,
    /// `reverse`
    Downward,
}

/// A statement, with the place of its first token (RM 5.1).
#[cycle(part)]
#[derive(Drop)]
pub enum Statement<D, U> {
    Null(Span),
    /// the target and the value (RM 5.2)
    Assignment(Span, Name<U, Expression<U>>, Expression<U>),
    /// a call of a procedure (RM 6.4)
    Call(Span, Name<U, Expression<U>>),
    /// an exit, and its condition (RM 5.7)
    Exit(Span, Option<Expression<U>>),
    /// a return, and the value (RM 6.5)
    Return(Span, Option<Expression<U>>),
    /// of an exception (RM 11.3)
    Raise(Span, Mark<U>),
    /// of the exception that is handled, again (RM 11.3)
    RaiseAgain(Span),
    /// the first condition with its statements, those of `elsif`, and the statements of `else` (RM 5.3)
    If(Span, Branch<Statement<D, U>, U>, Items<Branch<Statement<D, U>, U>>, Items<Statement<D, U>>),
    /// a loop without an iteration scheme (RM 5.5)
    Loop(Span, Items<Statement<D, U>>),
    While(Span, Expression<U>, Items<Statement<D, U>>),
    /// the parameter, the direction and the bounds (RM 5.5)
    For(Span, D, Direction, Expression<U>, Expression<U>, Items<Statement<D, U>>),
    /// a block (RM 5.6)
    Block(Span, Boxed<Body<D, U>>),
}
