//! Expressions (RM 4.4).

use crate::name::{Mark, Name};
use crate::operators::{LogicalOperator, Operand, RelationalOperator, UnaryOperator};
use ctl_tree::span::Span;
use ctl_tree::text::Text;
use sqlite_items::{Boxed, Items};

/// An expression, with the place of its first token (RM 4.4).
#[derive(Drop)]
pub enum Expression<U> {
    /// relations that one logical operator joins: the first, the second and those behind them (RM 4.5.1)
    Logical(
        Span,
        LogicalOperator,
        Boxed<Expression<U>>,
        Boxed<Expression<U>>,
        Items<Expression<U>>,
    ),
    /// a relation (RM 4.5.2)
    Relation(Span, RelationalOperator, Boxed<Expression<U>>, Boxed<Expression<U>>),
    /// terms of a sum, or factors of a term: the first, the second with its operator and those behind them, applied from the left
    /// (RM 4.5.3, 4.5.5)
    Chain(Span, Boxed<Expression<U>>, Boxed<Operand<Expression<U>>>, Items<Operand<Expression<U>>>),
    /// a sign before the first term of a sum, `abs` or `not` (RM 4.5.4, 4.5.6)
    Unary(Span, UnaryOperator, Boxed<Expression<U>>),
    Number(Span, u64),
    String(Span, Text),
    Null(Span),
    Name(Span, Name<U, Expression<U>>),
    Parentheses(Span, Boxed<Expression<U>>),
    /// an allocator: the handle, the type and the value (RM 4.8, 13.11.4)
    New(Span, Option<Boxed<Name<U, Expression<U>>>>, Mark<U>, Option<Boxed<Expression<U>>>),
}
