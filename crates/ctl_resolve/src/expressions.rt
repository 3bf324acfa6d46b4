//! Names in expressions (RM 4.1, 4.4, 4.8).

ghost use Rattle.std.specs.Prelude.{◌≡◌, [], drop};
ghost use Rattle.ctl_resolve.specs.Naming.{Names, each, optional};
ghost use Rattle.ctl_resolve.specs.Expressions as spec;
ghost use Rattle.ctl_resolve.specs.declared.view.Usage.TheVariants as usage;
ghost use Rattle.ctl_syntax.specs.declared.expression.Expression.TheVariants as e;
ghost use Rattle.ctl_syntax.specs.declared.name.Suffix.TheVariants as s;

use crate::copies::{identifier, leading};
use crate::lists::{added, room_for};
use crate::names::{mark, used};
use crate::pairs::paired;
use crate::view::{Usage, View};
use ctl_syntax::denoted::Use;
use ctl_syntax::expression::Expression;
use ctl_syntax::name::{Identifier, Name, Suffix};
use ctl_syntax::operators::{LogicalOperator, Operand, RelationalOperator};
use ctl_tree::span::Span;
use sqlite_items::{Boxed, Items};
use std::alloc::{AllocError, Global};

/// Resolves the names in an expression.
#[cycle(expression)]
pub fn expression(
    alloc: Global,
    view: &mut View,
    of: &Expression<Identifier>,
) -> Result<Expression<Use>, AllocError>
    ensures { Names (spec.expression of.now) view.old result view.new }
{
    match of {
        Expression::Logical(at, operator, first, second, more) => {
            logical(alloc, view, *at, *operator, first, second, more)
        }
        Expression::Relation(at, operator, left, right) => {
            relation(alloc, view, *at, *operator, left, right)
        }
        Expression::Chain(at, first, second, more) => chain(alloc, view, *at, first, second, more),
        Expression::Unary(at, operator, inner) => {
            let inner = boxed(alloc, view, inner)?;
            Ok(Expression::Unary(*at, *operator, inner))
        }
        Expression::Number(at, value) => Ok(Expression::Number(*at, *value)),
        Expression::String(at, text) => {
            let text = text.copied(alloc)?;
            Ok(Expression::String(*at, text))
        }
        Expression::Null(at) => Ok(Expression::Null(*at)),
        Expression::Name(at, of) => {
            let name = name(alloc, view, of)?;
            Ok(Expression::Name(*at, name))
        }
        Expression::Parentheses(at, inner) => {
            let inner = boxed(alloc, view, inner)?;
            Ok(Expression::Parentheses(*at, inner))
        }
        Expression::New(at, handle, of, value) => {
            let handle = handle_or_none(alloc, view, handle)?;
            let mark = mark(alloc, view, Usage::Plain, of)?;
            let value = value_or_none(alloc, view, value)?;
            Ok(Expression::New(*at, handle, mark, value))
        }
    }
}

/// Resolves the names in relations that a logical operator joins (RM 4.5.1).
#[cycle(expression)]
fn logical(
    alloc: Global,
    view: &mut View,
    at: Span,
    operator: LogicalOperator,
    first: &Boxed<Expression<Identifier>>,
    second: &Boxed<Expression<Identifier>>,
    more: &Items<Expression<Identifier>>,
) -> Result<Expression<Use>, AllocError>
    ensures { Names (spec.expression (e.Logical at operator first.now second.now more.now)) view.old result view.new }
{
    let first = boxed(alloc, view, first)?;
    let both = paired(first, boxed(alloc, view, second))?;
    let (both, more) = paired(both, expressions(alloc, view, more.as_slice()))?;
    let (first, second) = both;
    Ok(Expression::Logical(at, operator, first, second, more))
}

/// Resolves the names in a relation (RM 4.5.2).
#[cycle(expression)]
fn relation(
    alloc: Global,
    view: &mut View,
    at: Span,
    operator: RelationalOperator,
    left: &Boxed<Expression<Identifier>>,
    right: &Boxed<Expression<Identifier>>,
) -> Result<Expression<Use>, AllocError>
    ensures { Names (spec.expression (e.Relation at operator left.now right.now)) view.old result view.new }
{
    let left = boxed(alloc, view, left)?;
    let right = boxed(alloc, view, right)?;
    Ok(Expression::Relation(at, operator, left, right))
}

/// Resolves the names in the terms of a sum, or in the factors of a term (RM 4.5.3, 4.5.5).
#[cycle(expression)]
fn chain(
    alloc: Global,
    view: &mut View,
    at: Span,
    first: &Boxed<Expression<Identifier>>,
    second: &Boxed<Operand<Expression<Identifier>>>,
    more: &Items<Operand<Expression<Identifier>>>,
) -> Result<Expression<Use>, AllocError>
    ensures { Names (spec.expression (e.Chain at first.now second.now more.now)) view.old result view.new }
{
    let first = boxed(alloc, view, first)?;
    let both = paired(first, boxed_operand(alloc, view, second))?;
    let (both, more) = paired(both, operands(alloc, view, more.as_slice()))?;
    let (first, second) = both;
    Ok(Expression::Chain(at, first, second, more))
}

/// Resolves the names in a part of an expression.
#[cycle(expression)]
fn boxed(
    alloc: Global,
    view: &mut View,
    of: &Boxed<Expression<Identifier>>,
) -> Result<Boxed<Expression<Use>>, AllocError>
    ensures { Names (spec.expression of.now) view.old result view.new }
{
    let resolved = expression(alloc, view, of.get())?;
    Boxed::new(alloc, resolved)
}

/// Resolves the names in expressions, each in turn.
#[cycle(expression)]
fn expressions(
    alloc: Global,
    view: &mut View,
    all: &[Expression<Identifier>],
) -> Result<Items<Expression<Use>>, AllocError>
    ensures { Names (each spec.expression [] all.now) view.old result view.new }
{
    let mut resolved = room_for(alloc, all.len())?;
    for one in all {
        resolved = added(resolved, expression(alloc, view, one))?;
    }
    Ok(resolved)
}

/// Resolves the names in an operand.
#[cycle(expression)]
fn operand(
    alloc: Global,
    view: &mut View,
    of: &Operand<Expression<Identifier>>,
) -> Result<Operand<Expression<Use>>, AllocError>
    ensures { Names (spec.named_operand of.now) view.old result view.new }
{
    let resolved = expression(alloc, view, &of.operand)?;
    Ok(Operand {
        operator: of.operator,
        operand: resolved,
    })
}

/// Resolves the names in the second operand of a sum or a term.
#[cycle(expression)]
fn boxed_operand(
    alloc: Global,
    view: &mut View,
    of: &Boxed<Operand<Expression<Identifier>>>,
) -> Result<Boxed<Operand<Expression<Use>>>, AllocError>
    ensures { Names (spec.named_operand of.now) view.old result view.new }
{
    let resolved = operand(alloc, view, of.get())?;
    Boxed::new(alloc, resolved)
}

/// Resolves the names in operands, each in turn.
#[cycle(expression)]
fn operands(
    alloc: Global,
    view: &mut View,
    all: &[Operand<Expression<Identifier>>],
) -> Result<Items<Operand<Expression<Use>>>, AllocError>
    ensures { Names (each spec.named_operand [] all.now) view.old result view.new }
{
    let mut resolved = room_for(alloc, all.len())?;
    for one in all {
        resolved = added(resolved, operand(alloc, view, one))?;
    }
    Ok(resolved)
}

/// Resolves a name, and the names in its arguments (RM 4.1).
#[cycle(expression)]
pub fn name(
    alloc: Global,
    view: &mut View,
    of: &Name<Identifier, Expression<Identifier>>,
) -> Result<Name<Use, Expression<Use>>, AllocError>
    ensures { Names (spec.name_of of.now) view.old result view.new }
{
    let (first, count) = beginning(alloc, view, of)?;
    let suffixes = suffixes(alloc, view, of.suffixes.as_slice(), count);
    let (first, suffixes) = paired(first, suffixes)?;
    Ok(Name { first, suffixes })
}

/// Resolves the beginning of a name, and answers how many suffixes it uses up (RM 4.1.3).
fn beginning(
    alloc: Global,
    view: &mut View,
    of: &Name<Identifier, Expression<Identifier>>,
) -> Result<(Use, usize), AllocError>
    ensures { Names (spec.used usage.Plain of.now.first (spec.leading of.now.suffixes)) view.old result view.new }
{
    let rest = leading(alloc, of.suffixes.as_slice())?;
    used(alloc, view, Usage::Plain, &of.first, rest.as_slice())
}

/// Resolves the names in what stands behind the beginning of a name, from the suffix of this number on.
#[cycle(expression)]
fn suffixes(
    alloc: Global,
    view: &mut View,
    all: &[Suffix<Expression<Identifier>>],
    from: usize,
) -> Result<Items<Suffix<Expression<Use>>>, AllocError>
    ensures { Names (each spec.named_suffix [] (drop from all.now)) view.old result view.new }
{
    let mut resolved = room_for(alloc, all.len().saturating_sub(from))?;
    for at in from..all.len() {
        resolved = added(resolved, suffix(alloc, view, &all[at]))?;
    }
    Ok(resolved)
}

/// Resolves the names in a suffix.
#[cycle(expression)]
fn suffix(
    alloc: Global,
    view: &mut View,
    of: &Suffix<Expression<Identifier>>,
) -> Result<Suffix<Expression<Use>>, AllocError>
    ensures { Names (spec.named_suffix of.now) view.old result view.new }
{
    match of {
        Suffix::Selector(id) => {
            let id = identifier(alloc, id)?;
            Ok(Suffix::Selector(id))
        }
        Suffix::All(at) => Ok(Suffix::All(*at)),
        Suffix::Arguments(at, first, more) => arguments(alloc, view, *at, first, more),
        Suffix::Attribute(at, attribute) => Ok(Suffix::Attribute(*at, *attribute)),
    }
}

/// Resolves the names in the arguments of a call or of an index (RM 4.1.1, 6.4).
#[cycle(expression)]
fn arguments(
    alloc: Global,
    view: &mut View,
    at: Span,
    first: &Expression<Identifier>,
    more: &Items<Expression<Identifier>>,
) -> Result<Suffix<Expression<Use>>, AllocError>
    ensures { Names (spec.named_suffix (s.Arguments at first.now more.now)) view.old result view.new }
{
    let first = expression(alloc, view, first)?;
    let (first, more) = paired(first, expressions(alloc, view, more.as_slice()))?;
    Ok(Suffix::Arguments(at, first, more))
}

/// Resolves the handle of an allocator, if it has one (RM 13.11.4).
#[cycle(expression)]
fn handle_or_none(
    alloc: Global,
    view: &mut View,
    of: &Option<Boxed<Name<Identifier, Expression<Identifier>>>>,
) -> Result<Option<Boxed<Name<Use, Expression<Use>>>>, AllocError>
    ensures { Names (optional spec.name_of of.now) view.old result view.new }
{
    match of {
        None => Ok(None),
        Some(of) => {
            let resolved = name(alloc, view, of.get())?;
            let resolved = Boxed::new(alloc, resolved)?;
            Ok(Some(resolved))
        }
    }
}

/// Resolves the names in the value of an allocator, if it has one (RM 4.8).
#[cycle(expression)]
fn value_or_none(
    alloc: Global,
    view: &mut View,
    of: &Option<Boxed<Expression<Identifier>>>,
) -> Result<Option<Boxed<Expression<Use>>>, AllocError>
    ensures { Names (optional spec.expression of.now) view.old result view.new }
{
    match of {
        None => Ok(None),
        Some(of) => {
            let resolved = boxed(alloc, view, of)?;
            Ok(Some(resolved))
        }
    }
}

/// Resolves the names in an expression that may be absent.
pub fn expression_or_none(
    alloc: Global,
    view: &mut View,
    of: &Option<Expression<Identifier>>,
) -> Result<Option<Expression<Use>>, AllocError>
    ensures { Names (optional spec.expression of.now) view.old result view.new }
{
    match of {
        None => Ok(None),
        Some(of) => {
            let resolved = expression(alloc, view, of)?;
            Ok(Some(resolved))
        }
    }
}
