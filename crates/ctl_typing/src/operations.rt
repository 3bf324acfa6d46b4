//! The judgement of operators with their operands (RM 4.5).

ghost use Rattle.std.specs.Prelude.{◌∷◌, [], Some, map};
ghost use Rattle.ctl_typing.specs.Judgement as judgement;
ghost use Rattle.ctl_typing.specs.Judgement.{Judges};
ghost use Rattle.ctl_typing.specs.Senses as senses;
ghost use Rattle.ctl_typing.specs.Typing as spec;

use crate::adopting::{adopts, has_joining, is_led_by_right, parted, takes_on};
use crate::expressions::{expression, truth};
use crate::found::{Asked, Typed};
use crate::joining::{
    appended_with, boolean, chain_led_by, chain_typed, literals_joined, operand_appended, paired,
    paired_with, relation_joined, short_circuit, swapped, truth_appended, truths_joined,
    unary_joined, value_of,
};
use crate::judging::{fitted, wrong};
use crate::literals::adopted;
use crate::notes::Notes;
use crate::operators::{asked_beside, asked_by_one, asked_like, compared};
use crate::table::Tables;
use ctl_program::expression::{Expr, Operand};
use ctl_program::operators::{BinaryOp, Shortcut};
use ctl_syntax::denoted::Use;
use ctl_syntax::expression::Expression;
use ctl_syntax::operators::{
    LogicalOperator, Operand as WrittenOperand, RelationalOperator, UnaryOperator,
};
use ctl_tree::fault::FaultCode;
use ctl_tree::span::Span;
use sqlite_items::Items;
use std::alloc::{AllocError, Global};

/// Judges operands that a logical operator joins: each of them is Boolean, and so is the whole (RM 4.5.1).
#[cycle(expression)]
pub(crate) fn logical(
    alloc: Global,
    tables: &Tables,
    first: &Expression<Use>,
    second: &Expression<Use>,
    more: &[Expression<Use>],
    place: Span,
    operator: LogicalOperator,
    asked: Asked,
    notes: &mut Notes,
) -> Result<Option<Typed>, AllocError>
    ensures { Judges (spec.logical_judged place operator (spec.sense first.now) (spec.sense second.now) (map spec.sense more.now) tables.now asked) notes.old result notes.new }
{
    let first = truth(alloc, tables, first, notes)?;
    let two = paired_with(first, truth(alloc, tables, second, notes))?;
    let value = logical_behind(alloc, tables, more, operator, two, notes)?;
    boolean(place, asked, value, notes)
}

/// Judges the operands of a logical operator behind the second, and joins all of them (RM 4.5.1).
#[cycle(expression)]
fn logical_behind(
    alloc: Global,
    tables: &Tables,
    more: &[Expression<Use>],
    operator: LogicalOperator,
    two: Option<(Expr, Expr)>,
    notes: &mut Notes,
) -> Result<Option<Expr>, AllocError>
    ensures { Judges (senses.logical_behind operator two (map spec.sense more.now) tables.now) notes.old result notes.new }
{
    match operator {
        LogicalOperator::And => whole(alloc, tables, more, BinaryOp::And, two, notes),
        LogicalOperator::Or => whole(alloc, tables, more, BinaryOp::Or, two, notes),
        LogicalOperator::Xor => whole(alloc, tables, more, BinaryOp::Xor, two, notes),
        LogicalOperator::AndThen => short(alloc, tables, more, Shortcut::AndThen, two, notes),
        LogicalOperator::OrElse => short(alloc, tables, more, Shortcut::OrElse, two, notes),
    }
}

/// Judges the operands of `and`, `or` or `xor` behind the second, and joins all of them (RM 4.5.1).
#[cycle(expression)]
fn whole(
    alloc: Global,
    tables: &Tables,
    more: &[Expression<Use>],
    op: BinaryOp,
    two: Option<(Expr, Expr)>,
    notes: &mut Notes,
) -> Result<Option<Expr>, AllocError>
    ensures { Judges (senses.whole_behind op two (map spec.sense more.now) tables.now) notes.old result notes.new }
{
    let all = paired_with(two, truths_behind(alloc, tables, more, op, notes))?;
    truths_joined(alloc, op, all)
}

/// Judges the operands of `and`, `or` or `xor` behind the second, each with its operator (RM 4.5.1).
#[cycle(expression)]
fn truths_behind(
    alloc: Global,
    tables: &Tables,
    more: &[Expression<Use>],
    op: BinaryOp,
    notes: &mut Notes,
) -> Result<Option<Items<Operand>>, AllocError>
    ensures { Judges (senses.truths_behind op tables.now (map spec.sense more.now)) notes.old result notes.new }
{
    let mut done = Some(Items::new(alloc));
    for x in more {
        let value = truth(alloc, tables, x, notes);
        done = truth_appended(done, op, value)?;
    }
    Ok(done)
}

/// Judges the operands of a short-circuit form behind the second, and joins all of them (RM 4.5.1).
#[cycle(expression)]
fn short(
    alloc: Global,
    tables: &Tables,
    more: &[Expression<Use>],
    form: Shortcut,
    two: Option<(Expr, Expr)>,
    notes: &mut Notes,
) -> Result<Option<Expr>, AllocError>
    ensures { Judges (senses.short_behind form two (map spec.sense more.now) tables.now) notes.old result notes.new }
{
    let all = paired_with(two, truths(alloc, tables, more, notes))?;
    short_circuit(alloc, form, all)
}

/// Judges the operands of a short-circuit form behind the second (RM 4.5.1).
#[cycle(expression)]
fn truths(
    alloc: Global,
    tables: &Tables,
    more: &[Expression<Use>],
    notes: &mut Notes,
) -> Result<Option<Items<Expr>>, AllocError>
    ensures { Judges (spec.truths_of tables.now (map spec.sense more.now)) notes.old result notes.new }
{
    let mut done = Some(Items::new(alloc));
    for x in more {
        let value = truth(alloc, tables, x, notes);
        done = appended_with(done, value)?;
    }
    Ok(done)
}

/// Judges a relation: the right operand has the type of the left one; a literal or null on the left takes on that of the right one
/// (RM 4.5.2).
#[cycle(expression)]
pub(crate) fn relation(
    alloc: Global,
    tables: &Tables,
    left: &Expression<Use>,
    right: &Expression<Use>,
    place: Span,
    operator: RelationalOperator,
    asked: Asked,
    notes: &mut Notes,
) -> Result<Option<Typed>, AllocError>
    ensures { Judges (spec.relation_judged place operator (spec.sense left.now) (spec.sense right.now) tables.now asked) notes.old result notes.new }
{
    let taken = compared(operator);
    if is_led_by_right(left, right) {
        let beside = asked_beside(operator, adopts(left));
        let right = expression(alloc, tables, right, beside, notes)?;
        let like = asked_like(taken, &right);
        let both = paired_with(right, expression(alloc, tables, left, like, notes))?;
        return relation_joined(alloc, place, operator, swapped(both), asked, notes);
    }
    let left = expression(alloc, tables, left, taken, notes)?;
    let like = asked_like(taken, &left);
    let both = paired_with(left, expression(alloc, tables, right, like, notes))?;
    relation_joined(alloc, place, operator, both, asked, notes)
}

/// Judges a chain; a string is no value outside of Put and Put_Line (RM 4.5.3, profile).
#[cycle(expression)]
pub(crate) fn chain(
    alloc: Global,
    tables: &Tables,
    first: &Expression<Use>,
    second: &WrittenOperand<Expression<Use>>,
    rest: &[WrittenOperand<Expression<Use>>],
    place: Span,
    asked: Asked,
    notes: &mut Notes,
) -> Result<Option<Typed>, AllocError>
    ensures { Judges (spec.chain_judged place (spec.sense first.now) (senses.operand_sense second.now ∷ map senses.operand_sense rest.now) tables.now asked) notes.old result notes.new }
{
    if has_joining(second, rest) {
        return Ok(wrong(FaultCode::Type, place, notes));
    }
    let typed = arithmetic(alloc, tables, first, second, rest, asked, notes)?;
    fitted(place, asked, typed, notes)
}

/// Judges a chain of numbers: by the first operand that has a type of its own (RM 4.5.3, profile).
#[cycle(expression)]
fn arithmetic(
    alloc: Global,
    tables: &Tables,
    first: &Expression<Use>,
    second: &WrittenOperand<Expression<Use>>,
    rest: &[WrittenOperand<Expression<Use>>],
    asked: Asked,
    notes: &mut Notes,
) -> Result<Option<Typed>, AllocError>
    ensures { Judges (senses.arithmetic tables.now asked (spec.sense first.now) (senses.operand_sense second.now ∷ map senses.operand_sense rest.now)) notes.old result notes.new }
{
    if !takes_on(adopts(first)) {
        return by_first(alloc, tables, first, second, rest, notes);
    }
    if !takes_on(adopts(&second.operand)) {
        return by_second(alloc, tables, first, second, rest, notes);
    }
    match parted(rest) {
        Some(at) => {
            let (before, behind) = (&rest[..at], &rest[at + 1..]);
            by_further(
                alloc, tables, first, second, before, &rest[at], behind, notes,
            )
        }
        None => by_place(alloc, tables, first, second, rest, asked, notes),
    }
}

/// Judges a chain of which the first operand has a type of its own, which the others have (RM 4.5.3).
#[cycle(expression)]
fn by_first(
    alloc: Global,
    tables: &Tables,
    first: &Expression<Use>,
    second: &WrittenOperand<Expression<Use>>,
    rest: &[WrittenOperand<Expression<Use>>],
    notes: &mut Notes,
) -> Result<Option<Typed>, AllocError>
    ensures { Judges (spec.by_first tables.now (spec.sense first.now) (senses.operand_sense second.now ∷ map senses.operand_sense rest.now)) notes.old result notes.new }
{
    let typed = expression(alloc, tables, first, Asked::Number, notes)?;
    let like = asked_like(Asked::Number, &typed);
    let all = paired_with(typed, operands_as(alloc, tables, second, rest, like, notes))?;
    chain_typed(alloc, all)
}

/// Judges a chain of which the second operand is the first with a type of its own (RM 4.5.3).
#[cycle(expression)]
fn by_second(
    alloc: Global,
    tables: &Tables,
    first: &Expression<Use>,
    second: &WrittenOperand<Expression<Use>>,
    rest: &[WrittenOperand<Expression<Use>>],
    notes: &mut Notes,
) -> Result<Option<Typed>, AllocError>
    ensures { (asked : _) → Judges (spec.by_other tables.now asked (spec.sense first.now) [] (Some (senses.operand_sense second.now)) (map senses.operand_sense rest.now)) notes.old result notes.new }
{
    let typed = expression(alloc, tables, &second.operand, Asked::Number, notes)?;
    let like = asked_like(Asked::Number, &typed);
    let others = around_second(alloc, tables, first, rest, like, notes);
    chain_led_by(alloc, second.operator, typed, others)
}

/// Judges the operands around a second one, of which they take on the type (RM 4.5.3).
#[cycle(expression)]
fn around_second(
    alloc: Global,
    tables: &Tables,
    first: &Expression<Use>,
    rest: &[WrittenOperand<Expression<Use>>],
    like: Asked,
    notes: &mut Notes,
) -> Result<Option<((Expr, Items<Operand>), Items<Operand>)>, AllocError>
    ensures { Judges (spec.around tables.now (spec.sense first.now) [] (map senses.operand_sense rest.now) like) notes.old result notes.new }
{
    let value = expression(alloc, tables, first, like, notes)?;
    let first = paired(value_of(value), Some(Items::new(alloc)));
    let none = Some(Items::new(alloc));
    paired_with(
        first,
        operands_behind(alloc, tables, rest, like, none, notes),
    )
}

/// Judges a chain of literals alone: they take on the type that the place asks (RM 4.5.3, profile).
#[cycle(expression)]
fn by_place(
    alloc: Global,
    tables: &Tables,
    first: &Expression<Use>,
    second: &WrittenOperand<Expression<Use>>,
    rest: &[WrittenOperand<Expression<Use>>],
    asked: Asked,
    notes: &mut Notes,
) -> Result<Option<Typed>, AllocError>
    ensures { Judges (spec.by_other tables.now asked (spec.sense first.now) (senses.operand_sense second.now ∷ map senses.operand_sense rest.now) None []) notes.old result notes.new }
{
    let ty = adopted(asked);
    let whole = first_as(
        alloc,
        tables,
        first,
        second,
        rest,
        Asked::Exactly(ty),
        notes,
    )?;
    literals_joined(alloc, ty, whole)
}

/// Judges a chain of which an operand behind the second is the first with a type of its own (RM 4.5.3).
#[cycle(expression)]
fn by_further(
    alloc: Global,
    tables: &Tables,
    first: &Expression<Use>,
    second: &WrittenOperand<Expression<Use>>,
    before: &[WrittenOperand<Expression<Use>>],
    leading: &WrittenOperand<Expression<Use>>,
    behind: &[WrittenOperand<Expression<Use>>],
    notes: &mut Notes,
) -> Result<Option<Typed>, AllocError>
    ensures { (asked : _) → Judges (spec.by_other tables.now asked (spec.sense first.now) (senses.operand_sense second.now ∷ map senses.operand_sense before.now) (Some (senses.operand_sense leading.now)) (map senses.operand_sense behind.now)) notes.old result notes.new }
{
    let typed = expression(alloc, tables, &leading.operand, Asked::Number, notes)?;
    let like = asked_like(Asked::Number, &typed);
    let others = around_further(alloc, tables, first, second, before, behind, like, notes);
    chain_led_by(alloc, leading.operator, typed, others)
}

/// Judges the operands around a further one, of which they take on the type (RM 4.5.3).
#[cycle(expression)]
fn around_further(
    alloc: Global,
    tables: &Tables,
    first: &Expression<Use>,
    second: &WrittenOperand<Expression<Use>>,
    before: &[WrittenOperand<Expression<Use>>],
    behind: &[WrittenOperand<Expression<Use>>],
    like: Asked,
    notes: &mut Notes,
) -> Result<Option<((Expr, Items<Operand>), Items<Operand>)>, AllocError>
    ensures { Judges (spec.around tables.now (spec.sense first.now) (senses.operand_sense second.now ∷ map senses.operand_sense before.now) (map senses.operand_sense behind.now) like) notes.old result notes.new }
{
    let first = first_as(alloc, tables, first, second, before, like, notes)?;
    let none = Some(Items::new(alloc));
    paired_with(
        first,
        operands_behind(alloc, tables, behind, like, none, notes),
    )
}

/// Judges the first operands of a chain, which take on the type of another (RM 4.5.3).
#[cycle(expression)]
fn first_as(
    alloc: Global,
    tables: &Tables,
    first: &Expression<Use>,
    second: &WrittenOperand<Expression<Use>>,
    rest: &[WrittenOperand<Expression<Use>>],
    asked: Asked,
    notes: &mut Notes,
) -> Result<Option<(Expr, Items<Operand>)>, AllocError>
    ensures { Judges (spec.first_as tables.now asked (spec.sense first.now) (senses.operand_sense second.now ∷ map senses.operand_sense rest.now)) notes.old result notes.new }
{
    let typed = expression(alloc, tables, first, asked, notes)?;
    let others = operands_as(alloc, tables, second, rest, asked, notes);
    paired_with(value_of(typed), others)
}

/// Judges the operands of a chain behind the first (RM 4.5.3, 4.5.5).
#[cycle(expression)]
fn operands_as(
    alloc: Global,
    tables: &Tables,
    second: &WrittenOperand<Expression<Use>>,
    rest: &[WrittenOperand<Expression<Use>>],
    asked: Asked,
    notes: &mut Notes,
) -> Result<Option<Items<Operand>>, AllocError>
    ensures { Judges (spec.operands_as tables.now asked (senses.operand_sense second.now ∷ map senses.operand_sense rest.now)) notes.old result notes.new }
{
    let typed = expression(alloc, tables, &second.operand, asked, notes);
    let so_far = operand_appended(Some(Items::new(alloc)), second.operator, typed)?;
    operands_behind(alloc, tables, rest, asked, so_far, notes)
}

/// Judges operands behind those so far (RM 4.5.3, 4.5.5).
#[cycle(expression)]
fn operands_behind(
    alloc: Global,
    tables: &Tables,
    rest: &[WrittenOperand<Expression<Use>>],
    asked: Asked,
    so_far: Option<Items<Operand>>,
    notes: &mut Notes,
) -> Result<Option<Items<Operand>>, AllocError>
    ensures { Judges (judgement.each (spec.operand_as tables.now asked) so_far (map senses.operand_sense rest.now)) notes.old result notes.new }
{
    let mut done = so_far;
    for operand in rest {
        let typed = expression(alloc, tables, &operand.operand, asked, notes);
        done = operand_appended(done, operand.operator, typed)?;
    }
    Ok(done)
}

/// Judges an operator with its one operand; a literal takes on the type that the place of the whole asks (RM 4.5.4, 4.5.6).
#[cycle(expression)]
pub(crate) fn unary(
    alloc: Global,
    tables: &Tables,
    operand: &Expression<Use>,
    place: Span,
    operator: UnaryOperator,
    asked: Asked,
    notes: &mut Notes,
) -> Result<Option<Typed>, AllocError>
    ensures { Judges (spec.unary_judged place operator (spec.sense operand.now) tables.now asked) notes.old result notes.new }
{
    let taken = asked_by_one(operator, asked, adopts(operand));
    let typed = expression(alloc, tables, operand, taken, notes)?;
    unary_joined(alloc, place, operator, typed, asked, notes)
}
