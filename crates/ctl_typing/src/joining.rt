//! What is known of an expression with several operands, once each of them is judged (RM 4.5).

ghost use Rattle.std.specs.Prelude.{◌≡◌, ◌∷◌, []};
ghost use Rattle.ctl_typing.specs.declared.notes.Notes.{Notes as Noted};
ghost use Rattle.ctl_typing.specs.Judgement.{Judges, beside, each, known, onward, paired as both_known, with_known};
ghost use Rattle.ctl_typing.specs.Senses as senses;
ghost use Rattle.ctl_typing.specs.Typing.{logical_operand, operand_of as made, operator_of as meant};

use crate::found::{Asked, Typed};
use crate::judging::fits;
use crate::notes::Notes;
use crate::operators::{
    appended, both_boxed, chain_of, joined, logical_chain, operand_of, operator_of, relation_of,
    unary_of,
};
use ctl_program::expression::{Expr, Operand};
use ctl_program::operators::{BinaryOp, Shortcut};
use ctl_program::types::Ty;
use ctl_syntax::operators::{ArithmeticOperator, RelationalOperator, UnaryOperator};
use ctl_tree::span::Span;
use sqlite_items::{Boxed, Items};
use std::alloc::{AllocError, Global};

/// Pairs what is known of two parts; unless each is known, nothing is.
pub fn paired<A: Drop, B: Drop>(first: Option<A>, second: Option<B>) -> Option<(A, B)>
    ensures { (notes : Noted) → both_known first (second, notes) ≡ (result, notes) }
{
    match (first, second) {
        (Some(first), Some(second)) => Some((first, second)),
        _ => None,
    }
}

/// Pairs what is known of a part with what is known of another, which is judged after it; memory may be refused for that.
pub fn paired_with<A: Drop, B: Drop>(
    first: Option<A>,
    second: Result<Option<B>, AllocError>,
) -> Result<Option<(A, B)>, AllocError>
    ensures { (q : _) (old new : Noted) → Judges q old second new → Judges (λ s. beside q (first, s)) old result new }
{
    Ok(paired(first, second?))
}

/// Adds what is known of one more, which is judged after those so far; memory may be refused for that. Unless each is known, nothing is.
pub fn appended_with<T: Drop>(
    done: Option<Items<T>>,
    one: Result<Option<T>, AllocError>,
) -> Result<Option<Items<T>>, AllocError>
    ensures { (q : _) (old new : Noted) → Judges q old one new → Judges (each (λ j. j) done (q ∷ [])) old result new }
{
    appended(done, one?)
}

/// Puts what is known of two parts the other way round.
pub fn swapped<A: Drop, B: Drop>(both: Option<(A, B)>) -> Option<(B, A)>
    ensures { (notes : Noted) → senses.swapped both notes ≡ (result, notes) }
{
    match both {
        Some((first, second)) => Some((second, first)),
        None => None,
    }
}

/// Answers the value of an operand, where it is known.
pub fn value_of(typed: Option<Typed>) -> Option<Expr>
    ensures { (notes : Noted) → senses.valued typed notes ≡ (result, notes) }
{
    match typed {
        Some(typed) => Some(typed.value),
        None => None,
    }
}

/// Makes an operand of `and`, `or` or `xor` of a value, where that is known (RM 4.5.1).
pub fn operand_behind(op: BinaryOp, value: Option<Expr>) -> Option<Operand>
    ensures { (notes : Noted) → senses.operand_behind op value notes ≡ (result, notes) }
{
    match value {
        Some(value) => Some(operand_of(op, Ty::Boolean, value)),
        None => None,
    }
}

/// Makes an operand of a chain with the operator before it, where it is known (RM 4.5.3, 4.5.5).
pub fn operand_typed(operator: ArithmeticOperator, typed: Option<Typed>) -> Option<Operand>
    ensures { (notes : Noted) → senses.operand_typed operator typed notes ≡ (result, notes) }
{
    match typed {
        Some(typed) => Some(operand_of(operator_of(operator), typed.ty, typed.value)),
        None => None,
    }
}

/// Adds an operand of `and`, `or` or `xor` of a value that is judged after those so far; memory may be refused for that (RM 4.5.1).
pub fn truth_appended(
    done: Option<Items<Operand>>,
    op: BinaryOp,
    value: Result<Option<Expr>, AllocError>,
) -> Result<Option<Items<Operand>>, AllocError>
    ensures { (q : _) (old new : Noted) → Judges q old value new → Judges (each (λ j. j) done ((λ s. with_known (λ v. known (logical_operand op v)) (q s)) ∷ [])) old result new }
{
    match value {
        Ok(value) => appended(done, operand_behind(op, value)),
        Err(error) => {
            drop(done);
            Err(error)
        }
    }
}

/// Adds an operand of a chain of an expression that is judged after those so far; memory may be refused for that (RM 4.5.3, 4.5.5).
pub fn operand_appended(
    done: Option<Items<Operand>>,
    operator: ArithmeticOperator,
    typed: Result<Option<Typed>, AllocError>,
) -> Result<Option<Items<Operand>>, AllocError>
    ensures { (q : _) (old new : Noted) → Judges q old typed new → Judges (each (λ j. j) done ((λ s. with_known (λ r. known (made (meant operator) r.ty r.value)) (q s)) ∷ [])) old result new }
{
    match typed {
        Ok(typed) => appended(done, operand_typed(operator, typed)),
        Err(error) => {
            drop(done);
            Err(error)
        }
    }
}

/// Joins the operands of `and`, `or` or `xor`, where they are known: the first two and those behind them (RM 4.5.1).
pub fn truths_joined(
    alloc: Global,
    op: BinaryOp,
    all: Option<((Expr, Expr), Items<Operand>)>,
) -> Result<Option<Expr>, AllocError>
    ensures { (notes : Noted) → Judges (onward all (senses.chain_made op)) notes result notes }
{
    let Some(((first, second), more)) = all else {
        return Ok(None);
    };
    Ok(Some(logical_chain(alloc, op, first, second, more)?))
}

/// Joins the operands of a short-circuit form, where they are known: the first two and those behind them (RM 4.5.1).
pub fn short_circuit(
    alloc: Global,
    form: Shortcut,
    all: Option<((Expr, Expr), Items<Expr>)>,
) -> Result<Option<Expr>, AllocError>
    ensures { (notes : Noted) → Judges (onward all (senses.short_made form)) notes result notes }
{
    let Some(((first, second), more)) = all else {
        return Ok(None);
    };
    let (first, second) = both_boxed(alloc, first, second)?;
    Ok(Some(Expr::Short(form, first, second, more)))
}

/// Judges a Boolean value by what its place asks, where it is known (RM 4.5.1).
pub fn boolean(
    place: Span,
    asked: Asked,
    value: Option<Expr>,
    notes: &mut Notes,
) -> Result<Option<Typed>, AllocError>
    ensures { Judges (onward value (senses.boolean_at place asked)) notes.old result notes.new }
{
    let Some(value) = value else {
        return Ok(None);
    };
    let ty = Ty::Boolean;
    fits(place, asked, Typed { ty, value }, notes)
}

/// Joins the operands of a relation, where they are known, and judges it by what its place asks (RM 4.5.2).
pub fn relation_joined(
    alloc: Global,
    place: Span,
    operator: RelationalOperator,
    both: Option<(Typed, Typed)>,
    asked: Asked,
    notes: &mut Notes,
) -> Result<Option<Typed>, AllocError>
    ensures { Judges (onward both (senses.relation_at place operator asked)) notes.old result notes.new }
{
    let Some((left, right)) = both else {
        return Ok(None);
    };
    fits(
        place,
        asked,
        relation_of(alloc, operator, left, right)?,
        notes,
    )
}

/// Makes an operator with its one operand, where that is known, and judges it by what its place asks (RM 4.5.4, 4.5.6).
pub fn unary_joined(
    alloc: Global,
    place: Span,
    operator: UnaryOperator,
    operand: Option<Typed>,
    asked: Asked,
    notes: &mut Notes,
) -> Result<Option<Typed>, AllocError>
    ensures { Judges (onward operand (senses.unary_at place operator asked)) notes.old result notes.new }
{
    let Some(operand) = operand else {
        return Ok(None);
    };
    let ty = operand.ty;
    let value = Expr::Unary(unary_of(operator), ty, Boxed::new(alloc, operand.value)?);
    fits(place, asked, Typed { ty, value }, notes)
}

/// Joins a first operand that gives the others their type with those, where they are known (RM 4.5.3).
pub fn chain_typed(
    alloc: Global,
    all: Option<(Typed, Items<Operand>)>,
) -> Result<Option<Typed>, AllocError>
    ensures { (notes : Noted) → Judges (onward all senses.led_by_first) notes result notes }
{
    let Some((first, operands)) = all else {
        return Ok(None);
    };
    let ty = first.ty;
    let value = chain_of(alloc, first.value, operands)?;
    Ok(Some(Typed { ty, value }))
}

/// Joins the operands around one that gives the others their type with it, where they are known (RM 4.5.3).
pub fn chain_joined(
    alloc: Global,
    operator: ArithmeticOperator,
    all: Option<(Typed, ((Expr, Items<Operand>), Items<Operand>))>,
) -> Result<Option<Typed>, AllocError>
    ensures { (notes : Noted) → Judges (onward all (senses.led_by operator)) notes result notes }
{
    let Some((leading, (first, behind))) = all else {
        return Ok(None);
    };
    Ok(Some(joined(alloc, operator_of(operator), leading, first, behind)?))
}

/// Joins the operands around one that gives the others their type with it, and which are judged after it, where they are known; memory may
/// be refused for that (RM 4.5.3).
pub fn chain_led_by(
    alloc: Global,
    operator: ArithmeticOperator,
    leading: Option<Typed>,
    around: Result<Option<((Expr, Items<Operand>), Items<Operand>)>, AllocError>,
) -> Result<Option<Typed>, AllocError>
    ensures { (q : _) (old new : Noted) → Judges q old around new → Judges (λ s. with_known (senses.led_by operator) (beside q (leading, s))) old result new }
{
    let all = paired_with(leading, around)?;
    chain_joined(alloc, operator, all)
}

/// Joins literals of a type, where they are known (RM 4.5.3, profile).
pub fn literals_joined(
    alloc: Global,
    ty: Ty,
    all: Option<(Expr, Items<Operand>)>,
) -> Result<Option<Typed>, AllocError>
    ensures { (notes : Noted) → Judges (onward all (senses.of_literals ty)) notes result notes }
{
    let Some((first, operands)) = all else {
        return Ok(None);
    };
    let value = chain_of(alloc, first, operands)?;
    Ok(Some(Typed { ty, value }))
}
