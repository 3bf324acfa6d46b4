//! Operators of the checked program, and what they take (RM 4.5).

ghost use Rattle.std.specs.Prelude.{◌≡◌, ◌++◌, ◌∷◌, IfOk, map};
ghost use Rattle.std.specs.Option.{option_copied};
ghost use Rattle.ctl_program.specs.declared.expression.Expr.TheVariants as made;
ghost use Rattle.ctl_typing.specs.Judgement as judgement;
ghost use Rattle.ctl_typing.specs.Typing as spec;

use crate::found::{Adopts, Asked, Typed};
use crate::literals::adopted;
use ctl_program::expression::{Expr, Operand};
use ctl_program::operators::{BinaryOp, UnaryOp};
use ctl_program::types::Ty;
use ctl_syntax::operators::{ArithmeticOperator, RelationalOperator, UnaryOperator};
use sqlite_items::{Boxed, Items};
use std::alloc::{AllocError, Global};

/// Adds what is known of one more; unless each is known, nothing is.
pub fn appended<T: Drop>(
    done: Option<Items<T>>,
    one: Option<T>,
) -> Result<Option<Items<T>>, AllocError>
    ensures { IfOk result (λ all. all ≡ judgement.appended done one) }
{
    match (done, one) {
        (Some(mut items), Some(item)) => {
            items.push(item)?;
            Ok(Some(items))
        }
        _ => Ok(None),
    }
}

/// Answers what is asked of an operand that has the type of another, where that is known.
pub fn asked_like(asked: Asked, other: &Option<Typed>) -> Asked
    ensures { result ≡ spec.asked_like asked other.now }
{
    match other {
        Some(typed) => Asked::Exactly(typed.ty),
        None => asked,
    }
}

/// Answers what an operator with one operand takes (RM 4.5.4, 4.5.6).
pub fn asked_by_one(operator: UnaryOperator, asked: Asked, adopts: Adopts) -> Asked
    ensures { result ≡ spec.asked_by_one operator asked adopts }
{
    match operator {
        UnaryOperator::Not => Asked::Exactly(Ty::Boolean),
        UnaryOperator::Plus | UnaryOperator::Minus | UnaryOperator::Abs => match adopts {
            Adopts::Nothing => Asked::Number,
            Adopts::Numbers | Adopts::Accesses => Asked::Exactly(adopted(asked)),
        },
    }
}

/// Answers the operator of the checked program (RM 4.5.4, 4.5.6).
pub fn unary_of(operator: UnaryOperator) -> UnaryOp
    ensures { result ≡ spec.unary_of operator }
{
    match operator {
        UnaryOperator::Plus => UnaryOp::Plus,
        UnaryOperator::Minus => UnaryOp::Minus,
        UnaryOperator::Abs => UnaryOp::Abs,
        UnaryOperator::Not => UnaryOp::Not,
    }
}

/// Answers the operator of the checked program; none stands for the joining of strings, which is wrong before (RM 4.5.3, 4.5.5).
pub fn operator_of(operator: ArithmeticOperator) -> BinaryOp
    ensures { result ≡ spec.operator_of operator }
{
    match operator {
        ArithmeticOperator::Minus => BinaryOp::Subtract,
        ArithmeticOperator::Times => BinaryOp::Multiply,
        ArithmeticOperator::Divide => BinaryOp::Divide,
        ArithmeticOperator::Mod => BinaryOp::Modulo,
        ArithmeticOperator::Rem => BinaryOp::Remainder,
        ArithmeticOperator::Plus | ArithmeticOperator::Concatenate => BinaryOp::Add,
    }
}

/// Answers what a comparison takes (RM 4.5.2).
pub fn compared(operator: RelationalOperator) -> Asked
    ensures { result ≡ spec.compared operator }
{
    match operator {
        RelationalOperator::Equal | RelationalOperator::NotEqual => Asked::Comparable,
        RelationalOperator::Less
        | RelationalOperator::LessEqual
        | RelationalOperator::Greater
        | RelationalOperator::GreaterEqual => Asked::Ordered,
    }
}

/// Answers what is asked of the other operand of a comparison with one that takes on its type (RM 4.5.2, profile).
pub fn asked_beside(operator: RelationalOperator, adopts: Adopts) -> Asked
    ensures { result ≡ spec.asked_beside operator adopts }
{
    match adopts {
        Adopts::Numbers => Asked::Number,
        Adopts::Nothing | Adopts::Accesses => compared(operator),
    }
}

/// Answers the operator of the checked program (RM 4.5.2).
fn comparison(operator: RelationalOperator) -> BinaryOp
    ensures { result ≡ spec.comparison operator }
{
    match operator {
        RelationalOperator::Equal => BinaryOp::Equal,
        RelationalOperator::NotEqual => BinaryOp::Unequal,
        RelationalOperator::Less => BinaryOp::Less,
        RelationalOperator::LessEqual => BinaryOp::LessEqual,
        RelationalOperator::Greater => BinaryOp::Greater,
        RelationalOperator::GreaterEqual => BinaryOp::GreaterEqual,
    }
}

/// Makes an operator with its right operand.
pub fn operand_of(op: BinaryOp, ty: Ty, right: Expr) -> Operand
    ensures { result ≡ spec.operand_of op ty right }
{
    Operand { op, ty, right }
}

/// Moves two values into boxes.
pub fn both_boxed<A: Drop, B: Drop>(
    alloc: Global,
    first: A,
    second: B,
) -> Result<(Boxed<A>, Boxed<B>), AllocError>
    ensures { IfOk result (λ boxes. boxes ≡ (first, second)) }
{
    let first = Boxed::new(alloc, first)?;
    Ok((first, Boxed::new(alloc, second)?))
}

/// Makes a comparison (RM 4.5.2).
pub fn relation_of(
    alloc: Global,
    operator: RelationalOperator,
    left: Typed,
    right: Typed,
) -> Result<Typed, AllocError>
    ensures { IfOk result (λ typed. typed ≡ spec.relation_of operator left right) }
{
    let operand = operand_of(comparison(operator), Ty::Boolean, right.value);
    let (left, operand) = both_boxed(alloc, left.value, operand)?;
    let value = Expr::Chain(left, operand, Items::new(alloc));
    Ok(Typed {
        ty: Ty::Boolean,
        value,
    })
}

/// Makes a chain; one of a single operand is that operand.
pub fn chain_of(alloc: Global, first: Expr, operands: Items<Operand>) -> Result<Expr, AllocError>
    ensures { IfOk result (λ value. value ≡ spec.chain_of first operands) }
{
    if operands.is_empty() {
        return Ok(first);
    }
    let mut rest = operands;
    let (first, second) = both_boxed(alloc, first, rest.remove(0))?;
    Ok(Expr::Chain(first, second, rest))
}

/// Puts operands before one and behind it.
fn around(
    before: Items<Operand>,
    operand: Operand,
    behind: Items<Operand>,
) -> Result<Items<Operand>, AllocError>
    ensures { IfOk result (λ all. all ≡ before ++ operand ∷ behind) }
{
    let mut all = before;
    all.push(operand)?;
    all.append(behind)?;
    Ok(all)
}

/// Makes a chain of literals, the operand that gives them their type, and what stands behind it.
pub fn joined(
    alloc: Global,
    op: BinaryOp,
    typed: Typed,
    first: (Expr, Items<Operand>),
    behind: Items<Operand>,
) -> Result<Typed, AllocError>
    ensures { IfOk result (λ whole. whole ≡ spec.joined op typed (first, behind)) }
{
    let (first, operands) = first;
    let ty = typed.ty;
    let value = match around(operands, operand_of(op, ty, typed.value), behind) {
        Ok(operands) => chain_of(alloc, first, operands)?,
        Err(error) => {
            drop(first);
            return Err(error);
        }
    };
    Ok(Typed { ty, value })
}

/// Makes relations that `and`, `or` or `xor` joins (RM 4.5.1).
pub fn logical_chain(
    alloc: Global,
    op: BinaryOp,
    first: Expr,
    second: Expr,
    more: Items<Operand>,
) -> Result<Expr, AllocError>
    ensures { IfOk result (λ value. value ≡ made.Chain first (spec.logical_operand op second) more) }
{
    let second = operand_of(op, Ty::Boolean, second);
    let (first, second) = both_boxed(alloc, first, second)?;
    Ok(Expr::Chain(first, second, more))
}
