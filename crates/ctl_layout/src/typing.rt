//! The types of expressions (RM 4.4, 4.5).

ghost use Rattle.std.specs.Prelude.{◌≡◌, map, Some};
ghost use Rattle.ctl_layout.specs.Parts.{seen};
ghost use Rattle.ctl_layout.specs.Values as spec;
ghost use Rattle.ctl_layout.specs.Values.{denoted};

use crate::right::{Denoted, Reached, gives_record, reached_by, reached_of};
use ctl_program::expression::{Expr, Name, Operand};
use ctl_program::operators::BinaryOp;
use ctl_program::types::Ty;

/// Gives the type of a value; a constant has none of its own, nor has an access attribute.
#[tactic(auto, using(crate::proofs::Layers::value_constant, crate::proofs::Layers::read_own, crate::proofs::Layers::value_call, crate::proofs::Layers::value_unary, crate::proofs::Layers::value_chain, crate::proofs::Layers::operator_is, crate::proofs::Layers::value_short, crate::proofs::Layers::value_convert, crate::proofs::Layers::value_access, crate::proofs::Layers::new_own, crate::proofs::Layers::value_subpool, crate::proofs::Layers::value_discriminant))]
pub fn type_of(expression: &Expr) -> Option<Ty>
    ensures { result ≡ (spec.value_code expression.now).own }
{
    match expression {
        Expr::Read(_, ty) | Expr::Call(_, _, ty) | Expr::Unary(_, ty, _) | Expr::Convert(ty, _) =>
            Some(*ty),
        Expr::Chain(_, first, more) => Some(last_type(first.get().ty, more.as_slice())),
        Expr::Short(..) => Some(Ty::Boolean),
        Expr::Discriminant(..) => Some(Ty::Count),
        Expr::New(access, ..) => Some(Ty::Access(*access)),
        Expr::Constant(_) | Expr::Access(_) | Expr::Subpool(..) => None,
    }
}

/// Gives the type of what the last of these operators gives, or this one where there is none.
fn last_type(first: Ty, more: &[Operand]) -> Ty
    ensures { result ≡ spec.last_type first (map spec.operator_of more.now) }
{
    let mut last = first;
    for operand in more {
        last = operand.ty;
    }
    last
}

/// Gives the type of a value where each scalar type will do: a constant is one of Integer.
pub fn value_type(expression: &Expr) -> Ty
    ensures { result ≡ spec.value_type (spec.value_code expression.now) }
{
    type_of(expression).unwrap_or(Ty::Integer)
}

/// Tells whether a value of this type is of the record type of this number.
pub fn is_of(record: usize, ty: Option<Ty>) -> bool
    ensures { result ≡ spec.is_of «record» ty }
{
    match ty {
        Some(Ty::Record(number)) => number == record,
        _ => false,
    }
}

/// Gives the part of a record type that a value is read from, with its name, if it is read from one (RM 3.3.1), or the call that gives a
/// record of the type.
pub fn copied(record: usize, value: &Expr) -> Option<Denoted<'_>>
    ensures { denoted result ≡ spec.copied «record» (spec.value_code value.now) }
{
    if is_of(record, type_of(value)) {
        reached_of(value)
    } else {
        None
    }
}

/// Tells whether a value is that of a record of this type, which a function gives (RM 6.4).
#[tactic(auto, using(crate::proofs::Layers::called_is))]
pub fn is_called_of(record: usize, value: &Expr) -> bool
    ensures { result ≡ spec.is_result (spec.copied «record» (spec.value_code value.now)) }
{
    is_of(record, type_of(value)) && gives_record(value)
}

/// Gives the call of a function that gives a record of this type, if a value is one (RM 6.4).
#[tactic(auto, using(crate::proofs::Layers::called_whole))]
pub fn called_of(record: usize, value: &Expr) -> Option<Denoted<'_>>
    ensures { denoted result ≡ spec.result_of (spec.copied «record» (spec.value_code value.now)) }
{
    if is_called_of(record, value) {
        Some(Denoted::Called(value))
    } else {
        None
    }
}

/// Gives the part of a record type that a name denotes, from which a value of this type is read, if it is of that type (RM 3.3.1).
#[tactic(auto, using(crate::proofs::Layers::part_copied, crate::proofs::Layers::other_copied, crate::proofs::Layers::nothing_copied))]
pub fn copied_from(record: usize, name: &Name, ty: Ty) -> Option<Reached<'_>>
    ensures { seen (spec.begun_by name.now) result ≡ spec.copied «record» (spec.read (spec.reached_by name.now) ty) }
{
    match reached_by(name) {
        None => None,
        Some(reached) => {
            if is_of(record, Some(ty)) {
                Some(reached)
            } else {
                None
            }
        }
    }
}

/// Gives the type of the first operand of a chain.
#[tactic(auto, using(crate::proofs::Layers::operator_is))]
pub fn first_type(first: &Expr, second: &Operand) -> Ty
    ensures { result ≡ spec.first_type (spec.value_code first.now) (spec.operator_of second.now) }
{
    operand_type(second.op, second.ty, type_of(first), type_of(&second.right))
}

/// Gives the type of an operator's operands, where they have these types of their own.
fn operand_type(op: BinaryOp, ty: Ty, left: Option<Ty>, right: Option<Ty>) -> Ty
    ensures { result ≡ spec.operand_type op ty left right }
{
    match op {
        BinaryOp::Equal
        | BinaryOp::Unequal
        | BinaryOp::Less
        | BinaryOp::LessEqual
        | BinaryOp::Greater
        | BinaryOp::GreaterEqual => common_type(left, right),
        BinaryOp::Add
        | BinaryOp::Subtract
        | BinaryOp::Multiply
        | BinaryOp::Divide
        | BinaryOp::Modulo
        | BinaryOp::Remainder
        | BinaryOp::And
        | BinaryOp::Or
        | BinaryOp::Xor => ty,
    }
}

/// Gives the one type of the operands of a relation (RM 4.5.2).
fn common_type(left: Option<Ty>, right: Option<Ty>) -> Ty
    ensures { result ≡ spec.common_type left right }
{
    match left {
        Some(ty) => ty,
        None => right.unwrap_or(Ty::Integer),
    }
}
