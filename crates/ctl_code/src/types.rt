//! The types of operands, and what the operators take and give (RM 4.5).

ghost use Rattle.std.specs.Prelude.{◌≡◌, ◌↔◌, IsTrue};
ghost use Rattle.ctl_code.specs.Valid.{BinaryOf, IsCellOf, IsNumber, IsScalar, UnaryOf};

use ctl_program::operators::{BinaryOp, UnaryOp};
use ctl_program::types::Ty;

/// Tells whether both are one type.
pub fn is_same_type(left: Ty, right: Ty) -> bool
    ensures { IsTrue result ↔ (left ≡ right) }
{
    match left {
        Ty::Integer => matches!(right, Ty::Integer),
        Ty::Count => matches!(right, Ty::Count),
        Ty::Boolean => matches!(right, Ty::Boolean),
        Ty::Address => matches!(right, Ty::Address),
        Ty::Handle => matches!(right, Ty::Handle),
        Ty::Access(number) => matches!(right, Ty::Access(other) if other == number),
        Ty::Record(number) => matches!(right, Ty::Record(other) if other == number),
    }
}

/// Tells whether a value of this type is one cell.
pub fn is_scalar(ty: Ty) -> bool
    ensures { IsTrue result ↔ IsScalar ty }
{
    match ty {
        Ty::Integer | Ty::Count | Ty::Boolean | Ty::Address | Ty::Handle | Ty::Access(_) => true,
        Ty::Record(_) => false,
    }
}

/// Tells whether its values are numbers (RM 4.5.3).
pub fn is_number(ty: Ty) -> bool
    ensures { IsTrue result ↔ IsNumber ty }
{
    match ty {
        Ty::Integer | Ty::Count => true,
        Ty::Boolean | Ty::Address | Ty::Handle | Ty::Access(_) | Ty::Record(_) => false,
    }
}

/// Tells whether a cell is a value of this type.
pub fn is_cell_of(ty: Ty, cell: u64) -> bool
    ensures { IsTrue result ↔ IsCellOf ty cell }
{
    match ty {
        Ty::Boolean => cell <= 1,
        Ty::Integer | Ty::Count | Ty::Address | Ty::Handle | Ty::Access(_) => true,
        Ty::Record(_) => false,
    }
}

/// Tells whether it is an operator of an operand of the one type that gives the other (RM 4.5.4, 4.5.6, 4.6).
pub fn is_unary_of(op: UnaryOp, operand: Ty, ty: Ty) -> bool
    ensures { IsTrue result ↔ UnaryOf op operand ty }
{
    match op {
        UnaryOp::Not => is_same_type(operand, Ty::Boolean) && is_same_type(ty, Ty::Boolean),
        UnaryOp::Plus | UnaryOp::Minus | UnaryOp::Abs => is_number(operand) && is_number(ty),
    }
}

/// Tells whether it is an operator of two operands of the one type that gives the other (RM 4.5.1 to 4.5.5).
pub fn is_binary_of(op: BinaryOp, operand: Ty, ty: Ty) -> bool
    ensures { IsTrue result ↔ BinaryOf op operand ty }
{
    match op {
        BinaryOp::And | BinaryOp::Or | BinaryOp::Xor => {
            is_same_type(operand, Ty::Boolean) && is_same_type(ty, Ty::Boolean)
        }
        BinaryOp::Equal
        | BinaryOp::Unequal
        | BinaryOp::Less
        | BinaryOp::LessEqual
        | BinaryOp::Greater
        | BinaryOp::GreaterEqual => is_scalar(operand) && is_same_type(ty, Ty::Boolean),
        BinaryOp::Add
        | BinaryOp::Subtract
        | BinaryOp::Multiply
        | BinaryOp::Divide
        | BinaryOp::Modulo
        | BinaryOp::Remainder => is_number(ty) && is_same_type(operand, ty),
    }
}
