//! The operators, on cells (RM 4.5).
#![tactic(auto, unfolding(ctl_meaning::specs::Numbers::signed, ctl_meaning::specs::Numbers::cell_of, ctl_meaning::specs::Numbers::truth, ctl_meaning::specs::Numbers::is_true, ctl_meaning::specs::Numbers::lowest, ctl_meaning::specs::Numbers::in_range, ctl_meaning::specs::Numbers::held, ctl_meaning::specs::Numbers::absolute, ctl_meaning::specs::Numbers::unary, ctl_meaning::specs::Numbers::same_sign, ctl_meaning::specs::Numbers::is_zero, ctl_meaning::specs::Numbers::with_sign_of, ctl_meaning::specs::Numbers::modulo, ctl_meaning::specs::Numbers::by_nonzero, ctl_meaning::specs::Numbers::binary))]

ghost use Rattle.std.specs.Prelude.{◌≡◌, ◌≢◌, ◌≤◌, IsTrue, pos, ◌+ℤ◌, ◌-ℤ◌, ◌*ℤ◌, int_div, int_rem};
ghost use Rattle.ctl_program.specs.Limits.{integer_last};
ghost use Rattle.ctl_program.specs.declared.operators.BinaryOp.TheVariants.{Divide, Modulo, Remainder};
ghost use Rattle.ctl_meaning.specs.Numbers as Numbers;

use ctl_program::limits::{INTEGER_FIRST, INTEGER_LAST, INTEGER_LAST_CELL};
use ctl_program::operators::{BinaryOp, UnaryOp};
use ctl_program::types::Ty;

/// Answers the number in a cell: a negative one counts down from 2 ** 64.
pub fn signed(cell: u64) -> i64
    ensures { result ≡ Numbers.signed cell }
{
    cell.cast_signed()
}

/// Answers the cell of a number.
pub fn cell_of(number: i64) -> u64
    ensures { result ≡ Numbers.cell_of number }
{
    number.cast_unsigned()
}

/// Answers the cell of a truth value: 1 or 0.
fn truth(value: bool) -> u64
    ensures { result ≡ Numbers.truth value }
{
    u64::from(value)
}

/// Tells whether a cell is True.
pub fn is_true(cell: u64) -> bool
    ensures { result ≡ Numbers.is_true cell }
{
    cell != 0
}

/// Tells whether a number is in the range of this type (RM 3.5.4, 13.7.1).
fn is_in_range(ty: Ty, number: i64) -> bool
    ensures { result ≡ Numbers.in_range ty number }
{
    if number < INTEGER_FIRST || INTEGER_LAST < number {
        return false;
    }
    match ty {
        Ty::Count => 0 <= number,
        _ => true,
    }
}

/// Answers the cell of a number of this type; none where it is out of range, which raises Constraint_Error (RM 3.5.4).
fn held(ty: Ty, number: i64) -> Option<u64>
    ensures { result ≡ Numbers.held ty number }
{
    if is_in_range(ty, number) {
        Some(cell_of(number))
    } else {
        None
    }
}

/// Tells whether both cells are numbers from 0 to Integer'Last.
#[inline(always)]
fn are_natural(left: u64, right: u64) -> bool
    ensures left { IsTrue result → left ≤ integer_last }
    ensures right { IsTrue result → right ≤ integer_last }
{
    left <= INTEGER_LAST_CELL && right <= INTEGER_LAST_CELL
}

/// Answers the cell of this natural number, where it is in the range of Integer.
#[inline(always)]
fn held_natural(ty: Ty, number: u64) -> Option<u64>
    ensures { result ≡ Numbers.held ty (pos number) }
{
    let _ = ty;
    if number <= INTEGER_LAST_CELL {
        Some(number)
    } else {
        None
    }
}

/// Answers the cell of a sum.
// Most numbers are natural, and of two of them no sum, difference or product is out of the range of a cell.
#[inline(always)]
fn sum(ty: Ty, left: u64, right: u64) -> Option<u64>
    ensures { result ≡ Numbers.held ty (Numbers.signed left +ℤ Numbers.signed right) }
{
    if are_natural(left, right) {
        return held_natural(ty, left + right);
    }
    held(ty, signed(left).checked_add(signed(right))?)
}

/// Answers the cell of a difference.
#[inline(always)]
fn difference(ty: Ty, left: u64, right: u64) -> Option<u64>
    ensures { result ≡ Numbers.held ty (Numbers.signed left -ℤ Numbers.signed right) }
{
    if are_natural(left, right) && right <= left {
        return Some(left - right);
    }
    held(ty, signed(left).checked_sub(signed(right))?)
}

/// Answers the cell of a product.
#[inline(always)]
fn product(ty: Ty, left: u64, right: u64) -> Option<u64>
    ensures { result ≡ Numbers.held ty (Numbers.signed left *ℤ Numbers.signed right) }
{
    if are_natural(left, right) {
        return held_natural(ty, left * right);
    }
    held(ty, signed(left).checked_mul(signed(right))?)
}

/// Answers the cell of a quotient, which is truncated toward zero (RM 4.5.5).
fn quotient(ty: Ty, left: i64, right: i64) -> Option<u64>
    requires { right ≢ pos 0 }
    ensures { result ≡ Numbers.held ty (int_div left right) }
{
    held(ty, left.checked_div(right)?)
}

/// Answers the remainder with the sign of the left operand (RM 4.5.5).
fn remainder(left: i64, right: i64) -> i64
    requires { right ≢ pos 0 }
    ensures { result ≡ int_rem left right }
{
    left.wrapping_rem(right)
}

/// Answers the remainder with the sign of the right operand (RM 4.5.5).
fn modulo(left: i64, right: i64) -> i64
    requires { right ≢ pos 0 }
    ensures { result ≡ Numbers.modulo left right }
{
    let rest = remainder(left, right);
    if rest == 0 || (rest < 0) == (right < 0) {
        rest
    } else {
        rest + right
    }
}

/// Applies an operator with one operand (RM 4.5.4, 4.5.6); none where Constraint_Error is raised.
pub fn unary(op: UnaryOp, ty: Ty, cell: u64) -> Option<u64>
    ensures { result ≡ Numbers.unary op ty cell }
{
    let number = signed(cell);
    match op {
        UnaryOp::Plus => held(ty, number),
        UnaryOp::Minus => difference(ty, 0, cell),
        UnaryOp::Abs => held(ty, number.checked_abs()?),
        UnaryOp::Not => Some(truth(!is_true(cell))),
    }
}

/// Answers the cell of a quotient, none where the divisor is zero (RM 4.5.5).
#[inline(always)]
fn divided(ty: Ty, left: u64, right: u64) -> Option<u64>
    ensures { result ≡ Numbers.binary Divide ty left right }
{
    if right == 0 {
        return None;
    }
    if are_natural(left, right) {
        return Some(left / right);
    }
    quotient(ty, signed(left), signed(right))
}

/// Answers the cell of the remainder with the sign of the left operand, none where the divisor is zero (RM 4.5.5).
#[inline(always)]
fn left_over(ty: Ty, left: u64, right: u64) -> Option<u64>
    ensures { result ≡ Numbers.binary Remainder ty left right }
{
    if right == 0 {
        return None;
    }
    if are_natural(left, right) {
        return Some(left % right);
    }
    held(ty, remainder(signed(left), signed(right)))
}

/// Answers the cell of the remainder with the sign of the right operand, none where the divisor is zero (RM 4.5.5).
#[inline(always)]
fn reduced(ty: Ty, left: u64, right: u64) -> Option<u64>
    ensures { result ≡ Numbers.binary Modulo ty left right }
{
    if right == 0 {
        return None;
    }
    if are_natural(left, right) {
        return Some(left % right);
    }
    held(ty, modulo(signed(left), signed(right)))
}

/// Applies an operator with two operands (RM 4.5); none where Constraint_Error is raised.
#[inline(always)]
pub fn binary(op: BinaryOp, ty: Ty, left: u64, right: u64) -> Option<u64>
    ensures { result ≡ Numbers.binary op ty left right }
{
    match op {
        BinaryOp::Add => sum(ty, left, right),
        BinaryOp::Subtract => difference(ty, left, right),
        BinaryOp::Multiply => product(ty, left, right),
        BinaryOp::Divide => divided(ty, left, right),
        BinaryOp::Modulo => reduced(ty, left, right),
        BinaryOp::Remainder => left_over(ty, left, right),
        BinaryOp::And => Some(truth(is_true(left) && is_true(right))),
        BinaryOp::Or => Some(truth(is_true(left) || is_true(right))),
        BinaryOp::Xor | BinaryOp::Unequal => Some(truth(left != right)),
        BinaryOp::Equal => Some(truth(left == right)),
        BinaryOp::Less => Some(truth(signed(left) < signed(right))),
        BinaryOp::LessEqual => Some(truth(signed(left) <= signed(right))),
        BinaryOp::Greater => Some(truth(signed(right) < signed(left))),
        BinaryOp::GreaterEqual => Some(truth(signed(right) <= signed(left))),
    }
}
