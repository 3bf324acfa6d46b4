//! What is known of an expression before its type: where it stands, and whether operands are joined strings.

ghost use Rattle.std.specs.Prelude.{◌≡◌, ◌&&◌, not, ◌∷◌, map};
ghost use Rattle.ctl_typing.specs.Senses as senses;
ghost use Rattle.ctl_typing.specs.Typing as spec;

use crate::found::Adopts;
use ctl_syntax::denoted::Use;
use ctl_syntax::expression::Expression;
use ctl_syntax::operators::{ArithmeticOperator, Operand, UnaryOperator};
use ctl_tree::span::Span;

/// Answers where an expression begins.
pub fn place_of(x: &Expression<Use>) -> Span
    ensures { result ≡ (spec.sense x.now).place }
{
    match x {
        Expression::Logical(place, _, _, _, _)
        | Expression::Relation(place, _, _, _)
        | Expression::Chain(place, _, _, _)
        | Expression::Unary(place, _, _)
        | Expression::Number(place, _)
        | Expression::String(place, _)
        | Expression::Null(place)
        | Expression::Name(place, _)
        | Expression::Parentheses(place, _)
        | Expression::New(place, _, _, _) => *place,
    }
}

/// Answers where an expression begins inside of the parentheses around it.
pub fn place_within(x: &Expression<Use>) -> Span
    ensures { result ≡ (spec.sense x.now).within }
{
    match x {
        Expression::Parentheses(_, inner) => place_within(inner.get()),
        _ => place_of(x),
    }
}

/// Tells whether an operator joins strings.
fn is_joining(operator: ArithmeticOperator) -> bool
    ensures { result ≡ spec.is_joining operator }
{
    match operator {
        ArithmeticOperator::Concatenate => true,
        _ => false,
    }
}

/// Tells whether some operand stands behind an operator that joins strings.
pub fn has_joining(second: &Operand<Expression<Use>>, rest: &[Operand<Expression<Use>>]) -> bool
    ensures { result ≡ spec.has_joining (senses.operand_sense second.now ∷ map senses.operand_sense rest.now) }
{
    if is_joining(second.operator) {
        return true;
    }
    for operand in rest {
        if is_joining(operand.operator) {
            return true;
        }
    }
    false
}

/// Tells whether all operands stand behind operators that join strings.
pub fn all_joining(second: &Operand<Expression<Use>>, rest: &[Operand<Expression<Use>>]) -> bool
    ensures { result ≡ spec.all_joining (senses.operand_sense second.now ∷ map senses.operand_sense rest.now) }
{
    if !is_joining(second.operator) {
        return false;
    }
    for operand in rest {
        if !is_joining(operand.operator) {
            return false;
        }
    }
    true
}

/// Tells whether an expression takes on a type from its place.
pub fn takes_on(adopts: Adopts) -> bool
    ensures { result ≡ spec.adopts adopts }
{
    match adopts {
        Adopts::Nothing => false,
        Adopts::Numbers | Adopts::Accesses => true,
    }
}

/// Answers what operations on two operands take on: on literals alone, what literals do.
fn joint(first: Adopts, second: Adopts) -> Adopts
    ensures { result ≡ spec.joint first second }
{
    match (first, second) {
        (Adopts::Numbers, Adopts::Numbers) => Adopts::Numbers,
        _ => Adopts::Nothing,
    }
}

/// Answers what an operation on one operand takes on.
fn of_unary(operator: UnaryOperator, operand: Adopts) -> Adopts
    ensures { result ≡ spec.of_unary operator operand }
{
    match operator {
        UnaryOperator::Not => Adopts::Nothing,
        UnaryOperator::Plus | UnaryOperator::Minus | UnaryOperator::Abs => joint(operand, operand),
    }
}

/// Answers which types an expression takes on from its place.
#[cycle(adopts)]
pub fn adopts(x: &Expression<Use>) -> Adopts
    ensures { result ≡ (spec.sense x.now).adopts }
{
    match x {
        Expression::Number(_, _) => Adopts::Numbers,
        Expression::Null(_) => Adopts::Accesses,
        Expression::Unary(_, operator, operand) => of_unary(*operator, adopts(operand.get())),
        Expression::Parentheses(_, inner) => adopts(inner.get()),
        Expression::Chain(_, first, second, rest) => {
            all_adopt(first.get(), second.get(), rest.as_slice())
        }
        Expression::Logical(_, _, _, _, _)
        | Expression::Relation(_, _, _, _)
        | Expression::String(_, _)
        | Expression::Name(_, _)
        | Expression::New(_, _, _, _) => Adopts::Nothing,
    }
}

/// Answers which types a chain takes on: on literals alone, what literals do.
#[cycle(adopts)]
fn all_adopt(
    first: &Expression<Use>,
    second: &Operand<Expression<Use>>,
    rest: &[Operand<Expression<Use>>],
) -> Adopts
    ensures { result ≡ spec.all_adopt (spec.sense first.now).adopts (senses.operand_sense second.now ∷ map senses.operand_sense rest.now) }
{
    let mut so_far = joint(adopts(first), adopts(&second.operand));
    for operand in rest {
        so_far = joint(so_far, adopts(&operand.operand));
    }
    so_far
}

/// Tells whether the left one of two operands takes on the type of the right one: that one has a type of its own, and the left one none.
pub fn is_led_by_right(left: &Expression<Use>, right: &Expression<Use>) -> bool
    ensures { result ≡ (spec.adopts (spec.sense left.now).adopts && not (spec.adopts (spec.sense right.now).adopts)) }
{
    takes_on(adopts(left)) && !takes_on(adopts(right))
}

/// Answers where the first operand stands that has a type of its own.
pub fn parted(operands: &[Operand<Expression<Use>>]) -> Option<usize>
    ensures { senses.Parted operands.now result }
{
    for (at, operand) in operands.iter().enumerate() {
        if !takes_on(adopts(&operand.operand)) {
            return Some(at);
        }
    }
    None
}
