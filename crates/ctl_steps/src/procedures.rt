//! Which actuals are passed by reference (RM 6.2).

ghost use Rattle.std.specs.Prelude.{◌≡◌};
ghost use Rattle.ctl_code.specs.Kinds.{stack_at};
ghost use Rattle.ctl_places.specs.Passing.{is_part_at};

use ctl_code::code::Code;
use ctl_code::kinds::Kind;
use ctl_program::types::Ty;

/// Tells whether the operand under so many newer ones before the instruction at a place is a part of an object, or the value of a record
/// (RM 6.2).
pub fn is_part(code: &Code, place: usize, depth: usize) -> bool
    ensures { result ≡ is_part_at (stack_at code.now.kinds place) depth }
{
    matches!(
        code.kinds.kind_at(place, depth),
        Some(Kind::Operand(Ty::Record(_)))
    )
}
