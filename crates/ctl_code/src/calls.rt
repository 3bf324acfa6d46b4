//! Whether the call of a subprogram is well formed, and what follows it: it is declared where it is called, its actuals stand on top, and
//! copies go back from there (RM 6.4, 6.4.1).

ghost use Rattle.std.specs.Prelude.{◌≡◌, ◌↔◌, ℕ, ◌+◌, ◌<◌, ◌^◌, IsTrue};
ghost use Rattle.ctl_program.specs.declared.operators.CopyStart.{CopyStart};
ghost use Rattle.ctl_code.specs.declared.code.Instr.TheVariants as I;
ghost use Rattle.ctl_code.specs.Kinds.{stack_at};
ghost use Rattle.ctl_code.specs.Valid.{CanKeep, HasFormals, HaveOperands, IsCalled, IsFine, IsNumberAt, IsOperandAt};

use crate::around::has_home;
use crate::code::Code;
use crate::fine::{has, is_bare, is_operand, leads_on, puts_operand};
use crate::homes::Declaration;
use crate::kinds::Kind;
use crate::layouts::is_in_scope;
use crate::tables::entry_at;
use crate::types::is_scalar;
use ctl_program::operators::SubprogramKind;
use ctl_program::types::Ty;

/// Checks the call of a procedure or of a function (RM 6.4): it is declared in a master that is seen, has slots for its actuals, these
/// stand on top, and the masters around its declaration stand around the call.
fn is_called(code: &Code, place: usize, kind: SubprogramKind, number: usize, actuals: usize) -> bool
    ensures { IsTrue result ↔ IsCalled code.now kind number actuals (stack_at code.now.kinds place) }
{
    is_in_scope(code, code.kinds.depth_at(place), Some(number))
        && has_formals(code, kind, number, actuals)
        && has_operands(code, place, actuals)
        && has_home(code, place, Declaration::Subprogram(number))
}

/// Checks the call of a procedure, which leaves so many numbers in the place of its actuals, at most as many as these (RM 6.4, 6.4.1).
pub(crate) fn is_call_fine(
    code: &Code,
    place: usize,
    number: usize,
    actuals: usize,
    copies: usize,
) -> bool
    requires { place + 1 < 2 ^ 64 }
    ensures { IsTrue result ↔ IsFine code.now place (I.Call number actuals copies) (stack_at code.now.kinds place) }
{
    is_called(code, place, SubprogramKind::Procedure, number, actuals)
        && copies <= actuals
        && code
            .kinds
            .leads_over_numbers(place, actuals, None, copies, place + 1)
}

/// Checks that a copy goes back to a variable: it is the last of so many numbers, in this cell (RM 6.4.1).
pub(crate) fn is_copy_back_fine(
    code: &Code,
    place: usize,
    depth: usize,
    at: usize,
    out: usize,
    slot: usize,
) -> bool
    requires { place + 1 < 2 ^ 64 }
    ensures { IsTrue result ↔ IsFine code.now place (I.CopyBack depth at out slot) (stack_at code.now.kinds place) }
{
    depth >= 1
        && code.kinds.has_numbers(place, depth)
        && code.kinds.height_at(place, depth) == at
        && leads_on(code, place, 0, None)
        && code.kinds.has_slot(place, out, slot, &code.homes)
}

/// Checks that so many zeros are put, the first in this cell (RM 6.4.1).
pub(crate) fn is_reserve_fine(code: &Code, place: usize, count: usize, at: usize) -> bool
    requires { place + 1 < 2 ^ 64 }
    ensures { IsTrue result ↔ IsFine code.now place (I.Reserve count at) (stack_at code.now.kinds place) }
{
    code.kinds.height_at(place, 0) == at
        && code
            .kinds
            .leads_over_numbers(place, 0, None, count, place + 1)
}

/// Checks that a part can be kept: the last two of so many operands, under a newest one, are numbers, which begin in this cell (RM 6.4.1).
fn can_keep(code: &Code, place: usize, depth: usize, kept: usize) -> bool
    ensures { IsTrue result ↔ CanKeep depth kept (stack_at code.now.kinds place) }
{
    depth >= 3
        && has_operands(code, place, depth)
        && has(code, place, depth - 2, Kind::Operand(Ty::Integer))
        && has(code, place, depth - 1, Kind::Operand(Ty::Integer))
        && code.kinds.height_at(place, depth) == kept
}

/// Checks that a part is kept, which stands on top in the cell `at`, and that the copy of a component of this type takes its place (RM 6.4.1).
pub(crate) fn is_keep_part_fine(
    code: &Code,
    place: usize,
    record: usize,
    ty: Ty,
    depth: usize,
    kept: usize,
    at: usize,
) -> bool
    requires { place + 1 < 2 ^ 64 }
    ensures { (position : ℕ) (begins : CopyStart) → IsTrue result ↔ IsFine code.now place (I.KeepPart «record» position begins ty depth kept at) (stack_at code.now.kinds place) }
{
    is_scalar(ty)
        && can_keep(code, place, depth, kept)
        && is_operand(code, place, 0, at, Ty::Record(record))
        && leads_on(code, place, 1, Some(Kind::Operand(ty)))
}

/// Tells whether the last of so many numbers on top stands in this cell.
fn is_number_at(code: &Code, place: usize, depth: usize, at: usize) -> bool
    ensures { IsTrue result ↔ IsNumberAt depth at (stack_at code.now.kinds place) }
{
    code.kinds.has_numbers(place, depth) && code.kinds.height_at(place, depth) == at
}

/// Checks that a copy goes back to a component: it is the last of so many numbers, and the part is kept in the last two of `below` (RM 6.4.1).
pub(crate) fn is_copy_back_part_fine(
    code: &Code,
    place: usize,
    depth: usize,
    at: usize,
    below: usize,
    kept: usize,
) -> bool
    requires { place + 1 < 2 ^ 64 }
    ensures { (t position : ℕ) → IsTrue result ↔ IsFine code.now place (I.CopyBackPart depth at below kept t position) (stack_at code.now.kinds place) }
{
    depth >= 1
        && is_number_at(code, place, depth, at)
        && below >= 2
        && is_number_at(code, place, below, kept)
        && leads_on(code, place, 0, None)
}

/// Checks that so many numbers are dropped.
pub(crate) fn is_discard_fine(code: &Code, place: usize, count: usize) -> bool
    requires { place + 1 < 2 ^ 64 }
    ensures { IsTrue result ↔ IsFine code.now place (I.Discard count) (stack_at code.now.kinds place) }
{
    code.kinds.has_numbers(place, count) && leads_on(code, place, count, None)
}

/// Checks the call of a function, which leaves its value in the place of its actuals (RM 6.4).
pub(crate) fn is_evaluate_fine(
    code: &Code,
    place: usize,
    number: usize,
    actuals: usize,
    ty: Ty,
    at: usize,
) -> bool
    requires { place + 1 < 2 ^ 64 }
    ensures { IsTrue result ↔ IsFine code.now place (I.Evaluate number actuals ty at) (stack_at code.now.kinds place) }
{
    is_scalar(ty)
        && is_called(code, place, SubprogramKind::Function, number, actuals)
        && puts_operand(code, place, actuals, at, ty)
}

/// Checks the call of a function that gives a record of this type, which leaves its value in the place of its actuals (RM 6.4).
pub(crate) fn is_record_fine(
    code: &Code,
    place: usize,
    number: usize,
    actuals: usize,
    record: usize,
    at: usize,
) -> bool
    requires { place + 1 < 2 ^ 64 }
    ensures { IsTrue result ↔ IsFine code.now place (I.EvaluateRecord number actuals «record» at) (stack_at code.now.kinds place) }
{
    is_called(code, place, SubprogramKind::Function, number, actuals)
        && puts_operand(code, place, actuals, at, Ty::Record(record))
}

/// Tells whether both are procedures, or both are functions.
fn is_same_subprogram(kind: SubprogramKind, other: SubprogramKind) -> bool
    ensures { IsTrue result ↔ (kind ≡ other) }
{
    match kind {
        SubprogramKind::Procedure => matches!(other, SubprogramKind::Procedure),
        SubprogramKind::Function => matches!(other, SubprogramKind::Function),
    }
}

/// Tells whether it is a procedure, or a function, whose body has slots for so many formals (RM 6.1).
pub(crate) fn has_formals(code: &Code, kind: SubprogramKind, number: usize, count: usize) -> bool
    ensures { IsTrue result ↔ HasFormals code.now kind number count }
{
    match entry_at(code, number) {
        Some(entry) => is_same_subprogram(entry.kind, kind) && count <= entry.slots,
        None => false,
    }
}

/// Checks the start of the main procedure, which is declared in no master (RM 10.2).
pub(crate) fn is_start_fine(code: &Code, place: usize, number: usize) -> bool
    ensures { IsTrue result ↔ IsFine code.now place (I.Start number) (stack_at code.now.kinds place) }
{
    is_bare(code, place)
        && is_in_scope(code, 0, Some(number))
        && has_formals(code, SubprogramKind::Procedure, number, 0)
}

/// Tells whether an operand stands before an instruction, at this place from the newest on.
fn is_operand_at(code: &Code, place: usize, depth: usize) -> bool
    ensures { IsTrue result ↔ IsOperandAt (stack_at code.now.kinds place) depth }
{
    matches!(code.kinds.kind_at(place, depth), Some(Kind::Operand(_)))
}

/// Tells whether so many operands stand on top before an instruction.
fn has_operands(code: &Code, place: usize, count: usize) -> bool
    ensures { IsTrue result ↔ HaveOperands count (stack_at code.now.kinds place) }
{
    for depth in 0..count {
        if !is_operand_at(code, place, depth) {
            return false;
        }
    }
    true
}
