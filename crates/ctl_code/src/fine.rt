//! Whether an instruction is well formed: it finds in the window what it takes, where it says, and leads to places before which there
//! stands what it leaves.

ghost use Rattle.std.specs.Prelude.{◌≡◌, ◌↔◌, ℕ, ◌+◌, ◌-◌, ◌<◌, ◌≤◌, ◌^◌, ◌∷◌, [], drop, length, reverse, slice_get, IsTrue, List, MatchOption, Some};
ghost use Rattle.ctl_program.specs.declared.types.Ty.TheVariants.{Boolean, Integer, Record};
ghost use Rattle.ctl_code.specs.declared.kinds.Kind.{Kind};
ghost use Rattle.ctl_code.specs.declared.kinds.Kind.TheVariants.{Block, Operand};
ghost use Rattle.ctl_program.specs.declared.operators.Direction.{Direction};
ghost use Rattle.ctl_code.specs.declared.code.Cell.{Cell};
ghost use Rattle.ctl_code.specs.declared.code.Operator.{Operator};
ghost use Rattle.ctl_code.specs.declared.code.Instr.TheVariants as I;
ghost use Rattle.ctl_code.specs.Kinds.{changed, stack_at};
ghost use Rattle.ctl_code.specs.Valid.{Bounded, DropsPart, IsAtEnd, IsDeclarable, IsEntry, IsFine, HasVariable, IsScalar, IsText, Leads, Puts, Taken, Takes, Under};
ghost use Rattle.ctl_code.specs.declared.homes.Declaration.TheVariants as DeclarationOf;
ghost use Rattle.ctl_code.specs.Windows.{HasHome, HasSlot, OwnsSlot, depth, height, variable_at};

use crate::accesses::{
    has_variable, is_free_fine, is_free_part_fine, is_gather_fine, is_given_fine, is_new_copy_fine,
    is_new_copy_in_fine, is_new_fine, is_new_in_fine,
};
use crate::around::has_home;
use crate::calls::{
    is_call_fine, is_copy_back_fine, is_copy_back_part_fine, is_discard_fine, is_evaluate_fine,
    is_keep_part_fine, is_record_fine, is_reserve_fine, is_start_fine,
};
use crate::code::{Cell, Code, Instr, Named, Operator, Way};
use crate::homes::Declaration;
use crate::images::count_images;
use crate::kinds::{Kind, is_same_kind};
use crate::layouts::is_declarable;
use crate::pools::{is_giving_fine, is_pool_fine, is_taking_fine, is_taking_into_fine};
use crate::types::{is_binary_of, is_cell_of, is_scalar, is_unary_of};
use ctl_program::types::{Ty, Var};

// Where an instruction leads -------------------------------------------------------------------

/// Tells whether the change of the stack that an instruction makes leads to the next place.
pub(crate) fn leads_on(code: &Code, place: usize, taken: usize, new: Option<Kind>) -> bool
    requires { place + 1 < 2 ^ 64 }
    ensures { IsTrue result ↔ Leads code.now (place + 1) (changed taken new (stack_at code.now.kinds place)) }
{
    code.kinds.leads(place, taken, new, place + 1)
}

/// Tells whether what is left leads so many instructions further than the next place.
fn leads_ahead(code: &Code, place: usize, taken: usize, count: usize) -> bool
    requires { place + 1 < 2 ^ 64 }
    ensures { IsTrue result ↔ Leads code.now (place + 1 + count) (drop taken (stack_at code.now.kinds place)) }
{
    count < code.kinds.len().saturating_sub(place + 1)
        && code.kinds.leads(place, taken, None, place + 1 + count)
}

/// Tells whether what is left leads to the place behind that one.
fn leads_behind(code: &Code, place: usize, taken: usize, count: usize) -> bool
    requires { place + 1 < 2 ^ 64 }
    ensures { IsTrue result ↔ Leads code.now (place + 1 + count + 1) (drop taken (stack_at code.now.kinds place)) }
{
    count < code.kinds.len().saturating_sub(place + 1).saturating_sub(1)
        && code.kinds.leads(place, taken, None, place + 1 + count + 1)
}

/// Tells whether the stack, as it is, leads so many instructions back.
fn leads_back(code: &Code, place: usize, count: usize) -> bool
    ensures { IsTrue result ↔ ((count ≤ place) × Leads code.now (place - count) (stack_at code.now.kinds place)) }
{
    count <= place && code.kinds.leads(place, 0, None, place - count)
}

/// Tells whether what is left leads to the next place, and so many instructions further.
fn branches(code: &Code, place: usize, taken: usize, count: usize) -> bool
    requires { place + 1 < 2 ^ 64 }
    ensures { let below = drop taken (stack_at code.now.kinds place) in
        IsTrue result ↔ (Leads code.now (place + 1) below × Leads code.now (place + 1 + count) below) }
{
    leads_on(code, place, taken, None) && leads_ahead(code, place, taken, count)
}

// Tables ---------------------------------------------------------------------------------------

/// Tells whether it is the number of a body.
pub fn is_entry(code: &Code, number: usize) -> bool
    ensures { IsTrue result ↔ IsEntry code.now number }
{
    number < code.entries.len()
}

// Cells ----------------------------------------------------------------------------------------

/// Tells whether this stands on top, under so many newer ones.
pub(crate) fn has(code: &Code, place: usize, depth: usize, kind: Kind) -> bool
    ensures { IsTrue result ↔ (slice_get (stack_at code.now.kinds place) depth ≡ Some kind) }
{
    match code.kinds.kind_at(place, depth) {
        Some(other) => is_same_kind(other, kind),
        None => false,
    }
}

/// Tells whether an operand of this type stands in this cell, under so many newer ones.
pub(crate) fn is_operand(code: &Code, place: usize, before: usize, at: usize, ty: Ty) -> bool
    requires { before + 1 < 2 ^ 64 }
    ensures { let stack = stack_at code.now.kinds place in
        IsTrue result ↔ ((drop before stack ≡ Operand ty ∷ drop (before + 1) stack) × (at ≡ height (drop (before + 1) stack))) }
{
    has(code, place, before, Kind::Operand(ty)) && code.kinds.height_at(place, before + 1) == at
}

/// Tells whether this is the cell of a slot of the master so many further out, under so many newer ones.
fn is_variable(code: &Code, place: usize, before: usize, at: usize, out: usize, slot: usize) -> bool
    ensures { IsTrue result ↔ (variable_at (drop before (stack_at code.now.kinds place)) out slot ≡ Some at) }
{
    match code.kinds.variable_at(place, before, out, slot) {
        Some(cell) => cell == at,
        None => false,
    }
}

/// Answers how many of the newest are taken with the value of a cell, where so many were taken before; None where the cell has no value
/// of this type.
fn taken(code: &Code, place: usize, before: usize, cell: Cell, ty: Ty) -> Option<usize>
    requires { before + 1 < 2 ^ 64 }
    ensures { let stack = stack_at code.now.kinds place in
        MatchOption result ((below : List Kind) → Taken cell ty (drop before stack) below → ⊥) (λ sum. (sum ≤ before + 1) × Taken cell ty (drop before stack) (drop sum stack)) }
{
    match cell.named {
        Named::Operand => {
            if is_operand(code, place, before, cell.at, ty) {
                Some(before + 1)
            } else {
                None
            }
        }
        Named::Variable { out, slot } => {
            if is_variable(code, place, before, cell.at, out, slot) {
                Some(before)
            } else {
                None
            }
        }
    }
}

/// Tells whether a new operand stands in this cell, where so many were taken, and the next place finds it.
pub(crate) fn puts_operand(code: &Code, place: usize, taken: usize, at: usize, ty: Ty) -> bool
    requires { place + 1 < 2 ^ 64 }
    ensures { let stack = drop taken (stack_at code.now.kinds place) in
        IsTrue result ↔ ((at ≡ height stack) × Leads code.now (place + 1) (Operand ty ∷ stack)) }
{
    code.kinds.height_at(place, taken) == at
        && leads_on(code, place, taken, Some(Kind::Operand(ty)))
}

/// Tells whether this is the cell of a variable, where so many were taken, and the next place finds what is left.
fn puts_variable(
    code: &Code,
    place: usize,
    taken: usize,
    at: usize,
    out: usize,
    slot: usize,
) -> bool
    requires { place + 1 < 2 ^ 64 }
    ensures { let stack = drop taken (stack_at code.now.kinds place) in
        IsTrue result ↔ ((variable_at stack out slot ≡ Some at) × Leads code.now (place + 1) stack) }
{
    is_variable(code, place, taken, at, out, slot) && leads_on(code, place, taken, None)
}

/// Tells whether a value of this type may be put into a cell, where so many were taken.
fn puts(code: &Code, place: usize, taken: usize, cell: Cell, ty: Ty) -> bool
    requires { place + 1 < 2 ^ 64 }
    ensures { IsTrue result ↔ Puts code.now place cell ty (drop taken (stack_at code.now.kinds place)) }
{
    match cell.named {
        Named::Operand => puts_operand(code, place, taken, cell.at, ty),
        Named::Variable { out, slot } => puts_variable(code, place, taken, cell.at, out, slot),
    }
}

/// Tells whether a value is taken from one cell, where so many were taken before, and one is put into another.
fn passes(
    code: &Code,
    place: usize,
    before: usize,
    from: Cell,
    operand: Ty,
    to: Cell,
    ty: Ty,
) -> bool
    requires { (place + 1 < 2 ^ 64) × (before + 1 < 2 ^ 64) }
    ensures { IsTrue result ↔ Takes from operand (drop before (stack_at code.now.kinds place)) (Puts code.now place to ty) }
{
    match taken(code, place, before, from, operand) {
        Some(under) => puts(code, place, under, to, ty),
        None => false,
    }
}

/// Tells whether the two operands of an operator are taken, the right one first, and its result is put.
fn passes_both(code: &Code, place: usize, op: Operator, left: Cell, right: Cell, to: Cell) -> bool
    requires { place + 1 < 2 ^ 64 }
    ensures { IsTrue result ↔ Takes right op.operands (stack_at code.now.kinds place) (λ below. Takes left op.operands below (Puts code.now place to op.result)) }
{
    match taken(code, place, 0, right, op.operands) {
        Some(under) => passes(code, place, under, left, op.operands, to, op.result),
        None => false,
    }
}

/// Tells whether a value is taken from a cell, and the next place finds what is left.
fn drops(code: &Code, place: usize, from: Cell, ty: Ty) -> bool
    requires { place + 1 < 2 ^ 64 }
    ensures { IsTrue result ↔ Takes from ty (stack_at code.now.kinds place) (Leads code.now (place + 1)) }
{
    match taken(code, place, 0, from, ty) {
        Some(under) => leads_on(code, place, under, None),
        None => false,
    }
}

/// Tells whether a part of this record type stands on top, where so many were taken.
pub(crate) fn is_part(code: &Code, place: usize, before: usize, record: usize) -> bool
    requires { before + 1 < 2 ^ 64 }
    ensures { let stack = stack_at code.now.kinds place in
        IsTrue result ↔ (drop before stack ≡ Operand (Record «record») ∷ drop (before + 1) stack) }
{
    has(code, place, before, Kind::Operand(Ty::Record(record)))
}

/// Tells whether a part of this record type stands on top, where so many were taken, and the next place finds what is below it.
pub(crate) fn drops_part(code: &Code, place: usize, before: usize, record: usize) -> bool
    requires { (place + 1 < 2 ^ 64) × (before + 1 < 2 ^ 64) }
    ensures { IsTrue result ↔ DropsPart code.now place «record» (drop before (stack_at code.now.kinds place)) }
{
    is_part(code, place, before, record) && leads_on(code, place, before + 1, None)
}

/// Tells whether a value is taken from a cell, and then a part of this record type.
fn stores_part(code: &Code, place: usize, from: Cell, ty: Ty, record: usize) -> bool
    requires { place + 1 < 2 ^ 64 }
    ensures { IsTrue result ↔ Takes from ty (stack_at code.now.kinds place) (DropsPart code.now place «record») }
{
    match taken(code, place, 0, from, ty) {
        Some(under) => drops_part(code, place, under, record),
        None => false,
    }
}

/// Tells whether a component of a record type takes the place of the part on top (RM 4.1.3).
fn selects(code: &Code, place: usize, record: usize, part: usize) -> bool
    requires { place + 1 < 2 ^ 64 }
    ensures { IsTrue result ↔ Under (Operand (Record «record») ∷ []) (stack_at code.now.kinds place) (λ below. Leads code.now (place + 1) (Operand (Record part) ∷ below)) }
{
    is_part(code, place, 0, record)
        && leads_on(code, place, 1, Some(Kind::Operand(Ty::Record(part))))
}

/// Tells whether a value takes the place of the part on top (RM 4.1.3).
fn takes_part(code: &Code, place: usize, record: usize, ty: Ty, to: Cell) -> bool
    requires { place + 1 < 2 ^ 64 }
    ensures { IsTrue result ↔ Under (Operand (Record «record») ∷ []) (stack_at code.now.kinds place) (Puts code.now place to ty) }
{
    is_part(code, place, 0, record) && puts(code, place, 1, to, ty)
}

/// Tells whether two parts of this record type stand on top, and the next place finds what is below them (RM 5.2).
fn drops_parts(code: &Code, place: usize, record: usize) -> bool
    requires { place + 1 < 2 ^ 64 }
    ensures { IsTrue result ↔ Under (Operand (Record «record») ∷ []) (stack_at code.now.kinds place) (DropsPart code.now place «record») }
{
    is_part(code, place, 0, record) && drops_part(code, place, 1, record)
}

// Instructions ---------------------------------------------------------------------------------

/// Checks the entry of a block (RM 5.6).
fn is_enter_fine(code: &Code, place: usize, slots: usize, length: usize) -> bool
    requires { place + 1 < 2 ^ 64 }
    ensures { IsTrue result ↔ IsFine code.now place (I.Enter slots length) (stack_at code.now.kinds place) }
{
    leads_on(code, place, 0, Some(Kind::Block(slots)))
        && leads_ahead(code, place, 0, length)
        && leads_behind(code, place, 0, length)
}

/// Checks a transfer of control: that the exception is one of the table (RM 11.3), and that an exit statement finds no operand over the newest
/// master (RM 5.7).
fn is_transfer_fine(code: &Code, place: usize, way: Way) -> bool
    ensures { IsTrue result ↔ IsFine code.now place (I.Transfer way) (stack_at code.now.kinds place) }
{
    match way {
        Way::Exit => is_at_end(code, place),
        Way::Return | Way::ReturnValue(_) => true,
        Way::ReturnRecord => false,
        Way::Raise(exception) => exception < code.exceptions.len(),
    }
}

/// Checks the beginning of statements that are handled: that it stands in a master, and so do its handlers (RM 11.2).
fn is_handle_fine(code: &Code, place: usize, length: usize) -> bool
    requires { place + 1 < 2 ^ 64 }
    ensures { IsTrue result ↔ IsFine code.now place (I.Handle length) (stack_at code.now.kinds place) }
{
    is_at_end(code, place) && branches(code, place, 0, length)
}

/// Checks a choice of a handler: that its exception is one of the table (RM 11.2).
fn is_catch_fine(code: &Code, place: usize, exception: usize, length: usize) -> bool
    requires { place + 1 < 2 ^ 64 }
    ensures { IsTrue result ↔ IsFine code.now place (I.Catch exception length) (stack_at code.now.kinds place) }
{
    exception < code.exceptions.len() && branches(code, place, 0, length)
}

/// Checks an operator whose right operand is a constant (RM 4.5).
fn is_constant_fine(
    code: &Code,
    place: usize,
    op: Operator,
    left: Cell,
    right: u64,
    to: Cell,
) -> bool
    requires { place + 1 < 2 ^ 64 }
    ensures { IsTrue result ↔ IsFine code.now place (I.BinaryConstant op left right to) (stack_at code.now.kinds place) }
{
    is_binary_of(op.op, op.operands, op.result)
        && is_cell_of(op.operands, right)
        && passes(code, place, 0, left, op.operands, to, op.result)
}

/// Checks the decision of a short-circuit form, and what follows where there is none (RM 4.5.1).
fn is_undecided(code: &Code, place: usize, at: usize) -> bool
    requires { place + 1 < 2 ^ 64 }
    ensures { IsTrue result ↔ Under (Operand Boolean ∷ []) (stack_at code.now.kinds place) (λ below. (at ≡ height below) × Leads code.now (place + 1) below) }
{
    is_operand(code, place, 0, at, Ty::Boolean) && leads_on(code, place, 1, None)
}

/// Checks that a loop is given up (RM 5.7).
fn is_abandon_fine(code: &Code, place: usize, length: usize) -> bool
    requires { place + 1 < 2 ^ 64 }
    ensures { IsTrue result ↔ IsFine code.now place (I.Abandon length) (stack_at code.now.kinds place) }
{
    has(code, place, 0, Kind::Operand(Ty::Integer))
        && has(code, place, 1, Kind::Operand(Ty::Integer))
        && leads_ahead(code, place, 2, length)
}

/// Checks a condition, and where the execution goes on unless it holds (RM 5.3).
fn is_unless_fine(code: &Code, place: usize, from: Cell, length: usize) -> bool
    requires { place + 1 < 2 ^ 64 }
    ensures { IsTrue result ↔ IsFine code.now place (I.Unless from length) (stack_at code.now.kinds place) }
{
    match taken(code, place, 0, from, Ty::Boolean) {
        Some(under) => branches(code, place, under, length),
        None => false,
    }
}

/// Tells whether the bounds of a loop stand on top, the low one in this cell (RM 5.5).
fn has_bounds(code: &Code, place: usize, low: usize) -> bool
    ensures { let stack = stack_at code.now.kinds place in
        IsTrue result ↔ ((stack ≡ Operand Integer ∷ Operand Integer ∷ drop 2 stack) × (low ≡ height (drop 2 stack))) }
{
    has(code, place, 0, Kind::Operand(Ty::Integer)) && is_operand(code, place, 1, low, Ty::Integer)
}

/// Tells whether the bounds of a loop stand on top, and its parameter is this cell (RM 5.5).
fn is_bounded(code: &Code, place: usize, low: usize, slot: usize, parameter: usize) -> bool
    ensures { let stack = stack_at code.now.kinds place in IsTrue result ↔ Bounded low slot parameter stack (λ below. below ≡ drop 2 stack) }
{
    has_bounds(code, place, low) && is_variable(code, place, 2, parameter, 0, slot)
}

/// Tells whether the first turn of a loop stands behind the next place, and what follows where the loop's length says (RM 5.5).
fn leads_to_turn(code: &Code, place: usize, length: usize) -> bool
    requires { place + 1 < 2 ^ 64 }
    ensures { let stack = stack_at code.now.kinds place in
        IsTrue result ↔ (Leads code.now (place + 2) stack × Leads code.now (place + 1 + length) (drop 2 stack)) }
{
    leads_behind(code, place, 0, 0) && leads_ahead(code, place, 2, length)
}

/// Tells whether the next turn of a loop stands so many instructions back, and what follows at the next place (RM 5.5).
fn leads_back_to_turn(code: &Code, place: usize, length: usize) -> bool
    requires { place + 1 < 2 ^ 64 }
    ensures { let stack = stack_at code.now.kinds place in
        IsTrue result ↔ (((length ≤ place) × Leads code.now (place - length) stack) × Leads code.now (place + 1) (drop 2 stack)) }
{
    leads_back(code, place, length) && leads_on(code, place, 2, None)
}

/// Checks a loop with a parameter: its bounds, its first turn, and what follows (RM 5.5).
fn is_for_fine(
    code: &Code,
    place: usize,
    low: usize,
    slot: usize,
    parameter: usize,
    length: usize,
) -> bool
    requires { place + 1 < 2 ^ 64 }
    ensures { let stack = stack_at code.now.kinds place in
        IsTrue result ↔ Bounded low slot parameter stack (λ below. Leads code.now (place + 2) stack × Leads code.now (place + 1 + length) below) }
{
    is_bounded(code, place, low, slot, parameter) && leads_to_turn(code, place, length)
}

/// Checks the next turn of such a loop (RM 5.5).
fn is_next_fine(
    code: &Code,
    place: usize,
    low: usize,
    slot: usize,
    parameter: usize,
    length: usize,
) -> bool
    requires { place + 1 < 2 ^ 64 }
    ensures { let stack = stack_at code.now.kinds place in
        IsTrue result ↔ ((length ≤ place) × Bounded low slot parameter stack (λ below. Leads code.now (place - length) stack × Leads code.now (place + 1) below)) }
{
    is_bounded(code, place, low, slot, parameter) && leads_back_to_turn(code, place, length)
}

/// Tells whether so many images stand over so many cells, and the next place finds what is left.
fn drops_images(code: &Code, place: usize, images: usize, first: usize) -> bool
    requires { place + 1 < 2 ^ 64 }
    ensures { let below = drop images (stack_at code.now.kinds place) in IsTrue result ↔ ((first ≡ height below) × Leads code.now (place + 1) below) }
{
    code.kinds.height_at(place, images) == first && leads_on(code, place, images, None)
}

/// Checks the text of a number (RM 4.5.3).
fn is_text_fine(code: &Code, place: usize, number: usize, first: usize) -> bool
    requires { place + 1 < 2 ^ 64 }
    ensures { IsTrue result ↔ IsText code.now number first (stack_at code.now.kinds place) (Leads code.now (place + 1)) }
{
    match code.texts.get(number) {
        Some(text) => {
            let parts = text.parts();
            code.kinds.has_images(place, parts)
                && drops_images(code, place, count_images(parts), first)
        }
        None => false,
    }
}

/// Checks the end of the statements of a body or a block.
fn is_at_end(code: &Code, place: usize) -> bool
    ensures { IsTrue result ↔ IsAtEnd (stack_at code.now.kinds place) }
{
    matches!(
        code.kinds.kind_at(place, 0),
        Some(Kind::Block(_) | Kind::Body { .. })
    )
}

/// Tells whether nothing stands before an instruction.
pub(crate) fn is_bare(code: &Code, place: usize) -> bool
    ensures { IsTrue result ↔ (stack_at code.now.kinds place ≡ []) }
{
    matches!(code.kinds.kind_at(place, 0), None)
}

/// Checks a return statement with the value of a cell (RM 6.5).
fn is_return_fine(code: &Code, place: usize, from: Cell, ty: Ty) -> bool
    ensures { IsTrue result ↔ IsFine code.now place (I.Return from ty) (stack_at code.now.kinds place) }
{
    is_scalar(ty) && gives_value(code, place, from, ty)
}

/// Tells whether a part of this record type stands on top, whose value a return statement gives (RM 6.5).
fn gives_record(code: &Code, place: usize, record: usize) -> bool
    ensures { IsTrue result ↔ IsFine code.now place (I.ReturnRecord «record») (stack_at code.now.kinds place) }
{
    is_part(code, place, 0, record)
}

/// Tells whether a cell has a value of this type.
fn gives_value(code: &Code, place: usize, from: Cell, ty: Ty) -> bool
    ensures { IsTrue result ↔ Takes from ty (stack_at code.now.kinds place) (λ below. Unit {0}) }
{
    match taken(code, place, 0, from, ty) {
        Some(_) => true,
        None => false,
    }
}

/// Checks the declaration of an object in a slot of the newest master (RM 3.3.1).
fn is_declare_fine(code: &Code, place: usize, slot: usize, number: usize) -> bool
    requires { place + 1 < 2 ^ 64 }
    ensures { IsTrue result ↔ IsFine code.now place (I.Declare slot number) (stack_at code.now.kinds place) }
{
    is_declarable(code, code.kinds.depth_at(place), number)
        && leads_on(code, place, 0, None)
        && code.kinds.owns_slot(place, slot)
        && has_home(code, place, Declaration::Record(number))
}

/// Checks the declaration of an object in a slot of the newest master with the value of a part (RM 3.3.1).
fn is_copy_fine(code: &Code, place: usize, slot: usize, number: usize) -> bool
    requires { place + 1 < 2 ^ 64 }
    ensures { IsTrue result ↔ IsFine code.now place (I.DeclareCopy slot number) (stack_at code.now.kinds place) }
{
    is_declarable(code, code.kinds.depth_at(place), number)
        && drops_part(code, place, 0, number)
        && code.kinds.owns_slot(place, slot)
        && has_home(code, place, Declaration::Record(number))
}

/// Checks that the value of a variable, whose master may stand around the body, that of a component of the object in such a slot, or an
/// access value of this object is put (RM 4.1, 4.1.3, 3.10.2).
fn is_fetch_fine(code: &Code, place: usize, variable: Var, ty: Ty, to: Cell) -> bool
    requires { place + 1 < 2 ^ 64 }
    ensures { let stack = stack_at code.now.kinds place in IsTrue result ↔ (IsScalar ty × Puts code.now place to ty stack × HasVariable code.now.homes stack variable) }
{
    is_scalar(ty) && puts(code, place, 0, to, ty) && has_variable(code, place, variable)
}

/// Checks that such a variable takes a value (RM 5.2).
fn is_store_fine(code: &Code, place: usize, from: Cell, ty: Ty, out: usize, slot: usize) -> bool
    requires { place + 1 < 2 ^ 64 }
    ensures { IsTrue result ↔ IsFine code.now place (I.Store from ty out slot) (stack_at code.now.kinds place) }
{
    is_scalar(ty)
        && drops(code, place, from, ty)
        && code.kinds.has_slot(place, out, slot, &code.homes)
}

/// Checks that the object in such a slot is put as a part of a record type, in this cell (RM 4.1).
fn is_locate_fine(code: &Code, place: usize, variable: Var, record: usize, at: usize) -> bool
    requires { place + 1 < 2 ^ 64 }
    ensures { IsTrue result ↔ IsFine code.now place (I.Locate variable «record» at) (stack_at code.now.kinds place) }
{
    puts_operand(code, place, 0, at, Ty::Record(record)) && has_variable(code, place, variable)
}

/// Checks the assignment of the value of one part to another (RM 5.2).
fn is_assign_fine(code: &Code, place: usize, number: usize) -> bool
    requires { place + 1 < 2 ^ 64 }
    ensures { let stack = stack_at code.now.kinds place in
        IsTrue result ↔ (IsDeclarable code.now (depth stack) number × Under (Operand (Record number) ∷ []) stack (DropsPart code.now place number) × HasHome code.now.homes stack (DeclarationOf.Record number)) }
{
    is_declarable(code, code.kinds.depth_at(place), number)
        && drops_parts(code, place, number)
        && has_home(code, place, Declaration::Record(number))
}

/// Checks a dereference: a number stands on top, in this cell (RM 4.1).
fn is_dereference_fine(code: &Code, place: usize, record: usize, at: usize) -> bool
    requires { place + 1 < 2 ^ 64 }
    ensures { IsTrue result ↔ IsFine code.now place (I.Dereference «record» at) (stack_at code.now.kinds place) }
{
    is_operand(code, place, 0, at, Ty::Integer)
        && leads_on(code, place, 1, Some(Kind::Operand(Ty::Record(record))))
}

/// Checks an operator with two operands (RM 4.5).
fn is_binary_fine(code: &Code, place: usize, instr: &Instr) -> bool
    requires { place + 1 < 2 ^ 64 }
    ensures both { (op : Operator) (left right to : Cell) → instr.now ≡ I.Binary op left right to → IsTrue result ↔ IsFine code.now place instr.now (stack_at code.now.kinds place) }
    ensures constant { (op : Operator) (left : Cell) (right : ℕ) (to : Cell) → instr.now ≡ I.BinaryConstant op left right to → IsTrue result ↔ IsFine code.now place instr.now (stack_at code.now.kinds place) }
{
    match *instr {
        Instr::Binary {
            op,
            left,
            right,
            to,
        } => {
            is_binary_of(op.op, op.operands, op.result)
                && passes_both(code, place, op, left, right, to)
        }
        Instr::BinaryConstant {
            op,
            left,
            right,
            to,
        } => is_constant_fine(code, place, op, left, right, to),
        _ => false,
    }
}

/// Checks a loop with a parameter, or its next turn (RM 5.5).
fn is_loop_fine(code: &Code, place: usize, instr: &Instr) -> bool
    requires { place + 1 < 2 ^ 64 }
    ensures first { (low slot parameter : ℕ) (way : Direction) (length : ℕ) → instr.now ≡ I.For low slot parameter way length → IsTrue result ↔ IsFine code.now place instr.now (stack_at code.now.kinds place) }
    ensures next { (low slot parameter : ℕ) (way : Direction) (length : ℕ) → instr.now ≡ I.Next low slot parameter way length → IsTrue result ↔ IsFine code.now place instr.now (stack_at code.now.kinds place) }
{
    match *instr {
        Instr::For {
            low,
            slot,
            parameter,
            way: _,
            length,
        } => is_for_fine(code, place, low, slot, parameter, length),
        Instr::Next {
            low,
            slot,
            parameter,
            way: _,
            length,
        } => is_next_fine(code, place, low, slot, parameter, length),
        _ => false,
    }
}

/// Tells whether the instruction is well formed where it stands.
pub fn is_fine(code: &Code, place: usize, instr: &Instr) -> bool
    requires { place + 1 < 2 ^ 64 }
    ensures { IsTrue result ↔ IsFine code.now place instr.now (stack_at code.now.kinds place) }
{
    match *instr {
        Instr::Start(entry) => is_start_fine(code, place, entry),
        Instr::Enter { slots, length } => is_enter_fine(code, place, slots, length),
        Instr::Leave => is_at_end(code, place),
        Instr::Call {
            procedure,
            actuals,
            copies,
        } => is_call_fine(code, place, procedure, actuals, copies),
        Instr::CopyBack {
            depth,
            at,
            out,
            slot,
        } => is_copy_back_fine(code, place, depth, at, out, slot),
        Instr::Reserve { count, at } => is_reserve_fine(code, place, count, at),
        Instr::KeepPart {
            record,
            ty,
            depth,
            kept,
            at,
            ..
        } => is_keep_part_fine(code, place, record, ty, depth, kept, at),
        Instr::CopyBackPart {
            depth,
            at,
            below,
            kept,
            ..
        } => is_copy_back_part_fine(code, place, depth, at, below, kept),
        Instr::Discard(count) => is_discard_fine(code, place, count),
        Instr::Evaluate {
            function,
            actuals,
            ty,
            at,
        } => is_evaluate_fine(code, place, function, actuals, ty, at),
        Instr::EvaluateRecord {
            function,
            actuals,
            record,
            at,
        } => is_record_fine(code, place, function, actuals, record, at),
        Instr::Transfer(way) => is_transfer_fine(code, place, way),
        Instr::Return { from, ty } => is_return_fine(code, place, from, ty),
        Instr::ReturnRecord { record } => gives_record(code, place, record),
        Instr::Handle(length) => is_handle_fine(code, place, length),
        Instr::Catch { exception, length } => is_catch_fine(code, place, exception, length),
        Instr::RaiseAgain => true,
        Instr::Declare { slot, record } => is_declare_fine(code, place, slot, record),
        Instr::DeclareCopy { slot, record } => is_copy_fine(code, place, slot, record),
        Instr::DeclarePool {
            slot,
            record,
            order: _,
            at,
        } => is_pool_fine(code, place, slot, record, at),
        Instr::Gather { access, count: _ } => is_gather_fine(code, place, access),
        Instr::New { access, of, ty, at } => is_new_fine(code, place, access, of, ty, at),
        Instr::NewCopy {
            access,
            record,
            ty,
            at,
        } => is_new_copy_fine(code, place, access, record, ty, at),
        Instr::NewIn { of, ty, at } => is_new_in_fine(code, place, of, ty, at),
        Instr::GiveValue { of, ty, at } => is_given_fine(code, place, of, ty, at),
        Instr::NewCopyIn { record, ty, at } => is_new_copy_in_fine(code, place, record, ty, at),
        Instr::TakeBlock { record, out, slot } => is_taking_fine(code, place, record, out, slot),
        Instr::TakeBlockInto { record, of, .. } => is_taking_into_fine(code, place, record, of),
        Instr::GiveBlock { record } => is_giving_fine(code, place, record),
        Instr::Free { access, out, slot } => is_free_fine(code, place, access, out, slot),
        Instr::FreePart { access, record, .. } => is_free_part_fine(code, place, access, record),
        Instr::Dereference { record, at } => is_dereference_fine(code, place, record, at),
        Instr::Number | Instr::NewLine => leads_on(code, place, 0, None),
        Instr::Set { value, ty, to } => is_cell_of(ty, value) && puts(code, place, 0, to, ty),
        Instr::Move { from, ty, to } => is_scalar(ty) && passes(code, place, 0, from, ty, to, ty),
        Instr::Fetch { variable, ty, to }
        | Instr::FetchPart {
            variable,
            record: _,
            position: _,
            ty,
            to,
        }
        | Instr::Designate { variable, ty, to } => is_fetch_fine(code, place, variable, ty, to),
        Instr::Locate {
            variable,
            record,
            at,
        } => is_locate_fine(code, place, variable, record, at),
        Instr::Select { record, part, .. } => selects(code, place, record, part),
        Instr::TakePart { record, ty, to, .. } => is_scalar(ty)
            && takes_part(code, place, record, ty, to),
        Instr::TakeDiscriminant {
            record,
            which: _,
            to,
        } => takes_part(code, place, record, Ty::Count, to),
        Instr::StorePart {
            from,
            ty,
            record,
            ..
        } => is_scalar(ty) && stores_part(code, place, from, ty, record),
        Instr::DropPart { record } => drops_part(code, place, 0, record),
        Instr::Assign { record } => is_assign_fine(code, place, record),
        Instr::Store {
            from,
            ty,
            out,
            slot,
        } => is_store_fine(code, place, from, ty, out, slot),
        Instr::Unary {
            op,
            operand,
            ty,
            from,
            to,
        } => is_unary_of(op, operand, ty) && passes(code, place, 0, from, operand, to, ty),
        Instr::Binary { .. } | Instr::BinaryConstant { .. } => is_binary_fine(code, place, instr),
        Instr::Decide { at, length, .. } => leads_ahead(code, place, 0, length)
            && is_undecided(code, place, at),
        Instr::Skip(length) => leads_ahead(code, place, 0, length),
        Instr::Back(length) => leads_back(code, place, length),
        Instr::Abandon(length) => is_abandon_fine(code, place, length),
        Instr::Unless { from, length } => is_unless_fine(code, place, from, length),
        Instr::For { .. } | Instr::Next { .. } => is_loop_fine(code, place, instr),
        Instr::Put { text, first } | Instr::PutLine { text, first } => is_text_fine(
            code, place, text, first,
        ),
        Instr::Missing => false,
    }
}
