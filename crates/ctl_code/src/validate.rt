//! Whether code is well formed: each of its instructions, and each entry of its tables.

ghost use Rattle.std.specs.Prelude.{◌≡◌, ◌↔◌, ℕ, ◌≤◌, length, slice_get, IsTrue, List, Some};
ghost use Rattle.ctl_code.specs.declared.kinds.Kind.{Kind};
ghost use Rattle.ctl_code.specs.Windows.{height};
ghost use Rattle.ctl_code.specs.declared.code.Entry.{Entry};
ghost use Rattle.ctl_code.specs.declared.code.Instr.{Instr};
ghost use Rattle.ctl_code.specs.declared.code.Operations.{Operations};
ghost use Rattle.ctl_code.specs.Kinds.{stack_at};
ghost use Rattle.ctl_code.specs.Valid.{IsBegun, IsFine, IsStarted, IsValid, MayBeEntry, TakesObject, TakesStorage};

use crate::calls::has_formals;
use crate::code::{Code, Instr};
use crate::fine::{is_entry, is_fine};
use crate::kinds::Kind;
use crate::layouts::are_layouts_fine;
use ctl_program::operators::SubprogramKind;

/// Tells whether each instruction is well formed where it stands.
fn are_instructions_fine(code: &Code) -> bool
    ensures { IsTrue result ↔ ((place : ℕ) (i : Instr) → slice_get code.now.instructions.items place ≡ Some i → IsFine code.now place i (stack_at code.now.kinds place)) }
{
    for (place, instr) in code.instructions.iter().enumerate() {
        if !is_fine(code, place, instr) {
            return false;
        }
    }
    true
}

/// Tells whether each body begins at a place of the code where its slots stand.
fn are_entries_fine(code: &Code) -> bool
    ensures { IsTrue result ↔ ((f : ℕ) (e : Entry) → slice_get code.now.entries.items f ≡ Some e → IsBegun code.now f e) }
{
    for (number, entry) in code.entries.iter().enumerate() {
        let body = Kind::Body {
            level: entry.level,
            slots: entry.slots,
            number,
        };
        if !code.kinds.stands_alone(entry.place, body) {
            return false;
        }
    }
    true
}

/// Tells whether there is no operation, or one that has a body.
fn may_be_entry(code: &Code, number: Option<usize>) -> bool
    ensures { IsTrue result ↔ MayBeEntry code.now number }
{
    match number {
        Some(number) => is_entry(code, number),
        None => true,
    }
}

/// Tells whether each operation of a record type has a body (RM 7.6).
fn are_records_fine(code: &Code) -> bool
    ensures { IsTrue result ↔ ((t : ℕ) (o : Operations) → slice_get code.now.records.items t ≡ Some o → MayBeEntry code.now o.initialize × MayBeEntry code.now o.finalize × MayBeEntry code.now o.adjust) }
{
    for operations in &code.records {
        if !may_be_entry(code, operations.initialize)
            || !may_be_entry(code, operations.finalize)
            || !may_be_entry(code, operations.adjust)
        {
            return false;
        }
    }
    true
}

/// Tells whether there is no operation, or a procedure whose body has a slot for the object that it is called for.
fn takes_object(code: &Code, number: Option<usize>) -> bool
    ensures { IsTrue result ↔ TakesObject code.now number }
{
    match number {
        Some(number) => has_formals(code, SubprogramKind::Procedure, number, 1),
        None => true,
    }
}

/// How many formals Allocate and Deallocate have: a pool, an address, a size and an alignment (RM 13.11).
const STORAGE_FORMALS: usize = 4;

/// Tells whether there is no operation, or a procedure whose body has slots for the formals of Allocate and Deallocate (RM 13.11).
fn takes_storage(code: &Code, number: Option<usize>) -> bool
    ensures { IsTrue result ↔ TakesStorage code.now number }
{
    match number {
        Some(number) => has_formals(code, SubprogramKind::Procedure, number, STORAGE_FORMALS),
        None => true,
    }
}

/// Tells whether each Allocate and Deallocate of a record type has slots for what is allocated (RM 13.11).
fn is_storage_fine(code: &Code) -> bool
    ensures { IsTrue result ↔ ((t : ℕ) (o : Operations) → slice_get code.now.records.items t ≡ Some o → TakesStorage code.now o.allocate × TakesStorage code.now o.deallocate) }
{
    for operations in &code.records {
        if !takes_storage(code, operations.allocate)
            || !takes_storage(code, operations.deallocate)
        {
            return false;
        }
    }
    true
}

/// Tells whether each operation of a record type has a slot for its object (RM 7.6).
fn are_formals_fine(code: &Code) -> bool
    ensures { IsTrue result ↔ ((t : ℕ) (o : Operations) → slice_get code.now.records.items t ≡ Some o → TakesObject code.now o.initialize × TakesObject code.now o.finalize × TakesObject code.now o.adjust) }
{
    for operations in &code.records {
        if !takes_object(code, operations.initialize)
            || !takes_object(code, operations.finalize)
            || !takes_object(code, operations.adjust)
        {
            return false;
        }
    }
    true
}

/// Tells whether the first instruction executes the main procedure, and nothing stands before it.
fn is_started(code: &Code) -> bool
    ensures { IsTrue result ↔ IsStarted code.now }
{
    match code.instructions.first() {
        Some(Instr::Start(_)) => code.kinds.is_bare_at(0),
        _ => false,
    }
}

/// Tells whether each instruction has its stack, for which there is room.
fn are_stacks_fine(code: &Code) -> bool
    ensures { IsTrue result ↔ ((length code.now.kinds ≡ length code.now.instructions.items) × ((place : ℕ) (stack : List Kind) → slice_get code.now.kinds place ≡ Some stack → height stack ≤ code.now.room)) }
{
    code.kinds.len() == code.instructions.len() && code.kinds.is_room(code.room)
}

/// Tells whether the code is well formed.
pub fn is_valid(code: &Code) -> bool
    ensures { IsTrue result ↔ IsValid code.now }
{
    if !is_started(code) || !are_stacks_fine(code) || !are_instructions_fine(code) {
        return false;
    }
    if !are_formals_fine(code) || !is_storage_fine(code) || !are_layouts_fine(code) {
        return false;
    }
    are_entries_fine(code) && are_records_fine(code)
}
