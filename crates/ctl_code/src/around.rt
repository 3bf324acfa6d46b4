//! Whether the masters around a declaration stand around an instruction, or around another declaration (RM 6.1, 3.10.2).

ghost use Rattle.std.specs.Prelude.{◌↔◌, IsTrue};
ghost use Rattle.ctl_code.specs.Kinds.{stack_at};
ghost use Rattle.ctl_code.specs.Valid.{AreInitialsWithin, AreOperationsWithin, IsInitialWithin, IsOperationWithin};
ghost use Rattle.ctl_code.specs.Windows.{HasHome, HasHomeOf, IsWithin};

use crate::code::{Code, Initial, Layout};
use crate::homes::Declaration;
use crate::layouts::default_of;
use crate::tables::operations_at;
use ctl_program::types::Ty;

/// Tells whether each master around a declaration stands around an instruction with as many slots.
pub(crate) fn has_home(code: &Code, place: usize, of: Declaration) -> bool
    ensures { IsTrue result ↔ HasHome code.now.homes (stack_at code.now.kinds place) of }
{
    for level in 0..code.homes.levels(of) {
        if code.homes.at(of, level) > code.kinds.slots_at(place, level, &code.homes) {
            return false;
        }
    }
    true
}

/// Tells whether each master around the declaration of a type, if that is a record type, stands around an instruction with as many slots.
pub(crate) fn has_home_of(code: &Code, place: usize, of: Ty) -> bool
    ensures { IsTrue result ↔ HasHomeOf code.now.homes (stack_at code.now.kinds place) of }
{
    match of {
        Ty::Record(record) => has_home(code, place, Declaration::Record(record)),
        _ => true,
    }
}

/// Tells whether each master around the one declaration stands around the other with as many slots.
fn is_within(code: &Code, outer: Declaration, of: Declaration) -> bool
    ensures { IsTrue result ↔ IsWithin code.now.homes outer of }
{
    for level in 0..code.homes.levels(of) {
        if code.homes.at(of, level) > code.homes.at(outer, level) {
            return false;
        }
    }
    true
}

/// Tells whether there is no operation, or the masters around it stand around the record type of a number (RM 7.6).
fn is_operation_within(code: &Code, number: usize, operation: Option<usize>) -> bool
    ensures { IsTrue result ↔ IsOperationWithin code.now.homes number operation }
{
    match operation {
        Some(operation) => is_within(
            code,
            Declaration::Record(number),
            Declaration::Subprogram(operation),
        ),
        None => true,
    }
}

/// Tells whether the masters around each operation of the record type of a number stand around the type (RM 7.6, 13.11).
pub(crate) fn are_operations_within(code: &Code, number: usize) -> bool
    ensures { IsTrue result ↔ AreOperationsWithin code.now number }
{
    match operations_at(code, number) {
        Some(operations) => {
            is_operation_within(code, number, operations.initialize)
                && is_operation_within(code, number, operations.finalize)
                && is_operation_within(code, number, operations.adjust)
                && is_operation_within(code, number, operations.allocate)
                && is_operation_within(code, number, operations.deallocate)
        }
        None => false,
    }
}

/// Tells whether the masters around the type of a component, if that is a record type, stand around the record type of a number; and those
/// around the type from which it has the default that is evaluated at a place.
fn is_initial_within(code: &Code, number: usize, place: usize, initial: Initial) -> bool
    ensures { IsTrue result ↔ IsInitialWithin code.now number place initial }
{
    match initial {
        Initial::Constant(_) => true,
        Initial::Computed => match code.kinds.default_at(place) {
            Some(other) => is_within(
                code,
                Declaration::Record(number),
                Declaration::Record(other),
            ),
            None => true,
        },
        Initial::ByType(other) => is_within(
            code,
            Declaration::Record(number),
            Declaration::Record(other),
        ),
    }
}

/// Tells whether the masters around the types of its components that begin with something stand around a record type.
pub(crate) fn are_initials_within(code: &Code, number: usize, layout: &Layout) -> bool
    ensures { IsTrue result ↔ AreInitialsWithin code.now number layout.now.begun.items }
{
    for component in &layout.begun {
        let place = default_of(code, number, component.position);
        if !is_initial_within(code, number, place, component.initial) {
            return false;
        }
    }
    true
}
