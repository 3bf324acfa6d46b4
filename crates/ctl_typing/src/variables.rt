//! What a call writes to: a variable of the type that is asked (RM 6.4.1).

ghost use Rattle.ctl_typing.specs.Judgement.{Answers, Judges, onward};
ghost use Rattle.ctl_typing.specs.Senses as senses;
ghost use Rattle.ctl_typing.specs.Typing as spec;

use crate::found::{Asked, Found, Place, Typed};
use crate::judging::{is_same, note, wrong};
use crate::names::settled_known;
use crate::notes::Notes;
use crate::table::{Mutability, Tables};
use crate::values::value_found;
use ctl_program::types::Ty;
use ctl_tree::fault::FaultCode;
use ctl_tree::span::Span;
use std::alloc::{AllocError, Global};

/// Notes a name that is written to and denotes no variable (RM 6.4.1).
pub fn as_variable<T>(place: Span, mutability: Mutability, value: T, notes: &mut Notes) -> Option<T>
    ensures { Answers (spec.as_variable place mutability value) notes.old result notes.new }
{
    match mutability {
        Mutability::Variable => {}
        Mutability::Constant => note(notes, FaultCode::Mode, place),
    }
    Some(value)
}

/// Judges a part as a variable of a type (RM 6.4.1).
fn variable_part(place: Span, ty: Ty, part: Place, notes: &mut Notes) -> Option<Place>
    ensures { Answers (spec.variable_part place ty part) notes.old result notes.new }
{
    if !is_same(ty, part.ty) {
        drop(part);
        return wrong(FaultCode::Type, place, notes);
    }
    let mutability = part.mutability;
    as_variable(place, mutability, part, notes)
}

/// Notes a value of the type that is asked, where no variable is named.
pub fn no_variable(place: Span, typed: Option<Typed>, notes: &mut Notes) -> Option<Place>
    ensures { Answers (onward typed (spec.no_variable place)) notes.old result notes.new }
{
    match typed {
        Some(typed) => {
            drop(typed);
            wrong(FaultCode::Mode, place, notes)
        }
        None => None,
    }
}

/// Judges what a name is as a variable of a type; of another type it is wrong itself (RM 6.4.1).
fn variable_found(
    alloc: Global,
    tables: &Tables,
    place: Span,
    ty: Ty,
    found: Found,
    notes: &mut Notes,
) -> Result<Option<Place>, AllocError>
    ensures { Judges (spec.variable_found tables.now place ty found) notes.old result notes.new }
{
    match found {
        Found::Part(part) | Found::View(part) => Ok(variable_part(place, ty, part, notes)),
        _ => {
            let typed = value_found(alloc, tables, place, Asked::Exactly(ty), found, notes)?;
            Ok(no_variable(place, typed, notes))
        }
    }
}

/// Judges a name as a variable of a type, where it is known what it is (RM 6.4.1).
pub fn variable_named(
    alloc: Global,
    tables: &Tables,
    place: Span,
    ty: Ty,
    found: Option<Found>,
    notes: &mut Notes,
) -> Result<Option<Place>, AllocError>
    ensures { Judges (senses.variable_named tables.now place ty found) notes.old result notes.new }
{
    match settled_known(alloc, tables, place, found, notes) {
        Some(found) => variable_found(alloc, tables, place, ty, found, notes),
        None => Ok(None),
    }
}
