//! Conversions, and functions on mark pools (RM 4.6, 13.11.4).

ghost use Rattle.std.specs.Prelude.{◌≡◌, IfOk};
ghost use Rattle.ctl_typing.specs.declared.notes.Notes.{Notes as Noted};
ghost use Rattle.ctl_typing.specs.Judgement.{Answers, Judges, onward};
ghost use Rattle.ctl_typing.specs.Lookup as lookup;
ghost use Rattle.ctl_typing.specs.Senses as senses;
ghost use Rattle.ctl_typing.specs.Typing as spec;

use crate::found::{Found, Place, Typed};
use crate::judging::{doing, is_same, refused, wrong};
use crate::lookup::{descends, designated_by, is_general, level_of_access};
use crate::names::{given_place, name_at};
use crate::notes::{Deed, Notes};
use crate::table::Tables;
use crate::values::at_level;
use ctl_program::expression::Expr;
use ctl_program::operators::SubpoolFunction;
use ctl_program::types::Ty;
use ctl_tree::fault::FaultCode;
use ctl_tree::span::Span;
use sqlite_items::Boxed;
use std::alloc::{AllocError, Global};

/// Converts a number to a number type, where it is known (RM 4.6).
pub fn converted_number(
    alloc: Global,
    ty: Ty,
    typed: Option<Typed>,
) -> Result<Option<Found>, AllocError>
    ensures { (notes : Noted) → Judges (onward typed (spec.converted_number ty)) notes result notes }
{
    let Some(typed) = typed else {
        return Ok(None);
    };
    let value = Expr::Convert(ty, Boxed::new(alloc, typed.value)?);
    Ok(Some(Found::Computed(Typed { ty, value })))
}

/// Tells whether a type converts to an access type: between those of one designated type, to a general one (RM 4.6).
fn is_convertible(tables: &Tables, access: usize, ty: Ty) -> bool
    ensures { result ≡ lookup.is_convertible tables.now access ty }
{
    let Ty::Access(from) = ty else {
        return false;
    };
    if access == from {
        return true;
    }
    match (designated_by(tables, access), designated_by(tables, from)) {
        (Some(to), Some(of)) => is_general(tables, access) && is_same(to, of),
        _ => false,
    }
}

/// Answers how many masters stand around the declaration of a value's type.
fn level_of(tables: &Tables, ty: Ty) -> usize
    ensures { result ≡ lookup.level_of tables.now ty }
{
    match ty {
        Ty::Access(access) => level_of_access(tables, access),
        _ => 0,
    }
}

/// Converts an access value, which begins at `inner`, to an access type (RM 4.6, 3.10.2).
pub fn converted_access(
    alloc: Global,
    tables: &Tables,
    place: Span,
    inner: Span,
    access: usize,
    typed: Typed,
    notes: &mut Notes,
) -> Option<Found>
    ensures { Answers (spec.converted_access tables.now place inner access typed) notes.old result notes.new }
{
    if !is_convertible(tables, access, typed.ty) {
        drop(typed);
        return wrong(FaultCode::Type, inner, notes);
    }
    let operand = level_of(tables, typed.ty);
    let converted = Typed {
        ty: Ty::Access(access),
        value: typed.value,
    };
    let part = Found::Part(given_place(alloc, converted));
    at_level(place, operand, level_of_access(tables, access), part, notes)
}

/// Answers a part as one of another type.
fn as_type(ty: Ty, part: Place) -> Place
    ensures { result ≡ spec.as_type ty part }
{
    Place {
        head: part.head,
        steps: part.steps,
        ty,
        mutability: part.mutability,
        aliasing: part.aliasing,
    }
}

/// Views a part as a record type, its ancestor; the part freezes its own type (RM 4.6, 13.14).
fn viewed_as(
    tables: &Tables,
    place: Span,
    number: usize,
    part: Place,
    notes: &mut Notes,
) -> Result<Option<Found>, AllocError>
    ensures { Judges (spec.viewed_as tables.now place number part part.ty) notes.old result notes.new }
{
    match part.ty {
        Ty::Record(from) if descends(tables, number, from) => {
            let view = Found::View(as_type(Ty::Record(number), part));
            doing(Deed::Freezes(Ty::Record(from)), view, notes)
        }
        _ => {
            drop(part);
            Ok(wrong(FaultCode::Type, place, notes))
        }
    }
}

/// Views a record object as its ancestor; another view is no value, and wrong where it begins itself (RM 4.6).
pub fn viewed(
    tables: &Tables,
    place: Span,
    inner: Span,
    number: usize,
    found: Found,
    notes: &mut Notes,
) -> Result<Option<Found>, AllocError>
    ensures { Judges (spec.viewed tables.now place inner number found) notes.old result notes.new }
{
    match found {
        Found::Part(part) => viewed_as(tables, place, number, part, notes),
        Found::View(_) => Ok(refused(found, FaultCode::Type, inner, notes)),
        _ => Ok(refused(found, FaultCode::Type, place, notes)),
    }
}

/// Answers a call of a function on a mark pool (RM 13.11.4).
pub fn subpool_of(
    alloc: Global,
    function: SubpoolFunction,
    pool: Place,
) -> Result<Found, AllocError>
    ensures { IfOk result (λ found. found ≡ senses.subpool_of function pool) }
{
    let name = name_at(alloc, pool.head, pool.steps)?;
    Ok(Found::Computed(Typed {
        ty: Ty::Handle,
        value: Expr::Subpool(function, name),
    }))
}

/// Answers the image of a value, where that is known (RM 3.5).
pub fn imaged(typed: Option<Typed>) -> Option<Found>
    ensures { (notes : Noted) → senses.imaged typed notes ≡ (result, notes) }
{
    match typed {
        Some(typed) => Some(Found::Imaged(typed)),
        None => None,
    }
}
