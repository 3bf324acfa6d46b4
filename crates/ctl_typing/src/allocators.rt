//! What an allocator makes (RM 4.8, 13.11.4).

ghost use Rattle.std.specs.Prelude.{◌≡◌, IfOk, OnOk, Some};
ghost use Rattle.ctl_typing.specs.Judgement.{Answers, Judges, onward, with_deeds};
ghost use Rattle.ctl_typing.specs.Typing as spec;
ghost use Rattle.ctl_typing.specs.Typing.{creating};
ghost use Rattle.ctl_typing.specs.Allocating as allocating;

use crate::found::{Asked, Found, Typed};
use crate::judging::{marked, note, note_deed, refused, wrong};
use crate::literals::first_found;
use crate::lookup::{has_subpools, is_limited};
use crate::names::{settled_known, value_at};
use crate::notes::{Deed, Notes};
use crate::table::{Concreteness, Tables};
use crate::values::designates;
use ctl_program::expression::Expr;
use ctl_program::types::Ty;
use ctl_syntax::denoted::Use;
use ctl_syntax::name::Identifier;
use ctl_tree::fault::FaultCode;
use ctl_tree::span::Span;
use sqlite_items::Boxed;
use std::alloc::{AllocError, Global};

/// Judges what a name is as a handle (RM 13.11.4).
pub fn handle_found(
    alloc: Global,
    place: Span,
    found: Found,
    notes: &mut Notes,
) -> Result<Option<Expr>, AllocError>
    ensures { Judges (spec.handle_found place found) notes.old result notes.new }
{
    match found {
        Found::Part(part) => match part.ty {
            Ty::Handle => Ok(Some(value_at(alloc, part.head, part.steps, Ty::Handle)?)),
            _ => {
                drop(part);
                Ok(wrong(FaultCode::Type, place, notes))
            }
        },
        Found::Computed(typed) => match typed.ty {
            Ty::Handle => Ok(Some(typed.value)),
            _ => {
                drop(typed);
                Ok(wrong(FaultCode::Type, place, notes))
            }
        },
        _ => Ok(refused(found, FaultCode::Type, place, notes)),
    }
}

/// Tells whether there may be objects of a type: Controlled and Limited_Controlled are abstract (RM 3.9.3, 7.6).
pub fn has_objects(tables: &Tables, ty: Ty) -> bool
    ensures { result ≡ spec.has_objects tables.now ty }
{
    let Ty::Record(number) = ty else {
        return true;
    };
    match sqlite_items::at(tables.records.as_slice(), number) {
        Some(entry) => entry.concreteness == Concreteness::Concrete,
        None => false,
    }
}

/// Answers the access type that the place of an allocator asks, where it designates the type of the new object (RM 4.8).
fn allocates(tables: &Tables, place: Span, asked: Asked, ty: Ty, notes: &mut Notes) -> Option<usize>
    ensures { Answers (spec.allocates tables.now place asked ty) notes.old result notes.new }
{
    match asked {
        Asked::Exactly(Ty::Access(access))
            if designates(tables, access, ty) && has_objects(tables, ty) => { Some(access) }
        _ => wrong(FaultCode::Type, place, notes),
    }
}

/// Moves a value into a box, where there is one.
fn boxed<T: Drop>(alloc: Global, value: Option<T>) -> Result<Option<Boxed<T>>, AllocError>
    ensures { IfOk result (λ boxed. boxed ≡ value) }
{
    match value {
        Some(value) => Ok(Some(Boxed::new(alloc, value)?)),
        None => Ok(None),
    }
}

/// Moves two values into boxes, where there are any.
fn each_boxed<T: Drop>(
    alloc: Global,
    first: Option<T>,
    second: Option<T>,
) -> Result<(Option<Boxed<T>>, Option<Boxed<T>>), AllocError>
    ensures { IfOk result (λ boxes. boxes ≡ (first, second)) }
{
    let first = boxed(alloc, first)?;
    Ok((first, boxed(alloc, second)?))
}

/// Notes that an object of a type is allocated and created (RM 4.8, 13.14).
fn note_creation(access: usize, ty: Ty, notes: &mut Notes) -> Result<(), AllocError>
    ensures { OnOk result (notes.new ≡ record notes.old { deeds = with_deeds (creating access ty) notes.old.deeds }) }
{
    note_deed(notes, Deed::Freezes(Ty::Access(access)))?;
    note_deed(notes, Deed::Freezes(ty))?;
    note_deed(notes, Deed::Allocates(access))?;
    note_deed(notes, Deed::Creates(ty))
}

/// Makes an allocator, and notes what it does: it allocates, and creates an object by its value or by its defaults (RM 4.8, 13.14).
pub fn allocated(
    alloc: Global,
    access: usize,
    ty: Ty,
    handle: Option<Expr>,
    value: Option<Expr>,
    notes: &mut Notes,
) -> Result<Option<Typed>, AllocError>
    ensures { Judges (allocating.allocated access ty handle value) notes.old result notes.new }
{
    let (handle, value) = each_boxed(alloc, handle, value)?;
    note_creation(access, ty, notes)?;
    if value.is_none() {
        note_deed(notes, Deed::Initializes(ty))?;
    }
    Ok(Some(Typed {
        ty: Ty::Access(access),
        value: Expr::New(access, ty, handle, value),
    }))
}

/// Answers a use that is told of at another place than its own.
pub fn told_at(place: Span, used: Use) -> Use
    ensures { result ≡ spec.told_at place used }
{
    Use {
        span: place,
        denoted: used.denoted,
    }
}

/// Answers the type that a mark denotes; an expanded name denotes nothing of a text (RM 3.2, profile).
pub fn mark_judged(
    alloc: Global,
    tables: &Tables,
    first: Use,
    rest: &[Identifier],
    notes: &mut Notes,
) -> Result<Option<Ty>, AllocError>
    ensures { Judges (spec.mark_judged tables.now first rest.now) notes.old result notes.new }
{
    if !rest.is_empty() {
        return Ok(wrong(FaultCode::Type, first.span, notes));
    }
    match first_found(alloc, tables, &first, notes)? {
        Some(found) => Ok(marked(first.span, found, notes)),
        None => Ok(None),
    }
}

/// Answers a handle where the objects of the access type that is asked stand in subpools, and none where they do not, which is noted (RM 4.8,
/// 13.11.4).
fn in_subpools(
    tables: &Tables,
    place: Span,
    asked: Asked,
    handle: Expr,
    notes: &mut Notes,
) -> Option<Expr>
    ensures { spec.in_subpools tables.now place asked handle notes.old ≡ (Some result, notes.new) }
{
    match asked {
        Asked::Exactly(Ty::Access(access)) if !has_subpools(tables, access) => {
            drop(handle);
            note(notes, FaultCode::Pool, place);
            None
        }
        _ => Some(handle),
    }
}

/// Judges a name as a handle, where it is known what it is (RM 13.11.4).
pub fn handle_of(
    alloc: Global,
    tables: &Tables,
    place: Span,
    asked: Asked,
    found: Option<Found>,
    notes: &mut Notes,
) -> Result<Option<Option<Expr>>, AllocError>
    ensures { Judges (allocating.handle_of tables.now place asked found) notes.old result notes.new }
{
    let Some(found) = settled_known(alloc, tables, place, found, notes) else {
        return Ok(None);
    };
    match handle_found(alloc, place, found, notes)? {
        Some(handle) => Ok(Some(in_subpools(tables, place, asked, handle, notes))),
        None => Ok(None),
    }
}

/// Answers what is asked of the value of a new object: its type, where that is known. A limited object begins with no value (RM 4.8, 7.5).
pub fn value_asked(tables: &Tables, place: Span, ty: Option<Ty>, notes: &mut Notes) -> Asked
    ensures { spec.value_asked tables.now place ty notes.old ≡ (Some result, notes.new) }
{
    let Some(ty) = ty else {
        return Asked::Anything;
    };
    if is_limited(tables, ty) {
        note(notes, FaultCode::Limited, place);
    }
    Asked::Exactly(ty)
}

/// Answers the access type that the place of an allocator asks, where the type of the new object is known (RM 4.8).
pub fn allocates_known(
    tables: &Tables,
    place: Span,
    asked: Asked,
    ty: Option<Ty>,
    notes: &mut Notes,
) -> Option<usize>
    ensures { Answers (onward ty (spec.allocates tables.now place asked)) notes.old result notes.new }
{
    allocates(tables, place, asked, ty?, notes)
}

/// Makes an allocator of its parts, where they are known: the handle, the type, the access type and the value (RM 4.8).
pub fn allocator(
    alloc: Global,
    parts: Option<(Option<Expr>, (Ty, (usize, Option<Expr>)))>,
    notes: &mut Notes,
) -> Result<Option<Typed>, AllocError>
    ensures { Judges (onward parts allocating.by_parts) notes.old result notes.new }
{
    match parts {
        Some((handle, (ty, (access, value)))) => {
            allocated(alloc, access, ty, handle, value, notes)
        }
        None => Ok(None),
    }
}
