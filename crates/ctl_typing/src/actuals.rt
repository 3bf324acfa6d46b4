//! What is handed on for a formal parameter (RM 6.2, 6.4.1).

ghost use Rattle.std.specs.Prelude.{◌≡◌, IfOk};
ghost use Rattle.ctl_typing.specs.Judgement.{Judges};
ghost use Rattle.ctl_typing.specs.Senses as senses;
ghost use Rattle.ctl_typing.specs.Typing as spec;

use crate::found::{Found, Head, Place};
use crate::judging::{doing, is_same, refused, wrong};
use crate::names::{name_at, settled_known};
use crate::notes::{Deed, Notes};
use crate::table::Tables;
use ctl_program::expression::{Actual, Step};
use ctl_program::operators::CopyStart;
use ctl_program::types::Ty;
use ctl_syntax::item::Mode;
use ctl_tree::fault::FaultCode;
use ctl_tree::span::Span;
use sqlite_items::Items;
use std::alloc::{AllocError, Global};

/// Answers what the copy of an actual begins with (RM 6.4.1).
fn start_of(mode: Mode, ty: Ty) -> CopyStart
    ensures { result ≡ spec.start_of mode ty }
{
    match (mode, ty) {
        (Mode::InOut, _) | (_, Ty::Access(_)) | (_, Ty::Handle) => CopyStart::Actual,
        _ => CopyStart::Beginning,
    }
}

/// Hands a name on that is written to: a record by reference, any other by copy (RM 6.2).
pub fn by_name(alloc: Global, mode: Mode, part: Place) -> Result<Actual, AllocError>
    ensures { IfOk result (λ actual. actual ≡ spec.by_name mode part) }
{
    let ty = part.ty;
    let name = name_at(alloc, part.head, part.steps)?;
    match ty {
        Ty::Record(_) => Ok(Actual::Part(name, ty)),
        _ => Ok(Actual::Copied(name, ty, start_of(mode, ty))),
    }
}

/// Hands a record on: by reference where a name denotes it (RM 6.2).
pub fn handed_on(
    alloc: Global,
    head: Head,
    steps: Items<Step>,
    ty: Ty,
) -> Result<Actual, AllocError>
    ensures { IfOk result (λ actual. actual ≡ spec.handed_on head steps ty) }
{
    match head {
        Head::Given(value) if steps.is_empty() => Ok(Actual::ByValue(value, ty)),
        head => Ok(Actual::Part(name_at(alloc, head, steps)?, ty)),
    }
}

/// Judges a part as a record that is handed on (RM 6.2).
fn record_part(
    alloc: Global,
    place: Span,
    ty: Ty,
    part: Place,
    notes: &mut Notes,
) -> Result<Option<Actual>, AllocError>
    ensures { Judges (spec.record_part place ty part) notes.old result notes.new }
{
    if !is_same(ty, part.ty) {
        drop(part);
        return Ok(wrong(FaultCode::Type, place, notes));
    }
    let actual = handed_on(alloc, part.head, part.steps, part.ty)?;
    doing(Deed::Freezes(ty), actual, notes)
}

/// Judges what a name is as the actual of a formal of a record type and of mode `in` (RM 6.2).
fn record_found(
    alloc: Global,
    place: Span,
    ty: Ty,
    found: Found,
    notes: &mut Notes,
) -> Result<Option<Actual>, AllocError>
    ensures { Judges (spec.record_found place ty found) notes.old result notes.new }
{
    match found {
        Found::Part(part) | Found::View(part) => record_part(alloc, place, ty, part, notes),
        _ => Ok(refused(found, FaultCode::Type, place, notes)),
    }
}

/// Judges what a name in parentheses is as such an actual: a view is no value (RM 6.2, profile).
fn record_enclosed(
    alloc: Global,
    place: Span,
    ty: Ty,
    found: Found,
    notes: &mut Notes,
) -> Result<Option<Actual>, AllocError>
    ensures { Judges (spec.record_enclosed place ty found) notes.old result notes.new }
{
    match found {
        Found::Part(part) => record_part(alloc, place, ty, part, notes),
        _ => Ok(refused(found, FaultCode::Type, place, notes)),
    }
}

/// Judges what a name is as the actual of a formal of a record type and of mode `in`, where that is known (RM 6.2).
pub fn record_handed_on(
    alloc: Global,
    tables: &Tables,
    place: Span,
    ty: Ty,
    found: Option<Found>,
    notes: &mut Notes,
) -> Result<Option<Actual>, AllocError>
    ensures { Judges (senses.record_handed_on tables.now place ty found) notes.old result notes.new }
{
    match settled_known(alloc, tables, place, found, notes) {
        Some(found) => record_found(alloc, place, ty, found, notes),
        None => Ok(None),
    }
}

/// Judges what a name in parentheses is as such an actual, where that is known (RM 6.2).
pub fn record_in_parentheses(
    alloc: Global,
    tables: &Tables,
    place: Span,
    ty: Ty,
    found: Option<Found>,
    notes: &mut Notes,
) -> Result<Option<Actual>, AllocError>
    ensures { Judges (senses.record_in_parentheses tables.now place ty found) notes.old result notes.new }
{
    match settled_known(alloc, tables, place, found, notes) {
        Some(found) => record_enclosed(alloc, place, ty, found, notes),
        None => Ok(None),
    }
}
