//! The value of a name.

ghost use Rattle.std.specs.Prelude.{◌≡◌};
ghost use Rattle.ctl_typing.specs.Judgement.{Answers, Judges};
ghost use Rattle.ctl_typing.specs.Lookup as lookup;
ghost use Rattle.ctl_typing.specs.Senses as senses;
ghost use Rattle.ctl_typing.specs.Typing as spec;

use crate::found::{Asked, Found, Typed, discard};
use crate::judging::{fits, is_same, note, refused, wrong};
use crate::lookup::{designated_by, is_general, level_of_access};
use crate::names::{name_at, settled_known, value_at};
use crate::notes::Notes;
use crate::table::Tables;
use ctl_program::expression::Expr;
use ctl_program::types::{Ty, Var};
use ctl_tree::fault::FaultCode;
use ctl_tree::span::Span;
use std::alloc::{AllocError, Global};

/// Notes where what is designated does not live as long as the access type (RM 3.10.2).
pub fn at_level<T>(
    place: Span,
    operand: usize,
    target: usize,
    value: T,
    notes: &mut Notes,
) -> Option<T>
    ensures { Answers (spec.at_level place operand target value) notes.old result notes.new }
{
    if target < operand {
        note(notes, FaultCode::Level, place);
    }
    Some(value)
}

/// Tells whether an access type designates a type (RM 3.10).
pub fn designates(tables: &Tables, access: usize, ty: Ty) -> bool
    ensures { result ≡ spec.designates_this ty (lookup.designated_by tables.now access) }
{
    match designated_by(tables, access) {
        Some(designated) => is_same(designated, ty),
        None => false,
    }
}

/// Judges `X'Access`: it has the general access type that its place asks (RM 3.10.2).
fn access_value(
    tables: &Tables,
    place: Span,
    var: Var,
    ty: Ty,
    asked: Asked,
    notes: &mut Notes,
) -> Option<Typed>
    ensures { Answers (spec.access_value tables.now place var ty asked) notes.old result notes.new }
{
    let Asked::Exactly(Ty::Access(access)) = asked else {
        return wrong(FaultCode::Type, place, notes);
    };
    if !(is_general(tables, access) && designates(tables, access, ty)) {
        return wrong(FaultCode::Type, place, notes);
    }
    let typed = Typed {
        ty: Ty::Access(access),
        value: Expr::Access(var),
    };
    at_level(
        place,
        var.level,
        level_of_access(tables, access),
        typed,
        notes,
    )
}

/// Judges what a name is as a value (RM 4.1, 4.4).
pub fn value_found(
    alloc: Global,
    tables: &Tables,
    place: Span,
    asked: Asked,
    found: Found,
    notes: &mut Notes,
) -> Result<Option<Typed>, AllocError>
    ensures { Judges (spec.value_found tables.now place asked found) notes.old result notes.new }
{
    let typed = match found {
        Found::Part(part) => Typed {
            ty: part.ty,
            value: value_at(alloc, part.head, part.steps, part.ty)?,
        },
        Found::Computed(typed) => typed,
        Found::Discriminant(part, position) => Typed {
            ty: Ty::Count,
            value: Expr::Discriminant(name_at(alloc, part.head, part.steps)?, position),
        },
        Found::Accessed(var, ty) => {
            discard(found);
            return Ok(access_value(tables, place, var, ty, asked, notes));
        }
        _ => return Ok(refused(found, FaultCode::Type, place, notes)),
    };
    fits(place, asked, typed, notes)
}

/// Judges a name as a value, where it is known what it is (RM 4.1, 4.4).
pub fn name_value(
    alloc: Global,
    tables: &Tables,
    place: Span,
    asked: Asked,
    found: Option<Found>,
    notes: &mut Notes,
) -> Result<Option<Typed>, AllocError>
    ensures { Judges (senses.name_value tables.now place asked found) notes.old result notes.new }
{
    match settled_known(alloc, tables, place, found, notes) {
        Some(found) => value_found(alloc, tables, place, asked, found, notes),
        None => Ok(None),
    }
}
