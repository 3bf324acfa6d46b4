//! Attributes behind a name (RM 3.5, 3.10.2).

ghost use Rattle.std.specs.Prelude.{◌≡◌};
ghost use Rattle.ctl_typing.specs.Judgement.{Answers};
ghost use Rattle.ctl_typing.specs.Typing as spec;
ghost use Rattle.ctl_syntax.specs.declared.name.Attribute.TheVariants as reading;

use crate::found::{Found, Head, Place, discard};
use crate::judging::{refused, wrong};
use crate::literals::constant;
use crate::notes::Notes;
use crate::table::Mutability;
use ctl_program::limits::{INTEGER_FIRST_CELL, INTEGER_LAST_CELL};
use ctl_program::types::Ty;
use ctl_syntax::item::Aliasing;
use ctl_syntax::name::Attribute;
use ctl_tree::fault::FaultCode;
use ctl_tree::span::Span;

/// Reads `X'Access`: of an aliased variable of a record type that is declared so (RM 3.10.2).
fn accessed(place: Span, part: &Place, notes: &mut Notes) -> Option<Found>
    ensures { Answers (spec.accessed place part.now.head part.now.steps part.now.ty part.now.mutability part.now.aliasing) notes.old result notes.new }
{
    let is_whole = part.steps.is_empty();
    match (&part.head, part.ty, part.mutability, part.aliasing) {
        (Head::At(var), Ty::Record(number), Mutability::Variable, Aliasing::Aliased) if is_whole =>
            { Some(Found::Accessed(*var, Ty::Record(number))) }
        _ => wrong(FaultCode::Type, place, notes),
    }
}

/// Reads `T'Image` (RM 3.5, profile).
fn image_of(place: Span, ty: Ty, notes: &mut Notes) -> Option<Found>
    ensures { Answers (spec.image_of place ty) notes.old result notes.new }
{
    match ty {
        Ty::Integer | Ty::Boolean => Some(Found::Image(ty)),
        _ => wrong(FaultCode::Type, place, notes),
    }
}

/// Reads a bound of Integer (RM 3.5, profile).
fn bound_of(place: Span, ty: Ty, cell: u64, notes: &mut Notes) -> Option<Found>
    ensures { Answers (spec.bound_of place ty cell) notes.old result notes.new }
{
    match ty {
        Ty::Integer => Some(constant(Ty::Integer, cell)),
        _ => wrong(FaultCode::Type, place, notes),
    }
}

/// Reads the attribute Access behind a name (RM 3.10.2).
fn access(place: Span, found: Found, notes: &mut Notes) -> Option<Found>
    ensures { Answers (spec.attributed place reading.Access found) notes.old result notes.new }
{
    match found {
        Found::Part(part) => {
            let found = accessed(place, &part, notes);
            drop(part);
            found
        }
        _ => refused(found, FaultCode::Type, place, notes),
    }
}

/// Reads the attribute Image behind a name (RM 3.5).
fn image(place: Span, found: Found, notes: &mut Notes) -> Option<Found>
    ensures { Answers (spec.attributed place reading.Image found) notes.old result notes.new }
{
    let Found::TypeName(ty) = found else {
        return refused(found, FaultCode::Type, place, notes);
    };
    discard(found);
    image_of(place, ty, notes)
}

/// Reads the attribute First behind a name (RM 3.5).
fn first(place: Span, found: Found, notes: &mut Notes) -> Option<Found>
    ensures { Answers (spec.attributed place reading.First found) notes.old result notes.new }
{
    let Found::TypeName(ty) = found else {
        return refused(found, FaultCode::Type, place, notes);
    };
    discard(found);
    bound_of(place, ty, INTEGER_FIRST_CELL, notes)
}

/// Reads the attribute Last behind a name (RM 3.5).
fn last(place: Span, found: Found, notes: &mut Notes) -> Option<Found>
    ensures { Answers (spec.attributed place reading.Last found) notes.old result notes.new }
{
    let Found::TypeName(ty) = found else {
        return refused(found, FaultCode::Type, place, notes);
    };
    discard(found);
    bound_of(place, ty, INTEGER_LAST_CELL, notes)
}

/// Reads an attribute behind a name (RM 3.5, 3.10.2).
pub fn attributed(
    place: Span,
    attribute: Attribute,
    found: Found,
    notes: &mut Notes,
) -> Option<Found>
    ensures { Answers (spec.attributed place attribute found) notes.old result notes.new }
{
    match attribute {
        Attribute::Access => access(place, found, notes),
        Attribute::Image => image(place, found, notes),
        Attribute::First => first(place, found, notes),
        Attribute::Last => last(place, found, notes),
    }
}
