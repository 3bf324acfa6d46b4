//! What is noted on the way: faults, and the types of expressions.

ghost use Rattle.std.specs.Prelude.{◌≡◌, ◌∷◌, [], OnOk};
ghost use Rattle.ctl_typing.specs.Judgement as judgement;
ghost use Rattle.ctl_typing.specs.Judgement.{Answers, Judges};
ghost use Rattle.ctl_typing.specs.Lookup as lookup;
ghost use Rattle.ctl_typing.specs.Typing as spec;

use crate::found::{Asked, Found, Typed, discard};
use crate::notes::{Deed, Notes};
use ctl_program::types::Ty;
use ctl_tree::fault::{Fault, FaultCode};
use ctl_tree::span::Span;
use std::alloc::AllocError;

/// Notes that a rule on types is broken at a place.
pub fn note(notes: &mut Notes, code: FaultCode, place: Span)
    ensures { notes.new ≡ judgement.with_fault code place notes.old }
{
    notes.fault = Fault::first_of(notes.fault, Fault::at(code, place));
}

/// Notes that a rule on names, order or completion is broken at a place.
pub fn note_early(notes: &mut Notes, code: FaultCode, place: Span)
    ensures { notes.new ≡ judgement.with_early code place notes.old }
{
    notes.early = Fault::first_of(notes.early, Fault::at(code, place));
}

/// Notes that a rule is broken at a place, and that nothing is known for it.
pub fn wrong<T>(code: FaultCode, place: Span, notes: &mut Notes) -> Option<T>
    ensures { Answers (judgement.wrong code place) notes.old result notes.new }
{
    note(notes, code, place);
    None
}

/// Notes that a rule is broken at a place by what a name is, and that nothing is known for it.
pub fn refused<T>(found: Found, code: FaultCode, place: Span, notes: &mut Notes) -> Option<T>
    ensures { Answers (judgement.wrong code place) notes.old result notes.new }
{
    discard(found);
    wrong(code, place, notes)
}

/// Answers the type that a name denotes, where it denotes one (RM 3.2).
pub fn marked(place: Span, found: Found, notes: &mut Notes) -> Option<Ty>
    ensures { Answers (spec.marked place found) notes.old result notes.new }
{
    let Found::TypeName(ty) = found else {
        return refused(found, FaultCode::Type, place, notes);
    };
    discard(found);
    Some(ty)
}

/// Notes a use that denotes nothing: the rules on names are broken there (RM 8.3), and nothing is known.
pub fn unresolved<T>(place: Span, notes: &mut Notes) -> Option<T>
    ensures { Answers (judgement.unresolved place) notes.old result notes.new }
{
    wrong(FaultCode::Unknown, place, notes)
}

/// Notes what an expression does, where somebody asks for it.
pub fn note_deed(notes: &mut Notes, deed: Deed) -> Result<(), AllocError>
    ensures { OnOk result (notes.new ≡ record { early = notes.old.early; fault = notes.old.fault; deeds = judgement.with_deeds (deed ∷ []) notes.old.deeds }) }
{
    match &mut notes.deeds {
        Some(deeds) => deeds.push(deed),
        None => Ok(()),
    }
}

/// Answers what is known of an expression, and notes what it does.
pub fn doing<T: Drop>(deed: Deed, value: T, notes: &mut Notes) -> Result<Option<T>, AllocError>
    ensures { Judges (judgement.doing (deed ∷ []) value) notes.old result notes.new }
{
    note_deed(notes, deed)?;
    Ok(Some(value))
}

/// Tells whether a number type is meant (RM 3.5.4, 13.7.1).
pub fn is_numeric(ty: Ty) -> bool
    ensures { result ≡ lookup.is_numeric ty }
{
    match ty {
        Ty::Integer | Ty::Count => true,
        _ => false,
    }
}

/// Tells whether both are one type.
pub fn is_same(a: Ty, b: Ty) -> bool
    ensures { result ≡ lookup.same a b }
{
    match (a, b) {
        (Ty::Integer, Ty::Integer) => true,
        (Ty::Count, Ty::Count) => true,
        (Ty::Boolean, Ty::Boolean) => true,
        (Ty::Address, Ty::Address) => true,
        (Ty::Handle, Ty::Handle) => true,
        (Ty::Access(a), Ty::Access(b)) => a == b,
        (Ty::Record(a), Ty::Record(b)) => a == b,
        _ => false,
    }
}

/// Tells whether a type is what its place asks.
fn meets(asked: Asked, ty: Ty) -> bool
    ensures { result ≡ spec.meets asked ty }
{
    match asked {
        Asked::Anything => true,
        Asked::Exactly(other) => is_same(other, ty),
        Asked::Number => is_numeric(ty),
        Asked::Ordered => ty == Ty::Boolean || is_numeric(ty),
        Asked::Comparable => !matches!(ty, Ty::Record(_)),
    }
}

/// Notes an expression of another type than its place asks: it is wrong itself.
pub fn fits(
    place: Span,
    asked: Asked,
    typed: Typed,
    notes: &mut Notes,
) -> Result<Option<Typed>, AllocError>
    ensures { Judges (spec.fits place asked typed) notes.old result notes.new }
{
    if !meets(asked, typed.ty) {
        drop(typed);
        return Ok(wrong(FaultCode::Type, place, notes));
    }
    doing(Deed::Freezes(typed.ty), typed, notes)
}

/// Notes an expression of another type than its place asks, where it is known.
pub fn fitted(
    place: Span,
    asked: Asked,
    typed: Option<Typed>,
    notes: &mut Notes,
) -> Result<Option<Typed>, AllocError>
    ensures { Judges (judgement.onward typed (spec.fits place asked)) notes.old result notes.new }
{
    match typed {
        Some(typed) => fits(place, asked, typed, notes),
        None => Ok(None),
    }
}
