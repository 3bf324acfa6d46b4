//! A name read from its beginning on: components, dereferences, attributes and results.

ghost use Rattle.std.specs.Prelude.{◌≡◌, ◌++◌, ◌∷◌, [], IfOk};
ghost use Rattle.ctl_syntax.specs.declared.item.Aliasing.TheVariants as reading;
ghost use Rattle.ctl_typing.specs.Judgement.{Answers, Judges, onward};
ghost use Rattle.ctl_typing.specs.Senses as senses;
ghost use Rattle.ctl_typing.specs.Typing as spec;

use crate::found::{Found, Head, Place, Typed};
use crate::judging::{refused, wrong};
use crate::lookup::{component_of, designated_by, profile_of, root_of};
use crate::notes::Notes;
use crate::table::{Mutability, Profile, Tables};
use ctl_grammar::spelling::is_same_name;
use ctl_program::expression::{Actual, Expr, Name, Step};
use ctl_program::types::{Root, Ty};
use ctl_syntax::item::Aliasing;
use ctl_tree::fault::FaultCode;
use ctl_tree::span::Span;
use ctl_tree::text::Text;
use sqlite_items::{Boxed, Items};
use std::alloc::{AllocError, Global};

/// Makes a value what a name begins with.
pub fn given_place(alloc: Global, typed: Typed) -> Place
    ensures { result ≡ spec.given_place typed }
{
    Place {
        head: Head::Given(typed.value),
        steps: Items::new(alloc),
        ty: typed.ty,
        mutability: Mutability::Constant,
        aliasing: Aliasing::Unaliased,
    }
}

/// Answers the result of a call; a procedure gives none (RM 6.4).
pub fn result_found(
    alloc: Global,
    place: Span,
    profile: &Profile,
    actuals: Items<Actual>,
    notes: &mut Notes,
) -> Option<Found>
    ensures { Answers (spec.result_found place profile.now actuals) notes.old result notes.new }
{
    match profile.result {
        None => wrong(FaultCode::Type, place, notes),
        Some(ty) => {
            let value = Expr::Call(profile.subprogram, actuals, ty);
            Some(Found::Part(given_place(alloc, Typed { ty, value })))
        }
    }
}

/// Answers what a name is once nothing more comes: a function without formals is called by its name alone (RM 6.4).
pub fn settled(
    alloc: Global,
    tables: &Tables,
    place: Span,
    found: Found,
    notes: &mut Notes,
) -> Option<Found>
    ensures { Answers (spec.settled tables.now place found) notes.old result notes.new }
{
    let Found::Callable(number) = found else {
        return Some(found);
    };
    match profile_of(tables, number) {
        Some(profile) if profile.formals.is_empty() => {
            result_found(alloc, place, profile, Items::new(alloc), notes)
        }
        _ => wrong(FaultCode::Type, place, notes),
    }
}

/// Makes a name of the checked program.
pub fn name_at(alloc: Global, head: Head, steps: Items<Step>) -> Result<Name, AllocError>
    ensures { IfOk result (λ name. name ≡ spec.name_at head steps) }
{
    match head {
        Head::At(var) => Ok(Name::Variable(var, steps)),
        Head::Given(value) => Ok(Name::Given(Boxed::new(alloc, value)?, steps)),
    }
}

/// Makes the value of a part; a value that no object holds is that value.
pub fn value_at(alloc: Global, head: Head, steps: Items<Step>, ty: Ty) -> Result<Expr, AllocError>
    ensures { IfOk result (λ value. value ≡ spec.value_at head steps ty) }
{
    match head {
        Head::Given(value) if steps.is_empty() => Ok(value),
        head => Ok(Expr::Read(name_at(alloc, head, steps)?, ty)),
    }
}

/// Answers a part of a part, one step behind it; it is not aliased.
fn behind(part: Place, step: Step, ty: Ty, mutability: Mutability) -> Result<Place, AllocError>
    ensures { IfOk result (λ place. place ≡ record { head = part.head; steps = part.steps ++ step ∷ []; ty = ty; mutability = mutability; aliasing = reading.Unaliased }) }
{
    let mut part = part;
    match part.steps.push(step) {
        Ok(()) => Ok(Place {
            head: part.head,
            steps: part.steps,
            ty,
            mutability,
            aliasing: Aliasing::Unaliased,
        }),
        Err(error) => {
            drop(part);
            Err(error)
        }
    }
}

/// Dereferences an access value (RM 4.1).
fn dereferenced(
    tables: &Tables,
    place: Span,
    part: Place,
    notes: &mut Notes,
) -> Result<Option<Place>, AllocError>
    ensures { Judges (spec.dereferenced tables.now place part.ty part) notes.old result notes.new }
{
    let designated = match part.ty {
        Ty::Access(access) => designated_by(tables, access),
        _ => None,
    };
    let Some(ty) = designated else {
        drop(part);
        return Ok(wrong(FaultCode::Type, place, notes));
    };
    Ok(Some(behind(part, Step::Dereference, ty, Mutability::Variable)?))
}

/// Answers what a discriminant of a pool type is called by its position from 0 (RM 3.7, profile).
pub fn discriminant_named(root: Root, name: &Text) -> Option<usize>
    ensures { result ≡ spec.discriminant_named root name.now }
{
    let name = name.as_bytes();
    match root {
        Root::BlockPool if is_same_name(name, b"block_size") => Some(0),
        Root::BlockPool if is_same_name(name, b"block_count") => Some(1),
        Root::MarkPool if is_same_name(name, b"pool_size") => Some(0),
        _ => None,
    }
}

/// Selects a component of a record, or a discriminant of a pool (RM 4.1.3).
fn selected_of(
    tables: &Tables,
    place: Span,
    name: &Text,
    part: Place,
    notes: &mut Notes,
) -> Result<Option<Found>, AllocError>
    ensures { Judges (spec.selected_of tables.now place name.now part.ty part) notes.old result notes.new }
{
    let Ty::Record(number) = part.ty else {
        drop(part);
        return Ok(wrong(FaultCode::Type, place, notes));
    };
    let Some((position, ty)) = component_of(tables, name, number) else {
        return Ok(match discriminant_named(root_of(tables, number), name) {
            Some(position) => Some(Found::Discriminant(part, position)),
            None => {
                drop(part);
                wrong(FaultCode::Type, place, notes)
            }
        });
    };
    let mutability = part.mutability;
    let step = Step::Component(number, position);
    Ok(Some(Found::Part(behind(part, step, ty, mutability)?)))
}

/// Selects behind a part; an access value is dereferenced by itself before (RM 4.1).
fn selected_through(
    tables: &Tables,
    place: Span,
    name: &Text,
    part: Place,
    notes: &mut Notes,
) -> Result<Option<Found>, AllocError>
    ensures { Judges (spec.selected_through tables.now place name.now part.ty part) notes.old result notes.new }
{
    if !matches!(part.ty, Ty::Access(_)) {
        return selected_of(tables, place, name, part, notes);
    }
    match dereferenced(tables, place, part, notes)? {
        Some(part) => selected_of(tables, place, name, part, notes),
        None => Ok(None),
    }
}

/// Selects behind a name: a component, or a discriminant (RM 4.1.3).
pub fn selected(
    tables: &Tables,
    place: Span,
    name: &Text,
    found: Found,
    notes: &mut Notes,
) -> Result<Option<Found>, AllocError>
    ensures { Judges (spec.selected tables.now place name.now found) notes.old result notes.new }
{
    match found {
        Found::Part(part) => selected_through(tables, place, name, part, notes),
        _ => Ok(refused(found, FaultCode::Type, place, notes)),
    }
}

/// Reads `.all` behind a name (RM 4.1).
pub fn all_of(
    tables: &Tables,
    place: Span,
    found: Found,
    notes: &mut Notes,
) -> Result<Option<Found>, AllocError>
    ensures { Judges (spec.all_of tables.now place found) notes.old result notes.new }
{
    let Found::Part(part) = found else {
        return Ok(refused(found, FaultCode::Type, place, notes));
    };
    match dereferenced(tables, place, part, notes)? {
        Some(part) => Ok(Some(Found::Part(part))),
        None => Ok(None),
    }
}

/// Selects behind a name that nothing more stands before (RM 4.1.3).
pub fn selector(
    alloc: Global,
    tables: &Tables,
    place: Span,
    found: Found,
    name: &Text,
    notes: &mut Notes,
) -> Result<Option<Found>, AllocError>
    ensures { Judges (senses.selected_behind tables.now place name.now found) notes.old result notes.new }
{
    match settled(alloc, tables, place, found, notes) {
        Some(found) => selected(tables, place, name, found, notes),
        None => Ok(None),
    }
}

/// Reads `.all` behind a name that nothing more stands before (RM 4.1).
pub fn dereference(
    alloc: Global,
    tables: &Tables,
    place: Span,
    found: Found,
    notes: &mut Notes,
) -> Result<Option<Found>, AllocError>
    ensures { Judges (senses.all_behind tables.now place found) notes.old result notes.new }
{
    match settled(alloc, tables, place, found, notes) {
        Some(found) => all_of(tables, place, found, notes),
        None => Ok(None),
    }
}

/// Answers what a name is once nothing more comes, where it is known what it was before (RM 6.4).
pub fn settled_known(
    alloc: Global,
    tables: &Tables,
    place: Span,
    found: Option<Found>,
    notes: &mut Notes,
) -> Option<Found>
    ensures { Answers (onward found (spec.settled tables.now place)) notes.old result notes.new }
{
    match found {
        Some(found) => settled(alloc, tables, place, found, notes),
        None => None,
    }
}
