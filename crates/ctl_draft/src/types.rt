//! What the tables say of a type that is declared or used in a declaration.

ghost use Rattle.std.specs.Prelude.{◌≡◌, slice_get};
ghost use Rattle.ctl_draft.specs.Marks as spec;
ghost use Rattle.ctl_typing.specs.Judgement.{Answers};

use ctl_program::types::{Root, Ty, Var};
use ctl_syntax::denoted::{Denoted, Use};
use ctl_syntax::name::Mark;
use ctl_tree::fault::FaultCode;
use ctl_tree::span::Span;
use ctl_typing::judging::{note, unresolved};
use ctl_typing::lookup::root_of;
use ctl_typing::notes::Notes;
use ctl_typing::table::{Control, Entry, ObjectEntry, Standing, Tables};

/// Answers what a type descends from; a type that is no record descends from nothing.
pub fn root_of_type(tables: &Tables, ty: Ty) -> Root
    ensures { result ≡ spec.root_of_type tables.now ty }
{
    match ty {
        Ty::Record(number) => root_of(tables, number),
        _ => Root::Untagged,
    }
}

/// Tells whether a type of this root is a pool's (RM 13.11).
pub fn is_pool_root(root: Root) -> bool
    ensures { result ≡ spec.is_pool_root root }
{
    match root {
        Root::BlockPool | Root::MarkPool => true,
        _ => false,
    }
}

/// Tells whether a type is a pool's (RM 13.11).
pub fn is_pool(tables: &Tables, ty: Ty) -> bool
    ensures { result ≡ spec.is_pool tables.now ty }
{
    is_pool_root(root_of_type(tables, ty))
}

/// Notes a pool type where none may stand; the type is known all the same.
pub fn no_pool(tables: &Tables, place: Span, ty: Ty, notes: &mut Notes) -> Option<Ty>
    ensures { Answers (spec.no_pool tables.now place ty) notes.old result notes.new }
{
    if is_pool(tables, ty) {
        note(notes, FaultCode::Pool, place);
    }
    Some(ty)
}

/// Tells whether a type has a controlled part (RM 7.6).
pub fn has_controlled(tables: &Tables, ty: Ty) -> bool
    ensures { result ≡ spec.has_controlled tables.now ty }
{
    match ty {
        Ty::Record(number) => match sqlite_items::at(tables.records.as_slice(), number) {
            Some(entry) => entry.control == Control::Controlled,
            None => false,
        },
        _ => false,
    }
}

/// Answers the pool that an object is: a declared one, of a pool type.
fn pool_standing(
    tables: &Tables,
    place: Span,
    object: ObjectEntry,
    notes: &mut Notes,
) -> Option<(Var, usize)>
    ensures { Answers (spec.pool_standing tables.now place object.standing object) notes.old result notes.new }
{
    match (object.standing, object.ty) {
        (Standing::Declared, Ty::Record(number)) if is_pool(tables, object.ty) => {
            Some((object.var, number))
        }
        _ => {
            note(notes, FaultCode::Pool, place);
            None
        }
    }
}

/// Answers the declared pool object that a mark names, and the record type that it is of (RM 13.11).
pub fn pool_named(tables: &Tables, mark: &Mark<Use>, notes: &mut Notes) -> Option<(Var, usize)>
    ensures { Answers (spec.pool_named tables.now mark.now) notes.old result notes.new }
{
    let place = mark.first.span;
    if mark.rest.is_empty() {
        match mark.first.denoted {
            Denoted::Unknown => return unresolved(place, notes),
            Denoted::Declared(number, _) => {
                match sqlite_items::at(tables.entries.as_slice(), number) {
                    Some(Entry::Object(object)) => {
                        return pool_standing(tables, place, *object, notes);
                    }
                    Some(Entry::Unknown) => return None,
                    _ => {}
                }
            }
            _ => {}
        }
    }
    note(notes, FaultCode::Pool, place);
    None
}
