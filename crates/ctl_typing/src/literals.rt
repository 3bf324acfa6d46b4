//! Literals, and what a name begins with: judged without a look at any other expression.

ghost use Rattle.std.specs.Prelude.{◌≡◌};
ghost use Rattle.std.specs.Option.{option_copied};
ghost use Rattle.ctl_typing.specs.Judgement.{Answers, Judges};
ghost use Rattle.ctl_typing.specs.Typing as spec;

use crate::found::{Asked, Found, Head, Place, Typed};
use crate::judging::{fits, note, note_deed, unresolved};
use crate::notes::{Deed, Notes};
use crate::table::{Entry, ObjectEntry, Tables};
use ctl_program::expression::Expr;
use ctl_program::library::{BLOCK_POOL, CONTROLLED, LIMITED_CONTROLLED, MARK_RELEASE_POOL};
use ctl_program::limits::INTEGER_LAST_CELL;
use ctl_program::operators::SubpoolFunction;
use ctl_program::types::Ty;
use ctl_syntax::denoted::{Denoted, LibraryName, Use};
use ctl_tree::fault::FaultCode;
use ctl_tree::span::Span;
use sqlite_items::Items;
use std::alloc::{AllocError, Global};

/// Answers the number type that literals take on at a place.
pub fn adopted(asked: Asked) -> Ty
    ensures { result ≡ spec.adopted asked }
{
    match asked {
        Asked::Exactly(Ty::Count) => Ty::Count,
        _ => Ty::Integer,
    }
}

/// Answers what stands for a numeric literal: the number, where it is in range.
fn number_cell(value: u64) -> u64
    ensures { result ≡ spec.number_cell value }
{
    if value > INTEGER_LAST_CELL { 0 } else { value }
}

/// Judges a numeric literal (RM 2.4).
pub fn number(
    place: Span,
    value: u64,
    asked: Asked,
    notes: &mut Notes,
) -> Result<Option<Typed>, AllocError>
    ensures { (tables : _) → Judges (spec.number_judged place value tables asked) notes.old result notes.new }
{
    if value > INTEGER_LAST_CELL {
        note(notes, FaultCode::Range, place);
    }
    let typed = Typed {
        ty: adopted(asked),
        value: Expr::Constant(number_cell(value)),
    };
    fits(place, asked, typed, notes)
}

/// Judges `null` (RM 4.2).
pub fn null(place: Span, asked: Asked, notes: &mut Notes) -> Option<Typed>
    ensures { (tables : _) → Answers (spec.null_judged place tables asked) notes.old result notes.new }
{
    match asked {
        Asked::Exactly(ty @ Ty::Access(_)) | Asked::Exactly(ty @ Ty::Handle) => Some(Typed {
            ty,
            value: Expr::Constant(0),
        }),
        _ => {
            note(notes, FaultCode::Type, place);
            None
        }
    }
}

/// Makes a constant of the library.
pub fn constant(ty: Ty, cell: u64) -> Found
    ensures { result ≡ spec.constant ty cell }
{
    Found::Computed(Typed {
        ty,
        value: Expr::Constant(cell),
    })
}

/// Answers what a name of the library begins (RM 3.5, 7.6, 13.7, 13.11).
fn library_found(place: Span, name: LibraryName, notes: &mut Notes) -> Option<Found>
    ensures { Answers (spec.library_found place name) notes.old result notes.new }
{
    match name {
        LibraryName::Integer => Some(Found::TypeName(Ty::Integer)),
        LibraryName::Boolean => Some(Found::TypeName(Ty::Boolean)),
        LibraryName::StorageCount => Some(Found::TypeName(Ty::Count)),
        LibraryName::Address => Some(Found::TypeName(Ty::Address)),
        LibraryName::SubpoolHandle => Some(Found::TypeName(Ty::Handle)),
        LibraryName::Controlled => Some(Found::TypeName(Ty::Record(CONTROLLED))),
        LibraryName::LimitedControlled => Some(Found::TypeName(Ty::Record(LIMITED_CONTROLLED))),
        LibraryName::BlockPool => Some(Found::TypeName(Ty::Record(BLOCK_POOL))),
        LibraryName::MarkReleasePool => Some(Found::TypeName(Ty::Record(MARK_RELEASE_POOL))),
        LibraryName::True => Some(constant(Ty::Boolean, 1)),
        LibraryName::False => Some(constant(Ty::Boolean, 0)),
        LibraryName::NullAddress => Some(constant(Ty::Address, 0)),
        LibraryName::Mark => Some(Found::Subpools(SubpoolFunction::Mark)),
        LibraryName::DefaultSubpool => Some(Found::Subpools(SubpoolFunction::Default)),
        _ => {
            note(notes, FaultCode::Type, place);
            None
        }
    }
}

/// Makes a declared object what a name begins with.
fn variable(alloc: Global, object: &ObjectEntry) -> Place
    ensures { result ≡ spec.variable object.now }
{
    Place {
        head: Head::At(object.var),
        steps: Items::new(alloc),
        ty: object.ty,
        mutability: object.mutability,
        aliasing: object.aliasing,
    }
}

/// Answers what a declaration of the text begins. Nothing is told of one that is wrong itself.
fn entry_found(
    alloc: Global,
    place: Span,
    number: usize,
    entry: Option<&Entry>,
    notes: &mut Notes,
) -> Result<Option<Found>, AllocError>
    ensures { Judges (spec.entry_found place number (option_copied entry.entry)) notes.old result notes.new }
{
    match entry {
        Some(Entry::Object(object)) => Ok(Some(Found::Part(variable(alloc, object)))),
        Some(Entry::Type(ty)) => Ok(Some(Found::TypeName(*ty))),
        Some(Entry::Subprogram(profile)) => {
            note_deed(notes, Deed::Calls(profile.subprogram))?;
            Ok(Some(Found::Callable(number)))
        }
        Some(Entry::Unknown) => Ok(None),
        _ => {
            note(notes, FaultCode::Type, place);
            Ok(None)
        }
    }
}

/// Answers what the beginning of a name denotes (RM 4.1).
pub fn first_found(
    alloc: Global,
    tables: &Tables,
    beginning: &Use,
    notes: &mut Notes,
) -> Result<Option<Found>, AllocError>
    ensures { Judges (spec.first_found tables.now beginning.now) notes.old result notes.new }
{
    match beginning.denoted {
        Denoted::Declared(number, _) => {
            let entry = sqlite_items::at(tables.entries.as_slice(), number);
            entry_found(alloc, beginning.span, number, entry, notes)
        }
        Denoted::Library(name) => Ok(library_found(beginning.span, name, notes)),
        Denoted::Operation(_) => {
            note(notes, FaultCode::Type, beginning.span);
            Ok(None)
        }
        Denoted::Unknown => Ok(unresolved(beginning.span, notes)),
    }
}
