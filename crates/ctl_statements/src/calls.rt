//! Calls of procedures: of the text's own, and of the library's (RM 6.4, A.10.7, 13.11.2, 13.11.5).

ghost use Rattle.std.specs.Prelude.{◌≡◌, ◌∷◌, [], Some, None, map};
ghost use Rattle.ctl_statements.specs.Statements as spec;
ghost use Rattle.ctl_typing.specs.Judgement.{Answers, Judges};
ghost use Rattle.ctl_typing.specs.Senses.{suffix_sense};
ghost use Rattle.ctl_typing.specs.Typing.{sense};

use crate::operation_calls::operation_called;
use crate::writing::writing;
use ctl_program::statement::Stmt;
use ctl_program::types::Ty;
use ctl_syntax::denoted::{Denoted, LibraryName, OperationName, Use};
use ctl_syntax::expression::Expression;
use ctl_syntax::name::{Name as SourceName, Suffix};
use ctl_tree::fault::FaultCode;
use ctl_tree::span::Span;
use ctl_typing::expressions::actuals;
use ctl_typing::judging::{unresolved, wrong};
use ctl_typing::notes::Notes;
use ctl_typing::table::{Entry, Profile, Tables};
use ctl_typing::texts::texts;
use sqlite_items::Items;
use std::alloc::{AllocError, Global};

/// Judges what is put, and makes the statement that puts it (RM A.10.7).
fn putting(
    alloc: Global,
    tables: &Tables,
    name: LibraryName,
    x: &Expression<Use>,
    notes: &mut Notes,
) -> Result<Option<Stmt>, AllocError>
    ensures { Judges (spec.putting tables.now name (sense x.now)) notes.old result notes.new }
{
    let Some(pieces) = texts(alloc, tables, x, notes)? else {
        return Ok(None);
    };
    match name {
        LibraryName::Put => Ok(Some(Stmt::Put(pieces))),
        _ => Ok(Some(Stmt::PutLine(pieces))),
    }
}

/// Judges a call of Ada.Unchecked_Deallocate_Subpool (RM 13.11.5).
fn releasing(
    alloc: Global,
    tables: &Tables,
    x: &Expression<Use>,
    notes: &mut Notes,
) -> Result<Option<Stmt>, AllocError>
    ensures { Judges (spec.releasing tables.now (sense x.now)) notes.old result notes.new }
{
    match writing(alloc, tables, Ty::Handle, x, notes)? {
        Some(handle) => Ok(Some(Stmt::Release(handle))),
        None => Ok(None),
    }
}

/// Judges a call of a procedure of the library with one actual.
fn library_with(
    alloc: Global,
    tables: &Tables,
    place: Span,
    name: LibraryName,
    x: &Expression<Use>,
    notes: &mut Notes,
) -> Result<Option<Stmt>, AllocError>
    ensures { Judges (spec.library_with tables.now place name (Some (sense x.now ∷ []))) notes.old result notes.new }
{
    match name {
        LibraryName::Put | LibraryName::PutLine => putting(alloc, tables, name, x, notes),
        LibraryName::UncheckedDeallocateSubpool => releasing(alloc, tables, x, notes),
        _ => Ok(wrong(FaultCode::Type, place, notes)),
    }
}

/// Judges a call of a declared procedure with actuals (RM 6.4).
fn procedure_called(
    alloc: Global,
    tables: &Tables,
    place: Span,
    profile: &Profile,
    first: &Expression<Use>,
    more: &[Expression<Use>],
    notes: &mut Notes,
) -> Result<Option<Stmt>, AllocError>
    ensures { Judges (spec.procedure_called tables.now place profile.now (sense first.now ∷ map sense more.now)) notes.old result notes.new }
{
    if profile.result.is_some() {
        return Ok(wrong(FaultCode::Type, place, notes));
    }
    let formals = profile.formals.as_slice();
    match actuals(alloc, tables, place, formals, first, more, notes)? {
        Some(actuals) => Ok(Some(Stmt::Call(profile.subprogram, actuals))),
        None => Ok(None),
    }
}

/// Judges a call of a declared procedure without actuals (RM 6.4).
fn procedure_called_alone(
    alloc: Global,
    place: Span,
    profile: &Profile,
    notes: &mut Notes,
) -> Option<Stmt>
    ensures { (tables : _) → Answers (spec.procedure_called tables place profile.now []) notes.old result notes.new }
{
    if profile.result.is_some() || !profile.formals.is_empty() {
        return wrong(FaultCode::Type, place, notes);
    }
    Some(Stmt::Call(profile.subprogram, Items::new(alloc)))
}

/// Judges a call of an instance of Ada.Unchecked_Deallocation: it takes a variable of its access type (RM 13.11.2).
fn deallocating(
    alloc: Global,
    tables: &Tables,
    access: usize,
    x: &Expression<Use>,
    notes: &mut Notes,
) -> Result<Option<Stmt>, AllocError>
    ensures { Judges (spec.deallocating tables.now access (sense x.now)) notes.old result notes.new }
{
    match writing(alloc, tables, Ty::Access(access), x, notes)? {
        Some(variable) => Ok(Some(Stmt::Free(access, variable))),
        None => Ok(None),
    }
}

/// Judges a call of what the text declares, with actuals.
fn declared_with(
    alloc: Global,
    tables: &Tables,
    place: Span,
    number: usize,
    first: &Expression<Use>,
    more: &[Expression<Use>],
    notes: &mut Notes,
) -> Result<Option<Stmt>, AllocError>
    ensures { Judges (spec.declared_called tables.now place number (Some (sense first.now ∷ map sense more.now))) notes.old result notes.new }
{
    match sqlite_items::at(tables.entries.as_slice(), number) {
        Some(Entry::Subprogram(profile)) => {
            procedure_called(alloc, tables, place, profile, first, more, notes)
        }
        Some(Entry::Deallocation(access)) if more.is_empty() => {
            deallocating(alloc, tables, *access, first, notes)
        }
        Some(Entry::Unknown) => Ok(None),
        _ => Ok(wrong(FaultCode::Type, place, notes)),
    }
}

/// Judges a call of what the text declares, without actuals.
fn declared_alone(
    alloc: Global,
    tables: &Tables,
    place: Span,
    number: usize,
    notes: &mut Notes,
) -> Option<Stmt>
    ensures { Answers (spec.declared_called tables.now place number (Some [])) notes.old result notes.new }
{
    match sqlite_items::at(tables.entries.as_slice(), number) {
        Some(Entry::Subprogram(profile)) => procedure_called_alone(alloc, place, profile, notes),
        Some(Entry::Unknown) => None,
        _ => wrong(FaultCode::Type, place, notes),
    }
}

/// Notes that what the text declares is not called as it stands.
fn declared_otherwise(
    tables: &Tables,
    place: Span,
    number: usize,
    notes: &mut Notes,
) -> Option<Stmt>
    ensures { Answers (spec.declared_called tables.now place number None) notes.old result notes.new }
{
    match sqlite_items::at(tables.entries.as_slice(), number) {
        Some(Entry::Unknown) => None,
        _ => wrong(FaultCode::Type, place, notes),
    }
}

/// Judges a call with actuals.
fn called_with(
    alloc: Global,
    tables: &Tables,
    place: Span,
    denoted: Denoted,
    first: &Expression<Use>,
    more: &[Expression<Use>],
    notes: &mut Notes,
) -> Result<Option<Stmt>, AllocError>
    ensures { Judges (spec.called_by tables.now place denoted (Some (sense first.now ∷ map sense more.now))) notes.old result notes.new }
{
    match denoted {
        Denoted::Declared(number, _) => {
            declared_with(alloc, tables, place, number, first, more, notes)
        }
        Denoted::Library(name) if more.is_empty() => {
            library_with(alloc, tables, place, name, first, notes)
        }
        Denoted::Operation(operation) => {
            operation_called(alloc, tables, place, operation, first, more, notes)
        }
        Denoted::Unknown => Ok(unresolved(place, notes)),
        _ => Ok(wrong(FaultCode::Type, place, notes)),
    }
}

/// Judges a call without actuals.
fn called_alone(
    alloc: Global,
    tables: &Tables,
    place: Span,
    denoted: Denoted,
    notes: &mut Notes,
) -> Option<Stmt>
    ensures { Answers (spec.called_by tables.now place denoted (Some [])) notes.old result notes.new }
{
    match denoted {
        Denoted::Declared(number, _) => declared_alone(alloc, tables, place, number, notes),
        Denoted::Library(LibraryName::NewLine) => Some(Stmt::NewLine),
        Denoted::Unknown => unresolved(place, notes),
        _ => wrong(FaultCode::Type, place, notes),
    }
}

/// Notes that a name which is no call stands as a statement.
fn called_otherwise(
    tables: &Tables,
    place: Span,
    denoted: Denoted,
    notes: &mut Notes,
) -> Option<Stmt>
    ensures { Answers (spec.called_by tables.now place denoted None) notes.old result notes.new }
{
    match denoted {
        Denoted::Declared(number, _) => declared_otherwise(tables, place, number, notes),
        Denoted::Unknown => unresolved(place, notes),
        _ => wrong(FaultCode::Type, place, notes),
    }
}

/// Judges a call with one suffix behind its name: its actuals, or what makes no call of it.
fn called_behind(
    alloc: Global,
    tables: &Tables,
    place: Span,
    denoted: Denoted,
    suffix: &Suffix<Expression<Use>>,
    notes: &mut Notes,
) -> Result<Option<Stmt>, AllocError>
    ensures { Judges (spec.called_by tables.now place denoted (spec.arguments_of (suffix_sense suffix.now ∷ []))) notes.old result notes.new }
{
    match suffix {
        Suffix::Arguments(_, first, more) => {
            called_with(alloc, tables, place, denoted, first, more.as_slice(), notes)
        }
        _ => Ok(called_otherwise(tables, place, denoted, notes)),
    }
}

/// Judges a call of a procedure (RM 6.4).
pub fn call(
    alloc: Global,
    tables: &Tables,
    place: Span,
    name: &SourceName<Use, Expression<Use>>,
    notes: &mut Notes,
) -> Result<Option<Stmt>, AllocError>
    ensures { Judges (spec.call place name.now.first (map suffix_sense name.now.suffixes) tables.now) notes.old result notes.new }
{
    let denoted = name.first.denoted;
    match name.suffixes.as_slice() {
        [] => Ok(called_alone(alloc, tables, place, denoted, notes)),
        [suffix] => called_behind(alloc, tables, place, denoted, suffix, notes),
        _ => Ok(called_otherwise(tables, place, denoted, notes)),
    }
}
