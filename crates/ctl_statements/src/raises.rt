//! Raises, and the exceptions that they and handlers name (RM 11.2, 11.3).

ghost use Rattle.std.specs.Prelude.{◌≡◌};
ghost use Rattle.ctl_draft.specs.Draft.{by_tables};
ghost use Rattle.ctl_statements.specs.Statements as spec;
ghost use Rattle.ctl_typing.specs.Judgement.{Answers, Judges};

use ctl_draft::draft::{Draft, Handling};
use ctl_program::library::{CONSTRAINT_ERROR, PROGRAM_ERROR, STORAGE_ERROR};
use ctl_program::statement as checked;
use ctl_program::statement::Stmt;
use ctl_syntax::denoted::{Denoted, LibraryName, Use};
use ctl_syntax::item::Choices;
use ctl_syntax::name::Mark;
use ctl_tree::fault::FaultCode;
use ctl_tree::span::Span;
use ctl_typing::judging::{unresolved, wrong};
use ctl_typing::notes::Notes;
use ctl_typing::operators::appended;
use ctl_typing::table::{Entry, Tables};
use sqlite_items::Items;
use std::alloc::{AllocError, Global};

/// Answers the number of the exception that a declaration declares.
fn exception_entry(tables: &Tables, place: Span, number: usize, notes: &mut Notes) -> Option<usize>
    ensures { Answers (spec.exception_of tables.now place number) notes.old result notes.new }
{
    match sqlite_items::at(tables.entries.as_slice(), number) {
        Some(Entry::Exception(exception)) => Some(*exception),
        Some(Entry::Unknown) => None,
        _ => wrong(FaultCode::Type, place, notes),
    }
}

/// Answers the number of the exception that a name denotes.
fn exception_denoted(
    tables: &Tables,
    place: Span,
    denoted: Denoted,
    notes: &mut Notes,
) -> Option<usize>
    ensures { Answers (spec.exception_denoted tables.now place denoted) notes.old result notes.new }
{
    match denoted {
        Denoted::Declared(number, _) => exception_entry(tables, place, number, notes),
        Denoted::Library(LibraryName::ConstraintError) => Some(CONSTRAINT_ERROR),
        Denoted::Library(LibraryName::ProgramError) => Some(PROGRAM_ERROR),
        Denoted::Library(LibraryName::StorageError) => Some(STORAGE_ERROR),
        Denoted::Unknown => unresolved(place, notes),
        _ => wrong(FaultCode::Type, place, notes),
    }
}

/// Answers the number of the exception that a mark names; an expanded name names none (profile).
fn exception_named(
    tables: &Tables,
    place: Span,
    mark: &Mark<Use>,
    notes: &mut Notes,
) -> Option<usize>
    ensures { Answers (spec.exception_named tables.now place mark.now.first mark.now.rest) notes.old result notes.new }
{
    if mark.rest.is_empty() {
        exception_denoted(tables, place, mark.first.denoted, notes)
    } else {
        wrong(FaultCode::Type, place, notes)
    }
}

/// Judges a raise (RM 11.3).
pub fn raising(tables: &Tables, place: Span, mark: &Mark<Use>, notes: &mut Notes) -> Option<Stmt>
    ensures { Answers (spec.raising place mark.now tables.now) notes.old result notes.new }
{
    match exception_named(tables, place, mark, notes) {
        Some(number) => Some(Stmt::Raise(number)),
        None => None,
    }
}

/// Judges a raise of the exception that is handled, which stands in a handler (RM 11.3).
pub fn raising_again(place: Span, handling: Handling, draft: &mut Draft) -> Option<Stmt>
    ensures { Answers (spec.raising_again place handling) draft.old result draft.new }
{
    match handling {
        Handling::Inside => Some(Stmt::RaiseAgain),
        Handling::Outside => wrong(FaultCode::Return, place, &mut draft.notes),
    }
}

/// Judges an exception that a handler names (RM 11.2).
fn choice(place: Span, mark: &Mark<Use>, draft: &mut Draft) -> Option<usize>
    ensures { Answers (by_tables (spec.choice place mark.now)) draft.old result draft.new }
{
    exception_named(&draft.tables, place, mark, &mut draft.notes)
}

/// Judges the exceptions that a handler names (RM 11.2).
fn exceptions_chosen(
    alloc: Global,
    place: Span,
    marks: &[Mark<Use>],
    draft: &mut Draft,
) -> Result<Option<Items<usize>>, AllocError>
    ensures { Judges (spec.exceptions_chosen place marks.now) draft.old result draft.new }
{
    let mut done = Some(Items::new(alloc));
    for one in marks {
        let judged = choice(place, one, draft);
        done = appended(done, judged)?;
    }
    Ok(done)
}

/// Judges the choices of a handler (RM 11.2).
pub fn choices_of(
    alloc: Global,
    place: Span,
    choices: &Choices<Use>,
    draft: &mut Draft,
) -> Result<Option<checked::Choices>, AllocError>
    ensures { Judges (spec.choices_of place choices.now) draft.old result draft.new }
{
    match choices {
        Choices::Others => Ok(Some(checked::Choices::Others)),
        Choices::Exceptions(marks) => {
            match exceptions_chosen(alloc, place, marks.as_slice(), draft)? {
                Some(numbers) => Ok(Some(checked::Choices::Exceptions(numbers))),
                None => Ok(None),
            }
        }
    }
}
