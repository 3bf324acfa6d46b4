//! Clauses that give an access type its pool (RM 13.3, 13.11).

ghost use Rattle.std.specs.Prelude.{◌≡◌, slice_get};
ghost use Rattle.ctl_declarations.specs.Types as spec;
ghost use Rattle.ctl_draft.specs.Freezing as freezing;
ghost use Rattle.ctl_typing.specs.Judgement.{Answers, Yields};

use crate::incomplete::silent;
use ctl_access_types::accesses::pool_for;
use ctl_draft::draft::{Around, Draft};
use ctl_draft::freezing::is_free_type;
use ctl_draft::types::pool_named;
use ctl_program::statement::Item;
use ctl_program::types::{Ty, Var};
use ctl_syntax::denoted::{Denoted, LibraryName, Use};
use ctl_syntax::name::Mark;
use ctl_tree::fault::FaultCode;
use ctl_tree::span::Span;
use ctl_typing::judging::{note, note_early, unresolved};
use ctl_typing::notes::Notes;
use ctl_typing::table::{AccessEntry, Entry, Tables};
use sqlite_items::Items;
use std::alloc::{AllocError, Global};

/// Tells whether what the library declares is a type.
fn is_library_type(name: LibraryName) -> bool
    ensures { result ≡ spec.is_library_type name }
{
    match name {
        LibraryName::Integer
        | LibraryName::Boolean
        | LibraryName::StorageCount
        | LibraryName::Address
        | LibraryName::SubpoolHandle
        | LibraryName::Controlled
        | LibraryName::LimitedControlled
        | LibraryName::RootStoragePool
        | LibraryName::BlockPool
        | LibraryName::MarkReleasePool => true,
        _ => false,
    }
}

/// Notes what a clause names wrongly: a type of another part or one that is frozen is told of as one of order (RM 13.1(5), 13.1(9)).
fn misplaced(is_late: bool, place: Span, notes: &mut Notes) -> Option<usize>
    ensures { Answers (spec.misplaced is_late place) notes.old result notes.new }
{
    if is_late {
        note_early(notes, FaultCode::Order, place);
    } else {
        note(notes, FaultCode::Type, place);
    }
    None
}

/// Answers the access type that a clause is of, where it is not frozen (RM 13.1(9)).
fn clause_access(
    tables: &Tables,
    around: Around,
    place: Span,
    ty: Ty,
    notes: &mut Notes,
) -> Option<usize>
    ensures { Answers (spec.clause_access tables.now around place ty) notes.old result notes.new }
{
    let is_free = is_free_type(&tables.states, ty);
    match ty {
        Ty::Access(access) if around.first_access <= access && is_free => Some(access),
        Ty::Access(_) => misplaced(true, place, notes),
        _ => misplaced(!is_free, place, notes),
    }
}

/// Answers the access type of the part that a declaration declares (RM 13.1(5)).
fn clause_entry(
    tables: &Tables,
    around: Around,
    place: Span,
    number: usize,
    notes: &mut Notes,
) -> Option<usize>
    ensures { Answers (spec.clause_entry tables.now around place number (slice_get tables.now.entries number)) notes.old result notes.new }
{
    match sqlite_items::at(tables.entries.as_slice(), number) {
        Some(Entry::Type(ty)) if around.start <= number => {
            clause_access(tables, around, place, *ty, notes)
        }
        Some(Entry::Type(_)) => misplaced(true, place, notes),
        Some(Entry::Incomplete(_)) | Some(Entry::Unknown) => None,
        _ => misplaced(false, place, notes),
    }
}

/// Answers the access type that a clause is of, by what its name denotes.
fn clause_type(
    tables: &Tables,
    around: Around,
    place: Span,
    denoted: Denoted,
    notes: &mut Notes,
) -> Option<usize>
    ensures { Answers (spec.clause_type around place denoted tables.now) notes.old result notes.new }
{
    match denoted {
        Denoted::Declared(number, _) => clause_entry(tables, around, place, number, notes),
        Denoted::Library(name) => misplaced(is_library_type(name), place, notes),
        Denoted::Operation(_) => misplaced(false, place, notes),
        Denoted::Unknown => unresolved(place, notes),
    }
}

/// Notes where a pool does not fit the access type of its clause, which has no other (RM 13.11).
fn pool_for_type(
    tables: &Tables,
    place: Span,
    access: Option<usize>,
    pool: (Var, usize),
    notes: &mut Notes,
) -> Option<(Var, usize)>
    ensures { Answers (spec.pool_for_type tables.now place access pool) notes.old result notes.new }
{
    let Some(number) = access else {
        return Some(pool);
    };
    match sqlite_items::at(tables.states.accesses.as_slice(), number) {
        None => Some(pool),
        Some(access) if access.pool.is_some() => {
            note(notes, FaultCode::Pool, place);
            None
        }
        Some(access) => {
            let (generality, level, identifier) = (access.generality, access.level, access.span);
            pool_for(tables, generality, level, identifier, place, pool, notes)
        }
    }
}

/// Answers the pool that a clause gives.
fn clause_pool(
    tables: &Tables,
    mark: &Mark<Use>,
    access: Option<usize>,
    notes: &mut Notes,
) -> Option<(Var, usize)>
    ensures { Answers (spec.clause_pool mark.now access tables.now) notes.old result notes.new }
{
    let pool = pool_named(tables, mark, notes)?;
    pool_for_type(tables, mark.first.span, access, pool, notes)
}

/// Gives an access type its pool.
fn set_pool(accesses: &mut Items<AccessEntry>, number: usize, pool: (Var, usize))
    ensures { accesses.new ≡ freezing.changed (spec.with_pool pool) number accesses.old }
{
    if let Some(&access) = accesses.get(number) {
        let mut access = access;
        access.pool = Some(pool);
        accesses.set(number, access);
    }
}

/// Gives the access type of a clause its pool, once it is known which that is.
fn clause_with(mark: &Mark<Use>, access: Option<usize>, draft: &mut Draft)
    ensures { draft.new ≡ spec.clause_with mark.now (access, draft.old) }
{
    let pool = clause_pool(&draft.tables, mark, access, &mut draft.notes);
    if let (Some(number), Some(pool)) = (access, pool) {
        set_pool(&mut draft.tables.states.accesses, number, pool);
    }
}

/// Judges a clause that gives an access type its pool (RM 13.3, 13.11).
pub fn pool_clause(
    alloc: Global,
    place: Span,
    of: Use,
    pool: &Mark<Use>,
    around: Around,
    draft: &mut Draft,
) -> Result<Items<Item>, AllocError>
    ensures { Yields (spec.pool_clause place of pool.now around) draft.old result draft.new }
{
    let access = clause_type(&draft.tables, around, place, of.denoted, &mut draft.notes);
    clause_with(pool, access, draft);
    silent(alloc)
}
