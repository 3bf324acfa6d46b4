//! Access types, and what completes those that designate incomplete types (RM 3.10, 3.10.1).

ghost use Rattle.std.specs.Prelude.{◌≡◌, OnOk, slice_get};
ghost use Rattle.ctl_access_types.specs.AccessTypes as spec;
ghost use Rattle.ctl_draft.specs.Freezing as freezing;
ghost use Rattle.ctl_typing.specs.Judgement.{Answers, Judges, Yields};

use ctl_draft::draft::{Around, Draft};
use ctl_draft::named_types::named_type;
use ctl_draft::types::{is_pool_root, no_pool, pool_named};
use ctl_program::statement::Item;
use ctl_program::types::{Root, Ty, Var};
use ctl_syntax::denoted::{Definition, Denoted, Use};
use ctl_syntax::item::{Coverage, Generality, Taggedness};
use ctl_syntax::name::Mark;
use ctl_tree::fault::FaultCode;
use ctl_tree::span::Span;
use ctl_typing::judging::{note, wrong};
use ctl_typing::lookup::root_of;
use ctl_typing::notes::Notes;
use ctl_typing::table::{AccessEntry, Designated, Entry, Freezing, Tables};
use sqlite_items::Items;
use std::alloc::{AllocError, Global};

/// Answers what an access type designates once the declaration of a number is a type (RM 3.10.1).
fn completed(number: usize, ty: Ty, designated: Designated) -> Designated
    ensures { result ≡ spec.completed_designated number ty designated }
{
    match designated {
        Designated::Awaited(awaited, _) if awaited == number => Designated::Known(ty),
        other => other,
    }
}

/// Completes what one access type designates.
fn complete_access(accesses: &mut Items<AccessEntry>, at: usize, number: usize, ty: Ty)
    ensures { accesses.new ≡ freezing.changed (spec.completed_access number ty) at accesses.old }
{
    if let Some(&access) = accesses.get(at) {
        let mut access = access;
        access.designated = completed(number, ty, access.designated);
        accesses.set(at, access);
    }
}

/// Completes what the access types from one on designate.
fn complete_each(accesses: &mut Items<AccessEntry>, first: usize, number: usize, ty: Ty)
    ensures { accesses.new ≡ freezing.changed_each (spec.completed_access number ty) first accesses.old }
{
    for at in first..accesses.len() {
        complete_access(accesses, at, number, ty);
    }
}

/// Notes where an access type names the type of a number that is awaited.
fn note_pool(number: usize, designated: Designated, notes: &mut Notes)
    ensures { notes.new ≡ spec.pool_noted number designated notes.old }
{
    match designated {
        Designated::Awaited(awaited, place) if awaited == number => {
            note(notes, FaultCode::Pool, place)
        }
        _ => {}
    }
}

/// Notes where each of these access types names the type of a number that is awaited.
fn note_pools(number: usize, accesses: &[AccessEntry], notes: &mut Notes)
    ensures { notes.new ≡ spec.pools_noted number accesses.now notes.old }
{
    for access in accesses {
        note_pool(number, access.designated, notes);
    }
}

/// Notes where access types of the part designate what a type of this root completes, if it is a pool (profile).
pub fn no_pool_awaited(around: Around, number: usize, root: Root, draft: &mut Draft)
    ensures { draft.new ≡ spec.no_pool_awaited around number root draft.old }
{
    if is_pool_root(root) {
        let accesses = draft.tables.states.accesses.as_slice();
        if let Some(own) = accesses.get(around.first_access..) {
            note_pools(number, own, &mut draft.notes);
        }
    }
}

/// Enters a type under the number of its declaration: the access types of the part that wait for it designate it (RM 3.10.1).
pub fn enter_type(
    around: Around,
    number: usize,
    ty: Ty,
    draft: &mut Draft,
) -> Result<(), AllocError>
    ensures { OnOk result (draft.new ≡ spec.enter_type around number ty draft.old) }
{
    draft.enter(around, number, Entry::Type(ty))?;
    let first = around.first_access;
    complete_each(&mut draft.tables.states.accesses, first, number, ty);
    Ok(())
}

/// Tells whether the type of a number was said to be tagged before its full declaration (RM 3.10.1).
fn is_said_tagged(tables: &Tables, number: usize) -> bool
    ensures { result ≡ spec.is_said_tagged (slice_get tables.now.entries number) }
{
    match sqlite_items::at(tables.entries.as_slice(), number) {
        Some(Entry::Incomplete(taggedness)) => *taggedness == Taggedness::Tagged,
        _ => false,
    }
}

/// Notes where a type that was said to be tagged is completed by one that is not (RM 3.10.1(4)).
pub fn untagged_kept(place: Span, number: usize, draft: &mut Draft)
    ensures { draft.new ≡ spec.untagged_kept place number draft.old }
{
    let is_broken = is_said_tagged(&draft.tables, number);
    draft.fault_when(is_broken, FaultCode::Type, place);
}

/// Answers the complete type that a mark names as what an access type designates: no pool (RM 3.10, profile).
fn designated_type(
    alloc: Global,
    tables: &Tables,
    place: Span,
    mark: &Mark<Use>,
    notes: &mut Notes,
) -> Result<Option<Designated>, AllocError>
    ensures { Judges (spec.designated_type tables.now place mark.now) notes.old result notes.new }
{
    let Some(ty) = named_type(alloc, tables, place, mark, notes)? else {
        return Ok(None);
    };
    match no_pool(tables, mark.first.span, ty, notes) {
        Some(ty) => Ok(Some(Designated::Known(ty))),
        None => Ok(None),
    }
}

/// Answers what a mark names as what an access type designates: a type that is complete or not (RM 3.10.1).
fn designated_denoted(
    alloc: Global,
    tables: &Tables,
    place: Span,
    mark: &Mark<Use>,
    notes: &mut Notes,
) -> Result<Option<Designated>, AllocError>
    ensures { Judges (spec.designated_denoted tables.now place mark.now mark.now.first.denoted) notes.old result notes.new }
{
    if let Denoted::Declared(number, _) = mark.first.denoted {
        if let Some(Entry::Incomplete(_)) = sqlite_items::at(tables.entries.as_slice(), number) {
            return Ok(Some(Designated::Awaited(number, mark.first.span)));
        }
    }
    designated_type(alloc, tables, place, mark, notes)
}

/// Answers what an access type designates; a class only once class-wide types are there (RM 3.10).
fn designated_named(
    alloc: Global,
    tables: &Tables,
    place: Span,
    mark: &Mark<Use>,
    coverage: Coverage,
    notes: &mut Notes,
) -> Result<Option<Designated>, AllocError>
    ensures { Judges (spec.designated_named place mark.now coverage tables.now) notes.old result notes.new }
{
    match coverage {
        Coverage::Specific => designated_denoted(alloc, tables, place, mark, notes),
        Coverage::ClassWide => Ok(wrong(FaultCode::Type, place, notes)),
    }
}

/// Answers the pool of an access type, where it fits: a type with subpools is no deeper than its pool, and not general (RM 13.11.4, profile).
pub fn pool_for(
    tables: &Tables,
    generality: Generality,
    level: usize,
    identifier: Span,
    place: Span,
    pool: (Var, usize),
    notes: &mut Notes,
) -> Option<(Var, usize)>
    ensures { Answers (spec.pool_for tables.now generality level identifier place pool) notes.old result notes.new }
{
    if root_of(tables, pool.1) != Root::MarkPool {
        return Some(pool);
    }
    if pool.0.level < level {
        return wrong(FaultCode::SubpoolLevel, identifier, notes);
    }
    if generality == Generality::General {
        return wrong(FaultCode::Pool, place, notes);
    }
    Some(pool)
}

/// Answers the pool that an access type says in its aspect Storage_Pool, if it says one (RM 13.11).
fn pool_given(
    tables: &Tables,
    generality: Generality,
    level: usize,
    identifier: Span,
    pool: &Option<Mark<Use>>,
    notes: &mut Notes,
) -> Option<(Var, usize)>
    ensures { Answers (spec.pool_given generality level identifier pool.now tables.now) notes.old result notes.new }
{
    match pool {
        Some(mark) => {
            let place = mark.first.span;
            let named = pool_named(tables, mark, notes)?;
            pool_for(tables, generality, level, identifier, place, named, notes)
        }
        None => None,
    }
}

/// Adds an access type to the tables: it takes a slot, for its collection (RM 3.10, 13.11).
fn add_access(
    around: Around,
    number: usize,
    access: AccessEntry,
    draft: &mut Draft,
) -> Result<(), AllocError>
    ensures { OnOk result (draft.new ≡ spec.add_access around number access draft.old) }
{
    let ty = Ty::Access(draft.tables.states.accesses.len());
    draft.tables.states.accesses.push(access)?;
    enter_type(around, number, ty, draft)?;
    draft.take_slot(ty)
}

/// Makes an access type of what its definition says (RM 3.10).
fn access_entry(
    around: Around,
    identifier: Span,
    generality: Generality,
    coverage: Coverage,
    designated: Option<Designated>,
    pool: Option<(Var, usize)>,
    draft: &Draft,
) -> AccessEntry
    ensures { result ≡ spec.access_entry around identifier generality coverage designated pool draft.now }
{
    AccessEntry {
        level: around.level,
        span: identifier,
        generality,
        coverage,
        designated: designated.unwrap_or(Designated::Unclear),
        collection: draft.next_var(around),
        pool,
        freezing: Freezing::Free,
    }
}

/// Declares an access type, once it is judged what it designates.
fn access_with(
    around: Around,
    name: &Definition,
    generality: Generality,
    coverage: Coverage,
    pool: &Option<Mark<Use>>,
    designated: Option<Designated>,
    draft: &mut Draft,
) -> Result<(), AllocError>
    ensures { OnOk result (draft.new ≡ spec.access_with around name.now.number name.now.identifier.span generality coverage pool.now (designated, draft.old)) }
{
    let place = name.identifier.span;
    let pool = pool_given(
        &draft.tables,
        generality,
        around.level,
        place,
        pool,
        &mut draft.notes,
    );
    let access = access_entry(around, place, generality, coverage, designated, pool, draft);
    add_access(around, name.number, access, draft)
}

/// Declares an access type: its collection is elaborated where that is made (RM 3.10, 13.11).
pub fn access_type(
    alloc: Global,
    place: Span,
    name: &Definition,
    generality: Generality,
    mark: &Mark<Use>,
    coverage: Coverage,
    pool: &Option<Mark<Use>>,
    around: Around,
    draft: &mut Draft,
) -> Result<Items<Item>, AllocError>
    ensures { Yields (spec.access_type place name.now generality mark.now coverage pool.now around) draft.old result draft.new }
{
    untagged_kept(place, name.number, draft);
    let designated = designated_named(
        alloc,
        &draft.tables,
        place,
        mark,
        coverage,
        &mut draft.notes,
    )?;
    access_with(around, name, generality, coverage, pool, designated, draft)?;
    Ok(Items::new(alloc))
}
