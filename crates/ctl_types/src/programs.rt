//! The checked program, of what was checked.

ghost use Rattle.std.specs.Prelude.{◌≡◌, IfOk, option_map, reverse, slice_get};
ghost use Rattle.std.specs.Option.{option_zip};
ghost use Rattle.ctl_types.specs.Elaboration as spec;
ghost use Rattle.ctl_types.specs.Parts as part;

use ctl_draft::draft::{Draft, Routine};
use ctl_program::program::{Checked, Subprogram};
use ctl_program::types::{AccessType, Component, RecordType, Var};
use ctl_tree::text::Text;
use ctl_typing::operators::appended;
use ctl_typing::table::{AccessEntry, Designated, RecordEntry, RecordState, Tables};
use sqlite_items::Items;
use std::alloc::{AllocError, Global};

/// Turns items round: the last one is the first.
fn turned<T: Drop>(alloc: Global, items: Items<T>) -> Result<Items<T>, AllocError>
    ensures { IfOk result (λ all. all ≡ reverse items) }
{
    let mut left = items;
    let mut all = Items::new(alloc);
    while let Some(item) = left.pop() {
        all.push(item)?;
    }
    Ok(all)
}

/// Makes a record type of its entry, its state and its own components (RM 3.8).
fn record_type_of(entry: &RecordEntry, state: &RecordState, own: Items<Component>) -> RecordType
    ensures { result ≡ spec.record_type_of entry.now state.now own }
{
    RecordType {
        level: entry.level,
        root: entry.root,
        parent: entry.parent,
        own,
        operations: state.operations,
    }
}

/// Makes the record type of a number, of its own components.
fn record_type_at(
    entries: &[RecordEntry],
    states: &[RecordState],
    number: usize,
    own: Items<Component>,
) -> Option<RecordType>
    ensures { result ≡ part.record_type_at (slice_get entries.now number) (slice_get states.now number) own }
{
    let entry = sqlite_items::at(entries, number)?;
    let state = sqlite_items::at(states, number)?;
    Some(record_type_of(entry, state, own))
}

/// Makes the record types of their components, the last of which stand first.
fn record_types_of(
    alloc: Global,
    entries: &[RecordEntry],
    states: &[RecordState],
    components: Items<Items<Component>>,
) -> Result<Items<RecordType>, AllocError>
    ensures { IfOk result (λ types. types ≡ spec.record_types entries.now states.now (reverse components)) }
{
    let mut left = components;
    let mut types = Items::new(alloc);
    while let Some(own) = left.pop() {
        let Some(ty) = record_type_at(entries, states, types.len(), own) else {
            return Ok(types);
        };
        types.push(ty)?;
    }
    Ok(types)
}

/// Makes the record types of the program, in their order (RM 3.8).
fn record_types(
    alloc: Global,
    entries: &[RecordEntry],
    states: &[RecordState],
    components: Items<Items<Component>>,
) -> Result<Items<RecordType>, AllocError>
    ensures { IfOk result (λ types. types ≡ spec.record_types entries.now states.now components) }
{
    record_types_of(alloc, entries, states, turned(alloc, components)?)
}

/// Answers the object of a pool, if there is one.
fn pool_var(pool: Option<(Var, usize)>) -> Option<Var>
    ensures { result ≡ spec.pool_var pool }
{
    match pool {
        Some((var, _)) => Some(var),
        None => None,
    }
}

/// Makes an access type, where it is known what it designates (RM 3.10).
fn access_type_of(access: AccessEntry) -> Option<AccessType>
    ensures { result ≡ spec.access_type_to access access.designated }
{
    match access.designated {
        Designated::Known(designated) => Some(AccessType {
            collection: access.collection,
            designated,
            pool: pool_var(access.pool),
        }),
        _ => None,
    }
}

/// Makes the access types of the program, where each of them is known.
fn access_types(
    alloc: Global,
    accesses: &[AccessEntry],
) -> Result<Option<Items<AccessType>>, AllocError>
    ensures { IfOk result (λ types. types ≡ spec.access_types accesses.now) }
{
    let mut done = Some(Items::new(alloc));
    for access in accesses {
        done = appended(done, access_type_of(*access))?;
    }
    Ok(done)
}

/// Makes a subprogram of the program, where it has its body.
fn bodied(routine: Routine) -> Option<Subprogram>
    ensures { result ≡ spec.subprogram_with routine routine.body }
{
    let Routine { level, kind, body } = routine;
    match body {
        Some(body) => Some(Subprogram { level, kind, body }),
        None => None,
    }
}

/// Makes the subprograms of the program, the last of which stand first, where each has its body.
fn subprograms_of(
    alloc: Global,
    routines: Items<Routine>,
) -> Result<Option<Items<Subprogram>>, AllocError>
    ensures { IfOk result (λ all. all ≡ spec.subprograms (reverse routines)) }
{
    let mut left = routines;
    let mut done = Some(Items::new(alloc));
    while let Some(routine) = left.pop() {
        done = appended(done, bodied(routine))?;
    }
    Ok(done)
}

/// Makes the subprograms of the program, in their order, where each has its body.
fn subprograms(
    alloc: Global,
    routines: Items<Routine>,
) -> Result<Option<Items<Subprogram>>, AllocError>
    ensures { IfOk result (λ all. all ≡ spec.subprograms routines) }
{
    subprograms_of(alloc, turned(alloc, routines)?)
}

/// Makes the components of the record types, the last of which stand first, where those of each are known.
fn components_of(
    alloc: Global,
    components: Items<Option<Items<Component>>>,
) -> Result<Option<Items<Items<Component>>>, AllocError>
    ensures { IfOk result (λ all. all ≡ spec.components_known (reverse components)) }
{
    let mut left = components;
    let mut done = Some(Items::new(alloc));
    while let Some(own) = left.pop() {
        done = appended(done, own)?;
    }
    Ok(done)
}

/// Makes the components of the record types, in their order, where those of each are known.
fn components_known(
    alloc: Global,
    components: Items<Option<Items<Component>>>,
) -> Result<Option<Items<Items<Component>>>, AllocError>
    ensures { IfOk result (λ all. all ≡ spec.components_known components) }
{
    components_of(alloc, turned(alloc, components)?)
}

/// Makes the record types of the program, where the components of each are known.
fn records_known(
    alloc: Global,
    tables: &Tables,
    components: Items<Option<Items<Component>>>,
) -> Result<Option<Items<RecordType>>, AllocError>
    ensures { IfOk result (λ types. types ≡ option_map (spec.record_types tables.now.records tables.now.states.records) (spec.components_known components)) }
{
    let Some(components) = components_known(alloc, components)? else {
        return Ok(None);
    };
    let entries = tables.records.as_slice();
    let states = tables.states.records.as_slice();
    Ok(Some(record_types(alloc, entries, states, components)?))
}

/// Makes the record types and the subprograms of the program, where all of them are known.
fn members(
    alloc: Global,
    tables: &Tables,
    components: Items<Option<Items<Component>>>,
    routines: Items<Routine>,
) -> Result<Option<(Items<RecordType>, Items<Subprogram>)>, AllocError>
    ensures { IfOk result (λ all. all ≡ option_zip (option_map (spec.record_types tables.now.records tables.now.states.records) (spec.components_known components)) (spec.subprograms routines)) }
{
    let records = records_known(alloc, tables, components)?;
    let subprograms = subprograms(alloc, routines)?;
    Ok(records.zip(subprograms))
}

/// Makes the types and the subprograms of the program, where all of them are known; the tables go in one place.
fn all_known(
    alloc: Global,
    tables: Tables,
    components: Items<Option<Items<Component>>>,
    routines: Items<Routine>,
) -> Result<Option<((Items<RecordType>, Items<Subprogram>), Items<AccessType>)>, AllocError>
    ensures { IfOk result (λ all. all ≡ option_zip (option_zip (option_map (spec.record_types tables.records tables.states.records) (spec.components_known components)) (spec.subprograms routines)) (spec.access_types tables.states.accesses)) }
{
    let members = members(alloc, &tables, components, routines);
    let accesses = access_types(alloc, tables.states.accesses.as_slice());
    drop(tables);
    let members = members?;
    Ok(members.zip(accesses?))
}

/// Keeps of a draft what a program is made of, and lets go of the rest.
fn kept(
    draft: Draft,
) -> (
    (Tables, Items<Text>),
    (Items<Option<Items<Component>>>, Items<Routine>),
)
    ensures { result ≡ ((draft.tables, draft.exceptions), (draft.components, draft.subprograms)) }
{
    let tables = (draft.tables, draft.exceptions);
    (tables, (draft.components, draft.subprograms))
}

/// Makes the program of what was checked, where all is known.
pub fn checked_of(alloc: Global, draft: Draft) -> Result<Option<Checked>, AllocError>
    ensures { IfOk result (λ program. program ≡ spec.checked_of draft) }
{
    let (tables, made) = kept(draft);
    let (tables, exceptions) = tables;
    let (components, routines) = made;
    let Some(all) = all_known(alloc, tables, components, routines)? else {
        return Ok(None);
    };
    let (members, accesses) = all;
    let (records, subprograms) = members;
    Ok(Some(Checked {
        exceptions,
        records,
        accesses,
        subprograms,
        main: 0,
    }))
}
