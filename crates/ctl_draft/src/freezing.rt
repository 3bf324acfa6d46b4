//! Freezing: what a construct does to the types of its part, and the collections that stand before it (RM 13.14).

ghost use Rattle.std.specs.Option.{option_copied};
ghost use Rattle.std.specs.Prelude.{◌≡◌, ◌++◌, IfOk, OnOk, drop, length, slice_get};
ghost use Rattle.ctl_draft.specs.Freezing as spec;
ghost use Rattle.ctl_typing.specs.Judgement.{Yields};

use crate::draft::{Around, Draft};
use ctl_program::statement::Item;
use ctl_program::types::Ty;
use ctl_typing::notes::Deed;
use ctl_typing::table::{
    AccessEntry, Beginning, ComponentEntry, Defaults, Freezing, RecordEntry, RecordState, States,
};
use sqlite_items::Items;
use std::alloc::{AllocError, Global};

/// Freezes a record type.
fn freeze_record(records: &mut Items<RecordState>, number: usize)
    ensures { records.new ≡ spec.changed spec.frozen_record number records.old }
{
    if let Some(&state) = records.get(number) {
        let mut state = state;
        state.freezing = Freezing::Frozen;
        records.set(number, state);
    }
}

/// Freezes an access type.
fn freeze_access(accesses: &mut Items<AccessEntry>, number: usize)
    ensures { accesses.new ≡ spec.changed spec.frozen_access number accesses.old }
{
    if let Some(&access) = accesses.get(number) {
        let mut access = access;
        if access.freezing == Freezing::Free {
            access.freezing = Freezing::Frozen;
        }
        accesses.set(number, access);
    }
}

/// Freezes a type.
fn freeze(ty: Ty, states: &mut States)
    ensures { states.new ≡ spec.freeze ty states.old }
{
    match ty {
        Ty::Record(number) => freeze_record(&mut states.records, number),
        Ty::Access(number) => freeze_access(&mut states.accesses, number),
        _ => {}
    }
}

/// Notes that an object of a type begins with its defaults.
fn initialize(ty: Ty, states: &mut States)
    ensures { states.new ≡ spec.initialize ty states.old }
{
    if let Ty::Record(number) = ty {
        if let Some(&state) = states.records.get(number) {
            let mut state = state;
            state.defaults = Defaults::Used;
            states.records.set(number, state);
        }
    }
}

/// Does to the types what an expression does.
fn do_deed(deed: Deed, states: &mut States)
    ensures { states.new ≡ spec.do_deed deed states.old }
{
    match deed {
        Deed::Freezes(ty) => freeze(ty, states),
        Deed::Initializes(ty) => initialize(ty, states),
        _ => {}
    }
}

/// Tells whether a type is not frozen.
pub fn is_free_type(states: &States, ty: Ty) -> bool
    ensures { result ≡ spec.is_free_type states.now ty }
{
    match ty {
        Ty::Record(number) => match sqlite_items::at(states.records.as_slice(), number) {
            Some(state) => state.freezing == Freezing::Free,
            None => false,
        },
        Ty::Access(number) => match sqlite_items::at(states.accesses.as_slice(), number) {
            Some(access) => access.freezing == Freezing::Free,
            None => false,
        },
        _ => false,
    }
}

/// Tells whether a deed is done for the first time.
fn is_new(states: &States, deed: Deed) -> bool
    ensures { result ≡ spec.is_new states.now deed }
{
    match deed {
        Deed::Freezes(ty) => is_free_type(states, ty),
        Deed::Initializes(Ty::Record(number)) => {
            match sqlite_items::at(states.records.as_slice(), number) {
                Some(state) => state.defaults == Defaults::Unused,
                None => false,
            }
        }
        _ => false,
    }
}

/// Tells whether one of these deeds is done for the first time.
fn are_new(states: &States, deeds: &[Deed]) -> bool
    ensures { result ≡ spec.are_new states.now deeds.now }
{
    for deed in deeds {
        if is_new(states, *deed) {
            return true;
        }
    }
    false
}

/// Adds the freezing of the parent and of the components of a record type (RM 13.14(15)).
fn add_frozen(entry: &RecordEntry, todo: &mut Items<Deed>) -> Result<(), AllocError>
    ensures { OnOk result (todo.new ≡ todo.old ++ spec.frozen_with entry.now) }
{
    if let Some(parent) = entry.parent {
        todo.push(Deed::Freezes(Ty::Record(parent)))?;
    }
    add_components_frozen(entry.own.as_slice(), todo)
}

/// Adds the freezing of components.
fn add_components_frozen(own: &[ComponentEntry], todo: &mut Items<Deed>) -> Result<(), AllocError>
    ensures { OnOk result (todo.new ≡ todo.old ++ spec.components_frozen own.now) }
{
    for component in own {
        todo.push(Deed::Freezes(component.ty))?;
    }
    Ok(())
}

/// Adds what the defaults of a record type do.
fn add_initialized(entry: &RecordEntry, todo: &mut Items<Deed>) -> Result<(), AllocError>
    ensures { OnOk result (todo.new ≡ todo.old ++ spec.initialized_with entry.now) }
{
    if let Some(parent) = entry.parent {
        todo.push(Deed::Initializes(Ty::Record(parent)))?;
    }
    add_components_initialized(entry.own.as_slice(), todo)?;
    add_deeds(entry.deeds.as_slice(), todo)
}

/// Adds the use of the defaults of components' types, where a component has none itself.
fn add_components_initialized(
    own: &[ComponentEntry],
    todo: &mut Items<Deed>,
) -> Result<(), AllocError>
    ensures { OnOk result (todo.new ≡ todo.old ++ spec.components_initialized own.now) }
{
    for component in own {
        if component.beginning == Beginning::Default {
            todo.push(Deed::Initializes(component.ty))?;
        }
    }
    Ok(())
}

/// Adds deeds.
fn add_deeds(deeds: &[Deed], todo: &mut Items<Deed>) -> Result<(), AllocError>
    ensures { OnOk result (todo.new ≡ todo.old ++ deeds.now) }
{
    for deed in deeds {
        todo.push(*deed)?;
    }
    Ok(())
}

/// Adds what follows from a deed.
fn add_following(
    records: &[RecordEntry],
    deed: Deed,
    todo: &mut Items<Deed>,
) -> Result<(), AllocError>
    ensures { OnOk result (todo.new ≡ todo.old ++ spec.following records.now deed) }
{
    match deed {
        Deed::Freezes(Ty::Record(number)) => match sqlite_items::at(records, number) {
            Some(entry) => add_frozen(entry, todo),
            None => Ok(()),
        },
        Deed::Initializes(Ty::Record(number)) => match sqlite_items::at(records, number) {
            Some(entry) => add_initialized(entry, todo),
            None => Ok(()),
        },
        _ => Ok(()),
    }
}

/// Does a deed, if it is new, and adds what follows from it.
fn do_next(
    records: &[RecordEntry],
    deed: Deed,
    todo: &mut Items<Deed>,
    states: &mut States,
) -> Result<(), AllocError>
    ensures added { OnOk result (todo.new ≡ todo.old ++ spec.added records.now (spec.is_new states.old deed) deed) }
    ensures done { OnOk result (states.new ≡ spec.done_if (spec.is_new states.old deed) deed states.old) }
{
    if !is_new(states, deed) {
        return Ok(());
    }
    do_deed(deed, states);
    add_following(records, deed, todo)
}

/// Does these deeds with all that follows from them, each once.
fn do_all(
    alloc: Global,
    records: &[RecordEntry],
    deeds: &[Deed],
    states: &mut States,
) -> Result<(), AllocError>
    ensures { OnOk result (states.new ≡ spec.all_done records.now deeds.now states.old) }
{
    let mut todo = Items::from_slice(alloc, deeds)?;
    for at in 0..usize::MAX {
        let Some(&deed) = todo.get(at) else {
            return Ok(());
        };
        do_next(records, deed, &mut todo, states)?;
    }
    Ok(())
}

/// Answers the access types from a number on that are frozen and whose collections have no place yet.
fn unplaced(
    alloc: Global,
    level: usize,
    accesses: &[AccessEntry],
    first: usize,
) -> Result<Items<usize>, AllocError>
    ensures { IfOk result (λ numbers. numbers ≡ spec.unplaced level first (drop first accesses.now)) }
{
    let mut numbers = Items::new(alloc);
    for number in first..accesses.len() {
        let access = accesses[number];
        if access.freezing == Freezing::Frozen && access.level == level {
            numbers.push(number)?;
        }
    }
    Ok(numbers)
}

/// Gives a place to the collection of an access type that is frozen.
fn place(accesses: &mut Items<AccessEntry>, number: usize)
    ensures { accesses.new ≡ spec.changed spec.placed_access number accesses.old }
{
    if let Some(&access) = accesses.get(number) {
        let mut access = access;
        if access.freezing == Freezing::Frozen {
            access.freezing = Freezing::Placed;
        }
        accesses.set(number, access);
    }
}

/// Gives a place to the collections of the access types from a number on that are frozen.
fn place_each(accesses: &mut Items<AccessEntry>, first: usize)
    ensures { accesses.new ≡ spec.changed_each spec.placed_access first accesses.old }
{
    for number in first..accesses.len() {
        place(accesses, number);
    }
}

/// Makes a layer of these collections, if there are any.
fn layer(alloc: Global, numbers: Items<usize>) -> Result<Items<Item>, AllocError>
    ensures { IfOk result (λ items. items ≡ spec.layer numbers) }
{
    let mut items = Items::new(alloc);
    if !numbers.is_empty() {
        items.push(Item::Collections(numbers))?;
    }
    Ok(items)
}

/// Answers the collections that stand here: of the access types of the part that are frozen and have no place yet (RM 7.6.1(11)).
fn placed(alloc: Global, around: Around, draft: &mut Draft) -> Result<Items<Item>, AllocError>
    ensures { Yields (spec.placed around) draft.old result draft.new }
{
    let first = around.first_access;
    let accesses = draft.tables.states.accesses.as_slice();
    let numbers = unplaced(alloc, around.level, accesses, first)?;
    place_each(&mut draft.tables.states.accesses, first);
    layer(alloc, numbers)
}

/// Does what a construct does with all that follows, and answers the collections that stand before it (RM 13.14).
pub fn done_by(
    alloc: Global,
    around: Around,
    deeds: &[Deed],
    draft: &mut Draft,
) -> Result<Items<Item>, AllocError>
    ensures { Yields (spec.done_by around deeds.now) draft.old result draft.new }
{
    if !are_new(&draft.tables.states, deeds) {
        return Ok(Items::new(alloc));
    }
    let records = draft.tables.records.as_slice();
    do_all(alloc, records, deeds, &mut draft.tables.states)?;
    placed(alloc, around, draft)
}

/// Freezes the record types from a number on.
fn freeze_records(records: &mut Items<RecordState>, first: usize)
    ensures { records.new ≡ spec.changed_each spec.frozen_record first records.old }
{
    for number in first..records.len() {
        freeze_record(records, number);
    }
}

/// Freezes the access types from a number on.
fn freeze_accesses(accesses: &mut Items<AccessEntry>, first: usize)
    ensures { accesses.new ≡ spec.changed_each spec.frozen_access first accesses.old }
{
    for number in first..accesses.len() {
        freeze_access(accesses, number);
    }
}

/// Freezes all types of a part, and answers the collections that stand here: a body and the end of a part do so (RM 13.14(3)).
pub fn freeze_all(
    alloc: Global,
    around: Around,
    draft: &mut Draft,
) -> Result<Items<Item>, AllocError>
    ensures { Yields (spec.freeze_all around) draft.old result draft.new }
{
    freeze_records(&mut draft.tables.states.records, around.first_record);
    freeze_accesses(&mut draft.tables.states.accesses, around.first_access);
    placed(alloc, around, draft)
}
