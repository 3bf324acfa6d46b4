//! Record types and extensions (RM 3.8, 3.9.1).

ghost use Rattle.std.specs.Prelude.{◌≡◌, OnOk, slice_get, Some};
ghost use Rattle.ctl_declarations.specs.Types as spec;
ghost use Rattle.ctl_draft.specs.Draft as draft_spec;
ghost use Rattle.ctl_draft.specs.Operations as operation_spec;
ghost use Rattle.ctl_typing.specs.Judgement.{Answers, Judges, Yields};

use crate::components::{components, inherited_count, last_position};
use crate::incomplete::silent;
use ctl_access_types::accesses::{enter_type, no_pool_awaited, untagged_kept};
use ctl_draft::draft::{Around, Draft, Enclosing};
use ctl_draft::freezing::done_by;
use ctl_draft::named_types::named_type;
use ctl_draft::names::Names;
use ctl_draft::operations::no_operations;
use ctl_draft::types::has_controlled;
use ctl_program::statement::Item;
use ctl_program::types::{Component, Operations, Root, Ty};
use ctl_syntax::denoted::Use;
use ctl_syntax::item::{Components, Limitation};
use ctl_syntax::name::Mark;
use ctl_tree::fault::FaultCode;
use ctl_tree::span::Span;
use ctl_typing::judging::wrong;
use ctl_typing::lookup::{is_limited, root_of};
use ctl_typing::notes::{Deed, Notes};
use ctl_typing::table::{
    ComponentEntry, Concreteness, Control, Defaults, Entry, Freezing, RecordEntry, RecordState,
    Tables,
};
use sqlite_items::Items;
use std::alloc::{AllocError, Global};
use std::mem;

/// Tells whether one of these components is limited.
fn any_limited(tables: &Tables, own: &[ComponentEntry]) -> bool
    ensures { result ≡ spec.any_limited tables.now own.now }
{
    for component in own {
        if is_limited(tables, component.ty) {
            return true;
        }
    }
    false
}

/// Answers whether a record type is limited: it says so, or a component is (RM 7.5).
fn limitation_of(tables: &Tables, said: Limitation, own: &[ComponentEntry]) -> Limitation
    ensures { result ≡ spec.limitation_of tables.now said own.now }
{
    if said == Limitation::Limited || any_limited(tables, own) {
        Limitation::Limited
    } else {
        Limitation::Nonlimited
    }
}

/// Tells whether one of these components has a controlled part.
fn any_controlled(tables: &Tables, own: &[ComponentEntry]) -> bool
    ensures { result ≡ spec.any_controlled tables.now own.now }
{
    for component in own {
        if has_controlled(tables, component.ty) {
            return true;
        }
    }
    false
}

/// Answers whether a record type has a controlled part: it is tagged, or a component has one (RM 7.6).
fn control_of(tables: &Tables, root: Root, own: &[ComponentEntry]) -> Control
    ensures { result ≡ spec.control_of tables.now root own.now }
{
    if root != Root::Untagged || any_controlled(tables, own) {
        Control::Controlled
    } else {
        Control::Uncontrolled
    }
}

/// Takes the components of the type that is being declared; their names are kept no longer.
fn take_own(alloc: Global, draft: &mut Draft) -> Items<ComponentEntry>
    ensures own { result ≡ draft.old.own }
    ensures draft { draft.new ≡ spec.without_own draft.old }
{
    draft.own_names = Names::new(alloc);
    mem::replace(&mut draft.own, Items::new(alloc))
}

/// Makes a record type of its components, and takes these and what their defaults do.
fn take_record(
    alloc: Global,
    around: Around,
    root: Root,
    said: Limitation,
    parent: Option<usize>,
    draft: &mut Draft,
) -> RecordEntry
    ensures entry { result ≡ spec.record_entry around root said parent draft.old }
    ensures draft { draft.new ≡ draft_spec.asked (spec.without_own draft.old) }
{
    let own = take_own(alloc, draft);
    let deeds = draft.take_deeds(alloc);
    let tables = &draft.tables;
    RecordEntry {
        level: around.level,
        root,
        limitation: limitation_of(tables, said, own.as_slice()),
        concreteness: Concreteness::Concrete,
        control: control_of(tables, root, own.as_slice()),
        parent,
        count: last_position(inherited_count(tables, parent), own.as_slice()),
        own,
        deeds,
    }
}

/// Answers what a new record type has from its parent, if it has one: the operations that the user wrote for it (RM 3.4).
fn inherited_state(tables: &Tables, parent: Option<usize>) -> RecordState
    ensures { result ≡ spec.inherited_state (spec.state_on tables.now parent) }
{
    RecordState {
        operations: inherited_operations(tables, parent),
        freezing: Freezing::Free,
        defaults: Defaults::Unused,
        called: None,
    }
}

/// Answers the operations that a new record type inherits (RM 3.4).
fn inherited_operations(tables: &Tables, parent: Option<usize>) -> Operations
    ensures { result ≡ operation_spec.operations_of (spec.state_on tables.now parent) }
{
    if let Some(number) = parent {
        if let Some(state) = sqlite_items::at(tables.states.records.as_slice(), number) {
            return state.operations;
        }
    }
    no_operations()
}

/// Adds a record type to the tables.
fn add_record(
    entry: RecordEntry,
    state: RecordState,
    components: Option<Items<Component>>,
    draft: &mut Draft,
) -> Result<(), AllocError>
    ensures { OnOk result (draft.new ≡ spec.add_record entry state components draft.old) }
{
    draft.tables.records.push(entry)?;
    draft.tables.states.records.push(state)?;
    draft.components.push(components)
}

/// Enters a record type, whose components are judged.
fn enter_record(
    alloc: Global,
    around: Around,
    within: Enclosing,
    root: Root,
    said: Limitation,
    components: Option<Items<Component>>,
    draft: &mut Draft,
) -> Result<(), AllocError>
    ensures { OnOk result (draft.new ≡ spec.enter_record around within root said (components, draft.old)) }
{
    let ty = Ty::Record(draft.tables.records.len());
    let state = inherited_state(&draft.tables, within.parent);
    let entry = take_record(alloc, around, root, said, within.parent, draft);
    add_record(entry, state, components, draft)?;
    enter_type(around, within.number, ty, draft)
}

/// Declares a record type with the components that it does not inherit.
fn declare_record(
    alloc: Global,
    around: Around,
    within: Enclosing,
    root: Root,
    said: Limitation,
    declared: &[Components<Use>],
    draft: &mut Draft,
) -> Result<(), AllocError>
    ensures { OnOk result (draft.new ≡ spec.declare_record around within root said declared.now draft.old) }
{
    draft.ask(alloc);
    let judged = components(alloc, within, declared, draft)?;
    no_pool_awaited(around, within.number, root, draft);
    enter_record(alloc, around, within, root, said, judged, draft)
}

/// Declares a record type that extends none (RM 3.8).
pub fn record_type(
    alloc: Global,
    place: Span,
    number: usize,
    said: Limitation,
    declared: &[Components<Use>],
    around: Around,
    draft: &mut Draft,
) -> Result<Items<Item>, AllocError>
    ensures { Yields (spec.record_type place number said declared.now around) draft.old result draft.new }
{
    untagged_kept(place, number, draft);
    let within = underived(place, number);
    declare_record(alloc, around, within, Root::Untagged, said, declared, draft)?;
    silent(alloc)
}

/// Answers what stands around the components of a type that extends none.
fn underived(place: Span, number: usize) -> Enclosing
    ensures { result ≡ spec.underived place number }
{
    Enclosing {
        place,
        number,
        parent: None,
        limitation: None,
    }
}

/// Answers the type that an extension extends: a controlled one, or a block pool; no other pool type (RM 3.9.1, profile).
fn parent_with(tables: &Tables, place: Span, mark: Span, ty: Ty, notes: &mut Notes) -> Option<usize>
    ensures { Answers (spec.parent_of_type tables.now place mark ty) notes.old result notes.new }
{
    let Ty::Record(number) = ty else {
        return wrong(FaultCode::Type, place, notes);
    };
    match root_of(tables, number) {
        Root::Controlled | Root::BlockPool => Some(number),
        Root::MarkPool => wrong(FaultCode::Pool, mark, notes),
        Root::Untagged => wrong(FaultCode::Type, place, notes),
    }
}

/// Answers the type that a mark names as the parent of an extension (RM 3.9.1).
fn parent_named(
    alloc: Global,
    tables: &Tables,
    place: Span,
    mark: &Mark<Use>,
    notes: &mut Notes,
) -> Result<Option<usize>, AllocError>
    ensures { Judges (spec.parent_named place mark.now tables.now) notes.old result notes.new }
{
    match named_type(alloc, tables, place, mark, notes)? {
        Some(ty) => Ok(parent_with(tables, place, mark.first.span, ty, notes)),
        None => Ok(None),
    }
}

/// Answers whether a record type is limited.
fn limitation_in(tables: &Tables, number: usize) -> Limitation
    ensures { result ≡ spec.limitation_in (slice_get tables.now.records number) }
{
    match sqlite_items::at(tables.records.as_slice(), number) {
        Some(entry) => entry.limitation,
        None => Limitation::Nonlimited,
    }
}

/// Answers what stands around the components of a type that extends another.
fn derived(place: Span, number: usize, parent: usize, draft: &Draft) -> Enclosing
    ensures { result ≡ spec.derived place number parent draft.now }
{
    Enclosing {
        place,
        number,
        parent: Some(parent),
        limitation: Some(limitation_in(&draft.tables, parent)),
    }
}

/// Declares an extension of a type: this freezes its parent (RM 3.9.1, 13.14(7)).
fn extend(
    alloc: Global,
    around: Around,
    place: Span,
    number: usize,
    parent: usize,
    declared: &[Components<Use>],
    draft: &mut Draft,
) -> Result<Items<Item>, AllocError>
    ensures { Yields (λ d. spec.extension_of place number declared.now around (Some parent, d)) draft.old result draft.new }
{
    let mut layers = done_by(alloc, around, &[Deed::Freezes(Ty::Record(parent))], draft)?;
    let within = derived(place, number, parent, draft);
    let root = root_of(&draft.tables, parent);
    let said = limitation_in(&draft.tables, parent);
    declare_record(alloc, around, within, root, said, declared, draft)?;
    layers.push(Item::Silent)?;
    Ok(layers)
}

/// Declares a type whose parent is wrong: nothing is known of it, and its components are judged all the same.
fn extend_nothing(
    alloc: Global,
    around: Around,
    place: Span,
    number: usize,
    declared: &[Components<Use>],
    draft: &mut Draft,
) -> Result<(), AllocError>
    ensures { OnOk result (draft.new ≡ spec.enter_unknown around number (spec.components (spec.underived place number) declared.now draft.old)) }
{
    components(alloc, underived(place, number), declared, draft)?;
    take_own(alloc, draft);
    draft.enter(around, number, Entry::Unknown)
}

/// Declares a type that extends another (RM 3.9.1).
pub fn extension(
    alloc: Global,
    place: Span,
    number: usize,
    mark: &Mark<Use>,
    declared: &[Components<Use>],
    around: Around,
    draft: &mut Draft,
) -> Result<Items<Item>, AllocError>
    ensures { Yields (spec.extension place number mark.now declared.now around) draft.old result draft.new }
{
    let parent = parent_named(alloc, &draft.tables, place, mark, &mut draft.notes)?;
    if let Some(parent) = parent {
        return extend(alloc, around, place, number, parent, declared, draft);
    }
    extend_nothing(alloc, around, place, number, declared, draft)?;
    silent(alloc)
}
