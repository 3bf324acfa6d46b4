//! Objects that stand too early: before a body of their part, with a subprogram of the part that they call (RM 3.11).

ghost use Rattle.std.specs.Prelude.{◌≡◌, slice_get};
ghost use Rattle.ctl_draft.specs.Freezing as spec;

use crate::draft::{Around, Draft, Waiting};
use ctl_program::types::{Operations, Ty};
use ctl_tree::fault::FaultCode;
use ctl_typing::judging::note_early;
use ctl_typing::notes::{Deed, Notes};
use ctl_typing::table::{ComponentEntry, RecordEntry, RecordState, States};
use sqlite_items::Items;

/// Answers the later of two subprograms that may be called.
fn later(a: Option<usize>, b: Option<usize>) -> Option<usize>
    ensures { result ≡ spec.later a b }
{
    match (a, b) {
        (None, b) => b,
        (Some(a), None) => Some(a),
        (Some(a), Some(b)) => Some(a.max(b)),
    }
}

/// Answers the last subprogram that the creation or finalization of an object of a type calls.
fn called_by_type(records: &[RecordState], ty: Ty) -> Option<usize>
    ensures { result ≡ spec.called_by_type records.now ty }
{
    match ty {
        Ty::Record(number) => sqlite_items::at(records, number)?.called,
        _ => None,
    }
}

/// Answers the user's Allocate that an access type allocates with (RM 13.11).
fn called_by_access(states: &States, number: usize) -> Option<usize>
    ensures { result ≡ spec.called_by_access states.now.records (slice_get states.now.accesses number) }
{
    let (_, pool) = sqlite_items::at(states.accesses.as_slice(), number)?.pool?;
    sqlite_items::at(states.records.as_slice(), pool)?
        .operations
        .allocate
}

/// Answers the last subprogram that a deed calls.
fn called_by(states: &States, deed: Deed) -> Option<usize>
    ensures { result ≡ spec.called_by states.now deed }
{
    match deed {
        Deed::Calls(subprogram) => Some(subprogram),
        Deed::Creates(ty) => called_by_type(states.records.as_slice(), ty),
        Deed::Allocates(access) => called_by_access(states, access),
        _ => None,
    }
}

/// Answers the last subprogram so far, and that these deeds call.
fn called_by_deeds(states: &States, last: Option<usize>, deeds: &[Deed]) -> Option<usize>
    ensures { result ≡ spec.called_by_deeds states.now last deeds.now }
{
    let mut so_far = last;
    for deed in deeds {
        so_far = later(so_far, called_by(states, *deed));
    }
    so_far
}

/// Answers the last subprogram so far, and that components call.
fn called_by_components(
    records: &[RecordState],
    last: Option<usize>,
    own: &[ComponentEntry],
) -> Option<usize>
    ensures { result ≡ spec.called_by_components records.now last own.now }
{
    let mut so_far = last;
    for component in own {
        so_far = later(so_far, called_by_type(records, component.ty));
    }
    so_far
}

/// Answers the last operation that is called of each object (RM 7.6).
fn called_by_operations(operations: Operations) -> Option<usize>
    ensures { result ≡ spec.called_by_operations operations }
{
    later(
        operations.initialize,
        later(operations.adjust, operations.finalize),
    )
}

/// Answers the last subprogram that an object of a record type calls, once that is known of its parent and its components.
fn called_of(states: &States, entry: &RecordEntry, state: RecordState) -> Option<usize>
    ensures { result ≡ spec.called_of states.now entry.now state }
{
    let records = states.records.as_slice();
    let inherited = match entry.parent {
        Some(parent) => called_by_type(records, Ty::Record(parent)),
        None => None,
    };
    let own = later(inherited, called_by_operations(state.operations));
    let parts = called_by_components(records, own, entry.own.as_slice());
    called_by_deeds(states, parts, entry.deeds.as_slice())
}

/// Notes what an object of one record type calls.
fn counted(records: &[RecordEntry], number: usize, states: &mut States)
    ensures { states.new ≡ spec.counted records.now number states.old }
{
    let state = states.records.get(number).copied();
    if let (Some(entry), Some(state)) = (sqlite_items::at(records, number), state) {
        let mut state = state;
        state.called = called_of(states, entry, state);
        states.records.set(number, state);
    }
}

/// Notes what objects of the record types of a part call.
fn all_counted(around: Around, records: &[RecordEntry], states: &mut States)
    ensures { states.new ≡ spec.all_counted around records.now states.old }
{
    for number in around.first_record..records.len() {
        counted(records, number, states);
    }
}

/// Tells whether an object stands too early: it calls a subprogram of the part.
fn is_early(around: Around, states: &States, waiting: &Waiting) -> bool
    ensures { result ≡ spec.is_early around states.now waiting.now }
{
    let by_type = called_by_type(states.records.as_slice(), waiting.ty);
    match called_by_deeds(states, by_type, waiting.deeds.as_slice()) {
        Some(subprogram) => around.first_subprogram <= subprogram,
        None => false,
    }
}

/// Notes which of these objects stand too early.
fn note_early_each(around: Around, states: &States, waiting: &[Waiting], notes: &mut Notes)
    ensures { notes.new ≡ spec.early_notes around states.now waiting.now notes.old }
{
    for object in waiting {
        if is_early(around, states, object) {
            note_early(notes, FaultCode::Elab, object.span);
        }
    }
}

/// Judges at the end of a part which of its objects stand too early, where so many wait around it (RM 3.11).
pub fn end_of_part(around: Around, waiting: usize, draft: &mut Draft)
    ensures { draft.new ≡ spec.end_of_part around waiting draft.old }
{
    let records = draft.tables.records.as_slice();
    all_counted(around, records, &mut draft.tables.states);
    if let Some(own) = draft.waiting.as_slice().get(waiting..) {
        note_early_each(around, &draft.tables.states, own, &mut draft.notes);
    }
}
