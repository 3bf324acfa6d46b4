//! What there is before the text: the types and exceptions of the library (RM 7.6, 11.1, 13.11).

ghost use Rattle.std.specs.Prelude.{◌≡◌, IfOk};
ghost use Rattle.ctl_types.specs.Elaboration as spec;

use ctl_draft::draft::{Draft, Returning};
use ctl_draft::names::Names;
use ctl_draft::operations::no_operations;
use ctl_program::types::{Component, Root};
use ctl_syntax::item::Limitation;
use ctl_tree::text::Text;
use ctl_typing::notes::Notes;
use ctl_typing::table::{
    Concreteness, Control, Defaults, Freezing, RecordEntry, RecordState, States, Tables,
};
use sqlite_items::Items;
use std::alloc::{AllocError, Global};

/// Makes a record type of the library.
fn library_record(
    alloc: Global,
    root: Root,
    limitation: Limitation,
    concreteness: Concreteness,
) -> RecordEntry
    ensures { result ≡ spec.library_record root limitation concreteness }
{
    RecordEntry {
        level: 0,
        root,
        limitation,
        concreteness,
        control: Control::Controlled,
        parent: None,
        own: Items::new(alloc),
        count: 0,
        deeds: Items::new(alloc),
    }
}

/// Makes Controlled and Limited_Controlled, which are abstract, and the pools of the library (RM 7.6, 13.11).
fn library_records(alloc: Global) -> Result<Items<RecordEntry>, AllocError>
    ensures { IfOk result (λ records. records ≡ spec.library_records) }
{
    let controlled = library_record(
        alloc,
        Root::Controlled,
        Limitation::Nonlimited,
        Concreteness::Abstract,
    );
    let limited = library_record(
        alloc,
        Root::Controlled,
        Limitation::Limited,
        Concreteness::Abstract,
    );
    let blocks = library_record(
        alloc,
        Root::BlockPool,
        Limitation::Limited,
        Concreteness::Concrete,
    );
    let marks = library_record(
        alloc,
        Root::MarkPool,
        Limitation::Limited,
        Concreteness::Concrete,
    );
    let mut records = Items::new(alloc);
    records.push(controlled)?;
    records.push(limited)?;
    records.push(blocks)?;
    records.push(marks)?;
    Ok(records)
}

/// Answers what the text changes of a type of the library: nothing, since it is frozen.
fn library_state() -> RecordState
    ensures { result ≡ spec.library_state }
{
    RecordState {
        operations: no_operations(),
        freezing: Freezing::Frozen,
        defaults: Defaults::Used,
        called: None,
    }
}

/// Makes the states of the library's record types.
fn library_states(alloc: Global) -> Result<Items<RecordState>, AllocError>
    ensures { IfOk result (λ states. states ≡ spec.library_states) }
{
    let mut states = Items::new(alloc);
    states.push(library_state())?;
    states.push(library_state())?;
    states.push(library_state())?;
    states.push(library_state())?;
    Ok(states)
}

/// Makes the components of the library's record types: they have none that the text sees.
fn library_components(alloc: Global) -> Result<Items<Option<Items<Component>>>, AllocError>
    ensures { IfOk result (λ components. components ≡ spec.library_components) }
{
    let mut components = Items::new(alloc);
    components.push(Some(Items::new(alloc)))?;
    components.push(Some(Items::new(alloc)))?;
    components.push(Some(Items::new(alloc)))?;
    components.push(Some(Items::new(alloc)))?;
    Ok(components)
}

/// Makes the names of the exceptions of Standard (RM 11.1).
fn library_exceptions(alloc: Global) -> Result<Items<Text>, AllocError>
    ensures { IfOk result (λ exceptions. exceptions ≡ spec.library_exceptions) }
{
    let mut exceptions = Items::new(alloc);
    exceptions.push(Text::from_slice(alloc, b"Constraint_Error")?)?;
    exceptions.push(Text::from_slice(alloc, b"Program_Error")?)?;
    exceptions.push(Text::from_slice(alloc, b"Storage_Error")?)?;
    Ok(exceptions)
}

/// Makes the tables where nothing of the text is declared yet.
fn library_tables(alloc: Global) -> Result<Tables, AllocError>
    ensures { IfOk result (λ tables. tables ≡ spec.library_tables) }
{
    Ok(Tables {
        entries: Items::new(alloc),
        records: library_records(alloc)?,
        states: States {
            records: library_states(alloc)?,
            accesses: Items::new(alloc),
        },
    })
}

/// Makes what there is before the text.
pub fn library(alloc: Global) -> Result<Draft, AllocError>
    ensures { IfOk result (λ draft. draft ≡ spec.library) }
{
    Ok(Draft {
        tables: library_tables(alloc)?,
        components: library_components(alloc)?,
        subprograms: Items::new(alloc),
        exceptions: library_exceptions(alloc)?,
        slots: Items::new(alloc),
        returning: Returning::Nowhere,
        waiting: Items::new(alloc),
        own: Items::new(alloc),
        own_names: Names::new(alloc),
        notes: Notes {
            early: None,
            fault: None,
            deeds: None,
        },
    })
}
