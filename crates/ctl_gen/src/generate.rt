//! The code of a whole program.

ghost use Rattle.std.specs.Prelude.{◌≡◌, ◌⊎◌, ◌+◌, ◌++◌, [], ◌∷◌, IfErr, IfOk, OnOk, length, map, slice_get};
ghost use Rattle.ctl_tree.specs.declared.fault.FaultCode.TheVariants.{LeftOut, Memory};
ghost use Rattle.ctl_well_typed.specs.Programs.{WellTyped};
ghost use Rattle.ctl_gen.specs.Correct.{Behaves};
ghost use Rattle.ctl_emitter.specs.Emitted.{appended};
ghost use Rattle.ctl_layout.specs.Run.{AreLinked, IsRun};
ghost use Rattle.ctl_meaning.specs.Types.{total};
ghost use Rattle.ctl_meaning.specs.Types as sizes;
ghost use Rattle.ctl_code.specs.Table.{begun_in, size_in};
ghost use Rattle.ctl_code.specs.Table as table;
ghost use Rattle.ctl_code.specs.Demands.{with_counts};
ghost use Rattle.ctl_code.specs.declared.code.Defaults.{Defaults as DefaultsOf};
ghost use Rattle.ctl_code.specs.Valid.{IsValid};
ghost use Rattle.ctl_code.specs.Windows.{Counts};
ghost use Rattle.ctl_layout.specs.Defaults as starts;
ghost use Rattle.ctl_layout.specs.Defaults.{begun_before, begun_from, finalized_by};
ghost use Rattle.ctl_layout.specs.Records as types;
ghost use Rattle.ctl_layout.specs.Layout as spec;
ghost use Rattle.ctl_layout.specs.Layout.{AreLayouts, HasKinds, IsLaidOut, IsLayout, entry_at, home_of, operations_of};

use ctl_code::code::{
    AccessHome, Begun, Code, Defaults, Entry, Initial, Instr, Layout, Operations, Parts,
};
use ctl_code::homes::Homes;
use ctl_code::least::least_homes;
use ctl_emit::emit_defaults::defaults;
use ctl_emit::emit_statements::body;
use ctl_emitter::emit::Emitter;
use ctl_layout::forms::run_default;
use ctl_layout::right::constant;
use ctl_program::program::{Checked, Subprogram};
use ctl_program::types::{AccessType, Component, RecordType, Root, Ty};
use ctl_tree::fault::{Fault, FaultCode};
use ctl_tree::text::Text;
use ctl_valid::valid::{ValidCode, validate};
use std::alloc::{AllocError, Global};

/// How many storage units a value of an elementary type takes (RM 13.3).
const SCALAR_SIZE: usize = 8;

/// How many the tag of an object takes (RM 3.9, 13.3).
const TAG_SIZE: usize = 8;

/// How many an object of a record type takes at least (RM 13.3).
const LEAST_RECORD_SIZE: usize = 8;

/// Gives the code of a checked program, validated. The fault is MEMORY, or LEFT_OUT at the beginning of the text where this version has
/// no well-formed code for the program.
///
/// The contract says how the instructions stand, and that they do what a program of this version means: after every number of steps
/// and under every order the machine has shown a beginning of what the program's meaning shows for the picks that were taken, it
/// has shown all of it where it has ended, it is never stuck, and each outcome is reached in 64 steps a tick. The code of a well-typed
/// program of this version is well formed.
pub fn generate(alloc: Global, program: &Checked) -> Result<ValidCode, Fault>
    ensures layout { IfOk result (λ code. IsLaidOut program.now code) }
    ensures behaves { IfOk result (λ code. IsRun program.now → AreLinked program.now → Behaves program.now code) }
    ensures memory { IsRun program.now → WellTyped program.now → IfErr result (λ fault. fault ≡ record { code = Memory; line = 1; column = 1 }) }
    ensures refused { IfErr result (λ fault. (fault ≡ record { code = Memory; line = 1; column = 1 }) ⊎ (fault ≡ record { code = LeftOut; line = 1; column = 1 })) }
{
    match validate(assemble(alloc, program)?) {
        Some(code) => Ok(code),
        None => Err(left_out()),
    }
}

/// Answers the fault of a program that has no valid code, at the beginning: no part of the text is to blame more than another.
fn left_out() -> Fault
    ensures { result ≡ record { code = LeftOut; line = 1; column = 1 } }
{
    Fault {
        code: FaultCode::LeftOut,
        line: 1,
        column: 1,
    }
}

/// Makes the instructions, and the tables that they name. Of the masters around declarations it says as little as it can, and enough, if
/// anything is enough.
fn assemble(alloc: Global, program: &Checked) -> Result<Code, Fault>
    ensures laid_out { IfOk result (λ code. IsLaidOut program.now code) }
    ensures kinds { IfOk result (λ code. HasKinds program.now code) }
    ensures homes { IfOk result (λ code. (most : Counts) → IsValid (with_counts most code) → IsValid code) }
    ensures memory { IfErr result (λ fault. fault ≡ record { code = Memory; line = 1; column = 1 }) }
{
    let mut code = tables_of(alloc, program)?;
    let homes = least_homes(alloc, &code)?;
    code.homes = homes;
    Ok(code)
}

/// Makes the instructions, and the tables that they name. Nothing is said of the masters around declarations.
fn tables_of(alloc: Global, program: &Checked) -> Result<Code, Fault>
    ensures laid_out { IfOk result (λ code. IsLaidOut program.now code) }
    ensures kinds { IfOk result (λ code. HasKinds program.now code) }
    ensures memory { IfErr result (λ fault. fault ≡ record { code = Memory; line = 1; column = 1 }) }
{
    let mut emitter = Emitter::new(alloc);
    emitter.put(Instr::Start(program.main))?;
    let mut entries = Vec::new(alloc);
    for subprogram in program.subprograms.as_slice() {
        let number = entries.len();
        entries.push(entry_of(&emitter, subprogram))?;
        body(&mut emitter, number, subprogram)?;
    }
    let defaults = defaults_of(alloc, &mut emitter, program.records.as_slice())?;
    let records = records_of(alloc, program.records.as_slice())?;
    let layouts = layouts_of(alloc, program.records.as_slice())?;
    let accesses = accesses_of(alloc, program.accesses.as_slice())?;
    let exceptions = names_of(alloc, program.exceptions.as_slice())?;
    let room = emitter.room();
    let (instructions, texts, kinds) = emitter.finish();
    Ok(Code {
        instructions,
        kinds,
        room,
        entries,
        records,
        layouts,
        defaults,
        accesses,
        homes: Homes::new(alloc),
        texts,
        exceptions,
    })
}

/// Gives the entry of a subprogram whose body comes next.
fn entry_of(emitter: &Emitter, subprogram: &Subprogram) -> Entry
    ensures { result ≡ entry_at (length emitter.now.instructions) subprogram.now }
{
    Entry {
        kind: subprogram.kind,
        level: subprogram.level,
        slots: subprogram.body.slots,
        place: emitter.place(),
    }
}

/// Gives the Adjust that is called for the objects of a type: where it is not tagged they are not controlled, and none is (RM 7.6).
fn adjust_by(root: Root, adjust: Option<usize>) -> Option<usize>
    ensures { result ≡ types.adjust_by root adjust }
{
    match root {
        Root::Untagged => None,
        Root::Controlled | Root::BlockPool | Root::MarkPool => adjust,
    }
}

/// Gives the operations of record types.
fn records_of(alloc: Global, records: &[RecordType]) -> Result<Vec<Operations>, AllocError>
    ensures { IfOk result (λ all. all.items ≡ operations_of records.now) }
{
    let mut all = Vec::new(alloc);
    for record in records {
        all.push(Operations {
            initialize: record.operations.initialize,
            adjust: adjust_by(record.root, record.operations.adjust),
            finalize: record.operations.finalize,
            allocate: record.operations.allocate,
            deallocate: record.operations.deallocate,
        })?;
    }
    Ok(all)
}

/// Copies the places of the defaults that a type inherits from its parent, whose row is one of these (RM 3.4).
fn inherited_places(
    alloc: Global,
    rows: &[Defaults],
    parent: Option<usize>,
) -> Result<Vec<usize>, AllocError>
    ensures { IfOk result (λ row. row.items ≡ spec.inherited_places (map (λ (x : DefaultsOf). x.places.items) rows.now) parent) }
{
    let Some(parent) = parent else {
        return Ok(Vec::new(alloc));
    };
    match rows.get(parent) {
        Some(row) => Vec::from_slice(alloc, row.places.as_slice()),
        None => Ok(Vec::new(alloc)),
    }
}

/// Emits the evaluation of the defaults of record types that are no constants, and gives their places (RM 3.8).
fn defaults_of(
    alloc: Global,
    emitter: &mut Emitter,
    records: &[RecordType],
) -> Result<Vec<Defaults>, AllocError>
    requires { emitter.old.notes.standing ≡ [] }
    ensures emitted { OnOk result (emitter.new ≡ appended (spec.all_defaults 0 records.now) [] [] emitter.old) }
    ensures rows { IfOk result (λ all. map (λ (x : DefaultsOf). x.places.items) all.items ≡ spec.rows_from 0 (length emitter.old.instructions) [] records.now) }
{
    let mut rows = Vec::new(alloc);
    for entry in records {
        let number = rows.len();
        let inherited = inherited_places(alloc, rows.as_slice(), entry.parent)?;
        let places = defaults(emitter, number, entry, inherited)?;
        rows.push(Defaults { places })?;
    }
    Ok(rows)
}

/// Answers what a component begins with whose default is this constant, or is evaluated (RM 3.8).
fn initial_in(constant: Option<u64>) -> Initial
    ensures { result ≡ starts.initial_in constant }
{
    match constant {
        Some(value) => Initial::Constant(value),
        None => Initial::Computed,
    }
}

/// Counts the cells of a value of a type: one, or those of a record type, of which there is one of these layouts.
fn cells_by(layouts: &[Layout], ty: Ty) -> usize
    ensures { result ≡ spec.cells_by layouts.now ty }
{
    let Ty::Record(number) = ty else {
        return 1;
    };
    match layouts.get(number) {
        Some(layout) => layout.cells,
        None => 0,
    }
}

/// Counts the storage units of a value of a type: those of a record type, of which there is one of these layouts (RM 13.3).
fn units_by(layouts: &[Layout], ty: Ty) -> usize
    ensures { result ≡ spec.units_by layouts.now ty }
{
    let Ty::Record(number) = ty else {
        return SCALAR_SIZE;
    };
    match layouts.get(number) {
        Some(layout) => layout.units,
        None => 0,
    }
}

/// Counts the storage units of the tag, which a type has that is tagged (RM 3.9, 13.3).
fn tag_of(root: Root) -> usize
    ensures { result ≡ spec.tag_of root }
{
    match root {
        Root::Untagged => 0,
        Root::Controlled | Root::BlockPool | Root::MarkPool => TAG_SIZE,
    }
}

/// Gives so many storage units, and no fewer than a record takes at least (RM 13.3).
#[tactic(auto, unfolding(ctl_meaning::specs::Types::as_record_size))]
fn as_record_size(units: usize) -> usize
    ensures { result ≡ sizes.as_record_size units }
{
    if units < LEAST_RECORD_SIZE {
        LEAST_RECORD_SIZE
    } else {
        units
    }
}

/// Tells whether there is a controlled part (RM 7.6).
fn has_part(parts: Parts) -> bool
    ensures { result ≡ table.has_part parts }
{
    !matches!(parts, Parts::Plain)
}

/// Tells whether something begins in the objects of the record type of this number, where it has one of these layouts.
fn is_begun(layouts: &[Layout], number: usize) -> bool
    ensures { result ≡ starts.is_begun (slice_get layouts.now number) }
{
    match layouts.get(number) {
        Some(layout) => has_part(layout.parts) || !layout.begun.as_slice().is_empty(),
        None => false,
    }
}

/// Answers how a component of a type without a default begins: by its own record type, or with nothing (RM 3.8).
fn by_type(layouts: &[Layout], ty: Ty) -> Option<Initial>
    ensures { result ≡ starts.by_type layouts.now ty }
{
    match ty {
        Ty::Record(number) if is_begun(layouts, number) => Some(Initial::ByType(number)),
        _ => None,
    }
}

/// Answers how a component begins, if it begins with something (RM 3.8).
fn initial_of(layouts: &[Layout], component: &Component) -> Option<Initial>
    ensures { result ≡ starts.initial_of layouts.now component.now }
{
    match run_default(component) {
        Some(default) => Some(initial_in(constant(default))),
        None => by_type(layouts, component.ty),
    }
}

/// Tells whether what begins so has a controlled part (RM 7.6.1).
fn is_finalized(layouts: &[Layout], initial: Initial) -> bool
    ensures { result ≡ starts.is_finalized_by layouts.now initial }
{
    let Initial::ByType(number) = initial else {
        return false;
    };
    match layouts.get(number) {
        Some(layout) => has_part(layout.parts),
        None => false,
    }
}

/// Tells those components apart that have a controlled part (RM 7.6.1).
#[tactic(auto, unfolding(ctl_meaning::specs::Lists::keep))]
fn finalized_of(
    alloc: Global,
    layouts: &[Layout],
    begun: &[Begun],
) -> Result<Vec<Begun>, AllocError>
    ensures { IfOk result (λ all. all.items ≡ finalized_by layouts.now begun.now) }
{
    let mut all = Vec::new(alloc);
    for component in begun {
        if is_finalized(layouts, component.initial) {
            all.push(*component)?;
        }
    }
    Ok(all)
}

/// Answers whether the objects of a type are finalized, of whose components these have a controlled part: where it is tagged, they are
/// controlled themselves (RM 7.6).
fn parts_by(root: Root, controlled: &[Begun]) -> Parts
    ensures { result ≡ starts.parts_by root controlled.now }
{
    match root {
        Root::Untagged if controlled.is_empty() => Parts::Plain,
        Root::Untagged => Parts::Within,
        Root::Controlled | Root::BlockPool | Root::MarkPool => Parts::Controlled,
    }
}

/// Gives a layout without components, for a type that is declared in so many masters.
fn without_components(alloc: Global, level: usize) -> Layout
    ensures level { result.level ≡ level }
    ensures cells { result.cells ≡ 0 }
    ensures content { result.content ≡ 0 }
    ensures offsets { result.offsets.items ≡ [] }
    ensures begun { result.begun.items ≡ [] }
{
    Layout {
        parts: Parts::Plain,
        level,
        cells: 0,
        content: 0,
        units: 0,
        offsets: Vec::new(alloc),
        begun: Vec::new(alloc),
        controlled: Vec::new(alloc),
    }
}

/// Gives what a type inherits from its parent, where one of these layouts is the parent's (RM 3.9.1).
fn inherited(alloc: Global, layouts: &[Layout], entry: &RecordType) -> Result<Layout, AllocError>
    ensures level { IfOk result (λ x. x.level ≡ entry.now.level) }
    ensures cells { IfOk result (λ x. x.cells ≡ size_in (spec.parent_layout layouts.now entry.now.parent)) }
    ensures content { IfOk result (λ x. x.content ≡ spec.content_in (spec.parent_layout layouts.now entry.now.parent)) }
    ensures offsets { IfOk result (λ x. x.offsets.items ≡ spec.offsets_in (spec.parent_layout layouts.now entry.now.parent)) }
    ensures begun { IfOk result (λ x. x.begun.items ≡ begun_in (spec.parent_layout layouts.now entry.now.parent)) }
{
    let Some(number) = entry.parent else {
        return Ok(without_components(alloc, entry.level));
    };
    match layouts.get(number) {
        Some(layout) => Ok(Layout {
            parts: layout.parts,
            level: entry.level,
            cells: layout.cells,
            content: layout.content,
            units: 0,
            offsets: layout.offsets.clone()?,
            begun: layout.begun.clone()?,
            controlled: Vec::new(alloc),
        }),
        None => Ok(without_components(alloc, entry.level)),
    }
}

/// Puts a component behind those of a layout, of so many cells and storage units. No memory has more of them than there are numbers for
/// them.
fn add_component(
    layout: &mut Layout,
    cells: usize,
    units: usize,
    initial: Option<Initial>,
) -> Result<(), AllocError>
    ensures level { OnOk result (layout.new.level ≡ layout.old.level) }
    ensures cells { OnOk result (layout.new.cells ≡ layout.old.cells + cells) }
    ensures content { OnOk result (layout.new.content ≡ layout.old.content + units) }
    ensures offsets { OnOk result (layout.new.offsets.items ≡ layout.old.offsets.items ++ layout.old.cells ∷ []) }
    ensures begun { OnOk result (layout.new.begun.items ≡ layout.old.begun.items ++ begun_before (length layout.old.offsets.items + 1) layout.old.cells initial []) }
{
    let offset = layout.cells;
    layout.offsets.push(offset)?;
    if let Some(initial) = initial {
        let position = layout.offsets.len();
        layout.begun.push(Begun {
            position,
            offset,
            initial,
        })?;
    }
    layout.cells = offset.checked_add(cells).ok_or(AllocError)?;
    layout.content = layout.content.checked_add(units).ok_or(AllocError)?;
    Ok(())
}

/// Puts the components that a record type adds behind those that it inherits (RM 3.8, 3.9.1).
fn components_of(
    alloc: Global,
    layouts: &[Layout],
    entry: &RecordType,
) -> Result<Layout, AllocError>
    ensures level { IfOk result (λ x. x.level ≡ entry.now.level) }
    ensures cells { IfOk result (λ x. x.cells ≡ size_in (spec.parent_layout layouts.now entry.now.parent) + total (spec.cells_by layouts.now) entry.now.own) }
    ensures content { IfOk result (λ x. x.content ≡ spec.content_in (spec.parent_layout layouts.now entry.now.parent) + total (spec.units_by layouts.now) entry.now.own) }
    ensures offsets { IfOk result (λ x. x.offsets.items ≡ spec.offsets_in (spec.parent_layout layouts.now entry.now.parent) ++ spec.offsets_from (spec.cells_by layouts.now) (size_in (spec.parent_layout layouts.now entry.now.parent)) entry.now.own) }
    ensures begun { IfOk result (λ x. x.begun.items ≡ begun_in (spec.parent_layout layouts.now entry.now.parent) ++ begun_from layouts.now (spec.cells_by layouts.now) (spec.next_position (spec.parent_layout layouts.now entry.now.parent)) (size_in (spec.parent_layout layouts.now entry.now.parent)) entry.now.own) }
{
    let mut layout = inherited(alloc, layouts, entry)?;
    for component in entry.own.as_slice() {
        let cells = cells_by(layouts, component.ty);
        let units = units_by(layouts, component.ty);
        let initial = initial_of(layouts, component);
        add_component(&mut layout, cells, units, initial)?;
    }
    Ok(layout)
}

/// Gives the layout of a record type, where the types that stand before have these (RM 3.8, 3.9.1).
fn layout_of(alloc: Global, layouts: &[Layout], entry: &RecordType) -> Result<Layout, AllocError>
    ensures { IfOk result (λ layout. IsLayout layouts.now entry.now layout) }
{
    let mut layout = components_of(alloc, layouts, entry)?;
    layout.controlled = finalized_of(alloc, layouts, layout.begun.as_slice())?;
    layout.parts = parts_by(entry.root, layout.controlled.as_slice());
    let units = layout.content.checked_add(tag_of(entry.root));
    layout.units = as_record_size(units.ok_or(AllocError)?);
    Ok(layout)
}

/// Gives the layouts of record types.
fn layouts_of(alloc: Global, records: &[RecordType]) -> Result<Vec<Layout>, AllocError>
    ensures { IfOk result (λ all. AreLayouts [] all.items records.now) }
{
    let mut all = Vec::new(alloc);
    for entry in records {
        let layout = layout_of(alloc, all.as_slice(), entry)?;
        all.push(layout)?;
    }
    Ok(all)
}

/// Gives where the collections of access types and their storage pools stand (RM 7.6.1, 13.11).
fn accesses_of(alloc: Global, accesses: &[AccessType]) -> Result<Vec<AccessHome>, AllocError>
    ensures { IfOk result (λ all. all.items ≡ map home_of accesses.now) }
{
    let mut all = Vec::new(alloc);
    for access in accesses {
        all.push(AccessHome {
            collection: access.collection,
            pool: access.pool,
        })?;
    }
    Ok(all)
}

/// Copies the names of exceptions.
fn names_of(alloc: Global, names: &[Text]) -> Result<Vec<Text>, AllocError>
    ensures { IfOk result (λ all. all.items ≡ names.now) }
{
    let mut all = Vec::new(alloc);
    for name in names {
        all.push(name.copied(alloc)?)?;
    }
    Ok(all)
}
