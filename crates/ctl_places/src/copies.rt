//! Components of objects that are passed by copy (RM 6.4.1): numbers are reserved below the actuals; two of them keep which part has a component
//! from its actual on; and behind the call the copy goes back to the component.

ghost use Rattle.std.specs.Prelude.{◌≡◌, ◌+◌, ◌^◌, ◌<◌, ◌≤◌, ℕ, IfNone, IfSome, Some, length, reverse, slice_set};
ghost use Rattle.ctl_code.specs.declared.code.Instr.TheVariants as InstrOf;
ghost use Rattle.ctl_program.specs.declared.types.Ty.{Ty};
ghost use Rattle.ctl_code.specs.Table as Table;
ghost use Rattle.ctl_code.specs.States.{State};
ghost use Rattle.ctl_code.specs.Valid.{IsValid};
ghost use Rattle.ctl_meaning.specs.Changes.{object_at};
ghost use Rattle.ctl_frames.specs.declared.frame.Mode.TheVariants as ModeOf;
ghost use Rattle.ctl_engine.specs.Instructions.{PassesComponent};
ghost use Rattle.ctl_frames.specs.Masters.{first_window};
ghost use Rattle.ctl_engine.specs.Moves.{Before, GoesOn, Makes, cleared, here_of};
ghost use Rattle.ctl_places.specs.Parts.{begun_with, part_in};
ghost use Rattle.ctl_engine.specs.Shows.{Holds, kept};
ghost use Rattle.ctl_engine.specs.Windows.{Comes};
ghost use Rattle.ctl_tree.specs.declared.ending.Stop.TheVariants as StopOf;

use crate::components::read_at;
use crate::record_values::is_newest_value;
use ctl_code::code::{Cell, Code, Instr, Named};
use ctl_engine::engine::{Engine, clear};
use ctl_frames::frame::Mode;
use ctl_frames::parts::offset_of;
use ctl_program::operators::CopyStart;

/// Clears so many cells of the newest window, from this one on, and goes on behind this place.
#[inline(always)]
fn clear_numbers(engine: &mut Engine, count: usize, at: usize, place: usize)
    requires cells { first_window (reverse engine.old.masters.items) + at + count ≤ length engine.old.cells.items }
    requires place { place + 1 < 2 ^ 64 }
    ensures { GoesOn engine.old engine.new (ModeOf.At (place + 1)) (cleared (first_window (reverse engine.old.masters.items) + at) count engine.old.cells.items) }
{
    let first = engine.window() + at;
    clear(&mut engine.cells, first, count);
    engine.mode = Mode::At(place + 1);
}

/// Puts so many zeros as new operands, the first in this cell, and goes on behind this place.
fn reserve_numbers(engine: &mut Engine, code: &Code, count: usize, at: usize, place: usize)
    ghost s: { State }
    requires valid { IsValid code.now }
    requires before { Before code.now engine.old place (InstrOf.Reserve count at) s }
    requires place { place + 1 < 2 ^ 64 }
    ensures mode { engine.new.mode ≡ ModeOf.At (place + 1) }
    ensures makes { Makes code.now engine.old engine.new (Table.by_instr code.now (Some (InstrOf.Reserve count at)) s.operands (here_of place s)) }
{
    let _ = code;
    clear_numbers(engine, count, at, place);
}

/// Answers what the copy of a component of an object begins with, by the first cell of a part of the object and how much further the
/// component is; None where its value is to be read and there is no such object.
fn begin_copy(
    engine: &Engine,
    code: &Code,
    object: u64,
    start: usize,
    offset: usize,
    begins: CopyStart,
) -> Option<u64>
    ghost s: { State }
    requires { Holds code.now (kept engine.now) s.control s.operands s.world }
    ensures { result ≡ begun_with begins (part_in (start + offset) (object_at object s.world)) }
{
    match begins {
        CopyStart::Actual => read_at(engine, code, object, start, offset),
        CopyStart::Beginning => Some(0),
    }
}

/// Keeps a part in this cell of the newest window and the next one, by its object and its first cell.
#[inline(always)]
fn keep_spot(engine: &mut Engine, base: usize, object: u64, start: usize)
    requires { first_window (reverse engine.old.masters.items) + base + 1 < length engine.old.cells.items }
    ensures { GoesOn engine.old engine.new engine.old.mode (slice_set (slice_set engine.old.cells.items (first_window (reverse engine.old.masters.items) + base + 1) start) (first_window (reverse engine.old.masters.items) + base) object) }
{
    let first = engine.window() + base;
    engine.cells[first + 1] = start as u64;
    engine.cells[first] = object;
}

/// Keeps the part that is the newest operand in the cell `base` and the next one, by its object and its first cell, and puts what the copy of
/// a component begins with in its place, by how much further the component is; answers what comes next. Where the value of the component is
/// to be read and there is no such object, the program is erroneous (RM 13.11.2), and nothing changes.
// Of how many operands these cells are the last two says only which ones the table changes.
fn keep_part(
    engine: &mut Engine,
    code: &Code,
    begins: CopyStart,
    depth: usize,
    base: usize,
    offset: usize,
    at: usize,
    place: usize,
) -> Option<usize>
    ghost s: { State }
    requires valid { IsValid code.now }
    requires before { (t : ℕ) × (position : ℕ) × (ty : Ty) × Before code.now engine.old place (InstrOf.KeepPart t position begins ty depth base at) s }
    requires place { place + 1 < 2 ^ 64 }
    ensures passed { (t position : ℕ) (ty : Ty) → offset ≡ Table.offset_of code.now t position → IfSome result (λ next. (engine.new.mode ≡ ModeOf.At next) × Makes code.now engine.old engine.new (Table.by_instr code.now (Some (InstrOf.KeepPart t position begins ty depth base at)) s.operands (here_of place s))) }
    ensures left { IfNone result (GoesOn engine.old engine.new engine.old.mode engine.old.cells.items) }
    ensures gone { (t position : ℕ) (ty : Ty) → offset ≡ Table.offset_of code.now t position → IfNone result (Comes code.now engine.new (ModeOf.Stopped StopOf.UseAfterFree) engine.new.cells.items (Table.by_instr code.now (Some (InstrOf.KeepPart t position begins ty depth base at)) s.operands (here_of place s))) }
{
    let _ = depth;
    // What goes back is given to a variable, which a value is not.
    if is_newest_value(engine, code, place) {
        return None;
    }
    let newest = engine.count_spots() - 1;
    let spot = &engine.spots[newest];
    let object = spot.object();
    let start = spot.offset();
    match begin_copy(engine, code, object, start, offset, begins) {
        Some(value) => {
            let _ = engine.spots.take_last();
            keep_spot(engine, base, object, start);
            let named = Named::Operand;
            engine.put(value, &Cell { at, named }, place);
            Some(place + 1)
        }
        None => None,
    }
}

/// Gives a component of the part that is kept in the cell `base` and the next one what the copy in the cell `at` holds, by how much further the
/// component is than the first cell of the part; answers what comes next. Where there is no such object, the program is erroneous (RM
/// 13.11.2), and nothing changes.
// Of how many operands these cells are the last ones says only which ones the table reads.
fn copy_back_part(
    engine: &mut Engine,
    code: &Code,
    depth: usize,
    at: usize,
    below: usize,
    base: usize,
    offset: usize,
    place: usize,
) -> Option<usize>
    ghost s: { State }
    requires before { (t : ℕ) × (position : ℕ) × Before code.now engine.old place (InstrOf.CopyBackPart depth at below base t position) s }
    requires place { place + 1 < 2 ^ 64 }
    ensures passed { (t position : ℕ) → offset ≡ Table.offset_of code.now t position → IfSome result (λ next. (engine.new.mode ≡ ModeOf.At next) × Makes code.now engine.old engine.new (Table.by_instr code.now (Some (InstrOf.CopyBackPart depth at below base t position)) s.operands (here_of place s))) }
    ensures left { IfNone result (GoesOn engine.old engine.new engine.old.mode engine.old.cells.items) }
    ensures gone { (t position : ℕ) → offset ≡ Table.offset_of code.now t position → IfNone result (Comes code.now engine.new (ModeOf.Stopped StopOf.UseAfterFree) engine.new.cells.items (Table.by_instr code.now (Some (InstrOf.CopyBackPart depth at below base t position)) s.operands (here_of place s))) }
{
    let _ = code;
    let _ = depth;
    let _ = below;
    let named = Named::Operand;
    let value = engine.take(&Cell { at, named });
    let object = engine.take(&Cell { at: base, named });
    let first = engine.take(&Cell {
        at: base + 1,
        named,
    });
    if !engine.stock.exists(object) {
        return None;
    }
    let start = first as usize;
    engine.stock.write_part(object, start, offset, value);
    engine.mode = Mode::At(place + 1);
    Some(place + 1)
}

/// Executes this instruction, which stands at this place and reserves numbers, keeps which part has a component, or gives the component what
/// a copy holds, and answers what comes next; where there is no such object, the program is erroneous (RM 13.11.2), and nothing changes.
// Apart from the stretch, whose locals stand in registers.
#[inline(never)]
pub fn pass_component(
    engine: &mut Engine,
    code: &Code,
    instr: &Instr,
    place: usize,
) -> Option<usize>
    ghost s: { State }
    requires valid { IsValid code.now }
    requires before { Before code.now engine.old place instr.now s }
    requires passes { PassesComponent instr.now }
    requires place { place + 1 < 2 ^ 64 }
    ensures passed { IfSome result (λ next. (engine.new.mode ≡ ModeOf.At next) × Makes code.now engine.old engine.new (Table.by_instr code.now (Some instr.now) s.operands (here_of place s))) }
    ensures left { IfNone result (GoesOn engine.old engine.new engine.old.mode engine.old.cells.items) }
    ensures gone { IfNone result (Comes code.now engine.new (ModeOf.Stopped StopOf.UseAfterFree) engine.new.cells.items (Table.by_instr code.now (Some instr.now) s.operands (here_of place s))) }
{
    match instr {
        Instr::Reserve { count, at } => {
            reserve_numbers(engine, code, *count, *at, place);
            Some(place + 1)
        }
        Instr::KeepPart {
            record,
            position,
            begins,
            depth,
            kept,
            at,
            ..
        } => {
            let offset = offset_of(code, *record, *position);
            keep_part(engine, code, *begins, *depth, *kept, offset, *at, place)
        }
        Instr::CopyBackPart {
            depth,
            at,
            below,
            kept,
            record,
            position,
        } => {
            let offset = offset_of(code, *record, *position);
            copy_back_part(engine, code, *depth, *at, *below, *kept, offset, place)
        }
        _ => unreachable!(),
    }
}
