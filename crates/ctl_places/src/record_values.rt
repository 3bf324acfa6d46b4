//! The values of records that are operands (RM 6.4), which stand among the parts of objects: what a function gave, or what was copied to a
//! formal. A component of one takes its place, or the value of a component does; an object takes one when it is declared.

ghost use Rattle.std.specs.Prelude.{◌≡◌, ◌+◌, ◌^◌, ◌<◌, ℕ, IfOk, IsFalse, IsTrue, OnErr, OnOk, Some, drop, length, reverse, slice_get};
ghost use Rattle.ctl_code.specs.declared.code.Instr.TheVariants as InstrOf;
ghost use Rattle.ctl_code.specs.Kinds.{stack_at};
ghost use Rattle.ctl_code.specs.States.{State};
ghost use Rattle.ctl_code.specs.Table as Table;
ghost use Rattle.ctl_code.specs.Valid.{IsValid};
ghost use Rattle.ctl_code.specs.Windows.{height};
ghost use Rattle.ctl_frames.specs.declared.frame.Mode.TheVariants as ModeOf;
ghost use Rattle.ctl_frames.specs.Masters.{first_window};
ghost use Rattle.ctl_engine.specs.Moves.{Before, GoesOn, Makes, here_of};
ghost use Rattle.ctl_engine.specs.RecordValues as RecordValues;
ghost use Rattle.ctl_engine.specs.RecordValues.{FindsRecord, FindsRecords, IsPart, IsValue, is_value_in};
ghost use Rattle.ctl_frames.specs.Spots.{value_on_top, first_spot};
ghost use Rattle.ctl_meaning.specs.Objects.{first_cells, cells_at};
ghost use Rattle.ctl_program.specs.declared.types.Ty.{Ty};
ghost use Rattle.ctl_meaning.specs.Changes.{object_at};
ghost use Rattle.ctl_meaning.specs.World.{Object};

use ctl_code::code::{Cell, Code};
use ctl_engine::engine::Engine;
use ctl_frames::frame::Mode;
use ctl_frames::spots::Spot;
use ctl_program::types::Ty;
use room::reserve;
use std::alloc::AllocError;

/// Tells whether what stands among the parts, and as an operand has this cell, is the value of a record: no object has the number 0.
#[inline(always)]
pub fn is_value_as(spot: &Spot, cell: u64) -> bool
    ensures { result ≡ RecordValues.is_value_as spot.now cell }
{
    spot.object() == 0 && cell == 1
}

/// Tells whether the operand under so many newer ones before the instruction at a place, which stands there among the parts, is the value
/// of a record.
// No object has the number 0: for most parts no cell is read.
#[inline(always)]
fn is_value_at(engine: &Engine, code: &Code, place: usize, under: usize, at: usize) -> bool
    requires spot { at < length engine.now.spots.items }
    requires cell { first_window (reverse engine.now.masters.items) + height (drop (under + 1) (stack_at code.now.kinds place)) < length engine.now.cells.items }
    requires bound { under + 1 < 2 ^ 64 }
    ensures { result ≡ is_value_in (slice_get engine.now.spots.items at) (slice_get engine.now.cells.items (first_window (reverse engine.now.masters.items) + height (drop (under + 1) (stack_at code.now.kinds place)))) }
{
    let spot = &engine.spots[at];
    if spot.object() == 0 {
        let cell = engine.cells[engine.window() + code.kinds.height_at(place, under + 1)];
        return is_value_as(spot, cell);
    }
    false
}

/// Tells whether the newest operand is the value of a record, and no part of an object: it is the one or the other.
#[inline(always)]
pub fn is_newest_value(engine: &Engine, code: &Code, place: usize) -> bool
    ghost s: { State }
    requires { FindsRecord code.now engine.now place s }
    ensures value { IsTrue result → IsValue s.operands }
    ensures part { IsFalse result → IsPart s.operands }
{
    is_value_at(engine, code, place, 0, engine.count_spots() - 1)
}

/// Tells whether the operand below the newest one is the value of a record, and no part of an object: both are the one or the other.
#[inline(always)]
pub fn is_value_below(engine: &Engine, code: &Code, place: usize) -> bool
    ghost s: { State }
    requires { FindsRecords code.now engine.now place s }
    ensures value { IsTrue result → IsValue (drop 1 s.operands) }
    ensures part { IsFalse result → IsPart (drop 1 s.operands) }
{
    is_value_at(engine, code, place, 1, engine.count_spots() - 2)
}

/// Answers so many cells of the value of a record that is the newest operand.
pub fn newest_value(
    engine: &Engine,
    code: &Code,
    size: usize,
    place: usize,
) -> Result<Vec<u64>, AllocError>
    ghost s: { State }
    requires before { FindsRecord code.now engine.now place s }
    requires value { IsValue s.operands }
    ensures { IfOk result (λ cells. cells.items ≡ first_cells size (value_on_top s.operands)) }
{
    let _ = code;
    let _ = place;
    let cells = engine.spots[engine.count_spots() - 1].first_cells(engine.alloc, size)?;
    Ok(cells)
}

/// Puts a component of the value of a record that is the newest operand in its place, by the first cell of the component (RM 4.1.3);
/// unchanged where memory is refused.
pub fn select_of_value(
    engine: &mut Engine,
    code: &Code,
    offset: usize,
    position: usize,
    place: usize,
) -> Result<(), AllocError>
    ghost s: { State }
    requires before { (t : ℕ) × (part : ℕ) × Before code.now engine.old place (InstrOf.Select t position part) s }
    requires value { IsValue s.operands }
    requires place { place + 1 < 2 ^ 64 }
    ensures mode { OnOk result (engine.new.mode ≡ ModeOf.At (place + 1)) }
    ensures ok { (t part : ℕ) → offset ≡ Table.offset_of code.now t position → OnOk result (Makes code.now engine.old engine.new (Table.by_instr code.now (Some (InstrOf.Select t position part)) s.operands (here_of place s))) }
    ensures err { OnErr result (GoesOn engine.old engine.new engine.old.mode engine.old.cells.items) }
{
    let _ = code;
    let _ = position;
    let newest = engine.count_spots() - 1;
    let component = engine.spots[newest].component(engine.alloc, offset)?;
    engine.spots[newest] = component;
    engine.mode = Mode::At(place + 1);
    Ok(())
}

/// Puts the value of a component in place of the value of a record that is the newest operand, by the first cell of the component
/// (RM 4.1.3).
pub fn take_of_value(engine: &mut Engine, code: &Code, offset: usize, to: &Cell, place: usize)
    ghost s: { State }
    requires valid { IsValid code.now }
    requires before { (t : ℕ) × (position : ℕ) × (ty : Ty) × Before code.now engine.old place (InstrOf.TakePart t position ty to.now) s }
    requires value { IsValue s.operands }
    requires place { place + 1 < 2 ^ 64 }
    ensures mode { engine.new.mode ≡ ModeOf.At (place + 1) }
    ensures makes { (t position : ℕ) (ty : Ty) → offset ≡ Table.offset_of code.now t position → Makes code.now engine.old engine.new (Table.by_instr code.now (Some (InstrOf.TakePart t position ty to.now)) s.operands (here_of place s)) }
{
    let _ = code;
    let newest = engine.spots.take_last();
    engine.put(newest.cell(offset), to, place);
}

/// Answers so many cells of the part that is the newest operand, of an object that is there.
pub fn newest_cells(
    engine: &Engine,
    code: &Code,
    size: usize,
    place: usize,
) -> Result<Vec<u64>, AllocError>
    ghost s: { State × Object }
    requires before { FindsRecord code.now engine.now place s.0 }
    requires part { IsPart s.0.operands }
    requires source { object_at (first_spot s.0.operands).object s.0.world ≡ Some s.1 }
    ensures { IfOk result (λ cells. cells.items ≡ cells_at (first_spot s.0.operands).offset size s.1) }
{
    let _ = code;
    let _ = place;
    let spot = &engine.spots[engine.count_spots() - 1];
    let mut value = Vec::new(engine.alloc);
    reserve(&mut value, size)?;
    engine
        .stock
        .save(spot.object(), spot.offset(), size, &mut value);
    Ok(value)
}
