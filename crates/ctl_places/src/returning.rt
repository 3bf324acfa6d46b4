//! A return statement with the value of a record (RM 6.5): the value is taken, and waits among the parts while masters are left; behind the call
//! of the function it is the newest operand. A value of one cell, or of none, goes as any other.

ghost use Rattle.std.specs.Prelude.{◌≡◌, ◌+◌, ◌<◌, ◌≤◌, ◌∷◌, ◌++◌, [], ℕ, List, IfOk, IsFalse, IsTrue, OnErr, OnOk, Some, if◌then◌else◌, length, reverse, take, vec_capacity, vec_len};
ghost use Rattle.std.specs.Option.{option_map};
ghost use Rattle.ctl_code.specs.declared.code.Instr.TheVariants as InstrOf;
ghost use Rattle.ctl_code.specs.declared.code.Way.TheVariants as WayOf;
ghost use Rattle.ctl_code.specs.States.{State};
ghost use Rattle.ctl_code.specs.Table as Table;
ghost use Rattle.ctl_code.specs.Valid.{IsValid};
ghost use Rattle.ctl_meaning.specs.Finalization as S;
ghost use Rattle.ctl_meaning.specs.Objects.{first_cells};
ghost use Rattle.ctl_frames.specs.declared.frame.Completion.TheVariants as CompletionOf;
ghost use Rattle.ctl_engine.specs.Moves.{Before, GoesOn, Makes, here_of};
ghost use Rattle.ctl_engine.specs.RecordValues.{FindsRecord, IsPart, IsValue, cells_in};
ghost use Rattle.ctl_engine.specs.Returning as Returning;
ghost use Rattle.ctl_engine.specs.Returning.{GivesNoRecord};
ghost use Rattle.ctl_engine.specs.Shows.{IsPlain, IsPlainly, kept, with_spots, written_at};
ghost use Rattle.ctl_frames.specs.Spots.{last_value, spots_below};

use crate::record_values::{is_newest_value, newest_cells, newest_value};
use ctl_code::code::{Code, Way};
use ctl_engine::calls::Departure;
use ctl_engine::engine::Engine;
use ctl_frames::frame::{After, Completion, Mode};
use ctl_frames::parts::size_of;
use ctl_frames::spots::{Spot, first_of};
use ctl_tree::ending::Stop;
use std::alloc::AllocError;

/// Tells whether statements are completed by a return statement whose value waits among the parts (RM 6.5).
#[inline(always)]
pub fn has_value_waiting(completion: Completion) -> bool
    ensures waits { IsTrue result → completion ≡ CompletionOf.Transferred WayOf.ReturnRecord }
    ensures plain { IsFalse result → IsPlainly completion }
{
    matches!(completion, Completion::Transferred(Way::ReturnRecord))
}

/// Tells whether the value of a record stands behind the call of a body whose end leads there (RM 6.4).
#[inline(always)]
pub fn gives_record(after: After) -> bool
    ensures { IsFalse result → GivesNoRecord after }
{
    matches!(after, After::Record { .. })
}

/// Tells whether a value waits where a master is left so, or that of a record may stand behind it.
#[inline(always)]
pub fn concerns_record(departure: Departure) -> bool
    ensures plain { IsFalse result → IsPlainly departure.pending }
    ensures none { IsFalse result → GivesNoRecord departure.after }
{
    has_value_waiting(departure.pending) || gives_record(departure.after)
}

/// Tells whether a value waits further behind a master whose statements were completed so: behind a block (RM 5.6, 6.5).
pub fn waits_further(after: After, completion: Completion) -> bool
    ensures { result ≡ Returning.waits_further after completion }
{
    match after {
        After::Block(_) => has_value_waiting(completion),
        _ => false,
    }
}

/// Drops the parts behind so many, unless they stay.
#[inline(always)]
pub fn drop_parts(spots: &mut Vec<Spot>, count: usize, stays: bool)
    ensures items { spots.new.items ≡ if stays then spots.old.items else take count spots.old.items }
    ensures len { vec_len spots.new ≤ vec_len spots.old }
    ensures capacity { vec_capacity spots.new ≡ vec_capacity spots.old }
{
    if stays {
        return;
    }
    spots.truncate(count);
}

/// Puts the value of a record behind the parts, if there is one; there is room for it.
#[inline(always)]
pub fn put_record(spots: &mut Vec<Spot>, given: Option<Vec<u64>>)
    requires { vec_len spots.old < vec_capacity spots.old }
    ensures { spots.new.items ≡ Returning.with_record (option_map (λ v. v.items) given) spots.old.items }
{
    if let Some(value) = given {
        spots.push_reserved(Spot::of_value(value));
    }
}

/// Writes the cell of a value, if there is one.
#[inline(always)]
pub fn put_cell(cells: &mut [u64], at: usize, cell: Option<u64>)
    requires { (x : ℕ) → cell ≡ Some x → at < length cells.old }
    ensures { cells.new ≡ written_at cell at cells.old }
{
    if let Some(value) = cell {
        cells[at] = value;
    }
}

/// Answers the way in which control is transferred with a value of these cells: one of two cells or more waits among the parts.
fn way_for(cells: &[u64]) -> Way
    ensures { result ≡ Returning.way_for cells.now }
{
    match cells {
        [] => Way::Return,
        [value] => Way::ReturnValue(*value),
        _ => Way::ReturnRecord,
    }
}

/// Puts these cells, the value of a record, in place of the newest part, if it waits where control is transferred this way.
fn put_waiting(spots: &mut Vec<Spot>, way: Way, cells: Vec<u64>)
    requires { 0 < length spots.old.items }
    ensures { (below : List S.Spot) (s : S.Spot) → spots.old.items ≡ below ++ s ∷ [] → spots.new.items ≡ Returning.parts_for way below s cells.items }
{
    if let Way::ReturnRecord = way {
        let _ = spots.take_last();
        spots.push_reserved(Spot::of_value(cells));
    }
}

/// Drops the parts that mean nothing any more where control is transferred this way, as `drop_spots` does: a value that waits stays.
#[inline(always)]
pub fn drop_for(engine: &mut Engine, way: Way)
    requires waits { way ≡ WayOf.ReturnRecord → 0 < length engine.old.spots.items }
    ensures plain { IsPlain way → kept engine.new ≡ with_spots (kept engine.old) (spots_below (reverse engine.old.masters.items) engine.old.spots.items) }
    ensures waits { (below : List S.Spot) (s : S.Spot) → way ≡ WayOf.ReturnRecord → engine.old.spots.items ≡ below ++ s ∷ [] → kept engine.new ≡ with_spots (kept engine.old) (spots_below (reverse engine.old.masters.items) below ++ s ∷ []) }
    ensures mode { engine.new.mode ≡ engine.old.mode }
    ensures events { engine.new.events ≡ engine.old.events }
    ensures picks { engine.new.picks ≡ engine.old.picks }
    ensures given { (engine.new.given_masters ≡ engine.old.given_masters) × (engine.new.numbered ≡ engine.old.numbered) }
{
    if let Way::ReturnRecord = way {
        let value = engine.spots.take_last();
        engine.drop_spots();
        engine.spots.push_reserved(value);
        return;
    }
    engine.drop_spots();
}

/// Answers so many cells of the newest operand, a part of an object or the value of a record; None where the object of the part is not
/// there.
fn cells_on_top(
    engine: &Engine,
    code: &Code,
    size: usize,
    place: usize,
) -> Result<Option<Vec<u64>>, AllocError>
    ghost s: { State }
    requires before { FindsRecord code.now engine.now place s }
    ensures { IfOk result (λ found. option_map (λ cells. cells.items) found ≡ cells_in size s.operands s.world) }
{
    if is_newest_value(engine, code, place) {
        return cells_of_value(engine, code, size, place);
    }
    cells_of_part(engine, code, size, place)
}

/// Answers so many cells of the value of a record that is the newest operand.
fn cells_of_value(
    engine: &Engine,
    code: &Code,
    size: usize,
    place: usize,
) -> Result<Option<Vec<u64>>, AllocError>
    ghost s: { State }
    requires before { FindsRecord code.now engine.now place s }
    requires value { IsValue s.operands }
    ensures { IfOk result (λ found. option_map (λ cells. cells.items) found ≡ cells_in size s.operands s.world) }
{
    let cells = newest_value(engine, code, size, place)?;
    Ok(Some(cells))
}

/// Answers so many cells of the part of an object that is the newest operand; None where the object is not there.
fn cells_of_part(
    engine: &Engine,
    code: &Code,
    size: usize,
    place: usize,
) -> Result<Option<Vec<u64>>, AllocError>
    ghost s: { State }
    requires before { FindsRecord code.now engine.now place s }
    requires part { IsPart s.operands }
    ensures { IfOk result (λ found. option_map (λ cells. cells.items) found ≡ cells_in size s.operands s.world) }
{
    let spot = &engine.spots[engine.count_spots() - 1];
    if !engine.stock.exists(spot.object()) {
        return Ok(None);
    }
    let cells = newest_cells(engine, code, size, place)?;
    Ok(Some(cells))
}

/// Transfers control by a return statement with the value of the newest operand, a part of an object or the value of a record, of this record
/// type (RM 6.5); where the object of the part is not there, the program is erroneous (RM 13.11.2). Unchanged where memory is refused.
pub fn return_record(
    engine: &mut Engine,
    code: &Code,
    record: usize,
    place: usize,
) -> Result<(), AllocError>
    ghost s: { State }
    requires valid { IsValid code.now }
    requires before { Before code.now engine.old place (InstrOf.ReturnRecord «record») s }
    ensures ok { OnOk result (Makes code.now engine.old engine.new (Table.by_instr code.now (Some (InstrOf.ReturnRecord «record»)) s.operands (here_of place s))) }
    ensures err { OnErr result (GoesOn engine.old engine.new engine.old.mode engine.old.cells.items) }
{
    let size = size_of(code, record);
    let found = cells_on_top(engine, code, size, place)?;
    match found {
        Some(cells) => {
            let way = way_for(cells.as_slice());
            put_waiting(&mut engine.spots, way, cells);
            engine.mode = Mode::Transfers(way);
        }
        None => engine.mode = Mode::Stopped(Stop::UseAfterFree),
    }
    Ok(())
}

/// Answers so many cells of the value that waits: it is cut, or filled up with cells of 0.
fn cells_waiting(engine: &Engine, count: usize) -> Result<Vec<u64>, AllocError>
    requires { 0 < length engine.now.spots.items }
    ensures { IfOk result (λ cells. cells.items ≡ first_cells count (last_value engine.now.spots.items)) }
{
    let cells = engine.spots[engine.count_spots() - 1].first_cells(engine.alloc, count)?;
    Ok(cells)
}

/// Answers the value of a record that stands behind a master, whose statements were completed so, if one does (RM 6.5).
pub fn record_behind(
    engine: &Engine,
    after: After,
    completion: Completion,
) -> Result<Option<Vec<u64>>, AllocError>
    requires { completion ≡ CompletionOf.Transferred WayOf.ReturnRecord → 0 < length engine.now.spots.items }
    ensures { IfOk result (λ found. option_map (λ cells. cells.items) found ≡ Returning.record_by after completion (last_value engine.now.spots.items)) }
{
    match (after, completion) {
        (After::Record { cells, .. }, Completion::Transferred(Way::Return)) => {
            let given = first_of(engine.alloc, &[], cells)?;
            Ok(Some(given))
        }
        (After::Record { cells, .. }, Completion::Transferred(Way::ReturnValue(value))) => {
            let given = first_of(engine.alloc, &[value], cells)?;
            Ok(Some(given))
        }
        (After::Record { cells, .. }, Completion::Transferred(Way::ReturnRecord)) => {
            let given = cells_waiting(engine, cells)?;
            Ok(Some(given))
        }
        _ => Ok(None),
    }
}

/// Answers the cell of the value of a function behind a master, whose statements were completed so, if one stands there (RM 6.5).
#[tactic(auto, unfolding(ctl_meaning::specs::Names::scalar_of, ctl_meaning::specs::Lists::item_or))]
pub fn cell_behind(engine: &Engine, after: After, completion: Completion) -> Option<u64>
    requires { completion ≡ CompletionOf.Transferred WayOf.ReturnRecord → 0 < length engine.now.spots.items }
    ensures { result ≡ Returning.cell_by after completion (last_value engine.now.spots.items) }
{
    match (after, completion) {
        (After::Record { .. }, Completion::Transferred(Way::Return)) => Some(1),
        (After::Record { .. }, Completion::Transferred(Way::ReturnValue(_))) => Some(1),
        (After::Record { .. }, Completion::Transferred(Way::ReturnRecord)) => Some(1),
        (After::Function { .. }, Completion::Transferred(Way::Return)) => Some(0),
        (After::Function { .. }, Completion::Transferred(Way::ReturnValue(value))) => {
            Some(value)
        }
        (After::Function { .. }, Completion::Transferred(Way::ReturnRecord)) => {
            Some(engine.cell_waiting())
        }
        _ => None,
    }
}
