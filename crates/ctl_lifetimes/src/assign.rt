//! Records are assigned to (RM 5.2, 7.6): the target is finalized, takes the value, and is adjusted.

ghost use Rattle.std.specs.Prelude.{◌≡◌, ◌+◌, ◌^◌, ◌<◌, ◌≤◌, ◌∷◌, List, Option, ℕ, IfOk, IsFalse, IsTrue, None, OnErr, OnOk, Some, drop, false, length, reverse, slice_get, true, vec_capacity, vec_len, IfSome};
ghost use Rattle.ctl_code.specs.declared.code.Code.{Code};
ghost use Rattle.ctl_code.specs.declared.code.Parts.TheVariants as PartsOf;
ghost use Rattle.ctl_meaning.specs.Changes.{object_at};
ghost use Rattle.ctl_meaning.specs.Objects.{change_in, with_cells};
ghost use Rattle.ctl_meaning.specs.Finalization as S;
ghost use Rattle.ctl_meaning.specs.Outcome.{Fine};
ghost use Rattle.ctl_code.specs.Table as Table;
ghost use Rattle.ctl_code.specs.States.{Giving, Handed, State};
ghost use Rattle.ctl_code.specs.Valid.{IsValid};
ghost use Rattle.ctl_frames.specs.declared.frame.Frame.{Frame};
ghost use Rattle.ctl_frames.specs.declared.frame.Frame.TheVariants as FrameOf;
ghost use Rattle.ctl_frames.specs.declared.frame.Value.TheVariants as ValueOf;
ghost use Rattle.ctl_engine.specs.Assigning.{Assigned, Assigns, Pending, Replaces, SavesValue, TakesValue};
ghost use Rattle.ctl_engine.specs.Assigning as Assigning;
ghost use Rattle.ctl_engine.specs.Finishing.{AreDoubles, HasRoomToFinish};
ghost use Rattle.ctl_lifetimes.specs.declared.assign.NewValue.TheVariants as NewValueOf;
ghost use Rattle.ctl_lifetimes.specs.NewValues.{IsRead, is_of_record};
ghost use Rattle.ctl_lifetimes.specs.Takings.{IsAdjustedAlone, TakesOver};
ghost use Rattle.ctl_engine.specs.Moves.{BeforeResuming, GoesOn, Makes};
ghost use Rattle.ctl_engine.specs.Saved as Saved;
ghost use Rattle.ctl_frames.specs.Masters.{heads_of};
ghost use Rattle.ctl_frames.specs.Spots.{standing};
ghost use Rattle.ctl_frames.specs.Under.{tall};
ghost use Rattle.ctl_engine.specs.Shows as Shows;

use crate::adjusting::{Adjustment, adjust_among, adjust_part};
use ctl_code::code::{Code, Parts, Way};
use ctl_engine::engine::Engine;
use ctl_engine::finalizing::{Assignment, Doubles, doubled};
use ctl_frames::frame::{Ended, Frame, Mode, Value};
use ctl_frames::parts::{count_controlled, parts_of, size_of};
use ctl_frames::spots::Spot;
use ctl_objects::Objects;
use ctl_program::library::PROGRAM_ERROR;
use ctl_tree::ending::Stop;
use ctl_tree::event::Part;
use ctl_tree::text::Path;
use room::reserve;
use std::alloc::AllocError;

/// The value that an assignment gives: that of a record, which stands among the parts, or of a part of an object, whose first cell holds this.
#[derive(Clone, Copy)]
pub enum NewValue {
    OfRecord,
    OfPart(u64),
}

/// Answers how many of so many saved cells lie below the value of an assignment, which has this size, if it is saved.
fn cells_below(value: Value, size: usize, total: usize) -> usize
    requires { value ≡ ValueOf.Saved → size ≤ total }
    ensures { result ≡ Saved.cells_below value size total }
{
    match value {
        Value::Saved => total - size,
        Value::Taken => total,
    }
}

/// Answers how an assignment ends that goes on at a place, where the adjustment of its target has ended so: if an Adjust failed, by
/// Program_Error (RM 7.6.1).
#[inline(always)]
fn mode_adjusted(ended: Ended, place: usize) -> Mode
    ensures { result ≡ Assigning.mode_adjusted ended place }
{
    match ended {
        Ended::Complete => Mode::At(place),
        _ => Mode::Transfers(Way::Raise(PROGRAM_ERROR)),
    }
}

/// Takes the frame of an assignment off, with its target and the value that is saved for it, if it is, and goes on so.
#[inline(always)]
fn end_assignment(engine: &mut Engine, code: &Code, record: usize, value: Value, mode: Mode)
    ghost t: { Assigned × Option (List ℕ) }
    requires pending { (place : ℕ) × Pending code.now engine.old «record» place t.1 t.0 }
    requires value { value ≡ Saved.value_in t.1 }
    ensures mode { engine.new.mode ≡ mode }
    ensures holds { Shows.Holds code.now (Shows.kept engine.new) t.0.control t.0.point.operands t.0.world }
    ensures spots { engine.new.spots.items ≡ standing t.0.control t.0.point.operands }
    ensures events { engine.new.events.items ≡ engine.old.events.items }
    ensures picks { engine.new.picks.items ≡ engine.old.picks.items }
{
    let _ = engine.control.take_last();
    let _ = engine.spots.take_last();
    let size = size_of(code, record);
    let below = cells_below(value, size, engine.saved.as_slice().len());
    engine.saved.truncate(below);
    engine.mode = mode;
}

/// Tells whether nothing but the target itself is adjusted in an assignment of a record type: it is controlled, and no component of it has a
/// controlled part (RM 7.6).
#[inline(always)]
fn is_adjusted_alone(code: &Code, record: usize) -> bool
    ensures { IsTrue result → IsAdjustedAlone code.now «record» }
{
    match parts_of(code, record) {
        Parts::Controlled => count_controlled(code, record) == 0,
        _ => false,
    }
}

/// Adjusts the target, which has taken the value, where nothing else is adjusted in the assignment: its Adjust is called among the masters
/// that the statement sees, which the newest one is (RM 7.6). There is room.
#[inline(always)]
fn adjust_alone(engine: &mut Engine, code: &Code, assignment: Assignment, doubles: Doubles)
    ghost t: { Assigned }
    requires valid { IsValid code.now }
    requires assigns { Assigns code.now engine.old assignment None t }
    requires room { HasRoomToFinish code.now engine.old assignment.base }
    requires doubles { AreDoubles doubles t.spot }
    requires alone { IsAdjustedAlone code.now assignment.record_type }
    ensures { Makes code.now engine.old engine.new (Table.adjust_target code.now (Table.parts_of code.now assignment.record_type) t.spot assignment.record_type t.point t.control t.world) }
{
    let adjustment = Adjustment {
        creation: None,
        record_type: assignment.record_type,
        failed: false,
        base: assignment.base,
    };
    let caller = engine.count_masters();
    adjust_among(engine, code, adjustment, caller, doubles);
}

/// Adjusts the target, which has taken the value (RM 7.6); there is room. Where it has no controlled part the assignment has ended.
fn adjust_target(engine: &mut Engine, code: &Code, assignment: Assignment, doubles: Doubles)
    ghost t: { Assigned }
    requires valid { IsValid code.now }
    requires assigns { Assigns code.now engine.old assignment None t }
    requires room { HasRoomToFinish code.now engine.old assignment.base }
    requires doubles { AreDoubles doubles t.spot }
    ensures { Makes code.now engine.old engine.new (Table.adjust_target code.now (Table.parts_of code.now assignment.record_type) t.spot assignment.record_type t.point t.control t.world) }
{
    let record_type = assignment.record_type;
    let adjustment = Adjustment {
        creation: None,
        record_type,
        failed: false,
        base: assignment.base,
    };
    match parts_of(code, record_type) {
        Parts::Plain => {
            let behind = Mode::At(assignment.place);
            end_assignment(engine, code, record_type, Value::Taken, behind);
        }
        _ => adjust_part(engine, code, adjustment, doubles),
    }
}

/// Writes these values into cells of an object, from one on, as `Objects::write_all` does.
#[inline(always)]
fn write_value(stock: &mut Objects, number: u64, start: usize, values: &[u64])
    ensures objects { stock.new.objects ≡ change_in number (with_cells start values.now) stock.old.objects }
    ensures same { stock.new ≡ record stock.old { objects = stock.new.objects } }
{
    // Most records with a controlled part have one cell.
    match values {
        [value] => stock.write_part(number, start, 0, *value),
        _ => stock.write_all(number, start, values),
    }
}

/// Lets the newest part take the value that was saved last, which has so many cells.
#[inline(always)]
fn take_value(engine: &mut Engine, size: usize)
    requires spots { 0 < length engine.old.spots.items }
    requires saved { size ≤ length engine.old.saved.items }
    ensures takes { TakesValue engine.old engine.new size }
    ensures room { (code : Code) (base : ℕ) → HasRoomToFinish code engine.old base → HasRoomToFinish code engine.new base }
    ensures waiting { engine.new.control ≡ engine.old.control }
{
    let newest = engine.count_spots() - 1;
    let target = engine.spots[newest].object();
    let offset = engine.spots[newest].offset();
    let start = engine.saved.as_slice().len() - size;
    let value = &engine.saved.as_slice()[start..];
    write_value(&mut engine.stock, target, offset, value);
    engine.saved.truncate(start);
}

/// Notes in the newest frame, which is that of this assignment, that the target has taken the value.
// The frame stays where it is, so that one byte is written of it.
#[inline(always)]
fn note_taken(control: &mut Vec<Frame>, assignment: Assignment)
    requires { (fs : List Frame) × (reverse control.old.items ≡ FrameOf.Assigning assignment.record_type ValueOf.Saved assignment.place ∷ fs) }
    ensures items { reverse control.new.items ≡ FrameOf.Assigning assignment.record_type ValueOf.Taken assignment.place ∷ drop 1 (reverse control.old.items) }
    ensures len { vec_len control.new ≡ vec_len control.old }
    ensures capacity { vec_capacity control.new ≡ vec_capacity control.old }
{
    let _ = assignment;
    let top = control.as_slice().len() - 1;
    if let Frame::Assigning { value, .. } = &mut control[top] {
        *value = Value::Taken;
    }
}

/// Lets the target, which is there, take the value that is saved for it (RM 7.6).
#[inline(always)]
fn take_there(engine: &mut Engine, code: &Code, assignment: Assignment)
    ghost t: { Assigned × List ℕ }
    requires assigns { Assigns code.now engine.old assignment (Some t.1) t.0 }
    requires room { HasRoomToFinish code.now engine.old assignment.base }
    ensures { TakesOver code.now engine.old engine.new assignment t.1 t.0 }
{
    let size = size_of(code, assignment.record_type);
    take_value(engine, size);
    note_taken(&mut engine.control, assignment);
}

/// Lets the target take the value that is saved for it, if it is still there, and makes room to adjust it (RM 7.6); tells whether it is. Where
/// it is not, the program is erroneous (RM 13.11.2). Unchanged where memory is refused.
// The target is looked for once there is room: so it stands in registers where it takes the value.
#[inline(always)]
fn take_over(engine: &mut Engine, code: &Code, assignment: Assignment) -> Result<bool, AllocError>
    ghost t: { Assigned × List ℕ }
    requires pending { Pending code.now engine.old assignment.record_type assignment.place (Some t.1) t.0 }
    requires base { assignment.base ≡ tall t.0.control (heads_of t.0.world.activations) + length t.0.point.operands }
    requires number { engine.old.given_masters + 1 < 2 ^ 64 }
    ensures taken { IfOk result (λ there. IsTrue there → TakesOver code.now engine.old engine.new assignment t.1 t.0) }
    ensures gone { IfOk result (λ there. IsFalse there → Makes code.now engine.old engine.new (Table.take_over code.now t.0.spot assignment.record_type t.1 (object_at t.0.spot.object t.0.world) t.0.point t.0.control t.0.world)) }
    ensures err { OnErr result (GoesOn engine.old engine.new engine.old.mode engine.old.cells.items) }
{
    engine.prepare_finalization(code, assignment.base)?;
    let newest = engine.count_spots() - 1;
    if !engine.stock.exists(engine.spots[newest].object()) {
        let stopped = Mode::Stopped(Stop::UseAfterFree);
        end_assignment(engine, code, assignment.record_type, Value::Saved, stopped);
        return Ok(false);
    }
    take_there(engine, code, assignment);
    Ok(true)
}

/// Takes the newest part off, and saves its value, so many cells, for which there is room.
#[inline(always)]
pub fn save_value(engine: &mut Engine, size: usize, value: NewValue)
    requires spots { 0 < length engine.old.spots.items }
    requires saved { vec_len engine.old.saved + size ≤ vec_capacity engine.old.saved }
    requires read { IsRead value engine.old.spots.items engine.old.stock.objects }
    ensures saves { SavesValue engine.old engine.new size (is_of_record value) }
    ensures room { (code : Code) (base : ℕ) → HasRoomToFinish code engine.old base → HasRoomToFinish code engine.new base }
    ensures waiting { engine.new.control ≡ engine.old.control }
{
    match value {
        NewValue::OfRecord => save_record(engine, size),
        NewValue::OfPart(first) => save_part(engine, size, first),
    }
}

/// Takes the value of a record off, which stands among the parts, and saves it, as `save_value` does.
fn save_record(engine: &mut Engine, size: usize)
    requires spots { 0 < length engine.old.spots.items }
    requires saved { vec_len engine.old.saved + size ≤ vec_capacity engine.old.saved }
    ensures saves { SavesValue engine.old engine.new size true }
    ensures room { (code : Code) (base : ℕ) → HasRoomToFinish code engine.old base → HasRoomToFinish code engine.new base }
    ensures waiting { engine.new.control ≡ engine.old.control }
{
    let source = engine.spots.take_last();
    source.save(size, &mut engine.saved);
}

/// Takes the newest part off, whose first cell holds this, and saves its value, as `save_value` does.
#[inline(always)]
fn save_part(engine: &mut Engine, size: usize, first: u64)
    requires spots { 0 < length engine.old.spots.items }
    requires saved { vec_len engine.old.saved + size ≤ vec_capacity engine.old.saved }
    requires read { IsRead (NewValueOf.OfPart first) engine.old.spots.items engine.old.stock.objects }
    ensures saves { SavesValue engine.old engine.new size false }
    ensures room { (code : Code) (base : ℕ) → HasRoomToFinish code engine.old base → HasRoomToFinish code engine.new base }
    ensures waiting { engine.new.control ≡ engine.old.control }
{
    let source = engine.spots.take_last();
    // Most records with a controlled part have one cell.
    if size == 1 {
        engine.saved.push_reserved(first);
    } else {
        let _ = engine
            .stock
            .save(source.object(), source.offset(), size, &mut engine.saved);
    }
}

/// Assigns the value of the newest part, of an object that is there, or of a record, to the part below it at once: both are of this record
/// type, which has no controlled part (RM 5.2). Goes on at this place; unchanged where memory is refused.
pub fn replace_at_once(
    engine: &mut Engine,
    code: &Code,
    record: usize,
    value: NewValue,
    place: usize,
) -> Result<(), AllocError>
    ghost t: { Assigned × List ℕ }
    requires replaces { Replaces code.now engine.old «record» (is_of_record value) place t.0 t.1 }
    requires read { IsRead value engine.old.spots.items engine.old.stock.objects }
    requires plain { Table.parts_of code.now «record» ≡ PartsOf.Plain }
    ensures ok { OnOk result (Makes code.now engine.old engine.new (Table.replace_value code.now t.0.spot «record» t.1 t.0.point t.0.control t.0.world)) }
    ensures err { OnErr result (GoesOn engine.old engine.new engine.old.mode engine.old.cells.items) }
{
    let below = engine.count_spots() - 2;
    if !engine.stock.exists(engine.spots[below].object()) {
        engine.mode = Mode::Stopped(Stop::UseAfterFree);
        return Ok(());
    }
    let size = size_of(code, record);
    reserve(&mut engine.saved, size)?;
    save_value(engine, size, value);
    take_value(engine, size);
    let _ = engine.spots.take_last();
    engine.mode = Mode::At(place);
    Ok(())
}

/// Makes the part at this place among those of the engine three times.
#[inline(always)]
pub fn double_part(engine: &Engine, at: usize) -> Result<Doubles, AllocError>
    requires { at < length engine.now.spots.items }
    ensures { IfOk result (λ doubles. (s : S.Spot) × (slice_get engine.now.spots.items at ≡ Some s) × AreDoubles doubles s) }
{
    let spot = engine.spots[at].copied(engine.alloc)?;
    doubled(engine.alloc, spot)
}

/// Makes the part at this place among those of the engine three times, if no way leads to it: no memory is asked for then.
#[inline(always)]
pub fn double_whole(engine: &Engine, at: usize) -> Option<Doubles>
    requires { at < length engine.now.spots.items }
    ensures { IfSome result (λ doubles. (s : S.Spot) × (slice_get engine.now.spots.items at ≡ Some s) × AreDoubles doubles s) }
{
    let spot = &engine.spots[at];
    if !spot.has_no_path() {
        return None;
    }
    let alloc = engine.alloc;
    Some(Doubles {
        spot: Spot::without_path(alloc, spot.object(), spot.offset()),
        formal: Spot::without_path(alloc, spot.object(), spot.offset()),
        part: Part {
            object: spot.object(),
            path: Path::new(alloc),
        },
    })
}

/// Goes on with an assignment behind the finalization of its target, if the target is still there (RM 13.11.2): it takes the value, and
/// is adjusted (RM 7.6); unchanged where memory is refused.
// Apart from what hands on, into which all that is executed most often is inlined.
#[inline(never)]
fn resume_taking(
    engine: &mut Engine,
    code: &Code,
    record: usize,
    place: usize,
) -> Result<(), AllocError>
    ghost s: { State }
    requires valid { IsValid code.now }
    requires before { BeforeResuming code.now engine.old s }
    requires top { (fs : List Frame) × (reverse engine.old.control.items ≡ FrameOf.Assigning «record» ValueOf.Saved place ∷ fs) }
    requires number { engine.old.given_masters + 1 < 2 ^ 64 }
    ensures ok { OnOk result ((h : Handed) → Makes code.now engine.old engine.new (Table.act code.now (Giving (Fine h)) s.control s.operands s.world 0)) }
    ensures err { OnErr result (GoesOn engine.old engine.new engine.old.mode engine.old.cells.items) }
{
    let base = engine.window() + code.kinds.height_before(place);
    if !is_adjusted_alone(code, record) {
        return take_and_adjust(engine, code, record, place, base);
    }
    match double_whole(engine, engine.count_spots() - 1) {
        Some(doubles) => take_alone(engine, code, record, place, base, doubles),
        None => take_and_adjust(engine, code, record, place, base),
    }
}

/// Lets the target take the value that is saved for it, and adjusts it, as `take_and_adjust` does, where nothing else is adjusted in the
/// assignment.
#[inline(always)]
fn take_alone(
    engine: &mut Engine,
    code: &Code,
    record: usize,
    place: usize,
    base: usize,
    doubles: Doubles,
) -> Result<(), AllocError>
    ghost t: { Assigned × List ℕ }
    requires valid { IsValid code.now }
    requires pending { Pending code.now engine.old «record» place (Some t.1) t.0 }
    requires base { base ≡ tall t.0.control (heads_of t.0.world.activations) + length t.0.point.operands }
    requires doubles { AreDoubles doubles t.0.spot }
    requires alone { IsAdjustedAlone code.now «record» }
    requires number { engine.old.given_masters + 1 < 2 ^ 64 }
    ensures ok { OnOk result (Makes code.now engine.old engine.new (Table.take_over code.now t.0.spot «record» t.1 (object_at t.0.spot.object t.0.world) t.0.point t.0.control t.0.world)) }
    ensures err { OnErr result (GoesOn engine.old engine.new engine.old.mode engine.old.cells.items) }
{
    let assignment = Assignment {
        record_type: record,
        place,
        base,
    };
    let is_there = take_over(engine, code, assignment)?;
    if is_there {
        adjust_alone(engine, code, assignment, doubles);
    }
    Ok(())
}

/// Lets the target take the value that is saved for it, if it is still there (RM 13.11.2), and adjusts it, its components before it (RM 7.6);
/// unchanged where memory is refused.
// The assignment comes in pieces: as one it would be written to memory before it is known whether this is called.
#[inline(never)]
fn take_and_adjust(
    engine: &mut Engine,
    code: &Code,
    record: usize,
    place: usize,
    base: usize,
) -> Result<(), AllocError>
    ghost t: { Assigned × List ℕ }
    requires valid { IsValid code.now }
    requires pending { Pending code.now engine.old «record» place (Some t.1) t.0 }
    requires base { base ≡ tall t.0.control (heads_of t.0.world.activations) + length t.0.point.operands }
    requires number { engine.old.given_masters + 1 < 2 ^ 64 }
    ensures ok { OnOk result (Makes code.now engine.old engine.new (Table.take_over code.now t.0.spot «record» t.1 (object_at t.0.spot.object t.0.world) t.0.point t.0.control t.0.world)) }
    ensures err { OnErr result (GoesOn engine.old engine.new engine.old.mode engine.old.cells.items) }
{
    let doubles = double_part(engine, engine.count_spots() - 1)?;
    let assignment = Assignment {
        record_type: record,
        place,
        base,
    };
    let is_there = take_over(engine, code, assignment)?;
    if is_there {
        adjust_target(engine, code, assignment, doubles);
    }
    Ok(())
}

/// Goes on with an assignment behind the finalization of its target, or behind its adjustment, which has ended so (RM 7.6): it takes the
/// value that is saved for it, or the assignment has ended. An exception of a Finalize, and an Adjust that failed, is Program_Error
/// (RM 7.6.1). Unchanged where memory is refused.
#[inline(always)]
pub fn resume_assigning(
    engine: &mut Engine,
    code: &Code,
    ended: Ended,
    record: usize,
    value: Value,
    place: usize,
) -> Result<(), AllocError>
    ghost s: { State }
    requires valid { IsValid code.now }
    requires before { BeforeResuming code.now engine.old s }
    requires top { (fs : List Frame) × (reverse engine.old.control.items ≡ FrameOf.Assigning «record» value place ∷ fs) }
    requires number { engine.old.given_masters + 1 < 2 ^ 64 }
    ensures ok { OnOk result (Makes code.now engine.old engine.new (Table.act code.now (Giving (Shows.tried_of ended)) s.control s.operands s.world 0)) }
    ensures err { OnErr result (GoesOn engine.old engine.new engine.old.mode engine.old.cells.items) }
{
    if let Ended::Raised(_) = ended {
        let raised = Mode::Transfers(Way::Raise(PROGRAM_ERROR));
        end_assignment(engine, code, record, value, raised);
        return Ok(());
    }
    match value {
        Value::Saved => resume_taking(engine, code, record, place),
        Value::Taken => {
            let mode = mode_adjusted(ended, place);
            end_assignment(engine, code, record, value, mode);
            Ok(())
        }
    }
}
