//! The target of an assignment is finalized before it takes the value (RM 5.2, 7.6).

ghost use Rattle.std.specs.Prelude.{◌≡◌, ◌+◌, ◌^◌, ◌<◌, List, ℕ, OnErr, OnOk, Some, length, reverse, true};
ghost use Rattle.ctl_code.specs.declared.code.Parts.TheVariants as PartsOf;
ghost use Rattle.ctl_code.specs.Table as Table;
ghost use Rattle.ctl_code.specs.Valid.{IsValid};
ghost use Rattle.ctl_tree.specs.declared.event.Cause.TheVariants as CauseOf;
ghost use Rattle.ctl_engine.specs.Assigning.{Assigned, Pending, Replaces, is_assigning, waiting_for};
ghost use Rattle.ctl_engine.specs.Finishing.{AreDoubles, BeginsOver, Finished, Finishes, HasRoomToFinish};
ghost use Rattle.ctl_engine.specs.Moves.{GoesOn, Makes};
ghost use Rattle.ctl_frames.specs.Masters.{heads_of};
ghost use Rattle.ctl_frames.specs.Under.{tall};
ghost use Rattle.ctl_lifetimes.specs.NewValues.{IsRead, is_of_record};

use crate::finalizing::{finalize_among, finalize_part};
use ctl_code::code::{Code, Parts};
use ctl_engine::engine::Engine;
use ctl_engine::finalizing::{Doubles, Finalization};
use ctl_frames::frame::{Frame, Mode, Value};
use ctl_frames::parts::{parts_of, size_of};
use ctl_lifetimes::assign::{NewValue, double_part, double_whole, save_value};
use ctl_tree::ending::Stop;
use ctl_tree::event::Cause;
use room::reserve;
use std::alloc::AllocError;

/// Saves the value of the newest part, of an object that is there, or of a record, for the part below it, both of this record type, and
/// finalizes that (RM 5.2, 7.6): the assignment waits, and goes on at this place. Unchanged where memory is refused.
#[inline(always)]
pub fn finalize_target(
    engine: &mut Engine,
    code: &Code,
    record: usize,
    value: NewValue,
    place: usize,
) -> Result<(), AllocError>
    ghost t: { Assigned × List ℕ }
    requires valid { IsValid code.now }
    requires replaces { Replaces code.now engine.old «record» (is_of_record value) place t.0 t.1 }
    requires read { IsRead value engine.old.spots.items engine.old.stock.objects }
    requires number { engine.old.given_masters + 1 < 2 ^ 64 }
    ensures ok { OnOk result (Makes code.now engine.old engine.new (Table.finalize_part code.now (Table.parts_of code.now «record») CauseOf.Assign t.0.spot «record» (waiting_for «record» (Some t.1) t.0) t.0.world)) }
    ensures err { OnErr result (GoesOn engine.old engine.new engine.old.mode engine.old.cells.items) }
{
    let base = engine.window() + code.kinds.height_before(place);
    let Parts::Controlled = parts_of(code, record) else {
        return finalize_any(engine, code, record, value, place, base);
    };
    match double_whole(engine, engine.count_spots() - 2) {
        Some(doubles) => finalize_controlled(engine, code, record, value, place, base, doubles),
        None => finalize_any(engine, code, record, value, place, base),
    }
}

/// Saves the value and finalizes a target as `finalize_target` does, whatever it is.
// The assignment comes in pieces: as one it would be written to memory before it is known whether this is called.
#[inline(never)]
fn finalize_any(
    engine: &mut Engine,
    code: &Code,
    record: usize,
    value: NewValue,
    place: usize,
    base: usize,
) -> Result<(), AllocError>
    ghost t: { Assigned × List ℕ }
    requires valid { IsValid code.now }
    requires replaces { Replaces code.now engine.old «record» (is_of_record value) place t.0 t.1 }
    requires read { IsRead value engine.old.spots.items engine.old.stock.objects }
    requires base { base ≡ tall t.0.control (heads_of t.0.world.activations) + length t.0.point.operands }
    requires number { engine.old.given_masters + 1 < 2 ^ 64 }
    ensures ok { OnOk result (Makes code.now engine.old engine.new (Table.finalize_part code.now (Table.parts_of code.now «record») CauseOf.Assign t.0.spot «record» (waiting_for «record» (Some t.1) t.0) t.0.world)) }
    ensures err { OnErr result (GoesOn engine.old engine.new engine.old.mode engine.old.cells.items) }
{
    let doubles = double_part(engine, engine.count_spots() - 2)?;
    begin_assignment(engine, code, record, value, place, base)?;
    let finalization = Finalization {
        cause: Cause::Assign,
        record_type: record,
        base,
    };
    finalize_part(engine, code, finalization, doubles);
    Ok(())
}

/// Saves the value and finalizes a controlled target, which is made three times so, as `finalize_target` does.
#[inline(always)]
fn finalize_controlled(
    engine: &mut Engine,
    code: &Code,
    record: usize,
    value: NewValue,
    place: usize,
    base: usize,
    doubles: Doubles,
) -> Result<(), AllocError>
    ghost t: { Assigned × List ℕ }
    requires valid { IsValid code.now }
    requires replaces { Replaces code.now engine.old «record» (is_of_record value) place t.0 t.1 }
    requires read { IsRead value engine.old.spots.items engine.old.stock.objects }
    requires base { base ≡ tall t.0.control (heads_of t.0.world.activations) + length t.0.point.operands }
    requires doubles { AreDoubles doubles t.0.spot }
    requires controlled { Table.parts_of code.now «record» ≡ PartsOf.Controlled }
    requires number { engine.old.given_masters + 1 < 2 ^ 64 }
    ensures ok { OnOk result (Makes code.now engine.old engine.new (Table.finalize_part code.now (Table.parts_of code.now «record») CauseOf.Assign t.0.spot «record» (waiting_for «record» (Some t.1) t.0) t.0.world)) }
    ensures err { OnErr result (GoesOn engine.old engine.new engine.old.mode engine.old.cells.items) }
{
    begin_assignment(engine, code, record, value, place, base)?;
    let finalization = Finalization {
        cause: Cause::Assign,
        record_type: record,
        base,
    };
    finalize_assigned(engine, code, finalization, doubles);
    Ok(())
}

/// Begins an assignment, which goes on at this place: saves the value of the newest part and lets the assignment wait. There is room then to
/// finalize the part below, which is its target. Unchanged where memory is refused.
#[inline(always)]
fn begin_assignment(
    engine: &mut Engine,
    code: &Code,
    record: usize,
    value: NewValue,
    place: usize,
    base: usize,
) -> Result<(), AllocError>
    ghost t: { Assigned × List ℕ }
    requires replaces { Replaces code.now engine.old «record» (is_of_record value) place t.0 t.1 }
    requires read { IsRead value engine.old.spots.items engine.old.stock.objects }
    requires number { engine.old.given_masters + 1 < 2 ^ 64 }
    ensures pending { OnOk result (Pending code.now engine.new «record» place (Some t.1) t.0) }
    ensures room { OnOk result (HasRoomToFinish code.now engine.new base) }
    ensures events { OnOk result (engine.new.events.items ≡ engine.old.events.items) }
    ensures picks { OnOk result (engine.new.picks.items ≡ engine.old.picks.items) }
    ensures err { OnErr result (GoesOn engine.old engine.new engine.old.mode engine.old.cells.items) }
{
    let size = size_of(code, record);
    reserve(&mut engine.saved, size)?;
    engine.prepare_finalization(code, base)?;
    save_value(engine, size, value);
    engine.control.push_reserved(Frame::Assigning {
        record,
        value: Value::Saved,
        place,
    });
    Ok(())
}

/// Finalizes the controlled target of an assignment, as `finalize_part` does: its operations are called among the masters that the statement
/// sees, which the newest one is (RM 7.6).
#[inline(always)]
fn finalize_assigned(engine: &mut Engine, code: &Code, finalization: Finalization, doubles: Doubles)
    ghost t: { Finished }
    requires valid { IsValid code.now }
    requires finishes { Finishes code.now engine.old t }
    requires base { BeginsOver finalization.base t }
    requires room { HasRoomToFinish code.now engine.old finalization.base }
    requires doubles { AreDoubles doubles t.spot }
    requires controlled { Table.parts_of code.now finalization.record_type ≡ PartsOf.Controlled }
    requires assigning { is_assigning (reverse engine.old.control.items) ≡ true }
    ensures { Makes code.now engine.old engine.new (Table.finalize_part code.now (Table.parts_of code.now finalization.record_type) finalization.cause t.spot finalization.record_type t.control t.world) }
{
    if !engine.stock.exists(doubles.spot.object()) {
        engine.mode = Mode::Stopped(Stop::UseAfterFree);
        return;
    }
    let caller = engine.count_masters();
    finalize_among(engine, code, finalization, caller, doubles);
}
