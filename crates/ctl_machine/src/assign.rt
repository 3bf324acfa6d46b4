//! Records are assigned to (RM 5.2, 7.6): at once, or the target is finalized first.

ghost use Rattle.std.specs.Prelude.{◌+◌, ◌^◌, ◌<◌, List, ℕ, OnErr, OnOk, Some, drop};
ghost use Rattle.ctl_code.specs.declared.code.Instr.TheVariants as InstrOf;
ghost use Rattle.ctl_code.specs.Table as Table;
ghost use Rattle.ctl_code.specs.States.{State};
ghost use Rattle.ctl_code.specs.Valid.{IsValid};
ghost use Rattle.ctl_engine.specs.Assigning.{Assigned, Replaces};
ghost use Rattle.ctl_engine.specs.Moves.{Before, GoesOn, Makes, here_of};
ghost use Rattle.ctl_engine.specs.RecordValues.{IsPart};
ghost use Rattle.ctl_lifetimes.specs.NewValues.{IsRead, is_of_record};

use ctl_code::code::{Code, Parts};
use ctl_engine::engine::Engine;
use ctl_frames::frame::Mode;
use ctl_frames::parts::parts_of;
use ctl_lifetimes::assign::{NewValue, replace_at_once};
use ctl_places::record_values::{is_newest_value, is_value_below};
use ctl_steps::assign::finalize_target;
use ctl_tree::ending::Stop;
use std::alloc::AllocError;

/// Assigns the value of the newest part, of an object that is there, or of a record, to the part below it, both of this record type (RM 5.2,
/// 7.6). The assignment goes on at this place; unchanged where memory is refused.
#[inline(always)]
fn replace_value(
    engine: &mut Engine,
    code: &Code,
    record: usize,
    value: NewValue,
    place: usize,
) -> Result<(), AllocError>
    ghost t: { Assigned × List ℕ }
    requires valid { IsValid code.now }
    requires replaces { Replaces code.now engine.old «record» (is_of_record value) place t.0 t.1 }
    requires read { IsRead value engine.old.spots.items engine.old.stock.objects }
    requires number { engine.old.given_masters + 1 < 2 ^ 64 }
    ensures ok { OnOk result (Makes code.now engine.old engine.new (Table.replace_value code.now t.0.spot «record» t.1 t.0.point t.0.control t.0.world)) }
    ensures err { OnErr result (GoesOn engine.old engine.new engine.old.mode engine.old.cells.items) }
{
    match parts_of(code, record) {
        Parts::Plain => replace_at_once(engine, code, record, value, place),
        _ => finalize_target(engine, code, record, value, place),
    }
}

/// Assigns the value of the part that is the newest operand, or the value of a record, to the part below it (RM 5.2, 7.6); one that is
/// assigned to itself stays as it is. Where the object of the newest is not there, the program is erroneous (RM 13.11.2), and where what is
/// below is no part: a value takes none. Unchanged where memory is refused.
#[inline(always)]
pub(crate) fn assign(
    engine: &mut Engine,
    code: &Code,
    record: usize,
    place: usize,
) -> Result<(), AllocError>
    ghost s: { State }
    requires valid { IsValid code.now }
    requires before { Before code.now engine.old place (InstrOf.Assign «record») s }
    requires place { place + 1 < 2 ^ 64 }
    requires number { engine.old.given_masters + 1 < 2 ^ 64 }
    ensures ok { OnOk result (Makes code.now engine.old engine.new (Table.by_instr code.now (Some (InstrOf.Assign «record»)) s.operands (here_of place s))) }
    ensures err { OnErr result (GoesOn engine.old engine.new engine.old.mode engine.old.cells.items) }
{
    if is_value_below(engine, code, place) {
        engine.mode = Mode::Stopped(Stop::UseAfterFree);
        return Ok(());
    }
    if is_newest_value(engine, code, place) {
        return replace_value(engine, code, record, NewValue::OfRecord, place + 1);
    }
    assign_part(engine, code, record, place)
}

/// Assigns the value of the part that is the newest operand to the part below it, as `assign` does.
#[inline(always)]
fn assign_part(
    engine: &mut Engine,
    code: &Code,
    record: usize,
    place: usize,
) -> Result<(), AllocError>
    ghost s: { State }
    requires valid { IsValid code.now }
    requires before { Before code.now engine.old place (InstrOf.Assign «record») s }
    requires part { IsPart s.operands }
    requires target { IsPart (drop 1 s.operands) }
    requires place { place + 1 < 2 ^ 64 }
    requires number { engine.old.given_masters + 1 < 2 ^ 64 }
    ensures ok { OnOk result (Makes code.now engine.old engine.new (Table.by_instr code.now (Some (InstrOf.Assign «record»)) s.operands (here_of place s))) }
    ensures err { OnErr result (GoesOn engine.old engine.new engine.old.mode engine.old.cells.items) }
{
    let count = engine.count_spots();
    let source = &engine.spots[count - 1];
    let target = &engine.spots[count - 2];
    let Some(first) = engine.stock.read_part(source.object(), source.offset(), 0) else {
        engine.mode = Mode::Stopped(Stop::UseAfterFree);
        return Ok(());
    };
    if target.is_same(source) {
        engine.spots.truncate(count - 2);
        engine.mode = Mode::At(place + 1);
        return Ok(());
    }
    replace_value(engine, code, record, NewValue::OfPart(first), place + 1)
}
