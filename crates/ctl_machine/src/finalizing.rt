//! Objects are finalized as a whole, and the components of a part one chosen after another (RM 7.6.1).

ghost use Rattle.std.specs.Prelude.{◌≡◌, ◌≢◌, ◌+◌, ◌^◌, ◌<◌, ◌≤◌, ◌∷◌, List, OnErr, OnOk, length, reverse, vec_capacity, vec_len};
ghost use Rattle.ctl_code.specs.declared.code.Begun.{Begun};
ghost use Rattle.ctl_meaning.specs.Lists.{pull_rest};
ghost use Rattle.ctl_code.specs.declared.code.Parts.TheVariants as PartsOf;
ghost use Rattle.ctl_code.specs.States as T;
ghost use Rattle.ctl_code.specs.States.{Giving, State};
ghost use Rattle.ctl_code.specs.Table as Table;
ghost use Rattle.ctl_code.specs.Valid.{IsValid};
ghost use Rattle.ctl_frames.specs.declared.frame.Frame.{Frame};
ghost use Rattle.ctl_frames.specs.declared.frame.Frame.TheVariants as FrameOf;
ghost use Rattle.ctl_engine.specs.Assigning.{HasRoom};
ghost use Rattle.ctl_frames.specs.Filling.{noted_among, pick_among};
ghost use Rattle.ctl_engine.specs.Finishing.{AreDoubles, BeginsOver, FinalizesParts, Finished, Finishes};
ghost use Rattle.ctl_engine.specs.Moves.{BeforeResuming, Chooses, GoesOn, Makes, Resumes};
ghost use Rattle.ctl_engine.specs.Shows as Shows;

use ctl_code::code::{Begun, Code, Initial};
use ctl_engine::calls::replace_top;
use ctl_engine::engine::Engine;
use ctl_engine::finalizing::{Doubles, Finalization, handed};
use ctl_engine::layers::fails_with;
use ctl_frames::frame::{Apart, Ended, Frame, Mode};
use ctl_frames::parts::{controlled_at, count_controlled};
use ctl_lifetimes::filling::note_pick;
use ctl_program::library::PROGRAM_ERROR;
use ctl_steps::finalizing::{finalize_components, finalize_part};
use ctl_tree::event::Cause;
use ctl_tree::request::Order;
use room::reserve;
use std::alloc::AllocError;

/// Finalizes the object of this number as a whole, over what waits: it has a record type with a controlled part (RM 7.6.1). There is
/// room, also for the frame of the object.
pub(crate) fn finalize_whole(
    engine: &mut Engine,
    code: &Code,
    number: u64,
    finalization: Finalization,
    doubles: Doubles,
)
    ghost t: { Finished }
    requires valid { IsValid code.now }
    requires finishes { Finishes code.now engine.old t }
    requires base { BeginsOver finalization.base t }
    requires room { HasRoom code.now engine.old finalization.base }
    requires control { vec_len engine.old.control + 3 ≤ vec_capacity engine.old.control }
    requires spots { vec_len engine.old.spots < vec_capacity engine.old.spots }
    requires doubles { AreDoubles doubles (T.whole_spot number) }
    requires parts { Table.parts_of code.now finalization.record_type ≢ PartsOf.Plain }
    ensures { Makes code.now engine.old engine.new (Table.finalize_object code.now (Table.parts_of code.now finalization.record_type) finalization.cause number finalization.record_type t.control t.world) }
{
    engine.control.push_reserved(Frame::Finalizing {
        cause: finalization.cause,
        number,
    });
    engine.begin_finalization(number);
    finalize_part(engine, code, finalization, doubles);
}

/// Goes on with a part behind its own Finalize, which has ended so: its components are finalized. An exception is remembered, and in an
/// assignment it is Program_Error at once (RM 7.6.1).
// Where no component is left to finalize it is known behind this what is handed on.
#[inline(always)]
pub(crate) fn resume_finalizing_own(
    engine: &mut Engine,
    code: &Code,
    ended: Ended,
    cause: Cause,
    record: usize,
)
    ghost s: { State }
    requires before { BeforeResuming code.now engine.old s }
    requires top { (fs : List Frame) × (reverse engine.old.control.items ≡ FrameOf.FinalizingOwn cause «record» ∷ fs) }
    ensures { Makes code.now engine.old engine.new (Table.act code.now (Giving (Shows.tried_of ended)) s.control s.operands s.world 0) }
{
    if let Ended::Raised(_) = ended {
        return finalize_behind(engine, code, ended, cause, record);
    }
    if count_controlled(code, record) > 0 {
        return finalize_behind(engine, code, ended, cause, record);
    }
    let _ = engine.drop_frame();
    engine.mode = Mode::Giving(Ended::Complete);
}

/// Goes on with a part behind its own Finalize, as `resume_finalizing_own` does, whatever its components are and however that ended.
#[inline(never)]
fn finalize_behind(engine: &mut Engine, code: &Code, ended: Ended, cause: Cause, record: usize)
    ghost s: { State }
    requires before { BeforeResuming code.now engine.old s }
    requires top { (fs : List Frame) × (reverse engine.old.control.items ≡ FrameOf.FinalizingOwn cause «record» ∷ fs) }
    ensures { Makes code.now engine.old engine.new (Table.act code.now (Giving (Shows.tried_of ended)) s.control s.operands s.world 0) }
{
    let spot = engine.drop_frame();
    match ended {
        Ended::Raised(_) => match cause {
            Cause::Assign => engine.mode = Mode::Giving(Ended::Raised(PROGRAM_ERROR)),
            _ => finalize_components(engine, code, cause, record, spot, true),
        },
        _ => finalize_components(engine, code, cause, record, spot, false),
    }
}

/// Finalizes the component that an order chooses among those that are left of the newest part, where a finalization in the part failed
/// or did not (RM 7.6.1); unchanged where memory is refused.
fn finalize_next(
    engine: &mut Engine,
    code: &Code,
    order: Order,
    cause: Cause,
    record: usize,
    left: Apart,
    failed: bool,
) -> Result<(), AllocError>
    ghost t: { Finished × List Begun × T.Frame }
    requires valid { IsValid code.now }
    requires waits { FinalizesParts code.now engine.old cause «record» left t.0 t.1 }
    requires some { 0 < length t.1 }
    requires rest { t.2 ≡ T.FinalizingParts cause t.0.spot (pull_rest (pick_among order (length t.1)) t.1) failed }
    requires number { engine.old.given_masters + 1 < 2 ^ 64 }
    ensures ok { OnOk result (Chooses code.now engine.old engine.new (Table.finalize_next code.now cause t.0.spot t.1 failed (pick_among order (length t.1)) t.0.control t.0.world) (noted_among (length t.1) (pick_among order (length t.1)))) }
    ensures err { OnErr result (GoesOn engine.old engine.new engine.old.mode engine.old.cells.items) }
{
    reserve(&mut engine.picks, 1)?;
    let candidates = left.count();
    let chosen = left.choose(order);
    let component = controlled_at(code, record, chosen.at);
    let frame = Frame::FinalizingParts {
        cause,
        record,
        left: chosen.rest,
        failed,
    };
    let Initial::ByType(record_type) = component.initial else {
        note_pick(&mut engine.picks, candidates, chosen.pick);
        replace_top(&mut engine.control, frame);
        engine.mode = Mode::Giving(Ended::Complete);
        return Ok(());
    };
    let base = engine.next_window(code);
    let doubles = engine.double_component(&component)?;
    engine.prepare_finalization(code, base)?;
    note_pick(&mut engine.picks, candidates, chosen.pick);
    replace_top(&mut engine.control, frame);
    let finalization = Finalization {
        cause,
        record_type,
        base,
    };
    finalize_part(engine, code, finalization, doubles);
    Ok(())
}

/// Goes on with the components of the newest part, behind what has ended so: one of those that are left is finalized, by the order, or
/// else the part is. An exception goes on at once (RM 7.6.1). Unchanged where memory is refused.
pub(crate) fn resume_finalizing_parts(
    engine: &mut Engine,
    code: &Code,
    order: Order,
    ended: Ended,
    cause: Cause,
    record: usize,
    left: Apart,
    failed: bool,
) -> Result<(), AllocError>
    ghost s: { State }
    requires valid { IsValid code.now }
    requires before { BeforeResuming code.now engine.old s }
    requires top { (fs : List Frame) × (reverse engine.old.control.items ≡ FrameOf.FinalizingParts cause «record» left failed ∷ fs) }
    requires number { engine.old.given_masters + 1 < 2 ^ 64 }
    ensures ok { OnOk result (Resumes code.now engine.old engine.new order (Shows.tried_of ended) s) }
    ensures err { OnErr result (GoesOn engine.old engine.new engine.old.mode engine.old.cells.items) }
{
    if let Ended::Raised(_) = ended {
        let _ = engine.drop_frame();
        engine.mode = Mode::Giving(ended);
        return Ok(());
    }
    let fails = fails_with(failed, ended);
    if left.is_empty() {
        let _ = engine.drop_frame();
        engine.mode = Mode::Giving(handed(fails));
        return Ok(());
    }
    finalize_next(engine, code, order, cause, record, left, fails)
}
