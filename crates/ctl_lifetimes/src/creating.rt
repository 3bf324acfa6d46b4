//! Declared objects whose parts are created, or that have taken a value and are adjusted, become layers of their masters (RM 7.6, 7.6.1).

ghost use Rattle.std.specs.Prelude.{◌≡◌, ◌≢◌, ◌+◌, ◌^◌, ◌<◌, [], ◌∷◌, List, OnErr, OnOk, reverse};
ghost use Rattle.ctl_code.specs.Table as Table;
ghost use Rattle.ctl_meaning.specs.Outcome.{Fine, Tried};
ghost use Rattle.ctl_code.specs.States.{Giving, Handed, OperationFailed, State};
ghost use Rattle.ctl_code.specs.Valid.{IsValid};
ghost use Rattle.ctl_frames.specs.declared.frame.Ended.TheVariants as EndedOf;
ghost use Rattle.ctl_frames.specs.declared.frame.Frame.{Frame};
ghost use Rattle.ctl_frames.specs.declared.frame.Frame.TheVariants as FrameOf;
ghost use Rattle.ctl_frames.specs.declared.frame.Mode.TheVariants as ModeOf;
ghost use Rattle.ctl_frames.specs.declared.frame.Owned.{Owned};
ghost use Rattle.ctl_engine.specs.Copying.{IsCopy};
ghost use Rattle.ctl_engine.specs.Initializing.{IsNewest, Turns, alive};
ghost use Rattle.ctl_engine.specs.Moves.{BeforeResuming, GoesOn, Makes};
ghost use Rattle.ctl_engine.specs.Shows as Shows;

use crate::undoing::{Undone, undo_part};
use ctl_code::code::{Code, Way};
use ctl_engine::calls::replace_top;
use ctl_engine::engine::Engine;
use ctl_engine::finalizing::doubled;
use ctl_frames::frame::{Declared, Ended, Frame, Mode, Role};
use ctl_frames::spots::Spot;
use ctl_program::library::PROGRAM_ERROR;
use std::alloc::AllocError;

/// Makes the newest owned object a layer of its master (RM 7.6.1), and goes on at this place.
pub fn become_layer(engine: &mut Engine, place: usize)
    ghost o: { Owned }
    requires newest { IsNewest engine.old o }
    ensures { Turns engine.old engine.new (alive o) (ModeOf.At place) [] }
{
    let newest = engine.count_owned() - 1;
    engine.owned[newest].is_layer = true;
    engine.mode = Mode::At(place);
}

/// Goes on with the declaration of the newest owned object behind the creation of its parts, which has ended so: the object is a layer
/// of its master, or the exception is raised (RM 7.6.1); where it is a pool, that closes then (RM 13.11).
pub fn resume_creating(
    engine: &mut Engine,
    code: &Code,
    ended: Ended,
    declared: Declared,
    place: usize,
)
    ghost s: { State }
    requires before { BeforeResuming code.now engine.old s }
    requires top { (fs : List Frame) × (reverse engine.old.control.items ≡ FrameOf.Creating declared place ∷ fs) }
    ensures { Makes code.now engine.old engine.new (Table.act code.now (Giving (Shows.tried_of ended)) s.control s.operands s.world 0) }
{
    let _ = code;
    let _ = engine.control.take_last();
    let Ended::Raised(exception) = ended else {
        become_layer(engine, place);
        return;
    };
    engine.close_newest(declared);
    engine.mode = Mode::Transfers(Way::Raise(exception));
}

/// Goes on with the declaration of the newest owned object behind its adjustment, of which no Adjust has failed: what is noted of it,
/// from this place on, is dropped, and the object is a layer of its master, or the exception is raised (RM 7.6.1).
fn end_copy(engine: &mut Engine, code: &Code, ended: Ended, place: usize, first: usize)
    ghost s: { State }
    requires before { BeforeResuming code.now engine.old s }
    requires top { (fs : List Frame) × (reverse engine.old.control.items ≡ FrameOf.Copying place first ∷ fs) }
    requires fine { ended ≢ EndedOf.OperationFailed }
    ensures { Makes code.now engine.old engine.new (Table.act code.now (Giving (Shows.tried_of ended)) s.control s.operands s.world 0) }
{
    let _ = code;
    let _ = engine.control.take_last();
    engine.noted.truncate(first);
    match ended {
        Ended::Raised(exception) => engine.mode = Mode::Transfers(Way::Raise(exception)),
        _ => become_layer(engine, place),
    }
}

/// Begins the finalization of the object of this number, of a record type, of which an Adjust has failed: those of its parts that are
/// noted from this place on are finalized, which are adjusted, over the frame of its creation (RM 7.6.1); unchanged where memory is
/// refused.
pub fn undo_copy(
    engine: &mut Engine,
    code: &Code,
    creation: Frame,
    object: u64,
    record: usize,
    first: usize,
) -> Result<(), AllocError>
    ghost s: { State }
    requires valid { IsValid code.now }
    requires before { BeforeResuming code.now engine.old s }
    requires copies { IsCopy code.now engine.old creation object «record» first s }
    requires number { engine.old.given_masters + 1 < 2 ^ 64 }
    ensures ok { OnOk result (Makes code.now engine.old engine.new (Table.act code.now (Giving (Fine OperationFailed)) s.control s.operands s.world 0)) }
    ensures err { OnErr result (GoesOn engine.old engine.new engine.old.mode engine.old.cells.items) }
{
    let base = engine.next_window(code);
    let doubles = doubled(engine.alloc, Spot::whole(engine.alloc, object))?;
    engine.prepare_finalization(code, base)?;
    replace_top(&mut engine.control, creation);
    engine
        .control
        .push_reserved(Frame::Undoing { object, first });
    engine.begin_finalization(object);
    let undoing = Undone {
        record_type: record,
        first,
        base,
    };
    undo_part(engine, code, undoing, doubles);
    Ok(())
}

/// Begins the finalization of the newest owned object, of which an Adjust has failed: those of its parts that are noted from this place
/// on are finalized, which are adjusted (RM 7.6.1); unchanged where memory is refused.
fn undo_declared(
    engine: &mut Engine,
    code: &Code,
    place: usize,
    first: usize,
) -> Result<(), AllocError>
    ghost s: { State }
    requires valid { IsValid code.now }
    requires before { BeforeResuming code.now engine.old s }
    requires top { (fs : List Frame) × (reverse engine.old.control.items ≡ FrameOf.Copying place first ∷ fs) }
    requires number { engine.old.given_masters + 1 < 2 ^ 64 }
    ensures ok { OnOk result (Makes code.now engine.old engine.new (Table.act code.now (Giving (Fine OperationFailed)) s.control s.operands s.world 0)) }
    ensures err { OnErr result (GoesOn engine.old engine.new engine.old.mode engine.old.cells.items) }
{
    let object = engine.newest_object();
    let Role::Object { record } = object.role else {
        unreachable!()
    };
    undo_copy(
        engine,
        code,
        Frame::Creating {
            declared: Declared::Object,
            place,
        },
        object.number,
        record,
        first,
    )
}

/// Goes on with the declaration of the newest owned object, which has taken a value, behind its adjustment, which has ended so: the
/// object is a layer of its master, or those of its parts that are adjusted are finalized (RM 7.6, 7.6.1). Unchanged where memory is
/// refused.
pub fn resume_copying(
    engine: &mut Engine,
    code: &Code,
    ended: Ended,
    place: usize,
    first: usize,
) -> Result<(), AllocError>
    ghost s: { State }
    requires valid { IsValid code.now }
    requires before { BeforeResuming code.now engine.old s }
    requires top { (fs : List Frame) × (reverse engine.old.control.items ≡ FrameOf.Copying place first ∷ fs) }
    requires number { engine.old.given_masters + 1 < 2 ^ 64 }
    ensures ok { OnOk result (Makes code.now engine.old engine.new (Table.act code.now (Giving (Shows.tried_of ended)) s.control s.operands s.world 0)) }
    ensures err { OnErr result (GoesOn engine.old engine.new engine.old.mode engine.old.cells.items) }
{
    if let Ended::OperationFailed = ended {
        return undo_declared(engine, code, place, first);
    }
    end_copy(engine, code, ended, place, first);
    Ok(())
}

/// Ends the finalization of the object of this number, of which an Adjust has failed: what is noted of it, from this place on, is
/// dropped, and Program_Error goes on, whether a Finalize has failed or not (RM 7.6.1).
pub fn resume_undoing(engine: &mut Engine, code: &Code, object: u64, first: usize)
    ghost s: { State }
    requires before { BeforeResuming code.now engine.old s }
    requires top { (fs : List Frame) × (reverse engine.old.control.items ≡ FrameOf.Undoing object first ∷ fs) }
    ensures { (ended : Tried Handed) → Makes code.now engine.old engine.new (Table.act code.now (Giving ended) s.control s.operands s.world 0) }
{
    let _ = code;
    let whole = Spot::whole(engine.alloc, object);
    engine.end_whole(&whole);
    let _ = engine.control.take_last();
    engine.noted.truncate(first);
    engine.mode = Mode::Giving(Ended::Raised(PROGRAM_ERROR));
}
