//! A part of an object is finalized (RM 7.6.1): a controlled one by the body of a user-written Finalize, and then its components.

ghost use Rattle.std.specs.Prelude.{◌≡◌, ℕ, reverse};
ghost use Rattle.ctl_meaning.specs.Changes as Changes;
ghost use Rattle.ctl_code.specs.Table as Table;
ghost use Rattle.ctl_code.specs.Valid.{IsValid};
ghost use Rattle.ctl_engine.specs.Assigning.{Called, IsCaller, is_assigning};
ghost use Rattle.ctl_frames.specs.Owned.{IsObject};
ghost use Rattle.ctl_meaning.specs.World.{Object};
ghost use Rattle.ctl_engine.specs.Finishing.{AreDoubles, BeginsOver, CallsOwn, Finished, Finishes, HasFrameRoom, HasRoomToFinish};
ghost use Rattle.ctl_engine.specs.Moves.{Makes};

use ctl_code::code::{Code, Entry, Parts};
use ctl_engine::engine::Engine;
use ctl_engine::finalizing::{Doubles, Finalization, handed};
use ctl_engine::layers::finalize_of;
use ctl_frames::frame::{Ended, Frame, Mode};
use ctl_frames::parts::parts_of;
use ctl_frames::spots::Spot;
use ctl_lifetimes::filling::all_controlled;
use ctl_tree::ending::Stop;
use ctl_tree::event::{Cause, Event};

/// Lets the components of a part wait that are to be finalized, where a finalization in the part failed or did not; where it has none,
/// the part is finalized (RM 7.6.1). There is room for the frame.
#[inline(always)]
pub fn finalize_components(
    engine: &mut Engine,
    code: &Code,
    cause: Cause,
    record: usize,
    spot: Spot,
    failed: bool,
)
    ghost t: { Finished }
    requires finishes { Finishes code.now engine.old t }
    requires room { HasFrameRoom engine.old }
    requires spot { spot ≡ t.spot }
    ensures { Makes code.now engine.old engine.new (Table.finalize_left cause t.spot (Table.controlled_of code.now «record») failed t.control t.world) }
{
    let left = all_controlled(code, record);
    if left.is_empty() {
        engine.mode = Mode::Giving(handed(failed));
        return;
    }
    engine.control.push_reserved(Frame::FinalizingParts {
        cause,
        record,
        left,
        failed,
    });
    engine.spots.push_reserved(spot);
    engine.mode = Mode::Giving(Ended::Complete);
}

/// Calls the Finalize of a part, which the user wrote for its type with this body, among the masters that the newest of so many
/// sees (RM 7.6.1); there is room.
#[inline(always)]
fn call_finalize(
    engine: &mut Engine,
    code: &Code,
    entry: &Entry,
    finalization: Finalization,
    caller: usize,
    doubles: Doubles,
)
    ghost t: { Finished × Called }
    requires valid { IsValid code.now }
    requires finishes { Finishes code.now engine.old t.0 }
    requires base { BeginsOver finalization.base t.0 }
    requires room { HasRoomToFinish code.now engine.old finalization.base }
    requires doubles { AreDoubles doubles t.0.spot }
    requires calls { (master : ℕ) × CallsOwn code.now engine.old entry.now finalization.cause finalization.record_type master t.0 t.1 × IsCaller (is_assigning (reverse engine.old.control.items)) engine.old.masters.items master caller }
    ensures { Makes code.now engine.old engine.new (Table.finalize_own code.now (Table.operation_of (λ x. x.finalize) code.now finalization.record_type) finalization.cause t.0.spot finalization.record_type (Changes.object_at t.0.spot.object t.0.world) t.0.control t.0.world) }
{
    let Doubles { spot, formal, part } = doubles;
    engine.control.push_reserved(Frame::FinalizingOwn {
        cause: finalization.cause,
        record: finalization.record_type,
    });
    engine.spots.push_reserved(spot);
    let event = Event::Finalize(part, finalization.cause);
    engine.call_among(code, entry, caller, finalization.base, event, formal);
}

/// Finalizes a controlled part: by its own Finalize, where the user wrote one for its type, and then its components (RM 7.6.1). Where its
/// object is not there, the program is erroneous (RM 13.11.2). There is room.
#[inline(always)]
fn finalize_own(engine: &mut Engine, code: &Code, finalization: Finalization, doubles: Doubles)
    ghost t: { Finished }
    requires valid { IsValid code.now }
    requires finishes { Finishes code.now engine.old t }
    requires base { BeginsOver finalization.base t }
    requires room { HasRoomToFinish code.now engine.old finalization.base }
    requires doubles { AreDoubles doubles t.spot }
    ensures { Makes code.now engine.old engine.new (Table.finalize_own code.now (Table.operation_of (λ x. x.finalize) code.now finalization.record_type) finalization.cause t.spot finalization.record_type (Changes.object_at t.spot.object t.world) t.control t.world) }
{
    let Some(master) = engine.master_of(doubles.spot.object()) else {
        engine.mode = Mode::Stopped(Stop::UseAfterFree);
        return;
    };
    let caller = engine.caller(master);
    finalize_among(engine, code, finalization, caller, doubles);
}

/// Finalizes a controlled part, as `finalize_own` does, of an object that is there and whose operations are called among the masters that
/// the newest of so many sees.
#[inline(always)]
pub fn finalize_among(
    engine: &mut Engine,
    code: &Code,
    finalization: Finalization,
    caller: usize,
    doubles: Doubles,
)
    ghost t: { Finished }
    requires valid { IsValid code.now }
    requires finishes { Finishes code.now engine.old t }
    requires base { BeginsOver finalization.base t }
    requires room { HasRoomToFinish code.now engine.old finalization.base }
    requires doubles { AreDoubles doubles t.spot }
    requires there { (master : ℕ) × (o : Object) × IsObject engine.old.owned.items engine.old.stock.objects t.spot.object master o × IsCaller (is_assigning (reverse engine.old.control.items)) engine.old.masters.items master caller }
    ensures { Makes code.now engine.old engine.new (Table.finalize_own code.now (Table.operation_of (λ x. x.finalize) code.now finalization.record_type) finalization.cause t.spot finalization.record_type (Changes.object_at t.spot.object t.world) t.control t.world) }
{
    match finalize_of(code, finalization.record_type) {
        Some(entry) => call_finalize(engine, code, &entry, finalization, caller, doubles),
        None => finalize_components(
            engine,
            code,
            finalization.cause,
            finalization.record_type,
            doubles.spot,
            false,
        ),
    }
}

/// Finalizes a part: first the part itself, if it is controlled, and then its components (RM 7.6.1); there is room.
#[inline(always)]
pub fn finalize_part(engine: &mut Engine, code: &Code, finalization: Finalization, doubles: Doubles)
    ghost t: { Finished }
    requires valid { IsValid code.now }
    requires finishes { Finishes code.now engine.old t }
    requires base { BeginsOver finalization.base t }
    requires room { HasRoomToFinish code.now engine.old finalization.base }
    requires doubles { AreDoubles doubles t.spot }
    ensures { Makes code.now engine.old engine.new (Table.finalize_part code.now (Table.parts_of code.now finalization.record_type) finalization.cause t.spot finalization.record_type t.control t.world) }
{
    match parts_of(code, finalization.record_type) {
        Parts::Controlled => finalize_own(engine, code, finalization, doubles),
        Parts::Within => finalize_components(
            engine,
            code,
            finalization.cause,
            finalization.record_type,
            doubles.spot,
            false,
        ),
        Parts::Plain => engine.mode = Mode::Giving(Ended::Complete),
    }
}
