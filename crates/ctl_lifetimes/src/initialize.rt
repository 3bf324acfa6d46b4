//! Parts whose components have all begun are initialized, and their creation is complete (RM 7.6).

ghost use Rattle.std.specs.Prelude.{◌≡◌, ◌+◌, ◌^◌, ◌<◌, IfNone, IfSome, None, OnErr, OnOk, vec_len};
ghost use Rattle.ctl_meaning.specs.Changes.{object_at};
ghost use Rattle.ctl_code.specs.Table as Table;
ghost use Rattle.ctl_code.specs.Valid.{IsValid};
ghost use Rattle.ctl_meaning.specs.World.{Object};
ghost use Rattle.ctl_engine.specs.Initializing.{Grown, Grows, IsInitializeOf, ended_part, front_of};
ghost use Rattle.ctl_engine.specs.Moves.{GoesOn, Makes};
ghost use Rattle.ctl_frames.specs.Owned.{IsObject};
ghost use Rattle.ctl_engine.specs.Shows as Shows;

use crate::filling::Creation;
use ctl_code::code::{Code, Entry, Parts};
use ctl_engine::calls::replace_top;
use ctl_engine::engine::Engine;
use ctl_engine::showing::show_life;
use ctl_frames::frame::{Ended, Frame, Mode};
use ctl_frames::parts::parts_of;
use ctl_tree::ending::Stop;
use ctl_tree::event::Event;
use room::reserve;
use std::alloc::AllocError;

/// Answers the body that the user wrote for the Initialize of a record type, if there is one (RM 7.6).
fn initialize_of(code: &Code, record: usize) -> Option<Entry>
    requires valid { IsValid code.now }
    ensures none { IfNone result (Table.operation_of (λ x. x.initialize) code.now «record» ≡ None) }
    ensures some { IfSome result (λ entry. IsInitializeOf code.now «record» entry) }
{
    let initialize = code.records.as_slice().get(record)?.initialize?;
    Some(code.entries[initialize])
}

/// Answers the number of the body that the user wrote for the Finalize of a record type, if there is one (RM 7.6).
pub fn finalize_in(code: &Code, record: usize) -> Option<usize>
    ensures { result ≡ Table.operation_of (λ x. x.finalize) code.now «record» }
{
    code.records.as_slice().get(record)?.finalize
}

/// Takes the frame of the newest part off, with the part, and goes on so.
#[inline(always)]
fn end_part(engine: &mut Engine, mode: Mode)
    requires control { 0 < vec_len engine.old.control }
    requires spots { 0 < vec_len engine.old.spots }
    ensures mode { engine.new.mode ≡ mode }
    ensures kept { Shows.kept engine.new ≡ ended_part (front_of engine.old.spots.items) (Shows.kept engine.old) }
    ensures events { engine.new.events ≡ engine.old.events }
    ensures picks { engine.new.picks ≡ engine.old.picks }
{
    let _ = engine.control.take_last();
    let _ = engine.spots.take_last();
    engine.mode = mode;
}

/// Notes that the creation of the newest part is complete, which is shown where the user wrote a Finalize for its type (RM 7.6);
/// unchanged where memory is refused.
#[inline(always)]
pub fn complete(engine: &mut Engine, code: &Code, creation: Creation) -> Result<(), AllocError>
    ghost t: { Grown }
    requires grows { Grows code.now engine.old creation.record_type creation.owner t }
    ensures ok { OnOk result (Makes code.now engine.old engine.new (Table.completed code.now t.new t.control t.world)) }
    ensures err { OnErr result (GoesOn engine.old engine.new engine.old.mode engine.old.cells.items) }
{
    let newest = engine.count_spots() - 1;
    let part = engine.spots[newest].part(engine.alloc)?;
    reserve(&mut engine.events, 1)?;
    let finalize = finalize_in(code, creation.record_type);
    show_life(&mut engine.events, part, creation.owner, finalize);
    end_part(engine, Mode::Giving(Ended::Complete));
    Ok(())
}

/// Calls the Initialize of the newest part, whose object is declared in this master, by the body that the user wrote for its type (RM 7.6);
/// unchanged where memory is refused.
fn call_initialize(
    engine: &mut Engine,
    code: &Code,
    entry: &Entry,
    master: u64,
    creation: Creation,
) -> Result<(), AllocError>
    ghost t: { Grown × Object }
    requires valid { IsValid code.now }
    requires grows { Grows code.now engine.old creation.record_type creation.owner t.0 }
    requires part { IsObject engine.old.owned.items engine.old.stock.objects t.0.new.spot.object master t.1 }
    requires body { IsInitializeOf code.now creation.record_type entry.now }
    requires number { engine.old.given_masters + 1 < 2 ^ 64 }
    ensures ok { OnOk result (Makes code.now engine.old engine.new (Table.initialize_by code.now (Table.operation_of (λ x. x.initialize) code.now creation.record_type) t.0.new (object_at t.0.new.spot.object t.0.world) t.0.control t.0.world)) }
    ensures err { OnErr result (GoesOn engine.old engine.new engine.old.mode engine.old.cells.items) }
{
    let newest = engine.count_spots() - 1;
    let target = &engine.spots[newest];
    let spot = target.copied(engine.alloc)?;
    let part = target.part(engine.alloc)?;
    let base = engine.next_window(code);
    engine.prepare(base, code.room, 1)?;
    replace_top(
        &mut engine.control,
        Frame::Initializing {
            record: creation.record_type,
            owner: creation.owner,
        },
    );
    engine.call_operation(code, entry, master, base, Event::Initialize(part), spot);
    Ok(())
}

/// Goes on with the newest part, which is controlled: its Initialize is called, or its creation is complete where the user wrote none
/// for its type (RM 7.6). Where its object is not there, the program is erroneous (RM 13.11.2). Unchanged where memory is refused.
fn initialize_controlled(
    engine: &mut Engine,
    code: &Code,
    creation: Creation,
) -> Result<(), AllocError>
    ghost t: { Grown }
    requires valid { IsValid code.now }
    requires grows { Grows code.now engine.old creation.record_type creation.owner t }
    requires number { engine.old.given_masters + 1 < 2 ^ 64 }
    ensures ok { OnOk result (Makes code.now engine.old engine.new (Table.initialize_by code.now (Table.operation_of (λ x. x.initialize) code.now creation.record_type) t.new (object_at t.new.spot.object t.world) t.control t.world)) }
    ensures err { OnErr result (GoesOn engine.old engine.new engine.old.mode engine.old.cells.items) }
{
    let newest = engine.count_spots() - 1;
    let spot = &engine.spots[newest];
    let Some(master) = engine.master_of(spot.object()) else {
        end_part(engine, Mode::Stopped(Stop::UseAfterFree));
        return Ok(());
    };
    match initialize_of(code, creation.record_type) {
        Some(entry) => call_initialize(engine, code, &entry, master, creation),
        None => complete(engine, code, creation),
    }
}

/// Goes on with the newest part, of which no component is left that is to begin: it is initialized if it is controlled (RM 7.6);
/// unchanged where memory is refused.
#[inline(always)]
pub fn initialize(engine: &mut Engine, code: &Code, creation: Creation) -> Result<(), AllocError>
    ghost t: { Grown }
    requires valid { IsValid code.now }
    requires grows { Grows code.now engine.old creation.record_type creation.owner t }
    requires number { engine.old.given_masters + 1 < 2 ^ 64 }
    ensures ok { OnOk result (Makes code.now engine.old engine.new (Table.initialize_own code.now (Table.parts_of code.now t.new.type) t.new t.control t.world)) }
    ensures err { OnErr result (GoesOn engine.old engine.new engine.old.mode engine.old.cells.items) }
{
    match parts_of(code, creation.record_type) {
        Parts::Controlled => initialize_controlled(engine, code, creation),
        _ => {
            end_part(engine, Mode::Giving(Ended::Complete));
            Ok(())
        }
    }
}
