//! Objects are freed (RM 13.11.2): one that is still to be finalized is finalized, what designated it becomes null, it is gone, and its storage
//! is given back.

ghost use Rattle.std.specs.Prelude.{◌≡◌, ◌+◌, ◌-◌, ◌^◌, ◌<◌, ◌≤◌, ◌∷◌, ◌++◌, List, ℕ, IfOk, OnErr, OnOk, Some, drop, length, reverse, slice_get, false, vec_capacity, vec_len};
ghost use Rattle.ctl_tree.specs.declared.event.Cause.TheVariants as CauseOf;
ghost use Rattle.ctl_meaning.specs.Changes.{object_at};
ghost use Rattle.ctl_meaning.specs.Finalization as S;
ghost use Rattle.ctl_objects.specs.Existing.{origin_of};
ghost use Rattle.ctl_storage.specs.Allocated.{place_of};
ghost use Rattle.ctl_code.specs.declared.code.Instr.TheVariants as InstrOf;
ghost use Rattle.ctl_code.specs.Table as Table;
ghost use Rattle.ctl_code.specs.States.{Giving, NullPart, NullVariable, State, whole_spot};
ghost use Rattle.ctl_code.specs.Valid.{IsValid};
ghost use Rattle.ctl_frames.specs.declared.frame.Frame.{Frame};
ghost use Rattle.ctl_frames.specs.declared.frame.Frame.TheVariants as FrameOf;
ghost use Rattle.ctl_frames.specs.declared.frame.Nulled.TheVariants as NulledOf;
ghost use Rattle.ctl_engine.specs.Allocating.{OwnsNone};
ghost use Rattle.ctl_engine.specs.Assigning.{HasRoom};
ghost use Rattle.ctl_engine.specs.Finishing.{AreDoubles};
ghost use Rattle.ctl_places.specs.Freeing as Freeing;
ghost use Rattle.ctl_places.specs.Freeing.{Freed, Frees, Gone, HasReturnRoom, IsEnding, IsFate, IsLetGo, IsReleased, by_component, by_variable, freeing_of, gone_by_part, point_of, storage_at, units_at};
ghost use Rattle.ctl_frames.specs.Masters.{heads_of};
ghost use Rattle.ctl_engine.specs.Moves.{Before, BeforeResuming, GoesOn, Makes, here_of};
ghost use Rattle.ctl_engine.specs.Shows as Shows;
ghost use Rattle.ctl_engine.specs.Shows.{Holds, IsStored, kept};
ghost use Rattle.ctl_frames.specs.Spots.{first_spot};
ghost use Rattle.ctl_frames.specs.Under.{tall};

use crate::finalizing::finalize_whole;
use ctl_allocations::allocating::set_held;
use ctl_allocations::granting::units_for;
use ctl_code::code::Code;
use ctl_engine::engine::Engine;
use ctl_engine::finalizing::{Doubles, Finalization, doubled};
use ctl_engine::freeing::{Component, Ending, Fate, Found, Release};
use ctl_frames::frame::{Ended, Frame, Mode, Nulled, Storage};
use ctl_frames::parts::{offset_of, parts_of};
use ctl_frames::spots::Spot;
use ctl_objects::{Existing, Life, Objects, Origin, Place};
use ctl_places::components::read_at;
use ctl_places::variables::read_variable;
use ctl_program::types::{Ty, Var};
use ctl_steps::freeing::{deallocate_of, is_unfinished, null_variable, return_storage};
use ctl_tree::ending::Stop;
use ctl_tree::event::Cause;
use std::alloc::AllocError;

/// Answers what becomes of an object that exists, by the collection from which it is to be freed (RM 13.11.2).
fn fate_of(code: &Code, set: u64, existing: &Existing) -> Fate
    ensures { result ≡ Freeing.fate_of code.now set existing.now }
{
    match existing.origin {
        Origin::Allocated { collection, .. } if collection == set => {
            fate_of_member(code, existing)
        }
        _ => Fate::Stops(Stop::ForeignFree),
    }
}

/// Answers what becomes of an object that is freed from its collection (RM 13.11.2).
fn fate_of_member(code: &Code, existing: &Existing) -> Fate
    ensures { result ≡ Freeing.fate_of_member code.now existing.now }
{
    if let Life::Finalizing = existing.stage.life {
        return Fate::Stops(Stop::FreeWhileFinalizing);
    }
    match existing.ty {
        Ty::Record(record) if is_unfinished(code, existing, record) => Fate::Finalizes(record),
        _ => Fate::Goes,
    }
}

/// Answers where the storage of an object lies, by where it comes from (RM 13.11).
fn storage_of(origin: Origin) -> Place
    ensures { place_of result ≡ Table.storage_of (origin_of origin) }
{
    match origin {
        Origin::Allocated { place, .. } => place,
        Origin::Declared(_) => Place::Standard,
    }
}

/// Tells whether storage is given back by a Deallocate that the user wrote: that of the pool in which the block lies (RM 13.11).
#[inline(always)]
fn calls_back(code: &Code, stock: &Objects, storage: Place) -> bool
    ensures { result ≡ Freeing.calls_back code.now storage stock.now.objects }
{
    let Place::InBlock(block) = storage else {
        return false;
    };
    match stock.find(block.pool) {
        Some(pool) => deallocate_of(code, pool.ty).is_some(),
        None => false,
    }
}

/// Answers what becomes of the object of this number, by the access type from whose collection it is to be freed (RM 13.11.2), and its
/// storage.
fn fate(engine: &Engine, code: &Code, access: &Var, object: u64) -> Found
    ghost s: { State }
    requires holds { Holds code.now (kept engine.now) s.control s.operands s.world }
    requires level { 1 ≤ access.now.level }
    ensures fate { IsFate code.now access.now object engine.now.owned.items s result.fate }
    ensures storage { IsStored result.storage (storage_at (object_at object s.world)) (units_at code.now (object_at object s.world)) }
{
    match engine.stock.find(object) {
        Some(existing) => Found {
            fate: fate_of(code, set_held(engine, code, access), &existing),
            storage: Storage {
                place: storage_of(existing.origin),
                units: units_for(code, existing.ty),
            },
        },
        None => Found {
            fate: Fate::Stops(Stop::UseAfterFree),
            storage: Storage {
                place: Place::Standard,
                units: 0,
            },
        },
    }
}

/// Begins the finalization of an object that is freed (RM 13.11.2): its frame waits for that, and says what becomes null then. There is
/// room.
fn release(
    engine: &mut Engine,
    code: &Code,
    release: Release,
    nulled: Nulled,
    finalization: Finalization,
    doubles: Doubles,
)
    ghost t: { Freed }
    requires valid { IsValid code.now }
    requires frees { Frees code.now engine.old nulled t }
    requires at { release.place ≡ t.place }
    requires released { IsReleased code.now engine.old release finalization.record_type t.state.world }
    requires place { t.place + 1 < 2 ^ 64 }
    requires base { finalization.base ≡ tall t.state.control (heads_of t.state.world.activations) + length t.operands }
    requires room { HasRoom code.now engine.old finalization.base }
    requires control { vec_len engine.old.control + 4 ≤ vec_capacity engine.old.control }
    requires spots { vec_len engine.old.spots < vec_capacity engine.old.spots }
    requires doubles { AreDoubles doubles (whole_spot release.object) }
    ensures { Makes code.now engine.old engine.new (Table.finalize_object code.now (Table.parts_of code.now finalization.record_type) finalization.cause release.object finalization.record_type (freeing_of code.now release.object t) t.state.world) }
{
    engine.control.push_reserved(Frame::Freeing {
        object: release.object,
        nulled,
        storage: release.storage,
        place: release.place + 1,
    });
    finalize_whole(engine, code, release.object, finalization, doubles);
}

/// Finalizes an object, as one of this record type, that the access value in the variable of this slot designates, before it is freed (RM
/// 13.11.2). Unchanged where memory is refused.
#[inline(never)]
fn release_by_variable(
    engine: &mut Engine,
    code: &Code,
    release: Release,
    record_type: usize,
    out: usize,
    slot: usize,
) -> Result<(), AllocError>
    ghost s: { State }
    requires valid { IsValid code.now }
    requires before { (access : ℕ) × Before code.now engine.old release.place (InstrOf.Free access out slot) s }
    requires released { IsReleased code.now engine.old release record_type s.world }
    requires place { release.place + 1 < 2 ^ 64 }
    requires number { engine.old.given_masters + 1 < 2 ^ 64 }
    ensures ok { OnOk result (Makes code.now engine.old engine.new (Table.finalize_object code.now (Table.parts_of code.now record_type) CauseOf.Free release.object record_type (freeing_of code.now release.object (by_variable out slot release.place s)) s.world)) }
    ensures err { OnErr result (GoesOn engine.old engine.new engine.old.mode engine.old.cells.items) }
{
    let finalization = Finalization {
        cause: Cause::Free,
        record_type,
        base: engine.window() + code.kinds.height_at(release.place + 1, 0),
    };
    let doubles = doubled(engine.alloc, Spot::whole(engine.alloc, release.object))?;
    engine.prepare_finalization(code, finalization.base)?;
    let nulled = Nulled::Variable { out, slot };
    crate::freeing::release(engine, code, release, nulled, finalization, doubles);
    Ok(())
}

/// Frees an object that needs no finalization, which the access value in the variable of this slot designates (RM 13.11.2). Unchanged
/// where memory is refused.
#[inline(always)]
fn free_at_once_by_variable(
    engine: &mut Engine,
    code: &Code,
    release: Release,
    out: usize,
    slot: usize,
) -> Result<(), AllocError>
    ghost s: { State }
    requires valid { IsValid code.now }
    requires before { (access : ℕ) × Before code.now engine.old release.place (InstrOf.Free access out slot) s }
    requires foreign { OwnsNone release.object engine.old.owned.items }
    requires place { release.place + 1 < 2 ^ 64 }
    requires number { engine.old.given_masters + 1 < 2 ^ 64 }
    ensures ok { OnOk result (Makes code.now engine.old engine.new (Table.freed_in code.now (NullVariable out slot) release.object (place_of release.storage.place) release.storage.units false (point_of (by_variable out slot release.place s)) s.control s.world)) }
    ensures err { OnErr result (GoesOn engine.old engine.new engine.old.mode engine.old.cells.items) }
{
    let place = release.place + 1;
    prepare_return(engine, code, release.storage.place, place)?;
    let ending = Ending {
        ended: Ended::Complete,
        storage: release.storage,
        place,
    };
    null_variable(engine, code, release.object, out, slot, ending);
    Ok(())
}

/// Frees the object that the access value in the variable of this slot designates, in the master so many further out (RM 13.11.2); null
/// designates none, and nothing is done. Unchanged where memory is refused.
#[inline(never)]
pub(crate) fn free_variable(
    engine: &mut Engine,
    code: &Code,
    access: usize,
    out: usize,
    slot: usize,
    place: usize,
) -> Result<(), AllocError>
    ghost s: { State }
    requires valid { IsValid code.now }
    requires before { Before code.now engine.old place (InstrOf.Free access out slot) s }
    requires place { place + 1 < 2 ^ 64 }
    requires number { engine.old.given_masters + 1 < 2 ^ 64 }
    ensures ok { OnOk result (Makes code.now engine.old engine.new (Table.by_instr code.now (Some (InstrOf.Free access out slot)) s.operands (here_of place s))) }
    ensures err { OnErr result (GoesOn engine.old engine.new engine.old.mode engine.old.cells.items) }
{
    let object = read_variable(engine, code, out, slot);
    if object == 0 {
        engine.go_on(Mode::At(place + 2));
        return Ok(());
    }
    let found = fate(engine, code, &code.accesses[access].collection, object);
    let release = Release {
        object,
        storage: found.storage,
        place,
    };
    match found.fate {
        Fate::Stops(stop) => {
            engine.go_on(Mode::Stopped(stop));
            Ok(())
        }
        Fate::Goes => free_at_once_by_variable(engine, code, release, out, slot),
        Fate::Finalizes(record_type) => {
            release_by_variable(engine, code, release, record_type, out, slot)
        }
    }
}

/// Answers a component of the newest part, by its first cell and its position.
fn component_of_newest(engine: &Engine, offset: usize, position: usize) -> Result<Spot, AllocError>
    requires { 0 < length engine.now.spots.items }
    ensures { IfOk result (λ spot. (s : S.Spot) × (slice_get engine.now.spots.items (length engine.now.spots.items - 1) ≡ Some s) × (spot ≡ Table.component_of s offset position)) }
{
    let newest = engine.count_spots() - 1;
    let mut spot = engine.spots[newest].copied(engine.alloc)?;
    spot.select(offset, position)?;
    Ok(spot)
}

/// Finalizes an object, as one of this record type, whose number a component of the part has that is the newest operand, before it is
/// freed, by the first cell of the component and its position (RM 13.11.2). Unchanged where memory is refused.
#[inline(never)]
fn release_by_part(
    engine: &mut Engine,
    code: &Code,
    release: Release,
    record_type: usize,
    offset: usize,
    position: usize,
) -> Result<(), AllocError>
    ghost s: { State × S.Spot }
    requires valid { IsValid code.now }
    requires before { (access : ℕ) × (t : ℕ) × Before code.now engine.old release.place (InstrOf.FreePart access t position) s.0 }
    requires released { IsReleased code.now engine.old release record_type s.0.world }
    requires place { release.place + 1 < 2 ^ 64 }
    requires number { engine.old.given_masters + 1 < 2 ^ 64 }
    requires component { s.1 ≡ Table.component_of (first_spot s.0.operands) offset position }
    ensures ok { OnOk result (Makes code.now engine.old engine.new (Table.finalize_object code.now (Table.parts_of code.now record_type) CauseOf.Free release.object record_type (freeing_of code.now release.object (by_component s.1 release.place s.0)) s.0.world)) }
    ensures err { OnErr result (GoesOn engine.old engine.new engine.old.mode engine.old.cells.items) }
{
    let finalization = Finalization {
        cause: Cause::Free,
        record_type,
        base: engine.window() + code.kinds.height_at(release.place + 1, 0),
    };
    let component = component_of_newest(engine, offset, position)?;
    let doubles = doubled(engine.alloc, Spot::whole(engine.alloc, release.object))?;
    engine.prepare_finalization(code, finalization.base)?;
    let newest = engine.count_spots() - 1;
    engine.spots[newest] = component;
    crate::freeing::release(engine, code, release, Nulled::Part, finalization, doubles);
    Ok(())
}

/// Frees an object that needs no finalization, whose number a component of the part has that is the newest operand, by the first cell of
/// the component (RM 13.11.2). Unchanged where memory is refused.
fn free_at_once_by_part(
    engine: &mut Engine,
    code: &Code,
    release: Release,
    offset: usize,
) -> Result<(), AllocError>
    ghost s: { State × S.Spot }
    requires valid { IsValid code.now }
    requires before { (access : ℕ) × (t : ℕ) × (position : ℕ) × Before code.now engine.old release.place (InstrOf.FreePart access t position) s.0 }
    requires foreign { OwnsNone release.object engine.old.owned.items }
    requires place { release.place + 1 < 2 ^ 64 }
    requires number { engine.old.given_masters + 1 < 2 ^ 64 }
    requires component { (s.1.object ≡ (first_spot s.0.operands).object) × (s.1.offset ≡ (first_spot s.0.operands).offset + offset) }
    ensures ok { OnOk result (Makes code.now engine.old engine.new (Table.freed_in code.now (NullPart s.1) release.object (place_of release.storage.place) release.storage.units false (point_of (by_component s.1 release.place s.0)) s.0.control s.0.world)) }
    ensures err { OnErr result (GoesOn engine.old engine.new engine.old.mode engine.old.cells.items) }
{
    let place = release.place + 1;
    prepare_return(engine, code, release.storage.place, place)?;
    let part = engine.spots.take_last();
    let component = Component {
        object: part.object(),
        start: part.offset(),
        offset,
    };
    let ending = Ending {
        ended: Ended::Complete,
        storage: release.storage,
        place,
    };
    null_component(engine, code, release.object, component, ending);
    Ok(())
}

/// Frees an object whose number a component of the part has that is the newest operand, by the first cell of the component and its
/// position (RM 13.11.2); unchanged where memory is refused.
fn free_designated(
    engine: &mut Engine,
    code: &Code,
    access: usize,
    object: u64,
    offset: usize,
    position: usize,
    place: usize,
) -> Result<(), AllocError>
    ghost s: { State × S.Spot }
    requires valid { IsValid code.now }
    requires before { (t : ℕ) × Before code.now engine.old place (InstrOf.FreePart access t position) s.0 }
    requires place { place + 1 < 2 ^ 64 }
    requires number { engine.old.given_masters + 1 < 2 ^ 64 }
    requires component { s.1 ≡ Table.component_of (first_spot s.0.operands) offset position }
    ensures ok { OnOk result (Makes code.now engine.old engine.new (Table.free_object code.now (NullPart s.1) (slice_get code.now.accesses.items access) (object_at object s.0.world) (drop 1 s.0.operands) (here_of place s.0))) }
    ensures err { OnErr result (GoesOn engine.old engine.new engine.old.mode engine.old.cells.items) }
{
    let found = fate(engine, code, &code.accesses[access].collection, object);
    let release = Release {
        object,
        storage: found.storage,
        place,
    };
    match found.fate {
        Fate::Stops(stop) => {
            engine.go_on(Mode::Stopped(stop));
            Ok(())
        }
        Fate::Goes => free_at_once_by_part(engine, code, release, offset),
        Fate::Finalizes(record_type) => {
            release_by_part(engine, code, release, record_type, offset, position)
        }
    }
}

/// Frees the object that the access value in a component of the part designates that is the newest operand, by the record type of the
/// part and the position of the component (RM 13.11.2); null designates none, and the part is dropped. Unchanged where memory is
/// refused.
pub(crate) fn free_part(
    engine: &mut Engine,
    code: &Code,
    access: usize,
    record: usize,
    position: usize,
    place: usize,
) -> Result<(), AllocError>
    ghost s: { State }
    requires valid { IsValid code.now }
    requires before { Before code.now engine.old place (InstrOf.FreePart access «record» position) s }
    requires place { place + 1 < 2 ^ 64 }
    requires number { engine.old.given_masters + 1 < 2 ^ 64 }
    ensures ok { OnOk result (Makes code.now engine.old engine.new (Table.by_instr code.now (Some (InstrOf.FreePart access «record» position)) s.operands (here_of place s))) }
    ensures err { OnErr result (GoesOn engine.old engine.new engine.old.mode engine.old.cells.items) }
{
    let offset = offset_of(code, record, position);
    let newest = engine.count_spots() - 1;
    let spot = &engine.spots[newest];
    let Some(object) = read_at(engine, code, spot.object(), spot.offset(), offset) else {
        engine.go_on(Mode::Stopped(Stop::UseAfterFree));
        return Ok(());
    };
    if object == 0 {
        let _ = engine.spots.take_last();
        engine.mode = Mode::At(place + 2);
        return Ok(());
    }
    free_designated(engine, code, access, object, offset, position, place)
}

/// Makes room for the call of the Deallocate that the user wrote for the pool in which storage lies, if there is one, which goes on at this
/// place (RM 13.11); nothing else changes.
#[inline(always)]
fn prepare_return(
    engine: &mut Engine,
    code: &Code,
    storage: Place,
    place: usize,
) -> Result<(), AllocError>
    requires number { engine.old.given_masters + 1 < 2 ^ 64 }
    ensures ok { OnOk result ((more : List ℕ) × GoesOn engine.old engine.new engine.old.mode (engine.old.cells.items ++ more)) }
    ensures err { OnErr result (GoesOn engine.old engine.new engine.old.mode engine.old.cells.items) }
    ensures room { OnOk result (HasReturnRoom code.now engine.new storage place) }
{
    if !calls_back(code, &engine.stock, storage) {
        return Ok(());
    }
    let height = code.kinds.height_at(place, 0);
    let base = engine.window().checked_add(height).ok_or(AllocError)?;
    engine.prepare(base, code.room, 1)
}

/// Makes the component null by which an object is freed; the object is gone, and its storage is given back. Where the object of the
/// component is gone, the program is erroneous (RM 13.11.2). There is room for the call of a Deallocate.
fn null_component(
    engine: &mut Engine,
    code: &Code,
    object: u64,
    component: Component,
    ending: Ending,
)
    ghost t: { Gone × S.Spot × Gone }
    requires valid { IsValid code.now }
    requires goes { IsLetGo code.now engine.old object ending.place t.0 }
    requires component { (component.object ≡ t.1.object) × (component.start + component.offset ≡ t.1.offset) }
    requires gone { t.2 ≡ gone_by_part object t.1 t.0 }
    requires ends { IsEnding code.now engine.old ending }
    ensures { Makes code.now engine.old engine.new (Table.freed_in code.now (NullPart t.1) object (place_of ending.storage.place) ending.storage.units (Table.says_failed (Shows.tried_of ending.ended)) t.0.point t.0.control t.0.world) }
{
    if !engine.stock.exists(component.object) {
        engine.mode = Mode::Stopped(Stop::UseAfterFree);
        return;
    }
    engine
        .stock
        .write_part(component.object, component.start, component.offset, 0);
    engine.stock.forget(object);
    return_storage(engine, code, ending);
}

/// Ends the freeing of an object by a variable, behind its finalization: the variable becomes null, the object is gone, and its storage
/// is given back (RM 13.11.2). There is room for the call of a Deallocate.
fn end_in_variable(
    engine: &mut Engine,
    code: &Code,
    object: u64,
    out: usize,
    slot: usize,
    ending: Ending,
)
    ghost s: { State }
    requires valid { IsValid code.now }
    requires before { BeforeResuming code.now engine.old s }
    requires top { (fs : List Frame) × (reverse engine.old.control.items ≡ FrameOf.Freeing object (NulledOf.Variable out slot) ending.storage ending.place ∷ fs) }
    requires ends { IsEnding code.now engine.old ending }
    ensures { Makes code.now engine.old engine.new (Table.act code.now (Giving (Shows.tried_of ending.ended)) s.control s.operands s.world 0) }
{
    let _ = engine.control.take_last();
    null_variable(engine, code, object, out, slot, ending);
}

/// Ends the freeing of an object by a component, behind its finalization: the component becomes null, the object is gone, and its storage
/// is given back. Where the object of the component is gone, the program is erroneous (RM 13.11.2). There is room for the call of a
/// Deallocate.
fn end_in_part(engine: &mut Engine, code: &Code, object: u64, ending: Ending)
    ghost s: { State }
    requires valid { IsValid code.now }
    requires before { BeforeResuming code.now engine.old s }
    requires top { (fs : List Frame) × (reverse engine.old.control.items ≡ FrameOf.Freeing object NulledOf.Part ending.storage ending.place ∷ fs) }
    requires ends { IsEnding code.now engine.old ending }
    ensures { Makes code.now engine.old engine.new (Table.act code.now (Giving (Shows.tried_of ending.ended)) s.control s.operands s.world 0) }
{
    let part = engine.drop_frame();
    let component = Component {
        object: part.object(),
        start: part.offset(),
        offset: 0,
    };
    null_component(engine, code, object, component, ending);
}

/// Goes on with the freeing of an object behind its finalization, which has ended so: what designated it becomes null, it is gone, and
/// its storage is given back; where a Finalize failed, Program_Error is raised (RM 13.11.2). Unchanged where memory is refused.
#[inline(always)]
pub(crate) fn resume_freeing(
    engine: &mut Engine,
    code: &Code,
    ended: Ended,
    object: u64,
    nulled: Nulled,
    storage: Storage,
    place: usize,
) -> Result<(), AllocError>
    ghost s: { State }
    requires valid { IsValid code.now }
    requires before { BeforeResuming code.now engine.old s }
    requires top { (fs : List Frame) × (reverse engine.old.control.items ≡ FrameOf.Freeing object nulled storage place ∷ fs) }
    requires number { engine.old.given_masters + 1 < 2 ^ 64 }
    ensures ok { OnOk result (Makes code.now engine.old engine.new (Table.act code.now (Giving (Shows.tried_of ended)) s.control s.operands s.world 0)) }
    ensures err { OnErr result (GoesOn engine.old engine.new engine.old.mode engine.old.cells.items) }
{
    prepare_return(engine, code, storage.place, place)?;
    let ending = Ending {
        ended,
        storage,
        place,
    };
    match nulled {
        Nulled::Variable { out, slot } => {
            end_in_variable(engine, code, object, out, slot, ending);
        }
        Nulled::Part => end_in_part(engine, code, object, ending),
    }
    Ok(())
}
