//! Allocators (RM 4.8): an object whose parts are created joins its collection, and is the value of the allocator.

ghost use Rattle.std.specs.Prelude.{◌≡◌, ◌+◌, ◌^◌, ◌<◌, ◌≤◌, ◌∷◌, ℕ, IfErr, IfOk, IsFalse, IsTrue, List, OnErr, OnOk, Option, Some, length, not, reverse, slice_get, vec_capacity, vec_len, ◌&&◌};
ghost use Rattle.std.specs.Option.{option_map};
ghost use Rattle.ctl_meaning.specs.Activations.{master_of};
ghost use Rattle.ctl_meaning.specs.Allocation.{set_in};
ghost use Rattle.ctl_meaning.specs.Changes.{slot_at};
ghost use Rattle.ctl_meaning.specs.Objects.{is_untouched, object_in};
ghost use Rattle.ctl_meaning.specs.World.{Object, World};
ghost use Rattle.ctl_storage.specs.Stages.{state_of};
ghost use Rattle.ctl_program.specs.declared.types.Ty.{Ty};
ghost use Rattle.ctl_program.specs.declared.types.Var.{Var};
ghost use Rattle.ctl_code.specs.declared.code.AccessHome.{AccessHome};
ghost use Rattle.ctl_code.specs.declared.code.Instr.TheVariants as InstrOf;
ghost use Rattle.ctl_code.specs.Table as Table;
ghost use Rattle.ctl_code.specs.Table.{Grant};
ghost use Rattle.ctl_code.specs.States.{ByAllocator, Giving, State};
ghost use Rattle.ctl_code.specs.declared.kinds.Kind.{Kind};
ghost use Rattle.ctl_code.specs.Valid.{HaveNumbers, IsValid, Leads};
ghost use Rattle.ctl_engine.specs.Assigning.{HasRoom};
ghost use Rattle.ctl_engine.specs.Allocating.{MayJoin};
ghost use Rattle.ctl_engine.specs.Copying.{IsMember, Refuses, Takes, point_at};
ghost use Rattle.ctl_frames.specs.declared.frame.Frame.{Frame};
ghost use Rattle.ctl_frames.specs.declared.frame.Frame.TheVariants as FrameOf;
ghost use Rattle.ctl_places.specs.Gathering.{Member, with_set};
ghost use Rattle.ctl_places.specs.Granting.{IsAdded, PlacesThere, storage_seen, with_numbers};
ghost use Rattle.ctl_engine.specs.Moves.{Before, BeforeResuming, GoesOn, Inside, Makes, here_of};
ghost use Rattle.ctl_places.specs.StorageCalling.{AsksAllocate};
ghost use Rattle.ctl_engine.specs.Shows as Shows;
ghost use Rattle.ctl_frames.specs.Masters.{first_display, heads_of};
ghost use Rattle.ctl_frames.specs.Owned.{collection_of};
ghost use Rattle.ctl_engine.specs.Shows.{Holds, kept};

use crate::granting::{add_at_address, add_member, grantor, units_for};
use crate::made_at_once::type_begun;
use ctl_code::code::{Code, Way};
use ctl_engine::engine::Engine;
use ctl_engine::holders::{find_set, held_set};
use ctl_frames::frame::{After, Ended, Frame, Master, Mode, Owned, Role};
use ctl_frames::parts::has_part_in;
use ctl_frames::spots::Spot;
use ctl_lifetimes::filling::begin_part;
use ctl_objects::{Life, Origin, Placing, Spot as BlockSpot, Stage};
use ctl_places::components::own_end;
use ctl_places::pool_blocks::{Grantor, is_open};
use ctl_places::storage_calls::{StorageActuals, call_storage};
use ctl_program::library::{CONSTRAINT_ERROR, PROGRAM_ERROR};
use ctl_program::limits::STORAGE_COUNT_LAST;
use ctl_program::types::{Ty, Var};
use ctl_tree::ending::Stop;
use ctl_tree::event::{Event, Owner};
use std::alloc::AllocError;

/// Tells whether an object at this stage is a new one: its finalization has not begun, and it has not joined its collection (RM 4.8).
fn is_new(stage: Stage) -> bool
    ensures { result ≡ (is_untouched (state_of stage.life) && not stage.has_joined) }
{
    match stage.life {
        Life::Untouched => !stage.has_joined,
        Life::Finalizing | Life::Finalized => false,
    }
}

/// Tells whether an object with a controlled part is allocated for a collection no more: an object of this type has one, and the finalization
/// of the collection has started (RM 4.8).
fn is_refused(code: &Code, of: Ty, set: &Owned) -> bool
    ensures { result ≡ Table.is_refused code.now of (collection_of set.now) }
{
    match set.role {
        Role::Collection { started: true, .. } => has_part_in(code, of),
        _ => false,
    }
}

/// Adds the next collection, of the newest master, in its slot, for which there is room, and clears the cell of the slot; where the
/// count is not 0, it is a layer, with so many up to it (RM 3.10, 7.6.1).
#[inline(always)]
fn add_set(engine: &mut Engine, newest: Master, slot: usize, count: usize)
    requires room { vec_len engine.old.owned < vec_capacity engine.old.owned }
    requires number { engine.old.numbered.collections + 1 < 2 ^ 64 }
    requires cell { slot < newest.slots → newest.base + slot < length engine.old.cells.items }
    ensures kept { kept engine.new ≡ with_set newest slot count (kept engine.old) }
    ensures events { engine.new.events ≡ engine.old.events }
    ensures picks { engine.new.picks ≡ engine.old.picks }
{
    let number = engine.numbered.collections + 1;
    engine.numbered.collections = number;
    engine.owned.push_reserved(Owned {
        number,
        slot,
        master: newest.number,
        is_layer: count > 0,
        collections: number,
        role: Role::Collection {
            started: false,
            count,
        },
    });
    if slot < newest.slots {
        engine.cells[newest.base + slot] = 0;
    }
}

/// Makes the collection of an access type in the newest master; the newest collections, so many, become a layer of it, if any (RM 7.6.1,
/// 13.14). Unchanged where memory is refused.
pub fn gather(
    engine: &mut Engine,
    code: &Code,
    access: usize,
    count: usize,
    place: usize,
) -> Result<(), AllocError>
    ghost s: { State }
    requires valid { IsValid code.now }
    requires before { Before code.now engine.old place (InstrOf.Gather access count) s }
    requires place { place + 1 < 2 ^ 64 }
    requires collections { engine.old.numbered.collections + 1 < 2 ^ 64 }
    ensures ok { OnOk result (Makes code.now engine.old engine.new (Table.by_instr code.now (Some (InstrOf.Gather access count)) s.operands (here_of place s))) }
    ensures err { OnErr result (GoesOn engine.old engine.new engine.old.mode engine.old.cells.items) }
{
    let newest = engine.newest();
    let slot = code.accesses[access].collection.slot;
    engine.owned.reserve(1)?;
    add_set(engine, newest, slot, count);
    engine.mode = Mode::At(place + 1);
    Ok(())
}

/// Answers the number of the collection that the slot of an access type holds where it is seen (RM 3.10, 8.3); 0 where it holds none.
#[inline(always)]
pub fn set_held(engine: &Engine, code: &Code, access: &Var) -> u64
    ghost s: { State }
    requires holds { Holds code.now (kept engine.now) s.control s.operands s.world }
    requires level { 1 ≤ access.now.level }
    ensures { result ≡ set_in (slot_at (master_of (first_display (heads_of s.world.activations)) access.now) access.now.slot s.world).content }
{
    let _ = code;
    let count = engine.around(access.level);
    if engine.depth_at(count) < access.level {
        return 0;
    }
    let place = count - 1;
    let master = engine.masters[place];
    if access.slot >= master.slots {
        return 0;
    }
    held_set(
        engine.owned.as_slice(),
        master.owned,
        own_end(engine, place),
        access.slot,
    )
}

/// Finds the collection of an access type where that is seen (RM 3.10, 8.3), if it stands.
#[inline(always)]
fn set_seen(engine: &Engine, code: &Code, access: &Var) -> Option<Owned>
    ghost s: { State }
    requires holds { Holds code.now (kept engine.now) s.control s.operands s.world }
    requires level { 1 ≤ access.now.level }
    ensures { (pool : Option Var) → option_map collection_of result ≡ Table.set_seen (Some (record { collection = access.now; pool = pool })) (first_display (heads_of s.world.activations)) s.world }
{
    find_set(engine.owned.as_slice(), set_held(engine, code, access))
}

/// Finds the collection of an access type where that is seen, for which an object of a type is allocated, and answers its number; else
/// what comes next: where the finalization of the collection has started, an object with a controlled part is not allocated, and
/// Program_Error is raised (RM 4.8); where the collection is gone, the program is erroneous (RM 13.11.2).
#[inline(always)]
pub fn set_for(engine: &Engine, code: &Code, access: usize, of: Ty) -> Result<u64, Mode>
    ghost s: { State }
    requires holds { Holds code.now (kept engine.now) s.control s.operands s.world }
    requires access { (a : AccessHome) × (slice_get code.now.accesses.items access ≡ Some a) × (1 ≤ a.collection.level) }
    ensures ok { IfOk result (Takes code.now of (Table.set_seen (slice_get code.now.accesses.items access) (first_display (heads_of s.world.activations)) s.world)) }
    ensures err { IfErr result (Refuses code.now of (Table.set_seen (slice_get code.now.accesses.items access) (first_display (heads_of s.world.activations)) s.world)) }
{
    let Some(set) = set_seen(engine, code, &code.accesses[access].collection) else {
        return Err(Mode::Stopped(Stop::UseAfterFree));
    };
    if is_refused(code, of, &set) {
        return Err(Mode::Transfers(Way::Raise(PROGRAM_ERROR)));
    }
    Ok(set.number)
}

/// Lets the object of a type that was allocated last, for the collection of this number, begin, for which there is room: its components
/// are to begin (RM 4.8, 7.6). Its allocator goes on at this place. Where nothing is executed for its creation, it joins the collection at
/// once (RM 4.8).
#[inline(always)]
fn begin_member(engine: &mut Engine, code: &Code, set: u64, of: Ty, place: usize)
    ghost t: { Member × World }
    requires valid { IsValid code.now }
    requires added { IsAdded code.now engine.old set of place t.0 }
    requires world { t.1 ≡ Table.with_member code.now set of t.0.place t.0.granted }
    requires control { vec_len engine.old.control + 2 ≤ vec_capacity engine.old.control }
    requires spots { vec_len engine.old.spots < vec_capacity engine.old.spots }
    ensures makes { Makes code.now engine.old engine.new (Table.member_begins code.now of set t.0.place t.0.point t.0.control t.0.granted) }
{
    let object = engine.numbered.objects;
    let Some(record) = type_begun(code, of) else {
        return end_allocation(engine, code, Ended::Complete, object, place);
    };
    engine
        .control
        .push_reserved(Frame::Allocating { object, place });
    let whole = Spot::whole(engine.alloc, object);
    begin_part(engine, code, whole, record, Owner::Collection(set));
}

/// Puts the numbers of a collection and of a pool into two cells, the lower one first.
fn put_numbers(engine: &mut Engine, cell: usize, set: u64, pool: u64)
    requires { cell + 1 < length engine.old.cells.items }
    ensures goes { GoesOn engine.old engine.new engine.old.mode (with_numbers cell set pool engine.old.cells.items) }
    ensures given { engine.new.given_masters ≡ engine.old.given_masters }
    ensures masters { engine.new.masters ≡ engine.old.masters }
    ensures control { engine.new.control ≡ engine.old.control }
    ensures events { engine.new.events ≡ engine.old.events }
    ensures formals { engine.new.formals ≡ engine.old.formals }
{
    engine.cells[cell] = set;
    engine.cells[cell + 1] = pool;
}

/// Calls the Allocate that the user wrote for the type of the pool of this number, for an object of a type (RM 13.11): it leads to
/// the next instruction, over the numbers of the collection and of the pool, which stand from this cell on; there is room for it. A size
/// beyond Storage_Count'Last is Constraint_Error in place of the call.
pub fn enter_allocate(
    engine: &mut Engine,
    code: &Code,
    set: u64,
    of: Ty,
    pool: u64,
    allocate: usize,
    place: usize,
    first: usize,
)
    ghost s: { State × Object × ℕ }
    requires valid { IsValid code.now }
    requires asks { AsksAllocate code.now engine.old place first s.0 }
    requires set { s.2 ≡ set }
    requires pool { object_in pool engine.old.stock.objects ≡ Some s.1 }
    requires operation { Table.operation_for (λ x. x.allocate) code.now s.1.ty ≡ Some allocate }
    requires room { HasRoom code.now engine.old (first + 2) }
    requires place { place + 1 < 2 ^ 64 }
    ensures { Makes code.now engine.old engine.new (Table.call_allocate code.now (Table.units_for code.now of) set s.1 allocate s.0.operands (here_of place s.0)) }
{
    let units = units_for(code, of) as u64;
    if units > STORAGE_COUNT_LAST {
        engine.go_on(Mode::Transfers(Way::Raise(CONSTRAINT_ERROR)));
        return;
    }
    let Some(master) = engine.master_of(pool) else {
        engine.go_on(Mode::Stopped(Stop::UseAfterFree));
        return;
    };
    put_numbers(engine, first, set, pool);
    let actuals = StorageActuals {
        pool,
        address: 0,
        units,
    };
    let after = After::Procedure {
        place: place + 1,
        copies: 2,
    };
    let event = Event::Allocate(pool, units);
    call_storage(
        engine,
        code,
        &code.entries[allocate],
        master,
        first + 2,
        event,
        actuals,
        after,
    );
}

/// Calls the Allocate that the user wrote for the type of the pool of this number, for an object of a type without a value, as
/// `enter_allocate` does (RM 13.11). Unchanged where memory is refused.
fn call_allocate(
    engine: &mut Engine,
    code: &Code,
    set: u64,
    of: Ty,
    pool: u64,
    allocate: usize,
    place: usize,
) -> Result<(), AllocError>
    ghost s: { State × Object × ℕ }
    requires valid { IsValid code.now }
    requires before { (access : ℕ) × (ty : Ty) × (at : ℕ) × Before code.now engine.old place (InstrOf.New access of ty at) s.0 }
    requires set { s.2 ≡ set }
    requires pool { object_in pool engine.old.stock.objects ≡ Some s.1 }
    requires operation { Table.operation_for (λ x. x.allocate) code.now s.1.ty ≡ Some allocate }
    requires place { place + 1 < 2 ^ 64 }
    requires masters { engine.old.given_masters + 1 < 2 ^ 64 }
    ensures ok { OnOk result (Makes code.now engine.old engine.new (Table.call_allocate code.now (Table.units_for code.now of) set s.1 allocate s.0.operands (here_of place s.0))) }
    ensures err { OnErr result (GoesOn engine.old engine.new engine.old.mode engine.old.cells.items) }
{
    let first = engine.window() + code.kinds.height_at(place, 0);
    let base = first + 2;
    engine.prepare(base, code.room, 1)?;
    enter_allocate(engine, code, set, of, pool, allocate, place, first);
    Ok(())
}

/// Allocates an object of a type for the collection of this number, with storage of the pool of an access type (RM 4.8, 13.11): it is
/// created, and its components are to begin (RM 7.6); or the Allocate is called that the user wrote for the type of the pool. Where
/// there is no storage, Storage_Error is raised, or the program is erroneous (RM 13.11.2). Unchanged where memory is refused.
#[inline(always)]
fn create_member(
    engine: &mut Engine,
    code: &Code,
    access: usize,
    set: u64,
    of: Ty,
    place: usize,
) -> Result<(), AllocError>
    ghost s: { State × (ℕ → Grant) }
    requires valid { IsValid code.now }
    requires before { (ty : Ty) × (at : ℕ) × Before code.now engine.old place (InstrOf.New access of ty at) s.0 }
    requires storage { s.1 ≡ storage_seen code.now access s.0 }
    requires place { place + 1 + 1 < 2 ^ 64 }
    requires objects { engine.old.numbered.objects + 1 < 2 ^ 64 }
    requires masters { engine.old.given_masters + 1 < 2 ^ 64 }
    ensures ok { OnOk result (Makes code.now engine.old engine.new (Table.new_at code.now of set (s.1 (Table.units_for code.now of)) s.0.operands (here_of place s.0))) }
    ensures err { OnErr result (GoesOn engine.old engine.new engine.old.mode engine.old.cells.items) }
{
    let grantor = grantor(engine, code, access);
    if let Grantor::User { pool, allocate } = grantor {
        return call_allocate(engine, code, set, of, pool, allocate, place);
    }
    if let Some(refused) = add_member(engine, code, grantor, set, of)? {
        engine.go_on(refused);
        return Ok(());
    }
    begin_member(engine, code, set, of, place + 2);
    Ok(())
}

/// Allocates an object of a type without a value for the collection of an access type (RM 4.8): it is created, and its components
/// are to begin (RM 7.6); or the Allocate is called that the user wrote for the type of its storage pool (RM 13.11). Where the
/// finalization of the collection has started, an object with a controlled part is not: Program_Error is raised; and Storage_Error where
/// the storage pool of the access type is exhausted (RM 13.11). Where the collection or the pool is gone, the program is erroneous
/// (RM 13.11.2). Unchanged where memory is refused.
#[inline(never)]
pub fn allocate(
    engine: &mut Engine,
    code: &Code,
    access: usize,
    of: Ty,
    place: usize,
) -> Result<(), AllocError>
    ghost s: { State × Ty × ℕ }
    requires valid { IsValid code.now }
    requires before { Before code.now engine.old place (InstrOf.New access of s.1 s.2) s.0 }
    requires place { place + 1 + 1 < 2 ^ 64 }
    requires objects { engine.old.numbered.objects + 1 < 2 ^ 64 }
    requires masters { engine.old.given_masters + 1 < 2 ^ 64 }
    ensures ok { OnOk result (Makes code.now engine.old engine.new (Table.by_instr code.now (Some (InstrOf.New access of s.1 s.2)) s.0.operands (here_of place s.0))) }
    ensures err { OnErr result (GoesOn engine.old engine.new engine.old.mode engine.old.cells.items) }
{
    match set_for(engine, code, access, of) {
        Ok(set) => create_member(engine, code, access, set, of, place),
        Err(refused) => {
            engine.go_on(refused);
            Ok(())
        }
    }
}

/// Allocates an object of a type for the collection whose number stands there, at the address of a pool that an Allocate gave, if a
/// block of the pool is out there that holds no object and is large enough (RM 13.11), and reserves room for two frames that wait for it
/// and for the part that it is. Answers the number of the collection, or what comes next: else the program is erroneous (RM 13.11.2).
/// Unchanged then, and where memory is refused.
pub fn place_member(
    engine: &mut Engine,
    code: &Code,
    of: Ty,
    place: usize,
) -> Result<Result<u64, Mode>, AllocError>
    ghost s: { State }
    requires valid { IsValid code.now }
    requires numbers { (stack : List Kind) × Leads code.now place stack × HaveNumbers 4 stack × Inside code.now (kept engine.old) stack s.control s.operands s.world }
    requires objects { engine.old.numbered.objects + 1 < 2 ^ 64 }
    ensures ok { IfOk result (PlacesThere code.now engine.old engine.new of s) }
    ensures err { OnErr result (GoesOn engine.old engine.new engine.old.mode engine.old.cells.items) }
    ensures control { IfOk result (λ answer. OnOk answer (vec_len engine.new.control + 2 ≤ vec_capacity engine.new.control)) }
    ensures spots { IfOk result (λ answer. OnOk answer (vec_len engine.new.spots < vec_capacity engine.new.spots)) }
    ensures events { engine.new.events ≡ engine.old.events }
    ensures picks { engine.new.picks ≡ engine.old.picks }
{
    let first = engine.window() + code.kinds.height_at(place, 4);
    let set = engine.cells[first];
    let pool = engine.cells[first + 1];
    let address = engine.cells[first + 3];
    if !is_open(&engine.stock, pool) {
        return Ok(Err(Mode::Stopped(Stop::UseAfterFree)));
    }
    let block = BlockSpot { pool, address };
    match add_at_address(engine, code, set, of, block)? {
        Placing::Placed => Ok(Ok(set)),
        Placing::Refused => Ok(Err(Mode::Stopped(Stop::BadAddress))),
    }
}

/// Allocates an object of a type without a value at the address of a pool that an Allocate gave (RM 13.11); where no object may be
/// there, the program is erroneous (RM 13.11.2). Unchanged where memory is refused.
pub fn allocate_at_address(
    engine: &mut Engine,
    code: &Code,
    of: Ty,
    place: usize,
) -> Result<(), AllocError>
    ghost s: { State × Ty × ℕ }
    requires valid { IsValid code.now }
    requires before { Before code.now engine.old place (InstrOf.NewIn of s.1 s.2) s.0 }
    requires place { place + 1 < 2 ^ 64 }
    requires objects { engine.old.numbered.objects + 1 < 2 ^ 64 }
    ensures ok { OnOk result (Makes code.now engine.old engine.new (Table.by_instr code.now (Some (InstrOf.NewIn of s.1 s.2)) s.0.operands (here_of place s.0))) }
    ensures err { OnErr result (GoesOn engine.old engine.new engine.old.mode engine.old.cells.items) }
{
    match place_member(engine, code, of, place)? {
        Ok(set) => begin_member(engine, code, set, of, place + 1),
        Err(refused) => engine.go_on(refused),
    }
    Ok(())
}

/// Tells whether the object of this number may join its collection: it exists and is a new one, and the collection still stands
/// (RM 4.8).
#[inline(always)]
fn may_join(engine: &Engine, code: &Code, object: u64) -> bool
    ghost s: { State }
    requires { Holds code.now (kept engine.now) s.control s.operands s.world }
    ensures may { IsTrue result → MayJoin object s.world }
    ensures not { IsFalse result → MayJoin object s.world → ⊥ }
{
    let _ = code;
    let Some(existing) = engine.stock.find(object) else {
        return false;
    };
    match existing.origin {
        Origin::Declared(_) => false,
        Origin::Allocated { collection, .. } => {
            is_new(existing.stage) && find_set(engine.owned.as_slice(), collection).is_some()
        }
    }
}

/// Goes on at this place behind the creation of the allocated object of this number, which has ended so: the object joins its collection
/// and is the newest operand, or it is gone and the exception is raised (RM 4.8). Where it has ceased to be a new one, the program is
/// erroneous (RM 13.11.2).
#[inline(always)]
pub fn end_allocation(engine: &mut Engine, code: &Code, ended: Ended, object: u64, place: usize)
    ghost s: { State }
    requires valid { IsValid code.now }
    requires ends { IsMember code.now engine.old object place s }
    ensures { Makes code.now engine.old engine.new (Table.by_creating (Shows.tried_of ended) ByAllocator object (point_at place s) s.control s.world) }
{
    if let Ended::Raised(exception) = ended {
        engine.stock.forget(object);
        engine.mode = Mode::Transfers(Way::Raise(exception));
        return;
    }
    if !may_join(engine, code, object) {
        engine.mode = Mode::Stopped(Stop::UseAfterFree);
        return;
    }
    engine.stock.join(object);
    let cell = engine.window() + code.kinds.height_at(place, 1);
    engine.cells[cell] = object;
    engine.mode = Mode::At(place);
}

/// Goes on with the allocator of the object of this number behind the creation of its parts, which has ended so: the object joins its
/// collection and is the newest operand, or it is gone and the exception is raised (RM 4.8).
#[inline(always)]
pub fn resume_allocating(engine: &mut Engine, code: &Code, ended: Ended, object: u64, place: usize)
    ghost s: { State }
    requires valid { IsValid code.now }
    requires before { BeforeResuming code.now engine.old s }
    requires top { (fs : List Frame) × (reverse engine.old.control.items ≡ FrameOf.Allocating object place ∷ fs) }
    ensures { Makes code.now engine.old engine.new (Table.act code.now (Giving (Shows.tried_of ended)) s.control s.operands s.world 0) }
{
    let _ = engine.control.take_last();
    end_allocation(engine, code, ended, object, place);
}
