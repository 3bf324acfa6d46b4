//! Storage of allocators (RM 13.11): an object lies in the standard pool, or in a block of the pool of its access type, which the variable
//! of the pool holds where that is seen.

ghost use Rattle.std.specs.Prelude.{◌≡◌, ◌+◌, ◌^◌, ◌<◌, ◌≤◌, IfOk, OnErr, OnOk, Some, is_some, slice_get, true, vec_capacity, vec_len, ℕ};
ghost use Rattle.std.specs.Option.{option_map};
ghost use Rattle.ctl_meaning.specs.Activations.{master_of};
ghost use Rattle.ctl_meaning.specs.Changes.{object_at, slot_at};
ghost use Rattle.ctl_meaning.specs.Objects.{object_in};
ghost use Rattle.ctl_meaning.specs.World as W;
ghost use Rattle.ctl_storage.specs.Calls.{IsOpen};
ghost use Rattle.ctl_objects.specs.Stock.{storage_of};
ghost use Rattle.ctl_code.specs.declared.code.AccessHome.{AccessHome};
ghost use Rattle.ctl_code.specs.States.{State, object_of};
ghost use Rattle.ctl_code.specs.Table as Table;
ghost use Rattle.ctl_code.specs.Valid.{IsValid};
ghost use Rattle.ctl_places.specs.Granting.{Adds, Grants, Places, Serves, pool_grants, storage_seen};
ghost use Rattle.ctl_frames.specs.Masters.{first_display, heads_of};
ghost use Rattle.ctl_engine.specs.Moves.{GoesOn};
ghost use Rattle.ctl_places.specs.PoolBlocks.{is_open_at};
ghost use Rattle.ctl_engine.specs.Shows.{Holds, kept};

use ctl_code::code::{Code, Way};
use ctl_engine::engine::Engine;
use ctl_frames::frame::Mode;
use ctl_frames::parts::cells_for;
use ctl_objects::{Placing, Spot as BlockSpot};
use ctl_places::locating::number_of;
use ctl_places::pool_blocks::{Grantor, is_open};
use ctl_places::seen::holder_seen;
use ctl_program::library::STORAGE_ERROR;
use ctl_program::types::{Ty, Var};
use ctl_tree::ending::Stop;
use room::reserve;
use std::alloc::AllocError;

/// How many storage units an object of an elementary type takes (RM 13.3).
const SCALAR_UNITS: usize = 8;

/// Answers how many storage units an object of a record type takes (RM 13.3); none where the code knows no such type.
fn units_of(code: &Code, record: usize) -> usize
    ensures { result ≡ Table.units_of code.now «record» }
{
    match code.layouts.as_slice().get(record) {
        Some(layout) => layout.units,
        None => 0,
    }
}

/// Answers how many storage units an object of a type takes (RM 13.3).
pub fn units_for(code: &Code, ty: Ty) -> usize
    ensures { result ≡ Table.units_for code.now ty }
{
    match ty {
        Ty::Record(record) => units_of(code, record),
        _ => SCALAR_UNITS,
    }
}

/// Answers the Allocate that the user wrote for the type of a pool, if there is one (RM 13.11).
fn allocate_of(code: &Code, ty: Ty) -> Option<usize>
    ensures { result ≡ Table.operation_for (λ x. x.allocate) code.now ty }
{
    match ty {
        Ty::Record(record) => code.records.as_slice().get(record)?.allocate,
        _ => None,
    }
}

/// Answers the number of the object that a variable holds where it is seen, or of which it holds a part (RM 3.10, 8.3).
#[inline(always)]
fn object_held(engine: &Engine, code: &Code, variable: &Var) -> Option<u64>
    ghost s: { State }
    requires { Holds code.now (kept engine.now) s.control s.operands s.world }
    ensures { result ≡ option_map object_of (Table.word_of (slot_at (master_of (first_display (heads_of s.world.activations)) variable.now) variable.now.slot s.world).content) }
{
    let held = holder_seen(engine, code, variable)?;
    Some(number_of(engine, held))
}

/// Answers who grants storage of the pool of this number (RM 13.11).
#[inline(always)]
fn pool_grantor(engine: &Engine, code: &Code, pool: u64) -> Grantor
    ghost s: { State }
    requires { Holds code.now (kept engine.now) s.control s.operands s.world }
    ensures { Grants code.now engine.now s.world (λ size. Table.object_grant code.now size (object_at pool s.world) s.world) result }
{
    let Some(existing) = engine.stock.find(pool) else {
        return Grantor::Gone;
    };
    if let Some(allocate) = allocate_of(code, existing.ty) {
        return Grantor::User { pool, allocate };
    }
    if is_open(&engine.stock, pool) {
        return Grantor::Library(pool);
    }
    Grantor::Gone
}

/// Answers who grants storage of the pool that a variable holds where it is seen (RM 13.11).
#[inline(always)]
fn grantor_held(engine: &Engine, code: &Code, variable: &Var) -> Grantor
    ghost s: { State }
    requires { Holds code.now (kept engine.now) s.control s.operands s.world }
    ensures { Grants code.now engine.now s.world (λ size. Table.grant code.now (Some variable.now) (first_display (heads_of s.world.activations)) size s.world) result }
{
    match object_held(engine, code, variable) {
        Some(pool) => pool_grantor(engine, code, pool),
        None => Grantor::Gone,
    }
}

/// Answers who grants storage to the allocators of an access type, where it is seen (RM 13.11).
#[inline(always)]
pub fn grantor(engine: &Engine, code: &Code, access: usize) -> Grantor
    ghost s: { State }
    requires holds { Holds code.now (kept engine.now) s.control s.operands s.world }
    requires access { (a : AccessHome) × (slice_get code.now.accesses.items access ≡ Some a) }
    ensures { Grants code.now engine.now s.world (storage_seen code.now access s) result }
{
    match &code.accesses[access].pool {
        Some(pool) => grantor_held(engine, code, pool),
        None => Grantor::Standard,
    }
}

/// Allocates an object of a type, with cells of 0, for the collection of this number in the standard pool; unchanged where memory is
/// refused.
fn add_standard(engine: &mut Engine, code: &Code, set: u64, of: Ty) -> Result<(), AllocError>
    ghost s: { State }
    requires holds { Holds code.now (kept engine.old) s.control s.operands s.world }
    requires number { engine.old.numbered.objects + 1 < 2 ^ 64 }
    ensures ok { OnOk result (Adds code.now (kept engine.old) (kept engine.new) set of s.world (Table.Granted W.Standard s.world)) }
    ensures err { OnErr result (GoesOn engine.old engine.new engine.old.mode engine.old.cells.items) }
    ensures control { engine.new.control ≡ engine.old.control }
    ensures spots { engine.new.spots ≡ engine.old.spots }
    ensures events { engine.new.events ≡ engine.old.events }
    ensures picks { engine.new.picks ≡ engine.old.picks }
{
    let number = engine.numbered.objects + 1;
    let size = cells_for(code, of);
    engine.stock.allocate(number, of, set, size)?;
    engine.numbered.objects = number;
    Ok(())
}

/// Allocates an object of a type, with cells of 0, for the collection of this number in a free block of an open pool, whose object
/// exists; answers what comes next where there is none: Storage_Error is raised (RM 13.11). Unchanged then, and where memory is refused:
/// there is none for more addresses than a number can be.
#[inline(always)]
fn add_in_pool(
    engine: &mut Engine,
    code: &Code,
    set: u64,
    of: Ty,
    pool: u64,
) -> Result<Option<Mode>, AllocError>
    ghost s: { State }
    requires valid { IsValid code.now }
    requires holds { Holds code.now (kept engine.old) s.control s.operands s.world }
    requires number { engine.old.numbered.objects + 1 < 2 ^ 64 }
    requires open { IsOpen pool (storage_of engine.old.stock) }
    requires exists { is_some (object_in pool engine.old.stock.objects) ≡ true }
    ensures ok { IfOk result (Serves code.now engine.old engine.new set of s.world (pool_grants pool (Table.units_for code.now of) s.world)) }
    ensures err { OnErr result (GoesOn engine.old engine.new engine.old.mode engine.old.cells.items) }
    ensures control { engine.new.control ≡ engine.old.control }
    ensures spots { engine.new.spots ≡ engine.old.spots }
    ensures events { engine.new.events ≡ engine.old.events }
    ensures picks { engine.new.picks ≡ engine.old.picks }
{
    if !engine.stock.has_addresses() {
        return Err(AllocError);
    }
    let number = engine.numbered.objects + 1;
    let size = cells_for(code, of);
    let units = units_for(code, of) as u64;
    match engine
        .stock
        .allocate_in_pool(number, of, set, size, pool, units)?
    {
        Some(_) => {
            engine.numbered.objects = number;
            Ok(None)
        }
        None => Ok(Some(Mode::Transfers(Way::Raise(STORAGE_ERROR)))),
    }
}

/// Allocates an object of a type, with cells of 0, for the collection of this number, with storage that is granted so (RM 4.8,
/// 13.11), and reserves room for two frames that wait for it and for the part that it is. Answers what comes next where there is no
/// storage: Storage_Error is raised where the pool is exhausted; where the pool is gone, the program is erroneous (RM 13.11.2), and so it
/// counts where an Allocate of the user's is to be asked. Unchanged then, and where memory is refused.
#[inline(always)]
pub fn add_member(
    engine: &mut Engine,
    code: &Code,
    grantor: Grantor,
    set: u64,
    of: Ty,
) -> Result<Option<Mode>, AllocError>
    ghost s: { State × (ℕ → Table.Grant) }
    requires valid { IsValid code.now }
    requires holds { Holds code.now (kept engine.old) s.0.control s.0.operands s.0.world }
    requires number { engine.old.numbered.objects + 1 < 2 ^ 64 }
    requires grants { Grants code.now engine.old s.0.world s.1 grantor }
    ensures ok { IfOk result (Serves code.now engine.old engine.new set of s.0.world (s.1 (Table.units_for code.now of))) }
    ensures err { OnErr result (GoesOn engine.old engine.new engine.old.mode engine.old.cells.items) }
    ensures control { OnOk result (vec_len engine.new.control + 2 ≤ vec_capacity engine.new.control) }
    ensures spots { OnOk result (vec_len engine.new.spots < vec_capacity engine.new.spots) }
    ensures events { engine.new.events ≡ engine.old.events }
    ensures picks { engine.new.picks ≡ engine.old.picks }
{
    reserve(&mut engine.control, 2)?;
    reserve(&mut engine.spots, 1)?;
    match grantor {
        Grantor::Standard => {
            add_standard(engine, code, set, of)?;
            Ok(None)
        }
        Grantor::Library(pool) => add_in_pool(engine, code, set, of, pool),
        Grantor::User { .. } | Grantor::Gone => Ok(Some(Mode::Stopped(Stop::UseAfterFree))),
    }
}

/// Allocates an object of a type, with cells of 0, for the collection of this number at an address of an open pool, whose object
/// exists, if a block is out there that holds no object and is large enough (RM 13.11), and reserves room for two frames that wait for it
/// and for the part that it is. Answers whether one is; unchanged if not, and where memory is refused.
pub fn add_at_address(
    engine: &mut Engine,
    code: &Code,
    set: u64,
    of: Ty,
    block: BlockSpot,
) -> Result<Placing, AllocError>
    ghost s: { State }
    requires valid { IsValid code.now }
    requires holds { Holds code.now (kept engine.old) s.control s.operands s.world }
    requires number { engine.old.numbered.objects + 1 < 2 ^ 64 }
    requires open { IsOpen block.pool (storage_of engine.old.stock) }
    requires exists { is_some (object_in block.pool engine.old.stock.objects) ≡ true }
    requires stands { is_open_at block.pool s.world.pools ≡ true }
    ensures ok { IfOk result (Places code.now engine.old engine.new set of block.pool block.address s.world) }
    ensures err { OnErr result (GoesOn engine.old engine.new engine.old.mode engine.old.cells.items) }
    ensures control { OnOk result (vec_len engine.new.control + 2 ≤ vec_capacity engine.new.control) }
    ensures spots { OnOk result (vec_len engine.new.spots < vec_capacity engine.new.spots) }
    ensures events { engine.new.events ≡ engine.old.events }
    ensures picks { engine.new.picks ≡ engine.old.picks }
{
    reserve(&mut engine.control, 2)?;
    reserve(&mut engine.spots, 1)?;
    let number = engine.numbered.objects + 1;
    let size = cells_for(code, of);
    let units = units_for(code, of) as u64;
    let placing = engine
        .stock
        .allocate_in_block(number, of, set, size, block, units)?;
    if let Placing::Placed = placing {
        engine.numbered.objects = number;
    }
    Ok(placing)
}
