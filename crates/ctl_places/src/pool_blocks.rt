//! The library's Allocate and Deallocate, as a program calls them (RM 13.11): a block goes out of a pool, and a variable or a component takes
//! its address; a block comes back to its pool. The pool is the newest part, below the values on top, but where a component takes the address:
//! the part that has it stands over the pool. And discriminants of pools, which are read (RM 3.7).

ghost use Rattle.std.specs.Prelude.{◌≡◌, ◌+◌, ◌^◌, ◌<◌, ℕ, IfNone, IfOk, IfSome, IsTrue, List, OnErr, OnOk, Some, is_some, true};
ghost use Rattle.std.specs.Option.{option_map};
ghost use Rattle.ctl_tree.specs.declared.ending.Stop.TheVariants as StopOf;
ghost use Rattle.ctl_meaning.specs.Objects.{object_in};
ghost use Rattle.ctl_meaning.specs.Pools.{block_pool_at};
ghost use Rattle.ctl_meaning.specs.World as W;
ghost use Rattle.ctl_storage.specs.Calls.{IsOpen};
ghost use Rattle.ctl_objects.specs.Pools.{ShowsPools};
ghost use Rattle.ctl_objects.specs.Stock.{storage_of};
ghost use Rattle.ctl_code.specs.declared.code.Instr.TheVariants as InstrOf;
ghost use Rattle.ctl_code.specs.States.{State, Word};
ghost use Rattle.ctl_code.specs.Table as Table;
ghost use Rattle.ctl_code.specs.Valid.{IsValid};
ghost use Rattle.ctl_engine.specs.Moves.{Before, GoesOn, Makes, here_of};
ghost use Rattle.ctl_places.specs.PoolBlocks.{IsAccepted, IsAsked, IsAskedInto, IsServed, StandsOnPool, is_open_at};
ghost use Rattle.ctl_engine.specs.Windows.{Comes};
ghost use Rattle.ctl_frames.specs.declared.frame.Mode.TheVariants as ModeOf;

use crate::variables::give;
use ctl_code::code::{Cell, Code, PoolDiscriminant, Way};
use ctl_engine::engine::Engine;
use ctl_frames::frame::Mode;
use ctl_frames::parts::offset_of;
use ctl_objects::{BlockReturn, Objects, PoolState};
use ctl_program::library::STORAGE_ERROR;
use ctl_tree::ending::Stop;
use std::alloc::AllocError;

/// What comes of a request of a block (RM 13.11).
#[derive(Clone, Copy)]
pub enum Request {
    /// a block goes out under this address
    Taken(u64),
    /// no block is free, or each is smaller
    Exhausted,
    /// there is no such pool, or it has closed
    Unknown,
}

/// Tells whether a pool exists and is open.
#[inline(always)]
pub fn is_open(stock: &Objects, pool: u64) -> bool
    ensures open { IsTrue result → IsOpen pool (storage_of stock.now) }
    ensures exists { IsTrue result → is_some (object_in pool stock.now.objects) ≡ true }
    ensures shown { (next : ℕ) (x : W.Pools) → ShowsPools next x stock.now → result ≡ is_open_at pool x }
{
    if !stock.exists(pool) {
        return false;
    }
    match stock.pool(pool) {
        Some(known) => matches!(known.state, PoolState::Open),
        None => false,
    }
}

/// Answers a discriminant of a pool whose object exists (RM 3.7, 13.11).
fn discriminant_of(stock: &Objects, pool: u64, which: PoolDiscriminant) -> Option<u64>
    ensures { (next : ℕ) (x : W.Pools) → ShowsPools next x stock.now → result ≡ option_map (Table.discriminant_in which) (block_pool_at pool x) }
{
    if !stock.exists(pool) {
        return None;
    }
    let size = stock.pool(pool)?.size;
    Some(match which {
        PoolDiscriminant::BlockSize => size.block_size,
        PoolDiscriminant::BlockCount => size.block_count as u64,
    })
}

/// Takes a block out of a pool, for so many storage units (RM 13.11); nothing changes where memory is refused: there is none for more addresses
/// than a number can be.
fn take_from(stock: &mut Objects, pool: u64, size: u64) -> Result<Request, AllocError>
    ensures objects { stock.new.objects ≡ stock.old.objects }
    ensures needs { stock.new.needs ≡ stock.old.needs }
    ensures served { IfOk result (λ r. (next : ℕ) (w : W.World) → ShowsPools next w.pools stock.old → IsServed next w stock.new (Table.pool_grant pool size (block_pool_at pool w.pools) w) r) }
    ensures err { OnErr result (stock.new ≡ stock.old) }
{
    if !is_open(stock, pool) {
        return Ok(Request::Unknown);
    }
    if !stock.has_addresses() {
        return Err(AllocError);
    }
    match stock.take_block(pool, size)? {
        Some(address) => Ok(Request::Taken(address)),
        None => Ok(Request::Exhausted),
    }
}

/// Gives a block back to a pool (RM 13.11). Where the pool is gone or has closed, or the block is not out, or holds an object, the program is
/// erroneous, and nothing changes.
pub fn give_to(stock: &mut Objects, pool: u64, address: u64) -> Option<Stop>
    ensures objects { stock.new.objects ≡ stock.old.objects }
    ensures needs { stock.new.needs ≡ stock.old.needs }
    ensures accepted { (next : ℕ) (w : W.World) → w.objects ≡ stock.old.objects → ShowsPools next w.pools stock.old → IsAccepted next w stock.new (Table.pool_return pool address (block_pool_at pool w.pools) w) result }
{
    if !is_open(stock, pool) {
        return Some(Stop::UseAfterFree);
    }
    match stock.give_block(pool, address) {
        BlockReturn::Accepted => None,
        BlockReturn::Refused => Some(Stop::BadAddress),
    }
}

/// Answers the number of the pool that is the newest part, and the value over it, under so many newer ones.
fn pool_and_value(engine: &Engine, code: &Code, place: usize, under: usize) -> (u64, u64)
    ghost s: { State × List Word }
    requires { IsAsked code.now engine.now place under s.0 s.1 }
    ensures { (a : IsAsked code.now engine.now place under s.0 s.1) → (result.0 ≡ a.pool.object) × (result.1 ≡ a.value) }
{
    let value = engine.cells[engine.window() + code.kinds.height_at(place, under)];
    let pool = engine.spots[engine.count_spots() - 1].object();
    (pool, value)
}

/// Puts a discriminant of the pool that is the newest operand in place of it, and answers what comes next; where there is no such pool, the
/// program is erroneous (RM 13.11.2), and nothing changes.
pub fn take_discriminant(
    engine: &mut Engine,
    code: &Code,
    which: PoolDiscriminant,
    to: &Cell,
    place: usize,
) -> Option<usize>
    ghost s: { State }
    requires valid { IsValid code.now }
    requires before { (t : ℕ) × Before code.now engine.old place (InstrOf.TakeDiscriminant t which to.now) s }
    requires place { place + 1 < 2 ^ 64 }
    ensures passed { (t : ℕ) → IfSome result (λ next. (engine.new.mode ≡ ModeOf.At next) × Makes code.now engine.old engine.new (Table.by_instr code.now (Some (InstrOf.TakeDiscriminant t which to.now)) s.operands (here_of place s))) }
    ensures left { IfNone result (GoesOn engine.old engine.new engine.old.mode engine.old.cells.items) }
    ensures gone { (t : ℕ) → IfNone result (Comes code.now engine.new (ModeOf.Stopped StopOf.UseAfterFree) engine.new.cells.items (Table.by_instr code.now (Some (InstrOf.TakeDiscriminant t which to.now)) s.operands (here_of place s))) }
{
    let _ = code;
    let newest = engine.count_spots() - 1;
    let spot = &engine.spots[newest];
    match discriminant_of(&engine.stock, spot.object(), which) {
        Some(value) => {
            let _ = engine.spots.take_last();
            engine.put(value, to, place);
            Some(place + 1)
        }
        None => None,
    }
}

/// Takes a block out of the pool that is the newest part, for the size below the alignment on top; the variable of this slot, in the
/// master so many further out, takes its address (RM 13.11). Where no block is free, or each is smaller, Storage_Error is raised; where
/// the pool is gone or has closed, the program is erroneous. Unchanged where memory is refused.
pub fn take_block(
    engine: &mut Engine,
    code: &Code,
    out: usize,
    slot: usize,
    place: usize,
) -> Result<(), AllocError>
    ghost s: { State }
    requires valid { IsValid code.now }
    requires before { (t : ℕ) × Before code.now engine.old place (InstrOf.TakeBlock t out slot) s }
    requires place { place + 1 < 2 ^ 64 }
    ensures ok { (t : ℕ) → OnOk result (Makes code.now engine.old engine.new (Table.by_instr code.now (Some (InstrOf.TakeBlock t out slot)) s.operands (here_of place s))) }
    ensures err { OnErr result (GoesOn engine.old engine.new engine.old.mode engine.old.cells.items) }
{
    let (pool, size) = pool_and_value(engine, code, place, 2);
    match take_from(&mut engine.stock, pool, size)? {
        Request::Taken(address) => {
            let _ = engine.spots.take_last();
            give(engine, code, out, slot, address, place + 1);
        }
        Request::Exhausted => engine.go_on(Mode::Transfers(Way::Raise(STORAGE_ERROR))),
        Request::Unknown => engine.go_on(Mode::Stopped(Stop::UseAfterFree)),
    }
    Ok(())
}

/// Answers the number of the pool that is the part below the newest one, and the size below the alignment on top.
fn pool_below(engine: &Engine, code: &Code, place: usize) -> (u64, u64)
    ghost s: { State }
    requires { IsAskedInto code.now engine.now place s }
    ensures { (a : IsAskedInto code.now engine.now place s) → (result.0 ≡ a.pool.object) × (result.1 ≡ a.size) }
{
    let size = engine.cells[engine.window() + code.kinds.height_at(place, 2)];
    let pool = engine.spots[engine.count_spots() - 2].object();
    (pool, size)
}

/// Gives a component of the newest part an address, by the first cell of the component, and takes the part and the pool below it off; where
/// the object of the part is gone, the program is erroneous (RM 13.11.2).
fn store_address(engine: &mut Engine, code: &Code, offset: usize, address: u64, place: usize)
    ghost s: { Word × State }
    requires stands { StandsOnPool code.now engine.old place s.0 s.1 }
    requires place { place + 1 < 2 ^ 64 }
    ensures { Makes code.now engine.old engine.new (Table.store_into offset address s.0 s.1.operands (here_of place s.1)) }
{
    let _ = code;
    // The value of a record is of no object: so it is where the object of a part is gone.
    let part = engine.spots.take_last();
    let _ = engine.spots.take_last();
    if !engine.stock.exists(part.object()) {
        engine.mode = Mode::Stopped(Stop::UseAfterFree);
        return;
    }
    engine
        .stock
        .write_part(part.object(), part.offset(), offset, address);
    engine.mode = Mode::At(place + 1);
}

/// Takes a block out of the pool that is the part below the newest one, for the size below the alignment on top; a component of the newest
/// part takes its address, by its record type and the position of the component (RM 13.11). Where no block is free, or each is smaller,
/// Storage_Error is raised; where the pool is gone or has closed, or the object of the component is gone, the program is erroneous.
/// Unchanged where memory is refused.
pub fn take_block_into(
    engine: &mut Engine,
    code: &Code,
    record: usize,
    position: usize,
    place: usize,
) -> Result<(), AllocError>
    ghost s: { State }
    requires before { (t : ℕ) × Before code.now engine.old place (InstrOf.TakeBlockInto t «record» position) s }
    requires place { place + 1 < 2 ^ 64 }
    ensures ok { (t : ℕ) → OnOk result (Makes code.now engine.old engine.new (Table.by_instr code.now (Some (InstrOf.TakeBlockInto t «record» position)) s.operands (here_of place s))) }
    ensures err { OnErr result (GoesOn engine.old engine.new engine.old.mode engine.old.cells.items) }
{
    let (pool, size) = pool_below(engine, code, place);
    match take_from(&mut engine.stock, pool, size)? {
        Request::Taken(address) => {
            store_address(
                engine,
                code,
                offset_of(code, record, position),
                address,
                place,
            );
        }
        Request::Exhausted => engine.go_on(Mode::Transfers(Way::Raise(STORAGE_ERROR))),
        Request::Unknown => engine.go_on(Mode::Stopped(Stop::UseAfterFree)),
    }
    Ok(())
}

/// Gives a block back to the pool that is the newest part, by the address below the size and the alignment on top (RM 13.11). Where the
/// pool is gone or has closed, or the block is not out, or holds an object, the program is erroneous.
pub fn give_block(engine: &mut Engine, code: &Code, place: usize)
    ghost s: { State }
    requires valid { IsValid code.now }
    requires before { (t : ℕ) × Before code.now engine.old place (InstrOf.GiveBlock t) s }
    requires place { place + 1 < 2 ^ 64 }
    ensures { (t : ℕ) → Makes code.now engine.old engine.new (Table.by_instr code.now (Some (InstrOf.GiveBlock t)) s.operands (here_of place s)) }
{
    let (pool, address) = pool_and_value(engine, code, place, 3);
    match give_to(&mut engine.stock, pool, address) {
        None => {
            let _ = engine.spots.take_last();
            engine.mode = Mode::At(place + 1);
        }
        Some(stop) => engine.mode = Mode::Stopped(stop),
    }
}

/// Who grants the storage of an allocator (RM 13.11).
#[derive(Clone, Copy)]
pub enum Grantor {
    /// the standard pool
    Standard,
    /// the library's Allocate, for the open pool of this number
    Library(u64),
    /// this Allocate, which the user wrote for the type of the pool of this number
    User { pool: u64, allocate: usize },
    /// none, since the pool has ceased to exist
    Gone,
}
