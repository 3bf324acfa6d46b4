//! Declarations of block pools (RM 13.11).

ghost use Rattle.std.specs.Prelude.{◌≡◌, ◌↔◌, ℕ, ◌+◌, ◌^◌, ◌<◌, IsTrue, None, OnErr, OnOk, Some, length, replicate, reverse, slice_get, vec_capacity, vec_len};
ghost use Rattle.std.specs.FinMap.{get};
ghost use Rattle.ctl_meaning.specs.Pools.{push_block_pool};
ghost use Rattle.ctl_meaning.specs.World as W;
ghost use Rattle.ctl_code.specs.declared.code.Instr.TheVariants as InstrOf;
ghost use Rattle.ctl_code.specs.Table as Table;
ghost use Rattle.ctl_code.specs.States.{State};
ghost use Rattle.ctl_code.specs.Valid.{IsValid};
ghost use Rattle.ctl_storage.specs.Calls.{IsBlockPoolSize};
ghost use Rattle.ctl_storage.specs.Order.{AreBelow};
ghost use Rattle.ctl_objects.specs.Order.{AreUpTo};
ghost use Rattle.ctl_objects.specs.Pools.{ShowsPools};
ghost use Rattle.ctl_engine.specs.Declaring.{IsSize, with_pool};
ghost use Rattle.ctl_frames.specs.Masters.{first_window};
ghost use Rattle.ctl_engine.specs.Moves.{Before, GoesOn, Makes, here_of};
ghost use Rattle.ctl_engine.specs.Shows.{kept};

use crate::declare::{begin_declared, own_newest, reserve_object};
use ctl_code::code::{Cell, Code, DiscriminantOrder, Named, Way};
use ctl_engine::engine::Engine;
use ctl_frames::frame::{Declared, Master, Mode};
use ctl_frames::parts::size_of;
use ctl_objects::PoolSize;
use ctl_program::library::CONSTRAINT_ERROR;
use std::alloc::AllocError;

/// The greatest number of storage units that a block may have.
const GREATEST_BLOCK_SIZE: u64 = 4_096;

/// The least number of storage units that a block may have.
const LEAST_BLOCK_SIZE: u64 = 8;

/// The greatest number of blocks that a pool may have.
const GREATEST_BLOCK_COUNT: u64 = 65_536;

/// The least number of blocks that a pool may have.
const LEAST_BLOCK_COUNT: u64 = 1;

/// Tells whether a pool may have so many blocks of this size (RM 13.11).
fn is_pool_size(size: u64, count: u64) -> bool
    ensures { IsTrue result ↔ IsBlockPoolSize size count }
{
    LEAST_BLOCK_SIZE <= size
        && size <= GREATEST_BLOCK_SIZE
        && LEAST_BLOCK_COUNT <= count
        && count <= GREATEST_BLOCK_COUNT
}

/// Answers the size of the blocks and their count, of which these are the first and the second that stand.
fn in_order(order: DiscriminantOrder, first: u64, second: u64) -> (u64, u64)
    ensures { result ≡ Table.pool_size order first second }
{
    match order {
        DiscriminantOrder::SizeFirst => (first, second),
        DiscriminantOrder::CountFirst => (second, first),
    }
}

/// Gives the size of a pool with these discriminants, in this order, if they are good ones (RM 13.11).
fn pool_size(order: DiscriminantOrder, first: u64, second: u64) -> Option<PoolSize>
    ensures { IsSize order first second result }
{
    let (size, count) = in_order(order, first, second);
    if !is_pool_size(size, count) {
        return None;
    }
    Some(PoolSize {
        block_size: size,
        block_count: count as usize,
    })
}

/// Gives the size of a pool whose discriminants stand in this cell of the newest window and in the next one, in this order, if they are
/// good ones (RM 13.11).
fn operand_size(engine: &Engine, order: DiscriminantOrder, at: usize) -> Option<PoolSize>
    requires { first_window (reverse engine.now.masters.items) + (at + 1) < length engine.now.cells.items }
    ensures { let window = first_window (reverse engine.now.masters.items) in
        (first second : ℕ) → slice_get engine.now.cells.items (window + at) ≡ Some first → slice_get engine.now.cells.items (window + (at + 1)) ≡ Some second → IsSize order first second result }
{
    let named = Named::Operand;
    let first = engine.take(&Cell { at, named });
    let second = engine.take(&Cell { at: at + 1, named });
    pool_size(order, first, second)
}

/// Creates a pool object of the newest master with so many cells of 0, for which there is room among the owned ones, and opens the pool;
/// clears the cell of its slot (RM 13.11). Unchanged where memory is refused.
fn create_pool(
    engine: &mut Engine,
    newest: Master,
    slot: usize,
    record: usize,
    cells: usize,
    size: PoolSize,
) -> Result<(), AllocError>
    requires room { vec_len engine.old.owned < vec_capacity engine.old.owned }
    requires number { engine.old.numbered.objects + 1 < 2 ^ 64 }
    requires numbers { AreBelow (engine.old.numbered.objects + 1) engine.old.stock.objects }
    requires newest { AreUpTo newest.number engine.old.stock.objects }
    requires size { IsBlockPoolSize size.block_size size.block_count }
    requires new { get engine.old.stock.sizes (engine.old.numbered.objects + 1) ≡ None }
    requires cell { slot < newest.slots → newest.base + slot < length engine.old.cells.items }
    ensures kept { OnOk result (kept engine.new ≡ with_pool engine.new.stock newest slot «record» (replicate cells 0) (kept engine.old)) }
    ensures pools { let number = engine.old.numbered.objects + 1 in
        OnOk result ((x : W.Pools) → ShowsPools number x engine.old.stock → ShowsPools (number + 1) (push_block_pool number size.block_size size.block_count x) engine.new.stock) }
    ensures err { OnErr result (GoesOn engine.old engine.new engine.old.mode engine.old.cells.items) }
    ensures masters { engine.new.masters ≡ engine.old.masters }
    ensures control { engine.new.control ≡ engine.old.control }
    ensures spots { engine.new.spots ≡ engine.old.spots }
    ensures number { OnOk result (engine.new.numbered.objects ≡ engine.old.numbered.objects + 1) }
    ensures events { engine.new.events ≡ engine.old.events }
    ensures picks { engine.new.picks ≡ engine.old.picks }
{
    let number = engine.numbered.objects + 1;
    engine
        .stock
        .declare_pool(number, record, newest.number, cells, size)?;
    own_newest(engine, newest, slot, record);
    Ok(())
}

/// Declares a block pool of a record type, whose discriminants are the two newest operands, in this order, the first of them in this
/// cell (RM 13.11): it is created and opened, and its components are to begin, if anything is executed for that (RM 7.6). Bad
/// discriminants raise Constraint_Error. Unchanged where memory is refused.
#[inline(never)]
pub fn declare_pool(
    engine: &mut Engine,
    code: &Code,
    slot: usize,
    record: usize,
    order: DiscriminantOrder,
    at: usize,
    place: usize,
) -> Result<(), AllocError>
    ghost s: { State }
    requires valid { IsValid code.now }
    requires before { Before code.now engine.old place (InstrOf.DeclarePool slot «record» order at) s }
    requires place { place + 1 < 2 ^ 64 }
    requires objects { engine.old.numbered.objects + 1 < 2 ^ 64 }
    ensures ok { OnOk result (Makes code.now engine.old engine.new (Table.by_instr code.now (Some (InstrOf.DeclarePool slot «record» order at)) s.operands (here_of place s))) }
    ensures err { OnErr result (GoesOn engine.old engine.new engine.old.mode engine.old.cells.items) }
{
    let Some(size) = operand_size(engine, order, at) else {
        engine.go_on(Mode::Transfers(Way::Raise(CONSTRAINT_ERROR)));
        return Ok(());
    };
    let newest = engine.newest();
    let cells = size_of(code, record);
    reserve_object(engine)?;
    create_pool(engine, newest, slot, record, cells, size)?;
    begin_declared(
        engine,
        code,
        Declared::Pool,
        record,
        newest.number,
        place + 1,
    );
    Ok(())
}
