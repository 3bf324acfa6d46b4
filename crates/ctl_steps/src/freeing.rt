//! Behind the finalization of an object that is freed (RM 13.11.2): what designated it becomes null, and its storage is given back.

ghost use Rattle.std.specs.Prelude.{◌≡◌, ◌+◌, ◌^◌, ◌<◌, ◌∷◌, ◌&&◌, [], ℕ, is_some, length, slice_get, true};
ghost use Rattle.ctl_tree.specs.declared.event.Event.TheVariants as EventOf;
ghost use Rattle.ctl_meaning.specs.Changes.{home_of};
ghost use Rattle.ctl_meaning.specs.Objects.{is_untouched, object_in};
ghost use Rattle.ctl_meaning.specs.Pools.{block_pool_at};
ghost use Rattle.ctl_meaning.specs.Storage.{storage_actuals};
ghost use Rattle.ctl_meaning.specs.World.{World};
ghost use Rattle.ctl_objects.specs.Pools.{ShowsPools};
ghost use Rattle.ctl_storage.specs.Allocated.{place_of};
ghost use Rattle.ctl_storage.specs.Stages.{state_of};
ghost use Rattle.ctl_code.specs.declared.code.Code as CodeOf;
ghost use Rattle.ctl_code.specs.Table as Table;
ghost use Rattle.ctl_code.specs.States.{AfterProcedure, NullVariable};
ghost use Rattle.ctl_code.specs.Valid.{IsValid};
ghost use Rattle.ctl_engine.specs.Assigning.{HasRoom};
ghost use Rattle.ctl_places.specs.Freeing as Freeing;
ghost use Rattle.ctl_places.specs.Freeing.{Deallocates, Gone, IsEnding, IsGivenBack, IsGone, IsLetGo, gone_by_variable};
ghost use Rattle.ctl_frames.specs.Masters.{heads_of};
ghost use Rattle.ctl_engine.specs.Moves.{Makes};
ghost use Rattle.ctl_engine.specs.Shows as Shows;
ghost use Rattle.ctl_places.specs.StorageCalling.{StorageCall};
ghost use Rattle.ctl_frames.specs.Under.{tall};

use ctl_code::code::{Code, Parts};
use ctl_engine::engine::Engine;
use ctl_engine::freeing::{Deallocation, Ending, GivenBack};
use ctl_frames::frame::{After, Ended, Mode};
use ctl_frames::parts::parts_of;
use ctl_objects::{BlockReturn, Existing, Life, Objects, Place, PoolState};
use ctl_places::storage_calls::{StorageActuals, call_storage};
use ctl_places::variables::give;
use ctl_program::types::Ty;
use ctl_tree::ending::Stop;
use ctl_tree::event::Event;

/// Tells whether an object of a record type is still to be finalized: it has joined its collection, its finalization has not begun, and some
/// part of it is controlled (RM 7.6.1).
#[tactic(auto, unfolding(ctl_meaning::specs::Objects::is_untouched))]
pub fn is_unfinished(code: &Code, existing: &Existing, record: usize) -> bool
    ensures { result ≡ (existing.now.stage.has_joined && (is_untouched (state_of existing.now.stage.life) && Table.has_part (Table.parts_of code.now «record»))) }
{
    if !existing.stage.has_joined {
        return false;
    }
    match existing.stage.life {
        Life::Untouched => !matches!(parts_of(code, record), Parts::Plain),
        _ => false,
    }
}

/// Answers the number of the body that the user wrote for the Deallocate of a type, if there is one (RM 13.11).
pub fn deallocate_of(code: &Code, ty: Ty) -> Option<usize>
    ensures { result ≡ Table.operation_for (λ x. x.deallocate) code.now ty }
{
    let Ty::Record(record) = ty else {
        return None;
    };
    code.records.as_slice().get(record)?.deallocate
}

/// Gives a block back to its pool by the library's Deallocate (RM 13.11); the object of the pool exists. Where the pool has closed, or the
/// block is not out, or holds an object, the program is erroneous, and nothing changes (RM 13.11.2).
fn give_to_pool(stock: &mut Objects, number: u64, address: u64) -> GivenBack
    requires exists { is_some (object_in number stock.old.objects) ≡ true }
    ensures objects { stock.new.objects ≡ stock.old.objects }
    ensures needs { stock.new.needs ≡ stock.old.needs }
    ensures back { (code : CodeOf.Code) (next : ℕ) (w : World) → w.objects ≡ stock.old.objects → ShowsPools next w.pools stock.old → IsGivenBack code next w stock.new (Table.pool_return number address (block_pool_at number w.pools) w) result }
{
    let Some(pool) = stock.pool(number) else {
        return GivenBack::Stops(Stop::UseAfterFree);
    };
    if let PoolState::Closed = pool.state {
        return GivenBack::Stops(Stop::UseAfterFree);
    }
    match stock.give_block(number, address) {
        BlockReturn::Accepted => GivenBack::Accepted,
        BlockReturn::Refused => GivenBack::Stops(Stop::BadAddress),
    }
}

/// Gives back the storage of an object that is gone (RM 13.11.2): a block goes back to its pool, by the Deallocate that the user wrote for
/// its type, which is still to be called, or by the library's. Where the pool is gone, the program is erroneous, and nothing changes.
#[inline(always)]
fn give_back(code: &Code, stock: &mut Objects, storage: Place) -> GivenBack
    ensures objects { stock.new.objects ≡ stock.old.objects }
    ensures needs { stock.new.needs ≡ stock.old.needs }
    ensures back { (next : ℕ) (w : World) → w.objects ≡ stock.old.objects → ShowsPools next w.pools stock.old → IsGivenBack code.now next w stock.new (Table.return_to code.now (place_of storage) w) result }
{
    let Place::InBlock(block) = storage else {
        return GivenBack::Accepted;
    };
    let Some(pool) = stock.find(block.pool) else {
        return GivenBack::Stops(Stop::UseAfterFree);
    };
    match deallocate_of(code, pool.ty) {
        Some(body) => GivenBack::Calls(Deallocation {
            pool: block.pool,
            address: block.address,
            body,
        }),
        None => give_to_pool(stock, block.pool, block.address),
    }
}

/// Answers the place where it goes on behind the freeing of an object whose finalization has ended so: at this place, where Program_Error is
/// raised, if a Finalize failed, or else at the next one (RM 13.11.2).
fn place_behind(ended: Ended, place: usize) -> usize
    requires { place + 1 < 2 ^ 64 }
    ensures { result ≡ Freeing.place_behind ended place }
{
    match ended {
        Ended::Complete => place + 1,
        _ => place,
    }
}

/// Calls the Deallocate that the user wrote for the type of a pool, for a block of so many storage units (RM 13.11); the call goes on at
/// this place, and the window of the body begins with this cell. There is room.
fn deallocate(
    engine: &mut Engine,
    code: &Code,
    call: Deallocation,
    units: u64,
    place: usize,
    base: usize,
)
    ghost t: { StorageCall }
    requires valid { IsValid code.now }
    requires deallocates { Deallocates code.now engine.old call units place t }
    requires base { base ≡ tall t.control (heads_of t.world.activations) + length t.point.operands }
    requires room { HasRoom code.now engine.old base }
    ensures { Makes code.now engine.old engine.new (Table.enter_body (slice_get code.now.entries.items t.body) (EventOf.Deallocate t.object.number t.units ∷ []) (home_of t.object.origin t.world) (storage_actuals t.object.number t.address t.units) (AfterProcedure 0 t.point) t.control t.world) }
{
    let Some(master) = engine.master_of(call.pool) else {
        unreachable!();
    };
    let event = Event::Deallocate(call.pool, units);
    let actuals = StorageActuals {
        pool: call.pool,
        address: call.address,
        units,
    };
    let after = After::Procedure { place, copies: 0 };
    let entry = code.entries[call.body];
    call_storage(engine, code, &entry, master, base, event, actuals, after);
}

/// Gives back the storage of an object that is gone, and goes on behind its freeing (RM 13.11.2); there is room for the call of a
/// Deallocate.
#[inline(always)]
pub fn return_storage(engine: &mut Engine, code: &Code, ending: Ending)
    ghost t: { Gone }
    requires valid { IsValid code.now }
    requires gone { IsGone code.now engine.old ending.place t }
    requires ends { IsEnding code.now engine.old ending }
    ensures { Makes code.now engine.old engine.new (Table.freed_by code.now ending.storage.units (Table.says_failed (Shows.tried_of ending.ended)) (Table.return_to code.now (place_of ending.storage.place) t.world) t.point t.control t.world) }
{
    let next = place_behind(ending.ended, ending.place);
    match give_back(code, &mut engine.stock, ending.storage.place) {
        GivenBack::Accepted => engine.mode = Mode::At(next),
        GivenBack::Stops(stop) => engine.mode = Mode::Stopped(stop),
        GivenBack::Calls(call) => {
            let units = ending.storage.units as u64;
            let base = engine.window() + code.kinds.height_at(ending.place, 0);
            deallocate(engine, code, call, units, next, base);
        }
    }
}

/// Makes the variable null by which an object is freed; the object is gone, and its storage is given back (RM 13.11.2). There is room for
/// the call of a Deallocate.
#[inline(always)]
pub fn null_variable(
    engine: &mut Engine,
    code: &Code,
    object: u64,
    out: usize,
    slot: usize,
    ending: Ending,
)
    ghost t: { Gone × Gone }
    requires valid { IsValid code.now }
    requires goes { IsLetGo code.now engine.old object ending.place t.0 }
    requires gone { t.1 ≡ gone_by_variable object out slot t.0 }
    requires ends { IsEnding code.now engine.old ending }
    ensures { Makes code.now engine.old engine.new (Table.freed_in code.now (NullVariable out slot) object (place_of ending.storage.place) ending.storage.units (Table.says_failed (Shows.tried_of ending.ended)) t.0.point t.0.control t.0.world) }
{
    give(engine, code, out, slot, 0, ending.place);
    engine.stock.forget(object);
    return_storage(engine, code, ending);
}
