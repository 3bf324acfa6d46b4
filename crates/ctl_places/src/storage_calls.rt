//! Calls of the Allocate and the Deallocate that the user wrote for the type of a pool (RM 13.11).

ghost use Rattle.std.specs.Prelude.{◌≡◌, ◌+◌, ◌≤◌, ◌∷◌, [], length, slice_get};
ghost use Rattle.ctl_meaning.specs.Changes.{home_of};
ghost use Rattle.ctl_meaning.specs.Storage.{storage_actuals};
ghost use Rattle.ctl_code.specs.States.{AfterProcedure};
ghost use Rattle.ctl_code.specs.Table as Table;
ghost use Rattle.ctl_code.specs.Valid.{IsValid, storage_formals};
ghost use Rattle.ctl_engine.specs.Assigning.{HasRoom};
ghost use Rattle.ctl_engine.specs.Moves.{Makes};
ghost use Rattle.ctl_places.specs.StorageCalling.{AreActualsOf, CallsStorage, StorageCall, storage_begun};

use ctl_code::code::{Code, Entry};
use ctl_engine::engine::{Engine, clear};
use ctl_engine::holders::master_at;
use ctl_frames::frame::{After, Formal, Master};
use ctl_frames::spots::Spot;
use ctl_tree::event::Event;

/// How many formals Allocate and Deallocate have (RM 13.11).
const STORAGE_FORMALS: usize = 4;

/// The alignment that is asked of storage (RM 13.11).
const ALIGNMENT: u64 = 8;

/// What the formals of an Allocate or a Deallocate begin with, besides the alignment: the number of the pool object, an address and a size in
/// storage units (RM 13.11).
#[derive(Clone, Copy)]
pub struct StorageActuals {
    pub pool: u64,
    pub address: u64,
    pub units: u64,
}

/// Begins the slots of the body of an Allocate or a Deallocate: its formals have their cells, and all other slots are cleared.
fn begin_formals(cells: &mut [u64], base: usize, slots: usize, address: u64, units: u64)
    requires cells { base + slots ≤ length cells.old }
    requires slots { storage_formals ≤ slots }
    ensures { cells.new ≡ storage_begun base slots address units cells.old }
{
    cells[base] = 0;
    cells[base + 1] = address;
    cells[base + 2] = units;
    cells[base + 3] = ALIGNMENT;
    clear(cells, base + STORAGE_FORMALS, slots - STORAGE_FORMALS);
}

/// Calls the body of an Allocate or a Deallocate, with what is shown of the call, for a pool object of this master: the body is entered
/// inside the masters around it that the object's master sees (RM 13.11). Its window begins with this cell, behind the operands that stay,
/// there is room for it, and its end leads there.
pub fn call_storage(
    engine: &mut Engine,
    code: &Code,
    entry: &Entry,
    master: u64,
    base: usize,
    event: Event,
    actuals: StorageActuals,
    after: After,
)
    ghost t: { StorageCall }
    requires valid { IsValid code.now }
    requires calls { CallsStorage code.now engine.old entry.now master base after t }
    requires actuals { AreActualsOf actuals t }
    requires room { HasRoom code.now engine.old base }
    ensures { Makes code.now engine.old engine.new (Table.enter_body (slice_get code.now.entries.items t.body) (event ∷ []) (home_of t.object.origin t.world) (storage_actuals t.object.number t.address t.units) (AfterProcedure t.copies t.point) t.control t.world) }
{
    let _ = code;
    let owner = master_at(engine.masters.as_slice(), master);
    let link = engine.around_from(owner, entry.level);
    let outer_formals = engine.count_formals();
    let master = Master {
        number: engine.given_masters + 1,
        window: base,
        base,
        slots: entry.slots,
        link,
        depth: engine.depth_at(link) + 1,
        owned: engine.count_owned(),
        outer_formals,
        formals: outer_formals + 1,
        spots: engine.count_spots(),
    };
    let spot = Spot::whole(engine.alloc, actuals.pool);
    engine.events.push_reserved(event);
    engine.formals.push_reserved(Formal {
        slot: 0,
        spot,
        is_value: false,
    });
    begin_formals(
        &mut engine.cells,
        base,
        entry.slots,
        actuals.address,
        actuals.units,
    );
    engine.stand(master, 0, after, entry.place);
}
