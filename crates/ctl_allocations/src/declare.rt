//! Objects of record types are declared (RM 3.3.1).

ghost use Rattle.std.specs.Prelude.{◌≡◌, ◌+◌, ◌^◌, ◌<◌, ◌≤◌, OnErr, OnOk, Some, length, replicate, vec_capacity, vec_len};
ghost use Rattle.ctl_code.specs.declared.code.Instr.TheVariants as InstrOf;
ghost use Rattle.ctl_code.specs.Table as Table;
ghost use Rattle.ctl_code.specs.States.{ByDeclaration, Maker, State};
ghost use Rattle.ctl_code.specs.Valid.{IsValid};
ghost use Rattle.ctl_tree.specs.declared.event.Owner.TheVariants as OwnerOf;
ghost use Rattle.ctl_engine.specs.Moves.{Before, GoesOn, Makes, here_of};
ghost use Rattle.ctl_engine.specs.Shows.{kept, maker_of};
ghost use Rattle.ctl_engine.specs.Declaring.{IsDeclared, NewObject, with_object, with_owned};
ghost use Rattle.ctl_engine.specs.RecordValues.{IsPart, IsValue};
ghost use Rattle.ctl_storage.specs.Order.{AreBelow};
ghost use Rattle.ctl_objects.specs.Order.{AreUpTo};

use crate::made_at_once::is_made_at_once;
use ctl_code::code::{Code, Parts};
use ctl_engine::engine::Engine;
use ctl_frames::frame::{Declared, Frame, Master, Mode, Owned, Role};
use ctl_frames::parts::{parts_of, size_of};
use ctl_frames::spots::Spot;
use ctl_lifetimes::adjusting::adjust_object;
use ctl_lifetimes::creating::become_layer;
use ctl_lifetimes::filling::begin_part;
use ctl_places::record_values::{is_newest_value, newest_value};
use ctl_tree::ending::Stop;
use ctl_tree::event::Owner;
use room::reserve;
use std::alloc::AllocError;

/// Reserves room for an object that is owned, for the frames that wait for it, and for the part that it is; nothing else changes.
#[inline(always)]
pub fn reserve_object(engine: &mut Engine) -> Result<(), AllocError>
    ensures same { GoesOn engine.old engine.new engine.old.mode engine.old.cells.items }
    ensures owned { OnOk result (vec_len engine.new.owned < vec_capacity engine.new.owned) }
    ensures control { OnOk result (vec_len engine.new.control + 2 ≤ vec_capacity engine.new.control) }
    ensures spots { OnOk result (vec_len engine.new.spots < vec_capacity engine.new.spots) }
    ensures number { engine.new.numbered ≡ engine.old.numbered }
{
    reserve(&mut engine.owned, 1)?;
    reserve(&mut engine.control, 2)?;
    reserve(&mut engine.spots, 1)?;
    Ok(())
}

/// Has the newest object, the next in number, owned by the newest master, for which there is room, in its slot, whose cell is cleared (RM
/// 3.3.1).
#[inline(always)]
pub fn own_newest(engine: &mut Engine, newest: Master, slot: usize, record: usize)
    requires room { vec_len engine.old.owned < vec_capacity engine.old.owned }
    requires number { engine.old.numbered.objects + 1 < 2 ^ 64 }
    requires cell { slot < newest.slots → newest.base + slot < length engine.old.cells.items }
    ensures kept { kept engine.new ≡ with_owned newest slot «record» (kept engine.old) }
    ensures masters { engine.new.masters ≡ engine.old.masters }
    ensures control { engine.new.control ≡ engine.old.control }
    ensures spots { engine.new.spots ≡ engine.old.spots }
    ensures number { engine.new.numbered.objects ≡ engine.old.numbered.objects + 1 }
    ensures events { engine.new.events ≡ engine.old.events }
    ensures picks { engine.new.picks ≡ engine.old.picks }
{
    let number = engine.numbered.objects + 1;
    engine.numbered.objects = number;
    engine.owned.push_reserved(Owned {
        number,
        slot,
        master: newest.number,
        is_layer: false,
        collections: engine.numbered.collections,
        role: Role::Object { record },
    });
    if slot < newest.slots {
        engine.cells[newest.base + slot] = 0;
    }
}

/// Creates an object of the newest master with so many cells of 0, for which there is room among the owned ones, and clears the cell of
/// its slot (RM 3.3.1); unchanged where memory is refused.
#[inline(always)]
pub fn create(
    engine: &mut Engine,
    newest: Master,
    slot: usize,
    record: usize,
    size: usize,
) -> Result<(), AllocError>
    requires room { vec_len engine.old.owned < vec_capacity engine.old.owned }
    requires number { engine.old.numbered.objects + 1 < 2 ^ 64 }
    requires numbers { AreBelow (engine.old.numbered.objects + 1) engine.old.stock.objects }
    requires newest { AreUpTo newest.number engine.old.stock.objects }
    requires cell { slot < newest.slots → newest.base + slot < length engine.old.cells.items }
    ensures kept { OnOk result (kept engine.new ≡ with_object newest slot «record» (replicate size 0) (kept engine.old)) }
    ensures err { OnErr result (GoesOn engine.old engine.new engine.old.mode engine.old.cells.items) }
    ensures masters { engine.new.masters ≡ engine.old.masters }
    ensures control { engine.new.control ≡ engine.old.control }
    ensures spots { engine.new.spots ≡ engine.old.spots }
    ensures number { OnOk result (engine.new.numbered.objects ≡ engine.old.numbered.objects + 1) }
    ensures events { engine.new.events ≡ engine.old.events }
    ensures picks { engine.new.picks ≡ engine.old.picks }
{
    let number = engine.numbered.objects + 1;
    engine.stock.declare(number, record, newest.number, size)?;
    own_newest(engine, newest, slot, record);
    Ok(())
}

/// Lets the components of the newest object begin, of a record type, which this master owns, over the frame of its declaration, for which
/// there is room (RM 7.6); the declaration goes on at this place. Where nothing is executed for the creation of the object, it is a layer
/// of its master at once (RM 7.6.1).
#[inline(always)]
pub fn begin_declared(
    engine: &mut Engine,
    code: &Code,
    declared: Declared,
    record: usize,
    master: u64,
    place: usize,
)
    ghost t: { Maker × NewObject }
    requires maker { t.0 ≡ maker_of declared }
    requires newest { IsDeclared code.now engine.old «record» place t.1 }
    requires control { vec_len engine.old.control + 2 ≤ vec_capacity engine.old.control }
    requires spots { vec_len engine.old.spots < vec_capacity engine.old.spots }
    ensures { Makes code.now engine.old engine.new (Table.create_object code.now t.0 (Table.newborn t.1.number «record» (OwnerOf.Master master)) t.1.point t.1.control t.1.world) }
{
    if is_made_at_once(code, record) {
        return become_layer(engine, place);
    }
    engine
        .control
        .push_reserved(Frame::Creating { declared, place });
    let spot = Spot::whole(engine.alloc, engine.numbered.objects);
    begin_part(engine, code, spot, record, Owner::Master(master));
}

/// Declares an object of a record type without a value (RM 3.3.1): it is created, and its components are to begin, if anything is
/// executed for that (RM 7.6); unchanged where memory is refused.
#[inline(never)]
pub fn declare(
    engine: &mut Engine,
    code: &Code,
    slot: usize,
    record: usize,
    place: usize,
) -> Result<(), AllocError>
    ghost s: { State }
    requires valid { IsValid code.now }
    requires before { Before code.now engine.old place (InstrOf.Declare slot «record») s }
    requires place { place + 1 < 2 ^ 64 }
    requires objects { engine.old.numbered.objects + 1 < 2 ^ 64 }
    ensures ok { OnOk result (Makes code.now engine.old engine.new (Table.by_instr code.now (Some (InstrOf.Declare slot «record»)) s.operands (here_of place s))) }
    ensures err { OnErr result (GoesOn engine.old engine.new engine.old.mode engine.old.cells.items) }
{
    let newest = engine.newest();
    let size = size_of(code, record);
    reserve_object(engine)?;
    create(engine, newest, slot, record, size)?;
    begin_declared(
        engine,
        code,
        Declared::Object,
        record,
        newest.number,
        place + 1,
    );
    Ok(())
}

/// Lets the newest owned object, of a record type, which has taken a value, be adjusted, for which there is room (RM 7.6); its
/// declaration goes on at this place. Where no part of it is controlled, it is a layer of its master at once (RM 7.6.1).
pub fn adjust_new(engine: &mut Engine, code: &Code, record: usize, master: u64, place: usize)
    ghost t: { NewObject }
    requires newest { IsDeclared code.now engine.old «record» place t }
    requires control { vec_len engine.old.control + 2 ≤ vec_capacity engine.old.control }
    requires spots { vec_len engine.old.spots < vec_capacity engine.old.spots }
    ensures { Makes code.now engine.old engine.new (Table.adjust_new code.now (Table.parts_of code.now «record») ByDeclaration (Table.newborn t.number «record» (OwnerOf.Master master)) t.point t.control t.world) }
{
    if let Parts::Plain = parts_of(code, record) {
        return become_layer(engine, place);
    }
    let first = engine.count_noted();
    let copy = Frame::Copying { place, first };
    let object = engine.numbered.objects;
    adjust_object(engine, code, copy, object, record, Owner::Master(master));
}

/// Declares an object of a record type with the value of the part that is the newest operand, or with the value of a record (RM 3.3.1): it
/// is created and takes the value, and is to be adjusted (RM 7.6). Where there is no such object, the program is erroneous (RM 13.11.2).
/// Unchanged where memory is refused.
#[inline(always)]
pub fn declare_copy(
    engine: &mut Engine,
    code: &Code,
    slot: usize,
    record: usize,
    place: usize,
) -> Result<(), AllocError>
    ghost s: { State }
    requires valid { IsValid code.now }
    requires before { Before code.now engine.old place (InstrOf.DeclareCopy slot «record») s }
    requires place { place + 1 < 2 ^ 64 }
    requires objects { engine.old.numbered.objects + 1 < 2 ^ 64 }
    ensures ok { OnOk result (Makes code.now engine.old engine.new (Table.by_instr code.now (Some (InstrOf.DeclareCopy slot «record»)) s.operands (here_of place s))) }
    ensures err { OnErr result (GoesOn engine.old engine.new engine.old.mode engine.old.cells.items) }
{
    if is_newest_value(engine, code, place) {
        declare_value(engine, code, slot, record, place)
    } else {
        declare_part(engine, code, slot, record, place)
    }
}

/// Declares an object of a record type with the value of the part that is the newest operand, as `declare_copy` does.
#[inline(never)]
fn declare_part(
    engine: &mut Engine,
    code: &Code,
    slot: usize,
    record: usize,
    place: usize,
) -> Result<(), AllocError>
    ghost s: { State }
    requires valid { IsValid code.now }
    requires before { Before code.now engine.old place (InstrOf.DeclareCopy slot «record») s }
    requires part { IsPart s.operands }
    requires place { place + 1 < 2 ^ 64 }
    requires objects { engine.old.numbered.objects + 1 < 2 ^ 64 }
    ensures ok { OnOk result (Makes code.now engine.old engine.new (Table.by_instr code.now (Some (InstrOf.DeclareCopy slot «record»)) s.operands (here_of place s))) }
    ensures err { OnErr result (GoesOn engine.old engine.new engine.old.mode engine.old.cells.items) }
{
    let newest = engine.newest();
    let newest_spot = engine.count_spots() - 1;
    let spot = &engine.spots[newest_spot];
    let start = spot.offset();
    let source = spot.object();
    if !engine.stock.exists(source) {
        engine.mode = Mode::Stopped(Stop::UseAfterFree);
        return Ok(());
    }
    let size = size_of(code, record);
    reserve_object(engine)?;
    create(engine, newest, slot, record, size)?;
    engine
        .stock
        .copy(source, start, engine.numbered.objects, 0, size);
    let _ = engine.spots.take_last();
    adjust_new(engine, code, record, newest.number, place + 1);
    Ok(())
}

/// Declares an object of a record type with the value of a record that is the newest operand (RM 3.3.1): it is created and takes the value,
/// and is to be adjusted (RM 7.6). Unchanged where memory is refused.
#[inline(never)]
pub fn declare_value(
    engine: &mut Engine,
    code: &Code,
    slot: usize,
    record: usize,
    place: usize,
) -> Result<(), AllocError>
    ghost s: { State }
    requires valid { IsValid code.now }
    requires before { Before code.now engine.old place (InstrOf.DeclareCopy slot «record») s }
    requires value { IsValue s.operands }
    requires place { place + 1 < 2 ^ 64 }
    requires objects { engine.old.numbered.objects + 1 < 2 ^ 64 }
    ensures ok { OnOk result (Makes code.now engine.old engine.new (Table.by_instr code.now (Some (InstrOf.DeclareCopy slot «record»)) s.operands (here_of place s))) }
    ensures err { OnErr result (GoesOn engine.old engine.new engine.old.mode engine.old.cells.items) }
{
    let newest = engine.newest();
    let size = size_of(code, record);
    let value = newest_value(engine, code, size, place)?;
    reserve_object(engine)?;
    create(engine, newest, slot, record, size)?;
    engine
        .stock
        .write_all(engine.numbered.objects, 0, value.as_slice());
    let _ = engine.spots.take_last();
    adjust_new(engine, code, record, newest.number, place + 1);
    Ok(())
}
