//! Allocators with a value (RM 4.8): the object takes the value of a part of another one, and joins its collection once it is adjusted; where
//! an Adjust of it failed, those of its parts that are adjusted are finalized before it is gone (RM 7.6, 7.6.1).

ghost use Rattle.std.specs.Prelude.{◌≡◌, ◌+◌, ◌^◌, ◌<◌, ◌≤◌, ◌∷◌, ◌++◌, [], ℕ, List, OnErr, OnOk, Some, drop, length, reverse, vec_capacity, vec_len};
ghost use Rattle.ctl_program.specs.declared.types.Ty.{Ty};
ghost use Rattle.ctl_tree.specs.declared.event.Owner.TheVariants as OwnerOf;
ghost use Rattle.ctl_meaning.specs.Changes.{object_at};
ghost use Rattle.ctl_meaning.specs.Finalization as S;
ghost use Rattle.ctl_meaning.specs.Objects.{cells_at, first_cells, object_in};
ghost use Rattle.ctl_meaning.specs.World.{Object};
ghost use Rattle.ctl_code.specs.declared.code.Instr.TheVariants as InstrOf;
ghost use Rattle.ctl_code.specs.Table as Table;
ghost use Rattle.ctl_code.specs.Table.{Grant};
ghost use Rattle.ctl_code.specs.States.{ByAllocator, Cells, Giving, State};
ghost use Rattle.ctl_code.specs.Valid.{IsValid};
ghost use Rattle.ctl_engine.specs.Copying.{IsMember, point_at, with_value};
ghost use Rattle.ctl_frames.specs.declared.frame.Frame.{Frame};
ghost use Rattle.ctl_frames.specs.declared.frame.Frame.TheVariants as FrameOf;
ghost use Rattle.ctl_places.specs.Granting.{storage_seen};
ghost use Rattle.ctl_engine.specs.Moves.{Before, BeforeResuming, GoesOn, Makes, here_of};
ghost use Rattle.ctl_engine.specs.Shows as Shows;
ghost use Rattle.ctl_engine.specs.Shows.{kept};
ghost use Rattle.ctl_engine.specs.RecordValues.{IsPart, IsValue};
ghost use Rattle.ctl_frames.specs.Spots.{first_spot, value_on_top};

use crate::allocating::{end_allocation, enter_allocate, place_member, set_for};
use crate::granting::{add_member, grantor};
use ctl_code::code::{Code, Parts};
use ctl_engine::engine::Engine;
use ctl_frames::frame::{Ended, Frame, Mode};
use ctl_frames::parts::{parts_of, size_of};
use ctl_frames::spots::Spot;
use ctl_lifetimes::adjusting::adjust_object;
use ctl_lifetimes::creating::undo_copy;
use ctl_places::pool_blocks::Grantor;
use ctl_places::record_values::{is_newest_value, newest_cells, newest_value};
use ctl_program::types::Ty;
use ctl_tree::ending::Stop;
use ctl_tree::event::Owner;
use std::alloc::AllocError;

/// Lets the object of this number, of a record type, which is allocated for the collection of this number and has taken a value, be
/// adjusted, for which there is room (RM 7.6); its allocator goes on at this place. Where no part of it is controlled, it joins its
/// collection at once (RM 4.8).
fn adjust_member(
    engine: &mut Engine,
    code: &Code,
    set: u64,
    object: u64,
    record: usize,
    place: usize,
)
    ghost s: { State }
    requires valid { IsValid code.now }
    requires member { IsMember code.now engine.old object place s }
    requires control { vec_len engine.old.control + 2 ≤ vec_capacity engine.old.control }
    requires spots { vec_len engine.old.spots < vec_capacity engine.old.spots }
    ensures { Makes code.now engine.old engine.new (Table.adjust_new code.now (Table.parts_of code.now «record») ByAllocator (Table.newborn object «record» (OwnerOf.Collection set)) (point_at place s) s.control s.world) }
{
    if let Parts::Plain = parts_of(code, record) {
        return end_allocation(engine, code, Ended::Complete, object, place);
    }
    let first = engine.count_noted();
    let copy = Frame::AllocatingCopy {
        object,
        record,
        place,
        first,
    };
    adjust_object(engine, code, copy, object, record, Owner::Collection(set));
}

/// Puts the value of a record in the place of the newest part, in this cell.
fn put_value(engine: &mut Engine, cell: usize, value: Vec<u64>)
    ghost below: { List S.Spot }
    requires cell { cell < length engine.old.cells.items }
    requires part { (part : S.Spot) × (engine.old.spots.items ≡ below ++ part ∷ []) }
    ensures mode { engine.new.mode ≡ engine.old.mode }
    ensures kept { kept engine.new ≡ with_value cell value.items below (kept engine.old) }
    ensures stock { engine.new.stock ≡ engine.old.stock }
    ensures given { engine.new.given_masters ≡ engine.old.given_masters }
    ensures masters { engine.new.masters ≡ engine.old.masters }
    ensures control { engine.new.control ≡ engine.old.control }
    ensures events { engine.new.events ≡ engine.old.events }
    ensures picks { engine.new.picks ≡ engine.old.picks }
    ensures formals { engine.new.formals ≡ engine.old.formals }
{
    let _ = engine.spots.take_last();
    engine.spots.push_reserved(Spot::of_value(value));
    engine.cells[cell] = 1;
}

/// Calls the Allocate that the user wrote for the type of the pool of this number, for an object of a record type that is to take this
/// value, that of the newest operand (RM 4.8, 13.11): the value takes the place of the operand, and stays one meanwhile. Unchanged where
/// memory is refused.
fn call_over_value(
    engine: &mut Engine,
    code: &Code,
    set: u64,
    record: usize,
    pool: u64,
    allocate: usize,
    value: Vec<u64>,
    place: usize,
) -> Result<(), AllocError>
    ghost s: { State × Object × ℕ × List ℕ }
    requires valid { IsValid code.now }
    requires before { (access : ℕ) × (ty : Ty) × (at : ℕ) × Before code.now engine.old place (InstrOf.NewCopy access «record» ty at) s.0 }
    requires value { s.3 ≡ value.items }
    requires set { s.2 ≡ set }
    requires pool { object_in pool engine.old.stock.objects ≡ Some s.1 }
    requires operation { Table.operation_for (λ x. x.allocate) code.now s.1.ty ≡ Some allocate }
    requires place { place + 1 < 2 ^ 64 }
    requires masters { engine.old.given_masters + 1 < 2 ^ 64 }
    ensures ok { OnOk result (Makes code.now engine.old engine.new (Table.call_allocate code.now (Table.units_of code.now «record») set s.1 allocate (Cells s.3 ∷ drop 1 s.0.operands) (here_of place s.0))) }
    ensures err { OnErr result (GoesOn engine.old engine.new engine.old.mode engine.old.cells.items) }
{
    let cell = engine.window() + code.kinds.height_at(place, 1);
    let base = cell + 3;
    engine.prepare(base, code.room, 1)?;
    put_value(engine, cell, value);
    enter_allocate(
        engine,
        code,
        set,
        Ty::Record(record),
        pool,
        allocate,
        place,
        cell + 1,
    );
    Ok(())
}

/// Allocates an object of a record type for the collection of this number, with storage of the pool of an access type and the value of a
/// record that is the newest operand, as `copy_member` does with that of a part.
fn value_member(
    engine: &mut Engine,
    code: &Code,
    access: usize,
    set: u64,
    record: usize,
    place: usize,
) -> Result<(), AllocError>
    ghost s: { State × (ℕ → Grant) }
    requires valid { IsValid code.now }
    requires before { (ty : Ty) × (at : ℕ) × Before code.now engine.old place (InstrOf.NewCopy access «record» ty at) s.0 }
    requires value { IsValue s.0.operands }
    requires storage { s.1 ≡ storage_seen code.now access s.0 }
    requires place { place + 1 + 1 < 2 ^ 64 }
    requires objects { engine.old.numbered.objects + 1 < 2 ^ 64 }
    requires masters { engine.old.given_masters + 1 < 2 ^ 64 }
    ensures ok { OnOk result (Makes code.now engine.old engine.new (Table.copy_at code.now «record» (first_cells (Table.size_of code.now «record») (value_on_top s.0.operands)) set (s.1 (Table.units_of code.now «record»)) (drop 1 s.0.operands) (here_of place s.0))) }
    ensures err { OnErr result (GoesOn engine.old engine.new engine.old.mode engine.old.cells.items) }
{
    let size = size_of(code, record);
    let value = newest_value(engine, code, size, place)?;
    let grantor = grantor(engine, code, access);
    if let Grantor::User { pool, allocate } = grantor {
        return call_over_value(engine, code, set, record, pool, allocate, value, place);
    }
    if let Some(refused) = add_member(engine, code, grantor, set, Ty::Record(record))? {
        engine.go_on(refused);
        return Ok(());
    }
    let number = engine.numbered.objects;
    engine.stock.write_all(number, 0, value.as_slice());
    let _ = engine.spots.take_last();
    adjust_member(engine, code, set, number, record, place + 2);
    Ok(())
}

/// Allocates an object of a record type for the collection of this number, with storage of the pool of an access type and the value of the
/// part that is the newest operand, of an object that is there (RM 4.8, 13.11): it is created and takes the value, and is to be adjusted
/// (RM 7.6); or the Allocate is called that the user wrote for the type of the pool. Where there is no storage, Storage_Error is raised, or
/// the program is erroneous (RM 13.11.2). Unchanged where memory is refused.
fn copy_member(
    engine: &mut Engine,
    code: &Code,
    access: usize,
    set: u64,
    record: usize,
    place: usize,
) -> Result<(), AllocError>
    ghost s: { State × Object × (ℕ → Grant) }
    requires valid { IsValid code.now }
    requires before { (ty : Ty) × (at : ℕ) × Before code.now engine.old place (InstrOf.NewCopy access «record» ty at) s.0 }
    requires part { IsPart s.0.operands }
    requires source { object_at (first_spot s.0.operands).object s.0.world ≡ Some s.1 }
    requires storage { s.2 ≡ storage_seen code.now access s.0 }
    requires place { place + 1 + 1 < 2 ^ 64 }
    requires objects { engine.old.numbered.objects + 1 < 2 ^ 64 }
    requires masters { engine.old.given_masters + 1 < 2 ^ 64 }
    ensures ok { OnOk result (Makes code.now engine.old engine.new (Table.copy_at code.now «record» (cells_at (first_spot s.0.operands).offset (Table.size_of code.now «record») s.1) set (s.2 (Table.units_of code.now «record»)) (drop 1 s.0.operands) (here_of place s.0))) }
    ensures err { OnErr result (GoesOn engine.old engine.new engine.old.mode engine.old.cells.items) }
{
    let grantor = grantor(engine, code, access);
    let size = size_of(code, record);
    if let Grantor::User { pool, allocate } = grantor {
        let value = newest_cells(engine, code, size, place)?;
        return call_over_value(engine, code, set, record, pool, allocate, value, place);
    }
    let newest = engine.count_spots() - 1;
    let spot = &engine.spots[newest];
    let start = spot.offset();
    let source = spot.object();
    if let Some(refused) = add_member(engine, code, grantor, set, Ty::Record(record))? {
        engine.go_on(refused);
        return Ok(());
    }
    let number = engine.numbered.objects;
    engine.stock.copy(source, start, number, 0, size);
    let _ = engine.spots.take_last();
    adjust_member(engine, code, set, number, record, place + 2);
    Ok(())
}

/// Allocates an object of a record type with the value of a record at the address of a pool that an Allocate gave (RM 4.8, 13.11): it takes
/// the value, which is the operand below what that gave, and is to be adjusted (RM 7.6). Where no object may be there, the program is
/// erroneous (RM 13.11.2). Unchanged where memory is refused.
pub fn allocate_copy_at_address(
    engine: &mut Engine,
    code: &Code,
    record: usize,
    place: usize,
) -> Result<(), AllocError>
    ghost s: { State × Ty × ℕ }
    requires valid { IsValid code.now }
    requires before { Before code.now engine.old place (InstrOf.NewCopyIn «record» s.1 s.2) s.0 }
    requires place { place + 1 < 2 ^ 64 }
    requires objects { engine.old.numbered.objects + 1 < 2 ^ 64 }
    ensures ok { OnOk result (Makes code.now engine.old engine.new (Table.by_instr code.now (Some (InstrOf.NewCopyIn «record» s.1 s.2)) s.0.operands (here_of place s.0))) }
    ensures err { OnErr result (GoesOn engine.old engine.new engine.old.mode engine.old.cells.items) }
{
    match place_member(engine, code, Ty::Record(record), place)? {
        Ok(set) => {
            let number = engine.numbered.objects;
            let value = engine.spots.take_last();
            engine.stock.write_all(number, 0, value.cells());
            adjust_member(engine, code, set, number, record, place + 1);
        }
        Err(refused) => engine.go_on(refused),
    }
    Ok(())
}

/// Allocates an object of a record type for the collection of an access type with the value of the part that is the newest operand, or with
/// the value of a record (RM 4.8): it takes the value, and is to be adjusted (RM 7.6); or the Allocate is called that the user wrote for the
/// type of its storage pool (RM 13.11). Where the finalization of the collection has started, an object with a
/// controlled part is not: Program_Error is raised; and Storage_Error where the storage pool of the access type is exhausted (RM 13.11).
/// Where the object of the part, the collection or the pool is gone, the program is erroneous (RM 13.11.2). Unchanged where memory is
/// refused.
pub fn allocate_copy(
    engine: &mut Engine,
    code: &Code,
    access: usize,
    record: usize,
    place: usize,
) -> Result<(), AllocError>
    ghost s: { State × Ty × ℕ }
    requires valid { IsValid code.now }
    requires before { Before code.now engine.old place (InstrOf.NewCopy access «record» s.1 s.2) s.0 }
    requires place { place + 1 + 1 < 2 ^ 64 }
    requires objects { engine.old.numbered.objects + 1 < 2 ^ 64 }
    requires masters { engine.old.given_masters + 1 < 2 ^ 64 }
    ensures ok { OnOk result (Makes code.now engine.old engine.new (Table.by_instr code.now (Some (InstrOf.NewCopy access «record» s.1 s.2)) s.0.operands (here_of place s.0))) }
    ensures err { OnErr result (GoesOn engine.old engine.new engine.old.mode engine.old.cells.items) }
{
    if is_newest_value(engine, code, place) {
        allocate_value(engine, code, access, record, place)
    } else {
        allocate_part(engine, code, access, record, place)
    }
}

/// Allocates an object of a record type with the value of the part that is the newest operand, as `allocate_copy` does.
fn allocate_part(
    engine: &mut Engine,
    code: &Code,
    access: usize,
    record: usize,
    place: usize,
) -> Result<(), AllocError>
    ghost s: { State × Ty × ℕ }
    requires valid { IsValid code.now }
    requires before { Before code.now engine.old place (InstrOf.NewCopy access «record» s.1 s.2) s.0 }
    requires part { IsPart s.0.operands }
    requires place { place + 1 + 1 < 2 ^ 64 }
    requires objects { engine.old.numbered.objects + 1 < 2 ^ 64 }
    requires masters { engine.old.given_masters + 1 < 2 ^ 64 }
    ensures ok { OnOk result (Makes code.now engine.old engine.new (Table.by_instr code.now (Some (InstrOf.NewCopy access «record» s.1 s.2)) s.0.operands (here_of place s.0))) }
    ensures err { OnErr result (GoesOn engine.old engine.new engine.old.mode engine.old.cells.items) }
{
    let newest = engine.count_spots() - 1;
    if !engine.stock.exists(engine.spots[newest].object()) {
        engine.go_on(Mode::Stopped(Stop::UseAfterFree));
        return Ok(());
    }
    match set_for(engine, code, access, Ty::Record(record)) {
        Ok(set) => copy_member(engine, code, access, set, record, place),
        Err(refused) => {
            engine.go_on(refused);
            Ok(())
        }
    }
}

/// Allocates an object of a record type with the value of a record that is the newest operand, as `allocate_copy` does.
fn allocate_value(
    engine: &mut Engine,
    code: &Code,
    access: usize,
    record: usize,
    place: usize,
) -> Result<(), AllocError>
    ghost s: { State × Ty × ℕ }
    requires valid { IsValid code.now }
    requires before { Before code.now engine.old place (InstrOf.NewCopy access «record» s.1 s.2) s.0 }
    requires value { IsValue s.0.operands }
    requires place { place + 1 + 1 < 2 ^ 64 }
    requires objects { engine.old.numbered.objects + 1 < 2 ^ 64 }
    requires masters { engine.old.given_masters + 1 < 2 ^ 64 }
    ensures ok { OnOk result (Makes code.now engine.old engine.new (Table.by_instr code.now (Some (InstrOf.NewCopy access «record» s.1 s.2)) s.0.operands (here_of place s.0))) }
    ensures err { OnErr result (GoesOn engine.old engine.new engine.old.mode engine.old.cells.items) }
{
    match set_for(engine, code, access, Ty::Record(record)) {
        Ok(set) => value_member(engine, code, access, set, record, place),
        Err(refused) => {
            engine.go_on(refused);
            Ok(())
        }
    }
}

/// Goes on with the allocator of the object of this number, of a record type, which has taken a value, behind its adjustment, which has
/// ended so: what is noted of it, from this place on, is dropped, and the object joins its collection, or it is gone and the exception is
/// raised (RM 4.8, 7.6); or those of its parts that are adjusted are finalized (RM 7.6.1). Unchanged where memory is refused.
pub fn resume_allocating_copy(
    engine: &mut Engine,
    code: &Code,
    ended: Ended,
    object: u64,
    record: usize,
    place: usize,
    first: usize,
) -> Result<(), AllocError>
    ghost s: { State }
    requires valid { IsValid code.now }
    requires before { BeforeResuming code.now engine.old s }
    requires top { (fs : List Frame) × (reverse engine.old.control.items ≡ FrameOf.AllocatingCopy object «record» place first ∷ fs) }
    requires number { engine.old.given_masters + 1 < 2 ^ 64 }
    ensures ok { OnOk result (Makes code.now engine.old engine.new (Table.act code.now (Giving (Shows.tried_of ended)) s.control s.operands s.world 0)) }
    ensures err { OnErr result (GoesOn engine.old engine.new engine.old.mode engine.old.cells.items) }
{
    if let Ended::OperationFailed = ended {
        let creation = Frame::Allocating { object, place };
        return undo_copy(engine, code, creation, object, record, first);
    }
    let _ = engine.control.take_last();
    engine.noted.truncate(first);
    end_allocation(engine, code, ended, object, place);
    Ok(())
}
