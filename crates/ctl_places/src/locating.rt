//! Instructions whose operand is a part of an object (RM 4.1, 4.1.3, 5.2): it is found, one of its components takes its place, or the value
//! of one does, it is dropped, and a component takes a value; access values that designate the object of one (RM 3.10.2), and a new object
//! that takes the value below its access value (RM 4.8).

ghost use Rattle.std.specs.Prelude.{◌≡◌, ◌+◌, ◌^◌, ◌<◌, ◌∷◌, [], ℕ, IfNone, IfOk, IfSome, OnErr, OnOk, Some, IsTrue, IsFalse, reverse};
ghost use Rattle.ctl_code.specs.declared.code.Instr.TheVariants as InstrOf;
ghost use Rattle.ctl_program.specs.declared.types.Ty.{Ty};
ghost use Rattle.ctl_code.specs.Table as Table;
ghost use Rattle.ctl_code.specs.States.{State, Word, object_of, worth};
ghost use Rattle.ctl_code.specs.Valid.{IsValid};
ghost use Rattle.ctl_frames.specs.declared.frame.Mode.TheVariants as ModeOf;
ghost use Rattle.ctl_frames.specs.Holders.{IsThere, found_in};
ghost use Rattle.ctl_frames.specs.Masters.{first_window};
ghost use Rattle.ctl_engine.specs.Moves.{Before, GoesOn, Makes, here_of};
ghost use Rattle.ctl_engine.specs.RecordValues.{IsPart};
ghost use Rattle.ctl_frames.specs.Spots.{located, spot_from};
ghost use Rattle.ctl_engine.specs.Windows.{Comes, moded};
ghost use Rattle.ctl_tree.specs.declared.ending.Stop.TheVariants as StopOf;

use crate::components::read_at;
use crate::record_values::{is_newest_value, select_of_value, take_of_value};
use crate::seen::holder_seen;
use crate::variables::set_cell;
use ctl_code::code::{Cell, Code, Named};
use ctl_engine::engine::Engine;
use ctl_frames::frame::{Holder, Mode};
use ctl_frames::spots::{Spot, Start};
use ctl_program::types::Var;
use room::reserve;
use std::alloc::AllocError;

/// Answers the part that a slot holds, or the value of a record, as a copy.
fn spot_of(engine: &Engine, holder: Holder) -> Result<Spot, AllocError>
    requires { IsThere engine.now.formals.items holder }
    ensures { IfOk result (λ spot. (x : Word) × (found_in engine.now.formals.items (Some holder) ≡ Some x) × (located (x ∷ []) ≡ spot ∷ [])) }
{
    match holder {
        Holder::Whole(object) => Ok(Spot::whole(engine.alloc, object)),
        Holder::Bound(at) => engine.formals[at].copied(engine.alloc),
    }
}

/// Answers the number of the object that is held, or of which a part is.
pub fn number_of(engine: &Engine, holder: Holder) -> u64
    requires { IsThere engine.now.formals.items holder }
    ensures { (x : Word) × (found_in engine.now.formals.items (Some holder) ≡ Some x) × (result ≡ object_of x) }
{
    match holder {
        Holder::Whole(object) => object,
        Holder::Bound(at) => engine.formals[at].object(),
    }
}

/// Answers the cell that what is held has as an operand: the number of the object, or of which a part is, and 1 for the copy of a record.
fn cell_of(engine: &Engine, holder: Holder) -> u64
    requires { IsThere engine.now.formals.items holder }
    ensures { (x : Word) × (found_in engine.now.formals.items (Some holder) ≡ Some x) × (result ≡ worth x) }
{
    match holder {
        Holder::Whole(object) => object,
        Holder::Bound(at) => engine.formals[at].cell(),
    }
}

/// Puts an access value that designates the object that a variable holds, and answers what comes next (RM 3.10.2); where there is none,
/// the program is erroneous (RM 13.11.2), and nothing changes.
pub fn designate_variable(
    engine: &mut Engine,
    code: &Code,
    variable: &Var,
    to: &Cell,
    place: usize,
) -> Option<usize>
    ghost s: { State }
    requires valid { IsValid code.now }
    requires before { (ty : Ty) × Before code.now engine.old place (InstrOf.Designate variable.now ty to.now) s }
    requires place { place + 1 < 2 ^ 64 }
    ensures passed { (ty : Ty) → IfSome result (λ next. (engine.new.mode ≡ ModeOf.At next) × Makes code.now engine.old engine.new (Table.by_instr code.now (Some (InstrOf.Designate variable.now ty to.now)) s.operands (here_of place s))) }
    ensures left { IfNone result (GoesOn engine.old engine.new engine.old.mode engine.old.cells.items) }
    ensures gone { (ty : Ty) → IfNone result (Comes code.now engine.new (ModeOf.Stopped StopOf.UseAfterFree) engine.new.cells.items (Table.by_instr code.now (Some (InstrOf.Designate variable.now ty to.now)) s.operands (here_of place s))) }
{
    match holder_seen(engine, code, variable) {
        Some(holder) => {
            let object = number_of(engine, holder);
            engine.put(object, to, place);
            Some(place + 1)
        }
        None => None,
    }
}

/// Puts the part that a variable holds, as a new operand with this cell, and answers what comes next; where there is none, the program is
/// erroneous (RM 13.11.2), and nothing changes, and so where memory is refused.
pub fn locate(
    engine: &mut Engine,
    code: &Code,
    variable: &Var,
    at: usize,
    place: usize,
) -> Result<Option<usize>, AllocError>
    ghost s: { State }
    requires valid { IsValid code.now }
    requires before { (t : ℕ) × Before code.now engine.old place (InstrOf.Locate variable.now t at) s }
    requires place { place + 1 < 2 ^ 64 }
    ensures passed { (t : ℕ) → IfOk result (λ some. IfSome some (λ next. (engine.new.mode ≡ ModeOf.At next) × Makes code.now engine.old engine.new (Table.by_instr code.now (Some (InstrOf.Locate variable.now t at)) s.operands (here_of place s)))) }
    ensures left { IfOk result (λ some. IfNone some (GoesOn engine.old engine.new engine.old.mode engine.old.cells.items)) }
    ensures gone { (t : ℕ) → IfOk result (λ some. IfNone some (Comes code.now engine.new (ModeOf.Stopped StopOf.UseAfterFree) engine.new.cells.items (Table.by_instr code.now (Some (InstrOf.Locate variable.now t at)) s.operands (here_of place s)))) }
    ensures err { OnErr result (GoesOn engine.old engine.new engine.old.mode engine.old.cells.items) }
{
    let Some(holder) = holder_seen(engine, code, variable) else {
        return Ok(None);
    };
    let spot = spot_of(engine, holder)?;
    reserve(&mut engine.spots, 1)?;
    let cell = cell_of(engine, holder);
    engine.spots.push_reserved(spot);
    let named = Named::Operand;
    engine.put(cell, &Cell { at, named }, place);
    Ok(Some(place + 1))
}

/// Answers where the part begins that a slot holds, if no way leads to it: the whole of an object, or such a part of one.
#[inline(always)]
fn start_of(engine: &Engine, holder: Holder) -> Option<Start>
    requires { IsThere engine.now.formals.items holder }
    ensures { IfSome result (λ p. (x : Word) × (found_in engine.now.formals.items (Some holder) ≡ Some x) × (located (x ∷ []) ≡ spot_from p ∷ []) × (p.object ≡ worth x)) }
{
    match holder {
        Holder::Whole(object) => Some(Start { object, offset: 0 }),
        Holder::Bound(at) => engine.formals[at].start(),
    }
}

/// Puts the part that a variable holds, as `locate` does, if no memory is asked for, in the newest window, which begins with this cell; tells
/// whether it did. Else nothing changes.
pub fn locate_at_once(
    engine: &mut Engine,
    window: usize,
    code: &Code,
    variable: &Var,
    at: usize,
    place: usize,
) -> bool
    ghost s: { State }
    requires valid { IsValid code.now }
    requires before { (t : ℕ) × Before code.now engine.old place (InstrOf.Locate variable.now t at) s }
    requires window { window ≡ first_window (reverse engine.old.masters.items) }
    requires place { place + 1 < 2 ^ 64 }
    ensures passed { (t : ℕ) → IsTrue result → Makes code.now engine.old (moded engine.new (ModeOf.At (place + 1))) (Table.by_instr code.now (Some (InstrOf.Locate variable.now t at)) s.operands (here_of place s)) }
    ensures masters { engine.new.masters ≡ engine.old.masters }
    ensures left { IsFalse result → GoesOn engine.old engine.new engine.old.mode engine.old.cells.items }
{
    let _ = place;
    if engine.spots.len() == engine.spots.capacity() {
        return false;
    }
    let Some(holder) = holder_seen(engine, code, variable) else {
        return false;
    };
    let Some(start) = start_of(engine, holder) else {
        return false;
    };
    let named = Named::Operand;
    set_cell(engine, window, start.object, &Cell { at, named });
    let spot = Spot::without_path(engine.alloc, start.object, start.offset);
    engine.spots.push_reserved(spot);
    true
}

/// Goes on from the part that is the newest operand, or from the value of a record, to a component of it, by the first cell of the component
/// and its position (RM 4.1.3); unchanged where memory is refused.
pub fn select(
    engine: &mut Engine,
    code: &Code,
    offset: usize,
    position: usize,
    place: usize,
) -> Result<(), AllocError>
    ghost s: { State }
    requires before { (t : ℕ) × (part : ℕ) × Before code.now engine.old place (InstrOf.Select t position part) s }
    requires place { place + 1 < 2 ^ 64 }
    ensures mode { OnOk result (engine.new.mode ≡ ModeOf.At (place + 1)) }
    ensures ok { (t part : ℕ) → offset ≡ Table.offset_of code.now t position → OnOk result (Makes code.now engine.old engine.new (Table.by_instr code.now (Some (InstrOf.Select t position part)) s.operands (here_of place s))) }
    ensures err { OnErr result (GoesOn engine.old engine.new engine.old.mode engine.old.cells.items) }
{
    if is_newest_value(engine, code, place) {
        select_of_value(engine, code, offset, position, place)
    } else {
        select_of_part(engine, code, offset, position, place)
    }
}

/// Goes on from the part that is the newest operand to a component of it, as `select` does.
fn select_of_part(
    engine: &mut Engine,
    code: &Code,
    offset: usize,
    position: usize,
    place: usize,
) -> Result<(), AllocError>
    ghost s: { State }
    requires before { (t : ℕ) × (part : ℕ) × Before code.now engine.old place (InstrOf.Select t position part) s }
    requires part { IsPart s.operands }
    requires place { place + 1 < 2 ^ 64 }
    ensures mode { OnOk result (engine.new.mode ≡ ModeOf.At (place + 1)) }
    ensures ok { (t part : ℕ) → offset ≡ Table.offset_of code.now t position → OnOk result (Makes code.now engine.old engine.new (Table.by_instr code.now (Some (InstrOf.Select t position part)) s.operands (here_of place s))) }
    ensures err { OnErr result (GoesOn engine.old engine.new engine.old.mode engine.old.cells.items) }
{
    let _ = code;
    let newest = engine.count_spots() - 1;
    engine.spots[newest].select(offset, position)?;
    engine.mode = Mode::At(place + 1);
    Ok(())
}

/// Drops the part that is the newest operand, or the value of a record.
pub fn drop_part(engine: &mut Engine, code: &Code, place: usize)
    ghost s: { State }
    requires before { (t : ℕ) × Before code.now engine.old place (InstrOf.DropPart t) s }
    requires place { place + 1 < 2 ^ 64 }
    ensures mode { engine.new.mode ≡ ModeOf.At (place + 1) }
    ensures makes { (t : ℕ) → Makes code.now engine.old engine.new (Table.by_instr code.now (Some (InstrOf.DropPart t)) s.operands (here_of place s)) }
{
    let _ = code;
    let _ = engine.spots.take_last();
    engine.mode = Mode::At(place + 1);
}

/// Puts the value of a component in place of the part that is the newest operand, or of the value of a record, by the first cell of the
/// component, and answers what comes next; where there is no such object, the program is erroneous (RM 13.11.2), and nothing changes.
pub fn take_part(
    engine: &mut Engine,
    code: &Code,
    offset: usize,
    to: &Cell,
    place: usize,
) -> Option<usize>
    ghost s: { State }
    requires valid { IsValid code.now }
    requires before { (t : ℕ) × (position : ℕ) × (ty : Ty) × Before code.now engine.old place (InstrOf.TakePart t position ty to.now) s }
    requires place { place + 1 < 2 ^ 64 }
    ensures passed { (t position : ℕ) (ty : Ty) → offset ≡ Table.offset_of code.now t position → IfSome result (λ next. (engine.new.mode ≡ ModeOf.At next) × Makes code.now engine.old engine.new (Table.by_instr code.now (Some (InstrOf.TakePart t position ty to.now)) s.operands (here_of place s))) }
    ensures left { IfNone result (GoesOn engine.old engine.new engine.old.mode engine.old.cells.items) }
    ensures gone { (t position : ℕ) (ty : Ty) → offset ≡ Table.offset_of code.now t position → IfNone result (Comes code.now engine.new (ModeOf.Stopped StopOf.UseAfterFree) engine.new.cells.items (Table.by_instr code.now (Some (InstrOf.TakePart t position ty to.now)) s.operands (here_of place s))) }
{
    if is_newest_value(engine, code, place) {
        take_of_value(engine, code, offset, to, place);
        Some(place + 1)
    } else {
        take_of_part(engine, code, offset, to, place)
    }
}

/// Puts the value of a component in place of the part that is the newest operand, as `take_part` does.
fn take_of_part(
    engine: &mut Engine,
    code: &Code,
    offset: usize,
    to: &Cell,
    place: usize,
) -> Option<usize>
    ghost s: { State }
    requires valid { IsValid code.now }
    requires before { (t : ℕ) × (position : ℕ) × (ty : Ty) × Before code.now engine.old place (InstrOf.TakePart t position ty to.now) s }
    requires part { IsPart s.operands }
    requires place { place + 1 < 2 ^ 64 }
    ensures passed { (t position : ℕ) (ty : Ty) → offset ≡ Table.offset_of code.now t position → IfSome result (λ next. (engine.new.mode ≡ ModeOf.At next) × Makes code.now engine.old engine.new (Table.by_instr code.now (Some (InstrOf.TakePart t position ty to.now)) s.operands (here_of place s))) }
    ensures left { IfNone result (GoesOn engine.old engine.new engine.old.mode engine.old.cells.items) }
    ensures gone { (t position : ℕ) (ty : Ty) → offset ≡ Table.offset_of code.now t position → IfNone result (Comes code.now engine.new (ModeOf.Stopped StopOf.UseAfterFree) engine.new.cells.items (Table.by_instr code.now (Some (InstrOf.TakePart t position ty to.now)) s.operands (here_of place s))) }
{
    let newest = engine.count_spots() - 1;
    let spot = &engine.spots[newest];
    match read_at(engine, code, spot.object(), spot.offset(), offset) {
        Some(value) => {
            let _ = engine.spots.take_last();
            engine.put(value, to, place);
            Some(place + 1)
        }
        None => None,
    }
}

/// Gives a component of the part that is the newest operand the value of a cell, by the first cell of the component, and answers what
/// comes next; where there is no such object, the program is erroneous (RM 13.11.2), and nothing changes.
pub fn store_part(
    engine: &mut Engine,
    code: &Code,
    from: &Cell,
    offset: usize,
    place: usize,
) -> Option<usize>
    ghost s: { State }
    requires before { (t : ℕ) × (position : ℕ) × (ty : Ty) × Before code.now engine.old place (InstrOf.StorePart from.now ty t position) s }
    requires place { place + 1 < 2 ^ 64 }
    ensures passed { (t position : ℕ) (ty : Ty) → offset ≡ Table.offset_of code.now t position → IfSome result (λ next. (engine.new.mode ≡ ModeOf.At next) × Makes code.now engine.old engine.new (Table.by_instr code.now (Some (InstrOf.StorePart from.now ty t position)) s.operands (here_of place s))) }
    ensures left { IfNone result (GoesOn engine.old engine.new engine.old.mode engine.old.cells.items) }
    ensures gone { (t position : ℕ) (ty : Ty) → offset ≡ Table.offset_of code.now t position → IfNone result (Comes code.now engine.new (ModeOf.Stopped StopOf.UseAfterFree) engine.new.cells.items (Table.by_instr code.now (Some (InstrOf.StorePart from.now ty t position)) s.operands (here_of place s))) }
{
    let _ = code;
    let value = engine.take(from);
    let newest = engine.count_spots() - 1;
    let spot = &engine.spots[newest];
    let start = spot.offset();
    let object = spot.object();
    if !engine.stock.exists(object) {
        return None;
    }
    engine.stock.write_part(object, start, offset, value);
    let _ = engine.spots.take_last();
    engine.mode = Mode::At(place + 1);
    Some(place + 1)
}

/// Gives the object that an access value designates, the newest operand, the value below it, which stands in this cell, and puts the access
/// value in its place; answers what comes next (RM 4.8). Where there is no such object, the program is erroneous (RM 13.11.2), and nothing
/// changes.
#[inline(never)]
pub fn give_value(engine: &mut Engine, code: &Code, at: usize, place: usize) -> Option<usize>
    ghost s: { State }
    requires valid { IsValid code.now }
    requires before { (of : Ty) × (ty : Ty) × Before code.now engine.old place (InstrOf.GiveValue of ty at) s }
    requires place { place + 1 < 2 ^ 64 }
    ensures passed { (of ty : Ty) → IfSome result (λ next. (engine.new.mode ≡ ModeOf.At next) × Makes code.now engine.old engine.new (Table.by_instr code.now (Some (InstrOf.GiveValue of ty at)) s.operands (here_of place s))) }
    ensures left { IfNone result (GoesOn engine.old engine.new engine.old.mode engine.old.cells.items) }
    ensures gone { (of ty : Ty) → IfNone result (Comes code.now engine.new (ModeOf.Stopped StopOf.UseAfterFree) engine.new.cells.items (Table.by_instr code.now (Some (InstrOf.GiveValue of ty at)) s.operands (here_of place s))) }
{
    let _ = code;
    let named = Named::Operand;
    let object = engine.take(&Cell { at: at + 1, named });
    let to = Cell { at, named };
    let value = engine.take(&to);
    if !engine.stock.exists(object) {
        return None;
    }
    engine.stock.write(object, 0, value);
    engine.put(object, &to, place);
    Some(place + 1)
}
