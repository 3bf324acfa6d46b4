//! Instructions that reach components of objects, find parts of them, give new ones their values, or pass components by copy (RM 4.1.3, 4.8, 5.2,
//! 6.4.1).

ghost use Rattle.std.specs.Prelude.{◌≡◌, ◌+◌, ◌^◌, ◌<◌, ℕ, IfNone, IfOk, IfSome, OnErr, OnOk, Some, length, slice_get};
ghost use Rattle.ctl_code.specs.declared.code.Instr.TheVariants as InstrOf;
ghost use Rattle.ctl_program.specs.declared.types.Ty.{Ty};
ghost use Rattle.ctl_code.specs.Table as Table;
ghost use Rattle.ctl_code.specs.States.{State};
ghost use Rattle.ctl_meaning.specs.Changes.{object_at};
ghost use Rattle.ctl_code.specs.Valid.{IsValid};
ghost use Rattle.ctl_frames.specs.declared.frame.Mode.TheVariants as ModeOf;
ghost use Rattle.ctl_frames.specs.declared.frame.Formal.{Formal};
ghost use Rattle.ctl_frames.specs.Holders.{own_end, word_of_formal};
ghost use Rattle.ctl_engine.specs.Instructions.{Touches};
ghost use Rattle.ctl_frames.specs.Masters.{first_display, heads_of};
ghost use Rattle.ctl_engine.specs.Moves.{Before, GoesOn, Makes, here_of};
ghost use Rattle.ctl_places.specs.Parts.{component_at, part_at, part_in};
ghost use Rattle.ctl_engine.specs.Shows.{Holds, kept};
ghost use Rattle.ctl_engine.specs.Windows.{Comes};
ghost use Rattle.ctl_tree.specs.declared.ending.Stop.TheVariants as StopOf;

use crate::copies::pass_component;
use crate::locating::{
    designate_variable, drop_part, give_value, locate, select, store_part, take_part,
};
use crate::pool_blocks::take_discriminant;
use crate::seen::holder_seen;
use ctl_code::code::{Cell, Code, Instr};
use ctl_engine::engine::Engine;
use ctl_frames::frame::{Holder, Mode};
use ctl_frames::parts::offset_of;
use ctl_program::types::Var;
use ctl_tree::ending::Stop;
use std::alloc::AllocError;

/// Answers where the objects of the master at this place end among all owned objects.
pub fn own_end(engine: &Engine, place: usize) -> usize
    requires { place < length engine.now.masters.items }
    ensures { result ≡ own_end (slice_get engine.now.masters.items (place + 1)) (length engine.now.owned.items) }
{
    match engine.masters.as_slice().get(place + 1) {
        Some(newer) => newer.owned,
        None => engine.count_owned(),
    }
}

/// Reads a cell of an object, by the first cell of a part of it and how much further it is; None where there is no such object.
pub fn read_at(
    engine: &Engine,
    code: &Code,
    object: u64,
    start: usize,
    offset: usize,
) -> Option<u64>
    ghost s: { State }
    requires { Holds code.now (kept engine.now) s.control s.operands s.world }
    ensures { result ≡ part_in (start + offset) (object_at object s.world) }
{
    let _ = code;
    engine.stock.read_part(object, start, offset)
}

/// Reads a component of what the formal at this place stands for, a part of an object or the copy of a record, by the first cell of the
/// component; None where there is no such object.
fn read_formal(engine: &Engine, code: &Code, at: usize, offset: usize) -> Option<u64>
    ghost s: { State }
    requires there { at < length engine.now.formals.items }
    requires holds { Holds code.now (kept engine.now) s.control s.operands s.world }
    ensures { (f : Formal) × (slice_get engine.now.formals.items at ≡ Some f) × (result ≡ component_at offset (word_of_formal f) s.world) }
{
    let formal = &engine.formals[at];
    let spot = &formal.spot;
    if formal.is_value {
        Some(spot.cell(offset))
    } else {
        read_at(engine, code, spot.object(), spot.offset(), offset)
    }
}

/// Reads a component of what a variable holds, an object, a part of one or the copy of a record, by the first cell of the component; None where
/// there is no such object.
fn read_held(engine: &Engine, code: &Code, variable: &Var, offset: usize) -> Option<u64>
    ghost s: { State }
    requires { Holds code.now (kept engine.now) s.control s.operands s.world }
    ensures { result ≡ part_at offset (Table.holder_at (first_display (heads_of s.world.activations)) variable.now s.world) s.world }
{
    match holder_seen(engine, code, variable)? {
        Holder::Whole(object) => read_at(engine, code, object, 0, offset),
        Holder::Bound(at) => read_formal(engine, code, at, offset),
    }
}

/// Puts the value of such a component, and answers what comes next; where there is no such object, the program is erroneous (RM 13.11.2),
/// and nothing changes.
fn fetch_part(
    engine: &mut Engine,
    code: &Code,
    variable: &Var,
    offset: usize,
    to: &Cell,
    place: usize,
) -> Option<usize>
    ghost s: { State }
    requires valid { IsValid code.now }
    requires before { (t : ℕ) × (position : ℕ) × (ty : Ty) × Before code.now engine.old place (InstrOf.FetchPart variable.now t position ty to.now) s }
    requires place { place + 1 < 2 ^ 64 }
    ensures passed { (t position : ℕ) (ty : Ty) → offset ≡ Table.offset_of code.now t position → IfSome result (λ next. (engine.new.mode ≡ ModeOf.At next) × Makes code.now engine.old engine.new (Table.by_instr code.now (Some (InstrOf.FetchPart variable.now t position ty to.now)) s.operands (here_of place s))) }
    ensures left { IfNone result (GoesOn engine.old engine.new engine.old.mode engine.old.cells.items) }
    ensures gone { (t position : ℕ) (ty : Ty) → offset ≡ Table.offset_of code.now t position → IfNone result (Comes code.now engine.new (ModeOf.Stopped StopOf.UseAfterFree) engine.new.cells.items (Table.by_instr code.now (Some (InstrOf.FetchPart variable.now t position ty to.now)) s.operands (here_of place s))) }
{
    match read_held(engine, code, variable, offset) {
        Some(value) => {
            engine.put(value, to, place);
            Some(place + 1)
        }
        None => None,
    }
}

/// Executes this instruction, which stands at this place and reaches a component, finds a part of an object or drops it, gives a new object its
/// value, or passes a component by copy, and answers what comes next; where there is no such object, the program is erroneous (RM 13.11.2), and
/// nothing changes, and so where memory is refused.
#[inline(always)]
pub fn touch_object(
    engine: &mut Engine,
    code: &Code,
    instr: &Instr,
    place: usize,
) -> Result<Option<usize>, AllocError>
    ghost s: { State }
    requires valid { IsValid code.now }
    requires before { Before code.now engine.old place instr.now s }
    requires touches { Touches instr.now }
    requires place { place + 1 < 2 ^ 64 }
    ensures passed { IfOk result (λ some. IfSome some (λ next. (engine.new.mode ≡ ModeOf.At next) × Makes code.now engine.old engine.new (Table.by_instr code.now (Some instr.now) s.operands (here_of place s)))) }
    ensures left { IfOk result (λ some. IfNone some (GoesOn engine.old engine.new engine.old.mode engine.old.cells.items)) }
    ensures gone { IfOk result (λ some. IfNone some (Comes code.now engine.new (ModeOf.Stopped StopOf.UseAfterFree) engine.new.cells.items (Table.by_instr code.now (Some instr.now) s.operands (here_of place s)))) }
    ensures err { OnErr result (GoesOn engine.old engine.new engine.old.mode engine.old.cells.items) }
{
    match instr {
        Instr::FetchPart {
            variable,
            record,
            position,
            to,
            ..
        } => {
            let offset = offset_of(code, *record, *position);
            Ok(fetch_part(engine, code, variable, offset, to, place))
        }
        Instr::Locate { variable, at, .. } => locate(engine, code, variable, *at, place),
        Instr::Select {
            record,
            position,
            ..
        } => {
            let offset = offset_of(code, *record, *position);
            select(engine, code, offset, *position, place)?;
            Ok(Some(place + 1))
        }
        Instr::TakePart {
            record,
            position,
            to,
            ..
        } => {
            let offset = offset_of(code, *record, *position);
            Ok(take_part(engine, code, offset, to, place))
        }
        Instr::DropPart { .. } => {
            drop_part(engine, code, place);
            Ok(Some(place + 1))
        }
        Instr::TakeDiscriminant { which, to, .. } => {
            Ok(take_discriminant(engine, code, *which, to, place))
        }
        Instr::StorePart {
            from,
            record,
            position,
            ..
        } => {
            let offset = offset_of(code, *record, *position);
            Ok(store_part(engine, code, from, offset, place))
        }
        Instr::Designate { variable, to, .. } => {
            Ok(designate_variable(engine, code, variable, to, place))
        }
        Instr::GiveValue { at, .. } => Ok(give_value(engine, code, *at, place)),
        Instr::Reserve { .. } | Instr::KeepPart { .. } | Instr::CopyBackPart { .. } => {
            Ok(pass_component(engine, code, instr, place))
        }
        _ => unreachable!(),
    }
}

/// Executes this instruction, which stands at this place and reaches a component, finds a part of an object or drops it, gives a new object its
/// value, or passes a component by copy; where there is no such object, the program is erroneous (RM 13.11.2). Unchanged where memory is refused.
pub fn touch(
    engine: &mut Engine,
    code: &Code,
    instr: &Instr,
    place: usize,
) -> Result<(), AllocError>
    ghost s: { State }
    requires valid { IsValid code.now }
    requires before { Before code.now engine.old place instr.now s }
    requires touches { Touches instr.now }
    requires place { place + 1 < 2 ^ 64 }
    ensures ok { OnOk result (Makes code.now engine.old engine.new (Table.by_instr code.now (Some instr.now) s.operands (here_of place s))) }
    ensures err { OnErr result (GoesOn engine.old engine.new engine.old.mode engine.old.cells.items) }
{
    match touch_object(engine, code, instr, place)? {
        Some(_) => (),
        None => engine.go_on(Mode::Stopped(Stop::UseAfterFree)),
    }
    Ok(())
}
