//! Instructions that give a number to a scalar object, and that reach a variable: one of a body around, or one that a copy goes
//! back to (RM 3.3.1, 6.4.1, 8.3).

ghost use Rattle.std.specs.Prelude.{◌≡◌, ◌+◌, ◌^◌, ◌<◌, IfSome, IsNone, List, Some, reverse, slice_get, ℕ, length, slice_set};
ghost use Rattle.ctl_code.specs.declared.code.Instr.TheVariants as InstrOf;
ghost use Rattle.ctl_program.specs.declared.types.Ty.{Ty};
ghost use Rattle.ctl_code.specs.Table as Table;
ghost use Rattle.ctl_code.specs.States.{State};
ghost use Rattle.ctl_code.specs.Valid.{IsValid};
ghost use Rattle.ctl_frames.specs.declared.frame.Master.{Master};
ghost use Rattle.ctl_frames.specs.declared.frame.Mode.TheVariants as ModeOf;
ghost use Rattle.ctl_engine.specs.Instructions.{Reaches};
ghost use Rattle.ctl_frames.specs.Links.{AreLinked};
ghost use Rattle.ctl_frames.specs.Masters.{Head, first_display, first_window, heads_of};
ghost use Rattle.ctl_engine.specs.Moves.{Before, GoesOn, Makes, here_of};
ghost use Rattle.ctl_engine.specs.Shows.{Holds, kept};
ghost use Rattle.ctl_engine.specs.Variables.{Gives, IsNoVariable, IsVariable};
ghost use Rattle.ctl_engine.specs.Windows.{IsGoing, moded};

use crate::seen::read_seen;
use ctl_code::code::{Cell, Code, Instr};
use ctl_engine::engine::Engine;
use ctl_frames::frame::Mode;
use ctl_program::types::Var;

/// Answers the place of the master so many further out than the newest, by the links; None where there is none.
#[inline(always)]
pub fn master_out(engine: &Engine, out: usize) -> Option<usize>
    ghost hs: { List Head }
    requires { AreLinked engine.now.masters.items hs }
    ensures there { IfSome result (λ i. (m : Master) × (slice_get engine.now.masters.items i ≡ Some m) × (Table.out_of (first_display hs) out ≡ m.number)) }
    ensures none { IsNone result → Table.out_of (first_display hs) out ≡ 0 }
{
    let mut count = engine.count_masters();
    let mut left = out;
    while count > 0 {
        let master = engine.masters[count - 1];
        if left == 0 {
            return Some(count - 1);
        }
        left -= 1;
        count = master.link;
    }
    None
}

/// Answers the cell of the variable of this slot in the master so many further out than the newest; None where there is none.
#[inline(always)]
fn variable(engine: &Engine, code: &Code, out: usize, slot: usize) -> Option<usize>
    ghost s: { State }
    requires { Holds code.now (kept engine.now) s.control s.operands s.world }
    ensures there { IfSome result (λ at. IsVariable (first_display (heads_of s.world.activations)) out slot at (reverse engine.now.masters.items)) }
    ensures none { IsNone result → IsNoVariable (first_display (heads_of s.world.activations)) out slot (reverse engine.now.masters.items) }
{
    let _ = code;
    let place = master_out(engine, out)?;
    let master = engine.masters[place];
    if slot >= master.slots {
        return None;
    }
    Some(master.base + slot)
}

/// Reads such a variable; 0 where there is none.
pub fn read_variable(engine: &Engine, code: &Code, out: usize, slot: usize) -> u64
    ghost s: { State }
    requires { Holds code.now (kept engine.now) s.control s.operands s.world }
    ensures { result ≡ Table.cell_at (first_display (heads_of s.world.activations)) out slot s.world }
{
    match variable(engine, code, out, slot) {
        Some(cell) => engine.cells[cell],
        None => 0,
    }
}

/// Writes a cell of the newest window, which begins with this cell.
#[inline(always)]
pub fn set_cell(engine: &mut Engine, window: usize, value: u64, to: &Cell)
    requires window { window ≡ first_window (reverse engine.old.masters.items) }
    requires cell { first_window (reverse engine.old.masters.items) + to.now.at < length engine.old.cells.items }
    ensures goes { (place : ℕ) → GoesOn engine.old (moded engine.new (ModeOf.At place)) (ModeOf.At place) (slice_set engine.old.cells.items (first_window (reverse engine.old.masters.items) + to.now.at) value) }
    ensures same { engine.new ≡ record engine.old { cells = engine.new.cells } }
{
    engine.cells[window + to.at] = value;
}

/// Puts the value of a variable of a body around; 0 where there is none. The newest window begins with this cell.
#[inline(always)]
fn fetch(engine: &mut Engine, window: usize, code: &Code, variable: &Var, to: &Cell, place: usize)
    ghost s: { State }
    requires valid { IsValid code.now }
    requires before { (ty : Ty) × Before code.now engine.old place (InstrOf.Fetch variable.now ty to.now) s }
    requires window { window ≡ first_window (reverse engine.old.masters.items) }
    ensures masters { engine.new.masters ≡ engine.old.masters }
    ensures makes { (ty : Ty) → Makes code.now engine.old (moded engine.new (ModeOf.At (place + 1))) (Table.by_instr code.now (Some (InstrOf.Fetch variable.now ty to.now)) s.operands (here_of place s)) }
{
    let _ = place;
    let value = read_seen(engine, code, variable);
    set_cell(engine, window, value, to);
}

/// Takes the next object number for a scalar object (RM 3.3.1); answers what comes next, which is not yet written back.
#[inline(always)]
pub fn number(engine: &mut Engine, code: &Code, place: usize) -> Mode
    ghost s: { State }
    requires before { Before code.now engine.old place InstrOf.Number s }
    requires place { place + 1 < 2 ^ 64 }
    requires number { engine.old.numbered.objects + 1 < 2 ^ 64 }
    ensures makes { Makes code.now engine.old (moded engine.new result) (Table.by_instr code.now (Some InstrOf.Number) s.operands (here_of place s)) }
    ensures going { IsGoing result }
    ensures masters { engine.new.masters ≡ engine.old.masters }
{
    let _ = code;
    engine.numbered.objects += 1;
    Mode::At(place + 1)
}

/// Gives such a variable a value; where there is none, nothing takes it.
#[inline(always)]
fn set_variable(engine: &mut Engine, code: &Code, out: usize, slot: usize, value: u64)
    ghost s: { State }
    requires { Holds code.now (kept engine.old) s.control s.operands s.world }
    ensures gives { (place : ℕ) → Gives (first_display (heads_of s.world.activations)) out slot value place engine.old (moded engine.new (ModeOf.At place)) }
    ensures same { engine.new ≡ record engine.old { cells = engine.new.cells } }
{
    if let Some(cell) = variable(engine, code, out, slot) {
        engine.cells[cell] = value;
    }
}

/// Gives such a variable a value, and goes on at this place; where there is none, nothing takes it.
pub fn give(engine: &mut Engine, code: &Code, out: usize, slot: usize, value: u64, place: usize)
    ghost s: { State }
    requires { Holds code.now (kept engine.old) s.control s.operands s.world }
    ensures mode { engine.new.mode ≡ ModeOf.At place }
    ensures masters { reverse engine.new.masters.items ≡ reverse engine.old.masters.items }
    ensures gives { Gives (first_display (heads_of s.world.activations)) out slot value place engine.old engine.new }
    ensures same { engine.new ≡ record engine.old { mode = engine.new.mode; cells = engine.new.cells } }
{
    set_variable(engine, code, out, slot, value);
    engine.mode = Mode::At(place);
}

/// Gives a variable of a body around the value of a cell; where there is none, nothing takes it. The newest window begins with this cell.
#[inline(always)]
fn store(
    engine: &mut Engine,
    window: usize,
    code: &Code,
    from: &Cell,
    out: usize,
    slot: usize,
    place: usize,
)
    ghost s: { State }
    requires valid { IsValid code.now }
    requires before { (ty : Ty) × Before code.now engine.old place (InstrOf.Store from.now ty out slot) s }
    requires window { window ≡ first_window (reverse engine.old.masters.items) }
    ensures masters { engine.new.masters ≡ engine.old.masters }
    ensures makes { (ty : Ty) → Makes code.now engine.old (moded engine.new (ModeOf.At (place + 1))) (Table.by_instr code.now (Some (InstrOf.Store from.now ty out slot)) s.operands (here_of place s)) }
{
    let _ = place;
    let value = engine.cells[window + from.at];
    set_variable(engine, code, out, slot, value);
}

/// Gives a variable what a copy holds, the last of so many operands, in this cell, which stays; where there is no such variable, nothing
/// takes it (RM 6.4.1). The newest window begins with this cell.
// How many operands there are says only which one the table reads.
fn copy_back(
    engine: &mut Engine,
    window: usize,
    code: &Code,
    depth: usize,
    at: usize,
    out: usize,
    slot: usize,
    place: usize,
)
    ghost s: { State }
    requires before { Before code.now engine.old place (InstrOf.CopyBack depth at out slot) s }
    requires window { window ≡ first_window (reverse engine.old.masters.items) }
    ensures masters { engine.new.masters ≡ engine.old.masters }
    ensures makes { Makes code.now engine.old (moded engine.new (ModeOf.At (place + 1))) (Table.by_instr code.now (Some (InstrOf.CopyBack depth at out slot)) s.operands (here_of place s)) }
{
    let _ = depth;
    let _ = place;
    let value = engine.cells[window + at];
    set_variable(engine, code, out, slot, value);
}

/// Executes this instruction, which stands at this place and reaches a variable by its slot; answers what comes next, which is not yet written
/// back. The newest window begins with this cell.
#[inline(always)]
pub fn reach(engine: &mut Engine, window: usize, code: &Code, instr: &Instr, place: usize) -> Mode
    ghost s: { State }
    requires valid { IsValid code.now }
    requires before { Before code.now engine.old place instr.now s }
    requires reaches { Reaches instr.now }
    requires place { place + 1 < 2 ^ 64 }
    requires window { window ≡ first_window (reverse engine.old.masters.items) }
    ensures going { IsGoing result }
    ensures masters { engine.new.masters ≡ engine.old.masters }
    ensures makes { Makes code.now engine.old (moded engine.new result) (Table.by_instr code.now (Some instr.now) s.operands (here_of place s)) }
{
    match instr {
        Instr::Fetch { variable, to, .. } => {
            fetch(engine, window, code, variable, to, place);
            Mode::At(place + 1)
        }
        Instr::Store {
            from,
            out,
            slot,
            ..
        } => {
            store(engine, window, code, from, *out, *slot, place);
            Mode::At(place + 1)
        }
        Instr::CopyBack {
            depth,
            at,
            out,
            slot,
        } => {
            copy_back(engine, window, code, *depth, *at, *out, *slot, place);
            Mode::At(place + 1)
        }
        _ => unreachable!(),
    }
}
