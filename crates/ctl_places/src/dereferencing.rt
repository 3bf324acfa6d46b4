//! Access values are dereferenced (RM 4.1): the object that one designates takes the place of the value.

ghost use Rattle.std.specs.Prelude.{◌≡◌, ◌+◌, ◌^◌, ◌<◌, ℕ, IfNone, IfOk, IfSome, OnErr, OnOk, Some};
ghost use Rattle.ctl_code.specs.declared.code.Instr.TheVariants as InstrOf;
ghost use Rattle.ctl_code.specs.Table as Table;
ghost use Rattle.ctl_code.specs.States.{State};
ghost use Rattle.ctl_frames.specs.declared.frame.Mode.TheVariants as ModeOf;
ghost use Rattle.ctl_engine.specs.Moves.{Before, GoesOn, Makes, here_of};
ghost use Rattle.ctl_engine.specs.Windows.{Comes, IsGoing};
ghost use Rattle.ctl_tree.specs.declared.ending.Stop.TheVariants as StopOf;

use ctl_code::code::{Cell, Code, Named, Way};
use ctl_engine::engine::Engine;
use ctl_frames::frame::Mode;
use ctl_frames::spots::Spot;
use ctl_tree::ending::Stop;
use room::reserve;
use std::alloc::AllocError;

/// Puts the object that an access value designates in place of the value, the newest operand, which stands in this cell, and answers what
/// comes next: null designates none, which raises Constraint_Error (RM 4.1). Where there is no such object, the program is erroneous
/// (RM 13.11.2), and nothing changes, and so where memory is refused.
pub fn dereference(
    engine: &mut Engine,
    code: &Code,
    at: usize,
    place: usize,
) -> Result<Option<Mode>, AllocError>
    ghost s: { State }
    requires before { (t : ℕ) × Before code.now engine.old place (InstrOf.Dereference t at) s }
    requires place { place + 1 < 2 ^ 64 }
    ensures passed { (t : ℕ) → IfOk result (λ some. IfSome some (λ next. (engine.new.mode ≡ next) × Makes code.now engine.old engine.new (Table.by_instr code.now (Some (InstrOf.Dereference t at)) s.operands (here_of place s)))) }
    ensures going { IfOk result (λ some. IfSome some IsGoing) }
    ensures left { IfOk result (λ some. IfNone some (GoesOn engine.old engine.new engine.old.mode engine.old.cells.items)) }
    ensures gone { (t : ℕ) → IfOk result (λ some. IfNone some (Comes code.now engine.new (ModeOf.Stopped StopOf.UseAfterFree) engine.new.cells.items (Table.by_instr code.now (Some (InstrOf.Dereference t at)) s.operands (here_of place s)))) }
    ensures err { OnErr result (GoesOn engine.old engine.new engine.old.mode engine.old.cells.items) }
{
    let _ = code;
    let named = Named::Operand;
    let object = engine.take(&Cell { at, named });
    if object == 0 {
        // Constraint_Error is the first exception of the table (RM 11.1).
        let raised = Mode::Transfers(Way::Raise(0));
        engine.go_on(raised);
        return Ok(Some(raised));
    }
    if !engine.stock.exists(object) {
        return Ok(None);
    }
    reserve(&mut engine.spots, 1)?;
    engine
        .spots
        .push_reserved(Spot::whole(engine.alloc, object));
    let next = Mode::At(place + 1);
    engine.mode = next;
    Ok(Some(next))
}

/// Executes a dereference, as `dereference` does; where there is no such object, the program is erroneous (RM 13.11.2). Unchanged where
/// memory is refused.
pub fn designate(
    engine: &mut Engine,
    code: &Code,
    at: usize,
    place: usize,
) -> Result<(), AllocError>
    ghost s: { State }
    requires before { (t : ℕ) × Before code.now engine.old place (InstrOf.Dereference t at) s }
    requires place { place + 1 < 2 ^ 64 }
    ensures ok { (t : ℕ) → OnOk result (Makes code.now engine.old engine.new (Table.by_instr code.now (Some (InstrOf.Dereference t at)) s.operands (here_of place s))) }
    ensures err { OnErr result (GoesOn engine.old engine.new engine.old.mode engine.old.cells.items) }
{
    match dereference(engine, code, at, place)? {
        Some(_) => (),
        None => engine.go_on(Mode::Stopped(Stop::UseAfterFree)),
    }
    Ok(())
}
