//! Variables where they are seen: the master of one is found by its level, along the links, so that one code reaches it under any number of
//! masters (RM 3.10.2, 8.3).

ghost use Rattle.std.specs.Prelude.{◌≡◌, ◌-◌, ◌≤◌, IfSome, IsNone};
ghost use Rattle.ctl_meaning.specs.Activations.{master_of, slot_in};
ghost use Rattle.ctl_meaning.specs.World.{unset};
ghost use Rattle.ctl_code.specs.States.{State};
ghost use Rattle.ctl_code.specs.Table as Table;
ghost use Rattle.ctl_frames.specs.Holders.{IsThere, found_in};
ghost use Rattle.ctl_frames.specs.Masters.{first_display, heads_of};
ghost use Rattle.ctl_engine.specs.Shows.{Holds, kept};
ghost use Rattle.ctl_engine.specs.Variables.{HasSlotAt};

use crate::components::own_end;
use ctl_code::code::Code;
use ctl_engine::engine::Engine;
use ctl_engine::holders::holder;
use ctl_frames::frame::Holder;
use ctl_program::types::Var;

/// Answers the level of the master that a variable is declared in: levels count from 1 (RM 3.10.2).
fn level_of(variable: &Var) -> usize
    ensures some { 1 ≤ result }
    ensures same { result - 1 ≡ variable.now.level - 1 }
{
    match variable.level {
        0 => 1,
        level => level,
    }
}

/// Answers the place of the master of a variable, where that is seen and has its slot (RM 8.3).
#[inline(always)]
fn seen_at(engine: &Engine, code: &Code, variable: &Var) -> Option<usize>
    ghost s: { State }
    requires { Holds code.now (kept engine.now) s.control s.operands s.world }
    ensures there { IfSome result (λ place. HasSlotAt (master_of (first_display (heads_of s.world.activations)) variable.now) variable.now.slot place engine.now.masters.items) }
    ensures none { IsNone result → slot_in (master_of (first_display (heads_of s.world.activations)) variable.now) variable.now.slot s.world.activations ≡ unset }
{
    let _ = code;
    let level = level_of(variable);
    let count = engine.around(level);
    if engine.depth_at(count) < level {
        return None;
    }
    let place = count - 1;
    let master = engine.masters[place];
    if variable.slot >= master.slots {
        return None;
    }
    Some(place)
}

/// Answers what a variable holds where it is seen, if that is an object, or a part of one (RM 3.10, 8.3).
pub fn holder_seen(engine: &Engine, code: &Code, variable: &Var) -> Option<Holder>
    ghost s: { State }
    requires { Holds code.now (kept engine.now) s.control s.operands s.world }
    ensures part { found_in engine.now.formals.items result ≡ Table.holder_at (first_display (heads_of s.world.activations)) variable.now s.world }
    ensures there { IfSome result (IsThere engine.now.formals.items) }
{
    let place = seen_at(engine, code, variable)?;
    let master = engine.masters[place];
    holder(
        engine.owned.as_slice(),
        master.owned,
        own_end(engine, place),
        variable.slot,
        engine.formals.as_slice(),
        &master,
    )
}

/// Reads a variable where it is seen; 0 where there is none.
#[inline(always)]
pub fn read_seen(engine: &Engine, code: &Code, variable: &Var) -> u64
    ghost s: { State }
    requires { Holds code.now (kept engine.now) s.control s.operands s.world }
    ensures { result ≡ Table.value_at (first_display (heads_of s.world.activations)) variable.now s.world }
{
    match seen_at(engine, code, variable) {
        Some(place) => {
            let master = engine.masters[place];
            engine.cells[master.base + variable.slot]
        }
        None => 0,
    }
}
