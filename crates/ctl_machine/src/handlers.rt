//! An exception goes to the handlers of the newest master, or the master is left (RM 11.4).

ghost use Rattle.std.specs.Prelude.{◌+◌, ◌^◌, ◌<◌, OnErr, OnOk};
ghost use Rattle.ctl_code.specs.States.{State};
ghost use Rattle.ctl_code.specs.Table as Table;
ghost use Rattle.ctl_code.specs.Valid.{IsValid};
ghost use Rattle.ctl_frames.specs.declared.frame.Completion.TheVariants as CompletionOf;
ghost use Rattle.ctl_engine.specs.Shows.{way_in};
ghost use Rattle.ctl_engine.specs.Moves.{BeforeLeaving, GoesOn, Makes};

use crate::leaving::leave;
use ctl_code::code::{Code, Way};
use ctl_engine::engine::Engine;
use ctl_frames::frame::{Completion, Handling, Mode};
use std::alloc::AllocError;

/// Transfers control out of the statements of the newest master: an exception goes to its handlers, if it has some that have not begun
/// (RM 11.4); else the master is left. Unchanged where memory is refused.
#[inline(always)]
pub(crate) fn transfer(engine: &mut Engine, code: &Code, way: Way) -> Result<(), AllocError>
    ghost s: { State }
    requires valid { IsValid code.now }
    requires before { BeforeLeaving code.now engine.old (CompletionOf.Transferred way) s }
    requires number { engine.old.given_masters + 1 < 2 ^ 64 }
    ensures ok { OnOk result (Makes code.now engine.old engine.new (Table.by_transfer code.now (way_in engine.old.spots.items way) s.control s.world)) }
    ensures err { OnErr result (GoesOn engine.old engine.new engine.old.mode engine.old.cells.items) }
{
    match (way, engine.handlers()) {
        (Way::Raise(exception), Some(place)) => {
            let handling = Handling {
                handlers: None,
                caught: exception,
            };
            engine.set_handling(handling, Mode::At(place));
            Ok(())
        }
        _ => leave(engine, code, Completion::Transferred(way)),
    }
}
