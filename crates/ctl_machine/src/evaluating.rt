//! Control leaves the statements of a master, or the evaluation of a default (RM 3.8, 11.4).

ghost use Rattle.std.specs.Prelude.{◌+◌, ◌^◌, ◌<◌, OnErr, OnOk};
ghost use Rattle.ctl_code.specs.States.{State};
ghost use Rattle.ctl_code.specs.Table as Table;
ghost use Rattle.ctl_code.specs.Valid.{IsValid};
ghost use Rattle.ctl_frames.specs.declared.frame.Completion.TheVariants as CompletionOf;
ghost use Rattle.ctl_engine.specs.Moves.{BeforeTransfer, GoesOn, Makes};
ghost use Rattle.ctl_engine.specs.Shows.{way_in};

use crate::handlers::transfer;
use ctl_code::code::{Code, Way};
use ctl_engine::engine::Engine;
use ctl_lifetimes::evaluating::{end_default, newest_evaluation, settle};
use std::alloc::AllocError;

/// Transfers control out of the statements of the newest master, or ends the evaluation of a default (RM 3.8, 11.4); unchanged where memory
/// is refused.
#[inline(always)]
pub(crate) fn transfer_out(engine: &mut Engine, code: &Code, way: Way) -> Result<(), AllocError>
    ghost s: { State }
    requires valid { IsValid code.now }
    requires before { BeforeTransfer code.now engine.old (CompletionOf.Transferred way) s }
    requires number { engine.old.given_masters + 1 < 2 ^ 64 }
    ensures ok { OnOk result (Makes code.now engine.old engine.new (Table.by_transfer code.now (way_in engine.old.spots.items way) s.control s.world)) }
    ensures err { OnErr result (GoesOn engine.old engine.new engine.old.mode engine.old.cells.items) }
{
    match newest_evaluation(engine) {
        Some(evaluation) => {
            let plain = settle(engine, way);
            end_default(engine, code, plain, evaluation);
            Ok(())
        }
        None => transfer(engine, code, way),
    }
}
