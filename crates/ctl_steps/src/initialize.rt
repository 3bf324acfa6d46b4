//! Initializations have ended: the creation of the part is complete, or has failed (RM 7.6).

ghost use Rattle.std.specs.Prelude.{◌≡◌, ◌∷◌, List, OnErr, OnOk, reverse};
ghost use Rattle.ctl_code.specs.Table as Table;
ghost use Rattle.ctl_code.specs.States.{Giving, State};
ghost use Rattle.ctl_frames.specs.declared.frame.Frame.{Frame};
ghost use Rattle.ctl_frames.specs.declared.frame.Frame.TheVariants as FrameOf;
ghost use Rattle.ctl_engine.specs.Moves.{BeforeResuming, GoesOn, Makes};
ghost use Rattle.ctl_engine.specs.Shows as Shows;

use ctl_code::code::Code;
use ctl_engine::engine::Engine;
use ctl_frames::frame::{Ended, Frame};
use ctl_lifetimes::failing::fail;
use ctl_lifetimes::filling::{Creation, all_controlled};
use ctl_lifetimes::initialize::complete;
use ctl_tree::event::Owner;
use std::alloc::AllocError;

/// Goes on behind the Initialize of the newest part, which has ended so (RM 7.6): its creation is complete, or it has failed
/// (RM 7.6.1); unchanged where memory is refused.
pub fn resume_initializing(
    engine: &mut Engine,
    code: &Code,
    ended: Ended,
    record: usize,
    owner: Owner,
) -> Result<(), AllocError>
    ghost s: { State }
    requires before { BeforeResuming code.now engine.old s }
    requires top { (fs : List Frame) × (reverse engine.old.control.items ≡ FrameOf.Initializing «record» owner ∷ fs) }
    ensures ok { OnOk result (Makes code.now engine.old engine.new (Table.act code.now (Giving (Shows.tried_of ended)) s.control s.operands s.world 0)) }
    ensures err { OnErr result (GoesOn engine.old engine.new engine.old.mode engine.old.cells.items) }
{
    if let Ended::Raised(exception) = ended {
        return fail(
            engine,
            code,
            record,
            all_controlled(code, record),
            exception,
        );
    }
    let creation = Creation {
        record_type: record,
        owner,
    };
    complete(engine, code, creation)
}
