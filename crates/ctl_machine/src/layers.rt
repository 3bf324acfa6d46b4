//! The finalization of an object has ended, and whether it failed is handed on (RM 7.6.1).

ghost use Rattle.std.specs.Prelude.{◌≡◌, ◌∷◌, List, reverse};
ghost use Rattle.ctl_code.specs.States.{Giving, State};
ghost use Rattle.ctl_code.specs.Table as Table;
ghost use Rattle.ctl_code.specs.Valid.{IsValid};
ghost use Rattle.ctl_frames.specs.declared.frame.Frame.{Frame};
ghost use Rattle.ctl_frames.specs.declared.frame.Frame.TheVariants as FrameOf;
ghost use Rattle.ctl_engine.specs.Moves.{BeforeResuming, Makes};
ghost use Rattle.ctl_engine.specs.Shows as Shows;

use ctl_code::code::Code;
use ctl_engine::engine::Engine;
use ctl_engine::layers::remembered;
use ctl_frames::frame::{Ended, Frame, Mode};
use ctl_steps::closing::close_after;
use ctl_tree::event::Cause;

/// Notes that the finalization of the object of this number, for this cause, has ended, and hands on whether it failed (RM 7.6.1). A
/// declared object that is a pool closes (RM 13.11).
#[inline(always)]
pub(crate) fn resume_finalizing(
    engine: &mut Engine,
    code: &Code,
    ended: Ended,
    cause: Cause,
    number: u64,
)
    ghost s: { State }
    requires valid { IsValid code.now }
    requires before { BeforeResuming code.now engine.old s }
    requires top { (fs : List Frame) × (reverse engine.old.control.items ≡ FrameOf.Finalizing cause number ∷ fs) }
    ensures done { Makes code.now engine.old engine.new (Table.act code.now (Giving (Shows.tried_of ended)) s.control s.operands s.world 0) }
{
    let _ = code;
    engine.stock.end_finalization(number);
    close_after(engine, cause, number);
    let _ = engine.control.take_last();
    engine.mode = Mode::Giving(remembered(ended));
}
