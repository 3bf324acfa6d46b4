//! The creation of a part fails: what is complete of it is finalized, and the exception goes on (RM 7.6.1).

ghost use Rattle.std.specs.Prelude.{◌≡◌, ◌∷◌, List, OnErr, OnOk, reverse};
ghost use Rattle.ctl_code.specs.States.{Giving, State};
ghost use Rattle.ctl_code.specs.Table as Table;
ghost use Rattle.ctl_frames.specs.Filling.{AreApart};
ghost use Rattle.ctl_lifetimes.specs.GivingUp.{Creates, GivenUp};
ghost use Rattle.ctl_frames.specs.declared.frame.Frame.{Frame};
ghost use Rattle.ctl_frames.specs.declared.frame.Frame.TheVariants as FrameOf;
ghost use Rattle.ctl_engine.specs.Moves.{BeforeResuming, GoesOn, Makes};
ghost use Rattle.ctl_engine.specs.Shows as Shows;

use ctl_code::code::Code;
use ctl_engine::calls::replace_top;
use ctl_engine::engine::Engine;
use ctl_engine::layers::says_failed;
use ctl_frames::frame::{Apart, Ended, Frame, Mode};
use ctl_program::library::PROGRAM_ERROR;
use ctl_tree::event::Cause;
use room::reserve;
use std::alloc::AllocError;

/// Answers the exception that goes on: this one, or Program_Error where a finalization failed (RM 7.6.1).
#[tactic(auto, unfolding(ctl_meaning::specs::Outcome::program_error))]
fn failed_with(exception: usize, failed: bool) -> usize
    ensures { result ≡ Table.failed_with exception failed }
{
    if failed { PROGRAM_ERROR } else { exception }
}

/// Gives up the creation of the newest part, which this exception has ended: the object is being finalized from then on, and of the
/// components of its record type with a controlled part those are finalized that are complete (RM 7.6.1); unchanged where memory is
/// refused.
pub fn fail(
    engine: &mut Engine,
    code: &Code,
    record: usize,
    complete: Apart,
    exception: usize,
) -> Result<(), AllocError>
    ghost t: { State × GivenUp }
    requires before { BeforeResuming code.now engine.old t.0 }
    requires creates { Creates t.0.control t.1.spot t.1.control }
    requires apart { AreApart (Table.controlled_of code.now «record») complete t.1.complete }
    ensures ok { OnOk result (Makes code.now engine.old engine.new (Table.fail t.1.spot t.1.complete exception t.1.control t.0.world)) }
    ensures err { OnErr result (GoesOn engine.old engine.new engine.old.mode engine.old.cells.items) }
{
    let _ = code;
    let newest = engine.count_spots() - 1;
    let spot = engine.spots[newest].copied(engine.alloc)?;
    reserve(&mut engine.control, 1)?;
    reserve(&mut engine.spots, 1)?;
    engine.begin_finalization(spot.object());
    replace_top(&mut engine.control, Frame::Failing { exception });
    engine.control.push_reserved(Frame::FinalizingParts {
        cause: Cause::Failed,
        record,
        left: complete,
        failed: false,
    });
    engine.spots.push_reserved(spot);
    engine.mode = Mode::Giving(Ended::Complete);
    Ok(())
}

/// Goes on behind the finalization of what was complete of the newest part, whose creation this exception has ended: it goes on, or
/// Program_Error where a finalization failed, which has ended so (RM 7.6.1).
pub fn resume_failing(engine: &mut Engine, code: &Code, ended: Ended, exception: usize)
    ghost s: { State }
    requires before { BeforeResuming code.now engine.old s }
    requires top { (fs : List Frame) × (reverse engine.old.control.items ≡ FrameOf.Failing exception ∷ fs) }
    ensures { Makes code.now engine.old engine.new (Table.act code.now (Giving (Shows.tried_of ended)) s.control s.operands s.world 0) }
{
    let _ = code;
    let spot = engine.drop_frame();
    engine.end_whole(&spot);
    engine.mode = Mode::Giving(Ended::Raised(failed_with(exception, says_failed(ended))));
}
