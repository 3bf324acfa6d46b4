//! Where the end of a master leads, and where control comes behind it.

ghost use Rattle.std.specs.Prelude.{◌≡◌, ◌≢◌, ◌-◌, IfNone, IfSome, Some, length, slice_get};
ghost use Rattle.ctl_meaning.specs.Outcome as Outcome;
ghost use Rattle.ctl_code.specs.Table as Table;
ghost use Rattle.ctl_frames.specs.declared.frame.Frame.TheVariants as FrameOf;
ghost use Rattle.ctl_frames.specs.declared.frame.After.{After};
ghost use Rattle.ctl_frames.specs.declared.frame.Handling.{Handling};

use crate::engine::Engine;
use ctl_code::code::Way;
use ctl_frames::frame::{After, Frame};

/// The place where control comes behind a master that is left, and the first cell of the window that is the newest one then.
#[derive(Clone, Copy)]
pub struct Continuation {
    pub place: usize,
    pub window: usize,
}

/// Tells whether a transfer of control this way completes the loop that is left, as an exit statement does (RM 5.7).
#[inline(always)]
pub fn completes_loop(way: Way) -> bool
    ensures { result ≡ Outcome.completes_loop (Table.way_of way) }
{
    matches!(way, Way::Exit)
}

impl Engine {
    /// Answers where the end of the innermost master leads, if its statements are being executed.
    #[inline(always)]
    pub fn innermost(&self) -> Option<After>
        ensures some { IfSome result (λ after. (handling : Handling) × (slice_get self.now.control.items (length self.now.control.items - 1) ≡ Some (FrameOf.InMaster handling after))) }
        ensures none { IfNone result ((handling : Handling) (after : After) → slice_get self.now.control.items (length self.now.control.items - 1) ≢ Some (FrameOf.InMaster handling after)) }
    {
        match self.control.as_slice().last().copied() {
            Some(Frame::InMaster(_, after)) => Some(after),
            _ => None,
        }
    }
}
