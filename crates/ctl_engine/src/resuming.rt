//! The frame that waits, and the value that waits.

ghost use Rattle.std.specs.Prelude.{◌≡◌, ◌∷◌, [], List, MatchOption, reverse, ◌<◌, length};
ghost use Rattle.ctl_frames.specs.declared.frame.Frame.{Frame};
ghost use Rattle.ctl_meaning.specs.Names.{scalar_of};
ghost use Rattle.ctl_frames.specs.Spots.{last_value};

use crate::engine::Engine;
use ctl_frames::frame::Frame;

impl Engine {
    /// Answers the newest frame, if one waits.
    #[inline(always)]
    pub fn newest_frame(&self) -> Option<Frame>
        ensures { MatchOption result (reverse self.now.control.items ≡ []) (λ frame. (fs : List Frame) × (reverse self.now.control.items ≡ frame ∷ fs)) }
    {
        self.control.as_slice().last().copied()
    }

    /// Answers the first cell of the value that waits.
    pub fn cell_waiting(&self) -> u64
        requires { 0 < length self.now.spots.items }
        ensures { result ≡ scalar_of (last_value self.now.spots.items) }
    {
        self.spots[self.count_spots() - 1].cell(0)
    }
}
