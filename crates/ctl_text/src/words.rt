//! The words of the trace text.

ghost use Rattle.std.specs.Prelude.{◌≡◌};
ghost use Rattle.ctl_text.specs.Words.{cause_word, stop_word};

use ctl_tree::ending::Stop;
use ctl_tree::event::Cause;

/// Returns the word for why a part is finalized.
pub fn word_of_cause(cause: Cause) -> &'static str
    ensures { result.now ≡ cause_word cause }
{
    match cause {
        Cause::Scope => "scope",
        Cause::Collection => "collection",
        Cause::Free => "free",
        Cause::Subpool => "subpool",
        Cause::Assign => "assign",
        Cause::Failed => "failed",
    }
}

/// Returns the word for why a run was stopped.
pub fn word_of_stop(stop: Stop) -> &'static str
    ensures { result.now ≡ stop_word stop }
{
    match stop {
        Stop::UseAfterFree => "USE_AFTER_FREE",
        Stop::FreeWhileFinalizing => "FREE_WHILE_FINALIZING",
        Stop::ForeignFree => "FOREIGN_FREE",
        Stop::BadAddress => "BAD_ADDRESS",
        Stop::ReleasedSubpool => "RELEASED_SUBPOOL",
    }
}
