//! Block pools close whose finalization has ended (RM 13.11).

ghost use Rattle.std.specs.Prelude.{◌≡◌};
ghost use Rattle.ctl_engine.specs.Closing.{ClosesAfter};

use ctl_engine::engine::Engine;
use ctl_tree::event::Cause;

/// Closes the pool that the object of this number is, whose finalization for this cause has ended, if it is declared and a pool (RM
/// 13.11).
#[inline(always)]
pub fn close_after(engine: &mut Engine, cause: Cause, number: u64)
    ensures closed { ClosesAfter cause number engine.old.stock engine.new.stock }
    ensures same { engine.new ≡ record engine.old { stock = engine.new.stock } }
{
    if let Cause::Scope = cause {
        engine.close_if_pool(number);
    }
}
