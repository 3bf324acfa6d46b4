//! What a run comes to.

ghost use Rattle.std.specs.Prelude.{◌≡◌};

use ctl_engine::engine::Engine;
use ctl_frames::outcome::Outcome;
use ctl_tree::ending::End;

/// Answers what an engine has shown and which choices it has taken, with this end and after so many steps.
pub fn report(engine: Engine, end: End, steps: u64) -> Outcome
    ensures events { result.events.items ≡ engine.events.items }
    ensures picks { result.picks.items ≡ engine.picks.items }
    ensures end { result.end ≡ end }
    ensures steps { result.steps ≡ steps }
{
    let (events, picks) = engine.into_parts();
    Outcome {
        events,
        picks,
        end,
        steps,
    }
}
