//! Components of a declared object take their defaults, a step for each, and a step that is refused memory changes nothing.

use crate::rows::first_wrong;
use crate::runs::{counted, outcome_of};
use ctl_frames::outcome::Outcome;
use ctl_tree::ending::End;
use ctl_tree::request::Order;
use std::alloc::{AllocError, Global};
use std::test::Fail;

/// A block declares an object, and prints its three components; behind it stands a Finalize that prints a line.
const THREE_COMPONENTS: &str = "
    : start 0;
m   : enter 1 8;
m[  : declare 0 0;
m[  : fetch 2 0 0 1 3;
m[i : print 1 3;
m[  : fetch 2 0 0 2 3;
m[i : print 1 3;
m[  : fetch 2 0 0 3 3;
m[i : print 1 3;
m[  : leave;
m   : skip 0;
m   : leave;
f   : print 0 1;
f   : leave;
procedure 12; record 0 1;
";

/// The object is controlled, and each component has a default.
const CONTROLLED: &str = "controlled c10 c20 c30";

/// What is counted of a run of so many steps, of a controlled object.
fn counted_within(alloc: Global, steps: u64) -> Result<String, Fail> {
    let outcome = outcome_of(alloc, [THREE_COMPONENTS, CONTROLLED], Order::Newest, steps)?;
    counted(alloc, outcome)
}

#[test]
fn each_component_costs_a_step(rt: HostRuntime) -> Result<(), Fail> {
    for (steps, wanted) in [
        (4, "end limit\npicks [2]\nsteps 4\n"),
        (7, "live 1 m2\nend limit\npicks [2, 1]\nsteps 7\n"),
    ] {
        let counted = counted_within(rt.alloc(), steps)?;
        assert_eq!(rt; counted.as_str(), wanted);
    }
    Ok(())
}

/// The machine goes by the layout: where no part of the object is controlled there are only the three lines, no birth, and nothing that the Finalize
/// prints.
const PLAIN: &str =
    "plain c10 c20 c30 => print  10/newline/print  20/newline/print  30/newline/end done/picks [2, 1]";

#[test]
fn an_object_without_a_controlled_part_is_not_finalized(rt: HostRuntime) -> Result<(), Fail> {
    assert_eq!(rt; first_wrong(rt.alloc(), THREE_COMPONENTS, PLAIN)?, "");
    Ok(())
}

/// How a run ended whose memory may be refused.
#[derive(Clone, Copy, Debug, PartialEq, Eq)]
enum Ended {
    Done,
    Refused,
    Otherwise,
}

/// How many steps a run took, which choices, and what it printed.
fn reached(alloc: Global, outcome: &Outcome) -> Result<String, AllocError> {
    format!(in alloc;
        "{} {:?} {:?}",
        outcome.steps,
        outcome.picks.as_slice(),
        outcome.events.as_slice()
    )
}

/// The same of a run of at most so many steps, and whether it ended by itself.
fn reached_within(alloc: Global, steps: u64) -> Result<(String, u64, Ended), Fail> {
    let outcome = outcome_of(alloc, [THREE_COMPONENTS, CONTROLLED], Order::Oldest, steps)?;
    let ended = match &outcome.end {
        End::Done => Ended::Done,
        End::HostMemory => Ended::Refused,
        _ => Ended::Otherwise,
    };
    let (text, steps) = (reached(alloc, &outcome), outcome.steps);
    drop(outcome);
    Ok((text?, steps, ended))
}

/// Where `rt try --test --fail-alloc N` refuses one of the machine's growths, the outcome is that of the steps before it.
#[test]
fn a_refused_step_changes_nothing(rt: HostRuntime) -> Result<(), Fail> {
    let alloc = rt.alloc();
    let (reached, steps, ended) = reached_within(alloc, 1000)?;
    if ended == Ended::Refused {
        let (before, _, _) = reached_within(alloc, steps)?;
        assert_eq!(rt; before.as_str(), reached.as_str());
        return Ok(());
    }
    assert_eq!(rt; ended, Ended::Done);
    Ok(())
}
