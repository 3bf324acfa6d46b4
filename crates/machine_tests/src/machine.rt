//! Small codes, run to their ends and to a limit, step by step.

use crate::rows::first_wrong;
use crate::runs::run_and_step;
use ctl_tree::request::Order;
use std::test::Fail;

/// A main procedure with a block that declares two objects of one type, whose Finalize prints a line.
const TWO_OBJECTS: &str = "
   : start 0;
m  : enter 2 3;
m{ : declare 0 0;
m{ : declare 1 0;
m{ : leave;
m  : skip 0;
m  : leave;
f  : print 0 1;
f  : leave;
procedure 7; record 0 1; controlled - -;
";

#[test]
fn runs_are_stepped(rt: HostRuntime) -> Result<(), Fail> {
    for (order, steps, wanted) in [
        (
            Order::Newest,
            1000,
            "[Ended, Ended]\nlive 1 m2\nlive 2 m2\nfinalize 2 scope\nprint bye\nnewline\nfinalize 1 scope\nprint bye\nnewline\nend done\npicks []\nsteps 20\n",
        ),
        (
            Order::Oldest,
            6,
            "[Running, Running]\nlive 1 m2\nlive 2 m2\nend limit\npicks []\nsteps 7\n",
        ),
    ] {
        let told = run_and_step(rt.alloc(), TWO_OBJECTS, order, steps)?;
        assert_eq!(rt; told.as_str(), wanted);
    }
    Ok(())
}

/// The body of the main procedure is missing, and a slot without an object has no component.
const SMALL: &str = "
: start 7; m: leave => refused
: start 0; m: fetch 1 1 0 1 v0; m: leave => end stopped USE_AFTER_FREE/picks []
";

#[test]
fn what_is_missing_is_told(rt: HostRuntime) -> Result<(), Fail> {
    assert_eq!(rt; first_wrong(rt.alloc(), "", SMALL)?, "");
    Ok(())
}
