//! Layouts of objects with controlled parts: those that their types, their operations or their controlled components do not fit are refused.

use crate::rows::first_wrong;
use std::test::Fail;

/// A block declares an object of the last of three record types; behind it stands a body that does nothing. It is the Finalize of all three, and
/// the Initialize of the first two, which have one cell each.
const DECLARED: &str = "
   : start 0;
m  : enter 1 2;
m[ : declare 0 2;
m[ : leave;
m  : skip 0;
m  : leave;
f  : leave;
procedure 6;
record 1 1; controlled c7;
record 1 1; controlled c7;
record 0 1;
";

/// The layout of the last record type, a controlled one with two controlled parts.
const LAYOUTS: &str = "
controlled t0 t0 => accepted
outer t0 t0; -- a Finalize that is declared deeper than its type => refused
controlled t0 t3; -- a component of a type past the table => refused
controlled u0 u0; -- controlled parts that are not told apart => refused
";

#[test]
fn layouts_are_looked_at(rt: HostRuntime) -> Result<(), Fail> {
    assert_eq!(rt; first_wrong(rt.alloc(), DECLARED, LAYOUTS)?, "");
    Ok(())
}
