//! What a formal holds in the end of its body is an operand where the call goes on, and goes back to a variable (RM 6.4.1): codes in which
//! it does not stand there are refused.

use crate::rows::first_wrong;
use std::test::Fail;

/// A variable takes what the formal holds behind the call, and is printed; the procedure adds one to its formal.
const LINES: &str = "
   : start 0;
m  : handle 6;
m  : set i20 2;
mi : call 1 1 1;
mi : back 1 2 0 1;
mi : discard 1;
m  : move v1 2;
mi : print 1 2;
m  : leave;
f  : plus v0 1 v0;
f  : leave;
procedure 9; record 0 1; controlled - -;
";

/// Only what stands there goes back, and no more formals give back what they hold than there are actuals.
const CHANGES: &str = "
4 mi: back 1 2 0 1 => accepted
4 mi: back 1 1 0 1 => refused
4 mi: back 0 3 0 1 => refused
4 mi: back 2 1 0 1 => refused
5 mi: discard 2 => refused
2 m: line; 3 m: call 1 0 1 => refused
";

#[test]
fn only_what_stands_there_goes_back(rt: HostRuntime) -> Result<(), Fail> {
    assert_eq!(rt; first_wrong(rt.alloc(), LINES, CHANGES)?, "");
    Ok(())
}
