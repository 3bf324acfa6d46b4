//! Functions are called in expressions, where their values are operands, and procedures in statements: codes that mix them up are refused.

use crate::rows::first_wrong;
use std::test::Fail;

/// A sum of a number and the value of a function, which returns its formal, is printed.
const SUMS: &str = "
    : start 0;
m   : set i1 2;
mi  : set i20 3;
mii : evaluate 1 1 3;
mii : sum 2 3 2;
mi  : put 1 2;
m   : leave;
f   : return v0;
f   : leave;
record 0 0; controlled - -; exception;
";

const OF_SUMS: &str = "
function 7 => accepted
procedure 7 => refused
";

/// The function is called as a procedure.
const CALLED_AS_PROCEDURE: &str = "
   : start 0;
m  : set i1 2;
mi : call 1 1 0;
m  : leave;
f  : return v0;
f  : leave;
record 0 0; controlled - -; exception;
";

const OF_CALLED: &str = "
procedure 4 => accepted
function 4 => refused
";

#[test]
fn kinds_of_bodies_are_told_apart(rt: HostRuntime) -> Result<(), Fail> {
    for (text, rows) in [(SUMS, OF_SUMS), (CALLED_AS_PROCEDURE, OF_CALLED)] {
        assert_eq!(rt; first_wrong(rt.alloc(), text, rows)?, "");
    }
    Ok(())
}
