//! Functions give records (RM 6.4, 6.5): the value waits while masters are left, is passed to a formal that copies it, has components, and an
//! object is declared with it.

use crate::rows::first_wrong;
use std::test::Fail;

/// A record is made, passed on, and declared; another one is asked for its component, and one is dropped. The first function makes a record, whose
/// second component is 20, and the second one gives its formal back. Nothing is done for an object that comes or goes.
const LINES: &str = "
    : start 0;
m   : evaluate 1 0 0 2;
mr  : evaluate 2 1 0 2;
mr  : copy 0 0;
m   : evaluate 1 0 0 2;
mr  : take 0 2 2;
mi  : print 1 2;
m   : fetch 1 0 0 2 2;
mi  : print 1 2;
m   : evaluate 1 0 0 2;
mr  : drop 0;
m   : leave;
f   : declare 0 0;
f   : locate 2 0 0 1;
fr  : set i20 2;
fri : into 2 0 2;
f   : enter 1 3;
f[  : locate 2 0 0 2;
f[r : give 0;
f[  : leave;
f   : skip 0;
f   : leave;
g   : locate 2 0 0 1;
gr  : give 0;
g   : leave;
function 12; record 0 0; plain - -; exception;
";

/// Only functions give records.
const CHANGES: &str = "
function 22 => print  20/newline/print  20/newline/end done/picks []
procedure 22 => refused
";

#[test]
fn functions_give_records(rt: HostRuntime) -> Result<(), Fail> {
    assert_eq!(rt; first_wrong(rt.alloc(), LINES, CHANGES)?, "");
    Ok(())
}
