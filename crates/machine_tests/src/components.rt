//! A component of an object is passed by copy (RM 6.4.1): which part has it is kept below the actual, and what the formal holds in the end goes
//! back to it.

use crate::rows::first_wrong;
use std::test::Fail;

/// The second component of an object takes 20, is increased by a procedure, and printed. Two numbers are reserved to keep the part that has it.
const LINES: &str = "
     : start 0;
m    : declare 0 0;
m    : locate 1 0 0 2;
mr   : set i20 3;
mri  : into 3 0 2;
m    : reserve 2 2;
mii  : locate 1 0 0 4;
miir : keep 0 2 3 2 4;
miii : call 1 1 1;
miii : back 1 4 3 2 0 2;
miii : discard 3;
m    : fetch 1 0 0 2 2;
mi   : print 1 2;
m    : leave;
f    : plus v0 1 v0;
f    : leave;
procedure 14; record 0 1;
";

/// Where the layout is plain, nothing is done for an object that comes or goes, and the code is run: the value of the component is not asked where
/// the copy begins with that of its type, and where another value is passed in its place and nothing is kept, two zeros keep no part. A part is
/// kept in the last two of the operands that are counted, in their cells, and only what stands there goes back, to what is kept there.
const CHANGES: &str = "
plain - - => print  21/newline/end done/picks []
7 miir: begin 0 2 3 2 4; plain - - => print  1/newline/end done/picks []
6 mii: skip 0; 7 mii: set i5 4; plain - - => end stopped USE_AFTER_FREE/picks []
7 miir: keep 0 2 3 2 4; controlled - - => accepted
7 miir: keep 0 2 2 3 4; controlled - - => refused
7 miir: keep 0 2 4 1 4; controlled - - => refused
7 miir: keep 0 2 3 3 4; controlled - - => refused
7 miir: keep 0 2 3 2 3; controlled - - => refused
9 miii: back 1 4 3 2 0 2; controlled - - => accepted
9 miii: back 0 5 3 2 0 2; controlled - - => refused
9 miii: back 1 3 3 2 0 2; controlled - - => refused
9 miii: back 1 4 1 4 0 2; controlled - - => refused
9 miii: back 1 4 4 1 0 2; controlled - - => refused
9 miii: back 1 4 3 3 0 2; controlled - - => refused
";

#[test]
fn copies_go_back_to_components(rt: HostRuntime) -> Result<(), Fail> {
    assert_eq!(rt; first_wrong(rt.alloc(), LINES, CHANGES)?, "");
    Ok(())
}
