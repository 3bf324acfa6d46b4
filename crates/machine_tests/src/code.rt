//! Codes that are accepted, and codes with one fault each.

use crate::rows::first_wrong;
use std::test::Fail;

/// What stands beside each small code: the body behind it is the Finalize of the only record type.
const BESIDE: &str = "record 0 1; controlled - -; silent; text i b";

/// Small codes, and what each of those that are refused has that does not fit.
const SMALL: &str = "
: start 0; m: leave; f: leave; procedure 2; least => accepted
: start 0; m: call 1 0 0; m: leave; f: fetch 1 1 1; fi: discard 1; f: leave; procedure 5; least; -- a slot of a master around the body => accepted
: start 0; m: skip 7; m: leave; f: leave; procedure 3; least; -- a branch past the end => refused
: start 0; m: set b1 2; mb: minus 2 v0; m: leave; f: leave; procedure 4; least; -- a Boolean for a number => refused
: start 0; m: set b1 2; mb: both 2 2 2; mb: unless 2 0; m: leave; f: leave; procedure 5; least; -- a number for a Boolean => refused
: start 0; m: set i1 2; mi: into v0 0 1; m: leave; f: leave; procedure 4; least; -- a number for a part => refused
: start 0; m: set i1 2; mi: select 0 1 0; mr: take 0 2 1; m: leave; f: leave; procedure 5; least; -- a selector of a number => refused
: start 0; m: locate 1 0 0 2; mr: take 0 2 1; mi: move 2 v0; m: leave; f: leave; procedure 5; least; -- a component in another cell => refused
: start 0; m: locate 1 0 0 2; mr: assign 0; m: leave; f: leave; procedure 4; least; -- an assignment without a target => refused
: start 0; m: set i1 2; mi: sum 2 3 v0; m: leave; f: leave; procedure 4; least; -- a missing operand => refused
: start 0; m: set i1 3; mi: minus 2 v0; m: leave; f: leave; procedure 4; least; -- an operand in another cell => refused
: start 0; m: up 2 0 0 0; m: leave; f: leave; procedure 3; least; -- a next turn without bounds => refused
: start 0; m: put 1 2; m: leave; f: leave; procedure 3; least; -- a text past the table => refused
: start 0; m: raise 1; m: leave; f: leave; procedure 3; least; -- an exception past the table => refused
: start 0; m: set i1 2; mi: leave; f: leave; procedure 3; least; -- an operand that is left over => refused
: start 0; m: declare 2 0; m: leave; f: leave; procedure 3; least; -- a slot past those of its master => refused
: start 0; m: call 1 0 0; m: leave; f: fetch 1 2 1; fi: discard 1; f: leave; procedure 5; least; -- a slot past those of a master around => refused
: start 0; m: fetch 2 0 v0; m: leave; f: leave; procedure 3; least; -- a variable of no master => refused
";

/// Each instruction at least once, and behind the main procedure the body of a Finalize.
const EACH_INSTRUCTION: &str = "
      : start 0;
m     : number;
m     : set i1 v0;
m     : set i1 2;
mi    : move 2 v1;
m     : enter 1 3;
m[    : declare 0 0;
m[    : line;
m[    : leave;
m     : skip 0;
m     : equal v0 v1 2;
mb    : unless 2 1;
m     : skip 2;
m     : minus v0 v0;
m     : back 4;
m     : plus v0 3 v0;
m     : set i1 2;
mi    : set i3 3;
mii   : down 2 0 0 10;
mii   : abandon 9;
mii   : set b1 4;
miib  : andthen 1 4;
mii   : set b0 4;
miib  : unless 4 1;
mii   : abandon 4;
mii   : set i5 4;
miii  : set b1 5;
miiib : print 0 4;
mii   : next 2 0 0 8;
m     : enter 1 1;
m[    : exit;
m     : skip 0;
m     : leave;
f     : fetch 1 0 1;
fi    : store 1 1 1;
f     : locate 2 0 0 1;
fr    : fetch 2 0 0 2 2;
fri   : into 2 0 1;
f     : locate 2 0 0 1;
fr    : select 0 1 0;
fr    : take 0 2 1;
fi    : store 1 1 1;
f     : locate 2 0 0 1;
fr    : locate 2 0 0 2;
frr   : assign 0;
f     : locate 2 0 0 1;
fr    : copy 0 0;
f     : call 1 0 0;
f     : handle 0;
f     : catch 0 0;
f     : again;
f     : raise 0;
f     : return v0;
f     : value 1;
f     : return;
controlled - -; silent; text i b;
";

/// The Finalize stands at place 33, is body 1, and the masters around each declaration are told.
const TABLES: &str = "
procedure 33; record 0 1; least => accepted
procedure 33; record 0 1; -- a slot of a master of which nothing is said => refused
procedure 33; record 0 2; least; -- an operation without a body => refused
procedure 7; record 0 1; least; -- an entry inside a block => refused
procedure 55; record 0 1; least; -- an entry past the code => refused
procedure 33; record 0 1; more; -- an instruction of which nothing says what stands before it => refused
procedure 33; record 0 1; least; more; -- the same, where that is the only fault => refused
procedure 33; record 0 1; room 5; -- a window without room => refused
procedure 33; record 0 1; least; room 5; -- the same, where that is the only fault => refused
";

#[test]
fn faults_are_refused(rt: HostRuntime) -> Result<(), Fail> {
    for (text, rows) in [(BESIDE, SMALL), (EACH_INSTRUCTION, TABLES)] {
        assert_eq!(rt; first_wrong(rt.alloc(), text, rows)?, "");
    }
    Ok(())
}
