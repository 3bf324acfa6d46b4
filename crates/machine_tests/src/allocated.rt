//! Collections, allocators and dereferences (RM 4.1, 4.8, 7.6.1).

use crate::rows::first_wrong;
use std::test::Fail;

/// Two objects are allocated, and the first component of the second one takes 7, and is printed; behind that stands a Finalize that does nothing.
/// The collection stands in the first slot, and the second variable takes the access values. No pool has an Allocate here: the instruction that
/// creates an object at the address that one gave is passed over.
const LINES: &str = "
      : start 0;
m     : gather 0 1;
m     : new 0 r0 2;
miiii : inside r0 2;
mi    : move 2 v1;
m     : new 0 r0 2;
miiii : inside r0 2;
mi    : move 2 v1;
m     : move v1 2;
mi    : object 0 2;
mr    : set i7 3;
mri   : into 3 0 1;
m     : move v1 2;
mi    : object 0 2;
mr    : take 0 1 2;
mi    : print 1 2;
m     : leave;
f     : leave;
procedure 17; record 0 1; controlled - -;
";

/// A collection that is no layer is not emptied, and goes with its master. Null is Constraint_Error, and the number of no object ends the run; so does
/// an allocator where no collection was made. Collections and allocators name access types of the table, at a level that is seen; what is
/// dereferenced is the newest operand.
const OF_LINES: &str = "
1 m: gather 0 0; access 1 => live 1 c1/live 2 c1/print  7/newline/end done/picks []
8 m: set i0 2; access 1 => live 1 c1/live 2 c1/finalize 2 collection/finalize 1 collection/end raised CONSTRAINT_ERROR/picks [1]
8 m: set i9 2; access 1 => live 1 c1/live 2 c1/end stopped USE_AFTER_FREE/picks []
1 m: skip 0; access 1 => end stopped USE_AFTER_FREE/picks []
access 0 => refused
access 1 => accepted
access 2 => refused
access 1; 1 m: gather 1 1 => refused
access 1; 2 m: new 1 r0 2 => refused
access 1; 9 mi: object 0 1 => refused
";

/// Two numbers are allocated and read, the first one with a value: it takes the value below its access value, and the other begins with 0. The
/// cell of a number is read as the first component of a record is.
const NUMBERS: &str = "
       : start 0;
m      : gather 0 1;
m      : set i7 2;
mi     : new 0 i 3;
miiiii : inside i 3;
mii    : fill i 2;
mi     : move 2 v1;
m      : move v1 2;
mi     : object 0 2;
mr     : take 0 1 2;
mi     : print 1 2;
m      : new 0 i 2;
miiii  : inside i 2;
mi     : object 0 2;
mr     : take 0 1 2;
mi     : print 1 2;
m      : leave;
f      : leave;
procedure 17; record 0 1; controlled - -; access 1;
";

const OF_NUMBERS: &str = "=> print  7/newline/print  0/newline/end done/picks []";

/// The number of no object is given a value.
const NONE_GIVEN: &str = "
    : start 0;
m   : set i7 2;
mi  : set i9 3;
mii : fill i 2;
mi  : discard 1;
m   : leave;
f   : leave;
procedure 6; record 0 1; controlled - -; access 1;
";

const OF_NONE_GIVEN: &str = "=> end stopped USE_AFTER_FREE/picks []";

#[test]
fn objects_are_allocated(rt: HostRuntime) -> Result<(), Fail> {
    for (text, rows) in [
        (LINES, OF_LINES),
        (NUMBERS, OF_NUMBERS),
        (NONE_GIVEN, OF_NONE_GIVEN),
    ] {
        assert_eq!(rt; first_wrong(rt.alloc(), text, rows)?, "");
    }
    Ok(())
}
