use crate::script::{Call, Tested, wrong_line};
use fin_lists::{FinLists, Layer, MasterNo, SetNo};
use std::alloc::{AllocError, Allocator, Global};

// The calls. A number that is given is returned, and 3000 where memory or a condition lacks.

fn open_master<A: Allocator + Copy>(lists: &mut FinLists<A>) -> u64 {
    if !lists.has_master_numbers() {
        return 3000;
    }
    match lists.open_master() {
        Ok(MasterNo(number)) => number,
        Err(_) => 3000,
    }
}

fn number_of(answer: Result<SetNo, AllocError>) -> u64 {
    match answer {
        Ok(SetNo(number)) => number,
        Err(_) => 3000,
    }
}

fn add_collection<A: Allocator + Copy>(lists: &mut FinLists<A>, master: u64, joins: bool) -> u64 {
    if !lists.has_set_numbers() {
        return 3000;
    }
    number_of(lists.add_collection(MasterNo(master), joins))
}

fn open_subpool<A: Allocator + Copy>(lists: &mut FinLists<A>) -> u64 {
    if !lists.has_set_numbers() {
        return 3000;
    }
    number_of(lists.open_subpool())
}

/// Tells 0 where memory is given.
fn code_of(answer: Result<(), AllocError>) -> u64 {
    match answer {
        Ok(()) => 0,
        Err(_) => 3000,
    }
}

/// Tells the object of the newest layer, 1000 for collections, and 2000 for none.
fn newest<A: Allocator>(lists: &FinLists<A>, master: u64) -> u64 {
    match lists.newest(MasterNo(master)) {
        Some(Layer::Object(object)) => object,
        Some(Layer::Sets) => 1000,
        None => 2000,
    }
}

fn layer_nth<A: Allocator>(lists: &FinLists<A>, master: u64, k: u64) -> u64 {
    if k >= lists.layer_count(MasterNo(master)) {
        return 3000;
    }
    lists.layer_nth(MasterNo(master), k)
}

fn nth<A: Allocator>(lists: &FinLists<A>, set: u64, k: u64) -> u64 {
    if k >= lists.count(SetNo(set)) {
        return 3000;
    }
    lists.nth(SetNo(set), k)
}

/// Tells whether the set stands, or how a call left it.
fn stands<A: Allocator>(lists: &FinLists<A>, set: u64) -> u64 {
    lists.stands(SetNo(set)) as u64
}

fn remove<A: Allocator>(lists: &mut FinLists<A>, set: u64, object: u64) -> u64 {
    lists.remove(SetNo(set), object);
    stands(lists, set)
}

fn start<A: Allocator>(lists: &mut FinLists<A>, set: u64) -> u64 {
    lists.start_collection(SetNo(set));
    lists.started(SetNo(set)) as u64
}

fn drop_newest<A: Allocator>(lists: &mut FinLists<A>, master: u64) -> u64 {
    lists.drop_newest(MasterNo(master));
    newest(lists, master)
}

fn close_master<A: Allocator>(lists: &mut FinLists<A>, master: u64) -> u64 {
    lists.close_master(MasterNo(master));
    lists.is_open(MasterNo(master)) as u64
}

impl<A: Allocator + Copy> Tested<A> for FinLists<A> {
    fn new(alloc: A, _units: u64) -> Option<FinLists<A>> {
        Some(FinLists::new(alloc))
    }

    /// Makes one call: Add master object, Begin set (`start_collection`), Collection master joins, Drop master
    /// (`drop_newest`), End master (`close_master`), Master (`open_master`), Put set object (`add_to`), Remove set object, and
    /// Subpool (`open_subpool`).
    fn answer(&mut self, _alloc: A, call: Call) -> u64 {
        let [_, _, _, d, e, _] = call.numbers;
        match call.letter {
            b'A' => code_of(self.add_object(MasterNo(d), e)),
            b'B' => start(self, e),
            b'C' => add_collection(self, d, e == 1),
            b'D' => drop_newest(self, e),
            b'E' => close_master(self, e),
            b'M' => open_master(self),
            b'P' => code_of(self.add_to(SetNo(d), e)),
            b'R' => remove(self, d, e),
            b'S' => open_subpool(self),
            _ => told(self, call),
        }
    }

    fn close(self) {
        drop(self);
    }
}

/// Asks a question: is open master, kth master k (`layer_nth`), layer master (`layer_count`), newest master, quantity set
/// (`count`), there set (`stands`), under way set (`started`), and which set k (`nth`).
fn told<A: Allocator>(lists: &FinLists<A>, call: Call) -> u64 {
    let [_, _, _, d, e, _] = call.numbers;
    match call.letter {
        b'i' => lists.is_open(MasterNo(e)) as u64,
        b'k' => layer_nth(lists, d, e),
        b'l' => lists.layer_count(MasterNo(e)),
        b'n' => newest(lists, e),
        b'q' => lists.count(SetNo(e)),
        b't' => stands(lists, e),
        b'u' => lists.started(SetNo(e)) as u64,
        b'w' => nth(lists, d, e),
        _ => 4000,
    }
}

/// In the first four cases master 1 has the object 1 and then the collections 1 and 2 of one freezing place, which hold 4 and
/// 5.
const LISTS: &str = "\
# Layers from the newest on.
Master =1; Add 1 1=0; Collection 1 0=1; Collection 1 1=2; Put 2 5=0; Put 1 4=0;
newest 1=1000; Drop 1=1; newest 1=1; Drop 1=2000; newest 1=2000;

# A layer of two collections.
Master =1; Add 1 1=0; Collection 1 0=1; Collection 1 1=2; Put 2 5=0; Put 1 4=0;
kth 1 0=4; kth 1 1=5; kth 1 2=3000; Remove 1 4=1; kth 1 0=5; kth 1 1=3000; kth 1 2=3000;

# Members stand by number: they come in no order, some of one number in both sets.
Master =1; Add 1 1=0; Collection 1 0=1; Collection 1 1=2; Put 2 5=0; Put 1 4=0;
Put 1 7=0; Put 2 8=0; Put 1 3=0; Put 2 4=0; Put 1 9=0; Put 2 10=0; Put 1 1=0; Put 2 7=0; Remove 2 7=1;
newest 1=1000; layer 1=9; kth 1 0=1; kth 1 1=3; kth 1 2=4; kth 1 3=4; kth 1 4=5; kth 1 5=7; kth 1 6=8; kth 1 7=9; kth 1 8=10;
newest 2=2000; layer 2=0;
under way 1=0; quantity 1=5; which 1 0=1; which 1 1=3; which 1 2=4; which 1 3=7; which 1 4=9;
under way 2=0; quantity 2=4; which 2 0=4; which 2 1=5; which 2 2=8; which 2 3=10;
under way 3=0; quantity 3=0; under way 4=0; quantity 4=0;

# An object is a member once: to the first set its own member comes again, and that of the second twice.
Master =1; Add 1 1=0; Collection 1 0=1; Collection 1 1=2; Put 2 5=0; Put 1 4=0;
Put 1 4=0; Put 1 5=0; Put 1 5=0; quantity 1=2; quantity 2=1;

# A master closes: a collection of each of two and a subpool hold 6, and the finalization of each is under way.
Master =1; Master =2; Collection 1 0=1; Collection 2 0=2; Subpool =3;
Put 1 6=0; Begin 1=1; Put 2 6=0; Begin 2=1; Put 3 6=0; Begin 3=1; quantity 1=1; quantity 2=1; quantity 3=1;
is open 2=1; there 2=1; End 2=0; is open 2=0; there 2=0;
quantity 1=1; quantity 2=0; quantity 3=1; under way 1=1; under way 2=0; under way 3=1;
Master =3; quantity 1=1; quantity 2=0; quantity 3=1; under way 1=1; under way 2=0; under way 3=1;

# A subpool is empty at first.
Subpool =1; quantity 1=0;
";

#[test]
fn masters_and_sets(rt: HostRuntime) {
    assert_eq!(rt; wrong_line::<FinLists<Global>>(rt.alloc(), 0, LISTS), 0);
}

/// Twenty calls that take memory, and before each all that the lists tell of the first two masters and the first four sets.
pub const GROWN: &str = "\
Master =1;
? newest 1=2000; layer 1=0; newest 2=2000; layer 2=0; under way 1=0; quantity 1=0; under way 2=0; quantity 2=0; under way 3=0; quantity 3=0; under way 4=0; quantity 4=0;
Master =2;
? newest 1=2000; layer 1=0; newest 2=2000; layer 2=0; under way 1=0; quantity 1=0; under way 2=0; quantity 2=0; under way 3=0; quantity 3=0; under way 4=0; quantity 4=0;
Collection 1 0=1;
? newest 1=2000; layer 1=0; newest 2=2000; layer 2=0; under way 1=0; quantity 1=0; under way 2=0; quantity 2=0; under way 3=0; quantity 3=0; under way 4=0; quantity 4=0;
Put 1 3=0;
? newest 1=1000; layer 1=0; newest 2=2000; layer 2=0; under way 1=0; quantity 1=0; under way 2=0; quantity 2=0; under way 3=0; quantity 3=0; under way 4=0; quantity 4=0;
Put 1 4=0;
? newest 1=1000; layer 1=1; kth 1 0=3; newest 2=2000; layer 2=0; under way 1=0; quantity 1=1; which 1 0=3; under way 2=0; quantity 2=0; under way 3=0; quantity 3=0; under way 4=0; quantity 4=0;
Collection 1 1=2;
? newest 1=1000; layer 1=2; kth 1 0=3; kth 1 1=4; newest 2=2000; layer 2=0; under way 1=0; quantity 1=2; which 1 0=3; which 1 1=4; under way 2=0; quantity 2=0; under way 3=0; quantity 3=0; under way 4=0; quantity 4=0;
Subpool =3;
? newest 1=1000; layer 1=2; kth 1 0=3; kth 1 1=4; newest 2=2000; layer 2=0; under way 1=0; quantity 1=2; which 1 0=3; which 1 1=4; under way 2=0; quantity 2=0; under way 3=0; quantity 3=0; under way 4=0; quantity 4=0;
Put 3 7=0;
? newest 1=1000; layer 1=2; kth 1 0=3; kth 1 1=4; newest 2=2000; layer 2=0; under way 1=0; quantity 1=2; which 1 0=3; which 1 1=4; under way 2=0; quantity 2=0; under way 3=0; quantity 3=0; under way 4=0; quantity 4=0;
Put 3 8=0;
? newest 1=1000; layer 1=2; kth 1 0=3; kth 1 1=4; newest 2=2000; layer 2=0; under way 1=0; quantity 1=2; which 1 0=3; which 1 1=4; under way 2=0; quantity 2=0; under way 3=0; quantity 3=1; which 3 0=7; under way 4=0; quantity 4=0;
Put 3 9=0;
? newest 1=1000; layer 1=2; kth 1 0=3; kth 1 1=4; newest 2=2000; layer 2=0; under way 1=0; quantity 1=2; which 1 0=3; which 1 1=4; under way 2=0; quantity 2=0; under way 3=0; quantity 3=2; which 3 0=7; which 3 1=8; under way 4=0; quantity 4=0;
Add 2 10=0;
? newest 1=1000; layer 1=2; kth 1 0=3; kth 1 1=4; newest 2=2000; layer 2=0; under way 1=0; quantity 1=2; which 1 0=3; which 1 1=4; under way 2=0; quantity 2=0; under way 3=0; quantity 3=3; which 3 0=7; which 3 1=8; which 3 2=9; under way 4=0; quantity 4=0;
Add 2 11=0;
? newest 1=1000; layer 1=2; kth 1 0=3; kth 1 1=4; newest 2=10; layer 2=0; under way 1=0; quantity 1=2; which 1 0=3; which 1 1=4; under way 2=0; quantity 2=0; under way 3=0; quantity 3=3; which 3 0=7; which 3 1=8; which 3 2=9; under way 4=0; quantity 4=0;
Add 2 12=0;
? newest 1=1000; layer 1=2; kth 1 0=3; kth 1 1=4; newest 2=11; layer 2=0; under way 1=0; quantity 1=2; which 1 0=3; which 1 1=4; under way 2=0; quantity 2=0; under way 3=0; quantity 3=3; which 3 0=7; which 3 1=8; which 3 2=9; under way 4=0; quantity 4=0;
Add 2 13=0;
? newest 1=1000; layer 1=2; kth 1 0=3; kth 1 1=4; newest 2=12; layer 2=0; under way 1=0; quantity 1=2; which 1 0=3; which 1 1=4; under way 2=0; quantity 2=0; under way 3=0; quantity 3=3; which 3 0=7; which 3 1=8; which 3 2=9; under way 4=0; quantity 4=0;
Add 2 14=0;
? newest 1=1000; layer 1=2; kth 1 0=3; kth 1 1=4; newest 2=13; layer 2=0; under way 1=0; quantity 1=2; which 1 0=3; which 1 1=4; under way 2=0; quantity 2=0; under way 3=0; quantity 3=3; which 3 0=7; which 3 1=8; which 3 2=9; under way 4=0; quantity 4=0;
Add 2 15=0;
? newest 1=1000; layer 1=2; kth 1 0=3; kth 1 1=4; newest 2=14; layer 2=0; under way 1=0; quantity 1=2; which 1 0=3; which 1 1=4; under way 2=0; quantity 2=0; under way 3=0; quantity 3=3; which 3 0=7; which 3 1=8; which 3 2=9; under way 4=0; quantity 4=0;
Add 2 16=0;
? newest 1=1000; layer 1=2; kth 1 0=3; kth 1 1=4; newest 2=15; layer 2=0; under way 1=0; quantity 1=2; which 1 0=3; which 1 1=4; under way 2=0; quantity 2=0; under way 3=0; quantity 3=3; which 3 0=7; which 3 1=8; which 3 2=9; under way 4=0; quantity 4=0;
Add 2 17=0;
? newest 1=1000; layer 1=2; kth 1 0=3; kth 1 1=4; newest 2=16; layer 2=0; under way 1=0; quantity 1=2; which 1 0=3; which 1 1=4; under way 2=0; quantity 2=0; under way 3=0; quantity 3=3; which 3 0=7; which 3 1=8; which 3 2=9; under way 4=0; quantity 4=0;
Add 2 18=0;
? newest 1=1000; layer 1=2; kth 1 0=3; kth 1 1=4; newest 2=17; layer 2=0; under way 1=0; quantity 1=2; which 1 0=3; which 1 1=4; under way 2=0; quantity 2=0; under way 3=0; quantity 3=3; which 3 0=7; which 3 1=8; which 3 2=9; under way 4=0; quantity 4=0;
Add 2 19=0;
? newest 1=1000; layer 1=2; kth 1 0=3; kth 1 1=4; newest 2=18; layer 2=0; under way 1=0; quantity 1=2; which 1 0=3; which 1 1=4; under way 2=0; quantity 2=0; under way 3=0; quantity 3=3; which 3 0=7; which 3 1=8; which 3 2=9; under way 4=0; quantity 4=0;
newest 1=1000; layer 1=2; kth 1 0=3; kth 1 1=4; newest 2=19; layer 2=0; under way 1=0; quantity 1=2; which 1 0=3; which 1 1=4; under way 2=0; quantity 2=0; under way 3=0; quantity 3=3; which 3 0=7; which 3 1=8; which 3 2=9; under way 4=0; quantity 4=0;
";
