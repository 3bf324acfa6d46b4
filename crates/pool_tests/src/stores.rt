ghost use Rattle.std.specs.Prelude.{◌≡◌, None, IsTrue};
ghost use Rattle.std.specs.FinMap.{get};
ghost use Rattle.pool_store.specs.Store.{IsWithin, IsBlockPool, IsMarkPool, IsDetached};

use crate::script::{Call, Tested, wrong_line};
use linked_list_allocator::LocalHeap;
use pool_store::{Address, PoolKind, PoolStore, Standing, StoreFault, SubpoolNo};
use std::alloc::{Allocator, Global};

// What the calls ask for, found out by other calls.

/// Says whether so many words from a place on lie within the object, where it is held.
fn allows<A: Allocator>(store: &PoolStore<A>, object: u64, place: usize, count: usize) -> bool
    ensures { IsTrue result → IsWithin object place count store.now }
{
    let len = store.len_of(object);
    !store.is_held(object) || len >= count && place <= len - count
}

fn is_blocks<A: Allocator>(store: &PoolStore<A>, pool: u64) -> bool
    ensures { IsTrue result → IsBlockPool pool store.now }
{
    match store.kind(pool) {
        Some(PoolKind::Blocks) => true,
        Some(PoolKind::Both) => true,
        Some(PoolKind::Marks) => false,
        None => false,
    }
}

fn is_marks<A: Allocator>(store: &PoolStore<A>, pool: u64) -> bool
    ensures { IsTrue result → IsMarkPool pool store.now }
{
    match store.kind(pool) {
        Some(PoolKind::Marks) => true,
        Some(PoolKind::Both) => true,
        Some(PoolKind::Blocks) => false,
        None => false,
    }
}

/// Tells how a subpool stands: 1 where it is attached, 2 where it is detached, 3 where it is dead, 0 for none.
fn standing_of<A: Allocator>(store: &PoolStore<A>, subpool: u64) -> u64
    ensures { result ≡ 2 → IsDetached subpool store.now }
{
    match store.standing(SubpoolNo(subpool)) {
        Some(Standing::Attached) => 1,
        Some(Standing::Detached) => 2,
        Some(Standing::Dead) => 3,
        None => 0,
    }
}

// The calls, each with its condition tested first. A fault's number is returned, 0 for none, and with 1000 added where a
// number is given too. 1000 stands for a condition that does not hold, and 2000 where a number is given.

fn code_of(answer: Result<(), StoreFault>) -> u64 {
    match answer {
        Ok(()) => 0,
        Err(fault) => fault.code() as u64,
    }
}

fn number_of(answer: Result<SubpoolNo, StoreFault>) -> u64 {
    match answer {
        Ok(SubpoolNo(number)) => number,
        Err(fault) => fault.code() as u64 + 1000,
    }
}

fn allocate_in<A: Allocator + Copy>(
    store: &mut PoolStore<A>,
    subpool: u64,
    pool: u64,
    object: u64,
    words: u64,
) -> u64
    requires { get store.old.objects object ≡ None }
{
    if words < 1 || words > 4096 {
        return 2000;
    }
    code_of(store.allocate_in(SubpoolNo(subpool), pool, object, words * 8))
}

/// Puts a new object into the standard pool, a block (`occupy`) or a subpool (`allocate_in`), by the letter of the call.
fn hold<A: Allocator + Copy>(store: &mut PoolStore<A>, call: Call) -> u64 {
    let [_, b, c, object, size, _] = call.numbers;
    if store.is_held(object) {
        return 1000;
    }
    match call.letter {
        b'I' => allocate_in(store, b, c, object, size),
        b'P' => code_of(store.occupy(b, Address(c), object, size)),
        _ => code_of(store.standard(object, size as usize)),
    }
}

fn read<A: Allocator>(store: &PoolStore<A>, object: u64, word: usize) -> u64 {
    if !allows(store, object, word, 1) {
        return 1000;
    }
    match store.read(object, word) {
        Ok(value) => value,
        Err(fault) => fault.code() as u64,
    }
}

fn write<A: Allocator>(store: &mut PoolStore<A>, object: u64, word: usize, value: u64) -> u64 {
    if !allows(store, object, word, 1) {
        return 1000;
    }
    code_of(store.write(object, word, value))
}

fn copy<A: Allocator>(
    store: &mut PoolStore<A>,
    [from, to]: [u64; 2],
    [word, target]: [usize; 2],
    count: usize,
) -> u64 {
    if !allows(store, from, word, count) || !allows(store, to, target, count) {
        return 1000;
    }
    code_of(store.copy(from, word, to, target, count))
}

fn open_block<A: Allocator + Copy>(
    store: &mut PoolStore<A>,
    pool: u64,
    units: u64,
    count: usize,
) -> u64 {
    let sizes = units >= 1 && units <= 4096 && count >= 1 && count <= 65536;
    if store.kind(pool).is_some() || !sizes {
        return 1000;
    }
    code_of(store.open_block(pool, units, count))
}

/// Takes a block, and tells its address, from 1.
fn allocate<A: Allocator + Copy>(store: &mut PoolStore<A>, pool: u64, units: u64) -> u64 {
    if !is_blocks(store, pool) || !store.has_addresses() {
        return 2000;
    }
    match store.allocate(pool, units) {
        Ok(Address(address)) => address,
        Err(fault) => fault.code() as u64 + 1000,
    }
}

/// Vacates an object, and tells the address of the block that it leaves behind, 0 for none.
fn vacate<A: Allocator>(store: &mut PoolStore<A>, object: u64) -> u64 {
    match store.vacate(object) {
        Ok(Some(Address(address))) => address,
        Ok(None) => 0,
        Err(fault) => fault.code() as u64 + 1000,
    }
}

fn close_pool<A: Allocator>(store: &mut PoolStore<A>, pool: u64) -> bool {
    if !store.is_open(pool) {
        return false;
    }
    store.close_pool(pool);
    !store.is_open(pool)
}

/// Opens a pool with marks, under a number that has no pool or one of blocks, and tells the number of its first subpool.
fn open_mark<A: Allocator + Copy>(store: &mut PoolStore<A>, pool: u64, units: u64) -> u64 {
    if units < 8 || units > 16777216 || !store.has_subpool_numbers() {
        return 2000;
    }
    match store.kind(pool) {
        None => number_of(store.open_mark(pool, units)),
        Some(PoolKind::Blocks) => number_of(store.open_mark(pool, units)),
        _ => 2000,
    }
}

fn create_subpool<A: Allocator + Copy>(store: &mut PoolStore<A>, pool: u64) -> u64 {
    if !is_marks(store, pool) || !store.has_subpool_numbers() {
        return 2000;
    }
    number_of(store.create_subpool(pool))
}

/// Releases a subpool, and tells 1 where it was the last one, 0 where it was not.
fn release<A: Allocator>(store: &mut PoolStore<A>, subpool: u64) -> u64 {
    if standing_of(store, subpool) != 2 || !store.has_subpool_numbers() {
        return 2000;
    }
    store.release_subpool(SubpoolNo(subpool)) as u64
}

fn default_subpool<A: Allocator>(store: &PoolStore<A>, pool: u64) -> u64 {
    if !is_marks(store, pool) {
        return 2000;
    }
    store.default_subpool(pool).0
}

impl<A: Allocator + Copy> Tested<A> for PoolStore<A> {
    fn new(alloc: A, _units: u64) -> Option<PoolStore<A>> {
        Some(PoolStore::new(alloc))
    }

    /// Makes one call with numbers in the order of its own: Allocate, Copy, Deallocate, End (`close_pool`), Free (`release`), In
    /// (`allocate_in`), Mark (`open_mark`), New (`create_subpool`), Open (`open_block`), Put (`occupy`), Standard, Untie
    /// (`detach_subpool`), Vacate and Write.
    fn answer(&mut self, _alloc: A, call: Call) -> u64 {
        match call.letter {
            b'I' | b'P' | b'S' => hold(self, call),
            b'C' | b'V' | b'W' => on_words(self, call),
            b'A' | b'D' | b'E' | b'O' => on_blocks(self, call),
            b'F' | b'M' | b'N' | b'U' => on_subpools(self, call),
            _ => told(self, call),
        }
    }

    fn close(self) {
        self.close();
    }
}

/// Makes a call on an object that is held.
fn on_words<A: Allocator>(store: &mut PoolStore<A>, call: Call) -> u64 {
    let [a, b, c, d, e, _] = call.numbers;
    match call.letter {
        b'C' => copy(store, [a, b], [c as usize, d as usize], e as usize),
        b'V' => vacate(store, e),
        _ => write(store, c, d as usize, e),
    }
}

/// Makes a call on a pool of blocks.
fn on_blocks<A: Allocator + Copy>(store: &mut PoolStore<A>, call: Call) -> u64 {
    let [_, _, c, d, e, _] = call.numbers;
    match call.letter {
        b'A' => allocate(store, d, e),
        b'D' => code_of(store.deallocate(d, Address(e))),
        b'E' => close_pool(store, e) as u64,
        _ => open_block(store, c, d, e as usize),
    }
}

/// Makes a call on a pool with marks.
fn on_subpools<A: Allocator + Copy>(store: &mut PoolStore<A>, call: Call) -> u64 {
    let [_, _, _, d, e, _] = call.numbers;
    match call.letter {
        b'F' => release(store, e),
        b'M' => open_mark(store, d, e),
        b'N' => create_subpool(store, e),
        _ => code_of(store.detach_subpool(SubpoolNo(e))),
    }
}

/// Asks a question: addresses (`has_addresses`), blocks pool, default pool (`default_subpool`), held object, length object,
/// marks pool, open pool, read object word, standing subpool, and unused (`has_subpool_numbers`).
fn told<A: Allocator>(store: &PoolStore<A>, call: Call) -> u64 {
    let [_, _, _, d, e, _] = call.numbers;
    match call.letter {
        b'a' => store.has_addresses() as u64,
        b'b' => is_blocks(store, e) as u64,
        b'd' => default_subpool(store, e),
        b'h' => store.is_held(e) as u64,
        b'l' => store.len_of(e) as u64,
        b'm' => is_marks(store, e) as u64,
        b'o' => store.is_open(e) as u64,
        b'r' => read(store, d, e as usize),
        b's' => standing_of(store, e),
        b'u' => store.has_subpool_numbers() as u64,
        _ => 4000,
    }
}

const STORES: &str = "\
# An object lives and is gone: 9, of two words, before and after a write, and once it is vacated.
Standard 9 2=0; read 9 1=0; Write 9 1 5=0; read 9 1=5; Vacate 9=0; read 9 1=64; Vacate 9=1064;

# Words are copied: object 8 has 1 to 4, and 7 has 9; within 8, and from 7 to 8.
Standard 8 4=0; Standard 7 1=0; Write 8 0 1=0; Write 8 1 2=0; Write 8 2 3=0; Write 8 3 4=0; Write 7 0 9=0;
Copy 8 8 0 1 3=0; read 8 0=1; read 8 1=1; read 8 2=2; read 8 3=3;
Copy 7 8 0 2 1=0; read 8 0=1; read 8 1=1; read 8 2=9; read 8 3=3; Copy 8 5 0 0 0=64;

# An object lives in a block: pool 1 has one of 16 storage units, where 7 is put, copied and vacated.
Open 1 16 1=0; Allocate 1 24=1060; Allocate 1 16=1; Put 1 1 7 16=0; Write 7 1 5=0; read 7 1=5; Allocate 1 8=1060;
Deallocate 1 1=63; Standard 9 2=0; Copy 7 9 1 0 1=0; read 9 0=5; Vacate 7=1; read 7 1=64; Deallocate 1 1=0;
Put 1 1 8 16=63; Deallocate 1 1=63;

# An address is used once: a block that was given back goes out under another one, with words that are 0.
Open 1 16 1=0; Allocate 1 16=1; Put 1 1 7 16=0; Write 7 0 3=0; Vacate 7=1; Deallocate 1 1=0;
Allocate 1 9=2; Put 1 2 7 16=0; read 7 0=0;

# A pool closes: 1 has 7 in one of its two blocks, 2 has 8, and 9 lies in no block; 1 has no block then until it opens again.
Open 1 16 2=0; Open 2 16 1=0; Allocate 1 16=1; Allocate 1 16=2; Allocate 2 16=3; Put 1 1 7 16=0; Put 2 3 8 16=0;
Standard 9 2=0; Write 8 1 3=0; Write 9 1 4=0; End 1=1; read 7 1=64; Deallocate 1 2=63; read 8 1=3; read 9 1=4;
Allocate 1 16=2000; Open 1 8 1=0; Allocate 1 8=4;

# Objects live in subpools: of 32 storage units 16 in the first one, and a second is released; then there are nine more.
Mark 2 32=1; In 1 2 10 2=0; New 2=2; In 1 2 11 1=61; In 2 2 11 3=60; default 2=2; Untie 2=0; In 2 2 11 1=62; Free 2=1;
In 2 2 11 1=66; Untie 2=66; New 2=3; New 2=4; New 2=5; New 2=6; New 2=7; New 2=8; New 2=9; New 2=10; New 2=11; New 2=1065;

# A release takes the objects of its subpool: 10 and 11 lie in the first one and a further one, and 9 in the standard pool.
Mark 2 64=1; In 1 2 10 2=0; New 2=2; In 2 2 11 2=0; Standard 9 2=0; Write 10 1 5=0; Write 11 1 6=0; Write 9 0 7=0;
Copy 10 9 1 1 1=0; Copy 10 10 1 0 1=0; read 10 0=5; Vacate 11=0; read 10 1=5; read 11 1=64; read 9 1=5;
Untie 1=0; Free 1=0; read 10 1=64; read 11 1=64; read 9 1=5; End 2=1; read 9 1=5;

# Conditions can be asked: 1 is a pool of blocks, 2 one with marks, which has object 10, and 3 one of both.
Mark 2 32=1; Open 1 16 1=0; In 1 2 10 2=0; Open 3 16 1=0; Mark 3 8=2;
blocks 1=1; marks 1=0; blocks 2=0; marks 2=1; blocks 3=1; marks 3=1; blocks 4=0; marks 4=0;
length 10=2; length 11=0; held 10=1; held 11=0; addresses =1; unused =1;
standing 1=1; Untie 1=0; standing 1=2; standing 0=0;
";

#[test]
fn objects_and_pools(rt: HostRuntime) {
    assert_eq!(rt; wrong_line::<PoolStore<Global>>(rt.alloc(), 0, STORES), 0);
}

/// Says whether a pool of two blocks of 4,096 storage units each gives its region back as it closes.
fn gives_back(heap: &LocalHeap) -> bool {
    let mut store = PoolStore::new(heap);
    let opened = open_block(&mut store, 1, 4096, 2) == 0;
    let open = heap.used();
    let closed = close_pool(&mut store, 1);
    let left = heap.used();
    store.close();
    opened && closed && left < open && open - left >= 8192
}

/// Says whether it does so over a heap of which no byte is taken in the end.
fn gives_all_back(alloc: Global) -> bool {
    match LocalHeap::new(alloc, 16384) {
        Ok(heap) => gives_back(&heap) && heap.used() == 0,
        Err(_) => false,
    }
}

#[test]
fn a_closed_pool_is_freed(rt: HostRuntime) {
    assert!(rt; gives_all_back(rt.alloc()));
}

/// Objects 8 and 7 of the standard pool.
pub const GROWN: &str = "\
Standard 8 1=0;
? read 8 0=64; Standard 7 5=9; read 8 0=64; read 7 4=64;
Write 8 0 6=0;
Standard 7 5=0;
? read 8 0=6; read 7 4=64;
read 8 0=6; read 7 4=0;
";

/// Objects 7 and 8 in the two blocks of a pool. A block of which Put was refused is still out, and vacant.
pub const GROWN_IN_BLOCKS: &str = "\
Open 1 16 2=0;
? open 1=0; Allocate 1 16=2000; read 7 1=64; read 8 1=64;
Allocate 1 16=1;
? open 1=1; read 7 1=64; read 8 1=64;
Put 1 1 7 16=0;
? open 1=1; Allocate 1 16=2; Put 1 2 8 16=9; read 7 1=64; read 8 1=64; Deallocate 1 1=0;
Write 7 1 6=0;
Allocate 1 16=2;
? open 1=1; read 7 1=6; read 8 1=64;
Put 1 2 8 16=0;
? open 1=1; read 7 1=6; read 8 1=64; Deallocate 1 2=0;
open 1=1; read 7 1=6; read 8 1=0;
";

/// Objects 7 and 8 in two subpools of a pool. What a refused request did not take can be taken.
pub const GROWN_IN_SUBPOOLS: &str = "\
Mark 2 32=1;
? open 2=0; New 2=2000; read 7 1=64; read 8 1=64;
In 1 2 7 2=0;
? open 2=1; New 2=2; In 2 2 8 2=9; read 7 1=64; read 8 1=64; default 2=2;
Write 7 1 6=0;
New 2=2;
? open 2=1; read 7 1=6; read 8 1=64; default 2=1;
In 2 2 8 2=0;
? open 2=1; read 7 1=6; read 8 1=64; default 2=2;
open 2=1; read 7 1=6; read 8 1=0;
";
