ghost use Rattle.std.specs.Prelude.{◌≡◌, ◌+◌, ◌<◌, ◌≤◌, length, replicate};
ghost use Rattle.raw_region.specs.Places.{held};

use linked_list_allocator::LocalHeap;
use mark_pool::{MarkNo, MarkPool, PoolFault};
use std::alloc::{Allocator, Global};

/// Asks a pool of which no word is left for one, and returns whether it is given.
fn is_given<A: Allocator>(pool: &mut MarkPool<A>) -> bool
    requires { length pool.old.places ≤ pool.old.used }
    ensures { pool.new ≡ pool.old }
{
    match pool.take(1) {
        Some(block) => {
            pool.back(block);
            true
        }
        None => false,
    }
}

/// Says whether a pool tells this of itself: the words that are used, those that are out, those of them from the newest mark
/// on, whether all are back, and the number of the newest mark.
fn tells<A: Allocator>(pool: &MarkPool<A>, wanted: [u64; 5]) -> bool {
    let whole = pool.is_whole() as u64;
    let told = [
        pool.used(),
        pool.out(),
        pool.out_since_top(),
        whole,
        pool.top().0,
    ];
    told == wanted
}

/// Takes three words of a pool of four, makes a second mark, takes one word and asks for one more; brings that Block back and
/// releases its mark while the older Block is out, and then brings this one back and releases the first mark, which is renewed.
fn marks_well(alloc: Global) -> bool {
    let Ok(mut pool) = MarkPool::new(alloc, 4) else {
        return false;
    };
    let new = tells(&pool, [0, 0, 0, 1, 0]);
    let three = pool.take(3).unwrap();
    let MarkNo(second) = pool.mark().unwrap();
    let one = pool.take(1).unwrap();
    let more = is_given(&mut pool);
    let starts = [three.start(), one.start()];
    let both_out = tells(&pool, [4, 4, 1, 0, second]);
    pool.back(one);
    let older_out = tells(&pool, [4, 3, 0, 0, second]);
    pool.release();
    let first_again = tells(&pool, [3, 3, 3, 0, 0]);
    pool.back(three);
    let none_out = tells(&pool, [3, 0, 0, 1, 0]);
    pool.release();
    let renewed = tells(&pool, [0, 0, 0, 1, 2]);
    pool.close();
    let told = [new, both_out, older_out, first_again, none_out, renewed];
    told == [true; 6] && !more && starts == [0, 3] && second == 1
}

#[test]
fn marks_and_releases(rt: HostRuntime) {
    assert!(rt; marks_well(rt.alloc()));
}

/// Releases the newest mark if the pool says that all words since then are back, and returns whether it did.
fn is_released<A: Allocator>(pool: &mut MarkPool<A>) -> bool
    requires { pool.old.issued < 1000 }
    ensures { (pool.new.home ≡ pool.old.home) × (pool.new.places ≡ pool.old.places)
        × (pool.new.issued ≤ pool.old.issued + 1) }
{
    if pool.out_since_top() == 0 {
        pool.release();
        return true;
    }
    false
}

fn is_made<A: Allocator>(pool: &mut MarkPool<A>) -> bool
    requires { pool.old.issued < 1000 }
    ensures { (pool.new.places ≡ pool.old.places) × (pool.new.used ≡ pool.old.used)
        × (pool.new.issued ≤ pool.old.issued + 1) }
{
    pool.mark().is_some()
}

/// Says whether ten marks stand, an eleventh does not, and one does again after a release.
fn makes_ten(alloc: Global) -> bool {
    let Ok(mut pool) = MarkPool::new(alloc, 4) else {
        return false;
    };
    let made = [
        is_made(&mut pool),
        is_made(&mut pool),
        is_made(&mut pool),
        is_made(&mut pool),
        is_made(&mut pool),
        is_made(&mut pool),
        is_made(&mut pool),
        is_made(&mut pool),
        is_made(&mut pool),
        is_made(&mut pool),
    ];
    let full = pool.is_full();
    let released = is_released(&mut pool);
    let room = !pool.is_full() && pool.has_mark_numbers();
    let after_a_release = is_made(&mut pool);
    pool.close();
    made == [true, true, true, true, true, true, true, true, true, false]
        && full
        && released
        && room
        && after_a_release
}

#[test]
fn ten_marks_stand(rt: HostRuntime) {
    assert!(rt; makes_ten(rt.alloc()));
}

/// Makes such a pool, and tells the number of the fault, 0 for none.
fn fault_of(alloc: Global, words: usize) -> u32 {
    match MarkPool::new(alloc, words) {
        Ok(pool) => {
            pool.close();
            0
        }
        Err(fault) => fault.code(),
    }
}

/// Tells the faults of a pool without words, of one with too many, and of the smallest and the greatest.
fn faults(alloc: Global) -> [u32; 4] {
    [
        fault_of(alloc, 0),
        fault_of(alloc, 2097153),
        fault_of(alloc, 1),
        fault_of(alloc, 2097152),
    ]
}

#[test]
fn sizes(rt: HostRuntime) {
    assert_eq!(rt; faults(rt.alloc()), [50, 50, 0, 0]);
}

/// Takes all four words of a new pool, and closes it.
fn used_whole<A: Allocator>(pool: MarkPool<A>) -> u64
    requires { (pool.places ≡ held (replicate 4 0)) × (pool.used ≡ 0) }
{
    let mut pool = pool;
    let block = pool.take(4).unwrap();
    let used = pool.used();
    pool.back(block);
    pool.close();
    used
}

/// Makes a pool over a heap, of which it needs one allocation: whether it was made, and whether it works or memory was
/// refused.
pub fn grow_on(heap: &LocalHeap) -> [bool; 2] {
    match MarkPool::new(heap, 4) {
        Ok(pool) => [true, used_whole(pool) == 4],
        Err(fault) => [false, fault == PoolFault::Memory],
    }
}
