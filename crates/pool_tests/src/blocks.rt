ghost use Rattle.std.specs.Prelude.{◌≡◌, ◌≤◌, length};

use block_pool::{BlockPool, PoolFault};
use linked_list_allocator::LocalHeap;
use raw_region::Block;
use std::alloc::{Allocator, Global};

fn is_refused<A: Allocator>(pool: &mut BlockPool<A>, words: usize) -> bool
    ensures { pool.new ≡ pool.old }
{
    match pool.take(words) {
        Some(block) => {
            pool.give(block);
            false
        }
        None => true,
    }
}

/// Takes both blocks of a pool of two and gives them back: whether each call answers as it should.
fn gives_two(alloc: Global) -> bool {
    let Ok(mut pool) = BlockPool::new(alloc, 2, 2) else {
        return false;
    };
    let large = is_refused(&mut pool, 3);
    let first = pool.take(1).unwrap();
    let second = pool.take(2).unwrap();
    let none_left = pool.free();
    let whole_when_out = pool.is_whole();
    let third = is_refused(&mut pool, 1);
    pool.give(first);
    let one_back = pool.free();
    let again = is_refused(&mut pool, 2);
    pool.give(second);
    let whole_at_last = pool.is_whole();
    let sizes = [pool.count(), pool.block_words() as u64, none_left, one_back];
    pool.close();
    let told = [large, third, again, whole_when_out, whole_at_last];
    told == [true, true, false, false, true] && sizes == [2, 2, 0, 1]
}

#[test]
fn a_pool_of_two_blocks(rt: HostRuntime) {
    assert!(rt; gives_two(rt.alloc()));
}

/// Puts two values into the first two words of a Block.
fn fill(block: &mut Block, values: [u64; 2])
    requires { 2 ≤ length block.old.words }
    ensures { (block.new.home ≡ block.old.home) × (length block.new.words ≡ length block.old.words) }
{
    let words = block.words_mut();
    words[0] = values[0];
    words[1] = values[1];
}

/// Reads the first two words of a Block.
fn two_words(block: &Block) -> [u64; 2]
    requires { 2 ≤ length block.now.words }
{
    let words = block.words();
    [words[0], words[1]]
}

/// Says whether three blocks that are out keep what is written to them, whatever else is taken and given, and stand apart.
fn keeps_words(alloc: Global) -> bool {
    let Ok(mut pool) = BlockPool::new(alloc, 2, 3) else {
        return false;
    };
    let mut first = pool.take(2).unwrap();
    let mut second = pool.take(2).unwrap();
    let third = pool.take(2).unwrap();
    fill(&mut first, [1, 2]);
    fill(&mut second, [3, 4]);
    pool.give(third);
    let mut third = pool.take(1).unwrap();
    fill(&mut third, [5, 6]);
    let words = [two_words(&first), two_words(&second), two_words(&third)];
    let [a, b, c] = [first.start(), second.start(), third.start()];
    pool.give(second);
    pool.give(first);
    pool.give(third);
    pool.close();
    words == [[1, 2], [3, 4], [5, 6]] && a != b && b != c && a != c
}

#[test]
fn blocks_keep_their_words(rt: HostRuntime) {
    assert!(rt; keeps_words(rt.alloc()));
}

/// Makes such a pool, and tells the number of the fault, 0 for none.
fn fault_of(alloc: Global, block_words: usize, count: usize) -> u32 {
    match BlockPool::new(alloc, block_words, count) {
        Ok(pool) => {
            pool.close();
            0
        }
        Err(fault) => fault.code(),
    }
}

/// Tells the faults of pools with too small or too great a block or number of blocks, and of the smallest and the greatest.
fn faults(alloc: Global) -> [u32; 7] {
    [
        fault_of(alloc, 0, 1),
        fault_of(alloc, 513, 1),
        fault_of(alloc, 1, 0),
        fault_of(alloc, 1, 65537),
        fault_of(alloc, 1, 1),
        fault_of(alloc, 512, 1),
        fault_of(alloc, 1, 65536),
    ]
}

#[test]
fn sizes(rt: HostRuntime) {
    assert_eq!(rt; faults(rt.alloc()), [50, 50, 50, 50, 0, 0, 0]);
}

/// Makes a pool over a heap, of which it needs one allocation: whether it was made, and whether it works or memory was
/// refused.
pub fn grow_on(heap: &LocalHeap) -> [bool; 2] {
    match BlockPool::new(heap, 2, 4) {
        Ok(mut pool) => {
            let large = is_refused(&mut pool, 3);
            let whole = is_refused(&mut pool, 2);
            pool.close();
            [true, large && !whole]
        }
        Err(fault) => [false, fault == PoolFault::Memory],
    }
}
