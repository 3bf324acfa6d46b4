//! The pools of this repository in use, and one of one's own.
#![tactic(auto)]

mod shelf;
mod stack;

use block_pool::{BlockPool, PoolFault};
use mark_pool::MarkPool;
use shelf::Shelf;
use stack::StackPool;
use std::alloc::{Alloc, Global};
use std::io;

/// Counts the free blocks with one of two blocks out, and returns the word that was read back from it, too.
fn use_blocks(alloc: Global) -> Result<(u64, u64), PoolFault> {
    let mut pool = BlockPool::new(alloc, 4, 2)?;
    let mut block = pool.take(3).unwrap();
    block.words_mut()[0] = 7;
    let word = block.words()[0];
    let free = pool.free();
    pool.give(block);
    pool.close();
    Ok((free, word))
}

/// Counts the words that are used after a mark, and after it is released.
fn use_marks(alloc: Global) -> Result<(u64, u64), PoolFault> {
    let mut pool = MarkPool::new(alloc, 4)?;
    let three = pool.take(3).unwrap();
    let _ = pool.mark().unwrap();
    let one = pool.take(1).unwrap();
    let behind = pool.used();
    pool.back(one);
    pool.release();
    let released = pool.used();
    pool.back(three);
    pool.release();
    pool.close();
    Ok((behind, released))
}

/// Counts the words of a stack that are used with two Blocks out, and with one.
fn use_stack(alloc: Global) -> Result<(usize, usize), PoolFault> {
    let mut pool = StackPool::new(alloc, 4)?;
    let three = pool.take(3).unwrap();
    let one = pool.take(1).unwrap();
    let both = pool.used();
    pool.give(one);
    let below = pool.used();
    pool.give(three);
    pool.close();
    Ok((both, below))
}

/// Counts the blocks on a shelf for two, after three were asked for.
fn use_shelf(alloc: Global) -> Result<usize, PoolFault> {
    let mut shelf = Shelf::new(alloc, 4, 2)?;
    for _ in 0..3 {
        if shelf.add().is_err() {
            shelf.close();
            return Err(PoolFault::Memory);
        }
    }
    let taken = shelf.taken();
    shelf.close();
    Ok(taken)
}

/// What the pools in use told.
struct Findings {
    blocks: (u64, u64),
    marks: (u64, u64),
    stack: (usize, usize),
    shelf: usize,
}

fn find(alloc: Global) -> Result<Findings, PoolFault> {
    Ok(Findings {
        blocks: use_blocks(alloc)?,
        marks: use_marks(alloc)?,
        stack: use_stack(alloc)?,
        shelf: use_shelf(alloc)?,
    })
}

fn main(rt: HostRuntime) -> io::Result<()> {
    match find(rt.alloc()) {
        Ok(
            Findings {
                blocks: (free, word),
                marks: (behind, released),
                stack: (both, below),
                shelf,
            },
        ) => {
            println!(rt; "{free} block free, word {word}")?;
            println!(rt; "{behind} words used behind a mark, {released} once it is released")?;
            println!(rt; "{both} words used on the stack, then {below}")?;
            println!(rt; "{shelf} blocks on the shelf")
        }
        Err(fault) => println!(rt; "{fault}"),
    }
}
