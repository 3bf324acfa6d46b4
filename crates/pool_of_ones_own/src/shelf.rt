ghost use Rattle.std.specs.Prelude.{◌≡◌, ◌+◌, IfOk, OnErr};
ghost use Rattle.std.specs.Bool.{OnFalse, OnTrue};

use block_pool::{BlockPool, PoolFault};
use raw_region::Block;
use std::alloc::{AllocError, Allocator, Global};
use std::marker::Model;

/// A pool of blocks, and those of its blocks that are out. It has to be closed by `close`.
pub struct Shelf<A: Allocator = Global> {
    pool: BlockPool<A>,
    blocks: Vec<Block, A>,
}

impl<A: Allocator> Model for Shelf<A> {
    ghost use Rattle.std.specs.Prelude.{length};
    ghost use Rattle.pool_of_ones_own.specs.Shelves.{Shelves, shelves_code, AreOut};

    ghost Value = { Shelves };

    ghost coded = { shelves_code };

    ghost view = { λ s. record { free = s.pool.free; taken = length s.blocks.items } };

    ghost invariant = { λ s. AreOut s.pool s.blocks.items };
}

impl<A: Allocator + Copy> Shelf<A> {
    /// Opens a shelf for up to `count` blocks of `block_words` words each, with no block on it.
    ///
    /// # Errors
    ///
    /// Returns `Size` if one of the two is out of range, and `Memory` if the allocator refuses the region.
    pub fn new(alloc: A, block_words: usize, count: usize) -> Result<Shelf<A>, PoolFault>
        ensures { IfOk result (λ s. s ≡ record { free = count; taken = 0 }) }
    {
        Ok(Shelf {
            pool: BlockPool::new(alloc, block_words, count)?,
            blocks: Vec::new(alloc),
        })
    }
}

impl<A: Allocator> Shelf<A> {
    /// Puts a further block onto the shelf, if one is free, and returns whether one was.
    ///
    /// # Errors
    ///
    /// Returns `AllocError` if the allocator refuses room for it. Nothing changes then.
    pub fn add(&mut self) -> Result<bool, AllocError>
        ensures added { IfOk result (λ added. OnTrue added ((self.old.free ≡ self.new.free + 1) × (self.new.taken ≡ self.old.taken + 1))) }
        ensures full { IfOk result (λ added. OnFalse added ((self.old.free ≡ 0) × (self.new ≡ self.old))) }
        ensures err { OnErr result (self.new ≡ self.old) }
    {
        // Room comes first. Once a block is held, a `?` would leave it behind, and it may not be dropped.
        self.blocks.reserve(1)?;
        match self.pool.take(0) {
            Some(block) => {
                self.blocks.push_reserved(block);
                Ok(true)
            }
            None => Ok(false),
        }
    }

    /// Counts the blocks on the shelf.
    pub fn taken(&self) -> usize
        ensures { result ≡ self.now.taken }
    {
        self.blocks.len()
    }

    /// Gives all blocks back, and closes the pool.
    pub fn close(self) {
        let Shelf { pool, blocks } = self;
        let (mut pool, mut blocks) = (pool, blocks);
        while let Some(block) = blocks.pop() {
            pool.give(block);
        }
        blocks.destroy_empty();
        pool.close();
    }
}
