ghost use Rattle.std.specs.Prelude.{◌≡◌, ℕ, ◌+◌, ◌*◌, ◌≤◌, length, replicate, ◌↔◌, MatchOption, IfOk, IsTrue};
ghost use Rattle.raw_region.specs.Places.{held};
ghost use Rattle.block_pool.specs.Pool.{Pool, IsPoolSize, IsBlockOf, IsRefused, Keeps, with_free};

use raw_region::{Block, PoolFault, RawRegion};
use std::alloc::{Allocator, Global};
use std::marker::Model;

/// A pool of blocks of one size in one region (RM 13.11).
///
/// It has to be closed by `close`, once all its blocks are back.
pub struct BlockPool<A: Allocator = Global> {
    region: RawRegion<A>,
    block_words: usize,
    count: usize,
    free: usize,
    // The first place of a free block, where one is free. The word there is the first place of the next.
    head: usize,
}

impl<A: Allocator> Model for BlockPool<A> {
    ghost use Rattle.block_pool.specs.Pool.{Pool, pool_code, Keeps};

    ghost Value = { Pool };

    ghost coded = { pool_code };

    ghost view = { λ p. record {
      home = p.region.home;
      block_words = p.block_words;
      count = p.count;
      free = p.free;
    } };

    ghost invariant = { λ p. Keeps p.region p.block_words p.count p.free p.head };
}

impl<A: Allocator> BlockPool<A> {
    /// Opens a pool of `count` blocks, from 1 to 65,536, of `block_words` 64-bit words each, from 1 to 512. All blocks
    /// are free.
    ///
    /// # Errors
    ///
    /// Returns `Size` if one of the two is out of range, and `Memory` if the allocator refuses the region.
    pub fn new(alloc: A, block_words: usize, count: usize) -> Result<BlockPool<A>, PoolFault>
        ensures ok { IfOk result (λ p. IsPoolSize block_words count × (p.block_words ≡ block_words)
            × (p.count ≡ count) × (p.free ≡ count)) }
        ensures size { (result ≡ Err PoolFault.Size) ↔ (¬ IsPoolSize block_words count) }
    {
        if block_words < 1 || block_words > 512 || count < 1 || count > 65536 {
            return Err(PoolFault::Size);
        }
        let mut region = RawRegion::open(alloc, count * block_words)?;
        let head = link_all(&mut region, block_words, count);
        Ok(BlockPool {
            region,
            block_words,
            count,
            free: count,
            head,
        })
    }

    /// Counts the free blocks.
    pub fn free(&self) -> u64
        ensures { result ≡ self.now.free }
    {
        self.free as u64
    }

    /// Counts all blocks, free or out.
    pub fn count(&self) -> u64
        ensures { result ≡ self.now.count }
    {
        self.count as u64
    }

    /// Returns the number of words of a block.
    pub fn block_words(&self) -> usize
        ensures { result ≡ self.now.block_words }
    {
        self.block_words
    }

    /// Returns whether all blocks are back.
    pub fn is_whole(&self) -> bool
        ensures { IsTrue result ↔ self.now.free ≡ self.now.count }
    {
        self.free == self.count
    }

    /// Takes a free block, the whole of it, for a request of `words` words. The values of its words are unspecified.
    ///
    /// Returns `None` if no block is free, or if a block has fewer words than that. Nothing changes then.
    pub fn take(&mut self, words: usize) -> Option<Block>
        ensures { MatchOption result (IsRefused self.old words × (self.new ≡ self.old))
            (λ b. (¬ IsRefused self.old words) × IsBlockOf self.old b × (words ≤ length b.words)
            × (self.old.free ≡ self.new.free + 1) × (self.new ≡ with_free self.old self.new.free)) }
    {
        if self.free == 0 || words > self.block_words {
            return None;
        }
        let start = self.head;
        self.head = self.region.read(start) as usize;
        self.free -= 1;
        Some(self.region.cut(start, self.block_words))
    }

    /// Gives a block of this pool back. It is free after the call.
    pub fn give(&mut self, block: Block)
        requires { IsBlockOf self.old block }
        ensures { self.new ≡ with_free self.old (self.old.free + 1) }
    {
        let start = block.start();
        self.region.home(block);
        self.region.write(start, self.head as u64);
        self.head = start;
        self.free += 1;
    }

    /// Closes the pool and frees its region. All blocks are back.
    pub fn close(self)
        requires { self.free ≡ self.count }
    {
        let BlockPool {
            region,
            block_words: _,
            count: _,
            free: _,
            head: _,
        } = self;
        region.close();
    }
}

// Links all blocks of a new region as free, and returns the first place of the list's first block.
fn link_all<A: Allocator>(region: &mut RawRegion<A>, block_words: usize, count: usize) -> usize
    requires { IsPoolSize block_words count
        × (region.old.places ≡ held (replicate (count * block_words) 0)) }
    ensures home { region.new.home ≡ region.old.home }
    ensures linked { Keeps region.new block_words count count result }
{
    let mut head = 0;
    for i in 0..count {
        let start = i * block_words;
        region.write(start, head as u64);
        head = start;
    }
    head
}
