ghost use Rattle.std.specs.Prelude.{◌≡◌, ◌+◌, ◌<◌, ◌≤◌, length, MatchOption, IfOk};
ghost use Rattle.pool_of_ones_own.specs.Stack.{IsTop, with_used};

use raw_region::{Block, RawRegion};
use std::alloc::{AllocError, Allocator, Global};
use std::marker::Model;

/// A pool whose words are taken one after the other, and come back in reverse order. It has to be closed by `close`.
pub struct StackPool<A: Allocator = Global> {
    region: RawRegion<A>,
    size: usize,
    used: usize,
}

impl<A: Allocator> Model for StackPool<A> {
    ghost use Rattle.pool_of_ones_own.specs.Stack.{Stack, stack_code, Keeps};

    ghost Value = { Stack };

    ghost coded = { stack_code };

    ghost view = { λ p. record { home = p.region.home; size = p.size; used = p.used } };

    ghost invariant = { λ p. Keeps p.region p.size p.used };
}

impl<A: Allocator> StackPool<A> {
    /// Opens a pool of `words` words, from 1 to 33,554,432, none of them used.
    pub fn new(alloc: A, words: usize) -> Result<StackPool<A>, AllocError>
        requires { (1 ≤ words) × (words ≤ 33554432) }
        ensures { IfOk result (λ p. (p.size ≡ words) × (p.used ≡ 0)) }
    {
        Ok(StackPool {
            region: RawRegion::open(alloc, words)?,
            size: words,
            used: 0,
        })
    }

    /// Takes the next `words` words, at least one, or returns `None` if fewer are left.
    pub fn take(&mut self, words: usize) -> Option<Block>
        requires { 1 ≤ words }
        ensures { MatchOption result ((self.old.size < self.old.used + words) × (self.new ≡ self.old))
            (λ b. (self.old.used + words ≤ self.old.size) × (length b.words ≡ words) × IsTop self.new b
            × (self.new ≡ with_used self.old (self.old.used + words))) }
    {
        if words > self.size - self.used {
            return None;
        }
        let start = self.used;
        self.used += words;
        Some(self.region.cut(start, words))
    }

    /// Gives the Block back that was taken last of those that are out.
    pub fn give(&mut self, block: Block)
        requires { IsTop self.old block }
        ensures { self.new ≡ with_used self.old block.start }
    {
        self.used = block.start();
        self.region.home(block);
    }

    /// Counts the words that are used.
    pub fn used(&self) -> usize
        ensures { result ≡ self.now.used }
    {
        self.used
    }

    /// Closes the pool and frees its region. All Blocks are back.
    pub fn close(self)
        requires { self.used ≡ 0 }
    {
        let StackPool {
            region,
            size: _,
            used: _,
        } = self;
        region.close();
    }
}
