ghost use Rattle.std.specs.Prelude.{◌≡◌, ℕ, ◌+◌, ◌*◌, ◌<◌, ◌≤◌, length, replicate, None, Some, OnOk, OnErr, IfOk, IfSome, MatchOption, true, nat_le, slice_index_or};
ghost use Rattle.std.specs.FinMap.{empty, get};
ghost use Rattle.pool_area.specs.Lots.{words_of, run_of};
ghost use Rattle.pool_area.specs.Blocks.{Blocks, IsAreaSize, is_exhausted, is_vacant, with_block_out, with_block_back, with_holder, with_no_holder, with_word_of, with_words_of, words_at, object_at, IsOut};

use crate::lot::Lot;
use block_pool::{BlockPool, PoolFault};
use number_map::NumberMap;
use std::alloc::{AllocError, Allocator, Global};
use std::marker::Model;

/// A block that went back to its pool: its address, and the object that it held.
#[derive(Clone, Copy, Debug, PartialEq, Eq)]
pub struct Returned {
    pub address: u64,
    pub object: Option<u64>,
}

/// A pool of blocks of one size, with those that are out, by their addresses. It has to be closed by `close`.
pub struct BlockArea<A: Allocator = Global> {
    pool: BlockPool<A>,
    // In storage units.
    size: u64,
    lots: NumberMap<Lot, A>,
}

impl<A: Allocator> Model for BlockArea<A> {
    ghost use Rattle.number_map.specs.Table.{mapped};
    ghost use Rattle.pool_area.specs.Lots.{held_in};
    ghost use Rattle.pool_area.specs.Blocks.{Blocks, blocks_code, Keeps};

    ghost Value = { Blocks };

    ghost coded = { blocks_code };

    ghost view = { λ a. record {
      size = a.size;
      free = a.pool.free;
      out = mapped held_in a.lots.values;
    } };

    ghost invariant = { λ a. Keeps a.pool a.size a.lots.values a.lots.size };
}

impl<A: Allocator + Copy> BlockArea<A> {
    /// Opens a pool of `count` blocks of `units` storage units each. All are free.
    pub fn new(alloc: A, units: u64, count: usize) -> Result<BlockArea<A>, AllocError>
        requires { IsAreaSize units count }
        ensures { IfOk result (λ a. a ≡ record { size = units; free = count; out = empty }) }
    {
        match BlockPool::new(alloc, ((units + 7) / 8) as usize, count) {
            Ok(pool) => Ok(BlockArea {
                pool,
                size: units,
                lots: NumberMap::new(alloc),
            }),
            Err(PoolFault::Memory) => Err(AllocError),
            Err(PoolFault::Size) => unreachable!(),
        }
    }

    /// Takes a free block out, under this address.
    #[inline(always)]
    pub fn allocate(&mut self, address: u64) -> Result<(), AllocError>
        requires free { 0 < self.old.free }
        requires new { get self.old.out address ≡ None }
        ensures ok { OnOk result (self.new ≡ with_block_out address self.old) }
        ensures err { OnErr result (self.new ≡ self.old) }
    {
        self.lots.reserve()?;
        match self.pool.take(0) {
            Some(block) => {
                self.lots.put_new(
                    address,
                    Lot {
                        block,
                        occupant: None,
                    },
                );
                Ok(())
            }
            None => unreachable!(),
        }
    }
}

impl<A: Allocator> BlockArea<A> {
    /// Returns whether a request of `units` storage units has to be refused: no block is free, or it is larger than a
    /// block.
    pub fn is_exhausted(&self, units: u64) -> bool
        ensures { result ≡ is_exhausted units self.now }
    {
        self.pool.free() == 0 || self.size < units
    }

    /// Returns whether a block has at least `units` storage units.
    pub fn has(&self, units: u64) -> bool
        ensures { result ≡ nat_le units self.now.size }
    {
        units <= self.size
    }

    /// Returns whether a block that holds no object is out under this address.
    pub fn is_vacant(&self, address: u64) -> bool
        ensures { result ≡ is_vacant address self.now }
    {
        match self.lots.get(address) {
            Some(lot) => lot.is_vacant(),
            None => false,
        }
    }

    /// Gives the block with this address back.
    pub fn deallocate(&mut self, address: u64)
        requires { is_vacant address self.old ≡ true }
        ensures { self.new ≡ with_block_back address self.old }
    {
        match self.lots.remove(address) {
            Some(lot) => self.pool.give(lot.into_block()),
            None => unreachable!(),
        }
    }

    /// Adds an object of `words` words, all of them 0, in a block that is out and holds none.
    pub fn occupy(&mut self, address: u64, object: u64, words: usize)
        requires vacant { is_vacant address self.old ≡ true }
        requires fits { words * 8 ≤ self.old.size }
        ensures { self.new ≡ with_holder address object words self.old }
    {
        match self.lots.get_mut(address) {
            Some(lot) => lot.hold(object, words),
            None => unreachable!(),
        }
    }

    /// Removes the object. Its block stays out.
    pub fn vacate(&mut self, address: u64)
        ensures { self.new ≡ with_no_holder address self.old }
    {
        let Some(lot) = self.lots.get_mut(address) else {
            return;
        };
        lot.vacate();
    }

    /// Counts the words of the object that is held under this address.
    pub fn len(&self, address: u64) -> usize
        ensures { result ≡ length (words_at address self.now) }
    {
        match self.lots.get(address) {
            Some(lot) => lot.len(),
            None => 0,
        }
    }

    /// Returns a word of the object that is held under this address.
    pub fn word(&self, address: u64, place: usize) -> u64
        requires { place < length (words_at address self.now) }
        ensures { result ≡ slice_index_or (words_at address self.now) place 0 }
    {
        match self.lots.get(address) {
            Some(lot) => lot.word(place),
            None => 0,
        }
    }

    /// Writes a word of the object that is held under this address.
    pub fn set_word(&mut self, address: u64, place: usize, value: u64)
        requires { place < length (words_at address self.old) }
        ensures { self.new ≡ with_word_of address place value self.old }
    {
        let Some(lot) = self.lots.get_mut(address) else {
            return;
        };
        lot.set_word(place, value);
    }

    /// Copies `count` words of the object from the place `from` on over those from `to` on, as they were before the
    /// call.
    pub fn copy_within(&mut self, address: u64, from: usize, to: usize, count: usize)
        requires from { from + count ≤ length (words_at address self.old) }
        requires to { to + count ≤ length (words_at address self.old) }
        ensures { self.new ≡ with_words_of address to (run_of from count (words_at address self.old)) self.old }
    {
        let Some(lot) = self.lots.get_mut(address) else {
            return;
        };
        lot.copy_within(from, to, count);
    }

    /// Gives some block that is out back, whatever it holds.
    pub fn give_back(&mut self) -> Option<Returned>
        ensures { MatchOption result (self.old.out ≡ empty)
            (λ r. IsOut r.address self.old × (r.object ≡ object_at r.address self.old) × (self.new ≡ with_block_back r.address self.old)) }
    {
        let Some((address, lot)) = self.lots.pop() else {
            return None;
        };
        let object = lot.object();
        self.pool.give(lot.into_block());
        Some(Returned { address, object })
    }

    /// Closes the pool and frees it, with all that is held in it.
    pub fn close(self) {
        let BlockArea {
            pool,
            size: _,
            lots,
        } = self;
        let (mut pool, mut lots) = (pool, lots);
        while let Some((_, lot)) = lots.pop() {
            pool.give(lot.into_block());
        }
        lots.destroy_empty();
        pool.close();
    }
}
