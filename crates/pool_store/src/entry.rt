ghost use Rattle.std.specs.Prelude.{◌≡◌, ℕ, ◌+◌, ◌<◌, ◌≤◌, length, slice_set};
ghost use Rattle.pool_area.specs.Lots.{overwritten, run_of};

use crate::object::Object;
use std::alloc::{Allocator, Global};

/// The place of an object in a block: the pool, by its number, and the block's address.
#[derive(Clone, Copy, Debug, PartialEq, Eq)]
pub struct Spot {
    pub pool: u64,
    pub address: u64,
}

/// An object that is held, and where its words are.
#[derive(Drop)]
pub enum Entry<A: Allocator = Global> {
    /// in the standard pool
    Standard(Object<A>),
    /// in a block of a pool
    InBlock(Spot),
}

impl<A: Allocator> Entry<A> {
    ghost use Rattle.pool_store.specs.Entries.{own_words, with_own_words, spot_in, is_in};

    /// Returns its block, or `None` if it is in the standard pool.
    #[inline(always)]
    pub fn spot(&self) -> Option<Spot>
        ensures { result ≡ spot_in self.now }
    {
        match self {
            Entry::Standard(_) => None,
            Entry::InBlock(spot) => Some(*spot),
        }
    }

    /// Returns whether it is in a block of this pool.
    pub fn is_in(&self, pool: u64) -> bool
        ensures { result ≡ is_in pool self.now }
    {
        match self {
            Entry::Standard(_) => false,
            Entry::InBlock(spot) => spot.pool == pool,
        }
    }

    /// Writes a word of an object of the standard pool.
    #[inline(always)]
    pub fn set_word(&mut self, place: usize, value: u64)
        requires { place < length (own_words self.old) }
        ensures { self.new ≡ with_own_words (λ words. slice_set words place value) self.old }
    {
        match self {
            Entry::Standard(words) => words.set_word(place, value),
            Entry::InBlock(_) => (),
        }
    }

    /// Copies `count` words of an object of the standard pool from the place `from` on over those from `to` on, as they
    /// were before the call.
    pub fn copy_within(&mut self, from: usize, to: usize, count: usize)
        requires from { from + count ≤ length (own_words self.old) }
        requires to { to + count ≤ length (own_words self.old) }
        ensures { self.new ≡ with_own_words (λ words. overwritten to (run_of from count words) words) self.old }
    {
        match self {
            Entry::Standard(words) => words.copy_within(from, to, count),
            Entry::InBlock(_) => (),
        }
    }
}
