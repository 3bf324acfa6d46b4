ghost use Rattle.std.specs.Prelude.{◌≡◌, ◌+◌, ◌<◌, ◌≤◌, length, replicate, slice_index_or, slice_set, IfOk};
ghost use Rattle.pool_area.specs.Lots.{overwritten, run_of};

use std::alloc::{AllocError, Allocator, Global};
use std::marker::Model;

/// The words of an object of the standard pool.
#[derive(Drop)]
pub struct Object<A: Allocator = Global> {
    words: Vec<u64, A>,
}

impl<A: Allocator> Model for Object<A> {
    ghost use Rattle.std.specs.Prelude.{ℕ, List};

    ghost Value = { List ℕ };

    ghost view = { λ o. o.words.items };
}

impl<A: Allocator> Object<A> {
    /// Makes an object of `words` words, all of them 0.
    pub fn new(alloc: A, words: usize) -> Result<Object<A>, AllocError>
        ensures { IfOk result (λ o. o ≡ replicate words 0) }
    {
        Ok(Object {
            words: Vec::from_elem(alloc, 0, words)?,
        })
    }

    /// Counts its words.
    pub fn len(&self) -> usize
        ensures { result ≡ length self.now }
    {
        self.words.len()
    }

    /// Returns the word at this place, from 0.
    #[inline(always)]
    pub fn word(&self, place: usize) -> u64
        requires { place < length self.now }
        ensures { result ≡ slice_index_or self.now place 0 }
    {
        self.words[place]
    }

    /// Writes the word at this place, from 0.
    #[inline(always)]
    pub fn set_word(&mut self, place: usize, value: u64)
        requires { place < length self.old }
        ensures { self.new ≡ slice_set self.old place value }
    {
        self.words[place] = value;
    }

    /// Copies `count` words from the place `from` on over those from `to` on, as they were before the call.
    pub fn copy_within(&mut self, from: usize, to: usize, count: usize)
        requires from { from + count ≤ length self.old }
        requires to { to + count ≤ length self.old }
        ensures { self.new ≡ overwritten to (run_of from count self.old) self.old }
    {
        self.words.copy_within(from..from + count, to);
    }
}
