ghost use Rattle.std.specs.Prelude.{◌≡◌, ℕ, ◌+◌, ◌<◌, ◌≤◌, length, replicate, slice_set, IfOk, IsSome};
ghost use Rattle.raw_region.specs.Places.{Region, Cut, place, held, out, with_run, words_at, cut_of, AreHeld, AreOut, AreApart};

use crate::allocation::{Allocation, part, reunite};
use crate::block::Block;
use crate::holding::Holding;
use std::alloc::{AllocError, Allocator, Global};
use std::marker::Model;

/// A region of 64-bit words in one allocation, from which runs of words can be cut out as Blocks.
///
/// A region has to be closed by `close`, and each of its Blocks brought back by `home`.
pub struct RawRegion<A: Allocator = Global> {
    base: *mut u64,
    size: usize,
    holding: Holding,
    allocation: Allocation<A>,
}

impl<A: Allocator> Model for RawRegion<A> {
    ghost use Rattle.std.specs.Prelude.{◌≡◌, ◌<◌, ◌≤◌, length};
    ghost use Rattle.raw_region.specs.Places.{Region, region_code};
    ghost use denote.RawPtr.{InBlock};

    ghost Value = { Region };

    ghost coded = { region_code };

    ghost view = { λ r. record { home = r.holding.home; places = r.holding.places } };

    ghost invariant = { λ r. (r.holding.home ≡ r.allocation) × (r.allocation.at ≡ r.base) × InBlock r.base
        × (r.allocation.size ≡ r.size) × (length r.holding.places ≡ r.size) × (0 < r.size) × (r.size ≤ 33554432) };
}

impl<A: Allocator> RawRegion<A> {
    /// Opens a region of `words` 64-bit words, from 1 to 33,554,432, all of them zero.
    ///
    /// # Errors
    ///
    /// Returns `AllocError` if the allocator refuses the memory.
    pub fn open(alloc: A, words: usize) -> Result<RawRegion<A>, AllocError>
        requires { (1 ≤ words) × (words ≤ 33554432) }
        ensures size { IfOk result (λ r. r.home.size ≡ words) }
        ensures zero { IfOk result (λ r. r.places ≡ held (replicate words 0)) }
    {
        let mut zeros = Vec::from_elem(alloc, 0u64, words)?;
        let base = zeros.as_mut_ptr();
        let (holding, allocation) = part(zeros);
        Ok(RawRegion {
            base,
            size: words,
            holding,
            allocation,
        })
    }

    /// Returns the word at the place `i`, from 0, which is in no Block.
    pub fn read(&self, i: usize) -> u64
        requires { IsSome (place self.now.places i) }
        ensures { Some result ≡ place self.now.places i }
    {
        *self.holding.word(self.base, i)
    }

    /// Writes `word` to the place `i`, from 0, which is in no Block.
    pub fn write(&mut self, i: usize, word: u64)
        requires { IsSome (place self.old.places i) }
        ensures home { self.new.home ≡ self.old.home }
        ensures places { self.new.places ≡ slice_set self.old.places i (Some word) }
    {
        let (claim, mut words) = self.holding.lend_out(self.base, i, 1);
        words[0] = word;
        self.holding.take_back(claim, words);
    }

    /// Cuts `len` words, at least one, out of the region, from the place `start` on. None of them is in a Block yet.
    pub fn cut(&mut self, start: usize, len: usize) -> Block
        requires { (1 ≤ len) × AreHeld self.old.places start len }
        ensures home { self.new.home ≡ self.old.home }
        ensures places { self.new.places ≡ with_run self.old.places start (out len) }
        ensures block { result ≡ cut_of self.old start len }
    {
        let (claim, words) = self.holding.lend_out(self.base, start, len);
        Block {
            words,
            start,
            claim,
        }
    }

    /// Brings a Block of this region back, with its words. Its places were out before the call.
    pub fn home(&mut self, block: Block)
        requires { block.home ≡ self.old.home }
        ensures home { self.new.home ≡ self.old.home }
        ensures places { self.new.places ≡ with_run self.old.places block.start (held block.words) }
        ensures were_out { AreOut self.old.places block.start (length block.words) }
        ensures within { block.start + length block.words ≤ length self.old.places }
    {
        let Block {
            words,
            start: _,
            claim,
        } = block;
        self.holding.take_back(claim, words);
    }

    /// Brings two Blocks of this region back. They share no place, however they were made.
    pub fn home_both(&mut self, first: Block, second: Block)
        requires first { first.home ≡ self.old.home }
        requires second { second.home ≡ self.old.home }
        ensures apart { AreApart first second }
        ensures home { self.new.home ≡ self.old.home }
        ensures places { self.new.places
            ≡ with_run (with_run self.old.places first.start (held first.words)) second.start (held second.words) }
    {
        self.home(first);
        self.home(second);
    }

    /// Closes the region and frees its allocation. No Block is out.
    pub fn close(self)
        requires { AreHeld self.places 0 (length self.places) }
    {
        let RawRegion {
            base: _,
            size: _,
            holding,
            allocation,
        } = self;
        drop(reunite(holding, allocation));
    }
}
