ghost use Rattle.std.specs.Prelude.{◌≡◌, ℕ, ◌+◌, ◌<◌, ◌≤◌, length};
ghost use Rattle.std.specs.Borrow.{Lends, Array, sem, u64};
ghost use Rattle.raw_region.specs.Places.{Cut, with_words};
ghost use Rattle.raw_region.specs.contracts.block.Block.{the_row};

use crate::holding::Claim;
use std::marker::Model;
use std_alloc::vec::Lodged;

/// A run of 64-bit words that was cut out of a region.
///
/// A Block has to be brought back to that region, by `RawRegion::home`.
pub struct Block {
    pub(crate) words: Vec<u64, Lodged>,
    pub(crate) start: usize,
    pub(crate) claim: Claim,
}

impl Model for Block {
    ghost use Rattle.std.specs.Prelude.{◌≡◌, ◌+◌, ◌<◌, ◌≤◌};
    ghost use Rattle.raw_region.specs.Places.{Cut, cut_code};
    ghost use Rattle.raw_region.specs.Ownership.{nth_place};

    ghost Value = { Cut };

    ghost coded = { cut_code };

    ghost view = { λ b. record { home = b.claim.home; start = b.start; words = b.words.items } };

    ghost invariant = { λ b. (b.claim.start ≡ b.start) × (b.claim.count ≡ b.words.len)
        × (b.words.ptr ≡ nth_place b.claim.home.at b.start) × (0 < b.words.len)
        × (b.start + b.words.len ≤ b.claim.home.size) × (b.claim.home.size ≤ 33554432) };
}

impl Block {
    /// Returns the place of its first word in the region, from 0.
    pub fn start(&self) -> usize
        ensures { result ≡ self.now.start }
    {
        self.start
    }

    /// Returns its words, for reading.
    pub fn words(&self) -> &[u64]
        ensures { result.now ≡ self.now.words }
    {
        self.words.as_slice()
    }

    /// Returns its words, for reading and writing. There are as many as were cut out.
    pub fn words_mut(&mut self) -> &mut [u64]
        ensures* writes_back { sem 𝓛 (Lends the_row (Array u64 0) self.entry result (with_words self.old)) }
        ensures value { result.now ≡ self.old.words }
    {
        self.words.as_mut_slice()
    }
}
