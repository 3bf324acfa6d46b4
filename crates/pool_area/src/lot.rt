ghost use Rattle.std.specs.Prelude.{◌≡◌, ℕ, ◌+◌, ◌<◌, ◌≤◌, length, replicate, take, is_none, Some, None, slice_set, slice_get, slice_index_or};
ghost use Rattle.std.specs.Option.{option_map, option_map_or};
ghost use Rattle.pool_area.specs.Lots.{held_in, words_in, IsFilled, IsSameBlock, with_word, with_words_over, overwritten, run_of};

use raw_region::Block;

/// The object that a block holds: its number, and how many words it has.
#[derive(Clone, Copy, Debug, PartialEq, Eq)]
pub struct Occupant {
    pub object: u64,
    pub len: usize,
}

/// A block that is out, and the object that it holds, in its first words.
pub struct Lot {
    pub(crate) block: Block,
    pub(crate) occupant: Option<Occupant>,
}

impl Lot {
    /// Adds an object in the block, all of its words 0.
    pub(crate) fn hold(&mut self, object: u64, words: usize)
        requires { words ≤ length self.old.block.words }
        ensures block { IsSameBlock self.old self.new }
        ensures held { held_in self.new ≡ Some (record { object = object; words = replicate words 0 }) }
        ensures filled { IsFilled self.new }
    {
        clear_front(self.block.words_mut(), words);
        self.occupant = Some(Occupant { object, len: words });
    }

    /// Returns whether it holds no object.
    pub(crate) fn is_vacant(&self) -> bool
        ensures { result ≡ is_none (held_in self.now) }
    {
        self.occupant.is_none()
    }

    /// Returns the object that it holds, or `None` if it holds none.
    pub(crate) fn object(&self) -> Option<u64>
        ensures { result ≡ option_map (λ x. x.object) (held_in self.now) }
    {
        match self.occupant {
            Some(occupant) => Some(occupant.object),
            None => None,
        }
    }

    /// Returns the block alone.
    pub(crate) fn into_block(self) -> Block
        ensures { result ≡ self.block }
    {
        let Lot { block, occupant: _ } = self;
        block
    }

    /// Removes the object.
    pub(crate) fn vacate(&mut self)
        ensures block { IsSameBlock self.old self.new }
        ensures held { held_in self.new ≡ None }
        ensures filled { IsFilled self.new }
    {
        self.occupant = None;
    }

    /// Counts the words of the object, none if there is no object.
    pub(crate) fn len(&self) -> usize
        requires { IsFilled self.now }
        ensures { result ≡ length (words_in self.now) }
    {
        match self.occupant {
            Some(occupant) => occupant.len,
            None => 0,
        }
    }

    /// Returns a word of the object.
    pub(crate) fn word(&self, place: usize) -> u64
        requires filled { IsFilled self.now }
        requires place { place < length (words_in self.now) }
        ensures { result ≡ slice_index_or (words_in self.now) place 0 }
    {
        self.block.words()[place]
    }

    /// Writes a word of the object.
    pub(crate) fn set_word(&mut self, place: usize, value: u64)
        requires filled { IsFilled self.old }
        requires place { place < length (words_in self.old) }
        ensures block { IsSameBlock self.old self.new }
        ensures held { held_in self.new ≡ option_map (with_word place value) (held_in self.old) }
        ensures filled { IsFilled self.new }
    {
        self.block.words_mut()[place] = value;
    }

    /// Copies `count` words of the object from the place `from` on over those from `to` on, as they were before the
    /// call.
    pub(crate) fn copy_within(&mut self, from: usize, to: usize, count: usize)
        requires filled { IsFilled self.old }
        requires from { from + count ≤ length (words_in self.old) }
        requires to { to + count ≤ length (words_in self.old) }
        ensures block { IsSameBlock self.old self.new }
        ensures held { held_in self.new ≡ option_map (with_words_over to (run_of from count (words_in self.old))) (held_in self.old) }
        ensures filled { IsFilled self.new }
    {
        self.block.words_mut().copy_within(from..from + count, to);
    }
}

fn clear_front(words: &mut [u64], count: usize)
    requires { count ≤ length words.old }
    ensures front { take count words.new ≡ replicate count 0 }
    ensures len { length words.new ≡ length words.old }
{
    for k in 0..count {
        words[k] = 0;
    }
}
