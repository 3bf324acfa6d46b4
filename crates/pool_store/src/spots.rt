// The words of the objects that lie in blocks.
ghost use Rattle.std.specs.Prelude.{◌≡◌, ℕ, ◌+◌, ◌<◌, ◌≤◌, length, slice_index_or};
ghost use Rattle.number_map.specs.Table.{change};
ghost use Rattle.pool_area.specs.Lots.{run_of};
ghost use Rattle.pool_area.specs.Blocks.{with_word_of, with_words_of};
ghost use Rattle.pool_store.specs.Entries.{lot_at, words_in};

use crate::entry::Spot;
use number_map::NumberMap;
use pool_area::BlockArea;
use std::alloc::Allocator;

/// Counts the words of the object in that block, none if there is no object.
pub fn len_at<A: Allocator>(blocks: &NumberMap<BlockArea<A>, A>, spot: Spot) -> usize
    ensures { result ≡ length (words_in (lot_at spot blocks.now.values)) }
{
    match blocks.get(spot.pool) {
        Some(area) => area.len(spot.address),
        None => 0,
    }
}

/// Returns a word of the object in that block.
pub fn word_at<A: Allocator>(blocks: &NumberMap<BlockArea<A>, A>, spot: Spot, place: usize) -> u64
    requires { place < length (words_in (lot_at spot blocks.now.values)) }
    ensures { result ≡ slice_index_or (words_in (lot_at spot blocks.now.values)) place 0 }
{
    match blocks.get(spot.pool) {
        Some(area) => area.word(spot.address, place),
        None => 0,
    }
}

/// Writes a word of the object in that block.
pub fn set_word_at<A: Allocator>(
    blocks: &mut NumberMap<BlockArea<A>, A>,
    spot: Spot,
    place: usize,
    value: u64,
)
    requires { place < length (words_in (lot_at spot blocks.old.values)) }
    ensures { blocks.new.values ≡ change spot.pool (with_word_of spot.address place value) blocks.old.values }
{
    if let Some(area) = blocks.get_mut(spot.pool) {
        area.set_word(spot.address, place, value);
    }
}

/// Copies `count` words of the object in that block, from the place `from` on, over those from `to` on, as they were
/// before the call.
pub fn copy_within_at<A: Allocator>(
    blocks: &mut NumberMap<BlockArea<A>, A>,
    spot: Spot,
    from: usize,
    to: usize,
    count: usize,
)
    requires from { from + count ≤ length (words_in (lot_at spot blocks.old.values)) }
    requires to { to + count ≤ length (words_in (lot_at spot blocks.old.values)) }
    ensures { blocks.new.values ≡ change spot.pool (with_words_of spot.address to (run_of from count (words_in (lot_at spot blocks.old.values)))) blocks.old.values }
{
    if let Some(area) = blocks.get_mut(spot.pool) {
        area.copy_within(spot.address, from, to, count);
    }
}
