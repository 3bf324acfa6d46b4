ghost use Rattle.std.specs.Prelude.{◌≡◌, ℕ, ◌+◌, ◌-◌, ◌<◌, ◌≤◌, [], length, slice_get, MatchOption, vec_capacity, None};
ghost use Rattle.std.specs.Option.{option_copied, option_map};
ghost use Rattle.mark_pool.specs.Marks.{size_of, with_taken};
ghost use Rattle.pool_area.specs.Lots.{with_word, with_words_over, run_of};
ghost use Rattle.pool_area.specs.Rows.{IsFirst, NoneHas, lot_of, IsEdited, AreFilled, AreLots, end_of, HeldFrom, IsBack, IsFresh, lot_words};

use crate::lot::Lot;
use mark_pool::MarkPool;
use std::alloc::{Allocator, Global};

/// The standing of a subpool: whether it belongs to its pool (RM 13.11.5).
#[derive(Clone, Copy, Debug, PartialEq, Eq)]
pub enum Standing {
    /// it belongs to its pool
    Attached,
    /// it belongs to no pool, and is not released yet
    Detached,
    /// it is released; its words stay used until the subpools after it are dropped
    Dead,
}

/// A subpool: the blocks that were taken since its mark, from the oldest on, each with the object in it.
pub struct Subpool<A: Allocator = Global> {
    pub(crate) number: u64,
    pub(crate) standing: Standing,
    // How many words of the pool were used when it was made.
    pub(crate) start: usize,
    pub(crate) lots: Vec<Lot, A>,
}

/// Returns the place of the first subpool of this number, or `None` if there is none.
pub(crate) fn place_of<A: Allocator>(subpools: &[Subpool<A>], number: u64) -> Option<usize>
    ensures { MatchOption result (NoneHas number subpools.now) (λ i. IsFirst number i subpools.now) }
{
    for i in 0..subpools.len() {
        if subpools[i].number == number {
            return Some(i);
        }
    }
    None
}

/// Returns a block of the subpool of this number, or `None` if it has none there.
pub(crate) fn lot_at<A: Allocator>(
    subpools: &[Subpool<A>],
    number: u64,
    index: usize,
) -> Option<&Lot>
    ensures { option_copied result ≡ lot_of number index subpools.now }
{
    match place_of(subpools, number) {
        Some(place) => lot_in(subpools[place].lots.as_slice(), index),
        None => None,
    }
}

fn lot_in(lots: &[Lot], index: usize) -> Option<&Lot>
    ensures { option_copied result ≡ slice_get lots.now index }
{
    match lots.get(index) {
        Some(lot) => Some(lot),
        None => None,
    }
}

/// Removes the object in a block.
pub(crate) fn vacate_at<A: Allocator>(subpools: &mut Vec<Subpool<A>, A>, number: u64, index: usize)
    ensures edited { IsEdited number index (λ h. None) subpools.old.items subpools.new.items }
    ensures room { vec_capacity subpools.new ≡ vec_capacity subpools.old }
{
    let Some(place) = place_of(subpools.as_slice(), number) else {
        return;
    };
    let lots = &mut subpools[place].lots;
    if index < lots.len() {
        lots[index].vacate();
    }
}

/// Writes a word of the object in a block.
pub(crate) fn set_word_at<A: Allocator>(
    subpools: &mut Vec<Subpool<A>, A>,
    number: u64,
    index: usize,
    place: usize,
    value: u64,
)
    requires filled { AreFilled subpools.old.items }
    requires place { place < length (lot_words (lot_of number index subpools.old.items)) }
    ensures edited { IsEdited number index (λ h. option_map (with_word place value) h) subpools.old.items subpools.new.items }
    ensures room { vec_capacity subpools.new ≡ vec_capacity subpools.old }
{
    let Some(row) = place_of(subpools.as_slice(), number) else {
        return;
    };
    let lots = &mut subpools[row].lots;
    if index < lots.len() {
        lots[index].set_word(place, value);
    }
}

/// Copies `count` words of the object in a block from the place `from` on over those from `to` on, as they were before
/// the call.
pub(crate) fn copy_within_at<A: Allocator>(
    subpools: &mut Vec<Subpool<A>, A>,
    number: u64,
    index: usize,
    from: usize,
    to: usize,
    count: usize,
)
    requires filled { AreFilled subpools.old.items }
    requires from { from + count ≤ length (lot_words (lot_of number index subpools.old.items)) }
    requires to { to + count ≤ length (lot_words (lot_of number index subpools.old.items)) }
    ensures edited { let others = run_of from count (lot_words (lot_of number index subpools.old.items)) in
        IsEdited number index (λ h. option_map (with_words_over to others) h) subpools.old.items subpools.new.items }
    ensures room { vec_capacity subpools.new ≡ vec_capacity subpools.old }
{
    let Some(row) = place_of(subpools.as_slice(), number) else {
        return;
    };
    let lots = &mut subpools[row].lots;
    if index < lots.len() {
        lots[index].copy_within(from, to, count);
    }
}

/// Takes words of the pool for a new object, all of them 0.
pub(crate) fn take_lot<A: Allocator>(pool: &mut MarkPool<A>, object: u64, words: usize) -> Lot
    requires some { 1 ≤ words }
    requires room { pool.old.used + words ≤ size_of pool.old }
    ensures pool { pool.new ≡ with_taken pool.old words }
    ensures lot { IsFresh pool.old object words result }
{
    match pool.take(words) {
        Some(block) => {
            let mut lot = Lot {
                block,
                occupant: None,
            };
            lot.hold(object, words);
            lot
        }
        None => unreachable!(),
    }
}

/// Brings all blocks of a subpool back.
pub(crate) fn bring_back<A: Allocator>(pool: &mut MarkPool<A>, subpool: &mut Subpool<A>)
    requires lots { AreLots pool.old.home subpool.old.start subpool.old.lots.items }
    requires rest { HeldFrom (end_of subpool.old.start subpool.old.lots.items) pool.old.places }
    requires fits { end_of subpool.old.start subpool.old.lots.items ≤ size_of pool.old }
    ensures none { subpool.new.lots.items ≡ [] }
    ensures subpool { (subpool.new.number ≡ subpool.old.number) × (subpool.new.standing ≡ subpool.old.standing) × (subpool.new.start ≡ subpool.old.start) }
    ensures pool { IsBack pool.old pool.new }
    ensures held { HeldFrom subpool.old.start pool.new.places }
{
    while let Some(lot) = subpool.lots.pop() {
        pool.back(lot.into_block());
    }
}

/// Drops a subpool without blocks.
pub(crate) fn discard<A: Allocator>(subpool: Subpool<A>)
    requires { subpool.lots.items ≡ [] }
{
    let Subpool {
        number: _,
        standing: _,
        start: _,
        lots,
    } = subpool;
    lots.destroy_empty();
}
