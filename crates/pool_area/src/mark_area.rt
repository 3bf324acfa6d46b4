ghost use Rattle.std.specs.Prelude.{◌≡◌, ℕ, ◌+◌, ◌-◌, ◌*◌, ◌^◌, ◌<◌, ◌≤◌, length, true, false, OnErr, IfOk, IsSome, slice_get, slice_index_or, None};
ghost use Rattle.std.specs.Option.{option_map};
ghost use Rattle.pool_area.specs.Lots.{with_word, with_words_over, run_of};
ghost use Rattle.pool_area.specs.Subpools.{IsMarkSize, new_area, is_overfull, is_last, last_of, with_new_block, count_of, with_subpool, standing_of, with_standing, object_of, block_words, with_block, without_last, is_last_dead, settled, with_no_objects};

use crate::subpool::{
    Standing, Subpool, bring_back, copy_within_at, discard, lot_at, place_of, set_word_at,
    take_lot, vacate_at,
};
use mark_pool::MarkPool;
use std::alloc::{AllocError, Allocator, Global};
use std::marker::Model;

/// A pool with marks, and its subpools with their blocks. It has to be closed by `close`.
///
/// At most ten subpools stand in it, one from the start. Blocks are taken in the last one alone.
pub struct MarkArea<A: Allocator = Global> {
    pool: MarkPool<A>,
    // In storage units.
    size: u64,
    // From the first to the last.
    subpools: Vec<Subpool<A>, A>,
    // The number that was given last.
    given: u64,
}

impl<A: Allocator> Model for MarkArea<A> {
    ghost use Rattle.std.specs.Prelude.{map, vec_capacity};
    ghost use Rattle.pool_area.specs.Subpools.{Subpools, subpools_code, seen_in, Stands};

    ghost Value = { Subpools };

    ghost coded = { subpools_code };

    ghost view = { λ a. record {
      size = a.size;
      used = a.pool.used;
      subpools = map seen_in a.subpools.items;
      given = a.given;
    } };

    ghost invariant = { λ a. Stands a.pool a.size a.given (vec_capacity a.subpools) a.subpools.items };
}

impl<A: Allocator + Copy> MarkArea<A> {
    /// Opens a pool of `units` storage units, from 8 to 16,777,216, with its first subpool, which gets this number.
    ///
    /// # Errors
    ///
    /// Returns `AllocError` if the allocator refuses the memory.
    pub fn new(alloc: A, units: u64, number: u64) -> Result<MarkArea<A>, AllocError>
        requires { IsMarkSize units }
        ensures { IfOk result (λ a. a ≡ new_area units number) }
    {
        let mut subpools = Vec::with_capacity(alloc, 10)?;
        match MarkPool::new(alloc, (units / 8) as usize) {
            Ok(pool) => {
                subpools.push_reserved(Subpool {
                    number,
                    standing: Standing::Attached,
                    start: 0,
                    lots: Vec::new(alloc),
                });
                Ok(MarkArea {
                    pool,
                    size: units,
                    subpools,
                    given: number,
                })
            }
            Err(_refused) => {
                subpools.destroy_empty();
                Err(AllocError)
            }
        }
    }

    /// Adds a subpool, as the last one, which gets this number. Takes no memory.
    pub fn create(&mut self, alloc: A, number: u64)
        requires few { length self.old.subpools < 10 }
        requires new { self.old.given < number }
        ensures { self.new ≡ with_subpool number self.old }
    {
        let Some(_mark) = self.pool.mark() else {
            unreachable!();
        };
        self.subpools.push_reserved(Subpool {
            number,
            standing: Standing::Attached,
            start: self.pool.used() as usize,
            lots: Vec::new(alloc),
        });
        self.given = number;
    }
}

impl<A: Allocator> MarkArea<A> {
    /// Returns whether a request of `units` storage units has to be refused: the words used and these are more than
    /// there are.
    pub fn is_overfull(&self, units: u64) -> bool
        ensures { result ≡ is_overfull units self.now }
    {
        self.size - self.pool.used() * 8 < units
    }

    /// Counts the subpools that stand.
    pub fn len(&self) -> usize
        ensures few { result ≤ 10 }
        ensures value { result ≡ length self.now.subpools }
    {
        self.subpools.len()
    }

    /// Returns the number of the subpool at this place, from 0 for the first.
    pub fn number_at(&self, place: usize) -> Option<u64>
        ensures { result ≡ option_map (λ x. x.number) (slice_get self.now.subpools place) }
    {
        match self.subpools.get(place) {
            Some(subpool) => Some(subpool.number),
            None => None,
        }
    }

    /// Returns the number that was given to a subpool last.
    pub fn given(&self) -> u64
        ensures { result ≡ self.now.given }
    {
        self.given
    }

    /// Returns the number of the last subpool. One stands at all times.
    pub fn last_number(&self) -> Option<u64>
        ensures some { IsSome result }
        ensures value { result ≡ option_map (λ x. x.number) (last_of self.now.subpools) }
    {
        match self.subpools.last() {
            Some(last) => Some(last.number),
            None => None,
        }
    }

    /// Returns whether the last subpool, and no other, has this number.
    pub fn is_last(&self, number: u64) -> bool
        ensures { result ≡ is_last number self.now.subpools }
    {
        let subpools = self.subpools.as_slice();
        match place_of(subpools, number) {
            Some(place) => place + 1 == subpools.len(),
            None => false,
        }
    }

    /// Returns whether the subpool of this number belongs to the pool, or `None` if there is none.
    pub fn standing(&self, number: u64) -> Option<Standing>
        ensures { result ≡ standing_of number self.now }
    {
        match place_of(self.subpools.as_slice(), number) {
            Some(place) => Some(self.subpools[place].standing),
            None => None,
        }
    }

    /// Sets whether the subpool of this number belongs to the pool.
    pub fn set_standing(&mut self, number: u64, standing: Standing)
        ensures { self.new ≡ with_standing number standing self.old }
    {
        if let Some(place) = place_of(self.subpools.as_slice(), number) {
            self.subpools[place].standing = standing;
        }
    }

    /// Takes a block of `words` words, at least one, in the last subpool, which has this number, and adds an object in
    /// it, all of its words 0. Returns how many blocks the subpool had before.
    ///
    /// # Errors
    ///
    /// Returns `AllocError` if the allocator refuses the memory. Nothing changes then.
    pub fn allocate(&mut self, number: u64, object: u64, words: usize) -> Result<usize, AllocError>
        requires last { is_last number self.old.subpools ≡ true }
        requires some { 1 ≤ words }
        requires room { is_overfull (words * 8) self.old ≡ false }
        ensures ok { IfOk result (λ index. (index ≡ count_of number self.old) × (self.new ≡ with_new_block number object words self.old)) }
        ensures err { OnErr result (self.new ≡ self.old) }
    {
        let mut last = self.subpools.take_last();
        match last.lots.reserve(1) {
            Ok(()) => {
                let index = last.lots.len();
                let lot = take_lot(&mut self.pool, object, words);
                last.lots.push_reserved(lot);
                self.subpools.push_reserved(last);
                Ok(index)
            }
            Err(refused) => {
                self.subpools.push_reserved(last);
                Err(refused)
            }
        }
    }

    /// Counts the blocks of the subpool of this number.
    pub fn count(&self, number: u64) -> usize
        ensures { result ≡ count_of number self.now }
    {
        match place_of(self.subpools.as_slice(), number) {
            Some(place) => self.subpools[place].lots.len(),
            None => 0,
        }
    }

    /// Returns the object in a block of the subpool of this number.
    pub fn object(&self, number: u64, index: usize) -> Option<u64>
        ensures { result ≡ object_of number index self.now }
    {
        match lot_at(self.subpools.as_slice(), number, index) {
            Some(lot) => lot.object(),
            None => None,
        }
    }

    /// Removes the object in a block. Its words stay used.
    pub fn vacate(&mut self, number: u64, index: usize)
        ensures { self.new ≡ with_block number index (λ h. None) self.old }
    {
        vacate_at(&mut self.subpools, number, index);
    }

    /// Removes all objects of the subpool of this number. Their words stay used.
    pub fn vacate_all(&mut self, number: u64)
        ensures { self.new ≡ with_no_objects number self.old }
    {
        for index in 0..self.count(number) {
            self.vacate(number, index);
        }
    }

    /// Counts the words of the object in this block.
    pub fn block_len(&self, number: u64, index: usize) -> usize
        ensures { result ≡ length (block_words number index self.now) }
    {
        match lot_at(self.subpools.as_slice(), number, index) {
            Some(lot) => lot.len(),
            None => 0,
        }
    }

    /// Returns a word of the object in this block.
    pub fn word(&self, number: u64, index: usize, place: usize) -> u64
        requires { place < length (block_words number index self.now) }
        ensures { result ≡ slice_index_or (block_words number index self.now) place 0 }
    {
        match lot_at(self.subpools.as_slice(), number, index) {
            Some(lot) => lot.word(place),
            None => 0,
        }
    }

    /// Writes a word of the object in this block.
    pub fn set_word(&mut self, number: u64, index: usize, place: usize, value: u64)
        requires { place < length (block_words number index self.old) }
        ensures { self.new ≡ with_block number index (λ h. option_map (with_word place value) h) self.old }
    {
        set_word_at(&mut self.subpools, number, index, place, value);
    }

    /// Copies `count` words of the object in this block, from the place `from` on, over those from `to` on, as they
    /// were before the call.
    pub fn copy_within(&mut self, number: u64, index: usize, from: usize, to: usize, count: usize)
        requires from { from + count ≤ length (block_words number index self.old) }
        requires to { to + count ≤ length (block_words number index self.old) }
        ensures { let others = run_of from count (block_words number index self.old) in
            self.new ≡ with_block number index (λ h. option_map (with_words_over to others) h) self.old }
    {
        copy_within_at(&mut self.subpools, number, index, from, to, count);
    }

    /// Returns whether the last subpool is released.
    pub fn is_last_dead(&self) -> bool
        ensures { result ≡ is_last_dead self.now }
    {
        match self.subpools.last() {
            Some(subpool) => matches!(subpool.standing, Standing::Dead),
            None => false,
        }
    }

    /// Drops the last subpool with its words, and with the objects in them. The first one comes back, without blocks,
    /// under this number. Takes no memory.
    pub fn drop_last(&mut self, number: u64)
        requires new { self.old.given < number }
        ensures { self.new ≡ without_last number self.old }
    {
        let mut last = self.subpools.take_last();
        bring_back(&mut self.pool, &mut last);
        self.pool.release();
        if self.subpools.is_empty() {
            last.number = number;
            last.standing = Standing::Attached;
            self.subpools.push_reserved(last);
            self.given = number;
        } else {
            discard(last);
        }
    }

    /// Releases the subpool of this number (RM 13.11.5), and returns whether it was the last. Takes no memory.
    ///
    /// Its objects are gone, and it is dead. If it was the last, it is dropped, with the dead ones before it and with
    /// their words; the first one comes back, without blocks, under the number `next`.
    pub fn release(&mut self, number: u64, next: u64) -> bool
        requires new { self.old.given < next }
        ensures last { result ≡ is_last number self.old.subpools }
        ensures area { self.new ≡ settled next (with_standing number Standing.Dead (with_no_objects number self.old)) }
    {
        let last = self.is_last(number);
        self.vacate_all(number);
        self.set_standing(number, Standing::Dead);
        self.drop_dead(next);
        last
    }

    fn drop_dead(&mut self, number: u64)
        requires new { self.old.given < number }
        ensures { self.new ≡ settled number self.old }
    {
        'dead: while self.is_last_dead() {
            self.drop_last(number);
        }
    }

    /// Closes the pool and frees it, with all that is held in it.
    pub fn close(self) {
        let MarkArea {
            pool,
            size: _,
            subpools,
            given: _,
        } = self;
        let (mut pool, mut subpools) = (pool, subpools);
        while let Some(subpool) = subpools.pop() {
            let mut subpool = subpool;
            bring_back(&mut pool, &mut subpool);
            discard(subpool);
        }
        subpools.destroy_empty();
        pool.close();
    }
}
