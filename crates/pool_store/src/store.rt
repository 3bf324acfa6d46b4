ghost use Rattle.std.specs.Prelude.{◌≡◌, ℕ, ◌+◌, ◌-◌, ◌*◌, ◌/◌, ◌^◌, ◌<◌, ◌≤◌, length, None, Some, Ok, Err, true, false, if◌then◌else◌, slice_index_or, option_and_then, MatchOption, OnOk, OnErr, IfOk, IfErr, IfSome, IsTrue, is_some, ◌↔◌, ◌≢◌};
ghost use Rattle.std.specs.Option.{option_map_or};
ghost use Rattle.std.specs.FinMap.{get};
ghost use Rattle.pool_area.specs.Subpools.{IsMarkSize};
ghost use Rattle.pool_store.specs.Kinds.{IsKind, IsNoPool};
ghost use Rattle.pool_store.specs.Marks.{default_of};
ghost use Rattle.pool_store.specs.Store.{no_store, with_object, without_object, with_word, copied, IsWithin, read_word, held_or_gone, both_or_gone, vacated, words_of, IsBlockPool, IsPoolSize, with_pool, take_block, is_exhausted_in, is_vacant_in, give_block, is_fit_in, hold_block, IsMarkPool, IsWholeWords, with_mark_pool, is_full, refusal_in, hold_in, with_new_subpool, is_attached, detached, IsDetached, standing_of, is_last, released_subpool, is_open, without_pool};

use crate::block_store::{Address, BlockStore};
use crate::fault::StoreFault;
use crate::kind::PoolKind;
use crate::mark_store::MarkStore;
use pool_area::Standing;
use std::alloc::{Allocator, Global};
use std::marker::Model;

/// The number of a subpool. Each names one subpool, and none is used again (RM 13.11.4).
#[derive(Clone, Copy, Debug, PartialEq, Eq)]
pub struct SubpoolNo(pub u64);

/// The objects that are held, by their numbers, the pools of blocks, and the pools with marks with their subpools.
///
/// A store has to be closed by `close`. A word of an object has 8 storage units.
pub struct PoolStore<A: Allocator = Global> {
    blocks: BlockStore<A>,
    marks: MarkStore<A>,
}

impl<A: Allocator> Model for PoolStore<A> {
    ghost use Rattle.pool_store.specs.Joined.{side_by_side, AreApart};
    ghost use Rattle.pool_store.specs.Store.{Store, store_code};

    ghost Value = { Store };

    ghost coded = { store_code };

    ghost view = { λ s. side_by_side s.blocks s.marks };

    ghost invariant = { λ s. AreApart s.blocks s.marks };
}

impl<A: Allocator + Copy> PoolStore<A> {
    /// Makes a store with no object and no pool. Takes no memory.
    pub fn new(alloc: A) -> PoolStore<A>
        ensures { result ≡ no_store }
    {
        PoolStore {
            blocks: BlockStore::new(alloc),
            marks: MarkStore::new(alloc),
        }
    }

    /// Adds an object of `words` words, all of them 0, to the standard pool.
    ///
    /// # Errors
    ///
    /// Returns `Memory` if the allocator refuses the memory. Nothing changes then.
    pub fn standard(&mut self, object: u64, words: usize) -> Result<(), StoreFault>
        requires { get self.old.objects object ≡ None }
        ensures ok { OnOk result (self.new ≡ with_object object words self.old) }
        ensures err { OnErr result (self.new ≡ self.old) }
        ensures fault { IfErr result (λ fault. fault ≡ StoreFault.Memory) }
    {
        self.blocks.standard(object, words)
    }

    /// Opens a pool of `count` blocks, from 1 to 65,536, of `units` storage units each, from 1 to 4,096. All are free.
    ///
    /// # Errors
    ///
    /// Returns `Memory` if the allocator refuses the memory. Nothing changes then.
    pub fn open_block(&mut self, pool: u64, units: u64, count: usize) -> Result<(), StoreFault>
        requires size { IsPoolSize units count }
        requires new { get self.old.blocks pool ≡ None }
        ensures ok { OnOk result (self.new ≡ with_pool pool units count self.old) }
        ensures err { OnErr result (self.new ≡ self.old) }
        ensures fault { IfErr result (λ fault. fault ≡ StoreFault.Memory) }
    {
        self.blocks.open_block(pool, units, count)
    }

    /// Takes a free block of a pool for a request of `units` storage units, and returns its address, which no block had
    /// before (RM 13.11).
    ///
    /// # Errors
    ///
    /// Returns `Exhausted` if no block is free or the request is larger than a block, else `Memory` if the allocator
    /// refuses the memory. Nothing changes then.
    pub fn allocate(&mut self, pool: u64, units: u64) -> Result<Address, StoreFault>
        requires open { IsBlockPool pool self.old }
        requires addresses { self.old.given < 2 ^ 64 - 1 }
        ensures ok { IfOk result (λ a. (is_exhausted_in pool units self.old ≡ false) × (a.0 ≡ self.old.given + 1) × (self.new ≡ take_block pool self.old)) }
        ensures err { OnErr result (self.new ≡ self.old) }
        ensures fault { IfErr result (λ fault. fault ≡ (if is_exhausted_in pool units self.old then StoreFault.Exhausted else StoreFault.Memory)) }
    {
        self.blocks.allocate(pool, units)
    }

    /// Takes a free block of a pool for a new object of `units` storage units, which lies in it then (RM 13.11): as
    /// many words as these hold, all of them 0. Returns the block's address, which no block had before.
    ///
    /// # Errors
    ///
    /// Returns `Exhausted` if no block is free or the object is larger than a block, else `Memory` if the allocator
    /// refuses the memory. Nothing changes then.
    pub fn allocate_for(
        &mut self,
        pool: u64,
        object: u64,
        units: u64,
    ) -> Result<Address, StoreFault>
        requires open { IsBlockPool pool self.old }
        requires addresses { self.old.given < 2 ^ 64 - 1 }
        requires new { get self.old.objects object ≡ None }
        ensures ok { IfOk result (λ a. (is_exhausted_in pool units self.old ≡ false) × (a.0 ≡ self.old.given + 1) × (self.new ≡ hold_block pool a.0 object (units / 8) (take_block pool self.old))) }
        ensures err { OnErr result (self.new ≡ self.old) }
        ensures fault { IfErr result (λ fault. fault ≡ (if is_exhausted_in pool units self.old then StoreFault.Exhausted else StoreFault.Memory)) }
    {
        self.blocks.allocate_for(pool, object, units)
    }

    /// Adds an object, in the block with this address, which is out and holds none: as many words as `units` storage
    /// units hold, all of them 0.
    ///
    /// # Errors
    ///
    /// Returns `BadAddress` if no such block is out or it is smaller than that, else `Memory` if the allocator refuses
    /// the memory. Nothing changes then.
    pub fn occupy(
        &mut self,
        pool: u64,
        address: Address,
        object: u64,
        units: u64,
    ) -> Result<(), StoreFault>
        requires { get self.old.objects object ≡ None }
        ensures ok { OnOk result ((is_fit_in pool address.0 units self.old ≡ true) × (self.new ≡ hold_block pool address.0 object (units / 8) self.old)) }
        ensures err { OnErr result (self.new ≡ self.old) }
        ensures fault { IfErr result (λ fault. fault ≡ (if is_fit_in pool address.0 units self.old then StoreFault.Memory else StoreFault.BadAddress)) }
    {
        self.blocks.occupy(pool, address, object, units)
    }

    /// Opens a pool with marks, of `units` storage units, from 8 to 16,777,216, and returns the number of its first
    /// subpool, which is there from the start.
    ///
    /// # Errors
    ///
    /// Returns `Memory` if the allocator refuses the memory. Nothing changes then.
    pub fn open_mark(&mut self, pool: u64, units: u64) -> Result<SubpoolNo, StoreFault>
        requires size { IsMarkSize units }
        requires new { get self.old.marks pool ≡ None }
        requires numbers { self.old.next_subpool < 2 ^ 64 }
        ensures positive { IfOk result (λ n. 0 < n.0) }
        ensures ok { IfOk result (λ n. (n.0 ≡ self.old.next_subpool) × (self.new ≡ with_mark_pool pool units self.old)) }
        ensures err { OnErr result (self.new ≡ self.old) }
        ensures fault { IfErr result (λ fault. fault ≡ StoreFault.Memory) }
    {
        let number = self.marks.open(pool, units)?;
        Ok(SubpoolNo(number))
    }

    /// Adds an object in a subpool of a pool (RM 13.11.4): as many words as `units` storage units hold, a positive
    /// multiple of 8, all of them 0. The pool may be closed.
    ///
    /// # Errors
    ///
    /// Returns `Released` if the subpool stands in no open pool, else `Foreign` if it does not belong to this one, else
    /// `NotTop` if it is not the last, else `Exhausted` if the pool has fewer storage units left, else `Memory` if the
    /// allocator refuses the memory. Nothing changes then.
    pub fn allocate_in(
        &mut self,
        subpool: SubpoolNo,
        pool: u64,
        object: u64,
        units: u64,
    ) -> Result<(), StoreFault>
        requires new { get self.old.objects object ≡ None }
        requires units { IsWholeWords units }
        ensures ok { OnOk result ((refusal_in subpool.0 pool units self.old ≡ None) × (self.new ≡ hold_in subpool.0 pool object (units / 8) self.old)) }
        ensures err { OnErr result (self.new ≡ self.old) }
        ensures fault { IfErr result (λ fault. fault ≡ option_map_or (λ x. x) (refusal_in subpool.0 pool units self.old) StoreFault.Memory) }
    {
        let SubpoolNo(number) = subpool;
        self.marks.allocate(number, pool, object, units)
    }

    /// Adds a subpool to a pool, as its last (RM 13.11.4), and returns its number. Takes no memory.
    ///
    /// # Errors
    ///
    /// Returns `TooManyMarks` exactly if ten subpools stand in the pool. Nothing changes then.
    pub fn create_subpool(&mut self, pool: u64) -> Result<SubpoolNo, StoreFault>
        requires open { IsMarkPool pool self.old }
        requires numbers { self.old.next_subpool < 2 ^ 64 }
        ensures positive { IfOk result (λ n. 0 < n.0) }
        ensures ok { IfOk result (λ n. (is_full pool self.old ≡ false) × (n.0 ≡ self.old.next_subpool) × (self.new ≡ with_new_subpool pool self.old)) }
        ensures err { OnErr result ((is_full pool self.old ≡ true) × (self.new ≡ self.old)) }
        ensures fault { IfErr result (λ fault. fault ≡ StoreFault.TooManyMarks) }
    {
        match self.marks.create(pool) {
            Ok(number) => Ok(SubpoolNo(number)),
            Err(fault) => Err(fault),
        }
    }
}

impl<A: Allocator> PoolStore<A> {
    /// Gives a block of a pool back (RM 13.11).
    ///
    /// # Errors
    ///
    /// Returns `BadAddress` if no block of the pool is out under this address, or it holds an object. Nothing changes
    /// then.
    pub fn deallocate(&mut self, pool: u64, address: Address) -> Result<(), StoreFault>
        ensures result { result ≡ (if is_vacant_in pool address.0 self.old then Ok tt else Err StoreFault.BadAddress) }
        ensures store { self.new ≡ (if is_vacant_in pool address.0 self.old then give_block pool address.0 self.old else self.old) }
    {
        self.blocks.deallocate(pool, address)
    }

    /// Returns the default subpool of a pool, which is its last one (RM 13.11.4).
    pub fn default_subpool(&self, pool: u64) -> SubpoolNo
        requires { IsMarkPool pool self.now }
        ensures { option_and_then default_of (get self.now.marks pool) ≡ Some result.0 }
    {
        SubpoolNo(self.marks.default_subpool(pool))
    }

    /// Detaches a subpool from its pool (RM 13.11.5): it belongs to none after the call. Its objects stay until it is
    /// released.
    ///
    /// # Errors
    ///
    /// Returns `Released` if it belongs to none already. Nothing changes then.
    pub fn detach_subpool(&mut self, subpool: SubpoolNo) -> Result<(), StoreFault>
        ensures result { result ≡ (if is_attached subpool.0 self.old then Ok tt else Err StoreFault.Released) }
        ensures store { self.new ≡ (if is_attached subpool.0 self.old then detached subpool.0 self.old else self.old) }
    {
        let SubpoolNo(number) = subpool;
        self.marks.detach(number)
    }

    /// Releases a subpool that is detached from its pool (RM 13.11.5), and returns whether it was the last of that
    /// pool. Takes no memory.
    ///
    /// Its objects are gone, and it is dead. If it was the last, it is dropped, with the dead ones before it: as many
    /// words are used as were when the first of these was made. The first subpool of a pool comes back, empty, under a
    /// new number.
    pub fn release_subpool(&mut self, subpool: SubpoolNo) -> bool
        requires detached { IsDetached subpool.0 self.old }
        requires numbers { self.old.next_subpool < 2 ^ 64 }
        ensures last { result ≡ is_last subpool.0 self.old }
        ensures store { self.new ≡ released_subpool subpool.0 self.old }
    {
        let SubpoolNo(number) = subpool;
        self.blocks.lies_outside_subpools();
        self.marks.release(number)
    }

    /// Removes an object and returns the address of its block, `None` for an object of the standard pool or of a
    /// subpool. The block stays out; the words of a subpool stay used.
    ///
    /// # Errors
    ///
    /// Returns `Gone` if no such object is held. Nothing changes then.
    pub fn vacate(&mut self, object: u64) -> Result<Option<Address>, StoreFault>
        ensures result { result ≡ vacated object self.old }
        ensures store { self.new ≡ without_object object self.old }
        ensures err { OnErr result (self.new ≡ self.old) }
    {
        // Most objects lie in the standard pool or in blocks.
        if self.blocks.is_held(object) {
            self.blocks.vacate(object)
        } else {
            self.marks.vacate(object)
        }
    }

    /// Returns the word of an object at the place `word`, from 0: the one that was last written there, 0 before.
    ///
    /// # Errors
    ///
    /// Returns `Gone` if no such object is held.
    #[inline(always)]
    pub fn read(&self, object: u64, word: usize) -> Result<u64, StoreFault>
        requires { IsWithin object word 1 self.now }
        ensures { result ≡ read_word object word self.now }
    {
        // Most objects lie in the standard pool.
        match self.blocks.standard_word(object, word) {
            Some(value) => Ok(value),
            None => self.read_anywhere(object, word),
        }
    }

    #[inline(never)]
    fn read_anywhere(&self, object: u64, word: usize) -> Result<u64, StoreFault>
        requires { IsWithin object word 1 self.now }
        ensures { result ≡ read_word object word self.now }
    {
        if !self.is_held(object) {
            return Err(StoreFault::Gone);
        }
        Ok(self.word(object, word))
    }

    /// Writes `value` to the word of an object at the place `word`, from 0.
    ///
    /// # Errors
    ///
    /// Returns `Gone` if no such object is held. Nothing changes then.
    #[inline(always)]
    pub fn write(&mut self, object: u64, word: usize, value: u64) -> Result<(), StoreFault>
        requires { IsWithin object word 1 self.old }
        ensures result { result ≡ held_or_gone object self.old }
        ensures store { self.new ≡ with_word object word value self.old }
    {
        if self.blocks.set_standard_word(object, word, value) {
            return Ok(());
        }
        self.write_anywhere(object, word, value)
    }

    #[inline(never)]
    fn write_anywhere(&mut self, object: u64, word: usize, value: u64) -> Result<(), StoreFault>
        requires { IsWithin object word 1 self.old }
        ensures result { result ≡ held_or_gone object self.old }
        ensures store { self.new ≡ with_word object word value self.old }
    {
        if !self.is_held(object) {
            return Err(StoreFault::Gone);
        }
        self.set_word(object, word, value);
        Ok(())
    }

    /// Copies `count` words of one object, from the place `word` on, over those of another or of the same, from the
    /// place `target` on. Within one object the words from before the call are copied.
    ///
    /// # Errors
    ///
    /// Returns `Gone` if one of the two is not held. Nothing changes then.
    pub fn copy(
        &mut self,
        from: u64,
        word: usize,
        to: u64,
        target: usize,
        count: usize,
    ) -> Result<(), StoreFault>
        requires from { 0 < count → IsWithin from word count self.old }
        requires to { 0 < count → IsWithin to target count self.old }
        ensures result { result ≡ both_or_gone from to self.old }
        ensures store { self.new ≡ copied from word to target count self.old }
    {
        if !self.is_held(from) {
            return Err(StoreFault::Gone);
        }
        if !self.is_held(to) {
            return Err(StoreFault::Gone);
        }
        if count == 0 {
            return Ok(());
        }
        if from == to {
            self.copy_within(to, word, target, count);
            return Ok(());
        }
        self.copy_between(from, word, to, target, count);
        Ok(())
    }

    fn copy_between(&mut self, from: u64, word: usize, to: u64, target: usize, count: usize)
        requires apart { ¬ (from ≡ to) }
        requires some { 0 < count }
        requires from { word + count ≤ length (words_of from self.old) }
        requires to { target + count ≤ length (words_of to self.old) }
        ensures { self.new ≡ copied from word to target count self.old }
    {
        // Places up to these lengths are numbers of the machine.
        let _ = self.len_of(from);
        let _ = self.len_of(to);
        for k in 0..count {
            let value = self.word(from, word + k);
            self.set_word(to, target + k, value);
        }
    }

    /// Returns whether an object of this number is held.
    pub fn is_held(&self, object: u64) -> bool
        ensures { result ≡ is_some (get self.now.objects object) }
    {
        self.marks.is_held(object) || self.blocks.is_held(object)
    }

    /// Counts the words of an object, none if it is gone.
    pub fn len_of(&self, object: u64) -> usize
        ensures { result ≡ length (words_of object self.now) }
    {
        if self.marks.is_held(object) {
            self.marks.len_of(object)
        } else {
            self.blocks.len_of(object)
        }
    }

    fn word(&self, object: u64, place: usize) -> u64
        requires { place < length (words_of object self.now) }
        ensures { result ≡ slice_index_or (words_of object self.now) place 0 }
    {
        if self.marks.is_held(object) {
            self.marks.word(object, place)
        } else {
            self.blocks.word(object, place)
        }
    }

    fn set_word(&mut self, object: u64, place: usize, value: u64)
        requires { place < length (words_of object self.old) }
        ensures { self.new ≡ with_word object place value self.old }
    {
        if self.marks.is_held(object) {
            self.marks.set_word(object, place, value);
        } else {
            self.blocks.set_word(object, place, value);
        }
    }

    fn copy_within(&mut self, object: u64, word: usize, target: usize, count: usize)
        requires some { 0 < count }
        requires from { word + count ≤ length (words_of object self.old) }
        requires to { target + count ≤ length (words_of object self.old) }
        ensures { self.new ≡ copied object word object target count self.old }
    {
        if self.marks.is_held(object) {
            self.marks.copy_within(object, word, target, count);
        } else {
            self.blocks.copy_within(object, word, target, count);
        }
    }

    /// Returns whether a pool of this number is open.
    #[inline(always)]
    pub fn is_open(&self, pool: u64) -> bool
        ensures { result ≡ is_open pool self.now }
    {
        self.blocks.is_open(pool) || self.marks.is_open(pool)
    }

    /// Returns which pools are open under a number, or `None` if no pool is.
    pub fn kind(&self, pool: u64) -> Option<PoolKind>
        ensures { MatchOption result (IsNoPool pool self.now) (λ kind. IsKind kind pool self.now) }
    {
        match (self.blocks.is_open(pool), self.marks.is_open(pool)) {
            (true, true) => Some(PoolKind::Both),
            (true, false) => Some(PoolKind::Blocks),
            (false, true) => Some(PoolKind::Marks),
            (false, false) => None,
        }
    }

    /// Returns whether there is an address left to give.
    pub fn has_addresses(&self) -> bool
        ensures { IsTrue result ↔ self.now.given < 2 ^ 64 - 1 }
    {
        self.blocks.has_addresses()
    }

    /// Returns whether there is a number left for another subpool.
    pub fn has_subpool_numbers(&self) -> bool
        ensures { IsTrue result ↔ self.now.next_subpool < 2 ^ 64 }
    {
        self.marks.has_subpool_numbers()
    }

    /// Returns whether a subpool belongs to its pool, is detached from it or dead, or `None` if it stands in no open
    /// pool.
    pub fn standing(&self, subpool: SubpoolNo) -> Option<Standing>
        ensures { result ≡ standing_of subpool.0 self.now }
    {
        self.marks.standing(subpool.0)
    }

    /// Closes a pool and frees it: the objects in it are gone, its addresses are no longer out, and none of its
    /// subpools stands. Takes no memory.
    pub fn close_pool(&mut self, pool: u64)
        requires { is_open pool self.old ≡ true }
        ensures { self.new ≡ without_pool pool self.old }
    {
        self.blocks.close_pool(pool);
        self.marks.close_pool(pool);
    }

    /// Closes the store and frees all its memory.
    pub fn close(self) {
        let PoolStore { blocks, marks } = self;
        blocks.close();
        marks.close();
    }
}
