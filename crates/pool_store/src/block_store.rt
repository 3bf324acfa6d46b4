ghost use Rattle.std.specs.Prelude.{◌≡◌, ℕ, ◌+◌, ◌-◌, ◌*◌, ◌/◌, ◌^◌, ◌<◌, ◌≤◌, length, None, Some, Ok, Err, true, false, if◌then◌else◌, slice_index_or, OnOk, OnErr, IfOk, IfErr, IfSome, IsTrue, is_some, ◌↔◌, ◌≢◌};
ghost use Rattle.std.specs.Bool.{OnFalse, OnTrue};
ghost use Rattle.std.specs.FinMap.{get};
ghost use Rattle.pool_store.specs.Store.{no_store, with_object, without_object, with_word, copied, IsWithin, read_word, vacated, words_of, IsBlockPool, IsPoolSize, with_pool, take_block, is_exhausted_in, is_vacant_in, give_block, is_fit_in, hold_block, spot_of, without_pool};
ghost use Rattle.pool_store.specs.Joined.{AreOutside};

use crate::closing::close_area;
use crate::entry::{Entry, Spot};
use crate::fault::StoreFault;
use crate::object::Object;
use crate::spots::{copy_within_at, len_at, set_word_at, word_at};
use number_map::NumberMap;
use pool_area::BlockArea;
use std::alloc::{Allocator, Global};
use std::marker::Model;

/// The address of a block. Each names one successful allocation.
#[derive(Clone, Copy, Debug, PartialEq, Eq)]
pub struct Address(pub u64);

/// The objects of the standard pool and of pools of blocks, by their numbers, and these pools. It has to be closed by
/// `close`.
///
/// Contracts see it as a store without pools with marks.
pub struct BlockStore<A: Allocator = Global> {
    alloc: A,
    objects: NumberMap<Entry<A>, A>,
    blocks: NumberMap<BlockArea<A>, A>,
    // The address that was given last.
    given: u64,
}

impl<A: Allocator> Model for BlockStore<A> {
    ghost use Rattle.std.specs.Prelude.{[]};
    ghost use Rattle.std.specs.FinMap.{empty};
    ghost use Rattle.number_map.specs.Table.{mapped};
    ghost use Rattle.pool_store.specs.Entries.{stored_in, pool_of, Ties};
    ghost use Rattle.pool_store.specs.Store.{Store, store_code};

    ghost Value = { Store };

    ghost coded = { store_code };

    ghost view = { λ s. record {
      objects = mapped (stored_in s.blocks.values) s.objects.values;
      blocks = mapped pool_of s.blocks.values;
      given = s.given;
      marks = empty;
      opened = [];
      next_subpool = 1;
    } };

    ghost invariant = { λ s. Ties s.objects.values s.blocks.values s.given };
}

impl<A: Allocator + Copy> BlockStore<A> {
    /// Makes a store with no object and no pool. Takes no memory.
    pub fn new(alloc: A) -> BlockStore<A>
        ensures { result ≡ no_store }
    {
        BlockStore {
            alloc,
            objects: NumberMap::new(alloc),
            blocks: NumberMap::new(alloc),
            given: 0,
        }
    }

    /// Adds an object of `words` words, all of them 0, to the standard pool.
    ///
    /// # Errors
    ///
    /// Returns `Memory` if the allocator refuses the memory. Nothing changes then.
    pub fn standard(&mut self, object: u64, words: usize) -> Result<(), StoreFault>
        requires { get self.old.objects object ≡ None }
        ensures ok { OnOk result (self.new ≡ with_object object words self.old) }
        ensures err { OnErr result (self.new ≡ self.old) }
        ensures fault { IfErr result (λ fault. fault ≡ StoreFault.Memory) }
    {
        self.objects.reserve()?;
        let words = Object::new(self.alloc, words)?;
        self.objects.put_new(object, Entry::Standard(words));
        Ok(())
    }

    /// Opens a pool of `count` blocks, from 1 to 65,536, of `units` storage units each, from 1 to 4,096. All are free.
    ///
    /// # Errors
    ///
    /// Returns `Memory` if the allocator refuses the memory. Nothing changes then.
    pub fn open_block(&mut self, pool: u64, units: u64, count: usize) -> Result<(), StoreFault>
        requires size { IsPoolSize units count }
        requires new { get self.old.blocks pool ≡ None }
        ensures ok { OnOk result (self.new ≡ with_pool pool units count self.old) }
        ensures err { OnErr result (self.new ≡ self.old) }
        ensures fault { IfErr result (λ fault. fault ≡ StoreFault.Memory) }
    {
        self.blocks.reserve()?;
        let area = BlockArea::new(self.alloc, units, count)?;
        self.blocks.put_new(pool, area);
        Ok(())
    }

    /// Takes a free block of a pool for a request of `units` storage units, and returns its address, which no block had
    /// before.
    ///
    /// # Errors
    ///
    /// Returns `Exhausted` if no block is free or the request is larger than a block, else `Memory` if the allocator
    /// refuses the memory. Nothing changes then.
    pub fn allocate(&mut self, pool: u64, units: u64) -> Result<Address, StoreFault>
        requires open { IsBlockPool pool self.old }
        requires addresses { self.old.given < 2 ^ 64 - 1 }
        ensures ok { IfOk result (λ a. (is_exhausted_in pool units self.old ≡ false) × (a.0 ≡ self.old.given + 1) × (self.new ≡ take_block pool self.old)) }
        ensures err { OnErr result (self.new ≡ self.old) }
        ensures fault { IfErr result (λ fault. fault ≡ (if is_exhausted_in pool units self.old then StoreFault.Exhausted else StoreFault.Memory)) }
    {
        if self.is_exhausted(pool, units) {
            return Err(StoreFault::Exhausted);
        }
        let address = self.given + 1;
        let Some(area) = self.blocks.get_mut(pool) else {
            unreachable!();
        };
        area.allocate(address)?;
        self.given = address;
        Ok(Address(address))
    }

    /// Takes a free block of a pool for a new object of `units` storage units, which lies in it then: as many words as
    /// these hold, all of them 0. Returns the block's address, which no block had before.
    ///
    /// # Errors
    ///
    /// Returns `Exhausted` if no block is free or the object is larger than a block, else `Memory` if the allocator
    /// refuses the memory. Nothing changes then.
    pub fn allocate_for(
        &mut self,
        pool: u64,
        object: u64,
        units: u64,
    ) -> Result<Address, StoreFault>
        requires open { IsBlockPool pool self.old }
        requires addresses { self.old.given < 2 ^ 64 - 1 }
        requires new { get self.old.objects object ≡ None }
        ensures ok { IfOk result (λ a. (is_exhausted_in pool units self.old ≡ false) × (a.0 ≡ self.old.given + 1) × (self.new ≡ hold_block pool a.0 object (units / 8) (take_block pool self.old))) }
        ensures err { OnErr result (self.new ≡ self.old) }
        ensures fault { IfErr result (λ fault. fault ≡ (if is_exhausted_in pool units self.old then StoreFault.Exhausted else StoreFault.Memory)) }
    {
        if self.is_exhausted(pool, units) {
            return Err(StoreFault::Exhausted);
        }
        // After this only the block may be refused.
        self.objects.reserve()?;
        let address = self.given + 1;
        let Some(area) = self.blocks.get_mut(pool) else {
            unreachable!();
        };
        area.allocate(address)?;
        area.occupy(address, object, (units / 8) as usize);
        self.given += 1;
        self.objects
            .put_new(object, Entry::InBlock(Spot { pool, address }));
        Ok(Address(address))
    }

    /// Adds an object, in the block with this address, which is out and holds none: as many words as `units` storage
    /// units hold, all of them 0.
    ///
    /// # Errors
    ///
    /// Returns `BadAddress` if no such block is out or it is smaller than that, else `Memory` if the allocator refuses
    /// the memory. Nothing changes then.
    pub fn occupy(
        &mut self,
        pool: u64,
        address: Address,
        object: u64,
        units: u64,
    ) -> Result<(), StoreFault>
        requires { get self.old.objects object ≡ None }
        ensures ok { OnOk result ((is_fit_in pool address.0 units self.old ≡ true) × (self.new ≡ hold_block pool address.0 object (units / 8) self.old)) }
        ensures err { OnErr result (self.new ≡ self.old) }
        ensures fault { IfErr result (λ fault. fault ≡ (if is_fit_in pool address.0 units self.old then StoreFault.Memory else StoreFault.BadAddress)) }
    {
        let Address(address) = address;
        if !self.is_fit(pool, address, units) {
            return Err(StoreFault::BadAddress);
        }
        self.objects.reserve()?;
        let Some(area) = self.blocks.get_mut(pool) else {
            unreachable!();
        };
        area.occupy(address, object, (units / 8) as usize);
        self.objects
            .put_new(object, Entry::InBlock(Spot { pool, address }));
        Ok(())
    }
}

impl<A: Allocator> BlockStore<A> {
    /// Gives a block of a pool back.
    ///
    /// # Errors
    ///
    /// Returns `BadAddress` if no block of the pool is out under this address, or it holds an object. Nothing changes
    /// then.
    pub fn deallocate(&mut self, pool: u64, address: Address) -> Result<(), StoreFault>
        ensures result { result ≡ (if is_vacant_in pool address.0 self.old then Ok tt else Err StoreFault.BadAddress) }
        ensures store { self.new ≡ (if is_vacant_in pool address.0 self.old then give_block pool address.0 self.old else self.old) }
    {
        let Address(address) = address;
        if !self.is_vacant(pool, address) {
            return Err(StoreFault::BadAddress);
        }
        let Some(area) = self.blocks.get_mut(pool) else {
            unreachable!();
        };
        area.deallocate(address);
        Ok(())
    }

    /// Removes an object and returns the address of its block, `None` for an object of the standard pool. The block
    /// stays out.
    ///
    /// # Errors
    ///
    /// Returns `Gone` if no such object is held.
    pub fn vacate(&mut self, object: u64) -> Result<Option<Address>, StoreFault>
        ensures result { result ≡ vacated object self.old }
        ensures store { self.new ≡ without_object object self.old }
    {
        match self.objects.remove(object) {
            Some(Entry::Standard(_words)) => Ok(None),
            Some(Entry::InBlock(spot)) => {
                let Some(area) = self.blocks.get_mut(spot.pool) else {
                    unreachable!();
                };
                area.vacate(spot.address);
                Ok(Some(Address(spot.address)))
            }
            None => Err(StoreFault::Gone),
        }
    }

    /// Copies `count` words of an object from the place `word` on over those from `target` on, as they were before the
    /// call.
    pub fn copy_within(&mut self, object: u64, word: usize, target: usize, count: usize)
        requires some { 0 < count }
        requires from { word + count ≤ length (words_of object self.old) }
        requires to { target + count ≤ length (words_of object self.old) }
        ensures { self.new ≡ copied object word object target count self.old }
    {
        if let Some(spot) = self.spot_of(object) {
            copy_within_at(&mut self.blocks, spot, word, target, count);
            return;
        }
        let Some(entry) = self.objects.get_mut(object) else {
            unreachable!();
        };
        entry.copy_within(word, target, count);
    }

    /// Shows that none of its objects is in a subpool. Does nothing when it runs.
    pub fn lies_outside_subpools(&self)
        ensures { AreOutside self.now }
    {
        // Read for the proof, which looks into the store.
        let _given = self.given;
    }

    /// Returns whether an object of this number is held.
    pub fn is_held(&self, object: u64) -> bool
        ensures { result ≡ is_some (get self.now.objects object) }
    {
        self.objects.contains(object)
    }

    /// Counts the words of an object, none if it is gone.
    pub fn len_of(&self, object: u64) -> usize
        ensures { result ≡ length (words_of object self.now) }
    {
        match self.objects.get(object) {
            Some(Entry::Standard(words)) => words.len(),
            Some(Entry::InBlock(spot)) => len_at(&self.blocks, *spot),
            None => 0,
        }
    }

    /// Returns a word of an object, or `None` if no object of this number is in the standard pool.
    #[inline(always)]
    pub fn standard_word(&self, object: u64, place: usize) -> Option<u64>
        requires { IsWithin object place 1 self.now }
        ensures { IfSome result (λ w. read_word object place self.now ≡ Ok w) }
    {
        match self.objects.get(object) {
            Some(Entry::Standard(words)) => Some(words.word(place)),
            _ => None,
        }
    }

    /// Writes a word of an object, if one of this number is in the standard pool, and returns whether one is.
    #[inline(always)]
    pub fn set_standard_word(&mut self, object: u64, place: usize, value: u64) -> bool
        requires { IsWithin object place 1 self.old }
        ensures held { OnTrue result (is_some (get self.old.objects object) ≡ true) }
        ensures written { OnTrue result (self.new ≡ with_word object place value self.old) }
        ensures kept { OnFalse result (self.new ≡ self.old) }
    {
        let Some(entry) = self.objects.get_mut(object) else {
            return false;
        };
        if entry.spot().is_some() {
            return false;
        }
        entry.set_word(place, value);
        true
    }

    /// Returns a word of an object.
    pub fn word(&self, object: u64, place: usize) -> u64
        requires { place < length (words_of object self.now) }
        ensures { result ≡ slice_index_or (words_of object self.now) place 0 }
    {
        match self.objects.get(object) {
            Some(Entry::Standard(words)) => words.word(place),
            Some(Entry::InBlock(spot)) => word_at(&self.blocks, *spot, place),
            None => 0,
        }
    }

    /// Writes a word of an object.
    pub fn set_word(&mut self, object: u64, place: usize, value: u64)
        requires { place < length (words_of object self.old) }
        ensures { self.new ≡ with_word object place value self.old }
    {
        if let Some(spot) = self.spot_of(object) {
            set_word_at(&mut self.blocks, spot, place, value);
            return;
        }
        let Some(entry) = self.objects.get_mut(object) else {
            unreachable!();
        };
        entry.set_word(place, value);
    }

    // Returns the block of the object, or `None` if it is in the standard pool.
    fn spot_of(&self, object: u64) -> Option<Spot>
        ensures { result ≡ spot_of object self.now }
    {
        match self.objects.get(object) {
            Some(entry) => entry.spot(),
            None => None,
        }
    }

    /// Returns whether the pool is open.
    pub fn is_open(&self, pool: u64) -> bool
        ensures { result ≡ is_some (get self.now.blocks pool) }
    {
        self.blocks.contains(pool)
    }

    /// Closes a pool and frees it, if it is open: the objects in it are gone, and its addresses are no longer out.
    /// Takes no memory.
    pub fn close_pool(&mut self, pool: u64)
        ensures { self.new ≡ without_pool pool self.old }
    {
        match self.blocks.remove(pool) {
            Some(area) => close_area(&mut self.objects, pool, area),
            None => (),
        }
    }

    /// Closes the store and frees all its memory.
    pub fn close(self) {
        let BlockStore {
            alloc: _alloc,
            objects: _objects,
            blocks,
            given: _,
        } = self;
        let mut blocks = blocks;
        while let Some((_, area)) = blocks.pop() {
            area.close();
        }
        blocks.destroy_empty();
    }

    /// Returns whether there is an address left to give.
    pub fn has_addresses(&self) -> bool
        ensures { IsTrue result ↔ self.now.given < 2 ^ 64 - 1 }
    {
        self.given < u64::MAX
    }

    fn is_exhausted(&self, pool: u64, units: u64) -> bool
        ensures { result ≡ is_exhausted_in pool units self.now }
    {
        match self.blocks.get(pool) {
            Some(area) => area.is_exhausted(units),
            None => false,
        }
    }

    fn is_vacant(&self, pool: u64, address: u64) -> bool
        ensures { result ≡ is_vacant_in pool address self.now }
    {
        match self.blocks.get(pool) {
            Some(area) => area.is_vacant(address),
            None => false,
        }
    }

    // Returns whether the block at this address holds no object and has at least `units` storage units.
    fn is_fit(&self, pool: u64, address: u64, units: u64) -> bool
        ensures { result ≡ is_fit_in pool address units self.now }
    {
        match self.blocks.get(pool) {
            Some(area) => area.is_vacant(address) && area.has(units),
            None => false,
        }
    }
}
