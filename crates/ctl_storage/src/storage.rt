//! The allocated objects by number, with their cells and the block pools in the object store.

ghost use Rattle.std.specs.Prelude.{◌≡◌, ◌+◌, ◌-◌, ◌*◌, ◌^◌, ◌<◌, ◌≤◌, ◌++◌, ◌∷◌, ◌↔◌, [], ℕ, OnOk, OnErr, IfNone, IfOk, IfSome, IsNone, IsTrue, MatchOption, None, false, true, replicate, vec_capacity, vec_len, is_some, nat_eq, nat_le, not};
ghost use Rattle.std.specs.Option.{option_map, option_map_or};
ghost use Rattle.std.specs.FinMap.{get};
ghost use Rattle.ctl_meaning.specs.World as W;
ghost use Rattle.ctl_meaning.specs.Lists.{keep};
ghost use Rattle.ctl_meaning.specs.Names.{scalar_of};
ghost use Rattle.ctl_meaning.specs.Objects.{cells_at, change_in, lies_in_pool, object_in, with_cells};
ghost use Rattle.ctl_meaning.specs.Pools.{block_pool_at, hold_block, keep_pools, push_block_pool, shut};
ghost use Rattle.ctl_meaning.specs.Changes.{new_object};
ghost use Rattle.pool_store.specs.Store.{IsBlockPool, hold_block as hold_block_in, is_exhausted_in, is_fit_in, take_block as take_block_in};
ghost use Rattle.ctl_storage.specs.Allocated.{IsKnown, is_member};
ghost use Rattle.ctl_storage.specs.Calls.{AreOutside, IsBlockPoolSize, IsOpen, IsPoolOf, OnPlaced, OnRefused, is_fit_at, is_vacant_at, number_lies_in, placing, pool_of, returned, state_of, taken_at, with_returned, with_taken};
ghost use Rattle.ctl_storage.specs.Order.{AreBelow, Rise};
ghost use Rattle.ctl_storage.specs.Stages.{with_step};
ghost use Rattle.ctl_storage.specs.Storage.{ArePools, KeepsPools};

use crate::existing::{Allocation, Place, Stage, Step};
use crate::located::unlist_gone;
use crate::pools::{BlockReturn, Placing, Pool, PoolSize, PoolState};
use crate::sizes::PoolSizes;
use crate::words::{read_word, save_words, write_word, write_words};
use ctl_program::types::Ty;
use number_map::NumberMap;
use owned_numbers::OwnedNumbers;
use pool_store::{Address, PoolStore, Spot, StoreFault};
use std::alloc::{AllocError, Global};
use std::marker::Model;

/// The allocated objects and the block pools. It ends by `close`.
pub struct ObjectStorage {
    objects: NumberMap<Allocation>,
    sizes: PoolSizes,
    located: OwnedNumbers,
    store: PoolStore,
}

impl Model for ObjectStorage {
    ghost use Rattle.ctl_storage.specs.Codes.{storage_code};
    ghost use Rattle.ctl_storage.specs.Inside.{AreStored, view_of};
    ghost use Rattle.ctl_storage.specs.Storage.{Storage};

    ghost Value = { Storage };

    ghost coded = { storage_code };

    ghost view = { λ s. view_of s.objects.values s.sizes.values s.store };

    ghost invariant = { λ s. AreStored s.objects.values s.sizes.values s.located s.store };
}

impl ObjectStorage {
    /// Makes no object and no pool. It takes no memory.
    pub fn new(alloc: Global) -> ObjectStorage
        ensures objects { result.objects ≡ [] }
        ensures pools { ArePools 1 W.empty_pools result }
    {
        ObjectStorage {
            objects: NumberMap::new(alloc),
            sizes: PoolSizes::new(alloc),
            located: OwnedNumbers::new(alloc),
            store: PoolStore::new(alloc),
        }
    }

    /// Adds an object of a collection in the standard pool, with so many cells, all of them 0 (RM
    /// 4.8).
    ///
    /// # Errors
    ///
    /// `AllocError` where the allocator refuses the memory. Nothing changes then.
    pub fn add(
        &mut self,
        number: u64,
        ty: Ty,
        collection: u64,
        cells: usize,
    ) -> Result<(), AllocError>
        requires { AreBelow number self.old.objects }
        ensures objects { OnOk result (self.new.objects ≡ self.old.objects ++ new_object number ty (replicate cells 0) (W.Allocated collection W.Standard) ∷ []) }
        ensures same { OnOk result (self.new ≡ record self.old { objects = self.new.objects }) }
        ensures pools { OnOk result ((x : W.Pools) → ArePools number x self.old → ArePools (number + 1) x self.new) }
        ensures err { OnErr result (self.new ≡ self.old) }
    {
        self.objects.reserve()?;
        match self.store.standard(number, cells) {
            Ok(()) => {
                let object = Allocation {
                    ty,
                    collection,
                    place: Place::Standard,
                    cells,
                    stage: Stage::start(),
                };
                self.objects.put_new(number, object);
                Ok(())
            }
            Err(_refused) => Err(AllocError),
        }
    }

    /// Adds an object of a collection in a block of an open pool, with so many cells, all of them 0
    /// (RM 13.11): where a block is out under the address, holds no object, and is not smaller than
    /// the size. It answers whether that is so; nothing changes where it is not.
    ///
    /// # Errors
    ///
    /// `AllocError` where the allocator refuses the memory. Nothing changes then.
    pub fn add_in_block(
        &mut self,
        number: u64,
        ty: Ty,
        collection: u64,
        cells: usize,
        spot: Spot,
        size: u64,
    ) -> Result<Placing, AllocError>
        requires below { AreBelow number self.old.objects }
        requires open { IsOpen spot.pool self.old }
        requires size { 8 * cells ≤ size }
        ensures answer { IfOk result (λ r. (next : ℕ) (x : W.Pools) → ArePools next x self.old → r ≡ placing (is_fit_at spot.pool spot.address size self.old.objects x)) }
        ensures objects { IfOk result (λ r. OnPlaced r (self.new.objects ≡ self.old.objects ++ new_object number ty (replicate cells 0) (W.Allocated collection (W.InBlock spot.pool spot.address)) ∷ [])) }
        ensures pools { IfOk result (λ r. OnPlaced r ((x : W.Pools) → ArePools number x self.old → ArePools (number + 1) (hold_block spot.pool spot.address number x) self.new)) }
        ensures refused { IfOk result (λ r. OnRefused r (self.new ≡ self.old)) }
        ensures err { OnErr result (self.new ≡ self.old) }
    {
        if !self.has_blocks_of(spot.pool, size) {
            return Ok(Placing::Refused);
        }
        self.objects.reserve()?;
        self.located.list(spot.pool, number)?;
        match occupy(&mut self.store, spot, number, cells) {
            Ok(Placing::Placed) => {
                let object = Allocation {
                    ty,
                    collection,
                    place: Place::InBlock(spot),
                    cells,
                    stage: Stage::start(),
                };
                self.objects.put_new(number, object);
                Ok(Placing::Placed)
            }
            Ok(Placing::Refused) => {
                self.located.unlist(spot.pool, number);
                Ok(Placing::Refused)
            }
            Err(refused) => {
                self.located.unlist(spot.pool, number);
                Err(refused)
            }
        }
    }

    /// Adds an object of a collection in a free block of an open pool, with so many cells, all of them
    /// 0 (RM 13.11): the block goes out under an address that no block had before. It answers the
    /// address: None exactly where no block is free or the size is larger than a block, and then
    /// nothing changes.
    ///
    /// # Errors
    ///
    /// `AllocError` where the allocator refuses the memory. Nothing changes then.
    pub fn add_in_pool(
        &mut self,
        number: u64,
        ty: Ty,
        collection: u64,
        cells: usize,
        pool: u64,
        size: u64,
    ) -> Result<Option<u64>, AllocError>
        requires below { AreBelow number self.old.objects }
        requires open { IsOpen pool self.old }
        requires addresses { self.old.given < 2 ^ 64 - 1 }
        requires size { 8 * cells ≤ size }
        ensures answer { IfOk result (λ r. (next : ℕ) (x : W.Pools) → ArePools next x self.old → r ≡ taken_at pool size x) }
        ensures objects { IfOk result (λ r. IfSome r (λ a. self.new.objects ≡ self.old.objects ++ new_object number ty (replicate cells 0) (W.Allocated collection (W.InBlock pool a)) ∷ [])) }
        ensures pools { IfOk result (λ r. IfSome r (λ a. (x : W.Pools) → ArePools number x self.old → ArePools (number + 1) (hold_block pool a number (with_taken pool size x)) self.new)) }
        ensures exhausted { IfOk result (λ r. IfNone r (self.new ≡ self.old)) }
        ensures err { OnErr result (self.new ≡ self.old) }
    {
        if !self.has_blocks_of(pool, size) {
            return Ok(None);
        }
        self.objects.reserve()?;
        self.located.list(pool, number)?;
        match allocate_for(&mut self.store, pool, number, cells) {
            Ok(Some(address)) => {
                let object = Allocation {
                    ty,
                    collection,
                    place: Place::InBlock(Spot { pool, address }),
                    cells,
                    stage: Stage::start(),
                };
                self.objects.put_new(number, object);
                Ok(Some(address))
            }
            Ok(None) => {
                self.located.unlist(pool, number);
                Ok(None)
            }
            Err(refused) => {
                self.located.unlist(pool, number);
                Err(refused)
            }
        }
    }

    /// Answers whether a pool has blocks that are not smaller than a size.
    fn has_blocks_of(&self, pool: u64, size: u64) -> bool
        ensures { result ≡ option_map_or (λ z. nat_le size z.block_size) (get self.now.sizes pool) false }
    {
        match self.sizes.get(pool) {
            Some(found) => size <= found.block_size,
            None => false,
        }
    }

    /// Reads a cell of a part of an object, by the first cell of the part: 0 where the object has
    /// no such cell, None where it does not exist.
    #[inline(always)]
    pub fn read(&self, number: u64, start: usize, offset: usize) -> Option<u64>
        ensures { result ≡ option_map (λ o. scalar_of (cells_at (start + offset) 1 o)) (object_in number self.now.objects) }
    {
        match self.objects.get(number) {
            Some(object) => Some(read_word(&self.store, number, object.cells, start, offset)),
            None => None,
        }
    }

    /// Writes a cell of a part of an object, by the first cell of the part: nothing where it has no
    /// such cell. It answers whether the object exists.
    #[inline(always)]
    pub fn write(&mut self, number: u64, start: usize, offset: usize, value: u64) -> bool
        ensures exists { result ≡ is_some (object_in number self.old.objects) }
        ensures written { self.new.objects ≡ change_in number (with_cells (start + offset) (value ∷ [])) self.old.objects }
        ensures same { self.new ≡ record self.old { objects = self.new.objects } }
        ensures pools { KeepsPools self.old self.new }
    {
        match self.objects.get(number) {
            Some(object) => {
                let cells = object.cells;
                write_word(&mut self.store, number, cells, start, offset, value);
                true
            }
            None => false,
        }
    }

    /// Appends so many cells of an object, from one on, to those that are saved, for which there is
    /// room: 0 for one that the object does not have. It answers whether the object exists; nothing
    /// is appended where it does not.
    pub fn save(&self, number: u64, start: usize, count: usize, saved: &mut Vec<u64>) -> bool
        requires { vec_len saved.old + count ≤ vec_capacity saved.old }
        ensures exists { result ≡ is_some (object_in number self.now.objects) }
        ensures items { saved.new.items ≡ saved.old.items ++ option_map_or (cells_at start count) (object_in number self.now.objects) [] }
    {
        match self.objects.get(number) {
            Some(object) => {
                save_words(saved, &self.store, number, object.cells, start, count);
                true
            }
            None => false,
        }
    }

    /// Writes these values into cells of an object, from one on: none for which it has no cell. It
    /// answers whether the object exists.
    pub fn write_all(&mut self, number: u64, start: usize, values: &[u64]) -> bool
        ensures exists { result ≡ is_some (object_in number self.old.objects) }
        ensures written { self.new.objects ≡ change_in number (with_cells start values.now) self.old.objects }
        ensures same { self.new ≡ record self.old { objects = self.new.objects } }
        ensures pools { KeepsPools self.old self.new }
    {
        match self.objects.get(number) {
            Some(object) => {
                let cells = object.cells;
                write_words(&mut self.store, number, cells, start, values);
                true
            }
            None => false,
        }
    }

    /// Answers whether an object exists.
    #[inline(always)]
    pub fn contains(&self, number: u64) -> bool
        ensures { result ≡ is_some (object_in number self.now.objects) }
    {
        self.objects.contains(number)
    }

    /// Answers what is known of an object beside the values of its cells, and so where it lies.
    #[inline(always)]
    pub fn find(&self, number: u64) -> Option<Allocation>
        ensures { IsKnown number result self.now.objects }
    {
        match self.objects.get(number) {
            Some(object) => Some(*object),
            None => None,
        }
    }

    /// Takes a step of an object. It answers what it was before, where it exists.
    pub fn step(&mut self, number: u64, step: Step) -> Option<Allocation>
        ensures before { IsKnown number result self.old.objects }
        ensures stepped { self.new.objects ≡ change_in number (with_step step) self.old.objects }
        ensures same { self.new ≡ record self.old { objects = self.new.objects } }
        ensures pools { KeepsPools self.old self.new }
    {
        let Some(object) = self.objects.get_mut(number) else {
            return None;
        };
        let before = *object;
        object.stage = object.stage.after(step);
        Some(before)
    }

    /// Removes an object, with its cells. A block in which it lay stays out, and holds no object
    /// from then on. It answers what it was, where it existed.
    pub fn remove(&mut self, number: u64) -> Option<Allocation>
        ensures before { IsKnown number result self.old.objects }
        ensures collection { (set : ℕ) → is_member set number self.old.objects ≡ option_map_or (λ a. nat_eq a.collection set) result false }
        ensures gone { self.new.objects ≡ keep (λ o. not (nat_eq o.number number)) self.old.objects }
        ensures same { self.new ≡ record self.old { objects = self.new.objects; blocks = self.new.blocks } }
        ensures pools { KeepsPools self.old self.new }
    {
        let removed = self.objects.remove(number);
        unlist_gone(&mut self.located, removed, number);
        let _ = self.store.vacate(number);
        removed
    }

    /// Opens a pool under the number of its object, with these discriminants (RM 13.11). All of its
    /// blocks are free.
    ///
    /// # Errors
    ///
    /// `AllocError` where the allocator refuses the memory. Nothing changes then.
    pub fn open_pool(&mut self, number: u64, size: PoolSize) -> Result<(), AllocError>
        requires size { IsBlockPoolSize size.block_size size.block_count }
        requires new { get self.old.sizes number ≡ None }
        ensures objects { self.new.objects ≡ self.old.objects }
        ensures pools { OnOk result ((next : ℕ) (x : W.Pools) → number < next → ArePools next x self.old → ArePools next (push_block_pool number size.block_size size.block_count x) self.new) }
        ensures err { OnErr result (self.new ≡ self.old) }
    {
        self.sizes.reserve()?;
        match self
            .store
            .open_block(number, size.block_size, size.block_count)
        {
            Ok(()) => {
                self.sizes.put(number, size);
                Ok(())
            }
            Err(_refused) => Err(AllocError),
        }
    }

    /// Answers the discriminants of a pool, and whether it is open.
    #[inline(always)]
    pub fn pool(&self, number: u64) -> Option<Pool>
        ensures known { IsPoolOf number result self.now }
        ensures shown { (next : ℕ) (x : W.Pools) → ArePools next x self.now → result ≡ option_map pool_of (block_pool_at number x) }
    {
        match self.sizes.get(number) {
            Some(size) => Some(Pool {
                size: *size,
                state: self.state(number),
            }),
            None => None,
        }
    }

    /// Answers whether a pool is open.
    #[inline(always)]
    fn state(&self, number: u64) -> PoolState
        ensures { result ≡ state_of (is_some (get self.now.blocks number)) }
    {
        if self.store.is_open(number) {
            PoolState::Open
        } else {
            PoolState::Closed
        }
    }

    /// Answers whether a pool was ever opened: where not, there is none. It takes constant time, and
    /// no look-up.
    #[inline(always)]
    pub fn has_pools(&self) -> bool
        ensures { result ≡ false → (n : ℕ) → get self.now.sizes n ≡ None }
    {
        self.sizes.are_used()
    }

    /// Says that an object in a block lies in a pool that is open.
    pub fn are_in_pools(&self)
        ensures { (n : ℕ) → get self.now.blocks n ≡ None → AreOutside n self.now.objects }
    {
        let _ = &self.located;
    }

    /// Answers whether another address can be given.
    pub fn has_addresses(&self) -> bool
        ensures { IsTrue result ↔ self.now.given < 2 ^ 64 - 1 }
    {
        self.store.has_addresses()
    }

    /// Takes a free block of an open pool out, for a request of so many storage units (RM 13.11),
    /// under an address that no block had before. It answers the address: None exactly where no
    /// block is free or the request is larger than a block, and then nothing changes.
    ///
    /// # Errors
    ///
    /// `AllocError` where the allocator refuses the memory. Nothing changes then.
    pub fn take_block(&mut self, pool: u64, size: u64) -> Result<Option<u64>, AllocError>
        requires open { IsOpen pool self.old }
        requires addresses { self.old.given < 2 ^ 64 - 1 }
        ensures answer { IfOk result (λ r. (next : ℕ) (x : W.Pools) → ArePools next x self.old → r ≡ taken_at pool size x) }
        ensures objects { self.new.objects ≡ self.old.objects }
        ensures pools { OnOk result ((next : ℕ) (x : W.Pools) → ArePools next x self.old → ArePools next (with_taken pool size x) self.new) }
        ensures err { OnErr result (self.new ≡ self.old) }
    {
        let address = match self.store.allocate(pool, size) {
            Ok(address) => address,
            Err(StoreFault::Exhausted) => return Ok(None),
            Err(_refused) => return Err(AllocError),
        };
        Ok(Some(address.0))
    }

    /// Gives a block back to an open pool (RM 13.11): where it is out under the address and holds
    /// no object. It answers whether that is so; nothing changes where it is not.
    #[inline(always)]
    pub fn give_block(&mut self, pool: u64, address: u64) -> BlockReturn
        requires { IsOpen pool self.old }
        ensures answer { (next : ℕ) (x : W.Pools) → ArePools next x self.old → result ≡ returned (is_vacant_at pool address self.old.objects x) }
        ensures objects { self.new.objects ≡ self.old.objects }
        ensures pools { (next : ℕ) (x : W.Pools) → ArePools next x self.old → ArePools next (with_returned pool address self.old.objects x) self.new }
    {
        let Ok(()) = self.store.deallocate(pool, Address(address)) else {
            return BlockReturn::Refused;
        };
        BlockReturn::Accepted
    }

    /// Closes a pool, where it is open: the objects in its blocks are gone, and its addresses are
    /// out no more (RM 13.11). It takes time in the objects in its blocks, and in the blocks that are
    /// out.
    pub fn close_pool(&mut self, number: u64)
        ensures objects { self.new.objects ≡ keep (λ o. not (lies_in_pool number o.origin)) self.old.objects }
        ensures pools { (next : ℕ) (x : W.Pools) → ArePools next x self.old → ArePools next (shut number x) self.new }
    {
        self.empty_pool(number);
        self.shut_pool(number);
    }

    /// Removes the objects in the blocks of a pool, one after another.
    fn empty_pool(&mut self, number: u64)
        ensures objects { self.new.objects ≡ keep (λ o. not (lies_in_pool number o.origin)) self.old.objects }
        ensures outside { AreOutside number self.new.objects }
        ensures pools { KeepsPools self.old self.new }
    {
        while let Some(object) = self.first_in(number) {
            let _ = self.remove(object);
        }
    }

    /// Answers an object in a block of a pool, where there is one. It takes constant time on average.
    pub fn first_in(&self, number: u64) -> Option<u64>
        ensures rise { Rise 0 self.now.objects }
        ensures some { IfSome result (λ k. number_lies_in number k self.now.objects ≡ true) }
        ensures none { IsNone result → AreOutside number self.now.objects }
    {
        self.located.any_of(number)
    }

    /// Closes a pool in whose blocks no object lies, where it is open, and frees it. It takes time in
    /// the blocks that are out.
    pub fn shut_pool(&mut self, number: u64)
        requires { IsOpen number self.old → AreOutside number self.old.objects }
        ensures objects { self.new.objects ≡ self.old.objects }
        ensures closed { get self.new.blocks number ≡ None }
        ensures pools { (next : ℕ) (x : W.Pools) → ArePools next x self.old → ArePools next (shut number x) self.new }
    {
        if !self.store.is_open(number) {
            return;
        }
        self.store.close_pool(number);
    }

    /// Drops a pool, whose object is gone: there is no pool of this number any more. Where it is
    /// still open, no object lies in it, and it is freed.
    pub fn drop_pool(&mut self, number: u64)
        requires { IsOpen number self.old → AreOutside number self.old.objects }
        ensures objects { self.new.objects ≡ self.old.objects }
        ensures pools { (next : ℕ) (x : W.Pools) → ArePools next x self.old → ArePools next (keep_pools (λ n. not (nat_eq n number)) x) self.new }
    {
        self.shut_pool(number);
        self.forget_size(number);
    }

    /// Forgets the discriminants of a pool that has closed.
    fn forget_size(&mut self, number: u64)
        requires { get self.old.blocks number ≡ None }
        ensures objects { self.new.objects ≡ self.old.objects }
        ensures pools { (next : ℕ) (x : W.Pools) → ArePools next (shut number x) self.old → ArePools next (keep_pools (λ n. not (nat_eq n number)) x) self.new }
    {
        let _ = self.sizes.remove(number);
    }

    /// Frees all memory.
    pub fn close(self) {
        let ObjectStorage {
            objects: _objects,
            sizes: _sizes,
            located: _located,
            store,
        } = self;
        store.close();
    }
}

/// Puts an object of so many cells into a block that is out under an address, holds no object and
/// is large enough. It answers whether that is so; nothing changes where it is not.
///
/// # Errors
///
/// `AllocError` where the allocator refuses the memory. Nothing changes then.
fn occupy(
    store: &mut PoolStore,
    spot: Spot,
    number: u64,
    cells: usize,
) -> Result<Placing, AllocError>
    requires new { get store.old.objects number ≡ None }
    requires few { 8 * cells < 2 ^ 64 }
    ensures answer { IfOk result (λ r. r ≡ placing (is_fit_in spot.pool spot.address (8 * cells) store.old)) }
    ensures placed { IfOk result (λ r. OnPlaced r (store.new ≡ hold_block_in spot.pool spot.address number cells store.old)) }
    ensures refused { IfOk result (λ r. OnRefused r (store.new ≡ store.old)) }
    ensures err { OnErr result (store.new ≡ store.old) }
{
    match store.occupy(spot.pool, Address(spot.address), number, 8 * cells as u64) {
        Ok(()) => Ok(Placing::Placed),
        Err(StoreFault::BadAddress) => Ok(Placing::Refused),
        Err(_refused) => Err(AllocError),
    }
}

/// Takes a free block of an open pool out for a new object of so many cells, which lies in it then. It
/// answers the address: None exactly where no block is free or the object is larger than a block, and
/// then nothing changes.
///
/// # Errors
///
/// `AllocError` where the allocator refuses the memory. Nothing changes then.
fn allocate_for(
    store: &mut PoolStore,
    pool: u64,
    number: u64,
    cells: usize,
) -> Result<Option<u64>, AllocError>
    requires open { IsBlockPool pool store.old }
    requires addresses { store.old.given < 2 ^ 64 - 1 }
    requires new { get store.old.objects number ≡ None }
    requires few { 8 * cells < 2 ^ 64 }
    ensures answer { IfOk result (λ r. MatchOption r ((is_exhausted_in pool (8 * cells) store.old ≡ true) × (store.new ≡ store.old))
        (λ a. (is_exhausted_in pool (8 * cells) store.old ≡ false) × (a ≡ store.old.given + 1) × (store.new ≡ hold_block_in pool a number cells (take_block_in pool store.old)))) }
    ensures err { OnErr result (store.new ≡ store.old) }
{
    match store.allocate_for(pool, number, 8 * cells as u64) {
        Ok(Address(address)) => Ok(Some(address)),
        Err(StoreFault::Exhausted) => Ok(None),
        Err(_refused) => Err(AllocError),
    }
}
