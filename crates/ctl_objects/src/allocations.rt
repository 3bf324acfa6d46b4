//! The allocated objects, which come and go in any order, or with their collection.

ghost use Rattle.std.specs.Prelude.{◌≡◌, ◌+◌, ◌-◌, ◌*◌, ◌<◌, ◌^◌, ◌++◌, ◌∷◌, ◌↔◌, [], ℕ, List, IfNone, IfOk, IfSome, IsNone, IsTrue, None, OnOk, OnErr, length, replicate, is_some, nat_eq, not, false, true, vec_capacity, vec_len, ◌≤◌};
ghost use Rattle.std.specs.Option.{option_map, option_map_or};
ghost use Rattle.std.specs.FinMap.{get};
ghost use Rattle.ctl_meaning.specs.World as W;
ghost use Rattle.ctl_meaning.specs.Lists.{keep};
ghost use Rattle.ctl_meaning.specs.Names.{scalar_of};
ghost use Rattle.ctl_meaning.specs.Objects.{cells_at, change_in, ends_with_master, is_of_set, lies_in_pool, object_in, with_cells};
ghost use Rattle.ctl_meaning.specs.Pools.{block_pool_at, hold_block, push_block_pool, shut};
ghost use Rattle.ctl_meaning.specs.Changes.{new_object};
ghost use Rattle.ctl_objects.specs.Declarations.{has_number};
ghost use Rattle.ctl_objects.specs.Existing.{IsKnown};
ghost use Rattle.ctl_groups.specs.Groups.{IsNextGroup, is_open, is_waiting};
ghost use Rattle.ctl_objects.specs.Pools.{DropsOnly};
ghost use Rattle.ctl_objects.specs.Stock.{storage_of};
ghost use Rattle.ctl_groups.specs.Members.{IsGreatest, IsLeast, passes};
ghost use Rattle.ctl_storage.specs.Calls.{AreOutside, IsBlockPoolSize, IsOpen, IsPoolOf, OnPlaced, OnRefused, is_fit_at, is_vacant_at, number_lies_in, placing, pool_of, returned, taken_at, with_returned, with_taken};
ghost use Rattle.ctl_storage.specs.Order.{AreBelow, Rise};
ghost use Rattle.ctl_storage.specs.Storage.{ArePools, KeepsPools};
ghost use Rattle.ctl_objects.specs.Sets.{is_of_sets};
ghost use Rattle.ctl_storage.specs.Allocated.{is_member};
ghost use Rattle.ctl_storage.specs.Stages.{with_step};

use crate::declarations::Declaration;
use crate::existing::Existing;
use ctl_groups::{Group, Groups, Need, Start, Waiting};
use ctl_program::types::Ty;
use ctl_storage::{
    Allocation, BlockReturn, ObjectStorage, Place, Placing, Pool, PoolSize, Spot, Stage, Step,
};
use owned_numbers::OwnedNumbers;
use std::alloc::{AllocError, Global};
use std::marker::Model;

/// The allocated objects with the collections that they belong to, and in groups of one collection
/// and record type that needs finalization, which contracts see as a list of the meaning's objects,
/// beside what the record types need. It ends by `close`.
pub struct Allocations {
    objects: ObjectStorage,
    sets: OwnedNumbers,
    groups: Groups,
    needs: Vec<Need>,
}

impl Model for Allocations {
    ghost use Rattle.ctl_objects.specs.Filed.{AreFiled};
    ghost use Rattle.ctl_objects.specs.Codes.{stock_code};
    ghost use Rattle.ctl_objects.specs.Stock.{Stock, stock_of};

    ghost Value = { Stock };

    ghost coded = { stock_code };

    ghost view = { λ a. stock_of a.objects a.needs.items };

    ghost invariant = { λ a. AreFiled a.needs.items a.objects.objects a.sets a.groups };
}

impl Allocations {
    /// Makes no object, where the record types need this, by their numbers. It takes no memory.
    pub fn new(alloc: Global, needs: Vec<Need>) -> Allocations
        ensures objects { result.objects ≡ [] }
        ensures needs { result.needs ≡ needs.items }
        ensures pools { ArePools 1 W.empty_pools (storage_of result) }
    {
        Allocations {
            objects: ObjectStorage::new(alloc),
            sets: OwnedNumbers::new(alloc),
            groups: Groups::new(alloc),
            needs,
        }
    }

    /// Allocates an object for a collection, with so many cells, all of them 0 (RM 4.8).
    ///
    /// # Errors
    ///
    /// `AllocError` where the allocator refuses the memory. Nothing changes then.
    pub fn allocate(
        &mut self,
        number: u64,
        ty: Ty,
        collection: u64,
        cells: usize,
    ) -> Result<(), AllocError>
        requires { AreBelow number self.old.objects }
        ensures ok { OnOk result (self.new.objects ≡ self.old.objects ++ new_object number ty (replicate cells 0) (W.Allocated collection W.Standard) ∷ []) }
        ensures same { OnOk result (self.new ≡ record self.old { objects = self.new.objects }) }
        ensures pools { OnOk result ((x : W.Pools) → ArePools number x (storage_of self.old) → ArePools (number + 1) x (storage_of self.new)) }
        ensures needs { self.new.needs ≡ self.old.needs }
        ensures err { OnErr result (self.new ≡ self.old) }
    {
        self.are_few();
        let object = Allocation {
            ty,
            collection,
            place: Place::Standard,
            cells,
            stage: Stage::start(),
        };
        self.sets.list(collection, number)?;
        let needs = self.needs.as_slice();
        if let Err(refused) = self.groups.add(needs, number, &object) {
            self.sets.unlist(collection, number);
            return Err(refused);
        }
        match self.objects.add(number, ty, collection, cells) {
            Ok(()) => Ok(()),
            Err(refused) => {
                self.groups.leave(needs, number, &object);
                self.sets.unlist(collection, number);
                Err(refused)
            }
        }
    }

    /// Allocates an object for a collection in a block of an open pool, with so many cells, all of them
    /// 0 (RM 13.11): where a block is out under the address, holds no object, and is not smaller than
    /// the size. It answers whether that is so; nothing changes where it is not.
    ///
    /// # Errors
    ///
    /// `AllocError` where the allocator refuses the memory. Nothing changes then.
    pub fn allocate_in_block(
        &mut self,
        number: u64,
        ty: Ty,
        collection: u64,
        cells: usize,
        spot: Spot,
        size: u64,
    ) -> Result<Placing, AllocError>
        requires below { AreBelow number self.old.objects }
        requires open { IsOpen spot.pool (storage_of self.old) }
        requires size { 8 * cells ≤ size }
        ensures answer { IfOk result (λ r. (next : ℕ) (x : W.Pools) → ArePools next x (storage_of self.old) → r ≡ placing (is_fit_at spot.pool spot.address size self.old.objects x)) }
        ensures objects { IfOk result (λ r. OnPlaced r (self.new.objects ≡ self.old.objects ++ new_object number ty (replicate cells 0) (W.Allocated collection (W.InBlock spot.pool spot.address)) ∷ [])) }
        ensures pools { IfOk result (λ r. OnPlaced r ((x : W.Pools) → ArePools number x (storage_of self.old) → ArePools (number + 1) (hold_block spot.pool spot.address number x) (storage_of self.new))) }
        ensures needs { self.new.needs ≡ self.old.needs }
        ensures refused { IfOk result (λ r. OnRefused r (self.new ≡ self.old)) }
        ensures err { OnErr result (self.new ≡ self.old) }
    {
        self.are_few();
        let object = Allocation {
            ty,
            collection,
            place: Place::InBlock(spot),
            cells,
            stage: Stage::start(),
        };
        self.sets.list(collection, number)?;
        let needs = self.needs.as_slice();
        if let Err(refused) = self.groups.add(needs, number, &object) {
            self.sets.unlist(collection, number);
            return Err(refused);
        }
        match self
            .objects
            .add_in_block(number, ty, collection, cells, spot, size)
        {
            Ok(Placing::Placed) => Ok(Placing::Placed),
            Ok(Placing::Refused) => {
                self.groups.leave(needs, number, &object);
                self.sets.unlist(collection, number);
                Ok(Placing::Refused)
            }
            Err(refused) => {
                self.groups.leave(needs, number, &object);
                self.sets.unlist(collection, number);
                Err(refused)
            }
        }
    }

    /// Allocates an object for a collection in a free block of an open pool, with so many cells, all of
    /// them 0 (RM 13.11): the block goes out under an address that no block had before. It answers the
    /// address: None exactly where no block is free or the size is larger than a block, and then
    /// nothing changes.
    ///
    /// # Errors
    ///
    /// `AllocError` where the allocator refuses the memory. Nothing changes then.
    pub fn allocate_in_pool(
        &mut self,
        number: u64,
        ty: Ty,
        collection: u64,
        cells: usize,
        pool: u64,
        size: u64,
    ) -> Result<Option<u64>, AllocError>
        requires below { AreBelow number self.old.objects }
        requires open { IsOpen pool (storage_of self.old) }
        requires addresses { self.old.given < 2 ^ 64 - 1 }
        requires size { 8 * cells ≤ size }
        ensures answer { IfOk result (λ r. (next : ℕ) (x : W.Pools) → ArePools next x (storage_of self.old) → r ≡ taken_at pool size x) }
        ensures objects { IfOk result (λ r. IfSome r (λ a. self.new.objects ≡ self.old.objects ++ new_object number ty (replicate cells 0) (W.Allocated collection (W.InBlock pool a)) ∷ [])) }
        ensures pools { IfOk result (λ r. IfSome r (λ a. (x : W.Pools) → ArePools number x (storage_of self.old) → ArePools (number + 1) (hold_block pool a number (with_taken pool size x)) (storage_of self.new))) }
        ensures needs { self.new.needs ≡ self.old.needs }
        ensures exhausted { IfOk result (λ r. IfNone r (self.new ≡ self.old)) }
        ensures err { OnErr result (self.new ≡ self.old) }
    {
        self.are_few();
        // Its group is the same wherever it lies, which is not known yet.
        let object = Allocation {
            ty,
            collection,
            place: Place::Standard,
            cells,
            stage: Stage::start(),
        };
        self.sets.list(collection, number)?;
        let needs = self.needs.as_slice();
        if let Err(refused) = self.groups.add(needs, number, &object) {
            self.sets.unlist(collection, number);
            return Err(refused);
        }
        match self
            .objects
            .add_in_pool(number, ty, collection, cells, pool, size)
        {
            Ok(Some(address)) => Ok(Some(address)),
            Ok(None) => {
                self.groups.leave(needs, number, &object);
                self.sets.unlist(collection, number);
                Ok(None)
            }
            Err(refused) => {
                self.groups.leave(needs, number, &object);
                self.sets.unlist(collection, number);
                Err(refused)
            }
        }
    }

    /// Reads a cell of a part of an object, by the first cell of the part: 0 where the object has
    /// no such cell, None where it does not exist.
    #[inline(always)]
    pub fn read(&self, number: u64, start: usize, offset: usize) -> Option<u64>
        ensures { result ≡ option_map (λ o. scalar_of (cells_at (start + offset) 1 o)) (object_in number self.now.objects) }
    {
        self.objects.read(number, start, offset)
    }

    /// Writes a cell of a part of an object, by the first cell of the part: nothing where it has no
    /// such cell. It answers whether the object exists.
    #[inline(always)]
    pub fn write(&mut self, number: u64, start: usize, offset: usize, value: u64) -> bool
        ensures exists { result ≡ is_some (object_in number self.old.objects) }
        ensures written { self.new.objects ≡ change_in number (with_cells (start + offset) (value ∷ [])) self.old.objects }
        ensures needs { self.new.needs ≡ self.old.needs }
        ensures same { self.new ≡ record self.old { objects = self.new.objects } }
        ensures pools { KeepsPools (storage_of self.old) (storage_of self.new) }
    {
        self.objects.write(number, start, offset, value)
    }

    /// Appends so many cells of an object, from one on, to those that are saved, for which there is
    /// room: 0 for one that the object does not have. It answers whether the object exists; nothing
    /// is appended where it does not.
    pub fn save(&self, number: u64, start: usize, count: usize, saved: &mut Vec<u64>) -> bool
        requires { vec_len saved.old + count ≤ vec_capacity saved.old }
        ensures exists { result ≡ is_some (object_in number self.now.objects) }
        ensures items { saved.new.items ≡ saved.old.items ++ option_map_or (cells_at start count) (object_in number self.now.objects) [] }
    {
        self.objects.save(number, start, count, saved)
    }

    /// Writes these values into cells of an object, from one on: none for which it has no cell. It
    /// answers whether the object exists.
    pub fn write_all(&mut self, number: u64, start: usize, values: &[u64]) -> bool
        ensures exists { result ≡ is_some (object_in number self.old.objects) }
        ensures written { self.new.objects ≡ change_in number (with_cells start values.now) self.old.objects }
        ensures needs { self.new.needs ≡ self.old.needs }
        ensures same { self.new ≡ record self.old { objects = self.new.objects } }
        ensures pools { KeepsPools (storage_of self.old) (storage_of self.new) }
    {
        self.objects.write_all(number, start, values)
    }

    /// Answers whether an object exists.
    #[inline(always)]
    pub fn contains(&self, number: u64) -> bool
        ensures { result ≡ is_some (object_in number self.now.objects) }
    {
        self.objects.contains(number)
    }

    /// Answers what is known of an object beside its cells.
    #[inline(always)]
    pub fn find(&self, number: u64) -> Option<Existing>
        ensures { IsKnown number result self.now.objects }
    {
        match self.objects.find(number) {
            Some(object) => Some(Existing::allocated(&object)),
            None => None,
        }
    }

    /// Takes a step of an object. It answers whether the object exists.
    // Apart from what is done for a declared object, which takes less.
    #[inline(never)]
    pub fn step(&mut self, number: u64, step: Step) -> bool
        ensures exists { result ≡ is_some (object_in number self.old.objects) }
        ensures stepped { self.new.objects ≡ change_in number (with_step step) self.old.objects }
        ensures needs { self.new.needs ≡ self.old.needs }
        ensures same { self.new ≡ record self.old { objects = self.new.objects } }
        ensures pools { KeepsPools (storage_of self.old) (storage_of self.new) }
    {
        self.are_few();
        let Some(before) = self.objects.step(number, step) else {
            return false;
        };
        let needs = self.needs.as_slice();
        self.groups.follow(needs, number, &before, step);
        true
    }

    /// Forgets an object, where it exists (RM 13.11.2).
    pub fn forget(&mut self, number: u64)
        ensures objects { self.new.objects ≡ keep (λ o. not (nat_eq o.number number)) self.old.objects }
        ensures needs { self.new.needs ≡ self.old.needs }
        ensures same { self.new ≡ record self.old { objects = self.new.objects; blocks = self.new.blocks } }
        ensures pools { KeepsPools (storage_of self.old) (storage_of self.new) }
    {
        self.are_few();
        if let Some(object) = self.objects.remove(number) {
            self.sets.unlist(object.collection, number);
            let needs = self.needs.as_slice();
            self.groups.leave(needs, number, &object);
        }
    }

    /// Says that they are not too many to be counted.
    fn are_few(&self)
        ensures { length self.now.objects < 2 ^ 63 }
    {
        self.sets.are_few();
    }

    /// Forgets the objects of these collections (RM 7.6.1). It takes time in how many they are.
    #[inline(always)]
    pub fn close_sets(&mut self, sets: &[u64])
        ensures objects { (master : ℕ) → self.new.objects ≡ keep (λ o. not (ends_with_master master sets.now o.origin)) self.old.objects }
        ensures needs { self.new.needs ≡ self.old.needs }
        ensures pools { KeepsPools (storage_of self.old) (storage_of self.new) }
    {
        self.are_allocated();
        for set in sets {
            self.close_set(*set);
        }
    }

    /// Says that no object is declared.
    fn are_allocated(&self)
        ensures { (master : ℕ) (sets : List ℕ) → keep (λ o. not (is_of_sets sets o.origin)) self.now.objects ≡ keep (λ o. not (ends_with_master master sets o.origin)) self.now.objects }
    {
        let _ = &self.sets;
    }

    /// Forgets the objects of a collection, one after another.
    fn close_set(&mut self, set: u64)
        ensures objects { self.new.objects ≡ keep (λ o. not (is_of_set set o.origin)) self.old.objects }
        ensures needs { self.new.needs ≡ self.old.needs }
        ensures pools { KeepsPools (storage_of self.old) (storage_of self.new) }
    {
        while let Some(number) = self.first_of(set) {
            self.forget(number);
        }
    }

    /// Answers an object of a collection.
    fn first_of(&self, set: u64) -> Option<u64>
        ensures rise { Rise 0 self.now.objects }
        ensures some { IfSome result (λ n. is_member set n self.now.objects ≡ true) }
        ensures none { IsNone result → self.now.objects ≡ keep (λ o. not (is_of_set set o.origin)) self.now.objects }
    {
        self.sets.any_of(set)
    }

    /// Answers the next group up to a collection, from a start on, with how many of its objects are
    /// still to be finalized (RM 7.6.1). It takes time in the logarithm of the number of objects.
    pub fn next_group(&self, start: Start, last: u64) -> Option<Waiting>
        ensures next { IsNextGroup self.now.needs start last result self.now.objects }
        ensures few { length self.now.objects < 2 ^ 63 }
    {
        self.are_few();
        self.groups.next(start, last)
    }

    /// Answers the first object of a group that is still to be finalized. It takes time in the
    /// logarithm of the number of objects, once more for each object before it that has not joined
    /// its collection.
    pub fn first_waiting(&self, group: Group) -> Option<u64>
        ensures { IsLeast (λ n. passes (is_waiting self.now.needs group) n self.now.objects ≡ true) result }
    {
        self.are_numbered();
        let mut start = 0;
        while let Some(number) = self.open_from(group, start) {
            if self.has_joined(number) {
                return Some(number);
            }
            if number == u64::MAX {
                return None;
            }
            start = number + 1;
        }
        None
    }

    /// Answers the last object of a group that is still to be finalized, in the same time.
    pub fn last_waiting(&self, group: Group) -> Option<u64>
        ensures { IsGreatest (λ n. passes (is_waiting self.now.needs group) n self.now.objects ≡ true) result }
    {
        self.are_numbered();
        let mut end = u64::MAX;
        while let Some(number) = self.open_to(group, end) {
            if self.has_joined(number) {
                return Some(number);
            }
            if number == 0 {
                return None;
            }
            end = number - 1;
        }
        None
    }

    /// Answers the first object of a group, from a number on, whose finalization has not begun.
    fn open_from(&self, group: Group, start: u64) -> Option<u64>
        ensures { IsLeast (λ n. (start ≤ n) × (passes (is_open self.now.needs group) n self.now.objects ≡ true)) result }
    {
        self.groups.member_from(group, start)
    }

    /// Answers the last object of a group, up to a number, whose finalization has not begun.
    fn open_to(&self, group: Group, end: u64) -> Option<u64>
        ensures { IsGreatest (λ n. (n ≤ end) × (passes (is_open self.now.needs group) n self.now.objects ≡ true)) result }
    {
        self.groups.member_to(group, end)
    }

    /// Answers whether an object has joined its collection.
    fn has_joined(&self, number: u64) -> bool
        ensures { result ≡ passes (λ o. o.joined) number self.now.objects }
    {
        match self.objects.find(number) {
            Some(object) => object.stage.has_joined,
            None => false,
        }
    }

    /// Says that no number is too great.
    fn are_numbered(&self)
        ensures { AreBelow (2 ^ 64) self.now.objects }
    {
        let _ = &self.sets;
    }

    /// Answers whether a pool was ever opened: where not, there is none. It takes constant time.
    #[inline(always)]
    pub fn has_pools(&self) -> bool
        ensures { result ≡ false → (n : ℕ) → get self.now.sizes n ≡ None }
    {
        self.objects.has_pools()
    }

    /// Opens a pool under the number of its object, with these discriminants (RM 13.11).
    ///
    /// # Errors
    ///
    /// `AllocError` where the allocator refuses the memory. Nothing changes then.
    pub fn open_pool(&mut self, number: u64, size: PoolSize) -> Result<(), AllocError>
        requires size { IsBlockPoolSize size.block_size size.block_count }
        requires new { get self.old.sizes number ≡ None }
        ensures objects { self.new.objects ≡ self.old.objects }
        ensures needs { self.new.needs ≡ self.old.needs }
        ensures pools { OnOk result ((next : ℕ) (x : W.Pools) → number < next → ArePools next x (storage_of self.old) → ArePools next (push_block_pool number size.block_size size.block_count x) (storage_of self.new)) }
        ensures err { OnErr result (self.new ≡ self.old) }
    {
        self.objects.open_pool(number, size)
    }

    /// Answers the discriminants of a pool, and whether it is open.
    #[inline(always)]
    pub fn pool(&self, number: u64) -> Option<Pool>
        ensures known { IsPoolOf number result (storage_of self.now) }
        ensures shown { (next : ℕ) (x : W.Pools) → ArePools next x (storage_of self.now) → result ≡ option_map pool_of (block_pool_at number x) }
    {
        self.objects.pool(number)
    }

    /// Answers whether another address can be given.
    pub fn has_addresses(&self) -> bool
        ensures { IsTrue result ↔ self.now.given < 2 ^ 64 - 1 }
    {
        self.objects.has_addresses()
    }

    /// Takes a free block of an open pool out, for a request of so many storage units (RM 13.11).
    ///
    /// # Errors
    ///
    /// `AllocError` where the allocator refuses the memory. Nothing changes then.
    pub fn take_block(&mut self, pool: u64, size: u64) -> Result<Option<u64>, AllocError>
        requires open { IsOpen pool (storage_of self.old) }
        requires addresses { self.old.given < 2 ^ 64 - 1 }
        ensures answer { IfOk result (λ r. (next : ℕ) (x : W.Pools) → ArePools next x (storage_of self.old) → r ≡ taken_at pool size x) }
        ensures objects { self.new.objects ≡ self.old.objects }
        ensures needs { self.new.needs ≡ self.old.needs }
        ensures pools { OnOk result ((next : ℕ) (x : W.Pools) → ArePools next x (storage_of self.old) → ArePools next (with_taken pool size x) (storage_of self.new)) }
        ensures err { OnErr result (self.new ≡ self.old) }
    {
        self.objects.take_block(pool, size)
    }

    /// Gives a block back to an open pool (RM 13.11), where it is out under the address and holds no
    /// object, and answers whether that is so.
    #[inline(always)]
    pub fn give_block(&mut self, pool: u64, address: u64) -> BlockReturn
        requires { IsOpen pool (storage_of self.old) }
        ensures answer { (next : ℕ) (x : W.Pools) → ArePools next x (storage_of self.old) → result ≡ returned (is_vacant_at pool address self.old.objects x) }
        ensures objects { self.new.objects ≡ self.old.objects }
        ensures needs { self.new.needs ≡ self.old.needs }
        ensures pools { (next : ℕ) (x : W.Pools) → ArePools next x (storage_of self.old) → ArePools next (with_returned pool address self.old.objects x) (storage_of self.new) }
    {
        self.objects.give_block(pool, address)
    }

    /// Closes a pool, where it is open: the objects in its blocks are gone (RM 13.11). It takes the time
    /// to forget them.
    pub fn close_pool(&mut self, number: u64)
        ensures objects { self.new.objects ≡ keep (λ o. not (lies_in_pool number o.origin)) self.old.objects }
        ensures needs { self.new.needs ≡ self.old.needs }
        ensures pools { (next : ℕ) (x : W.Pools) → ArePools next x (storage_of self.old) → ArePools next (shut number x) (storage_of self.new) }
    {
        self.empty_pool(number);
        self.shut_pool(number);
    }

    /// Forgets the objects in the blocks of a pool, one after another.
    fn empty_pool(&mut self, number: u64)
        ensures objects { self.new.objects ≡ keep (λ o. not (lies_in_pool number o.origin)) self.old.objects }
        ensures outside { AreOutside number self.new.objects }
        ensures needs { self.new.needs ≡ self.old.needs }
        ensures pools { KeepsPools (storage_of self.old) (storage_of self.new) }
    {
        while let Some(object) = self.first_in(number) {
            self.forget(object);
        }
    }

    /// Answers an object in a block of a pool.
    fn first_in(&self, number: u64) -> Option<u64>
        ensures rise { Rise 0 self.now.objects }
        ensures some { IfSome result (λ k. number_lies_in number k self.now.objects ≡ true) }
        ensures none { IsNone result → AreOutside number self.now.objects }
    {
        self.objects.first_in(number)
    }

    /// Closes a pool in whose blocks no object lies, where it is open.
    fn shut_pool(&mut self, number: u64)
        requires { AreOutside number self.old.objects }
        ensures objects { self.new.objects ≡ self.old.objects }
        ensures needs { self.new.needs ≡ self.old.needs }
        ensures pools { (next : ℕ) (x : W.Pools) → ArePools next x (storage_of self.old) → ArePools next (shut number x) (storage_of self.new) }
    {
        self.objects.shut_pool(number);
    }

    /// Drops the pools of declared objects that go, where no object lies in them. It takes two look-ups
    /// for each of these objects.
    pub fn drop_pools(&mut self, going: &[Declaration])
        ensures objects { self.new.objects ≡ self.old.objects }
        ensures needs { self.new.needs ≡ self.old.needs }
        ensures pools { (next : ℕ) (x : W.Pools) → ArePools next x (storage_of self.old) → DropsOnly (λ n. has_number n going.now) next x (storage_of self.new) }
    {
        for object in going {
            self.drop_pool(object.number);
        }
    }

    /// Drops the pool of a declared object that goes, where there is one and no object lies in it. In a
    /// run none does; a pool with an object in it would stay behind under a number that is not given
    /// again, until all memory is freed.
    fn drop_pool(&mut self, number: u64)
        ensures objects { self.new.objects ≡ self.old.objects }
        ensures needs { self.new.needs ≡ self.old.needs }
        ensures pools { (next : ℕ) (x : W.Pools) → ArePools next x (storage_of self.old) → DropsOnly (λ n. nat_eq n number) next x (storage_of self.new) }
    {
        if let None = self.first_in(number) {
            self.objects.drop_pool(number);
        }
    }

    /// Frees all memory.
    pub fn close(self) {
        let Allocations {
            objects,
            sets: _sets,
            groups: _groups,
            needs: _needs,
        } = self;
        objects.close();
    }
}
