//! All objects that exist, declared and allocated ones.

ghost use Rattle.std.specs.Prelude.{◌≡◌, ◌≢◌, ℕ, ◌-◌, ◌*◌, ◌↔◌, IfNone, IfOk, IsTrue, None, ◌+◌, ◌<◌, ◌≤◌, ◌^◌, ◌++◌, ◌∷◌, [], IfSome, OnOk, OnErr, length, replicate, is_some, nat_eq, not, true, vec_capacity, vec_len};
ghost use Rattle.std.specs.Option.{option_map, option_map_or};
ghost use Rattle.ctl_program.specs.declared.types.Ty.TheVariants.{Record};
ghost use Rattle.ctl_meaning.specs.World as W;
ghost use Rattle.ctl_meaning.specs.Lists.{change_first, keep};
ghost use Rattle.ctl_meaning.specs.Names.{scalar_of};
ghost use Rattle.ctl_meaning.specs.Objects.{cells_at, change_in, ends_with_master, lies_in_pool, object_in, with_begun, with_cells, with_finalized, with_joined};
ghost use Rattle.ctl_meaning.specs.Changes.{new_object};
ghost use Rattle.ctl_objects.specs.Copies.{copied};
ghost use Rattle.ctl_objects.specs.Existing.{IsKnown};
ghost use Rattle.ctl_groups.specs.Groups.{IsNextGroup, is_allocated, is_waiting};
ghost use Rattle.ctl_groups.specs.Members.{IsGreatest, IsLeast, passes};
ghost use Rattle.ctl_objects.specs.Order.{AreUpTo, IsAllocated};
ghost use Rattle.ctl_objects.specs.Pools.{DropsOnly, IsOwner, KeepsShown, ShowsPools};
ghost use Rattle.std.specs.FinMap.{get};
ghost use Rattle.ctl_meaning.specs.Pools.{block_pool_at, hold_block, keep_pools, push_block_pool, shut};
ghost use Rattle.ctl_storage.specs.Order.{AreBelow, Rise};
ghost use Rattle.ctl_storage.specs.Calls.{AreOutside, IsBlockPoolSize, IsOpen, IsPoolOf, OnPlaced, OnRefused, is_fit_at, is_vacant_at, placing, pool_of, returned, taken_at, with_returned, with_taken};
ghost use Rattle.ctl_storage.specs.Storage.{ArePools, exists};
ghost use Rattle.ctl_objects.specs.Stock.{storage_of};
ghost use Rattle.ctl_storage.specs.Stages.{with_step};

use crate::allocations::Allocations;
use crate::declarations::Declarations;
use crate::existing::Existing;
use ctl_groups::{Group, Need, Start, Waiting};
use ctl_program::types::Ty;
use ctl_storage::{BlockReturn, Placing, Pool, PoolSize, Spot, Step};
use std::alloc::{AllocError, Global};
use std::marker::Model;

/// The objects that exist, declared and allocated ones, which contracts see as the meaning's list
/// of objects, in rising order of their numbers, beside what the record types need and the block
/// pools. It ends by `close`.
///
/// To find an object takes time in the logarithm of the number of declared objects, constant time
/// where it is the newest of them or came after it, and for an allocated object one look-up by its
/// number more.
pub struct Objects {
    declared: Declarations,
    allocated: Allocations,
}

impl Model for Objects {
    ghost use Rattle.ctl_objects.specs.Order.{AreSplit};
    ghost use Rattle.ctl_objects.specs.Codes.{stock_code};
    ghost use Rattle.ctl_objects.specs.Stock.{Stock, all_of};

    ghost Value = { Stock };

    ghost coded = { stock_code };

    ghost view = { λ o. all_of o.allocated o.declared };

    ghost invariant = { λ o. AreSplit o.allocated.objects o.declared };
}

impl Objects {
    /// Makes no object, where the record types need this, by their numbers; one beyond these needs
    /// nothing. It takes no memory.
    pub fn new(alloc: Global, needs: Vec<Need>) -> Objects
        ensures objects { result.objects ≡ [] }
        ensures needs { result.needs ≡ needs.items }
        ensures pools { ShowsPools 1 W.empty_pools result }
    {
        Objects {
            declared: Declarations::new(alloc),
            allocated: Allocations::new(alloc, needs),
        }
    }

    /// Declares an object of a record type in a master, with so many cells, all of them 0 (RM
    /// 3.3.1): its number is greater than all others, and no declared object has a greater master.
    /// It takes time in the number of its cells.
    ///
    /// # Errors
    ///
    /// `AllocError` where the allocator refuses the memory. Nothing changes then.
    pub fn declare(
        &mut self,
        number: u64,
        record_type: usize,
        master: u64,
        cells: usize,
    ) -> Result<(), AllocError>
        requires numbers { AreBelow number self.old.objects }
        requires masters { AreUpTo master self.old.objects }
        ensures ok { OnOk result (self.new.objects ≡ self.old.objects ++ new_object number (Record record_type) (replicate cells 0) (W.Declared master) ∷ []) }
        ensures needs { self.new.needs ≡ self.old.needs }
        ensures same { OnOk result (self.new ≡ record self.old { objects = self.new.objects }) }
        ensures pools { OnOk result ((x : W.Pools) → ShowsPools number x self.old → ShowsPools (number + 1) x self.new) }
        ensures err { OnErr result (self.new ≡ self.old) }
    {
        self.declared.declare(number, record_type, master, cells)
    }

    /// Allocates an object for a collection in the standard pool, with so many cells, all of them 0
    /// (RM 4.8): its number is greater than all others. It takes time in the number of its cells,
    /// and in the logarithm of the number of objects in groups where its type needs finalization.
    ///
    /// # Errors
    ///
    /// `AllocError` where the allocator refuses the memory. Nothing changes then.
    pub fn allocate(
        &mut self,
        number: u64,
        ty: Ty,
        collection: u64,
        cells: usize,
    ) -> Result<(), AllocError>
        requires { AreBelow number self.old.objects }
        ensures ok { OnOk result (self.new.objects ≡ self.old.objects ++ new_object number ty (replicate cells 0) (W.Allocated collection W.Standard) ∷ []) }
        ensures needs { self.new.needs ≡ self.old.needs }
        ensures same { OnOk result (self.new ≡ record self.old { objects = self.new.objects }) }
        ensures pools { OnOk result ((x : W.Pools) → ShowsPools number x self.old → ShowsPools (number + 1) x self.new) }
        ensures err { OnErr result (self.new ≡ self.old) }
    {
        self.allocated.allocate(number, ty, collection, cells)
    }

    /// Answers what is known of an object beside its cells, where it exists. It takes the time to
    /// find the object.
    // Inlined, so that nothing is made of it that the caller does not read.
    #[inline(always)]
    pub fn find(&self, number: u64) -> Option<Existing>
        ensures { IsKnown number result self.now.objects }
    {
        match self.declared.find(number) {
            Some(existing) => Some(existing),
            None => self.allocated.find(number),
        }
    }

    /// Answers whether an object exists. It takes the time to find the object.
    #[inline(always)]
    pub fn exists(&self, number: u64) -> bool
        ensures { result ≡ is_some (object_in number self.now.objects) }
    {
        if self.declared.contains(number) {
            return true;
        }
        self.allocated.contains(number)
    }

    /// Reads a cell of an object: 0 where the object has no such cell, None where it does not
    /// exist. It takes the time to find the object.
    #[inline(always)]
    pub fn read(&self, number: u64, offset: usize) -> Option<u64>
        ensures { result ≡ option_map (λ o. scalar_of (cells_at offset 1 o)) (object_in number self.now.objects) }
    {
        self.read_part(number, 0, offset)
    }

    /// Reads a cell of a part of an object, by the first cell of the part, as `read`.
    #[inline(always)]
    pub fn read_part(&self, number: u64, start: usize, offset: usize) -> Option<u64>
        ensures { result ≡ option_map (λ o. scalar_of (cells_at (start + offset) 1 o)) (object_in number self.now.objects) }
    {
        match self.declared.read(number, start, offset) {
            Some(value) => Some(value),
            None => self.allocated.read(number, start, offset),
        }
    }

    /// Writes a cell of an object: nothing where the object does not exist or has no such cell. It
    /// takes the time to find the object.
    #[inline(always)]
    pub fn write(&mut self, number: u64, offset: usize, value: u64)
        ensures objects { self.new.objects ≡ change_in number (with_cells offset (value ∷ [])) self.old.objects }
        ensures needs { self.new.needs ≡ self.old.needs }
        ensures same { self.new ≡ record self.old { objects = self.new.objects } }
        ensures pools { KeepsShown self.old self.new }
    {
        self.write_part(number, 0, offset, value);
    }

    /// Writes a cell of a part of an object, by the first cell of the part, as `write`.
    #[inline(always)]
    pub fn write_part(&mut self, number: u64, start: usize, offset: usize, value: u64)
        ensures objects { self.new.objects ≡ change_in number (with_cells (start + offset) (value ∷ [])) self.old.objects }
        ensures needs { self.new.needs ≡ self.old.needs }
        ensures same { self.new ≡ record self.old { objects = self.new.objects } }
        ensures pools { KeepsShown self.old self.new }
    {
        if !self.declared.write(number, start, offset, value) {
            let _ = self.allocated.write(number, start, offset, value);
        }
    }

    /// Appends so many cells of an object, from one on, to those that are saved, for which there is
    /// room: 0 for one that the object does not have, and nothing where it does not exist. It
    /// answers whether the object exists. It takes the time to find the object, and time in the
    /// number of cells.
    pub fn save(&self, number: u64, start: usize, count: usize, saved: &mut Vec<u64>) -> bool
        requires { vec_len saved.old + count ≤ vec_capacity saved.old }
        ensures exists { result ≡ is_some (object_in number self.now.objects) }
        ensures items { saved.new.items ≡ saved.old.items ++ option_map_or (cells_at start count) (object_in number self.now.objects) [] }
    {
        if self.declared.save(number, start, count, saved) {
            return true;
        }
        self.allocated.save(number, start, count, saved)
    }

    /// Writes these values into cells of an object, from one on: nothing where the object does not
    /// exist, and no value for which it has no cell. It takes the time to find the object, and time
    /// in the number of values.
    pub fn write_all(&mut self, number: u64, start: usize, values: &[u64])
        ensures objects { self.new.objects ≡ change_in number (with_cells start values.now) self.old.objects }
        ensures needs { self.new.needs ≡ self.old.needs }
        ensures same { self.new ≡ record self.old { objects = self.new.objects } }
        ensures pools { KeepsShown self.old self.new }
    {
        if !self.declared.write_all(number, start, values) {
            let _ = self.allocated.write_all(number, start, values);
        }
    }

    /// Writes so many cells of one object, from one on, into cells of another object, from one on:
    /// nothing where one of the two does not exist, and 0 for a cell that the first does not have.
    /// It takes the time to find both objects, for each cell again where one of them is allocated,
    /// and time in the number of cells.
    pub fn copy(&mut self, from: u64, start: usize, to: u64, target: usize, count: usize)
        requires { from ≢ to }
        ensures objects { self.new.objects ≡ copied start to target count (object_in from self.old.objects) self.old.objects }
        ensures needs { self.new.needs ≡ self.old.needs }
        ensures same { self.new ≡ record self.old { objects = self.new.objects } }
        ensures pools { KeepsShown self.old self.new }
    {
        if !self.declared.copy(from, start, to, target, count) {
            self.copy_each(from, start, to, target, count);
        }
    }

    fn copy_each(&mut self, from: u64, start: usize, to: u64, target: usize, count: usize)
        requires { from ≢ to }
        ensures objects { self.new.objects ≡ copied start to target count (object_in from self.old.objects) self.old.objects }
        ensures needs { self.new.needs ≡ self.old.needs }
        ensures same { self.new ≡ record self.old { objects = self.new.objects } }
        ensures pools { KeepsShown self.old self.new }
    {
        for at in 0..count {
            let Some(value) = self.read_part(from, start, at) else {
                return;
            };
            self.write_part(to, target, at, value);
        }
    }

    /// Begins the finalization of an object, where it exists (RM 7.6.1). It takes the time to find
    /// the object.
    #[inline(always)]
    pub fn begin_finalization(&mut self, number: u64)
        ensures objects { self.new.objects ≡ change_in number with_begun self.old.objects }
        ensures needs { self.new.needs ≡ self.old.needs }
        ensures same { self.new ≡ record self.old { objects = self.new.objects } }
        ensures pools { KeepsShown self.old self.new }
    {
        self.step(number, Step::Begin);
    }

    /// Ends the finalization of an object, where it exists and the finalization has begun (RM
    /// 7.6.1). It takes the time to find the object.
    pub fn end_finalization(&mut self, number: u64)
        ensures objects { self.new.objects ≡ change_in number with_finalized self.old.objects }
        ensures needs { self.new.needs ≡ self.old.needs }
        ensures same { self.new ≡ record self.old { objects = self.new.objects } }
        ensures pools { KeepsShown self.old self.new }
    {
        self.step(number, Step::End);
    }

    /// Notes that an object has joined its collection, where it exists. It takes the time to find
    /// the object.
    pub fn join(&mut self, number: u64)
        ensures objects { self.new.objects ≡ change_first (λ o. nat_eq o.number number) with_joined self.old.objects }
        ensures needs { self.new.needs ≡ self.old.needs }
        ensures same { self.new ≡ record self.old { objects = self.new.objects } }
        ensures pools { KeepsShown self.old self.new }
    {
        self.rises();
        self.step(number, Step::Join);
    }

    #[inline(always)]
    fn step(&mut self, number: u64, step: Step)
        ensures objects { self.new.objects ≡ change_in number (with_step step) self.old.objects }
        ensures needs { self.new.needs ≡ self.old.needs }
        ensures same { self.new ≡ record self.old { objects = self.new.objects } }
        ensures pools { KeepsShown self.old self.new }
    {
        if !self.declared.step(number, step) {
            let _ = self.allocated.step(number, step);
        }
    }

    /// Forgets an allocated object, where it exists (RM 13.11.2): no declared object has this
    /// number. It takes time in the logarithm of the number of objects in groups where its type
    /// needs finalization, and in the number of its cells where the allocator does.
    pub fn forget(&mut self, number: u64)
        requires { IfSome (object_in number self.old.objects) (λ o. IsAllocated o.origin) }
        ensures objects { self.new.objects ≡ keep (λ o. not (nat_eq o.number number)) self.old.objects }
        ensures needs { self.new.needs ≡ self.old.needs }
        ensures same { self.new ≡ record self.old { objects = self.new.objects; blocks = self.new.blocks } }
        ensures pools { KeepsShown self.old self.new }
    {
        self.declared.are_declared();
        self.allocated.forget(number);
    }

    /// Answers the next group up to a collection, from a start on, that has an object whose
    /// finalization has not begun, and how many of its objects are still to be finalized (RM
    /// 7.6.1). An object whose record type needs no finalization is in no group. It takes time in
    /// the logarithm of the number of objects in groups.
    pub fn next_group(&self, start: Start, last: u64) -> Option<Waiting>
        ensures next { IsNextGroup self.now.needs start last result self.now.objects }
        ensures few { length (keep (λ o. is_allocated o.origin) self.now.objects) < 2 ^ 63 }
    {
        self.declared.are_declared();
        self.allocated.next_group(start, last)
    }

    /// Answers the number of the first object of a group that is still to be finalized. It takes
    /// time in the logarithm of the number of allocated objects, once more for each object of the
    /// group before it that has not joined its collection.
    pub fn first_waiting(&self, group: Group) -> Option<u64>
        ensures { IsLeast (λ n. passes (is_waiting self.now.needs group) n self.now.objects ≡ true) result }
    {
        self.declared.are_declared();
        self.allocated.first_waiting(group)
    }

    /// Answers the number of the last object of a group that is still to be finalized, in the same
    /// time.
    pub fn last_waiting(&self, group: Group) -> Option<u64>
        ensures { IsGreatest (λ n. passes (is_waiting self.now.needs group) n self.now.objects ≡ true) result }
    {
        self.declared.are_declared();
        self.allocated.last_waiting(group)
    }

    /// Forgets the objects of a master and those of its collections, these, and drops the pools among
    /// them (RM 7.6.1, 13.11): no declared object has a greater master. It takes the time to
    /// forget the objects that go, and time in the number of the collections, and, where a pool was
    /// ever opened, one look-up more for each declared object that goes.
    #[inline(always)]
    pub fn close_master(&mut self, master: u64, sets: &[u64])
        requires { AreUpTo master self.old.objects }
        ensures objects { self.new.objects ≡ keep (λ o. not (ends_with_master master sets.now o.origin)) self.old.objects }
        ensures needs { self.new.needs ≡ self.old.needs }
        ensures pools { (next : ℕ) (x : W.Pools) → ShowsPools next x self.old → ShowsPools next (keep_pools (λ n. exists n self.new.objects) x) self.new }
    {
        self.allocated.close_sets(sets);
        drop_pools(&mut self.allocated, &self.declared, master);
        self.declared.close_master(master);
    }

    /// Allocates an object for a collection in a block of an open pool whose object exists, with so
    /// many cells, all of them 0 (RM 13.11): its number is greater than all others. A block is out under
    /// the address, holds no object, and is not smaller than the size: it answers whether that is so,
    /// and nothing changes where it is not. It takes the time of `allocate`.
    ///
    /// # Errors
    ///
    /// `AllocError` where the allocator refuses the memory. Nothing changes then.
    pub fn allocate_in_block(
        &mut self,
        number: u64,
        ty: Ty,
        collection: u64,
        cells: usize,
        spot: Spot,
        size: u64,
    ) -> Result<Placing, AllocError>
        requires below { AreBelow number self.old.objects }
        requires open { IsOpen spot.pool (storage_of self.old) }
        requires exists { is_some (object_in spot.pool self.old.objects) ≡ true }
        requires size { 8 * cells ≤ size }
        ensures answer { IfOk result (λ r. (next : ℕ) (x : W.Pools) → ShowsPools next x self.old → r ≡ placing (is_fit_at spot.pool spot.address size self.old.objects x)) }
        ensures objects { IfOk result (λ r. OnPlaced r (self.new.objects ≡ self.old.objects ++ new_object number ty (replicate cells 0) (W.Allocated collection (W.InBlock spot.pool spot.address)) ∷ [])) }
        ensures pools { IfOk result (λ r. OnPlaced r ((x : W.Pools) → ShowsPools number x self.old → ShowsPools (number + 1) (hold_block spot.pool spot.address number x) self.new)) }
        ensures needs { self.new.needs ≡ self.old.needs }
        ensures refused { IfOk result (λ r. OnRefused r (self.new ≡ self.old)) }
        ensures err { OnErr result (self.new ≡ self.old) }
    {
        self.allocated
            .allocate_in_block(number, ty, collection, cells, spot, size)
    }

    /// Allocates an object for a collection in a free block of an open pool whose object exists, with so
    /// many cells, all of them 0 (RM 13.11): its number is greater than all others, and the block goes
    /// out under an address that no block had before. It answers the address: None exactly where no
    /// block is free or the size is larger than a block, and then nothing changes. It takes the time of
    /// `allocate_in_block`.
    ///
    /// # Errors
    ///
    /// `AllocError` where the allocator refuses the memory. Nothing changes then.
    pub fn allocate_in_pool(
        &mut self,
        number: u64,
        ty: Ty,
        collection: u64,
        cells: usize,
        pool: u64,
        size: u64,
    ) -> Result<Option<u64>, AllocError>
        requires below { AreBelow number self.old.objects }
        requires open { IsOpen pool (storage_of self.old) }
        requires exists { is_some (object_in pool self.old.objects) ≡ true }
        requires addresses { self.old.given < 2 ^ 64 - 1 }
        requires size { 8 * cells ≤ size }
        ensures answer { IfOk result (λ r. (next : ℕ) (x : W.Pools) → ShowsPools next x self.old → r ≡ taken_at pool size x) }
        ensures objects { IfOk result (λ r. IfSome r (λ a. self.new.objects ≡ self.old.objects ++ new_object number ty (replicate cells 0) (W.Allocated collection (W.InBlock pool a)) ∷ [])) }
        ensures pools { IfOk result (λ r. IfSome r (λ a. (x : W.Pools) → ShowsPools number x self.old → ShowsPools (number + 1) (hold_block pool a number (with_taken pool size x)) self.new)) }
        ensures needs { self.new.needs ≡ self.old.needs }
        ensures exhausted { IfOk result (λ r. IfNone r (self.new ≡ self.old)) }
        ensures err { OnErr result (self.new ≡ self.old) }
    {
        self.allocated
            .allocate_in_pool(number, ty, collection, cells, pool, size)
    }

    /// Opens a pool under the number of its object, a declared one, with these discriminants (RM
    /// 13.11). All of its blocks are free.
    ///
    /// # Errors
    ///
    /// `AllocError` where the allocator refuses the memory. Nothing changes then.
    pub fn open_pool(&mut self, number: u64, size: PoolSize) -> Result<(), AllocError>
        requires size { IsBlockPoolSize size.block_size size.block_count }
        requires owner { IsOwner number self.old.objects }
        requires new { get self.old.sizes number ≡ None }
        ensures objects { self.new.objects ≡ self.old.objects }
        ensures needs { self.new.needs ≡ self.old.needs }
        ensures pools { OnOk result ((next : ℕ) (x : W.Pools) → number < next → ShowsPools next x self.old → ShowsPools next (push_block_pool number size.block_size size.block_count x) self.new) }
        ensures err { OnErr result (self.new ≡ self.old) }
    {
        self.allocated.open_pool(number, size)
    }

    /// Declares an object of a record type in a master, as `declare`, and opens a pool under its number,
    /// with these discriminants (RM 13.11). All of its blocks are free.
    ///
    /// # Errors
    ///
    /// `AllocError` where the allocator refuses the memory. Nothing changes then.
    pub fn declare_pool(
        &mut self,
        number: u64,
        record_type: usize,
        master: u64,
        cells: usize,
        size: PoolSize,
    ) -> Result<(), AllocError>
        requires numbers { AreBelow number self.old.objects }
        requires masters { AreUpTo master self.old.objects }
        requires size { IsBlockPoolSize size.block_size size.block_count }
        requires new { get self.old.sizes number ≡ None }
        ensures ok { OnOk result (self.new.objects ≡ self.old.objects ++ new_object number (Record record_type) (replicate cells 0) (W.Declared master) ∷ []) }
        ensures needs { self.new.needs ≡ self.old.needs }
        ensures pools { OnOk result ((x : W.Pools) → ShowsPools number x self.old → ShowsPools (number + 1) (push_block_pool number size.block_size size.block_count x) self.new) }
        ensures err { OnErr result (self.new ≡ self.old) }
    {
        let allocated = &mut self.allocated;
        self.declared
            .declare_pool(number, record_type, master, cells, size, allocated)
    }

    /// Answers the discriminants of a pool, and whether it is open.
    #[inline(always)]
    pub fn pool(&self, number: u64) -> Option<Pool>
        ensures known { IsPoolOf number result (storage_of self.now) }
        ensures shown { (next : ℕ) (x : W.Pools) → ShowsPools next x self.now → exists number self.now.objects ≡ true → result ≡ option_map pool_of (block_pool_at number x) }
    {
        self.allocated.pool(number)
    }

    /// Answers whether another address can be given.
    pub fn has_addresses(&self) -> bool
        ensures { IsTrue result ↔ self.now.given < 2 ^ 64 - 1 }
    {
        self.allocated.has_addresses()
    }

    /// Takes a free block out of an open pool whose object exists, for a request of so many storage
    /// units (RM 13.11), under an address that no block had before. It answers the address: None
    /// exactly where no block is free or the request is larger than a block, and then nothing changes.
    ///
    /// # Errors
    ///
    /// `AllocError` where the allocator refuses the memory. Nothing changes then.
    pub fn take_block(&mut self, pool: u64, size: u64) -> Result<Option<u64>, AllocError>
        requires open { IsOpen pool (storage_of self.old) }
        requires exists { is_some (object_in pool self.old.objects) ≡ true }
        requires addresses { self.old.given < 2 ^ 64 - 1 }
        ensures answer { IfOk result (λ r. (next : ℕ) (x : W.Pools) → ShowsPools next x self.old → r ≡ taken_at pool size x) }
        ensures objects { self.new.objects ≡ self.old.objects }
        ensures needs { self.new.needs ≡ self.old.needs }
        ensures pools { OnOk result ((next : ℕ) (x : W.Pools) → ShowsPools next x self.old → ShowsPools next (with_taken pool size x) self.new) }
        ensures err { OnErr result (self.new ≡ self.old) }
    {
        self.allocated.take_block(pool, size)
    }

    /// Gives a block back to an open pool whose object exists (RM 13.11): where it is out under the
    /// address and holds no object. It answers whether that is so; nothing changes where it is not.
    #[inline(always)]
    pub fn give_block(&mut self, pool: u64, address: u64) -> BlockReturn
        requires open { IsOpen pool (storage_of self.old) }
        requires exists { is_some (object_in pool self.old.objects) ≡ true }
        ensures answer { (next : ℕ) (x : W.Pools) → ShowsPools next x self.old → result ≡ returned (is_vacant_at pool address self.old.objects x) }
        ensures objects { self.new.objects ≡ self.old.objects }
        ensures needs { self.new.needs ≡ self.old.needs }
        ensures pools { (next : ℕ) (x : W.Pools) → ShowsPools next x self.old → ShowsPools next (with_returned pool address self.old.objects x) self.new }
    {
        self.allocated.give_block(pool, address)
    }

    /// Closes a pool, where it is open: the objects in its blocks are gone, and its addresses are out
    /// no more (RM 13.11). It takes the time to forget these objects, and time in the blocks that are
    /// out.
    pub fn close_pool(&mut self, number: u64)
        ensures objects { self.new.objects ≡ keep (λ o. not (lies_in_pool number o.origin)) self.old.objects }
        ensures needs { self.new.needs ≡ self.old.needs }
        ensures pools { (next : ℕ) (x : W.Pools) → ShowsPools next x self.old → ShowsPools next (shut number x) self.new }
    {
        self.allocated.close_pool(number);
    }

    /// Frees all memory.
    pub fn close(self) {
        let Objects {
            declared: _declared,
            allocated,
        } = self;
        allocated.close();
    }

    /// Says that the numbers rise.
    fn rises(&self)
        ensures { Rise 0 self.now.objects }
    {
        let _ = &self.declared;
    }
}

/// Drops the pools among the declared objects of a master, which go: no object lies in them. Where no
/// pool was ever opened, it takes constant time.
#[inline(always)]
fn drop_pools(allocated: &mut Allocations, declared: &Declarations, master: u64)
    requires { AreUpTo master declared.now }
    ensures objects { allocated.new.objects ≡ allocated.old.objects }
    ensures needs { allocated.new.needs ≡ allocated.old.needs }
    ensures pools { (next : ℕ) (x : W.Pools) → ArePools next x (storage_of allocated.old) → DropsOnly (λ n. passes (λ o. ends_with_master master [] o.origin) n declared.now) next x (storage_of allocated.new) }
{
    if allocated.has_pools() {
        let going = declared.going(master);
        allocated.drop_pools(going);
    }
}
