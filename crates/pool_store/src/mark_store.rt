ghost use Rattle.std.specs.Prelude.{◌≡◌, ℕ, ◌+◌, ◌-◌, ◌*◌, ◌/◌, ◌^◌, ◌<◌, ◌≤◌, length, None, Some, Ok, Err, true, false, if◌then◌else◌, slice_index_or, option_and_then, OnOk, OnErr, IfOk, IfErr, IfSome, IsTrue, is_some, ◌↔◌};
ghost use Rattle.std.specs.Option.{option_map_or};
ghost use Rattle.std.specs.FinMap.{get};
ghost use Rattle.pool_area.specs.Subpools.{IsMarkSize};
ghost use Rattle.pool_store.specs.Marks.{has_subpool, is_belonging, standing_in, default_of};
ghost use Rattle.pool_store.specs.Store.{no_store, without_object, vacated, spot_of, with_word, copied, words_of, IsMarkPool, IsWholeWords, with_mark_pool, pool_with, belongs_to, is_last_of, is_full, is_overfull_in, refusal_in, hold_in, with_new_subpool, is_attached, detached, is_last, released_subpool, standing_of, without_pool};

use crate::block_store::Address;
use crate::cell::Cell;
use crate::fault::StoreFault;
use crate::forgetting::{forget_number, forget_pool, forget_subpool};
use number_map::NumberMap;
use pool_area::{MarkArea, Standing};
use std::alloc::{Allocator, Global};
use std::marker::Model;

/// The objects in subpools, by their numbers, and the pools with marks. It has to be closed by `close`.
///
/// Contracts see it as a store without a standard pool and without pools of blocks.
pub struct MarkStore<A: Allocator = Global> {
    alloc: A,
    pools: NumberMap<MarkArea<A>, A>,
    // The numbers of the pools, in the order in which they were opened.
    opened: Vec<u64, A>,
    cells: NumberMap<Cell, A>,
    // How many numbers were given to subpools. They count from 1, since 0 names none.
    numbered: u64,
}

impl<A: Allocator> Model for MarkStore<A> {
    ghost use Rattle.std.specs.Prelude.{◌+◌};
    ghost use Rattle.std.specs.FinMap.{empty};
    ghost use Rattle.number_map.specs.Table.{mapped};
    ghost use Rattle.pool_store.specs.Cells.{stored_at, mark_of, Places};
    ghost use Rattle.pool_store.specs.Store.{Store, store_code};

    ghost Value = { Store };

    ghost coded = { store_code };

    ghost view = { λ s. record {
      objects = mapped (stored_at s.pools.values) s.cells.values;
      blocks = empty;
      given = 0;
      marks = mapped mark_of s.pools.values;
      opened = s.opened.items;
      next_subpool = s.numbered + 1;
    } };

    ghost invariant = { λ s. Places s.cells.values s.pools.values (s.numbered + 1) };
}

impl<A: Allocator + Copy> MarkStore<A> {
    /// Makes a store with no object and no pool. Takes no memory.
    pub fn new(alloc: A) -> MarkStore<A>
        ensures { result ≡ no_store }
    {
        MarkStore {
            alloc,
            pools: NumberMap::new(alloc),
            opened: Vec::new(alloc),
            cells: NumberMap::new(alloc),
            numbered: 0,
        }
    }

    /// Opens a pool of `units` storage units, and returns the number of its first subpool.
    ///
    /// # Errors
    ///
    /// Returns `Memory` if the allocator refuses the memory. Nothing changes then.
    pub fn open(&mut self, pool: u64, units: u64) -> Result<u64, StoreFault>
        requires size { IsMarkSize units }
        requires new { get self.old.marks pool ≡ None }
        requires numbers { self.old.next_subpool < 2 ^ 64 }
        ensures positive { IfOk result (λ n. 0 < n) }
        ensures ok { IfOk result (λ n. (n ≡ self.old.next_subpool) × (self.new ≡ with_mark_pool pool units self.old)) }
        ensures err { OnErr result (self.new ≡ self.old) }
        ensures fault { IfErr result (λ fault. fault ≡ StoreFault.Memory) }
    {
        self.pools.reserve()?;
        self.opened.reserve(1)?;
        let number = self.numbered + 1;
        let area = MarkArea::new(self.alloc, units, number)?;
        self.pools.put_new(pool, area);
        self.opened.push_reserved(pool);
        self.numbered = number;
        Ok(number)
    }

    /// Adds a subpool to a pool, as its last, and returns its number. Takes no memory.
    ///
    /// # Errors
    ///
    /// Returns `TooManyMarks` if ten subpools stand in the pool. Nothing changes then.
    pub fn create(&mut self, pool: u64) -> Result<u64, StoreFault>
        requires open { IsMarkPool pool self.old }
        requires numbers { self.old.next_subpool < 2 ^ 64 }
        ensures positive { IfOk result (λ n. 0 < n) }
        ensures ok { IfOk result (λ n. (is_full pool self.old ≡ false) × (n ≡ self.old.next_subpool) × (self.new ≡ with_new_subpool pool self.old)) }
        ensures err { OnErr result ((is_full pool self.old ≡ true) × (self.new ≡ self.old)) }
        ensures fault { IfErr result (λ fault. fault ≡ StoreFault.TooManyMarks) }
    {
        if self.is_full(pool) {
            return Err(StoreFault::TooManyMarks);
        }
        let number = self.numbered + 1;
        let Some(area) = self.pools.get_mut(pool) else {
            unreachable!();
        };
        area.create(self.alloc, number);
        self.numbered = number;
        Ok(number)
    }

    /// Adds an object in a subpool: as many words as `units` storage units hold, all of them 0.
    ///
    /// # Errors
    ///
    /// Returns the fault of `refusal`, else `Memory` if the allocator refuses the memory. Nothing changes then.
    pub fn allocate(
        &mut self,
        subpool: u64,
        pool: u64,
        object: u64,
        units: u64,
    ) -> Result<(), StoreFault>
        requires new { get self.old.objects object ≡ None }
        requires units { IsWholeWords units }
        ensures ok { OnOk result ((refusal_in subpool pool units self.old ≡ None) × (self.new ≡ hold_in subpool pool object (units / 8) self.old)) }
        ensures err { OnErr result (self.new ≡ self.old) }
        ensures fault { IfErr result (λ fault. fault ≡ option_map_or (λ x. x) (refusal_in subpool pool units self.old) StoreFault.Memory) }
    {
        if let Some(fault) = self.refusal(subpool, pool, units) {
            return Err(fault);
        }
        self.cells.reserve()?;
        let Some(area) = self.pools.get_mut(pool) else {
            unreachable!();
        };
        let index = area.allocate(subpool, object, (units / 8) as usize)?;
        self.cells.put(
            object,
            Cell {
                pool,
                subpool,
                index,
            },
        );
        Ok(())
    }
}

impl<A: Allocator> MarkStore<A> {
    /// Returns the first reason to refuse a request in a subpool of a pool: `Released`, `Foreign`, `NotTop`,
    /// `Exhausted`.
    fn refusal(&self, subpool: u64, pool: u64, units: u64) -> Option<StoreFault>
        ensures { result ≡ refusal_in subpool pool units self.now }
    {
        if self.pool_with(subpool).is_none() {
            return Some(StoreFault::Released);
        }
        if !self.belongs(pool, subpool) {
            return Some(StoreFault::Foreign);
        }
        if !self.is_last(pool, subpool) {
            return Some(StoreFault::NotTop);
        }
        if self.is_overfull(pool, units) {
            return Some(StoreFault::Exhausted);
        }
        None
    }

    /// Returns the pool in which a subpool stands, or `None` if it stands in none.
    fn pool_with(&self, subpool: u64) -> Option<u64>
        ensures { result ≡ pool_with subpool self.now }
    {
        for k in 0..self.opened.len() {
            let pool = self.opened[k];
            if self.has_subpool(pool, subpool) {
                return Some(pool);
            }
        }
        None
    }

    fn has_subpool(&self, pool: u64, subpool: u64) -> bool
        ensures { result ≡ option_map_or (has_subpool subpool) (get self.now.marks pool) false }
    {
        self.standing_in(pool, subpool).is_some()
    }

    fn standing_in(&self, pool: u64, subpool: u64) -> Option<Standing>
        ensures { result ≡ option_and_then (standing_in subpool) (get self.now.marks pool) }
    {
        match self.pools.get(pool) {
            Some(area) => area.standing(subpool),
            None => None,
        }
    }

    /// Returns whether a subpool belongs to this pool (RM 13.11.5).
    fn belongs(&self, pool: u64, subpool: u64) -> bool
        ensures { result ≡ belongs_to subpool pool self.now }
    {
        match self.pools.get(pool) {
            Some(area) => is_attached(area.standing(subpool)),
            None => false,
        }
    }

    fn is_last(&self, pool: u64, subpool: u64) -> bool
        ensures { result ≡ is_last_of subpool pool self.now }
    {
        match self.pools.get(pool) {
            Some(area) => area.is_last(subpool),
            None => false,
        }
    }

    fn is_overfull(&self, pool: u64, units: u64) -> bool
        ensures { result ≡ is_overfull_in pool units self.now }
    {
        match self.pools.get(pool) {
            Some(area) => area.is_overfull(units),
            None => false,
        }
    }

    fn is_full(&self, pool: u64) -> bool
        ensures { result ≡ is_full pool self.now }
    {
        match self.pools.get(pool) {
            Some(area) => area.len() >= 10,
            None => false,
        }
    }

    /// Returns the number of the last subpool of a pool.
    pub fn default_subpool(&self, pool: u64) -> u64
        requires { IsMarkPool pool self.now }
        ensures { option_and_then default_of (get self.now.marks pool) ≡ Some result }
    {
        let Some(area) = self.pools.get(pool) else {
            unreachable!();
        };
        let Some(number) = area.last_number() else {
            unreachable!();
        };
        number
    }

    /// Detaches a subpool from its pool: it belongs to none after the call.
    ///
    /// # Errors
    ///
    /// Returns `Released` if it belongs to none already. Nothing changes then.
    pub fn detach(&mut self, subpool: u64) -> Result<(), StoreFault>
        ensures result { result ≡ (if is_attached subpool self.old then Ok tt else Err StoreFault.Released) }
        ensures store { self.new ≡ (if is_attached subpool self.old then detached subpool self.old else self.old) }
    {
        let Some(pool) = self.pool_with(subpool) else {
            return Err(StoreFault::Released);
        };
        if !self.belongs(pool, subpool) {
            return Err(StoreFault::Released);
        }
        let Some(area) = self.pools.get_mut(pool) else {
            unreachable!();
        };
        area.set_standing(subpool, Standing::Detached);
        Ok(())
    }

    /// Returns whether an object of this number is held.
    pub fn is_held(&self, object: u64) -> bool
        ensures { result ≡ is_some (get self.now.objects object) }
    {
        self.cells.contains(object)
    }

    /// Removes an object. It leaves no block: its words stay used.
    ///
    /// # Errors
    ///
    /// Returns `Gone` if no such object is held.
    pub fn vacate(&mut self, object: u64) -> Result<Option<Address>, StoreFault>
        ensures result { result ≡ vacated object self.old }
        ensures spot { spot_of object self.old ≡ None }
        ensures store { self.new ≡ without_object object self.old }
    {
        let Some(cell) = self.cells.remove(object) else {
            return Err(StoreFault::Gone);
        };
        let Some(area) = self.pools.get_mut(cell.pool) else {
            unreachable!();
        };
        area.vacate(cell.subpool, cell.index);
        Ok(None)
    }

    /// Counts the words of an object, none if it is gone.
    pub fn len_of(&self, object: u64) -> usize
        ensures { result ≡ length (words_of object self.now) }
    {
        let Some(cell) = self.cells.get(object) else {
            return 0;
        };
        match self.pools.get(cell.pool) {
            Some(area) => area.block_len(cell.subpool, cell.index),
            None => 0,
        }
    }

    /// Returns a word of an object.
    pub fn word(&self, object: u64, place: usize) -> u64
        requires { place < length (words_of object self.now) }
        ensures { result ≡ slice_index_or (words_of object self.now) place 0 }
    {
        let Some(cell) = self.cells.get(object) else {
            return 0;
        };
        match self.pools.get(cell.pool) {
            Some(area) => area.word(cell.subpool, cell.index, place),
            None => 0,
        }
    }

    /// Writes a word of an object.
    pub fn set_word(&mut self, object: u64, place: usize, value: u64)
        requires { place < length (words_of object self.old) }
        ensures { self.new ≡ with_word object place value self.old }
    {
        let Some(cell) = self.cells.get(object) else {
            unreachable!();
        };
        let Some(area) = self.pools.get_mut(cell.pool) else {
            unreachable!();
        };
        area.set_word(cell.subpool, cell.index, place, value);
    }

    /// Copies `count` words of an object from the place `word` on over those from `target` on, as they were before the
    /// call.
    pub fn copy_within(&mut self, object: u64, word: usize, target: usize, count: usize)
        requires some { 0 < count }
        requires from { word + count ≤ length (words_of object self.old) }
        requires to { target + count ≤ length (words_of object self.old) }
        ensures { self.new ≡ copied object word object target count self.old }
    {
        let Some(cell) = self.cells.get(object) else {
            unreachable!();
        };
        let Some(area) = self.pools.get_mut(cell.pool) else {
            unreachable!();
        };
        area.copy_within(cell.subpool, cell.index, word, target, count);
    }

    /// Returns whether the pool is open.
    pub fn is_open(&self, pool: u64) -> bool
        ensures { result ≡ is_some (get self.now.marks pool) }
    {
        self.pools.contains(pool)
    }

    /// Closes a pool and frees it, if it is open: the objects in it are gone, and none of its subpools stands.
    pub fn close_pool(&mut self, pool: u64)
        ensures { self.new ≡ without_pool pool self.old }
    {
        forget_number(&mut self.opened, pool);
        let Some(area) = self.pools.remove(pool) else {
            return;
        };
        forget_pool(&mut self.cells, pool, &area);
        area.close();
    }

    /// Releases a subpool (RM 13.11.5), and returns whether it was the last of its pool. Its objects are gone, and it
    /// is dead. If it was the last, it is dropped, with the dead ones before it and with their words; the first one
    /// comes back under a new number.
    pub fn release(&mut self, subpool: u64) -> bool
        requires { self.old.next_subpool < 2 ^ 64 }
        ensures last { result ≡ is_last subpool self.old }
        ensures store { self.new ≡ released_subpool subpool self.old }
    {
        let Some(pool) = self.pool_with(subpool) else {
            return false;
        };
        let number = self.numbered + 1;
        let Some(area) = self.pools.get_mut(pool) else {
            unreachable!();
        };
        forget_subpool(&mut self.cells, pool, area, subpool);
        let last = area.release(subpool, number);
        if area.given() == number {
            self.numbered = number;
        }
        last
    }

    /// Returns whether there is a number left for another subpool.
    pub fn has_subpool_numbers(&self) -> bool
        ensures { IsTrue result ↔ self.now.next_subpool < 2 ^ 64 }
    {
        self.numbered < u64::MAX
    }

    /// Returns whether a subpool belongs to its pool, or `None` if it stands in none.
    pub fn standing(&self, subpool: u64) -> Option<Standing>
        ensures { result ≡ standing_of subpool self.now }
    {
        match self.pool_with(subpool) {
            Some(pool) => self.standing_in(pool, subpool),
            None => None,
        }
    }

    /// Closes the store and frees all its memory.
    pub fn close(self) {
        let MarkStore {
            alloc: _alloc,
            pools,
            opened: _opened,
            cells: _cells,
            numbered: _,
        } = self;
        let mut pools = pools;
        while let Some((_, area)) = pools.pop() {
            area.close();
        }
        pools.destroy_empty();
    }
}

fn is_attached(standing: Option<Standing>) -> bool
    ensures { result ≡ option_map_or is_belonging standing false }
{
    match standing {
        Some(Standing::Attached) => true,
        _ => false,
    }
}
