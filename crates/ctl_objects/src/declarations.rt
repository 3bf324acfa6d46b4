//! The objects that are declared: they come and go in the order of their masters, and their cells
//! lie one object behind another (RM 3.8).

ghost use Rattle.std.specs.Prelude.{◌≡◌, ◌≢◌, true, ◌+◌, ◌<◌, ◌≤◌, ◌++◌, ◌∷◌, [], ℕ, List, None, drop, take, IfSome, IsNone, OnOk, OnErr, Some, replicate, slice_get, is_some, not, length, vec_capacity, vec_len};
ghost use Rattle.std.specs.Bool.{OnFalse, OnTrue};
ghost use Rattle.std.specs.Option.{option_map, option_map_or};
ghost use Rattle.std.specs.FinMap.{get};
ghost use Rattle.ctl_program.specs.declared.types.Ty.TheVariants.{Record};
ghost use Rattle.ctl_meaning.specs.World as W;
ghost use Rattle.ctl_meaning.specs.Lists.{keep};
ghost use Rattle.ctl_meaning.specs.Names.{scalar_of};
ghost use Rattle.ctl_meaning.specs.Objects.{cells_at, change_in, ends_with_master, object_in, with_cells};
ghost use Rattle.ctl_meaning.specs.Pools.{push_block_pool};
ghost use Rattle.ctl_meaning.specs.Changes.{new_object};
ghost use Rattle.ctl_objects.specs.declared.declarations.Declaration.{Declaration};
ghost use Rattle.ctl_objects.specs.Declarations.{AreOf, AreOlder, AreWithin, Lacks, MastersRise, NumbersRise, first_cell, has_number, stepped};
ghost use Rattle.ctl_storage.specs.Stages.{with_step};
ghost use Rattle.ctl_objects.specs.Copies.{copied};
ghost use Rattle.ctl_objects.specs.Existing.{IsKnown};
ghost use Rattle.ctl_groups.specs.Members.{passes};
ghost use Rattle.ctl_objects.specs.Order.{AreUpTo, IsDeclared};
ghost use Rattle.ctl_objects.specs.Stock.{storage_of};
ghost use Rattle.ctl_storage.specs.Calls.{IsBlockPoolSize};
ghost use Rattle.ctl_storage.specs.Order.{AreBelow};
ghost use Rattle.ctl_storage.specs.Storage.{ArePools};

use crate::allocations::Allocations;
use crate::cells::{add_zeros, copy_cells, read_cell, save_cells, write_cell, write_cells};
use crate::existing::{Existing, Origin};
use ctl_program::types::Ty;
use ctl_storage::{PoolSize, Stage, Step};
use room::reserve;
use std::alloc::{AllocError, Global};
use std::marker::Model;

/// A declared object of a record type. Its cells are so many among those of all declared objects,
/// from `first` on.
#[derive(Clone, Copy)]
pub struct Declaration {
    pub number: u64,
    pub record: usize,
    pub master: u64,
    pub first: usize,
    pub cells: usize,
    pub stage: Stage,
}

/// The declared objects, which contracts see as a list of the meaning's objects.
#[derive(Drop)]
pub struct Declarations {
    objects: Vec<Declaration>,
    cells: Vec<u64>,
}

impl Model for Declarations {
    ghost use Rattle.std.specs.Prelude.{List, length, map};
    ghost use Rattle.ctl_meaning.specs.World.{Object};
    ghost use Rattle.ctl_objects.specs.Declarations.{object_of, AreKept};

    ghost Value = { List Object };

    ghost view = { λ d. map (object_of d.cells.items) d.objects.items };

    ghost invariant = { λ d. AreKept d.objects.items (length d.cells.items) };
}

impl Declarations {
    /// Makes no object. It takes no memory.
    pub fn new(alloc: Global) -> Declarations
        ensures { result ≡ [] }
    {
        Declarations {
            objects: Vec::new(alloc),
            cells: Vec::new(alloc),
        }
    }

    /// Declares an object of a record type in a master, with so many cells, all of them 0 (RM
    /// 3.3.1).
    ///
    /// # Errors
    ///
    /// `AllocError` where the allocator refuses the memory. Nothing changes then.
    pub fn declare(
        &mut self,
        number: u64,
        record: usize,
        master: u64,
        cells: usize,
    ) -> Result<(), AllocError>
        requires numbers { AreBelow number self.old }
        requires masters { AreUpTo master self.old }
        ensures ok { OnOk result (self.new ≡ self.old ++ new_object number (Record «record») (replicate cells 0) (W.Declared master) ∷ []) }
        ensures err { OnErr result (self.new ≡ self.old) }
    {
        reserve(&mut self.objects, 1)?;
        reserve(&mut self.cells, cells)?;
        let first = self.cells.len();
        self.objects.push_reserved(Declaration {
            number,
            record,
            master,
            first,
            cells,
            stage: Stage::start(),
        });
        add_zeros(&mut self.cells, cells);
        Ok(())
    }

    /// Declares an object as `declare`, and opens a pool under its number among the allocated objects,
    /// with these discriminants (RM 13.11).
    ///
    /// # Errors
    ///
    /// `AllocError` where the allocator refuses the memory. Nothing changes then.
    pub fn declare_pool(
        &mut self,
        number: u64,
        record: usize,
        master: u64,
        cells: usize,
        size: PoolSize,
        allocated: &mut Allocations,
    ) -> Result<(), AllocError>
        requires numbers { AreBelow number self.old }
        requires masters { AreUpTo master self.old }
        requires size { IsBlockPoolSize size.block_size size.block_count }
        requires new { get allocated.old.sizes number ≡ None }
        ensures ok { OnOk result (self.new ≡ self.old ++ new_object number (Record «record») (replicate cells 0) (W.Declared master) ∷ []) }
        ensures objects { allocated.new.objects ≡ allocated.old.objects }
        ensures needs { allocated.new.needs ≡ allocated.old.needs }
        ensures pools { OnOk result ((next : ℕ) (x : W.Pools) → number < next → ArePools next x (storage_of allocated.old) → ArePools next (push_block_pool number size.block_size size.block_count x) (storage_of allocated.new)) }
        ensures err { OnErr result ((self.new ≡ self.old) × (allocated.new ≡ allocated.old)) }
    {
        reserve(&mut self.objects, 1)?;
        reserve(&mut self.cells, cells)?;
        // After this nothing can be refused.
        allocated.open_pool(number, size)?;
        let first = self.cells.len();
        self.objects.push_reserved(Declaration {
            number,
            record,
            master,
            first,
            cells,
            stage: Stage::start(),
        });
        add_zeros(&mut self.cells, cells);
        Ok(())
    }

    /// Reads a cell of a part of an object, by the first cell of the part: 0 where the object has
    /// no such cell, None where it does not exist.
    #[inline(always)]
    pub fn read(&self, number: u64, start: usize, offset: usize) -> Option<u64>
        ensures { result ≡ option_map (λ o. scalar_of (cells_at (start + offset) 1 o)) (object_in number self.now) }
    {
        match find(self.objects.as_slice(), number) {
            Some(at) => Some(read_cell(self.cells.as_slice(), &self.objects[at], start, offset)),
            None => None,
        }
    }

    /// Writes a cell of a part of an object, by the first cell of the part: nothing where it has no
    /// such cell. It answers whether the object exists.
    #[inline(always)]
    pub fn write(&mut self, number: u64, start: usize, offset: usize, value: u64) -> bool
        ensures exists { result ≡ is_some (object_in number self.old) }
        ensures written { self.new ≡ change_in number (with_cells (start + offset) (value ∷ [])) self.old }
    {
        match find(self.objects.as_slice(), number) {
            Some(at) => {
                let object = self.objects[at];
                write_cell(self.cells.as_mut_slice(), &object, start, offset, value);
                true
            }
            None => false,
        }
    }

    /// Appends so many cells of an object, from one on, to those that are saved, for which there is
    /// room: 0 for one that the object does not have. It answers whether the object exists; nothing
    /// is appended where it does not.
    pub fn save(&self, number: u64, start: usize, count: usize, saved: &mut Vec<u64>) -> bool
        requires { vec_len saved.old + count ≤ vec_capacity saved.old }
        ensures exists { result ≡ is_some (object_in number self.now) }
        ensures items { saved.new.items ≡ saved.old.items ++ option_map_or (cells_at start count) (object_in number self.now) [] }
        ensures gone { OnFalse result (saved.new ≡ saved.old) }
    {
        match find(self.objects.as_slice(), number) {
            Some(at) => {
                let object = &self.objects[at];
                save_cells(saved, self.cells.as_slice(), object, start, count);
                true
            }
            None => false,
        }
    }

    /// Writes these values into cells of an object, from one on: none for which it has no cell. It
    /// answers whether the object exists.
    pub fn write_all(&mut self, number: u64, start: usize, values: &[u64]) -> bool
        ensures exists { result ≡ is_some (object_in number self.old) }
        ensures written { self.new ≡ change_in number (with_cells start values.now) self.old }
    {
        match find(self.objects.as_slice(), number) {
            Some(at) => {
                let object = self.objects[at];
                write_cells(self.cells.as_mut_slice(), &object, start, values);
                true
            }
            None => false,
        }
    }

    /// Writes so many cells of one object, from one on, into cells of another object, from one on.
    /// It answers whether both exist; nothing is written where one of them does not.
    pub fn copy(&mut self, from: u64, start: usize, to: u64, target: usize, count: usize) -> bool
        requires { from ≢ to }
        ensures first { OnTrue result (true ≡ is_some (object_in from self.old)) }
        ensures second { OnTrue result (true ≡ is_some (object_in to self.old)) }
        ensures copied { OnTrue result (self.new ≡ copied start to target count (object_in from self.old) self.old) }
        ensures kept { OnFalse result (self.new ≡ self.old) }
    {
        let Some(source) = find(self.objects.as_slice(), from) else {
            return false;
        };
        let Some(sink) = find(self.objects.as_slice(), to) else {
            return false;
        };
        let first = self.objects[source];
        let second = self.objects[sink];
        copy_cells(
            self.cells.as_mut_slice(),
            &first,
            start,
            &second,
            target,
            count,
        );
        true
    }

    /// Answers whether an object exists.
    #[inline(always)]
    pub fn contains(&self, number: u64) -> bool
        ensures { result ≡ is_some (object_in number self.now) }
    {
        match find(self.objects.as_slice(), number) {
            Some(_at) => true,
            None => false,
        }
    }

    /// Answers what is known of an object beside its cells.
    #[inline(always)]
    pub fn find(&self, number: u64) -> Option<Existing>
        ensures { IsKnown number result self.now }
    {
        match find(self.objects.as_slice(), number) {
            Some(at) => {
                let object = self.objects[at];
                Some(Existing {
                    ty: Ty::Record(object.record),
                    stage: object.stage,
                    origin: Origin::Declared(object.master),
                })
            }
            None => None,
        }
    }

    /// Takes a step of an object. It answers whether the object exists.
    #[inline(always)]
    pub fn step(&mut self, number: u64, step: Step) -> bool
        ensures exists { result ≡ is_some (object_in number self.old) }
        ensures stepped { self.new ≡ change_in number (with_step step) self.old }
    {
        match find(self.objects.as_slice(), number) {
            Some(at) => {
                let object = self.objects[at];
                self.objects[at] = object.stepped(step);
                true
            }
            None => false,
        }
    }

    /// Says that each object is declared.
    pub fn are_declared(&self)
        ensures { (n : ℕ) → IfSome (object_in n self.now) (λ o. IsDeclared o.origin) }
    {
        let _ = &self.objects;
    }

    /// Answers the objects of a master, which are the last ones: no object has a greater master. It
    /// takes time in their number.
    pub fn going(&self, master: u64) -> &[Declaration]
        requires { AreUpTo master self.now }
        ensures { (n : ℕ) → has_number n result.now ≡ passes (λ o. ends_with_master master [] o.origin) n self.now }
    {
        let objects = self.objects.as_slice();
        let count = count_before(objects, master);
        &objects[count..]
    }

    /// Forgets the objects of a master, which are the last ones: no object has a greater master (RM
    /// 7.6.1). It takes time in their number.
    #[inline(always)]
    pub fn close_master(&mut self, master: u64)
        requires { AreUpTo master self.old }
        ensures { (sets : List ℕ) → self.new ≡ keep (λ o. not (ends_with_master master sets o.origin)) self.old }
    {
        let count = count_before(self.objects.as_slice(), master);
        let end = first_cell(self.objects.as_slice(), count, self.cells.len());
        self.cells.truncate(end);
        self.objects.truncate(count);
    }
}

impl Declaration {
    /// Answers the object after a step.
    fn stepped(self, step: Step) -> Declaration
        ensures { result ≡ stepped step self }
    {
        Declaration {
            number: self.number,
            record: self.record,
            master: self.master,
            first: self.first,
            cells: self.cells,
            stage: self.stage.after(step),
        }
    }
}

/// Counts the objects before those of a master, which are the last ones. It takes time in the
/// number of those of the master.
#[inline(always)]
fn count_before(objects: &[Declaration], master: u64) -> usize
    requires rise { MastersRise 0 objects.now }
    requires within { AreWithin master objects.now }
    ensures count { result ≤ length objects.now }
    ensures older { AreOlder master (take result objects.now) }
    ensures own { AreOf master (drop result objects.now) }
{
    let mut count = objects.len();
    while count > 0 {
        if objects[count - 1].master != master {
            return count;
        }
        count -= 1;
    }
    count
}

/// Answers where the cells of the objects from this place on begin; where there is none, all cells
/// end here.
fn first_cell(objects: &[Declaration], at: usize, end: usize) -> usize
    ensures { result ≡ first_cell (drop at objects.now) end }
{
    match objects.get(at) {
        Some(object) => object.first,
        None => end,
    }
}

/// Answers the place of the object that stands so many before the newest, if it has this number.
#[inline(always)]
fn find_back(objects: &[Declaration], back: u64, number: u64) -> Option<usize>
    ensures { IfSome result (λ at. (o : Declaration) × (slice_get objects.now at ≡ Some o) × (o.number ≡ number)) }
{
    let back = back as usize;
    if back < objects.len() {
        let at = objects.len() - 1 - back;
        if objects[at].number == number {
            return Some(at);
        }
    }
    None
}

/// Finds the declared object of this number; the numbers rise. It takes time in the logarithm of
/// how many there are, and constant time for the newest, for what came after it, and for one behind
/// which each number is that of a declared object.
#[inline(always)]
fn find(objects: &[Declaration], number: u64) -> Option<usize>
    requires { NumbersRise 0 objects.now }
    ensures some { IfSome result (λ at. (o : Declaration) × (slice_get objects.now at ≡ Some o) × (o.number ≡ number)) }
    ensures none { IsNone result → Lacks number objects.now }
{
    // What is created or finalized is most often the newest object.
    if let [.., newest] = objects {
        if newest.number == number {
            return Some(objects.len() - 1);
        }
        // What was allocated is most often newer than each that is declared.
        if newest.number < number {
            return None;
        }
        // Where objects came one right behind another, their numbers tell how far apart they stand.
        if let Some(at) = find_back(objects, newest.number - number, number) {
            return Some(at);
        }
    }
    let mut low = 0;
    let mut high = objects.len();
    while low < high {
        let middle = low + (high - low) / 2;
        let found = objects[middle].number;
        if found == number {
            return Some(middle);
        }
        if found < number {
            low = middle + 1;
        } else {
            high = middle;
        }
    }
    None
}
