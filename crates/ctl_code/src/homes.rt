//! How many slots the masters around a declaration have at least (RM 6.1, 3.10.2).

ghost use Rattle.std.specs.Prelude.{◌≡◌, ℕ, ◌<◌, ◌≤◌, [], length, slice_get, ◌&&◌, if◌then◌else◌, nat_eq, List, IfOk, OnOk};
ghost use Rattle.ctl_code.specs.Homes.{Below, Raises};
ghost use Rattle.ctl_code.specs.Windows.{Counts, count_in, count_of, row_in, said};

use std::alloc::{AllocError, Global};
use std::marker::Model;

/// What is declared in masters: a subprogram or a record type, by its number in its table.
#[derive(Clone, Copy)]
pub enum Declaration {
    Subprogram(usize),
    Record(usize),
}

/// How many slots each master around one declaration has, the outermost first.
///
/// A contract sees the list of these.
#[derive(Drop)]
struct Home {
    slots: Vec<usize>,
}

impl Model for Home {
    ghost use Rattle.std.specs.Prelude.{List, ℕ};

    ghost Value = { List ℕ };

    ghost view = { λ h. h.slots.items };
}

impl Home {
    /// Makes one that says nothing.
    fn new(alloc: Global) -> Home
        ensures { result ≡ [] }
    {
        Home {
            slots: Vec::new(alloc),
        }
    }

    /// Counts the masters of which something is said.
    fn levels(&self) -> usize
        ensures { result ≡ length self.now }
    {
        self.slots.len()
    }

    /// Answers how many slots the master at a level has; 0 where nothing is said of it.
    fn at(&self, level: usize) -> usize
        ensures { result ≡ count_of (slice_get self.now level) }
    {
        match self.slots.get(level) {
            Some(slots) => *slots,
            None => 0,
        }
    }

    /// Says how many slots the master at a level has.
    fn set(&mut self, level: usize, slots: usize) -> Result<(), AllocError>
        ensures { OnOk result ((other : ℕ) → count_of (slice_get self.new other) ≡ (if nat_eq other level then slots else count_of (slice_get self.old other))) }
    {
        reach_level(&mut self.slots, level)?;
        self.slots[level] = slots;
        Ok(())
    }
}

/// Says of each level as far as this one that its master has no slot, where nothing is said of it.
fn reach_level(slots: &mut Vec<usize>, level: usize) -> Result<(), AllocError>
    ensures long { OnOk result (level < length slots.new.items) }
    ensures same { OnOk result ((other : ℕ) → count_of (slice_get slots.new.items other) ≡ count_of (slice_get slots.old.items other)) }
{
    while slots.len() <= level {
        slots.push(0)?;
    }
    Ok(())
}

/// Makes one for each declaration as far as that of this number.
fn reach_number(alloc: Global, homes: &mut Vec<Home>, number: usize) -> Result<(), AllocError>
    ensures long { OnOk result (number < length homes.new.items) }
    ensures same { OnOk result ((other : ℕ) → row_in (slice_get homes.new.items other) ≡ row_in (slice_get homes.old.items other)) }
{
    while homes.len() <= number {
        homes.push(Home::new(alloc))?;
    }
    Ok(())
}

/// Answers how many slots the master at a level around the declaration of a number has.
fn at_in(homes: &[Home], number: usize, level: usize) -> usize
    ensures { result ≡ count_in homes.now number level }
{
    match homes.get(number) {
        Some(home) => home.at(level),
        None => 0,
    }
}

/// Counts the masters around the declaration of a number of which something is said.
fn levels_in(homes: &[Home], number: usize) -> usize
    ensures { result ≡ length (row_in (slice_get homes.now number)) }
{
    match homes.get(number) {
        Some(home) => home.levels(),
        None => 0,
    }
}

/// Says how many slots the master at a level around the declaration of a number has.
fn set_in(
    alloc: Global,
    homes: &mut Vec<Home>,
    number: usize,
    level: usize,
    slots: usize,
) -> Result<(), AllocError>
    ensures { OnOk result ((of other : ℕ) → count_in homes.new.items of other ≡ (if nat_eq of number && nat_eq other level then slots else count_in homes.old.items of other)) }
{
    reach_number(alloc, homes, number)?;
    homes[number].set(level, slots)
}

/// How many slots each master around each declaration has at least.
///
/// A contract sees the lists of these numbers, the outermost master first. Where nothing is said of one it has at least no slot.
#[derive(Drop)]
pub struct Homes {
    alloc: Global,
    subprograms: Vec<Home>,
    records: Vec<Home>,
}

impl Model for Homes {
    ghost use Rattle.ctl_code.specs.Windows.{Counts};

    ghost Value = { Counts };

    ghost view = { λ h. record { subprograms = h.subprograms.items; records = h.records.items } };
}

impl Homes {
    /// Says nothing yet.
    pub fn new(alloc: Global) -> Homes
        ensures { (most : Counts) → Below result most }
    {
        Homes {
            alloc,
            subprograms: Vec::new(alloc),
            records: Vec::new(alloc),
        }
    }

    /// Answers how many slots the master at a level around a declaration has at least.
    pub fn at(&self, of: Declaration, level: usize) -> usize
        ensures { result ≡ said self.now of level }
    {
        match of {
            Declaration::Subprogram(number) => at_in(self.subprograms.as_slice(), number, level),
            Declaration::Record(number) => at_in(self.records.as_slice(), number, level),
        }
    }

    /// Answers a level from which on nothing is said of the masters around a declaration.
    pub fn levels(&self, of: Declaration) -> usize
        ensures { (level : ℕ) → result ≤ level → said self.now of level ≡ 0 }
    {
        match of {
            Declaration::Subprogram(number) => levels_in(self.subprograms.as_slice(), number),
            Declaration::Record(number) => levels_in(self.records.as_slice(), number),
        }
    }

    /// Says how many slots the master at a level around a declaration has.
    fn set(&mut self, of: Declaration, level: usize, slots: usize) -> Result<(), AllocError>
        ensures there { OnOk result (said self.new of level ≡ slots) }
        ensures others { OnOk result ((most : Counts) → Below self.old most → slots ≤ said most of level → Below self.new most) }
    {
        match of {
            Declaration::Subprogram(number) => set_in(
                self.alloc,
                &mut self.subprograms,
                number,
                level,
                slots,
            ),
            Declaration::Record(number) => set_in(
                self.alloc,
                &mut self.records,
                number,
                level,
                slots,
            ),
        }
    }

    /// Says that the master at a level around a declaration has so many slots, unless as many are said; tells whether they were not.
    pub fn raise(&mut self, of: Declaration, level: usize, slots: usize) -> Result<bool, AllocError>
        ensures { IfOk result (λ raised. Raises (λ counts. slots ≤ said counts of level) self.old self.new raised) }
    {
        if slots <= self.at(of, level) {
            return Ok(false);
        }
        self.set(of, level, slots)?;
        Ok(true)
    }
}
