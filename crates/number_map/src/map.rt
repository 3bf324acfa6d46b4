ghost use Rattle.std.specs.Prelude.{◌≡◌, ◌+◌, ◌<◌, ◌≤◌, ℕ, None, Some, OnOk, IfNone, IfSome, MatchOption, is_some, length, nat_eq, option_copied, if◌then◌else◌};
ghost use Rattle.std.specs.Borrow.{sem};
ghost use Rattle.std.specs.Option.{option_copied_mut};
ghost use Rattle.std.specs.FinMap as map;
ghost use Rattle.std.specs.HashMap.{spare};
ghost use Rattle.std.specs.Map.{lookup};
ghost use Rattle.number_map.specs.Lending.{LendsValue};
ghost use Rattle.number_map.specs.Table.{StandsAt};

use crate::newest::Newest;
use indexmap::IndexMap;
use std::alloc::{AllocError, Allocator, Global};
use std::hash::{BuildHasherDefault, FoldHasher};
use std::marker::Model;
use std::mem::replace;

/// The entries of a map, by their indices and by the hashes of their numbers.
type Entries<V, A> = IndexMap<u64, V, BuildHasherDefault<FoldHasher>, A>;

/// Returns the index of the entry of this number, or `None` if there is none.
#[inline(always)]
fn index_of<V, A: Allocator>(entries: &Entries<V, A>, number: u64) -> Option<usize>
    ensures found { IfSome result (StandsAt entries.now.entries number) }
    ensures absent { IfNone result (lookup (nat_eq number) entries.now.entries ≡ None) }
{
    // Numbers are mostly given from 1 on, and entries mostly stay: so it stands here unless an older one was removed.
    let first = number.saturating_sub(1) as usize;
    match index_if_there(entries, number, first) {
        Some(index) => Some(index),
        None => index_behind_gaps(entries, number),
    }
}

/// Returns this index, if the entry of this number is there.
#[inline(always)]
fn index_if_there<V, A: Allocator>(
    entries: &Entries<V, A>,
    number: u64,
    index: usize,
) -> Option<usize>
    ensures { IfSome result (StandsAt entries.now.entries number) }
{
    match entries.get_index(index) {
        Some((key, _)) if *key == number => Some(index),
        _ => None,
    }
}

/// Returns the index of the entry of this number, also if entries before it were removed.
#[inline(always)]
fn index_behind_gaps<V, A: Allocator>(entries: &Entries<V, A>, number: u64) -> Option<usize>
    ensures found { IfSome result (StandsAt entries.now.entries number) }
    ensures absent { IfNone result (lookup (nat_eq number) entries.now.entries ≡ None) }
{
    match entries.last() {
        Some((newest, _)) => {
            // So it stands if each entry from it to the last is still there.
            let behind = newest.saturating_sub(number) as usize;
            let from_last = entries.len().saturating_sub(1).saturating_sub(behind);
            match index_if_there(entries, number, from_last) {
                Some(index) => Some(index),
                None => hashed_index(entries, number),
            }
        }
        None => None,
    }
}

/// Looks the index of the entry of this number up by its hash.
#[inline(never)]
fn hashed_index<V, A: Allocator>(entries: &Entries<V, A>, number: u64) -> Option<usize>
    ensures found { IfSome result (StandsAt entries.now.entries number) }
    ensures absent { IfNone result (lookup (nat_eq number) entries.now.entries ≡ None) }
{
    let (index, _, _) = entries.get_full(&number)?;
    Some(index)
}

/// Returns the value of the entry of this number, or `None` if there is none.
#[inline(always)]
fn value_among<V, A: Allocator>(entries: &Entries<V, A>, number: u64) -> Option<&V>
    ensures { option_copied result ≡ lookup (nat_eq number) entries.now.entries }
{
    let index = index_of(entries, number)?;
    match entries.get_index(index) {
        Some((_, value)) => Some(value),
        None => unreachable!(),
    }
}

/// A map from numbers to values. Each look-up, insertion and removal takes constant time on average.
///
/// The entry that came last stands apart from the others: one that is removed before the next comes
/// is never hashed.
#[derive(Drop)]
pub struct NumberMap<V, A: Allocator = Global> {
    newest: Newest<V>,
    entries: Entries<V, A>,
}

impl<V, A: Allocator> Model for NumberMap<V, A> {
    ghost use Rattle.std.specs.Prelude.{length};
    ghost use Rattle.std.specs.FinMap as map;
    ghost use Rattle.std.specs.HashMap.{spare};
    ghost use Rattle.number_map.specs.Newest.{StandsApart, all_of};
    ghost use Rattle.number_map.specs.Table.{Table, table_code};

    ghost Value = { Table V };

    ghost coded = { table_code V.code };

    ghost view = { λ m. record { values = map.from_entries (all_of m.newest m.entries.entries); room = spare m.entries; size = length (all_of m.newest m.entries.entries) } };

    ghost invariant = { λ m. StandsApart m.newest m.entries.entries };
}

impl<V, A: Allocator + Copy> NumberMap<V, A> {
    /// Makes a map in which no number has a value. Takes no memory.
    pub fn new(alloc: A) -> NumberMap<V, A>
        ensures values { result.values ≡ map.empty }
        ensures size { result.size ≡ 0 }
    {
        NumberMap {
            newest: Newest::Nothing,
            entries: IndexMap::with_hasher(alloc, BuildHasherDefault::new()),
        }
    }

    /// Reserves room for one more number. No value changes.
    ///
    /// # Errors
    ///
    /// Returns `AllocError` if the allocator refuses the memory.
    pub fn reserve(&mut self) -> Result<(), AllocError>
        ensures values { self.new.values ≡ self.old.values }
        ensures size { self.new.size ≡ self.old.size }
        ensures room { OnOk result (0 < self.new.room) }
    {
        self.entries.reserve(1)
    }
}

impl<V, A: Allocator> NumberMap<V, A> {
    /// Returns whether this number has a value.
    #[inline(always)]
    pub fn contains(&self, number: u64) -> bool
        ensures { result ≡ map.contains_key self.now.values number }
    {
        self.newest.is_of(number) || index_of(&self.entries, number).is_some()
    }

    /// Returns the value of this number, or `None` if it has none.
    #[inline(always)]
    pub fn get(&self, number: u64) -> Option<&V>
        ensures { option_copied result ≡ map.get self.now.values number }
    {
        if self.newest.is_of(number) {
            self.newest.value()
        } else {
            value_among(&self.entries, number)
        }
    }

    /// Returns the value of this number for writing, or `None` if it has none.
    #[inline(always)]
    pub fn get_mut(&mut self, number: u64) -> Option<&mut V>
        ensures* writes_back { sem 𝓛 (LendsValue V.row A.row A.Allocator self.entry number result) }
        ensures value { option_copied_mut result ≡ map.get self.old.values number }
    {
        if self.newest.is_of(number) {
            self.newest.value_mut()
        } else {
            match index_of(&self.entries, number) {
                Some(index) => self.entries.get_index_mut(index),
                None => None,
            }
        }
    }

    /// Inserts a value for this number, for which there is room. A value that it had is dropped.
    pub fn put(&mut self, number: u64, value: V)
    where
        V: Drop,
        requires { 0 < self.old.room }
        ensures values { self.new.values ≡ map.insert self.old.values number value }
        ensures room { self.old.room ≤ self.new.room + 1 }
    {
        let _ = self.remove(number);
        self.put_new(number, value);
    }

    /// Inserts a value for this number, which has none yet and for which there is room.
    #[inline(always)]
    pub fn put_new(&mut self, number: u64, value: V)
        requires room { 0 < self.old.room }
        requires new { map.get self.old.values number ≡ None }
        ensures values { self.new.values ≡ map.insert self.old.values number value }
        ensures size { self.new.size ≡ self.old.size + 1 }
        ensures room { self.old.room ≤ self.new.room + 1 }
    {
        match replace(&mut self.newest, Newest::Entry(number, value)) {
            Newest::Entry(former, kept) => file(&mut self.entries, former, kept),
            Newest::Nothing => (),
        }
    }

    /// Removes the value of this number and returns it, or returns `None` if it has none.
    #[inline(always)]
    pub fn remove(&mut self, number: u64) -> Option<V>
        ensures value { result ≡ map.get self.old.values number }
        ensures values { self.new.values ≡ map.remove self.old.values number }
        ensures size { self.new.size + (if is_some result then 1 else 0) ≡ self.old.size }
        ensures room { self.old.room ≤ self.new.room }
    {
        if self.newest.is_of(number) {
            self.newest.take_value()
        } else {
            self.entries.swap_remove(&number)
        }
    }

    /// Removes some number with its value and returns both, or returns `None` if no number has a value.
    pub fn pop(&mut self) -> Option<(u64, V)>
        ensures { MatchOption result ((self.old.values ≡ map.empty) × (self.old.size ≡ 0) × (self.new.values ≡ map.empty) × (self.new.size ≡ 0))
            (λ e. (map.get self.old.values e.0 ≡ Some e.1) × (self.new.values ≡ map.remove self.old.values e.0)
            × (self.new.size + 1 ≡ self.old.size)) }
    {
        match self.newest.take() {
            Some(newest) => Some(newest),
            None => self.entries.pop(),
        }
    }

    /// Frees a map in which no number has a value. The values need not be droppable.
    pub fn destroy_empty(self)
        requires { self.size ≡ 0 }
    {
        let NumberMap { newest, entries } = self;
        entries.destroy_empty();
        match newest {
            Newest::Entry(_, _left) => unreachable!(),
            Newest::Nothing => (),
        }
    }
}

/// Puts the entry that stood apart among the others, for which there is room.
fn file<V, A: Allocator>(entries: &mut Entries<V, A>, number: u64, value: V)
    requires room { 0 < spare entries.old }
    requires new { lookup (nat_eq number) entries.old.entries ≡ None }
    ensures values { (q : ℕ) → lookup (nat_eq q) entries.new.entries ≡ (if nat_eq number q then Some value else lookup (nat_eq q) entries.old.entries) }
    ensures len { length entries.new.entries ≡ length entries.old.entries + 1 }
    ensures room { spare entries.old ≤ spare entries.new + 1 }
{
    match entries.insert(number, value) {
        Ok(None) => (),
        Ok(Some(_old)) => unreachable!(),
        Err(_refused) => unreachable!(),
    }
}
