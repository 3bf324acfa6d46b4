//! The numbers with their owners but for the newest one.

ghost use Rattle.std.specs.Prelude.{◌≡◌, ◌+◌, ◌≤◌, ◌^◌, ℕ, IfNone, IfSome, MatchOption, None, OnErr, OnOk, Some, false, true, if◌then◌else◌};
ghost use Rattle.std.specs.Option.{option_map};
ghost use Rattle.std.specs.FinMap.{empty, get};
ghost use Rattle.number_map.specs.Table.{change};
ghost use Rattle.owned_numbers.specs.Owned.{OwnsAs, is_owner, owns, with_newest};
ghost use Rattle.owned_numbers.specs.declared.newest.Newest.TheVariants.{Pair};

use crate::lists::{Lists, append, take_out};
use number_map::NumberMap;
use std::alloc::{AllocError, Global};
use std::marker::Model;

/// More numbers than this are refused, as memory is: so that each count of them is a number.
const MOST: usize = 1 << 62;

/// Where a number stands: in the list of its owner, at this index.
#[derive(Clone, Copy)]
pub(crate) struct Place {
    owner: u64,
    index: usize,
}

/// Numbers with their places in the lists of their owners. A number that is taken out of a list
/// leaves its place to the last one, so each call takes constant time on average.
#[derive(Drop)]
pub(crate) struct Others {
    alloc: Global,
    places: NumberMap<Place>,
    lists: Lists,
    count: usize,
}

impl Model for Others {
    ghost use Rattle.owned_numbers.specs.Lists.{AreKept, owners_of};
    ghost use Rattle.owned_numbers.specs.Owned.{Owned, owned_code};

    ghost Value = { Owned };

    ghost coded = { owned_code };

    ghost view = { λ m. record { owners = owners_of m.places.values; size = m.places.size } };

    ghost invariant = { λ m. AreKept m.places m.lists.values m.count };
}

impl Others {
    /// Makes no number. Takes no memory.
    pub(crate) fn new(alloc: Global) -> Others
        ensures owners { result.owners ≡ empty }
        ensures size { result.size ≡ 0 }
    {
        Others {
            alloc,
            places: NumberMap::new(alloc),
            lists: NumberMap::new(alloc),
            count: 0,
        }
    }

    /// Says that the numbers are not too many to be counted.
    pub(crate) fn are_few(&self)
        ensures { self.now.size ≤ 2 ^ 62 }
    {
        let _ = &self.count;
    }

    /// Lists a number that has no owner for one.
    ///
    /// # Errors
    ///
    /// `AllocError` where the allocator refuses the memory. Nothing changes then.
    pub(crate) fn list(&mut self, owner: u64, number: u64) -> Result<(), AllocError>
        requires { get self.old.owners number ≡ None }
        ensures ok { OnOk result (self.new ≡ with_newest (Pair owner number) self.old) }
        ensures err { OnErr result (self.new ≡ self.old) }
    {
        if self.count >= MOST {
            return Err(AllocError);
        }
        self.places.reserve()?;
        let index = append(&mut self.lists, self.alloc, owner, number)?;
        self.places.put_new(number, Place { owner, index });
        self.count += 1;
        Ok(())
    }

    /// Takes a number from those of an owner, where it has it.
    pub(crate) fn unlist(&mut self, owner: u64, number: u64)
        ensures gone { OwnsAs false owner number self.old self.new }
        ensures size { self.new.size + (if owns owner number self.old then 1 else 0) ≡ self.old.size }
    {
        let Some(index) = index_of(&self.places, owner, number) else {
            return;
        };
        let _ = self.places.remove(number);
        self.count -= 1;
        match take_out(&mut self.lists, owner, index) {
            Some(moved) => place_at(&mut self.places, moved, index),
            None => (),
        }
    }

    /// Returns some number of an owner, or `None` if it has none.
    pub(crate) fn any_of(&self, owner: u64) -> Option<u64>
        ensures some { IfSome result (λ n. owns owner n self.now ≡ true) }
        ensures none { IfNone result ((n : ℕ) → owns owner n self.now ≡ false) }
    {
        match self.lists.get(owner) {
            Some(list) => match list.last() {
                Some(number) => Some(*number),
                None => None,
            },
            None => None,
        }
    }
}

/// Returns the index of a number in the list of an owner, where it stands there.
fn index_of(places: &NumberMap<Place>, owner: u64, number: u64) -> Option<usize>
    ensures { MatchOption result (is_owner owner (option_map (λ x. x.owner) (get places.now.values number)) ≡ false)
        (λ i. get places.now.values number ≡ Some (record { owner = owner; index = i })) }
{
    match places.get(number) {
        Some(place) => {
            if place.owner == owner {
                Some(place.index)
            } else {
                None
            }
        }
        None => None,
    }
}

/// Notes that a number stands at another index of its list.
fn place_at(places: &mut NumberMap<Place>, number: u64, index: usize)
    ensures values { places.new.values ≡ change number (λ x. record x { index = index }) places.old.values }
    ensures size { places.new.size ≡ places.old.size }
{
    if let Some(place) = places.get_mut(number) {
        place.index = index;
    }
}
