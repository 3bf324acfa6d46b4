#![tactic(auto, using(number_map::proofs::Changes::insert_same), unfolding(crate::specs::Lists::no_lists, crate::specs::Lists::with_master, crate::specs::Lists::collections_of, crate::specs::Lists::without_set, crate::specs::Lists::without_sets, crate::specs::Lists::without_master, crate::specs::Lists::layers_of, crate::specs::Lists::add_object, crate::specs::Lists::drop_newest, crate::specs::Lists::layer_of, crate::specs::Lists::newest_layer, crate::specs::Lists::group_in, crate::specs::Lists::newest_group, crate::specs::Lists::with_joined, crate::specs::Lists::with_alone, crate::specs::Lists::add_collection, crate::specs::Lists::group_of, crate::specs::Lists::group_members, crate::specs::Lists::layer_objects, crate::specs::Lists::set_objects, crate::specs::Lists::with_member, crate::specs::Lists::without_member, crate::specs::Lists::has_started, crate::specs::Lists::with_started))]

ghost use Rattle.std.specs.Prelude.{◌≡◌, ℕ, ◌+◌, ◌-◌, ◌^◌, ◌<◌, length, Some, OnOk, OnErr, IfOk, IsTrue, is_some, slice_get, ◌↔◌};
ghost use Rattle.std.specs.FinMap.{get};
ghost use Rattle.std.specs.List.Sorted.{IsStrictlyIncreasing};
ghost use Rattle.fin_lists.specs.Lists.{no_lists, with_master, without_master, without_sets, add_object, add_collection, with_alone, newest_layer, newest_group, drop_newest, layer_objects, set_objects, group_of, with_member, without_member, has_started, with_started, KeepsNumbers, MayOpenMaster, MayOpenSet};

use crate::group::{Group, Membership};
use crate::master::{Kept, Master};
use number_map::NumberMap;
use std::alloc::{AllocError, Allocator, Global};
use std::marker::Model;

/// The number of a master, from 1 in the order of opening.
#[derive(Clone, Copy, Debug, PartialEq, Eq)]
pub struct MasterNo(pub u64);

/// The number of a set, from 1 in the order of creation.
#[derive(Clone, Copy, Debug, PartialEq, Eq)]
pub struct SetNo(pub u64);

/// A layer of a master: what it finalizes at one time (RM 7.6.1(9)).
#[derive(Clone, Copy, Debug, PartialEq, Eq)]
pub enum Layer {
    /// a declared object, by its number
    Object(u64),
    /// the collections of one freezing place
    Sets,
}

/// A set of objects.
#[derive(Clone, Copy, Debug, PartialEq, Eq)]
pub struct Set {
    // The number of the first set of its layer, or its own.
    group: u64,
    started: bool,
}

/// The masters with their layers, from the newest on, and the sets with their members, by object number (RM 7.6.1).
///
/// A call that runs out of memory returns `AllocError` and changes nothing. One that names a master that is not open or
/// a set that does not stand changes nothing and finds nothing.
#[derive(Drop)]
pub struct FinLists<A: Allocator = Global> {
    alloc: A,
    masters: NumberMap<Master<A>, A>,
    sets: NumberMap<Set, A>,
    groups: NumberMap<Group<A>, A>,
    masters_given: u64,
    sets_given: u64,
}

impl<A: Allocator> Model for FinLists<A> {
    ghost use Rattle.fin_lists.specs.Lists.{Lists, lists_code};

    ghost Value = { Lists };

    ghost coded = { lists_code };

    ghost view = { λ l. record {
      masters = l.masters.values;
      sets = l.sets.values;
      groups = l.groups.values;
      masters_given = l.masters_given;
      sets_given = l.sets_given;
    } };
}

impl<A: Allocator + Copy> FinLists<A> {
    /// Makes lists with no master and no set. Takes no memory.
    pub fn new(alloc: A) -> FinLists<A>
        ensures lists { result ≡ no_lists }
        ensures numbers { (result.masters_given ≡ 0) × (result.sets_given ≡ 0) }
    {
        FinLists {
            alloc,
            masters: NumberMap::new(alloc),
            sets: NumberMap::new(alloc),
            groups: NumberMap::new(alloc),
            masters_given: 0,
            sets_given: 0,
        }
    }

    /// Opens a master, which has no layer yet, and returns its number.
    pub fn open_master(&mut self) -> Result<MasterNo, AllocError>
        requires { self.old.masters_given < 2 ^ 64 - 1 }
        ensures ok { IfOk result (λ m. (m.0 ≡ self.old.masters_given + 1) × (self.new ≡ with_master self.old)) }
        ensures err { OnErr result (self.new ≡ self.old) }
        ensures numbers { MayOpenMaster self.old self.new }
    {
        self.masters.reserve()?;
        let number = self.masters_given + 1;
        self.masters.put(number, Master::new(self.alloc));
        self.masters_given = number;
        Ok(MasterNo(number))
    }

    /// Adds a collection to a master, as its newest layer, or to its newest layer if it joins that one, and returns the
    /// number of the collection's set, which has no member yet.
    pub fn add_collection(&mut self, master: MasterNo, joins: bool) -> Result<SetNo, AllocError>
        requires { self.old.sets_given < 2 ^ 64 - 1 }
        ensures ok { IfOk result (λ s. (s.0 ≡ self.old.sets_given + 1) × (self.new ≡ add_collection joins master.0 self.old)) }
        ensures err { OnErr result (self.new ≡ self.old) }
        ensures numbers { MayOpenSet self.old self.new }
    {
        self.sets.reserve()?;
        self.groups.reserve()?;
        let number = self.sets_given + 1;
        let group = if joins {
            self.newest_group(master)
        } else {
            number
        };
        if let Some(master) = self.masters.get_mut(master.0) {
            master.add_collection(number, joins)?;
        }
        if !joins {
            self.groups.put(number, Group::new(self.alloc));
        }
        self.sets.put(
            number,
            Set {
                group,
                started: false,
            },
        );
        self.sets_given = number;
        Ok(SetNo(number))
    }

    /// Adds a set that belongs to no master, for the objects of a subpool (RM 13.11.4), and returns its number. It
    /// stands for good, and has no member yet.
    pub fn open_subpool(&mut self) -> Result<SetNo, AllocError>
        requires { self.old.sets_given < 2 ^ 64 - 1 }
        ensures ok { IfOk result (λ s. (s.0 ≡ self.old.sets_given + 1) × (self.new ≡ with_alone self.old)) }
        ensures err { OnErr result (self.new ≡ self.old) }
        ensures numbers { MayOpenSet self.old self.new }
    {
        self.sets.reserve()?;
        self.groups.reserve()?;
        let number = self.sets_given + 1;
        self.groups.put(number, Group::new(self.alloc));
        self.sets.put(
            number,
            Set {
                group: number,
                started: false,
            },
        );
        self.sets_given = number;
        Ok(SetNo(number))
    }
}

impl<A: Allocator> FinLists<A> {
    /// Closes a master. Its collections no longer stand after that.
    pub fn close_master(&mut self, master: MasterNo)
        ensures lists { self.new ≡ without_master master.0 self.old }
        ensures numbers { KeepsNumbers self.old self.new }
    {
        if let Some(master) = self.masters.remove(master.0) {
            self.drop_sets(master.collections());
        }
    }

    fn drop_sets(&mut self, sets: &[u64])
        ensures lists { self.new ≡ without_sets sets.now self.old }
        ensures numbers { KeepsNumbers self.old self.new }
    {
        for set in sets {
            let _ = self.sets.remove(*set);
            let _ = self.groups.remove(*set);
        }
    }

    /// Adds an object to a master, as its newest layer.
    pub fn add_object(&mut self, master: MasterNo, object: u64) -> Result<(), AllocError>
        ensures ok { OnOk result (self.new ≡ add_object master.0 object self.old) }
        ensures err { OnErr result (self.new ≡ self.old) }
        ensures numbers { KeepsNumbers self.old self.new }
    {
        match self.masters.get_mut(master.0) {
            Some(master) => master.add_object(object),
            None => Ok(()),
        }
    }

    /// Returns the newest layer of a master, or `None` if it has none.
    pub fn newest(&self, master: MasterNo) -> Option<Layer>
        ensures { result ≡ newest_layer master.0 self.now }
    {
        match self.masters.get(master.0)?.newest()? {
            Kept::Declared(object) => Some(Layer::Object(object)),
            Kept::Gathered(_) => Some(Layer::Sets),
        }
    }

    /// Removes the newest layer of a master. The collections of a layer stand until the master is closed.
    pub fn drop_newest(&mut self, master: MasterNo)
        ensures lists { self.new ≡ drop_newest master.0 self.old }
        ensures numbers { KeepsNumbers self.old self.new }
    {
        if let Some(master) = self.masters.get_mut(master.0) {
            master.drop_newest();
        }
    }

    /// Counts the members of all collections of a master's newest layer.
    pub fn layer_count(&self, master: MasterNo) -> u64
        ensures { result ≡ length (layer_objects master.0 self.now) }
    {
        match self.groups.get(self.newest_group(master)) {
            Some(group) => group.len(),
            None => 0,
        }
    }

    /// Returns the k-th member of all collections of a master's newest layer, from 0, in the order of object numbers.
    pub fn layer_nth(&self, master: MasterNo, k: u64) -> u64
        requires { k < length (layer_objects master.0 self.now) }
        ensures { Some result ≡ slice_get (layer_objects master.0 self.now) k }
    {
        match self.groups.get(self.newest_group(master)) {
            Some(group) => group.nth(k).unwrap(),
            None => 0,
        }
    }

    /// Returns whether a master is open.
    pub fn is_open(&self, master: MasterNo) -> bool
        ensures { result ≡ is_some (get self.now.masters master.0) }
    {
        self.masters.contains(master.0)
    }

    /// Returns whether a set stands.
    pub fn stands(&self, set: SetNo) -> bool
        ensures { result ≡ is_some (get self.now.sets set.0) }
    {
        self.sets.contains(set.0)
    }

    /// Returns whether there is a number left for another master.
    pub fn has_master_numbers(&self) -> bool
        ensures { IsTrue result ↔ self.now.masters_given < 2 ^ 64 - 1 }
    {
        self.masters_given < u64::MAX
    }

    /// Returns whether there is a number left for another set.
    pub fn has_set_numbers(&self) -> bool
        ensures { IsTrue result ↔ self.now.sets_given < 2 ^ 64 - 1 }
    {
        self.sets_given < u64::MAX
    }

    // Returns the group of a master's newest layer, 0 if that is no layer of collections.
    fn newest_group(&self, master: MasterNo) -> u64
        ensures { result ≡ newest_group master.0 self.now }
    {
        match self.masters.get(master.0) {
            Some(master) => match master.newest() {
                Some(Kept::Gathered(group)) => group,
                _ => 0,
            },
            None => 0,
        }
    }

    /// Adds an object to a set. An object that is a member already stays a member once.
    pub fn add_to(&mut self, set: SetNo, object: u64) -> Result<(), AllocError>
        ensures ok { OnOk result (self.new ≡ with_member set.0 object self.old) }
        ensures err { OnErr result (self.new ≡ self.old) }
        ensures numbers { KeepsNumbers self.old self.new }
    {
        let SetNo(set) = set;
        let group = self.group_of(set);
        match self.groups.get_mut(group) {
            Some(group) => group.add(Membership { object, set }),
            None => Ok(()),
        }
    }

    /// Removes an object from a set.
    pub fn remove(&mut self, set: SetNo, object: u64)
        ensures lists { self.new ≡ without_member set.0 object self.old }
        ensures numbers { KeepsNumbers self.old self.new }
    {
        let SetNo(set) = set;
        let group = self.group_of(set);
        if let Some(group) = self.groups.get_mut(group) {
            group.remove(Membership { object, set });
        }
    }

    /// Counts the members of a set. Their numbers rise from each to the next.
    pub fn count(&self, set: SetNo) -> u64
        ensures count { result ≡ length (set_objects set.0 self.now) }
        ensures rising { IsStrictlyIncreasing (set_objects set.0 self.now) }
    {
        match self.groups.get(self.group_of(set.0)) {
            Some(group) => group.len_in(set.0),
            None => 0,
        }
    }

    /// Returns the k-th member of a set, from 0, in the order of object numbers.
    pub fn nth(&self, set: SetNo, k: u64) -> u64
        requires { k < length (set_objects set.0 self.now) }
        ensures { Some result ≡ slice_get (set_objects set.0 self.now) k }
    {
        match self.groups.get(self.group_of(set.0)) {
            Some(group) => group.nth_in(set.0, k).unwrap(),
            None => 0,
        }
    }

    fn group_of(&self, set: u64) -> u64
        ensures { result ≡ group_of set self.now }
    {
        match self.sets.get(set) {
            Some(set) => set.group,
            None => 0,
        }
    }

    /// Notes that the finalization of a set has started.
    pub fn start_collection(&mut self, set: SetNo)
        ensures lists { self.new ≡ with_started set.0 self.old }
        ensures numbers { KeepsNumbers self.old self.new }
    {
        if let Some(set) = self.sets.get_mut(set.0) {
            set.started = true;
        }
    }

    /// Returns whether the finalization of a set has started.
    pub fn started(&self, set: SetNo) -> bool
        ensures { result ≡ has_started set.0 self.now }
    {
        match self.sets.get(set.0) {
            Some(set) => set.started,
            None => false,
        }
    }
}
