ghost use Rattle.std.specs.Prelude.{◌≡◌, ℕ, ◌<◌, [], length, false, All, OnOk, OnErr, IfSome, MatchOption, slice_get};
ghost use Rattle.std.specs.List.Sorted.{IsStrictlyIncreasing};
ghost use Rattle.fin_lists.specs.Members.{put_member, remove_member, members_in, objects_of, is_same, IsSole, IsPlaceFor, IsPlaceOf};

use std::alloc::{AllocError, Allocator, Global};
use std::collections::VecDeque;
use std::marker::Model;

/// An object that is a member of a set.
#[derive(Clone, Copy, Debug, PartialEq, Eq)]
pub struct Membership {
    pub object: u64,
    pub set: u64,
}

/// The members of the sets of one layer, in the order of their object numbers.
#[derive(Drop)]
pub struct Group<A: Allocator = Global> {
    members: VecDeque<Membership, A>,
    // The set that all members have in common. `None` if there are several, and in a group that never had a member.
    sole: Option<u64>,
}

impl<A: Allocator> Model for Group<A> {
    ghost use Rattle.std.specs.Prelude.{List};
    ghost use Rattle.std.specs.List.Sorted.{IsNonDecreasingBy};
    ghost use Rattle.fin_lists.specs.declared.group.Membership.{Membership};
    ghost use Rattle.fin_lists.specs.Members.{AreOnce, IsSole};

    ghost Value = { List Membership };

    ghost view = { λ g. g.members.items };

    ghost invariant = { λ g. IsNonDecreasingBy (λ m. m.object) g.members.items × IsSole g.sole g.members.items × AreOnce g.members.items };
}

impl<A: Allocator> Group<A> {
    /// Makes a group with no member. Takes no memory.
    pub fn new(alloc: A) -> Group<A>
        ensures { result ≡ [] }
    {
        Group {
            members: VecDeque::new(alloc),
            sole: None,
        }
    }

    /// Counts the members of all its sets.
    pub fn len(&self) -> u64
        ensures { result ≡ length self.now }
    {
        self.members.len() as u64
    }

    /// Returns the object of the k-th member of all, from 0, or `None` if there is none.
    pub fn nth(&self, k: u64) -> Option<u64>
        ensures { result ≡ slice_get (objects_of self.now) k }
    {
        self.members.get(k as usize).map(|member| member.object)
    }

    /// Counts the members of a set. Their numbers rise, since each object is a member once.
    pub fn len_in(&self, set: u64) -> u64
        ensures count { result ≡ length (members_in set self.now) }
        ensures rising { IsStrictlyIncreasing (objects_of (members_in set self.now)) }
    {
        if self.sole == Some(set) {
            return self.len();
        }
        self.members
            .iter()
            .filter(|member| member.set == set)
            .count() as u64
    }

    /// Returns the object of the k-th member of a set, from 0, or `None` if there is none.
    pub fn nth_in(&self, set: u64, k: u64) -> Option<u64>
        ensures { result ≡ slice_get (objects_of (members_in set self.now)) k }
    {
        if self.sole == Some(set) {
            return self.nth(k);
        }
        let mut left = k;
        for member in &self.members {
            if member.set == set {
                if left == 0 {
                    return Some(member.object);
                }
                left -= 1;
            }
        }
        None
    }

    /// Adds a member, unless it is one already.
    ///
    /// # Errors
    ///
    /// Returns `AllocError` if the allocator refuses the memory. Nothing changes then.
    pub fn add(&mut self, member: Membership) -> Result<(), AllocError>
        ensures ok { OnOk result (self.new ≡ put_member member self.old) }
        ensures err { OnErr result (self.new ≡ self.old) }
    {
        if let Some(_place) = self.place_of(member) {
            return Ok(());
        }
        let index = self.place_for(member.object);
        let sole = self.sole_with(member.set);
        self.members.insert(index, member)?;
        self.sole = sole;
        Ok(())
    }

    /// Removes a member, if it is one.
    pub fn remove(&mut self, member: Membership)
        ensures { self.new ≡ remove_member member self.old }
    {
        if let Some(index) = self.place_of(member) {
            let _ = self.members.remove(index);
        }
    }

    // Returns the index for a new member: after those whose numbers are not greater.
    fn place_for(&self, object: u64) -> usize
        ensures { IsPlaceFor object self.now result }
    {
        self.members
            .partition_point(|member| member.object <= object)
    }

    // Returns the set that all members and a new one of this set have in common, if there is one.
    fn sole_with(&self, set: u64) -> Option<u64>
        ensures all { IsSole result self.now }
        ensures new { IfSome result (λ s. s ≡ set) }
    {
        if self.members.is_empty() || self.sole == Some(set) {
            Some(set)
        } else {
            None
        }
    }

    // Returns the index of the member, if it is one. Looks through those of its object number, mostly a single one.
    fn place_of(&self, member: Membership) -> Option<usize>
        ensures { MatchOption result (All (λ x. is_same member x ≡ false) self.now) (IsPlaceOf member self.now) }
    {
        let start = self
            .members
            .partition_point(|other| other.object < member.object);
        for index in start..self.members.len() {
            if self.members[index] == member {
                return Some(index);
            }
        }
        None
    }
}
