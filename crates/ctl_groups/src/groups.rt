//! The allocated objects in groups, one for each collection and record type that needs
//! finalization: those whose finalization has not begun, and how many of these have joined their
//! collection.

ghost use Rattle.std.specs.Prelude.{◌≡◌, ◌+◌, ◌-◌, ◌<◌, ◌≤◌, ◌^◌, [], ℕ, List, OnOk, OnErr, None, Some, false, true, is_some};
ghost use Rattle.ctl_meaning.specs.Objects.{with_joined};
ghost use Rattle.ctl_groups.specs.declared.needs.Need.{Need};
ghost use Rattle.ctl_groups.specs.Groups.{AreEntered, AreGrouped, AreNumbers, Has, IsCounted, IsFirstMember, IsLastMember, IsNextBy, IsSame, KeepsCounts, Moves, count, count_of, counted, group_of, is_in, open_group, start_of};
ghost use Rattle.ctl_storage.specs.Allocated.{known};
ghost use Rattle.ctl_groups.specs.Members.{IsGreatest, IsLeast};
ghost use Rattle.ctl_storage.specs.Stages.{with_step};

use crate::needs::{Need, needs_finalization};
use ctl_program::types::Ty;
use ctl_storage::{Allocation, Life, Step};
use std::alloc::{AllocError, Global};
use std::collections::{BTreeMap, BTreeSet};
use std::ops::Bound;

/// The objects of a record type that were allocated for a collection.
#[derive(Clone, Copy, PartialEq, Eq, PartialOrd, Ord)]
pub struct Group {
    pub collection: u64,
    pub record_type: usize,
}

/// A group, with how many of its objects are still to be finalized: they have joined their
/// collection, and their finalization has not begun (RM 7.6.1).
#[derive(Clone, Copy)]
pub struct Waiting {
    pub group: Group,
    pub count: usize,
}

/// Where to look for the next group: from a collection on, or behind a group.
#[derive(Clone, Copy)]
pub enum Start {
    Collection(u64),
    Behind(Group),
}

/// A group with the number of an object of it, in the order of the groups, and within one in that
/// of the numbers.
type Key = (Group, u64);

/// How many objects of a group have joined their collection.
type Counts = BTreeMap<Group, usize>;

/// The allocated objects of record types that need finalization, until it begins, by their groups.
/// Each group that has one has a count of those that have joined their collection.
#[derive(Drop)]
pub struct Groups {
    untouched: BTreeSet<Key>,
    joined: Counts,
}

impl Groups {
    /// Makes groups with no object. It takes no memory.
    pub fn new(alloc: Global) -> Groups
        ensures { (needs : List Need) → AreGrouped needs [] result }
    {
        Groups {
            untouched: BTreeSet::new(alloc),
            joined: BTreeMap::new(alloc),
        }
    }

    /// Adds a new object, which has not joined its collection, where its record type needs
    /// finalization. It takes time in the logarithm of the number of objects, and constant time
    /// for another type.
    ///
    /// # Errors
    ///
    /// `AllocError` where the allocator refuses the memory. No object is added then.
    #[inline(always)]
    pub fn add(
        &mut self,
        needs: &[Need],
        number: u64,
        object: &Allocation,
    ) -> Result<(), AllocError>
        requires entered { AreEntered self.old }
        requires stage { object.now.stage.has_joined ≡ false }
        requires new { (g : Group) → is_in g number self.old ≡ false }
        ensures ok { OnOk result (Moves needs.now number None (Some (known number object.now)) self.old self.new) }
        ensures err { OnErr result (IsSame self.old self.new) }
    {
        let Some(group) = open_group(needs, object) else {
            return Ok(());
        };
        enter(&mut self.joined, group)?;
        let _ = self.untouched.insert((group, number))?;
        Ok(())
    }

    /// Follows a step of an object, in the same time.
    pub fn follow(&mut self, needs: &[Need], number: u64, before: &Allocation, step: Step)
        requires { Has needs.now number (known number before.now) self.old }
        ensures { Moves needs.now number (Some (known number before.now)) (Some (with_step step (known number before.now))) self.old self.new }
    {
        match step {
            Step::Begin => self.leave(needs, number, before),
            Step::Join => self.join(needs, number, before),
            Step::End => {}
        }
    }

    /// Takes an object out, in the same time.
    #[inline(always)]
    pub fn leave(&mut self, needs: &[Need], number: u64, object: &Allocation)
        requires { Has needs.now number (known number object.now) self.old }
        ensures { Moves needs.now number (Some (known number object.now)) None self.old self.new }
    {
        let Some(group) = open_group(needs, object) else {
            return;
        };
        let _ = self.untouched.remove(&(group, number));
        match self.member_from(group, 0) {
            Some(_other) => {
                if object.stage.has_joined {
                    lower(&mut self.joined, group);
                }
            }
            None => {
                let _ = self.joined.remove(&group);
            }
        }
    }

    /// Counts an object that joins its collection, if it has not joined it before.
    fn join(&mut self, needs: &[Need], number: u64, object: &Allocation)
        requires { Has needs.now number (known number object.now) self.old }
        ensures { Moves needs.now number (Some (known number object.now)) (Some (with_joined (known number object.now))) self.old self.new }
    {
        if object.stage.has_joined {
            return;
        }
        if let Some(group) = open_group(needs, object) {
            raise(&mut self.joined, group);
        }
    }

    /// Answers the next group up to a collection, from a start on, in the same time.
    pub fn next(&self, start: Start, last: u64) -> Option<Waiting>
        requires { AreNumbers self.now }
        ensures { IsNextBy (λ g n. is_in g n self.now) (λ g. count g self.now) start last result }
    {
        let (group, _number) = self.first_from(start_of(start))?;
        if group.collection > last {
            return None;
        }
        Some(Waiting {
            group,
            count: self.count(group),
        })
    }

    /// Answers how many objects of a group have joined their collection.
    fn count(&self, group: Group) -> usize
        ensures { result ≡ count group self.now }
    {
        match self.joined.get(&group) {
            Some(count) => *count,
            None => 0,
        }
    }

    /// Answers the first number of an object of a group, from a number on.
    pub fn member_from(&self, group: Group, start: u64) -> Option<u64>
        ensures { IsLeast (λ n. (start ≤ n) × (is_in group n self.now ≡ true)) result }
    {
        match self.first_from(Bound::Included((group, start))) {
            Some((found, number)) if found == group => Some(number),
            _ => None,
        }
    }

    /// Answers the last number of an object of a group, up to a number.
    pub fn member_to(&self, group: Group, end: u64) -> Option<u64>
        ensures { IsGreatest (λ n. (n ≤ end) × (is_in group n self.now ≡ true)) result }
    {
        match self.last_to(Bound::Included((group, end))) {
            Some((found, number)) if found == group => Some(number),
            _ => None,
        }
    }

    fn first_from(&self, start: Bound<Key>) -> Option<Key>
        ensures { IsFirstMember start result self.now }
    {
        match self.untouched.range((start, Bound::Unbounded)).next() {
            Some(first) => Some(*first),
            None => None,
        }
    }

    fn last_to(&self, end: Bound<Key>) -> Option<Key>
        ensures { IsLastMember end result self.now }
    {
        match self.untouched.range((Bound::Unbounded, end)).next_back() {
            Some(last) => Some(*last),
            None => None,
        }
    }
}

/// Answers the first key of a group that is looked for.
fn start_of(start: Start) -> Bound<Key>
    ensures { result ≡ start_of start }
{
    match start {
        Start::Collection(collection) => {
            let first = Group {
                collection,
                record_type: 0,
            };
            Bound::Included((first, 0))
        }
        Start::Behind(group) => Bound::Excluded((group, u64::MAX)),
    }
}

/// Answers the group of an object, if its record type needs finalization.
fn group_of(needs: &[Need], object: &Allocation) -> Option<Group>
    ensures { (number : ℕ) → result ≡ group_of needs.now (known number object.now) }
{
    let Ty::Record(record_type) = object.ty else {
        return None;
    };
    if needs_finalization(needs, record_type) {
        return Some(Group {
            collection: object.collection,
            record_type,
        });
    }
    None
}

/// Answers the group of an object whose finalization has not begun.
#[tactic(auto, unfolding(ctl_meaning::specs::Objects::is_untouched))]
fn open_group(needs: &[Need], object: &Allocation) -> Option<Group>
    ensures { (number : ℕ) → result ≡ open_group needs.now (known number object.now) }
{
    match object.stage.life {
        Life::Untouched => group_of(needs, object),
        Life::Finalizing | Life::Finalized => None,
    }
}

/// Makes a count for a group that has none.
///
/// # Errors
///
/// `AllocError` where the allocator refuses the memory. Nothing changes then.
fn enter(counts: &mut Counts, group: Group) -> Result<(), AllocError>
    ensures same { KeepsCounts counts.old counts.new }
    ensures ok { OnOk result (is_some (count_of group counts.new) ≡ true) }
{
    if counts.contains_key(&group) {
        return Ok(());
    }
    let _ = counts.insert(group, 0)?;
    Ok(())
}

/// Counts one object more in a group that has a count.
fn raise(counts: &mut Counts, group: Group)
    requires there { is_some (count_of group counts.old) ≡ true }
    requires few { counted group counts.old + 1 < 2 ^ 64 }
    ensures { IsCounted group (counted group counts.old + 1) counts.old counts.new }
{
    if let Some(count) = counts.get_mut(&group) {
        *count += 1;
    }
}

/// Counts one object less in a group that has counted one.
fn lower(counts: &mut Counts, group: Group)
    requires { 0 < counted group counts.old }
    ensures { IsCounted group (counted group counts.old - 1) counts.old counts.new }
{
    if let Some(count) = counts.get_mut(&group) {
        *count -= 1;
    }
}
