//! What a slot holds, where a master stands among the active ones, and which master a collection belongs to.

ghost use Rattle.std.specs.Prelude.{◌≡◌, ◌≤◌, ℕ, IfNone, IfSome, Some, drop, length, reverse, slice_get, take};
ghost use Rattle.ctl_meaning.specs.Allocation as Allocation;
ghost use Rattle.ctl_meaning.specs.Ledger.{master_in};
ghost use Rattle.ctl_meaning.specs.World.{Nothing};
ghost use Rattle.ctl_frames.specs.declared.frame.Owned.{Owned};
ghost use Rattle.std.specs.Option.{option_map};
ghost use Rattle.ctl_frames.specs.Owned.{HaveCome, IsSet, collection_of, set_in, sets_owned};
ghost use Rattle.ctl_code.specs.Table as Table;
ghost use Rattle.ctl_frames.specs.Holders.{IsMasterOf, IsThere, formal_in, found_in, holder_in, own_formals};
ghost use Rattle.ctl_frames.specs.Masters.{AreBelow};

use ctl_frames::frame::{Formal, Holder, Master, Owned, Role};

/// Answers the place of the formal of this slot, if there is one among those from one place up to another.
fn formal(formals: &[Formal], start: usize, end: usize, slot: usize) -> Option<Holder>
    requires { end ≤ length formals.now }
    ensures part { found_in formals.now result ≡ Table.word_of (formal_in (drop start (take end formals.now)) slot) }
    ensures there { IfSome result (IsThere formals.now) }
{
    let mut at = end;
    while at > start {
        at -= 1;
        if formals[at].slot == slot {
            return Some(Holder::Bound(at));
        }
    }
    None
}

/// Answers what a slot of a master holds, if it is an object or a part of one: the newest object that was declared there, among what came
/// from one place up to another, which the master owns, or else the part that one of its formals stands for, which are those from one place
/// up to another, too.
pub fn holder(
    owned: &[Owned],
    start: usize,
    end: usize,
    slot: usize,
    formals: &[Formal],
    master: &Master,
) -> Option<Holder>
    requires owned { end ≤ length owned.now }
    requires formals { master.now.formals ≤ length formals.now }
    ensures part { found_in formals.now result ≡ Table.word_of (holder_in (drop start (take end owned.now)) slot (formal_in (own_formals master.now formals.now) slot)) }
    ensures there { IfSome result (IsThere formals.now) }
{
    let mut at = end;
    while at > start {
        at -= 1;
        let newest = owned[at];
        if newest.slot == slot {
            return match newest.role {
                Role::Object { .. } => Some(Holder::Whole(newest.number)),
                Role::Collection { .. } => None,
            };
        }
    }
    formal(formals, master.outer_formals, master.formals, slot)
}

/// Answers the number of the collection that a slot of a master holds, among what came from one place up to another, which the master
/// owns: what came there last is it; 0 where that is none.
pub fn held_set(owned: &[Owned], start: usize, end: usize, slot: usize) -> u64
    requires { end ≤ length owned.now }
    ensures { result ≡ Allocation.set_in (holder_in (drop start (take end owned.now)) slot Nothing) }
{
    let mut at = end;
    while at > start {
        at -= 1;
        let newest = owned[at];
        if newest.slot == slot {
            return match newest.role {
                Role::Object { .. } => 0,
                Role::Collection { .. } => newest.number,
            };
        }
    }
    0
}

/// Finds the active master of this number, among these, the outermost first, whose numbers rise: it is the newest of so many; 0 where there
/// is none.
#[inline(always)]
pub fn master_at(masters: &[Master], number: u64) -> usize
    requires { (bound : ℕ) × AreBelow (reverse masters.now) bound }
    ensures { IsMasterOf masters.now number result }
{
    // Most often it is the newest master.
    if let [.., newest] = masters {
        if newest.number == number {
            return masters.len();
        }
    }
    let mut low = 0;
    let mut high = masters.len();
    while low < high {
        let middle = low + (high - low) / 2;
        let found = masters[middle].number;
        if found == number {
            return middle + 1;
        }
        if found < number {
            low = middle + 1;
        } else {
            high = middle;
        }
    }
    0
}

/// Finds the collection of this number among what is owned, the oldest first: its place, if it is there.
fn set_at(owned: &[Owned], number: u64) -> Option<usize>
    requires { (given : ℕ) × HaveCome 0 owned.now given }
    ensures some { IfSome result (λ at. (o : Owned) × (slice_get owned.now at ≡ Some o) × IsSet number o) }
    ensures none { IfNone result ((at : ℕ) (o : Owned) → slice_get owned.now at ≡ Some o → IsSet number o → ⊥) }
{
    let mut low = 0;
    let mut high = owned.len();
    while low < high {
        let middle = low + (high - low) / 2;
        let found = owned[middle];
        if found.collections < number {
            low = middle + 1;
        } else if found.is_set(number) {
            return Some(middle);
        } else {
            high = middle;
        }
    }
    None
}

/// Finds the collection of this number, if it is there.
pub fn find_set(owned: &[Owned], number: u64) -> Option<Owned>
    requires { (given : ℕ) × HaveCome 0 owned.now given }
    ensures { option_map collection_of result ≡ set_in number (sets_owned owned.now) }
{
    match set_at(owned, number) {
        Some(at) => Some(owned[at]),
        None => None,
    }
}

/// Answers the master that the collection of this number belongs to; 0 where there is none.
pub fn master_of_set(owned: &[Owned], number: u64) -> u64
    requires { (given : ℕ) × HaveCome 0 owned.now given }
    ensures { result ≡ master_in (set_in number (sets_owned owned.now)) }
{
    match find_set(owned, number) {
        Some(set) => set.master,
        None => 0,
    }
}
