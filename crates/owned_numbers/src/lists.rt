//! The lists of the owners' numbers.

ghost use Rattle.std.specs.Prelude.{◌≡◌, ◌<◌, ℕ, IfOk, IsSome, None, OnErr, OnOk, length};
ghost use Rattle.std.specs.FinMap.{get};
ghost use Rattle.owned_numbers.specs.Lists.{IsAppended, IsSwapped, IsTakenOut, item_at};

use number_map::NumberMap;
use std::alloc::{AllocError, Global};

/// The numbers of each owner that has some, in a list.
pub(crate) type Lists = NumberMap<Vec<u64>>;

/// Appends a number to the list of an owner, and returns its index there.
///
/// # Errors
///
/// `AllocError` where the allocator refuses the memory. No number is appended then.
pub(crate) fn append(
    lists: &mut Lists,
    alloc: Global,
    owner: u64,
    number: u64,
) -> Result<usize, AllocError>
    ensures ok { IfOk result (λ i. IsAppended owner i number lists.old.values lists.new.values) }
    ensures err { OnErr result ((q j : ℕ) → item_at lists.new.values q j ≡ item_at lists.old.values q j) }
{
    if let Some(list) = lists.get_mut(owner) {
        let index = list.len();
        list.push(number)?;
        return Ok(index);
    }
    append_first(lists, alloc, owner, number)?;
    Ok(0)
}

/// Makes the list of an owner that has none, of one number.
///
/// # Errors
///
/// `AllocError` where the allocator refuses the memory. Nothing changes then.
fn append_first(lists: &mut Lists, alloc: Global, owner: u64, number: u64) -> Result<(), AllocError>
    requires { get lists.old.values owner ≡ None }
    ensures ok { OnOk result (IsAppended owner 0 number lists.old.values lists.new.values) }
    ensures err { OnErr result (lists.new.values ≡ lists.old.values) }
{
    let mut list = Vec::new(alloc);
    list.push(number)?;
    lists.reserve()?;
    lists.put_new(owner, list);
    Ok(())
}

/// Takes the number at an index out of the list of an owner. The last one comes to its place: it is
/// returned where it is another one. A list that is empty then is freed.
pub(crate) fn take_out(lists: &mut Lists, owner: u64, index: usize) -> Option<u64>
    requires { IsSome (item_at lists.old.values owner index) }
    ensures { IsTakenOut owner index result lists.old.values lists.new.values }
{
    let Some(list) = lists.get_mut(owner) else {
        unreachable!();
    };
    let moved = swap_out(list, index);
    if let None = moved {
        free_empty(lists, owner);
    }
    moved
}

/// Takes the number at an index out of a list. The last one comes to its place: it is returned where
/// it is another one.
fn swap_out(list: &mut Vec<u64>, index: usize) -> Option<u64>
    requires { index < length list.old.items }
    ensures { IsSwapped index result list.old.items list.new.items }
{
    match list.pop() {
        Some(last) => {
            if index < list.len() {
                list[index] = last;
                Some(last)
            } else {
                None
            }
        }
        None => unreachable!(),
    }
}

/// Frees the list of an owner, where it is empty.
fn free_empty(lists: &mut Lists, owner: u64)
    ensures { (q j : ℕ) → item_at lists.new.values q j ≡ item_at lists.old.values q j }
{
    if let Some(list) = lists.get(owner) {
        if list.is_empty() {
            let _ = lists.remove(owner);
        }
    }
}
