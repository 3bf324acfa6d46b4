//! Lists that take the space of their items.

ghost use Rattle.std.specs.Prelude.{◌≡◌, ◌++◌, ◌∷◌, [], IfOk, Ok};

use sqlite_items::Items;
use std::alloc::{AllocError, Global};

/// Makes an empty list with space for so many items. A list that grows by itself takes space for four at its first item, while most lists of a
/// tree have one item, and items are large.
pub fn room_for<T>(alloc: Global, count: usize) -> Result<Items<T>, AllocError>
    ensures { IfOk result (λ list. list ≡ []) }
{
    let room = Vec::with_capacity(alloc, count)?;
    Ok(Items::from_vec(room))
}

/// Puts what was made next behind a list; where memory was refused for it, the list is dropped here, and is in no other function's way.
pub fn added<T: Drop>(list: Items<T>, next: Result<T, AllocError>) -> Result<Items<T>, AllocError>
    ensures { IfOk result (λ all. (x : T) × (next ≡ Ok x) × (all ≡ list ++ x ∷ [])) }
{
    let mut all = list;
    all.push(next?)?;
    Ok(all)
}
