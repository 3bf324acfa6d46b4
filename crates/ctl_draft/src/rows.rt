//! Rows of what was made, as one.

ghost use Rattle.std.specs.Prelude.{◌≡◌, IfOk, reverse};
ghost use Rattle.ctl_typing.specs.Typing as spec;

use sqlite_items::Items;
use std::alloc::{AllocError, Global};

/// Turns a row round: the last of it stands first.
#[tactic(auto, using(crate::proofs::Joined::turned_last))]
fn turned<T: Drop>(alloc: Global, row: Items<T>) -> Result<Items<T>, AllocError>
    ensures { IfOk result (λ back. back ≡ reverse row) }
{
    let mut left = row;
    let mut back = Items::new(alloc);
    while let Some(last) = left.pop() {
        back.push(last)?;
    }
    Ok(back)
}

/// Makes one row of these, one behind the other. Each is put behind those before it, so that what was put there does not move again.
#[tactic(auto, using(crate::proofs::Joined::turned_last, crate::proofs::Joined::turned_twice))]
pub fn together<T: Drop>(alloc: Global, rows: Items<Items<T>>) -> Result<Items<T>, AllocError>
    ensures { IfOk result (λ all. all ≡ spec.together rows) }
{
    let mut left = turned(alloc, rows)?;
    let mut all = Items::new(alloc);
    while let Some(row) = left.pop() {
        all.append(row)?;
    }
    Ok(all)
}
