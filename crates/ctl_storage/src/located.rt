//! Which objects lie in blocks of each pool.

ghost use Rattle.std.specs.Prelude.{◌≡◌, ◌&&◌, ℕ, false, nat_eq, if◌then◌else◌};
ghost use Rattle.owned_numbers.specs.Owned.{owns};
ghost use Rattle.ctl_storage.specs.Inside.{lies_in};

use crate::existing::{Allocation, Place};
use owned_numbers::OwnedNumbers;

/// Takes an object that is gone from its pool, where it lay in a block of one.
pub(crate) fn unlist_gone(located: &mut OwnedNumbers, gone: Option<Allocation>, number: u64)
    ensures { (p k : ℕ) → owns p k located.new ≡ (if lies_in p gone && nat_eq number k then false else owns p k located.old) }
{
    if let Some(
        Allocation {
            place: Place::InBlock(spot),
            ..
        },
    ) = gone
    {
        located.unlist(spot.pool, number);
    }
}
