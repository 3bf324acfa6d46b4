//! The number that came last, with its owner, where it stands apart from the others.

ghost use Rattle.std.specs.Prelude.{◌≡◌, ℕ, IfNone, IfSome, OnErr, OnOk, false};
ghost use Rattle.owned_numbers.specs.Owned.{IsApart, is_pair, with_newest};
ghost use Rattle.owned_numbers.specs.declared.newest.Newest.TheVariants.{Pair};

use crate::others::Others;
use std::alloc::AllocError;

/// The owner and the number that came last, or nothing where that was taken back since.
#[derive(Clone, Copy)]
pub(crate) enum Newest {
    Nothing,
    Pair(u64, u64),
}

impl Newest {
    /// Returns whether it is this number, of this owner.
    #[inline(always)]
    pub(crate) fn is_pair(&self, owner: u64, number: u64) -> bool
        ensures { result ≡ is_pair owner number self.now }
    {
        match self {
            Newest::Pair(own, last) => *own == owner && *last == number,
            Newest::Nothing => false,
        }
    }

    /// Returns the number, where it has this owner.
    #[inline(always)]
    pub(crate) fn number_of(&self, owner: u64) -> Option<u64>
        ensures some { IfSome result (λ n. self.now ≡ Pair owner n) }
        ensures none { IfNone result ((n : ℕ) → is_pair owner n self.now ≡ false) }
    {
        match self {
            Newest::Pair(own, number) if *own == owner => Some(*number),
            _ => None,
        }
    }

    /// Puts the number, where there is one, among the others.
    ///
    /// # Errors
    ///
    /// `AllocError` where the allocator refuses the memory. Nothing changes then.
    #[inline(always)]
    pub(crate) fn file(&self, others: &mut Others) -> Result<(), AllocError>
        requires { IsApart self.now others.old }
        ensures ok { OnOk result (others.new ≡ with_newest self.now others.old) }
        ensures err { OnErr result (others.new ≡ others.old) }
    {
        match self {
            Newest::Pair(owner, number) => others.list(*owner, *number),
            Newest::Nothing => Ok(()),
        }
    }
}
