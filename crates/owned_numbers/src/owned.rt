//! The numbers with their owners.

ghost use Rattle.std.specs.Prelude.{◌≡◌, ℕ, ◌+◌, ◌<◌, ◌^◌, IfNone, IfSome, OnErr, OnOk, false, true, if◌then◌else◌};
ghost use Rattle.owned_numbers.specs.Owned.{OwnsAs, owns};

use crate::newest::Newest;
use crate::others::Others;
use std::alloc::{AllocError, Global};
use std::marker::Model;

/// Which numbers belong to which owner. Each call takes constant time on average.
///
/// The number that came last stands apart from the others, with its owner: one that is taken back
/// before the next comes is never hashed, and takes no memory.
#[derive(Drop)]
pub struct OwnedNumbers {
    newest: Newest,
    others: Others,
}

impl Model for OwnedNumbers {
    ghost use Rattle.owned_numbers.specs.Owned.{IsApart, Owned, owned_code, with_newest};

    ghost Value = { Owned };

    ghost coded = { owned_code };

    ghost view = { λ m. with_newest m.newest m.others };

    ghost invariant = { λ m. IsApart m.newest m.others };
}

impl OwnedNumbers {
    /// Makes no number. Takes no memory.
    pub fn new(alloc: Global) -> OwnedNumbers
        ensures none { (p n : ℕ) → owns p n result ≡ false }
        ensures size { result.size ≡ 0 }
    {
        OwnedNumbers {
            newest: Newest::Nothing,
            others: Others::new(alloc),
        }
    }

    /// Says that the numbers are not too many to be counted.
    pub fn are_few(&self)
        ensures { self.now.size < 2 ^ 63 }
    {
        self.others.are_few();
    }

    /// Lists a number that has no owner for one.
    ///
    /// # Errors
    ///
    /// `AllocError` where the allocator refuses the memory. Nothing changes then.
    #[inline(always)]
    pub fn list(&mut self, owner: u64, number: u64) -> Result<(), AllocError>
        requires { (p : ℕ) → owns p number self.old ≡ false }
        ensures ok { OnOk result (OwnsAs true owner number self.old self.new) }
        ensures size { OnOk result (self.new.size ≡ self.old.size + 1) }
        ensures err { OnErr result (self.new ≡ self.old) }
    {
        self.newest.file(&mut self.others)?;
        self.newest = Newest::Pair(owner, number);
        Ok(())
    }

    /// Takes a number from those of an owner, where it has it.
    #[inline(always)]
    pub fn unlist(&mut self, owner: u64, number: u64)
        ensures gone { OwnsAs false owner number self.old self.new }
        ensures size { self.new.size + (if owns owner number self.old then 1 else 0) ≡ self.old.size }
    {
        if self.newest.is_pair(owner, number) {
            self.newest = Newest::Nothing;
        } else {
            self.others.unlist(owner, number);
        }
    }

    /// Returns some number of an owner, or `None` if it has none.
    pub fn any_of(&self, owner: u64) -> Option<u64>
        ensures some { IfSome result (λ n. owns owner n self.now ≡ true) }
        ensures none { IfNone result ((n : ℕ) → owns owner n self.now ≡ false) }
    {
        match self.newest.number_of(owner) {
            Some(number) => Some(number),
            None => self.others.any_of(owner),
        }
    }
}
