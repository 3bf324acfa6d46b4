//! The entry of a map that came last, where it stands apart from the others.

ghost use Rattle.std.specs.Prelude.{◌≡◌, option_copied};
ghost use Rattle.std.specs.Borrow.{sem};
ghost use Rattle.std.specs.Option.{option_copied_mut};
ghost use Rattle.number_map.specs.Lending.{LendsNewest};
ghost use Rattle.number_map.specs.Newest.{entry_of, is_of, value_of};
ghost use Rattle.number_map.specs.declared.newest.Newest.TheVariants.{Nothing};

use std::mem::replace;

/// The entry that came last, or nothing where it was removed since.
#[derive(Drop)]
pub(crate) enum Newest<V> {
    Nothing,
    Entry(u64, V),
}

impl<V> Newest<V> {
    /// Returns whether it is the entry of this number.
    #[inline(always)]
    pub(crate) fn is_of(&self, number: u64) -> bool
        ensures { result ≡ is_of number self.now }
    {
        match self {
            Newest::Entry(own, _) => *own == number,
            Newest::Nothing => false,
        }
    }

    /// Returns its value, or `None` if there is none.
    #[inline(always)]
    pub(crate) fn value(&self) -> Option<&V>
        ensures { option_copied result ≡ value_of self.now }
    {
        match self {
            Newest::Entry(_, value) => Some(value),
            Newest::Nothing => None,
        }
    }

    /// Returns its value for writing, or `None` if there is none.
    #[inline(always)]
    pub(crate) fn value_mut(&mut self) -> Option<&mut V>
        ensures* writes_back { sem 𝓛 (LendsNewest V.row self.entry result) }
        ensures value { option_copied_mut result ≡ value_of self.old }
    {
        match self {
            Newest::Entry(_, value) => Some(value),
            Newest::Nothing => None,
        }
    }

    /// Takes it out and returns its number and its value, or returns `None` if there is none.
    pub(crate) fn take(&mut self) -> Option<(u64, V)>
        ensures entry { result ≡ entry_of self.old }
        ensures left { self.new ≡ Nothing }
    {
        match replace(self, Newest::Nothing) {
            Newest::Entry(number, value) => Some((number, value)),
            Newest::Nothing => None,
        }
    }

    /// Takes it out and returns its value, or returns `None` if there is none.
    #[inline(always)]
    pub(crate) fn take_value(&mut self) -> Option<V>
        ensures value { result ≡ value_of self.old }
        ensures left { self.new ≡ Nothing }
    {
        match replace(self, Newest::Nothing) {
            Newest::Entry(_, value) => Some(value),
            Newest::Nothing => None,
        }
    }
}
