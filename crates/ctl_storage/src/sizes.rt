//! The discriminants of the pools, by the numbers of their objects.

ghost use Rattle.std.specs.Prelude.{◌≡◌, ◌<◌, OnOk, false, option_copied};
ghost use Rattle.std.specs.FinMap as map;

use crate::pools::PoolSize;
use number_map::NumberMap;
use std::alloc::{AllocError, Global};
use std::marker::Model;

/// Whether a pool was ever noted.
#[derive(Clone, Copy)]
enum Usage {
    Unused,
    Used,
}

/// The discriminants of the pools, which contracts see as a table by the numbers of their objects.
#[derive(Drop)]
pub struct PoolSizes {
    sizes: NumberMap<PoolSize>,
    usage: Usage,
}

impl Model for PoolSizes {
    ghost use Rattle.std.specs.Prelude.{◌≡◌};
    ghost use Rattle.std.specs.FinMap.{empty};
    ghost use Rattle.number_map.specs.Table.{Table, table_code};
    ghost use Rattle.ctl_storage.specs.Codes.{size_code};
    ghost use Rattle.ctl_storage.specs.declared.pools.PoolSize.{PoolSize};
    ghost use Rattle.ctl_storage.specs.Sizes.{IfUnused};

    ghost Value = { Table PoolSize };

    ghost coded = { table_code size_code };

    ghost view = { λ s. s.sizes };

    ghost invariant = { λ s. IfUnused s.usage (s.sizes.values ≡ empty) };
}

impl PoolSizes {
    /// Notes no pool. It takes no memory.
    pub fn new(alloc: Global) -> PoolSizes
        ensures values { result.values ≡ map.empty }
    {
        PoolSizes {
            sizes: NumberMap::new(alloc),
            usage: Usage::Unused,
        }
    }

    /// Reserves room for one more pool.
    ///
    /// # Errors
    ///
    /// `AllocError` where the allocator refuses the memory.
    pub fn reserve(&mut self) -> Result<(), AllocError>
        ensures values { self.new.values ≡ self.old.values }
        ensures room { OnOk result (0 < self.new.room) }
    {
        self.sizes.reserve()
    }

    /// Notes the discriminants of a pool, for which there is room.
    pub fn put(&mut self, number: u64, size: PoolSize)
        requires { 0 < self.old.room }
        ensures values { self.new.values ≡ map.insert self.old.values number size }
    {
        self.usage = Usage::Used;
        self.sizes.put(number, size);
    }

    /// Answers the discriminants of a pool, where there is one of this number. Where no pool was ever
    /// noted, it takes no look-up.
    #[inline(always)]
    pub fn get(&self, number: u64) -> Option<&PoolSize>
        ensures { option_copied result ≡ map.get self.now.values number }
    {
        if !self.are_used() {
            return None;
        }
        self.noted(number)
    }

    /// Looks the discriminants of a pool up, where there is one of this number.
    fn noted(&self, number: u64) -> Option<&PoolSize>
        ensures { option_copied result ≡ map.get self.now.values number }
    {
        self.sizes.get(number)
    }

    /// Forgets a pool, where there is one of this number, and answers its discriminants.
    pub fn remove(&mut self, number: u64) -> Option<PoolSize>
        ensures value { result ≡ map.get self.old.values number }
        ensures values { self.new.values ≡ map.remove self.old.values number }
    {
        self.sizes.remove(number)
    }

    /// Answers whether a pool was ever noted. It takes constant time, and no look-up.
    #[inline(always)]
    pub fn are_used(&self) -> bool
        ensures { result ≡ false → self.now.values ≡ map.empty }
    {
        match self.usage {
            Usage::Unused => false,
            Usage::Used => true,
        }
    }
}
