ghost use Rattle.std.specs.Prelude.{◌≡◌, ◌<◌, length, slice_get, OnOk, OnErr};
ghost use Rattle.fin_lists.specs.Masters.{empty_master, with_object, with_collection, without_newest};

use std::alloc::{AllocError, Allocator, Global};
use std::marker::Model;

/// A layer of a master (RM 7.6.1(9)).
#[derive(Clone, Copy, Debug, PartialEq, Eq)]
pub enum Kept {
    /// a declared object, by its number
    Declared(u64),
    /// the collections of one freezing place, by the number of the first
    Gathered(u64),
}

/// What is to be finalized with a master.
#[derive(Drop)]
pub struct Master<A: Allocator = Global> {
    // Both from the oldest on.
    layers: Vec<Kept, A>,
    collections: Vec<u64, A>,
}

impl<A: Allocator> Model for Master<A> {
    ghost use Rattle.std.specs.Prelude.{reverse};
    ghost use Rattle.fin_lists.specs.Masters.{Master as Seen};

    ghost Value = { Seen };

    ghost view = { λ m. record { layers = reverse m.layers.items; collections = m.collections.items } };
}

impl<A: Allocator + Copy> Master<A> {
    /// Makes a master with nothing to finalize. Takes no memory.
    pub fn new(alloc: A) -> Master<A>
        ensures { result ≡ empty_master }
    {
        Master {
            layers: Vec::new(alloc),
            collections: Vec::new(alloc),
        }
    }
}

impl<A: Allocator> Master<A> {
    /// Returns the newest layer, or `None` if there is none.
    pub fn newest(&self) -> Option<Kept>
        ensures { result ≡ slice_get self.now.layers 0 }
    {
        self.layers.last().copied()
    }

    /// Returns the collections, in the order of their numbers.
    pub fn collections(&self) -> &[u64]
        ensures { result.now ≡ self.now.collections }
    {
        self.collections.as_slice()
    }

    /// Adds an object as the newest layer.
    ///
    /// # Errors
    ///
    /// Returns `AllocError` if the allocator refuses the memory. Nothing changes then.
    pub fn add_object(&mut self, object: u64) -> Result<(), AllocError>
        ensures ok { OnOk result (self.new ≡ with_object object self.old) }
        ensures err { OnErr result (self.new ≡ self.old) }
    {
        self.layers.push(Kept::Declared(object))?;
        Ok(())
    }

    /// Adds a collection: to the newest layer if it joins that one, and else as the newest layer.
    ///
    /// # Errors
    ///
    /// Returns `AllocError` if the allocator refuses the memory. Nothing changes then.
    pub fn add_collection(&mut self, set: u64, joins: bool) -> Result<(), AllocError>
        ensures ok { OnOk result (self.new ≡ with_collection joins set self.old) }
        ensures err { OnErr result (self.new ≡ self.old) }
    {
        self.layers.reserve(1)?;
        self.collections.push(set)?;
        if !joins {
            self.layers.push_reserved(Kept::Gathered(set));
        }
        Ok(())
    }

    /// Removes the newest layer.
    pub fn drop_newest(&mut self)
        ensures { self.new ≡ without_newest self.old }
    {
        let _ = self.layers.pop();
    }
}
