//! The declarations in view, and the slots of the master around.

ghost use Rattle.std.specs.Prelude.{◌≡◌, OnOk, length, take};
ghost use Rattle.ctl_draft.specs.Draft as spec;

use crate::draft::{Around, Draft};
use ctl_program::types::{Ty, Var};
use ctl_syntax::item::Aliasing;
use ctl_tree::fault::FaultCode;
use ctl_tree::span::Span;
use ctl_typing::judging::{note, note_early};
use ctl_typing::notes::Deed;
use ctl_typing::table::{Entry, Mutability, ObjectEntry, Standing};
use sqlite_items::Items;
use std::alloc::{AllocError, Global};

/// Keeps only the first of some items.
pub fn keep_first<T: Drop>(items: &mut Items<T>, count: usize)
    ensures { items.new ≡ take count items.old }
{
    while items.len() > count {
        items.pop();
    }
}

impl Draft {
    /// Notes that a rule on types is broken, where it is.
    pub fn fault_when(&mut self, is_broken: bool, code: FaultCode, place: Span)
        ensures { self.new ≡ spec.fault_when is_broken code place self.old }
    {
        if is_broken {
            note(&mut self.notes, code, place);
        }
    }

    /// Notes that a rule on names, order or completion is broken, where it is.
    pub fn early_when(&mut self, is_broken: bool, code: FaultCode, place: Span)
        ensures { self.new ≡ spec.early_when is_broken code place self.old }
    {
        if is_broken {
            note_early(&mut self.notes, code, place);
        }
    }

    /// Asks for what expressions do from here on.
    pub fn ask(&mut self, alloc: Global)
        ensures { self.new ≡ spec.asking self.old }
    {
        self.notes.deeds = Some(Items::new(alloc));
    }

    /// Takes what the expressions did since that was asked for; no more is asked for.
    pub fn take_deeds(&mut self, alloc: Global) -> Items<Deed>
        ensures deeds { result ≡ spec.deeds_of self.old }
        ensures draft { self.new ≡ spec.asked self.old }
    {
        match self.notes.deeds.take() {
            Some(deeds) => deeds,
            None => Items::new(alloc),
        }
    }

    /// Puts one more declaration into view.
    pub fn declare(&mut self, entry: Entry) -> Result<(), AllocError>
        ensures { OnOk result (self.new ≡ spec.declare entry self.old) }
    {
        self.tables.entries.push(entry)
    }

    /// Tells whether the part around has a declaration of a number.
    pub fn is_declared_in(&self, around: Around, number: usize) -> bool
        ensures { result ≡ spec.is_declared_in around number self.now }
    {
        around.start <= number && number < self.tables.entries.len()
    }

    /// Enters the declaration of a number: a new one, or what completes one of the part (RM 3.11.1).
    pub fn enter(&mut self, around: Around, number: usize, entry: Entry) -> Result<(), AllocError>
        ensures { OnOk result (self.new ≡ spec.enter around number entry self.old) }
    {
        if self.is_declared_in(around, number) {
            self.tables.entries.set(number, entry);
            return Ok(());
        }
        self.declare(entry)
    }

    /// Leaves only the first declarations in view.
    pub fn leave_view(&mut self, count: usize)
        ensures { self.new ≡ spec.leave_view count self.old }
    {
        keep_first(&mut self.tables.entries, count);
    }

    /// Answers where the next slot of the master around is found.
    pub fn next_var(&self, around: Around) -> Var
        ensures { result ≡ spec.next_var around self.now }
    {
        Var {
            level: around.level,
            slot: self.slots.len(),
        }
    }

    /// Takes the next slot of the master around.
    pub fn take_slot(&mut self, ty: Ty) -> Result<(), AllocError>
        ensures { OnOk result (self.new ≡ spec.take_slot ty self.old) }
    {
        self.slots.push(ty)
    }

    /// Puts one more object into view, with the next slot.
    pub fn declare_object(
        &mut self,
        around: Around,
        ty: Ty,
        standing: Standing,
        mutability: Mutability,
        aliasing: Aliasing,
    ) -> Result<(), AllocError>
        ensures { OnOk result (self.new ≡ spec.declare_object around ty standing mutability aliasing self.old) }
    {
        let var = self.next_var(around);
        self.declare(Entry::Object(ObjectEntry {
            ty,
            var,
            standing,
            mutability,
            aliasing,
        }))?;
        self.take_slot(ty)
    }
}
