//! What stands in the windows of the machine before each instruction.

ghost use Rattle.std.specs.Prelude.{◌≡◌, ◌↔◌, ℕ, ◌<◌, ◌≤◌, [], ◌∷◌, ◌++◌, drop, length, reverse, slice_get, IsTrue, OnOk, MatchOption, List, Some};
ghost use Rattle.ctl_code.specs.declared.kinds.Kind.{Kind};
ghost use Rattle.ctl_code.specs.declared.kinds.Kind.TheVariants.{Default};
ghost use Rattle.ctl_code.specs.Kinds.{below_newest, changed, stack_at, stack_in, stacks_in};
ghost use Rattle.ctl_code.specs.Valid.{HaveNumbers, images_of, over_numbers};
ghost use Rattle.ctl_code.specs.Windows.{HasSlot, OwnsSlot, depth, height, master_at, slots_at, variable_at};

use crate::homes::{Declaration, Homes};
use crate::images::has_images_on;
use crate::stacks::Stacks;
use crate::template::TextPart;
use crate::types::is_same_type;
use ctl_program::types::Ty;
use std::alloc::{AllocError, Global};
use std::marker::Model;

/// What stands in a window: an operand in one cell, or the cells of the slots of a master that was entered and is not left.
#[derive(Clone, Copy)]
pub enum Kind {
    /// an operand of this type: of a record type, a part of an object
    Operand(Ty),
    /// an operand that is the value of a record
    RecordValue,
    /// a block with so many slots (RM 5.6)
    Block(usize),
    /// a body: how many masters stand around its declaration, how many slots it has, and its number in the table of subprograms
    Body {
        level: usize,
        slots: usize,
        number: usize,
    },
    /// a default expression that is evaluated: how many masters stand around the declaration of the record type that has the component, and
    /// the number of this type (RM 3.8)
    Default {
        level: usize,
        number: usize,
    },
}

/// Where it is said how many slots a master has that stands around an instruction: the body has entered it, with so many, or it stands
/// around this declaration, that of the body or that of the record type whose default is evaluated (RM 6.1, 3.8, 3.10.2).
#[derive(Clone, Copy)]
pub enum MasterAt {
    Entered(usize),
    Around(Declaration),
}

/// Tells whether both are one kind.
pub fn is_same_kind(left: Kind, right: Kind) -> bool
    ensures { IsTrue result ↔ (left ≡ right) }
{
    match left {
        Kind::Operand(ty) => matches!(right, Kind::Operand(other) if is_same_type(ty, other)),
        Kind::RecordValue => matches!(right, Kind::RecordValue),
        Kind::Block(slots) => matches!(right, Kind::Block(other) if other == slots),
        Kind::Body {
            level,
            slots,
            number,
        } => {
            matches!(right, Kind::Body { level: other, slots: others, number: of_other } if other == level && others == slots && of_other == number)
        }
        Kind::Default { level, number } => {
            matches!(right, Kind::Default { level: other, number: of_other } if other == level && of_other == number)
        }
    }
}

/// Answers the number of the stack before the instruction at a place; the empty one after the last.
#[inline(always)]
fn number_at(before: &[usize], place: usize) -> usize
    ensures { (stacks : List (List Kind)) → stack_in stacks result ≡ stack_at (stacks_in stacks before.now) place }
{
    match before.get(place) {
        Some(number) => *number,
        None => 0,
    }
}

/// Answers the number of what stands before the instruction at a place, under so many newer ones.
#[inline(always)]
fn number_under(stacks: &Stacks, before: &[usize], place: usize, under: usize) -> usize
    ensures { stack_in stacks.now result ≡ drop under (stack_at (stacks_in stacks.now before.now) place) }
{
    stacks.without(number_at(before, place), under)
}

/// Answers how many cells the highest of these stacks has.
fn greatest_height(stacks: &Stacks, before: &[usize]) -> usize
    ensures { (place number : ℕ) → slice_get before.now place ≡ Some number → height (stack_in stacks.now number) ≤ result }
{
    let mut greatest = 0;
    for number in before {
        greatest = stacks.height(*number).max(greatest);
    }
    greatest
}

/// Tells whether each of these stacks has at most so many cells.
fn are_at_most(stacks: &Stacks, before: &[usize], room: usize) -> bool
    ensures { IsTrue result ↔ ((place number : ℕ) → slice_get before.now place ≡ Some number → height (stack_in stacks.now number) ≤ room) }
{
    for number in before {
        if stacks.height(*number) > room {
            return false;
        }
    }
    true
}

/// The table of kinds: what stands on the stacks before each instruction of a body, the newest first. How high each of these stacks is stands
/// beside them, since a block and a body begin behind it.
///
/// A contract sees it as the list of these stacks, one for each instruction.
#[derive(Drop)]
pub struct Kinds {
    stacks: Stacks,
    before: Vec<usize>,
    heights: Vec<usize>,
}

impl Model for Kinds {
    ghost use Rattle.std.specs.Prelude.{◌≡◌, List, map};
    ghost use Rattle.ctl_code.specs.declared.kinds.Kind.{Kind};
    ghost use Rattle.ctl_code.specs.Kinds.{stacks_in};
    ghost use Rattle.ctl_code.specs.Windows.{height};

    ghost Value = { List (List Kind) };

    ghost view = { λ k. stacks_in k.stacks k.before.items };

    ghost invariant = { λ k. k.heights.items ≡ map height (stacks_in k.stacks k.before.items) };
}

impl Kinds {
    /// Counts the instructions that it has stacks of.
    pub fn len(&self) -> usize
        ensures { result ≡ length self.now }
    {
        self.before.len()
    }

    /// Answers what stands before the instruction at a place, under so many newer ones.
    pub fn kind_at(&self, place: usize, depth: usize) -> Option<Kind>
        ensures { result ≡ slice_get (stack_at self.now place) depth }
    {
        let stack = number_under(&self.stacks, self.before.as_slice(), place, depth);
        match self.stacks.top(stack) {
            Some((kind, _)) => Some(kind),
            None => None,
        }
    }

    /// Answers how many cells of a window are in use before the instruction at a place, under so many newer ones.
    #[inline(always)]
    pub fn height_at(&self, place: usize, under: usize) -> usize
        ensures { result ≡ height (drop under (stack_at self.now place)) }
    {
        let stack = number_under(&self.stacks, self.before.as_slice(), place, under);
        self.stacks.height(stack)
    }

    /// Answers how many cells of a window are in use before the instruction at a place.
    #[inline(always)]
    pub fn height_before(&self, place: usize) -> usize
        requires { place < length self.now }
        ensures { result ≡ height (stack_at self.now place) }
    {
        self.heights[place]
    }

    /// Answers the cell of a slot of the master so many further out, before the instruction at a place, under so many newer ones; None
    /// where the body has none there.
    pub fn variable_at(&self, place: usize, under: usize, out: usize, slot: usize) -> Option<usize>
        ensures { result ≡ variable_at (drop under (stack_at self.now place)) out slot }
    {
        let stack = number_under(&self.stacks, self.before.as_slice(), place, under);
        self.stacks.variable_at(stack, out, slot)
    }

    /// Answers where the slots of the master at a level, the outermost at 0, are said that stands around the instruction at a place.
    pub fn master_at(&self, place: usize, level: usize) -> MasterAt
        ensures { result ≡ master_at (stack_at self.now place) level }
    {
        let stack = number_under(&self.stacks, self.before.as_slice(), place, 0);
        self.stacks.master_at(stack, level)
    }

    /// Answers how many slots that master has at least, by what is said of the masters around bodies.
    pub fn slots_at(&self, place: usize, level: usize, homes: &Homes) -> usize
        ensures { result ≡ slots_at homes.now (stack_at self.now place) level }
    {
        match self.master_at(place, level) {
            MasterAt::Entered(slots) => slots,
            MasterAt::Around(of) => homes.at(of, level),
        }
    }

    /// Tells whether the master so many further out stands around the instruction at a place, and has this slot.
    pub fn has_slot(&self, place: usize, out: usize, slot: usize, homes: &Homes) -> bool
        ensures { IsTrue result ↔ HasSlot homes.now (stack_at self.now place) out slot }
    {
        let depth = self.depth_at(place);
        out < depth && slot < self.slots_at(place, depth - 1 - out, homes)
    }

    /// Tells whether a default expression begins to be evaluated at a place, where at most so many masters stand around (RM 3.8).
    pub fn is_default(&self, place: usize, masters: usize) -> bool
        ensures { IsTrue result ↔ ((level : ℕ) × (number : ℕ) × (level ≤ masters) × (slice_get self.now place ≡ Some (Default level number ∷ []))) }
    {
        match self.alone_at(place) {
            Some(Kind::Default { level, .. }) => level <= masters,
            _ => false,
        }
    }

    /// Answers the number of the record type whose default expression begins to be evaluated at a place; None where none does (RM 3.8).
    pub fn default_at(&self, place: usize) -> Option<usize>
        ensures { MatchOption result ((level number : ℕ) → slice_get self.now place ≡ Some (Default level number ∷ []) → ⊥) (λ number. (level : ℕ) × (slice_get self.now place ≡ Some (Default level number ∷ []))) }
    {
        match self.alone_at(place) {
            Some(Kind::Default { number, .. }) => Some(number),
            _ => None,
        }
    }

    /// Answers what alone stands before the instruction at a place of the table; None where nothing does, or more.
    fn alone_at(&self, place: usize) -> Option<Kind>
        ensures { MatchOption result ((kind : Kind) → slice_get self.now place ≡ Some (kind ∷ []) → ⊥) (λ kind. slice_get self.now place ≡ Some (kind ∷ [])) }
    {
        match self.before.get(place) {
            Some(stack) => match self.stacks.top(*stack) {
                Some((kind, below)) if self.stacks.top(below).is_none() => Some(kind),
                _ => None,
            },
            None => None,
        }
    }

    /// Tells whether the newest master around the instruction at a place has this slot, and the body has entered it.
    pub fn owns_slot(&self, place: usize, slot: usize) -> bool
        ensures { IsTrue result ↔ OwnsSlot (stack_at self.now place) slot }
    {
        let stack = number_under(&self.stacks, self.before.as_slice(), place, 0);
        self.stacks.owns_slot(stack, slot)
    }

    /// Answers how many masters stand around the instruction at a place.
    pub fn depth_at(&self, place: usize) -> usize
        ensures { result ≡ depth (stack_at self.now place) }
    {
        let stack = number_under(&self.stacks, self.before.as_slice(), place, 0);
        self.stacks.depth(stack)
    }

    /// Tells whether a window with so many cells is enough before each instruction.
    pub fn is_room(&self, room: usize) -> bool
        ensures { IsTrue result ↔ ((place : ℕ) (stack : List Kind) → slice_get self.now place ≡ Some stack → height stack ≤ room) }
    {
        are_at_most(&self.stacks, self.before.as_slice(), room)
    }

    /// Tells whether what an instruction makes of the stack before one place stands before another: it takes so many of the newest, and
    /// puts this on top, if any.
    pub fn leads(&self, from: usize, taken: usize, new: Option<Kind>, to: usize) -> bool
        ensures { IsTrue result ↔ (slice_get self.now to ≡ Some (changed taken new (stack_at self.now from))) }
    {
        let stack = number_at(self.before.as_slice(), from);
        match self.before.get(to) {
            Some(to) => self
                .stacks
                .is_with_top(*to, new, self.stacks.without(stack, taken)),
            None => false,
        }
    }

    /// Tells whether so many numbers stand before one place, over what is made of the stack before another: so many of the newest are taken,
    /// and this is put on top, if any.
    pub fn leads_over_numbers(
        &self,
        from: usize,
        taken: usize,
        new: Option<Kind>,
        count: usize,
        to: usize,
    ) -> bool
        ensures { IsTrue result ↔ (slice_get self.now to ≡ Some (over_numbers count (changed taken new (stack_at self.now from)))) }
    {
        let below = number_under(&self.stacks, self.before.as_slice(), from, taken);
        match self.before.get(to) {
            Some(to) => self.stacks.is_over_numbers(*to, count, new, below),
            None => false,
        }
    }

    /// Tells whether so many numbers stand on top before the instruction at a place.
    pub fn has_numbers(&self, place: usize, count: usize) -> bool
        ensures { IsTrue result ↔ HaveNumbers count (stack_at self.now place) }
    {
        self.stacks
            .has_numbers(number_at(self.before.as_slice(), place), count)
    }

    /// Tells whether nothing stands before the instruction at a place of the table.
    pub fn is_bare_at(&self, place: usize) -> bool
        ensures { IsTrue result ↔ (slice_get self.now place ≡ Some []) }
    {
        match self.before.get(place) {
            Some(stack) => self.stacks.top(*stack).is_none(),
            None => false,
        }
    }

    /// Tells whether this alone stands before the instruction at a place of the table.
    pub fn stands_alone(&self, place: usize, kind: Kind) -> bool
        ensures { IsTrue result ↔ (slice_get self.now place ≡ Some (kind ∷ [])) }
    {
        match self.before.get(place) {
            Some(stack) => self.stacks.is_with_top(*stack, Some(kind), 0),
            None => false,
        }
    }

    /// Tells whether the operands that the images of a text take stand on top before the instruction at a place.
    pub fn has_images(&self, place: usize, parts: &[TextPart]) -> bool
        ensures { IsTrue result ↔ ((below : List Kind) × (stack_at self.now place ≡ reverse (images_of parts.now) ++ below)) }
    {
        has_images_on(
            &self.stacks,
            number_at(self.before.as_slice(), place),
            parts,
        )
    }
}

/// Notes the kinds while instructions are made.
///
/// A contract sees what was noted, and what stands on the stacks now.
#[derive(Drop)]
pub struct KindNotes {
    stacks: Stacks,
    before: Vec<usize>,
    heights: Vec<usize>,
    standing: usize,
}

impl Model for KindNotes {
    ghost use Rattle.std.specs.Prelude.{◌≡◌, ◌≤◌, length, map};
    ghost use Rattle.std.specs.List.{All};
    ghost use Rattle.ctl_code.specs.Kinds.{Noted, stack_in, stacks_in};
    ghost use Rattle.ctl_code.specs.Windows.{height};

    ghost Value = { Noted };

    ghost view = { λ k. record { before = stacks_in k.stacks k.before.items; standing = stack_in k.stacks k.standing } };

    ghost invariant = { λ k. All (λ n. n ≤ length k.stacks) k.before.items × (k.standing ≤ length k.stacks) × (k.heights.items ≡ map height (stacks_in k.stacks k.before.items)) };
}

impl KindNotes {
    /// Makes notes where nothing stands and nothing was noted.
    pub fn new(alloc: Global) -> KindNotes
        ensures { result ≡ record { before = []; standing = [] } }
    {
        KindNotes {
            stacks: Stacks::new(alloc),
            before: Vec::new(alloc),
            heights: Vec::new(alloc),
            standing: 0,
        }
    }

    /// Enters what stands on top from now on.
    pub fn enter(&mut self, kind: Kind) -> Result<(), AllocError>
        ensures { OnOk result (self.new ≡ record { before = self.old.before; standing = kind ∷ self.old.standing }) }
    {
        self.stacks.push(kind, self.standing)?;
        self.standing = self.stacks.newest();
        Ok(())
    }

    /// Takes the newest off.
    pub fn leave(&mut self)
        ensures { self.new ≡ record { before = self.old.before; standing = below_newest self.old.standing } }
    {
        self.standing = self.stacks.without(self.standing, 1);
    }

    /// Notes what stands there now before the next instruction.
    pub fn note(&mut self) -> Result<(), AllocError>
        ensures { OnOk result (self.new ≡ record { before = self.old.before ++ self.old.standing ∷ []; standing = self.old.standing }) }
    {
        let height = self.stacks.height(self.standing);
        self.before.reserve(1)?;
        self.heights.reserve(1)?;
        self.before.push_reserved(self.standing);
        self.heights.push_reserved(height);
        Ok(())
    }

    /// Answers how many cells of a window are in use now.
    pub fn height(&self) -> usize
        ensures { result ≡ height self.now.standing }
    {
        self.stacks.height(self.standing)
    }

    /// Answers how many masters stand around now.
    pub fn depth(&self) -> usize
        ensures { result ≡ depth self.now.standing }
    {
        self.stacks.depth(self.standing)
    }

    /// Answers the cell of a slot of the master so many further out than the newest; None where the body has none there.
    pub fn variable_at(&self, out: usize, slot: usize) -> Option<usize>
        ensures { result ≡ variable_at self.now.standing out slot }
    {
        self.stacks.variable_at(self.standing, out, slot)
    }

    /// Answers how many cells a window has at most before the instructions so far.
    pub fn room(&self) -> usize
        ensures { (place : ℕ) (stack : List Kind) → slice_get self.now.before place ≡ Some stack → height stack ≤ result }
    {
        greatest_height(&self.stacks, self.before.as_slice())
    }

    /// Answers the table.
    pub fn finish(self) -> Kinds
        ensures { result ≡ self.before }
    {
        let KindNotes {
            stacks,
            before,
            heights,
            standing: _,
        } = self;
        Kinds {
            stacks,
            before,
            heights,
        }
    }
}
