//! Stacks that share what is below their newest: a stack is a number, 0 the empty one.

ghost use Rattle.std.specs.Prelude.{◌≡◌, ◌↔◌, ◌+◌, ◌-◌, ◌<◌, ◌≤◌, ◌^◌, [], ◌∷◌, ◌++◌, drop, length, List, IsTrue, IfSome, MatchOption, OnErr, OnOk};
ghost use Rattle.ctl_code.specs.declared.kinds.Kind.{Kind};
ghost use Rattle.ctl_code.specs.declared.kinds.Kind.TheVariants.{Body, Default};
ghost use Rattle.ctl_code.specs.Kinds.{stack_in, with_top};
ghost use Rattle.ctl_code.specs.Valid.{HaveNumbers, over_numbers};
ghost use Rattle.ctl_code.specs.Windows.{depth, height, master_at, slot_over, variable_at, OwnsSlot};

use crate::homes::Declaration;
use crate::kinds::{Kind, MasterAt, is_same_kind};
use ctl_program::types::Ty;
use std::alloc::{AllocError, Global};
use std::marker::Model;

/// What is newest on a stack, the stack below it, and how many cells and masters both have.
#[derive(Clone, Copy)]
struct Link {
    kind: Kind,
    below: usize,
    height: usize,
    depth: usize,
}

/// Answers how many cells there are with this above so many; None where no number says it.
fn height_with(kind: Kind, below: usize) -> Option<usize>
    ensures { IfSome result (λ sum. (stack : List Kind) → below ≡ height stack → sum ≡ height (kind ∷ stack)) }
{
    match kind {
        Kind::Operand(_) | Kind::RecordValue => below.checked_add(1),
        Kind::Block(slots) => below.checked_add(slots),
        Kind::Body { slots, .. } => below.checked_add(slots),
        Kind::Default { .. } => Some(below),
    }
}

/// Answers how many masters stand there with this inside so many; None where no number says it.
fn depth_with(kind: Kind, below: usize) -> Option<usize>
    ensures { IfSome result (λ sum. (stack : List Kind) → below ≡ depth stack → sum ≡ depth (kind ∷ stack)) }
{
    match kind {
        Kind::Operand(_) | Kind::RecordValue => Some(below),
        Kind::Block(_) => below.checked_add(1),
        Kind::Body { level, .. } => level.checked_add(1),
        Kind::Default { level, .. } => Some(level),
    }
}

/// Answers the cell of a slot, the newest of whose master is below this height.
fn slot_below(height: usize, slots: usize, slot: usize) -> Option<usize>
    requires { slots ≤ height }
    ensures { result ≡ slot_over (height - slots) slots slot }
{
    if slot < slots {
        Some(height - slots + slot)
    } else {
        None
    }
}

/// Answers where the slots of the master at a level are said, in a body of this number in so many masters, with so many slots.
fn master_in(own: usize, slots: usize, number: usize, level: usize) -> MasterAt
    ensures { (stack : List Kind) → result ≡ master_at (Body own slots number ∷ stack) level }
{
    if level < own {
        MasterAt::Around(Declaration::Subprogram(number))
    } else if level == own {
        MasterAt::Entered(slots)
    } else {
        MasterAt::Entered(0)
    }
}

/// Answers the same where a default of the record type of this number is evaluated, which is declared in so many masters.
fn master_around(own: usize, number: usize, level: usize) -> MasterAt
    ensures { (stack : List Kind) → result ≡ master_at (Default own number ∷ stack) level }
{
    if level < own {
        MasterAt::Around(Declaration::Record(number))
    } else {
        MasterAt::Entered(0)
    }
}

/// All stacks that were made.
///
/// A contract sees them in the order in which they were made, each with its newest first; a stack's number is its place in this
/// list, from 1.
#[derive(Drop)]
pub struct Stacks {
    links: Vec<Link>,
}

impl Model for Stacks {
    ghost use Rattle.std.specs.Prelude.{List, []};
    ghost use Rattle.ctl_code.specs.declared.kinds.Kind.{Kind};
    ghost use Rattle.ctl_code.specs.Stacks.{stacks_over, AreMeasured, LeadDown};

    ghost Value = { List (List Kind) };

    ghost view = { λ s. stacks_over [] s.links.items };

    ghost invariant = { λ s. LeadDown s.links.items × AreMeasured s.links.items };
}

impl Stacks {
    /// Makes stacks with none but the empty one.
    pub fn new(alloc: Global) -> Stacks
        ensures { result ≡ [] }
    {
        Stacks {
            links: Vec::new(alloc),
        }
    }

    /// Answers the number of the newest stack.
    pub fn newest(&self) -> usize
        ensures { result ≡ length self.now }
    {
        self.links.len()
    }

    /// Adds a stack: this kind on one that was made; unchanged where memory is refused, and where it would be too high for any memory.
    /// The numbers of the others stay.
    pub fn push(&mut self, kind: Kind, below: usize) -> Result<(), AllocError>
        requires { below ≤ length self.old }
        ensures ok { OnOk result (self.new ≡ self.old ++ (kind ∷ stack_in self.old below) ∷ []) }
        ensures err { OnErr result (self.new ≡ self.old) }
    {
        let Some(height) = height_with(kind, self.height(below)) else {
            return Err(AllocError);
        };
        let Some(depth) = depth_with(kind, self.depth(below)) else {
            return Err(AllocError);
        };
        self.links.push(Link {
            kind,
            below,
            height,
            depth,
        })?;
        Ok(())
    }

    /// Answers the link to what is newest on a stack; None where nothing stands on it.
    #[inline(always)]
    fn link(&self, stack: usize) -> Option<Link>
        ensures top { MatchOption result (stack_in self.now stack ≡ []) (λ link. stack_in self.now stack ≡ link.kind ∷ stack_in self.now link.below) }
        ensures below { IfSome result (λ link. link.below < stack) }
        ensures measures { IfSome result (λ link. (link.height ≡ height (stack_in self.now stack)) × (link.depth ≡ depth (stack_in self.now stack))) }
    {
        let link = self.links.get(stack.checked_sub(1)?)?;
        Some(*link)
    }

    /// Answers what is newest on a stack, and the stack below it; None where nothing stands on it.
    pub fn top(&self, stack: usize) -> Option<(Kind, usize)>
        ensures top { MatchOption result (stack_in self.now stack ≡ []) (λ top. stack_in self.now stack ≡ top.0 ∷ stack_in self.now top.1) }
        ensures below { IfSome result (λ top. top.1 < stack) }
    {
        let link = self.link(stack)?;
        Some((link.kind, link.below))
    }

    /// Answers how many cells a stack has.
    #[inline(always)]
    pub fn height(&self, stack: usize) -> usize
        ensures { result ≡ height (stack_in self.now stack) }
    {
        match self.link(stack) {
            Some(link) => link.height,
            None => 0,
        }
    }

    /// Answers how many masters stand around a place in the newest of a stack, itself included.
    pub fn depth(&self, stack: usize) -> usize
        ensures { result ≡ depth (stack_in self.now stack) }
    {
        match self.link(stack) {
            Some(link) => link.depth,
            None => 0,
        }
    }

    /// Answers the cell of a slot of the master so many further out than the newest; None where the body has none there.
    pub fn variable_at(&self, stack: usize, out: usize, slot: usize) -> Option<usize>
        ensures { result ≡ variable_at (stack_in self.now stack) out slot }
    {
        let (mut left, mut out) = (stack, out);
        while let Some(link) = self.link(left) {
            match link.kind {
                Kind::Block(slots) | Kind::Body { slots, .. } if out == 0 => {
                    return slot_below(link.height, slots, slot);
                }
                Kind::Operand(_) | Kind::RecordValue => {}
                Kind::Block(_) => out -= 1,
                Kind::Body { .. } | Kind::Default { .. } => return None,
            }
            left = link.below;
        }
        None
    }

    /// Answers where the slots of the master at a level, the outermost at 0, are said.
    pub fn master_at(&self, stack: usize, level: usize) -> MasterAt
        ensures { result ≡ master_at (stack_in self.now stack) level }
    {
        let mut left = stack;
        while let Some(link) = self.link(left) {
            match link.kind {
                Kind::Block(slots) if level == self.depth(link.below) => {
                    return MasterAt::Entered(slots);
                }
                Kind::Operand(_) | Kind::RecordValue | Kind::Block(_) => left = link.below,
                Kind::Body {
                    level: own,
                    slots,
                    number,
                } => return master_in(own, slots, number, level),
                Kind::Default { level: own, number } => return master_around(own, number, level),
            }
        }
        MasterAt::Entered(0)
    }

    /// Tells whether the newest master has this slot, and the body has entered it.
    pub fn owns_slot(&self, stack: usize, slot: usize) -> bool
        ensures { IsTrue result ↔ OwnsSlot (stack_in self.now stack) slot }
    {
        let mut left = stack;
        while let Some(link) = self.link(left) {
            match link.kind {
                Kind::Block(slots) | Kind::Body { slots, .. } => return slot < slots,
                Kind::Operand(_) | Kind::RecordValue => {}
                Kind::Default { .. } => return false,
            }
            left = link.below;
        }
        false
    }

    /// Answers the stack without so many of its newest.
    #[inline(always)]
    pub fn without(&self, stack: usize, taken: usize) -> usize
        ensures left { stack_in self.now result ≡ drop taken (stack_in self.now stack) }
        ensures older { result ≤ stack }
    {
        let mut left = stack;
        for _ in 0..taken {
            match self.top(left) {
                Some((_, below)) => left = below,
                None => return 0,
            }
        }
        left
    }

    /// Tells whether so many numbers stand on top.
    pub fn has_numbers(&self, stack: usize, count: usize) -> bool
        ensures { IsTrue result ↔ HaveNumbers count (stack_in self.now stack) }
    {
        let mut left = stack;
        for _ in 0..count {
            let Some((kind, below)) = self.top(left) else {
                return false;
            };
            if !is_same_kind(kind, Kind::Operand(Ty::Integer)) {
                return false;
            }
            left = below;
        }
        true
    }

    /// Tells whether a stack is another one with this on top, if any, and so many numbers over it.
    pub fn is_over_numbers(
        &self,
        stack: usize,
        count: usize,
        kind: Option<Kind>,
        below: usize,
    ) -> bool
        ensures { IsTrue result ↔ (stack_in self.now stack ≡ over_numbers count (with_top kind (stack_in self.now below))) }
    {
        self.has_numbers(stack, count) && self.is_with_top(self.without(stack, count), kind, below)
    }

    /// Tells whether the same stands on both.
    pub fn is_same(&self, left: usize, right: usize) -> bool
        ensures { IsTrue result ↔ (stack_in self.now left ≡ stack_in self.now right) }
    {
        let (mut left, mut right) = (left, right);
        while left != right {
            match (self.top(left), self.top(right)) {
                (Some((kind, below)), Some((other, under))) if is_same_kind(kind, other) => {
                    left = below;
                    right = under;
                }
                (None, None) => return true,
                _ => return false,
            }
        }
        true
    }

    /// Tells whether a stack is another one with this on top, if any.
    pub fn is_with_top(&self, stack: usize, kind: Option<Kind>, below: usize) -> bool
        ensures { IsTrue result ↔ (stack_in self.now stack ≡ with_top kind (stack_in self.now below)) }
    {
        let Some(kind) = kind else {
            return self.is_same(stack, below);
        };
        match self.top(stack) {
            Some((newest, rest)) => is_same_kind(newest, kind) && self.is_same(rest, below),
            None => false,
        }
    }
}
