//! Where the machine is, what waits on the control stack, the active masters, and the objects and collections that they own.

ghost use Rattle.std.specs.Prelude.{◌≡◌, ◌∷◌, [], IfOk, IsFalse, IsTrue, IfSome};
ghost use Rattle.ctl_frames.specs.Owned.{started_from, IsSet};
ghost use Rattle.ctl_code.specs.States.{object_of, worth};
ghost use Rattle.ctl_frames.specs.Holders.{word_of_formal};
ghost use Rattle.ctl_frames.specs.Spots.{located, spot_from};

use crate::spots::{Spot, Start};
use ctl_code::code::Way;
use ctl_storage::Place;
use ctl_tree::ending::Stop;
use ctl_tree::event::{Cause, Owner};
use std::alloc::{AllocError, Global};

/// How the statements of a master are completed (RM 7.6.1).
#[derive(Clone, Copy)]
pub enum Completion {
    Normal,
    Transferred(Way),
}

/// How the body of an operation has ended, or the finalization or the adjustment of a part: complete, where perhaps an operation in it
/// failed, or by an exception.
#[derive(Clone, Copy, Debug)]
pub enum Ended {
    Complete,
    OperationFailed,
    Raised(usize),
}

/// Where a master's end leads.
#[derive(Clone, Copy)]
pub enum After {
    /// behind a block, to this place
    Block(usize),
    /// behind the call of a procedure, to this place, where what so many of its first formals hold in the end are the newest operands
    /// (RM 6.4, 6.4.1)
    Procedure { place: usize, copies: usize },
    /// behind the call of a function, to this place, where its value is the newest operand (RM 6.4)
    Function { place: usize },
    /// behind the call of a function, to this place, where its value is the newest operand, that of a record of so many cells (RM 6.4, 6.5)
    Record { place: usize, cells: usize },
    /// to what waits for the body of an operation
    Body,
}

/// What is called: a procedure, a function whose value is one cell, or one whose value is that of a record of so many cells (RM 6.4).
#[derive(Clone, Copy)]
pub enum Callee {
    Procedure,
    Function,
    Record { cells: usize },
}

/// What becomes of an exception in a master: the place of its handlers, while none of them has begun, and the exception that the
/// innermost handler around handles, which `raise;` raises again (RM 11.3, 11.4).
#[derive(Clone, Copy)]
pub struct Handling {
    pub handlers: Option<usize>,
    pub caught: usize,
}

/// Components that are left among those that a frame goes through: from `first` on and before `last`.
#[derive(Clone, Copy)]
pub struct Left {
    pub first: usize,
    pub last: usize,
}

/// Components with a controlled part that are still to be finalized: some that stand side by side, and behind them some more.
#[derive(Clone, Copy)]
pub struct Apart {
    pub low: Left,
    pub high: Left,
}

/// Where the value of an assignment is: it is the newest one that is saved, for the target is still to take it; or the target has taken it.
#[derive(Clone, Copy)]
pub enum Value {
    Saved,
    Taken,
}

/// What becomes null where an object is freed: the variable of this slot in the master so many further out, or the newest part among those of
/// the engine, which is the component (RM 13.11.2).
#[derive(Clone, Copy)]
pub enum Nulled {
    Variable { out: usize, slot: usize },
    Part,
}

/// Where the storage of an object lies, and how many storage units it has (RM 13.11).
#[derive(Clone, Copy)]
pub struct Storage {
    pub place: Place,
    pub units: usize,
}

/// What a declaration declares: an object, or a block pool, which closes where its creation fails (RM 3.3.1, 13.11).
#[derive(Clone, Copy)]
pub enum Declared {
    Object,
    Pool,
}

/// What waits on the control stack.
#[derive(Clone, Copy)]
pub enum Frame {
    /// the statements of a master
    InMaster(Handling, After),
    /// the layers of a master that are still to be left: nothing that is owned from `next` on is one. Whether a finalization failed, and
    /// how its statements were completed (RM 7.6.1)
    Leaving {
        failed: bool,
        pending: Completion,
        after: After,
        next: usize,
    },
    /// the creation of the newest owned object is under way, or failed, what it is, and the place where its declaration goes on (RM 3.3.1)
    Creating {
        declared: Declared,
        place: usize,
    },
    /// the creation of an allocated object of this number is under way, or failed, and the place where its allocator goes on (RM 4.8)
    Allocating {
        object: u64,
        place: usize,
    },
    /// the newest owned object has taken a value and is adjusted: those of its parts that are adjusted are noted from `first` on; and the
    /// place where its declaration goes on (RM 3.3.1, 7.6)
    Copying {
        place: usize,
        first: usize,
    },
    /// an allocated object of this number, of a record type, has taken a value and is adjusted: those of its parts that are adjusted are noted
    /// from `first` on; and the place where its allocator goes on (RM 4.8, 7.6)
    AllocatingCopy {
        object: u64,
        record: usize,
        place: usize,
        first: usize,
    },
    /// the newest part among those of the engine, of a record type, is created for an object of this owner: of the components of its type
    /// that begin with something, those that are left, and those that are not complete (RM 3.8, 7.6)
    Filling {
        record: usize,
        owner: Owner,
        left: Left,
        incomplete: Left,
    },
    /// the default of a component of an object of this number is evaluated: its cell is so many behind the first of its part. The newest
    /// master had this window before, and so many parts (RM 3.8)
    Evaluating {
        object: u64,
        start: usize,
        offset: usize,
        window: usize,
        spots: usize,
    },
    /// the Initialize of the newest part, of a record type, which is created for an object of this owner (RM 7.6)
    Initializing {
        record: usize,
        owner: Owner,
    },
    /// the creation of the newest part failed by this exception, and what is complete of it is finalized (RM 7.6.1)
    Failing {
        exception: usize,
    },
    /// the newest part among those of the engine, of a record type, is assigned to: it is finalized where its value is saved, else it is
    /// adjusted; and the place where the assignment goes on (RM 5.2, 7.6)
    Assigning {
        record: usize,
        value: Value,
        place: usize,
    },
    /// the components of the newest part that are still to be adjusted before it, of those of its record type with a controlled part, and
    /// whose object is created by a copy, if one is (RM 7.6)
    Adjusting {
        creation: Option<Owner>,
        record: usize,
        left: Left,
    },
    /// the Adjust of the newest part, of a record type, whether an Adjust before it failed, and whose object is created by a copy, if one
    /// is (RM 7.6)
    AdjustingOwn {
        creation: Option<Owner>,
        record: usize,
        failed: bool,
    },
    /// an Adjust of the object of this number failed, and its parts that are noted from `first` on are finalized, which are adjusted
    /// (RM 7.6.1)
    Undoing {
        object: u64,
        first: usize,
    },
    /// the Finalize of the newest part, of a record type, which is one of those that are noted from `first` on (RM 7.6.1)
    UndoingOwn {
        record: usize,
        first: usize,
    },
    /// the components of the newest part that are still to be finalized, of those of its record type with a controlled part: the ones that
    /// are noted from `first` on, or have a part that is, and how many they are (RM 7.6.1)
    UndoingParts {
        record: usize,
        left: Left,
        count: usize,
        first: usize,
    },
    /// the members of some collections, from this one to this one, are finalized, and whether a finalization failed (RM 7.6.1)
    Emptying {
        first: u64,
        last: u64,
        failed: bool,
    },
    /// the finalization of the object of this number, which is freed, what becomes null, its storage, and the place where that goes on, if a
    /// Finalize failed, or else the next one (RM 13.11.2)
    Freeing {
        object: u64,
        nulled: Nulled,
        storage: Storage,
        place: usize,
    },
    /// the finalization of the object of this number, for this cause
    Finalizing {
        cause: Cause,
        number: u64,
    },
    /// the Finalize of the newest part, of a record type, for this cause (RM 7.6.1)
    FinalizingOwn {
        cause: Cause,
        record: usize,
    },
    /// the components of the newest part that are still to be finalized, of those of its record type with a controlled part, and whether a
    /// finalization in the part failed (RM 7.6.1)
    FinalizingParts {
        cause: Cause,
        record: usize,
        left: Apart,
        failed: bool,
    },
}

/// What the machine does next.
#[derive(Clone, Copy)]
pub enum Mode {
    /// the instruction at this place
    At(usize),
    /// leave the innermost master
    Transfers(Way),
    /// hand this to the frame that waits
    Giving(Ended),
    /// nothing: the program is erroneous at this point (RM 13.11.2)
    Stopped(Stop),
}

/// An active master. Its slots are so many cells, from `base` on.
#[derive(Clone, Copy)]
pub struct Master {
    pub number: u64,
    /// the first cell of the window of its body
    pub window: usize,
    pub base: usize,
    pub slots: usize,
    /// the master around it is the newest of so many; 0 where there is none
    pub link: usize,
    /// how many masters a place in it sees, itself included
    pub depth: usize,
    /// how many objects and collections were owned when it was entered
    pub owned: usize,
    /// how many formals of older masters stood for parts of objects when it was entered, and how many do with its own
    pub outer_formals: usize,
    pub formals: usize,
    /// how many parts there were when it was entered, with those that were put aside
    pub spots: usize,
}

/// A formal that stands for a part of an object: its slot in the master of the body, and the part (RM 6.2); or one that is the copy of a
/// record, which stands in place of the part as the value of one does among operands (RM 6.2).
#[derive(Drop)]
pub struct Formal {
    pub slot: usize,
    pub spot: Spot,
    pub is_value: bool,
}

/// What a slot holds: a whole object, of this number, or what the formal at this place stands for, a part or the copy of a record.
#[derive(Clone, Copy)]
pub enum Holder {
    Whole(u64),
    Bound(usize),
}

/// What is owned.
#[derive(Clone, Copy)]
pub enum Role {
    /// a declared object, of this record type (RM 3.3.1)
    Object { record: usize },
    /// the collection of an access type, and whether its finalization has started; where it is a layer, it stands for as many collections
    /// as `count` says, which came one after another, itself the last (RM 3.10, 7.6.1)
    Collection { started: bool, count: usize },
}

/// A declared object or a collection, and its master.
#[derive(Clone, Copy)]
pub struct Owned {
    /// the number of the object, or of the collection
    pub number: u64,
    /// the slot of its declaration in its master
    pub slot: usize,
    pub master: u64,
    /// whether it is a layer of its master: from the end of its creation on, until it is taken out (RM 7.6.1)
    pub is_layer: bool,
    /// how many collections were given a number when it came, itself included
    pub collections: u64,
    pub role: Role,
}

/// How many objects and collections were given a number; the first of each has number 1.
#[derive(Clone, Copy)]
pub struct Numbered {
    pub objects: u64,
    pub collections: u64,
}

impl Formal {
    /// Answers the cell that what it stands for has as an operand: the number of the object that a part is of, and 1 for the copy of a record.
    pub fn cell(&self) -> u64
        ensures { result ≡ worth (word_of_formal self.now) }
    {
        if self.is_value { 1 } else { self.spot.object() }
    }

    /// Answers the number of the object that it stands for a part of; 0 for the copy of a record.
    pub fn object(&self) -> u64
        ensures { result ≡ object_of (word_of_formal self.now) }
    {
        if self.is_value { 0 } else { self.spot.object() }
    }

    /// Answers where what it stands for begins, if that is a part to which no way leads.
    #[inline(always)]
    pub fn start(&self) -> Option<Start>
        ensures part { IfSome result (λ p. located (word_of_formal self.now ∷ []) ≡ spot_from p ∷ []) }
        ensures cell { IfSome result (λ p. p.object ≡ worth (word_of_formal self.now)) }
    {
        if self.is_value || !self.spot.has_no_path() {
            return None;
        }
        Some(Start {
            object: self.spot.object(),
            offset: self.spot.offset(),
        })
    }

    /// Answers what stands among the parts where what it stands for is an operand: a copy of the part, or of the value of the record.
    pub fn copied(&self, alloc: Global) -> Result<Spot, AllocError>
        ensures { IfOk result (λ s. located (word_of_formal self.now ∷ []) ≡ s ∷ []) }
    {
        if self.is_value {
            self.spot.copied_value(alloc)
        } else {
            self.spot.copied(alloc)
        }
    }
}

impl Owned {
    /// Marks that its finalization has started, if it is a collection from one to another.
    pub fn start(&mut self, first: u64, last: u64)
        ensures { self.new ≡ started_from first last self.old }
    {
        if let Role::Collection { count, .. } = self.role {
            if first <= self.number && self.number <= last {
                self.role = Role::Collection {
                    started: true,
                    count,
                };
            }
        }
    }

    /// Tells whether this is the collection of this number.
    pub fn is_set(self, number: u64) -> bool
        ensures set { IsTrue result → IsSet number self }
        ensures other { IsFalse result → IsSet number self → ⊥ }
    {
        match self.role {
            Role::Object { .. } => false,
            Role::Collection { .. } => self.number == number,
        }
    }
}
