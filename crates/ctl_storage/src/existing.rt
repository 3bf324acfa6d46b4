//! What is known of an allocated object.

ghost use Rattle.std.specs.Prelude.{◌≡◌};
ghost use Rattle.ctl_storage.specs.Stages.{after, ended, start};

use ctl_program::types::Ty;
use pool_store::Spot;

/// How far the finalization of an object has come (RM 7.6.1).
#[derive(Clone, Copy, PartialEq, Eq)]
pub enum Life {
    Untouched,
    Finalizing,
    Finalized,
}

/// How far an object has come: with its finalization, and whether it has joined its collection.
#[derive(Clone, Copy, PartialEq, Eq)]
pub struct Stage {
    pub life: Life,
    pub has_joined: bool,
}

/// Where an allocated object lies (RM 13.11): in the standard pool, or in a block of a block pool.
#[derive(Clone, Copy, PartialEq, Eq)]
pub enum Place {
    Standard,
    InBlock(Spot),
}

/// An allocated object, but for the values of its cells: its own type, its collection, where it
/// lies, how many cells it has, and how far it has come.
#[derive(Clone, Copy, PartialEq, Eq)]
pub struct Allocation {
    pub ty: Ty,
    pub collection: u64,
    pub place: Place,
    pub cells: usize,
    pub stage: Stage,
}

/// A step of an object: its finalization begins or is complete, or it joins its collection (RM
/// 7.6.1).
#[derive(Clone, Copy)]
pub enum Step {
    Begin,
    End,
    Join,
}

impl Stage {
    /// Makes the stage of a new object.
    pub fn start() -> Stage
        ensures { result ≡ start }
    {
        Stage {
            life: Life::Untouched,
            has_joined: false,
        }
    }

    /// Answers the stage after a step. A finalization that has not begun does not end.
    pub fn after(self, step: Step) -> Stage
        ensures { result ≡ after step self }
    {
        match step {
            Step::Begin => Stage {
                life: Life::Finalizing,
                has_joined: self.has_joined,
            },
            Step::End => Stage {
                life: ended(self.life),
                has_joined: self.has_joined,
            },
            Step::Join => Stage {
                life: self.life,
                has_joined: true,
            },
        }
    }
}

/// Answers the life after the end of a finalization, where one has begun.
fn ended(life: Life) -> Life
    ensures { result ≡ ended life }
{
    match life {
        Life::Untouched => Life::Untouched,
        Life::Finalizing | Life::Finalized => Life::Finalized,
    }
}
