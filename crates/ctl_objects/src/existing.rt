//! What is known of an object beside its cells.

ghost use Rattle.std.specs.Prelude.{◌≡◌};
ghost use Rattle.ctl_objects.specs.Existing.{existing};

use ctl_program::types::Ty;
use ctl_storage::{Allocation, Place, Stage};

/// Where an object comes from: it is declared in a master, or allocated for a collection, where it
/// lies at a place (RM 3.3.1, 4.8, 13.11).
#[derive(Clone, Copy)]
pub enum Origin {
    Declared(u64),
    Allocated { collection: u64, place: Place },
}

/// An object that exists: its own type, how far it has come, and where it comes from.
#[derive(Clone, Copy)]
pub struct Existing {
    pub ty: Ty,
    pub stage: Stage,
    pub origin: Origin,
}

impl Existing {
    /// Answers what is known of an allocated object beside its cells.
    pub(crate) fn allocated(object: &Allocation) -> Existing
        ensures { result ≡ existing object.now }
    {
        Existing {
            ty: object.ty,
            stage: object.stage,
            origin: Origin::Allocated {
                collection: object.collection,
                place: object.place,
            },
        }
    }
}
