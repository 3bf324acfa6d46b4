//! What judging notes on its way.

use ctl_program::types::Ty;
use ctl_tree::fault::Fault;
use sqlite_items::Items;

/// What an expression does to the declarative part around it.
#[derive(Clone, Copy)]
pub enum Deed {
    /// it freezes this type (RM 13.14)
    Freezes(Ty),
    /// it creates an object of this type
    Creates(Ty),
    /// it initializes an object of this type by its defaults (RM 3.3.1)
    Initializes(Ty),
    /// it allocates for this access type (RM 4.8)
    Allocates(usize),
    /// it calls this subprogram
    Calls(usize),
}

/// The first faults by place so far; and, where somebody asks for it, what the expressions so far do.
#[derive(Drop)]
pub struct Notes {
    /// of the rules on names, order and completion, which are told before any other
    pub early: Option<Fault>,
    /// of the rules on types
    pub fault: Option<Fault>,
    pub deeds: Option<Items<Deed>>,
}
